use crate::checks::{holds, holds_row, same_row};
use ship_tables::{
    Curves, Extent, File, Hydro, TableFault, TableTexts, Tables, one_file, one_record, one_set,
    sound_hydro_is_read,
};
use std::alloc::Global;
use std::fmt::Debug;
use std::process::Abort;
use std::test::Fail;
use units_core::{Cell, Mm};

/// The tables of the box ship: 100 m long, with vertical sides.
pub static CELLS: &str =
    "cell,x,y,z,half\n0010082,75000,0,10000,3029\n0020082,62500,0,10000,6096\n0030082,50000,0,10000,3029\n\
0030782,50000,8000,10000,3029\n0050082,25000,0,10000,3029\n";

pub static HYDRO: &str = "kg,draught,kmt,lcb,lcf,mct\n4100000,2000,17667,50000,50000,17000000\n\
8200000,4000,10333,50000,50000,17000000\n12300000,6000,8556,50000,50000,17000000\n";

pub static LEVERS: &str = "kg,0,5,10,15,20,25,30,35,40,45,50,55,60\n\
4100000,0,900,1790,2650,3470,4230,4900,5400,5750,5980,6110,6150,6110\n\
8200000,0,900,1790,2650,3470,4230,4900,5400,5750,5980,6110,6150,6110\n\
12300000,0,900,1790,2650,3470,4230,4900,5400,5750,5980,6110,6150,6110\n";

pub static BONJEAN: &str = "draught,0,25000,50000,75000,100000\n0,0,0,0,0,0\n\
8000,1600000,1600000,1600000,1600000,1600000\n";

pub static TANKS: &str =
    "tank,kg,x,y,z,half,fsm\nDB1,0,50000,0,0,5000,0\nDB1,500000,50000,0,1000,5000,2050000000\n";

pub static LEAST_GM: &str = "kg,gm\n4100000,4433\n12300000,4233\n";

/// From the box ship's first station to her last.
pub fn extent() -> Extent {
    Extent {
        aft: Mm::of(0),
        fore: Mm::of(100_000),
    }
}

/// As far as lengths go either way.
pub fn widest() -> Extent {
    Extent {
        aft: Mm::of(-1_000_000),
        fore: Mm::of(1_000_000),
    }
}

fn box_texts() -> TableTexts<'static> {
    TableTexts {
        cells: CELLS.as_bytes(),
        hydro: HYDRO.as_bytes(),
        levers: LEVERS.as_bytes(),
        bonjean: BONJEAN.as_bytes(),
        tanks: TANKS.as_bytes(),
        least_gm: None,
    }
}

/// Texts, one of them in another form.
fn with_text<'a>(texts: TableTexts<'a>, file: File, text: &'a [u8]) -> TableTexts<'a> {
    match file {
        File::Ship => texts,
        File::Cells => TableTexts {
            cells: text,
            ..texts
        },
        File::Hydro => TableTexts {
            hydro: text,
            ..texts
        },
        File::Levers => TableTexts {
            levers: text,
            ..texts
        },
        File::Bonjean => TableTexts {
            bonjean: text,
            ..texts
        },
        File::Tanks => TableTexts {
            tanks: text,
            ..texts
        },
        File::LeastGm => TableTexts {
            least_gm: Some(text),
            ..texts
        },
    }
}

/// The fault of these texts; none where they are tables. It owns tables, and does nothing else with
/// them: each way of dropping them has its proof.
fn fault_of(alloc: Global, extent: &Extent, texts: &TableTexts<'_>) -> Option<TableFault> {
    Tables::read(alloc, *extent, 5, texts).err()
}

/// The words of a fault; none where there is none.
fn words(alloc: Global, fault: Option<TableFault>) -> Result<String, Fail> {
    match fault {
        Some(fault) => Ok(format!(in alloc; "{fault}")?),
        None => Ok(String::new(alloc)),
    }
}

/// The words of the fault of the box ship's texts, one of them in another form; none where they are
/// tables.
pub fn refusal(alloc: Global, extent: &Extent, file: File, text: &str) -> Result<String, Fail> {
    let texts = with_text(box_texts(), file, text.as_bytes());
    words(alloc, fault_of(alloc, extent, &texts))
}

/// Compares words with the expected ones of a case.
pub fn check_words(rt: &impl Abort, words: &str, want: &str, case: &str) {
    same_row(rt, case, words, want);
}

/// Reads a text and compares the words of its fault; none for a text that is taken.
pub fn check_text(
    rt: &(impl Abort + AllocGlobal),
    extent: &Extent,
    file: File,
    text: &str,
    want: &str,
) -> Result<(), Fail> {
    let refused = refusal(rt.alloc(), extent, file, text)?;
    check_words(rt, refused.as_str(), want, text);
    Ok(())
}

/// Tables of which no two numbers are equal, so that one in the place of another shows.
static UNLIKE_CELLS: &str =
    "cell,x,y,z,half\n0010384,31031,1032,6033,3034\n0050284,71035,-2036,7037,6038\n";

static UNLIKE_HYDRO: &str = "kg,draught,kmt,lcb,lcf,mct\n1000039,2040,9041,45042,44043,8000044\n\
2000045,4046,8047,46048,43049,9000050\n";

static UNLIKE_LEVERS: &str = "kg,0,5,10,15,20,25,30,35,40,45,50,55,60\n\
1000051,100,200,300,400,500,600,700,800,900,1000,1100,1200,1300\n\
2000052,150,250,350,450,550,650,750,850,950,1050,1150,1250,1350\n";

static UNLIKE_BONJEAN: &str = "draught,0,25000,50000,75000,100000\n\
53,5400,5500,5600,5700,5800\n6058,59000,60000,61000,62000,63000\n";

static UNLIKE_TANKS: &str = "tank,kg,x,y,z,half,fsm\nP,1000,20063,-3064,1065,566,67000\n\
P,1100,20066,-3067,1066,570,67003\nS,20,60068,69,70,71,72\nS,30,60070,66,75,79,93\n";

static UNLIKE_LEAST_GM: &str = "kg,gm\n1000076,277\n2000078,379\n";

fn unlike_texts() -> TableTexts<'static> {
    TableTexts {
        cells: UNLIKE_CELLS.as_bytes(),
        hydro: UNLIKE_HYDRO.as_bytes(),
        levers: UNLIKE_LEVERS.as_bytes(),
        bonjean: UNLIKE_BONJEAN.as_bytes(),
        tanks: UNLIKE_TANKS.as_bytes(),
        least_gm: Some(UNLIKE_LEAST_GM.as_bytes()),
    }
}

/// What is asked of tables.
#[derive(Clone, Copy)]
enum Asked {
    Hydro,
    Levers,
    Bonjean,
    LeastGm,
    /// Where the container of a cell stands.
    Cell(Cell),
    /// The number of a tank by its name, and how many tanks there are.
    Tank(&'static str),
    /// The filling of a tank with this mass, in kg.
    Filling(u16, u32),
}

/// A value as it is debugged.
fn debug_text<T: Debug + Drop>(alloc: Global, value: T) -> Result<String, Fail> {
    Ok(format!(in alloc; "{value:?}")?)
}

/// The columns of the hydrostatic table from left to right.
fn hydro_text(alloc: Global, hydro: &Hydro) -> Result<String, Fail> {
    let first = [hydro.kg(), hydro.draught(), hydro.kmt()];
    let last = [hydro.lcb(), hydro.lcf(), hydro.mct()];
    debug_text(alloc, [first, last])
}

/// The arguments, each curve, and what stands behind the last.
fn curves_text(alloc: Global, curves: &Curves) -> Result<String, Fail> {
    let arguments = curves.arguments();
    let mut text = format!(in alloc; "{arguments:?}")?;
    for number in 0..curves.columns() {
        let column = curves.column(number);
        write!(text, " {column:?}")?;
    }
    let behind = curves.column(curves.columns());
    write!(text, " {behind:?}")?;
    Ok(text)
}

fn least_gm_text(alloc: Global, tables: &Tables) -> Result<String, Fail> {
    match tables.least_gm() {
        Some(curves) => curves_text(alloc, curves),
        None => Ok(String::from_str(alloc, "None")?),
    }
}

/// The number of a tank by its name, and how many tanks there are.
fn tank_text(alloc: Global, tables: &Tables, name: &str) -> Result<String, Fail> {
    debug_text(alloc, (tables.tank(name.as_bytes()), tables.tanks()))
}

fn values_shown(alloc: Global, tables: &Tables, asked: Asked) -> Result<String, Fail> {
    match asked {
        Asked::Hydro => hydro_text(alloc, tables.hydro()),
        Asked::Levers => curves_text(alloc, tables.levers()),
        Asked::Bonjean => curves_text(alloc, tables.bonjean()),
        Asked::LeastGm => least_gm_text(alloc, tables),
        Asked::Cell(cell) => debug_text(alloc, tables.cell(cell)),
        Asked::Tank(name) => tank_text(alloc, tables, name),
        Asked::Filling(tank, kg) => debug_text(alloc, tables.tank_item(tank, kg)),
    }
}

/// What a look at what was read gives. What was read is of any type here, so that no proof has to
/// take tables apart.
fn lend<T: Drop, R, F: FnOnce(&T) -> R>(read: Result<T, TableFault>, look: F) -> Result<R, Fail>
    requires { F.IsAlwaysCallable look }
{
    match read {
        Ok(value) => Ok(look(&value)),
        Err(fault) => Err(Fail::new(fault)),
    }
}

/// What is asked of the tables that these texts write.
fn answer(alloc: Global, texts: &TableTexts<'_>, asked: Asked) -> Result<String, Fail> {
    let read = Tables::read(alloc, extent(), 5, texts);
    lend(read, |tables: &Tables| values_shown(alloc, tables, asked))?
}

/// Compares each answer of these texts with the one beside it.
fn check_answers(
    rt: &(impl Abort + AllocGlobal),
    texts: &TableTexts<'_>,
    rows: &[(Asked, &str)],
) -> Result<(), Fail> {
    for (asked, want) in rows {
        let answer = answer(rt.alloc(), texts, *asked)?;
        check_words(rt, answer.as_str(), want, want);
    }
    Ok(())
}

/// Each number as its text has it; a filling on the straight line between two rows, each figure
/// rounded down.
static UNLIKE: [(Asked, &str); 19] = [
    (
        Asked::Cell(Cell {
            bay: 1,
            row: 3,
            tier: 84,
        }),
        "Some(Place { x: Mm { mm: 31031 }, y: Mm { mm: 1032 }, z: Mm { mm: 6033 }, half: Mm { mm: 3034 } })",
    ),
    (
        Asked::Cell(Cell {
            bay: 5,
            row: 2,
            tier: 84,
        }),
        "Some(Place { x: Mm { mm: 71035 }, y: Mm { mm: -2036 }, z: Mm { mm: 7037 }, half: Mm { mm: 6038 } })",
    ),
    // another bay, row or tier than each has
    (
        Asked::Cell(Cell {
            bay: 3,
            row: 3,
            tier: 84,
        }),
        "None",
    ),
    (
        Asked::Cell(Cell {
            bay: 1,
            row: 2,
            tier: 84,
        }),
        "None",
    ),
    (
        Asked::Cell(Cell {
            bay: 1,
            row: 3,
            tier: 82,
        }),
        "None",
    ),
    (
        Asked::Hydro,
        "[[[1000039, 2000045], [2040, 4046], [9041, 8047]], \
[[45042, 46048], [44043, 43049], [8000044, 9000050]]]",
    ),
    (
        Asked::Levers,
        "[1000051, 2000052] Some([100, 150]) Some([200, 250]) Some([300, 350]) Some([400, 450]) \
Some([500, 550]) Some([600, 650]) Some([700, 750]) Some([800, 850]) Some([900, 950]) \
Some([1000, 1050]) \
Some([1100, 1150]) Some([1200, 1250]) Some([1300, 1350]) None",
    ),
    (
        Asked::Bonjean,
        "[53, 6058] Some([5400, 59000]) Some([5500, 60000]) Some([5600, 61000]) Some([5700, 62000]) Some([5800, 63000]) None",
    ),
    (Asked::LeastGm, "[1000076, 2000078] Some([277, 379]) None"),
    (Asked::Tank("P"), "(Some(0), 2)"),
    (Asked::Tank("S"), "(Some(1), 2)"),
    (Asked::Tank("p"), "(None, 2)"),
    (Asked::Filling(0, 999), "None"),
    (
        Asked::Filling(0, 1000),
        "Some(Body { kg: 1000, place: Place { x: Mm { mm: 20063 }, y: Mm { mm: -3064 }, z: Mm { mm: 1065 }, half: Mm { mm: 566 } }, fsm: 67000 })",
    ),
    // 28 of 100 kg above the first row: 20063.84, -3064.84, 1065.28, 567.12, 67000.84
    (
        Asked::Filling(0, 1028),
        "Some(Body { kg: 1028, place: Place { x: Mm { mm: 20063 }, y: Mm { mm: -3065 }, z: Mm { mm: 1065 }, half: Mm { mm: 567 } }, fsm: 67000 })",
    ),
    (
        Asked::Filling(0, 1100),
        "Some(Body { kg: 1100, place: Place { x: Mm { mm: 20066 }, y: Mm { mm: -3067 }, z: Mm { mm: 1066 }, half: Mm { mm: 570 } }, fsm: 67003 })",
    ),
    (Asked::Filling(0, 1101), "None"),
    // 7 of 10 kg above the first row: 60069.4, 66.9, 73.5, 76.6, 86.7
    (
        Asked::Filling(1, 27),
        "Some(Body { kg: 27, place: Place { x: Mm { mm: 60069 }, y: Mm { mm: 66 }, z: Mm { mm: 73 }, half: Mm { mm: 76 } }, fsm: 86 })",
    ),
    (Asked::Filling(2, 27), "None"),
];

#[test]
fn tables_of_unlike_numbers(rt: HostRuntime) -> Result<(), Fail> {
    one_file();
    one_record();
    one_set();
    sound_hydro_is_read();
    check_answers(&rt, &unlike_texts(), &UNLIKE)
}

/// The double bottom tank of the box ship: each kg raises the filling by 1/500 mm and adds 4,100 kg
/// mm.
static BOX: [(Asked, &str); 11] = [
    (Asked::LeastGm, "None"),
    (Asked::Tank("DB1"), "(Some(0), 1)"),
    (Asked::Tank("DB2"), "(None, 1)"),
    (Asked::Tank(""), "(None, 1)"),
    (
        Asked::Filling(0, 0),
        "Some(Body { kg: 0, place: Place { x: Mm { mm: 50000 }, y: Mm { mm: 0 }, z: Mm { mm: 0 }, half: Mm { mm: 5000 } }, fsm: 0 })",
    ),
    (
        Asked::Filling(0, 100_001),
        "Some(Body { kg: 100001, place: Place { x: Mm { mm: 50000 }, y: Mm { mm: 0 }, z: Mm { mm: 200 }, half: Mm { mm: 5000 } }, fsm: 410004100 })",
    ),
    (
        Asked::Filling(0, 499_999),
        "Some(Body { kg: 499999, place: Place { x: Mm { mm: 50000 }, y: Mm { mm: 0 }, z: Mm { mm: 999 }, half: Mm { mm: 5000 } }, fsm: 2049995900 })",
    ),
    (
        Asked::Filling(0, 500_000),
        "Some(Body { kg: 500000, place: Place { x: Mm { mm: 50000 }, y: Mm { mm: 0 }, z: Mm { mm: 1000 }, half: Mm { mm: 5000 } }, fsm: 2050000000 })",
    ),
    (Asked::Filling(0, 500_001), "None"),
    (Asked::Filling(0, 4_294_967_295), "None"),
    (Asked::Filling(1, 0), "None"),
];

#[test]
fn tank_fill(rt: HostRuntime) -> Result<(), Fail> {
    check_answers(&rt, &box_texts(), &BOX)
}

/// Whether tables are those that these texts write.
fn are_of(alloc: Global, tables: &Tables, texts: &TableTexts<'_>) -> Result<bool, Fail> {
    let read = Tables::read(alloc, widest(), 5, texts);
    lend(read, |other: &Tables| tables.same(other))
}

/// Whether the tables of two ships' texts are equal.
fn are_same(alloc: Global, first: &TableTexts<'_>, second: &TableTexts<'_>) -> Result<bool, Fail> {
    let read = Tables::read(alloc, widest(), 5, first);
    lend(read, |tables: &Tables| are_of(alloc, tables, second))?
}

/// The files of tables.
static FILES: [File; 6] = [
    File::Cells,
    File::Hydro,
    File::Levers,
    File::Bonjean,
    File::Tanks,
    File::LeastGm,
];

/// A file of the box ship.
fn box_text(file: File) -> &'static str {
    match file {
        File::Ship => "",
        File::Cells => CELLS,
        File::Hydro => HYDRO,
        File::Levers => LEVERS,
        File::Bonjean => BONJEAN,
        File::Tanks => TANKS,
        File::LeastGm => LEAST_GM,
    }
}

#[test]
fn equal_tables(rt: HostRuntime) -> Result<(), Fail> {
    holds(&rt, are_same(rt.alloc(), &unlike_texts(), &unlike_texts())?);
    for file in &FILES {
        let other = with_text(unlike_texts(), *file, box_text(*file).as_bytes());
        holds_row(&rt, file, !are_same(rt.alloc(), &unlike_texts(), &other)?);
    }
    Ok(())
}
