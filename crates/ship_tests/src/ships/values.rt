//! What a profile gives, compared with the numbers that stand in its files. The ship is one of
//! which no two numbers are equal, so that one in the place of another shows.
use super::files::{check_words, lend};
use super::profiles::with_text;
use ship_profile::{Curves, File, Hydro, Profile, ProfileBytes, one_array, one_profile};
use std::alloc::Global;
use std::fmt::Debug;
use std::process::Abort;
use std::test::Fail;
use units_core::Cell;

static UNLIKE_SHIP: &[u8] = b"lbp_mm = 90001
downflooding_deg = 41
draught_max_mm = 7003
trim_max_mm = 604
list_max = 505
closing_max_kg = 4006
stations_mm = [-107, 20008, 51009, 92010]
[[blocks]]
kg = 700011
x_mm = 30012
y_mm = -13
z_mm = 5014
half_mm = 15015
[[blocks]]
kg = 600016
x_mm = 62017
y_mm = 18
z_mm = 4019
half_mm = 11020
[[frames]]
x_mm = 20008
shear_max_kg = 21021
hog_max_kgmm = 22022022
sag_max_kgmm = 23023023
[[frames]]
x_mm = 51009
shear_max_kg = 24024
hog_max_kgmm = 25025025
sag_max_kgmm = 26026026
[[fills]]
tank = \"S\"
kg = 27
[[fills]]
tank = \"P\"
kg = 1028
";

static UNLIKE_CELLS: &[u8] = b"cell,x,y,z,half
0010384,31031,1032,6033,3034
0050284,71035,-2036,7037,6038
";

static UNLIKE_HYDRO: &[u8] = b"kg,draught,kmt,lcb,lcf,mct
1000039,2040,9041,45042,44043,8000044
2000045,4046,8047,46048,43049,9000050
";

static UNLIKE_KN: &[u8] = b"kg,0,5,10,15,20,25,30,35,40,45,50,55,60
1000051,100,200,300,400,500,600,700,800,900,1000,1100,1200,1300
2000052,150,250,350,450,550,650,750,850,950,1050,1150,1250,1350
";

static UNLIKE_BONJEAN: &[u8] = b"draught,-107,20008,51009,92010
53,5400,5500,5600,5700
6058,59000,60000,61000,62000
";

static UNLIKE_TANKS: &[u8] = b"tank,kg,x,y,z,half,fsm
P,1000,20063,-3064,1065,566,67000
P,1100,20066,-3067,1066,570,67003
S,20,60068,69,70,71,72
S,30,60070,66,75,79,93
";

static UNLIKE_GM: &[u8] = b"kg,gm
1000076,277
2000078,379
";

/// Her files.
pub fn unlike_ship() -> ProfileBytes<'static> {
    ProfileBytes {
        ship: UNLIKE_SHIP,
        cells: UNLIKE_CELLS,
        hydro: UNLIKE_HYDRO,
        kn: UNLIKE_KN,
        bonjean: UNLIKE_BONJEAN,
        tanks: UNLIKE_TANKS,
        gm: Some(UNLIKE_GM),
    }
}

/// What is asked of a profile.
#[derive(Clone, Copy)]
enum Asked {
    /// The angle of down-flooding; length, greatest draught and trim; greatest list and closing
    /// error.
    Limits,
    Stations,
    Blocks,
    Frames,
    Fills,
    Hydro,
    Levers,
    Bonjean,
    /// The areas between a row of the Bonjean table and the next, as straight lines.
    Lines(usize),
    /// By what the areas count.
    Weights,
    LeastGm,
    /// Where the container of a cell stands.
    Cell(Cell),
    /// The number of a cell.
    CellNumber(Cell),
    /// The number of a tank by its name.
    Tank(&'static str),
    /// A tank that holds this mass, in kg.
    Filling(u16, u32),
    /// All of it.
    Whole,
}

/// A value as it is debugged.
fn debug_text<T: Debug + Drop>(alloc: Global, value: T) -> Result<String, Fail> {
    Ok(format!(in alloc; "{value:?}")?)
}

/// The columns of the hydrostatic table from left to right.
fn hydro_text(alloc: Global, hydro: &Hydro) -> Result<String, Fail> {
    let first = [hydro.kg(), hydro.draught(), hydro.kmt()];
    let last = [hydro.lcb(), hydro.lcf(), hydro.mct()];
    debug_text(alloc, [first, last])
}

/// The arguments, each curve, and what stands behind the last.
fn curves_text(alloc: Global, curves: &Curves) -> Result<String, Fail> {
    let arguments = curves.arguments();
    let mut text = format!(in alloc; "{arguments:?}")?;
    for number in 0..curves.columns() {
        let column = curves.column(number);
        write!(text, " {column:?}")?;
    }
    let behind = curves.column(curves.columns());
    write!(text, " {behind:?}")?;
    Ok(text)
}

fn least_gm_text(alloc: Global, profile: &Profile) -> Result<String, Fail> {
    match profile.least_gm() {
        Some(curves) => curves_text(alloc, curves),
        None => Ok(String::from_str(alloc, "None")?),
    }
}

fn limits_text(alloc: Global, profile: &Profile) -> Result<String, Fail> {
    let lengths = [profile.lbp(), profile.draught_max(), profile.trim_max()];
    let others = [profile.list_max(), profile.closing_max()];
    debug_text(alloc, (profile.downflooding(), lengths, others))
}

fn values_shown(alloc: Global, profile: &Profile, asked: Asked) -> Result<String, Fail> {
    match asked {
        Asked::Limits => limits_text(alloc, profile),
        Asked::Stations => debug_text(alloc, profile.stations()),
        Asked::Blocks => debug_text(alloc, profile.blocks()),
        Asked::Frames => debug_text(alloc, profile.frames().as_slice()),
        Asked::Fills => debug_text(alloc, profile.fills()),
        Asked::Hydro => hydro_text(alloc, profile.hydro()),
        Asked::Levers => curves_text(alloc, profile.levers()),
        Asked::Bonjean => curves_text(alloc, profile.bonjean()),
        Asked::Lines(row) => debug_text(alloc, profile.sections().row(row)),
        Asked::Weights => debug_text(alloc, profile.sections().weights()),
        Asked::LeastGm => least_gm_text(alloc, profile),
        Asked::Cell(cell) => debug_text(alloc, profile.cell(cell)),
        Asked::CellNumber(cell) => debug_text(alloc, profile.cell_number(cell)),
        Asked::Tank(name) => debug_text(alloc, profile.tank(name.as_bytes())),
        Asked::Filling(tank, kg) => debug_text(alloc, profile.tank_item(tank, kg)),
        Asked::Whole => debug_text(alloc, profile),
    }
}

/// What is asked of the profile that these files are.
fn answer(alloc: Global, files: &ProfileBytes<'_>, asked: Asked) -> Result<String, Fail> {
    let read = Profile::read(alloc, files);
    lend(
        read,
        |profile: &Profile| values_shown(alloc, profile, asked),
    )?
}

/// Compares an answer of these files with the expected one.
fn check_answer(
    rt: &(impl Abort + AllocGlobal),
    files: &ProfileBytes<'_>,
    asked: Asked,
    want: &str,
) -> Result<(), Fail> {
    let answer = answer(rt.alloc(), files, asked)?;
    check_words(rt, answer.as_str(), want, want);
    Ok(())
}

/// Each number as its file has it; a filling on the straight line between two rows, each figure
/// rounded down.
static UNLIKE: [(Asked, &str); 23] = [
    (
        Asked::Limits,
        "(41, [Mm { mm: 90001 }, Mm { mm: 7003 }, Mm { mm: 604 }], [505, 4006])",
    ),
    (
        Asked::Stations,
        "[Mm { mm: -107 }, Mm { mm: 20008 }, Mm { mm: 51009 }, Mm { mm: 92010 }]",
    ),
    (
        Asked::Blocks,
        "[Body { kg: 700011, place: Place { x: Mm { mm: 30012 }, y: Mm { mm: -13 }, z: Mm { mm: 5014 }, half: Mm { mm: 15015 } }, fsm: 0 }, \
Body { kg: 600016, place: Place { x: Mm { mm: 62017 }, y: Mm { mm: 18 }, z: Mm { mm: 4019 }, half: Mm { mm: 11020 } }, fsm: 0 }]",
    ),
    (
        Asked::Frames,
        "[Frame { x: Mm { mm: 20008 }, shear_max: 21021, hog_max: 22022022, sag_max: 23023023 }, \
Frame { x: Mm { mm: 51009 }, shear_max: 24024, hog_max: 25025025, sag_max: 26026026 }]",
    ),
    // the tanks by their numbers, in the order of the fills
    (
        Asked::Fills,
        "[TankFill { tank: 1, kg: 27 }, TankFill { tank: 0, kg: 1028 }]",
    ),
    (
        Asked::Hydro,
        "[[[1000039, 2000045], [2040, 4046], [9041, 8047]], \
[[45042, 46048], [44043, 43049], [8000044, 9000050]]]",
    ),
    (
        Asked::Levers,
        "[1000051, 2000052] Some([100, 150]) Some([200, 250]) Some([300, 350]) Some([400, 450]) \
Some([500, 550]) Some([600, 650]) Some([700, 750]) Some([800, 850]) Some([900, 950]) \
Some([1000, 1050]) \
Some([1100, 1150]) Some([1200, 1250]) Some([1300, 1350]) None",
    ),
    (
        Asked::Bonjean,
        "[53, 6058] Some([5400, 59000]) Some([5500, 60000]) Some([5600, 61000]) Some([5700, 62000]) None",
    ),
    (Asked::LeastGm, "[1000076, 2000078] Some([277, 379]) None"),
    (
        Asked::Cell(Cell {
            bay: 1,
            row: 3,
            tier: 84,
        }),
        "Some(Place { x: Mm { mm: 31031 }, y: Mm { mm: 1032 }, z: Mm { mm: 6033 }, half: Mm { mm: 3034 } })",
    ),
    (
        Asked::Cell(Cell {
            bay: 5,
            row: 2,
            tier: 84,
        }),
        "Some(Place { x: Mm { mm: 71035 }, y: Mm { mm: -2036 }, z: Mm { mm: 7037 }, half: Mm { mm: 6038 } })",
    ),
    (
        Asked::Cell(Cell {
            bay: 1,
            row: 2,
            tier: 84,
        }),
        "None",
    ),
    (
        Asked::CellNumber(Cell {
            bay: 5,
            row: 2,
            tier: 84,
        }),
        "Some(1)",
    ),
    (
        Asked::CellNumber(Cell {
            bay: 1,
            row: 2,
            tier: 84,
        }),
        "None",
    ),
    (Asked::Tank("P"), "Some(0)"),
    (Asked::Tank("S"), "Some(1)"),
    (Asked::Tank("p"), "None"),
    (Asked::Filling(0, 999), "None"),
    // 28 of 100 kg above the first row: 20063.84, -3064.84, 1065.28, 567.12, 67000.84
    (
        Asked::Filling(0, 1028),
        "Some(Body { kg: 1028, place: Place { x: Mm { mm: 20063 }, y: Mm { mm: -3065 }, z: Mm { mm: 1065 }, half: Mm { mm: 567 } }, fsm: 67000 })",
    ),
    (Asked::Filling(0, 1101), "None"),
    // 7 of 10 kg above the first row: 60069.4, 66.9, 73.5, 76.6, 86.7
    (
        Asked::Filling(1, 27),
        "Some(Body { kg: 27, place: Place { x: Mm { mm: 60069 }, y: Mm { mm: 66 }, z: Mm { mm: 73 }, half: Mm { mm: 76 } }, fsm: 86 })",
    ),
    (Asked::Filling(1, 1028), "None"),
    (Asked::Filling(2, 27), "None"),
];

#[test]
fn profile_of_unlike_numbers(rt: HostRuntime) -> Result<(), Fail> {
    for (asked, want) in &UNLIKE {
        check_answer(&rt, &unlike_ship(), *asked, want)?;
    }
    one_array();
    one_profile();
    Ok(())
}

/// A Bonjean table of three rows, in which areas fall, stay and rise.
static BENT_BONJEAN: &[u8] = b"draught,-107,20008,51009,92010
53,5400,5500,5600,5700
353,5410,5300,5600,9999
6058,59000,60000,61000,62000
";

/// The areas between two rows in 2^-36 cm2: from the lower row on, and how much they rise for each
/// mm, rounded up, as 200 * 2^36 / 300 down and 10 * 2^36 / 300 up. None lie behind the last row.
/// The weights are the sums of the lengths on both sides, and of the lengths times twice a place
/// with the next one's: at 20008 mm 20115 * (40016 - 107) + 31001 * (40016 + 51009).
static SECTIONS: [(Asked, &str); 4] = [
    (
        Asked::Lines(0),
        "[AreaLine { start: 371085174374400, slope: 2290649225 }, AreaLine { start: 377957122048000, slope: -45812984490 }, AreaLine { start: 384829069721600, slope: 0 }, AreaLine { start: 391701017395200, slope: 984750101627 }]",
    ),
    (
        Asked::Lines(1),
        "[AreaLine { start: 371772369141760, slope: 645517398472 }, AreaLine { start: 364213226700800, slope: 658887883867 }, AreaLine { start: 384829069721600, slope: 667319721503 }, AreaLine { start: 687126047883264, slope: 626377127038 }]",
    ),
    (Asked::Lines(2), "[]"),
    (
        Asked::Weights,
        "[StationWeight { volume: 20115, moment: 398156310 }, StationWeight { volume: 51116, moment: 3624635560 }, StationWeight { volume: 72002, moment: 11738270054 }]",
    ),
];

#[test]
fn areas_as_lines_and_weights(rt: HostRuntime) -> Result<(), Fail> {
    let files = with_text(unlike_ship(), File::Bonjean, BENT_BONJEAN);
    for (asked, want) in &SECTIONS {
        check_answer(&rt, &files, *asked, want)?;
    }
    Ok(())
}

/// One cell of the least bay and row, by which the tables that find cells are short.
static ONE_CELL: &[u8] = b"cell,x,y,z,half
0000084,31031,1032,6033,3034
";

/// The ship, her tables and her fills, with the tables that find a cell, but without the lines and
/// weights that are worked out of the ship and her Bonjean table.
static WHOLE: &str =
    "Profile { ship: Ship { lbp: Mm { mm: 90001 }, downflooding: 41, draught_max: Mm { mm: 7003 }, \
trim_max: Mm { mm: 604 }, list_max: 505, closing_max: 4006, stations: [Mm { mm: -107 }, Mm { \
mm: 20008 }, Mm { mm: 51009 }, Mm { mm: 92010 }], blocks: [Body { kg: 700011, place: Place { x: \
Mm { mm: 30012 }, y: Mm { mm: -13 }, z: Mm { mm: 5014 }, half: Mm { mm: 15015 } }, fsm: 0 }, \
Body { kg: 600016, place: Place { x: Mm { mm: 62017 }, y: Mm { mm: 18 }, z: Mm { mm: 4019 }, \
half: Mm { mm: 11020 } }, fsm: 0 }], frames: Frames { frames: [Frame { x: Mm { mm: 20008 }, \
shear_max: 21021, hog_max: 22022022, sag_max: 23023023 }, Frame { x: Mm { mm: 51009 }, \
shear_max: 24024, hog_max: 25025025, sag_max: 26026026 }] } }, tables: Tables { cells: \
CellPlaces { cells: CellList { cells: [Cell { bay: 0, row: 0, tier: 84 }], blocks: [1], \
entries: [0, 0, 0, 0, 0, 0, 0, 0, 0, 0, 0, 0, 0, 0, 0, 0, 0, 0, 0, 0, 0, 0, 0, 0, 0, 0, 0, 0, \
0, 0, 0, 0, 0, 0, 0, 0, 0, 0, 0, 0, 0, 0, 0, 0, 0, 0, 0, 0, 0, 0, 0, 0, 0, 0, 0, 0, 0, 0, 0, 0, \
0, 0, 0, 0, 0, 0, 0, 0, 0, 0, 0, 0, 0, 0, 0, 0, 0, 0, 0, 0, 0, 0, 0, 0, 0, 0, 0, 0, 0, 0, 0, 0, \
0, 0, 0, 0, 0, 0, 0, 0, 0, 0, 0, 0, 0, 0, 0, 0, 0, 0, 0, 0, 0, 0, 0, 0, 0, 0, 0, 0, 0, 0, 0, 0, \
0, 0, 0, 0, 0, 0, 0, 0, 0, 0, 0, 0, 0, 0, 0, 0, 0, 0, 0, 0, 0, 0, 0, 0, 0, 0, 0, 0, 0, 0, 0, 0, \
0, 0, 0, 0, 0, 0, 0, 0, 0, 0, 0, 0, 0, 0, 0, 0, 0, 0, 0, 0, 0, 0, 0, 0, 0, 0, 0, 0, 0, 0, 0, 0, \
0, 0, 0, 0, 0, 0, 0, 0, 0, 0, 0, 0], sure: true }, places: [Place { x: Mm { mm: 31031 }, y: Mm \
{ mm: 1032 }, z: Mm { mm: 6033 }, half: Mm { mm: 3034 } }] }, hydro: Hydro { kg: [1000039, \
2000045], draught: [2040, 4046], kmt: [9041, 8047], lcb: [45042, 46048], lcf: [44043, 43049], \
mct: [8000044, 9000050] }, levers: Curves { arguments: [1000051, 2000052], columns: [[100, \
150], [200, 250], [300, 350], [400, 450], [500, 550], [600, 650], [700, 750], [800, 850], [900, \
950], [1000, 1050], [1100, 1150], [1200, 1250], [1300, 1350]] }, bonjean: Curves { arguments: \
[53, 6058], columns: [[5400, 59000], [5500, 60000], [5600, 61000], [5700, 62000]] }, tanks: \
Tanks { names: {[80], [83]}, tables: [TankRows { kg: [1000, 1100], centres: Centres { x: \
[20063, 20066], y: [-3064, -3067], z: [1065, 1066], half: [566, 570] }, fsm: [67000, 67003] }, \
TankRows { kg: [20, 30], centres: Centres { x: [60068, 60070], y: [69, 66], z: [70, 75], half: \
[71, 79] }, fsm: [72, 93] }] }, least_gm: Some(Curves { arguments: [1000076, 2000078], columns: \
[[277, 379]] }) }, fills: [TankFill { tank: 1, kg: 27 }, TankFill { tank: 0, kg: 1028 }] }";

#[test]
fn profile_debugged(rt: HostRuntime) -> Result<(), Fail> {
    let files = ProfileBytes {
        cells: ONE_CELL,
        ..unlike_ship()
    };
    check_answer(&rt, &files, Asked::Whole, WHOLE)
}
