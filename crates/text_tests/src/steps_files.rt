use crate::checks::{same, same_row};
use crate::messages::as_text;
use arrayvec::ArrayVec;
use std::alloc::{AllocError, Global};
use std::process::Abort;
use std::test::Fail;
use stow_messages::{StepRow, StepsCode, StepsFault, one_steps_file, steps};
use units_core::Cell;

/// What a row prints: its word and fields, the cells in seven digits.
fn row_text(alloc: Global, row: &StepRow) -> Result<String, AllocError> {
    match row {
        StepRow::Lift(number) => format!(in alloc; "lift {number};"),
        StepRow::Tank { name, kg } => {
            let name = as_text(name.as_slice());
            format!(in alloc; "tank {name} {kg};")
        }
        StepRow::Restow { from, to, id } => {
            let Cell { bay, row, tier } = *from;
            let first = format!(in alloc; "{bay:03}{row:02}{tier:02}")?;
            let Cell { bay, row, tier } = *to;
            let id = as_text(id.as_slice());
            format!(in alloc; "restow {first} {bay:03}{row:02}{tier:02} {id};")
        }
    }
}

/// The result of reading a steps file where there are `lifts` lifts: its rows one after another, or
/// its fault.
fn answer(alloc: Global, text: &[u8], lifts: u32) -> Result<String, AllocError> {
    let rows = match steps(alloc, text, lifts) {
        Ok(rows) => rows,
        Err(fault) => return format!(in alloc; "{fault}"),
    };
    let mut answer = String::new(alloc);
    for row in &rows {
        let one = row_text(alloc, row)?;
        answer.push_str(one.as_str())?;
    }
    Ok(answer)
}

/// Each file's records, under a heading, with its answer.
fn check(rt: &(impl Abort + AllocGlobal), lifts: u32, rows: &[(&str, &str)]) -> Result<(), Fail> {
    for (records, want) in rows {
        let text = format!(in rt.alloc(); "step,a,b,c\n{records}")?;
        let answer = answer(rt.alloc(), text.as_bytes(), lifts)?;
        same_row(rt, records, answer.as_str(), *want);
    }
    Ok(())
}

#[test]
fn steps_file_of_every_kind(rt: HostRuntime) -> Result<(), Fail> {
    let text =
        b"step,a,b,c\ntank,DB 1,0,\nlift,2,,\nrestow,0010082,030282,\nlift, 1 ,,\nrestow,0010082,0030282,AB\ntank,A123456789ABCDEF,1000000000,\n";
    let shown = answer(rt.alloc(), text, 2)?;
    same(
        &rt,
        shown.as_str(),
        "tank DB 1 0;lift 2;restow 0010082 0030282 ;lift 1;restow 0010082 0030282 AB;tank A123456789ABCDEF 1000000000;",
    );
    one_steps_file();
    Ok(())
}

/// Records of a file with one lift, and its answer.
static FAULTS: [(&str, &str); 20] = [
    ("lift,1,,\n", "lift 1;"),
    ("lift,2,,\n", "G4 line 2"),
    ("lift,0,,\n", "G4 line 2"),
    ("lift,-1,,\n", "G4 line 2"),
    ("lift,-999999999999999999,,\n", "G4 line 2"),
    ("lift,4294967297,,\n", "G4 line 2"),
    ("lift,1,,\nlift,1,,\n", "G5 line 3"),
    ("", "G6 lift 1"),
    ("tank,DB1,1,\n", "G6 lift 1"),
    ("lift,1,x,\n", "G3 line 2"),
    ("lift,1, ,\n", "G3 line 2"),
    ("lift,1,,x\n", "G3 line 2"),
    ("lift,,,\n", "G3 line 2"),
    ("lift,1.0,,\n", "G3 line 2"),
    ("lift,0000000000000000001,,\n", "G3 line 2"),
    ("swap,1,,\n", "G2 line 2"),
    ("Lift,1,,\n", "G2 line 2"),
    (" lift,1,,\n", "G2 line 2"),
    ("lift,1,\n", "G1 line 2"),
    ("lift,1,,,\n", "G1 line 2"),
];

#[test]
fn steps_file_faults(rt: HostRuntime) -> Result<(), Fail> {
    check(&rt, 1, &FAULTS)
}

/// Records of a file without a lift, and its answer.
static TANKS_AND_RESTOWS: [(&str, &str); 13] = [
    ("tank,DB1,1000000001,\n", "G3 line 2"),
    ("tank,DB1,-1,\n", "G3 line 2"),
    ("tank,DB1,,\n", "G3 line 2"),
    ("tank,DB1,1,x\n", "G3 line 2"),
    ("tank,,1,\n", "G3 line 2"),
    ("tank,A123456789ABCDEFG,1,\n", "G3 line 2"),
    (
        "restow,0010082,0030082,A123456789ABCDEFG\n",
        "restow 0010082 0030082 A123456789ABCDEFG;",
    ),
    ("restow,0010082,0030082,A123456789ABCDEFGH\n", "G3 line 2"),
    ("restow,10082,0030082,\n", "G3 line 2"),
    ("restow, 010082,0030082,\n", "G3 line 2"),
    ("restow,0010082,,\n", "G3 line 2"),
    ("tank,5,6,\n", "tank 5 6;"),
    ("tank,DB1,1000000000,\n", "tank DB1 1000000000;"),
];

#[test]
fn tanks_and_restows_refused(rt: HostRuntime) -> Result<(), Fail> {
    check(&rt, 0, &TANKS_AND_RESTOWS)
}

/// Of three lifts: the first fault of a record, and of the records the first.
static FIRST_FAULTS: [(&str, &str); 7] = [
    ("swap,1,\n", "G1 line 2"),
    ("swap,x,,\n", "G2 line 2"),
    ("lift,9,x,\n", "G3 line 2"),
    ("lift,2,,\nlift,9,,\nlift,2,,\n", "G4 line 3"),
    ("lift,2,,\nlift,2,,\nswap,1,,\n", "G5 line 3"),
    ("lift,3,,\nlift,1,,\n", "G6 lift 2"),
    ("lift,3,,\n", "G6 lift 1"),
];

#[test]
fn order_of_faults(rt: HostRuntime) -> Result<(), Fail> {
    check(&rt, 3, &FIRST_FAULTS)
}

/// Quotes, CR LF, a byte order mark and blank lines at the end.
#[test]
fn a_spreadsheets_habits(rt: HostRuntime) -> Result<(), Fail> {
    let text =
        b"\xef\xbb\xbf\"kind\",\"\",\"\",\"\"\r\n\"tank\",\"DB,1\",\"5\",\"\"\r\nlift,\"1\",,\r\n\r\n";
    let shown = answer(rt.alloc(), text, 1)?;
    same(&rt, shown.as_str(), "tank DB,1 5;lift 1;");
    Ok(())
}

/// Files with no heading or one of another number of fields, how many lifts there are, and the
/// answer.
static HEADINGS: [(&str, u32, &str); 6] = [
    ("", 0, ""),
    ("", 2, "G6 lift 1"),
    ("step,a,b,c", 0, ""),
    ("step,a,b\nlift,1,,\n", 1, "G1 line 1"),
    ("step,a,b,c,d\n", 0, "G1 line 1"),
    ("lift,1,,\n", 1, "G6 lift 1"),
];

#[test]
fn headings_of_steps_files(rt: HostRuntime) -> Result<(), Fail> {
    for (text, lifts, want) in &HEADINGS {
        let shown = answer(rt.alloc(), text.as_bytes(), *lifts)?;
        same_row(&rt, text, shown.as_str(), *want);
    }
    Ok(())
}

/// What stands behind 200,000 records, and how many rows there are, or the fault. The next record
/// is number 200,002, the heading being 1, and is refused before its fields are read.
static FILE_ENDS: [(&str, &str); 2] = [("", "200000"), ("swap\n", "G7 line 200002")];

/// A file of 200,000 records that ends so.
fn long_file(alloc: Global, end: &str) -> Result<String, AllocError> {
    let mut text = String::from_str(alloc, "step,a,b,c\n")?;
    for _ in 0..200_000 {
        text.push_str("tank,A,1,\n")?;
    }
    text.push_str(end)?;
    Ok(text)
}

#[test]
fn a_record_too_many(rt: HostRuntime) -> Result<(), Fail> {
    for (end, expected) in &FILE_ENDS {
        let text = long_file(rt.alloc(), end)?;
        let shown = match steps(rt.alloc(), text.as_bytes(), 0) {
            Ok(rows) => rows.len().to_string(rt.alloc())?,
            Err(fault) => fault.to_string(rt.alloc())?,
        };
        same_row(&rt, end, shown.as_str(), *expected);
    }
    Ok(())
}

#[test]
fn want_of_memory_has_no_place(rt: HostRuntime) -> Result<(), Fail> {
    let fault = StepsFault {
        code: StepsCode::NoMemory,
        at: 0,
    };
    same(&rt, fault.to_string(rt.alloc())?.as_str(), "G8");
    Ok(())
}

#[test]
fn equal_rows(rt: HostRuntime) -> Result<(), Fail> {
    let mut name: ArrayVec<u8, 16> = ArrayVec::new();
    let _ = name.try_extend_from_slice(b"DB1");
    let mut id: ArrayVec<u8, 17> = ArrayVec::new();
    let _ = id.try_extend_from_slice(b"AB");
    let from = Cell::read(b"0010082").ok_or("a cell")?;
    let to = Cell::read(b"0030082").ok_or("a cell")?;
    let lift = StepRow::Lift(7).copy();
    same(&rt, lift, StepRow::Lift(7));
    let tank = StepRow::Tank { name, kg: 5 };
    let copy = tank.copy();
    same(&rt, copy, tank);
    let restow = StepRow::Restow { from, to, id };
    let copy = restow.copy();
    same(&rt, copy, restow);
    Ok(())
}
