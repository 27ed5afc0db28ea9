use crate::tables::{
    BONJEAN, CELLS, HYDRO, LEAST_GM, LEVERS, TANKS, check_text, check_words, extent, refusal,
    widest,
};
use ship_tables::File;
use ship_tables::File::{Bonjean, Cells, Hydro, LeastGm, Levers, Tanks};
use std::alloc::Global;
use std::process::Abort;
use std::test::Fail;

/// The box ship's text of a file.
fn own_text(file: File) -> &'static str {
    match file {
        File::Ship => "",
        File::Cells => CELLS,
        File::Hydro => HYDRO,
        File::Levers => LEVERS,
        File::Bonjean => BONJEAN,
        File::Tanks => TANKS,
        File::LeastGm => LEAST_GM,
    }
}

/// The prefixes of each file, from one length to before another, and the words of their faults; the
/// last of a file go to its end.
static PREFIXES: [(File, usize, usize, &str); 69] = [
    (Cells, 0, 1, "P13 cells.csv"),
    // the heading, cut before its last field and in it
    (Cells, 1, 11, "P4 cells.csv 1"),
    (Cells, 11, 17, "P13 cells.csv"),
    // each row, cut before its last field, before that field's first digit, and after it
    (Cells, 17, 38, "P4 cells.csv 2"),
    (Cells, 38, 39, "P5 cells.csv 2"),
    (Cells, 39, 44, ""),
    (Cells, 44, 65, "P4 cells.csv 3"),
    (Cells, 65, 66, "P5 cells.csv 3"),
    (Cells, 66, 71, ""),
    (Cells, 71, 92, "P4 cells.csv 4"),
    (Cells, 92, 93, "P5 cells.csv 4"),
    (Cells, 93, 98, ""),
    (Cells, 98, 122, "P4 cells.csv 5"),
    (Cells, 122, 123, "P5 cells.csv 5"),
    (Cells, 123, 128, ""),
    (Cells, 128, 149, "P4 cells.csv 6"),
    (Cells, 149, 150, "P5 cells.csv 6"),
    (Cells, 150, 999, ""),
    (Hydro, 0, 1, "P13 hydro.csv"),
    (Hydro, 1, 23, "P4 hydro.csv 1"),
    (Hydro, 23, 28, "P13 hydro.csv"),
    (Hydro, 28, 58, "P4 hydro.csv 2"),
    (Hydro, 58, 59, "P5 hydro.csv 2"),
    (Hydro, 59, 68, "P13 hydro.csv"),
    (Hydro, 68, 98, "P4 hydro.csv 3"),
    (Hydro, 98, 99, "P5 hydro.csv 3"),
    (Hydro, 99, 108, ""),
    (Hydro, 108, 138, "P4 hydro.csv 4"),
    (Hydro, 138, 139, "P5 hydro.csv 4"),
    (Hydro, 139, 999, ""),
    (Levers, 0, 1, "P13 kn.csv"),
    (Levers, 1, 37, "P4 kn.csv 1"),
    (Levers, 37, 41, "P13 kn.csv"),
    (Levers, 41, 104, "P4 kn.csv 2"),
    (Levers, 104, 105, "P5 kn.csv 2"),
    (Levers, 105, 110, "P13 kn.csv"),
    (Levers, 110, 173, "P4 kn.csv 3"),
    (Levers, 173, 174, "P5 kn.csv 3"),
    (Levers, 174, 179, ""),
    (Levers, 179, 243, "P4 kn.csv 4"),
    (Levers, 243, 244, "P5 kn.csv 4"),
    (Levers, 244, 999, ""),
    (Bonjean, 0, 1, "P13 bonjean.csv"),
    (Bonjean, 1, 28, "P4 bonjean.csv 1"),
    (Bonjean, 28, 36, "P13 bonjean.csv"),
    (Bonjean, 36, 45, "P4 bonjean.csv 2"),
    (Bonjean, 45, 46, "P5 bonjean.csv 2"),
    (Bonjean, 46, 48, "P13 bonjean.csv"),
    (Bonjean, 48, 84, "P4 bonjean.csv 3"),
    (Bonjean, 84, 85, "P5 bonjean.csv 3"),
    (Bonjean, 85, 999, ""),
    // no record: no tank
    (Tanks, 0, 1, ""),
    (Tanks, 1, 19, "P4 tanks.csv 1"),
    (Tanks, 19, 24, ""),
    (Tanks, 24, 44, "P4 tanks.csv 2"),
    (Tanks, 44, 45, "P5 tanks.csv 2"),
    (Tanks, 45, 47, "P13 tanks.csv"),
    (Tanks, 47, 75, "P4 tanks.csv 3"),
    (Tanks, 75, 76, "P5 tanks.csv 3"),
    (Tanks, 76, 999, ""),
    (LeastGm, 0, 1, "P13 gm.csv"),
    (LeastGm, 1, 3, "P4 gm.csv 1"),
    (LeastGm, 3, 7, "P13 gm.csv"),
    (LeastGm, 7, 14, "P4 gm.csv 2"),
    (LeastGm, 14, 15, "P5 gm.csv 2"),
    (LeastGm, 15, 20, "P13 gm.csv"),
    (LeastGm, 20, 28, "P4 gm.csv 3"),
    (LeastGm, 28, 29, "P5 gm.csv 3"),
    (LeastGm, 29, 999, ""),
];

/// Reads the prefixes of a file from one length to before another, those that it has.
fn check_prefixes(
    rt: &(impl Abort + AllocGlobal),
    file: File,
    from: usize,
    past: usize,
    want: &str,
) -> Result<(), Fail> {
    for length in from..past {
        if let Some(prefix) = own_text(file).get(..length) {
            check_text(rt, &extent(), file, prefix, want)?;
        }
    }
    Ok(())
}

#[test]
fn every_prefix_of_each_file(rt: HostRuntime) -> Result<(), Fail> {
    for (file, from, past, want) in &PREFIXES {
        check_prefixes(&rt, *file, *from, *past, want)?;
    }
    Ok(())
}

/// The columns of each file: what stands before the field in a file of one record and behind it,
/// both ends of its range, and the words for a number within it and beyond it. One record is enough
/// for `cells.csv` alone.
static RANGES: [(File, &str, &str, i64, i64, &str, &str); 38] = [
    (
        Cells,
        "h,h,h,h,h\n0030082,",
        ",5,5,0",
        -1_000_000,
        1_000_000,
        "",
        "P6 cells.csv 2",
    ),
    (
        Cells,
        "h,h,h,h,h\n0030082,5,",
        ",5,5",
        -1_000_000,
        1_000_000,
        "",
        "P6 cells.csv 2",
    ),
    (
        Cells,
        "h,h,h,h,h\n0030082,5,5,",
        ",5",
        -1_000_000,
        1_000_000,
        "",
        "P6 cells.csv 2",
    ),
    (
        Cells,
        "h,h,h,h,h\n0030082,0,5,5,",
        "",
        0,
        1_000_000,
        "",
        "P6 cells.csv 2",
    ),
    (
        Hydro,
        "h,h,h,h,h,h\n",
        ",5,5,5,5,5",
        1,
        1_000_000_000,
        "P13 hydro.csv",
        "P6 hydro.csv 2",
    ),
    (
        Hydro,
        "h,h,h,h,h,h\n5,",
        ",5,5,5,5",
        0,
        100_000,
        "P13 hydro.csv",
        "P6 hydro.csv 2",
    ),
    (
        Hydro,
        "h,h,h,h,h,h\n5,5,",
        ",5,5,5",
        0,
        1_000_000,
        "P13 hydro.csv",
        "P6 hydro.csv 2",
    ),
    (
        Hydro,
        "h,h,h,h,h,h\n5,5,5,",
        ",5,5",
        -1_000_000,
        1_000_000,
        "P13 hydro.csv",
        "P6 hydro.csv 2",
    ),
    (
        Hydro,
        "h,h,h,h,h,h\n5,5,5,5,",
        ",5",
        -1_000_000,
        1_000_000,
        "P13 hydro.csv",
        "P6 hydro.csv 2",
    ),
    (
        Hydro,
        "h,h,h,h,h,h\n5,5,5,5,5,",
        "",
        1,
        1_000_000_000,
        "P13 hydro.csv",
        "P6 hydro.csv 2",
    ),
    (
        Levers,
        "h,h,h,h,h,h,h,h,h,h,h,h,h,h\n",
        ",5,5,5,5,5,5,5,5,5,5,5,5,5",
        1,
        1_000_000_000,
        "P13 kn.csv",
        "P6 kn.csv 2",
    ),
    (
        Levers,
        "h,h,h,h,h,h,h,h,h,h,h,h,h,h\n5,",
        ",5,5,5,5,5,5,5,5,5,5,5,5",
        0,
        1_000_000,
        "P13 kn.csv",
        "P6 kn.csv 2",
    ),
    (
        Levers,
        "h,h,h,h,h,h,h,h,h,h,h,h,h,h\n5,5,",
        ",5,5,5,5,5,5,5,5,5,5,5",
        0,
        1_000_000,
        "P13 kn.csv",
        "P6 kn.csv 2",
    ),
    (
        Levers,
        "h,h,h,h,h,h,h,h,h,h,h,h,h,h\n5,5,5,",
        ",5,5,5,5,5,5,5,5,5,5",
        0,
        1_000_000,
        "P13 kn.csv",
        "P6 kn.csv 2",
    ),
    (
        Levers,
        "h,h,h,h,h,h,h,h,h,h,h,h,h,h\n5,5,5,5,",
        ",5,5,5,5,5,5,5,5,5",
        0,
        1_000_000,
        "P13 kn.csv",
        "P6 kn.csv 2",
    ),
    (
        Levers,
        "h,h,h,h,h,h,h,h,h,h,h,h,h,h\n5,5,5,5,5,",
        ",5,5,5,5,5,5,5,5",
        0,
        1_000_000,
        "P13 kn.csv",
        "P6 kn.csv 2",
    ),
    (
        Levers,
        "h,h,h,h,h,h,h,h,h,h,h,h,h,h\n5,5,5,5,5,5,",
        ",5,5,5,5,5,5,5",
        0,
        1_000_000,
        "P13 kn.csv",
        "P6 kn.csv 2",
    ),
    (
        Levers,
        "h,h,h,h,h,h,h,h,h,h,h,h,h,h\n5,5,5,5,5,5,5,",
        ",5,5,5,5,5,5",
        0,
        1_000_000,
        "P13 kn.csv",
        "P6 kn.csv 2",
    ),
    (
        Levers,
        "h,h,h,h,h,h,h,h,h,h,h,h,h,h\n5,5,5,5,5,5,5,5,",
        ",5,5,5,5,5",
        0,
        1_000_000,
        "P13 kn.csv",
        "P6 kn.csv 2",
    ),
    (
        Levers,
        "h,h,h,h,h,h,h,h,h,h,h,h,h,h\n5,5,5,5,5,5,5,5,5,",
        ",5,5,5,5",
        0,
        1_000_000,
        "P13 kn.csv",
        "P6 kn.csv 2",
    ),
    (
        Levers,
        "h,h,h,h,h,h,h,h,h,h,h,h,h,h\n5,5,5,5,5,5,5,5,5,5,",
        ",5,5,5",
        0,
        1_000_000,
        "P13 kn.csv",
        "P6 kn.csv 2",
    ),
    (
        Levers,
        "h,h,h,h,h,h,h,h,h,h,h,h,h,h\n5,5,5,5,5,5,5,5,5,5,5,",
        ",5,5",
        0,
        1_000_000,
        "P13 kn.csv",
        "P6 kn.csv 2",
    ),
    (
        Levers,
        "h,h,h,h,h,h,h,h,h,h,h,h,h,h\n5,5,5,5,5,5,5,5,5,5,5,5,",
        ",5",
        0,
        1_000_000,
        "P13 kn.csv",
        "P6 kn.csv 2",
    ),
    (
        Levers,
        "h,h,h,h,h,h,h,h,h,h,h,h,h,h\n5,5,5,5,5,5,5,5,5,5,5,5,5,",
        "",
        0,
        1_000_000,
        "P13 kn.csv",
        "P6 kn.csv 2",
    ),
    (
        Bonjean,
        "h,h,h,h,h,h\n",
        ",5,5,5,5,5",
        0,
        100_000,
        "P13 bonjean.csv",
        "P6 bonjean.csv 2",
    ),
    (
        Bonjean,
        "h,h,h,h,h,h\n5,",
        ",5,5,5,5",
        0,
        100_000_000,
        "P13 bonjean.csv",
        "P6 bonjean.csv 2",
    ),
    (
        Bonjean,
        "h,h,h,h,h,h\n5,5,",
        ",5,5,5",
        0,
        100_000_000,
        "P13 bonjean.csv",
        "P6 bonjean.csv 2",
    ),
    (
        Bonjean,
        "h,h,h,h,h,h\n5,5,5,",
        ",5,5",
        0,
        100_000_000,
        "P13 bonjean.csv",
        "P6 bonjean.csv 2",
    ),
    (
        Bonjean,
        "h,h,h,h,h,h\n5,5,5,5,",
        ",5",
        0,
        100_000_000,
        "P13 bonjean.csv",
        "P6 bonjean.csv 2",
    ),
    (
        Bonjean,
        "h,h,h,h,h,h\n5,5,5,5,5,",
        "",
        0,
        100_000_000,
        "P13 bonjean.csv",
        "P6 bonjean.csv 2",
    ),
    (
        Tanks,
        "h,h,h,h,h,h,h\nA,",
        ",5,5,5,5,5",
        0,
        1_000_000_000,
        "P13 tanks.csv",
        "P6 tanks.csv 2",
    ),
    (
        Tanks,
        "h,h,h,h,h,h,h\nA,5,",
        ",5,5,0,5",
        -1_000_000,
        1_000_000,
        "P13 tanks.csv",
        "P6 tanks.csv 2",
    ),
    (
        Tanks,
        "h,h,h,h,h,h,h\nA,5,5,",
        ",5,5,5",
        -1_000_000,
        1_000_000,
        "P13 tanks.csv",
        "P6 tanks.csv 2",
    ),
    (
        Tanks,
        "h,h,h,h,h,h,h\nA,5,5,5,",
        ",5,5",
        -1_000_000,
        1_000_000,
        "P13 tanks.csv",
        "P6 tanks.csv 2",
    ),
    (
        Tanks,
        "h,h,h,h,h,h,h\nA,5,0,5,5,",
        ",5",
        0,
        1_000_000,
        "P13 tanks.csv",
        "P6 tanks.csv 2",
    ),
    (
        Tanks,
        "h,h,h,h,h,h,h\nA,5,5,5,5,5,",
        "",
        0,
        1_000_000_000_000,
        "P13 tanks.csv",
        "P6 tanks.csv 2",
    ),
    (
        LeastGm,
        "h,h\n",
        ",5",
        1,
        1_000_000_000,
        "P13 gm.csv",
        "P6 gm.csv 2",
    ),
    (
        LeastGm,
        "h,h\n5,",
        "",
        0,
        1_000_000,
        "P13 gm.csv",
        "P6 gm.csv 2",
    ),
];

/// Reads a file of one record, with this number in one of its columns.
fn check_number(
    rt: &(impl Abort + AllocGlobal),
    file: File,
    before: &str,
    number: i64,
    after: &str,
    want: &str,
) -> Result<(), Fail> {
    let text = format!(in rt.alloc(); "{before}{number}{after}")?;
    check_text(rt, &widest(), file, text.as_str(), want)
}

/// Reads both ends of each range, and one past each.
#[test]
fn number_ranges_of_each_file(rt: HostRuntime) -> Result<(), Fail> {
    for (file, before, after, low, high, within, beyond) in &RANGES {
        let (below, above) = (low.saturating_sub(1), high.saturating_add(1));
        for (number, want) in [
            (*low, *within),
            (*high, *within),
            (below, *beyond),
            (above, *beyond),
        ] {
            check_number(&rt, *file, before, number, after, want)?;
        }
    }
    Ok(())
}

/// Writes `count` rows, numbered from 1 in seven digits, with the text before the number and behind
/// it.
fn write_rows(text: &mut String, before: &str, count: u32, after: &str) -> Result<(), Fail> {
    for row in 0..count {
        let number = row + 1;
        write!(text, "{before}{number:07}{after}\n")?;
    }
    Ok(())
}

/// Writes `tables` tables of `count` rows; the rows of tanks begin with the tank's name.
fn write_tables(
    alloc: Global,
    text: &mut String,
    file: File,
    tables: u32,
    count: u32,
    after: &str,
) -> Result<(), Fail> {
    for table in 0..tables {
        let name = match file {
            File::Tanks => format!(in alloc; "T{table},")?,
            _ => String::new(alloc),
        };
        write_rows(text, name.as_str(), count, after)?;
    }
    Ok(())
}

/// Reads a heading, a number of tables of a number of rows, and a last row, and compares the words
/// of their fault.
fn check_rows(
    rt: &(impl Abort + AllocGlobal),
    file: File,
    heading: &str,
    tables: u32,
    count: u32,
    after: &str,
    last: &str,
    want: &str,
) -> Result<(), Fail> {
    let mut text = String::from_str(rt.alloc(), heading)?;
    write_tables(rt.alloc(), &mut text, file, tables, count, after)?;
    text.push_str(last)?;
    let refused = refusal(rt.alloc(), &extent(), file, text.as_str())?;
    check_words(rt, refused.as_str(), want, last);
    Ok(())
}

/// The file, its heading, how many tables of how many rows it has, what stands in a row behind its
/// number, a last row, and the words of the fault. A row too many is found after its own fields,
/// and before the rule and the stations.
static ROWS: [(File, &str, u32, u32, &str, &str, &str); 32] = [
    (Cells, "h,h,h,h,h\n", 1, 30_000, ",4,2,3,4", "", ""),
    (
        Cells,
        "h,h,h,h,h\n",
        1,
        30_000,
        ",4,2,3,4",
        "0000001,4,2,3,x",
        "P5 cells.csv 30002",
    ),
    (
        Cells,
        "h,h,h,h,h\n",
        1,
        30_000,
        ",4,2,3,4",
        "0000001,4,2,3,4",
        "P6 cells.csv 30002",
    ),
    (
        Cells,
        "h,h,h,h,h\n",
        1,
        30_000,
        ",4,2,3,4",
        "9000001,0,2,3,4",
        "P6 cells.csv 30002",
    ),
    (Hydro, "h,h,h,h,h,h\n", 1, 200, ",2,3,4,5,6", "", ""),
    (
        Hydro,
        "h,h,h,h,h,h\n",
        1,
        200,
        ",2,3,4,5,6",
        "201,2,3,4,5,6",
        "P6 hydro.csv 202",
    ),
    (
        Hydro,
        "h,h,h,h,h,h\n",
        1,
        200,
        ",2,3,4,5,6",
        "1,2,3,4,5",
        "P4 hydro.csv 202",
    ),
    (
        Hydro,
        "h,h,h,h,h,h\n",
        1,
        200,
        ",2,3,4,5,6",
        "x,2,3,4,5,6",
        "P5 hydro.csv 202",
    ),
    (
        Hydro,
        "h,h,h,h,h,h\n",
        1,
        200,
        ",2,3,4,5,6",
        "1,2,3,4,5,6",
        "P6 hydro.csv 202",
    ),
    (
        Levers,
        "h,h,h,h,h,h,h,h,h,h,h,h,h,h\n",
        1,
        64,
        ",1,2,3,4,5,6,7,8,9,10,11,12,13",
        "",
        "",
    ),
    (
        Levers,
        "h,h,h,h,h,h,h,h,h,h,h,h,h,h\n",
        1,
        64,
        ",1,2,3,4,5,6,7,8,9,10,11,12,13",
        "65,1,2,3,4,5,6,7,8,9,10,11,12,13",
        "P6 kn.csv 66",
    ),
    (Bonjean, "h,h,h,h,h,h\n", 1, 64, ",1,2,3,4,5", "", ""),
    (
        Bonjean,
        "h,h,h,h,h,h\n",
        1,
        64,
        ",1,2,3,4,5",
        "65,1,2,3,4,5",
        "P6 bonjean.csv 66",
    ),
    (LeastGm, "h,h\n", 1, 200, ",1", "", ""),
    (LeastGm, "h,h\n", 1, 200, ",1", "201,1", "P6 gm.csv 202"),
    (LeastGm, "h,h\n", 1, 200, ",1", "1,1", "P6 gm.csv 202"),
    // ---- tanks.csv
    (Tanks, "h,h,h,h,h,h,h\n", 200, 2, ",5,0,0,5,0", "", ""),
    (Tanks, "h,h,h,h,h,h,h\n", 2, 64, ",5,0,0,5,0", "", ""),
    (Tanks, "h,h,h,h,h,h,h\n", 200, 64, ",5,0,0,5,0", "", ""),
    // a tank's 65th row, after its own fields and before its order and place
    (
        Tanks,
        "h,h,h,h,h,h,h\n",
        2,
        65,
        ",5,0,0,5,0",
        "",
        "P6 tanks.csv 66",
    ),
    (
        Tanks,
        "h,h,h,h,h,h,h\n",
        1,
        64,
        ",5,0,0,5,0",
        "T0,1,5,0,0,5,x",
        "P5 tanks.csv 66",
    ),
    (
        Tanks,
        "h,h,h,h,h,h,h\n",
        1,
        64,
        ",5,0,0,5,0",
        "T0,1,5,0,0,5,0",
        "P6 tanks.csv 66",
    ),
    (
        Tanks,
        "h,h,h,h,h,h,h\n",
        1,
        64,
        ",5,0,0,5,0",
        "T0,65,0,0,0,5,0",
        "P6 tanks.csv 66",
    ),
    // a name that comes back with 64 rows, and with fewer
    (
        Tanks,
        "h,h,h,h,h,h,h\n",
        2,
        64,
        ",5,0,0,5,0",
        "T0,65,5,0,0,5,0",
        "P6 tanks.csv 130",
    ),
    (
        Tanks,
        "h,h,h,h,h,h,h\n",
        2,
        63,
        ",5,0,0,5,0",
        "T0,65,5,0,0,5,0",
        "P7 tanks.csv 128",
    ),
    (
        Tanks,
        "h,h,h,h,h,h,h\n",
        2,
        63,
        ",5,0,0,5,0",
        "T0,65,0,0,0,5,0",
        "P7 tanks.csv 128",
    ),
    // with 200 tanks a new name, one that comes back, and the last one's
    (
        Tanks,
        "h,h,h,h,h,h,h\n",
        200,
        2,
        ",5,0,0,5,0",
        "T200,0,5,0,0,5,0",
        "P6 tanks.csv 402",
    ),
    (
        Tanks,
        "h,h,h,h,h,h,h\n",
        200,
        2,
        ",5,0,0,5,0",
        "T200,0,0,0,0,5,0",
        "P6 tanks.csv 402",
    ),
    (
        Tanks,
        "h,h,h,h,h,h,h\n",
        200,
        2,
        ",5,0,0,5,0",
        "T0,9,5,0,0,5,0",
        "P7 tanks.csv 402",
    ),
    (
        Tanks,
        "h,h,h,h,h,h,h\n",
        200,
        2,
        ",5,0,0,5,0",
        "T199,9,5,0,0,5,0",
        "",
    ),
    (
        Tanks,
        "h,h,h,h,h,h,h\n",
        199,
        2,
        ",5,0,0,5,0",
        "T200,0,5,0,0,5,0\nT200,1,5,0,0,5,0",
        "",
    ),
    (
        Tanks,
        "h,h,h,h,h,h,h\n",
        199,
        2,
        ",5,0,0,5,0",
        "T200,0,5,0,0,5,0",
        "P13 tanks.csv",
    ),
];

#[test]
fn greatest_numbers_of_rows(rt: HostRuntime) -> Result<(), Fail> {
    for (file, heading, tables, count, after, last, want) in &ROWS {
        check_rows(&rt, *file, heading, *tables, *count, after, last, want)?;
    }
    Ok(())
}
