use crate::tables::{check_text, extent};
use ship_tables::File;
use ship_tables::File::{Bonjean, Cells, Hydro, LeastGm, Levers, Tanks};
use std::test::Fail;

/// A file, another text of it in the box ship's tables, and the words of its fault; none where it
/// is taken.
static FAULTS: [(File, &str, &str); 102] = [
    // ---- cells.csv
    // the number of fields, of the heading too
    (Cells, "", "P13 cells.csv"),
    (Cells, "h,h,h,h,h", "P13 cells.csv"),
    (Cells, "h,h,h,h", "P4 cells.csv 1"),
    (Cells, "h,h,h,h\n0010082,1,2", "P4 cells.csv 1"),
    (
        Cells,
        "h,h,h,h,h\n0010082,4,2,3,4\n0030082,1,2,3",
        "P4 cells.csv 3",
    ),
    (Cells, "h,h,h,h,h\n0010082,x,2,3,4,5", "P4 cells.csv 2"),
    (Cells, "h,h,h,h,h\n ", "P4 cells.csv 2"),
    // a cell is six or seven digits and nothing beside them
    (Cells, "h,h,h,h,h\n10082,4,2,3,4", "P5 cells.csv 2"),
    (Cells, "h,h,h,h,h\n 0010082,4,2,3,4", "P5 cells.csv 2"),
    (Cells, "h,h,h,h,h\n00100A2,4,2,3,4", "P5 cells.csv 2"),
    // field by field from left to right: unreadable, out of limits
    (Cells, "h,h,h,h,h\n0010082,1000001,x,3,4", "P6 cells.csv 2"),
    (Cells, "h,h,h,h,h\n0010082,x,1000001,3,4", "P5 cells.csv 2"),
    (Cells, "h,h,h,h,h\n0010082,4,2,3,-1", "P6 cells.csv 2"),
    // each field before the one behind it
    (Cells, "h,h,h,h,h\nx,1000001,2,3,4", "P5 cells.csv 2"),
    (Cells, "h,h,h,h,h\n0010082,4,1000001,x,4", "P6 cells.csv 2"),
    (Cells, "h,h,h,h,h\n0010082,4,x,1000001,4", "P5 cells.csv 2"),
    (Cells, "h,h,h,h,h\n0010082,4,2,1000001,x", "P6 cells.csv 2"),
    (Cells, "h,h,h,h,h\n0010082,4,2,x,-1", "P5 cells.csv 2"),
    // a double cell, also where one is written with six digits; after its own fields
    (
        Cells,
        "h,h,h,h,h\n0030082,4,2,3,4\n0010082,4,2,3,4\n030082,4,2,3,4",
        "P8 4",
    ),
    (
        Cells,
        "h,h,h,h,h\n0030082,4,2,3,4\n030082,4,2,3,x",
        "P5 cells.csv 3",
    ),
    (
        Cells,
        "h,h,h,h,h\n0030082,4,2,3,4\n030082,4,2,3,-1",
        "P6 cells.csv 3",
    ),
    (
        Cells,
        "h,h,h,h,h\n0030082,4,2,3,4\n030082,4,2,3,4\nx",
        "P8 3",
    ),
    // beyond the first or the last station; after the double
    (Cells, "h,h,h,h,h\n0030082,3,2,3,4", "P10 cells.csv 2"),
    (Cells, "h,h,h,h,h\n0030082,99997,2,3,4", "P10 cells.csv 2"),
    (Cells, "h,h,h,h,h\n0030082,99996,2,3,4", ""),
    (Cells, "h,h,h,h,h\n0030082,3,2,x,4", "P5 cells.csv 2"),
    (Cells, "h,h,h,h,h\n0030082,3,2,1000001,4", "P6 cells.csv 2"),
    (Cells, "h,h,h,h,h\n0030082,4,2,3,4\n030082,3,2,3,4", "P8 3"),
    (
        Cells,
        "h,h,h,h,h\n0030082,3,2,3,4\n0010082,1,2,3",
        "P10 cells.csv 2",
    ),
    // blank lines are no records and aren't counted
    (
        Cells,
        "h,h,h,h,h\n\n0030082,4,2,3,4\n\n\nx",
        "P4 cells.csv 3",
    ),
    // ---- hydro.csv: the rows rise
    (Hydro, "h,h,h,h,h,h\n1,2,3,4,5,6", "P13 hydro.csv"),
    (
        Hydro,
        "h,h,h,h,h,h\n1,2,3,4,5,6\n2,2,3,4,5",
        "P4 hydro.csv 3",
    ),
    (
        Hydro,
        "h,h,h,h,h,h\n1,2,3,4,5,6\n1,2,3,4,5,6",
        "P7 hydro.csv 3",
    ),
    (
        Hydro,
        "h,h,h,h,h,h\n2,2,3,4,5,6\n1,2,3,4,5,6\nx",
        "P7 hydro.csv 3",
    ),
    (
        Hydro,
        "h,h,h,h,h,h\n2,2,3,4,5,6\n1,2,3,4,5,0",
        "P6 hydro.csv 3",
    ),
    (
        Hydro,
        "h,h,h,h,h,h\n2,2,3,4,5,6\n1,2,3,4,5,x",
        "P5 hydro.csv 3",
    ),
    (
        Hydro,
        "h,h,h,h,h,h\n1,2,3,4,5,6\n100000002,2,3,4,5,x",
        "P5 hydro.csv 3",
    ),
    (Hydro, "h,h,h,h,h,h\n1,2,3,4,5,6\n100000001,2,3,4,5,6", ""),
    (
        Hydro,
        "h,h,h,h,h,h\n1,2,3,4,5,6\n100000002,2,3,4,5,6",
        "P6 hydro.csv 3",
    ),
    (
        Hydro,
        "h,h,h,h,h,h\n4100000,2,3,4,5,6\n104100000,2,3,4,5,6\n204100000,2,3,4,5,6",
        "",
    ),
    (
        Hydro,
        "h,h,h,h,h,h\n4100000,2,3,4,5,6\n104100001,2,3,4,5,6",
        "P6 hydro.csv 3",
    ),
    // a number: spaces at both ends, a minus, 1 to 18 digits
    (
        Hydro,
        "h,h,h,h,h,h\n 1 ,2,3,-4,  -05,6\n2,2,3,4,5,000000000000000006",
        "",
    ),
    (Hydro, "h,h,h,h,h,h\n1,-0,3,4,5,6\n2,2,3,4,5,6", ""),
    (
        Hydro,
        "h,h,h,h,h,h\n1,2,3,4,5,0000000000000000006",
        "P5 hydro.csv 2",
    ),
    (Hydro, "h,h,h,h,h,h\n+1,2,3,4,5,6", "P5 hydro.csv 2"),
    (Hydro, "h,h,h,h,h,h\n1,2,3,- 4,5,6", "P5 hydro.csv 2"),
    (Hydro, "h,h,h,h,h,h\n1,\t2,3,4,5,6", "P5 hydro.csv 2"),
    (Hydro, "h,h,h,h,h,h\n1,2,3,4,,6", "P5 hydro.csv 2"),
    (Hydro, "h,h,h,h,h,h\n1,2,3,4, - ,6", "P5 hydro.csv 2"),
    // a decimal, a semicolon in place of the comma
    (Hydro, "h,h,h,h,h,h\n1,2000.5,3,4,5,6", "P5 hydro.csv 2"),
    (Hydro, "h;h;h;h;h;h\n1;2;3;4;5;6", "P4 hydro.csv 1"),
    (Hydro, "", "P13 hydro.csv"),
    // ---- what spreadsheets write: a byte order mark, CR LF, quotes, empty lines
    (
        Hydro,
        "\u{feff}kg,d,m,b,f,t\r\n1,2,3,4,5,6\r\n2,2,3,4,5,6\r\n\r\n",
        "",
    ),
    (
        Hydro,
        "\"kg, in tonnes\",d,m,b,f,t\n\"1\",\"2\",\"3\",\"4\",\"5\",\"6\"\n\n2,2,3,4,5,6\n\n\n",
        "",
    ),
    (
        Hydro,
        "\"a heading\nof two lines\",d,m,b,f,\"x\ny\"\n1,2,3,4,5,6\n2,2,3,4,5,6",
        "",
    ),
    (Hydro, "a,b,c,d,e,f\n\"1\"0,2,3,4,5,6\n11,2,3,4,5,6", ""),
    (
        Hydro,
        "a,b,c,d,e,f\n1,2,3,4,5,6\n\"2,2,3,4,5,6\n",
        "P4 hydro.csv 3",
    ),
    // ---- kn.csv
    (Levers, "h,h,h,h,h,h,h,h,h,h,h,h,h", "P4 kn.csv 1"),
    (Levers, "h,h,h,h,h,h,h,h,h,h,h,h,h,h,h", "P4 kn.csv 1"),
    (
        Levers,
        "h,h,h,h,h,h,h,h,h,h,h,h,h,h\n1,0,0,0,0,0,0,0,0,0,0,0,0,0",
        "P13 kn.csv",
    ),
    (
        Levers,
        "h,h,h,h,h,h,h,h,h,h,h,h,h,h\n1,0,0,0,0,0,0,0,0,0,0,0,0,-1",
        "P6 kn.csv 2",
    ),
    (
        Levers,
        "h,h,h,h,h,h,h,h,h,h,h,h,h,h\n2,0,0,0,0,0,0,0,0,0,0,0,0,0\n2,0,0,0,0,0,0,0,0,0,0,0,0,0",
        "P7 kn.csv 3",
    ),
    (
        Levers,
        "h,h,h,h,h,h,h,h,h,h,h,h,h,h\n1,0,0,0,0,0,0,0,0,0,0,0,0,0\n100000001,0,0,0,0,0,0,0,0,0,0,0,0,0",
        "",
    ),
    (
        Levers,
        "h,h,h,h,h,h,h,h,h,h,h,h,h,h\n1,0,0,0,0,0,0,0,0,0,0,0,0,0\n100000002,0,0,0,0,0,0,0,0,0,0,0,0,0",
        "P6 kn.csv 3",
    ),
    // ---- bonjean.csv
    // a field for each station and one before
    (Bonjean, "h,h,h,h,h", "P4 bonjean.csv 1"),
    (Bonjean, "h,h,h,h,h,h\n0,0,0,0,0", "P4 bonjean.csv 2"),
    (Bonjean, "h,h,h,h,h,h\n0,0,0,0,0,0", "P13 bonjean.csv"),
    (
        Bonjean,
        "h,h,h,h,h,h\n0,0,0,0,0,0\n0,0,0,0,0,0",
        "P7 bonjean.csv 3",
    ),
    // no step is too far
    (Bonjean, "h,h,h,h,h,h\n0,0,0,0,0,0\n100000,0,0,0,0,0", ""),
    (
        Bonjean,
        "h,h,h,h,h,h\n0,0,0,0,0,0\n100001,0,0,0,0,0",
        "P6 bonjean.csv 3",
    ),
    // ---- tanks.csv
    // a ship without tanks; the heading counts also where no row follows
    (Tanks, "", ""),
    (Tanks, "h,h,h,h,h,h,h", ""),
    (Tanks, "h,h,h,h,h,h", "P4 tanks.csv 1"),
    (Tanks, "h,h,h,h,h,h,h\nA,0,5,0,0,0", "P4 tanks.csv 2"),
    // a name of 1 to 16 bytes as they stand, before the numbers
    (Tanks, "h,h,h,h,h,h,h\n,x,5,0,0,0,0", "P6 tanks.csv 2"),
    (
        Tanks,
        "h,h,h,h,h,h,h\n12345678901234567,x,5,0,0,0,0",
        "P6 tanks.csv 2",
    ),
    (
        Tanks,
        "h,h,h,h,h,h,h\n1234567890123456,x,5,0,0,0,0",
        "P5 tanks.csv 2",
    ),
    (
        Tanks,
        "h,h,h,h,h,h,h\nA,0,5,0,0,0,0\nA ,1,5,0,0,0,0",
        "P13 tanks.csv",
    ),
    // one row: found at the end of the file
    (Tanks, "h,h,h,h,h,h,h\nA,0,5,0,0,0,0", "P13 tanks.csv"),
    (
        Tanks,
        "h,h,h,h,h,h,h\nA,0,5,0,0,0,0\nB,0,5,0,0,0,0\nB,1,5,0,0,0,x",
        "P5 tanks.csv 4",
    ),
    (
        Tanks,
        "h,h,h,h,h,h,h\nA,0,5,0,0,0,0\nA,1,5,0,0,0,0\nB,0,5,0,0,0,0",
        "P13 tanks.csv",
    ),
    // masses rise within a tank, and start again with the next
    (
        Tanks,
        "h,h,h,h,h,h,h\nA,1,5,0,0,0,0\nA,1,5,0,0,0,0",
        "P7 tanks.csv 3",
    ),
    (
        Tanks,
        "h,h,h,h,h,h,h\nA,1,5,0,0,0,0\nA,2,5,0,0,0,0\nB,1,5,0,0,0,0\nB,2,5,0,0,0,0",
        "",
    ),
    // a name that comes back
    (
        Tanks,
        "h,h,h,h,h,h,h\nA,1,5,0,0,0,0\nB,1,5,0,0,0,0\nA,2,5,0,0,0,0",
        "P7 tanks.csv 4",
    ),
    // the gap, between rows of one tank alone
    (
        Tanks,
        "h,h,h,h,h,h,h\nA,0,5,0,0,0,0\nA,100000000,5,0,0,0,0",
        "",
    ),
    (
        Tanks,
        "h,h,h,h,h,h,h\nA,0,5,0,0,0,0\nA,100000001,5,0,0,0,0",
        "P6 tanks.csv 3",
    ),
    (
        Tanks,
        "h,h,h,h,h,h,h\nA,0,5,0,0,0,0\nA,1,5,0,0,0,0\nB,900000000,5,0,0,0,0\nB,900000001,5,0,0,0,0",
        "",
    ),
    // beyond the stations; after the order of the masses
    (Tanks, "h,h,h,h,h,h,h\nA,0,5,0,0,6,0", "P10 tanks.csv 2"),
    (
        Tanks,
        "h,h,h,h,h,h,h\nA,0,5,0,0,5,0\nA,0,5,0,0,6,0",
        "P7 tanks.csv 3",
    ),
    (Tanks, "h,h,h,h,h,h,h\nA,0,99996,0,0,5,0", "P10 tanks.csv 2"),
    (Tanks, "h,h,h,h,h,h,h\nA,0,5,0,0,6,x", "P5 tanks.csv 2"),
    (Tanks, "h,h,h,h,h,h,h\nA,0,5,0,0,6,-1", "P6 tanks.csv 2"),
    (
        Tanks,
        "h,h,h,h,h,h,h\nA,0,5,0,0,5,0\nA,100000001,5,0,0,6,0",
        "P6 tanks.csv 3",
    ),
    // the numbers before the order of the masses, and before a name that comes back
    (
        Tanks,
        "h,h,h,h,h,h,h\nA,0,5,0,0,5,0\nA,0,5,0,0,5,x",
        "P5 tanks.csv 3",
    ),
    (
        Tanks,
        "h,h,h,h,h,h,h\nA,0,5,0,0,5,0\nA,0,5,0,0,5,-1",
        "P6 tanks.csv 3",
    ),
    (
        Tanks,
        "h,h,h,h,h,h,h\nA,1,5,0,0,0,0\nB,1,5,0,0,0,0\nA,2,5,0,0,0,x",
        "P5 tanks.csv 4",
    ),
    // ---- gm.csv
    (LeastGm, "", "P13 gm.csv"),
    (LeastGm, "h", "P4 gm.csv 1"),
    (LeastGm, "h,h\n0,0", "P6 gm.csv 2"),
    (LeastGm, "h,h\n1,0\n1,0", "P7 gm.csv 3"),
    (LeastGm, "h,h\n1,0\n100000002,0", "P6 gm.csv 3"),
    (LeastGm, "h,h\n1,0\n100000001,1000000", ""),
];

#[test]
fn faults_of_each_file(rt: HostRuntime) -> Result<(), Fail> {
    for (file, text, want) in &FAULTS {
        check_text(&rt, &extent(), *file, text, want)?;
    }
    Ok(())
}
