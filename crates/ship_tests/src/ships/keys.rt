//! The keys of `ship.toml`: each missing, of another type, out of its limits, and what is asked of
//! it besides.
use super::files::{check_ship, check_value, check_values, first_keys};
use std::process::Abort;
use std::test::Fail;

/// A `ship.toml`: how many of the box ship's keys it begins with, another value of one of them,
/// what follows, and the words of its fault.
static SHIPS: [(usize, &str, &str, &str, &str); 28] = [
    // no document, and one of another key
    (0, "", "", "lbp_mm = ", "P1"),
    (0, "", "", "lbp_mm = 99999999999999999999", "P1"),
    (0, "", "", "lbp_mm = 1\nlbp_mm = 1", "P1"),
    (0, "", "", "list_max = 1e400", "P1"),
    (0, "", "", "lpb_mm = 100000", "P2 lbp_mm"),
    // the first key that is missing
    (0, "", "", "", "P2 lbp_mm"),
    (1, "", "", "", "P2 downflooding_deg"),
    (2, "", "", "", "P2 draught_max_mm"),
    (3, "", "", "", "P2 trim_max_mm"),
    (4, "", "", "", "P2 list_max"),
    (5, "", "", "", "P2 closing_max_kg"),
    (6, "", "", "", "P2 stations_mm"),
    (7, "", "", "", "P2 blocks"),
    (8, "", "", "", "P2 frames"),
    // each key to its end, before the next is looked for
    (1, "lbp_mm", "0", "", "P6 ship.toml 0"),
    (2, "downflooding_deg", "39", "", "P11 39"),
    (3, "draught_max_mm", "0", "", "P6 ship.toml 0"),
    (4, "trim_max_mm", "-1", "", "P6 ship.toml 0"),
    (5, "list_max", "-1", "", "P6 ship.toml 0"),
    (6, "closing_max_kg", "-1", "", "P6 ship.toml 0"),
    (7, "stations_mm", "[0]", "", "P13 ship.toml"),
    (7, "stations_mm", "[0, 0]", "", "P7 ship.toml 0"),
    (8, "blocks", "[]", "", "P13 ship.toml"),
    (
        8,
        "blocks",
        "[{kg = 1, x_mm = 0, y_mm = 0, z_mm = 0, half_mm = 1}]",
        "",
        "P10 ship.toml 1",
    ),
    (9, "frames", "[]", "fills = 5", "P13 ship.toml"),
    (
        9,
        "frames",
        "[{x_mm = 1, shear_max_kg = 0, hog_max_kgmm = 0, sag_max_kgmm = 0}]",
        "fills = 5",
        "P9 1",
    ),
    (9, "", "", "fills = 5", "P3 fills"),
    // the first station aft of the after perpendicular, with a frame
    (
        6,
        "",
        "",
        "stations_mm = [-25000, 0, 50000, 75000, 100000]
blocks = [{kg = 1, x_mm = 0, y_mm = 0, z_mm = 0, half_mm = 25000}]
frames = [{x_mm = -25000, shear_max_kg = 0, hog_max_kgmm = 0, sag_max_kgmm = 0}]
",
        "",
    ),
];

/// Reads a `ship.toml` of the first `count` keys, one of them with this value, and what follows
/// them.
fn check_keys(
    rt: &(impl Abort + AllocGlobal),
    count: usize,
    key: &str,
    value: &str,
    tail: &str,
    want: &str,
) -> Result<(), Fail> {
    let mut ship = first_keys(rt.alloc(), count, key, value)?;
    ship.push_str(tail)?;
    check_ship(rt, ship.as_str(), want, ship.as_str())
}

#[test]
fn keys_in_their_order(rt: HostRuntime) -> Result<(), Fail> {
    for (count, key, value, tail, want) in &SHIPS {
        check_keys(&rt, *count, key, value, tail, want)?;
    }
    Ok(())
}

/// The keys in the order in which they are looked for.
static ORDER: [&str; 9] = [
    "lbp_mm",
    "downflooding_deg",
    "draught_max_mm",
    "trim_max_mm",
    "list_max",
    "closing_max_kg",
    "stations_mm",
    "blocks",
    "frames",
];

/// Values that are neither an integer nor an array.
static OTHERS: [&str; 5] = ["1.0", "\"1\"", "true", "1979-05-27", "{kg = 1}"];

/// Gives a key values of another type.
fn check_others(rt: &(impl Abort + AllocGlobal), key: &str) -> Result<(), Fail> {
    let want = format!(in rt.alloc(); "P3 {key}")?;
    for value in &OTHERS {
        check_value(rt, key, value, want.as_str())?;
    }
    Ok(())
}

#[test]
fn values_of_another_type(rt: HostRuntime) -> Result<(), Fail> {
    for key in &ORDER {
        check_others(&rt, key)?;
    }
    Ok(())
}

/// A key of a number or the stations, a value of it, and the words of its fault; none for one that
/// is taken.
static NUMBERS: [(&str, &str, &str); 29] = [
    // an array for a number, a number for an array
    ("lbp_mm", "[1]", "P3 lbp_mm"),
    ("closing_max_kg", "[1]", "P3 closing_max_kg"),
    ("stations_mm", "1", "P3 stations_mm"),
    ("blocks", "1", "P3 blocks"),
    ("frames", "1", "P3 frames"),
    ("fills", "1", "P3 fills"),
    // other ways to write an integer
    ("lbp_mm", "+100_000", ""),
    ("lbp_mm", "0x186a0", ""),
    // an angle of down-flooding: out of limits, then too small
    ("downflooding_deg", "-1", "P6 ship.toml 0"),
    ("downflooding_deg", "0", "P11 0"),
    ("downflooding_deg", "39", "P11 39"),
    ("downflooding_deg", "40", ""),
    ("downflooding_deg", "90", ""),
    ("downflooding_deg", "91", "P6 ship.toml 0"),
    // stations: each number, its limits, above the one before; then too few
    ("stations_mm", "[]", "P13 ship.toml"),
    ("stations_mm", "[0]", "P13 ship.toml"),
    ("stations_mm", "[0, 100000]", "P9 1"),
    ("stations_mm", "[0, 50000, 100000,]", "P4 bonjean.csv 1"),
    (
        "stations_mm",
        "[-1000000, 50000, 1000000]",
        "P4 bonjean.csv 1",
    ),
    ("stations_mm", "[-1000001, 50000]", "P6 ship.toml 0"),
    ("stations_mm", "[0, 1000001]", "P6 ship.toml 0"),
    ("stations_mm", "[0, 1.0]", "P3 stations_mm"),
    ("stations_mm", "[0, [1]]", "P3 stations_mm"),
    ("stations_mm", "[5, 5, \"x\"]", "P7 ship.toml 0"),
    ("stations_mm", "[5, \"x\", 5]", "P3 stations_mm"),
    ("stations_mm", "[5, 4, 1000001]", "P7 ship.toml 0"),
    ("stations_mm", "[5, 1000001, 4]", "P6 ship.toml 0"),
    ("stations_mm", "[5, -1000001]", "P6 ship.toml 0"),
    ("stations_mm", "[\"x\"]", "P3 stations_mm"),
];

#[test]
fn values_of_numbers_and_stations(rt: HostRuntime) -> Result<(), Fail> {
    check_values(&rt, &NUMBERS)
}

/// The same of the blocks.
static BLOCKS: [(&str, &str, &str); 23] = [
    // blocks: each a table, its keys in order, within the stations, each block whole before the
    // next; then too few
    ("blocks", "[]", "P13 ship.toml"),
    ("blocks", "[5]", "P3 blocks"),
    ("blocks", "[[]]", "P3 blocks"),
    ("blocks", "[{}]", "P2 blocks"),
    ("blocks", "[{kg = 0, x_mm = true}]", "P6 ship.toml 0"),
    (
        "blocks",
        "[{kg = 1, x_mm = true, y_mm = 2000000}]",
        "P3 blocks",
    ),
    (
        "blocks",
        "[{kg = 1, x_mm = 1, y_mm = 2000000, z_mm = []}]",
        "P6 ship.toml 0",
    ),
    (
        "blocks",
        "[{kg = 1, x_mm = 1, y_mm = 1, half_mm = -1}]",
        "P2 blocks",
    ),
    (
        "blocks",
        "[{kg = 1, x_mm = 1, y_mm = 1, z_mm = 1}]",
        "P2 blocks",
    ),
    (
        "blocks",
        "[{kg = 1, x_mm = 0, y_mm = 1, z_mm = 1, half_mm = 0}]",
        "",
    ),
    (
        "blocks",
        "[{kg = 1, x_mm = 0, y_mm = 1, z_mm = 1, half_mm = 1}]",
        "P10 ship.toml 1",
    ),
    (
        "blocks",
        "[{kg = 1, x_mm = 99999, y_mm = 1, z_mm = 1, half_mm = 1}]",
        "",
    ),
    (
        "blocks",
        "[{kg = 1, x_mm = 99999, y_mm = 1, z_mm = 1, half_mm = 2}]",
        "P10 ship.toml 1",
    ),
    (
        "blocks",
        "[{kg = 1, x_mm = 9, y_mm = 1, z_mm = 1, half_mm = 1}, {kg = 1, x_mm = -1, y_mm = 1, z_mm = 1, half_mm = 1}]",
        "P10 ship.toml 2",
    ),
    (
        "blocks",
        "[{kg = 1, x_mm = -1, y_mm = 1, z_mm = 1, half_mm = 1}, 5]",
        "P10 ship.toml 1",
    ),
    (
        "blocks",
        "[{kg = 1, x_mm = 1, y_mm = 1, z_mm = 1, half_mm = 1}, 5]",
        "P3 blocks",
    ),
    (
        "blocks",
        "[{kg = 1, x_mm = 1, y_mm = 1, z_mm = 1, half_mm = 1, name = 5.0}]",
        "",
    ),
    // a block beyond a kilometre
    (
        "blocks",
        "[{kg = 1, x_mm = -1000000, y_mm = 0, z_mm = 0, half_mm = 0}]",
        "P10 ship.toml 1",
    ),
    (
        "blocks",
        "[{kg = 1, x_mm = -1000001, y_mm = 0, z_mm = 0, half_mm = 0}]",
        "P6 ship.toml 0",
    ),
    (
        "blocks",
        "[{kg = 1, x_mm = 1000000, y_mm = 0, z_mm = 0, half_mm = 0}]",
        "P10 ship.toml 1",
    ),
    (
        "blocks",
        "[{kg = 1, x_mm = 1000001, y_mm = 0, z_mm = 0, half_mm = 0}]",
        "P6 ship.toml 0",
    ),
    (
        "blocks",
        "[{kg = 1, x_mm = 0, y_mm = 0, z_mm = 0, half_mm = 1000000}]",
        "P10 ship.toml 1",
    ),
    (
        "blocks",
        "[{kg = 1, x_mm = 0, y_mm = 0, z_mm = 0, half_mm = 1000001}]",
        "P6 ship.toml 0",
    ),
];

#[test]
fn values_of_blocks(rt: HostRuntime) -> Result<(), Fail> {
    check_values(&rt, &BLOCKS)
}

/// The same of the frames.
static FRAMES: [(&str, &str, &str); 19] = [
    // frames: each a table, its keys in order, above the one before, at a station; then too few
    ("frames", "[]", "P13 ship.toml"),
    ("frames", "[0]", "P3 frames"),
    ("frames", "[{}]", "P2 frames"),
    (
        "frames",
        "[{x_mm = 1000001, shear_max_kg = []}]",
        "P6 ship.toml 0",
    ),
    ("frames", "[{x_mm = 0, shear_max_kg = []}]", "P3 frames"),
    (
        "frames",
        "[{x_mm = 0, shear_max_kg = -1, hog_max_kgmm = []}]",
        "P6 ship.toml 0",
    ),
    (
        "frames",
        "[{x_mm = 0, shear_max_kg = 0, hog_max_kgmm = -1, sag_max_kgmm = []}]",
        "P6 ship.toml 0",
    ),
    (
        "frames",
        "[{x_mm = 1, shear_max_kg = 0, hog_max_kgmm = 0, sag_max_kgmm = -1}]",
        "P6 ship.toml 0",
    ),
    (
        "frames",
        "[{x_mm = 0, shear_max_kg = 0, sag_max_kgmm = 0}]",
        "P2 frames",
    ),
    (
        "frames",
        "[{x_mm = 0, shear_max_kg = 0, hog_max_kgmm = 0}]",
        "P2 frames",
    ),
    (
        "frames",
        "[{x_mm = 1, shear_max_kg = 0, hog_max_kgmm = 0, sag_max_kgmm = 0}]",
        "P9 1",
    ),
    (
        "frames",
        "[{x_mm = 0, shear_max_kg = 0, hog_max_kgmm = 0, sag_max_kgmm = 0}, {x_mm = 1, shear_max_kg = 0, hog_max_kgmm = 0, sag_max_kgmm = 0}]",
        "P9 2",
    ),
    (
        "frames",
        "[{x_mm = 25000, shear_max_kg = 0, hog_max_kgmm = 0, sag_max_kgmm = 0}, {x_mm = 25000, shear_max_kg = 0, hog_max_kgmm = 0, sag_max_kgmm = 0}]",
        "P7 ship.toml 0",
    ),
    (
        "frames",
        "[{x_mm = 25000, shear_max_kg = 0, hog_max_kgmm = 0, sag_max_kgmm = 0}, {x_mm = 1, shear_max_kg = 0, hog_max_kgmm = 0, sag_max_kgmm = 0}]",
        "P7 ship.toml 0",
    ),
    (
        "frames",
        "[{x_mm = 1, shear_max_kg = 0, hog_max_kgmm = 0, sag_max_kgmm = 0}, 5]",
        "P9 1",
    ),
    // a frame at the ends of the range, where no station is, and one past each
    (
        "frames",
        "[{x_mm = -1000001, shear_max_kg = 0, hog_max_kgmm = 0, sag_max_kgmm = 0}]",
        "P6 ship.toml 0",
    ),
    (
        "frames",
        "[{x_mm = -1000000, shear_max_kg = 0, hog_max_kgmm = 0, sag_max_kgmm = 0}]",
        "P9 1",
    ),
    (
        "frames",
        "[{x_mm = 1000000, shear_max_kg = 0, hog_max_kgmm = 0, sag_max_kgmm = 0}]",
        "P9 1",
    ),
    (
        "frames",
        "[{x_mm = 1000001, shear_max_kg = 0, hog_max_kgmm = 0, sag_max_kgmm = 0}]",
        "P6 ship.toml 0",
    ),
];

#[test]
fn values_of_frames(rt: HostRuntime) -> Result<(), Fail> {
    check_values(&rt, &FRAMES)
}

/// The same of the fills.
static FILLS: [(&str, &str, &str); 21] = [
    // fills: each a table, its keys in order; all are read before the first is looked up
    ("fills", "", ""),
    ("fills", "{}", "P3 fills"),
    ("fills", "[\"DB1\"]", "P3 fills"),
    ("fills", "[{kg = 5}]", "P2 fills"),
    ("fills", "[{tank = 5, kg = -1}]", "P3 fills"),
    ("fills", "[{tank = \"DB1\"}]", "P2 fills"),
    ("fills", "[{tank = \"DB1\", kg = 5.0}]", "P3 fills"),
    ("fills", "[{tank = \"DB1\", kg = -1}]", "P6 ship.toml 0"),
    (
        "fills",
        "[{tank = \"DB1\", kg = 1000000001}]",
        "P6 ship.toml 0",
    ),
    ("fills", "[{tank = \"DB1\", kg = 1000000000}]", ""),
    ("fills", "[{tank = \"DB1\", kg = 0, note = 5}]", ""),
    (
        "fills",
        "[{tank = \"DB2\", kg = 0}, {tank = \"DB1\", kg = -1}]",
        "P6 ship.toml 0",
    ),
    // fills in their tanks: each in turn, an unknown tank, then one that was filled before
    ("fills", "[{tank = \"DB1\", kg = 1}]", ""),
    ("fills", "[{tank = \"DB2\", kg = 1}]", "P12 1"),
    ("fills", "[{tank = \"\", kg = 1}]", "P12 1"),
    (
        "fills",
        "[{tank = \"a name that is far longer than any tank's\", kg = 1}]",
        "P12 1",
    ),
    (
        "fills",
        "[{tank = \"DB1\", kg = 1}, {tank = \"db1\", kg = 1}]",
        "P12 2",
    ),
    (
        "fills",
        "[{tank = \"DB1\", kg = 1}, {tank = \"DB1\", kg = 2}]",
        "P3 fills",
    ),
    (
        "fills",
        "[{tank = \"DB1\", kg = 1}, {tank = \"DB1\", kg = 0}]",
        "P3 fills",
    ),
    (
        "fills",
        "[{tank = \"DB1\", kg = 1}, {tank = \"DB1\", kg = 2}, {tank = \"DB2\", kg = 1}]",
        "P3 fills",
    ),
    (
        "fills",
        "[{tank = \"DB1\", kg = 1}, {tank = \"DB2\", kg = 2}, {tank = \"DB1\", kg = 1}]",
        "P12 2",
    ),
];

#[test]
fn values_of_fills(rt: HostRuntime) -> Result<(), Fail> {
    check_values(&rt, &FILLS)
}

/// A number in a key's value: the key, what stands before the number and behind it, both ends of
/// its range, and the words of what is below and of what is above.
static RANGES: [(&str, &str, &str, i64, i64, &str, &str); 13] = [
    (
        "lbp_mm",
        "",
        "",
        1,
        1_000_000,
        "P6 ship.toml 0",
        "P6 ship.toml 0",
    ),
    (
        "draught_max_mm",
        "",
        "",
        1,
        100_000,
        "P6 ship.toml 0",
        "P6 ship.toml 0",
    ),
    (
        "trim_max_mm",
        "",
        "",
        0,
        100_000,
        "P6 ship.toml 0",
        "P6 ship.toml 0",
    ),
    (
        "list_max",
        "",
        "",
        0,
        10_000,
        "P6 ship.toml 0",
        "P6 ship.toml 0",
    ),
    (
        "closing_max_kg",
        "",
        "",
        0,
        1_000_000_000,
        "P6 ship.toml 0",
        "P6 ship.toml 0",
    ),
    (
        "blocks",
        "[{kg = ",
        ", x_mm = 50000, y_mm = 0, z_mm = 0, half_mm = 0}]",
        1,
        1_000_000_000,
        "P6 ship.toml 0",
        "P6 ship.toml 0",
    ),
    (
        "blocks",
        "[{kg = 1, x_mm = 50000, y_mm = ",
        ", z_mm = 0, half_mm = 0}]",
        -1_000_000,
        1_000_000,
        "P6 ship.toml 0",
        "P6 ship.toml 0",
    ),
    (
        "blocks",
        "[{kg = 1, x_mm = 50000, y_mm = 0, z_mm = ",
        ", half_mm = 0}]",
        -1_000_000,
        1_000_000,
        "P6 ship.toml 0",
        "P6 ship.toml 0",
    ),
    (
        "blocks",
        "[{kg = 1, x_mm = ",
        ", y_mm = 0, z_mm = 0, half_mm = 0}]",
        0,
        100_000,
        "P10 ship.toml 1",
        "P10 ship.toml 1",
    ),
    (
        "blocks",
        "[{kg = 1, x_mm = 50000, y_mm = 0, z_mm = 0, half_mm = ",
        "}]",
        0,
        50_000,
        "P6 ship.toml 0",
        "P10 ship.toml 1",
    ),
    (
        "frames",
        "[{x_mm = 0, shear_max_kg = ",
        ", hog_max_kgmm = 5, sag_max_kgmm = 5}]",
        0,
        1_000_000_000,
        "P6 ship.toml 0",
        "P6 ship.toml 0",
    ),
    (
        "frames",
        "[{x_mm = 0, shear_max_kg = 5, hog_max_kgmm = ",
        ", sag_max_kgmm = 5}]",
        0,
        1_000_000_000_000_000,
        "P6 ship.toml 0",
        "P6 ship.toml 0",
    ),
    (
        "frames",
        "[{x_mm = 0, shear_max_kg = 5, hog_max_kgmm = 5, sag_max_kgmm = ",
        "}]",
        0,
        1_000_000_000_000_000,
        "P6 ship.toml 0",
        "P6 ship.toml 0",
    ),
];

/// Reads a number in a key's value, with what stands before it and behind it there, and compares
/// the words of its fault.
fn check_number(
    rt: &(impl Abort + AllocGlobal),
    key: &str,
    before: &str,
    number: i64,
    after: &str,
    want: &str,
) -> Result<(), Fail> {
    let value = format!(in rt.alloc(); "{before}{number}{after}")?;
    check_value(rt, key, value.as_str(), want)
}

/// Reads both ends of each range, and one past each.
#[test]
fn ranges_of_numbers(rt: HostRuntime) -> Result<(), Fail> {
    for (key, before, after, low, high, below, above) in &RANGES {
        let (under, over) = (low.saturating_sub(1), high.saturating_add(1));
        for (number, want) in [(*low, ""), (*high, ""), (under, *below), (over, *above)] {
            check_number(&rt, key, before, number, after, want)?;
        }
    }
    Ok(())
}

/// Writes `count` elements, numbered from 1, with the text before the number and behind it.
fn write_elements(text: &mut String, before: &str, count: u32, after: &str) -> Result<(), Fail> {
    for place in 0..count {
        let number = place + 1;
        write!(text, "{before}{number}{after}")?;
    }
    Ok(())
}

/// How many keys stand before an array, its head, an element as it stands before and behind its
/// number, how many there are, and the words of the fault; for an array that is taken that of what
/// comes next. One too many is found before the first element is read.
static ARRAYS: [(usize, &str, &str, u32, &str, &str); 10] = [
    (6, "stations_mm = [", "", 64, ", ", "P2 blocks"),
    (6, "stations_mm = [", "", 65, ", ", "P6 ship.toml 0"),
    (
        7,
        "blocks = [",
        "{kg = ",
        200,
        ", x_mm = 1, y_mm = 0, z_mm = 0, half_mm = 0}, ",
        "P2 frames",
    ),
    (
        7,
        "blocks = [5, ",
        "{kg = ",
        199,
        ", x_mm = 1, y_mm = 0, z_mm = 0, half_mm = 0}, ",
        "P3 blocks",
    ),
    (
        7,
        "blocks = [5, ",
        "{kg = ",
        200,
        ", x_mm = 1, y_mm = 0, z_mm = 0, half_mm = 0}, ",
        "P6 ship.toml 0",
    ),
    // the box ship's table of areas has five stations, so the fault of this ship, which has more,
    // is in that table
    (
        6,
        "stations_mm = [1, 2, 3, 4, 5, 6, 7, 8, 9, 10, 11, 12, 13, 14, 15, 16, 17, 100000]
blocks = [{kg = 1, x_mm = 1, y_mm = 0, z_mm = 0, half_mm = 0}]
frames = [",
        "{x_mm = ",
        16,
        ", shear_max_kg = 1, hog_max_kgmm = 1, sag_max_kgmm = 1}, ",
        "P4 bonjean.csv 1",
    ),
    (
        6,
        "stations_mm = [1, 2, 3, 4, 5, 6, 7, 8, 9, 10, 11, 12, 13, 14, 15, 16, 17, 100000]
blocks = [{kg = 1, x_mm = 1, y_mm = 0, z_mm = 0, half_mm = 0}]
frames = [",
        "{x_mm = ",
        17,
        ", shear_max_kg = 1, hog_max_kgmm = 1, sag_max_kgmm = 1}, ",
        "P6 ship.toml 0",
    ),
    (9, "fills = [", "{tank = \"T", 200, "\", kg = 1}, ", "P12 1"),
    (
        9,
        "fills = [",
        "{tank = \"T",
        201,
        "\", kg = 1}, ",
        "P6 ship.toml 0",
    ),
    (
        9,
        "fills = [5, ",
        "{tank = \"T",
        200,
        "\", kg = 1}, ",
        "P6 ship.toml 0",
    ),
];

/// Reads a `ship.toml` of the first keys and an array of a number of elements.
fn check_elements(
    rt: &(impl Abort + AllocGlobal),
    keys: usize,
    head: &str,
    before: &str,
    count: u32,
    after: &str,
    want: &str,
) -> Result<(), Fail> {
    let mut array = String::from_str(rt.alloc(), head)?;
    write_elements(&mut array, before, count, after)?;
    array.push_str("]")?;
    check_keys(rt, keys, "", "", array.as_str(), want)
}

#[test]
fn greatest_numbers_of_elements(rt: HostRuntime) -> Result<(), Fail> {
    for (keys, head, before, count, after, want) in &ARRAYS {
        check_elements(&rt, *keys, head, before, *count, after, want)?;
    }
    Ok(())
}
