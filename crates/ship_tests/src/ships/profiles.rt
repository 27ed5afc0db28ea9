//! A whole profile: the order of its files, the fills in its tanks, and the words of its faults.
use super::files::{
    CELLS, SHIP, TANKS, box_files, check_files, check_ship, check_words, ship_with, words,
};
use ship_profile::{File, Key, ProfileBytes, ProfileFault};
use ship_tables::TableFault;
use std::process::Abort;
use std::test::Fail;

/// The files of the box ship.
fn box_ship() -> ProfileBytes<'static> {
    box_files(SHIP, CELLS, TANKS, None)
}

/// Files, one of them in another form.
pub fn with_text<'a>(files: ProfileBytes<'a>, file: File, text: &'a [u8]) -> ProfileBytes<'a> {
    match file {
        File::Ship => ProfileBytes {
            ship: text,
            ..files
        },
        File::Cells => ProfileBytes {
            cells: text,
            ..files
        },
        File::Hydro => ProfileBytes {
            hydro: text,
            ..files
        },
        File::Levers => ProfileBytes { kn: text, ..files },
        File::Bonjean => ProfileBytes {
            bonjean: text,
            ..files
        },
        File::Tanks => ProfileBytes {
            tanks: text,
            ..files
        },
        File::LeastGm => ProfileBytes {
            gm: Some(text),
            ..files
        },
    }
}

/// Two files with a fault in each, and the words of the first one's.
static PAIRS: [(File, &[u8], File, &[u8], &str); 6] = [
    (File::Ship, b"", File::Cells, b"", "P2 lbp_mm"),
    (File::Cells, b"", File::Hydro, b"", "P13 cells.csv"),
    (File::Hydro, b"", File::Levers, b"", "P13 hydro.csv"),
    (File::Levers, b"", File::Bonjean, b"", "P13 kn.csv"),
    (File::Bonjean, b"", File::Tanks, b"x", "P13 bonjean.csv"),
    (File::Tanks, b"x", File::LeastGm, b"x", "P4 tanks.csv 1"),
];

#[test]
fn first_file_with_a_fault(rt: HostRuntime) -> Result<(), Fail> {
    for (file, text, next, next_text, want) in &PAIRS {
        let files = with_text(with_text(box_ship(), *file, text), *next, next_text);
        check_files(&rt, &files, want, want)?;
    }
    Ok(())
}

/// Fills, a file with a fault, and the words of the fault that is found. The fills are read with
/// the other keys of `ship.toml`, before any table; their tanks are looked for when the last table
/// is read.
static FILLS_AND_TABLES: [(&str, File, &[u8], &str); 6] = [
    ("5", File::Cells, b"", "P3 fills"),
    ("[{tank = 5, kg = 1}]", File::Cells, b"", "P3 fills"),
    ("[{kg = 1}]", File::Cells, b"", "P2 fills"),
    (
        "[{tank = \"DB1\", kg = -1}]",
        File::Cells,
        b"",
        "P6 ship.toml 0",
    ),
    (
        "[{tank = \"DB2\", kg = 1}]",
        File::LeastGm,
        b"x",
        "P4 gm.csv 1",
    ),
    (
        "[{tank = \"DB1\", kg = 1}, {tank = \"DB1\", kg = 1}]",
        File::LeastGm,
        b"x",
        "P4 gm.csv 1",
    ),
];

/// Reads the box ship with these fills, and another file in this form.
fn check_fills(
    rt: &(impl Abort + AllocGlobal),
    fills: &str,
    file: File,
    text: &[u8],
    want: &str,
) -> Result<(), Fail> {
    let ship = ship_with(rt.alloc(), "fills", fills)?;
    let files = with_text(box_ship(), File::Ship, ship.as_bytes());
    check_files(rt, &with_text(files, file, text), want, fills)
}

#[test]
fn fills_and_tables(rt: HostRuntime) -> Result<(), Fail> {
    for (fills, file, text, want) in &FILLS_AND_TABLES {
        check_fills(&rt, fills, *file, text, want)?;
    }
    Ok(())
}

/// `cells.csv` of a container of 10 mm at both ends of the ship, and a millimetre beyond each.
static ENDS: [(&[u8], &str); 4] = [
    (b"h,h,h,h,h\n0010082,5,0,0,5", ""),
    (b"h,h,h,h,h\n0010082,4,0,0,5", "P10 cells.csv 2"),
    (b"h,h,h,h,h\n0010082,99995,0,0,5", ""),
    (b"h,h,h,h,h\n0010082,99996,0,0,5", "P10 cells.csv 2"),
];

#[test]
fn places_reach_from_the_first_station_to_the_last(rt: HostRuntime) -> Result<(), Fail> {
    for (cells, want) in &ENDS {
        check_files(&rt, &with_text(box_ship(), File::Cells, cells), want, want)?;
    }
    Ok(())
}

/// The prefixes of `ship.toml`, from one length to before another, and the words of their faults;
/// the last go to its end. One that ends in a key or before a value is no document; one that ends
/// in a value or after it has the fault of what comes next.
static PREFIXES: [(usize, usize, &str); 78] = [
    // no text at all
    (0, 1, "P2 lbp_mm"),
    // each of the first keys: cut in its name or before its value, and in its value or after it
    (1, 10, "P1"),
    (10, 17, "P2 downflooding_deg"),
    (17, 36, "P1"),
    (36, 37, "P11 6"),
    (37, 39, "P2 draught_max_mm"),
    (39, 56, "P1"),
    (56, 61, "P2 trim_max_mm"),
    (61, 75, "P1"),
    (75, 79, "P2 list_max"),
    (79, 90, "P1"),
    (90, 94, "P2 closing_max_kg"),
    (94, 111, "P1"),
    (111, 116, "P2 stations_mm"),
    (116, 161, "P1"),
    (161, 163, "P2 blocks"),
    // the block, key by key
    (163, 172, "P1"),
    (172, 174, "P2 blocks"),
    (174, 179, "P1"),
    (179, 187, "P2 blocks"),
    (187, 194, "P1"),
    (194, 200, "P2 blocks"),
    (200, 207, "P1"),
    (207, 209, "P2 blocks"),
    (209, 216, "P1"),
    (216, 221, "P2 blocks"),
    (221, 231, "P1"),
    (231, 237, "P2 frames"),
    // the first frame, after which the ship is whole
    (237, 246, "P1"),
    (246, 248, "P2 frames"),
    (248, 255, "P1"),
    (255, 257, "P2 frames"),
    (257, 272, "P1"),
    (272, 279, "P2 frames"),
    (279, 294, "P1"),
    (294, 305, "P2 frames"),
    (305, 320, "P1"),
    (320, 331, ""),
    // each further frame, of which a part is a fault
    (331, 340, "P1"),
    (340, 342, "P2 frames"),
    (342, 349, "P1"),
    (349, 355, "P2 frames"),
    (355, 370, "P1"),
    (370, 377, "P2 frames"),
    (377, 392, "P1"),
    (392, 403, "P2 frames"),
    (403, 418, "P1"),
    (418, 429, ""),
    (429, 438, "P1"),
    (438, 440, "P2 frames"),
    (440, 447, "P1"),
    (447, 453, "P2 frames"),
    (453, 468, "P1"),
    (468, 475, "P2 frames"),
    (475, 490, "P1"),
    (490, 501, "P2 frames"),
    (501, 516, "P1"),
    (516, 527, ""),
    (527, 536, "P1"),
    (536, 538, "P2 frames"),
    (538, 545, "P1"),
    (545, 551, "P2 frames"),
    (551, 566, "P1"),
    (566, 573, "P2 frames"),
    (573, 588, "P1"),
    (588, 599, "P2 frames"),
    (599, 614, "P1"),
    (614, 625, ""),
    (625, 634, "P1"),
    (634, 636, "P2 frames"),
    (636, 643, "P1"),
    (643, 650, "P2 frames"),
    (650, 665, "P1"),
    (665, 672, "P2 frames"),
    (672, 687, "P1"),
    (687, 698, "P2 frames"),
    (698, 713, "P1"),
    (713, 9999, ""),
];

/// Reads the prefixes of `ship.toml` from one length to before another, those that it has.
fn check_prefixes(
    rt: &(impl Abort + AllocGlobal),
    from: usize,
    past: usize,
    want: &str,
) -> Result<(), Fail> {
    for length in from..past {
        if let Some(ship) = SHIP.get(..length) {
            check_ship(rt, ship, want, ship)?;
        }
    }
    Ok(())
}

#[test]
fn every_prefix_of_ship_toml(rt: HostRuntime) -> Result<(), Fail> {
    for (from, past, want) in &PREFIXES {
        check_prefixes(&rt, *from, *past, want)?;
    }
    Ok(())
}

/// Comments before the text of `ship.toml`, and the words of their faults: one in UTF-8, and one
/// that isn't.
static COMMENTS: [(&[u8], &str); 2] = [(b"# caf\xc3\xa9\n", ""), (b"# caf\xe9\n", "P1")];

/// Reads the box ship with a comment before her `ship.toml`.
fn check_comment(rt: &(impl Abort + AllocGlobal), comment: &[u8], want: &str) -> Result<(), Fail> {
    let mut ship = Vec::from_slice(rt.alloc(), comment)?;
    ship.extend_from_slice(SHIP.as_bytes())?;
    check_files(
        rt,
        &with_text(box_ship(), File::Ship, ship.as_slice()),
        want,
        "a comment",
    )
}

#[test]
fn comments_in_utf_8(rt: HostRuntime) -> Result<(), Fail> {
    for (comment, want) in &COMMENTS {
        check_comment(&rt, comment, want)?;
    }
    Ok(())
}

/// Faults, and their words.
static TEXTS: [(ProfileFault, &str); 14] = [
    (ProfileFault::BadToml, "P1"),
    (ProfileFault::MissingKey(Key::Lbp), "P2 lbp_mm"),
    (ProfileFault::BadKey(Key::ClosingMax), "P3 closing_max_kg"),
    (ProfileFault::BadCsv(File::Hydro, 3), "P4 hydro.csv 3"),
    (ProfileFault::BadNumber(File::Levers, 2), "P5 kn.csv 2"),
    (ProfileFault::OutOfLimits(File::Ship, 0), "P6 ship.toml 0"),
    (
        ProfileFault::NotRising(File::Bonjean, 4),
        "P7 bonjean.csv 4",
    ),
    (ProfileFault::DoubleCell(4), "P8 4"),
    (ProfileFault::FrameNotStation(2), "P9 2"),
    (
        ProfileFault::OutsideStations(File::Tanks, 3),
        "P10 tanks.csv 3",
    ),
    (ProfileFault::Downflooding(39), "P11 39"),
    (ProfileFault::UnknownTank(1), "P12 1"),
    (ProfileFault::TooFewRows(File::LeastGm), "P13 gm.csv"),
    (ProfileFault::NoMemory, "P14"),
];

#[test]
fn texts_of_faults(rt: HostRuntime) -> Result<(), Fail> {
    for (fault, want) in &TEXTS {
        let text = words(rt.alloc(), Some(*fault))?;
        check_words(&rt, text.as_str(), want, "a fault");
    }
    Ok(())
}

/// A fault of the tables of each kind, and of each file.
static TABLE_FAULTS: [TableFault; 8] = [
    TableFault::BadCsv(ship_tables::File::Cells, 1),
    TableFault::BadNumber(ship_tables::File::Hydro, 2),
    TableFault::OutOfLimits(ship_tables::File::Levers, 3),
    TableFault::NotRising(ship_tables::File::Bonjean, 4),
    TableFault::DoubleCell(5),
    TableFault::OutsideStations(ship_tables::File::Tanks, 6),
    TableFault::TooFewRows(ship_tables::File::LeastGm),
    TableFault::NoMemory,
];

#[test]
fn faults_of_tables_keep_their_texts(rt: HostRuntime) -> Result<(), Fail> {
    for fault in &TABLE_FAULTS {
        let text = format!(in rt.alloc(); "{fault}")?;
        let same = words(rt.alloc(), Some(ProfileFault::from(*fault)))?;
        check_words(&rt, same.as_str(), text.as_str(), "a fault");
    }
    Ok(())
}
