//! Which profiles are equal: those of the same files, and none of which one value differs. The ship
//! is that of unlike numbers.
use super::files::lend;
use super::profiles::with_text;
use super::values::unlike_ship;
use crate::checks::{holds, holds_row};
use ship_profile::{File, Profile, ProfileBytes};
use std::alloc::Global;
use std::process::Abort;
use std::test::Fail;

/// Whether a profile is the one that these files are.
fn is_of(alloc: Global, profile: &Profile, files: &ProfileBytes<'_>) -> Result<bool, Fail> {
    let read = Profile::read(alloc, files);
    lend(read, |other: &Profile| profile.same(other))
}

/// Whether the profiles of two ships' files are equal.
fn are_same(
    alloc: Global,
    first: &ProfileBytes<'_>,
    second: &ProfileBytes<'_>,
) -> Result<bool, Fail> {
    let read = Profile::read(alloc, first);
    lend(read, |profile: &Profile| is_of(alloc, profile, second))?
}

/// The text of a file; none of one that isn't there.
fn text_of<'a>(files: &ProfileBytes<'a>, file: File) -> &'a [u8] {
    match file {
        File::Ship => files.ship,
        File::Cells => files.cells,
        File::Hydro => files.hydro,
        File::Levers => files.kn,
        File::Bonjean => files.bonjean,
        File::Tanks => files.tanks,
        File::LeastGm => files.gm.unwrap_or(&[]),
    }
}

/// Whether the ship is equal to herself with one thing written in another way in one of her files.
fn is_same_with(alloc: Global, file: File, from: &str, to: &str) -> Result<bool, Fail> {
    let files = unlike_ship();
    let text = str::from_utf8(text_of(&files, file))?;
    let changed = text.replace(alloc, from, to)?;
    are_same(alloc, &files, &with_text(files, file, changed.as_bytes()))
}

/// Changes that leave the ship as she is: the words of a heading, a number written in another way.
static NO_CHANGES: [(File, &str, &str); 3] = [
    (File::Ship, "lbp_mm = 90001", "lbp_mm = 90_001"),
    (File::Cells, "cell,x,y,z,half", "place,a,b,c,d"),
    (File::Hydro, "2040", " 02040"),
];

#[test]
fn the_same_ship(rt: HostRuntime) -> Result<(), Fail> {
    holds(&rt, are_same(rt.alloc(), &unlike_ship(), &unlike_ship())?);
    for (file, from, to) in &NO_CHANGES {
        holds_row(&rt, from, is_same_with(rt.alloc(), *file, from, to)?);
    }
    Ok(())
}

/// One change of each value of `ship.toml`.
static CHANGES_OF_SHIP: [(&str, &str); 20] = [
    ("lbp_mm = 90001", "lbp_mm = 90002"),
    ("downflooding_deg = 41", "downflooding_deg = 42"),
    ("draught_max_mm = 7003", "draught_max_mm = 7004"),
    ("trim_max_mm = 604", "trim_max_mm = 605"),
    ("list_max = 505", "list_max = 506"),
    ("closing_max_kg = 4006", "closing_max_kg = 4007"),
    // the first station, and one at which a frame stands
    ("-107, 20008", "-108, 20008"),
    ("51009", "51010"),
    ("kg = 700011", "kg = 700012"),
    ("x_mm = 30012", "x_mm = 30013"),
    ("y_mm = -13", "y_mm = 13"),
    ("z_mm = 5014", "z_mm = 5015"),
    ("half_mm = 15015", "half_mm = 15016"),
    ("shear_max_kg = 24024", "shear_max_kg = 24025"),
    ("hog_max_kgmm = 25025025", "hog_max_kgmm = 25025026"),
    ("sag_max_kgmm = 26026026", "sag_max_kgmm = 26026027"),
    // the mass of a fill, the tanks of both, their order, and one fill less
    ("kg = 27\n", "kg = 28\n"),
    (
        "tank = \"S\"\nkg = 27\n[[fills]]\ntank = \"P\"",
        "tank = \"P\"\nkg = 27\n[[fills]]\ntank = \"S\"",
    ),
    (
        "tank = \"S\"\nkg = 27\n[[fills]]\ntank = \"P\"\nkg = 1028",
        "tank = \"P\"\nkg = 1028\n[[fills]]\ntank = \"S\"\nkg = 27",
    ),
    ("[[fills]]\ntank = \"S\"\nkg = 27\n", ""),
];

/// One change of each column of the tables, of the order of the cells, and of the number of rows.
static CHANGES_OF_TABLES: [(File, &str, &str); 30] = [
    (File::Cells, "0010384", "0010484"),
    (File::Cells, "31031,1032", "31030,1032"),
    (File::Cells, "1032,6033", "1033,6033"),
    (File::Cells, "6033,3034", "6034,3034"),
    (File::Cells, "3034", "3035"),
    (
        File::Cells,
        "0010384,31031,1032,6033,3034\n0050284,71035,-2036,7037,6038\n",
        "0050284,71035,-2036,7037,6038\n0010384,31031,1032,6033,3034\n",
    ),
    (
        File::Cells,
        "6038\n",
        "6038\n0070284,71035,-2036,7037,6038\n",
    ),
    (File::Hydro, "1000039,", "1000040,"),
    (File::Hydro, "2040,", "2041,"),
    (File::Hydro, "9041,", "9042,"),
    (File::Hydro, "45042,", "45043,"),
    (File::Hydro, "44043,", "44044,"),
    (File::Hydro, "8000044", "8000045"),
    (
        File::Hydro,
        "9000050\n",
        "9000050\n2000046,4046,8047,46048,43049,9000050\n",
    ),
    (File::Levers, "1000051,", "1000050,"),
    (File::Levers, "1000051,100,", "1000051,101,"),
    (File::Levers, ",1350", ",1351"),
    (File::Bonjean, "53,5400", "54,5400"),
    (File::Bonjean, "53,5400", "53,5401"),
    (File::Bonjean, ",62000", ",62001"),
    (File::Tanks, "P,1000,", "P,1001,"),
    (File::Tanks, "20063,", "20064,"),
    (File::Tanks, "-3064,", "-3063,"),
    (File::Tanks, "1065,566", "1064,566"),
    (File::Tanks, "1065,566", "1065,567"),
    (File::Tanks, "67000", "67001"),
    // a tank more
    (
        File::Tanks,
        "79,93\n",
        "79,93\nQ,20,60068,69,70,71,72\nQ,30,60070,66,75,79,93\n",
    ),
    (File::LeastGm, "1000076,277", "1000077,277"),
    (File::LeastGm, "1000076,277", "1000076,278"),
    (File::LeastGm, "2000078,379\n", "2000078,379\n2000079,379\n"),
];

#[test]
fn another_ship(rt: HostRuntime) -> Result<(), Fail> {
    for (from, to) in &CHANGES_OF_SHIP {
        holds_row(&rt, from, !is_same_with(rt.alloc(), File::Ship, from, to)?);
    }
    Ok(())
}

#[test]
fn other_tables(rt: HostRuntime) -> Result<(), Fail> {
    for (file, from, to) in &CHANGES_OF_TABLES {
        holds_row(
            &rt,
            (file, from),
            !is_same_with(rt.alloc(), *file, from, to)?,
        );
    }
    Ok(())
}

/// The ship without her table of least metacentric heights.
#[test]
fn a_table_that_is_missing(rt: HostRuntime) -> Result<(), Fail> {
    let files = unlike_ship();
    let without = ProfileBytes { gm: None, ..files };
    holds(&rt, are_same(rt.alloc(), &without, &without)?);
    holds(&rt, !are_same(rt.alloc(), &files, &without)?);
    holds(&rt, !are_same(rt.alloc(), &without, &files)?);
    Ok(())
}

/// The tables of two tanks that aren't filled, and of which the name alone differs.
static UNFILLED: [&[u8]; 2] = [
    b"h,h,h,h,h,h,h\nP,1,2,3,4,5,6\nP,2,2,3,4,5,6\nS,1,2,3,4,5,6\nS,2,2,3,4,5,6\nQ,1,2,3,4,5,6\nQ,2,2,3,4,5,6\n",
    b"h,h,h,h,h,h,h\nP,1,2,3,4,5,6\nP,2,2,3,4,5,6\nS,1,2,3,4,5,6\nS,2,2,3,4,5,6\nR,1,2,3,4,5,6\nR,2,2,3,4,5,6\n",
];

#[test]
fn the_name_of_a_tank(rt: HostRuntime) -> Result<(), Fail> {
    let [first, second] = &UNFILLED;
    let first = with_text(unlike_ship(), File::Tanks, first);
    let second = with_text(unlike_ship(), File::Tanks, second);
    holds(&rt, are_same(rt.alloc(), &second, &second)?);
    holds(&rt, !are_same(rt.alloc(), &first, &second)?);
    Ok(())
}
