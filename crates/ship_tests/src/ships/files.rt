//! The files of the box ship: 100 m long, with vertical sides, a tank and no cargo.
use crate::checks::same_row;
use ship_profile::{Profile, ProfileBytes, ProfileFault};
use std::alloc::Global;
use std::process::Abort;
use std::test::Fail;

pub static SHIP: &str = "lbp_mm = 100000
downflooding_deg = 60
draught_max_mm = 6100
trim_max_mm = 500
list_max = 500
closing_max_kg = 5000
stations_mm = [0, 25000, 50000, 75000, 100000]
[[blocks]]
kg = 8200000
x_mm = 50000
y_mm = 0
z_mm = 6000
half_mm = 50000
[[frames]]
x_mm = 0
shear_max_kg = 100000
hog_max_kgmm = 1000000000
sag_max_kgmm = 1000000000
[[frames]]
x_mm = 25000
shear_max_kg = 100000
hog_max_kgmm = 1000000000
sag_max_kgmm = 1000000000
[[frames]]
x_mm = 50000
shear_max_kg = 100000
hog_max_kgmm = 1000000000
sag_max_kgmm = 1000000000
[[frames]]
x_mm = 75000
shear_max_kg = 100000
hog_max_kgmm = 1000000000
sag_max_kgmm = 1000000000
[[frames]]
x_mm = 100000
shear_max_kg = 100000
hog_max_kgmm = 1000000000
sag_max_kgmm = 1000000000
";

pub static CELLS: &str = "cell,x,y,z,half
0010082,75000,0,10000,3029
0020082,62500,0,10000,6096
0030082,50000,0,10000,3029
0030782,50000,8000,10000,3029
0050082,25000,0,10000,3029
";

static HYDRO: &str = "kg,draught,kmt,lcb,lcf,mct
4100000,2000,17667,50000,50000,17000000
8200000,4000,10333,50000,50000,17000000
12300000,6000,8556,50000,50000,17000000
";

static KN: &str = "kg,0,5,10,15,20,25,30,35,40,45,50,55,60
4100000,0,900,1790,2650,3470,4230,4900,5400,5750,5980,6110,6150,6110
8200000,0,900,1790,2650,3470,4230,4900,5400,5750,5980,6110,6150,6110
12300000,0,900,1790,2650,3470,4230,4900,5400,5750,5980,6110,6150,6110
";

static BONJEAN: &str = "draught,0,25000,50000,75000,100000
0,0,0,0,0,0
8000,1600000,1600000,1600000,1600000,1600000
";

pub static TANKS: &str = "tank,kg,x,y,z,half,fsm
DB1,0,50000,0,0,5000,0
DB1,500000,50000,0,1000,5000,2050000000
";

/// The keys of a box ship, each with its value.
static KEYS: [(&str, &str); 10] = [
    ("lbp_mm", "100000"),
    ("downflooding_deg", "60"),
    ("draught_max_mm", "6100"),
    ("trim_max_mm", "500"),
    ("list_max", "500"),
    ("closing_max_kg", "5000"),
    ("stations_mm", "[0, 25000, 50000, 75000, 100000]"),
    (
        "blocks",
        "[{kg = 8200000, x_mm = 50000, y_mm = 0, z_mm = 6000, half_mm = 50000}]",
    ),
    (
        "frames",
        "[{x_mm = 50000, shear_max_kg = 1, hog_max_kgmm = 1, sag_max_kgmm = 1}]",
    ),
    ("fills", "[]"),
];

/// Writes a key; an empty value leaves it out.
fn write_key(text: &mut String, name: &str, value: &str) -> Result<(), Fail> {
    if !value.is_empty() {
        write!(text, "{name} = {value}\n")?;
    }
    Ok(())
}

/// Writes the first `count` keys of a box ship, one of them with another value.
fn write_keys(text: &mut String, count: usize, key: &str, value: &str) -> Result<(), Fail> {
    for (name, own) in KEYS.iter().take(count) {
        if *name == key {
            write_key(text, name, value)?;
        } else {
            write_key(text, name, own)?;
        }
    }
    Ok(())
}

/// The first `count` keys of a box ship, one of them with another value; an empty value leaves the
/// key out.
pub fn first_keys(alloc: Global, count: usize, key: &str, value: &str) -> Result<String, Fail> {
    let mut text = String::new(alloc);
    write_keys(&mut text, count, key, value)?;
    Ok(text)
}

/// The `ship.toml` of a box ship in which one key has another value.
pub fn ship_with(alloc: Global, key: &str, value: &str) -> Result<String, Fail> {
    first_keys(alloc, KEYS.len(), key, value)
}

/// The files of the box ship with other texts of these.
pub fn box_files<'a>(
    ship: &'a str,
    cells: &'a str,
    tanks: &'a str,
    gm: Option<&'a str>,
) -> ProfileBytes<'a> {
    ProfileBytes {
        ship: ship.as_bytes(),
        cells: cells.as_bytes(),
        hydro: HYDRO.as_bytes(),
        kn: KN.as_bytes(),
        bonjean: BONJEAN.as_bytes(),
        tanks: tanks.as_bytes(),
        gm: match gm {
            Some(text) => Some(text.as_bytes()),
            None => None,
        },
    }
}

/// What a look at what was read gives. What was read is of any type here, so that no proof has to
/// take a profile apart.
pub fn lend<T: Drop, R, F: FnOnce(&T) -> R>(
    read: Result<T, ProfileFault>,
    look: F,
) -> Result<R, Fail>
    requires { F.IsAlwaysCallable look }
{
    match read {
        Ok(value) => Ok(look(&value)),
        Err(fault) => Err(Fail::new(fault)),
    }
}

/// The words of a fault; none where there is none.
pub fn words(alloc: Global, fault: Option<ProfileFault>) -> Result<String, Fail> {
    match fault {
        Some(fault) => Ok(format!(in alloc; "{fault}")?),
        None => Ok(String::new(alloc)),
    }
}

/// The words of the fault of these files; none where they are a profile.
pub fn refusal(alloc: Global, files: &ProfileBytes<'_>) -> Result<String, Fail> {
    words(alloc, Profile::read(alloc, files).err())
}

/// Compares words with the expected ones of a case.
pub fn check_words(rt: &impl Abort, words: &str, want: &str, case: &str) {
    same_row(rt, case, words, want);
}

/// Reads files and compares the words of their fault; none for files that are taken.
pub fn check_files(
    rt: &(impl Abort + AllocGlobal),
    files: &ProfileBytes<'_>,
    want: &str,
    case: &str,
) -> Result<(), Fail> {
    let refused = refusal(rt.alloc(), files)?;
    check_words(rt, refused.as_str(), want, case);
    Ok(())
}

/// The same for the box ship with another `ship.toml`.
pub fn check_ship(
    rt: &(impl Abort + AllocGlobal),
    ship: &str,
    want: &str,
    case: &str,
) -> Result<(), Fail> {
    check_files(rt, &box_files(ship, CELLS, TANKS, None), want, case)
}

/// The same for the box ship with another value of a key.
pub fn check_value(
    rt: &(impl Abort + AllocGlobal),
    key: &str,
    value: &str,
    want: &str,
) -> Result<(), Fail> {
    let ship = ship_with(rt.alloc(), key, value)?;
    check_ship(rt, ship.as_str(), want, value)
}

/// Keys, each with a value and the words of its fault; none for a value that is taken.
pub fn check_values(
    rt: &(impl Abort + AllocGlobal),
    rows: &[(&str, &str, &str)],
) -> Result<(), Fail> {
    for (key, value, want) in rows {
        check_value(rt, key, value, want)?;
    }
    Ok(())
}
