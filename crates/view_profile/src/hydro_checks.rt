//! Checks of hydro.csv.
use crate::figures::{on_line, record_of, size, times};
use crate::warnings::Found;
use plain_text::in_tenths;
use ship_profile::Profile;
use std::alloc::{AllocError, Global};
use view_inputs::Notices;
use view_quotes::{column_number, metres, trimming_moment};

/// The file.
const FILE: &str = "hydro.csv";

/// Adds draughts that don't rise: V6.
fn add_falling(alloc: Global, warnings: &mut Notices, profile: &Profile) -> Result<(), AllocError> {
    let draughts = profile.hydro().draught();
    let mut found = Found::nothing(alloc);
    for place in 1..draughts.len() {
        let draught = column_number(draughts, place);
        if draught <= column_number(draughts, place - 1) {
            let draught = metres(alloc, draught)?;
            let words = format!(in alloc; "the draught doesn't rise, {draught} m")?;
            found.note(record_of(place), words);
        }
    }
    found.add_to(alloc, warnings, "V6", FILE)
}

/// Adds displacements and draughts that give a waterline of no ship: V7.
fn add_widths(alloc: Global, warnings: &mut Notices, profile: &Profile) -> Result<(), AllocError> {
    let hydro = profile.hydro();
    let lbp = i128::from(profile.lbp().get());
    let mut found = Found::nothing(alloc);
    for place in 1..hydro.kg().len() {
        let rise = column_number(hydro.draught(), place).saturating_sub(column_number(
            hydro.draught(),
            place - 1,
        ));
        let mass = column_number(hydro.kg(), place).saturating_sub(column_number(
            hydro.kg(),
            place - 1,
        ));
        // kg over mm of draught, of 1,025 kg in a cubic metre of water, by mm of length
        let top = times(mass, 1_000_000_000);
        let bottom = times(times(rise, 1_025), lbp);
        let is_ship = times(3_000, bottom) <= top && top <= times(70_000, bottom);
        let tenths = times(bottom, 100);
        if rise > 0 && tenths > 0 && !is_ship {
            let width = in_tenths(alloc, top.div_euclid(tenths))?;
            let words = format!(in alloc;
                "kg and draught give a waterline {width} m wide on average"
            )?;
            found.note(record_of(place), words);
        }
    }
    found.add_to(alloc, warnings, "V7", FILE)
}

/// Whether a number of a table is off the line of those around it: by more than a twentieth of
/// what that reads, and than a least distance.
pub fn is_off_line(arguments: &[i128], numbers: &[i128], place: usize, least: i128) -> bool {
    let argument = column_number(arguments, place);
    let line = on_line(
        arguments,
        numbers,
        (place.saturating_sub(1), place.saturating_add(1)),
        argument,
    );
    let off = size(times(column_number(numbers, place), line.den).saturating_sub(line.num));
    let least = times(times(20, least), line.den);
    times(20, off) > least.max(size(line.num))
}

/// Adds numbers of a column off the line of the records around them: V8.
fn add_off_line(
    alloc: Global,
    warnings: &mut Notices,
    arguments: &[i128],
    numbers: &[i128],
    name: &str,
    least: i128,
) -> Result<(), AllocError> {
    let mut found = Found::nothing(alloc);
    for place in 1..numbers.len().saturating_sub(1) {
        if is_off_line(arguments, numbers, place, least) {
            let number = column_number(numbers, place);
            let words = format!(in alloc;
                "{name} {number} is off the line of the records around it"
            )?;
            found.note(record_of(place), words);
        }
    }
    found.add_to(alloc, warnings, "V8", FILE)
}

/// Adds numbers of each column off the line of the records around them: V8.
fn add_off_lines(
    alloc: Global,
    warnings: &mut Notices,
    profile: &Profile,
) -> Result<(), AllocError> {
    let hydro = profile.hydro();
    let columns = [
        ("draught", hydro.draught(), 50i128),
        ("KMT", hydro.kmt(), 200),
        ("LCB", hydro.lcb(), 500),
        ("LCF", hydro.lcf(), 1_000),
        ("MCT", hydro.mct(), 0),
    ];
    for (name, numbers, least) in columns {
        add_off_line(alloc, warnings, hydro.kg(), numbers, name, least)?;
    }
    Ok(())
}

/// Adds metacentres that are too low or too high: V9.
fn add_metacentres(
    alloc: Global,
    warnings: &mut Notices,
    profile: &Profile,
) -> Result<(), AllocError> {
    let hydro = profile.hydro();
    let mut found = Found::nothing(alloc);
    for place in 0..hydro.kmt().len() {
        let height = column_number(hydro.kmt(), place);
        let half = column_number(hydro.draught(), place).div_euclid(2);
        if height < 2_000 || 60_000 < height || height < half {
            let height = metres(alloc, height)?;
            found.note(record_of(place), format!(in alloc; "KMT of {height} m")?);
        }
    }
    found.add_to(alloc, warnings, "V9", FILE)
}

/// Adds centres that aren't amidships: V9.
fn add_centres(
    alloc: Global,
    warnings: &mut Notices,
    profile: &Profile,
    name: &str,
    numbers: &[i128],
) -> Result<(), AllocError> {
    let lbp = i128::from(profile.lbp().get());
    let mut found = Found::nothing(alloc);
    for place in 0..numbers.len() {
        let tenfold = times(10, column_number(numbers, place));
        if tenfold < times(3, lbp) || times(7, lbp) < tenfold {
            let x = metres(alloc, column_number(numbers, place))?;
            let words = format!(in alloc; "{name} of {x} m: measured from midships?")?;
            found.note(record_of(place), words);
        }
    }
    found.add_to(alloc, warnings, "V9", FILE)
}

/// Adds moments that change the trim by too little or too much: V9.
fn add_moments(alloc: Global, warnings: &mut Notices, profile: &Profile) -> Result<(), AllocError> {
    let hydro = profile.hydro();
    let mut found = Found::nothing(alloc);
    for place in 0..hydro.mct().len() {
        let moment = column_number(hydro.mct(), place);
        let mass = column_number(hydro.kg(), place);
        let tenfold = times(10, moment);
        if tenfold < mass || times(200, mass) < tenfold {
            let moment = trimming_moment(alloc, moment)?;
            found.note(
                record_of(place),
                format!(in alloc; "MCT of {moment} t m per cm")?,
            );
        }
    }
    found.add_to(alloc, warnings, "V9", FILE)
}

/// Adds what looks wrong of hydro.csv: V6 to V9.
pub fn add_hydro(
    alloc: Global,
    warnings: &mut Notices,
    profile: &Profile,
) -> Result<(), AllocError> {
    add_falling(alloc, warnings, profile)?;
    add_widths(alloc, warnings, profile)?;
    add_off_lines(alloc, warnings, profile)?;
    add_metacentres(alloc, warnings, profile)?;
    add_centres(alloc, warnings, profile, "LCB", profile.hydro().lcb())?;
    add_centres(alloc, warnings, profile, "LCF", profile.hydro().lcf())?;
    add_moments(alloc, warnings, profile)
}
