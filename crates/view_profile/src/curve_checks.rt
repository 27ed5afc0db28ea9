//! Checks of kn.csv, bonjean.csv and gm.csv.
use crate::figures::{around, on_line, record_of, size, times};
use crate::hydro_checks::is_off_line;
use crate::warnings::{Found, Parts};
use ship_profile::{Curves, Profile};
use std::alloc::{AllocError, Global};
use view_inputs::Notices;
use view_quotes::{column_ends, column_number, metres, tenths_of_tonnes, whole_tonnes};

/// The sine of 5 degrees, times a million.
const SINE: i128 = 87_156;

/// A column of a table's curves.
fn column(curves: &Curves, number: usize) -> &[i128] {
    match curves.column(number) {
        Some(numbers) => numbers,
        None => &[],
    }
}

/// Adds levers that don't begin at 0: V10.
fn add_upright(alloc: Global, warnings: &mut Notices, levers: &Curves) -> Result<(), AllocError> {
    let upright = column(levers, 0);
    let mut found = Found::nothing(alloc);
    for place in 0..upright.len() {
        let lever = column_number(upright, place);
        if lever != 0 {
            let lever = metres(alloc, lever)?;
            let words = format!(in alloc; "KN at 0 degrees is {lever} m")?;
            found.note(record_of(place), words);
        }
    }
    found.add_to(alloc, warnings, "V10", "kn.csv")
}

/// Adds levers at 5 degrees that the metacentre doesn't give: V11.
fn add_first_levers(
    alloc: Global,
    warnings: &mut Notices,
    profile: &Profile,
) -> Result<(), AllocError> {
    let levers = profile.levers();
    let hydro = profile.hydro();
    let first = column(levers, 1);
    let mut found = Found::nothing(alloc);
    for place in 0..first.len() {
        let kg = column_number(levers.arguments(), place);
        let Some(places) = around(hydro.kg(), kg) else {
            continue;
        };
        let line = on_line(hydro.kg(), hydro.kmt(), places, kg);
        let top = times(line.num, SINE);
        let bottom = times(line.den, 1_000_000);
        let lever = column_number(first, place);
        let off = size(times(lever, bottom).saturating_sub(top));
        if bottom > 0 && times(10, off) > top {
            let lever = metres(alloc, lever)?;
            let read = metres(alloc, top.div_euclid(bottom))?;
            let words = format!(in alloc; "KN at 5 degrees {lever} m, KMT sin 5 {read} m")?;
            found.note(record_of(place), words);
        }
    }
    found.add_to(alloc, warnings, "V11", "kn.csv")
}

/// The first angle from 5 degrees on, in steps of these, at which a record of the levers is off the
/// line of those around it.
fn off_line_at(levers: &Curves, place: usize) -> Option<usize> {
    for angle in 1..13usize {
        if is_off_line(levers.arguments(), column(levers, angle), place, 50) {
            return Some(angle);
        }
    }
    None
}

/// Adds levers off the line of the records around them: V12.
fn add_bent(alloc: Global, warnings: &mut Notices, levers: &Curves) -> Result<(), AllocError> {
    let mut found = Found::nothing(alloc);
    for place in 1..levers.arguments().len().saturating_sub(1) {
        if let Some(angle) = off_line_at(levers, place) {
            let degrees = angle.saturating_mul(5);
            let lever = metres(alloc, column_number(column(levers, angle), place))?;
            let words = format!(in alloc;
                "KN at {degrees} degrees, {lever} m, is off the line of the records around it"
            )?;
            found.note(record_of(place), words);
        }
    }
    found.add_to(alloc, warnings, "V12", "kn.csv")
}

/// Adds what looks wrong of kn.csv: V10 to V12.
pub fn add_levers(
    alloc: Global,
    warnings: &mut Notices,
    profile: &Profile,
) -> Result<(), AllocError> {
    add_upright(alloc, warnings, profile.levers())?;
    add_first_levers(alloc, warnings, profile)?;
    add_bent(alloc, warnings, profile.levers())
}

/// Adds areas that fall with the draught: V13.
fn add_falling(alloc: Global, warnings: &mut Notices, profile: &Profile) -> Result<(), AllocError> {
    let bonjean = profile.bonjean();
    let mut found = Found::nothing(alloc);
    for place in 1..bonjean.arguments().len() {
        for (station, x) in profile.stations().iter().enumerate() {
            let areas = column(bonjean, station);
            if column_number(areas, place) < column_number(areas, place - 1) {
                if found.is_first() {
                    let x = metres(alloc, i128::from(x.get()))?;
                    let words = format!(in alloc; "the area at x {x} m falls")?;
                    found.note(record_of(place), words);
                } else {
                    found.note_more();
                }
            }
        }
    }
    found.add_to(alloc, warnings, "V13", "bonjean.csv")
}

/// Adds that the areas don't close with the displacements: V14.
fn add_closing(alloc: Global, warnings: &mut Notices, parts: &Parts<'_>) -> Result<(), AllocError> {
    let Some(worst) = parts.closing else {
        return Ok(());
    };
    if size(worst.error) <= i128::from(parts.profile.closing_max()) {
        return Ok(());
    }
    let kg = tenths_of_tonnes(alloc, worst.kg)?;
    let error = tenths_of_tonnes(alloc, worst.error)?;
    let text = format!(in alloc;
        "on an even keel at {kg} t it closes with {error} t: OUTSIDE CLOSING"
    )?;
    warnings.add("V14", "bonjean.csv", text)
}

/// Adds what looks wrong of bonjean.csv: V13 and V14.
pub fn add_bonjean(
    alloc: Global,
    warnings: &mut Notices,
    parts: &Parts<'_>,
) -> Result<(), AllocError> {
    add_falling(alloc, warnings, parts.profile)?;
    add_closing(alloc, warnings, parts)
}

/// Adds that a table over the displacement doesn't reach as far as hydro.csv: V15.
fn add_reach(
    alloc: Global,
    warnings: &mut Notices,
    file: &'static str,
    arguments: &[i128],
    masses: &[i128],
) -> Result<(), AllocError> {
    let (first, last) = column_ends(arguments);
    let (least, most) = column_ends(masses);
    if first <= least && most <= last {
        return Ok(());
    }
    let first = whole_tonnes(alloc, first)?;
    let last = whole_tonnes(alloc, last)?;
    let least = whole_tonnes(alloc, least)?;
    let most = whole_tonnes(alloc, most)?;
    let text = format!(in alloc;
        "reaches from {first} to {last} t, hydro.csv from {least} to {most} t"
    )?;
    warnings.add("V15", file, text)
}

/// Adds tables that don't reach far enough: V15.
pub fn add_reaches(
    alloc: Global,
    warnings: &mut Notices,
    profile: &Profile,
) -> Result<(), AllocError> {
    let masses = profile.hydro().kg();
    add_reach(
        alloc,
        warnings,
        "kn.csv",
        profile.levers().arguments(),
        masses,
    )?;
    if let Some(curves) = profile.least_gm() {
        add_reach(alloc, warnings, "gm.csv", curves.arguments(), masses)?;
    }
    let (first, last) = column_ends(profile.bonjean().arguments());
    if last < i128::from(profile.draught_max().get()) || 0 < first {
        let first = metres(alloc, first)?;
        let last = metres(alloc, last)?;
        let text = format!(in alloc; "reaches from {first} to {last} m")?;
        warnings.add("V15", "bonjean.csv", text)?;
    }
    Ok(())
}
