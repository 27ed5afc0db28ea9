//! Checks of ship.toml: sizes, limits, stations, frames, and the ship alone.
ghost use Rattle.std.specs.Prelude.{◌≤◌};
ghost use Rattle.moment_sums.specs.Kept.{size_of};

use crate::figures::{size, times};
use crate::warnings::Parts;
use criteria::{Verdict, judge};
use moment_sums::Totals;
use plain_text::{in_hundredths, many};
use prefix_scan::Monoid;
use ship_profile::Profile;
use std::alloc::{AllocError, Global};
use units_core::Frac;
use view_figures::list_reading;
use view_inputs::Notices;
use view_quotes::{column_ends, metres, tonnes};

/// The light ship: everything that a ship is alone, added up.
pub fn light_ship(profile: &Profile) -> Totals
    ensures { size_of result ≤ 200 }
{
    let mut sum = Totals::unit();
    let blocks = profile.blocks();
    for place in 0..200 {
        if let Some(block) = blocks.get(place) {
            sum.add(block, profile.frames());
        }
    }
    sum
}

/// Adds sizes that may be of another unit: V3.
pub fn add_sizes(
    alloc: Global,
    warnings: &mut Notices,
    parts: &Parts<'_>,
) -> Result<(), AllocError> {
    let profile = parts.profile;
    let lbp = i128::from(profile.lbp().get());
    if lbp < 20_000 {
        let length = metres(alloc, lbp)?;
        let text = format!(in alloc; "a length of {length} m: metres in place of millimetres?")?;
        warnings.add("V3", "ship.toml", text)?;
    }
    let light = light_ship(profile).kg();
    if light < 100_000 {
        let light = tonnes(alloc, light)?;
        let text = format!(in alloc; "a light ship of {light} t: tonnes in place of kilograms?")?;
        warnings.add("V3", "ship.toml", text)?;
    }
    let draught = i128::from(profile.draught_max().get());
    if draught < 1_000 {
        let draught = metres(alloc, draught)?;
        let text = format!(in alloc; "a greatest draught of {draught} m")?;
        warnings.add("V3", "ship.toml", text)?;
    }
    let mut farthest = 0i64;
    for row in parts.cells {
        farthest = farthest.max(row.x.saturating_abs());
    }
    if farthest < 1_000 {
        let text = String::from_str(
            alloc,
            "all cells lie within a metre of the after perpendicular: metres?",
        )?;
        warnings.add("V3", "cells.csv", text)?;
    }
    Ok(())
}

/// The limit of the list in degrees.
pub fn list_limit(alloc: Global, profile: &Profile) -> Result<String, AllocError> {
    let none = Frac { num: 0, den: 1 };
    in_hundredths(alloc, list_reading(none, profile.list_max()).limit)
}

/// Adds limits that look wrong: V4.
pub fn add_limits(
    alloc: Global,
    warnings: &mut Notices,
    profile: &Profile,
) -> Result<(), AllocError> {
    let list = profile.list_max();
    let degrees = list_limit(alloc, profile)?;
    if list < 17 {
        let text = format!(in alloc; "list_max is {degrees} degrees: 1 degree is 174")?;
        warnings.add("V4", "ship.toml", text)?;
    } else if list > 1_763 {
        let text = format!(in alloc; "list_max is {degrees} degrees")?;
        warnings.add("V4", "ship.toml", text)?;
    }
    let (least, _) = column_ends(profile.hydro().kg());
    if times(i128::from(profile.closing_max()), 50) > least {
        let text = String::from_str(
            alloc,
            "closing_max_kg is over 2 % of the least displacement: it hides faults",
        )?;
        warnings.add("V4", "ship.toml", text)?;
    }
    let draught = i128::from(profile.draught_max().get());
    let (_, deepest) = column_ends(profile.hydro().draught());
    if draught > deepest {
        let draught = metres(alloc, draught)?;
        let deepest = metres(alloc, deepest)?;
        let text = format!(in alloc; "draught_max {draught} m is beyond hydro.csv, {deepest} m")?;
        warnings.add("V4", "ship.toml", text)?;
    }
    let angle = profile.downflooding();
    if angle < 60 {
        let text = format!(in alloc;
            "openings go under at {angle} degrees; C5, C6 read levers to 60"
        )?;
        warnings.add("V4", "ship.toml", text)?;
    }
    Ok(())
}

/// Adds that an end of the ship has no station: V5.
pub fn add_keys(
    alloc: Global,
    warnings: &mut Notices,
    profile: &Profile,
) -> Result<(), AllocError> {
    let stations = profile.stations();
    if let (Some(first), Some(last)) = (stations.first(), stations.last()) {
        let (first, last) = (first.get(), last.get());
        if first > 0 || last < profile.lbp().get() {
            let first = metres(alloc, i128::from(first))?;
            let last = metres(alloc, i128::from(last))?;
            let text = format!(in alloc;
                "stations from {first} to {last} m: an end of the ship has none"
            )?;
            warnings.add("V5", "ship.toml", text)?;
        }
    }
    Ok(())
}

/// Adds frames with limits of 0, and with limits that no load reaches: V24.
pub fn add_frames(
    alloc: Global,
    warnings: &mut Notices,
    profile: &Profile,
) -> Result<(), AllocError> {
    let (_, most) = column_ends(profile.hydro().kg());
    let lbp = i128::from(profile.lbp().get());
    let (mut zero, mut first_zero) = (0u32, 0u32);
    let (mut loose, mut first_loose) = (0u32, 0u32);
    let mut number = 0u32;
    for frame in profile.frames().as_slice() {
        number = number.saturating_add(1);
        if frame.shear_max == 0 || frame.hog_max == 0 || frame.sag_max == 0 {
            if zero == 0 {
                first_zero = number;
            }
            zero = zero.saturating_add(1);
        }
        let bending = i128::from(frame.hog_max.max(frame.sag_max));
        if i128::from(frame.shear_max) > times(10, most) || bending > times(most, lbp) {
            if loose == 0 {
                first_loose = number;
            }
            loose = loose.saturating_add(1);
        }
    }
    if zero > 0 {
        let count = many(alloc, zero, "frame")?;
        let text = format!(in alloc; "{count} with a limit of 0: frame {first_zero}")?;
        warnings.add("V24", "ship.toml", text)?;
    }
    if loose > 0 {
        let count = many(alloc, loose, "frame")?;
        let text = format!(in alloc;
            "{count} with a limit that no load reaches: frame {first_loose}"
        )?;
        warnings.add("V24", "ship.toml", text)?;
    }
    Ok(())
}

/// Whether the ship alone lies within her tables.
fn is_within(profile: &Profile) -> bool {
    let sum = light_ship(profile);
    if !sum.is_bounded() {
        return false;
    }
    match judge(profile, &sum) {
        Verdict::Outside(_) => false,
        _ => true,
    }
}

/// Adds what looks wrong of the ship alone: V25 and V26.
pub fn add_alone(
    alloc: Global,
    warnings: &mut Notices,
    profile: &Profile,
) -> Result<(), AllocError> {
    let light = light_ship(profile);
    let kg = light.kg();
    let (least, _) = column_ends(profile.hydro().kg());
    if kg < least {
        let alone = tonnes(alloc, kg)?;
        let first = tonnes(alloc, least)?;
        let text = format!(in alloc;
            "the light ship, {alone} t, lies below its first record, {first} t"
        )?;
        return warnings.add("V25", "hydro.csv", text);
    }
    let off = size(light.y());
    if off > times(500, kg) && kg > 0 && is_within(profile) {
        let off = metres(alloc, off.div_euclid(kg))?;
        let text = format!(in alloc; "the light ship's centre is {off} m off the middle line")?;
        return warnings.add("V26", "ship.toml", text);
    }
    Ok(())
}
