//! Checks of tanks.csv, and of the fills of ship.toml.
use crate::warnings::{Found, Parts};
use plain_text::many;
use std::alloc::{AllocError, Global};
use view_inputs::{Filling, Notices, TankRows};
use view_quotes::tonnes;

/// The file.
const FILE: &str = "tanks.csv";

/// Whether a tank rises from no free surface, with room between the first two records.
fn rises_from_none(tank: &TankRows) -> bool {
    match tank.rows.as_slice() {
        [first, second, ..] => {
            first.surface == 0 && second.surface > 0 && second.kg.saturating_sub(first.kg) > 1
        }
        _ => false,
    }
}

/// Whether no record of a tank has a free surface.
fn has_none(tank: &TankRows) -> bool {
    tank.rows.iter().all(|row| row.surface == 0)
}

/// Whether a filling's centre is below the keel, or far up.
fn is_far(row: &Filling) -> bool {
    row.z < 0 || 40_000 < row.z
}

/// Adds what looks wrong of tanks.csv: V16 to V18.
pub fn add_tanks(
    alloc: Global,
    warnings: &mut Notices,
    tanks: &[TankRows],
) -> Result<(), AllocError> {
    let mut thin = Found::nothing(alloc);
    let mut none = Found::nothing(alloc);
    let mut far = Found::nothing(alloc);
    for tank in tanks {
        let name = tank.name_line(alloc)?;
        if rises_from_none(tank) {
            let (least, _) = tank.reach();
            let least = tonnes(alloc, i128::from(least))?;
            let words = format!(in alloc; "tank {name} rises from no free surface at {least} t")?;
            thin.note(tank.record, words);
        }
        if has_none(tank) {
            let words = format!(in alloc; "tank {name} has no free surface at all")?;
            none.note(tank.record, words);
        }
        if tank.rows.iter().any(is_far) {
            let words = format!(in alloc;
                "tank {name} has its centre below the keel or over 40 m up"
            )?;
            far.note(tank.record, words);
        }
    }
    thin.add_to(alloc, warnings, "V16", FILE)?;
    none.add_to(alloc, warnings, "V17", FILE)?;
    far.add_to(alloc, warnings, "V18", FILE)
}

/// Adds fills of next to nothing: V19.
pub fn add_fills(
    alloc: Global,
    warnings: &mut Notices,
    parts: &Parts<'_>,
) -> Result<(), AllocError> {
    let mut count = 0u32;
    let mut first = String::new(alloc);
    for fill in parts.profile.fills() {
        let Some(tank) = parts.tank(fill.tank) else {
            continue;
        };
        let kg = i64::from(fill.kg);
        let (_, most) = tank.reach();
        if kg > 0 && kg.saturating_mul(100) < most {
            if count == 0 {
                let name = tank.name_line(alloc)?;
                let mass = tonnes(alloc, i128::from(kg))?;
                first = format!(in alloc; "{name}, {mass} t")?;
            }
            count = count.saturating_add(1);
        }
    }
    if count == 0 {
        return Ok(());
    }
    let count = many(alloc, count, "fill")?;
    let text = format!(in alloc; "{count} under 1 % of the tank: {first}: tonnes?")?;
    warnings.add("V19", "ship.toml", text)
}
