use super::masses::{BLOCK, Mass, length, sum_of};
use crate::checks::same;
use box_ship::{Check, on_box_ship};
use hydrostat::{DraughtLine, Outside, floating_of};
use ship_profile::Profile;
use std::process::Abort;
use std::test::Fail;
use units_core::{Frac, floor};

/// The condition of a ship with some masses aboard: mean draught, draughts aft and forward and at
/// 25,000, metacentric height, trim and list, each rounded down; or why she has none.
type Condition = Result<([i128; 6], Option<i128>), Outside>;

/// The figure of a fraction, and of one that may be missing.
fn figure(fraction: Option<Frac>) -> Option<i128> {
    match fraction {
        Some(fraction) => Some(floor(fraction)),
        None => None,
    }
}

/// Whether the line has the draughts, rounded down, at these places.
fn is_along(line: &DraughtLine, draughts: [(i32, i128); 3]) -> Result<bool, Fail> {
    for (x, draught) in draughts {
        if line.draught_down(length(x)?) != draught {
            return Ok(false);
        }
    }
    Ok(true)
}

/// How the ship floats with these masses aboard.
fn condition(profile: &Profile, masses: &[Mass]) -> Result<Condition, Fail> {
    let sum = sum_of(profile, masses)?;
    let quarter = length(25_000)?;
    match floating_of(profile, &sum) {
        Ok(floats) => {
            let figures = [
                floor(floats.mean),
                floor(floats.aft),
                floor(floats.fwd),
                floor(floats.draught(quarter)),
                floor(floats.gm),
                floor(floats.trim),
            ];
            let line = DraughtLine::new(&floats.afloat);
            let [_, aft, forward, quarter_draught, _, _] = figures;
            if !is_along(
                &line,
                [(0, aft), (100_000, forward), (25_000, quarter_draught)],
            )? {
                return Err("the same draughts along the line")?;
            }
            Ok(Ok((figures, figure(floats.list))))
        }
        Err(outside) => Ok(Err(outside)),
    }
}

/// Masses aboard, and how the ship floats with them.
struct Row {
    masses: &'static [Mass],
    condition: Condition,
}

/// Compares rows with the box ship.
#[derive(Clone, Copy)]
struct Rows(&'static [Row]);

impl<R: Abort + AllocGlobal> Check<R> for Rows {
    fn check(&self, rt: &R, profile: &Profile) -> Result<(), Fail> {
        for row in self.0 {
            let floats = condition(profile, row.masses)?;
            same(rt, floats, row.condition);
        }
        Ok(())
    }
}

/// The block, and two containers.
const TWO_CONTAINERS: &[Mass] = &[
    BLOCK,
    (20_500, [50_000, 8_000, 10_000, 3_029]),
    (20_500, [25_000, 0, 10_000, 3_029]),
];

// The block alone: draught 4,000 mm, and GM = 10,333 - 6,000 = 4,333 mm.
//
// With 20,500 kg at x = 50,000, y = 8,000, z = 10,000 and 20,500 kg at x = 25,000, z = 10,000 there
// are 8,241,000 kg aboard. The table gives 4,000 + 2,000 * 41,000 / 4,100,000 = 4,020 mm and KMT =
// 10,333 - 1,777 * 41,000 / 4,100,000 = 10,315.23 mm. The centre of gravity lies 6,000 + 4,000 *
// 41,000 / 8,241,000 = 6,019.90 mm above the keel: GM = 4,295.33 mm. The trim is 20,500 * 25,000 /
// 17,000,000 = 30.147 mm by the stern, half of it aft: 4,035.07 mm aft, 4,004.93 mm forward, and
// 4,020 + 30.147 / 4 = 4,027.54 mm at 25,000. The centre lies 20,500 * 8,000 / 8,241,000 = 19.9005
// mm to starboard, and the list is 10,000 * 19.9005 / 4,295.33 = 46.33.
static CONDITIONS: [Row; 4] = [
    Row {
        masses: &[BLOCK],
        condition: Ok(([4_000, 4_000, 4_000, 4_000, 4_333, 0], Some(0))),
    },
    Row {
        masses: TWO_CONTAINERS,
        condition: Ok(([4_020, 4_035, 4_004, 4_027, 4_295, 30], Some(46))),
    },
    // At 10,333 mm the centre of gravity is the metacentre: without a metacentric height there is
    // no list.
    Row {
        masses: &[(8_200_000, [50_000, 100, 10_333, 50_000])],
        condition: Ok(([4_000, 4_000, 4_000, 4_000, 0, 0], None)),
    },
    Row {
        masses: &[(12_300_001, [50_000, 0, 6_000, 50_000])],
        condition: Err(Outside::Hydro),
    },
];

#[test]
fn conditions(rt: HostRuntime) -> Result<(), Fail> {
    on_box_ship(&rt, &Rows(&CONDITIONS))
}

/// Looks at a draught that 64 bits decide, in units, in parts of a millimetre, and by whichever the
/// line is known in.
#[derive(Clone, Copy)]
struct Decided {
    masses: &'static [Mass],
    draught: i64,
    /// Whether the line is flat enough to be known in parts.
    in_parts: bool,
}

impl<R: Abort + AllocGlobal> Check<R> for Decided {
    fn check(&self, rt: &R, profile: &Profile) -> Result<(), Fail> {
        let sum = sum_of(profile, self.masses)?;
        let floats = floating_of(profile, &sum).ok().ok_or("afloat")?;
        let line = DraughtLine::new(&floats.afloat);
        let at = length(25_000)?;
        let draught = Some(self.draught);
        let in_parts = if self.in_parts { draught } else { None };
        same(rt, line.quick_draught(at), draught);
        same(rt, line.read_in_parts(at), in_parts);
        same(rt, line.read(at), draught);
        Ok(())
    }
}

/// The two containers of the second row, with which it is 4,027.54 mm; and the block 60,000 mm aft
/// of the centre of buoyancy: the trim is 8,200,000 * 60,000 / 17,000,000 = 28,941.18 mm, steeper
/// than 1 in 4, and the draught 4,000 + 28,941.18 / 4 = 11,235.29 mm.
static DECIDED: [Decided; 2] = [
    Decided {
        masses: TWO_CONTAINERS,
        draught: 4_027,
        in_parts: true,
    },
    Decided {
        masses: &[(8_200_000, [-10_000, 0, 6_000, 50_000])],
        draught: 11_235,
        in_parts: false,
    },
];

#[test]
fn draught_in_64_bits(rt: HostRuntime) -> Result<(), Fail> {
    for decided in &DECIDED {
        on_box_ship(&rt, decided)?;
    }
    Ok(())
}
