//! The limits of what the bodies of a ship can add up to. Bodies are 2 mm long here.
use super::bodies::join;
use super::ships::on_two_frames;
use super::tables::Row;
use crate::checks::same;
use box_ship::Check;
use moment_sums::Totals;
use prefix_scan::Monoid;
use ship_profile::{Frames, Profile};
use std::process::Abort;
use std::test::Fail;
use units_core::Body;

/// A body that is put in or taken out.
#[derive(Clone, Copy)]
enum Part {
    Put(u32, [i32; 3], i64),
    Take(u32, [i32; 3], i64),
}

use Part::{Put, Take};

/// The body of a row.
fn body(kg: u32, place: [i32; 3], fsm: i64) -> Result<Body, Fail> {
    let [x, y, z] = place;
    let row = Row {
        kg,
        x,
        y,
        z,
        half: 1,
        fsm,
    };
    row.body()
}

/// What a part adds.
fn add_part(part: &Part, frames: &Frames) -> Result<Totals, Fail> {
    match *part {
        Put(kg, place, fsm) => Ok(Totals::of(&body(kg, place, fsm)?, frames)),
        Take(kg, place, fsm) => Ok(Totals::of(&body(kg, place, fsm)?, frames).minus()),
    }
}

/// All parts as one.
fn sum_of(parts: &[Part], frames: &Frames) -> Result<Totals, Fail> {
    let mut sum = Totals::unit();
    for part in parts {
        sum = join(&sum, &add_part(part, frames)?)?;
    }
    Ok(sum)
}

/// Parts, and whether the bodies of a ship can add up to their sum.
type Case = (&'static [Part], bool);

/// Before both frames.
const FORE: [i32; 3] = [60_000, 0, 0];

static MASSES: [Case; 3] = [
    (&[], true),
    // 1 - 1 = 0 kg, and no moment
    (&[Put(1, FORE, 0), Take(1, FORE, 0)], true),
    // 1 - 2 = -1 kg; then no moment is small enough either
    (&[Put(1, FORE, 0), Take(2, FORE, 0)], false),
];

/// Sums of 1 kg: a moment of 1,000,000 is a kilometre.
static CENTRES: [Case; 12] = [
    // 2 * 700,000 - 400,000 = 1,000,000
    (
        &[Put(2, [700_000, 0, 0], 0), Take(1, [400_000, 0, 0], 0)],
        true,
    ),
    (
        &[Put(2, [700_000, 0, 0], 0), Take(1, [399_999, 0, 0], 0)],
        false,
    ),
    (
        &[Put(2, [-700_000, 0, 0], 0), Take(1, [-400_000, 0, 0], 0)],
        true,
    ),
    (
        &[Put(2, [-700_000, 0, 0], 0), Take(1, [-399_999, 0, 0], 0)],
        false,
    ),
    (
        &[
            Put(2, [60_000, 700_000, 0], 0),
            Take(1, [60_000, 400_000, 0], 0),
        ],
        true,
    ),
    (
        &[
            Put(2, [60_000, 700_000, 0], 0),
            Take(1, [60_000, 399_999, 0], 0),
        ],
        false,
    ),
    (
        &[
            Put(2, [60_000, -700_000, 0], 0),
            Take(1, [60_000, -400_000, 0], 0),
        ],
        true,
    ),
    (
        &[
            Put(2, [60_000, -700_000, 0], 0),
            Take(1, [60_000, -399_999, 0], 0),
        ],
        false,
    ),
    (
        &[
            Put(2, [60_000, 0, 700_000], 0),
            Take(1, [60_000, 0, 400_000], 0),
        ],
        true,
    ),
    (
        &[
            Put(2, [60_000, 0, 700_000], 0),
            Take(1, [60_000, 0, 399_999], 0),
        ],
        false,
    ),
    (
        &[
            Put(2, [60_000, 0, -700_000], 0),
            Take(1, [60_000, 0, -400_000], 0),
        ],
        true,
    ),
    (
        &[
            Put(2, [60_000, 0, -700_000], 0),
            Take(1, [60_000, 0, -399_999], 0),
        ],
        false,
    ),
];

static SURFACES: [Case; 2] = [
    (&[Put(2, FORE, 5), Take(1, FORE, 5)], true),
    // 5 - 6 = -1
    (&[Put(2, FORE, 5), Take(1, FORE, 6)], false),
];

/// The frame at 50,000 alone has bodies aft of it.
static WEIGHTS: [Case; 4] = [
    // aft of it 1 - 1 = 0 kg, with 100 - 10 = 90 kg mm
    (
        &[
            Put(1, [49_900, 0, 0], 0),
            Take(1, [49_990, 0, 0], 0),
            Put(10, FORE, 0),
        ],
        true,
    ),
    // aft of it 1 - 2 = -1 kg, with 100 - 20 = 80 kg mm
    (
        &[
            Put(1, [49_900, 0, 0], 0),
            Take(2, [49_990, 0, 0], 0),
            Put(10, FORE, 0),
        ],
        false,
    ),
    // aft of it 3 - 1 = 2 kg of 2
    (
        &[Put(3, [49_900, 0, 0], 0), Take(1, [49_990, 0, 0], 0)],
        true,
    ),
    // aft of it 3 kg of 3 - 1 = 2
    (&[Put(3, [49_900, 0, 0], 0), Take(1, FORE, 0)], false),
];

/// Sums with no mass aft of either frame, and with a moment.
static MOMENTS: [Case; 4] = [
    // 10 - 10 = 0 kg mm aft of the frame at 50,000
    (
        &[
            Put(1, [49_990, 0, 0], 0),
            Take(1, [49_990, 0, 0], 0),
            Put(5, FORE, 0),
        ],
        true,
    ),
    // 10 - 11 = -1
    (
        &[
            Put(1, [49_990, 0, 0], 0),
            Take(1, [49_989, 0, 0], 0),
            Put(5, FORE, 0),
        ],
        false,
    ),
    // of 1 kg 3 * 1,000,000 - 2 * 333,333 - 333,334 = 2,000,000, and along the ship -2,000,000 + 2
    // * 800,000 - 400,000 = -800,000
    (
        &[
            Put(3, [-950_000, 0, 0], 0),
            Take(2, [-283_333, 0, 0], 0),
            Take(1, [-283_334, 0, 0], 0),
            Put(2, [800_000, 0, 0], 0),
            Take(1, [400_000, 0, 0], 0),
        ],
        true,
    ),
    // 3 * 1,000,000 - 3 * 333,333 = 2,000,001
    (
        &[
            Put(3, [-950_000, 0, 0], 0),
            Take(3, [-283_333, 0, 0], 0),
            Put(2, [800_000, 0, 0], 0),
            Take(1, [400_000, 0, 0], 0),
        ],
        false,
    ),
];

/// Cases, each of which is bounded or not.
#[derive(Clone, Copy)]
struct Cases(&'static [Case]);

impl<R: Abort + AllocGlobal> Check<R> for Cases {
    fn check(&self, rt: &R, profile: &Profile) -> Result<(), Fail> {
        let frames = profile.frames();
        for (parts, bounded) in self.0 {
            let sum = sum_of(parts, frames)?;
            same(rt, sum.is_bounded(), *bounded);
        }
        Ok(())
    }
}

#[test]
fn bounds_of_mass(rt: HostRuntime) -> Result<(), Fail> {
    on_two_frames(&rt, &Cases(&MASSES))
}

#[test]
fn bounds_of_centres(rt: HostRuntime) -> Result<(), Fail> {
    on_two_frames(&rt, &Cases(&CENTRES))
}

#[test]
fn bounds_of_surface(rt: HostRuntime) -> Result<(), Fail> {
    on_two_frames(&rt, &Cases(&SURFACES))
}

#[test]
fn bounds_of_weights(rt: HostRuntime) -> Result<(), Fail> {
    on_two_frames(&rt, &Cases(&WEIGHTS))
}

#[test]
fn bounds_of_moments(rt: HostRuntime) -> Result<(), Fail> {
    on_two_frames(&rt, &Cases(&MOMENTS))
}

/// The greatest free surface moments.
#[derive(Clone, Copy)]
struct Surfaces;

impl<R: Abort + AllocGlobal> Check<R> for Surfaces {
    fn check(&self, rt: &R, profile: &Profile) -> Result<(), Fail> {
        let frames = profile.frames();
        // 200 * 10^12 = 2 * 10^14
        let mut sum = Totals::unit();
        for _ in 0..200 {
            sum = join(&sum, &add_part(&Put(1, FORE, 1_000_000_000_000), frames)?)?;
        }
        same(rt, sum.is_bounded(), true);
        let more = join(&sum, &add_part(&Put(1, FORE, 1), frames)?)?;
        same(rt, more.is_bounded(), false);
        Ok(())
    }
}

#[test]
fn greatest_surface(rt: HostRuntime) -> Result<(), Fail> {
    on_two_frames(&rt, &Surfaces)
}
