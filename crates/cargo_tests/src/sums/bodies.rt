//! The values of bodies, alone, joined, and with the other sign.
use super::ships::on_two_frames;
use super::tables::{BOX, CONTAINER, Row};
use crate::checks::same;
use box_ship::Check;
use moment_sums::Totals;
use prefix_scan::Monoid;
use ship_profile::{Frames, Profile};
use std::process::Abort;
use std::test::Fail;

/// Mass, moments along, across and up the ship, free surface moment; masses aft of both frames and
/// of a third, which is not there; the three moments of these.
pub type Values = [i128; 11];

/// The values of a sum.
pub fn values(sum: &Totals) -> Values {
    [
        sum.kg(),
        sum.x(),
        sum.y(),
        sum.z(),
        sum.fsm(),
        sum.weight_aft(0),
        sum.weight_aft(1),
        sum.weight_aft(2),
        sum.moment_aft(0),
        sum.moment_aft(1),
        sum.moment_aft(2),
    ]
}

/// Two sums of few bodies as one.
pub fn join(one: &Totals, other: &Totals) -> Result<Totals, Fail> {
    if one.size() > 1_000 || other.size() > 1_000 {
        return Err("too many bodies")?;
    }
    Ok(one.join(other))
}

/// The container: 20,501 * 50,000, 20,501 * 1,200, 20,501 * 10,400; all of it lies before the frame
/// at 25,000, and half of it aft of that at 50,000.
pub static OF_CONTAINER: Values = [
    20_501,
    1_025_050_000,
    24_601_200,
    213_210_400,
    7_000_003,
    0,
    10_250,
    0,
    0,
    15_524_382,
    0,
];

/// The box: 900 * 26,000, 900 * -3,000, 900 * 2,000; aft of the frame at 25,000 lie 3,000 of its
/// 8,000 mm, 900 * 3 / 8 = 337.5 with the moment 900 * 3,000 * 3,000 / 16,000 = 506,250; all of it
/// lies aft of the frame at 50,000, and 900 * 24,000 = 21,600,000.
static OF_BOX: Values = [
    900, 23_400_000, -2_700_000, 1_800_000, 11, 337, 900, 0, 506_250, 21_600_000, 0,
];

/// Both.
pub static OF_BOTH: Values = [
    21_401,
    1_048_450_000,
    21_901_200,
    215_010_400,
    7_000_014,
    337,
    11_150,
    0,
    506_250,
    37_124_382,
    0,
];

/// The box taken away.
static MINUS_BOX: Values = [
    -900,
    -23_400_000,
    2_700_000,
    -1_800_000,
    -11,
    -337,
    -900,
    0,
    -506_250,
    -21_600_000,
    0,
];

/// One body.
#[derive(Clone, Copy)]
struct One {
    row: Row,
    values: &'static Values,
}

impl<R: Abort + AllocGlobal> Check<R> for One {
    fn check(&self, rt: &R, profile: &Profile) -> Result<(), Fail> {
        let frames = profile.frames();
        let sum = Totals::of(&self.row.body()?, frames);
        same(rt, values(&sum).as_slice(), self.values.as_slice());
        same(rt, sum.weight_aft(15), 0);
        same(rt, sum.moment_aft(15), 0);
        same(rt, sum.parts(), 1);
        same(rt, sum.size(), 1);
        Ok(())
    }
}

#[test]
fn values_of_container(rt: HostRuntime) -> Result<(), Fail> {
    on_two_frames(
        &rt,
        &One {
            row: CONTAINER,
            values: &OF_CONTAINER,
        },
    )
}

#[test]
fn values_of_box(rt: HostRuntime) -> Result<(), Fail> {
    on_two_frames(
        &rt,
        &One {
            row: BOX,
            values: &OF_BOX,
        },
    )
}

/// The two bodies joined, and one of them with the other sign.
#[derive(Clone, Copy)]
struct Both;

impl<R: Abort + AllocGlobal> Check<R> for Both {
    fn check(&self, rt: &R, profile: &Profile) -> Result<(), Fail> {
        let frames = profile.frames();
        let container = Totals::of(&CONTAINER.body()?, frames);
        let other = Totals::of(&BOX.body()?, frames);
        let both = join(&container, &other)?;
        same(rt, values(&both).as_slice(), OF_BOTH.as_slice());
        same(rt, both.parts(), 2);
        same(rt, both.size(), 2);
        let minus = other.minus();
        same(rt, values(&minus).as_slice(), MINUS_BOX.as_slice());
        same(rt, minus.size(), 1);
        let left = join(&both, &minus)?;
        same(rt, values(&left).as_slice(), OF_CONTAINER.as_slice());
        same(rt, left.parts(), 3);
        Ok(())
    }
}

#[test]
fn join_and_minus(rt: HostRuntime) -> Result<(), Fail> {
    on_two_frames(&rt, &Both)
}

#[test]
fn nothing_added(rt: HostRuntime) {
    let nothing = Totals::unit();
    same(&rt, values(&nothing).as_slice(), [0; 11].as_slice());
    same(&rt, nothing.size(), 0);
}
