//! What steps change of a sum.
use super::bodies::{OF_BOTH, OF_CONTAINER, Values, join, values};
use super::ships::on_two_frames;
use super::tables::{BOX, CONTAINER};
use crate::checks::same;
use box_ship::Check;
use moment_sums::Totals;
use prefix_scan::Monoid;
use ship_profile::{Frames, Profile};
use std::process::Abort;
use std::test::Fail;
use units_core::Step;

/// The container taken out again. The share aft is the one that was put in, -10,250: half of
/// -20,501 rounded down would be -10,251. So is its moment, which would be -15,524,383.
static TAKEN_OUT: Values = [
    -20_501,
    -1_025_050_000,
    -24_601_200,
    -213_210_400,
    -7_000_003,
    0,
    -10_250,
    0,
    0,
    -15_524_382,
    0,
];

/// The box put in for the container: the values of the box less those of the container.
static EXCHANGED: Values = [
    -19_601,
    -1_001_650_000,
    -27_301_200,
    -211_410_400,
    -6_999_992,
    337,
    -9_350,
    0,
    506_250,
    6_075_618,
    0,
];

/// A load, the discharge of it, an exchange, and a step that does nothing.
#[derive(Clone, Copy)]
struct Steps;

impl<R: Abort + AllocGlobal> Check<R> for Steps {
    fn check(&self, rt: &R, profile: &Profile) -> Result<(), Fail> {
        let frames = profile.frames();
        let container = Some(CONTAINER.body()?);
        let put = Some(BOX.body()?);
        let load = Totals::of_step(
            &Step {
                out: None,
                put: container,
            },
            frames,
        );
        same(rt, values(&load).as_slice(), OF_CONTAINER.as_slice());
        let discharge = Totals::of_step(
            &Step {
                out: container,
                put: None,
            },
            frames,
        );
        same(rt, values(&discharge).as_slice(), TAKEN_OUT.as_slice());
        same(rt, discharge.size(), 1);
        let nothing = join(&load, &discharge)?;
        same(rt, values(&nothing).as_slice(), [0; 11].as_slice());
        same(rt, nothing.size(), 2);
        let step = Step {
            out: container,
            put,
        };
        let exchange = Totals::of_step(&step, frames);
        same(rt, values(&exchange).as_slice(), EXCHANGED.as_slice());
        same(rt, exchange.size(), 2);
        // In the place of another sum, of which nothing is left.
        let mut other = discharge;
        other.set_step(&step, frames);
        same(rt, values(&other).as_slice(), EXCHANGED.as_slice());
        same(rt, other.size(), 2);
        Ok(())
    }
}

#[test]
fn changes_of_steps(rt: HostRuntime) -> Result<(), Fail> {
    on_two_frames(&rt, &Steps)
}

/// A step that does nothing.
#[derive(Clone, Copy)]
struct Idle;

impl<R: Abort + AllocGlobal> Check<R> for Idle {
    fn check(&self, rt: &R, profile: &Profile) -> Result<(), Fail> {
        let frames = profile.frames();
        let idle = Totals::of_step(
            &Step {
                out: None,
                put: None,
            },
            frames,
        );
        same(rt, values(&idle).as_slice(), [0; 11].as_slice());
        same(rt, idle.parts(), 0);
        Ok(())
    }
}

#[test]
fn idle_step(rt: HostRuntime) -> Result<(), Fail> {
    on_two_frames(&rt, &Idle)
}

/// Two containers: 2 * 20,501, 2 * 1,025,050,000, 2 * 24,601,200, 2 * 213,210,400 and 2 *
/// 7,000,003; aft of the frame at 50,000 twice the share that is rounded down, 2 * 10,250 with 2 *
/// 15,524,382.
static TWO_CONTAINERS: Values = [
    41_002,
    2_050_100_000,
    49_202_400,
    426_420_800,
    14_000_006,
    0,
    20_500,
    0,
    0,
    31_048_764,
    0,
];

/// A sum of few bodies after a step.
fn after_step(sum: &Totals, step: &Step, frames: &Frames) -> Result<Totals, Fail> {
    if sum.size() > 1_000 {
        return Err("too many bodies")?;
    }
    let mut next = *sum;
    next.add_step(step, frames);
    Ok(next)
}

/// The box aboard, then a load of the container, then another container in the box's place.
#[derive(Clone, Copy)]
struct Running;

impl<R: Abort + AllocGlobal> Check<R> for Running {
    fn check(&self, rt: &R, profile: &Profile) -> Result<(), Fail> {
        let frames = profile.frames();
        let container = Some(CONTAINER.body()?);
        let first = BOX.body()?;
        let mut sum = Totals::unit();
        sum.add(&first, frames);
        let load = Step {
            out: None,
            put: container,
        };
        let loaded = after_step(&sum, &load, frames)?;
        same(rt, values(&loaded).as_slice(), OF_BOTH.as_slice());
        same(rt, loaded.size(), 2);
        let exchange = Step {
            out: Some(first),
            put: container,
        };
        let exchanged = after_step(&loaded, &exchange, frames)?;
        same(rt, values(&exchanged).as_slice(), TWO_CONTAINERS.as_slice());
        same(rt, exchanged.size(), 4);
        Ok(())
    }
}

#[test]
fn running_sum(rt: HostRuntime) -> Result<(), Fail> {
    on_two_frames(&rt, &Running)
}

/// The container put in where there is the box.
#[derive(Clone, Copy)]
struct Added;

impl<R: Abort + AllocGlobal> Check<R> for Added {
    fn check(&self, rt: &R, profile: &Profile) -> Result<(), Fail> {
        let frames = profile.frames();
        let mut sum = Totals::of(&BOX.body()?, frames);
        sum.add(&CONTAINER.body()?, frames);
        same(rt, values(&sum).as_slice(), OF_BOTH.as_slice());
        same(rt, sum.size(), 2);
        Ok(())
    }
}

#[test]
fn one_body_more(rt: HostRuntime) -> Result<(), Fail> {
    on_two_frames(&rt, &Added)
}
