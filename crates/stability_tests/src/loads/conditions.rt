//! The loads of the box ship, empty and with a container of 20,500 kg. One millimetre of draught is
//! 200 cm2 of each section, and 512.5 kg of an interval of 25 m.
use super::cargo::{Container, floating, totals_with};
use crate::checks::same;
use box_ship::{Check, on_box_ship};
use hydrostat::DraughtLine;
use ship_profile::Profile;
use std::process::Abort;
use std::test::Fail;
use strength::{FrameLoad, Hull, Walk, loads_of, strains_along};

/// What is aboard, and what comes of it at her five stations, which are her frames.
#[derive(Clone, Copy)]
struct Condition {
    container: Container,
    shear: [i64; 5],
    bending: [i64; 5],
    closing: i64,
}

/// She floats at 4,000 mm everywhere; each interval carries what it weighs.
static EMPTY: Condition = Condition {
    container: Container { kg: 0, x: 50_000 },
    shear: [0; 5],
    bending: [0; 5],
    closing: 0,
};

/// She floats at 4,010 mm everywhere, 10 * 512.5 = 5,125 kg more in each interval, centred 12,500
/// mm aft of its fore end: 5,125 * 12,500 = 64,062,500. Aft of the frame at 50,000 are half of the
/// container, 10,250 kg, and its moment 10,250 * 3,029 / 2 = 15,523,625, less 10,250 * 25,000 =
/// 256,250,000 of buoyancy; aft of that at 75,000 are 20,500 * 25,000 = 512,500,000, less 15,375 *
/// 37,500 = 576,562,500; aft of that at 100,000 20,500 * 50,000, less the same.
static AMIDSHIPS: Condition = Condition {
    container: Container {
        kg: 20_500,
        x: 50_000,
    },
    shear: [0, -5_125, 0, 5_125, 0],
    bending: [0, -64_062_500, -240_726_375, -64_062_500, 0],
    closing: 0,
};

/// The trim is 20,500 * 25,000 / 17,000,000 = 30.1 mm by the stern, so the draughts at the stations
/// are 4,025, 4,017, 4,010, 4,002 and 3,994 mm, rounded down, and the buoyancies of the intervals
/// 2,060,762.5, 2,056,918.75, 2,053,075 and 2,048,975 kg, 8,219,731.25 in all. The weights aft of
/// the frames are 0, 2,050,000 + 10,250, 4,120,500, 6,170,500 and 8,220,500 kg; their moments about
/// the frames are 0, 2,050,000 * 12,500 + 15,523,625 = 25,640,523,625, 103,012,500,000,
/// 231,650,000,000 and 411,537,500,000 kg mm, and those of the buoyancy, rounded down, 0,
/// 25,768,072,916, 103,006,093,750, 231,620,104,166 and 411,509,739,583.
static AFT: Condition = Condition {
    container: Container {
        kg: 20_500,
        x: 25_000,
    },
    shear: [0, -512, 2_819, -256, 769],
    bending: [0, -127_549_291, 6_406_250, 29_895_834, 27_760_417],
    closing: -769,
};

impl Condition {
    /// The loads frame by frame.
    fn frames(&self) -> [FrameLoad; 5] {
        let mut frames = [FrameLoad::default(); 5];
        for i in 0..5usize {
            frames[i] = FrameLoad {
                shear: i128::from(self.shear[i]),
                bending: i128::from(self.bending[i]),
            };
        }
        frames
    }
}

impl<R: Abort + AllocGlobal> Check<R> for Condition {
    fn check(&self, rt: &R, profile: &Profile) -> Result<(), Fail> {
        let sum = totals_with(profile, self.container)?;
        let afloat = floating(profile, &sum)?;
        let hull = Hull::new(profile);
        let line = DraughtLine::new(&afloat.afloat);
        let mut walk = Walk::default();
        let strains = strains_along(profile, &hull, &sum, &line, &mut walk).ok_or("areas")?;
        same(rt, &strains.shear[..5], self.shear.as_slice());
        same(rt, &strains.bending[..5], self.bending.as_slice());
        same(rt, strains.closing, self.closing);
        let loads = loads_of(profile, &sum, &afloat).ok().ok_or("loads")?;
        same(rt, loads.frames.as_slice(), self.frames().as_slice());
        same(rt, loads.closing, i128::from(self.closing));
        Ok(())
    }
}

#[test]
fn loads_of_empty_ship(rt: HostRuntime) -> Result<(), Fail> {
    on_box_ship(&rt, &EMPTY)
}

#[test]
fn loads_of_container_amidships(rt: HostRuntime) -> Result<(), Fail> {
    on_box_ship(&rt, &AMIDSHIPS)
}

#[test]
fn loads_of_container_aft(rt: HostRuntime) -> Result<(), Fail> {
    on_box_ship(&rt, &AFT)
}

/// The hull of the box ship.
#[derive(Clone, Copy)]
struct OfHull;

impl<R: Abort + AllocGlobal> Check<R> for OfHull {
    fn check(&self, rt: &R, profile: &Profile) -> Result<(), Fail> {
        let hull = Hull::new(profile);
        for frame in 0..5usize {
            same(rt, hull.intervals_aft(frame), frame);
        }
        Ok(())
    }
}

#[test]
fn hull_of_profile(rt: HostRuntime) -> Result<(), Fail> {
    on_box_ship(&rt, &OfHull)
}
