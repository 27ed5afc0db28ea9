//! The values of one condition by each limit, and what it doesn't meet.
use super::masses::{BLOCK, Mass, length, sum_of};
use crate::checks::same;
use box_ship::{Check, on_box_ship};
use criteria::{Criterion, Nearby, exact_into};
use ship_profile::{Frame, Profile};
use std::process::Abort;
use std::test::Fail;
use strength::{Hull, Strains};
use units_core::{Frac, floor};
use view_figures::most_used;
use worst_values::{Findings, Limit, bending_limit, criterion_at, note_line, unmet_of, value_of};

/// The box ship with her centre of gravity so high that GM = 10,333 - 10,184 = 149 mm. The lever at
/// 30 degrees is 4,900 - 10,184 * 0.5 = -192 mm, so that the area up to there is too small as well;
/// she has no list.
const HIGH: Mass = (8_200_000, [50_000, 0, 10_184, 50_000]);

/// Looks at one condition of the box ship.
#[derive(Clone, Copy)]
struct OneCondition;

impl<R: Abort + AllocGlobal> Check<R> for OneCondition {
    fn check(&self, rt: &R, profile: &Profile) -> Result<(), Fail> {
        let sum = sum_of(profile, &[HIGH])?;
        let hull = Hull::new(profile);
        let mut near = Nearby::default();
        let mut strains = Strains::default();
        let Ok(exact) = exact_into(profile, &hull, &sum, &mut near, &mut strains) else {
            return Err("a condition within the tables")?;
        };
        let gm = value_of(profile, &exact, &strains, Limit::Gm, 7).ok_or("a GM")?;
        same(
            rt,
            (gm.step, gm.place, gm.beyond, floor(gm.by)),
            (7, 0, false, 149),
        );
        let unmet = unmet_of(profile, &exact, &strains);
        same(
            rt,
            [unmet[0], unmet[1], unmet[2], unmet[7]],
            [false, true, true, false],
        );
        same(rt, criterion_at(11), Criterion::C11);
        Ok(())
    }
}

#[test]
fn values_of_one_condition(rt: HostRuntime) -> Result<(), Fail> {
    on_box_ship(&rt, &OneCondition)
}

/// Looks at two conditions of the box ship, of which each is found by itself.
#[derive(Clone, Copy)]
struct TwoLines;

impl<R: Abort + AllocGlobal> Check<R> for TwoLines {
    // The mass that lies high up is aboard at line 1, where the area up to 30 degrees is too small
    // and her GM is least; with the low one she meets all criteria.
    fn check(&self, rt: &R, profile: &Profile) -> Result<(), Fail> {
        let hull = Hull::new(profile);
        let near = &mut Nearby::default();
        let strains = &mut Strains::default();
        let mut found = Findings::new(rt.alloc());
        let mut behind = Findings::new(rt.alloc());
        let low = sum_of(profile, &[BLOCK])?;
        let first = note_line(profile, &hull, 0, &low, near, strains, &mut found)?;
        same(rt, first.is_ok(), true);
        let high = sum_of(profile, &[HIGH])?;
        let second = note_line(profile, &hull, 1, &high, near, strains, &mut behind)?;
        same(rt, second.is_ok(), true);
        found.join(&behind)?;
        same(rt, found.rows.get(1).map(|gm| gm.step), Some(1));
        let (first, last) = found.unmet.parts();
        same(rt, first.first().map(|stretch| stretch.lines), Some(1));
        same(rt, [last.unmet[1], last.unmet[2]], [true, true]);
        Ok(())
    }
}

#[test]
fn lines_found_apart(rt: HostRuntime) -> Result<(), Fail> {
    on_box_ship(&rt, &TwoLines)
}

/// How much of its limits the box ship uses at most with this aboard, in millionths.
fn most_with(profile: &Profile, mass: Mass) -> Result<Option<i128>, Fail> {
    let sum = sum_of(profile, &[mass])?;
    let hull = Hull::new(profile);
    let mut strains = Strains::default();
    let near = &mut Nearby::default();
    let Ok(exact) = exact_into(profile, &hull, &sum, near, &mut strains) else {
        return Err("a condition within the tables")?;
    };
    let Some(Frac { num, den }) = most_used(profile, &exact, &strains) else {
        return Ok(None);
    };
    let num = num.checked_mul(1_000_000).ok_or("a smaller share")?;
    Ok(Some(floor(Frac { num, den })))
}

/// Looks at how much is used at most.
#[derive(Clone, Copy)]
struct MostUsed;

impl<R: Abort + AllocGlobal> Check<R> for MostUsed {
    // Without cargo it is the draught that is nearest to its limit: 4,000 of 6,100 mm. High up, the
    // area up to 30 degrees isn't above 0.
    fn check(&self, rt: &R, profile: &Profile) -> Result<(), Fail> {
        same(rt, most_with(profile, BLOCK)?, Some(655_737));
        same(rt, most_with(profile, HIGH)?, None);
        Ok(())
    }
}

#[test]
fn most_that_is_used(rt: HostRuntime) -> Result<(), Fail> {
    on_box_ship(&rt, &MostUsed)
}

#[test]
fn limit_of_a_bending_moment(rt: HostRuntime) -> Result<(), Fail> {
    let frame = Frame {
        x: length(1)?,
        shear_max: 2,
        hog_max: 3,
        sag_max: 5,
    };
    same(
        &rt,
        [bending_limit(&frame, 0), bending_limit(&frame, -1)],
        [3, 5],
    );
    Ok(())
}
