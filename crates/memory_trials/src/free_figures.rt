//! Calls that work out the figures of a condition, and judge it, and ask for no memory. The numbers
//! are those of the worked example of the box ship with a container to starboard
//! (`tests/program.d/worked`).
ghost use Rattle.std.specs.Prelude.{◌^◌, ◌≤◌, IfSome, unsigned_abs};
ghost use Rattle.moment_sums.specs.Bounded.{IsBounded};
ghost use Rattle.moment_sums.specs.Kept.{values};
ghost use Rattle.moment_sums.specs.Sum.{Weight};
ghost use Rattle.strength.specs.Loads.{IsFloatingWith};

use crate::free_numbers::container;
use crate::watch::{refuse, was_refused};
use criteria::{
    Criterion, Nearby, RoundedFigures, Verdict, exact_into, first_failed, is_met, judge, judge_into,
};
use hydrostat::{
    Afloat, DraughtLine, Floating, draught, floating_of, gm_of, list_of, mean_of, on_waterline,
    trim_of, upright,
};
use moment_sums::{Totals, moment_aft, weight_aft};
use port_call::Ground;
use prefix_scan::Monoid;
use righting::{
    Levers, area_holds, area_over_pairs, area_sum, area_sums, best_from_30, best_number_from_30,
    greatest, greatest_levers, greatest_number, levers_aboard, levers_of,
};
use ship_profile::{Frames, Profile};
use std::alloc::Global;
use strength::{
    Hull, Strains, Walk, closes, is_between, loads_of, strains_afloat, strains_along, strains_into,
};
use units_core::{Angle, Body, Frac, Mm, Step, floor};

/// The sum, where the bodies of a ship can add up to it.
fn check_bounds(sum: Totals) -> Option<Totals>
    ensures bounded { IfSome result (λ t. IsBounded (values t)) }
    ensures kg { IfSome result (λ t. unsigned_abs (values t Weight) ≤ 10 ^ 9) }
{
    if !sum.is_bounded() {
        return None;
    }
    if sum.kg() > 1_000_000_000 {
        return None;
    }
    Some(sum)
}

/// What is aboard on arrival, and the container.
fn sum_with(ground: &Ground, body: &Body) -> Option<Totals>
    ensures bounded { IfSome result (λ t. IsBounded (values t)) }
    ensures kg { IfSome result (λ t. unsigned_abs (values t Weight) ≤ 10 ^ 9) }
{
    let arrival = *ground.total();
    let more = Totals::of(body, ground.profile().frames());
    if arrival.size() > 1_000 || more.size() > 1_000 {
        return None;
    }
    check_bounds(arrival.join(&more))
}

/// Sums of the container: half of it lies aft of the frame amidships.
fn sums(frames: &Frames, body: &Body) -> bool {
    let mut sum = Totals::unit();
    sum.add(body, frames);
    let moments = [sum.kg(), sum.x(), sum.y(), sum.z(), sum.fsm()];
    let shares = [sum.weight_aft(2), weight_aft(body, Mm::of(50_000))];
    let arms = sum.moment_aft(2) == moment_aft(body, Mm::of(50_000));
    let wanted = [20_500, 1_025_000_000, 164_000_000, 205_000_000, 34];
    moments == wanted && shares == [10_250, 10_250] && arms && sum.parts() == 1
}

/// Sums of a step that puts it in, and of the same with the other sign.
fn changes(frames: &Frames, body: &Body) -> bool {
    let step = Step {
        out: None,
        put: Some(*body),
    };
    let mut sum = Totals::of_step(&step, frames).minus();
    if sum.size() > 1_000 {
        return false;
    }
    let taken = sum.kg() == -20_500;
    sum.add_step(&step, frames);
    let none = sum.kg() == 0 && sum.is_bounded();
    sum.set_step(&step, frames);
    taken && none && sum.kg() == 20_500
}

/// How the ship floats with the sum aboard.
fn floating(profile: &Profile, sum: &Totals) -> Option<Floating>
    requires bounded { IsBounded (values sum.now) }
    ensures { IfSome result (λ f. IsFloatingWith f profile.now (values sum.now)) }
{
    match floating_of(profile, sum) {
        Ok(floating) => Some(floating),
        Err(_) => None,
    }
}

/// The figure of a fraction, and of one that may be missing.
fn figure(fraction: Option<Frac>) -> Option<i128> {
    match fraction {
        Some(fraction) => Some(floor(fraction)),
        None => None,
    }
}

/// Her figures.
fn ratios(afloat: &Afloat) -> bool {
    let figures = [
        floor(mean_of(afloat)),
        floor(gm_of(afloat)),
        floor(trim_of(afloat)),
        floor(draught(afloat, 25_000)),
    ];
    figures == [4_010, 4_314, 0, 4_010] && figure(list_of(afloat)) == Some(46)
}

/// Whether a reading is her draught in whole millimetres, if there is one.
fn is_draught(reading: Option<i64>) -> bool {
    match reading {
        Some(mm) => mm == 4_010,
        None => true,
    }
}

/// Her draughts along a line. She is on an even keel, at just 4,010 mm.
fn draughts(floats: &Floating) -> bool {
    let line = DraughtLine::new(&floats.afloat);
    let at = Mm::of(25_000);
    let read = is_draught(line.read(at));
    let quick = is_draught(line.quick_draught(at));
    let in_parts = is_draught(line.read_in_parts(at));
    let exact = line.draught_down(at) == 4_010 && floor(floats.draught(at)) == 4_010;
    read && quick && in_parts && exact
}

/// Her waterline, searched for in the hydrostatic table.
fn waterline(profile: &Profile, sum: &Totals) -> bool
    requires bounded { IsBounded (values sum.now) }
    requires kg { unsigned_abs (values sum.now Weight) ≤ 10 ^ 9 }
{
    let mut near = 0usize;
    // 8,200,000 * 6,000 + 20,500 * 10,000 + 34
    let moment = upright(sum) == 49_405_000_034;
    moment && on_waterline(profile, sum, &mut near).is_some() && near == 1
}

/// Areas under her levers.
fn areas(levers: &Levers) -> bool {
    let (Some(none), Some(thirty)) = (Angle::new(0), Angle::new(6)) else {
        return false;
    };
    if thirty.step() <= none.step() {
        return false;
    }
    if (thirty.step() - none.step()) % 2 != 0 {
        return false;
    }
    let sums = area_sums(levers);
    let area = floor(area_sum(levers, none, thirty));
    let met = Frac {
        num: 2_363_451,
        den: 1_250,
    };
    // 3/5 of 30,861.. mm degrees
    area == floor(area_over_pairs(levers, 0, 3))
        && area == floor(sums.to_30)
        && area == 18_516
        && area_holds(met, 3_151_268)
}

/// Her greatest levers, all at 35 degrees.
fn greatest_of(levers: &Levers) -> bool {
    let peaks = greatest_levers(levers);
    let numbers = [
        greatest_number(levers),
        best_number_from_30(levers),
        greatest(levers).step(),
        peaks.greatest,
    ];
    numbers == [7; 4] && floor(best_from_30(levers)) == 1_936 && floor(peaks.best) == 1_936
}

/// Her levers, by both calls.
fn righting_levers(profile: &Profile, sum: &Totals) -> bool
    requires { IsBounded (values sum.now) }
{
    let mut near = 0usize;
    let aboard = levers_aboard(profile, sum, &mut near).is_some();
    match levers_of(profile, sum) {
        Ok(levers) => aboard && areas(&levers) && greatest_of(&levers),
        Err(_) => false,
    }
}

/// The loads on her hull.
fn strains(profile: &Profile, sum: &Totals, floats: &Floating) -> bool
    requires bounded { IsBounded (values sum.now) }
    requires kg { unsigned_abs (values sum.now Weight) ≤ 10 ^ 9 }
    requires floats { IsFloatingWith floats.now profile.now (values sum.now) }
{
    let hull = Hull::new(profile);
    let line = DraughtLine::new(&floats.afloat);
    let mut walk = Walk::default();
    let mut strains = Strains::default();
    let into = strains_into(profile, &hull, sum, &line, &mut walk, &mut strains);
    let along = strains_along(profile, &hull, sum, &line, &mut walk).is_some();
    let afloat = strains_afloat(profile, sum, &floats.afloat).is_ok();
    let loads = match loads_of(profile, sum, floats) {
        Ok(loads) => loads.frames.as_slice().len() == 5 && loads.closing == 0,
        Err(_) => false,
    };
    let first = strains.loads(5).closing == 0 && hull.intervals_aft(1) == 1;
    into && along && afloat && loads && first
}

/// Limits of a load.
fn load_limits() -> bool {
    closes(-5_000, 5_000) && is_between(-300, 300, 700)
}

/// How she is judged, with her exact figures and with rounded ones.
fn judgements(profile: &Profile, sum: &Totals) -> bool
    requires { IsBounded (values sum.now) }
{
    let hull = Hull::new(profile);
    let mut near = Nearby::default();
    let mut strains = Strains::default();
    let mut figures = RoundedFigures::default();
    let judged = judge_into(profile, &hull, sum, &mut near, &mut figures) == Ok(None);
    let failed = first_failed(profile, &hull, sum, &mut near, &mut strains);
    let passes = matches!(judge(profile, sum), Verdict::Passes(_));
    let met = match exact_into(profile, &hull, sum, &mut near, &mut strains) {
        Ok(exact) => is_met(profile, &exact, &strains, Criterion::C1),
        Err(_) => false,
    };
    judged && failed.is_none() && passes && met && Criterion::C1.code() == "C1"
}

/// Whether none of them asks for memory.
fn are_right(ground: &Ground) -> bool {
    let Some(body) = container() else {
        return false;
    };
    let Some(sum) = sum_with(ground, &body) else {
        return false;
    };
    let profile = ground.profile();
    let Some(floats) = floating(profile, &sum) else {
        return false;
    };
    let mut right = sums(profile.frames(), &body) && changes(profile.frames(), &body);
    right &= ratios(&floats.afloat) && draughts(&floats) && waterline(profile, &sum);
    right &= righting_levers(profile, &sum) && strains(profile, &sum, &floats);
    right && load_limits() && judgements(profile, &sum)
}

/// Whether none of them asks for memory.
pub fn figures_are_free(alloc: Global, ground: &Ground) -> bool {
    refuse(alloc, 0, 1);
    let right = are_right(ground);
    !was_refused(alloc) && right
}
