//! What is told of one condition.
ghost use Rattle.std.specs.Prelude.{◌≡◌, ◌+◌, ◌<◌, ◌≤◌, length, IfSome};
ghost use Rattle.moment_sums.specs.Bounded.{IsBounded};
ghost use Rattle.moment_sums.specs.Kept.{values};
ghost use Rattle.strength.specs.Hull.{IsHullOf};
ghost use Rattle.port_call.specs.Views.{case_in_view};
ghost use Rattle.seq_report.specs.Sums.{IsSumAt};
ghost use Rattle.seq_report.specs.Cases.{IsChunk};
ghost use Rattle.criteria.specs.Least.{IsLeast};

use crate::afloat::{Floating, Missing, floating_in_print, missing_to_limits};
use crate::frames::{FrameRows, frame_rows};
use crate::outside::{Missed, why_missed};
use crate::rows::{Row, row_of};
use criteria::{Exact, Nearby, exact_into};
use moment_sums::Totals;
use port_call::Case;
use righting::{Levers, levers_aboard};
use seq_report::{Chunk, Lines, walk_on};
use ship_profile::Profile;
use strength::{Hull, Strains};
use units_core::{Frac, floor};
use worst_values::{Unmet, limit_at, unmet_of};

/// How many rows the table of limits has.
const ROWS: usize = 14;

/// What is told of a condition within the ship's tables.
#[derive(Clone, Copy)]
pub struct Inside {
    /// The rows of the table of limits, in its order; none where the ship hasn't such a limit.
    pub rows: [Option<Row>; ROWS],
    /// What the condition doesn't meet.
    pub unmet: Unmet,
    pub floating: Floating,
    /// The righting levers at 0, 5, .., 60 degrees in mm, rounded down.
    pub levers: [i128; 13],
    pub frames: FrameRows,
    /// What is missing to her limits.
    pub missing: Missing,
}

/// A condition: that on arrival, or behind a step.
#[derive(Clone, Copy)]
pub struct Condition {
    /// The number of the step, 0 for the condition on arrival.
    pub step: u32,
    /// The displacement in kg.
    pub kg: i128,
    /// What is told of it, or why nothing is.
    pub told: Result<Inside, Missed>,
}

/// The rows of the table of limits.
fn rows_of(
    profile: &Profile,
    exact: &Exact,
    levers: &Levers,
    strains: &Strains,
) -> [Option<Row>; ROWS]
    requires length { exact.now.afloat.lbp ≡ profile.now.ship.lbp }
    requires least { IsLeast exact.now.least }
{
    let mut rows = [None; ROWS];
    for row in 0..ROWS {
        rows[row] = row_of(profile, exact, levers, strains, limit_at(row));
    }
    rows
}

/// The levers in mm, rounded down.
fn levers_in_print(levers: &Levers) -> [i128; 13] {
    let mut lengths = [0; 13];
    for at in 0..13usize {
        lengths[at] = floor(Frac {
            num: levers.num[at],
            den: levers.den,
        });
    }
    lengths
}

/// What is told of a condition within the tables.
fn told_inside(
    profile: &Profile,
    totals: &Totals,
    exact: &Exact,
    levers: &Levers,
    strains: &Strains,
) -> Inside
    requires length { exact.now.afloat.lbp ≡ profile.now.ship.lbp }
    requires least { IsLeast exact.now.least }
{
    Inside {
        rows: rows_of(profile, exact, levers, strains),
        unmet: unmet_of(profile, exact, strains),
        floating: floating_in_print(&exact.afloat, totals),
        levers: levers_in_print(levers),
        frames: frame_rows(profile, strains),
        missing: missing_to_limits(profile, &exact.afloat, exact.least),
    }
}

/// The condition of a step with this aboard.
fn condition_of(profile: &Profile, hull: &Hull, step: u32, totals: &Totals) -> Option<Condition>
    requires of { IsHullOf hull.now profile.now.ship }
    requires bounded { IsBounded (values totals.now) }
{
    let mut strains = Strains::default();
    let told = match exact_into(profile, hull, totals, &mut Nearby::default(), &mut strains) {
        Ok(exact) => {
            // There where the exact numbers are.
            let levers = levers_aboard(profile, totals, &mut 0)?;
            Ok(told_inside(profile, totals, &exact, &levers, &strains))
        }
        Err(outside) => Err(why_missed(profile, totals, outside, i128::from(strains.closing))),
    };
    Some(Condition {
        step,
        kg: totals.kg(),
        told,
    })
}

/// Everything that is aboard at line `k` of a chunk.
fn sum_at(case: Case<'_>, chunk: &Chunk, k: u32) -> Totals
    requires chunk { IsChunk (case_in_view case) chunk.now }
    requires inside { (chunk.now.start ≤ k) × (k < chunk.now.end) }
    ensures { IsSumAt (case_in_view case.entry) k result }
{
    let mut sum = chunk.first;
    for line in chunk.start..k {
        walk_on(case, line, &mut sum);
    }
    sum
}

/// The condition of line `k` of a case; `None` where there is no such line.
pub fn condition_at(lines: &Lines<'_>, k: u32) -> Option<Condition> {
    for number in 0..lines.chunks() {
        let chunk = lines.chunk(number);
        if chunk.start <= k && k < chunk.end {
            let sum = sum_at(lines.case, &chunk, k);
            return condition_of(lines.case.profile, &lines.hull, k, &sum);
        }
    }
    None
}
