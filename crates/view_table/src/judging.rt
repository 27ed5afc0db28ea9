//! How a condition is judged.
ghost use Rattle.std.specs.Prelude.{◌≡◌, ℕ};
ghost use Rattle.moment_sums.specs.Bounded.{IsBounded};
ghost use Rattle.moment_sums.specs.Kept.{values};
ghost use Rattle.strength.specs.Hull.{IsHullOf};
ghost use Rattle.seq_report.specs.Report.{failure_of, step_line};
ghost use Rattle.view_table.specs.Tables.{statement_by};

use crate::judged::Judged;
use criteria::{Criterion, Nearby, RoundedFigures, exact_into, judge_into};
use moment_sums::Totals;
use port_call::Case;
use strength::{Hull, Strains};
use units_core::floor;
use worst_values::{NOTHING_UNMET, Unmet, unmet_of};

/// What a condition doesn't meet, and her least metacentric height, both from its exact numbers;
/// nothing outside of the tables.
fn exactly(case: Case<'_>, hull: &Hull, sum: &Totals, near: &mut Nearby) -> (Unmet, Option<i128>)
    requires of { IsHullOf hull.now case.profile.now.ship }
    requires bounded { IsBounded (values sum.now) }
{
    let mut strains = Strains::default();
    let Ok(exact) = exact_into(case.profile, hull, sum, near, &mut strains) else {
        return (NOTHING_UNMET, None);
    };
    let unmet = unmet_of(case.profile, &exact, &strains);
    match exact.least {
        Some(least) => (unmet, Some(floor(least))),
        None => (unmet, None),
    }
}

impl Judged {
    /// Nothing is told yet.
    pub fn new() -> Judged {
        Judged {
            kg: 0,
            frames: 1,
            first: Ok(None),
            figures: RoundedFigures::default(),
            least_gm: None,
            unmet: NOTHING_UNMET,
        }
    }

    /// Makes it what is told of a condition with this aboard. All criteria are looked at only where
    /// one isn't met, and the exact numbers only where something else is told of them.
    pub fn judge(&mut self, case: Case<'_>, hull: &Hull, sum: &Totals, near: &mut Nearby)
        requires of { IsHullOf hull.now case.profile.now.ship }
        requires bounded { IsBounded (values sum.now) }
        ensures { (k : ℕ) → statement_by k self.new
            ≡ step_line case.entry.profile.now k (values sum.now) }
    {
        self.kg = sum.kg();
        self.frames = case.profile.frames().as_slice().len();
        self.first = judge_into(case.profile, hull, sum, near, &mut self.figures);
        self.least_gm = None;
        if self.first != Ok(None) || case.profile.least_gm().is_some() {
            let (unmet, least_gm) = exactly(case, hull, sum, near);
            self.unmet = unmet;
            self.least_gm = least_gm;
        }
    }

    /// The condition of a step, where it fails, with its first criterion.
    pub fn failure(&self, step: u32) -> Option<(u32, Criterion)>
        ensures { result ≡ failure_of (statement_by step self.now) }
    {
        match self.first {
            Err(_) => Some((step, Criterion::C0)),
            Ok(Some(criterion)) => Some((step, criterion)),
            Ok(None) => None,
        }
    }
}
