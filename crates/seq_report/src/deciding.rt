//! Whether a step fails, without its line.
ghost use Rattle.std.specs.Prelude.{◌≡◌};
ghost use Rattle.moment_sums.specs.Bounded.{IsBounded};
ghost use Rattle.moment_sums.specs.Kept.{values};
ghost use Rattle.strength.specs.Hull.{IsHullOf};
ghost use Rattle.seq_report.specs.Report.{failure_of, step_line};

use criteria::{Criterion, Nearby, first_failed};
use moment_sums::Totals;
use ship_profile::Profile;
use strength::{Hull, Strains};

/// A step at which everything aboard adds up to this, where it fails, with its first criterion. The
/// loads are worked out in `strains`, whatever that held before.
pub fn failure_at(
    profile: &Profile,
    hull: &Hull,
    step: u32,
    sum: &Totals,
    near: &mut Nearby,
    strains: &mut Strains,
) -> Option<(u32, Criterion)>
    requires of { IsHullOf hull.now profile.now.ship }
    requires bounded { IsBounded (values sum.now) }
    ensures { result ≡ failure_of (step_line profile.now step (values sum.now)) }
{
    match first_failed(profile, hull, sum, near, strains) {
        Some(criterion) => Some((step, criterion)),
        None => None,
    }
}
