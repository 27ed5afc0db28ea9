//! Whether a condition fails, without the figures that a report prints of it.
ghost use Rattle.std.specs.Prelude.{◌≡◌};
ghost use Rattle.moment_sums.specs.Bounded.{IsBounded};
ghost use Rattle.moment_sums.specs.Kept.{values};
ghost use Rattle.strength.specs.Hull.{IsHullOf};
ghost use Rattle.criteria.specs.Assessment.{assessment_of};
ghost use Rattle.criteria.specs.Failing.{failed_in};

use crate::criterion::Criterion;
use crate::exactly::exact_into;
use crate::holding::first_not_met;
use crate::judging::Nearby;
use moment_sums::Totals;
use ship_profile::Profile;
use strength::{Hull, Strains};

/// The first criterion that the ship fails with this aboard, C0 outside of her tables; `None` where
/// she passes. It is the one that [`judge_into`](crate::judge_into) names, without the figures that
/// are printed, which take time of their own. The loads are worked out in `strains`, whatever that
/// held before.
pub fn first_failed(
    profile: &Profile,
    hull: &Hull,
    totals: &Totals,
    near: &mut Nearby,
    strains: &mut Strains,
) -> Option<Criterion>
    requires of { IsHullOf hull.now profile.now.ship }
    requires bounded { IsBounded (values totals.now) }
    ensures { result ≡ failed_in (assessment_of profile.now (values totals.now)) }
{
    match exact_into(profile, hull, totals, near, strains) {
        Ok(e) => first_not_met(profile, &e.afloat, &e.curve, strains, e.least),
        Err(_) => Some(Criterion::C0),
    }
}
