//! The exact numbers of a condition, from which it follows what it meets and what it fails.
ghost use Rattle.std.specs.Prelude.{◌≡◌, ℕ, ℤ, ◌*◌, ◌^◌, ◌≤◌, unsigned_abs};
ghost use Rattle.units_core.specs.Interpolation.{at};
ghost use Rattle.moment_sums.specs.Bounded.{IsBounded};
ghost use Rattle.moment_sums.specs.Kept.{values};
ghost use Rattle.moment_sums.specs.Sum.{MomentY, Weight};
ghost use Rattle.hydrostat.specs.Floating.{draught_at, load, load_of, water};
ghost use Rattle.righting.specs.Aboard.{levers_of};
ghost use Rattle.strength.specs.Hull.{IsHullOf};
ghost use Rattle.strength.specs.Immersed.{areas_of};
ghost use Rattle.strength.specs.Running.{AreStrains};
ghost use Rattle.strength.specs.Strains.{closes, closing_of};
ghost use Rattle.strength.specs.declared.loads.Strains.{Strains as StrainsValue};
ghost use Rattle.criteria.specs.Least.{least_at};
ghost use Rattle.criteria.specs.Assessment.{assessment_of, with_areas, with_closing, with_least};
ghost use Rattle.criteria.specs.Assessment.{with_levers};
ghost use Rattle.criteria.specs.Exact.{IsExact, IsExactFor};

use crate::exact::Exact;
use crate::judging::Nearby;
use crate::levers::measures_of;
use crate::limits::least_gm;
use hydrostat::{Afloat, DraughtLine, Outside, on_waterline};
use moment_sums::Totals;
use righting::{Levers, levers_aboard};
use ship_profile::Profile;
use strength::{Hull, Strains, closes, strains_into};

/// The exact numbers, once the loads are known.
#[inline(always)]
fn exact_loaded(
    profile: &Profile,
    totals: &Totals,
    a: &Afloat,
    levers: &Levers,
    near: &mut Nearby,
) -> Result<Exact, Outside>
    requires length { a.now.lbp ≡ profile.now.ship.lbp }
    ensures { (loads : StrainsValue) → IsExactFor result loads profile.now.ship levers.now.num
        levers.now.den (λ y. with_least profile.now.ship (water a.now) (load a.now) y loads.closing
        (λ i. at loads.shear i) (λ i. at loads.bending i)
        (least_at profile.now.tables.least_gm (values totals.now Weight))) }
{
    match least_gm(profile, totals, &mut near.least_gm) {
        Some(least) => Ok(Exact {
            afloat: *a,
            curve: measures_of(levers),
            least,
        }),
        None => Err(Outside::GmLimit),
    }
}

/// The exact numbers, once the loads are worked out.
#[inline(always)]
fn exact_strained(
    profile: &Profile,
    totals: &Totals,
    a: &Afloat,
    levers: &Levers,
    strains: &Strains,
    near: &mut Nearby,
) -> Result<Exact, Outside>
    requires loaded { load a.now ≡ load_of (values totals.now) }
    requires length { a.now.lbp ≡ profile.now.ship.lbp }
    ensures { (areas : ℕ → ℤ)
        → AreStrains strains.now (values totals.now) areas profile.now.ship
        → IsExactFor result strains.now profile.now.ship levers.now.num levers.now.den
        (λ y. with_closing profile.now (values totals.now) (water a.now) y areas
        (closes (closing_of (values totals.now) areas profile.now.ship.stations)
        profile.now.ship.closing_max)) }
{
    if closes(strains.closing, profile.closing_max()) {
        exact_loaded(profile, totals, a, levers, near)
    } else {
        Err(Outside::Closing)
    }
}

/// The exact numbers, once the levers are known.
#[inline(always)]
fn exact_righted(
    profile: &Profile,
    totals: &Totals,
    a: &Afloat,
    levers: &Levers,
    hull: &Hull,
    near: &mut Nearby,
    strains: &mut Strains,
) -> Result<Exact, Outside>
    requires of { IsHullOf hull.now profile.now.ship }
    requires bounded { IsBounded (values totals.now) }
    requires kg { unsigned_abs (values totals.now Weight) ≤ 10 ^ 9 }
    requires loaded { load a.now ≡ load_of (values totals.now) }
    requires length { a.now.lbp ≡ profile.now.ship.lbp }
    ensures { IsExactFor result strains.new profile.now.ship levers.now.num levers.now.den
        (λ y. with_areas profile.now (values totals.now) (water a.now) y
        (areas_of profile.now.tables.bonjean (draught_at (water a.now)
        (load_of (values totals.now)) profile.now.ship.lbp) profile.now.ship.stations)) }
{
    let line = DraughtLine::new(a);
    if strains_into(profile, hull, totals, &line, &mut near.walk, strains) {
        exact_strained(profile, totals, a, levers, strains, near)
    } else {
        Err(Outside::Bonjean)
    }
}

/// The exact numbers of a ship afloat.
#[inline(always)]
fn exact_afloat(
    profile: &Profile,
    totals: &Totals,
    a: &Afloat,
    hull: &Hull,
    near: &mut Nearby,
    strains: &mut Strains,
) -> Result<Exact, Outside>
    requires of { IsHullOf hull.now profile.now.ship }
    requires bounded { IsBounded (values totals.now) }
    requires kg { unsigned_abs (values totals.now Weight) ≤ 10 ^ 9 }
    requires side { unsigned_abs (values totals.now MomentY) ≤ 10 ^ 15 }
    requires loaded { load a.now ≡ load_of (values totals.now) }
    requires length { a.now.lbp ≡ profile.now.ship.lbp }
    ensures { IsExact result strains.new profile.now.ship (with_levers profile.now
        (values totals.now) (water a.now)
        (levers_of profile.now.tables.levers (values totals.now))) }
{
    match levers_aboard(profile, totals, &mut near.levers) {
        Some(levers) => exact_righted(profile, totals, a, &levers, hull, near, strains),
        None => Err(Outside::Levers),
    }
}

/// The exact numbers of the ship with this aboard, or the table outside of which she lies. Her
/// loads are worked out in `strains`, whatever that held before. What depends on her profile alone
/// comes with `hull`; her tables are searched from where the last condition was.
pub fn exact_into(
    profile: &Profile,
    hull: &Hull,
    totals: &Totals,
    near: &mut Nearby,
    strains: &mut Strains,
) -> Result<Exact, Outside>
    requires of { IsHullOf hull.now profile.now.ship }
    requires bounded { IsBounded (values totals.now) }
    ensures { IsExact result strains.new profile.now.ship
        (assessment_of profile.now (values totals.now)) }
{
    match on_waterline(profile, totals, &mut near.hydro) {
        Some(a) => exact_afloat(profile, totals, &a, hull, near, strains),
        None => Err(Outside::Hydro),
    }
}
