ghost use Rattle.std.specs.Prelude.{◌≡◌, ℕ, ℤ, ◌*◌, ◌^◌, ◌≤◌, unsigned_abs};
ghost use Rattle.units_core.specs.Interpolation.{at};
ghost use Rattle.moment_sums.specs.Bounded.{IsBounded};
ghost use Rattle.moment_sums.specs.Kept.{values};
ghost use Rattle.moment_sums.specs.Sum.{MomentY, Weight};
ghost use Rattle.hydrostat.specs.Floating.{draught_at, load, load_of, water};
ghost use Rattle.righting.specs.Aboard.{levers_of};
ghost use Rattle.strength.specs.Hull.{IsHullOf};
ghost use Rattle.strength.specs.Immersed.{areas_of};
ghost use Rattle.strength.specs.Running.{AreStrains};
ghost use Rattle.strength.specs.Strains.{closes, closing_of};
ghost use Rattle.criteria.specs.Least.{least_at};
ghost use Rattle.criteria.specs.Assessment.{with_areas, with_closing, with_least, with_levers};
ghost use Rattle.criteria.specs.Judgement.{IsWhatever, judgement_of, rounded, judgement_by};

use crate::criterion::Criterion;
use crate::holding::first_not_met;
use crate::levers::measures_of;
use crate::limits::least_gm;
use crate::rounded::RoundedFigures;
use hydrostat::{Afloat, DraughtLine, Outside, on_waterline};
use moment_sums::Totals;
use righting::{Levers, levers_aboard};
use ship_profile::Profile;
use strength::{Hull, Walk, closes, strains_into};

/// In which interval of each table a condition was found. The next condition, which differs by one
/// step, is looked for there first; the answer doesn't depend on it.
#[derive(Clone, Copy, Default)]
pub struct Nearby {
    pub(crate) hydro: usize,
    pub(crate) levers: usize,
    pub(crate) walk: Walk,
    pub(crate) least_gm: usize,
}

/// How the ship is judged, once the loads are known and in the figures.
#[inline(always)]
fn judge_loaded(
    profile: &Profile,
    totals: &Totals,
    a: &Afloat,
    levers: &Levers,
    line: &DraughtLine,
    near: &mut Nearby,
    figures: &mut RoundedFigures,
) -> Result<Option<Criterion>, Outside>
    requires line { line.now.of ≡ a.now }
    requires length { a.now.lbp ≡ profile.now.ship.lbp }
    ensures { IsWhatever (judgement_by result figures.new) levers.now.num levers.now.den
        (λ y. rounded profile.now.ship.lbp (with_least profile.now.ship (water a.now) (load a.now) y
        figures.old.strains.closing (λ i. at figures.old.strains.shear i)
        (λ i. at figures.old.strains.bending i)
        (least_at profile.now.tables.least_gm (values totals.now Weight)))) }
{
    match least_gm(profile, totals, &mut near.least_gm) {
        Some(least) => {
            let curve = measures_of(levers);
            figures.set(a, profile.lbp(), line, &curve);
            Ok(first_not_met(profile, a, &curve, &figures.strains, least))
        }
        None => Err(Outside::GmLimit),
    }
}

/// How the ship is judged, once the loads are worked out.
#[inline(always)]
fn judge_strained(
    profile: &Profile,
    totals: &Totals,
    a: &Afloat,
    levers: &Levers,
    line: &DraughtLine,
    near: &mut Nearby,
    figures: &mut RoundedFigures,
) -> Result<Option<Criterion>, Outside>
    requires line { line.now.of ≡ a.now }
    requires loaded { load a.now ≡ load_of (values totals.now) }
    requires length { a.now.lbp ≡ profile.now.ship.lbp }
    ensures { (areas : ℕ → ℤ)
        → AreStrains figures.old.strains (values totals.now) areas profile.now.ship
        → IsWhatever (judgement_by result figures.new) levers.now.num levers.now.den
        (λ y. rounded profile.now.ship.lbp (with_closing profile.now (values totals.now)
        (water a.now) y areas (closes (closing_of (values totals.now) areas
        profile.now.ship.stations) profile.now.ship.closing_max))) }
{
    if closes(figures.strains.closing, profile.closing_max()) {
        judge_loaded(profile, totals, a, levers, line, near, figures)
    } else {
        Err(Outside::Closing)
    }
}

/// How the ship is judged, once the levers are known.
#[inline(always)]
fn judge_righted(
    profile: &Profile,
    totals: &Totals,
    a: &Afloat,
    levers: &Levers,
    hull: &Hull,
    near: &mut Nearby,
    figures: &mut RoundedFigures,
) -> Result<Option<Criterion>, Outside>
    requires of { IsHullOf hull.now profile.now.ship }
    requires bounded { IsBounded (values totals.now) }
    requires kg { unsigned_abs (values totals.now Weight) ≤ 10 ^ 9 }
    requires loaded { load a.now ≡ load_of (values totals.now) }
    requires length { a.now.lbp ≡ profile.now.ship.lbp }
    ensures { IsWhatever (judgement_by result figures.new) levers.now.num levers.now.den
        (λ y. rounded profile.now.ship.lbp (with_areas profile.now (values totals.now)
        (water a.now) y (areas_of profile.now.tables.bonjean (draught_at (water a.now)
        (load_of (values totals.now)) profile.now.ship.lbp) profile.now.ship.stations))) }
{
    let line = DraughtLine::new(a);
    if strains_into(
        profile,
        hull,
        totals,
        &line,
        &mut near.walk,
        &mut figures.strains,
    ) {
        judge_strained(profile, totals, a, levers, &line, near, figures)
    } else {
        Err(Outside::Bonjean)
    }
}

/// How a ship that floats is judged.
#[inline(always)]
fn judge_afloat(
    profile: &Profile,
    totals: &Totals,
    a: &Afloat,
    hull: &Hull,
    near: &mut Nearby,
    figures: &mut RoundedFigures,
) -> Result<Option<Criterion>, Outside>
    requires of { IsHullOf hull.now profile.now.ship }
    requires bounded { IsBounded (values totals.now) }
    requires kg { unsigned_abs (values totals.now Weight) ≤ 10 ^ 9 }
    requires side { unsigned_abs (values totals.now MomentY) ≤ 10 ^ 15 }
    requires loaded { load a.now ≡ load_of (values totals.now) }
    requires length { a.now.lbp ≡ profile.now.ship.lbp }
    ensures { judgement_by result figures.new ≡ rounded profile.now.ship.lbp
        (with_levers profile.now (values totals.now) (water a.now)
        (levers_of profile.now.tables.levers (values totals.now))) }
{
    match levers_aboard(profile, totals, &mut near.levers) {
        Some(levers) => judge_righted(profile, totals, a, &levers, hull, near, figures),
        None => Err(Outside::Levers),
    }
}

/// How the ship is judged with this aboard: the first criterion that doesn't hold, if there is one,
/// with her rounded figures; or the table outside of which she lies, and the figures may then be
/// any. [`judge`](crate::judge) answers the same with the exact figures. What depends on her
/// profile alone comes with `hull`; her tables are searched from where the last condition was.
pub fn judge_into(
    profile: &Profile,
    hull: &Hull,
    totals: &Totals,
    near: &mut Nearby,
    figures: &mut RoundedFigures,
) -> Result<Option<Criterion>, Outside>
    requires of { IsHullOf hull.now profile.now.ship }
    requires bounded { IsBounded (values totals.now) }
    ensures { judgement_by result figures.new ≡ judgement_of profile.now (values totals.now) }
{
    match on_waterline(profile, totals, &mut near.hydro) {
        Some(a) => judge_afloat(profile, totals, &a, hull, near, figures),
        None => Err(Outside::Hydro),
    }
}
