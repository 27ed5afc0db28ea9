ghost use Rattle.std.specs.Prelude.{◌≡◌};
ghost use Rattle.units_core.specs.Interpolation.{at};
ghost use Rattle.moment_sums.specs.Bounded.{IsBounded};
ghost use Rattle.moment_sums.specs.Kept.{values};
ghost use Rattle.moment_sums.specs.Sum.{Weight};
ghost use Rattle.hydrostat.specs.Figures.{IsFloatingOn};
ghost use Rattle.hydrostat.specs.Floating.{draught_at, load, load_of, water};
ghost use Rattle.righting.specs.Aboard.{levers_of};
ghost use Rattle.ship_profile.specs.Ship.{ShipRecord};
ghost use Rattle.strength.specs.Immersed.{areas_of};
ghost use Rattle.criteria.specs.Assessment.{assessed, assessment_of, with_areas, with_least};
ghost use Rattle.criteria.specs.Assessment.{with_levers};
ghost use Rattle.criteria.specs.Criteria.{Condition};
ghost use Rattle.criteria.specs.Figures.{AreFigures, IsVerdict, IsVerdictFor};
ghost use Rattle.criteria.specs.Least.{least_at};

use crate::criterion::Criterion;
use crate::figures::Figures;
use crate::holding::first_not_met;
use crate::levers::measures_of;
use crate::limits::least_gm;
use hydrostat::{Floating, Outside, floating_of};
use moment_sums::Totals;
use righting::{Levers, levers_of};
use ship_profile::Profile;
use strength::{Strains, strains_afloat};

/// How a condition is judged.
#[derive(Drop)]
pub enum Verdict {
    /// It lies outside of one of the ship's tables, and has no figures.
    Outside(Outside),
    /// This is the first criterion that doesn't hold.
    Fails(Criterion, Figures),
    /// All criteria hold.
    Passes(Figures),
}

/// The verdict on a condition within the ship's tables, by the first criterion that doesn't hold.
fn verdict_of(first: Option<Criterion>, figures: Figures) -> Verdict
    ensures { (ship : ShipRecord) (c : Condition) → AreFigures figures ship c
        → IsVerdict result ship (assessed first c) }
{
    match first {
        Some(criterion) => Verdict::Fails(criterion, figures),
        None => Verdict::Passes(figures),
    }
}

/// The verdict, once the loads are known.
fn verdict_loaded(
    profile: &Profile,
    totals: &Totals,
    floating: &Floating,
    levers: &Levers,
    strains: &Strains,
) -> Verdict
    requires floating { IsFloatingOn floating.now (water floating.now.afloat)
        (load floating.now.afloat) profile.now.ship.lbp }
    ensures { IsVerdictFor result profile.now.ship levers.now.num levers.now.den
        (λ y. with_least profile.now.ship (water floating.now.afloat) (load floating.now.afloat) y
        strains.now.closing (λ i. at strains.now.shear i) (λ i. at strains.now.bending i)
        (least_at profile.now.tables.least_gm (values totals.now Weight))) }
{
    match least_gm(profile, totals, &mut 0) {
        Some(least) => {
            let curve = measures_of(levers);
            let first = first_not_met(profile, &floating.afloat, &curve, strains, least);
            let figures = Figures {
                floating: *floating,
                levers: *levers,
                loads: strains.loads(profile.frames().as_slice().len()),
            };
            verdict_of(first, figures)
        }
        None => Verdict::Outside(Outside::GmLimit),
    }
}

/// The verdict, once the levers are known.
fn verdict_righted(
    profile: &Profile,
    totals: &Totals,
    floating: &Floating,
    levers: &Levers,
) -> Verdict
    requires bounded { IsBounded (values totals.now) }
    requires floating { IsFloatingOn floating.now (water floating.now.afloat)
        (load_of (values totals.now)) profile.now.ship.lbp }
    ensures { IsVerdictFor result profile.now.ship levers.now.num levers.now.den
        (λ y. with_areas profile.now (values totals.now) (water floating.now.afloat) y
        (areas_of profile.now.tables.bonjean (draught_at (water floating.now.afloat)
        (load_of (values totals.now)) profile.now.ship.lbp) profile.now.ship.stations)) }
{
    match strains_afloat(profile, totals, &floating.afloat) {
        Ok(strains) => verdict_loaded(profile, totals, floating, levers, &strains),
        Err(outside) => Verdict::Outside(outside),
    }
}

/// The verdict on a ship that floats.
fn verdict_afloat(profile: &Profile, totals: &Totals, floating: &Floating) -> Verdict
    requires bounded { IsBounded (values totals.now) }
    requires floating { IsFloatingOn floating.now (water floating.now.afloat)
        (load_of (values totals.now)) profile.now.ship.lbp }
    ensures { IsVerdict result profile.now.ship (with_levers profile.now (values totals.now)
        (water floating.now.afloat) (levers_of profile.now.tables.levers (values totals.now))) }
{
    match levers_of(profile, totals) {
        Ok(levers) => verdict_righted(profile, totals, floating, &levers),
        Err(outside) => Verdict::Outside(outside),
    }
}

/// How the ship is judged with this aboard, with her exact figures.
pub fn judge(profile: &Profile, totals: &Totals) -> Verdict
    requires { IsBounded (values totals.now) }
    ensures { IsVerdict result profile.now.ship (assessment_of profile.now (values totals.now)) }
{
    match floating_of(profile, totals) {
        Ok(floating) => verdict_afloat(profile, totals, &floating),
        Err(outside) => Verdict::Outside(outside),
    }
}
