ghost use Rattle.std.specs.Prelude.{◌*◌, ◌^◌, ◌≤◌};
ghost use Rattle.moment_sums.specs.Bounded.{IsBounded};
ghost use Rattle.moment_sums.specs.Kept.{values};
ghost use Rattle.moment_sums.specs.Sum.{Weight};
ghost use Rattle.hydrostat.specs.Floating.{load_of};
ghost use Rattle.units_core.specs.Interpolation.{Encloses};
ghost use Rattle.ship_tables.specs.Record.{IsLeverTable};
ghost use Rattle.righting.specs.Aboard.{AreLeversIfAny, AreLeversOf, IsCrossing, lever_in};
ghost use Rattle.righting.specs.Aboard.{levers_of};
ghost use Rattle.righting.specs.Levers.{AreOrdinates};

use crate::heeled::levers;
use crate::ordinates::{Crossing, Levers};
use hydrostat::{Outside, upright};
use moment_sums::Totals;
use ship_profile::Profile;
use ship_tables::{Curves, curve_gap, curve_reading};
use units_core::enclosing_near;

/// The levers of the cross curves at a displacement in the interval `i`.
fn crossing_at(curves: &Curves, kg: i128, i: usize) -> Crossing
    requires table { IsLeverTable curves.now }
    requires inside { Encloses curves.now.arguments i kg }
    ensures { IsCrossing result curves.now kg i }
{
    let mut lever = [0; 13];
    for k in 0..13usize {
        lever[k] = curve_reading(curves, k, i, kg);
    }
    Crossing {
        lever,
        gap: curve_gap(curves, i),
        kg,
    }
}

/// The righting levers of what is aboard, whose displacement lies in the interval `i` of the cross
/// curves.
fn levers_at(curves: &Curves, totals: &Totals, i: usize) -> Levers
    requires table { IsLeverTable curves.now }
    requires bounded { IsBounded (values totals.now) }
    requires inside { Encloses curves.now.arguments i (values totals.now Weight) }
    ensures { AreOrdinates result.num result.den (lever_in curves.now (values totals.now) i) }
{
    let crossing = crossing_at(curves, totals.kg(), i);
    levers(&crossing, upright(totals), totals.y())
}

/// The righting levers of what is aboard, as [`levers_of`] gives them; `None` where the
/// displacement lies outside of the table of cross curves. The displacement is looked for first in
/// the interval `near` of the table, which is then the one where it was found.
pub fn levers_aboard(profile: &Profile, totals: &Totals, near: &mut usize) -> Option<Levers>
    requires bounded { IsBounded (values totals.now) }
    ensures { AreLeversIfAny result (levers_of profile.now.tables.levers (values totals.now)) }
{
    let curves = profile.levers();
    let i = enclosing_near(curves.arguments(), totals.kg(), near)?;
    Some(levers_at(curves, totals, i))
}

/// The righting levers of what is aboard, in mm, at 0, 5, .., 60 degrees of heel: KN of the ship's
/// cross curves at the displacement, less what the centre of gravity's height above the keel, with
/// the free surfaces, and its distance from the centre line take away. [`Outside::Levers`] where
/// the displacement lies outside of the table of cross curves. (2008 IS Code, part A, 2.2.)
pub fn levers_of(profile: &Profile, totals: &Totals) -> Result<Levers, Outside>
    requires bounded { IsBounded (values totals.now) }
    ensures { AreLeversOf result (levers_of profile.now.tables.levers (values totals.now)) }
{
    match levers_aboard(profile, totals, &mut 0) {
        Some(levers) => Ok(levers),
        None => Err(Outside::Levers),
    }
}
