ghost use Rattle.std.specs.Prelude.{◌≡◌, option_map};
ghost use Rattle.units_core.specs.Ratio.{◌over◌};
ghost use Rattle.units_core.specs.Interpolation.{Encloses};
ghost use Rattle.moment_sums.specs.Kept.{values};
ghost use Rattle.moment_sums.specs.Sum.{Weight};
ghost use Rattle.ship_tables.specs.Record.{IsLeastGmTable};
ghost use Rattle.ship_tables.specs.Curves.{curve_at};
ghost use Rattle.criteria.specs.Least.{AreLeast, IsLeast, least_at};
ghost use Rattle.std.specs.Prelude.{Some};

use moment_sums::Totals;
use ship_profile::Profile;
use ship_tables::{Curves, curve_gap, curve_reading};
use units_core::{Frac, enclosing_near};

/// The least metacentric height at a displacement in the interval `i`.
fn least_in(curves: &Curves, kg: i128, i: usize) -> Frac
    requires table { IsLeastGmTable curves.now }
    requires inside { Encloses curves.now.arguments i kg }
    ensures value { (result.num over result.den) ≡ curve_at curves.now kg 0 i }
    ensures size { IsLeast (Some result) }
{
    Frac {
        num: curve_reading(curves, 0, i, kg),
        den: curve_gap(curves, i),
    }
}

/// The least metacentric height at a displacement; `None` where that lies outside of the table.
fn least_of(curves: &Curves, kg: i128, near: &mut usize) -> Option<Option<Frac>>
    requires table { IsLeastGmTable curves.now }
    ensures value { option_map (λ o. option_map (λ f. f.num over f.den) o) result
        ≡ least_at (Some curves.now) kg }
    ensures size { AreLeast result }
{
    let i = enclosing_near(curves.arguments(), kg, near)?;
    Some(Some(least_in(curves, kg, i)))
}

/// The least metacentric height that the ship may have with this aboard, where she has such limits;
/// `None` where the displacement lies outside of their table.
pub fn least_gm(profile: &Profile, totals: &Totals, near: &mut usize) -> Option<Option<Frac>>
    ensures value { option_map (λ o. option_map (λ f. f.num over f.den) o) result
        ≡ least_at profile.now.tables.least_gm (values totals.now Weight) }
    ensures size { AreLeast result }
{
    match profile.least_gm() {
        Some(curves) => least_of(curves, totals.kg(), near),
        None => Some(None),
    }
}
