//! The values of a condition by each limit.
ghost use Rattle.std.specs.Prelude.{◌≡◌, ℕ, ◌*◌, ◌^◌, ◌<◌, ◌≤◌, pos, unsigned_abs, option_map};
ghost use Rattle.units_core.specs.Ratio.{Is, Ratio, ◌over◌, ◌⊖◌, whole};
ghost use Rattle.hydrostat.specs.Floating.{gm, load, water};
ghost use Rattle.criteria.specs.Exact.{condition_by};
ghost use Rattle.criteria.specs.Least.{IsLeast};
ghost use Rattle.criteria.specs.Measures.{AreMeasures};
ghost use Rattle.worst_values.specs.Limits.{alone, by, candidates_of, list_safety, opposite};
ghost use Rattle.worst_values.specs.Limits.{size_below, spare_alone};
ghost use Rattle.worst_values.specs.Worst.{candidate_of, worst_of};

use crate::limits::Limit;
use crate::loads::{size_below, worst_bending, worst_shear};
use crate::values::Value;
use criteria::Exact;
use hydrostat::{Afloat, draught, gm_of, list_of, trim_of};
use ship_profile::Profile;
use strength::Strains;
use units_core::Frac;

/// The only value of the condition of a step.
fn alone(step: u32, value: Frac) -> Option<Value>
    ensures { (r : Ratio) → Is value.num value.den r
        → option_map candidate_of result ≡ worst_of (alone step (by r)) }
{
    Some(Value {
        step,
        place: 0,
        beyond: false,
        by: value,
    })
}

/// A whole number as a fraction.
fn whole(n: i128) -> Frac
    ensures { Is result.num result.den (whole n) }
{
    Frac { num: n, den: 1 }
}

/// The number of an angle as a fraction.
fn number_of(n: usize) -> Frac
    requires { n < 13 }
    ensures { Is result.num result.den (whole (pos n)) }
{
    whole(n as i128)
}

/// A fraction with the other sign.
fn opposite(fraction: Frac) -> Frac
    requires { unsigned_abs fraction.num ≤ 10 ^ 38 }
    ensures { (r : Ratio) → Is fraction.num fraction.den r
        → Is result.num result.den (opposite r) }
{
    Frac {
        num: -fraction.num,
        den: fraction.den,
    }
}

/// The size of a fraction with a minus before it.
fn below_zero(fraction: Frac) -> Frac
    ensures { (r : Ratio) → Is fraction.num fraction.den r
        → Is result.num result.den (size_below r) }
{
    Frac {
        num: size_below(fraction.num),
        den: fraction.den,
    }
}

/// The list.
fn list_value(a: &Afloat, step: u32) -> Option<Value>
    ensures { option_map candidate_of result
        ≡ worst_of (alone step (list_safety (water a.now) (load a.now))) }
{
    match list_of(a) {
        Some(list) => alone(step, below_zero(list)),
        None => Some(Value {
            step,
            place: 0,
            beyond: true,
            by: Frac { num: 0, den: 1 },
        }),
    }
}

/// One fraction less another.
fn difference(one: Frac, other: Frac) -> Frac
    requires one_num { unsigned_abs one.num ≤ 3 * 10 ^ 23 }
    requires one_den { unsigned_abs one.den ≤ 10 ^ 17 }
    requires other_num { unsigned_abs other.num ≤ 10 ^ 14 }
    requires other_den { unsigned_abs other.den ≤ 10 ^ 8 }
    ensures { (r : Ratio) (s : Ratio) → Is one.num one.den r → Is other.num other.den s
        → Is result.num result.den (r ⊖ s) }
{
    Frac {
        num: one.num * other.den - other.num * one.den,
        den: one.den * other.den,
    }
}

/// The metacentric height over the ship's own least one, where she has such limits.
fn spare_value(a: &Afloat, least: Option<Frac>, step: u32) -> Option<Value>
    requires { IsLeast least }
    ensures { option_map candidate_of result ≡ worst_of (spare_alone step
        (gm (water a.now) (load a.now)) (option_map (λ f. f.num over f.den) least)) }
{
    match least {
        Some(least) => alone(step, difference(gm_of(a), least)),
        None => None,
    }
}

/// The worst value of the condition of a step by a limit, in exact numbers.
pub fn value_of(
    profile: &Profile,
    exact: &Exact,
    strains: &Strains,
    limit: Limit,
    step: u32,
) -> Option<Value>
    requires length { exact.now.afloat.lbp ≡ profile.now.ship.lbp }
    requires least { IsLeast exact.now.least }
    ensures { (y : ℕ → Ratio) → AreMeasures exact.now.curve y → option_map candidate_of result
        ≡ worst_of (candidates_of profile.now.ship (condition_by exact.now y strains.now) limit
        step) }
{
    let a = &exact.afloat;
    match limit {
        Limit::Closing => alone(step, below_zero(whole(i128::from(strains.closing)))),
        Limit::Gm => alone(step, gm_of(a)),
        Limit::AreaTo30 => alone(step, exact.curve.sum_30),
        Limit::AreaTo40 => alone(step, exact.curve.sum_40),
        Limit::Area30To40 => alone(step, exact.curve.sum_30_40),
        Limit::Lever => alone(step, exact.curve.best),
        Limit::PeakAngle => alone(step, number_of(exact.curve.greatest)),
        Limit::List => list_value(a, step),
        Limit::DraughtAft => alone(step, opposite(draught(a, 0))),
        Limit::DraughtForward => alone(step, opposite(draught(a, a.lbp))),
        Limit::Trim => alone(step, below_zero(trim_of(a))),
        Limit::Shear => worst_shear(profile.frames().as_slice(), &strains.shear, step),
        Limit::Bending => worst_bending(profile.frames().as_slice(), &strains.bending, step),
        Limit::LeastGm => spare_value(a, exact.least, step),
    }
}
