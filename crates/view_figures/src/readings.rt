ghost use Rattle.std.specs.Prelude.{◌≡◌, ◌+◌, ◌*◌, ◌^◌, ◌≤◌, ◌*ℤ◌, pos, unsigned_abs};
ghost use Rattle.units_core.specs.Ratio.{Is, Ratio, ◌⊖◌, whole};
ghost use Rattle.fractions.specs.Rounded.{down, up};
ghost use Rattle.view_figures.specs.Readings.{reading_at_least, reading_at_most};

use fractions::up;
use units_core::{Frac, floor};

/// A value by its limit, and the margin between them, as they are printed: in whole units.
#[derive(Clone, Copy, Debug, PartialEq, Eq)]
pub struct Reading {
    pub value: i128,
    pub limit: i128,
    /// Negative exactly where the limit isn't kept.
    pub margin: i128,
}

/// One fraction less another.
fn difference(one: Frac, other: Frac) -> Frac
    requires sizes { unsigned_abs (one.num *ℤ other.den) + unsigned_abs (other.num *ℤ one.den)
        ≤ 11 * 10 ^ 37 }
    requires dens { unsigned_abs (one.den *ℤ other.den) ≤ 10 ^ 38 }
    ensures { (r : Ratio) (s : Ratio) → Is one.num one.den r → Is other.num other.den s
        → Is result.num result.den (r ⊖ s) }
{
    Frac {
        num: one.num * other.den - other.num * one.den,
        den: one.den * other.den,
    }
}

/// A value in whole units, rounded down.
fn units_down(value: Frac) -> i128
    ensures { (r : Ratio) → Is value.num value.den r → result ≡ down r 1 }
{
    floor(value)
}

/// A value in whole units, rounded up.
fn units_up(value: Frac) -> i128
    requires { unsigned_abs value.num ≤ 10 ^ 38 }
    ensures { (r : Ratio) → Is value.num value.den r → result ≡ up r 1 }
{
    up(value, 1)
}

/// The reading of a value that has to be at least its limit: both rounded down, and the margin too.
pub fn at_least(value: Frac, limit: Frac) -> Reading
    requires sizes { unsigned_abs (value.num *ℤ limit.den) + unsigned_abs (limit.num *ℤ value.den)
        ≤ 11 * 10 ^ 37 }
    requires dens { unsigned_abs (value.den *ℤ limit.den) ≤ 10 ^ 38 }
    ensures { (v : Ratio) (l : Ratio) → Is value.num value.den v → Is limit.num limit.den l
        → result ≡ reading_at_least v l }
{
    Reading {
        value: units_down(value),
        limit: units_down(limit),
        margin: units_down(difference(value, limit)),
    }
}

/// A whole number as a fraction.
pub(crate) fn whole(number: i64) -> Frac
    ensures num { result.num ≡ number }
    ensures den { result.den ≡ pos 1 }
{
    Frac {
        num: i128::from(number),
        den: 1,
    }
}

/// The reading of a value that has to be at least a whole number.
pub(crate) fn at_least_whole(value: Frac, least: i64) -> Reading
    requires num { unsigned_abs value.num ≤ 5 * 10 ^ 35 }
    requires den { unsigned_abs value.den ≤ 3 * 10 ^ 23 }
    requires least { unsigned_abs least ≤ 10 ^ 7 }
    ensures { (v : Ratio) → Is value.num value.den v → result ≡ reading_at_least v (whole least) }
{
    at_least(value, whole(least))
}

/// The reading of a value that may be at most its limit: both rounded up, and the margin down.
pub fn at_most(value: Frac, limit: Frac) -> Reading
    requires value { unsigned_abs value.num ≤ 10 ^ 38 }
    requires limit { unsigned_abs limit.num ≤ 10 ^ 38 }
    requires sizes { unsigned_abs (limit.num *ℤ value.den) + unsigned_abs (value.num *ℤ limit.den)
        ≤ 11 * 10 ^ 37 }
    requires dens { unsigned_abs (limit.den *ℤ value.den) ≤ 10 ^ 38 }
    ensures { (v : Ratio) (l : Ratio) → Is value.num value.den v → Is limit.num limit.den l
        → result ≡ reading_at_most v l }
{
    Reading {
        value: units_up(value),
        limit: units_up(limit),
        margin: units_down(difference(limit, value)),
    }
}
