ghost use Rattle.std.specs.Prelude.{◌≡◌, ℕ, ◌+◌, ◌*◌, ◌^◌, ◌<◌, ◌≤◌, ◌↔◌, IsTrue, pos, ◌+ℤ◌, ◌-ℤ◌};
ghost use Rattle.std.specs.Prelude.{◌*ℤ◌, ◌≤ℤ◌, ◌<ℤ◌, unsigned_abs, FitsSigned, IfSome, true};
ghost use Rattle.std.specs.Int.{w128};
ghost use Rattle.units_core.specs.Ratio.{◌over◌, floor_of, IsFloor, IsAtLeast, IsAtMost};
ghost use Rattle.units_core.specs.Interpolation.{IsOnLine};

use crate::quotients::{confirm_guess, guess};

/// A fraction of two whole numbers, its divisor at least 1.
#[derive(Clone, Copy, Debug)]
pub struct Frac {
    pub num: i128,
    pub den: i128,
    pub ghost positive: { pos 1 ≤ℤ den },
}

/// The greatest whole number that is not above the fraction: a figure is printed so, rounded toward
/// minus infinity. It is guessed and then tested, since a division of 128 bits takes many times as
/// long.
pub fn floor(fraction: Frac) -> i128
    ensures value { result ≡ floor_of (fraction.num over fraction.den) }
    ensures greatest { IsFloor result (fraction.num over fraction.den) }
{
    match confirm_guess(fraction, guess(fraction.num, fraction.den)) {
        Some(quotient) => quotient,
        None => fraction.num.div_euclid(fraction.den),
    }
}

/// Whether the fraction is at least `limit`, decided by the cross product and not by a rounded
/// figure.
pub fn at_least(fraction: Frac, limit: i128) -> bool
    requires { FitsSigned w128 (limit *ℤ fraction.den) }
    ensures { IsTrue result ↔ IsAtLeast (fraction.num over fraction.den) limit }
{
    fraction.num >= limit * fraction.den
}

/// Whether the fraction is at most `limit`, decided by the cross product.
pub fn at_most(fraction: Frac, limit: i128) -> bool
    requires { FitsSigned w128 (limit *ℤ fraction.den) }
    ensures { IsTrue result ↔ IsAtMost (fraction.num over fraction.den) limit }
{
    fraction.num <= limit * fraction.den
}

/// The value at `x` on the straight line through `(x0, y0)` and `(x1, y1)`, two neighbouring rows
/// of a table, as a fraction over `x1 - x0`.
pub fn interp(x: i128, x0: i128, y0: i128, x1: i128, y1: i128) -> Frac
    requires rises { x0 <ℤ x1 }
    requires from { x0 ≤ℤ x }
    requires to { x ≤ℤ x1 }
    requires x0_small { unsigned_abs x0 ≤ 10 ^ 18 }
    requires x1_small { unsigned_abs x1 ≤ 10 ^ 18 }
    requires y0_small { unsigned_abs y0 ≤ 10 ^ 18 }
    requires y1_small { unsigned_abs y1 ≤ 10 ^ 18 }
    ensures line { IsOnLine (result.num over result.den) x x0 y0 x1 y1 }
    ensures num { result.num ≡ (y0 *ℤ (x1 -ℤ x)) +ℤ (y1 *ℤ (x -ℤ x0)) }
    ensures den { result.den ≡ x1 -ℤ x0 }
    ensures size { (m : ℕ) → unsigned_abs y0 ≤ m → unsigned_abs y1 ≤ m
        → unsigned_abs result.num ≤ m * unsigned_abs (x1 -ℤ x0) }
{
    Frac {
        num: y0 * (x1 - x) + y1 * (x - x0),
        den: x1 - x0,
    }
}

/// The value at `x` on the straight line through `(x0, y0)` and `(x1, y1)`, rounded down.
pub fn interp_floor(x: i128, x0: i128, y0: i128, x1: i128, y1: i128) -> i128
    requires rises { x0 <ℤ x1 }
    requires from { x0 ≤ℤ x }
    requires to { x ≤ℤ x1 }
    requires x0_small { unsigned_abs x0 ≤ 10 ^ 18 }
    requires x1_small { unsigned_abs x1 ≤ 10 ^ 18 }
    requires y0_small { unsigned_abs y0 ≤ 10 ^ 18 }
    requires y1_small { unsigned_abs y1 ≤ 10 ^ 18 }
    ensures value { result ≡ floor_of (((y0 *ℤ (x1 -ℤ x)) +ℤ (y1 *ℤ (x -ℤ x0))) over (x1 -ℤ x0)) }
    ensures greatest { IsFloor result (((y0 *ℤ (x1 -ℤ x)) +ℤ (y1 *ℤ (x -ℤ x0))) over (x1 -ℤ x0)) }
{
    floor(interp(x, x0, y0, x1, y1))
}
