//! Draughts from a line in whole units, each number in 64 bits.
ghost use Rattle.std.specs.Prelude.{◌≡◌, ◌^◌, ◌≤◌, pos, ◌+ℤ◌, ◌-ℤ◌, ◌*ℤ◌, ◌≤ℤ◌, unsigned_abs};
ghost use Rattle.std.specs.Prelude.{true, IfSome};
ghost use Rattle.hydrostat.specs.Leading.{IsShort, IsSure};

use units_core::upper_half;

/// Upper bound, in units, on the total rounding error of base, 10^6 * step and 10^6 * divisor.
const SLACK: i64 = 2_000_002;

/// Whether the numbers of a line are so small that their products fit 64 bits too.
pub fn are_short(base: i64, step: i64, divisor: i64) -> bool
    ensures short { result ≡ true → IsShort base step divisor }
    ensures positive { result ≡ true → pos 1 ≤ℤ divisor }
{
    if base.unsigned_abs() > 1 << 61 {
        return false;
    }
    if step.unsigned_abs() > 1 << 40 {
        return false;
    }
    if divisor <= 0 {
        return false;
    }
    divisor <= 1 << 41
}

/// The numerator at `x`, in units.
#[inline(always)]
fn top_at(base: i64, step: i64, x: i64) -> i64
    requires base { unsigned_abs base ≤ 2 ^ 61 }
    requires step { unsigned_abs step ≤ 2 ^ 40 }
    requires x { unsigned_abs x ≤ 10 ^ 6 }
    ensures value { result ≡ base -ℤ (step *ℤ x) }
    ensures within { unsigned_abs result ≤ 2 ^ 62 }
{
    base - step * x
}

/// The remainder of a numerator over a quotient.
#[inline(always)]
fn rest_of(top: i64, quotient: i64, divisor: i64) -> i64
    requires top { unsigned_abs top ≤ 2 ^ 62 }
    requires quotient { unsigned_abs quotient ≤ 10 ^ 6 }
    requires divisor { unsigned_abs divisor ≤ 2 ^ 41 }
    ensures { result ≡ top -ℤ (quotient *ℤ divisor) }
{
    top - quotient * divisor
}

/// A number up to a million.
#[inline(always)]
fn to_signed(n: u64) -> i64
    requires { n ≤ 10 ^ 6 }
    ensures { unsigned_abs result ≤ 10 ^ 6 }
{
    n as i64
}

/// Whether the remainder of a quotient is far from 0 and from the divisor.
#[inline(always)]
fn is_sure(rest: i64, divisor: i64) -> bool
    requires { unsigned_abs divisor ≤ 2 ^ 41 }
    ensures low { result ≡ true → pos 2000002 ≤ℤ rest }
    ensures high { result ≡ true → (rest +ℤ pos 2000002) ≤ℤ divisor }
{
    if rest < SLACK {
        return false;
    }
    rest <= divisor - SLACK
}

/// The draught at `x`, rounded down, where the units leave no doubt.
#[inline(always)]
pub fn quotient_in_units(base: i64, step: i64, divisor: i64, reciprocal: u64, x: i64) -> Option<i64>
    requires short { IsShort base step divisor }
    requires x { unsigned_abs x ≤ 10 ^ 6 }
    ensures { IfSome result (λ q. IsSure q (base -ℤ (step *ℤ x)) divisor) }
{
    let top = top_at(base, step, x);
    let quotient = upper_half(top.unsigned_abs(), reciprocal);
    if quotient > 1_000_000 {
        return None;
    }
    let draught = to_signed(quotient);
    if is_sure(rest_of(top, draught, divisor), divisor) {
        return Some(draught);
    }
    None
}
