//! Marks. Of values that are compared one after another most are far from the greatest or the least
//! of them, and against a short fraction beside that one this is seen at a fraction of the cost of
//! an exact comparison.
ghost use Rattle.std.specs.Prelude.{◌≡◌, ◌*◌, ◌^◌, ◌≤◌, ◌*ℤ◌, pos, unsigned_abs, true, false};
ghost use Rattle.std.specs.Prelude.{IfSome};
ghost use Rattle.units_core.specs.Ratio.{◌over◌};
ghost use Rattle.fractions.specs.Marks.{at_mark};
ghost use Rattle.fractions.specs.Order.{is_below};

use crate::orders::is_less;
use units_core::{Frac, floor};

/// Of so many parts to one are marks.
const PARTS: i128 = 4096;

/// The greatest size of a numerator that is compared with a mark.
const GREATEST: i128 = 10_000_000_000_000_000_000_000_000_000_000_000;

/// The greatest divisor.
const GREATEST_DIVISOR: i128 = 10_000_000_000_000_000_000_000_000_000;

/// The greatest mark that longer divisors are compared with, and the greatest of these: shares of a
/// limit have such divisors.
const SHORT: i32 = 1_048_576;

const LONG_DIVISOR: i128 = 40_000_000_000_000_000_000_000_000_000_000;

/// Whether a numerator is one that may be compared with a mark.
#[inline(always)]
fn is_narrow(num: i128) -> bool
    ensures { result ≡ true → unsigned_abs num ≤ 10 ^ 34 }
{
    -GREATEST <= num && num <= GREATEST
}

/// Whether a mark is short.
#[inline(always)]
fn is_short_mark(mark: i32) -> bool
    ensures { result ≡ true → unsigned_abs mark ≤ 2 ^ 20 }
{
    -SHORT <= mark && mark <= SHORT
}

/// A numerator in parts.
#[inline(always)]
fn in_parts(num: i128) -> i128
    requires { unsigned_abs num ≤ 10 ^ 34 }
    ensures { result ≡ num *ℤ pos 4096 }
{
    num * PARTS
}

/// A mark over a divisor.
#[inline(always)]
fn mark_over(mark: i128, den: i128) -> i128
    requires mark { unsigned_abs mark ≤ 2 ^ 31 }
    requires den { unsigned_abs den ≤ 10 ^ 28 }
    ensures { result ≡ mark *ℤ den }
{
    mark * den
}

/// The same of a short mark and a long divisor.
#[inline(always)]
fn short_mark_over(mark: i128, den: i128) -> i128
    requires mark { unsigned_abs mark ≤ 2 ^ 20 }
    requires den { unsigned_abs den ≤ 4 * 10 ^ 31 }
    ensures { result ≡ mark *ℤ den }
{
    mark * den
}

/// Whether a value is surely not less than a mark, a number of parts of which there are 4096 to
/// one. Nothing is said where it answers no.
#[inline(always)]
pub fn is_from_mark(value: Frac, mark: i32) -> bool
    ensures { result ≡ true → is_below (value.num over value.den) (at_mark mark) ≡ false }
{
    if is_narrow(value.num) && value.den <= GREATEST_DIVISOR {
        return !(in_parts(value.num) < mark_over(i128::from(mark), value.den));
    }
    false
}

/// Whether a value is surely not more than a mark, a number of parts of which there are 4096 to
/// one. Nothing is said where it answers no.
#[inline(always)]
pub fn is_up_to_mark(value: Frac, mark: i32) -> bool
    ensures { result ≡ true → is_below (at_mark mark) (value.num over value.den) ≡ false }
{
    if is_narrow(value.num) && value.den <= LONG_DIVISOR && is_short_mark(mark) {
        return !(short_mark_over(i128::from(mark), value.den) < in_parts(value.num));
    }
    false
}

/// A value in parts, rounded down, where it may be told so.
fn parts_of(value: Frac) -> Option<i32> {
    if !is_narrow(value.num) {
        return None;
    }
    let parts = floor(Frac {
        num: in_parts(value.num),
        den: value.den,
    });
    i32::try_from(parts).ok()
}

/// Whether a value is less than a mark.
fn is_below_mark(value: Frac, mark: i32) -> bool
    ensures { result ≡ is_below (value.num over value.den) (at_mark mark) }
{
    is_less(
        value,
        Frac {
            num: i128::from(mark),
            den: PARTS,
        },
    )
}

/// The least mark that a value is less than; `None` where the value or its numerator is too great.
pub fn mark_above(value: Frac) -> Option<i32>
    ensures { IfSome result (λ m. is_below (value.num over value.den) (at_mark m) ≡ true) }
{
    let mark = parts_of(value)?.checked_add(1)?;
    if is_below_mark(value, mark) {
        Some(mark)
    } else {
        None
    }
}

/// The greatest mark that a value isn't less than; `None` where the value or its numerator is too
/// great.
pub fn mark_below(value: Frac) -> Option<i32>
    ensures { IfSome result (λ m. is_below (value.num over value.den) (at_mark m) ≡ false) }
{
    let mark = parts_of(value)?;
    if is_below_mark(value, mark) {
        None
    } else {
        Some(mark)
    }
}
