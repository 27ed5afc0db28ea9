ghost use Rattle.std.specs.Prelude.{◌≡◌, ◌*◌, ◌/◌, ◌^◌, ◌<◌, pos, ◌-ℤ◌, ◌*ℤ◌, ◌≤ℤ◌, ◌<ℤ◌, true};
ghost use Rattle.std.specs.Prelude.{IfSome};
ghost use Rattle.units_core.specs.Ratio.{◌over◌, floor_of};

use crate::fractions::{Frac, floor};
use std::num::{f64_to_bits_with_nan, nearest_i64_to_f64, saturating_f64_to_u64};

/// The greatest divisor under which a guess is tested, and the greatest guess: so their product
/// fits.
const MOST_DIVISOR: i128 = 1 << 103;

const MOST_GUESS: u64 = 1 << 23;

/// 2^52 and 2^51. A number of this size has no bits for a fraction: added to a small one, it leaves
/// that rounded to a whole number, in the last 52 bits.
const ROUNDER: f64 = 6_755_399_441_055_744.0;

/// A half less 2^-26. With it taken away, rounding to the nearest whole number rounds down. The
/// small part makes up for what an exact quotient may lose in floating point.
const NEARLY_HALF: f64 = 0.499_999_985_098_838_806_152_343_75;

/// The upper half of the product of two numbers. Where one of them is about 2^64 over a divisor,
/// this is about the quotient of the other.
#[inline(always)]
pub fn upper_half(a: u64, b: u64) -> u64
    ensures { result ≡ a * b / 2 ^ 64 }
{
    ((u128::from(a) * u128::from(b)) >> 64) as u64
}

/// Whether a number is a remainder: at least 0, and less than the divisor.
#[inline(always)]
pub fn is_rest(rest: i128, divisor: i128) -> bool
    ensures low { result ≡ true → pos 0 ≤ℤ rest }
    ensures high { result ≡ true → rest <ℤ divisor }
    ensures told { pos 0 ≤ℤ rest → rest <ℤ divisor → result ≡ true }
{
    if rest < 0 {
        return false;
    }
    rest < divisor
}

/// A quotient in floating point, below 2^23 either way, rounded down; less than 2^-26 below a whole
/// number, that number. A greater quotient gives some number. It is read from the bits of a sum,
/// which needs no test of the range.
#[inline(always)]
fn round_down(quotient: f64) -> i64 {
    let bits = f64_to_bits_with_nan(quotient - NEARLY_HALF + ROUNDER);
    (bits & ((1 << 52) - 1)) as i64 - (1 << 51)
}

/// A guess from the leading bits of two numbers of any size.
#[cold]
#[inline(never)]
fn guess_leading(num: i128, den: i128) -> i64 {
    let shift = 65u32.saturating_sub(num.unsigned_abs().leading_zeros());
    let Ok(top) = i64::try_from(num >> shift) else {
        return 0;
    };
    let Ok(bottom) = i64::try_from(den >> shift) else {
        return 0;
    };
    round_down(nearest_i64_to_f64(top) / nearest_i64_to_f64(bottom))
}

/// A guess of the quotient of two numbers, rounded down, from their leading bits in floating point:
/// no whole number is divided. It may be wrong, so nothing is promised of it: callers test that the
/// remainder is at least 0 and less than the divisor. A divisor of 64 bits, as that of nearly all
/// figures, is taken whole, and of the other number 24 bits are left out where it needs more than
/// 64. They are rounded up, so that a quotient without a remainder is guessed right.
#[inline(always)]
pub fn guess(num: i128, den: i128) -> i64 {
    let Ok(divisor) = i64::try_from(den) else {
        return guess_leading(num, den);
    };
    if let Ok(number) = i64::try_from(num) {
        return round_down(nearest_i64_to_f64(number) / nearest_i64_to_f64(divisor));
    }
    let Ok(leading) = i64::try_from(num >> 24) else {
        return guess_leading(num, den);
    };
    // 2^24
    let number = (nearest_i64_to_f64(leading) + 1.0) * 16_777_216.0;
    round_down(number / nearest_i64_to_f64(divisor))
}

/// About 2^64 over a divisor, right to some 50 bits. Quotients are guessed by it (see
/// [`upper_half`]) and then tested, so nothing is promised of it.
#[inline(always)]
pub fn reciprocal_near(divisor: i64) -> u64 {
    // 2^64
    saturating_f64_to_u64(18_446_744_073_709_551_616.0 / nearest_i64_to_f64(divisor))
}

/// The remainder of a fraction over a guess; `None` where the numbers are so great that it might
/// not fit.
#[inline(always)]
fn rest_over(fraction: Frac, guess: i64) -> Option<i128>
    ensures { IfSome result (λ rest. rest ≡ fraction.num -ℤ (guess *ℤ fraction.den)) }
{
    if fraction.den > MOST_DIVISOR {
        return None;
    }
    if guess.unsigned_abs() > MOST_GUESS {
        return None;
    }
    fraction.num.checked_sub(i128::from(guess) * fraction.den)
}

/// The guess, where it is the fraction rounded down.
#[inline(always)]
pub fn confirm_guess(fraction: Frac, guess: i64) -> Option<i128>
    ensures { IfSome result (λ q. q ≡ floor_of (fraction.num over fraction.den)) }
{
    let Some(rest) = rest_over(fraction, guess) else {
        return None;
    };
    if is_rest(rest, fraction.den) {
        return Some(i128::from(guess));
    }
    None
}

/// The fraction rounded down, as [`floor`] gives it, by a guess of the caller's: where it is right,
/// no number is divided.
#[inline(always)]
pub fn floor_near(fraction: Frac, guess: i64) -> i128
    ensures { result ≡ floor_of (fraction.num over fraction.den) }
{
    match confirm_guess(fraction, guess) {
        Some(quotient) => quotient,
        None => floor(fraction),
    }
}
