ghost use Rattle.std.specs.Prelude.{◌≡◌, ℕ, ◌*◌, ◌^◌, ◌≤◌, pos, ◌-ℤ◌, ◌*ℤ◌, unsigned_abs};
ghost use Rattle.righting.specs.Aboard.{lever_by};
ghost use Rattle.righting.specs.Levers.{AreOrdinates};

use crate::angles::angle_at;
use crate::ordinates::{Crossing, Levers};
use units_core::{cosine, sine};

/// A number in 64 bits.
#[inline(always)]
fn short(number: i128) -> i64
    requires { unsigned_abs number ≤ 2 * 10 ^ 15 }
    ensures { result ≡ number }
{
    number as i64
}

/// A product that fits 64 bits.
#[inline(always)]
fn short_product(a: i64, b: i64) -> i64
    requires one { unsigned_abs a ≤ 10 ^ 9 }
    requires other { unsigned_abs b ≤ 10 ^ 6 }
    ensures { result ≡ a *ℤ b }
{
    a * b
}

/// A product that takes more than 64 bits.
#[inline(always)]
fn product(a: i64, b: i64) -> i128
    ensures { result ≡ a *ℤ b }
{
    i128::from(a) * i128::from(b)
}

/// A moment or lever times a weight times millionths. The two smaller ones go first, so that no
/// product is of numbers of more than 64 bits.
#[inline(always)]
fn triple(a: i128, b: i128, d: i128) -> i128
    requires a { unsigned_abs a ≤ 2 * 10 ^ 15 }
    requires b { unsigned_abs b ≤ 10 ^ 9 }
    requires d { unsigned_abs d ≤ 10 ^ 6 }
    ensures value { result ≡ (a *ℤ b) *ℤ d }
    ensures size { (m n : ℕ) → unsigned_abs a ≤ m → unsigned_abs b ≤ n
        → unsigned_abs result ≤ m * n * 10 ^ 6 }
{
    product(short(a), short_product(short(b), short(d)))
}

/// What is left of a lever after two others are taken away.
#[inline(always)]
fn less_both(whole: i128, one: i128, other: i128) -> i128
    requires whole { unsigned_abs whole ≤ 10 ^ 29 }
    requires one { unsigned_abs one ≤ 2 * 10 ^ 29 }
    requires other { unsigned_abs other ≤ 10 ^ 29 }
    ensures value { result ≡ (whole -ℤ one) -ℤ other }
    ensures size { unsigned_abs result ≤ 10 ^ 30 }
{
    whole - one - other
}

/// One righting lever, to be divided by the gap, the weight and a million.
fn lever(
    kn: i128,
    weight: i128,
    upright: i128,
    aside: i128,
    gap: i128,
    sine: i128,
    cosine: i128,
) -> i128
    requires kn { unsigned_abs kn ≤ 10 ^ 14 }
    requires weight { unsigned_abs weight ≤ 10 ^ 9 }
    requires upright { unsigned_abs upright ≤ 2 * 10 ^ 15 }
    requires aside { unsigned_abs aside ≤ 10 ^ 15 }
    requires gap { unsigned_abs gap ≤ 10 ^ 8 }
    requires sine { unsigned_abs sine ≤ 10 ^ 6 }
    requires cosine { unsigned_abs cosine ≤ 10 ^ 6 }
    ensures value { result ≡ (((kn *ℤ weight) *ℤ pos (10 ^ 6)) -ℤ ((upright *ℤ gap) *ℤ sine)) -ℤ
        ((aside *ℤ gap) *ℤ cosine) }
    ensures size { unsigned_abs result ≤ 10 ^ 30 }
{
    let crossing = triple(kn, weight, 1_000_000);
    let rise = triple(upright, gap, sine);
    let shift = triple(aside, gap, cosine);
    less_both(crossing, rise, shift)
}

/// A moment about the centre line without its side: the ship heels to the side where her centre of
/// gravity is.
fn to_either_side(side: i128) -> i128
    requires { unsigned_abs side ≤ 10 ^ 15 }
    ensures value { result ≡ pos (unsigned_abs side) }
    ensures within { unsigned_abs result ≤ 10 ^ 15 }
{
    side.abs()
}

/// The righting levers of a ship, by the moments of what is aboard about the keel (with the free
/// surfaces) and about the centre line.
pub fn levers(crossing: &Crossing, upright: i128, side: i128) -> Levers
    requires upright { unsigned_abs upright ≤ 2 * 10 ^ 15 }
    requires side { unsigned_abs side ≤ 10 ^ 15 }
    ensures { AreOrdinates result.num result.den (lever_by crossing.now upright side) }
{
    let aside = to_either_side(side);
    let mut num = [0; 13];
    for k in 0..13usize {
        let angle = angle_at(k);
        num[k] = lever(
            crossing.lever[k],
            crossing.kg,
            upright,
            aside,
            crossing.gap,
            sine(angle),
            cosine(angle),
        );
    }
    Levers {
        num,
        den: crossing.gap * crossing.kg * 1_000_000,
    }
}
