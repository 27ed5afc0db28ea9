ghost use Rattle.std.specs.Prelude.{◌≡◌, ◌^◌, ◌≤◌, ◌*ℤ◌, true, unsigned_abs, IfSome};
ghost use Rattle.units_core.specs.Ratio.{◌over◌};
ghost use Rattle.fractions.specs.Order.{is_below, order_of};

use crate::products::order_of_products;
use std::cmp::Ordering;
use units_core::Frac;

/// The size of a number.
fn size_of(n: i128) -> u128
    ensures value { result ≡ unsigned_abs n }
    ensures small { result ≤ 2 ^ 127 }
{
    n.unsigned_abs()
}

/// The order of two fractions whose cross products may not fit the type.
fn order_by_sizes(one: Frac, other: Frac) -> Ordering
    ensures { result ≡ order_of (one.num over one.den) (other.num over other.den) }
{
    let left = size_of(one.num);
    let right = size_of(other.num);
    let by = size_of(one.den);
    let other_by = size_of(other.den);
    if one.num < 0 {
        if other.num < 0 {
            return order_of_products(right, by, left, other_by);
        }
        return Ordering::Less;
    }
    if other.num < 0 {
        return Ordering::Greater;
    }
    order_of_products(left, other_by, right, by)
}

/// A product, where it fits the type.
fn product_of(a: i128, b: i128) -> Option<i128>
    ensures { IfSome result (λ p. p ≡ a *ℤ b) }
{
    a.checked_mul(b)
}

/// The order of two fractions, which is that of their cross products. These may have 256 bits.
pub fn order(one: Frac, other: Frac) -> Ordering
    ensures { result ≡ order_of (one.num over one.den) (other.num over other.den) }
{
    let left = product_of(one.num, other.den);
    let right = product_of(other.num, one.den);
    let (Some(left), Some(right)) = (left, right) else {
        return order_by_sizes(one, other);
    };
    left.cmp(&right)
}

/// The greatest size of numbers whose products surely fit the type.
const SHORT: i128 = 9_223_372_036_854_775_808;

/// Whether a number is at most so great either way.
fn is_short(n: i128) -> bool
    ensures { result ≡ true → unsigned_abs n ≤ 2 ^ 63 }
{
    -SHORT <= n && n <= SHORT
}

/// The product of two short numbers.
fn short_product(a: i128, b: i128) -> i128
    requires a { unsigned_abs a ≤ 2 ^ 63 }
    requires b { unsigned_abs b ≤ 2 ^ 63 }
    ensures { result ≡ a *ℤ b }
{
    a * b
}

/// Whether a fraction is less than another. Most values that are compared one after another are
/// fractions of short numbers, whose products are looked at at once.
pub fn is_less(one: Frac, other: Frac) -> bool
    ensures { result ≡ is_below (one.num over one.den) (other.num over other.den) }
{
    if is_short(one.num) && is_short(other.num) {
        if is_short(one.den) && is_short(other.den) {
            return short_product(one.num, other.den) < short_product(other.num, one.den);
        }
    }
    matches!(order(one, other), Ordering::Less)
}
