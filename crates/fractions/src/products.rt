ghost use Rattle.std.specs.Prelude.{◌≡◌, ◌+◌, ◌*◌, ◌^◌, ◌≤◌};
ghost use Rattle.std.specs.Ordering.{nat_cmp};

use std::cmp::Ordering;

/// Half of the bits of a number.
const HALF: u128 = 18_446_744_073_709_551_616;

/// A number of up to 256 bits: 2^128 times `high`, and `low`.
#[derive(Clone, Copy)]
struct Wide {
    high: u128,
    low: u128,
}

/// The product, made of the halves of both numbers as by hand.
fn product(a: u128, b: u128) -> Wide
    requires a { a ≤ 2 ^ 127 }
    requires b { b ≤ 2 ^ 127 }
    ensures { result.high * 2 ^ 128 + result.low ≡ a * b }
{
    let low = (a % HALF) * (b % HALF);
    let middle = (a / HALF) * (b % HALF) + (a % HALF) * (b / HALF) + low / HALF;
    Wide {
        high: (a / HALF) * (b / HALF) + middle / HALF,
        low: (middle % HALF) * HALF + low % HALF,
    }
}

/// The order of two products.
pub fn order_of_products(a: u128, b: u128, c: u128, d: u128) -> Ordering
    requires a { a ≤ 2 ^ 127 }
    requires b { b ≤ 2 ^ 127 }
    requires c { c ≤ 2 ^ 127 }
    requires d { d ≤ 2 ^ 127 }
    ensures { result ≡ nat_cmp (a * b) (c * d) }
{
    let left = product(a, b);
    let right = product(c, d);
    if left.high == right.high {
        return left.low.cmp(&right.low);
    }
    left.high.cmp(&right.high)
}
