ghost use Rattle.std.specs.Prelude.{◌+◌, ◌-◌, ◌*◌, ◌/◌, ◌%◌, ◌^◌, ◌≤◌, ◌<◌, ◌≡◌, unsigned_abs};
ghost use Rattle.righting.specs.Levers.{DecidesArea, IsBest, IsGreatest, IsGreatestOf, IsSimpsonOf};
ghost use Rattle.righting.specs.Sums.{pair_top, simpson_top};

use crate::angles::angle_at;
use crate::ordinates::Levers;
use units_core::{Angle, Frac};

/// Simpson's sum on the two intervals from the `k`-th angle on.
#[inline(always)]
pub fn pair_sum(levers: &Levers, k: usize) -> i128
    requires { k + 2 ≤ 12 }
    ensures value { result ≡ pair_top levers.now.num k }
    ensures size { unsigned_abs result ≤ 6 * 10 ^ 30 }
{
    levers.num[k] + 4 * levers.num[k + 1] + levers.num[k + 2]
}

/// The numerator of Simpson's sum on `pairs` pairs of intervals from the `from`-th angle on.
#[inline(always)]
pub fn sum_over_pairs(levers: &Levers, from: usize, pairs: usize) -> i128
    requires { from + 2 * pairs ≤ 12 }
    ensures value { result ≡ simpson_top levers.now.num from pairs }
    ensures size { unsigned_abs result ≤ pairs * (6 * 10 ^ 30) }
{
    let mut num = 0;
    for p in 0..pairs {
        num += pair_sum(levers, from + 2 * p);
    }
    num
}

/// Simpson's sum on `pairs` pairs of intervals from the `from`-th angle on, without its factor.
pub fn area_over_pairs(levers: &Levers, from: usize, pairs: usize) -> Frac
    requires { from + 2 * pairs ≤ 12 }
    ensures value { IsSimpsonOf result.num result.den levers.now.num levers.now.den from pairs }
    ensures size { unsigned_abs result.num ≤ 10 ^ 32 }
    ensures den { unsigned_abs result.den ≤ 10 ^ 23 }
{
    Frac {
        num: sum_over_pairs(levers, from, pairs),
        den: levers.den,
    }
}

/// The area under the curve of righting levers between two angles, as Simpson's sum of the levers
/// in mm without its factor. By Simpson's first rule on intervals of 5 degrees the area is 5/3 of
/// this sum, in mm degrees. The angles are an even number of intervals apart. (2008 IS Code, part
/// A, 2.2.)
pub fn area_sum(levers: &Levers, from: Angle, to: Angle) -> Frac
    requires below { from < to }
    requires even { (to - from) % 2 ≡ 0 }
    ensures value { IsSimpsonOf result.num result.den levers.now.num levers.now.den from
        ((to - from) / 2) }
    ensures size { unsigned_abs result.num ≤ 10 ^ 32 }
    ensures den { unsigned_abs result.den ≤ 10 ^ 23 }
{
    let first = from.step();
    area_over_pairs(levers, first, (to.step() - first) / 2)
}

/// Whether the area of a Simpson's sum, as [`area_sum`] gives it, is at least `limit` millionths of
/// a metre-degree. Decided on whole numbers, without rounding. (2008 IS Code, part A, 2.2, which
/// has its limits in metre-radians.)
pub fn area_holds(sum: Frac, limit: i128) -> bool
    requires sum { unsigned_abs sum.num ≤ 10 ^ 32 }
    requires den { unsigned_abs sum.den ≤ 10 ^ 23 }
    requires limit { unsigned_abs limit ≤ 10 ^ 7 }
    ensures { DecidesArea result sum.num sum.den limit }
{
    5000 * sum.num >= 3 * limit * sum.den
}

/// The angle, of those from the `from`-th up to below the `end`-th, that carries the greatest
/// lever, the least such.
#[inline(always)]
pub fn greatest_in(levers: &Levers, from: usize, end: usize) -> usize
    requires some { from < end }
    requires inside { end ≤ 13 }
    ensures { IsGreatest levers.now.num from end result }
{
    let mut best = from;
    for k in from + 1..end {
        if levers.num[k] > levers.num[best] {
            best = k;
        }
    }
    best
}

/// The number of the least angle that carries the greatest lever.
pub fn greatest_number(levers: &Levers) -> usize
    ensures value { IsGreatestOf result levers.now.num levers.now.den 0 13 }
    ensures inside { result < 13 }
{
    greatest_in(levers, 0, 13)
}

/// The angle of the greatest righting lever, of 0, 5, .., 60 degrees; where several carry it, the
/// least of them. (2008 IS Code, part A, 2.2.)
pub fn greatest(levers: &Levers) -> Angle
    ensures { IsGreatestOf result levers.now.num levers.now.den 0 13 }
{
    angle_at(greatest_number(levers))
}

/// The number of the angle that carries the greatest lever from 30 to 60 degrees, the least such.
pub fn best_number_from_30(levers: &Levers) -> usize
    ensures value { IsGreatestOf result levers.now.num levers.now.den 6 7 }
    ensures inside { result < 13 }
{
    greatest_in(levers, 6, 13)
}

/// The greatest righting lever at 30, 35, .., 60 degrees, in mm. (2008 IS Code, part A, 2.2.)
pub fn best_from_30(levers: &Levers) -> Frac
    ensures value { IsBest result.num result.den levers.now.num levers.now.den }
    ensures size { unsigned_abs result.num ≤ 10 ^ 30 }
    ensures den { unsigned_abs result.den ≤ 10 ^ 23 }
{
    Frac {
        num: levers.num[best_number_from_30(levers)],
        den: levers.den,
    }
}
