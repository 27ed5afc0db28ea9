//! What the criteria take of a curve of righting levers.
ghost use Rattle.std.specs.Prelude.{◌*◌, ◌^◌, ◌<◌, ◌≤◌, ◌≡◌, ◌+ℤ◌, unsigned_abs};
ghost use Rattle.righting.specs.Levers.{IsBest, IsGreatest, IsGreatestOf, IsSimpsonOf};

use crate::areas::{greatest_in, pair_sum, sum_over_pairs};
use crate::ordinates::Levers;
use units_core::Frac;

/// Simpson's sums of righting levers, in mm and without their factor, over one denominator.
#[derive(Clone, Copy)]
pub struct AreaSums {
    /// From 0 to 30 degrees.
    pub to_30: Frac,
    /// From 0 to 40 degrees.
    pub to_40: Frac,
    /// From 30 to 40 degrees.
    pub from_30: Frac,
}

/// The sum on three pairs of intervals, and that on the next.
#[inline(always)]
fn with_next(three: i128, next: i128) -> i128
    requires three { unsigned_abs three ≤ 3 * (6 * 10 ^ 30) }
    requires next { unsigned_abs next ≤ 6 * 10 ^ 30 }
    ensures value { result ≡ three +ℤ next }
    ensures size { unsigned_abs result ≤ 10 ^ 32 }
{
    three + next
}

/// The sums of the areas that the criteria judge, as [`area_over_pairs`](crate::area_over_pairs)
/// gives each of them: from 0 to 30 degrees, from 0 to 40, and from 30 to 40.
pub fn area_sums(levers: &Levers) -> AreaSums
    ensures to_30 { IsSimpsonOf result.to_30.num result.to_30.den
        levers.now.num levers.now.den 0 3 }
    ensures to_40 { IsSimpsonOf result.to_40.num result.to_40.den
        levers.now.num levers.now.den 0 4 }
    ensures from_30 { IsSimpsonOf result.from_30.num result.from_30.den
        levers.now.num levers.now.den 6 1 }
    ensures num_30 { unsigned_abs result.to_30.num ≤ 10 ^ 32 }
    ensures num_40 { unsigned_abs result.to_40.num ≤ 10 ^ 32 }
    ensures num_from_30 { unsigned_abs result.from_30.num ≤ 10 ^ 32 }
    ensures den_30 { unsigned_abs result.to_30.den ≤ 10 ^ 23 }
    ensures den_40 { unsigned_abs result.to_40.den ≤ 10 ^ 23 }
    ensures den_from_30 { unsigned_abs result.from_30.den ≤ 10 ^ 23 }
{
    let den = levers.den;
    let three = sum_over_pairs(levers, 0, 3);
    let next = pair_sum(levers, 6);
    AreaSums {
        to_30: Frac { num: three, den },
        to_40: Frac {
            num: with_next(three, next),
            den,
        },
        from_30: Frac { num: next, den },
    }
}

/// The greatest of a curve of righting levers.
#[derive(Clone, Copy)]
pub struct GreatestLevers {
    /// The greatest lever from 30 to 60 degrees, in mm.
    pub best: Frac,
    /// The number of the least angle that carries the greatest lever of all.
    pub greatest: usize,
}

/// Of the first angle that carries the greatest lever below 30 degrees, and the first from there
/// on, the one that carries the greater lever; the earlier one where both are alike.
#[inline(always)]
fn greater(levers: &Levers, early: usize, late: usize) -> usize
    requires early { IsGreatest levers.now.num 0 6 early }
    requires late { IsGreatest levers.now.num 6 13 late }
    ensures { IsGreatest levers.now.num 0 13 result }
{
    if levers.num[late] > levers.num[early] {
        late
    } else {
        early
    }
}

/// The greatest levers that the criteria judge, as [`best_from_30`](crate::best_from_30) and
/// [`greatest_number`](crate::greatest_number) give them.
pub fn greatest_levers(levers: &Levers) -> GreatestLevers
    ensures best { IsBest result.best.num result.best.den levers.now.num levers.now.den }
    ensures den { unsigned_abs result.best.den ≤ 10 ^ 23 }
    ensures greatest { IsGreatestOf result.greatest levers.now.num levers.now.den 0 13 }
    ensures inside { result.greatest < 13 }
{
    let late = greatest_in(levers, 6, 13);
    GreatestLevers {
        best: Frac {
            num: levers.num[late],
            den: levers.den,
        },
        greatest: greater(levers, greatest_in(levers, 0, 6), late),
    }
}
