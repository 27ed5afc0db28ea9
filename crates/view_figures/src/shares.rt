ghost use Rattle.std.specs.Prelude.{◌≡◌, ◌^◌, ◌≤◌, pos, ◌-ℤ◌, ◌*ℤ◌, ◌≤ℤ◌, ◌<ℤ◌, unsigned_abs};
ghost use Rattle.std.specs.Prelude.{IfSome, IsSomeAnd};
ghost use Rattle.units_core.specs.Ratio.{Is, IsFloor, Ratio, ◌over◌, ◌⊘◌};
ghost use Rattle.fractions.specs.Rounded.{up};
ghost use Rattle.view_figures.specs.Readings.{IsPercent};
ghost use Rattle.view_figures.specs.Shares.{is_more};

use fractions::{is_less, up};
use units_core::{Frac, floor};

/// How much of a limit is used.
#[derive(Clone, Copy, Debug)]
pub struct Used {
    /// As a fraction; `None` where no number tells: something, of nothing or less.
    pub share: Option<Frac>,
    /// In percent, rounded up; `None` above 999.
    pub percent: Option<u32>,
}

/// A value as a part of another above 0.
fn quotient(part: Frac, all: Frac) -> Frac
    requires positive { pos 1 ≤ℤ all.num }
    requires num { unsigned_abs (part.num *ℤ all.den) ≤ 10 ^ 38 }
    requires den { unsigned_abs (part.den *ℤ all.num) ≤ 10 ^ 36 }
    ensures value { (a : Ratio) (b : Ratio) → Is part.num part.den a → Is all.num all.den b
        → Is result.num result.den (a ⊘ b) }
    ensures sign { pos 0 ≤ℤ part.num → pos 0 ≤ℤ result.num }
    ensures size { unsigned_abs result.den ≤ 10 ^ 36 }
{
    Frac {
        num: part.num * all.den,
        den: part.den * all.num,
    }
}

/// What is left of a share without its whole part.
fn behind(share: Frac, whole: i128) -> Frac
    requires den { unsigned_abs share.den ≤ 10 ^ 36 }
    requires size { unsigned_abs whole ≤ 9 }
    requires whole { IsFloor whole (share.num over share.den) }
    ensures num { result.num ≡ share.num -ℤ (whole *ℤ share.den) }
    ensures den { result.den ≡ share.den }
    ensures size { unsigned_abs (result.num *ℤ pos 100) ≤ 10 ^ 38 }
{
    Frac {
        num: share.num - whole * share.den,
        den: share.den,
    }
}

/// What is left of a share without its whole part, in percent, rounded up.
fn rest_percent(share: Frac, whole: i128) -> i128
    requires den { unsigned_abs share.den ≤ 10 ^ 36 }
    requires size { unsigned_abs whole ≤ 9 }
    requires whole { IsFloor whole (share.num over share.den) }
    ensures value { result ≡ up ((share.num -ℤ (whole *ℤ share.den)) over share.den) 100 }
    ensures size { (pos 0 ≤ℤ result) × (result ≤ℤ pos 100) }
{
    up(behind(share, whole), 100)
}

/// A share in percent, rounded up, of which this is the whole part.
fn percent_by(share: Frac, whole: i128) -> i128
    requires den { unsigned_abs share.den ≤ 10 ^ 36 }
    requires size { (pos 0 ≤ℤ whole) × (whole ≤ℤ pos 9) }
    requires whole { IsFloor whole (share.num over share.den) }
    ensures value { result ≡ up (share.num over share.den) 100 }
    ensures size { (pos 0 ≤ℤ result) × (result ≤ℤ pos 1000) }
{
    100 * whole + rest_percent(share, whole)
}

/// A share in percent, rounded up; `None` above 999. Its whole part is taken apart, so that no
/// product is too great.
fn percent(share: Frac) -> Option<u32>
    requires num { pos 0 ≤ℤ share.num }
    requires den { unsigned_abs share.den ≤ 10 ^ 36 }
    ensures { (r : Ratio) → Is share.num share.den r → IsPercent result r }
{
    let whole = floor(share);
    if whole > 9 {
        return None;
    }
    let percent = percent_by(share, whole);
    if percent > 999 {
        return None;
    }
    Some(percent as u32)
}

/// A value that counts as 0 below 0.
fn not_below_zero(value: Frac) -> Frac
    ensures kept { pos 0 ≤ℤ value.num → result ≡ value }
    ensures den { result.den ≡ value.den }
    ensures sign { pos 0 ≤ℤ result.num }
    ensures none { value.num <ℤ pos 0 → result.num ≡ pos 0 }
{
    if value.num < 0 {
        return Frac {
            num: 0,
            den: value.den,
        };
    }
    value
}

/// How much one value, which counts as 0 below 0, is of another, as a fraction: the limit of a
/// value that has to be at least so much is a part of the value, and a value that may be at most so
/// much is a part of its limit. Of nothing, nothing is all; of anything else of nothing or less no
/// number tells.
pub fn share_of(part: Frac, all: Frac) -> Option<Frac>
    requires num { unsigned_abs (part.num *ℤ all.den) ≤ 10 ^ 38 }
    requires den { unsigned_abs (part.den *ℤ all.num) ≤ 10 ^ 36 }
    ensures bounds { IfSome result
        (λ s. (pos 0 ≤ℤ s.num) × (unsigned_abs s.den ≤ 10 ^ 36)) }
    ensures value { (a : Ratio) (b : Ratio) → Is part.num part.den a → Is all.num all.den b
        → pos 0 ≤ℤ part.num → pos 1 ≤ℤ all.num
        → IsSomeAnd result (λ s. Is s.num s.den (a ⊘ b)) }
{
    let part = not_below_zero(part);
    if all.num > 0 {
        return Some(quotient(part, all));
    }
    if part.num == 0 && all.num == 0 {
        return Some(Frac { num: 1, den: 1 });
    }
    None
}

/// The same with the percentage that is printed.
pub fn used_of(part: Frac, all: Frac) -> Used
    requires num { unsigned_abs (part.num *ℤ all.den) ≤ 10 ^ 38 }
    requires den { unsigned_abs (part.den *ℤ all.num) ≤ 10 ^ 36 }
    ensures { (a : Ratio) (b : Ratio) → Is part.num part.den a → Is all.num all.den b
        → pos 0 ≤ℤ part.num → pos 1 ≤ℤ all.num → IsPercent result.percent (a ⊘ b) }
{
    match share_of(part, all) {
        Some(share) => Used {
            share: Some(share),
            percent: percent(share),
        },
        None => Used {
            share: None,
            percent: None,
        },
    }
}

/// Whether one share is more than another; one that no number tells is more than any.
pub fn is_more(one: Option<Frac>, other: Option<Frac>) -> bool
    ensures { result ≡ is_more one other }
{
    match (one, other) {
        (_, None) => false,
        (None, Some(_)) => true,
        (Some(more), Some(less)) => is_less(less, more),
    }
}
