ghost use Rattle.std.specs.Prelude.{◌≡◌, ◌*◌, ◌^◌, ◌≤◌, ◌&&◌, pos, ◌*ℤ◌, neg_ℤ, int_le};
ghost use Rattle.std.specs.Prelude.{unsigned_abs, option_map};
ghost use Rattle.units_core.specs.Ratio.{◌over◌, is_at_least, is_at_most};
ghost use Rattle.hydrostat.specs.Floating.{gm, load, water};
ghost use Rattle.criteria.specs.Criteria.{draughts_hold, is_within, least_holds, list_holds};
ghost use Rattle.criteria.specs.Least.{IsLeast};

use hydrostat::{Afloat, draught, gm_of, list_of, trim_of};
use units_core::Frac;

/// Both hold.
fn both(a: bool, b: bool) -> bool
    ensures { result ≡ (a && b) }
{
    a && b
}

/// A limit times a divisor.
fn bound(limit: i128, den: i128) -> i128
    requires limit { unsigned_abs limit ≤ 10 ^ 5 }
    requires den { unsigned_abs den ≤ 10 ^ 31 }
    ensures { result ≡ limit *ℤ den }
{
    limit * den
}

/// Whether a fraction is at least a limit.
pub fn reaches(fraction: Frac, limit: i128) -> bool
    requires limit { unsigned_abs limit ≤ 10 ^ 5 }
    requires den { unsigned_abs fraction.den ≤ 10 ^ 31 }
    ensures { result ≡ is_at_least (fraction.num over fraction.den) limit }
{
    bound(limit, fraction.den) <= fraction.num
}

/// Whether it is at most the limit.
fn stays(fraction: Frac, limit: i128) -> bool
    requires limit { unsigned_abs limit ≤ 10 ^ 5 }
    requires den { unsigned_abs fraction.den ≤ 10 ^ 31 }
    ensures { result ≡ is_at_most (fraction.num over fraction.den) limit }
{
    fraction.num <= bound(limit, fraction.den)
}

/// A limit the other way.
fn negate(limit: i128) -> i128
    requires { unsigned_abs limit ≤ 10 ^ 5 }
    ensures value { result ≡ neg_ℤ limit }
    ensures within { unsigned_abs result ≤ 10 ^ 5 }
{
    -limit
}

/// Whether a fraction is within a limit either way.
fn is_within(fraction: Frac, limit: i128) -> bool
    requires limit { unsigned_abs limit ≤ 10 ^ 5 }
    requires den { unsigned_abs fraction.den ≤ 10 ^ 31 }
    ensures { result ≡ is_within (fraction.num over fraction.den) limit }
{
    both(reaches(fraction, negate(limit)), stays(fraction, limit))
}

/// The least metacentric height (C1), in mm.
const GM_MIN: i128 = 150;

/// Whether the metacentric height is at least 0.15 m.
pub fn is_stiff(a: &Afloat) -> bool
    ensures { result ≡ is_at_least (gm (water a.now) (load a.now)) (pos 150) }
{
    reaches(gm_of(a), GM_MIN)
}

/// Whether the list is there, and within its limit.
pub fn list_holds(a: &Afloat, most: i128) -> bool
    requires { unsigned_abs most ≤ 10 ^ 4 }
    ensures { result ≡ list_holds (water a.now) (load a.now) most }
{
    match list_of(a) {
        Some(list) => is_within(list, most),
        None => false,
    }
}

/// Whether the draughts and the trim are within their limits.
pub fn draughts_hold(a: &Afloat, most: i128, trim_most: i128) -> bool
    requires most { unsigned_abs most ≤ 10 ^ 5 }
    requires trim { unsigned_abs trim_most ≤ 10 ^ 5 }
    ensures { result ≡ draughts_hold (water a.now) (load a.now) a.now.lbp most trim_most }
{
    let aft = stays(draught(a, 0), most);
    let forward = stays(draught(a, a.lbp), most);
    both(both(aft, forward), is_within(trim_of(a), trim_most))
}

/// Whether one fraction is at most another.
fn is_no_more(one: Frac, other: Frac) -> bool
    requires one_num { unsigned_abs one.num ≤ 10 ^ 14 }
    requires one_den { unsigned_abs one.den ≤ 10 ^ 8 }
    requires other_num { unsigned_abs other.num ≤ 3 * 10 ^ 23 }
    requires other_den { unsigned_abs other.den ≤ 10 ^ 17 }
    ensures { result ≡ int_le (one.num *ℤ other.den) (other.num *ℤ one.den) }
{
    one.num * other.den <= other.num * one.den
}

/// Whether the metacentric height is no less than the limit, where there is one.
pub fn least_holds(a: &Afloat, least: Option<Frac>) -> bool
    requires { IsLeast least }
    ensures { result
        ≡ least_holds (option_map (λ f. f.num over f.den) least) (gm (water a.now) (load a.now)) }
{
    match least {
        Some(least) => is_no_more(least, gm_of(a)),
        None => true,
    }
}
