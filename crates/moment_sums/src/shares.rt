ghost use Rattle.std.specs.Prelude.{◌≡◌, ◌*◌, ◌^◌, ◌≤◌, pos, ◌+ℤ◌, ◌-ℤ◌, ◌*ℤ◌, ◌≤ℤ◌, int_le};
ghost use Rattle.std.specs.Prelude.{IfNone, IfSome, unsigned_abs};
ghost use Rattle.units_core.specs.Ratio.{◌over◌, floor_of};
ghost use Rattle.moment_sums.specs.Shares.{moment_aft, weight_aft};

use units_core::{Body, Frac, Mm, floor};

/// What a body has aft of a frame.
#[derive(Clone, Copy)]
pub struct Share {
    /// The mass, in kg.
    pub weight: i64,
    /// The moment of that mass about the frame, in kg mm.
    pub moment: i64,
}

/// A length in mm.
#[inline(always)]
pub fn mm(length: Mm) -> i64
    ensures value { result ≡ length }
    ensures within { unsigned_abs result ≤ 10 ^ 6 }
{
    i64::from(length.get())
}

/// A body's mass in kg.
#[inline(always)]
pub fn kg(body: &Body) -> i64
    ensures value { result ≡ pos body.now.kg }
    ensures within { unsigned_abs result ≤ 10 ^ 9 }
{
    i64::from(body.kg())
}

/// How far a frame is forward of the after end of a body.
#[inline(always)]
fn apart(frame: i64, x: i64, half: i64) -> i64
    requires frame { unsigned_abs frame ≤ 10 ^ 6 }
    requires x { unsigned_abs x ≤ 10 ^ 6 }
    requires half { unsigned_abs half ≤ 10 ^ 6 }
    ensures { result ≡ (frame -ℤ x) +ℤ half }
{
    frame - x + half
}

/// Whether `a` is at most `b - half`: a frame is at the after end of a body or aft of it.
#[inline(always)]
fn is_before(a: i64, b: i64, half: i64) -> bool
    requires b { unsigned_abs b ≤ 10 ^ 6 }
    requires half { unsigned_abs half ≤ 10 ^ 6 }
    ensures { result ≡ int_le a (b -ℤ half) }
{
    a <= b - half
}

/// Whether `a` is at least `b + half`: a frame is at the fore end of a body or before it.
#[inline(always)]
fn is_behind(a: i64, b: i64, half: i64) -> bool
    requires b { unsigned_abs b ≤ 10 ^ 6 }
    requires half { unsigned_abs half ≤ 10 ^ 6 }
    ensures { result ≡ int_le (b +ℤ half) a }
{
    b + half <= a
}

/// The moment of a mass whose centre is so far aft.
#[inline(always)]
fn whole_moment(kg: i64, frame: i64, x: i64) -> i64
    requires kg { unsigned_abs kg ≤ 10 ^ 9 }
    requires frame { unsigned_abs frame ≤ 10 ^ 6 }
    requires x { unsigned_abs x ≤ 10 ^ 6 }
    ensures value { result ≡ kg *ℤ (frame -ℤ x) }
    ensures within { unsigned_abs result ≤ 2 * 10 ^ 15 }
{
    kg * (frame - x)
}

/// The part of a mass that lies aft of a frame, where it is spread evenly over a length of twice
/// `half` and reaches so far aft of the frame; rounded down.
fn part_aft(kg: i64, reach: i64, half: i64) -> i64
    requires kg_low { pos 0 ≤ℤ kg }
    requires kg_high { unsigned_abs kg ≤ 10 ^ 9 }
    requires reach_low { pos 0 ≤ℤ reach }
    requires reach_high { reach ≤ℤ (pos 2 *ℤ half) }
    requires half_low { pos 1 ≤ℤ half }
    requires half_high { unsigned_abs half ≤ 10 ^ 6 }
    ensures value { result ≡ floor_of ((kg *ℤ reach) over (pos 2 *ℤ half)) }
    ensures low { pos 0 ≤ℤ result }
    ensures high { result ≤ℤ kg }
{
    (kg * reach).div_euclid(2 * half)
}

/// A product of three numbers over a fourth, rounded down, where the product takes more than 64
/// bits.
#[cold]
#[inline(never)]
fn long_quotient(top: i64, factor: i64, divisor: i64) -> i64
    requires top { unsigned_abs top ≤ 2 * 10 ^ 15 }
    requires factor { unsigned_abs factor ≤ 2 * 10 ^ 6 }
    requires divisor { pos 1 ≤ℤ divisor }
    requires within { unsigned_abs (floor_of ((top *ℤ factor) over divisor)) ≤ 10 ^ 15 }
    ensures { result ≡ floor_of ((top *ℤ factor) over divisor) }
{
    floor(Frac {
        num: i128::from(top) * i128::from(factor),
        den: i128::from(divisor),
    }) as i64
}

/// The moment of that part about the frame, rounded down.
fn part_moment(kg: i64, reach: i64, half: i64) -> i64
    requires kg_low { pos 0 ≤ℤ kg }
    requires kg_high { unsigned_abs kg ≤ 10 ^ 9 }
    requires reach_low { pos 0 ≤ℤ reach }
    requires reach_high { reach ≤ℤ (pos 2 *ℤ half) }
    requires half_low { pos 1 ≤ℤ half }
    requires half_high { unsigned_abs half ≤ 10 ^ 6 }
    ensures value { result ≡ floor_of (((kg *ℤ reach) *ℤ reach) over (pos 4 *ℤ half)) }
    ensures high { unsigned_abs result ≤ 10 ^ 15 }
{
    match (kg * reach).checked_mul(reach) {
        Some(top) => top.div_euclid(4 * half),
        None => long_quotient(kg * reach, reach, 4 * half),
    }
}

/// What lies aft of a frame of a mass that is spread evenly over a length of twice `half`, and
/// reaches so far aft of the frame; rounded down.
fn part_share(kg: i64, reach: i64, half: i64) -> Share
    requires kg_low { pos 0 ≤ℤ kg }
    requires kg_high { unsigned_abs kg ≤ 10 ^ 9 }
    requires reach_low { pos 0 ≤ℤ reach }
    requires reach_high { reach ≤ℤ (pos 2 *ℤ half) }
    requires half_low { pos 1 ≤ℤ half }
    requires half_high { unsigned_abs half ≤ 10 ^ 6 }
    ensures weight { result.weight ≡ floor_of ((kg *ℤ reach) over (pos 2 *ℤ half)) }
    ensures moment { result.moment ≡ floor_of (((kg *ℤ reach) *ℤ reach) over (pos 4 *ℤ half)) }
    ensures low { pos 0 ≤ℤ result.weight }
    ensures high { result.weight ≤ℤ kg }
    ensures within { unsigned_abs result.moment ≤ 10 ^ 15 }
{
    Share {
        weight: part_aft(kg, reach, half),
        moment: part_moment(kg, reach, half),
    }
}

/// What a body has aft of a frame, rounded down; `None` where nothing of it lies there. Nearly all
/// frames have all of a body before or aft of them, which takes no division.
#[inline(always)]
pub fn share_at(body: &Body, frame: Mm) -> Option<Share>
    ensures weight { IfSome result (λ share. share.weight ≡ weight_aft frame body.now) }
    ensures moment { IfSome result (λ share. share.moment ≡ moment_aft frame body.now) }
    ensures weight_low { IfSome result (λ share. pos 0 ≤ℤ share.weight) }
    ensures weight_high { IfSome result (λ share. share.weight ≤ℤ pos body.now.kg) }
    ensures weight_within { IfSome result (λ share. unsigned_abs share.weight ≤ 10 ^ 9) }
    ensures moment_within { IfSome result (λ share. unsigned_abs share.moment ≤ 2 * 10 ^ 15) }
    ensures no_weight { IfNone result (weight_aft frame body.now ≡ pos 0) }
    ensures no_moment { IfNone result (moment_aft frame body.now ≡ pos 0) }
{
    let f = mm(frame);
    let x = mm(body.place().x);
    let half = mm(body.place().half);
    if is_before(f, x, half) {
        return None;
    }
    let kg = kg(body);
    if is_behind(f, x, half) {
        return Some(Share {
            weight: kg,
            moment: whole_moment(kg, f, x),
        });
    }
    Some(part_share(kg, apart(f, x, half), half))
}

/// The mass of a body that lies aft of a frame, rounded down.
pub fn weight_aft(body: &Body, frame: Mm) -> i128
    ensures value { result ≡ weight_aft frame body.now }
    ensures low { pos 0 ≤ℤ result }
    ensures high { result ≤ℤ pos body.now.kg }
    ensures within { unsigned_abs result ≤ 10 ^ 9 }
{
    match share_at(body, frame) {
        Some(share) => i128::from(share.weight),
        None => 0,
    }
}

/// The moment about a frame of the mass that lies aft of it, rounded down.
pub fn moment_aft(body: &Body, frame: Mm) -> i128
    ensures value { result ≡ moment_aft frame body.now }
    ensures within { unsigned_abs result ≤ 2 * 10 ^ 15 }
{
    match share_at(body, frame) {
        Some(share) => i128::from(share.moment),
        None => 0,
    }
}
