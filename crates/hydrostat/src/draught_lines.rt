ghost use Rattle.std.specs.Prelude.{◌≡◌, ◌*◌, ◌^◌, ◌<◌, ◌≤◌, pos, ◌+ℤ◌, ◌-ℤ◌, ◌*ℤ◌, ◌≤ℤ◌, ◌<ℤ◌};
ghost use Rattle.std.specs.Prelude.{neg_ℤ, unsigned_abs, true, false, IfSome};
ghost use Rattle.units_core.specs.Ratio.{floor_of};
ghost use Rattle.hydrostat.specs.Floating.{draught_at, load, water};
ghost use Rattle.hydrostat.specs.Leading.{IsInUnits, IsLedBy, IsNear, IsScaled, IsShort, IsSure};
ghost use Rattle.hydrostat.specs.Leading.{line_step};

use crate::draughts::{draught, draught_by};
use crate::numerators::trim_top;
use crate::particulars::Afloat;
use crate::unit_quotients::{are_short, quotient_in_units};
use std::num::{nearest_i64_to_f64, saturating_f64_to_i64};
use units_core::{Mm, floor, reciprocal_near};

/// The parts of a millimetre in which draughts are read along the line.
const PARTS: i64 = 1 << 40;

/// How many parts a draught has to be away from the whole numbers on both sides to be sure: at
/// least 2,000,002 units, of at most 2 parts, by which rounding to units can change it, and
/// 2,000,128 parts, by which rounding to parts can.
const MARGIN: i64 = 6_000_132;

/// The draught along a ship, (base - step x) / divisor, each of base, step and divisor in 64 bits:
/// in units of 2^`shift`, rounded down. Without a line the divisor is 0. The same line is kept in
/// parts of a millimetre, about start - slope x, so that reading it takes one product and no
/// division.
#[derive(Clone, Copy)]
struct Leading {
    shift: u32,
    base: i64,
    step: i64,
    divisor: i64,
    /// About 2^64 over the divisor. Quotients in units are guessed by it, and then tested: any
    /// number would do.
    reciprocal: u64,
    start: i64,
    slope: i64,
    /// Whether the numbers in units are so small that their products fit 64 bits.
    is_short: bool,
    /// Whether start and slope are those of a line. If they aren't, they are 0, so that no draught
    /// is sure, and it isn't asked for each draught.
    is_known: bool,
    ghost short: { is_short ≡ true → IsShort base step divisor },
    ghost divided: { is_short ≡ true → pos 1 ≤ℤ divisor },
    ghost scaled: { is_known ≡ true → IsScaled start slope base step divisor },
    ghost idle: { is_known ≡ false → (start ≡ pos 0) × (slope ≡ pos 0) },
}

/// The draughts along a ship afloat, for many places one after another.
#[derive(Clone, Copy)]
pub struct DraughtLine {
    /// The ship.
    pub of: Afloat,
    leading: Leading,
    ghost leads: { pos 1 ≤ℤ leading.divisor
        → IsLedBy leading.shift leading.base leading.step leading.divisor of },
}

/// A number in units of 2^`shift`, rounded down; `None` where it doesn't fit 64 bits.
fn in_units(whole: i128, shift: u32) -> Option<i64>
    requires { shift < 128 }
    ensures { IfSome result (λ high. IsInUnits high (pos (2 ^ shift)) whole) }
{
    let Ok(high) = i64::try_from(whole >> shift) else {
        return None;
    };
    Some(high)
}

/// By how much the numerator of the draught falls for each mm forward.
fn step_by(a: &Afloat, trim: i128) -> i128
    requires { unsigned_abs trim ≤ 2 * 10 ^ 23 }
    ensures { result ≡ trim *ℤ a.now.gap }
{
    trim * a.gap
}

/// A product, which takes more than 64 bits.
#[inline(always)]
fn product(a: i64, b: i64) -> i128
    ensures value { result ≡ a *ℤ b }
    ensures within { unsigned_abs result ≤ 2 ^ 126 }
{
    i128::from(a) * i128::from(b)
}

/// A number in parts.
#[inline(always)]
fn in_parts(number: i64) -> i128
    ensures value { result ≡ number *ℤ pos (2 ^ 40) }
    ensures within { unsigned_abs result ≤ 2 ^ 103 }
{
    i128::from(number) * i128::from(PARTS)
}

/// A difference.
#[inline(always)]
fn minus(one: i128, other: i128) -> i128
    requires one { unsigned_abs one ≤ 2 ^ 126 }
    requires other { unsigned_abs other ≤ 2 ^ 103 }
    ensures { result ≡ one -ℤ other }
{
    one - other
}

/// By how much a guess of a quotient in parts, times the divisor, is too great.
#[inline(always)]
fn error_of(guess: i64, number: i64, divisor: i64) -> i128
    ensures { result ≡ (guess *ℤ divisor) -ℤ (number *ℤ pos (2 ^ 40)) }
{
    minus(product(guess, divisor), in_parts(number))
}

/// Whether a number is within a bound either way.
#[inline(always)]
fn is_either_way(error: i128, bound: i128) -> bool
    requires { unsigned_abs bound ≤ 2 ^ 126 }
    ensures low { result ≡ true → neg_ℤ bound ≤ℤ error }
    ensures high { result ≡ true → error ≤ℤ bound }
{
    if error < -bound {
        return false;
    }
    error <= bound
}

/// Whether a guess of a quotient in parts is at most so many parts off.
#[inline(always)]
fn is_near(guess: i64, number: i64, divisor: i64, most: i64) -> bool
    ensures { result ≡ true → IsNear guess number divisor most }
{
    is_either_way(error_of(guess, number, divisor), product(most, divisor))
}

/// The numbers of 64 bits, with the line in parts: it is guessed in floating point and then tested.
/// `None` where the divisor is too small, a number in parts too great, or a guess too far off.
fn fit(shift: u32, base: i64, step: i64, divisor: i64) -> Option<Leading>
    ensures shift { IfSome result (λ l. l.shift ≡ shift) }
    ensures base { IfSome result (λ l. l.base ≡ base) }
    ensures step { IfSome result (λ l. l.step ≡ step) }
    ensures divisor { IfSome result (λ l. l.divisor ≡ divisor) }
{
    if divisor < 1 << 39 {
        return None;
    }
    // 2^40
    let parts = 1_099_511_627_776.0 / nearest_i64_to_f64(divisor);
    let start = saturating_f64_to_i64(nearest_i64_to_f64(base) * parts);
    let slope = saturating_f64_to_i64(nearest_i64_to_f64(step) * parts);
    if start.unsigned_abs() > 1 << 58 {
        return None;
    }
    if slope.unsigned_abs() > 1 << 38 {
        return None;
    }
    if !is_near(start, base, divisor, 128) {
        return None;
    }
    if !is_near(slope, step, divisor, 2) {
        return None;
    }
    Some(Leading {
        shift,
        base,
        step,
        divisor,
        reciprocal: reciprocal_near(divisor),
        start,
        slope,
        is_short: are_short(base, step, divisor),
        is_known: true,
    })
}

/// The numbers of 64 bits, without a line in parts.
fn in_units_alone(shift: u32, base: i64, step: i64, divisor: i64) -> Leading
    ensures shift { result.shift ≡ shift }
    ensures base { result.base ≡ base }
    ensures step { result.step ≡ step }
    ensures divisor { result.divisor ≡ divisor }
{
    Leading {
        shift,
        base,
        step,
        divisor,
        reciprocal: reciprocal_near(divisor),
        start: 0,
        slope: 0,
        is_short: are_short(base, step, divisor),
        is_known: false,
    }
}

/// The numbers of 64 bits, with the line in parts where it is found.
fn line_of(shift: u32, base: i64, step: i64, divisor: i64) -> Leading
    ensures shift { result.shift ≡ shift }
    ensures base { result.base ≡ base }
    ensures step { result.step ≡ step }
    ensures divisor { result.divisor ≡ divisor }
{
    match fit(shift, base, step, divisor) {
        Some(leading) => leading,
        None => in_units_alone(shift, base, step, divisor),
    }
}

/// The draught along a ship in numbers of 64 bits, the divisor in about 40; `None` where they
/// aren't enough.
fn leading_of(a: &Afloat) -> Option<Leading>
    ensures { IfSome result (λ l. IsLedBy l.shift l.base l.step l.divisor a.now) }
{
    let trim = trim_top(a);
    let aft = draught_by(a, trim, 0);
    let shift = 88u32.saturating_sub(aft.den.leading_zeros());
    let base = in_units(aft.num, shift)?;
    let step = in_units(step_by(a, trim), shift)?;
    let divisor = in_units(aft.den, shift)?;
    Some(line_of(shift, base, step, divisor))
}

/// The draught along a ship in numbers of 64 bits, or a line on which no draught is sure.
fn leading_or_none(a: &Afloat) -> Leading
    ensures { pos 1 ≤ℤ result.divisor
        → IsLedBy result.shift result.base result.step result.divisor a.now }
{
    match leading_of(a) {
        Some(leading) => leading,
        None => Leading {
            shift: 0,
            base: 0,
            step: 0,
            divisor: 0,
            reciprocal: 0,
            start: 0,
            slope: 0,
            is_short: false,
            is_known: false,
        },
    }
}

/// The draught at `x`, in parts.
#[inline(always)]
fn parts_at(start: i64, slope: i64, x: i64) -> i64
    requires start { unsigned_abs start ≤ 2 ^ 58 }
    requires slope { unsigned_abs slope ≤ 2 ^ 38 }
    requires x { unsigned_abs x ≤ 10 ^ 6 }
    ensures value { result ≡ start -ℤ (slope *ℤ x) }
    ensures within { unsigned_abs result ≤ 2 ^ 59 }
{
    start - slope * x
}

/// The whole millimetres of a draught in parts.
#[inline(always)]
fn whole(parts: i64) -> i64
    requires { unsigned_abs parts ≤ 2 ^ 59 }
    ensures { unsigned_abs result ≤ 10 ^ 6 }
{
    parts >> 40
}

/// What a draught in parts leaves over whole millimetres.
#[inline(always)]
fn rest_of(parts: i64, whole: i64) -> i64
    requires parts { unsigned_abs parts ≤ 2 ^ 59 }
    requires whole { unsigned_abs whole ≤ 10 ^ 6 }
    ensures { result ≡ parts -ℤ (whole *ℤ pos (2 ^ 40)) }
{
    parts - whole * PARTS
}

/// Whether what whole millimetres leave is far from 0 and from one more.
#[inline(always)]
fn is_sure(rest: i64) -> bool
    ensures low { result ≡ true → pos 6000132 ≤ℤ rest }
    ensures high { result ≡ true → (rest +ℤ pos 6000132) ≤ℤ pos (2 ^ 40) }
{
    if rest < MARGIN {
        return false;
    }
    rest <= PARTS - MARGIN
}

impl Leading {
    /// The draught at `x`, rounded down, where the parts leave no doubt.
    #[inline(always)]
    fn draught_down(&self, x: i64) -> Option<i64>
        requires { unsigned_abs x ≤ 10 ^ 6 }
        ensures known { IfSome result (λ q. self.now.is_known ≡ true) }
        ensures sure { IfSome result
            (λ q. IsSure q (self.now.base -ℤ (self.now.step *ℤ x)) self.now.divisor) }
    {
        let parts = parts_at(self.start, self.slope, x);
        let draught = whole(parts);
        if is_sure(rest_of(parts, draught)) {
            return Some(draught);
        }
        None
    }

    /// The draught at `x`, rounded down, where the units leave no doubt.
    #[inline(always)]
    fn draught_in_units(&self, x: i64) -> Option<i64>
        requires { unsigned_abs x ≤ 10 ^ 6 }
        ensures divided { IfSome result (λ q. pos 1 ≤ℤ self.now.divisor) }
        ensures sure { IfSome result
            (λ q. IsSure q (self.now.base -ℤ (self.now.step *ℤ x)) self.now.divisor) }
    {
        if !self.is_short {
            return None;
        }
        quotient_in_units(self.base, self.step, self.divisor, self.reciprocal, x)
    }
}

impl DraughtLine {
    /// The draughts along this ship.
    pub fn new(a: &Afloat) -> DraughtLine
        ensures { result.of ≡ a.now }
    {
        DraughtLine {
            of: *a,
            leading: leading_or_none(a),
        }
    }

    /// The draught in mm at `x`, rounded down, as [`DraughtLine::draught_down`] gives it, where 64
    /// bits decide it.
    #[inline(always)]
    pub fn quick_draught(&self, x: Mm) -> Option<i64>
        ensures { IfSome result (λ q. q
            ≡ floor_of (draught_at (water self.now.of) (load self.now.of) self.now.of.lbp x)) }
    {
        let Some(draught) = self.leading.draught_in_units(i64::from(x.get())) else {
            return None;
        };
        Some(draught)
    }

    /// The draught in mm at `x`, rounded down, as [`DraughtLine::draught_down`] gives it, where a
    /// line in parts of a millimetre leaves no doubt. It takes one product: it is for many places
    /// one after another, where [`DraughtLine::quick_draught`] takes two and a guess.
    #[inline(always)]
    pub fn read_in_parts(&self, x: Mm) -> Option<i64>
        ensures { IfSome result (λ q. q
            ≡ floor_of (draught_at (water self.now.of) (load self.now.of) self.now.of.lbp x)) }
    {
        let Some(draught) = self.leading.draught_down(i64::from(x.get())) else {
            return None;
        };
        Some(draught)
    }

    /// The draught in mm at `x`, rounded down, as [`DraughtLine::draught_down`] gives it, where 64
    /// bits decide it: as [`DraughtLine::read_in_parts`] does where the line is known in parts of a
    /// millimetre, and where it isn't, as a steep one, as [`DraughtLine::quick_draught`] does.
    #[inline(always)]
    pub fn read(&self, x: Mm) -> Option<i64>
        ensures { IfSome result (λ q. q
            ≡ floor_of (draught_at (water self.now.of) (load self.now.of) self.now.of.lbp x)) }
    {
        if self.leading.is_known {
            self.read_in_parts(x)
        } else {
            self.quick_draught(x)
        }
    }

    /// The draught in mm at `x`, which is measured forward from the after perpendicular, rounded
    /// down: the floor of [`draught`].
    pub fn draught_down(&self, x: Mm) -> i128
        ensures { result
            ≡ floor_of (draught_at (water self.now.of) (load self.now.of) self.now.of.lbp x) }
    {
        match self.read(x) {
            Some(draught) => i128::from(draught),
            None => floor(draught(&self.of, i128::from(x.get()))),
        }
    }
}
