ghost use Rattle.std.specs.Prelude.{◌≡◌, pos, ◌-ℤ◌, ◌*ℤ◌, ◌*◌, ◌/◌, ◌^◌, ◌≤◌, unsigned_abs};
ghost use Rattle.std.specs.Int.{int_div_euclid};
ghost use Rattle.strength.specs.Buoyancy.{IsBuoyancy, IsMoment};

use units_core::is_rest;

/// A product, which takes more than 64 bits.
#[inline(always)]
fn product(a: i64, b: i64) -> i128
    ensures { result ≡ a *ℤ b }
{
    i128::from(a) * i128::from(b)
}

/// An 800,000th of 41 times a number, rounded down.
#[inline(always)]
fn short_buoyancy(volume: u64) -> u64
    requires { volume ≤ 3 * 10 ^ 16 }
    ensures value { result ≡ volume * 41 / 800000 }
    ensures within { result ≤ 2 * 10 ^ 12 }
{
    volume * 41 / 800_000
}

/// The same of a number below 0, which is rare.
#[cold]
#[inline(never)]
fn long_buoyancy(volume: i64) -> i64
    requires { unsigned_abs volume ≤ 3 * 10 ^ 16 }
    ensures value { result ≡ int_div_euclid (volume *ℤ pos 41) (pos 800000) }
    ensures within { unsigned_abs result ≤ 2 * 10 ^ 12 }
{
    (volume * 41).div_euclid(800_000)
}

/// An 800,000th of 41 times a number, rounded down. A division without a sign takes half as long.
#[inline(always)]
fn buoyancy_of(volume: i64) -> i64
    requires { unsigned_abs volume ≤ 3 * 10 ^ 16 }
    ensures value { result ≡ int_div_euclid (volume *ℤ pos 41) (pos 800000) }
    ensures within { unsigned_abs result ≤ 2 * 10 ^ 12 }
{
    match u64::try_from(volume) {
        Ok(volume) => short_buoyancy(volume) as i64,
        Err(_) => long_buoyancy(volume),
    }
}

/// The buoyancy in kg of twice a volume, rounded down.
pub fn buoyancy(volume: i64) -> i64
    requires within { unsigned_abs volume ≤ 3 * 10 ^ 16 }
    ensures value { IsBuoyancy result volume }
    ensures size { unsigned_abs result ≤ 2 * 10 ^ 12 }
{
    // 1025 / 20,000,000 is 41 / 800,000.
    buoyancy_of(volume)
}

/// What 41 times the moment of a volume is divided by.
const PARTS: i128 = 2_400_000;

/// 2^72 / 2,400,000 and 2^84 / 2,400,000, by which quotients are guessed.
const RECIPROCAL: i128 = 1_967_652_701_195_686;

const COARSE_RECIPROCAL: i128 = 8_059_505_464_097_527_831;

/// About a 2,400,000th of a great number: right, or 1 too small.
#[cold]
fn coarse_guess(top: i128) -> i64 {
    match i64::try_from(top >> 20) {
        Ok(leading) => ((i128::from(leading) * COARSE_RECIPROCAL) >> 64) as i64,
        Err(_) => 0,
    }
}

/// About a 2,400,000th of a number, which is nearly always right below 2^71; any number would do,
/// since it is tested.
#[inline(always)]
fn guess(top: i128) -> i64 {
    match i64::try_from(top >> 8) {
        Ok(leading) => ((i128::from(leading) * RECIPROCAL) >> 64) as i64,
        Err(_) => coarse_guess(top),
    }
}

/// What a number leaves over a quotient by 2,400,000.
#[inline(always)]
fn rest_of(top: i128, quotient: i64) -> i128
    requires { unsigned_abs top ≤ 10 ^ 26 }
    ensures { result ≡ top -ℤ (quotient *ℤ pos 2400000) }
{
    top - i128::from(quotient) * PARTS
}

/// A number over 2,400,000, rounded down. It is guessed and then tested, since a division of 128
/// bits takes many times as long.
fn quotient_down(top: i128) -> i128
    requires { unsigned_abs top ≤ 10 ^ 26 }
    ensures { result ≡ int_div_euclid top (pos 2400000) }
{
    let quotient = guess(top);
    if is_rest(rest_of(top, quotient), PARTS) {
        return i128::from(quotient);
    }
    if let Some(next) = quotient.checked_add(1) {
        if is_rest(rest_of(top, next), PARTS) {
            return i128::from(next);
        }
    }
    top.div_euclid(PARTS)
}

/// A 2,400,000th of 41 times a number, rounded down. Its whole 2,400,000s and the rest are taken
/// apart, so that all products fit 64 bits.
#[inline(always)]
fn short_moment(top: u64) -> u64
    ensures value { result ≡ top * 41 / 2400000 }
    ensures within { result ≤ 2 ^ 60 }
{
    let rest = top % 2_400_000;
    top / 2_400_000 * 41 + rest * 41 / 2_400_000
}

/// 41 times a number.
#[inline(always)]
fn times_41(top: i128) -> i128
    requires { unsigned_abs top ≤ 10 ^ 24 }
    ensures value { result ≡ top *ℤ pos 41 }
    ensures within { unsigned_abs result ≤ 10 ^ 26 }
{
    top * 41
}

/// A moment in 64 bits, which are enough for each that a hull of these sizes can have.
#[inline(always)]
fn narrow(moment: i128) -> i64
    requires { unsigned_abs moment ≤ 4 * 10 ^ 18 }
    ensures value { result ≡ moment }
    ensures within { unsigned_abs result ≤ 4 * 10 ^ 18 }
{
    moment as i64
}

/// The same of a number that is below 0 or doesn't fit 64 bits, which is rare.
#[cold]
#[inline(never)]
fn long_moment(top: i128) -> i64
    requires { unsigned_abs top ≤ 2 * 10 ^ 23 }
    ensures value { result ≡ int_div_euclid (top *ℤ pos 41) (pos 2400000) }
    ensures within { unsigned_abs result ≤ 4 * 10 ^ 18 }
{
    narrow(quotient_down(times_41(top)))
}

/// A 2,400,000th of 41 times a number, rounded down.
#[inline(always)]
fn moment_of(top: i128) -> i64
    requires { unsigned_abs top ≤ 2 * 10 ^ 23 }
    ensures value { result ≡ int_div_euclid (top *ℤ pos 41) (pos 2400000) }
    ensures within { unsigned_abs result ≤ 4 * 10 ^ 18 }
{
    match u64::try_from(top) {
        Ok(top) => narrow(i128::from(short_moment(top))),
        Err(_) => long_moment(top),
    }
}

/// The moment about `f`, of twice a volume and of six times its moment about the after
/// perpendicular.
#[inline(always)]
fn moment_top(f: i64, volume: i64, arm: i128) -> i128
    requires f_near { unsigned_abs f ≤ 10 ^ 6 }
    requires within { unsigned_abs volume ≤ 3 * 10 ^ 16 }
    requires arm_within { unsigned_abs arm ≤ 10 ^ 23 }
    ensures value { result ≡ ((pos 3 *ℤ f) *ℤ volume) -ℤ arm }
    ensures size { unsigned_abs result ≤ 2 * 10 ^ 23 }
{
    product(3 * f, volume) - arm
}

/// The moment of buoyancy about `f` in kg mm, rounded down, of twice a volume and of six times its
/// moment about the after perpendicular.
pub fn buoyancy_moment(f: i64, volume: i64, arm: i128) -> i64
    requires f_near { unsigned_abs f ≤ 10 ^ 6 }
    requires within { unsigned_abs volume ≤ 3 * 10 ^ 16 }
    requires arm_within { unsigned_abs arm ≤ 10 ^ 23 }
    ensures value { IsMoment result f volume arm }
    ensures size { unsigned_abs result ≤ 4 * 10 ^ 18 }
{
    // 1025 / 60,000,000 is 41 / 2,400,000.
    moment_of(moment_top(f, volume, arm))
}
