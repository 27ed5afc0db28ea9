ghost use Rattle.std.specs.Prelude.{◌≡◌, ◌^◌, ◌*◌, ◌≤◌, ◌+ℤ◌, ◌*ℤ◌, pos, true, length};
ghost use Rattle.std.specs.Prelude.{unsigned_abs};
ghost use Rattle.units_core.specs.Interpolation.{IsWithin};
ghost use Rattle.moment_sums.specs.Changes.{AreShared, signed};
ghost use Rattle.moment_sums.specs.Shares.{moment_aft, weight_aft};

use crate::shares::share_at;
use units_core::{Body, Frames, Mm};

/// A number with what is put in or taken out.
#[inline(always)]
pub fn add_or_take(number: i128, part: i64, taken: bool) -> i128
    requires number { unsigned_abs number ≤ 10 ^ 30 }
    requires part { unsigned_abs part ≤ 10 ^ 18 }
    ensures { result ≡ number +ℤ signed taken part }
{
    if taken {
        return number + i128::from(-part);
    }
    number + i128::from(part)
}

/// A mass in kg with what is put in or taken out.
#[inline(always)]
fn add_or_take_mass(mass: i64, part: i64, taken: bool) -> i64
    requires mass { unsigned_abs mass ≤ 10 ^ 18 }
    requires part { unsigned_abs part ≤ 10 ^ 9 }
    ensures { result ≡ mass +ℤ signed taken part }
{
    if taken {
        return mass - part;
    }
    mass + part
}

/// The moment of a body at the end of an arm, in kg mm.
#[inline(always)]
pub fn moment_of(body: &Body, arm: Mm) -> i64
    ensures value { result ≡ pos body.now.kg *ℤ arm }
    ensures within { unsigned_abs result ≤ 10 ^ 15 }
{
    i64::from(body.kg()) * i64::from(arm.get())
}

/// The free surface moment of a body, in kg mm.
#[inline(always)]
pub fn surface_of(body: &Body) -> i64
    ensures value { result ≡ body.now.fsm }
    ensures within { unsigned_abs result ≤ 10 ^ 12 }
{
    body.fsm()
}

/// Changes the masses aft of the frames and the moments of these by a body that is put in or taken
/// out, in one pass over the frames.
#[inline(always)]
pub fn change_shares(
    weights: &mut [i64; 16],
    moments: &mut [i128; 16],
    body: &Body,
    frames: &Frames,
    taken: bool,
)
    requires weights_near { IsWithin (10 ^ 17) weights.old }
    requires moments_near { IsWithin (10 ^ 29) moments.old }
    ensures weights { AreShared weight_aft (10 ^ 9) taken frames.now body.now
        weights.old weights.new }
    ensures moments { AreShared moment_aft (2 * 10 ^ 15) taken frames.now body.now
        moments.old moments.new }
    ensures few { length frames.now ≤ 16 }
{
    // A copy of its own stays in registers while the rows are written.
    let body = *body;
    let list = frames.as_slice();
    for i in 0..list.len() {
        let Some(share) = share_at(&body, list[i].x) else {
            continue;
        };
        weights[i] = add_or_take_mass(weights[i], share.weight, taken);
        moments[i] = add_or_take(moments[i], share.moment, taken);
    }
}
