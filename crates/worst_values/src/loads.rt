//! The worst load of a condition, by its part of the limit at its frame.
ghost use Rattle.std.specs.Prelude.{◌≡◌, ◌≤◌, length, pos, neg_ℤ, unsigned_abs, option_map};
ghost use Rattle.units_core.specs.Interpolation.{at};
ghost use Rattle.worst_values.specs.Limits.{bending_limit, bendings, part_of, shears};
ghost use Rattle.worst_values.specs.Worst.{candidate_of, worst_of};

use crate::joining::worst_in;
use crate::values::Value;
use ship_profile::Frame;
use units_core::Frac;

/// The size of a number with a minus before it, which every number of the type has.
#[inline(always)]
pub fn size_below(n: i128) -> i128
    ensures { result ≡ neg_ℤ (pos (unsigned_abs n)) }
{
    if n < 0 { n } else { -n }
}

/// How safe a load is by a limit.
#[inline(always)]
pub fn part_of(load: i64, limit: i64, step: u32, place: u32) -> Value
    ensures { candidate_of result
        ≡ record { step = step; place = place; safety = part_of load limit } }
{
    if 0 < limit {
        return Value {
            step,
            place,
            beyond: false,
            by: Frac {
                num: size_below(i128::from(load)),
                den: i128::from(limit),
            },
        };
    }
    if load == 0 {
        return Value {
            step,
            place,
            beyond: false,
            by: Frac { num: -1, den: 1 },
        };
    }
    Value {
        step,
        place,
        beyond: true,
        by: Frac {
            num: size_below(i128::from(load)),
            den: 1,
        },
    }
}

/// The worst shear force of the condition of a step; of several the aftermost.
pub fn worst_shear(frames: &[Frame], shear: &[i64; 16], step: u32) -> Option<Value>
    requires { length frames.now ≤ 16 }
    ensures { option_map candidate_of result
        ≡ worst_of (shears (λ i. at shear.now i) step frames.now 0) }
{
    let mut worst = None;
    for i in 0..frames.len() {
        worst = worst_in(
            worst,
            Some(part_of(shear[i], frames[i].shear_max, step, i as u32)),
        );
    }
    worst
}

/// The limit of a bending moment, by its sign.
#[inline(always)]
pub fn bending_limit(frame: &Frame, load: i64) -> i64
    ensures { result ≡ bending_limit frame.now load }
{
    if 0 <= load {
        frame.hog_max
    } else {
        frame.sag_max
    }
}

/// The worst bending moment of the condition of a step; of several the aftermost.
pub fn worst_bending(frames: &[Frame], bending: &[i64; 16], step: u32) -> Option<Value>
    requires { length frames.now ≤ 16 }
    ensures { option_map candidate_of result
        ≡ worst_of (bendings (λ i. at bending.now i) step frames.now 0) }
{
    let mut worst = None;
    for i in 0..frames.len() {
        let load = bending[i];
        worst = worst_in(
            worst,
            Some(part_of(load, bending_limit(&frames[i], load), step, i as u32)),
        );
    }
    worst
}
