ghost use Rattle.std.specs.Prelude.{◌≡◌, ℕ, ◌-◌, ◌^◌, ◌<◌, ◌≤◌, ℤ, ◌-ℤ◌, unsigned_abs, length, ◌*◌};
ghost use Rattle.units_core.specs.Interpolation.{at};
ghost use Rattle.moment_sums.specs.Bounded.{IsBounded};
ghost use Rattle.moment_sums.specs.Kept.{values};
ghost use Rattle.moment_sums.specs.Sum.{Weight};
ghost use Rattle.strength.specs.Hull.{IsHullOf};
ghost use Rattle.strength.specs.Running.{AreStrains, AreSums};

use crate::forces::{buoyancy, buoyancy_moment};
use crate::hulls::Hull;
use crate::loads::Strains;
use crate::stations::mm;
use crate::sums::{arm_aft, volume_aft, weight_aft};
use crate::walks::Walk;
use moment_sums::Totals;
use ship_profile::Profile;

/// A mass in kg, or a moment in kg mm, of what is aboard, in 64 bits.
#[inline(always)]
fn narrow(number: i128) -> i64
    requires { unsigned_abs number ≤ 10 ^ 16 }
    ensures value { result ≡ number }
    ensures within { unsigned_abs result ≤ 10 ^ 16 }
{
    number as i64
}

/// A difference.
#[inline(always)]
fn minus(one: i64, other: i64) -> i64
    requires one { unsigned_abs one ≤ 10 ^ 16 }
    requires other { unsigned_abs other ≤ 4 * 10 ^ 18 }
    ensures { result ≡ one -ℤ other }
{
    one - other
}

/// Sets the loads on the hull with this aboard, by the areas and the sums of a walk along all
/// stations.
#[inline(always)]
pub fn set_strains(
    profile: &Profile,
    hull: &Hull,
    totals: &Totals,
    walk: &Walk,
    strains: &mut Strains,
)
    requires of { IsHullOf hull.now profile.now.ship }
    requires bounded { IsBounded (values totals.now) }
    requires kg { unsigned_abs (values totals.now Weight) ≤ 10 ^ 9 }
    requires sums { AreSums walk.now.areas walk.now.volumes walk.now.moments
        (at profile.now.ship.stations) (length profile.now.ship.stations - 1) }
    ensures { (areas : ℕ → ℤ)
        → ((k : ℕ) → k < length profile.now.ship.stations → at walk.now.areas k ≡ areas k)
        → AreStrains strains.new (values totals.now) areas profile.now.ship }
{
    let stations = profile.stations();
    let frames = profile.frames().as_slice();
    *strains = Strains {
        shear: [0; 16],
        bending: [0; 16],
        closing: 0,
    };
    for i in 0..frames.len() {
        let n = hull.intervals_aft(i);
        let counts = hull.last_weight(i);
        let volume = volume_aft(stations, walk, n, counts.volume);
        let arm = arm_aft(stations, walk, n, counts.moment);
        let weight = narrow(totals.weight_aft(i));
        let moment = narrow(totals.moment_aft(i));
        strains.shear[i] = minus(weight, buoyancy(volume));
        strains.bending[i] = minus(moment, buoyancy_moment(mm(frames[i].x), volume, arm));
    }
    let last = stations.len() - 1;
    let counts = weight_aft(stations, last);
    let volume = volume_aft(stations, walk, last, counts.volume);
    strains.closing = minus(buoyancy(volume), narrow(totals.kg()));
}
