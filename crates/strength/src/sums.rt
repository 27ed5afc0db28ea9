ghost use Rattle.std.specs.Prelude.{◌≡◌, ℕ, ℤ, ◌*◌, ◌-◌, ◌^◌, ◌<◌, ◌≤◌, ◌+ℤ◌, ◌-ℤ◌, ◌*ℤ◌, pos};
ghost use Rattle.std.specs.Prelude.{length, unsigned_abs};
ghost use Rattle.units_core.specs.Interpolation.{at};
ghost use Rattle.strength.specs.Buoyancy.{arm_top, force_top, tops};
ghost use Rattle.strength.specs.Hull.{weight_aft};
ghost use Rattle.strength.specs.Running.{AreSums};

use crate::stations::mm;
use crate::walks::Walk;
use ship_profile::{Profile, StationWeight};
use units_core::Mm;

/// What an area counts in twice a volume.
#[inline(always)]
fn volume_by(area: i64, weight: i64) -> i64
    requires area { unsigned_abs area ≤ 10 ^ 8 }
    requires weight { unsigned_abs weight ≤ 2 * 10 ^ 6 }
    ensures value { result ≡ area *ℤ weight }
    ensures size { unsigned_abs result ≤ 2 * 10 ^ 14 }
{
    area * weight
}

/// What an area counts in six times a moment, which takes more than 64 bits.
#[inline(always)]
fn moment_by(area: i64, weight: i64) -> i128
    requires area { unsigned_abs area ≤ 10 ^ 8 }
    requires weight { unsigned_abs weight ≤ 12 * 10 ^ 12 }
    ensures value { result ≡ area *ℤ weight }
    ensures size { unsigned_abs result ≤ 12 * 10 ^ 20 }
{
    i128::from(area) * i128::from(weight)
}

/// Adds up the areas of a walk along all stations.
#[inline(always)]
pub fn set_sums(profile: &Profile, walk: &mut Walk)
    requires areas { (k : ℕ) → k < length profile.now.ship.stations
        → unsigned_abs (at walk.now.areas k) ≤ 10 ^ 8 }
    ensures areas { walk.new.areas ≡ walk.old.areas }
    ensures sums { AreSums walk.new.areas walk.new.volumes walk.new.moments
        (at profile.now.ship.stations) (length profile.now.ship.stations - 1) }
{
    let weights = profile.sections().weights();
    let mut volume = 0;
    let mut moment = 0;
    walk.volumes[0] = 0;
    walk.moments[0] = 0;
    for k in 0..weights.len() {
        let area = walk.areas[k];
        volume += volume_by(area, weights[k].volume);
        moment += moment_by(area, weights[k].moment);
        walk.volumes[k + 1] = volume;
        walk.moments[k + 1] = moment;
    }
}

/// By what the area at a station counts in the interval aft of it; 0 at the first station.
pub fn weight_aft(stations: &[Mm], n: usize) -> StationWeight
    requires { n < length stations.now }
    ensures value { result ≡ weight_aft (at stations.now) n }
    ensures volume_size { unsigned_abs result.volume ≤ 2 * 10 ^ 6 }
    ensures moment_size { unsigned_abs result.moment ≤ 12 * 10 ^ 12 }
{
    let x = mm(stations[n]);
    let before = mm(stations[n.saturating_sub(1)]);
    StationWeight {
        volume: x - before,
        moment: (x - before) * (2 * x + before),
    }
}

/// Twice the volume of the first `n` intervals between stations, by what the area behind them
/// counts in the last one. The stations are for the contract alone.
#[inline(always)]
pub fn volume_aft(_stations: &[Mm], walk: &Walk, n: usize, weight: i64) -> i64
    requires inside { n < length _stations.now }
    requires few { length _stations.now ≤ 64 }
    requires weight { weight ≡ at _stations.now n -ℤ at _stations.now (n - 1) }
    requires weight_size { unsigned_abs weight ≤ 2 * 10 ^ 6 }
    requires sums { AreSums walk.now.areas walk.now.volumes walk.now.moments (at _stations.now)
        (length _stations.now - 1) }
    ensures value { (areas : ℕ → ℤ) → ((k : ℕ) → k ≤ n → at walk.now.areas k ≡ areas k)
        → result ≡ tops (force_top (at _stations.now) areas) n }
    ensures size { unsigned_abs result ≤ 3 * 10 ^ 16 }
{
    walk.volumes[n] + volume_by(walk.areas[n], weight)
}

/// Six times the moment of that volume about the after perpendicular.
#[inline(always)]
pub fn arm_aft(_stations: &[Mm], walk: &Walk, n: usize, weight: i64) -> i128
    requires inside { n < length _stations.now }
    requires few { length _stations.now ≤ 64 }
    requires weight { weight ≡ (at _stations.now n -ℤ at _stations.now (n - 1))
        *ℤ ((pos 2 *ℤ at _stations.now n) +ℤ at _stations.now (n - 1)) }
    requires weight_size { unsigned_abs weight ≤ 12 * 10 ^ 12 }
    requires sums { AreSums walk.now.areas walk.now.volumes walk.now.moments (at _stations.now)
        (length _stations.now - 1) }
    ensures value { (areas : ℕ → ℤ) → ((k : ℕ) → k ≤ n → at walk.now.areas k ≡ areas k)
        → result ≡ tops (arm_top (at _stations.now) areas) n }
    ensures size { unsigned_abs result ≤ 10 ^ 23 }
{
    walk.moments[n] + moment_by(walk.areas[n], weight)
}
