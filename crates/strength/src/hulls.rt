ghost use Rattle.std.specs.Prelude.{◌≡◌, ℕ, ◌*◌, ◌^◌, ◌<◌, ◌≤◌, IfSome, get_or, length};
ghost use Rattle.std.specs.Prelude.{slice_get, unsigned_abs};
ghost use Rattle.units_core.specs.Interpolation.{at, IsWithin};
ghost use Rattle.strength.specs.Buoyancy.{intervals_aft};
ghost use Rattle.strength.specs.Hull.{no_weight, weight_aft, AreAft, AreWithin, IsHullOf};

use crate::stations::intervals_aft;
use crate::sums::weight_aft;
use ship_profile::{Profile, StationWeight};
use std::marker::Model;
use units_core::Mm;

/// What the loads take of a ship's profile alone, worked out once for all that she has aboard one
/// after another.
#[derive(Clone, Copy, Drop)]
pub struct Hull {
    /// How many intervals between stations lie wholly aft of each frame; 0 at the places behind
    /// them.
    aft: [usize; 16],
    /// By what the area at the station that ends the last of them counts there, in the same way.
    weights: [StationWeight; 16],
}

impl Model for Hull {
    ghost use Rattle.strength.specs.Hull.{HullRecord, IsHull};

    ghost Value = { HullRecord };

    ghost view = { λ h. record { aft = h.aft; weights = h.weights } };

    ghost invariant = { λ h. IsHull h.aft h.weights };

    ghost inverse = { λ v. record { aft = v.aft; weights = v.weights } };
}

/// How many intervals between stations lie wholly aft of each frame, and 0 at the places behind the
/// last frame.
fn frames_aft(profile: &Profile) -> [usize; 16]
    ensures value { AreAft result profile.now.ship.stations profile.now.ship.frames }
    ensures inside { (i : ℕ) → get_or result i 0 < length profile.now.ship.stations }
    ensures few { (i : ℕ) → get_or result i 0 ≤ 63 }
{
    let stations = profile.stations();
    let frames = profile.frames().as_slice();
    let mut aft = [0; 16];
    for i in 0..frames.len() {
        aft[i] = intervals_aft(stations, frames[i].x);
    }
    aft
}

/// By what the area behind so many intervals counts in the last of them, for each such number.
fn weights_aft(stations: &[Mm], aft: &[usize; 16]) -> [StationWeight; 16]
    requires { (i : ℕ) → get_or aft.now i 0 < length stations.now }
    ensures value { (i : ℕ) → i < 16
        → get_or result i no_weight ≡ weight_aft (at stations.now) (get_or aft.now i 0) }
    ensures within { AreWithin result }
{
    let mut weights = [StationWeight {
        volume: 0,
        moment: 0,
    }; 16];
    for i in 0..16usize {
        weights[i] = weight_aft(stations, aft[i]);
    }
    weights
}

impl Hull {
    /// What the loads take of this profile.
    pub fn new(profile: &Profile) -> Hull
        ensures { IsHullOf result profile.now.ship }
    {
        let aft = frames_aft(profile);
        Hull {
            aft,
            weights: weights_aft(profile.stations(), &aft),
        }
    }

    /// How many intervals between stations lie wholly aft of a frame.
    pub fn intervals_aft(&self, frame: usize) -> usize
        requires { frame < 16 }
        ensures value { result ≡ get_or self.now.aft frame 0 }
        ensures few { result ≤ 63 }
    {
        self.aft[frame]
    }

    /// By what the area at the station that ends the last of these intervals counts there; 0 where
    /// there is none.
    #[inline(always)]
    pub(crate) fn last_weight(&self, frame: usize) -> StationWeight
        requires { frame < 16 }
        ensures value { result ≡ get_or self.now.weights frame no_weight }
        ensures volume_size { unsigned_abs result.volume ≤ 2 * 10 ^ 6 }
        ensures moment_size { unsigned_abs result.moment ≤ 12 * 10 ^ 12 }
    {
        self.weights[frame]
    }
}
