ghost use Rattle.std.specs.Prelude.{◌≡◌, ◌^◌, ◌≤◌, unsigned_abs};
ghost use Rattle.units_core.specs.Interpolation.{at};
ghost use Rattle.moment_sums.specs.Bounded.{IsBounded};
ghost use Rattle.moment_sums.specs.Kept.{values};
ghost use Rattle.moment_sums.specs.Sum.{Weight};
ghost use Rattle.hydrostat.specs.Floating.{load, water};
ghost use Rattle.strength.specs.Immersed.{areas_along};
ghost use Rattle.strength.specs.Loads.{AreLoadsAt, AreLoadsBy, AreLoadsOf, AreStrainsOr};
ghost use Rattle.strength.specs.Loads.{IsFloatingWith};

use crate::aboard::strains_along;
use crate::closing::closes;
use crate::hulls::Hull;
use crate::loads::{FrameLoad, Loads, Strains};
use crate::walks::Walk;
use arrayvec::ArrayVec;
use hydrostat::{Afloat, DraughtLine, Floating, Outside};
use moment_sums::Totals;
use ship_profile::Profile;

/// The loads on the hull of a ship afloat, by the numbers of her frames: [`Outside::Bonjean`] where
/// the draught at some station, rounded down, lies outside of the Bonjean table,
/// [`Outside::Closing`] where buoyancy and displacement differ by more than her limit.
pub fn strains_afloat(
    profile: &Profile,
    totals: &Totals,
    afloat: &Afloat,
) -> Result<Strains, Outside>
    requires bounded { IsBounded (values totals.now) }
    requires kg { unsigned_abs (values totals.now Weight) ≤ 10 ^ 9 }
    ensures { AreStrainsOr result (values totals.now) (areas_along profile.now (water afloat.now)
        (load afloat.now) afloat.now.lbp) profile.now.ship }
{
    let line = DraughtLine::new(afloat);
    let mut walk = Walk::default();
    let Some(strains) = strains_along(profile, &Hull::new(profile), totals, &line, &mut walk) else {
        return Err(Outside::Bonjean);
    };
    if closes(strains.closing, profile.closing_max()) {
        Ok(strains)
    } else {
        Err(Outside::Closing)
    }
}

impl Strains {
    /// The loads at the first `frames` frames, and the closing error.
    pub fn loads(&self, frames: usize) -> Loads
        requires few { frames ≤ 16 }
        ensures { AreLoadsAt result (λ i. at self.now.shear i) (λ i. at self.now.bending i) frames
            self.now.closing }
    {
        let mut list = ArrayVec::new();
        for i in 0..frames {
            list.push(FrameLoad {
                shear: i128::from(self.shear[i]),
                bending: i128::from(self.bending[i]),
            });
        }
        Loads {
            frames: list,
            closing: i128::from(self.closing),
        }
    }
}

/// The loads at the frames of a ship afloat, as [`loads_of`] answers them.
fn loads_afloat(profile: &Profile, totals: &Totals, afloat: &Afloat) -> Result<Loads, Outside>
    requires bounded { IsBounded (values totals.now) }
    requires kg { unsigned_abs (values totals.now Weight) ≤ 10 ^ 9 }
    ensures { AreLoadsBy result (values totals.now) (areas_along profile.now (water afloat.now)
        (load afloat.now) afloat.now.lbp) profile.now.ship }
{
    match strains_afloat(profile, totals, afloat) {
        Ok(strains) => Ok(strains.loads(profile.frames().as_slice().len())),
        Err(outside) => Err(outside),
    }
}

/// The loads on the hull with this aboard, and floating so; [`Outside::Bonjean`] where the draught
/// at some station, rounded down, lies outside of the Bonjean table, [`Outside::Closing`] where
/// buoyancy and displacement differ by more than the ship's limit.
pub fn loads_of(profile: &Profile, totals: &Totals, floating: &Floating) -> Result<Loads, Outside>
    requires bounded { IsBounded (values totals.now) }
    requires floating { IsFloatingWith floating.now profile.now (values totals.now) }
    ensures { AreLoadsOf result profile.now (values totals.now) }
{
    loads_afloat(profile, totals, &floating.afloat)
}
