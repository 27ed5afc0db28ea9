//! Masses aboard of a ship, added up.
ghost use Rattle.std.specs.Prelude.{◌^◌, ◌≤◌, IfOk, unsigned_abs};
ghost use Rattle.moment_sums.specs.Bounded.{IsBounded};
ghost use Rattle.moment_sums.specs.Kept.{values};
ghost use Rattle.moment_sums.specs.Sum.{Weight};

use moment_sums::Totals;
use prefix_scan::Monoid;
use ship_profile::Profile;
use std::test::Fail;
use units_core::{Body, Mm, Place};

/// A mass in kg, where its centre is, x, y and z in mm, and half its length.
pub type Mass = (u32, [i32; 4]);

/// The box ship without cargo.
pub const BLOCK: Mass = (8_200_000, [50_000, 0, 6_000, 50_000]);

/// The length of this number of millimetres.
pub fn length(mm: i32) -> Result<Mm, Fail> {
    Ok(Mm::new(mm).ok_or("a length")?)
}

/// A body of a mass.
fn body(mass: Mass) -> Result<Body, Fail> {
    let (kg, [x, y, z, half]) = mass;
    let place = Place {
        x: length(x)?,
        y: length(y)?,
        z: length(z)?,
        half: length(half)?,
    };
    Ok(Body::new(kg, place, 0).ok_or("a body")?)
}

/// The sum, where the bodies of a ship can add up to it.
fn check_bounds(sum: Totals) -> Result<Totals, Fail>
    ensures bounded { IfOk result (λ t. IsBounded (values t)) }
    ensures kg { IfOk result (λ t. unsigned_abs (values t Weight) ≤ 10 ^ 9) }
{
    if !sum.is_bounded() {
        return Err("not the bodies of a ship")?;
    }
    if sum.kg() > 1_000_000_000 {
        return Err("too heavy")?;
    }
    Ok(sum)
}

/// Masses aboard of a ship, added up.
pub fn sum_of(profile: &Profile, masses: &[Mass]) -> Result<Totals, Fail>
    ensures bounded { IfOk result (λ t. IsBounded (values t)) }
    ensures kg { IfOk result (λ t. unsigned_abs (values t Weight) ≤ 10 ^ 9) }
{
    let mut sum = Totals::unit();
    for mass in masses {
        let more = Totals::of(&body(*mass)?, profile.frames());
        if sum.size() > 1_000 || more.size() > 1_000 {
            return Err("few masses")?;
        }
        sum = sum.join(&more);
    }
    check_bounds(sum)
}
