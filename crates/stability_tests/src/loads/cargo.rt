//! What is aboard of the box ship, and how she floats with it.
ghost use Rattle.std.specs.Prelude.{◌^◌, ◌≤◌, IfOk, unsigned_abs};
ghost use Rattle.moment_sums.specs.Bounded.{IsBounded};
ghost use Rattle.moment_sums.specs.Kept.{values};
ghost use Rattle.moment_sums.specs.Sum.{Weight};
ghost use Rattle.strength.specs.Loads.{IsFloatingWith};

use crate::masses::{BLOCK, sum_of};
use hydrostat::{Floating, floating_of};
use moment_sums::Totals;
use ship_profile::Profile;
use std::test::Fail;

/// A container amidships across the ship, of 6,058 mm.
#[derive(Clone, Copy)]
pub struct Container {
    pub kg: u32,
    pub x: i32,
}

/// The box ship with a container.
pub fn totals_with(profile: &Profile, container: Container) -> Result<Totals, Fail>
    ensures bounded { IfOk result (λ t. IsBounded (values t)) }
    ensures kg { IfOk result (λ t. unsigned_abs (values t Weight) ≤ 10 ^ 9) }
{
    let cargo = (container.kg, [container.x, 0, 10_000, 3_029]);
    sum_of(profile, &[BLOCK, cargo])
}

/// How the box ship floats with this aboard.
pub fn floating(profile: &Profile, sum: &Totals) -> Result<Floating, Fail>
    requires bounded { IsBounded (values sum.now) }
    ensures { IfOk result (λ f. IsFloatingWith f profile.now (values sum.now)) }
{
    match floating_of(profile, sum) {
        Ok(floating) => Ok(floating),
        Err(_) => Err("outside of the hydrostatic table")?,
    }
}
