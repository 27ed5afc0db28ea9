ghost use Rattle.std.specs.Prelude.{◌≡◌, ◌^◌, ◌≤◌, None, MatchOption, length, unsigned_abs};
ghost use Rattle.moment_sums.specs.Bounded.{IsBounded};
ghost use Rattle.moment_sums.specs.Kept.{values};
ghost use Rattle.moment_sums.specs.Sum.{Weight};
ghost use Rattle.hydrostat.specs.Floating.{load, water};
ghost use Rattle.strength.specs.Hull.{IsHullOf};
ghost use Rattle.strength.specs.Immersed.{areas_along};
ghost use Rattle.strength.specs.Running.{AreAreasIf, AreStrainsBy, AreStrainsIf};

use crate::hulls::Hull;
use crate::immersed::{area_near, set_areas_in_row};
use crate::loads::Strains;
use crate::rows::BonjeanRow;
use crate::strains::set_strains;
use crate::sums::set_sums;
use crate::walks::Walk;
use hydrostat::DraughtLine;
use moment_sums::Totals;
use ship_profile::Profile;

/// Sets the immersed areas at all stations; `false` where the draught at some station, rounded
/// down, lies outside of the Bonjean table. Each draught is looked for first in the row of the one
/// before, and the first of all in the row where the first one of the last condition was.
#[inline(always)]
fn set_areas(profile: &Profile, line: &DraughtLine, walk: &mut Walk) -> bool
    ensures { AreAreasIf result walk.new.areas (areas_along profile.now (water line.now.of)
        (load line.now.of) line.now.of.lbp) (length profile.now.ship.stations) }
{
    let stations = profile.stations();
    let mut row = BonjeanRow::near(profile, walk.row);
    let Some(area) = area_near(profile, line, 0, stations[0], &mut row) else {
        return false;
    };
    walk.areas[0] = area;
    walk.row = row.number;
    let mut k = 1;
    while k < stations.len() {
        k = set_areas_in_row(profile, line, row, k, &mut walk.areas);
        if k == stations.len() {
            return true;
        }
        let Some(area) = area_near(profile, line, k, stations[k], &mut row) else {
            return false;
        };
        walk.areas[k] = area;
        k += 1;
    }
    true
}

/// Works out the loads on the hull of a ship with this aboard, in kg and kg mm, by the draughts at
/// her stations; `false` where the draught at some station, rounded down, lies outside of the
/// Bonjean table, and the loads may then be any. They are written where they are, since a move of
/// them is a copy of 500 bytes.
#[inline(never)]
pub fn strains_into(
    profile: &Profile,
    hull: &Hull,
    totals: &Totals,
    line: &DraughtLine,
    walk: &mut Walk,
    strains: &mut Strains,
) -> bool
    requires of { IsHullOf hull.now profile.now.ship }
    requires bounded { IsBounded (values totals.now) }
    requires kg { unsigned_abs (values totals.now Weight) ≤ 10 ^ 9 }
    ensures { AreStrainsIf result strains.new (values totals.now)
        (areas_along profile.now (water line.now.of) (load line.now.of) line.now.of.lbp)
        profile.now.ship }
{
    if !set_areas(profile, line, walk) {
        return false;
    }
    set_sums(profile, walk);
    set_strains(profile, hull, totals, walk, strains);
    true
}

/// The loads on the hull of a ship with this aboard, as [`strains_into`] works them out; `None`
/// where the draught at some station, rounded down, lies outside of the Bonjean table.
pub fn strains_along(
    profile: &Profile,
    hull: &Hull,
    totals: &Totals,
    line: &DraughtLine,
    walk: &mut Walk,
) -> Option<Strains>
    requires of { IsHullOf hull.now profile.now.ship }
    requires bounded { IsBounded (values totals.now) }
    requires kg { unsigned_abs (values totals.now Weight) ≤ 10 ^ 9 }
    ensures { MatchOption result
        (areas_along profile.now (water line.now.of) (load line.now.of) line.now.of.lbp ≡ None)
        (λ r. AreStrainsBy r (values totals.now)
        (areas_along profile.now (water line.now.of) (load line.now.of) line.now.of.lbp)
        profile.now.ship) }
{
    let mut strains = Strains::default();
    if strains_into(profile, hull, totals, line, walk, &mut strains) {
        Some(strains)
    } else {
        None
    }
}
