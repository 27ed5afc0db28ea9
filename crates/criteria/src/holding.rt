ghost use Rattle.std.specs.Prelude.{◌≡◌, ◌<◌, ℕ, slice_get, Some};
ghost use Rattle.units_core.specs.Ratio.{Ratio};
ghost use Rattle.criteria.specs.Criteria.{criteria, holds};
ghost use Rattle.criteria.specs.Exact.{condition_by};
ghost use Rattle.criteria.specs.Least.{IsLeast};
ghost use Rattle.criteria.specs.Measures.{AreMeasures};
ghost use Rattle.criteria.specs.Met.{IsFirstNotMet, IsHeld};

use crate::criterion::Criterion;
use crate::decisions::{draughts_hold, is_stiff, least_holds, list_holds};
use crate::exact::Exact;
use crate::frames::{bending_holds, shear_holds};
use crate::levers::{lever_reaches, peaks_from};
use crate::measures::CurveMeasures;
use hydrostat::Afloat;
use righting::area_holds;
use ship_profile::Profile;
use strength::Strains;
use units_core::Frac;

/// The least area under the righting levers from 0 to 30 degrees (C2), in millionths of a
/// metre-degree: 0.055 metre-radians, times 180 / pi and rounded up (3,151,267.9).
const AREA_TO_30_MIN: i128 = 3_151_268;

/// The least area from 0 to 40 degrees (C3): 0.09 metre-radians, rounded up (5,156,620.2).
const AREA_TO_40_MIN: i128 = 5_156_621;

/// The least area from 30 to 40 degrees (C4): 0.03 metre-radians, rounded up (1,718,873.4).
const AREA_30_TO_40_MIN: i128 = 1_718_874;

/// The least that the greatest lever from 30 to 60 degrees may be (C5), in mm.
const LEVER_MIN: i128 = 200;

/// The least angle that carries the greatest of all levers (C6), in steps of 5 degrees.
const PEAK_MIN: usize = 5;

/// The criterion of a number, the first being 0. A `match` in the order of the variants is compiled
/// to the number itself, where a table of them would be copied for each look-up.
fn criterion_at(k: usize) -> Criterion
    requires { k < 12 }
    ensures { slice_get criteria k ≡ Some result }
{
    match k {
        0 => Criterion::C0,
        1 => Criterion::C1,
        2 => Criterion::C2,
        3 => Criterion::C3,
        4 => Criterion::C4,
        5 => Criterion::C5,
        6 => Criterion::C6,
        7 => Criterion::C7,
        8 => Criterion::C8,
        9 => Criterion::C9,
        10 => Criterion::C10,
        _ => Criterion::C11,
    }
}

/// Whether a criterion holds of a condition within the ship's tables.
fn holds(
    profile: &Profile,
    a: &Afloat,
    curve: &CurveMeasures,
    strains: &Strains,
    least: Option<Frac>,
    criterion: Criterion,
) -> bool
    requires length { a.now.lbp ≡ profile.now.ship.lbp }
    requires least { IsLeast least }
    ensures { IsHeld result profile.now.ship a.now curve.now strains.now least criterion }
{
    match criterion {
        Criterion::C0 => true,
        Criterion::C1 => is_stiff(a),
        Criterion::C2 => area_holds(curve.sum_30, AREA_TO_30_MIN),
        Criterion::C3 => area_holds(curve.sum_40, AREA_TO_40_MIN),
        Criterion::C4 => area_holds(curve.sum_30_40, AREA_30_TO_40_MIN),
        Criterion::C5 => lever_reaches(curve, LEVER_MIN),
        Criterion::C6 => peaks_from(curve, PEAK_MIN),
        Criterion::C7 => list_holds(a, i128::from(profile.list_max())),
        Criterion::C8 => {
            let most = i128::from(profile.draught_max().get());
            draughts_hold(a, most, i128::from(profile.trim_max().get()))
        }
        Criterion::C9 => shear_holds(profile.frames().as_slice(), &strains.shear),
        Criterion::C10 => bending_holds(profile.frames().as_slice(), &strains.bending),
        Criterion::C11 => least_holds(a, least),
    }
}

/// Whether a condition within the ship's tables meets a criterion, whatever else it meets. Its
/// loads are beside its exact numbers.
pub fn is_met(profile: &Profile, exact: &Exact, strains: &Strains, criterion: Criterion) -> bool
    requires length { exact.now.afloat.lbp ≡ profile.now.ship.lbp }
    requires least { IsLeast exact.now.least }
    ensures { (y : ℕ → Ratio) → AreMeasures exact.now.curve y → result
        ≡ holds profile.now.ship (condition_by exact.now y strains.now) criterion }
{
    holds(
        profile,
        &exact.afloat,
        &exact.curve,
        strains,
        exact.least,
        criterion,
    )
}

/// The first criterion that doesn't hold of a condition within the ship's tables.
pub fn first_not_met(
    profile: &Profile,
    a: &Afloat,
    curve: &CurveMeasures,
    strains: &Strains,
    least: Option<Frac>,
) -> Option<Criterion>
    requires length { a.now.lbp ≡ profile.now.ship.lbp }
    requires least { IsLeast least }
    ensures { IsFirstNotMet result profile.now.ship a.now curve.now strains.now least }
{
    for k in 0..12usize {
        let criterion = criterion_at(k);
        if !holds(profile, a, curve, strains, least, criterion) {
            return Some(criterion);
        }
    }
    None
}
