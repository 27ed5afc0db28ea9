ghost use Rattle.std.specs.Prelude.{◌≡◌, ℕ, ◌≤◌, ◌*◌, ◌^◌, unsigned_abs};
ghost use Rattle.units_core.specs.Ratio.{Ratio};
ghost use Rattle.righting.specs.Levers.{AreOrdinates, greatest_of};
ghost use Rattle.criteria.specs.Criteria.{is_from, reaches_at};
ghost use Rattle.criteria.specs.Measures.{AreMeasures};

use crate::decisions::reaches;
use crate::measures::CurveMeasures;
use righting::{Levers, area_sums, greatest_levers};

/// The measures of a curve of levers.
pub fn measures_of(levers: &Levers) -> CurveMeasures
    ensures { (y : ℕ → Ratio) → AreOrdinates levers.now.num levers.now.den y
        → AreMeasures result y }
{
    let areas = area_sums(levers);
    let peaks = greatest_levers(levers);
    CurveMeasures {
        sum_30: areas.to_30,
        sum_40: areas.to_40,
        sum_30_40: areas.from_30,
        best: peaks.best,
        greatest: peaks.greatest,
    }
}

/// Whether the greatest lever from 30 to 60 degrees is at least a limit, in mm.
pub fn lever_reaches(curve: &CurveMeasures, limit: i128) -> bool
    requires { unsigned_abs limit ≤ 10 ^ 5 }
    ensures { (y : ℕ → Ratio) → AreMeasures curve.now y
        → result ≡ reaches_at y limit (greatest_of y 6 7) }
{
    reaches(curve.best, limit)
}

/// Whether the least angle of the greatest lever is `least` steps of 5 degrees, or more.
pub fn peaks_from(curve: &CurveMeasures, least: usize) -> bool
    ensures { (y : ℕ → Ratio) → AreMeasures curve.now y
        → result ≡ is_from least (greatest_of y 0 13) }
{
    least <= curve.greatest
}
