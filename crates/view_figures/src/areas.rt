ghost use Rattle.std.specs.Prelude.{◌≡◌, ◌*◌, ◌^◌, ◌≤◌, pos, ◌*ℤ◌, unsigned_abs};
ghost use Rattle.units_core.specs.Ratio.{Is, Ratio, whole};
ghost use Rattle.view_figures.specs.Readings.{area_in_print, in_radians, reading_at_least};

use crate::readings::{Reading, at_least_whole};
use units_core::Frac;

/// A degree in radians has this numerator over 10^15: pi / 180 in its first 13 digits.
const RADIANS: i128 = 17_453_292_519_943;

/// Over this it is a thousandth of a millimetre degree in ten-thousandths of a metre-radian.
const PARTS: i128 = 100_000_000_000_000_000;

/// Thousandths of a millimetre degree in ten-thousandths of a metre-radian, rounded down. The whole
/// multiples of `PARTS` are taken apart, so that no product is too great.
fn in_radians(thousandths: i128) -> i128
    ensures { result ≡ in_radians thousandths }
{
    let whole = thousandths.div_euclid(PARTS);
    let rest = thousandths.rem_euclid(PARTS);
    whole * RADIANS + (rest * RADIANS).div_euclid(PARTS)
}

/// The area of a Simpson's sum in thousandths of a millimetre degree.
pub(crate) fn fine_area(sum: Frac) -> Frac
    requires num { unsigned_abs sum.num ≤ 10 ^ 32 }
    requires den { unsigned_abs sum.den ≤ 10 ^ 23 }
    ensures num { result.num ≡ pos 5000 *ℤ sum.num }
    ensures den { result.den ≡ pos 3 *ℤ sum.den }
    ensures num_size { unsigned_abs result.num ≤ 5 * 10 ^ 35 }
    ensures den_size { unsigned_abs result.den ≤ 3 * 10 ^ 23 }
{
    Frac {
        num: 5000 * sum.num,
        den: 3 * sum.den,
    }
}

/// The reading of an area under the righting levers, which has to be at least its limit, in
/// ten-thousandths of a metre-radian. `sum` is Simpson's sum of the levers in mm, three fifths of
/// the area in millimetre degrees; the limit is in thousandths of these.
pub fn area_reading(sum: Frac, limit: i64) -> Reading
    requires num { unsigned_abs sum.num ≤ 10 ^ 32 }
    requires den { unsigned_abs sum.den ≤ 10 ^ 23 }
    requires limit { unsigned_abs limit ≤ 10 ^ 7 }
    ensures { (v : Ratio) → Is (pos 5000 *ℤ sum.num) (pos 3 *ℤ sum.den) v
        → result ≡ area_in_print (reading_at_least v (whole limit)) }
{
    let fine = at_least_whole(fine_area(sum), limit);
    Reading {
        value: in_radians(fine.value),
        limit: in_radians(fine.limit),
        margin: in_radians(fine.margin),
    }
}
