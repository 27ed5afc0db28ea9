ghost use Rattle.std.specs.Prelude.{◌≡◌, ◌*◌, ◌^◌, ◌≤◌, ◌+ℤ◌, ◌-ℤ◌, ◌*ℤ◌, unsigned_abs};
ghost use Rattle.units_core.specs.Ratio.{Is};
ghost use Rattle.hydrostat.specs.Floating.{draught_at, load, water};

use crate::numerators::trim_top;
use crate::particulars::Afloat;
use units_core::Frac;

/// The draught at `x`, by the numerator of the trim.
pub fn draught_by(a: &Afloat, trim: i128, x: i128) -> Frac
    requires x { unsigned_abs x ≤ 10 ^ 6 }
    requires trim { unsigned_abs trim ≤ 2 * 10 ^ 23 }
    ensures num { result.num
        ≡ ((a.now.draught *ℤ a.now.mct) *ℤ a.now.lbp) +ℤ (trim *ℤ (a.now.lcf -ℤ (x *ℤ a.now.gap))) }
    ensures den { result.den ≡ (a.now.gap *ℤ a.now.mct) *ℤ a.now.lbp }
    ensures size { unsigned_abs result.den ≤ 10 ^ 31 }
    ensures num_size { unsigned_abs result.num ≤ 10 ^ 38 }
{
    Frac {
        num: a.draught * a.mct * a.lbp + trim * (a.lcf - x * a.gap),
        den: a.gap * a.mct * a.lbp,
    }
}

/// The draught in mm at `x`, in mm from the after perpendicular: the mean draught, and the trim by
/// the distance from the centre of flotation.
pub fn draught(a: &Afloat, x: i128) -> Frac
    requires { unsigned_abs x ≤ 10 ^ 6 }
    ensures value { Is result.num result.den (draught_at (water a.now) (load a.now) a.now.lbp x) }
    ensures num { unsigned_abs result.num ≤ 10 ^ 38 }
    ensures den { unsigned_abs result.den ≤ 10 ^ 31 }
{
    draught_by(a, trim_top(a), x)
}
