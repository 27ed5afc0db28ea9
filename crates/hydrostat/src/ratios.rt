ghost use Rattle.std.specs.Prelude.{◌*◌, ◌^◌, ◌≤◌, unsigned_abs};
ghost use Rattle.units_core.specs.Ratio.{Is};
ghost use Rattle.hydrostat.specs.Floating.{IsListOf, gm, load, trim, water};

use crate::numerators::{gm_top, list_top, trim_top};
use crate::particulars::Afloat;
use units_core::Frac;

/// The metacentric height in mm, with the centre of gravity raised by the free surfaces: GM = KMT -
/// KG.
pub fn gm_of(a: &Afloat) -> Frac
    ensures value { Is result.num result.den (gm (water a.now) (load a.now)) }
    ensures num { unsigned_abs result.num ≤ 3 * 10 ^ 23 }
    ensures den { unsigned_abs result.den ≤ 10 ^ 17 }
{
    Frac {
        num: gm_top(a),
        den: a.gap * a.kg,
    }
}

/// The trim in mm, by the stern positive: the displacement times the distance of the centre of
/// gravity aft of that of buoyancy, over the moment to change trim.
pub fn trim_of(a: &Afloat) -> Frac
    ensures value { Is result.num result.den (trim (water a.now) (load a.now)) }
    ensures num { unsigned_abs result.num ≤ 2 * 10 ^ 23 }
    ensures den { unsigned_abs result.den ≤ 10 ^ 17 }
{
    Frac {
        num: trim_top(a),
        den: a.mct,
    }
}

/// The mean draught in mm.
pub fn mean_of(a: &Afloat) -> Frac
    ensures value { Is result.num result.den (water a.now).draught }
    ensures den { unsigned_abs result.den ≤ 10 ^ 8 }
{
    Frac {
        num: a.draught,
        den: a.gap,
    }
}

/// The list, in ten-thousandths of the tangent of the angle, to starboard; `None` where the
/// metacentric height isn't positive.
pub fn list_of(a: &Afloat) -> Option<Frac>
    ensures { IsListOf result (water a.now) (load a.now) }
{
    let den = gm_top(a);
    if den <= 0 {
        return None;
    }
    Some(Frac {
        num: list_top(a),
        den,
    })
}
