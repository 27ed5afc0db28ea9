ghost use Rattle.std.specs.Prelude.{◌≡◌, pos, ◌+◌, ◌*◌, ◌^◌, ◌<◌, ◌≤◌, unsigned_abs};
ghost use Rattle.units_core.specs.Ratio.{floor_of};
ghost use Rattle.hydrostat.specs.Floating.{draught_at, gm, load, trim, water};
ghost use Rattle.criteria.specs.Judgement.{list_down};
ghost use Rattle.criteria.specs.Printed.{IsAngle, IsAreaFigure, IsFigure, IsLeverDown};

use crate::measures::CurveMeasures;
use crate::reciprocals::Reciprocal;
use hydrostat::{Afloat, DraughtLine, gm_of, list_of, mean_of, trim_of};
use units_core::{Frac, Mm, floor, floor_near};

/// A figure, rounded down.
fn figure(fraction: Frac) -> i128
    ensures { IsFigure result fraction.num fraction.den }
{
    floor(fraction)
}

/// A figure, rounded down, of a fraction whose divisor has about this reciprocal.
fn figure_near(fraction: Frac, near: Reciprocal) -> i128
    ensures { IsFigure result fraction.num fraction.den }
{
    floor_near(fraction, near.guess(fraction.num))
}

/// The area in mm degrees of a Simpson's sum, rounded down. The sum's divisor has about this
/// reciprocal.
pub fn area_figure(sum: Frac, near: Reciprocal) -> i128
    requires num { unsigned_abs sum.num ≤ 10 ^ 32 }
    requires den { unsigned_abs sum.den ≤ 10 ^ 23 }
    ensures { IsAreaFigure result sum.num sum.den }
{
    let num = 5 * sum.num;
    floor_near(
        Frac {
            num,
            den: 3 * sum.den,
        },
        near.guess(num) / 3,
    )
}

/// The metacentric height.
pub fn gm_down(a: &Afloat) -> i128
    ensures { result ≡ floor_of (gm (water a.now) (load a.now)) }
{
    figure(gm_of(a))
}

/// The mean draught.
pub fn mean_down(a: &Afloat) -> i128
    ensures { result ≡ floor_of (water a.now).draught }
{
    figure(mean_of(a))
}

/// The draught at the after perpendicular.
pub fn aft_down(line: &DraughtLine) -> i128
    ensures { result ≡ floor_of
        (draught_at (water line.now.of) (load line.now.of) line.now.of.lbp (pos 0)) }
{
    line.draught_down(Mm::new(0).unwrap())
}

/// The draught at the forward perpendicular, at the ship's length.
pub fn fwd_down(line: &DraughtLine, length: Mm) -> i128
    requires { line.now.of.lbp ≡ length }
    ensures { result ≡ floor_of
        (draught_at (water line.now.of) (load line.now.of) line.now.of.lbp line.now.of.lbp) }
{
    line.draught_down(length)
}

/// The trim.
pub fn trim_down(a: &Afloat) -> i128
    ensures { result ≡ floor_of (trim (water a.now) (load a.now)) }
{
    figure(trim_of(a))
}

/// The list, where the metacentric height is positive.
pub fn list_down(a: &Afloat) -> Option<i128>
    ensures { result ≡ list_down (water a.now) (load a.now) }
{
    match list_of(a) {
        Some(list) => Some(figure(list)),
        None => None,
    }
}

/// The greatest lever from 30 to 60 degrees, whose divisor has about this reciprocal.
pub fn lever_down(curve: &CurveMeasures, near: Reciprocal) -> i128
    ensures { IsLeverDown result curve.now }
{
    figure_near(curve.best, near)
}

/// The least angle that carries the greatest lever, in degrees.
pub fn angle(curve: &CurveMeasures) -> usize
    ensures { IsAngle result curve.now }
{
    5 * curve.greatest
}
