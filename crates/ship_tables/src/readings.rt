ghost use Rattle.std.specs.Prelude.{◌≡◌, ◌+◌, ◌*◌, ◌^◌, ◌<◌, ◌≤◌, pos, ◌-ℤ◌, ◌≤ℤ◌, length, All};
ghost use Rattle.std.specs.Prelude.{unsigned_abs};
ghost use Rattle.units_core.specs.Interpolation.{at, Encloses};
ghost use Rattle.ship_tables.specs.Record.{AreDisplacements, IsCurve};
ghost use Rattle.ship_tables.specs.Curves.{curve_at};

use crate::curves::Curves;
use units_core::{gap, read};

/// The value of a curve at a displacement, which lies in the interval `i`, as the number whose
/// quotient by [`curve_gap`] it is.
pub fn curve_reading(curves: &Curves, number: usize, i: usize, kg: i128) -> i128
    requires curves { All (IsCurve (length curves.now.arguments) (10 ^ 6)) curves.now.columns }
    requires displacements { AreDisplacements curves.now.arguments }
    requires there { number < length curves.now.columns }
    requires inside { Encloses curves.now.arguments i kg }
    ensures value { result ≡ (curve_at curves.now kg number i).top }
    ensures within { unsigned_abs result ≤ 10 ^ 14 }
{
    read(curves.arguments(), curves.values(number), i, kg)
}

/// The length of the interval `i` of the displacements, in kg.
pub fn curve_gap(curves: &Curves, i: usize) -> i128
    requires displacements { AreDisplacements curves.now.arguments }
    requires inside { i + 1 < length curves.now.arguments }
    ensures value { result ≡ at curves.now.arguments (i + 1) -ℤ at curves.now.arguments i }
    ensures positive { pos 1 ≤ℤ result }
    ensures within { unsigned_abs result ≤ 10 ^ 8 }
{
    gap(curves.arguments(), i)
}
