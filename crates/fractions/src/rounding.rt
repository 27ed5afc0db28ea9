ghost use Rattle.std.specs.Prelude.{◌≡◌, ◌^◌, ◌≤◌, pos, ◌*ℤ◌, unsigned_abs};
ghost use Rattle.units_core.specs.Ratio.{Is, Ratio};
ghost use Rattle.fractions.specs.Rounded.{down, up};

use units_core::{Frac, floor};

/// A fraction so many times.
fn times(fraction: Frac, scale: u32) -> Frac
    requires { unsigned_abs (fraction.num *ℤ pos scale) ≤ 10 ^ 38 }
    ensures num { result.num ≡ fraction.num *ℤ pos scale }
    ensures den { result.den ≡ fraction.den }
{
    Frac {
        num: fraction.num * i128::from(scale),
        den: fraction.den,
    }
}

/// A value in units of which there are `scale` to one, rounded toward minus infinity.
pub fn down(fraction: Frac, scale: u32) -> i128
    requires { unsigned_abs (fraction.num *ℤ pos scale) ≤ 10 ^ 38 }
    ensures { (r : Ratio) → Is fraction.num fraction.den r → result ≡ down r scale }
{
    floor(times(fraction, scale))
}

/// A value in units of which there are `scale` to one, rounded toward plus infinity.
pub fn up(fraction: Frac, scale: u32) -> i128
    requires { unsigned_abs (fraction.num *ℤ pos scale) ≤ 10 ^ 38 }
    ensures { (r : Ratio) → Is fraction.num fraction.den r → result ≡ up r scale }
{
    let many = times(fraction, scale);
    -floor(Frac {
        num: -many.num,
        den: many.den,
    })
}
