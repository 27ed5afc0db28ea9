ghost use Rattle.std.specs.Prelude.{◌^◌, ◌<◌, ◌≤◌, unsigned_abs};

use units_core::Frac;

/// What criteria and figures take of a curve of righting levers, worked out once for both.
#[derive(Clone, Copy)]
pub struct CurveMeasures {
    /// Simpson's sum from 0 to 30 degrees, in mm and without its factor.
    pub sum_30: Frac,
    /// From 0 to 40 degrees.
    pub sum_40: Frac,
    /// From 30 to 40 degrees.
    pub sum_30_40: Frac,
    /// The greatest lever from 30 to 60 degrees, in mm.
    pub best: Frac,
    /// The least angle that carries the greatest lever, in steps of 5 degrees.
    pub greatest: usize,
    pub ghost num_30: { unsigned_abs sum_30.num ≤ 10 ^ 32 },
    pub ghost num_40: { unsigned_abs sum_40.num ≤ 10 ^ 32 },
    pub ghost num_30_40: { unsigned_abs sum_30_40.num ≤ 10 ^ 32 },
    pub ghost den_30: { unsigned_abs sum_30.den ≤ 10 ^ 23 },
    pub ghost den_40: { unsigned_abs sum_40.den ≤ 10 ^ 23 },
    pub ghost den_30_40: { unsigned_abs sum_30_40.den ≤ 10 ^ 23 },
    pub ghost den_best: { unsigned_abs best.den ≤ 10 ^ 23 },
    pub ghost inside: { greatest < 13 },
}
