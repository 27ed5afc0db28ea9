ghost use Rattle.std.specs.Prelude.{◌≡◌, ◌<◌, slice_get, Some};
ghost use Rattle.criteria.specs.Criteria.{criteria};
ghost use Rattle.worst_values.specs.Limits.{limit_of};

use criteria::Criterion;

/// What a condition is judged by: a row of the table of limits.
#[derive(Clone, Copy, Debug, PartialEq, Eq)]
pub enum Limit {
    /// The closing error (C0).
    Closing,
    /// The metacentric height (C1).
    Gm,
    /// The areas under the righting levers (C2 to C4).
    AreaTo30,
    AreaTo40,
    Area30To40,
    /// The greatest lever from 30 to 60 degrees (C5).
    Lever,
    /// The least angle that carries the greatest lever (C6).
    PeakAngle,
    /// The list (C7).
    List,
    /// The draughts at the perpendiculars, and the trim (C8).
    DraughtAft,
    DraughtForward,
    Trim,
    /// The shear force at the frame where most of its limit is used (C9).
    Shear,
    /// The bending moment, in the same way (C10).
    Bending,
    /// The metacentric height over the ship's own least one (C11).
    LeastGm,
}

/// The limits in the order of the table.
const LIMITS: [Limit; 14] = [
    Limit::Closing,
    Limit::Gm,
    Limit::AreaTo30,
    Limit::AreaTo40,
    Limit::Area30To40,
    Limit::Lever,
    Limit::PeakAngle,
    Limit::List,
    Limit::DraughtAft,
    Limit::DraughtForward,
    Limit::Trim,
    Limit::Shear,
    Limit::Bending,
    Limit::LeastGm,
];

/// The limit of a row of the table, the first being 0.
pub fn limit_at(row: usize) -> Limit
    requires { row < 14 }
    ensures { result ≡ limit_of row }
{
    LIMITS[row]
}

/// The criteria in their order.
const CRITERIA: [Criterion; 12] = [
    Criterion::C0,
    Criterion::C1,
    Criterion::C2,
    Criterion::C3,
    Criterion::C4,
    Criterion::C5,
    Criterion::C6,
    Criterion::C7,
    Criterion::C8,
    Criterion::C9,
    Criterion::C10,
    Criterion::C11,
];

/// The criterion of a number, the first being 0.
pub fn criterion_at(number: usize) -> Criterion
    requires { number < 12 }
    ensures { slice_get criteria number ≡ Some result }
{
    CRITERIA[number]
}
