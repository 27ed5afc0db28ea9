ghost use Rattle.std.specs.Prelude.{◌≡◌};
ghost use Rattle.criteria.specs.Criteria.{code_of};

/// A criterion that a condition may fail. C1 to C6 are those of the 2008 IS Code, part A, 2.2; the
/// others are the ship's own.
#[derive(Clone, Copy, Debug, PartialEq, Eq)]
pub enum Criterion {
    /// The condition lies within the ship's tables, and buoyancy and displacement agree within her
    /// limit.
    C0,
    /// The metacentric height, corrected for free surfaces, is at least 0.15 m (2.2.4).
    C1,
    /// The area under the righting levers from 0 to 30 degrees is at least 0.055 metre-radians
    /// (2.2.1).
    C2,
    /// The area from 0 to 40 degrees is at least 0.09 metre-radians (2.2.1).
    C3,
    /// The area from 30 to 40 degrees is at least 0.03 metre-radians (2.2.1).
    C4,
    /// Some lever from 30 to 60 degrees is at least 0.2 m (2.2.2).
    C5,
    /// The least angle that carries the greatest lever is at least 25 degrees (2.2.3).
    C6,
    /// The ship has a list, and it is within her limit either way.
    C7,
    /// The draughts forward and aft, and the trim either way, are within her limits.
    C8,
    /// The shear force at every frame is within its limit either way.
    C9,
    /// The bending moment at every frame is within its limits, hogging and sagging.
    C10,
    /// The metacentric height is at least that of the ship's own limits, where she has them.
    C11,
}

impl Criterion {
    /// Its code, as the report prints it.
    pub fn code(self) -> &'static str
        ensures { result.now ≡ code_of self }
    {
        match self {
            Criterion::C0 => "C0",
            Criterion::C1 => "C1",
            Criterion::C2 => "C2",
            Criterion::C3 => "C3",
            Criterion::C4 => "C4",
            Criterion::C5 => "C5",
            Criterion::C6 => "C6",
            Criterion::C7 => "C7",
            Criterion::C8 => "C8",
            Criterion::C9 => "C9",
            Criterion::C10 => "C10",
            Criterion::C11 => "C11",
        }
    }
}
