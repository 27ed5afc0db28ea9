ghost use Rattle.std.specs.Prelude.{◌≡◌, ◌*◌, ◌^◌, ◌≤◌, unsigned_abs};
ghost use Rattle.std.specs.Option.{SomeIff};
ghost use Rattle.units_core.specs.Angles.{cosines, sines};
ghost use Rattle.units_core.specs.Interpolation.{at};

use std::marker::Model;

/// The sines of 0, 5, .., 60 degrees, in millionths, rounded to the nearest.
const SINES: [i128; 13] = [
    0, 87_156, 173_648, 258_819, 342_020, 422_618, 500_000, 573_576, 642_788, 707_107, 766_044,
    819_152, 866_025,
];

/// Their cosines.
const COSINES: [i128; 13] = [
    1_000_000, 996_195, 984_808, 965_926, 939_693, 906_308, 866_025, 819_152, 766_044, 707_107,
    642_788, 573_576, 500_000,
];

/// An angle of heel: 0 to 60 degrees, in steps of 5 degrees.
#[derive(Clone, Copy, Debug, PartialEq, Eq)]
pub struct Angle {
    step: u8,
}

impl Model for Angle {
    ghost use Rattle.std.specs.Prelude.{ℕ, ◌≤◌};

    ghost Value = { ℕ };

    ghost view = { λ c. c.step };

    ghost invariant = { λ c. c.step ≤ 12 };

    ghost inverse = { λ n. record { step = n } };
}

impl Angle {
    /// The angle of this number of steps of 5 degrees; `None` above 12.
    pub fn new(step: u8) -> Option<Angle>
        ensures { SomeIff result (step ≤ 12) step }
    {
        if step <= 12 {
            Some(Angle { step })
        } else {
            None
        }
    }

    /// How many steps of 5 degrees it is.
    pub fn step(self) -> usize
        ensures value { result ≡ self }
        ensures within { result ≤ 12 }
    {
        usize::from(self.step)
    }

    /// How many degrees it is.
    pub fn degrees(self) -> u8
        ensures { result ≡ 5 * self }
    {
        5 * self.step
    }
}

/// The sine of an angle, in millionths, by the table.
pub fn sine(angle: Angle) -> i128
    ensures value { result ≡ at sines angle }
    ensures within { unsigned_abs result ≤ 10 ^ 6 }
{
    SINES[angle.step()]
}

/// The cosine of an angle, in millionths, by the table.
pub fn cosine(angle: Angle) -> i128
    ensures value { result ≡ at cosines angle }
    ensures within { unsigned_abs result ≤ 10 ^ 6 }
{
    COSINES[angle.step()]
}
