ghost use Rattle.std.specs.Prelude.{◌≡◌, ◌≤◌, ◌^◌, ◌*◌, pos, unsigned_abs};
ghost use Rattle.std.specs.Option.{SomeIff};

use std::marker::Model;

/// The gross mass of a container in kg, 0 to 999,999: the six digits that a bay plan has room for.
#[derive(Clone, Copy, Debug, PartialEq, Eq)]
pub struct Kg {
    kg: u32,
}

impl Model for Kg {
    ghost use Rattle.std.specs.Prelude.{ℕ, ◌≤◌};

    ghost Value = { ℕ };

    ghost view = { λ c. c.kg };

    ghost invariant = { λ c. c.kg ≤ 999999 };

    ghost inverse = { λ n. record { kg = n } };
}

impl Kg {
    /// The greatest mass, in kg.
    pub const MAX: u32 = 999_999;

    /// The mass of `kg` kilograms; `None` above [`Kg::MAX`].
    pub fn new(kg: u32) -> Option<Kg>
        ensures { SomeIff result (kg ≤ 999999) kg }
    {
        if kg <= Kg::MAX { Some(Kg { kg }) } else { None }
    }

    /// The number of kilograms.
    pub fn get(self) -> u32
        ensures value { result ≡ self }
        ensures within { result ≤ 999999 }
    {
        self.kg
    }
}

/// A length in mm, 1,000,000 (a kilometre) at most either way.
#[derive(Clone, Copy, Debug, PartialEq, Eq)]
pub struct Mm {
    mm: i32,
}

impl Model for Mm {
    ghost use Rattle.std.specs.Prelude.{ℤ, ◌≤◌, ◌^◌, unsigned_abs};

    ghost Value = { ℤ };

    ghost view = { λ c. c.mm };

    ghost invariant = { λ c. unsigned_abs c.mm ≤ 1000000 };

    ghost inverse = { λ z. record { mm = z } };
}

impl Mm {
    /// The greatest length either way, in mm.
    pub const MAX: i32 = 1_000_000;

    /// The length of `mm` millimetres; `None` beyond [`Mm::MAX`] either way.
    pub fn new(mm: i32) -> Option<Mm>
        ensures { SomeIff result (unsigned_abs mm ≤ 1000000) mm }
    {
        if -Mm::MAX <= mm && mm <= Mm::MAX {
            Some(Mm { mm })
        } else {
            None
        }
    }

    /// The length of `mm` millimetres that are known to lie within the limits.
    pub fn of(mm: i64) -> Mm
        requires { unsigned_abs mm ≤ 10 ^ 6 }
        ensures { result ≡ mm }
    {
        Mm { mm: mm as i32 }
    }

    /// The number of millimetres.
    pub fn get(self) -> i32
        ensures value { result ≡ self }
        ensures within { unsigned_abs result ≤ 1000000 }
    {
        self.mm
    }
}
