ghost use Rattle.std.specs.Prelude.{◌≡◌, ◌≤◌, ◌*◌, ◌^◌, pos, ◌≤ℤ◌};
ghost use Rattle.std.specs.Option.{SomeIff};
ghost use Rattle.units_core.specs.Bodies.{Mass, IsWithinLimits};

use crate::measures::Mm;
use std::marker::Model;

/// The place of a body: the centre of its mass, and half of its length. Lengths run forward from
/// the after perpendicular (`x`), to starboard from the centre line (`y`) and up from the keel
/// (`z`).
#[derive(Clone, Copy, Debug, PartialEq, Eq)]
pub struct Place {
    pub x: Mm,
    pub y: Mm,
    pub z: Mm,
    /// The body reaches so far forward and aft of `x`.
    pub half: Mm,
}

/// What is aboard and has a mass: a part of the light ship, a tank's filling, a container.
#[derive(Clone, Copy, Debug, PartialEq, Eq)]
pub struct Body {
    kg: u32,
    place: Place,
    fsm: i64,
}

impl Model for Body {
    ghost use Rattle.units_core.specs.Bodies.{Mass, IsWithinLimits};

    ghost Value = { Mass };

    ghost view = { λ b. record { kg = b.kg; place = b.place; fsm = b.fsm } };

    ghost invariant = { λ b. IsWithinLimits b.kg b.fsm };

    ghost inverse = { λ m. record { kg = m.kg; place = m.place; fsm = m.fsm } };
}

impl Body {
    /// The greatest mass of one body, in kg.
    pub const MAX_KG: u32 = 1_000_000_000;

    /// The greatest free surface moment of one body, in kg mm.
    pub const MAX_FSM: i64 = 1_000_000_000_000;

    /// The body of `kg` kilograms at a place, with the free surface moment `fsm` in kg mm. `None`
    /// above [`Body::MAX_KG`], above [`Body::MAX_FSM`], and for a moment below 0.
    pub fn new(kg: u32, place: Place, fsm: i64) -> Option<Body>
        ensures { SomeIff result (IsWithinLimits kg fsm)
            (record { kg = kg; place = place; fsm = fsm }) }
    {
        if kg <= Body::MAX_KG && 0 <= fsm && fsm <= Body::MAX_FSM {
            Some(Body { kg, place, fsm })
        } else {
            None
        }
    }

    /// Its mass in kg.
    pub fn kg(&self) -> u32
        ensures value { result ≡ self.now.kg }
        ensures within { result ≤ 10 ^ 9 }
    {
        self.kg
    }

    /// Its place.
    pub fn place(&self) -> Place
        ensures { result ≡ self.now.place }
    {
        self.place
    }

    /// The moment in kg mm by which its free surface raises the centre of gravity.
    pub fn fsm(&self) -> i64
        ensures value { result ≡ self.now.fsm }
        ensures low { pos 0 ≤ℤ result }
        ensures high { result ≤ℤ pos (10 ^ 12) }
    {
        self.fsm
    }
}
