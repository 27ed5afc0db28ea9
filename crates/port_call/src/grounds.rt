ghost use Rattle.std.specs.Prelude.{◌≡◌, ◌↔◌, ◌≤◌, IsTrue, OnOk, IfOk, IfErr, None, length};
ghost use Rattle.lift_sequence.specs.Arrival.{TellsAt};
ghost use Rattle.lift_sequence.specs.Limits.{most_bodies};
ghost use Rattle.moment_sums.specs.Kept.{size_of, values};
ghost use Rattle.moment_sums.specs.Sum.{sum_of};
ghost use Rattle.port_call.specs.Cases.{IsMade, on_ground};
ghost use Rattle.port_call.specs.Views.{case_in_view};
ghost use Rattle.port_call.specs.Grounds.{HasArrived, IsGround, list_fault, steps_on};

use crate::cases::Case;
use lift_sequence::{Arrival, Op, SeqCode, SeqFault, Sequence};
use moment_sums::Totals;
use prefix_scan::Monoid;
use ship_profile::Profile;
use std::alloc::Global;
use std::marker::Model;

/// A ship and what is aboard of her on arrival, from which lists of steps go on: those of a run, of
/// a session and of a desk.
pub struct Ground {
    profile: Profile,
    arrival: Arrival,
    /// Everything that is aboard on arrival, added up.
    total: Totals,
}

impl Drop for Ground {
    // Written out, since the crates above prove a derived one anew, field by field.
    fn drop(self) {
        let Ground {
            profile: _profile,
            arrival: _arrival,
            total: _,
        } = self;
    }
}

impl Model for Ground {
    ghost use Rattle.port_call.specs.Grounds.{GroundRecord, IsGround};

    ghost Value = { GroundRecord };

    ghost view = { λ g. record { ship = g.profile; arrival = g.arrival } };

    ghost invariant = { λ g. IsGround g.profile g.arrival g.total };
}

/// Everything that is aboard on arrival, added up. There are at most 30,400 bodies; the arrival is
/// one that was made with this profile.
fn arrival_total(profile: &Profile, arrival: &Arrival) -> Totals
    requires { length arrival.now.bodies ≤ most_bodies }
    ensures sum { values result ≡ sum_of profile.now.ship.frames arrival.now.bodies }
    ensures size { size_of result ≤ most_bodies }
{
    let frames = profile.frames();
    let bodies = arrival.bodies();
    let mut sum = Totals::unit();
    for body in bodies {
        sum.add(body, frames);
    }
    sum
}

impl Ground {
    /// A ship and the arrival that was made with her profile, of at most 200 fills, each of another
    /// tank. Takes no memory.
    pub fn new(profile: Profile, arrival: Arrival) -> Ground
        requires { HasArrived profile arrival }
        ensures { result ≡ record { ship = profile; arrival = arrival } }
    {
        arrival.facts();
        let total = arrival_total(&profile, &arrival);
        Ground {
            profile,
            arrival,
            total,
        }
    }

    /// Whether two grounds are equal: the same ship, with the same aboard on arrival. Takes no
    /// memory, and time in the length of her tables and in the number of bodies.
    pub fn same(&self, other: &Ground) -> bool
        ensures { IsTrue result ↔ (self.now ≡ other.now) }
    {
        self.profile.same(&other.profile) && self.arrival.same(&other.arrival)
    }

    /// The ship.
    pub fn profile(&self) -> &Profile
        ensures { result.now ≡ self.now.ship }
    {
        &self.profile
    }

    /// What is aboard on arrival.
    pub fn arrival(&self) -> &Arrival
        ensures { result.now ≡ self.now.arrival }
    {
        &self.arrival
    }

    /// What is known of every ground: facts, which take no time.
    pub fn facts(&self)
        ensures { HasArrived self.now.ship self.now.arrival }
    {
        // The invariant is known where a field is used.
        let _ = &self.profile;
    }

    /// Everything that is aboard on arrival, added up. It also says what is known of every ground.
    pub fn total(&self) -> &Totals
        ensures { IsGround self.now.ship self.now.arrival result.now }
    {
        &self.total
    }

    /// The sequence of these steps from here, or the first of them that can't be done, as
    /// [`Sequence::new`] has it.
    pub fn sequence(&self, alloc: Global, ops: Vec<Op>) -> Result<Sequence, SeqFault>
        ensures legal { OnOk result (list_fault self.now ops.items ≡ None) }
        ensures ops { IfOk result (λ s. s.ops ≡ ops.items) }
        ensures steps { IfOk result (λ s. s.steps ≡ steps_on self.now ops.items) }
        ensures refused { IfErr result (TellsAt (list_fault self.now ops.items)) }
        ensures memory { IfErr result (λ e. e.code ≡ SeqCode.NoMemory → e.at ≡ 0) }
    {
        Sequence::new(alloc, &self.profile, &self.arrival, ops)
    }

    /// The case of a sequence that was made from here.
    pub fn case<'a>(&'a self, sequence: &'a Sequence) -> Case<'a>
        requires { IsMade self.now.ship self.now.arrival sequence.now }
        ensures { case_in_view result ≡ on_ground self.entry.now sequence.entry.now }
    {
        Case::new(&self.profile, &self.arrival, sequence)
    }
}
