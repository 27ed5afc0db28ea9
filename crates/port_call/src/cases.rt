ghost use Rattle.std.specs.Prelude.{◌≡◌, ◌+◌, length};
ghost use Rattle.port_call.specs.Cases.{IsMade, IsReady, case_on};
ghost use Rattle.port_call.specs.Grounds.{HasArrived};

use lift_sequence::{Arrival, Sequence};
use ship_profile::Profile;

/// A ship, what is aboard of her on arrival, and the steps from there, each of which can be done:
/// what every worker of a run looks at.
#[derive(Clone, Copy, Drop)]
pub struct Case<'a> {
    pub profile: &'a Profile,
    pub arrival: &'a Arrival,
    pub sequence: &'a Sequence,
    pub ghost ready: { IsReady (case_on profile.now arrival.now sequence.now) },
}

impl<'a> Case<'a> {
    /// The case of a sequence that was made with this profile, and with this arrival of it.
    pub fn new(profile: &'a Profile, arrival: &'a Arrival, sequence: &'a Sequence) -> Case<'a>
        requires arrived { HasArrived profile.now arrival.now }
        requires made { IsMade profile.now arrival.now sequence.now }
        ensures { case_on result.profile.now result.arrival.now result.sequence.now
            ≡ case_on profile.entry.now arrival.entry.now sequence.entry.now }
    {
        arrival.facts();
        sequence.facts();
        Case {
            profile,
            arrival,
            sequence,
        }
    }

    /// How many lines its report has: that of the condition on arrival, and one for each step.
    pub fn lines(&self) -> u32
        ensures { result ≡ length self.now.sequence.now.ops + 1 }
    {
        self.sequence.len() as u32 + 1
    }
}
