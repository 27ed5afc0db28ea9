ghost use Rattle.port_call.specs.Cases.{IsMade};
ghost use Rattle.port_call.specs.Grounds.{HasArrived};
ghost use Rattle.seq_report.specs.Laws.{OffsetsAreSums, SumsAreFolds};

use lift_sequence::{Arrival, Sequence};
use port_call::Case;
use ship_profile::Profile;

/// What is aboard after the first k steps of a list that can be done, added up from scratch, is in
/// every value the fold of what is aboard on arrival joined with the prefix of what these steps
/// change, and bounded; and for every cut of the lines it is the arrival joined with a chunk's
/// offset and the running prefix inside that chunk. A law over the definitions: the case is only
/// made for what is known of every one.
pub fn sums_are_folds(profile: &Profile, arrival: &Arrival, sequence: &Sequence)
    requires arrived { HasArrived profile.now arrival.now }
    requires made { IsMade profile.now arrival.now sequence.now }
    ensures folds { SumsAreFolds profile.now arrival.now sequence.now }
    ensures chunks { OffsetsAreSums profile.now arrival.now sequence.now }
{
    let _ = Case::new(profile, arrival, sequence);
}
