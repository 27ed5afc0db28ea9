ghost use Rattle.port_call.specs.Laws.{AboardIsBounded, SequencesAreBounded};

/// Whatever containers of at most a million tonnes are aboard a ship of a sound profile, the sums
/// over what is aboard are bounded: a law over the definitions.
pub fn aboard_is_bounded()
    ensures { AboardIsBounded }
{}

/// So they are after any number of steps of a sequence: a law over the definitions.
pub fn sequences_are_bounded()
    ensures { SequencesAreBounded }
{}
