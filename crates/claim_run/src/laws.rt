ghost use Rattle.claim_run.specs.Law.{EveryStateIsRight};

/// Whatever state a table is in that keeps the rule of a run, which every state between two steps
/// on its words does: the hands that its views show hold each number below the next one once, and
/// no other; word 1 is the least of all posted steps, or the greatest word where none is; and a
/// chunk is skipped only for a posted step before it, and never worked nor posted where its look
/// gave one. The next number is at most the number of chunks and the workers. A law over the
/// definitions.
pub fn every_state_is_right()
    ensures { EveryStateIsRight }
{}
