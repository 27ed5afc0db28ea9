ghost use Rattle.std.specs.Prelude.{ℕ, ◌<◌, List, Option};
ghost use Rattle.claim_board.specs.declared.events.Event.{Event};
ghost use Rattle.claim_board.specs.Board.{after_all, first_state};
ghost use Rattle.claim_board.specs.Claims.{IsProblem, NumbersAreFair, LeastIsPosted};
ghost use Rattle.claim_board.specs.Claims.{ChunksAreSkippedRightly, IsDone, IsAnswered};

/// What is true of a board after every list of events, for every number of workers and all chunks.
/// It does nothing; its clauses are the laws.
///
/// - `numbers`: each number below the next is in exactly one worker's entries, once, and no other
///   number is in any.
/// - `least`: the least step is the least of all posted steps, and none where none is posted.
/// - `skips`: a chunk is skipped only where its worker saw a step before the chunk's first, and
///   that step is posted in some worker's entries. A chunk whose worker saw such a step is never
///   worked or posted.
/// - `done`: where no chunk has a failing step before its first step, there is a worker, and all
///   workers have stopped and none is refused: every chunk was drawn and is skipped, posted, or
///   worked with no failing step, and the least step is the least that any chunk has.
pub fn for_every_run()
    ensures numbers { (workers : ℕ) (begins : List ℕ) (found : List (Option ℕ))
        (events : List Event)
        → NumbersAreFair (after_all events (first_state workers begins found)) }
    ensures least { (workers : ℕ) (begins : List ℕ) (found : List (Option ℕ))
        (events : List Event)
        → LeastIsPosted (after_all events (first_state workers begins found)) }
    ensures skips { (workers : ℕ) (begins : List ℕ) (found : List (Option ℕ))
        (events : List Event)
        → ChunksAreSkippedRightly (after_all events (first_state workers begins found)) }
    ensures done { (workers : ℕ) (begins : List ℕ) (found : List (Option ℕ))
        (events : List Event)
        → IsProblem begins found → 0 < workers
        → IsDone (after_all events (first_state workers begins found))
        → IsAnswered (after_all events (first_state workers begins found)) }
{}
