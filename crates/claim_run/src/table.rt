// The table of a run, the rule that its words and views keep, and what each step on a word shows
// its thread.
use crate::scouts::Scout;
use crate::views::View;
use atomic_table::{Join, Play, Split, TableRule};
use std::marker::PhantomData;
use std::snapshot::Snapshot;

/// What a table is made for. The scout is known to proofs alone, so that a table has no lifetime.
#[derive(Drop)]
pub struct Plan<S: Scout> {
    pub workers: u64,
    pub pieces: u64,
    pub scout: Snapshot<S>,
}

/// The rule of a run's table.
pub struct RunRule<S: Scout>(PhantomData<S>);

impl<S: Scout> TableRule<(), View, Plan<S>> for RunRule<S> {
    ghost use Rattle.claim_run.specs.Views.{view};
    ghost use Rattle.claim_run.specs.Rule.{IsRuled};
    ghost use Rattle.std.specs.Prelude.{[]};

    ghost holds = { λ plan. IsRuled (S.begins plan.scout.value) (S.finds plan.scout.value)
        plan.pieces plan.workers };

    ghost first = { λ plan. view plan.workers [] };
}

/// A number is drawn by a hand with no open entry.
pub struct Draws;

impl Play<(), View> for Draws {
    ghost use Rattle.claim_run.specs.Plays.{drawn};

    ghost then = { drawn };
}

/// The newest entry is skipped, and then a number is drawn.
pub struct SkipsAndDraws;

impl Play<(), View> for SkipsAndDraws {
    ghost use Rattle.claim_run.specs.Plays.{drawn_after_skip};

    ghost then = { drawn_after_skip };
}

/// The newest entry is worked without a find, and then a number is drawn.
pub struct WorksAndDraws;

impl Play<(), View> for WorksAndDraws {
    ghost use Rattle.claim_run.specs.Plays.{drawn_after_work};

    ghost then = { drawn_after_work };
}

/// The least posted step is looked at.
pub struct Looks;

impl Play<(), View> for Looks {
    ghost use Rattle.claim_run.specs.Plays.{looked};

    ghost then = { looked };
}

/// The newest entry is worked with a find, and its step is posted.
pub struct Posts;

impl Play<(), View> for Posts {
    ghost use Rattle.claim_run.specs.Plays.{posted};

    ghost then = { posted };
}

/// One worker leaves a seat with a seat of its own, or comes back to one with all that it did.
pub struct OneWorker;

impl Split<View> for OneWorker {
    ghost use Rattle.std.specs.Prelude.{◌-◌, []};
    ghost use Rattle.claim_run.specs.Views.{view};

    ghost left = { λ v. view (v.workers - 1) v.entries };

    ghost right = { λ v. view 1 [] };
}

impl Join<View> for OneWorker {
    ghost use Rattle.std.specs.Prelude.{◌+◌, ◌++◌, []};
    ghost use Rattle.claim_run.specs.Views.{view};

    ghost both = { λ v w. view (v.workers + w.workers) (v.entries ++ w.entries) };

    ghost spent = { view 0 [] };
}
