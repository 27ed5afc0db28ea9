// What one worker of a run does.
ghost use Rattle.std.specs.Prelude.{◌≡◌, ◌≤◌, IfOk};
ghost use Rattle.claim_run.specs.Shared.{Knows, IsNew};
ghost use Rattle.claim_run.specs.Runs.{IsDoneBy};

use crate::jobs::Job;
use crate::scouts::{Gate, Scout};
use crate::shared_board::{Hand, SharedBoard};
use std::alloc::{AllocError, Global};
use std::sync::Wait;

/// What a worker gives back: its hand, and the value of each piece that it drew.
#[derive(Drop)]
pub struct WorkDone<T> {
    pub hand: Hand,
    pub values: Vec<(u32, T)>,
}

/// Draws chunks and works their pieces until none is left. An error where a piece answers one, or
/// where there is no memory for its value.
pub fn work<S: Scout, G: Gate, J: Job, R: Wait>(
    rt: &R,
    alloc: Global,
    board: &SharedBoard<S>,
    scout: &S,
    gate: &G,
    job: &J,
    worker: u8,
    mut hand: Hand,
) -> Result<WorkDone<J::Out>, AllocError>
    requires knows { Knows S.pieces board.now scout.now }
    requires pieces { board.now.pieces ≤ J.pieces job.now }
    requires hand { IsNew board.now 1 hand }
    ensures { IfOk result (λ done. IsDoneBy S.begins S.finds J.value board.now job.now done) }
{
    let mut values = Vec::new(alloc);
    'next: for _ in rt.forever() {
        match board.turn(scout, gate, worker, &mut hand) {
            Some(k) => values.push((k, job.piece(alloc, k)?))?,
            None => return Ok(WorkDone { hand, values }),
        }
    }
    unreachable!()
}
