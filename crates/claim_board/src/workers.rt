ghost use Rattle.std.specs.Prelude.{◌≡◌, ℕ, ◌-◌, ◌<◌, ◌≤◌, ◌^◌, List, Some, reverse, IfOk, vec_len};
ghost use Rattle.std.specs.Prelude.{vec_capacity, slice_index_or, map, replicate};
ghost use Rattle.claim_board.specs.Board.{Hand, board, change_of, change_for, change_if_enabled};
ghost use Rattle.claim_board.specs.Board.{idle};
ghost use Rattle.claim_board.specs.Views.{hand_of};

use crate::entries::Entry;
use crate::events::{Event, Outcome, Status};
use crate::outcomes::outcome;
use std::alloc::{AllocError, Global};

/// A worker of a board: its entries, the oldest first, and whether it runs.
#[derive(Drop)]
pub struct Worker {
    pub entries: Vec<Entry>,
    pub status: Status,
}

/// What the event makes of the worker; `None` where it isn't enabled.
pub fn worker_outcome(
    worker: &Worker,
    event: Event,
    begins: &[u32],
    found: &[Option<u32>],
    next: u32,
    least: Option<u32>,
) -> Option<Outcome>
    requires { next < 2 ^ 32 - 1 }
    ensures { (hands : List Hand)
        → change_if_enabled (reverse worker.now.entries.items) result
        ≡ change_for (board begins.now found.now next least hands) event
        (Some (hand_of worker.now)) }
{
    let Status::Runs = worker.status else {
        return None;
    };
    outcome(
        event,
        worker.entries.last().copied(),
        begins,
        found,
        next,
        least,
    )
}

/// Changes the worker as the outcome says. There must be room for one entry more, so no memory is
/// asked for.
pub fn change_worker(worker: &mut Worker, outcome: Outcome)
    requires { vec_len worker.old.entries < vec_capacity worker.old.entries }
    ensures hand { hand_of worker.new ≡ (change_of (hand_of worker.old).entries outcome).hand }
    ensures room { vec_capacity worker.old.entries ≤ vec_capacity worker.new.entries }
{
    worker.status = outcome.status;
    if outcome.draws {
        let _ = worker.entries.push(outcome.newest);
        return;
    }
    // without entries there is none to be replaced
    let count = worker.entries.len();
    if count > 0 {
        worker.entries[count - 1] = outcome.newest;
    }
}

/// Workers with no entries, and room for `room` entries each.
pub fn idle_workers(alloc: Global, count: u8, room: usize) -> Result<Vec<Worker>, AllocError>
    requires { room < 2 ^ 32 }
    ensures hands { IfOk result (λ v. map hand_of v.items ≡ replicate count idle) }
    ensures room { IfOk result (λ v. (k : ℕ) (d : _)
        → k < vec_len v → room ≤ vec_capacity (slice_index_or v.items k d).entries) }
{
    let mut workers = Vec::new(alloc);
    'more: while workers.len() < usize::from(count) {
        let entries = Vec::with_capacity(alloc, room)?;
        workers.push(Worker {
            entries,
            status: Status::Runs,
        })?;
    }
    Ok(workers)
}
