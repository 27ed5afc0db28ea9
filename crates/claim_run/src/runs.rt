ghost use Rattle.std.specs.Prelude.{◌≡◌, ℕ, ◌<◌, ◌≤◌, length, true, IfOk, vec_len, slice_index_or};
ghost use Rattle.claim_board.specs.Entries.{numbers, is};
ghost use Rattle.claim_board.specs.Claims.{IsLeastFound};
ghost use Rattle.claim_run.specs.OneThread.{one_thread_values};
ghost use Rattle.claim_run.specs.Shared.{scout_in};
ghost use Rattle.claim_run.specs.Runs.{IsDoneBy, AreOver};
ghost use Rattle.claim_run.specs.Slots.{IsRight, is_there};

use crate::jobs::{Job, NoValues};
use crate::scouts::{FindsNothing, Gate, Scout};
use crate::shared_board::{Hand, SharedBoard};
use crate::slots::{empty_slots, place, values_in_slots};
use crate::threads::run_threads;
use crate::work::WorkDone;
use crate::workers::Workers;
use std::alloc::{AllocError, Global};
use std::sync::Wait;
use std::thread::Threads;

// Joins the hands of all workers into one, and puts the values that came with them into the slots.
// The first error of a worker is answered.
fn gather<S: Scout, J: Job>(
    board: &SharedBoard<S>,
    job: &J,
    slots: &mut Vec<Option<J::Out>>,
    given: Vec<Result<WorkDone<J::Out>, AllocError>>,
) -> Result<Hand, AllocError>
    requires some { 0 < vec_len given }
    requires each { (k : ℕ) (d : _) → k < vec_len given → IfOk (slice_index_or given.items k d)
        (λ done. IsDoneBy S.begins S.finds J.value board.now job.now done) }
    requires slots { (length slots.old.items ≡ board.now.pieces)
        × IsRight (J.value job.now) slots.old.items }
    ensures seat { IfOk result (λ h. (h.seat.table_id ≡ board.now.table.shared.table_id)
        × (h.seat.me.0.workers ≡ vec_len given)) }
    ensures over { IfOk result (λ h. AreOver (S.begins (scout_in board.now))
        (S.finds (scout_in board.now)) board.now.pieces h.seat.me.0.entries) }
    ensures slots { (length slots.new.items ≡ board.now.pieces)
        × IsRight (J.value job.now) slots.new.items }
    ensures filled { IfOk result (λ h. (k : ℕ) → k < board.now.pieces
        → 0 < numbers (is k) h.seat.me.0.entries → is_there slots.new.items k ≡ true) }
{
    let mut rest = given.into_iter();
    let Some(first) = rest.next() else {
        unreachable!()
    };
    let WorkDone { mut hand, values } = first?;
    place(job, slots, values);
    for gift in rest {
        let WorkDone {
            hand: other,
            values,
        } = gift?;
        board.join(&mut hand, other);
        place(job, slots, values);
    }
    Ok(hand)
}

// Works the pieces of a job and looks for the least step that a scout finds, by as many threads as
// workers.
fn run_both<S: Scout, J: Job, G: Gate, R: Threads + Wait + Sync>(
    rt: &R,
    alloc: Global,
    gate: &G,
    workers: Workers,
    pieces: u32,
    scout: &S,
    job: &J,
) -> Result<(Vec<J::Out>, Option<u32>), AllocError>
    requires { (pieces ≤ S.pieces scout.now) × (pieces ≤ J.pieces job.now) }
    ensures values { IfOk result (λ both. both.0.items
        ≡ one_thread_values (J.value job.now) pieces) }
    ensures least { IfOk result (λ both. IsLeastFound both.1 (S.finds scout.now) pieces) }
{
    let (board, first) = SharedBoard::new(alloc, workers.get(), pieces, scout)?;
    let given = run_threads(rt, alloc, &board, scout, gate, job, workers.get(), first)?;
    let mut slots = empty_slots(alloc, pieces)?;
    let hand = gather(&board, job, &mut slots, given)?;
    let (_next, least) = board.close(hand);
    Ok((values_in_slots(job, alloc, slots)?, least))
}

/// The values of the pieces 0, 1, .. below `pieces`, in order: those that one thread would give. It
/// starts as many threads as workers, which draw pieces until none is left, and joins them all. An
/// error where a piece answers one, where there is no memory, or where a thread isn't started; then
/// too all that were started have been joined, and what they made is dropped. Which worker works a
/// piece isn't promised, nor, at an error, which pieces were worked.
pub fn run<J: Job, G: Gate, R: Threads + Wait + Sync>(
    rt: &R,
    alloc: Global,
    gate: &G,
    workers: Workers,
    pieces: u32,
    job: &J,
) -> Result<Vec<J::Out>, AllocError>
    requires { pieces ≤ J.pieces job.now }
    ensures { IfOk result (λ all. all.items ≡ one_thread_values (J.value job.now) pieces) }
{
    let (values, _least) = run_both(rt, alloc, gate, workers, pieces, &FindsNothing, job)?;
    Ok(values)
}

/// The least failing step of the chunks 0, 1, .. below `pieces`, none where none has one: what one
/// thread would find that looks at them all. A chunk that begins behind a step that was posted
/// isn't looked at. Threads, errors and what isn't promised are as of [`run`].
pub fn run_least<S: Scout, G: Gate, R: Threads + Wait + Sync>(
    rt: &R,
    alloc: Global,
    gate: &G,
    workers: Workers,
    pieces: u32,
    scout: &S,
) -> Result<Option<u32>, AllocError>
    requires { pieces ≤ S.pieces scout.now }
    ensures { IfOk result (λ least. IsLeastFound least (S.finds scout.now) pieces) }
{
    let (_values, least) = run_both(rt, alloc, gate, workers, pieces, scout, &NoValues)?;
    Ok(least)
}
