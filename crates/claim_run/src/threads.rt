// The threads of a run: as many as workers, each joined.
ghost use Rattle.std.specs.Prelude.{◌≡◌, ℕ, ◌<◌, ◌≤◌, IfOk, vec_len, slice_index_or};
ghost use Rattle.claim_run.specs.Shared.{Knows, IsNew};
ghost use Rattle.claim_run.specs.Runs.{IsDoneBy};

use crate::jobs::Job;
use crate::scouts::{Gate, Scout};
use crate::shared_board::{Hand, SharedBoard};
use crate::work::{WorkDone, work};
use std::alloc::{AllocError, Global};
use std::sync::Wait;
use std::thread;
use std::thread::{Promise, PromisedHandle, Scope, Threads};

/// What a thread is started for, which its promise speaks of.
#[derive_where(Clone, Copy)]
pub struct Order<'a, S: Scout, J: Job> {
    pub board: &'a SharedBoard<S>,
    pub job: &'a J,
}

impl<'a, S: Scout, J: Job> Promise<Result<WorkDone<J::Out>, AllocError>> for Order<'a, S, J> {
    ghost use Rattle.std.specs.Prelude.{IfOk};
    ghost use Rattle.claim_run.specs.Runs.{IsDoneBy};

    ghost kept_by = { λ order given. IfOk given (λ done.
        IsDoneBy S.begins S.finds J.value order.board.now order.job.now done) };
}

fn start_one<'s, E, S: Scout, G: Gate, J: Job, R: Wait + Sync>(
    scope: &Scope<'s, E>,
    alloc: Global,
    rt: &'s R,
    board: &'s SharedBoard<S>,
    scout: &'s S,
    gate: &'s G,
    job: &'s J,
    worker: u8,
    hand: Hand,
) -> Result<PromisedHandle<Result<WorkDone<J::Out>, AllocError>, Order<'s, S, J>>, AllocError>
    requires knows { Knows S.pieces board.now scout.now }
    requires pieces { board.now.pieces ≤ J.pieces job.now }
    requires hand { IsNew board.now 1 hand }
    ensures board { IfOk result (λ h. h.promise.board.now ≡ board.entry.now) }
    ensures job { IfOk result (λ h. h.promise.job.now ≡ job.entry.now) }
{
    let started = scope.spawn_with(
        Order { board, job },
        move || -> Result<WorkDone<J::Out>, AllocError>
            requires { Knows S.pieces board.now scout.now
                × (board.now.pieces ≤ J.pieces job.now) × IsNew board.now 1 hand }
            ensures { IfOk result (λ done.
                IsDoneBy S.begins S.finds J.value board.entry.now job.entry.now done) }
        { work(rt, alloc, board, scout, gate, job, worker, hand) },
    );
    Ok(started?)
}

// Joins threads whose values are no longer needed, and drops the values.
fn join_each<T: Drop, P: Promise<T>, R: Threads>(rt: &R, threads: Vec<PromisedHandle<T, P>>) {
    for thread in threads {
        drop(thread.join(rt));
    }
}

// Starts as many threads as workers, each with a hand of its own, the first hand's last. Where one
// isn't started, those before it are joined.
fn start_all<'s, E, S: Scout, G: Gate, J: Job, R: Threads + Wait + Sync>(
    scope: &Scope<'s, E>,
    alloc: Global,
    rt: &'s R,
    board: &'s SharedBoard<S>,
    scout: &'s S,
    gate: &'s G,
    job: &'s J,
    workers: u8,
    mut first: Hand,
) -> Result<Vec<PromisedHandle<Result<WorkDone<J::Out>, AllocError>, Order<'s, S, J>>>, AllocError>
    requires knows { Knows S.pieces board.now scout.now }
    requires pieces { board.now.pieces ≤ J.pieces job.now }
    requires workers { 0 < workers }
    requires hand { IsNew board.now workers first }
    ensures count { IfOk result (λ v. vec_len v ≡ workers) }
    ensures board { IfOk result (λ v. (k : ℕ) (d : _) → k < workers
        → (slice_index_or v.items k d).promise.board.now ≡ board.entry.now) }
    ensures job { IfOk result (λ v. (k : ℕ) (d : _) → k < workers
        → (slice_index_or v.items k d).promise.job.now ≡ job.entry.now) }
{
    let mut threads = Vec::with_capacity(alloc, usize::from(workers))?;
    for worker in 1..workers {
        let hand = board.split(&mut first);
        let Ok(thread) = start_one(scope, alloc, rt, board, scout, gate, job, worker, hand) else {
            join_each(rt, threads);
            return Err(AllocError);
        };
        let Ok(()) = threads.push(thread) else {
            unreachable!()
        };
    }
    let Ok(thread) = start_one(scope, alloc, rt, board, scout, gate, job, 0, first) else {
        join_each(rt, threads);
        return Err(AllocError);
    };
    let Ok(()) = threads.push(thread) else {
        unreachable!()
    };
    Ok(threads)
}

// What each thread gives, in order. Where there is no memory for that they are joined too.
fn join_all<'s, S: Scout, J: Job, R: Threads>(
    rt: &R,
    threads: Vec<PromisedHandle<Result<WorkDone<J::Out>, AllocError>, Order<'s, S, J>>>,
) -> Result<Vec<Result<WorkDone<J::Out>, AllocError>>, AllocError>
    ensures count { IfOk result (λ v. vec_len v ≡ vec_len threads.entry) }
    ensures each { IfOk result (λ v. (w : ℕ) (d e : _) → w < vec_len threads.entry
        → IfOk (slice_index_or v.items w d) (λ done. IsDoneBy S.begins S.finds J.value
        (slice_index_or threads.entry.items w e).promise.board.now
        (slice_index_or threads.entry.items w e).promise.job.now done)) }
{
    match thread::join_promised(rt, threads) {
        Ok(all) => Ok(all),
        Err(failed) => {
            join_each(rt, failed.value);
            Err(AllocError)
        }
    }
}

/// What as many threads as workers give, each of which drew chunks until none was left. An error
/// where one isn't started, or where there is no memory; then too every thread that was started has
/// been joined.
pub fn run_threads<S: Scout, G: Gate, J: Job, R: Threads + Wait + Sync>(
    rt: &R,
    alloc: Global,
    board: &SharedBoard<S>,
    scout: &S,
    gate: &G,
    job: &J,
    workers: u8,
    first: Hand,
) -> Result<Vec<Result<WorkDone<J::Out>, AllocError>>, AllocError>
    requires knows { Knows S.pieces board.now scout.now }
    requires pieces { board.now.pieces ≤ J.pieces job.now }
    requires workers { 0 < workers }
    requires hand { IsNew board.now workers first }
    ensures count { IfOk result (λ v. vec_len v ≡ workers) }
    ensures each { IfOk result (λ v. (k : ℕ) (d : _) → k < workers
        → IfOk (slice_index_or v.items k d) (λ done.
        IsDoneBy S.begins S.finds J.value board.now job.now done)) }
{
    thread::scope(
        thread::scope_env(),
        rt,
        |scope| -> Result<Vec<Result<WorkDone<J::Out>, AllocError>>, AllocError>
            requires knows { Knows S.pieces board.now scout.now }
            requires pieces { board.now.pieces ≤ J.pieces job.now }
            requires workers { 0 < workers }
            requires hand { IsNew board.now workers first }
            ensures count { IfOk result (λ v. vec_len v ≡ workers) }
            ensures each { IfOk result (λ v. (k : ℕ) (d : _) → k < workers
                → IfOk (slice_index_or v.items k d) (λ done.
                IsDoneBy S.begins S.finds J.value board.entry.now job.entry.now done)) }
        {
            let threads = start_all(scope, alloc, rt, board, scout, gate, job, workers, first)?;
            join_all(rt, threads)
        },
    )
}
