ghost use Rattle.std.specs.Prelude.{◌≡◌, ◌≤◌, ◌^◌, ◌↔◌, length, reverse, IfOk, IsTrue, IsSome};
ghost use Rattle.claim_board.specs.Board.{first_state, change_by, after_event, entries_at};
ghost use Rattle.claim_board.specs.Board.{worker_of};

use crate::entries::Entry;
use crate::events::Event;
use crate::workers::{Worker, change_worker, idle_workers, worker_outcome};
use std::alloc::{AllocError, Global};
use std::marker::Model;

/// A board of chunks and the workers at it. Its value is the state that the events lead to.
#[derive(Drop)]
pub struct World {
    begins: Vec<u32>,
    found: Vec<Option<u32>>,
    next: u32,
    least: Option<u32>,
    workers: Vec<Worker>,
}

impl Model for World {
    ghost use Rattle.claim_board.specs.Board.{State};
    ghost use Rattle.claim_board.specs.Views.{state_of, IsSound};

    ghost Value = { State };

    ghost view = { λ w. state_of w.begins.items w.found.items w.next w.least w.workers.items };

    ghost invariant = { λ w. IsSound w.begins.items w.found.items w.next w.least w.workers.items };
}

fn worker_number(event: Event) -> u8
    ensures { result ≡ worker_of event }
{
    match event {
        Event::Draw(w)
        | Event::Look(w)
        | Event::Skip(w)
        | Event::Work(w)
        | Event::Post(w)
        | Event::Stop(w)
        | Event::Refuse(w) => w,
    }
}

impl World {
    /// The board at first: `workers` workers that run, with no entries, and chunks that begin with
    /// the steps `begins` and have the first failing steps `found`, none past the list's end.
    /// Memory for every entry that the workers can make is reserved here; the one error is out of
    /// memory. The caller sees to it that there are at most 2^31 chunks.
    pub fn new(
        alloc: Global,
        workers: u8,
        begins: &[u32],
        found: &[Option<u32>],
    ) -> Result<World, AllocError>
        requires { length begins.now ≤ 2 ^ 31 }
        ensures { IfOk result (λ w. w ≡ first_state workers begins.now found.now) }
    {
        let room = begins.len() + usize::from(workers) + 1;
        let workers = idle_workers(alloc, workers, room)?;
        // not by `collect`, which asks again for less where its first growth is refused
        let mut firsts = Vec::new(alloc);
        firsts.extend_from_slice(begins)?;
        let mut finds = Vec::new(alloc);
        finds.extend_from_slice(found)?;
        Ok(World {
            begins: firsts,
            found: finds,
            next: 0,
            least: None,
            workers,
        })
    }

    /// The event happens, where it is enabled, and the answer is true; else nothing changes, and
    /// the answer is false. It takes no memory.
    pub fn apply(&mut self, event: Event) -> bool
        ensures enabled { IsTrue result ↔ IsSome (change_by self.old event) }
        ensures change { self.new ≡ after_event self.old event }
    {
        let at = usize::from(worker_number(event));
        if at >= self.workers.len() {
            return false;
        }
        let Some(outcome) = worker_outcome(
            &self.workers[at],
            event,
            &self.begins,
            &self.found,
            self.next,
            self.least,
        ) else {
            return false;
        };
        change_worker(&mut self.workers[at], outcome);
        self.next = outcome.next;
        self.least = outcome.least;
        true
    }

    /// The number that is drawn next.
    pub fn next(&self) -> u32
        ensures { result ≡ self.now.next }
    {
        self.next
    }

    /// The least step that was posted so far, or none.
    pub fn least(&self) -> Option<u32>
        ensures { result ≡ self.now.least }
    {
        self.least
    }

    /// The entries of a worker, the oldest first; none of a worker that isn't there.
    pub fn entries(&self, worker: u8) -> &[Entry]
        ensures { result.now ≡ reverse (entries_at self.now.hands worker) }
    {
        match self.workers.get(usize::from(worker)) {
            Some(worker) => worker.entries.as_slice(),
            None => &[],
        }
    }
}
