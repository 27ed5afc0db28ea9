//! Reports, also of a session, first failing steps and runs of which growths are refused.
use crate::texts::NO_STEPS;
use crate::trials::Told;
use box_ship::EMPTY_PLAN;
use claim_run::{Gate, Open, Workers, run_least};
use lift_sequence::Op;
use parallel_tests::three_chunks;
use seq_report::{CutPlan, Inputs, Options, RunFault, Summary, Through, first_fail, report};
use ship_profile::ProfileBytes;
use std::sync::Wait;
use std::sync::atomic::AtomicU64;
use std::sync::atomic::Ordering::SeqCst;
use std::thread;
use std::thread::Threads;
use what_if::Session;

/// How often a worker looks at most whether the others have a chunk too.
const TURNS: u32 = 20_000;

/// How many workers make a report: as many as it has chunks, so that each draws one.
const WORKERS: u64 = 3;

/// A gate at which workers wait until each has drawn a chunk, so that each has growths.
#[derive(Drop)]
struct Together {
    drawn: AtomicU64,
}

impl Gate for Together {
    fn pass(&self, _worker: u8, _chunk: u32) {
        let before = self.drawn.fetch_add(1, SeqCst);
        let all = (before / WORKERS).saturating_add(1).saturating_mul(WORKERS);
        for _ in 0..TURNS {
            if self.drawn.load(SeqCst) >= all {
                return;
            }
            thread::yield_now();
        }
    }
}

/// Three workers over chunks of one line.
fn options() -> Options<'static> {
    let Some(workers) = Workers::new(WORKERS as u8) else {
        unreachable!()
    };
    Options {
        workers,
        cuts: CutPlan::Every(1),
    }
}

/// The gate of one call, which no worker has passed.
fn gate_of_call() -> Together {
    Together {
        drawn: AtomicU64::new(0),
    }
}

/// Whether nothing was written into an array that was all zero.
fn is_empty(room: &[u8]) -> bool {
    for byte in room {
        if *byte != 0 {
            return false;
        }
    }
    true
}

/// How a report was answered that was to be written into such an array, and begins with this text.
fn told_of(outcome: Result<Summary, RunFault>, room: &[u8], text: &[u8]) -> Told {
    match outcome {
        Ok(_) if room.starts_with(text) => Told::Right,
        Err(RunFault::NoMemory) if is_empty(room) => Told::Short,
        _ => Told::Wrong,
    }
}

/// The report on some steps of a ship with nothing aboard, into an array.
#[derive(Drop)]
pub struct Report<'a> {
    pub profile: ProfileBytes<'a>,
    pub movins: &'a [u8],
    pub steps: &'a [u8],
    pub text: &'a [u8],
}

impl<'a> Report<'a> {
    /// What it is made of.
    fn inputs(&self) -> Inputs<'a> {
        Inputs {
            profile: self.profile,
            baplie: EMPTY_PLAN,
            movins: self.movins,
            steps: if self.steps == NO_STEPS {
                None
            } else {
                Some(self.steps)
            },
        }
    }

    /// Makes the report.
    pub fn call<R: AllocGlobal + Threads + Wait + Sync>(&self, rt: &R) -> Told {
        let mut room = [0u8; 2048];
        let outcome = report(
            rt,
            rt.alloc(),
            &gate_of_call(),
            &self.inputs(),
            &options(),
            &mut Through::new(room.as_mut_slice()),
        );
        told_of(outcome, room.as_slice(), self.text)
    }

    /// Looks for its first failing step, of which there is none.
    pub fn first<R: AllocGlobal + Threads + Wait + Sync>(&self, rt: &R) -> Told {
        match first_fail(rt, rt.alloc(), &gate_of_call(), &self.inputs(), &options()) {
            Ok(None) => Told::Right,
            Err(RunFault::NoMemory) => Told::Short,
            _ => Told::Wrong,
        }
    }
}

/// The report of a session on its list, into an array.
#[derive(Drop)]
pub struct SessionReport<'a> {
    pub session: &'a Session,
    pub list: &'a [Op],
    pub text: &'a [u8],
}

impl<'a> SessionReport<'a> {
    /// Makes the report.
    pub fn call<R: AllocGlobal + Threads + Wait + Sync>(&self, rt: &R) -> Told {
        let mut room = [0u8; 2048];
        let outcome = self.session.report(
            rt,
            &gate_of_call(),
            &options(),
            &mut Through::new(room.as_mut_slice()),
        );
        told_of(outcome, room.as_slice(), self.text)
    }

    /// Whether the session has its list.
    pub fn stands(&self) -> bool {
        self.session.lifts() == self.list
    }
}

/// The least step that two workers find in three chunks.
pub fn stop_early<R: AllocGlobal + Threads + Wait + Sync>(rt: &R) -> Told {
    let Some(two) = Workers::new(2) else {
        unreachable!()
    };
    match run_least(rt, rt.alloc(), &Open, two, 3, &three_chunks()) {
        Ok(Some(3)) => Told::Right,
        Err(_) => Told::Short,
        _ => Told::Wrong,
    }
}
