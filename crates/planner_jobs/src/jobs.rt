//! The jobs.
use crate::calls::{Call, Shape, call_of};
use crate::chance::Chance;
use crate::desks::publish_all;
use crate::digests::Digest;
use crate::edits::edit_all;
use crate::ships::Ship;
use crate::stops::Stop;
use claim_run::{Open, Workers};
use seq_report::{CutPlan, Options, first_fail, report};
use std::sync::Wait;
use std::thread::Threads;
use what_if::Session;

/// A job that a user waits for.
#[derive(Clone, Copy, Debug, PartialEq, Eq)]
pub enum Job {
    /// The report on a call of a large ship, by one worker.
    Plan,
    /// The first step that fails of such a call, by four workers.
    Safe,
    /// A session of edits of such a call, and the report on what is left.
    Trial,
    /// Lists of such a call that are published and opened.
    Desk,
    /// The reports on a call and on a small call of a feeder.
    Fleet,
    /// The report on a steps file of restows and tanks, by one worker.
    Restow,
}

/// All of them.
pub static JOBS: [Job; 6] = [
    Job::Plan,
    Job::Safe,
    Job::Trial,
    Job::Desk,
    Job::Fleet,
    Job::Restow,
];

/// A whole call: most of what is aboard is discharged, and the ship is loaded again.
const WHOLE: Shape = Shape {
    aboard: 700,
    ashore: 900,
    loaded: 900,
    steps: 0,
    is_odd: false,
};

/// A small call of a feeder.
const SMALL: Shape = Shape {
    aboard: 600,
    ashore: 40,
    loaded: 50,
    steps: 0,
    is_odd: false,
};

/// A call without lifts, in which the planner moves what is aboard.
const MOVED: Shape = Shape {
    aboard: 500,
    ashore: 0,
    loaded: 0,
    steps: 20_000,
    is_odd: true,
};

/// How many edits a session has, and how many lists are published in a round at a desk.
const EDITS: u32 = 100;

const LISTS: u32 = 4;

/// One worker, in chunks of 256 lines.
pub fn alone() -> Options<'static> {
    let Some(workers) = Workers::new(1) else {
        unreachable!()
    };
    Options {
        workers,
        cuts: CutPlan::Every(256),
    }
}

/// Four workers.
fn together() -> Options<'static> {
    let Some(workers) = Workers::new(4) else {
        unreachable!()
    };
    Options {
        workers,
        cuts: CutPlan::Every(256),
    }
}

/// Takes in the report on a call.
fn report_call<'a, R: AllocGlobal + Threads + Wait + Sync>(
    rt: &R,
    ship: &'a Ship,
    call: &'a Call,
    digest: &mut Digest,
) -> Result<(), Stop> {
    match report(rt, rt.alloc(), &Open, &ship.inputs(call), &alone(), digest) {
        Ok(summary) => {
            digest.add_summary(&summary);
            Ok(())
        }
        Err(_) => Err(Stop::Refused),
    }
}

/// Takes in the first step of a call that fails.
fn look_at_call<'a, R: AllocGlobal + Threads + Wait + Sync>(
    rt: &R,
    ship: &'a Ship,
    call: &'a Call,
    digest: &mut Digest,
) -> Result<(), Stop> {
    match first_fail(rt, rt.alloc(), &Open, &ship.inputs(call), &together()) {
        Ok(first) => {
            digest.add_first(first);
            Ok(())
        }
        Err(_) => Err(Stop::Refused),
    }
}

/// Reads a session on a call.
fn session_on<'a, R: AllocGlobal>(rt: &R, ship: &'a Ship, call: &'a Call) -> Result<Session, Stop> {
    match Session::read(rt.alloc(), &ship.inputs(call)) {
        Ok(session) => Ok(session),
        Err(_) => Err(Stop::Refused),
    }
}

impl Job {
    /// What it is called.
    pub fn name(self) -> &'static str {
        match self {
            Job::Plan => "plan",
            Job::Safe => "safe",
            Job::Trial => "trial",
            Job::Desk => "desk",
            Job::Fleet => "fleet",
            Job::Restow => "restow",
        }
    }

    /// How its calls are made.
    fn shape(self) -> Shape {
        match self {
            Job::Restow => MOVED,
            _ => WHOLE,
        }
    }

    /// Does it once, on a call of its own.
    fn round<R: AllocGlobal + Threads + Wait + Sync>(
        self,
        rt: &R,
        ship: &Ship,
        chance: &mut Chance,
        digest: &mut Digest,
    ) -> Result<(), Stop> {
        let call = call_of(rt.alloc(), &ship.slots, chance, self.shape())?;
        match self {
            Job::Plan | Job::Restow => report_call(rt, ship, &call, digest),
            Job::Safe => look_at_call(rt, ship, &call, digest),
            Job::Trial => edit_all(rt, session_on(rt, ship, &call)?, EDITS, chance, digest),
            Job::Desk => publish_all(rt, session_on(rt, ship, &call)?, LISTS, chance, digest),
            Job::Fleet => {
                report_call(rt, ship, &call, digest)?;
                let small = call_of(rt.alloc(), &ship.slots, chance, SMALL)?;
                report_call(rt, ship, &small, digest)
            }
        }
    }

    /// Does it as often as is asked, each time on another call. Answers the digest of all results.
    pub fn run<R: AllocGlobal + Threads + Wait + Sync>(
        self,
        rt: &R,
        ship: &Ship,
        seed: u64,
        rounds: u32,
    ) -> Result<u64, Stop> {
        let mut chance = Chance::new(seed);
        let mut digest = Digest::new();
        for _ in 0..rounds {
            self.round(rt, ship, &mut chance, &mut digest)?;
        }
        Ok(digest.value())
    }
}
