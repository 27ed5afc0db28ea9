//! The jobs that users of `loadseq` wait for, each done over and over on calls that are made by a
//! seed: `planner_jobs JOB FOLDER SEED ROUNDS`. FOLDER has the files of a ship. It prints one
//! digest of all results for a job, and no times: `bench/run` measures it. JOB is the name of a
//! job, or `all`.
#![tactic(auto)]

mod calls;
mod chance;
mod desks;
mod digests;
mod edits;
mod jobs;
mod messages;
mod ships;
mod slots;
mod stops;
mod verdicts;

use crate::jobs::{JOBS, Job};
use crate::ships::Ship;
use crate::stops::Stop;
use command_line::words;
use std::process::ExitCode;
use std::rt::Files;
use std::sync::Wait;
use std::thread::Threads;

/// A number of a word.
fn number(word: &str) -> Result<u32, Stop> {
    word.parse::<u32>().map_err(|_| Stop::Usage)
}

/// Does one job, and prints its digest.
fn run<R: AllocGlobal + Print + Threads + Wait + Sync>(
    rt: &R,
    job: Job,
    ship: &Ship,
    seed: u32,
    rounds: u32,
) -> Result<(), Stop> {
    let digest = job.run(rt, ship, u64::from(seed), rounds)?;
    let name = job.name();
    let _ = println!(rt; "{name} {digest:016x}");
    Ok(())
}

/// Does what the words ask for.
fn run_words<R: AllocGlobal + Print + Files + Threads + Wait + Sync>(
    rt: &R,
    words: &[String],
) -> Result<(), Stop> {
    let [name, folder, seed, rounds] = words else {
        return Err(Stop::Usage);
    };
    let seed = number(seed.as_str())?;
    let rounds = number(rounds.as_str())?;
    let ship = Ship::read(rt, folder.as_str())?;
    let mut is_known = false;
    for job in &JOBS {
        if name.as_str() == job.name() || name.as_str() == "all" {
            run(rt, *job, &ship, seed, rounds)?;
            is_known = true;
        }
    }
    if is_known { Ok(()) } else { Err(Stop::Usage) }
}

fn main(rt: HostRuntime) -> ExitCode {
    let outcome = match words(&rt, rt.alloc()) {
        Ok(words) => run_words(&rt, &words),
        Err(_) => Err(Stop::NoMemory),
    };
    match outcome {
        Ok(()) => ExitCode::from(0),
        Err(stop) => {
            let text = stop.text();
            let _ = eprintln!(rt; "planner_jobs: {text}");
            ExitCode::from(2)
        }
    }
}
