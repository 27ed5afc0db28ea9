//! The program: `loadseq check FOLDER BAPLIE MOVINS [--steps FILE] [--workers N] [--chunk N]` reads
//! a ship's profile, a bay plan, a movement instruction and a planner's steps, and writes the
//! report to standard output; `loadseq first` with the same words writes the first step that fails
//! alone; `loadseq whatif FOLDER BAPLIE MOVINS EDITS` with the same options tries edits of the
//! steps, and writes what became of each and the report on the list that is left.
#![tactic(auto)]

use claim_run::Open;
use command_line::words;
use program::serve;
use run_files::{Disk, Stop, report_stop};
use std::alloc::{AllocError, Global};
use std::process::ExitCode;
use std::sync::Wait;
use std::thread::Threads;

/// The words as they are lent to the program.
fn lend_words(alloc: Global, words: &[String]) -> Result<Vec<&str>, AllocError> {
    let mut list = Vec::new(alloc);
    for word in words {
        list.push(word.as_str())?;
    }
    Ok(list)
}

/// The program over the system's words, files and streams. The runtime has leave to start threads
/// in `main` alone, so it is handed over once more for that.
fn run(rt: &HostRuntime, threads: &(impl Threads + Wait + Sync)) -> Result<u8, Stop> {
    let words = words(rt, rt.alloc())?;
    let list = lend_words(rt.alloc(), &words)?;
    let mut disk = Disk::new(rt);
    let mut out = rt.stdout();
    let mut err = rt.stderr();
    Ok(serve(
        threads,
        rt.alloc(),
        &Open,
        &mut disk,
        &list,
        &mut out,
        &mut err,
    ))
}

fn main(rt: HostRuntime) -> ExitCode {
    let status = match run(&rt, &rt) {
        Ok(status) => status,
        Err(stop) => report_stop(&stop, &mut rt.stderr()),
    };
    ExitCode::from(status)
}
