//! The planner's view: `loadview summary FOLDER BAPLIE MOVINS [--steps FILE]` writes on one screen
//! whether all steps pass, and the worst value of every limit; `loadview explain` with the same
//! words says of the first step that fails what fails, by how much and what to do.
#![tactic(auto)]

use claim_run::Open;
use command_line::words;
use run_files::{Disk, Stop, report_stop};
use std::alloc::{AllocError, Global};
use std::io::BufReader;
use std::process::ExitCode;
use std::sync::Wait;
use std::thread::Threads;
use view_program::serve_view;

/// The words as they are lent to the program.
fn lend_words(alloc: Global, words: &[String]) -> Result<Vec<&str>, AllocError> {
    let mut list = Vec::new(alloc);
    for word in words {
        list.push(word.as_str())?;
    }
    Ok(list)
}

/// The program over the system's words, files and streams. The runtime has leave to start threads
/// in `main` alone, so it is handed over once more for that.
fn run(rt: &HostRuntime, threads: &(impl Threads + Wait + Sync)) -> Result<u8, Stop> {
    let words = words(rt, rt.alloc())?;
    let list = lend_words(rt.alloc(), &words)?;
    let mut disk = Disk::new(rt);
    let Ok(mut input) = BufReader::new(rt.alloc(), rt.stdin()) else {
        return Err(Stop::NoMemory);
    };
    let mut out = rt.stdout();
    let mut err = rt.stderr();
    Ok(serve_view(
        threads,
        rt.alloc(),
        &Open,
        &mut disk,
        &list,
        &mut input,
        &mut out,
        &mut err,
    ))
}

fn main(rt: HostRuntime) -> ExitCode {
    let status = match run(&rt, &rt) {
        Ok(status) => status,
        Err(stop) => report_stop(&stop, &mut rt.stderr()),
    };
    ExitCode::from(status)
}
