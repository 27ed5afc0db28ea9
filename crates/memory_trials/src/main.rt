//! Refuses each growth of memory in turn while the library is called, and sees what the calls say
//! and leave. `tests/program.d/growths` runs it under an allocator that refuses
//! (`tests/refusing_heap.c`); by itself it makes the same calls with ample memory, and none is
//! refused.
#![tactic(auto)]

mod desks;
mod edit_rows;
mod edits;
mod free_calls;
mod free_figures;
mod free_numbers;
mod free_ships;
mod free_texts;
mod notes;
mod reports;
mod rows;
mod sessions;
mod texts;
mod trials;
mod watch;
mod wrong_bodies;

use std::process::ExitCode;

fn main(rt: HostRuntime) -> ExitCode {
    let mut out = rt.stdout();
    match rows::all(&rt, &mut out) {
        Ok(true) => ExitCode::from(0),
        _ => ExitCode::from(1),
    }
}
