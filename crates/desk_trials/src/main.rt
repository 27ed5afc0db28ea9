//! Tries desks and their greatest lists: eight threads publish two thousand lists, a list of as
//! many steps as there may be is published and edited, and edits of each kind are made and taken
//! back. No contract says that memory is there, so each of these calls might be refused without
//! cause; here each has to succeed. What is wrong is printed with its number, and the status is 0
//! only where nothing is.
#![tactic(auto)]

mod edits;
mod findings;
mod greatest;
mod publications;
mod publishers;
mod steps;
mod trials;

use std::process::ExitCode;

fn main(rt: HostRuntime) -> ExitCode {
    let mut out = rt.stdout();
    let right = trials::are_right(&rt, &mut out);
    ExitCode::from(if right { 0 } else { 1 })
}
