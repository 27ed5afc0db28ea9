//! How a program of one's own makes a report. It has the texts of the box ship at hand, has one
//! container loaded to starboard, and writes the report to standard output; its exit status is 0
//! where all steps pass, 1 where one fails, 2 where something went wrong.
#![tactic(auto)]

use box_ship::{EMPTY_PLAN, LOAD_TO_STARBOARD, files};
use claim_run::{Open, Workers};
use seq_report::{CutPlan, Inputs, Options, Through, report};
use std::io::Write;
use std::process::ExitCode;

fn main(rt: HostRuntime) -> ExitCode {
    let inputs = Inputs {
        profile: files(),
        baplie: EMPTY_PLAN,
        movins: LOAD_TO_STARBOARD,
        steps: None,
    };
    let mut out = rt.stdout();
    // Four threads make the report in chunks of 256 lines; any other number, and any cuts that fit,
    // give the same bytes.
    let Some(workers) = Workers::new(4) else {
        unreachable!()
    };
    let options = Options {
        workers,
        cuts: CutPlan::Every(256),
    };
    match report(
        &rt,
        rt.alloc(),
        &Open,
        &inputs,
        &options,
        &mut Through::new(&mut out),
    ) {
        Ok(summary) => ExitCode::from(if summary.first.is_none() { 0 } else { 1 }),
        Err(fault) => {
            let _ = writeln!(rt.stderr(), "{fault}");
            ExitCode::from(2)
        }
    }
}
