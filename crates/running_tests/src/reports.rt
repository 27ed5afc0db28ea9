//! The report as a caller of the library asks for it. What its lines and refusals say is tested by
//! runs of the program, in `tests/program.d`.
ghost use Rattle.std.specs.Prelude.{◌≤◌};

use crate::checks::{holds, same};
use box_ship::{EMPTY_PLAN, NO_MOVES, files};
use claim_run::{Open, Workers};
use seq_report::{CutPlan, Inputs, Options, RunFault, Summary, Through, first_fail, report};
use std::process::Abort;
use std::sync::Wait;
use std::test::Fail;
use std::thread::Threads;

mod cuts;
mod faults;
mod readings;
mod searches;
mod sinks;
mod sums;
mod worst;

/// The inputs of a run of the box ship with nothing aboard.
fn inputs(movins: &[u8]) -> Inputs<'_> {
    Inputs {
        profile: files(),
        baplie: EMPTY_PLAN,
        movins,
        steps: None,
    }
}

/// Chunks of 256 lines.
const PLAN: CutPlan<'static> = CutPlan::Every(256);

/// So many workers, 1 to 16, over the chunks of a plan.
fn options(workers: u8, cuts: CutPlan<'_>) -> Options<'_>
    requires { (1 ≤ workers) × (workers ≤ 16) }
{
    let Some(workers) = Workers::new(workers) else {
        unreachable!()
    };
    Options { workers, cuts }
}

/// The report on an instruction, as text, and its summary, made so. The first step that fails is
/// asked for by itself, too, and is the same.
fn bytes_by(
    rt: &(impl Abort + AllocGlobal + Threads + Wait + Sync),
    movins: &[u8],
    options: &Options<'_>,
) -> (Result<Summary, RunFault>, Vec<u8>) {
    let inputs = inputs(movins);
    let mut taken = Vec::new(rt.alloc());
    let outcome = report(
        rt,
        rt.alloc(),
        &Open,
        &inputs,
        options,
        &mut Through::new(&mut taken),
    );
    let first = first_fail(rt, rt.alloc(), &Open, &inputs, options);
    match outcome {
        Ok(summary) => same(rt, first, Ok(summary.first)),
        Err(fault) => same(rt, first, Err(fault)),
    }
    (outcome, taken)
}

/// A run in the chunks of a plan is refused so, and nothing is written.
fn check_refusal(
    rt: &(impl Abort + AllocGlobal + Threads + Wait + Sync),
    movins: &[u8],
    plan: CutPlan<'_>,
    refusal: &str,
) -> Result<(), Fail> {
    let (outcome, text) = bytes_by(rt, movins, &options(2, plan));
    holds(rt, text.is_empty());
    match outcome {
        Ok(_) => assert!(rt; false, "not refused: {refusal}"),
        Err(fault) => {
            let shown = format!(in rt.alloc(); "{fault}")?;
            same(rt, shown.as_str(), refusal);
        }
    }
    Ok(())
}

/// The report of the box ship alone: GM = 10,333 - 6,000 mm, and a draught of 4 m, on which
/// buoyancy and weight agree everywhere.
static EMPTY_REPORT: &[u8] =
    b"STEP LIFT KG GM MEAN AFT FWD TRIM LIST A30 A40 A3040 GZ ANGLE CLOSE FRAMES VERDICT\n0 - 8200000 4333 4000 4000 4000 0 0 31509 50888 19379 1958 35 0 0/0;0/0;0/0;0/0;0/0 PASS\nALL PASS\n";

// With ample memory and a sound sink the answer is Ok: bodies that are always out of memory, or
// whose sink always fails, meet every contract, and are caught here (always_no_memory,
// always_write_fault).
#[test]
fn empty_plan(rt: HostRuntime) {
    let (outcome, text) = bytes_by(&rt, NO_MOVES, &options(2, PLAN));
    same(&rt, text.as_slice(), EMPTY_REPORT);
    same(
        &rt,
        outcome,
        Ok(Summary {
            lines: 1,
            first: None,
        }),
    );
}
