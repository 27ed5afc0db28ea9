ghost use Rattle.std.specs.Prelude.{◌≢◌, ◌+◌, ◌<◌, length, IfOk, IfErr};
ghost use Rattle.prefix_scan.specs.Cut.{Divides};
ghost use Rattle.running_sums.specs.Lines.{AreFirstSums};
ghost use Rattle.seq_report.specs.Cases.{outcome_in};
ghost use Rattle.seq_report.specs.Plans.{Fits, IsPlanFault, IsUncut};

use crate::sums::sums_of;
use claim_run::{Gate, Workers};
use moment_sums::Totals;
use port_call::{PortCall, RunFault, cuts_refusal};
use prefix_scan::{CutFault, Cuts};
use std::alloc::{AllocError, Global};
use std::sync::Wait;
use std::thread::Threads;

/// Where the lines of a report are cut into chunks. The report is the same for every plan.
#[derive(Clone, Copy, Debug)]
pub enum CutPlan<'a> {
    /// Chunks of this number of lines, the last with what is left.
    Every(u32),
    /// Chunks that end before these lines, the first line being 0; the last end is the number of
    /// lines.
    At(&'a [u32]),
}

/// How a report is made. The report is the same for all options.
#[derive(Clone, Copy, Debug)]
pub struct Options<'a> {
    /// How many threads work at it.
    pub workers: Workers,
    /// Where its lines are cut into chunks.
    pub cuts: CutPlan<'a>,
}

/// The cuts of a plan for this number of lines, or the first fault of the plan.
pub fn cuts_of(alloc: Global, plan: CutPlan<'_>, lines: u32) -> Result<Cuts, CutFault>
    requires { 0 < lines }
    ensures cut { IfOk result (λ cuts. Divides cuts lines) }
    ensures fits { IfOk result (λ _. Fits plan.entry lines) }
    ensures unfit { IfErr result
        (λ fault. fault ≢ CutFault.NoMemory → IsPlanFault plan.entry lines fault) }
{
    match plan {
        CutPlan::Every(n) => Cuts::every(alloc, n, lines),
        CutPlan::At(ends) => Cuts::at(alloc, ends, lines),
    }
}

/// The cuts that a plan makes of a port call's lines, and the sum at the first line of each chunk;
/// or the fault of the plan.
pub fn cuts_and_sums<G: Gate, R: Threads + Wait + Sync>(
    rt: &R,
    alloc: Global,
    gate: &G,
    call: &PortCall,
    options: &Options<'_>,
) -> Result<(Cuts, Vec<Totals>), RunFault>
    ensures cut { IfOk result (λ made. Divides made.0 (length call.now.sequence.ops + 1)) }
    ensures sums { IfOk result (λ made. AreFirstSums call.now.profile.ship.frames
        call.now.arrival.bodies call.now.sequence.steps made.0 made.1.items) }
    ensures fits { IfOk result
        (λ _. Fits options.now.cuts (outcome_in call.now).summary.lines) }
    ensures uncut { IfErr result (IsUncut options.now.cuts (outcome_in call.now).summary.lines) }
{
    let cuts = match cuts_of(alloc, options.cuts, call.case().lines()) {
        Ok(cuts) => cuts,
        Err(fault) => return Err(cuts_refusal(fault)),
    };
    match sums_of(rt, alloc, gate, options.workers, call, &cuts) {
        Ok(sums) => Ok((cuts, sums)),
        Err(AllocError) => Err(RunFault::NoMemory),
    }
}
