ghost use Rattle.std.specs.Prelude.{◌≡◌, ◌+◌, ◌≤◌, length, false, true, IfOk, IfErr, Ok, Err};
ghost use Rattle.prefix_scan.specs.declared.divisions.CutFault.{CutFault as CutFaultValue};
ghost use Rattle.port_call.specs.Views.{case_in_view};
ghost use Rattle.port_call.specs.Grounds.{IsArrivalTotal};
ghost use Rattle.port_call.specs.Refusals.{TellsMemory, is_refusal, is_write};
ghost use Rattle.seq_report.specs.Sums.{IsSumAt};
ghost use Rattle.seq_report.specs.Cases.{ArePassed, IsFirstStep, outcome_in};
ghost use Rattle.seq_report.specs.Plans.{Fits, IsPlanFault, IsUncut};
ghost use Rattle.seq_report.specs.Refusal.{Outcome, outcome_of};

use crate::jobs::Lines;
use crate::plans::{Options, cuts_and_sums};
use crate::sections::{Chunk, first_failing};
use crate::sums::walk_on;
use claim_run::{Gate, Workers, run_least};
use criteria::Criterion;
use moment_sums::Totals;
use port_call::{Case, Inputs, PortCall, RunFault};
use std::alloc::{AllocError, Global};
use std::sync::Wait;
use std::thread::Threads;
use strength::Hull;

/// The first step that fails, with its criterion, where the least step that fails in any chunk is
/// known.
fn first_with(lines: &Lines<'_>, least: u32) -> Option<(u32, Criterion)>
    requires { IsFirstStep (case_in_view lines.now.case) lines.now.cuts.now least }
    ensures { result ≡ (outcome_in (case_in_view lines.now.case)).summary.first }
{
    for chunk in 0..lines.chunks() {
        if least < lines.cuts.range(chunk as usize).end {
            return lines.first_in(chunk);
        }
    }
    None
}

/// The first step that fails, with its criterion. Workers look at the chunks, and leave out those
/// that begin behind a step that is known to fail.
fn first_in_chunks<G: Gate, R: Threads + Wait + Sync>(
    rt: &R,
    alloc: Global,
    gate: &G,
    workers: Workers,
    lines: &Lines<'_>,
) -> Result<Option<(u32, Criterion)>, AllocError>
    ensures { IfOk result
        (λ first. first ≡ (outcome_in (case_in_view lines.now.case)).summary.first) }
{
    match run_least(rt, alloc, gate, workers, lines.chunks(), lines)? {
        Some(least) => Ok(first_with(lines, least)),
        None => Ok(None),
    }
}

/// The first step of a port call that fails, with its first criterion, found in the chunks of a
/// plan.
fn first_of_call<G: Gate, R: Threads + Wait + Sync>(
    rt: &R,
    alloc: Global,
    gate: &G,
    call: &PortCall,
    options: &Options<'_>,
) -> Result<Option<(u32, Criterion)>, RunFault>
    ensures first { IfOk result (λ first. (first ≡ (outcome_in call.now).summary.first)
        × Fits options.now.cuts (outcome_in call.now).summary.lines) }
    ensures uncut { IfErr result (IsUncut options.now.cuts (outcome_in call.now).summary.lines) }
{
    let (cuts, sums) = match cuts_and_sums(rt, alloc, gate, call, options) {
        Ok(made) => made,
        Err(fault) => return Err(fault),
    };
    let case = call.case();
    let lines = Lines {
        case,
        hull: Hull::new(case.profile),
        cuts: &cuts,
        sums: &sums,
    };
    match first_in_chunks(rt, alloc, gate, options.workers, &lines) {
        Ok(first) => Ok(first),
        Err(AllocError) => Err(RunFault::NoMemory),
    }
}

/// The first step that fails, 0 being the condition on arrival, with its first criterion, as the
/// report on the inputs names it; `None` where all steps pass. It is the same for every number of
/// workers, every gate and every cut, and lines behind a step that is known to fail may be left
/// out.
///
/// The inputs are refused in the order profile (F1), bay plan (F2), arrival (F3), movement
/// instruction (F4), steps file (F9), sequence (F5), and then cuts that don't fit the lines (F6).
/// Out of memory (F7) may stand for any refusal, as none may for it.
pub fn first_fail<G: Gate, R: Threads + Wait + Sync>(
    rt: &R,
    alloc: Global,
    gate: &G,
    inputs: &Inputs<'_>,
    options: &Options<'_>,
) -> Result<Option<(u32, Criterion)>, RunFault>
    ensures first { IfOk result (λ first. (outcome : Outcome)
        × (outcome_of inputs.now ≡ Ok outcome) × (first ≡ outcome.summary.first)
        × Fits options.now.cuts outcome.summary.lines) }
    ensures refused { IfErr result (λ e. is_refusal e ≡ true → outcome_of inputs.now ≡ Err e) }
    ensures unfit { IfErr result (λ e. (fault : CutFaultValue) → e ≡ RunFault.Cuts fault
        → (outcome : Outcome) × (outcome_of inputs.now ≡ Ok outcome)
        × IsPlanFault options.now.cuts outcome.summary.lines fault) }
    ensures silent { is_write result ≡ false }
    ensures memory { IfErr result TellsMemory }
{
    let call = match PortCall::read_beside(rt, alloc, options.workers.get(), inputs) {
        Ok(call) => call,
        Err(fault) => return Err(RunFault::from(fault)),
    };
    first_of_call(rt, alloc, gate, &call, options)
}

/// Everything that is aboard at line `k`, added up step by step from what is aboard on arrival.
fn sum_at(case: Case<'_>, k: u32, total: &Totals) -> Totals
    requires there { k ≤ length case.sequence.now.ops }
    requires total { IsArrivalTotal case.profile.now case.arrival.now total.now }
    ensures { IsSumAt (case_in_view case.entry) k result }
{
    let mut sum = *total;
    for line in 0..k {
        walk_on(case, line, &mut sum);
    }
    sum
}

/// The first step that fails of a case, 0 being the condition on arrival, with its first criterion,
/// as a report on it names it, for whoever knows that all lines before the line `start` pass: the
/// steps before it are added up, and only the lines from there on are judged. `None` where all
/// steps pass. `total` is everything that is aboard on arrival, added up.
pub fn first_fail_behind(case: Case<'_>, start: u32, total: &Totals) -> Option<(u32, Criterion)>
    requires total { IsArrivalTotal case.profile.now case.arrival.now total.now }
    requires inside { start ≤ length case.sequence.now.ops }
    requires passed { ArePassed (case_in_view case) start }
    ensures { result ≡ (outcome_in (case_in_view case.entry)).summary.first }
{
    let rest = Chunk {
        start,
        end: case.lines(),
        first: sum_at(case, start, total),
    };
    first_failing(case, &Hull::new(case.profile), &rest)
}
