ghost use Rattle.std.specs.Prelude.{◌≡◌, ◌+◌, length, false, true, IfOk, IfErr, Ok, Err};
ghost use Rattle.prefix_scan.specs.Cut.{Divides};
ghost use Rattle.port_call.specs.Views.{case_in_view};
ghost use Rattle.port_call.specs.Cases.{IsMade, case_on};
ghost use Rattle.port_call.specs.Grounds.{HasArrived};
ghost use Rattle.port_call.specs.Refusals.{IsOfRun, TellsMemory, is_refusal};
ghost use Rattle.seq_report.specs.Cases.{outcome_in};
ghost use Rattle.running_sums.specs.Lines.{AreFirstSums};
ghost use Rattle.seq_report.specs.Delivery.{Delivers, IsByPlan};
ghost use Rattle.seq_report.specs.Refusal.{outcome_of};

use crate::complete::{CompleteReport, Summary};
use crate::jobs::{Lines, Texts};
use crate::plans::{Options, cuts_and_sums};
use crate::sink::Sink;
use claim_run::{Gate, Workers, run};
use decimal_text::FourDigits;
use lift_sequence::{Arrival, Sequence};
use moment_sums::Totals;
use port_call::{Case, Inputs, PortCall, RunFault};
use prefix_scan::Cuts;
use ship_profile::Profile;
use std::alloc::{AllocError, Global};
use std::sync::Wait;
use std::thread::Threads;
use strength::Hull;

/// The report on a case, whose chunks workers make.
fn report_in_chunks<G: Gate, R: Threads + Wait + Sync>(
    rt: &R,
    alloc: Global,
    gate: &G,
    workers: Workers,
    lines: &Lines<'_>,
) -> Result<CompleteReport, AllocError>
    ensures { IfOk result (λ made. made ≡ outcome_in (case_in_view lines.now.case)) }
{
    let digits = FourDigits::new(alloc)?;
    let texts = Texts { lines, digits };
    let made = run(rt, alloc, gate, workers, lines.chunks(), &texts)?;
    CompleteReport::join(alloc, made, lines.case.lines())
}

/// Writes a report that is made, or says how much of it the sink took before it failed.
fn put_report<S: Sink>(made: &CompleteReport, sink: &mut S) -> Result<Summary, RunFault>
    requires sound { S.has_failed sink.old ≡ false }
    ensures delivers { Delivers (Ok made.now) result (S.contents sink.old) (S.contents sink.new)
        (S.has_failed sink.new) }
    ensures fault { IfErr result IsOfRun }
{
    match made.put_into(sink) {
        Ok(()) => Ok(made.summary()),
        Err(written) => Err(RunFault::Write(written)),
    }
}

/// Writes the report on a case, whose chunks workers make.
fn report_lines<G: Gate, R: Threads + Wait + Sync, S: Sink>(
    rt: &R,
    alloc: Global,
    gate: &G,
    workers: Workers,
    lines: &Lines<'_>,
    sink: &mut S,
) -> Result<Summary, RunFault>
    requires sound { S.has_failed sink.old ≡ false }
    ensures delivers { Delivers (Ok (outcome_in (case_in_view lines.now.case))) result
        (S.contents sink.old) (S.contents sink.new) (S.has_failed sink.new) }
    ensures fault { IfErr result IsOfRun }
{
    match report_in_chunks(rt, alloc, gate, workers, lines) {
        Ok(made) => put_report(&made, sink),
        Err(AllocError) => Err(RunFault::NoMemory),
    }
}

/// Writes the report on a ship, what is aboard of her on arrival and the steps from there to a sink
/// that has not failed. The sequence is one that was made with this profile and arrival, the cuts
/// divide its lines (the condition on arrival and one line for each step), and `sums` has, for each
/// chunk, everything that is aboard at its first line added up.
///
/// Nothing is written out of memory (F7). Where the sink fails, it holds a prefix of the report, of
/// the length that F8 says.
pub fn report_from<'a, G: Gate, R: Threads + Wait + Sync, S: Sink>(
    rt: &R,
    alloc: Global,
    gate: &G,
    profile: &'a Profile,
    arrival: &'a Arrival,
    sequence: &'a Sequence,
    workers: Workers,
    cuts: &'a Cuts,
    sums: &'a [Totals],
    sink: &mut S,
) -> Result<Summary, RunFault>
    requires case { HasArrived profile.now arrival.now
        × IsMade profile.now arrival.now sequence.now }
    requires cut { Divides cuts.now (length sequence.now.ops + 1) }
    requires sums { AreFirstSums profile.now.ship.frames
        arrival.now.bodies sequence.now.steps cuts.now sums.now }
    requires sound { S.has_failed sink.old ≡ false }
    ensures delivers { Delivers
        (Ok (outcome_in (case_on profile.entry.now arrival.entry.now sequence.entry.now))) result
        (S.contents sink.old) (S.contents sink.new) (S.has_failed sink.new) }
    ensures fault { IfErr result IsOfRun }
{
    let case = Case::new(profile, arrival, sequence);
    let hull = Hull::new(profile);
    let lines = Lines {
        case,
        hull,
        cuts,
        sums,
    };
    report_lines(rt, alloc, gate, workers, &lines, sink)
}

/// Writes the report on a port call, in the chunks of a plan.
fn report_call<G: Gate, R: Threads + Wait + Sync, S: Sink>(
    rt: &R,
    alloc: Global,
    gate: &G,
    call: &PortCall,
    options: &Options<'_>,
    sink: &mut S,
) -> Result<Summary, RunFault>
    requires sound { S.has_failed sink.old ≡ false }
    ensures delivers { Delivers (Ok (outcome_in call.now)) result
        (S.contents sink.old) (S.contents sink.new) (S.has_failed sink.new) }
    ensures plan { IsByPlan options.now.cuts (Ok (outcome_in call.now)) result }
    ensures accepted { IfErr result (λ e. is_refusal e ≡ false) }
    ensures memory { IfErr result TellsMemory }
{
    let (cuts, sums) = match cuts_and_sums(rt, alloc, gate, call, options) {
        Ok(made) => made,
        Err(fault) => return Err(fault),
    };
    let case = call.case();
    let lines = Lines {
        case,
        hull: Hull::new(case.profile),
        cuts: &cuts,
        sums: &sums,
    };
    report_lines(rt, alloc, gate, options.workers, &lines, sink)
}

/// Writes the report on the inputs to a sink that has not failed. What is written follows from the
/// input bytes alone, whatever the number of workers, the gate and the cuts: the heading; the line
/// of the condition on arrival and of each step behind it, whose figures come from adding up
/// everything that is aboard at that step; and the first step that fails, with its first criterion.
///
/// The inputs are refused in the order profile (F1), bay plan (F2), arrival (F3), movement
/// instruction (F4), steps file (F9), sequence (F5), and then cuts that don't fit the lines (F6).
/// Nothing is written then, nor out of memory (F7), which may stand for any refusal, as none may
/// for it; a worker that can't be started is reported as F7 too. Where the sink fails, it holds a
/// prefix of the report, of the length that F8 says.
pub fn report<G: Gate, R: Threads + Wait + Sync, S: Sink>(
    rt: &R,
    alloc: Global,
    gate: &G,
    inputs: &Inputs<'_>,
    options: &Options<'_>,
    sink: &mut S,
) -> Result<Summary, RunFault>
    requires sound { S.has_failed sink.old ≡ false }
    ensures delivers { Delivers (outcome_of inputs.now) result
        (S.contents sink.old) (S.contents sink.new) (S.has_failed sink.new) }
    ensures plan { IsByPlan options.now.cuts (outcome_of inputs.now) result }
    ensures refused { IfErr result (λ e. is_refusal e ≡ true → outcome_of inputs.now ≡ Err e) }
    ensures memory { IfErr result TellsMemory }
{
    let call = match PortCall::read_beside(rt, alloc, options.workers.get(), inputs) {
        Ok(call) => call,
        Err(fault) => return Err(RunFault::from(fault)),
    };
    report_call(rt, alloc, gate, &call, options, sink)
}
