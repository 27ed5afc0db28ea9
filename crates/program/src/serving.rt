ghost use Rattle.std.specs.Prelude.{◌≡◌, ◌≤◌, ◌++◌, IfOk, IfErr, false, true, map, codes};
ghost use Rattle.std.specs.Io.KnownBytes.{Appends};
ghost use Rattle.command_line.specs.Lines.{IsNotTaken};
ghost use Rattle.run_files.specs.Statuses.{status_of, stop_text};
ghost use Rattle.program.specs.Runs.{IsLeft, IsLeftBy, IsLeftOf, IsRefusedBy, IsReported};
ghost use Rattle.program.specs.Runs.{IsReportedBy, IsRun, IsStopBy, IsStopOf, IsStopOn};
ghost use Rattle.program.specs.Runs.{IsStoppedBy};
ghost use Rattle.seq_report.specs.Written.{HasWritten};

use crate::trials::try_edits;
use crate::writers::Lent;
use claim_run::{Gate, Workers};
use command_line::{Line, Task, read_line};
use run_files::{Readers, Stop, read_texts, report_stop, status_on};
use seq_report::{
    CutPlan, Inputs, Options, Sink, Through, first_fail, put_all, report, write_last_line,
};
use std::alloc::Global;
use std::io::Write;
use std::sync::Wait;
use std::thread::Threads;

/// The options of the report that a line asks for.
fn options_of(line: Line<'_>) -> Options<'static>
    requires workers { (1 ≤ line.workers) × (line.workers ≤ 16) }
    ensures workers { result.workers ≡ line.entry.workers }
    ensures cuts { result.cuts ≡ CutPlan.Every line.entry.chunk }
{
    let Some(workers) = Workers::new(line.workers as u8) else {
        unreachable!()
    };
    Options {
        workers,
        cuts: CutPlan::Every(line.chunk),
    }
}

/// Writes the report on the inputs to a sink, and gives the exit status: 0, or 1 where a step
/// fails.
fn report_to<G: Gate, T: Threads + Wait + Sync, S: Sink>(
    rt: &T,
    alloc: Global,
    gate: &G,
    inputs: &Inputs<'_>,
    line: Line<'_>,
    sink: &mut S,
) -> Result<u8, Stop>
    requires chunk { 1 ≤ line.chunk }
    requires workers { (1 ≤ line.workers) × (line.workers ≤ 16) }
    requires sound { S.has_failed sink.old ≡ false }
    ensures written { (edits : _) → IfOk result (λ status.
        HasWritten (S.contents sink.old) (S.contents sink.new)
        (IsRun Task.Check inputs.now edits status)) }
    ensures status { IfOk result (λ status. status ≤ 1) }
    ensures stopped { (edits : _) → IfErr result
        (IsStopOn Task.Check inputs.now edits (S.has_failed sink.new)) }
    ensures left { (edits : _) → IfErr result (λ stop.
        HasWritten (S.contents sink.old) (S.contents sink.new)
        (IsLeft Task.Check inputs.now edits stop)) }
{
    let options = options_of(line);
    let summary = match report(rt, alloc, gate, inputs, &options, sink) {
        Ok(summary) => summary,
        Err(fault) => return Err(Stop::from(fault)),
    };
    Ok(status_on(summary.first))
}

/// Writes the last line of the report on the inputs alone to a sink, and gives the same status.
fn first_to<G: Gate, T: Threads + Wait + Sync, S: Sink>(
    rt: &T,
    alloc: Global,
    gate: &G,
    inputs: &Inputs<'_>,
    line: Line<'_>,
    sink: &mut S,
) -> Result<u8, Stop>
    requires chunk { 1 ≤ line.chunk }
    requires workers { (1 ≤ line.workers) × (line.workers ≤ 16) }
    requires sound { S.has_failed sink.old ≡ false }
    ensures written { (edits : _) → IfOk result (λ status.
        HasWritten (S.contents sink.old) (S.contents sink.new)
        (IsRun Task.First inputs.now edits status)) }
    ensures status { IfOk result (λ status. status ≤ 1) }
    ensures stopped { (edits : _) → IfErr result
        (IsStopOn Task.First inputs.now edits (S.has_failed sink.new)) }
    ensures left { (edits : _) → IfErr result (λ stop.
        HasWritten (S.contents sink.old) (S.contents sink.new)
        (IsLeft Task.First inputs.now edits stop)) }
{
    let options = options_of(line);
    let first = match first_fail(rt, alloc, gate, inputs, &options) {
        Ok(first) => first,
        Err(fault) => return Err(Stop::from(fault)),
    };
    let mut text = String::new(alloc);
    if write_last_line(&mut text, first).is_err() {
        return Err(Stop::NoMemory);
    }
    match put_all(sink, text.as_bytes()) {
        Ok(()) => Ok(status_on(first)),
        Err(_) => Err(Stop::Write),
    }
}

/// Tries edits of the steps that the inputs order, writes to a sink what became of each and then
/// the report on the list that is left, and gives the status of that report.
fn trial_to<G: Gate, T: Threads + Wait + Sync, S: Sink>(
    rt: &T,
    alloc: Global,
    gate: &G,
    inputs: &Inputs<'_>,
    edits: &[u8],
    line: Line<'_>,
    sink: &mut S,
) -> Result<u8, Stop>
    requires chunk { 1 ≤ line.chunk }
    requires workers { (1 ≤ line.workers) × (line.workers ≤ 16) }
    requires sound { S.has_failed sink.old ≡ false }
    ensures written { IfOk result (λ status.
        HasWritten (S.contents sink.old) (S.contents sink.new)
        (IsRun Task.WhatIf inputs.now edits.now status)) }
    ensures status { IfOk result (λ status. status ≤ 1) }
    ensures stopped { IfErr result
        (IsStopOn Task.WhatIf inputs.now edits.now (S.has_failed sink.new)) }
    ensures left { IfErr result (λ stop.
        HasWritten (S.contents sink.old) (S.contents sink.new)
        (IsLeft Task.WhatIf inputs.now edits.now stop)) }
{
    let options = options_of(line);
    let trial = try_edits(alloc, inputs, edits)?;
    let Ok(()) = put_all(sink, trial.answers.as_bytes()) else {
        return Err(Stop::Write);
    };
    let summary = match trial.session.report(rt, gate, &options, sink) {
        Ok(summary) => summary,
        Err(fault) => return Err(Stop::from(fault)),
    };
    Ok(status_on(summary.first))
}

/// Writes to a sink what a line asks for on these inputs and edits, and gives the exit status: 0,
/// or 1 where a step fails.
fn task_to<G: Gate, T: Threads + Wait + Sync, S: Sink>(
    rt: &T,
    alloc: Global,
    gate: &G,
    inputs: &Inputs<'_>,
    edits: &[u8],
    line: Line<'_>,
    sink: &mut S,
) -> Result<u8, Stop>
    requires chunk { 1 ≤ line.chunk }
    requires workers { (1 ≤ line.workers) × (line.workers ≤ 16) }
    requires sound { S.has_failed sink.old ≡ false }
    ensures written { IfOk result (λ status.
        HasWritten (S.contents sink.old) (S.contents sink.new)
        (IsRun line.entry.task inputs.now edits.now status)) }
    ensures status { IfOk result (λ status. status ≤ 1) }
    ensures stopped { IfErr result
        (IsStopOn line.entry.task inputs.now edits.now (S.has_failed sink.new)) }
    ensures left { IfErr result (λ stop.
        HasWritten (S.contents sink.old) (S.contents sink.new)
        (IsLeft line.entry.task inputs.now edits.now stop)) }
{
    match line.task {
        Task::Check => report_to(rt, alloc, gate, inputs, line, sink),
        Task::First => first_to(rt, alloc, gate, inputs, line, sink),
        Task::WhatIf => trial_to(rt, alloc, gate, inputs, edits, line, sink),
    }
}

/// Writes to a sink what a line asks for on its files, and gives the same status.
fn line_to<R: Readers, G: Gate, T: Threads + Wait + Sync, S: Sink>(
    rt: &T,
    alloc: Global,
    gate: &G,
    files: &mut R,
    line: Line<'_>,
    sink: &mut S,
) -> Result<u8, Stop>
    requires chunk { 1 ≤ line.chunk }
    requires workers { (1 ≤ line.workers) × (line.workers ≤ 16) }
    requires sound { S.has_failed sink.old ≡ false }
    ensures told { IfOk result (λ status.
        HasWritten (S.contents sink.old) (S.contents sink.new)
        (IsReported (R.known files.old) line.entry status)) }
    ensures status { IfOk result (λ status. status ≤ 1) }
    ensures stopped { IfErr result (IsStopOf (R.known files.old) line.entry) }
    ensures left { IfErr result (λ stop.
        HasWritten (S.contents sink.old) (S.contents sink.new)
        (IsLeftOf (R.known files.old) line.entry stop)) }
{
    let texts = read_texts(alloc, files, line)?;
    task_to(rt, alloc, gate, &texts.inputs(), texts.edits(), line, sink)
}

/// The exit status of a run that writes what its line asks for on its files: 0, or 1 where a step
/// fails.
fn run_line<R: Readers, G: Gate, T: Threads + Wait + Sync, O: Write>(
    rt: &T,
    alloc: Global,
    gate: &G,
    files: &mut R,
    line: Line<'_>,
    out: &mut O,
) -> Result<u8, Stop>
    requires chunk { 1 ≤ line.chunk }
    requires workers { (1 ≤ line.workers) × (line.workers ≤ 16) }
    ensures told { IfOk result (λ status.
        HasWritten (O.contents out.old) (O.contents out.new)
        (IsReported (R.known files.old) line.entry status)) }
    ensures status { IfOk result (λ status. status ≤ 1) }
    ensures stopped { IfErr result (IsStopOf (R.known files.old) line.entry) }
    ensures left { IfErr result (λ stop.
        HasWritten (O.contents out.old) (O.contents out.new)
        (IsLeftOf (R.known files.old) line.entry stop)) }
{
    let mut sink = Through::new(Lent { writer: out });
    let status = line_to(rt, alloc, gate, files, line, &mut sink);
    let Lent { writer } = sink.into_inner();
    // No effect at run time: the proof reads what `out` holds from this use of it.
    let _ = &*writer;
    status
}

/// The exit status of a run on the words of a command line that writes what they ask for, or what
/// stopped it.
fn run_words<R: Readers, G: Gate, T: Threads + Wait + Sync, O: Write>(
    rt: &T,
    alloc: Global,
    gate: &G,
    files: &mut R,
    words: &[&str],
    out: &mut O,
) -> Result<u8, Stop>
    ensures told { IfOk result (λ status.
        HasWritten (O.contents out.old) (O.contents out.new)
        (IsReportedBy (R.known files.old) (map (λ w. w.now) words.now) status)) }
    ensures status { IfOk result (λ status. status ≤ 1) }
    ensures stopped { IfErr result (IsStopBy (R.known files.old) (map (λ w. w.now) words.now)) }
    ensures left { IfErr result (λ stop.
        HasWritten (O.contents out.old) (O.contents out.new)
        (IsLeftBy (R.known files.old) (map (λ w. w.now) words.now) stop)) }
{
    match read_line(alloc, words) {
        Ok(line) => run_line(rt, alloc, gate, files, line, out),
        Err(fault) => Err(Stop::from(fault)),
    }
}

/// The whole program over readers and writers: what it writes goes to `out`, and one line on what
/// stopped it to `err`. The gate is called by the workers, once for each chunk that one takes. It
/// answers the exit status: 0 all steps pass, 1 some step fails, 2 an input is refused, 3 usage
/// error or help, 4 out of memory, 5 a file can't be read or `out` can't be written. A fault of
/// `err` changes nothing.
///
/// With 0 or 1 all that the words ask for is written to `out`, and nothing to `err`. With any other
/// status nothing is written to `out`, but for the front of that where `out` can't be written, and
/// the answers to edits where memory runs out for the report behind them.
pub fn serve<R: Readers, G: Gate, T: Threads + Wait + Sync, O: Write, E: Write>(
    rt: &T,
    alloc: Global,
    gate: &G,
    files: &mut R,
    words: &[&str],
    out: &mut O,
    err: &mut E,
) -> u8
    ensures range { result ≤ 5 }
    ensures told { result ≤ 1 → HasWritten (O.contents out.old) (O.contents out.new)
        (IsReportedBy (R.known files.old) (map (λ w. w.now) words.now) result) }
    ensures left { 2 ≤ result → IsStoppedBy (R.known files.old) (map (λ w. w.now) words.now) result
        (O.contents out.old) (O.contents out.new) }
    ensures refused { result ≡ 2 → IsRefusedBy (R.known files.old) (map (λ w. w.now) words.now) }
    ensures usage { result ≡ 3 → IsNotTaken (map (λ w. w.now) words.now) }
    ensures quiet { result ≤ 1 → E.contents err.new ≡ E.contents err.old }
{
    match run_words(rt, alloc, gate, files, words, out) {
        Ok(status) => status,
        Err(stop) => report_stop(&stop, err),
    }
}
