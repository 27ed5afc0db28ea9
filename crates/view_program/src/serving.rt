ghost use Rattle.std.specs.Prelude.{◌≡◌, ◌≤◌, ◌++◌, IfOk, IfErr, OnOk, string_bytes};
ghost use Rattle.std.specs.Io.KnownBytes.{Appends};
ghost use Rattle.port_call.specs.Views.{case_in_view};
ghost use Rattle.seq_report.specs.Written.{HasWritten};
ghost use Rattle.ship_profile.specs.Record.{texts_of};
ghost use Rattle.view_program.specs.Answers.{IsAnswerBy, IsAnswerOf, IsAnswerOn};
ghost use Rattle.view_program.specs.Answers.{IsProfileAnswer, IsProfileAnswerOn, IsRefusedBy};
ghost use Rattle.view_program.specs.Answers.{IsUnrefused, IsUntouched};
ghost use Rattle.view_program.specs.Answers.{IsSessionOf, IsSessionOn, IsShownBy};
ghost use Rattle.view_program.specs.Shown.{IsExplanation, IsPage, IsShown, IsStopOn, IsSummary};
ghost use Rattle.view_program.specs.Shown.{IsTable, IsTextOf, OfTexts, files_of, first_in};

use crate::refusing::{REFUSED, put, tell_refusal, tell_unread};
use crate::sessions::session_to;
use crate::words::{Command, SessionLine, View, ViewLine, names_of, read_command};
use crate::working::{Asked, Beside, Looks, Seen, see, see_beside, sources_beside, work};
use claim_run::{Gate, Workers};
use command_line::{Line, Task};
use criteria::Criterion;
use plain_text::count_of;
use port_call::{Inputs, RunFault};
use run_files::{Makers, Readers, Stop, Texts, read_folder, read_texts, report_stop, status_on};
use seq_report::{Lines, write_last_line};
use ship_profile::{Profile, ProfileBytes, ProfileFault};
use std::alloc::{AllocError, Global};
use std::io::{BufRead, Write};
use std::sync::Wait;
use std::thread::Threads;
use view_curves::charted_in;
use view_figures::condition_at;
use view_inputs::{Notice, cells_in, lifts_of, notices_on};
use view_page::{Conditions, ReadInputs, page_of};
use view_profile::{Parts, profile_text};
use view_refusals::profile_refusal_of;
use view_table::{Form, TableFault, csv_heading, write_lines};
use view_texts::{
    Odd, add_sheet, end_line, explanation_of, profile_source, run_line, summary_front,
};

/// The words by which the files are read.
fn files_of<'a>(line: ViewLine<'a>) -> Line<'a>
    ensures { result ≡ files_of line.entry }
{
    Line {
        task: Task::Check,
        folder: line.folder,
        baplie: line.baplie,
        movins: line.movins,
        edits: None,
        steps: line.steps,
        workers: line.workers,
        chunk: line.chunk,
    }
}

/// The warnings on a profile that tell what isn't read of it: V1 and V2.
fn misread(alloc: Global, warnings: Vec<Notice>) -> Result<Vec<Notice>, AllocError> {
    let mut list = Vec::new(alloc);
    for warning in warnings {
        if warning.code == "V1" || warning.code == "V2" {
            list.push(warning)?;
        }
    }
    Ok(list)
}

/// The summary but for its last line, with what is odd of the inputs.
fn summary_of(
    alloc: Global,
    lines: &Lines<'_>,
    seen: &Seen,
    beside: Beside,
    inputs: &Inputs<'_>,
    line: ViewLine<'_>,
) -> Result<String, AllocError> {
    let Beside {
        sources,
        marks,
        looks,
        ..
    } = beside;
    let Looks { warnings, cargo } = looks;
    let names = names_of(line);
    let name = sources.name.as_str();
    let count = count_of(warnings.len());
    let mut list = misread(alloc, warnings)?;
    for notice in notices_on(alloc, marks, cargo, inputs.steps, name)? {
        list.push(notice)?;
    }
    let odd = Odd {
        warnings: count,
        notices: list.as_slice(),
    };
    let first = seen.first();
    summary_front(alloc, lines, &seen.findings, first, &names, &sources, odd)
}

/// The summary of what is seen of a port call.
fn summary_text(
    alloc: Global,
    lines: &Lines<'_>,
    seen: &Seen,
    beside: Beside,
    inputs: &Inputs<'_>,
    line: ViewLine<'_>,
) -> Result<String, AllocError>
    ensures { IfOk result (λ text. IsSummary seen.now.worked.call (string_bytes text)) }
{
    let first = seen.first();
    let mut text = summary_of(alloc, lines, seen, beside, inputs, line)?;
    write_last_line(&mut text, first)?;
    Ok(text)
}

/// The page of what is seen of a port call, with all that is odd of it.
fn page_text<G: Gate, T: Threads + Wait + Sync>(
    rt: &T,
    alloc: Global,
    gate: &G,
    workers: Workers,
    seen: &Seen,
    beside: Beside,
    inputs: &Inputs<'_>,
    line: ViewLine<'_>,
) -> Result<String, AllocError> {
    let Beside {
        sources,
        marks,
        looks,
        series,
    } = beside;
    let Looks { warnings, cargo } = looks;
    let name = sources.name.as_str();
    let mut notices = notices_on(alloc, marks, cargo, inputs.steps, name)?;
    for warning in warnings {
        notices.push(warning)?;
    }
    let names = names_of(line);
    let read = ReadInputs {
        names: &names,
        sources: &sources,
        notices: notices.as_slice(),
    };
    let lines = seen.worked.lines();
    let series = match series {
        Some(series) => series,
        // they are there, since a page asks for them
        None => charted_in(rt, alloc, gate, workers, &lines)?.series,
    };
    let conditions = Conditions {
        findings: &seen.findings,
        series: &series,
        first: seen.first(),
    };
    page_of(rt, alloc, gate, workers, &lines, &conditions, &read)
}

/// The explanation of the first condition that fails.
fn explanation_text(
    alloc: Global,
    lines: &Lines<'_>,
    seen: &Seen,
    inputs: &Inputs<'_>,
) -> Result<String, AllocError>
    ensures { IfOk result (λ text. IsExplanation None seen.now.worked.call (string_bytes text)) }
{
    let first = seen.first();
    let behind = explanation_of(alloc, lines, &seen.findings, first, inputs)?;
    let mut text = String::new(alloc);
    write_last_line(&mut text, first)?;
    text.push_str(behind.as_str())?;
    Ok(text)
}

/// The sheet of a condition; a usage error where there is no such condition.
fn sheet_text(alloc: Global, lines: &Lines<'_>, step: u32) -> Result<String, Stop>
    ensures { (inputs : _) → IfErr result (IsStopOn inputs) }
{
    let Some(condition) = condition_at(lines, step) else {
        let last = lines.case.lines().saturating_sub(1);
        return match format!(in alloc; "there is no condition {step}; the list has 0 to {last}") {
            Ok(fault) => Err(Stop::Usage(fault)),
            Err(_) => Err(Stop::NoMemory),
        };
    };
    let mut text = String::new(alloc);
    match add_sheet(alloc, &mut text, lines.case, &condition) {
        Ok(()) => Ok(text),
        Err(AllocError) => Err(Stop::NoMemory),
    }
}

/// What an explanation of a condition is asked to print, of what is seen of the inputs.
fn explanation_for(
    alloc: Global,
    lines: &Lines<'_>,
    seen: &Seen,
    inputs: &Inputs<'_>,
    condition: Option<u32>,
) -> Result<String, Stop>
    ensures text { IfOk result
        (λ text. IsExplanation condition seen.now.worked.call (string_bytes text)) }
    ensures stopped { IfErr result (IsStopOn inputs.now) }
{
    match condition {
        Some(step) => sheet_text(alloc, lines, step),
        None => match explanation_text(alloc, lines, seen, inputs) {
            Ok(text) => Ok(text),
            Err(AllocError) => Err(Stop::NoMemory),
        },
    }
}

/// Writes the summary, and gives the exit status.
#[tactic(auto, using(crate::proofs::ShownLemmas::untouched_same, crate::proofs::ShownLemmas::untouched_write))]
fn summary_to<G: Gate, T: Threads + Wait + Sync, O: Write>(
    rt: &T,
    alloc: Global,
    gate: &G,
    workers: Workers,
    texts: &Texts,
    line: ViewLine<'_>,
    out: &mut O,
) -> Result<u8, Stop>
    ensures shown { IfOk result (λ status. HasWritten (O.contents out.old) (O.contents out.new)
        (λ text. OfTexts texts.now (λ inputs. IsShown IsSummary inputs status text))) }
    ensures status { IfOk result (λ status. status ≤ 1) }
    ensures stopped { IfErr result (λ stop. OfTexts texts.now (λ inputs. IsStopOn inputs stop)) }
    ensures untouched { IfErr result
        (λ stop. IsUntouched stop (O.contents out.old) (O.contents out.new)) }
{
    let (seen, beside) = match see_beside(
        rt,
        alloc,
        gate,
        workers,
        Asked::Found,
        texts,
        line.chunk,
    ) {
        Ok(both) => both,
        Err(stop) => return Err(stop),
    };
    let inputs = texts.inputs();
    let lines = seen.worked.lines();
    let Ok(text) = summary_text(alloc, &lines, &seen, beside, &inputs, line) else {
        return Err(Stop::NoMemory);
    };
    match put(out, text.as_str()) {
        Ok(()) => Ok(status_on(seen.first())),
        Err(stop) => Err(stop),
    }
}

/// Writes the page, and gives the exit status.
#[tactic(auto, using(crate::proofs::ShownLemmas::untouched_same, crate::proofs::ShownLemmas::untouched_write))]
fn page_to<G: Gate, T: Threads + Wait + Sync, O: Write>(
    rt: &T,
    alloc: Global,
    gate: &G,
    workers: Workers,
    texts: &Texts,
    line: ViewLine<'_>,
    out: &mut O,
) -> Result<u8, Stop>
    ensures shown { IfOk result (λ status. HasWritten (O.contents out.old) (O.contents out.new)
        (λ text. OfTexts texts.now (λ inputs. IsShown IsPage inputs status text))) }
    ensures status { IfOk result (λ status. status ≤ 1) }
    ensures stopped { IfErr result (λ stop. OfTexts texts.now (λ inputs. IsStopOn inputs stop)) }
    ensures untouched { IfErr result
        (λ stop. IsUntouched stop (O.contents out.old) (O.contents out.new)) }
{
    let (seen, beside) = match see_beside(
        rt,
        alloc,
        gate,
        workers,
        Asked::Drawn,
        texts,
        line.chunk,
    ) {
        Ok(both) => both,
        Err(stop) => return Err(stop),
    };
    let inputs = texts.inputs();
    let Ok(text) = page_text(rt, alloc, gate, workers, &seen, beside, &inputs, line) else {
        return Err(Stop::NoMemory);
    };
    match put(out, text.as_str()) {
        Ok(()) => Ok(status_on(seen.first())),
        Err(stop) => Err(stop),
    }
}

/// Writes the explanation, or the sheet of one condition, and gives the exit status.
#[tactic(auto, using(crate::proofs::ShownLemmas::untouched_same, crate::proofs::ShownLemmas::untouched_write))]
fn explanation_to<G: Gate, T: Threads + Wait + Sync, O: Write>(
    rt: &T,
    alloc: Global,
    gate: &G,
    workers: Workers,
    inputs: &Inputs<'_>,
    line: ViewLine<'_>,
    out: &mut O,
) -> Result<u8, Stop>
    ensures shown { IfOk result (λ status. HasWritten (O.contents out.old) (O.contents out.new)
        (IsShown (IsExplanation line.entry.condition) inputs.now status)) }
    ensures status { IfOk result (λ status. status ≤ 1) }
    ensures stopped { IfErr result (IsStopOn inputs.now) }
    ensures untouched { IfErr result
        (λ stop. IsUntouched stop (O.contents out.old) (O.contents out.new)) }
{
    let seen = match see(rt, alloc, gate, workers, inputs, line.chunk) {
        Ok(seen) => seen,
        Err(stop) => return Err(stop),
    };
    let text = match explanation_for(alloc, &seen.worked.lines(), &seen, inputs, line.condition) {
        Ok(text) => text,
        Err(stop) => return Err(stop),
    };
    match put(out, text.as_str()) {
        Ok(()) => Ok(status_on(seen.first())),
        Err(stop) => Err(stop),
    }
}

/// What stands before the lines of a table.
fn heading_of<T: Threads + Wait + Sync>(
    rt: &T,
    alloc: Global,
    lines: &Lines<'_>,
    texts: &Texts,
    line: ViewLine<'_>,
) -> Result<String, AllocError> {
    let case = lines.case;
    match line.form {
        Form::Csv => csv_heading(alloc, case.profile.frames().as_slice().len()),
        Form::Jsonl => {
            let sources = sources_beside(rt, alloc, texts)?;
            run_line(alloc, case, &names_of(line), &sources)
        }
    }
}

/// What stands behind them.
fn end_of(
    alloc: Global,
    lines: &Lines<'_>,
    form: Form,
    first: Option<(u32, Criterion)>,
) -> Result<String, AllocError> {
    match form {
        Form::Csv => Ok(String::new(alloc)),
        Form::Jsonl => end_line(alloc, lines.case.lines(), first),
    }
}

/// Writes the table of some lines, and gives the first of them that fails.
#[tactic(auto, using(crate::proofs::ShownLemmas::untouched_same, crate::proofs::ShownLemmas::untouched_write))]
fn put_table<G: Gate, T: Threads + Wait + Sync, O: Write>(
    rt: &T,
    alloc: Global,
    gate: &G,
    workers: Workers,
    lines: &Lines<'_>,
    texts: &Texts,
    line: ViewLine<'_>,
    out: &mut O,
) -> Result<Option<(u32, Criterion)>, Stop>
    ensures shown { IfOk result (λ first. HasWritten (O.contents out.old) (O.contents out.new)
        (IsTable line.entry.form (case_in_view lines.now.case))) }
    ensures first { IfOk result (λ first. first ≡ first_in (case_in_view lines.now.case)) }
    ensures stopped { (inputs : Inputs) → IfErr result (IsStopOn inputs) }
    ensures untouched { IfErr result
        (λ stop. IsUntouched stop (O.contents out.old) (O.contents out.new)) }
{
    let inputs = texts.inputs();
    let steps = lines.case.lines().saturating_sub(1);
    let Ok(lifts) = lifts_of(alloc, inputs.movins, inputs.steps, steps) else {
        return Err(Stop::NoMemory);
    };
    let Ok(heading) = heading_of(rt, alloc, lines, texts, line) else {
        return Err(Stop::NoMemory);
    };
    let Ok(()) = put(out, heading.as_str()) else {
        return Err(Stop::Write);
    };
    let first = match write_lines(rt, alloc, gate, workers, lines, line.form, lifts, out) {
        Ok(first) => first,
        Err(TableFault::NoMemory) => return Err(Stop::NoMemory),
        Err(TableFault::Write) => return Err(Stop::Write),
    };
    let Ok(end) = end_of(alloc, lines, line.form, first) else {
        return Err(Stop::NoMemory);
    };
    match put(out, end.as_str()) {
        Ok(()) => Ok(first),
        Err(stop) => Err(stop),
    }
}

/// Writes the table that a line asks for, and gives the exit status.
#[tactic(auto, using(crate::proofs::ShownLemmas::untouched_same, crate::proofs::ShownLemmas::untouched_write))]
fn table_to<G: Gate, T: Threads + Wait + Sync, O: Write>(
    rt: &T,
    alloc: Global,
    gate: &G,
    workers: Workers,
    texts: &Texts,
    line: ViewLine<'_>,
    out: &mut O,
) -> Result<u8, Stop>
    ensures shown { IfOk result (λ status. HasWritten (O.contents out.old) (O.contents out.new)
        (λ text. OfTexts texts.now
        (λ inputs. IsShown (IsTable line.entry.form) inputs status text))) }
    ensures status { IfOk result (λ status. status ≤ 1) }
    ensures stopped { IfErr result (λ stop. OfTexts texts.now (λ inputs. IsStopOn inputs stop)) }
    ensures untouched { IfErr result
        (λ stop. IsUntouched stop (O.contents out.old) (O.contents out.new)) }
{
    let inputs = texts.inputs();
    let worked = match work(rt, alloc, gate, workers, &inputs, line.chunk) {
        Ok(worked) => worked,
        Err(stop) => return Err(stop),
    };
    let lines = worked.lines();
    match put_table(rt, alloc, gate, workers, &lines, texts, line, out) {
        Ok(first) => Ok(status_on(first)),
        Err(stop) => Err(stop),
    }
}

/// Writes what a line asks for on the texts of its files, and gives the exit status.
#[tactic(auto, using(crate::proofs::ShownLemmas::untouched_same, crate::proofs::ShownLemmas::untouched_write))]
fn texts_to<G: Gate, T: Threads + Wait + Sync, O: Write>(
    rt: &T,
    alloc: Global,
    gate: &G,
    texts: &Texts,
    line: ViewLine<'_>,
    out: &mut O,
) -> Result<u8, Stop>
    ensures shown { IfOk result (λ status. HasWritten (O.contents out.old) (O.contents out.new)
        (λ text. OfTexts texts.now
        (λ inputs. IsShown (IsTextOf line.entry) inputs status text))) }
    ensures status { IfOk result (λ status. status ≤ 1) }
    ensures stopped { IfErr result (λ stop. OfTexts texts.now (λ inputs. IsStopOn inputs stop)) }
    ensures untouched { IfErr result
        (λ stop. IsUntouched stop (O.contents out.old) (O.contents out.new)) }
{
    let inputs = texts.inputs();
    // The words are 1 to 16 already, which `clap` sees to.
    let Some(workers) = Workers::new(line.workers.clamp(1, 16) as u8) else {
        return Err(Stop::NoMemory);
    };
    match line.view {
        View::Summary => summary_to(rt, alloc, gate, workers, texts, line, out),
        View::Explain => explanation_to(rt, alloc, gate, workers, &inputs, line, out),
        View::Page => page_to(rt, alloc, gate, workers, texts, line, out),
        View::Table => table_to(rt, alloc, gate, workers, texts, line, out),
    }
}

/// Writes what a line asks for on the texts of its files, or tells of their refusal, and gives the
/// exit status.
#[tactic(auto, using(crate::proofs::ShownLemmas::unrefused_other))]
fn answer_to<G: Gate, T: Threads + Wait + Sync, O: Write, E: Write>(
    rt: &T,
    alloc: Global,
    gate: &G,
    texts: &Texts,
    line: ViewLine<'_>,
    out: &mut O,
    err: &mut E,
) -> Result<u8, Stop>
    ensures answered { IfOk result (λ status.
        IsAnswerOn texts.now line.entry status (O.contents out.old) (O.contents out.new)) }
    ensures status { IfOk result (λ status. status ≤ 2) }
    ensures quiet { IfOk result
        (λ status. status ≤ 1 → E.contents err.new ≡ E.contents err.old) }
    ensures stopped { IfErr result IsUnrefused }
{
    let stop = match texts_to(rt, alloc, gate, texts, line, out) {
        Ok(status) => return Ok(status),
        Err(stop) => stop,
    };
    match stop {
        Stop::Refused(fault) => tell_refusal(alloc, fault, &texts.inputs(), line, out, err),
        stop => Err(stop),
    }
}

/// Writes what a line asks for, or tells why there is no such text, and gives the exit status.
fn line_to<R: Readers, G: Gate, T: Threads + Wait + Sync, O: Write, E: Write>(
    rt: &T,
    alloc: Global,
    gate: &G,
    files: &mut R,
    line: ViewLine<'_>,
    out: &mut O,
    err: &mut E,
) -> Result<u8, Stop>
    ensures answered { IfOk result (λ status. IsAnswerOf (R.known files.old) line.entry status
        (O.contents out.old) (O.contents out.new)) }
    ensures status { IfOk result (λ status. status ≤ 5) }
    ensures quiet { IfOk result
        (λ status. status ≤ 1 → E.contents err.new ≡ E.contents err.old) }
    ensures stopped { IfErr result IsUnrefused }
{
    match read_texts(alloc, files, files_of(line)) {
        Ok(texts) => answer_to(rt, alloc, gate, &texts, line, out, err),
        Err(stop) => tell_unread(alloc, stop, line.view == View::Explain, out, err),
    }
}

/// What is printed of a refused profile: the line of the refusal, and its explanation.
fn profile_refusal(
    alloc: Global,
    fault: ProfileFault,
    files: &ProfileBytes<'_>,
) -> Result<String, AllocError> {
    let behind = profile_refusal_of(alloc, fault, files)?;
    let stop = Stop::Refused(RunFault::Profile(fault));
    let text = format!(in alloc; "{stop}\n{behind}")?;
    Ok(text)
}

/// A profile that was read of the files of a folder, in words.
fn profile_words(
    alloc: Global,
    folder: &str,
    files: &ProfileBytes<'_>,
    profile: &Profile,
) -> Result<String, AllocError> {
    let (digest, name) = profile_source(alloc, files)?;
    let cells = cells_in(alloc, files.cells)?;
    let parts = Parts::new(alloc, *files, profile, cells.as_slice())?;
    profile_text(alloc, folder, name.as_str(), digest.as_str(), &parts)
}

/// Writes the profile of the files of a folder, or tells of its refusal, and gives the exit status.
#[tactic(auto, using(crate::proofs::ShownLemmas::told_beside, crate::proofs::ShownLemmas::unrefused_write))]
fn folder_to<O: Write, E: Write>(
    alloc: Global,
    folder: &str,
    files: &ProfileBytes<'_>,
    out: &mut O,
    err: &mut E,
) -> Result<u8, Stop>
    ensures answered { IfOk result (λ status. IsProfileAnswerOn (texts_of files.now) status
        (O.contents out.old) (O.contents out.new)) }
    ensures status { IfOk result (λ status. status ≤ 2) }
    ensures quiet { IfOk result
        (λ status. status ≤ 1 → E.contents err.new ≡ E.contents err.old) }
    ensures stopped { IfErr result IsUnrefused }
{
    match Profile::read(alloc, files) {
        Ok(profile) => {
            let Ok(text) = profile_words(alloc, folder, files, &profile) else {
                return Err(Stop::NoMemory);
            };
            match put(out, text.as_str()) {
                Ok(()) => Ok(0),
                Err(stop) => Err(stop),
            }
        }
        Err(ProfileFault::NoMemory) => Err(Stop::NoMemory),
        Err(fault) => {
            let Ok(text) = profile_refusal(alloc, fault, files) else {
                return Err(Stop::NoMemory);
            };
            // What `err` takes of it changes nothing.
            let _ = err.write_all(text.as_bytes());
            Ok(REFUSED)
        }
    }
}

/// Writes the profile of a folder, or tells why there is none, and gives the exit status.
fn profile_to<R: Readers, O: Write, E: Write>(
    alloc: Global,
    files: &mut R,
    folder: &str,
    out: &mut O,
    err: &mut E,
) -> Result<u8, Stop>
    ensures answered { IfOk result (λ status. IsProfileAnswer (R.known files.old) folder.now status
        (O.contents out.old) (O.contents out.new)) }
    ensures status { IfOk result (λ status. status ≤ 5) }
    ensures quiet { IfOk result
        (λ status. status ≤ 1 → E.contents err.new ≡ E.contents err.old) }
    ensures stopped { IfErr result IsUnrefused }
{
    match read_folder(alloc, files, folder) {
        Ok(texts) => {
            let bytes = texts.texts();
            folder_to(alloc, folder, &bytes, out, err)
        }
        Err(stop) => tell_unread(alloc, stop, false, out, err),
    }
}

/// Holds a session on the texts of its files, or tells of their refusal, and gives the exit status.
#[tactic(auto, using(crate::proofs::ShownLemmas::unrefused_other))]
fn session_on<
    M: Readers + Makers,
    G: Gate,
    T: Threads + Wait + Sync,
    I: BufRead,
    O: Write,
    E: Write,
>(
    rt: &T,
    alloc: Global,
    gate: &G,
    files: &mut M,
    texts: &Texts,
    line: SessionLine<'_>,
    input: &mut I,
    out: &mut O,
    err: &mut E,
) -> Result<u8, Stop>
    ensures answered { IfOk result (λ status.
        IsSessionOn texts.now status (O.contents out.old) (O.contents out.new)) }
    ensures status { IfOk result (λ status. status ≤ 2) }
    ensures quiet { IfOk result
        (λ status. status ≤ 1 → E.contents err.new ≡ E.contents err.old) }
    ensures stopped { IfErr result IsUnrefused }
{
    let stop = match session_to(rt, alloc, gate, files, texts, line, input, out) {
        Ok(status) => return Ok(status),
        Err(stop) => stop,
    };
    match stop {
        Stop::Refused(fault) => {
            // Told as of a summary: beside what was asked for.
            let call = ViewLine {
                view: View::Summary,
                ..line.call
            };
            tell_refusal(alloc, fault, &texts.inputs(), call, out, err)
        }
        stop => Err(stop),
    }
}

/// Holds a session on the files of a line, or tells why there is none, and gives the exit status.
fn session_line_to<
    M: Readers + Makers,
    G: Gate,
    T: Threads + Wait + Sync,
    I: BufRead,
    O: Write,
    E: Write,
>(
    rt: &T,
    alloc: Global,
    gate: &G,
    files: &mut M,
    line: SessionLine<'_>,
    input: &mut I,
    out: &mut O,
    err: &mut E,
) -> Result<u8, Stop>
    ensures answered { IfOk result (λ status. IsSessionOf (M.known files.old) line.entry status
        (O.contents out.old) (O.contents out.new)) }
    ensures status { IfOk result (λ status. status ≤ 5) }
    ensures quiet { IfOk result
        (λ status. status ≤ 1 → E.contents err.new ≡ E.contents err.old) }
    ensures stopped { IfErr result IsUnrefused }
{
    match read_texts(alloc, files, files_of(line.call)) {
        Ok(texts) => session_on(rt, alloc, gate, files, &texts, line, input, out, err),
        Err(stop) => tell_unread(alloc, stop, false, out, err),
    }
}

/// Writes what the words of a command line ask for, or tells why there is no such text, and gives
/// the exit status.
fn run_words<
    R: Readers + Makers,
    G: Gate,
    T: Threads + Wait + Sync,
    I: BufRead,
    O: Write,
    E: Write,
>(
    rt: &T,
    alloc: Global,
    gate: &G,
    files: &mut R,
    words: &[&str],
    input: &mut I,
    out: &mut O,
    err: &mut E,
) -> Result<u8, Stop>
    ensures answered { IfOk result (λ status. IsAnswerBy (R.known files.old) status
        (O.contents out.old) (O.contents out.new)) }
    ensures status { IfOk result (λ status. status ≤ 5) }
    ensures quiet { IfOk result
        (λ status. status ≤ 1 → E.contents err.new ≡ E.contents err.old) }
    ensures stopped { IfErr result IsUnrefused }
{
    match read_command(alloc, words) {
        Ok(Command::Call(line)) => line_to(rt, alloc, gate, files, line, out, err),
        Ok(Command::Profile { folder }) => profile_to(alloc, files, folder, out, err),
        Ok(Command::Session(session)) => {
            session_line_to(rt, alloc, gate, files, session, input, out, err)
        }
        Err(fault) => Err(Stop::from(fault)),
    }
}

/// The whole program over readers and writers: the text goes to `out`, and what stopped it to
/// `err`; a session reads its lines from `input`. The exit status is that of the report on the same
/// inputs, 0 or 1; or 2 an input is refused, 3 usage error or help, 4 out of memory, 5 a file can't
/// be read or `out` can't be written. A fault of `err` changes nothing, and an `input` that can't
/// be read is at its end.
///
/// A session ends with the last line of the report on the list that is left, to which the edits
/// lead that it keeps, and with the status of that report.
///
/// The profile of a folder is read back where it is read at all. Of a port call, a summary ends
/// with the last line of the report, an explanation begins with it, and a table has the figures of
/// each of its lines. An input is refused where the report refuses it: then its line with an
/// explanation behind it goes to `out` where an explanation was asked for, and to `err`, without
/// anything on `out`, where anything else was; a file that can't be read is told of likewise.
pub fn serve_view<
    R: Readers + Makers,
    G: Gate,
    T: Threads + Wait + Sync,
    I: BufRead,
    O: Write,
    E: Write,
>(
    rt: &T,
    alloc: Global,
    gate: &G,
    files: &mut R,
    words: &[&str],
    input: &mut I,
    out: &mut O,
    err: &mut E,
) -> u8
    ensures range { result ≤ 5 }
    ensures shown { result ≤ 1 → IsShownBy (R.known files.old) result
        (O.contents out.old) (O.contents out.new) }
    ensures refused { result ≡ 2 → IsRefusedBy (R.known files.old)
        (O.contents out.old) (O.contents out.new) }
    ensures quiet { result ≤ 1 → E.contents err.new ≡ E.contents err.old }
{
    match run_words(rt, alloc, gate, files, words, input, out, err) {
        Ok(status) => status,
        Err(stop) => report_stop(&stop, err),
    }
}
