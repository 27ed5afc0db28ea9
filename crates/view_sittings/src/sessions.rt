//! A session from its first line to its last.
ghost use Rattle.std.specs.Prelude.{◌≡◌, [], List, IfOk, IfErr, OnOk};
ghost use Rattle.lift_sequence.specs.declared.operations.Op.{Op};
ghost use Rattle.port_call.specs.Grounds.{GroundRecord};
ghost use Rattle.run_files.specs.Statuses.{status_on};
ghost use Rattle.seq_report.specs.Written.{HasWritten};
ghost use Rattle.view_session.specs.Trails.{IsOneLine};
ghost use Rattle.view_sittings.specs.Sessions.{IsFrom, IsLeftBy};

use crate::answers::opening;
use crate::settings::{Setting, Sitting};
use claim_run::Gate;
use criteria::Criterion;
use edits_file::cut;
use run_files::{Makers, Readers};
use seq_report::write_last_line;
use std::alloc::{AllocError, Global};
use std::io::{BufRead, Write};
use std::sync::Wait;
use std::thread::Threads;
use view_session::{Command, LONGEST, Request, Shelf, Tried, command_in};
use what_if::Session;

/// What ends a session before its last line.
#[derive(Clone, Copy, Debug, PartialEq, Eq)]
pub enum Fault {
    NoMemory,
    /// The output can't be written.
    Write,
}

impl From<AllocError> for Fault {
    fn from(_error: AllocError) -> Fault {
        Fault::NoMemory
    }
}

/// Writes a text, so that it is seen at once.
fn put<O: Write>(out: &mut O, text: &str) -> Result<(), Fault>
    ensures { OnOk result
        (HasWritten (O.contents out.old) (O.contents out.new) (λ t. t ≡ text.now)) }
{
    match out.write_all(text.as_bytes()) {
        Ok(()) => {}
        Err(_) => return Err(Fault::Write),
    }
    match out.flush() {
        Ok(()) => Ok(()),
        Err(_) => Err(Fault::Write),
    }
}

/// Takes the next bytes of a line into it, as far as it is looked at; whether the line ends with
/// them.
fn take_on<I: BufRead>(input: &mut I, line: &mut Vec<u8>) -> Result<bool, AllocError> {
    let Ok(buffer) = input.fill_buf() else {
        // An input that can't be read is at its end.
        return Ok(true);
    };
    let (text, behind) = cut(buffer, b'\n');
    let room = LONGEST.saturating_add(1).saturating_sub(line.len());
    let seen = text.get(..room.min(text.len())).unwrap_or(&[]);
    line.extend_from_slice(seen)?;
    let ends = behind.is_some() || buffer.is_empty();
    let taken = text.len().saturating_add(usize::from(behind.is_some()));
    input.consume(taken);
    Ok(ends)
}

/// Takes the next line, without its end, as far as it is looked at.
fn take_line<I: BufRead>(input: &mut I, line: &mut Vec<u8>) -> Result<(), AllocError> {
    line.clear();
    for _ in 0..u64::MAX {
        if take_on(input, line)? {
            break;
        }
    }
    Ok(())
}

/// Whether there is anything more to be read.
fn has_more<I: BufRead>(input: &mut I) -> bool {
    match input.fill_buf() {
        Ok(buffer) => !buffer.is_empty(),
        Err(_) => false,
    }
}

/// A line without the CR before its end.
fn without_return(line: &[u8]) -> &[u8]
    ensures { IsOneLine result.now }
{
    let text = line.strip_suffix(b"\r").unwrap_or(line);
    let (text, _) = cut(text, b'\n');
    text
}

/// Answers a line; `false` where it ends the session.
fn turn<G: Gate, T: Threads + Wait + Sync, M: Readers + Makers, O: Write>(
    rt: &T,
    alloc: Global,
    gate: &G,
    files: &mut M,
    setting: &Setting<'_>,
    now: Sitting,
    line: &[u8],
    out: &mut O,
) -> Result<(Sitting, bool), Fault>
    requires { IsOneLine line.now }
    ensures from { (base : GroundRecord) (from : List Op) → IsFrom base from now
        → IfOk result (λ next. IsFrom base from next.0) }
    ensures written { OnOk result
        (HasWritten (O.contents out.old) (O.contents out.new) (λ _. Unit {0})) }
{
    let order = command_in(line);
    if order == Command::Other(Request::Quit) {
        put(out, "")?;
        return Ok((now, false));
    }
    let (next, answer) = now.answer(rt, alloc, gate, files, setting, line, order)?;
    put(out, answer.as_str())?;
    Ok((next, true))
}

/// Answers the lines of an input, up to its end or to `quit`. Each answer is written before the
/// next line is read.
#[tactic(auto, using(crate::proofs::SittingLemmas::written_on, crate::proofs::SittingLemmas::written_any, crate::proofs::SittingLemmas::written_none))]
fn sit<G: Gate, T: Threads + Wait + Sync, M: Readers + Makers, I: BufRead, O: Write>(
    rt: &T,
    alloc: Global,
    gate: &G,
    files: &mut M,
    setting: &Setting<'_>,
    start: Sitting,
    prompt: &str,
    input: &mut I,
    out: &mut O,
) -> Result<Sitting, Fault>
    ensures from { (base : GroundRecord) (from : List Op) → IsFrom base from start
        → IfOk result (λ end. IsFrom base from end) }
    ensures written { OnOk result
        (HasWritten (O.contents out.old) (O.contents out.new) (λ _. Unit {0})) }
{
    let mut now = start;
    let mut line = Vec::new(alloc);
    for _ in 0..u64::MAX {
        put(out, prompt)?;
        if !has_more(input) {
            break;
        }
        take_line(input, &mut line)?;
        let text = without_return(&line);
        let (next, goes_on) = turn(rt, alloc, gate, files, setting, now, text, out)?;
        now = next;
        if !goes_on {
            break;
        }
    }
    Ok(now)
}

/// A session in which nothing was tried yet. Where orders are published to a folder, the list of
/// the inputs is on the shelf: those that are opened begin with it.
fn begin<G: Gate, T: Threads + Wait + Sync>(
    rt: &T,
    alloc: Global,
    gate: &G,
    setting: &Setting<'_>,
    session: Session,
) -> Result<Sitting, AllocError>
    requires { session.past ≡ [] }
    ensures { IfOk result (λ s. IsFrom session.base session.ops s) }
{
    let tried = Tried::new(alloc, session);
    let mut shelf = Shelf::new(alloc, &tried)?;
    if setting.desk.is_some() {
        let _number = shelf.publish(rt, alloc, &tried)?;
    }
    Sitting::with(rt, alloc, gate, setting, tried, shelf, 0, 0)
}

/// Holds a session, and gives the first condition that fails of the list that is left.
pub fn hold<G: Gate, T: Threads + Wait + Sync, M: Readers + Makers, I: BufRead, O: Write>(
    rt: &T,
    alloc: Global,
    gate: &G,
    files: &mut M,
    setting: &Setting<'_>,
    session: Session,
    prompt: &str,
    input: &mut I,
    out: &mut O,
) -> Result<Option<(u32, Criterion)>, Fault>
    requires { session.past ≡ [] }
    ensures { IfOk result (λ first. HasWritten (O.contents out.old) (O.contents out.new)
        (IsLeftBy session.base session.ops (status_on first))) }
{
    let start = begin(rt, alloc, gate, setting, session)?;
    let steps = start.tried.session().lifts().len();
    let text = opening(
        alloc,
        setting.sources,
        steps,
        start.rows.as_slice(),
        start.first,
    )?;
    put(out, text.as_str())?;
    let end = sit(rt, alloc, gate, files, setting, start, prompt, input, out)?;
    let mut last = String::new(alloc);
    write_last_line(&mut last, end.first)?;
    put(out, last.as_str())?;
    Ok(end.first)
}
