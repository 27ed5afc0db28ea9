//! What is told where an input is refused, or a file can't be read.
ghost use Rattle.std.specs.Prelude.{◌≡◌, IfOk, IfErr, OnOk, string_bytes};
ghost use Rattle.std.specs.Io.KnownBytes.{Appends};
ghost use Rattle.run_files.specs.Statuses.{IsUnread};
ghost use Rattle.run_files.specs.declared.stops.Stop.TheVariants.{Write as WriteStop};
ghost use Rattle.view_program.specs.Answers.{IsRefusalTold, IsToldOf, IsUnrefused};

use crate::words::{View, ViewLine, names_of};
use port_call::{Inputs, RunFault};
use run_files::Stop;
use std::alloc::{AllocError, Global};
use std::io::Write;
use view_refusals::{refusal_of, unread_file};

/// The exit status where an input is refused, and where a file can't be read.
pub const REFUSED: u8 = 2;

const UNREAD: u8 = 5;

/// Writes a text.
pub fn put<O: Write>(out: &mut O, text: &str) -> Result<(), Stop>
    ensures put { OnOk result (Appends (O.contents out.old) (O.contents out.new) text.now) }
    ensures stopped { IfErr result (λ stop. stop ≡ WriteStop) }
{
    match out.write_all(text.as_bytes()) {
        Ok(()) => Ok(()),
        Err(_) => Err(Stop::Write),
    }
}

/// What is printed of a refusal: its line, and its explanation.
fn refusal_text(
    alloc: Global,
    fault: RunFault,
    inputs: &Inputs<'_>,
    line: ViewLine<'_>,
) -> Result<String, AllocError>
    ensures { IfOk result (λ text. IsToldOf fault (string_bytes text)) }
{
    let behind = refusal_of(alloc, fault, inputs, &names_of(line))?;
    let stop = Stop::Refused(fault);
    let text = format!(in alloc; "{stop}\n{behind}")?;
    Ok(text)
}

/// Tells of a refusal, and gives its exit status: an explanation is what was asked for, and goes to
/// `out`; beside anything else it is a fault, and goes to `err`.
#[tactic(auto, using(crate::proofs::ShownLemmas::told_beside, crate::proofs::ShownLemmas::unrefused_write))]
pub fn tell_refusal<O: Write, E: Write>(
    alloc: Global,
    fault: RunFault,
    inputs: &Inputs<'_>,
    line: ViewLine<'_>,
    out: &mut O,
    err: &mut E,
) -> Result<u8, Stop>
    ensures told { IfOk result (λ status. (status ≡ 2)
        × IsRefusalTold line.entry.view fault (O.contents out.old) (O.contents out.new)) }
    ensures stopped { IfErr result IsUnrefused }
{
    let Ok(text) = refusal_text(alloc, fault, inputs, line) else {
        return Err(Stop::NoMemory);
    };
    if line.view == View::Explain {
        return match put(out, text.as_str()) {
            Ok(()) => Ok(REFUSED),
            Err(stop) => Err(stop),
        };
    }
    // What `err` takes of it changes nothing.
    let _ = err.write_all(text.as_bytes());
    Ok(REFUSED)
}

/// Tells of a file that can't be read, and gives its exit status: on `out` where an explanation was
/// asked for, and else on `err`.
#[tactic(auto, using(crate::proofs::ShownLemmas::unrefused_unread, crate::proofs::ShownLemmas::unrefused_write))]
pub fn tell_unread<O: Write, E: Write>(
    alloc: Global,
    stop: Stop,
    is_asked: bool,
    out: &mut O,
    err: &mut E,
) -> Result<u8, Stop>
    requires { IsUnread stop }
    ensures status { IfOk result (λ status. status ≡ 5) }
    ensures stopped { IfErr result IsUnrefused }
{
    let Stop::Read(_) = &stop else {
        return Err(stop);
    };
    let Ok(behind) = unread_file(alloc) else {
        return Err(Stop::NoMemory);
    };
    let Ok(text) = format!(in alloc; "{stop}\n{behind}") else {
        return Err(Stop::NoMemory);
    };
    if is_asked {
        return match put(out, text.as_str()) {
            Ok(()) => Ok(UNREAD),
            Err(stop) => Err(stop),
        };
    }
    // What `err` takes of it changes nothing.
    let _ = err.write_all(text.as_bytes());
    Ok(UNREAD)
}
