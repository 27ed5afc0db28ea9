//! A session on the texts of its files.
ghost use Rattle.std.specs.Prelude.{◌≡◌, ◌≤◌, IfOk, IfErr};
ghost use Rattle.seq_report.specs.Written.{HasWritten};
ghost use Rattle.view_program.specs.Answers.{IsUntouched};
ghost use Rattle.view_program.specs.Sessions.{IsLeftOn};
ghost use Rattle.view_program.specs.Shown.{IsStopOn, OfTexts};

use crate::words::SessionLine;
use crate::working::sources_beside;
use claim_run::{Gate, Workers};
use run_files::{Makers, Readers, Stop, Texts, status_on};
use std::alloc::Global;
use std::io::{BufRead, Write};
use std::sync::Wait;
use std::thread::Threads;
use view_sittings::{Fault, Setting, hold};
use what_if::Session;

/// What is asked before each line.
const PROMPT: &str = "> ";

/// Holds the session of a line on the texts of its files, and gives the exit status: that of the
/// report on the list that is left.
pub fn session_to<G: Gate, T: Threads + Wait + Sync, M: Readers + Makers, I: BufRead, O: Write>(
    rt: &T,
    alloc: Global,
    gate: &G,
    files: &mut M,
    texts: &Texts,
    line: SessionLine<'_>,
    input: &mut I,
    out: &mut O,
) -> Result<u8, Stop>
    ensures shown { IfOk result (λ status. HasWritten (O.contents out.old) (O.contents out.new)
        (λ text. OfTexts texts.now (λ inputs. IsLeftOn inputs status text))) }
    ensures status { IfOk result (λ status. status ≤ 1) }
    ensures stopped { IfErr result (λ stop. OfTexts texts.now (λ inputs. IsStopOn inputs stop)) }
    ensures untouched { IfErr result
        (λ stop. IsUntouched stop (O.contents out.old) (O.contents out.new)) }
{
    let inputs = texts.inputs();
    let session = match Session::read(alloc, &inputs) {
        Ok(session) => session,
        Err(fault) => return Err(Stop::from(fault)),
    };
    let Ok(sources) = sources_beside(rt, alloc, texts) else {
        return Err(Stop::NoMemory);
    };
    // The words are 1 to 16 already, which `clap` sees to.
    let Some(workers) = Workers::new(line.call.workers.clamp(1, 16) as u8) else {
        return Err(Stop::NoMemory);
    };
    let setting = Setting {
        workers,
        chunk: line.call.chunk,
        inputs: &inputs,
        sources: &sources,
        desk: line.desk,
    };
    let prompt = if line.is_prompted { PROMPT } else { "" };
    match hold(
        rt, alloc, gate, files, &setting, session, prompt, input, out,
    ) {
        Ok(first) => Ok(status_on(first)),
        Err(Fault::NoMemory) => Err(Stop::NoMemory),
        Err(Fault::Write) => Err(Stop::Write),
    }
}
