ghost use Rattle.std.specs.Prelude.{◌≡◌, ◌≢◌, ◌<◌, ◌^◌, ◌++◌, false, length, IfOk, IfErr, OnOk};
ghost use Rattle.std.specs.Prelude.{string_bytes};
ghost use Rattle.edits_file.specs.declared.forms.EditLine.TheVariants.{Edit as EditOf};
ghost use Rattle.edits_file.specs.declared.forms.EditLine.TheVariants.{Undo as UndoOf};
ghost use Rattle.program.specs.Runs.{AreTriedIn, IsStopOn};
ghost use Rattle.program.specs.Trials.{after_all, after_line, answer_line, answer_lines, answer_of};
ghost use Rattle.program.specs.Trials.{lists_of};

use command_line::Task;
use edits_file::{EditLine, Edits};
use run_files::Stop;
use seq_report::Inputs;
use std::alloc::{AllocError, Global};
use std::fmt;
use what_if::{Edit, EditFault, Session};

/// What became of a line of an edits file. It prints as one word.
#[derive(Clone, Copy, Debug, PartialEq, Eq)]
pub enum Answer {
    /// The edit was made, or the last one taken back.
    Done,
    /// The edit is refused.
    Refused(EditFault),
    /// There was nothing to take back.
    Nothing,
}

impl fmt::Display for Answer {
    ghost use Rattle.std.specs.Prelude.{Some};
    ghost use Rattle.program.specs.Trials.{answer_text};

    ghost output = { λ answer. Some (answer_text answer) };

    fn fmt<W: fmt::Write>(&self, f: &mut fmt::Formatter<W>) -> fmt::Result {
        match self {
            Answer::Done => f.write_str("OK"),
            Answer::Refused(fault) => f.write_str(fault.code()),
            Answer::Nothing => f.write_str("NONE"),
        }
    }
}

/// The answer to an edit that can't be made; out of memory is none.
fn answer_to_refusal(fault: EditFault) -> Result<Answer, Stop>
    ensures answer { IfOk result (λ a. (a ≡ Answer.Refused fault) × (fault ≢ EditFault.NoMemory)) }
    ensures memory { IfErr result (λ e. e ≡ Stop.NoMemory) }
{
    match fault {
        EditFault::NoStep => Ok(Answer::Refused(EditFault::NoStep)),
        EditFault::NotLoad => Ok(Answer::Refused(EditFault::NotLoad)),
        EditFault::Sequence(fault) => Ok(Answer::Refused(EditFault::Sequence(fault))),
        EditFault::NoMemory => Err(Stop::NoMemory),
    }
}

/// Makes an edit, where it can be made.
fn try_edit(session: &mut Session, edit: Edit) -> Result<Answer, Stop>
    ensures base { session.new.base ≡ session.old.base }
    ensures answer { IfOk result
        (λ a. a ≡ answer_of session.old.base (lists_of session.old) (EditOf edit)) }
    ensures lists { OnOk result (lists_of session.new
        ≡ after_line session.old.base (lists_of session.old) (EditOf edit)) }
    ensures memory { IfErr result (λ e. e ≡ Stop.NoMemory) }
{
    match session.apply(edit) {
        Ok(()) => Ok(Answer::Done),
        Err(fault) => answer_to_refusal(fault),
    }
}

/// Takes the last edit back, where there is one.
fn take_back(session: &mut Session) -> Result<Answer, Stop>
    ensures base { session.new.base ≡ session.old.base }
    ensures answer { IfOk result
        (λ a. a ≡ answer_of session.old.base (lists_of session.old) UndoOf) }
    ensures lists { OnOk result (lists_of session.new
        ≡ after_line session.old.base (lists_of session.old) UndoOf) }
    ensures memory { IfErr result (λ e. e ≡ Stop.NoMemory) }
{
    match session.undo() {
        Ok(true) => Ok(Answer::Done),
        Ok(false) => Ok(Answer::Nothing),
        Err(AllocError) => Err(Stop::NoMemory),
    }
}

/// Tries one line in a session, and says what became of it.
fn try_line(session: &mut Session, line: EditLine) -> Result<Answer, Stop>
    ensures base { session.new.base ≡ session.old.base }
    ensures answer { IfOk result (λ a. a ≡ answer_of session.old.base (lists_of session.old) line) }
    ensures lists { OnOk result (lists_of session.new
        ≡ after_line session.old.base (lists_of session.old) line) }
    ensures memory { IfErr result (λ e. e ≡ Stop.NoMemory) }
{
    match line {
        EditLine::Edit(edit) => try_edit(session, edit),
        EditLine::Undo => take_back(session),
    }
}

/// Adds the line that says what became of the line of this number.
fn add_answer(text: &mut String, number: usize, answer: Answer) -> Result<(), AllocError>
    ensures { OnOk result (string_bytes text.new
        ≡ string_bytes text.old ++ answer_line number answer) }
{
    match writeln!(text, "EDIT {number} {answer}") {
        Ok(()) => Ok(()),
        Err(_) => Err(AllocError),
    }
}

/// Tries the lines of an edits file in a session, one after another, and says what became of each:
/// a line `EDIT`, its number, and `OK`, `NONE` where there was nothing to take back, or why it is
/// refused.
fn try_all(alloc: Global, session: &mut Session, edits: Edits<'_>) -> Result<String, Stop>
    requires few { length edits < 2 ^ 64 }
    ensures base { session.new.base ≡ session.old.base }
    ensures answers { IfOk result (λ text. string_bytes text
        ≡ answer_lines session.old.base (lists_of session.old) 1 edits.entry) }
    ensures lists { OnOk result (lists_of session.new
        ≡ after_all session.old.base (lists_of session.old) edits.entry) }
    ensures memory { IfErr result (λ e. e ≡ Stop.NoMemory) }
{
    let mut text = String::new(alloc);
    let mut number = 0usize;
    for line in edits {
        number += 1;
        let answer = try_line(session, line)?;
        add_answer(&mut text, number, answer)?;
    }
    Ok(text)
}

/// A session in which edits were tried.
#[derive(Drop)]
pub struct Trial {
    /// With the list that is left.
    pub session: Session,
    /// What became of each edit, a line for each.
    pub answers: String,
}

/// Tries the edits of a file on the steps that inputs order. The inputs are checked first, then all
/// lines of the file, and only then is the first edit made.
pub fn try_edits(alloc: Global, inputs: &Inputs<'_>, file: &[u8]) -> Result<Trial, Stop>
    ensures tried { IfOk result
        (λ t. AreTriedIn inputs.now file.now t.session (string_bytes t.answers)) }
    ensures stopped { IfErr result (IsStopOn Task.WhatIf inputs.now file.now false) }
{
    let mut session = match Session::read(alloc, inputs) {
        Ok(session) => session,
        Err(fault) => return Err(Stop::from(fault)),
    };
    let edits = match Edits::read(file) {
        Ok(edits) => edits,
        Err(fault) => return Err(Stop::from(fault)),
    };
    let answers = try_all(alloc, &mut session, edits)?;
    Ok(Trial { session, answers })
}
