//! A session of a planner: the list as it is, and what became of each line.
ghost use Rattle.std.specs.Prelude.{◌≡◌, List, IfOk, IfErr, Some};
ghost use Rattle.lift_sequence.specs.declared.operations.Op.{Op};
ghost use Rattle.port_call.specs.Grounds.{GroundRecord};
ghost use Rattle.edits_file.specs.Forms.{line_in};
ghost use Rattle.edits_file.specs.declared.forms.EditLine.TheVariants.{Edit as EditOf};
ghost use Rattle.edits_file.specs.declared.forms.EditLine.TheVariants.{Undo as UndoOf};
ghost use Rattle.program.specs.Trials.{after_line, lists_of};
ghost use Rattle.edits_file.specs.declared.forms.EditLine.{EditLine};
ghost use Rattle.view_session.specs.Commands.{IsOrderedBy};
ghost use Rattle.view_session.specs.Trails.{IsOneLine};
ghost use Rattle.view_sittings.specs.Sessions.{IsFrom};

use crate::answers::{
    HELP, edit_text, last_text, list_text, made_text, no_condition, no_conditions, unknown_text,
};
use crate::judging::{judge_list, list_of, sheet_of, table_of};
use crate::publications::{open_from, publish_to, unfit_text};
use crate::settings::{Setting, Sitting};
use claim_run::Gate;
use edits_file::EditLine;
use plain_text::{count_of, many, shown_line};
use run_files::{Makers, Readers, Unmade};
use std::alloc::{AllocError, Global};
use std::sync::Wait;
use std::thread::Threads;
use step_edits::{Edit, EditFault};
use view_refusals::{edit_refusal, first_named};
use view_session::{Command, Request, Shelf, Tried};
use view_texts::lift_at;

impl Sitting {
    /// A session whose list was changed, or is new.
    pub fn with<G: Gate, T: Threads + Wait + Sync>(
        rt: &T,
        alloc: Global,
        gate: &G,
        setting: &Setting<'_>,
        tried: Tried,
        shelf: Shelf,
        count: u64,
        taken: u64,
    ) -> Result<Sitting, AllocError>
        requires { tried.session.base ≡ shelf.base }
        ensures { IfOk result (λ s. (s.tried ≡ tried) × (s.shelf ≡ shelf)) }
    {
        let Setting { workers, chunk, .. } = *setting;
        let judged = judge_list(rt, alloc, gate, workers, tried.session(), chunk)?;
        Ok(Sitting {
            tried,
            shelf,
            rows: judged.rows,
            first: judged.first,
            count,
            taken,
        })
    }

    /// Tries the edit of a line.
    fn edit<G: Gate, T: Threads + Wait + Sync>(
        self,
        rt: &T,
        alloc: Global,
        gate: &G,
        setting: &Setting<'_>,
        line: &[u8],
        edit: Edit,
    ) -> Result<(Sitting, String), AllocError>
        requires form { line_in line.now ≡ Some (EditOf edit) }
        requires one { IsOneLine line.now }
        ensures lists { IfOk result (λ next. lists_of next.0.tried.session
            ≡ after_line self.tried.session.base (lists_of self.tried.session) (EditOf edit)) }
        ensures from { (base : GroundRecord) (from : List Op) → IsFrom base from self
            → IfOk result (λ next. IsFrom base from next.0) }
    {
        let Sitting {
            mut tried,
            shelf,
            rows,
            first,
            count,
            taken,
        } = self;
        let count = count.saturating_add(1);
        let Some(fault) = tried.edit(alloc, line, edit)? else {
            let next = Sitting::with(rt, alloc, gate, setting, tried, shelf, count, taken)?;
            let before = (rows.as_slice(), first);
            let after = (next.rows.as_slice(), next.first);
            let text = made_text(alloc, count, line, before, after)?;
            return Ok((next, text));
        };
        let text = refused_text(alloc, setting, &tried, count, line, fault)?;
        let same = Sitting {
            tried,
            shelf,
            rows,
            first,
            count,
            taken,
        };
        Ok((same, text))
    }

    /// Takes the last edit back.
    fn take_back<G: Gate, T: Threads + Wait + Sync>(
        self,
        rt: &T,
        alloc: Global,
        gate: &G,
        setting: &Setting<'_>,
        line: &[u8],
    ) -> Result<(Sitting, String), AllocError>
        ensures lists { IfOk result (λ next. lists_of next.0.tried.session
            ≡ after_line self.tried.session.base (lists_of self.tried.session) UndoOf) }
        ensures from { (base : GroundRecord) (from : List Op) → IsFrom base from self
            → IfOk result (λ next. IsFrom base from next.0) }
    {
        let Sitting {
            mut tried,
            shelf,
            rows,
            first,
            count,
            taken,
        } = self;
        let count = count.saturating_add(1);
        if tried.undo()? {
            let next = Sitting::with(rt, alloc, gate, setting, tried, shelf, count, taken)?;
            let before = (rows.as_slice(), first);
            let after = (next.rows.as_slice(), next.first);
            let text = made_text(alloc, count, line, before, after)?;
            return Ok((next, text));
        }
        let text = edit_text(alloc, count, "NONE", line, "nothing to take back")?;
        let same = Sitting {
            tried,
            shelf,
            rows,
            first,
            count,
            taken,
        };
        Ok((same, text))
    }

    /// Publishes the list in the session.
    fn publish<T: Wait>(self, rt: &T, alloc: Global) -> Result<(Sitting, String), AllocError>
        ensures lists { IfOk result (λ next. next.0.tried ≡ self.tried) }
        ensures from { (base : GroundRecord) (from : List Op) → IsFrom base from self
            → IfOk result (λ next. IsFrom base from next.0) }
    {
        let Sitting {
            tried,
            mut shelf,
            rows,
            first,
            count,
            taken,
        } = self;
        let number = shelf.publish(rt, alloc, &tried)?;
        let list = list_text(alloc, tried.session().lifts().len(), first)?;
        let text = format!(in alloc; "PUBLISHED {number}  {list}\n")?;
        let same = Sitting {
            tried,
            shelf,
            rows,
            first,
            count,
            taken,
        };
        Ok((same, text))
    }

    /// Goes on with the list that was published in the session with this number.
    fn open<G: Gate, T: Threads + Wait + Sync>(
        self,
        rt: &T,
        alloc: Global,
        gate: &G,
        setting: &Setting<'_>,
        number: u64,
    ) -> Result<(Sitting, String), AllocError>
        ensures from { (base : GroundRecord) (from : List Op) → IsFrom base from self
            → IfOk result (λ next. IsFrom base from next.0) }
    {
        let place = usize::try_from(number).unwrap_or(0);
        let Some(tried) = self.shelf.open(alloc, place)? else {
            let text = format!(in alloc; "nothing is published as {number}\n")?;
            return Ok((self, text));
        };
        let Sitting {
            tried: _tried,
            shelf,
            rows: _rows,
            first: _,
            count,
            taken,
        } = self;
        let next = Sitting::with(rt, alloc, gate, setting, tried, shelf, count, taken)?;
        let list = list_text(alloc, next.tried.session().lifts().len(), next.first)?;
        let text = format!(in alloc; "OPENED {number}  {list}\n")?;
        Ok((next, text))
    }

    /// Publishes the list to a folder.
    fn publish_list<M: Readers + Makers>(
        self,
        alloc: Global,
        files: &mut M,
        setting: &Setting<'_>,
        folder: &str,
    ) -> Result<(Sitting, String), AllocError>
        ensures lists { IfOk result (λ next. next.0.tried ≡ self.tried) }
        ensures from { (base : GroundRecord) (from : List Op) → IsFrom base from self
            → IfOk result (λ next. IsFrom base from next.0) }
    {
        let edits = self.tried.text(alloc)?;
        let sources = setting.sources;
        let edits = edits.as_slice();
        let (text, number) = match publish_to(alloc, files, folder, sources, edits, self.taken) {
            Ok(number) => {
                let list = list_text(alloc, self.tried.session().lifts().len(), self.first)?;
                (format!(in alloc; "PUBLISHED {number}  {list}\n")?, number)
            }
            Err(Unmade::NoMemory) => return Err(AllocError),
            Err(_) => {
                let folder = shown_line(alloc, folder.as_bytes())?;
                let text = format!(in alloc; "NOT PUBLISHED  {folder} can't be written\n")?;
                (text, self.taken)
            }
        };
        let Sitting {
            tried,
            shelf,
            rows,
            first,
            count,
            taken: _,
        } = self;
        let same = Sitting {
            tried,
            shelf,
            rows,
            first,
            count,
            taken: number,
        };
        Ok((same, text))
    }

    /// Goes on with the list that was published to a folder with this number. The list with which
    /// the session began is the first one on its shelf.
    fn open_publication<G: Gate, T: Threads + Wait + Sync, R: Readers>(
        self,
        rt: &T,
        alloc: Global,
        gate: &G,
        files: &mut R,
        setting: &Setting<'_>,
        place: (&str, u64),
    ) -> Result<(Sitting, String), AllocError>
        ensures from { (base : GroundRecord) (from : List Op) → IsFrom base from self
            → IfOk result (λ next. IsFrom base from next.0) }
    {
        let (folder, number) = place;
        let Some(start) = self.shelf.open(alloc, 1)? else {
            return Err(AllocError);
        };
        let opened = open_from(rt, alloc, files, folder, setting.sources, number, start)?;
        let tried = match opened {
            Ok(tried) => tried,
            Err(fault) => {
                let text = unfit_text(alloc, number, fault)?;
                return Ok((self, text));
            }
        };
        let Sitting {
            tried: _tried,
            shelf,
            rows: _rows,
            first: _,
            count,
            taken,
        } = self;
        let next = Sitting::with(rt, alloc, gate, setting, tried, shelf, count, taken)?;
        let list = list_text(alloc, next.tried.session().lifts().len(), next.first)?;
        let text = format!(in alloc; "OPENED {number}  {list}\n")?;
        Ok((next, text))
    }

    /// What a line asks for that changes nothing.
    fn text_for<M: Makers>(
        &self,
        alloc: Global,
        files: &mut M,
        setting: &Setting<'_>,
        request: Request<'_>,
        line: &[u8],
    ) -> Result<String, AllocError> {
        match request {
            Request::Show(step) => shown_text(alloc, setting, self, step),
            Request::List(from, to) => listed_text(alloc, setting, self, from, to),
            Request::Worst => worst_text(alloc, self),
            Request::Save(name) => saved_text(alloc, files, &self.tried, name),
            Request::Help => String::from_str(alloc, HELP),
            Request::Unknown => unknown_text(alloc, line),
            Request::Publish | Request::Open(_) | Request::Nothing | Request::Quit => {
                Ok(String::new(alloc))
            }
        }
    }

    /// Answers a line that is no edit.
    fn answer_request<G: Gate, T: Threads + Wait + Sync, M: Readers + Makers>(
        self,
        rt: &T,
        alloc: Global,
        gate: &G,
        files: &mut M,
        setting: &Setting<'_>,
        request: Request<'_>,
        line: &[u8],
    ) -> Result<(Sitting, String), AllocError>
        ensures from { (base : GroundRecord) (from : List Op) → IsFrom base from self
            → IfOk result (λ next. IsFrom base from next.0) }
    {
        match (request, setting.desk) {
            (Request::Publish, None) => self.publish(rt, alloc),
            (Request::Publish, Some(folder)) => self.publish_list(alloc, files, setting, folder),
            (Request::Open(number), None) => self.open(rt, alloc, gate, setting, number),
            (Request::Open(number), Some(folder)) => {
                self.open_publication(rt, alloc, gate, files, setting, (folder, number))
            }
            _ => {
                let text = self.text_for(alloc, files, setting, request, line)?;
                Ok((self, text))
            }
        }
    }

    /// Answers a line; what it asks for is done.
    pub fn answer<G: Gate, T: Threads + Wait + Sync, M: Readers + Makers>(
        self,
        rt: &T,
        alloc: Global,
        gate: &G,
        files: &mut M,
        setting: &Setting<'_>,
        line: &[u8],
        order: Command<'_>,
    ) -> Result<(Sitting, String), AllocError>
        requires one { IsOneLine line.now }
        requires ordered { IsOrderedBy line.now order }
        ensures edits { (edit : EditLine) → line_in line.now ≡ Some edit
            → IfOk result (λ next. lists_of next.0.tried.session
            ≡ after_line self.tried.session.base (lists_of self.tried.session) edit) }
        ensures from { (base : GroundRecord) (from : List Op) → IsFrom base from self
            → IfOk result (λ next. IsFrom base from next.0) }
    {
        match order {
            Command::Edit(edit) => self.edit(rt, alloc, gate, setting, line, edit),
            Command::Undo => self.take_back(rt, alloc, gate, setting, line),
            Command::Other(request) => {
                self.answer_request(rt, alloc, gate, files, setting, request, line)
            }
        }
    }
}

/// Why an edit is refused, in words.
fn refused_text(
    alloc: Global,
    setting: &Setting<'_>,
    tried: &Tried,
    number: u64,
    line: &[u8],
    fault: EditFault,
) -> Result<String, AllocError> {
    let Some(EditLine::Edit(edit)) = edits_file::line(line) else {
        return Ok(String::new(alloc));
    };
    let case = tried.session().case();
    let lift = lift_at(alloc, case, first_named(&edit))?;
    let inputs = setting.inputs;
    let tanks = inputs.profile.tanks;
    let words = edit_refusal(alloc, tanks, case, &edit, fault, lift.as_str())?;
    edit_text(alloc, number, fault.code(), line, words.as_str())
}

/// The sheet of a condition, or that there is none.
fn shown_text(
    alloc: Global,
    setting: &Setting<'_>,
    sitting: &Sitting,
    step: u64,
) -> Result<String, AllocError> {
    let session = sitting.tried.session();
    let steps = session.lifts().len();
    if let Ok(number) = u32::try_from(step) {
        if let Some(text) = sheet_of(alloc, session, setting.chunk, number)? {
            return Ok(text);
        }
    }
    no_condition(alloc, step, steps)
}

/// The conditions from one to another in a list, or that there is none.
fn listed_text(
    alloc: Global,
    setting: &Setting<'_>,
    sitting: &Sitting,
    from: u64,
    to: u64,
) -> Result<String, AllocError> {
    let session = sitting.tried.session();
    let steps = session.lifts().len();
    let last = to.min(u64::from(count_of(steps)));
    if from > last {
        return no_conditions(alloc, from, to, steps);
    }
    let (Ok(first), Ok(last)) = (u32::try_from(from), u32::try_from(last)) else {
        return no_conditions(alloc, from, to, steps);
    };
    list_of(alloc, session, setting.chunk, first, last)
}

/// The table of limits, and the last line of the report.
fn worst_text(alloc: Global, sitting: &Sitting) -> Result<String, AllocError> {
    let session = sitting.tried.session();
    let mut text = table_of(alloc, session, sitting.rows.as_slice())?;
    let last = last_text(alloc, sitting.first)?;
    write!(text, "{last}\n")?;
    Ok(text)
}

/// Writes the edits that led to the list to a file that isn't there yet, and says what became of
/// it.
fn saved_text<M: Makers>(
    alloc: Global,
    files: &mut M,
    tried: &Tried,
    name: &[u8],
) -> Result<String, AllocError> {
    let shown = shown_line(alloc, name)?;
    let Ok(path) = str::from_utf8(name) else {
        return Ok(format!(in alloc; "NOT SAVED  {shown} can't be written\n")?);
    };
    let edits = tried.text(alloc)?;
    match files.make(path, edits.as_slice()) {
        Ok(()) => {
            let count = many(alloc, count_of(tried.edits()), "edit")?;
            Ok(format!(in alloc; "SAVED  {shown}, {count}\n")?)
        }
        Err(Unmade::Exists) => Ok(format!(in alloc; "NOT SAVED  {shown} is there already\n")?),
        Err(Unmade::Failed) => Ok(format!(in alloc; "NOT SAVED  {shown} can't be written\n")?),
        Err(Unmade::NoMemory) => Err(AllocError),
    }
}
