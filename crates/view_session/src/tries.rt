ghost use Rattle.std.specs.Prelude.{◌≡◌, ◌≢◌, [], List, Some, None, false, true, take, ◌∷◌};
ghost use Rattle.std.specs.Prelude.{◌++◌, All};
ghost use Rattle.std.specs.Prelude.{IfErr, IfOk, OnErr, OnOk, ◌==◌, length};
ghost use Rattle.std.specs.Arc.{arc_value};
ghost use Rattle.edits_file.specs.declared.forms.EditLine.TheVariants.{Edit as EditOf};
ghost use Rattle.edits_file.specs.declared.forms.EditLine.TheVariants.{Undo as UndoOf};
ghost use Rattle.edits_file.specs.Forms.{line_in};
ghost use Rattle.lift_sequence.specs.declared.operations.Op.{Op};
ghost use Rattle.step_edits.specs.Edits.{edited};
ghost use Rattle.what_if.specs.Sessions.{refusal};
ghost use Rattle.program.specs.Trials.{after_line, lists_of};
ghost use Rattle.view_session.specs.Trails.{IsOneLine, IsTrail, file_of, texts_of};

use std::alloc::{AllocError, Global};
use std::marker::Model;
use std::sync::Arc;
use step_edits::{Edit, EditFault};
use what_if::{Ground, Session};

/// A session, with the lines whose edits led from the list that it began with to that which it has.
///
/// To contracts it is what the session is, and the lines.
#[derive(Drop)]
pub struct Tried {
    session: Session,
    lines: Vec<Vec<u8>>,
}

impl Model for Tried {
    ghost use Rattle.view_session.specs.Trails.{TriedRecord, texts_of};

    ghost Value = { TriedRecord };

    ghost view = { λ t. record { session = t.session; lines = texts_of t.lines.items } };
}

/// Adds a line to those that are kept.
fn keep(alloc: Global, lines: &mut Vec<Vec<u8>>, line: &[u8]) -> Result<(), AllocError>
    ensures kept { OnOk result
        (texts_of lines.new.items ≡ texts_of lines.old.items ++ line.now ∷ []) }
    ensures same { OnErr result (texts_of lines.new.items ≡ texts_of lines.old.items) }
{
    let kept = Vec::from_slice(alloc, line)?;
    lines.push(kept)?;
    Ok(())
}

impl Tried {
    /// A session in which nothing was tried yet.
    pub fn new(alloc: Global, session: Session) -> Tried
        requires { session.past ≡ [] }
        ensures trail { IsTrail session.ops result }
        ensures session { result.session ≡ session }
    {
        Tried {
            session,
            lines: Vec::new(alloc),
        }
    }

    /// A session to whose list these lines led.
    pub(crate) fn with(session: Session, lines: Vec<Vec<u8>>) -> Tried
        ensures { result ≡ record { session = session; lines = texts_of lines.items } }
    {
        Tried { session, lines }
    }

    /// The session.
    pub fn session(&self) -> &Session
        ensures { result.now ≡ self.now.session }
    {
        &self.session
    }

    /// The ship and her arrival from which its list goes on.
    pub(crate) fn base(&self) -> &Arc<Ground, Global>
        ensures { arc_value result.now ≡ self.now.session.base }
    {
        self.session.base()
    }

    /// The lines whose edits led to its list.
    pub(crate) fn lines(&self) -> &[Vec<u8>]
        ensures { texts_of result.now ≡ self.now.lines }
    {
        self.lines.as_slice()
    }

    /// How many these are.
    pub fn edits(&self) -> usize
        ensures { result ≡ length self.now.lines }
    {
        self.lines.len()
    }

    /// Makes the edit of a line, and keeps the line; or why it is refused.
    fn make(&mut self, alloc: Global, line: &[u8], edit: Edit) -> Result<(), EditFault>
        requires form { line_in line.now ≡ Some (EditOf edit) }
        requires one { IsOneLine line.now }
        ensures made { OnOk result
            ((refusal self.old.session.base self.old.session.ops edit ≡ None)
            × (self.new.session.ops ≡ edited self.old.session.ops edit)
            × (self.new.session.past
            ≡ take 64 (self.old.session.ops ∷ self.old.session.past))) }
        ensures base { self.new.session.base ≡ self.old.session.base }
        ensures refused { IfErr result (λ e. e ≢ EditFault.NoMemory
            → refusal self.old.session.base self.old.session.ops edit ≡ Some e) }
        ensures before { OnErr result (self.new ≡ self.old) }
        ensures trail { (from : List Op) → IsTrail from self.old → IsTrail from self.new }
    {
        let Ok(()) = keep(alloc, &mut self.lines, line) else {
            return Err(EditFault::NoMemory);
        };
        match self.session.apply(edit) {
            Ok(()) => Ok(()),
            Err(fault) => {
                drop(self.lines.pop());
                Err(fault)
            }
        }
    }

    /// Tries the edit of a line, and gives why it is refused, if it is. The line is kept where the
    /// edit is made. Out of memory everything is as before.
    pub fn edit(
        &mut self,
        alloc: Global,
        line: &[u8],
        edit: Edit,
    ) -> Result<Option<EditFault>, AllocError>
        requires form { line_in line.now ≡ Some (EditOf edit) }
        requires one { IsOneLine line.now }
        ensures answer { IfOk result
            (λ fault. fault ≡ refusal self.old.session.base self.old.session.ops edit) }
        ensures lists { OnOk result (lists_of self.new.session
            ≡ after_line self.old.session.base (lists_of self.old.session) (EditOf edit)) }
        ensures base { self.new.session.base ≡ self.old.session.base }
        ensures before { OnErr result (self.new ≡ self.old) }
        ensures trail { (from : List Op) → IsTrail from self.old → IsTrail from self.new }
    {
        match self.make(alloc, line, edit) {
            Ok(()) => Ok(None),
            Err(EditFault::NoStep) => Ok(Some(EditFault::NoStep)),
            Err(EditFault::NotLoad) => Ok(Some(EditFault::NotLoad)),
            Err(EditFault::Sequence(fault)) => Ok(Some(EditFault::Sequence(fault))),
            Err(EditFault::NoMemory) => Err(AllocError),
        }
    }

    /// Takes the last edit back, with its line; `false` where there is none that can be. Out of
    /// memory everything is as before.
    pub fn undo(&mut self) -> Result<bool, AllocError>
        ensures none { IfOk result (λ took. took ≡ false
            → (self.old.session.past ≡ []) × (self.new ≡ self.old)) }
        ensures took { IfOk result (λ took. took ≡ true
            → self.old.session.past ≡ self.new.session.ops ∷ self.new.session.past) }
        ensures lists { OnOk result (lists_of self.new.session
            ≡ after_line self.old.session.base (lists_of self.old.session) UndoOf) }
        ensures base { self.new.session.base ≡ self.old.session.base }
        ensures before { OnErr result (self.new ≡ self.old) }
        ensures trail { (from : List Op) → IsTrail from self.old → IsTrail from self.new }
    {
        if !self.session.undo()? {
            return Ok(false);
        }
        drop(self.lines.pop());
        Ok(true)
    }

    /// The lines, each with LF behind it: an edits file that leads from the list with which the
    /// session began to that which it has ([`kept_edits_lead`](crate::kept_edits_lead)).
    pub fn text(&self, alloc: Global) -> Result<Vec<u8>, AllocError>
        ensures { IfOk result (λ text. text.items ≡ file_of self.now.lines) }
    {
        let mut text = Vec::new(alloc);
        for line in &self.lines {
            text.extend_from_slice(line.as_slice())?;
            text.push(b'\n')?;
        }
        Ok(text)
    }
}
