ghost use Rattle.std.specs.Prelude.{◌≡◌, ◌++◌, ◌∷◌, [], List, length, IfOk, IfSome, OnErr};
ghost use Rattle.lift_sequence.specs.declared.operations.Op.{Op};
ghost use Rattle.view_session.specs.Shelves.{AreTrails, IsOpened, published};
ghost use Rattle.view_session.specs.Trails.{IsTrail, texts_of};

use crate::tries::Tried;
use std::alloc::{AllocError, Global};
use std::marker::Model;
use std::sync::{Arc, Wait};
use what_if::{Desk, Ground, Ticket};

/// A list that was published, with the lines whose edits led to it.
#[derive(Drop)]
struct Kept {
    ticket: Ticket,
    lines: Vec<Vec<u8>>,
}

/// What was published in a session. The lists are at a desk, by their numbers.
///
/// To contracts it is the base, and each list with its lines, oldest first.
#[derive(Drop)]
pub struct Shelf {
    desk: Desk,
    kept: Vec<Kept>,
}

impl Model for Shelf {
    ghost use Rattle.std.specs.Prelude.{All, map};
    ghost use Rattle.what_if.specs.Desks.{IsOf};
    ghost use Rattle.view_session.specs.Shelves.{ShelfRecord};
    ghost use Rattle.view_session.specs.Kept.{kept_of};

    ghost Value = { ShelfRecord };

    ghost view = { λ s. record { base = s.desk.base; kept = map kept_of s.kept.items } };

    ghost invariant = { λ s. All (λ k. IsOf s.desk k.ticket) s.kept.items };
}

/// Copies of lines.
fn copy_lines(alloc: Global, lines: &[Vec<u8>]) -> Result<Vec<Vec<u8>>, AllocError>
    ensures { IfOk result (λ list. texts_of list.items ≡ texts_of lines.now) }
{
    let mut list = Vec::new(alloc);
    for line in lines {
        list.push(Vec::from_slice(alloc, line.as_slice())?)?;
    }
    Ok(list)
}

impl Shelf {
    /// Nothing published yet, by the sessions on the base of this one.
    pub fn new(alloc: Global, tried: &Tried) -> Result<Shelf, AllocError>
        ensures { IfOk result
            (λ s. s ≡ record { base = tried.now.session.base; kept = [] }) }
    {
        let base = Arc::try_clone(tried.base())?;
        let desk = Desk::new(alloc, base)?;
        Ok(Shelf {
            desk,
            kept: Vec::new(alloc),
        })
    }

    /// Publishes the list of a session on the same base, with the lines whose edits led to it, and
    /// gives its number, from 1.
    pub fn publish<R: Wait>(
        &mut self,
        rt: &R,
        alloc: Global,
        tried: &Tried,
    ) -> Result<usize, AllocError>
        requires { tried.now.session.base ≡ self.old.base }
        ensures kept { IfOk result (λ _. self.new.kept ≡ self.old.kept
            ++ record { ops = tried.now.session.ops; lines = tried.now.lines } ∷ []) }
        ensures number { IfOk result (λ n. n ≡ length self.new.kept) }
        ensures base { self.new.base ≡ self.old.base }
        ensures before { OnErr result (self.new ≡ self.old) }
        ensures trails { (from : List Op)
            → AreTrails from self.old → IsTrail from tried.now → AreTrails from self.new }
    {
        let lines = copy_lines(alloc, tried.lines())?;
        let ticket = self.desk.publish(rt, tried.session())?;
        self.kept.push(Kept { ticket, lines })?;
        Ok(self.kept.len())
    }

    /// A session with the list of a number, and the lines that led to it; nothing can be taken back
    /// there. `None` where no list has this number.
    pub fn open(&self, alloc: Global, number: usize) -> Result<Option<Tried>, AllocError>
        ensures opened { IfOk result
            (λ opened. IsOpened self.now (published self.now.kept number) opened) }
        ensures trail { (from : List Op) → AreTrails from self.now
            → IfOk result (λ opened. IfSome opened (IsTrail from)) }
    {
        let Some(place) = number.checked_sub(1) else {
            return Ok(None);
        };
        let Some(kept) = self.kept.get(place) else {
            return Ok(None);
        };
        let lines = copy_lines(alloc, &kept.lines)?;
        let session = self.desk.open(&kept.ticket)?;
        Ok(Some(Tried::with(session, lines)))
    }
}

impl Tried {
    /// The same list with the lines that led to it, in a session that has nothing to take back.
    pub fn without_past<R: Wait>(&self, rt: &R, alloc: Global) -> Result<Tried, AllocError>
        ensures base { IfOk result (λ t. t.session.base ≡ self.now.session.base) }
        ensures list { IfOk result (λ t. t.session.ops ≡ self.now.session.ops) }
        ensures past { IfOk result (λ t. t.session.past ≡ []) }
        ensures lines { IfOk result (λ t. t.lines ≡ self.now.lines) }
        ensures trail { (from : List Op) → IsTrail from self.now → IfOk result (IsTrail from) }
    {
        let mut shelf = Shelf::new(alloc, self)?;
        let number = shelf.publish(rt, alloc, self)?;
        let Some(tried) = shelf.open(alloc, number)? else {
            return Err(AllocError);
        };
        Ok(tried)
    }
}
