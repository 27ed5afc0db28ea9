ghost use Rattle.std.specs.Prelude.{◌≡◌, [], IfOk, IfSome};
ghost use Rattle.std.specs.Arc.{arc_value};
ghost use Rattle.what_if.specs.Desks.{IsOf, list_of};

use crate::sessions::Session;
use crate::tickets::Ticket;
use lift_sequence::Op;
use port_call::Ground;
use std::alloc::{AllocError, Global};
use std::marker::Model;
use std::sync::{Arc, Wait};
use step_edits::copies;

/// Lists of steps that planners publish to each other, all on one base. A list that is published
/// stays as it is. Any thread may publish, open and find at any time; there is no lock.
pub struct Desk {
    base: Arc<Ground, Global>,
    lists: boxcar::Vec<Vec<Op>>,
    alloc: Global,
}

impl Drop for Desk {
    // Written out, since the crates above prove a derived one anew, field by field.
    fn drop(self) {
        let Desk {
            base: _base,
            lists: _lists,
            alloc: _,
        } = self;
    }
}

impl Model for Desk {
    ghost use Rattle.std.specs.Arc.{arc_value};
    ghost use Rattle.what_if.specs.Desks.{DeskRecord};

    ghost Value = { DeskRecord };

    ghost view = { λ d. record { base = arc_value d.base; lists = d.lists } };
}

impl Desk {
    /// A desk on a base, with no list.
    pub fn new(alloc: Global, base: Arc<Ground, Global>) -> Result<Desk, AllocError>
        ensures { IfOk result (λ desk. desk.base ≡ arc_value base) }
    {
        let lists = boxcar::Vec::new(alloc)?;
        Ok(Desk { base, lists, alloc })
    }

    /// Publishes the list of a session whose base is equal to the desk's. The ticket that is
    /// answered opens to just this list. Out of memory every list that was published before is as
    /// it was, and a number may be used up.
    pub fn publish<R: Wait>(&self, rt: &R, session: &Session) -> Result<Ticket, AllocError>
        requires { session.now.base ≡ self.now.base }
        ensures { IfOk result (λ ticket. IsOf self.now ticket
            × (list_of ticket ≡ session.now.ops)) }
    {
        let list = copies(self.alloc, session.lifts())?;
        match self.lists.push_shown(rt, list) {
            Ok(pushed) => Ok(Ticket::of(pushed)),
            Err(_list) => Err(AllocError),
        }
    }

    /// A session on the desk's base with the list of a ticket of this desk and nothing to take
    /// back. Out of memory nothing changes.
    pub fn open(&self, ticket: &Ticket) -> Result<Session, AllocError>
        requires { IsOf self.now ticket.now }
        ensures { IfOk result (λ session. session ≡ record {
          base = self.now.base;
          ops = list_of ticket.now;
          past = [];
          joins = 0;
        }) }
    {
        let list = copies(self.alloc, self.lists.value(ticket.entry()))?;
        let base = Arc::try_clone(&self.base)?;
        match Session::new(self.alloc, base, list) {
            Ok(session) => Ok(session),
            // A published list is one of a session on an equal base, so all its steps can be done:
            // the only possible error is out of memory.
            Err(_) => Err(AllocError),
        }
    }

    /// The ticket of a number; `None` where no list is seen there.
    pub fn find(&self, place: usize) -> Option<Ticket>
        ensures { IfSome result
            (λ ticket. IsOf self.now ticket × (ticket.place ≡ place)) }
    {
        let pushed = self.lists.witness(place)?;
        Some(Ticket::of(pushed))
    }

    /// Two tickets of one desk with one number are of one list: a fact, which takes no time.
    pub fn agree(&self, one: &Ticket, other: &Ticket)
        requires one { IsOf self.now one.now }
        requires other { IsOf self.now other.now }
        requires place { one.now.place ≡ other.now.place }
        ensures { list_of one.now ≡ list_of other.now }
    {
        self.lists.agrees(one.entry(), other.entry());
    }
}
