//! Calls that ask for no memory: the first growth is refused while they are made, and none is. Here
//! are those of sessions, desks, boards and scans.
ghost use Rattle.std.specs.Prelude.{◌≡◌};
ghost use Rattle.what_if.specs.Desks.{IsOf};

use crate::sessions::reweigh;
use crate::trials::Told;
use crate::watch::{refuse, was_refused};
use claim_board::{Event, World};
use claim_run::{Board, Gate, Open, Workers};
use criteria::Verdict;
use parallel_tests::three_chunks;
use prefix_scan::{Cuts, Flat, Last, Monoid, Prefixes, Running, TotalsTree, fold};
use std::alloc::{AllocError, Global};
use what_if::{Desk, Session, Ticket};

/// The readers of a session, a desk and a ticket; another weight, and what it takes back.
#[derive(Drop)]
pub struct Readers<'a> {
    pub session: &'a mut Session,
    pub desk: &'a Desk,
    pub ticket: &'a Ticket,
}

impl<'a> Readers<'a> {
    /// Reads all that can be read.
    pub fn call(&mut self) -> Told {
        let mut right = self.session.lifts().len() == 2;
        right &= matches!(self.session.judge(2), Some(Verdict::Passes(_)));
        right &= self.session.judge(3).is_none();
        right &= self.session.first_fail().is_none();
        right &= self.session.case().lines() == 3;
        right &= self.session.base().same(self.session.base());
        right &= reweigh(self.session, 1, 65) && self.session.undo() == Ok(true);
        right &= self.ticket.place() == 0;
        right &= matches!(self.desk.find(0), Some(ticket) if ticket.place() == 0);
        if right { Told::Right } else { Told::Wrong }
    }
}

/// Numbers of workers, and the gate that holds none.
fn workers_are_free(alloc: Global) -> bool {
    refuse(alloc, 0, 1);
    let two = matches!(Workers::new(2), Some(two) if two.get() == 2);
    let none = Workers::new(17).is_none();
    Open.pass(0, 0);
    !was_refused(alloc) && two && none
}

/// The turns of two hands on one thread.
fn board_is_free(alloc: Global) -> Result<bool, AllocError> {
    let scout = three_chunks();
    let Some(two) = Workers::new(2) else {
        unreachable!()
    };
    let (board, mut first) = Board::new(alloc, two, 3, &scout)?;
    refuse(alloc, 0, 1);
    let mut second = board.split(&mut first)?;
    let drawn = board.turn(&Open, 1, &mut second);
    if drawn.is_some() {
        let _ = board.turn(&Open, 1, &mut second);
    }
    let drawn = board.turn(&Open, 0, &mut first);
    if drawn.is_some() {
        let _ = board.turn(&Open, 0, &mut first);
    }
    board.join(&mut first, second);
    let (next, least) = board.close(first);
    let free = !was_refused(alloc);
    Ok(free && next == 4 && least == Some(3))
}

/// The events of a worker that finds a step in the first of two chunks, skips the second and stops.
static TO_ITS_END: [Event; 9] = [
    Event::Draw(0),
    Event::Look(0),
    Event::Work(0),
    Event::Post(0),
    Event::Draw(0),
    Event::Look(0),
    Event::Skip(0),
    Event::Draw(0),
    Event::Stop(0),
];

/// Those of one that is refused.
static REFUSED: [Event; 2] = [Event::Draw(0), Event::Refuse(0)];

/// Whether all of these events happen, and no memory is asked for; and how many numbers are drawn
/// then, and how many entries there are.
fn events_are_free(alloc: Global, events: &[Event], numbers: u32) -> Result<bool, AllocError> {
    let mut world = World::new(alloc, 1, &[0, 5], &[Some(3), None])?;
    refuse(alloc, 0, 1);
    let mut enabled = true;
    for event in events {
        enabled &= world.apply(*event);
    }
    let drawn = world.next() == numbers && world.entries(0).len() == numbers as usize;
    let free = !was_refused(alloc);
    Ok(free && enabled && drawn)
}

/// The events of a board without threads.
fn world_is_free(alloc: Global) -> Result<bool, AllocError> {
    let mut world = World::new(alloc, 1, &[0, 5], &[Some(3), None])?;
    refuse(alloc, 0, 1);
    let mut enabled = world.apply(Event::Draw(0));
    enabled &= world.apply(Event::Look(0));
    enabled &= world.apply(Event::Work(0));
    enabled &= world.apply(Event::Post(0));
    let read = world.next() == 1 && world.least() == Some(3) && world.entries(0).len() == 1;
    let free = !was_refused(alloc);
    let ends = events_are_free(alloc, &TO_ITS_END, 3)?;
    Ok(free && enabled && read && ends && events_are_free(alloc, &REFUSED, 1)?)
}

/// The value that running joins begin with, and the one that takes a place.
const SEVEN: Last = Last {
    value: Some(7),
    parts: 1,
};

const FIVE: Last = Last {
    value: Some(5),
    parts: 1,
};

/// Three values in a row.
static VALUES: [Last; 3] = [
    Last {
        value: Some(1),
        parts: 1,
    },
    Last {
        value: None,
        parts: 1,
    },
    Last {
        value: Some(3),
        parts: 1,
    },
];

/// Folds and running joins of three values, and joins of two.
fn folds_are_free(alloc: Global) -> bool {
    refuse(alloc, 0, 1);
    let whole = fold(&VALUES);
    let first = Running::new(SEVEN, &VALUES).next();
    let both = SEVEN.join(&FIVE);
    let none = Last::unit();
    !was_refused(alloc)
        && whole.value == Some(3)
        && matches!(first, Some(Last { value: Some(1), .. }))
        && both.value == Some(5)
        && both.size() == 2
        && none.parts == 0
}

/// A tree over three values, of which the second is replaced, and then the first two.
fn tree_is_free(alloc: Global) -> Result<bool, AllocError> {
    let mut tree = TotalsTree::build(alloc, &VALUES)?;
    refuse(alloc, 0, 1);
    let length = tree.len();
    tree.set(1, FIVE);
    let so_far = tree.prefix(2);
    let joins = tree.joins();
    let same = tree.peek(2);
    let mut both = [FIVE, SEVEN];
    tree.set_stretch(0, &mut both);
    let other = tree.peek(2);
    let free = !was_refused(alloc);
    let right = length == 3 && joins > 0 && other.value == Some(7);
    Ok(free && right && so_far.value == Some(5) && same.value == Some(5))
}

/// The prefixes of three values, all of which are kept, and chunks of two.
fn lists_are_free(alloc: Global) -> Result<bool, AllocError> {
    let flat = Flat::build(alloc, &VALUES)?;
    let Ok(cuts) = Cuts::every(alloc, 2, 3) else {
        return Err(AllocError);
    };
    refuse(alloc, 0, 1);
    let so_far = flat.prefix(3);
    let length = flat.len();
    let last = cuts.range(cuts.chunks() - 1);
    let free = !was_refused(alloc);
    Ok(free && so_far.value == Some(3) && length == 3 && last.start == 2 && last.end == 3)
}

/// Whether none of them asks for memory.
pub fn are_free(alloc: Global) -> Result<bool, AllocError> {
    Ok(
        workers_are_free(alloc)
            && board_is_free(alloc)?
            && world_is_free(alloc)?
            && folds_are_free(alloc)
            && tree_is_free(alloc)?
            && lists_are_free(alloc)?,
    )
}
