//! Two thousand lists at one desk.
ghost use Rattle.what_if.specs.Desks.{IsOf};

use crate::findings::holds;
use crate::publishers::{EACH, FIRST, Published, THREADS, by_threads};
use std::alloc::Global;
use std::io::Write;
use std::sync::Wait;
use std::thread::Threads;
use what_if::{Desk, Ticket};

/// The name of the trial.
const NAME: &str = "publications";

/// How many lists have to be published.
const LISTS: u32 = THREADS * EACH;

/// Which numbers are looked up, whether a list has them or not: all below this, and some far above
/// it.
const LOOKED_UP: usize = 4_096;

static FAR: [usize; 4] = [0x10_0000, 0x1_0000_0000, 0x4000_0000_0000_0000, usize::MAX];

/// How many lists were published, found by their numbers, and opened by their tickets.
#[derive(Clone, Copy, Default)]
struct Counts {
    made: u32,
    found: u32,
    opened: u32,
}

impl Counts {
    /// Counts a list.
    fn add<W: Write>(&mut self, out: &mut W, alloc: Global, list: &Published<'_>) {
        let number = list.ticket.place();
        let found = list.at_once && list.is_found(alloc);
        let opened = list.opens(alloc);
        self.made = self.made.saturating_add(1);
        if holds(out, found, NAME, "not found is list", number) {
            self.found = self.found.saturating_add(1);
        }
        if holds(out, opened, NAME, "not opened is list", number) {
            self.opened = self.opened.saturating_add(1);
        }
    }

    /// Whether all lists were published, found and opened.
    fn are_all(&self) -> bool {
        self.made == LISTS && self.found == LISTS && self.opened == LISTS
    }
}

/// Whether one of the lists has a first container of this weight.
fn is_published(lists: &[Vec<Published<'_>>], kg: u32) -> bool {
    for more in lists {
        for list in more {
            if list.kg == kg {
                return true;
            }
        }
    }
    false
}

/// Whether there is a list of each weight.
fn all_are_published<W: Write>(out: &mut W, lists: &[Vec<Published<'_>>]) -> bool {
    let mut right = true;
    for kg in FIRST..FIRST + LISTS {
        let claim = is_published(lists, kg);
        let what = "not published is the list of the weight";
        right &= holds(out, claim, NAME, what, kg as usize);
    }
    right
}

/// Whether a number is that of one of the lists.
fn is_given(lists: &[Vec<Published<'_>>], early: &Ticket, number: usize) -> bool {
    if early.place() == number {
        return true;
    }
    for more in lists {
        for list in more {
            if list.ticket.place() == number {
                return true;
            }
        }
    }
    false
}

/// Whether a number is found just where it is that of a list.
fn is_found_rightly<W: Write>(
    out: &mut W,
    desk: &Desk,
    early: &Ticket,
    lists: &[Vec<Published<'_>>],
    number: usize,
) -> bool {
    let claim = desk.find(number).is_some() == is_given(lists, early, number);
    let what = "found without a list, or not found with one, is number";
    holds(out, claim, NAME, what, number)
}

/// Whether just the numbers of the lists are found.
fn only_given_are_found<W: Write>(
    out: &mut W,
    desk: &Desk,
    early: &Ticket,
    lists: &[Vec<Published<'_>>],
) -> bool {
    let mut right = true;
    for number in 0..LOOKED_UP {
        right &= is_found_rightly(out, desk, early, lists, number);
    }
    for number in &FAR {
        right &= is_found_rightly(out, desk, early, lists, *number);
    }
    right
}

/// Eight threads publish 260 lists each. Whether each of them is found and opened, and nothing else
/// is found.
pub fn try_publications<R: AllocGlobal + Threads + Wait + Sync, W: Write>(
    rt: &R,
    out: &mut W,
    desk: &Desk,
    early: &Ticket,
) -> bool
    requires { IsOf desk.now early.now }
{
    let lists = by_threads(rt, rt.alloc(), desk, early);
    let mut counts = Counts::default();
    for more in &lists {
        for list in more {
            counts.add(out, rt.alloc(), list);
        }
    }
    let Counts {
        made,
        found,
        opened,
    } = counts;
    let said = writeln!(
        out,
        "publications: {made} made, {found} found, {opened} opened"
    );
    let all = all_are_published(out, &lists);
    let only_given = only_given_are_found(out, desk, early, &lists);
    said.is_ok() && counts.are_all() && all && only_given
}
