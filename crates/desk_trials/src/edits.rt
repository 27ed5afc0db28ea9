//! Edits of each kind, made and taken back.
use crate::findings::{Missing, holds};
use crate::steps::{AFT, STARBOARD, discharge, filling, load, mass, restow};
use lift_sequence::Op;
use std::alloc::Global;
use std::io::Write;
use step_edits::copies;
use what_if::{Edit, Session};

/// The kinds of edits, in the order in which a round makes them.
#[derive(Clone, Copy)]
enum Kind {
    InsertLoad,
    InsertRestow,
    InsertDischarge,
    InsertFilling,
    Swap,
    Move,
    Reweigh,
    Remove,
}

static KINDS: [Kind; 8] = [
    Kind::InsertLoad,
    Kind::InsertRestow,
    Kind::InsertDischarge,
    Kind::InsertFilling,
    Kind::Swap,
    Kind::Move,
    Kind::Reweigh,
    Kind::Remove,
];

/// How many rounds there are: three near the head of the list, three in its middle, and three
/// behind its last step. A round has an edit of each kind, and leaves the list three steps longer.
const ROUNDS: u32 = 9;

/// How many of the last edits can be taken back.
const KEPT: usize = 64;

/// The edit of a kind in a round that begins at this place, from which on no container stands aft
/// or to starboard. One comes aboard aft, is restowed to starboard and goes ashore, and the tank is
/// filled. The filling changes places with the first step. That is moved back to the head of the
/// list, which leaves the filling behind it, where it is removed.
fn edit_of(kind: Kind, place: u32, round: u32) -> Edit {
    let second = place.saturating_add(1);
    let third = place.saturating_add(2);
    let fourth = place.saturating_add(3);
    match kind {
        Kind::InsertLoad => Edit::Insert {
            at: place,
            lift: load(AFT, 20_500),
        },
        Kind::InsertRestow => Edit::Insert {
            at: second,
            lift: restow(AFT, STARBOARD),
        },
        Kind::InsertDischarge => Edit::Insert {
            at: third,
            lift: discharge(STARBOARD),
        },
        Kind::InsertFilling => Edit::Insert {
            at: fourth,
            lift: filling(250_000),
        },
        Kind::Swap => Edit::Swap { a: 1, b: fourth },
        // What stood behind the first step stands one further behind then.
        Kind::Move => Edit::Move {
            from: fourth,
            to: 1,
        },
        Kind::Reweigh => Edit::Reweigh {
            at: second,
            kg: mass(round.saturating_add(1_000)),
        },
        Kind::Remove => Edit::Remove { at: 2 },
    }
}

/// The list of a session, in memory of its own.
fn list_of(alloc: Global, session: &Session) -> Result<Vec<Op>, Missing> {
    match copies(alloc, session.lifts()) {
        Ok(list) => Ok(list),
        Err(_) => Err(Missing("edits: no memory for a list")),
    }
}

/// A session that is edited in a trial of this name, and the lists that it was, the latest last.
#[derive(Drop)]
struct Editing<'a> {
    trial: &'static str,
    session: &'a mut Session,
    lists: Vec<Vec<Op>>,
    alloc: Global,
}

impl<'a> Editing<'a> {
    /// Makes an edit. Whether the list is another one then.
    fn is_made(&mut self, edit: Edit, before: &[Op]) -> bool {
        self.session.apply(edit).is_ok() && self.session.lifts() != before
    }

    /// Takes the last edit back. Whether the list is this one then.
    fn is_taken_back(&mut self, before: &[Op]) -> bool {
        self.session.undo() == Ok(true) && self.session.lifts() == before
    }

    /// Makes an edit, takes it back, and makes it again. Whether each was right.
    fn try_edit(&mut self, kind: Kind, place: u32, round: u32) -> Result<bool, Missing> {
        let before = list_of(self.alloc, self.session)?;
        let made = self.is_made(edit_of(kind, place, round), &before);
        let after = list_of(self.alloc, self.session)?;
        let back = self.is_taken_back(&before);
        let again = self.is_made(edit_of(kind, place, round), &before);
        let same = self.session.lifts() == after.as_slice();
        match self.lists.push(before) {
            Ok(()) => Ok(made && back && again && same),
            Err(_) => Err(Missing("edits: no memory for the lists")),
        }
    }

    /// Makes an edit of each kind, up to the first that isn't right. Whether all were.
    fn try_round<W: Write>(
        &mut self,
        out: &mut W,
        place: u32,
        round: u32,
    ) -> Result<bool, Missing> {
        for kind in &KINDS {
            let right = self.try_edit(*kind, place, round)?;
            let what = "not made and taken back is edit";
            if !holds(out, right, self.trial, what, self.lists.len()) {
                return Ok(false);
            }
        }
        Ok(true)
    }

    /// Takes the last 64 edits back, up to the first that isn't. Whether each list was the one
    /// before, and none is kept then.
    fn are_taken_back<W: Write>(&mut self, out: &mut W) -> bool {
        for number in 1..=KEPT {
            let back = match self.lists.pop() {
                Some(before) => self.is_taken_back(&before),
                None => false,
            };
            let what = "not taken back of the last edits is";
            if !holds(out, back, self.trial, what, number) {
                return false;
            }
        }
        let none = self.session.undo() == Ok(false);
        let what = "taken back of the last edits is";
        holds(out, none, self.trial, what, KEPT + 1)
    }
}

/// Where a round begins in a list that had `steps` steps at first. The steps that the rounds before
/// it left are in front.
fn place_of(round: u32, steps: u32) -> u32 {
    let at_first = match round / 3 {
        0 => 3,
        1 => steps / 2,
        _ => steps.saturating_add(1),
    };
    round.saturating_mul(3).saturating_add(at_first)
}

/// Edits of each kind in a session on this number of steps, made and taken back. It stops after the
/// first that is wrong.
pub fn try_edits<W: Write>(
    alloc: Global,
    out: &mut W,
    trial: &'static str,
    session: &mut Session,
    steps: u32,
) -> Result<bool, Missing> {
    let mut editing = Editing {
        trial,
        session,
        lists: Vec::new(alloc),
        alloc,
    };
    for round in 0..ROUNDS {
        if !editing.try_round(out, place_of(round, steps), round)? {
            return Ok(false);
        }
    }
    if !editing.are_taken_back(out) {
        return Ok(false);
    }
    let kinds = KINDS.len();
    let said = writeln!(out, "{trial}: {kinds} kinds made and taken back");
    Ok(said.is_ok())
}
