//! Edits of sessions that are tried, row by row.
use crate::edits::{Editing, Kept, Kind, edit_of, name_of};
use crate::notes::{is_free, note, note_free};
use crate::sessions::{LONG, list_of, session_on, with_fillings, with_long_list, with_restows};
use crate::trials::Trial;
use crate::watch::{Tally, watch};
use lift_sequence::Op;
use seq_report::RunFault;
use std::io::Write;
use std::sync::Wait;
use std::thread::Threads;
use what_if::Session;

/// How many edits are kept before the one that is tried, none, some and all that may be, and what
/// the rows are called in which it is made and taken back.
static ROWS: [(u32, &str, &str); 3] = [
    (0, "session_edits, apply", "session_edits, undo"),
    (
        3,
        "session_edits, apply behind 3 edits",
        "session_edits, undo behind 3 edits",
    ),
    (
        64,
        "session_edits, apply behind 64 edits",
        "session_edits, undo behind 64 edits",
    ),
];

/// An edit that is tried, the lists before and after it, and the others that are kept.
#[derive(Drop)]
struct Tried<'a> {
    kind: Kind,
    before: &'a [Op],
    after: &'a [Op],
    kept: &'a Kept,
}

/// Whether an edit that makes the second list of the first asks for no memory: it exchanges two
/// fillings of one tank; or it takes a step out and leaves fewer than four, of which no sum is
/// kept.
fn asks_for_none(kind: Kind, from: &[Op], to: &[Op]) -> bool {
    match kind {
        Kind::SwapFillings => true,
        _ => to.len() < from.len() && to.len() < 4,
    }
}

/// Says how many growths of an edit were refused, or, where it may ask for none, that it doesn't.
fn note_edit<W: Write>(out: &mut W, name: &str, kind: Kind, free: bool, tally: Tally) -> bool {
    if free {
        note_free(out, name, name_of(kind), is_free(tally))
    } else {
        note(out, name, name_of(kind), tally)
    }
}

/// An edit.
fn try_apply<'a, R: AllocGlobal + Threads + Wait + Sync, W: Write>(
    rt: &R,
    out: &mut W,
    name: &str,
    session: &'a mut Session,
    tried: &'a Tried<'a>,
) -> bool {
    let editing = Editing {
        session,
        kind: tried.kind,
        before: tried.before,
        after: tried.after,
        kept: tried.kept,
    };
    let tally = watch(rt, &mut Trial::Apply(editing));
    let free = asks_for_none(tried.kind, tried.before, tried.after);
    note_edit(out, name, tried.kind, free, tally)
}

/// The same taken back.
fn try_undo<'a, R: AllocGlobal + Threads + Wait + Sync, W: Write>(
    rt: &R,
    out: &mut W,
    name: &str,
    session: &'a mut Session,
    tried: &'a Tried<'a>,
) -> bool {
    let editing = Editing {
        session,
        kind: tried.kind,
        before: tried.before,
        after: tried.after,
        kept: tried.kept,
    };
    let tally = watch(rt, &mut Trial::Undo(editing));
    let free = asks_for_none(tried.kind, tried.after, tried.before);
    note_edit(out, name, tried.kind, free, tally)
}

/// Both, in a session in which so many others are kept then.
fn edits_behind<R: AllocGlobal + Threads + Wait + Sync, W: Write>(
    rt: &R,
    out: &mut W,
    session: &mut Session,
    kind: Kind,
    row: &(u32, &str, &str),
) -> Result<bool, RunFault> {
    let (count, apply, undo) = *row;
    let kept = Kept::make(rt.alloc(), session, count)?;
    let before = list_of(rt.alloc(), session)?;
    let Some(after) = kept.list_after(rt.alloc(), session, kind)? else {
        let wrong = Tally {
            refused: 0,
            wrong: 1,
        };
        return Ok(note(out, apply, name_of(kind), wrong));
    };
    let tried = Tried {
        kind,
        before: &before,
        after: &after,
        kept: &kept,
    };
    let right = try_apply(rt, out, apply, session, &tried);
    let made = session.apply(edit_of(kind)).is_ok();
    let taken = try_undo(rt, out, undo, session, &tried);
    Ok(right && made && taken)
}

/// The same in sessions on the list of another, with so many others as each row has.
fn edits<R: AllocGlobal + Threads + Wait + Sync, W: Write>(
    rt: &R,
    out: &mut W,
    session: &Session,
    kind: Kind,
) -> Result<bool, RunFault> {
    let mut right = true;
    for row in &ROWS {
        let list = list_of(rt.alloc(), session)?;
        let mut edited = session_on(rt.alloc(), session, list)?;
        right &= edits_behind(rt, out, &mut edited, kind, row)?;
    }
    Ok(right)
}

/// Edits of a list of two loads, of the same with two fillings of one tank, and with two restows of
/// one container.
pub fn short_lists<R: AllocGlobal + Threads + Wait + Sync, W: Write>(
    rt: &R,
    out: &mut W,
    session: &Session,
) -> Result<bool, RunFault> {
    let mut right = edits(rt, out, session, Kind::Remove)?;
    right &= edits(rt, out, session, Kind::InsertLoad)?;
    right &= edits(rt, out, session, Kind::InsertDischarge)?;
    right &= edits(rt, out, session, Kind::InsertRestow)?;
    let longer = with_fillings(rt.alloc(), session)?;
    right &= edits(rt, out, &longer, Kind::Move)?;
    right &= edits(rt, out, &longer, Kind::MoveFilling)?;
    right &= edits(rt, out, &longer, Kind::SwapFillings)?;
    let restowed = with_restows(rt.alloc(), session)?;
    Ok(right & edits(rt, out, &restowed, Kind::MoveRestow)?)
}

/// Searches and edits of a long list, and an edit that makes a list so long that room is asked for
/// what searches keep of it.
pub fn long_lists<R: AllocGlobal + Threads + Wait + Sync, W: Write>(
    rt: &R,
    out: &mut W,
    session: &Session,
) -> Result<bool, RunFault> {
    let mut long = with_long_list(rt.alloc(), session, LONG)?;
    let free = is_free(watch(rt, &mut Trial::Searches(&mut long)));
    let mut right = note_free(out, "searches of a long list", "", free);
    right &= edits(rt, out, &long, Kind::Insert)?;
    right &= edits(rt, out, &long, Kind::Remove)?;
    let shorter = with_long_list(rt.alloc(), session, LONG - 1)?;
    Ok(right & edits(rt, out, &shorter, Kind::Lengthen)?)
}

/// A call of a session that asks for none.
pub fn undos<R: AllocGlobal + Threads + Wait + Sync, W: Write>(
    rt: &R,
    out: &mut W,
    session: &mut Session,
) -> bool {
    let free = is_free(watch(rt, &mut Trial::SixtyFourUndos(session)));
    note_free(out, "sixty_four_undos", "", free)
}

/// Exchanges of independent steps, for which there is a third.
pub fn swaps<R: AllocGlobal + Threads + Wait + Sync, W: Write>(
    rt: &R,
    out: &mut W,
    session: &mut Session,
) -> bool {
    let inserted = session.apply(edit_of(Kind::Insert)).is_ok();
    let free = is_free(watch(rt, &mut Trial::Swaps(session)));
    let back = session.undo() == Ok(true);
    note_free(
        out,
        "exchanges of independent steps",
        "",
        inserted && back && free,
    )
}

/// Moves of fillings, in a list that has no whole four of steps.
pub fn moves_of_fillings<R: AllocGlobal + Threads + Wait + Sync, W: Write>(
    rt: &R,
    out: &mut W,
    session: &Session,
) -> Result<bool, RunFault> {
    let mut short = with_long_list(rt.alloc(), session, 3)?;
    let free = is_free(watch(rt, &mut Trial::MovesOfFillings(&mut short)));
    Ok(note_free(out, "moves of fillings", "", free))
}
