//! All trials, and the sessions and desks that they begin with.
ghost use Rattle.std.specs.Prelude.{◌≡◌, IfOk};

use crate::edits::try_edits;
use crate::findings::{Missing, is_right};
use crate::greatest::try_greatest;
use crate::publications::try_publications;
use crate::steps::{turns, two_loads};
use box_ship::{EMPTY_PLAN, NO_MOVES, files};
use lift_sequence::Op;
use seq_report::Inputs;
use std::alloc::{AllocError, Global};
use std::io::Write;
use std::sync::{Arc, Wait};
use std::thread::Threads;
use what_if::{Desk, Session};

/// The inputs of the box ship, without a container on arrival, with a movement instruction.
pub fn inputs(movins: &[u8]) -> Inputs<'_> {
    Inputs {
        profile: files(),
        baplie: EMPTY_PLAN,
        movins,
        steps: None,
    }
}

/// A desk for the base of a session.
pub fn desk_of(alloc: Global, session: &Session) -> Result<Desk, Missing>
    ensures { IfOk result (λ desk. session.now.base ≡ desk.base) }
{
    let Ok(base) = Arc::try_clone(session.base()) else {
        return Err(Missing("no base for a desk"));
    };
    match Desk::new(alloc, base) {
        Ok(desk) => Ok(desk),
        Err(_) => Err(Missing("no desk")),
    }
}

/// A session on the base of another one, with a list of its own.
fn session_with(
    alloc: Global,
    session: &Session,
    list: Result<Vec<Op>, AllocError>,
) -> Result<Session, Missing>
    ensures { IfOk result (λ made. made.base ≡ session.now.base) }
{
    let Ok(list) = list else {
        return Err(Missing("no memory for a list"));
    };
    let Ok(base) = Arc::try_clone(session.base()) else {
        return Err(Missing("no base for a session"));
    };
    match Session::new(alloc, base, list) {
        Ok(made) => Ok(made),
        Err(_) => Err(Missing("no session on a list")),
    }
}

/// Two thousand lists at a desk, to which the first list is published here.
fn publications<R: AllocGlobal + Threads + Wait + Sync, W: Write>(
    rt: &R,
    out: &mut W,
    session: &Session,
) -> Result<bool, Missing> {
    let desk = desk_of(rt.alloc(), session)?;
    let first = session_with(rt.alloc(), session, two_loads(rt.alloc(), 20_500))?;
    match desk.publish(rt, &first) {
        Ok(early) => Ok(try_publications(rt, out, &desk, &early)),
        Err(_) => Err(Missing("publications: the first list isn't published")),
    }
}

/// Edits of a list of this number of steps.
fn edits<W: Write>(
    alloc: Global,
    out: &mut W,
    trial: &'static str,
    session: &Session,
    steps: u32,
) -> Result<bool, Missing> {
    let mut edited = session_with(alloc, session, turns(alloc, steps))?;
    try_edits(alloc, out, trial, &mut edited, steps)
}

/// Makes the trials that begin with a session on no steps. Whether nothing was wrong.
fn are_right_on<R: AllocGlobal + Threads + Wait + Sync, W: Write>(
    rt: &R,
    out: &mut W,
    session: &Session,
) -> bool {
    let published = publications(rt, out, session);
    let published = is_right(out, published);
    let greatest = try_greatest(rt, out);
    let greatest = is_right(out, greatest);
    let few = edits(rt.alloc(), out, "edits of 12 steps", session, 12);
    let few = is_right(out, few);
    let many = edits(rt.alloc(), out, "edits of 2000 steps", session, 2_000);
    let many = is_right(out, many);
    published && greatest && few && many
}

/// Makes all trials. Whether nothing was wrong.
pub fn are_right<R: AllocGlobal + Threads + Wait + Sync, W: Write>(rt: &R, out: &mut W) -> bool {
    match Session::read(rt.alloc(), &inputs(NO_MOVES)) {
        Ok(session) => are_right_on(rt, out, &session),
        Err(_) => is_right(out, Err(Missing("no session on no steps"))),
    }
}
