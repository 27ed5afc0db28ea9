//! A list of as many steps as there may be.
ghost use Rattle.std.specs.Prelude.{◌≡◌};
ghost use Rattle.what_if.specs.Desks.{IsOf};

use crate::findings::{Missing, holds};
use crate::steps::{AMIDSHIPS, discharge, load, mass};
use crate::trials::{desk_of, inputs};
use criteria::Verdict;
use lift_sequence::Op;
use std::alloc::{AllocError, Global};
use std::io::Write;
use std::sync::Wait;
use std::thread;
use std::thread::Threads;
use what_if::{Desk, Edit, Session, Ticket};

/// The name of the trial.
const NAME: &str = "greatest list";

/// How many steps it has.
const STEPS: u32 = 120_000;

/// How many containers come aboard and go ashore again.
const TURNS: u32 = 60_000;

/// The movement instruction: what it begins with, what it has of each container, and what it ends
/// with.
const HEAD: &[u8] = b"UNB+UNOA:2+PLAN+SHIP+250101:1200+8'UNH+1+MOVINS:D:95B:UN'";

const TURN: &[u8] = b"HAN+LOA'LOC+147+0030082'MEA+WT++KGM:20500'HAN+DIS'LOC+147+0030082'EQD+CN'";

const TAIL: &[u8] = b"UNT+360002+1'UNZ+1+8'";

/// The movement instruction.
fn movement_instruction(alloc: Global) -> Result<Vec<u8>, AllocError> {
    let mut text = Vec::new(alloc);
    text.extend_from_slice(HEAD)?;
    for _ in 0..TURNS {
        text.extend_from_slice(TURN)?;
    }
    text.extend_from_slice(TAIL)?;
    Ok(text)
}

/// What it orders, step by step.
fn list_of_moves(alloc: Global) -> Result<Vec<Op>, AllocError> {
    let mut list = Vec::new(alloc);
    for _ in 0..TURNS {
        list.push(load(AMIDSHIPS, 20_500))?;
        list.push(discharge(AMIDSHIPS))?;
    }
    Ok(list)
}

/// Whether a ticket opens to a list.
fn opens_to(desk: &Desk, ticket: &Ticket, list: &[Op]) -> bool
    requires { IsOf desk.now ticket.now }
{
    match desk.open(ticket) {
        Ok(session) => session.lifts() == list,
        Err(_) => false,
    }
}

/// Whether the list is opened in two threads at once.
fn is_opened_twice<W: Write, R: Threads + Wait + Sync>(
    rt: &R,
    out: &mut W,
    desk: &Desk,
    ticket: &Ticket,
    list: &[Op],
) -> bool
    requires { IsOf desk.now ticket.now }
{
    let (one, other) = thread::join(
        rt,
        || opens_to(desk, ticket, list),
        || opens_to(desk, ticket, list),
    );
    let one = holds(out, one, NAME, "not opened is list", 1);
    one & holds(out, other, NAME, "not opened is list", 2)
}

/// Whether all steps pass, and the last is judged so.
fn passes(session: &mut Session) -> bool {
    session.first_fail().is_none()
        && matches!(session.judge(STEPS), Some(Verdict::Passes(_)))
        && session.judge(STEPS + 1).is_none()
}

/// Whether a session has this list, but for the weight of its first container.
fn has(session: &Session, kg: u32, list: &[Op]) -> bool {
    match (session.lifts(), list) {
        ([first, rest @ ..], [_, others @ ..]) => *first == load(AMIDSHIPS, kg) && rest == others,
        _ => false,
    }
}

/// Whether its first container is given another weight, and its weight back.
fn is_edited<W: Write>(out: &mut W, session: &mut Session, list: &[Op]) -> bool {
    let edit = Edit::Reweigh {
        at: 1,
        kg: mass(20_501),
    };
    let made = session.apply(edit).is_ok() && has(session, 20_501, list) && passes(session);
    let made = holds(out, made, NAME, "not edited is step", 1);
    let back = session.undo() == Ok(true) && has(session, 20_500, list) && passes(session);
    let back = holds(out, back, NAME, "not taken back is step", 1);
    let none = session.undo() == Ok(false);
    made & back & holds(out, none, NAME, "taken back twice is step", 1)
}

/// Whether the list that a session publishes is opened and edited.
fn is_published<W: Write, R: Threads + Wait + Sync>(
    rt: &R,
    out: &mut W,
    desk: &Desk,
    session: &Session,
    list: &[Op],
) -> Result<bool, Missing>
    requires { session.now.base ≡ desk.now.base }
{
    let Ok(ticket) = desk.publish(rt, session) else {
        return Err(Missing("greatest list: it isn't published"));
    };
    let opened = is_opened_twice(rt, out, desk, &ticket, list);
    let Ok(mut session) = desk.open(&ticket) else {
        return Err(Missing("greatest list: it isn't opened a third time"));
    };
    let edited = is_edited(out, &mut session, list);
    // The list at the desk stays as it was published.
    Ok(opened & edited & is_opened_twice(rt, out, desk, &ticket, list))
}

/// A list of 120,000 steps is published, opened and edited.
pub fn try_greatest<R: AllocGlobal + Threads + Wait + Sync, W: Write>(
    rt: &R,
    out: &mut W,
) -> Result<bool, Missing> {
    let Ok(text) = movement_instruction(rt.alloc()) else {
        return Err(Missing("greatest list: no memory for its text"));
    };
    let Ok(list) = list_of_moves(rt.alloc()) else {
        return Err(Missing("greatest list: no memory for its steps"));
    };
    let Ok(session) = Session::read(rt.alloc(), &inputs(&text)) else {
        return Err(Missing("greatest list: it isn't read"));
    };
    let read = holds(
        out,
        session.lifts() == list.as_slice(),
        NAME,
        "not read are all steps of",
        list.len(),
    );
    let desk = desk_of(rt.alloc(), &session)?;
    let right = read & is_published(rt, out, &desk, &session, &list)?;
    if right {
        let said = writeln!(
            out,
            "greatest list: {STEPS} steps published, opened and edited"
        );
        return Ok(said.is_ok());
    }
    Ok(false)
}
