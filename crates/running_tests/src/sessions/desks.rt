//! Two threads at one desk.
ghost use Rattle.std.specs.Prelude.{◌≡◌, IfOk};
ghost use Rattle.what_if.specs.Desks.{IsOf, list_of};

use super::{TWO_LOADS, session, session_on};
use crate::checks::holds;
use box_ship::NO_MOVES;
use lift_sequence::Op;
use std::alloc::{AllocError, Global};
use std::sync::{Arc, Wait};
use std::test::Fail;
use std::thread;
use std::thread::Threads;
use what_if::{Desk, Session, Ticket};

/// The first of some steps alone.
fn first_of(alloc: Global, ops: &[Op]) -> Result<Vec<Op>, AllocError> {
    let mut list = Vec::new(alloc);
    if let Some(op) = ops.first() {
        list.push(op.copy())?;
    }
    Ok(list)
}

/// The first step of a session's list alone, in a session on the same base.
fn first_step_of(alloc: Global, session: &Session) -> Result<Session, Fail>
    ensures { IfOk result (λ s. s.base ≡ session.now.base) }
{
    let list = first_of(alloc, session.lifts())?;
    session_on(alloc, session, list)
}

/// Each of two threads publishes a list.
fn publish_on(
    rt: &(impl Threads + Wait + Sync),
    desk: &Desk,
    one: &Session,
    other: &Session,
) -> Result<(Ticket, Ticket), AllocError>
    requires one { one.now.base ≡ desk.now.base }
    requires other { other.now.base ≡ desk.now.base }
    ensures one { IfOk result (λ t. IsOf desk.now t.0) }
    ensures other { IfOk result (λ t. IsOf desk.now t.1) }
{
    let (one, other) = thread::join(rt, || desk.publish(rt, one), || desk.publish(rt, other));
    Ok((one?, other?))
}

/// Whether a ticket opens to the list of a session.
fn opens_to(desk: &Desk, ticket: &Ticket, session: &Session) -> Result<bool, AllocError>
    requires { IsOf desk.now ticket.now }
{
    let opened = desk.open(ticket)?;
    Ok(opened.lifts() == session.lifts())
}

/// Whether the ticket of a number is there, and opens to the list of a session.
fn finds(desk: &Desk, place: usize, session: &Session) -> Result<bool, AllocError> {
    match desk.find(place) {
        Some(ticket) => opens_to(desk, &ticket, session),
        None => Ok(false),
    }
}

/// Whether each of two lists that two threads publish opens in the other thread, opens again, and
/// is found by its number.
fn is_shared(
    rt: &(impl Threads + Wait + Sync),
    desk: &Desk,
    one: &Session,
    other: &Session,
) -> Result<bool, AllocError>
    requires one { one.now.base ≡ desk.now.base }
    requires other { other.now.base ≡ desk.now.base }
{
    let (first, second) = publish_on(rt, desk, one, other)?;
    let (of_second, of_first) = thread::join(
        rt,
        || opens_to(desk, &second, other),
        || opens_to(desk, &first, one),
    );
    let again = opens_to(desk, &first, one)?;
    let found = finds(desk, first.place(), one)?;
    Ok(of_second? && of_first? && again && found)
}

#[test]
fn desk_two_threads(rt: HostRuntime) -> Result<(), Fail> {
    let alloc = rt.alloc();
    let both = session(alloc, TWO_LOADS)?;
    let first = first_step_of(alloc, &both)?;
    let desk = Desk::new(alloc, Arc::try_clone(both.base())?)?;
    holds(&rt, desk.find(0).is_none());
    holds(&rt, is_shared(&rt, &desk, &both, &first)?);
    Ok(())
}

/// Whether the list of a session is published, and opens.
fn is_opened(
    rt: &(impl Threads + Wait + Sync),
    desk: &Desk,
    session: &Session,
) -> Result<bool, AllocError>
    requires { session.now.base ≡ desk.now.base }
{
    let ticket = desk.publish(rt, session)?;
    opens_to(desk, &ticket, session)
}

// A list without steps is a list.
#[test]
fn desk_with_an_empty_list(rt: HostRuntime) -> Result<(), Fail> {
    let alloc = rt.alloc();
    let none = session(alloc, NO_MOVES)?;
    let desk = Desk::new(alloc, Arc::try_clone(none.base())?)?;
    holds(&rt, none.lifts().is_empty());
    holds(&rt, is_opened(&rt, &desk, &none)?);
    Ok(())
}
