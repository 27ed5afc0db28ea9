//! Lists that are published and opened, of which growths are refused.
ghost use Rattle.std.specs.Prelude.{◌≡◌};
ghost use Rattle.what_if.specs.Desks.{IsOf};

use crate::trials::Told;
use lift_sequence::Op;
use std::alloc::AllocError;
use std::sync::Wait;
use std::thread;
use std::thread::{Promise, PromisedHandle, Scope, Threads};
use what_if::{Desk, Session, Ticket};

/// Whether a ticket opens to a list.
fn opens_to(desk: &Desk, ticket: &Ticket, list: &[Op]) -> bool
    requires { IsOf desk.now ticket.now }
{
    match desk.open(ticket) {
        Ok(session) => session.lifts() == list,
        Err(_) => false,
    }
}

/// What a thread promises that publishes a list: nothing of its answer, whether it was published.
#[derive(Clone, Copy)]
struct Anything;

impl Promise<bool> for Anything {
    ghost kept_by = { λ _ _. Unit };
}

/// Starts a thread that publishes the list of a session; it answers whether it was published.
fn start<'s, E, R: Threads + Wait + Sync>(
    scope: &Scope<'s, E>,
    rt: &'s R,
    desk: &'s Desk,
    session: &'s Session,
) -> Result<PromisedHandle<bool, Anything>, AllocError>
    requires { session.now.base ≡ desk.now.base }
{
    let started = scope.spawn_with(
        Anything,
        move || -> bool
            requires { session.now.base ≡ desk.now.base }
        { desk.publish(rt, session).is_ok() },
    );
    Ok(started?)
}

/// Whether a thread of its own and the caller each publish the list of a session, beside one
/// another.
fn publish_twice<R: Threads + Wait + Sync>(rt: &R, desk: &Desk, session: &Session) -> bool
    requires { session.now.base ≡ desk.now.base }
{
    thread::scope(
        thread::scope_env(),
        rt,
        |scope| -> bool
            requires { session.now.base ≡ desk.now.base }
        {
            let Ok(other) = start(scope, rt, desk, session) else {
                return false;
            };
            let one = desk.publish(rt, session).is_ok();
            other.join(rt) && one
        },
    )
}

/// A list that is published at a desk in each of two threads. Two others were published there
/// before.
#[derive(Drop)]
pub struct Publishing<'a> {
    pub desk: &'a Desk,
    pub session: &'a Session,
    pub early: &'a Ticket,
    pub list: &'a [Op],
    pub second: &'a Ticket,
    pub short: &'a [Op],
    pub ghost same: { session.now.base ≡ desk.now.base },
    pub ghost of: { IsOf desk.now early.now },
    pub ghost of_second: { IsOf desk.now second.now },
}

impl<'a> Publishing<'a> {
    /// Whether both lists that were published before stand as they did.
    pub fn stand(&self) -> bool {
        opens_to(self.desk, self.early, self.list) && opens_to(self.desk, self.second, self.short)
    }

    /// Publishes the list twice.
    pub fn publish<R: Threads + Wait + Sync>(&self, rt: &R) -> Told {
        if publish_twice(rt, self.desk, self.session) {
            Told::Right
        } else {
            Told::Short
        }
    }

    /// Opens the list that was published first.
    pub fn open(&self) -> Told {
        match self.desk.open(self.early) {
            Ok(session) if session.lifts() == self.list => Told::Right,
            Ok(_) => Told::Wrong,
            Err(_) => Told::Short,
        }
    }
}
