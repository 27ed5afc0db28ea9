//! Threads that publish lists at one desk.
ghost use Rattle.std.specs.Prelude.{◌≡◌};
ghost use Rattle.what_if.specs.Desks.{IsOf};

use crate::steps::{mass, two_loads};
use std::alloc::{AllocError, Global};
use std::sync::Wait;
use std::thread;
use std::thread::{Promise, PromisedHandle, Scope, Threads};
use what_if::{Desk, Edit, Session, Ticket};

/// How many threads publish.
pub const THREADS: u32 = 8;

/// How many lists each of them publishes. A desk keeps its lists in parts that it makes one after
/// another: of 32 lists, of 64 and so on, each of twice as many as the one before, so that the
/// first six hold 2,016. All threads together publish so many more than these that the seventh is
/// made.
pub const EACH: u32 = 260;

/// The weight of the first container in the first list that is published. Each other list has
/// another weight.
pub const FIRST: u32 = 1_000;

/// A list that was published at a desk.
#[derive(Drop)]
pub struct Published<'a> {
    pub desk: &'a Desk,
    pub ticket: Ticket,
    /// The weight of its first container.
    pub kg: u32,
    /// Whether it was found by its number as soon as it was published.
    pub at_once: bool,
    pub ghost of: { IsOf desk.now ticket },
}

impl<'a> Published<'a> {
    /// Whether a ticket of the desk opens to this list.
    fn is_opened_by(&self, alloc: Global, ticket: &Ticket) -> bool
        requires { IsOf self.now.desk.now ticket.now }
    {
        match (self.desk.open(ticket), two_loads(alloc, self.kg)) {
            (Ok(session), Ok(list)) => session.lifts() == list.as_slice(),
            _ => false,
        }
    }

    /// Whether its own ticket opens to it.
    pub fn opens(&self, alloc: Global) -> bool {
        self.is_opened_by(alloc, &self.ticket)
    }

    /// Whether the ticket that is found by its number opens to it.
    pub fn is_found(&self, alloc: Global) -> bool {
        match self.desk.find(self.ticket.place()) {
            Some(ticket) => {
                ticket.place() == self.ticket.place() && self.is_opened_by(alloc, &ticket)
            }
            None => false,
        }
    }
}

/// A planner in a thread of its own, with a session that goes on from the desk's base.
#[derive(Drop)]
struct Planner<'a> {
    desk: &'a Desk,
    session: Session,
    ghost same: { session.base ≡ desk.now.base },
}

impl<'a> Planner<'a> {
    /// Gives the first container this weight, and publishes the list.
    fn publish<R: Wait>(&mut self, rt: &R, kg: u32) -> Option<Published<'a>> {
        let edit = Edit::Reweigh {
            at: 1,
            kg: mass(kg),
        };
        if self.session.apply(edit).is_err() {
            return None;
        }
        match self.desk.publish(rt, &self.session) {
            Ok(ticket) => Some(Published {
                desk: self.desk,
                kg,
                at_once: self.desk.find(ticket.place()).is_some(),
                ticket,
            }),
            Err(_) => None,
        }
    }
}

/// The lists of one planner, of which the first has this weight, without those that are refused.
fn publish_all<'a, R: Wait>(
    rt: &R,
    alloc: Global,
    desk: &'a Desk,
    early: &Ticket,
    first: u32,
) -> Vec<Published<'a>>
    requires { IsOf desk.now early.now }
{
    let mut lists = Vec::new(alloc);
    let Ok(session) = desk.open(early) else {
        return lists;
    };
    let mut planner = Planner { desk, session };
    for kg in first..first.saturating_add(EACH) {
        if let Some(published) = planner.publish(rt, kg) {
            let _ = lists.push(published);
        }
    }
    lists
}

/// What a thread promises that publishes lists: nothing of how many, since each list has with it
/// that its ticket is of the desk.
#[derive(Clone, Copy)]
struct Anything;

impl<'a> Promise<Vec<Published<'a>>> for Anything {
    ghost kept_by = { λ _ _. Unit };
}

/// Starts a planner.
fn start<'s, 'a: 's, E, R: Threads + Wait + Sync>(
    scope: &Scope<'s, E>,
    rt: &'s R,
    alloc: Global,
    desk: &'a Desk,
    early: &'s Ticket,
    first: u32,
) -> Result<PromisedHandle<Vec<Published<'a>>, Anything>, AllocError>
    requires { IsOf desk.now early.now }
{
    let started = scope.spawn_with(
        Anything,
        move || -> Vec<Published<'_>>
            requires { IsOf desk.now early.now }
        { publish_all(rt, alloc, desk, early, first) },
    );
    Ok(started?)
}

/// Starts all planners. Fewer, where one isn't started.
fn start_all<'s, 'a: 's, E, R: Threads + Wait + Sync>(
    scope: &Scope<'s, E>,
    rt: &'s R,
    alloc: Global,
    desk: &'a Desk,
    early: &'s Ticket,
) -> Vec<PromisedHandle<Vec<Published<'a>>, Anything>>
    requires { IsOf desk.now early.now }
{
    let mut threads = Vec::new(alloc);
    for thread in 0..THREADS {
        let first = FIRST.saturating_add(EACH.saturating_mul(thread));
        let Ok(started) = start(scope, rt, alloc, desk, early, first) else {
            return threads;
        };
        if let Err(refused) = threads.push(started) {
            drop(refused.value.join(rt));
            return threads;
        }
    }
    threads
}

/// The lists that all planners publish beside one another, each planner's by themselves.
pub fn by_threads<'a, R: Threads + Wait + Sync>(
    rt: &'a R,
    alloc: Global,
    desk: &'a Desk,
    early: &'a Ticket,
) -> Vec<Vec<Published<'a>>>
    requires { IsOf desk.now early.now }
{
    thread::scope(
        thread::scope_env(),
        rt,
        |scope| -> Vec<Vec<Published<'_>>>
            requires { IsOf desk.now early.now }
        {
            let threads = start_all(scope, rt, alloc, desk, early);
            let mut all = Vec::new(alloc);
            for thread in threads {
                let _ = all.push(thread.join(rt));
            }
            all
        },
    )
}
