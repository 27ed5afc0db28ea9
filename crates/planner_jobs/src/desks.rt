//! Lists that planners publish, and their colleagues open.
ghost use Rattle.std.specs.Prelude.{◌≡◌, IfOk};
ghost use Rattle.what_if.specs.Desks.{IsOf};

use crate::chance::Chance;
use crate::digests::Digest;
use crate::edits::{count, reweigh_step};
use crate::stops::Stop;
use crate::verdicts::add_verdict;
use std::alloc::Global;
use std::sync::{Arc, Wait};
use std::thread;
use std::thread::Threads;
use what_if::{Desk, Session, Ticket};

/// A list that was published at a desk.
#[derive(Drop)]
struct Published<'a> {
    desk: &'a Desk,
    ticket: Ticket,
    ghost of: { IsOf desk.now ticket },
}

impl<'a> Published<'a> {
    /// Opens the list. Answers a digest of how long it is, and of how its last step is judged; 0
    /// where there is no memory.
    fn open(&self) -> u64 {
        let Ok(mut session) = self.desk.open(&self.ticket) else {
            return 0;
        };
        let mut digest = Digest::new();
        let steps = count(session.lifts());
        digest.add(u64::from(steps));
        let verdict = session.judge(steps);
        add_verdict(&verdict, &mut digest);
        digest.value()
    }
}

/// A planner with a session that goes on from the desk's base.
#[derive(Drop)]
struct Planner<'a> {
    desk: &'a Desk,
    session: Session,
    ghost same: { session.base ≡ desk.now.base },
}

impl<'a> Planner<'a> {
    /// Gives a load another weight, and publishes the list.
    fn publish<R: Wait>(&mut self, rt: &R, chance: &mut Chance) -> Result<Published<'a>, Stop> {
        let at = chance.below(count(self.session.lifts())).saturating_add(1);
        if let Some(edit) = reweigh_step(self.session.lifts(), at, chance) {
            let _ = self.session.apply(edit);
        }
        match self.desk.publish(rt, &self.session) {
            Ok(ticket) => Ok(Published {
                desk: self.desk,
                ticket,
            }),
            Err(_) => Err(Stop::NoMemory),
        }
    }

    /// Publishes two lists, which two colleagues open at once.
    fn pass_on<R: Threads + Wait + Sync>(
        &mut self,
        rt: &R,
        chance: &mut Chance,
        digest: &mut Digest,
    ) -> Result<(), Stop> {
        let one = self.publish(rt, chance)?;
        let other = self.publish(rt, chance)?;
        let (one, other) = thread::join(rt, || one.open(), || other.open());
        digest.add(one);
        digest.add(other);
        Ok(())
    }
}

/// A desk for the base of a session.
fn desk_of(alloc: Global, session: &Session) -> Result<Desk, Stop>
    ensures { IfOk result (λ desk. session.now.base ≡ desk.base) }
{
    let base = Arc::try_clone(session.base())?;
    match Desk::new(alloc, base) {
        Ok(desk) => Ok(desk),
        Err(_) => Err(Stop::NoMemory),
    }
}

/// Publishes lists at a desk, two at a time, and opens each of them.
pub fn publish_all<R: AllocGlobal + Threads + Wait + Sync>(
    rt: &R,
    session: Session,
    lists: u32,
    chance: &mut Chance,
    digest: &mut Digest,
) -> Result<(), Stop> {
    let desk = desk_of(rt.alloc(), &session)?;
    let mut planner = Planner {
        desk: &desk,
        session,
    };
    for _ in 0..lists / 2 {
        planner.pass_on(rt, chance, digest)?;
    }
    Ok(())
}
