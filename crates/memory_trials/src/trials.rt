//! Calls that are tried while growths are refused. They are the cases of an enum, since what a
//! thread is sent isn't known in a method of a trait.
use crate::desks::Publishing;
use crate::edits::Editing;
use crate::free_calls::Readers;
use crate::reports::{Report, SessionReport, stop_early};
use crate::sessions::{
    Reading, make_long, moves_of_fillings, read, searches, sixty_four_undos, swaps,
};
use crate::wrong_bodies::{LeavesHalf, retry, swallow};
use std::alloc::Global;
use std::sync::Wait;
use std::thread::Threads;
use what_if::Session;

/// How a call was answered.
#[derive(Clone, Copy, Debug, PartialEq, Eq)]
pub enum Told {
    /// As with ample memory.
    Right,
    /// It ran out of memory.
    Short,
    /// Otherwise.
    Wrong,
}

/// A call that is tried.
#[derive(Drop)]
pub enum Trial<'a> {
    Report(Report<'a>),
    First(Report<'a>),
    SessionReport(SessionReport<'a>),
    EarlyStop,
    Read(Reading<'a>),
    MakeLong(&'a Session),
    Apply(Editing<'a>),
    Undo(Editing<'a>),
    SixtyFourUndos(&'a mut Session),
    Swaps(&'a mut Session),
    MovesOfFillings(&'a mut Session),
    Searches(&'a mut Session),
    Publish(Publishing<'a>),
    Open(Publishing<'a>),
    Readers(Readers<'a>),
    Retry,
    Swallow,
    LeaveHalf(LeavesHalf),
}

impl<'a> Trial<'a> {
    /// Makes the call.
    pub fn call<R: AllocGlobal + Threads + Wait + Sync>(&mut self, rt: &R) -> Told {
        match self {
            Trial::Report(of) => of.call(rt),
            Trial::First(of) => of.first(rt),
            Trial::SessionReport(of) => of.call(rt),
            Trial::EarlyStop => stop_early(rt),
            Trial::Read(of) => read(rt.alloc(), of),
            Trial::MakeLong(other) => make_long(rt.alloc(), other),
            Trial::Apply(of) => of.apply(),
            Trial::Undo(of) => of.undo(),
            Trial::SixtyFourUndos(session) => sixty_four_undos(session),
            Trial::Swaps(session) => swaps(session),
            Trial::MovesOfFillings(session) => moves_of_fillings(session),
            Trial::Searches(session) => searches(session),
            Trial::Publish(of) => of.publish(rt),
            Trial::Open(of) => of.open(),
            Trial::Readers(of) => of.call(),
            Trial::Retry => retry(rt.alloc()),
            Trial::Swallow => swallow(rt.alloc()),
            Trial::LeaveHalf(of) => of.keep(),
        }
    }

    /// Whether what a call only reads is as it was.
    fn stands(&self) -> bool {
        match self {
            Trial::SessionReport(of) => of.stands(),
            Trial::Publish(of) | Trial::Open(of) => of.stand(),
            _ => true,
        }
    }

    /// Whether all that can be seen is as it was before a call that ran out of memory.
    pub fn is_as_before(&mut self) -> bool {
        let stands = self.stands();
        match self {
            Trial::Apply(of) => of.is_not_made(),
            Trial::Undo(of) => of.is_after(),
            Trial::LeaveHalf(of) => of.is_empty(),
            _ => stands,
        }
    }

    /// Whether all that can be seen is as it should be after the call. It then leads back to where
    /// the call can be made again.
    pub fn is_done(&mut self, alloc: Global) -> bool {
        let stands = self.stands();
        match self {
            Trial::Apply(of) => of.is_edited(),
            Trial::Undo(of) => of.is_taken_back(),
            Trial::LeaveHalf(of) => of.is_kept(alloc),
            _ => stands,
        }
    }
}
