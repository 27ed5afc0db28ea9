//! The first step that fails of a long list, after one edit and another. A session keeps what a
//! search found to pass, so each answer is compared with that of a session that was just made of
//! the same list.
use super::{session, session_on};
use crate::checks::same;
use arrayvec::ArrayVec;
use box_ship::NO_MOVES;
use criteria::Criterion;
use lift_sequence::Op;
use std::alloc::{AllocError, Global};
use std::process::Abort;
use std::sync::Wait;
use std::test::Fail;
use std::thread;
use std::thread::Threads;
use step_edits::copies;
use stow_messages::{Item, Lift};
use units_core::{Cell, Kg};
use what_if::{Edit, Session};

/// A cell on deck, 8 m to starboard.
const STARBOARD: Cell = Cell {
    bay: 3,
    row: 7,
    tier: 82,
};

/// A mass by which the ship lists beyond her limit there, a tangent of 0.05: 20.5 t make 0.0046.
const HEAVY: u32 = 999_999;

/// This mass in kg.
fn mass(kg: u32) -> Kg {
    let Some(mass) = Kg::new(kg.min(Kg::MAX)) else {
        unreachable!()
    };
    mass
}

/// A container comes aboard to starboard.
fn load(kg: u32) -> Op {
    Op::Lift(Lift::Load(Item {
        cell: STARBOARD,
        id: ArrayVec::new(),
        kg: mass(kg),
    }))
}

/// It goes ashore.
fn discharge() -> Op {
    Op::Lift(Lift::Discharge {
        cell: STARBOARD,
        id: ArrayVec::new(),
    })
}

/// The tank amidships is filled.
pub fn filling(kg: u32) -> Op {
    let mut name = ArrayVec::new();
    let _ = name.try_extend_from_slice(b"DB1".as_slice());
    Op::Fill { name, kg }
}

/// So many containers of 1 t come aboard and go ashore in turn, behind the steps of a list.
pub fn add_turns(list: &mut Vec<Op>, count: u32) -> Result<(), AllocError> {
    for _ in 0..count {
        list.push(load(1_000))?;
        list.push(discharge())?;
    }
    Ok(())
}

/// A list of such steps alone.
pub fn turns(alloc: Global, count: u32) -> Result<Vec<Op>, AllocError> {
    let mut list = Vec::new(alloc);
    add_turns(&mut list, count)?;
    Ok(list)
}

/// The step of a failure.
fn step_of(first: Option<(u32, Criterion)>) -> Option<u32> {
    match first {
        Some((step, _)) => Some(step),
        None => None,
    }
}

/// The step that fails first, which a session that is made of the same list says too, with the same
/// criterion.
fn check_first(
    rt: &(impl Abort + AllocGlobal),
    session: &Session,
    step: Option<u32>,
) -> Result<(), Fail> {
    let list = copies(rt.alloc(), session.lifts())?;
    let fresh = session_on(rt.alloc(), session, list)?;
    let first = session.first_fail();
    same(rt, first, fresh.first_fail());
    same(rt, step_of(first), step);
    Ok(())
}

/// An edit is made, and then this step fails first.
fn check_edited(
    rt: &(impl Abort + AllocGlobal),
    session: &mut Session,
    edit: Edit,
    step: Option<u32>,
) -> Result<(), Fail> {
    same(rt, session.apply(edit), Ok(()));
    check_first(rt, session, step)
}

/// A load is given another weight, and then this step fails first.
fn check_reweighed(
    rt: &(impl Abort + AllocGlobal),
    session: &mut Session,
    at: u32,
    kg: u32,
    step: Option<u32>,
) -> Result<(), Fail> {
    let edit = Edit::Reweigh { at, kg: mass(kg) };
    check_edited(rt, session, edit, step)
}

/// The last edit is taken back, and then this step fails first.
fn check_undone(
    rt: &(impl Abort + AllocGlobal),
    session: &mut Session,
    step: Option<u32>,
) -> Result<(), Fail> {
    same(rt, session.undo(), Ok(true));
    check_first(rt, session, step)
}

/// A container by which the ship fails is loaded behind all steps, and that is taken back.
fn check_lengthened(
    rt: &(impl Abort + AllocGlobal),
    session: &mut Session,
    at: u32,
) -> Result<(), Fail> {
    let insert = Edit::Insert {
        at,
        lift: load(HEAVY),
    };
    check_edited(rt, session, insert, Some(at))?;
    check_undone(rt, session, None)
}

/// A tank is filled with 1 t before all steps, and the filling is moved behind all of them, past
/// each of which it may be; both are taken back. No step fails.
fn check_filled(
    rt: &(impl Abort + AllocGlobal),
    session: &mut Session,
    last: u32,
) -> Result<(), Fail> {
    let insert = Edit::Insert {
        at: 1,
        lift: filling(1_000),
    };
    check_edited(rt, session, insert, None)?;
    check_edited(rt, session, Edit::Move { from: 1, to: last }, None)?;
    check_undone(rt, session, None)?;
    check_undone(rt, session, None)
}

/// Edits of a list of 3,000 steps, near its end and near its head.
fn edit_list(rt: &(impl Abort + AllocGlobal), session: &mut Session) -> Result<(), Fail> {
    check_first(rt, session, None)?;
    check_reweighed(rt, session, 2_801, HEAVY, Some(2_801))?;
    check_reweighed(rt, session, 2_301, HEAVY, Some(2_301))?;
    check_reweighed(rt, session, 2_301, 2_000, Some(2_801))?;
    check_reweighed(rt, session, 301, HEAVY, Some(301))?;
    check_undone(rt, session, Some(2_801))?;
    check_undone(rt, session, Some(2_301))?;
    check_undone(rt, session, Some(2_801))?;
    check_undone(rt, session, None)?;
    check_lengthened(rt, session, 3_001)
}

/// The last of 2,000 steps is left out, and that is taken back: of a shorter list nothing is kept,
/// and room for it is asked for only when the list has become longer.
fn shorten(rt: &(impl Abort + AllocGlobal), session: &mut Session) -> Result<(), Fail> {
    check_first(rt, session, None)?;
    same(rt, session.apply(Edit::Remove { at: 2_000 }), Ok(()));
    check_first(rt, session, None)?;
    check_undone(rt, session, None)?;
    check_lengthened(rt, session, 2_001)?;
    check_lengthened(rt, session, 2_001)
}

/// Edits of a list of 30,000 steps, with a search behind each. It is made longer than the room that
/// is kept for its searches, and once more where there is enough of it; a step is moved past all
/// others; the last step is left out. Each of these is taken back.
fn edit_long_list(rt: &(impl Abort + AllocGlobal), session: &mut Session) -> Result<(), Fail> {
    check_first(rt, session, None)?;
    check_reweighed(rt, session, 29_801, HEAVY, Some(29_801))?;
    check_undone(rt, session, None)?;
    check_lengthened(rt, session, 30_001)?;
    check_lengthened(rt, session, 30_001)?;
    check_filled(rt, session, 30_001)?;
    check_edited(rt, session, Edit::Remove { at: 30_000 }, None)?;
    check_reweighed(rt, session, 29_999, HEAVY, Some(29_999))?;
    check_undone(rt, session, None)?;
    check_undone(rt, session, None)
}

/// Two threads ask at once what fails first, twenty times. One of them may find that the other has
/// what is kept, and goes through the whole list.
fn check_by_two(rt: &(impl Abort + Threads + Wait + Sync), session: &Session, step: Option<u32>) {
    for _ in 0..20 {
        let (one, other) = thread::join(rt, || session.first_fail(), || session.first_fail());
        same(rt, step_of(one), step);
        same(rt, step_of(other), step);
    }
}

#[test]
fn searched_by_two(rt: HostRuntime) -> Result<(), Fail> {
    let read = session(rt.alloc(), NO_MOVES)?;
    let mut long = session_on(rt.alloc(), &read, turns(rt.alloc(), 1_500)?)?;
    check_by_two(&rt, &long, None);
    check_reweighed(&rt, &mut long, 2_801, HEAVY, Some(2_801))?;
    check_by_two(&rt, &long, Some(2_801));
    Ok(())
}

#[test]
fn searched_again(rt: HostRuntime) -> Result<(), Fail> {
    let read = session(rt.alloc(), NO_MOVES)?;
    let mut long = session_on(rt.alloc(), &read, turns(rt.alloc(), 1_500)?)?;
    edit_list(&rt, &mut long)
}

#[test]
fn searched_after_a_removal(rt: HostRuntime) -> Result<(), Fail> {
    let read = session(rt.alloc(), NO_MOVES)?;
    let mut long = session_on(rt.alloc(), &read, turns(rt.alloc(), 1_000)?)?;
    shorten(&rt, &mut long)
}

#[test]
fn searched_in_a_long_list(rt: HostRuntime) -> Result<(), Fail> {
    let read = session(rt.alloc(), NO_MOVES)?;
    let mut long = session_on(rt.alloc(), &read, turns(rt.alloc(), 15_000)?)?;
    edit_long_list(&rt, &mut long)
}
