//! Steps that come into a long list and go away again where the others can stay as they are. Each
//! report is compared with that of a session which was just made of the same list.
use super::searches::{add_turns, filling, turns};
use super::{report_of, session, session_on};
use crate::checks::same;
use box_ship::NO_MOVES;
use lift_sequence::Op;
use std::alloc::{AllocError, Global};
use std::process::Abort;
use std::sync::Wait;
use std::test::Fail;
use std::thread::Threads;
use step_edits::copies;
use what_if::{Edit, Session};

/// The report is that of a session which is made of the same list.
fn check_anew(
    rt: &(impl Abort + AllocGlobal + Threads + Wait + Sync),
    session: &Session,
) -> Result<(), Fail> {
    let list = copies(rt.alloc(), session.lifts())?;
    let fresh = session_on(rt.alloc(), session, list)?;
    let wanted = report_of(rt, &fresh);
    same(rt, report_of(rt, session).as_slice(), wanted.as_slice());
    Ok(())
}

/// An edit is made.
fn check_edited(
    rt: &(impl Abort + AllocGlobal + Threads + Wait + Sync),
    session: &mut Session,
    edit: Edit,
) -> Result<(), Fail> {
    same(rt, session.apply(edit), Ok(()));
    check_anew(rt, session)
}

/// The last edit is taken back.
fn check_undone(
    rt: &(impl Abort + AllocGlobal + Threads + Wait + Sync),
    session: &mut Session,
) -> Result<(), Fail> {
    same(rt, session.undo(), Ok(true));
    check_anew(rt, session)
}

/// A tank is filled before nearly all of 2,099 steps, behind which are more sums than are made anew
/// at a time, and once more in their midst. The first filling is left out, then the last step, and
/// all of it is taken back. The list has as many whole fours as before, one more and one fewer.
fn edit_list(
    rt: &(impl Abort + AllocGlobal + Threads + Wait + Sync),
    session: &mut Session,
) -> Result<(), Fail> {
    let first = Edit::Insert {
        at: 2,
        lift: filling(1_000),
    };
    let second = Edit::Insert {
        at: 1_051,
        lift: filling(3_000),
    };
    check_edited(rt, session, first)?;
    check_edited(rt, session, second)?;
    check_edited(rt, session, Edit::Remove { at: 2 })?;
    check_edited(rt, session, Edit::Remove { at: 2_100 })?;
    check_edited(rt, session, Edit::Remove { at: 2_099 })?;
    check_undone(rt, session)?;
    check_undone(rt, session)?;
    check_undone(rt, session)?;
    check_undone(rt, session)?;
    check_undone(rt, session)
}

#[test]
fn edited_in_place(rt: HostRuntime) -> Result<(), Fail> {
    let read = session(rt.alloc(), NO_MOVES)?;
    let mut list = turns(rt.alloc(), 1_050)?;
    list.truncate(2_099);
    let mut long = session_on(rt.alloc(), &read, list)?;
    edit_list(&rt, &mut long)
}

/// Two fillings of a tank are exchanged, between which two others and many loads come, and are
/// exchanged back; so are the first and the last step, and two that follow each other.
fn exchange_fillings(
    rt: &(impl Abort + AllocGlobal + Threads + Wait + Sync),
    session: &mut Session,
) -> Result<(), Fail> {
    check_edited(rt, session, Edit::Swap { a: 1, b: 1_402 })?;
    check_undone(rt, session)?;
    check_edited(rt, session, Edit::Swap { a: 2_103, b: 1 })?;
    check_edited(rt, session, Edit::Swap { a: 702, b: 703 })?;
    check_undone(rt, session)?;
    check_undone(rt, session)
}

/// A filling of the tank is moved past two others and many loads, and back; so is the last step to
/// the head of the list, and one past the other that follows it.
fn move_fillings(
    rt: &(impl Abort + AllocGlobal + Threads + Wait + Sync),
    session: &mut Session,
) -> Result<(), Fail> {
    check_edited(rt, session, Edit::Move { from: 1, to: 1_200 })?;
    check_undone(rt, session)?;
    check_edited(rt, session, Edit::Move { from: 2_103, to: 1 })?;
    check_edited(rt, session, Edit::Move { from: 703, to: 704 })?;
    check_undone(rt, session)?;
    check_undone(rt, session)
}

/// A list of 2,103 steps, of which the steps 1, 702, 703, 1,402 and 2,103 fill one tank.
fn far_fillings(alloc: Global) -> Result<Vec<Op>, AllocError> {
    let mut list = Vec::new(alloc);
    list.push(filling(3_000))?;
    add_turns(&mut list, 350)?;
    list.push(filling(5_000))?;
    list.push(filling(11_000))?;
    add_turns(&mut list, 349)?;
    list.push(filling(7_000))?;
    add_turns(&mut list, 350)?;
    list.push(filling(2_000))?;
    Ok(list)
}

#[test]
fn fillings_exchanged_in_place(rt: HostRuntime) -> Result<(), Fail> {
    let read = session(rt.alloc(), NO_MOVES)?;
    let list = far_fillings(rt.alloc())?;
    let mut long = session_on(rt.alloc(), &read, list)?;
    exchange_fillings(&rt, &mut long)
}

#[test]
fn fillings_moved_in_place(rt: HostRuntime) -> Result<(), Fail> {
    let read = session(rt.alloc(), NO_MOVES)?;
    let list = far_fillings(rt.alloc())?;
    let mut long = session_on(rt.alloc(), &read, list)?;
    move_fillings(&rt, &mut long)
}
