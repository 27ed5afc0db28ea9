//! Edits of a short list of the box ship, with every figure from the worked reports of the same
//! loads. What else edits do, and which are refused, is tested by runs of the program
//! (`tests/program.d/trials`).
use super::searches::turns;
use super::{AFT, BOTH, STARBOARD, TWO_LOADS, check_report, report_of, session};
use crate::checks::{holds, same};
use criteria::{Figures, Verdict};
use lift_sequence::{Op, SeqCode, SeqFault};
use std::alloc::{AllocError, Global};
use std::process::Abort;
use std::sync::{Arc, Wait};
use std::test::Fail;
use std::thread::Threads;
use step_edits::{EditFault, copies};
use units_core::Kg;
use what_if::{Edit, Session};

/// Both loads are swapped, and swapped back. The session is lent: its owner lets go of it at each
/// `?`, which the proof pays for.
fn swap_and_undo(
    rt: &(impl Abort + AllocGlobal + Threads + Wait + Sync),
    session: &mut Session,
) -> Result<(), Fail> {
    let given = format!(in rt.alloc(); "1 {STARBOARD}\n2 L0050082 {BOTH}\n")?;
    let swapped = format!(in rt.alloc(); "1 {AFT}\n2 L0030782 {BOTH}\n")?;
    check_report(rt, session, given.as_str())?;
    same(rt, session.apply(Edit::Swap { a: 1, b: 2 }), Ok(()));
    check_report(rt, session, swapped.as_str())?;
    same(rt, session.undo(), Ok(true));
    check_report(rt, session, given.as_str())?;
    same(rt, session.undo(), Ok(false));
    Ok(())
}

#[test]
fn session_edits(rt: HostRuntime) -> Result<(), Fail> {
    let mut session = session(rt.alloc(), TWO_LOADS)?;
    swap_and_undo(&rt, &mut session)
}

/// Loads a container and discharges it again.
const IN_AND_ASHORE: &[u8] =
    b"UNB+UNOA:2+PLAN+SHIP+250101:1200+8'UNH+1+MOVINS:D:95B:UN'HAN+LOA'LOC+147+0030782::5'MEA+WT++KGM:20500'EQD+CN+ABCU1234560'HAN+DIS'LOC+147+0030782::5'EQD+CN+ABCU1234560'UNT+9+1'UNZ+1+8'";

/// An edit is refused so, and leaves the list and its report as they were, with nothing to take
/// back.
fn check_refused(
    rt: &(impl Abort + AllocGlobal + Threads + Wait + Sync),
    session: &mut Session,
    edit: Edit,
    fault: EditFault,
) -> Result<(), Fail> {
    let before = copies(rt.alloc(), session.lifts())?;
    let report = report_of(rt, session);
    same(rt, session.apply(edit), Err(fault));
    holds(rt, session.lifts() == before.as_slice());
    same(rt, report_of(rt, session).as_slice(), report.as_slice());
    same(rt, session.undo(), Ok(false));
    Ok(())
}

// There are two steps, of which the second has no weight of its own, and can't be done without the
// first.
#[test]
fn refused_edits(rt: HostRuntime) -> Result<(), Fail> {
    let mut session = session(rt.alloc(), IN_AND_ASHORE)?;
    let empty = EditFault::Sequence(SeqFault {
        code: SeqCode::CellEmpty,
        at: 1,
    });
    let Some(heavy) = Kg::new(20_501) else {
        unreachable!()
    };
    let reweigh = Edit::Reweigh { at: 2, kg: heavy };
    check_refused(
        &rt,
        &mut session,
        Edit::Swap { a: 1, b: 3 },
        EditFault::NoStep,
    )?;
    check_refused(&rt, &mut session, reweigh, EditFault::NotLoad)?;
    check_refused(&rt, &mut session, Edit::Remove { at: 1 }, empty)?;
    Ok(())
}

/// The steps of these numbers of a session, the first being 0, in this order.
fn steps_of(alloc: Global, session: &Session, numbers: &[usize]) -> Result<Vec<Op>, AllocError> {
    let mut list = Vec::new(alloc);
    for number in numbers {
        if let Some(op) = session.lifts().get(*number) {
            list.push(op.copy())?;
        }
    }
    Ok(list)
}

/// No session on the base of another has this list: it answers this fault.
fn check_unmade(
    rt: &(impl Abort + AllocGlobal),
    other: &Session,
    list: Vec<Op>,
    fault: SeqFault,
) -> Result<(), Fail> {
    let base = Arc::try_clone(other.base())?;
    match Session::new(rt.alloc(), base, list) {
        Ok(_) => holds(rt, false),
        Err(found) => same(rt, found, fault),
    }
    Ok(())
}

/// Lists that can't be done, of a load and the discharge of its container, and the first step of
/// each that can't, with why.
static UNMADE: [(&[usize], SeqCode, u32); 4] = [
    (&[1], SeqCode::CellEmpty, 1),
    (&[1, 0], SeqCode::CellEmpty, 1),
    (&[0, 0, 1], SeqCode::CellTaken, 2),
    (&[0, 1, 0, 1, 1], SeqCode::CellEmpty, 5),
];

#[test]
fn sessions_on_lists_that_can_not_be_done(rt: HostRuntime) -> Result<(), Fail> {
    let session = session(rt.alloc(), IN_AND_ASHORE)?;
    for (numbers, code, at) in &UNMADE {
        let list = steps_of(rt.alloc(), &session, numbers)?;
        let fault = SeqFault {
            code: *code,
            at: *at,
        };
        check_unmade(&rt, &session, list, fault)?;
    }
    let many = SeqFault {
        code: SeqCode::TooManySteps,
        at: 120_001,
    };
    check_unmade(&rt, &session, turns(rt.alloc(), 60_001)?, many)
}

/// Compares the loads with those of the worked report of both loads, at the second frame and over
/// the whole hull.
fn check_loads(rt: &impl Abort, figures: &Figures) {
    match figures.loads.frames.as_slice().get(1) {
        Some(load) => same(rt, (load.shear, load.bending), (-5_637, -191_611_791)),
        None => holds(rt, false),
    }
    same(rt, figures.loads.closing, -769);
}

#[test]
fn judged_steps(rt: HostRuntime) -> Result<(), Fail> {
    let mut session = session(rt.alloc(), TWO_LOADS)?;
    match session.judge(2) {
        Some(Verdict::Passes(figures)) => check_loads(&rt, &figures),
        _ => holds(&rt, false),
    }
    holds(&rt, session.judge(3).is_none());
    Ok(())
}
