//! A planner's edits.
use crate::chance::Chance;
use crate::digests::Digest;
use crate::jobs::alone;
use crate::stops::Stop;
use crate::verdicts::add_verdict;
use arrayvec::ArrayVec;
use claim_run::Open;
use lift_sequence::{Op, SeqCode, SeqFault};
use std::sync::Wait;
use std::thread::Threads;
use units_core::Kg;
use what_if::{Edit, EditFault, Session};

/// A mass of 3 to 23 t.
fn mass(chance: &mut Chance) -> Kg {
    let kg = chance.below(20_000).saturating_add(3_000);
    let Some(mass) = Kg::new(kg.min(Kg::MAX)) else {
        unreachable!()
    };
    mass
}

/// How many steps a list has.
pub fn count(list: &[Op]) -> u32 {
    list.len().min(200_000) as u32
}

/// The first load at this step or behind it.
fn load_from(list: &[Op], at: u32) -> Option<u32> {
    let mut number = 0u32;
    for op in list {
        number = number.saturating_add(1);
        if number >= at && op.loaded_cell().is_some() {
            return Some(number);
        }
    }
    None
}

/// Another weight of a load, at this step or behind it.
pub fn reweigh_step(list: &[Op], at: u32, chance: &mut Chance) -> Option<Edit> {
    let at = load_from(list, at)?;
    Some(Edit::Reweigh {
        at,
        kg: mass(chance),
    })
}

/// A tank is filled.
fn filling(chance: &mut Chance) -> Op {
    let mut name = ArrayVec::new();
    let _ = name.try_extend_from_slice(b"WB1".as_slice());
    Op::Fill {
        name,
        kg: chance.below(200_000),
    }
}

/// An edit at a step, or none where the last one is taken back: of 100 edits 60 give a load another
/// weight, 12 swap neighbours, 8 fill a tank, 8 move a step up to 40 steps, 6 remove one, and 6 are
/// taken back.
fn edit_at(list: &[Op], at: u32, chance: &mut Chance) -> Option<Edit> {
    let kind = chance.below(100);
    if kind < 60 {
        reweigh_step(list, at, chance)
    } else if kind < 72 {
        Some(Edit::Swap {
            a: at,
            b: at.saturating_add(1),
        })
    } else if kind < 80 {
        Some(Edit::Insert {
            at,
            lift: filling(chance),
        })
    } else if kind < 88 {
        Some(Edit::Move {
            from: at,
            to: at.saturating_add(chance.below(40)),
        })
    } else if kind < 94 {
        Some(Edit::Remove { at })
    } else {
        None
    }
}

/// Takes in why a list can't be done.
fn add_sequence_fault(fault: &SeqFault, digest: &mut Digest) {
    digest.add(u64::from(fault.at));
    match fault.code {
        SeqCode::UnknownCell => digest.add(1),
        SeqCode::CellTaken => digest.add(2),
        SeqCode::Overlap(cell) => {
            digest.add(u64::from(cell.bay));
            digest.add(u64::from(cell.row));
            digest.add(u64::from(cell.tier));
        }
        SeqCode::CellEmpty => digest.add(4),
        SeqCode::WrongContainer => digest.add(5),
        SeqCode::TankOver => digest.add(6),
        SeqCode::TooManySteps => digest.add(7),
        SeqCode::NoMemory => digest.add(8),
        SeqCode::UnknownTank => digest.add(9),
    }
}

/// Takes in why an edit is refused.
fn add_fault(fault: &EditFault, digest: &mut Digest) {
    digest.add_word(fault.code());
    if let EditFault::Sequence(fault) = fault {
        add_sequence_fault(fault, digest);
    }
}

/// Makes an edit, or takes the last one back. Takes in what became of it.
fn make(session: &mut Session, edit: Option<Edit>, digest: &mut Digest) {
    match edit {
        Some(edit) => match session.apply(edit) {
            Ok(()) => digest.add(1),
            Err(fault) => add_fault(&fault, digest),
        },
        None => match session.undo() {
            Ok(true) => digest.add(2),
            Ok(false) => digest.add(3),
            Err(_) => digest.add(4),
        },
    }
}

/// Takes in the report on the list of a session.
fn report_list<R: AllocGlobal + Threads + Wait + Sync>(
    rt: &R,
    session: &Session,
    digest: &mut Digest,
) -> Result<(), Stop> {
    match session.report(rt, &Open, &alone(), digest) {
        Ok(summary) => {
            digest.add_summary(&summary);
            Ok(())
        }
        Err(_) => Err(Stop::Refused),
    }
}

/// Makes edits of all kinds. The planner looks at the edited step after each of them, and asks
/// after every fourth where the list fails first; at the end he makes the report.
pub fn edit_all<R: AllocGlobal + Threads + Wait + Sync>(
    rt: &R,
    mut session: Session,
    edits: u32,
    chance: &mut Chance,
    digest: &mut Digest,
) -> Result<(), Stop> {
    for number in 0..edits {
        let at = chance.below(count(session.lifts())).saturating_add(1);
        let edit = edit_at(session.lifts(), at, chance);
        make(&mut session, edit, digest);
        let verdict = session.judge(at);
        add_verdict(&verdict, digest);
        if number % 4 == 3 {
            digest.add_first(session.first_fail());
        }
    }
    report_list(rt, &session, digest)
}
