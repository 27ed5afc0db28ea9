//! Sessions that are read, made and searched while growths are refused, and their lists.
use crate::edits::STARBOARD;
use crate::texts::TWO_LOADS;
use crate::trials::Told;
use arrayvec::ArrayVec;
use box_ship::{EMPTY_PLAN, files};
use lift_sequence::{Op, SeqCode};
use seq_report::{Inputs, RunFault};
use std::alloc::{AllocError, Global};
use std::sync::Arc;
use step_edits::{Edit, copies};
use stow_messages::Lift;
use units_core::Kg;
use what_if::Session;

/// The inputs of a session on two loads.
pub fn inputs() -> Inputs<'static> {
    Inputs {
        profile: files(),
        baplie: EMPTY_PLAN,
        movins: TWO_LOADS,
        steps: None,
    }
}

/// A session that is read, and how many steps it has.
#[derive(Clone, Copy, Drop)]
pub struct Reading<'a> {
    pub inputs: Inputs<'a>,
    pub steps: u32,
}

/// Reads it.
pub fn read(alloc: Global, reading: &Reading<'_>) -> Told {
    match Session::read(alloc, &reading.inputs) {
        Ok(session) if session.lifts().len() == reading.steps as usize => Told::Right,
        Err(RunFault::NoMemory) => Told::Short,
        _ => Told::Wrong,
    }
}

/// The tank is filled.
pub fn filling(kg: u32) -> Op {
    let mut name = ArrayVec::new();
    let _ = name.try_extend_from_slice(b"DB1".as_slice());
    Op::Fill { name, kg }
}

/// A session on a list, from the base of another.
pub fn session_on(alloc: Global, other: &Session, list: Vec<Op>) -> Result<Session, RunFault> {
    let Ok(base) = Arc::try_clone(other.base()) else {
        return Err(RunFault::NoMemory);
    };
    match Session::new(alloc, base, list) {
        Ok(session) => Ok(session),
        Err(_) => Err(RunFault::NoMemory),
    }
}

/// A session on the list of another with two fillings of a tank behind it.
pub fn with_fillings(alloc: Global, session: &Session) -> Result<Session, RunFault> {
    let mut list = list_of(alloc, session)?;
    for kg in [500_000, 400_000] {
        if list.push(filling(kg)).is_err() {
            return Err(RunFault::NoMemory);
        }
    }
    session_on(alloc, session, list)
}

/// A step that takes a container out of the first load's cell and puts it there again. It is named
/// by this, or by nothing.
fn restow_there(name: &[u8]) -> Op {
    let mut id = ArrayVec::new();
    let _ = id.try_extend_from_slice(name);
    Op::Restow {
        from: STARBOARD,
        to: STARBOARD,
        id,
    }
}

/// A session on the list of another with two steps behind it that leave the container of its first
/// load where it is: such steps can be done in either order, though they aren't independent.
pub fn with_restows(alloc: Global, session: &Session) -> Result<Session, RunFault> {
    let mut list = list_of(alloc, session)?;
    let named = match list.first() {
        Some(Op::Lift(Lift::Load(item))) => restow_there(item.id.as_slice()),
        _ => return Err(RunFault::NoMemory),
    };
    for step in [named, restow_there(b"".as_slice())] {
        if list.push(step).is_err() {
            return Err(RunFault::NoMemory);
        }
    }
    session_on(alloc, session, list)
}

/// How many steps a long list has: just so many that a search keeps what it found to pass.
pub const LONG: u32 = 2_000;

/// So many steps: fillings of a tank, and at the end a step of another list.
fn long_list(alloc: Global, steps: u32, last: &Op) -> Result<Vec<Op>, AllocError> {
    let mut list = Vec::new(alloc);
    for kg in 1..steps {
        list.push(filling(kg))?;
    }
    list.push(last.copy())?;
    Ok(list)
}

/// A session on a list of so many steps, of which the last is the first of another session's.
pub fn with_long_list(alloc: Global, session: &Session, steps: u32) -> Result<Session, RunFault> {
    let Some(last) = session.lifts().first() else {
        return Err(RunFault::NoMemory);
    };
    let Ok(list) = long_list(alloc, steps, last) else {
        return Err(RunFault::NoMemory);
    };
    session_on(alloc, session, list)
}

/// Makes a session on the base of another and a list so long that room is asked for what searches
/// keep of it.
pub fn make_long(alloc: Global, other: &Session) -> Told {
    let (Some(last), Ok(base)) = (other.lifts().first(), Arc::try_clone(other.base())) else {
        return Told::Wrong;
    };
    let Ok(list) = long_list(alloc, LONG, last) else {
        return Told::Short;
    };
    match Session::new(alloc, base, list) {
        Ok(made) if made.lifts().len() == LONG as usize => Told::Right,
        Err(fault) if fault.code == SeqCode::NoMemory => Told::Short,
        _ => Told::Wrong,
    }
}

/// Asks which step of a long list fails first, once more after its last step was given another
/// weight, and once more after that was taken back: none of it asks for memory.
pub fn searches(session: &mut Session) -> Told {
    let mut right = session.first_fail().is_none();
    right &= reweigh(session, LONG, 20_501);
    right &= session.first_fail().is_none();
    right &= session.undo() == Ok(true);
    right &= session.first_fail().is_none();
    if right { Told::Right } else { Told::Wrong }
}

/// Gives the load at a step another weight.
pub fn reweigh(session: &mut Session, at: u32, kg: u32) -> bool {
    match Kg::new(kg) {
        Some(kg) => session.apply(Edit::Reweigh { at, kg }).is_ok(),
        None => false,
    }
}

/// 65 weights of the first load, one after another, and 64 of them taken back: neither asks for
/// memory.
pub fn sixty_four_undos(session: &mut Session) -> Told {
    let mut right = true;
    for kg in 1..66 {
        right &= reweigh(session, 1, kg);
    }
    for _ in 0..64 {
        right &= session.undo() == Ok(true);
    }
    right &= session.undo() == Ok(false);
    if right { Told::Right } else { Told::Wrong }
}

/// The first of three steps that are independent of each other is exchanged with the last, and with
/// the second, and is moved there, and each of that is taken back: none of it asks for memory.
pub fn swaps(session: &mut Session) -> Told {
    let mut right = session.lifts().len() == 3;
    for (a, b) in [(1, 3), (3, 1), (1, 2), (2, 1)] {
        right &= session.apply(Edit::Swap { a, b }).is_ok();
        right &= session.undo() == Ok(true);
        right &= session.apply(Edit::Move { from: a, to: b }).is_ok();
        right &= session.undo() == Ok(true);
    }
    if right { Told::Right } else { Told::Wrong }
}

/// The first of three steps, which fills the tank of the second, is moved past that and past both,
/// and changes places with it, and each of that is taken back: none of it asks for memory.
pub fn moves_of_fillings(session: &mut Session) -> Told {
    let mut right = session.lifts().len() == 3;
    for (from, to) in [(1, 2), (2, 1), (1, 3)] {
        right &= session.apply(Edit::Move { from, to }).is_ok();
        right &= session.undo() == Ok(true);
    }
    right &= session.apply(Edit::Swap { a: 1, b: 2 }).is_ok();
    right &= session.undo() == Ok(true);
    if right { Told::Right } else { Told::Wrong }
}

/// The list of a session, in memory of its own.
pub fn list_of(alloc: Global, session: &Session) -> Result<Vec<Op>, RunFault> {
    match copies(alloc, session.lifts()) {
        Ok(list) => Ok(list),
        Err(_) => Err(RunFault::NoMemory),
    }
}
