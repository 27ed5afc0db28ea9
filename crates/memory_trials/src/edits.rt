//! Edits of a session, and edits that are taken back, of which growths are refused.
use crate::sessions::{filling, list_of, reweigh};
use crate::trials::Told;
use arrayvec::ArrayVec;
use lift_sequence::Op;
use seq_report::RunFault;
use std::alloc::Global;
use step_edits::{Edit, EditFault};
use stow_messages::{Item, Lift};
use units_core::{Cell, Kg};
use what_if::Session;

/// Which edit is made: of a list of two loads, or of the same with two fillings of one tank, or
/// with two restows of one container.
#[derive(Clone, Copy)]
pub enum Kind {
    Remove,
    /// A load is moved past the other, of which it is independent.
    Move,
    Insert,
    /// A third container comes aboard between the two.
    InsertLoad,
    /// The container that came aboard first goes ashore.
    InsertDischarge,
    /// The container that came aboard first is restowed.
    InsertRestow,
    /// A filling is moved past that of the same tank.
    MoveFilling,
    /// A restow is moved past another one of the same container.
    MoveRestow,
    /// The two fillings of one tank change places.
    SwapFillings,
    /// A filling is put into a list that is one step too short for searches to keep anything.
    Lengthen,
}

/// What the edit is called behind the name of a row.
pub fn name_of(kind: Kind) -> &'static str {
    match kind {
        Kind::Remove => ", a removal",
        Kind::Move => ", a move past an independent step",
        Kind::Insert => ", a filling",
        Kind::InsertLoad => ", a load",
        Kind::InsertDischarge => ", a discharge",
        Kind::InsertRestow => ", a restow",
        Kind::MoveFilling => ", a move past a filling of the tank",
        Kind::MoveRestow => ", a move past a step that isn't independent",
        Kind::SwapFillings => ", a swap of fillings of the tank",
        Kind::Lengthen => ", a filling that makes the list long",
    }
}

/// The cell into which the first container is loaded, to starboard, and one forward of it, into
/// which none is.
pub const STARBOARD: Cell = Cell {
    bay: 3,
    row: 7,
    tier: 82,
};

const FORWARD: Cell = Cell {
    bay: 1,
    row: 0,
    tier: 82,
};

/// What each of the two loads weighs in kg.
const GIVEN: u32 = 20_500;

/// A container of as much comes aboard forward.
fn load_forward() -> Op {
    let Some(kg) = Kg::new(GIVEN) else {
        unreachable!()
    };
    Op::Lift(Lift::Load(Item {
        cell: FORWARD,
        id: ArrayVec::new(),
        kg,
    }))
}

/// The edit.
pub fn edit_of(kind: Kind) -> Edit {
    match kind {
        Kind::Remove => Edit::Remove { at: 2 },
        Kind::Move => Edit::Move { from: 1, to: 2 },
        Kind::Insert | Kind::Lengthen => Edit::Insert {
            at: 2,
            lift: filling(500_000),
        },
        Kind::InsertLoad => Edit::Insert {
            at: 2,
            lift: load_forward(),
        },
        Kind::InsertDischarge => Edit::Insert {
            at: 3,
            lift: Op::Lift(Lift::Discharge {
                cell: STARBOARD,
                id: ArrayVec::new(),
            }),
        },
        Kind::InsertRestow => Edit::Insert {
            at: 3,
            lift: Op::Restow {
                from: STARBOARD,
                to: FORWARD,
                id: ArrayVec::new(),
            },
        },
        Kind::MoveFilling | Kind::MoveRestow => Edit::Move { from: 3, to: 4 },
        Kind::SwapFillings => Edit::Swap { a: 3, b: 4 },
    }
}

/// The number of the first load of a list, the first step being 1; 0 where there is none.
fn first_load(list: &[Op]) -> u32 {
    let mut number = 0u32;
    for op in list {
        number = number.saturating_add(1);
        if op.loaded_cell().is_some() {
            return number;
        }
    }
    0
}

/// Edits that are kept in a session, so many: each gives its first load another weight, a kilogram
/// more than the one before. An edit of a kind is then made behind them.
#[derive(Drop)]
pub struct Kept {
    pub count: u32,
    load: u32,
    /// The list before each of them, the oldest first.
    earlier: Vec<Vec<Op>>,
}

impl Kept {
    /// Makes so many in a session in which none was kept.
    pub fn make(alloc: Global, session: &mut Session, count: u32) -> Result<Kept, RunFault> {
        let load = first_load(session.lifts());
        let mut earlier = Vec::new(alloc);
        for number in 0..count {
            let list = list_of(alloc, session)?;
            let weighed = reweigh(
                session,
                load,
                GIVEN.saturating_add(number).saturating_add(1),
            );
            if earlier.push(list).is_err() || !weighed {
                return Err(RunFault::NoMemory);
            }
        }
        Ok(Kept {
            count,
            load,
            earlier,
        })
    }

    /// How many of them are left where an edit was made behind them: 64 edits are kept in all.
    fn count_left(&self) -> u32 {
        self.count.min(63)
    }

    /// Takes the last of them back, so many. Whether each list was then as it had been, and no
    /// other edit was kept.
    fn are_taken_back(&self, session: &mut Session, count: u32) -> bool {
        let mut right = true;
        for taken in 0..count {
            let number = self.count.saturating_sub(taken.saturating_add(1));
            let back = session.undo() == Ok(true);
            right &= match self.earlier.get(number as usize) {
                Some(list) => back && session.lifts() == list.as_slice(),
                None => false,
            };
        }
        right && session.undo() == Ok(false)
    }

    /// Makes them again, of which so many were taken back. Where the oldest weren't kept, the
    /// weight before all of them is given first.
    fn are_made_again(&self, session: &mut Session, taken: u32) -> bool {
        let first = if taken < self.count { 0u32 } else { 1 };
        let mut right = true;
        for number in first..self.count.saturating_add(1) {
            right &= reweigh(session, self.load, GIVEN.saturating_add(number));
        }
        right
    }

    /// Whether just so many of them are kept, and can be taken back. All are then made again, which
    /// asks for no memory.
    fn are_there(&self, session: &mut Session, count: u32) -> bool {
        let back = self.are_taken_back(session, count);
        self.are_made_again(session, count) && back
    }

    /// Makes an edit of a kind behind them, and takes it back. The list after it, or none where it
    /// can't be made.
    pub fn list_after(
        &self,
        alloc: Global,
        session: &mut Session,
        kind: Kind,
    ) -> Result<Option<Vec<Op>>, RunFault> {
        let made = session.apply(edit_of(kind)).is_ok();
        let after = list_of(alloc, session)?;
        let back = session.undo() == Ok(true);
        let there = self.are_there(session, self.count_left());
        Ok(if made && back && there {
            Some(after)
        } else {
            None
        })
    }
}

/// An edit of a session behind others that are kept, and the lists before and after it.
#[derive(Drop)]
pub struct Editing<'a> {
    pub session: &'a mut Session,
    pub kind: Kind,
    pub before: &'a [Op],
    pub after: &'a [Op],
    pub kept: &'a Kept,
}

impl<'a> Editing<'a> {
    fn has(&self, list: &[Op]) -> bool {
        self.session.lifts() == list
    }

    /// Makes the edit.
    pub fn apply(&mut self) -> Told {
        match self.session.apply(edit_of(self.kind)) {
            Ok(()) => Told::Right,
            Err(EditFault::NoMemory) => Told::Short,
            Err(_) => Told::Wrong,
        }
    }

    /// Whether the list is the one before the edit.
    fn is_before(&self) -> bool {
        self.has(self.before)
    }

    /// Whether it is the one after it.
    pub fn is_after(&self) -> bool {
        self.has(self.after)
    }

    /// Whether the edit left no trace: the list is the one before it, and the others are kept.
    pub fn is_not_made(&mut self) -> bool {
        let kept = self.kept;
        self.is_before() && kept.are_there(self.session, kept.count) && self.is_before()
    }

    /// Whether the edit was made, and is kept behind the others, and nothing else is. It is taken
    /// back then.
    pub fn is_edited(&mut self) -> bool {
        let edited = self.is_after();
        let back = self.session.undo() == Ok(true) && self.is_before();
        let given = self.gives_back();
        let kept = self.kept;
        edited
            && back
            && given
            && kept.are_there(self.session, kept.count_left())
            && self.is_before()
    }

    /// Gives back the room that an edit got for what searches keep, so that it asks for it the next
    /// time too: a shorter list needs none, and an undo leaves it so.
    fn gives_back(&mut self) -> bool {
        match self.kind {
            Kind::Lengthen => {
                let shortened = self.session.apply(edit_of(Kind::Remove)).is_ok();
                shortened && self.session.undo() == Ok(true)
            }
            _ => true,
        }
    }

    /// Takes the edit back.
    pub fn undo(&mut self) -> Told {
        match self.session.undo() {
            Ok(true) => Told::Right,
            Ok(false) => Told::Wrong,
            Err(_) => Told::Short,
        }
    }

    /// Whether it was taken back, and just the others are kept. It is made again then.
    pub fn is_taken_back(&mut self) -> bool {
        let kept = self.kept;
        let back = self.is_before() && kept.are_there(self.session, kept.count_left());
        let again = self.session.apply(edit_of(self.kind)).is_ok();
        back && again && self.is_after()
    }
}
