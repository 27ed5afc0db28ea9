//! Which container each step moves.
use lift_sequence::Op;
use port_call::Case;
use ship_profile::Profile;
use std::alloc::{AllocError, Global};
use stow_messages::{Item, Lift};
use units_core::Cell;

/// No container is known.
const NOBODY: u32 = u32::MAX;

/// For each step the container that it moves: the number of the item of the bay plan that it came
/// as, or of the step that loaded it, behind these.
#[derive(Debug, Drop)]
pub struct MovedBy {
    numbers: Vec<u32>,
}

/// Who stands in each cell, by the cell's number.
#[derive(Drop)]
struct Stands {
    cells: Vec<u32>,
}

impl Stands {
    /// Nobody yet, in so many cells.
    fn new(alloc: Global, cells: usize) -> Result<Stands, AllocError> {
        let mut stands = Vec::with_capacity(alloc, cells)?;
        for _ in 0..cells {
            stands.push(NOBODY)?;
        }
        Ok(Stands { cells: stands })
    }

    /// Who stands in a cell.
    fn who(&self, profile: &Profile, cell: Cell) -> u32 {
        let Some(number) = profile.cell_number(cell) else {
            return NOBODY;
        };
        match self.cells.get(number) {
            Some(who) => *who,
            None => NOBODY,
        }
    }

    /// From now on somebody stands in a cell.
    fn put(&mut self, profile: &Profile, cell: Cell, who: u32) {
        if let Some(number) = profile.cell_number(cell) {
            if let Some(stands) = self.cells.get_mut(number) {
                *stands = who;
            }
        }
    }
}

/// The greatest number of cells of a ship.
const CELLS: usize = 30_000;

/// Who is moved by a step, which is done.
fn move_on(profile: &Profile, stands: &mut Stands, op: &Op, number: u32) -> u32 {
    match op {
        Op::Lift(Lift::Load(item)) => {
            stands.put(profile, item.cell, number);
            number
        }
        Op::Lift(Lift::Discharge { cell, .. }) => stands.who(profile, *cell),
        Op::Restow { from, to, .. } => {
            let who = stands.who(profile, *from);
            stands.put(profile, *to, who);
            who
        }
        Op::Fill { .. } => NOBODY,
    }
}

impl MovedBy {
    /// Who is moved by each step of a case.
    pub fn new(alloc: Global, case: Case<'_>) -> Result<MovedBy, AllocError> {
        let mut stands = Stands::new(alloc, CELLS)?;
        let mut number = 0u32;
        for item in case.arrival.items() {
            stands.put(case.profile, item.cell, number);
            number = number.saturating_add(1);
        }
        let mut numbers = Vec::with_capacity(alloc, case.sequence.len())?;
        for op in case.sequence.ops() {
            numbers.push(move_on(case.profile, &mut stands, op, number))?;
            number = number.saturating_add(1);
        }
        Ok(MovedBy { numbers })
    }

    /// The container that a step moves, the first being 1; `None` for a filling.
    pub fn item<'a>(&self, case: Case<'a>, step: usize) -> Option<&'a Item> {
        let number = *self.numbers.get(step.checked_sub(1)?)? as usize;
        let items = case.arrival.items();
        if let Some(item) = items.get(number) {
            return Some(item);
        }
        match case.sequence.ops().get(number.checked_sub(items.len())?)? {
            Op::Lift(Lift::Load(item)) => Some(item),
            _ => None,
        }
    }
}
