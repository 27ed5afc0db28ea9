//! Who stands where while the steps are done, one after another, with what lies above and below.
use crate::cells::{CellRow, DECK};
use lift_sequence::Op;
use plain_text::count_of;
use std::alloc::{AllocError, Global};
use stow_messages::{Item, Lift};
use units_core::{Cell, conflicts};

/// Nobody stands there.
pub const NOBODY: u32 = u32::MAX;

/// A cell of the ship, and who stands in it.
#[derive(Clone, Copy, Debug)]
pub struct Berth {
    pub cell: Cell,
    /// The number of the item of the bay plan that the container came as, or of its load, behind
    /// these.
    pub who: u32,
    /// The step that put it there, 0 of the arrival.
    pub since: u32,
    /// Who was taken out last, and by which step.
    pub taken: u32,
    pub taken_at: u32,
    /// From where to where the cells beside it stand in the list: those in the same row, and on the
    /// same side of the deck, of the bays that may overlap with its own.
    first: u32,
    last: u32,
}

/// The cells of a ship in the order of row, hold or deck, bay and tier, with who stands in each.
#[derive(Debug, Drop)]
pub struct Cargo {
    berths: Vec<Berth>,
    /// Where each of them stands in that order: these are kept together, since every step is looked
    /// up among them.
    ranks: Vec<u32>,
}

/// Where a cell stands in that order. It is less than 2^32.
fn rank(cell: Cell) -> u32 {
    let deck = u32::from(cell.tier >= DECK);
    let side = u32::from(cell.row).wrapping_mul(2).wrapping_add(deck);
    let bay = side.wrapping_mul(2_000).wrapping_add(u32::from(cell.bay));
    bay.wrapping_mul(256).wrapping_add(u32::from(cell.tier))
}

/// Where the first cell of a bay stands in it, in the row and on the side of the deck of a cell.
fn rank_of_bay(cell: Cell, bay: u16) -> u32 {
    let tier = if cell.tier >= DECK { DECK } else { 0 };
    rank(Cell {
        bay,
        row: cell.row,
        tier,
    })
}

/// The first bay that may overlap with that of a cell, and the one behind the last: an even bay
/// covers both odd ones beside it.
fn bays_beside(cell: Cell) -> (u16, u16) {
    if cell.bay % 2 == 0 {
        (cell.bay.saturating_sub(2), cell.bay.saturating_add(3))
    } else {
        (cell.bay.saturating_sub(1), cell.bay.saturating_add(2))
    }
}

impl Cargo {
    /// The cells of a ship, in which nobody stands.
    pub fn new(alloc: Global, rows: &[CellRow]) -> Result<Cargo, AllocError> {
        let mut berths = Vec::with_capacity(alloc, rows.len())?;
        for row in rows {
            berths.push(Berth {
                cell: row.cell,
                who: NOBODY,
                since: 0,
                taken: NOBODY,
                taken_at: 0,
                first: 0,
                last: 0,
            })?;
        }
        berths.sort_unstable_by_key(|berth| rank(berth.cell));
        let mut ranks = Vec::with_capacity(alloc, berths.len())?;
        for berth in &berths {
            ranks.push(rank(berth.cell))?;
        }
        let mut cargo = Cargo { berths, ranks };
        cargo.find_sides();
        Ok(cargo)
    }

    /// Finds the cells beside each cell: both ends of these rise with the place of the cell.
    fn find_sides(&mut self) {
        let (mut first, mut last) = (0usize, 0usize);
        for place in 0..self.berths.len() {
            let Some(berth) = self.berths.get(place) else {
                return;
            };
            let cell = berth.cell;
            let (low, high) = bays_beside(cell);
            first = self.next_from(first, rank_of_bay(cell, low));
            last = self.next_from(last, rank_of_bay(cell, high));
            if let Some(berth) = self.berths.get_mut(place) {
                berth.first = count_of(first);
                berth.last = count_of(last);
            }
        }
    }

    /// The first place, from one on, of those that are at least of a rank.
    fn next_from(&self, from: usize, least: u32) -> usize {
        let mut place = from;
        for rank in self.ranks.get(from..).unwrap_or(&[]) {
            if *rank >= least {
                break;
            }
            place = place.saturating_add(1);
        }
        place
    }

    /// All cells with who stands in them.
    pub fn berths(&self) -> &[Berth] {
        self.berths.as_slice()
    }

    /// The place of a cell among them; nothing where the ship has no such cell.
    pub fn place(&self, cell: Cell) -> Option<usize> {
        let least = rank(cell);
        let place = self.ranks.as_slice().partition_point(|rank| *rank < least);
        let berth = self.berths.get(place)?;
        if berth.cell == cell {
            Some(place)
        } else {
            None
        }
    }

    /// A cell with who stands in it; nothing where the ship has no such cell.
    pub fn berth(&self, cell: Cell) -> Option<&Berth> {
        self.berths.get(self.place(cell)?)
    }

    /// Puts somebody into the cell at a place.
    pub(crate) fn put_at(&mut self, place: usize, who: u32, step: u32) {
        if let Some(berth) = self.berths.get_mut(place) {
            berth.who = who;
            berth.since = step;
        }
    }

    /// Puts somebody into a cell.
    pub fn put(&mut self, cell: Cell, who: u32, step: u32) {
        if let Some(place) = self.place(cell) {
            self.put_at(place, who, step);
        }
    }

    /// Takes who stands in the cell at a place out of it.
    pub(crate) fn take_at(&mut self, place: usize, step: u32) -> u32 {
        match self.berths.get_mut(place) {
            Some(berth) => {
                let who = berth.who;
                berth.who = NOBODY;
                berth.taken = who;
                berth.taken_at = step;
                who
            }
            None => NOBODY,
        }
    }

    /// Takes who stands in a cell out of it.
    pub fn take(&mut self, cell: Cell, step: u32) -> u32 {
        match self.place(cell) {
            Some(place) => self.take_at(place, step),
            None => NOBODY,
        }
    }

    /// The cells beside a cell.
    fn beside(&self, berth: &Berth) -> &[Berth] {
        self.berths
            .get(berth.first as usize..berth.last as usize)
            .unwrap_or(&[])
    }

    /// The least cell, by bay and tier, above the one at a place in which a container stands: those
    /// beside it are in that order.
    pub fn above(&self, place: usize) -> Option<Cell> {
        let berth = self.berths.get(place)?;
        let cell = berth.cell;
        for berth in self.beside(berth) {
            let other = berth.cell;
            if berth.who != NOBODY && other.tier > cell.tier {
                let level = Cell {
                    tier: cell.tier,
                    ..other
                };
                if conflicts(level, cell) {
                    return Some(other);
                }
            }
        }
        None
    }

    /// The cell at a place, and the one before it in the order.
    fn with_before(&self, place: usize) -> Option<(Cell, &Berth)> {
        let berth = self.berths.get(place)?;
        let before = self.berths.get(place.checked_sub(1)?)?;
        Some((berth.cell, before))
    }

    /// Whether the ship has a cell below the one at a place, on its side of the deck, and nobody
    /// stands in it or overlaps it.
    pub fn hangs_over(&self, place: usize) -> bool {
        let Some((cell, before)) = self.with_before(place) else {
            return false;
        };
        let below = before.cell;
        if rank_of_bay(below, below.bay) != rank_of_bay(cell, cell.bay) {
            return false;
        }
        for other in self.beside(before) {
            if other.who != NOBODY && conflicts(other.cell, below) {
                return false;
            }
        }
        true
    }
}

/// The container of a number: an item of the bay plan, or of a load behind these.
pub fn item_of<'a>(items: &'a [Item], ops: &'a [Op], who: u32) -> Option<&'a Item> {
    let number = who as usize;
    if let Some(item) = items.get(number) {
        return Some(item);
    }
    match ops.get(number.checked_sub(items.len())?)? {
        Op::Lift(Lift::Load(item)) => Some(item),
        _ => None,
    }
}

/// What is aboard on arrival.
pub fn arrive(alloc: Global, rows: &[CellRow], items: &[Item]) -> Result<Cargo, AllocError> {
    let mut cargo = Cargo::new(alloc, rows)?;
    let mut who = 0u32;
    for item in items {
        cargo.put(item.cell, who, 0);
        who = who.saturating_add(1);
    }
    Ok(cargo)
}

/// The number of the container that a step loads.
pub fn number_of_load(items: &[Item], step: u32) -> u32 {
    count_of(items.len()).saturating_add(step).saturating_sub(1)
}

/// Does a step, which can be done, and gives who it moves.
pub fn do_step(cargo: &mut Cargo, items: &[Item], op: &Op, step: u32) -> u32 {
    match op {
        Op::Lift(Lift::Load(item)) => {
            let who = number_of_load(items, step);
            cargo.put(item.cell, who, step);
            who
        }
        Op::Lift(Lift::Discharge { cell, .. }) => cargo.take(*cell, step),
        Op::Restow { from, to, .. } => {
            let who = cargo.take(*from, step);
            cargo.put(*to, who, step);
            who
        }
        Op::Fill { .. } => NOBODY,
    }
}
