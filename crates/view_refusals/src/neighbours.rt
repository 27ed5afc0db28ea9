//! What the ship has in place of a cell or a tank that isn't hers.
use plain_text::{count_of, many};
use std::alloc::{AllocError, Global};
use units_core::Cell;
use view_inputs::{CellRow, TankRows};

/// Numbers of three digits or fewer, each once.
#[derive(Drop)]
struct Numbers {
    marks: Vec<bool>,
}

impl Numbers {
    /// No number yet.
    fn new(alloc: Global) -> Result<Numbers, AllocError> {
        let mut marks = Vec::with_capacity(alloc, 1000)?;
        for _ in 0..1000usize {
            marks.push(false)?;
        }
        Ok(Numbers { marks })
    }

    /// Adds a number.
    fn add(&mut self, number: usize) {
        if let Some(mark) = self.marks.get_mut(number) {
            *mark = true;
        }
    }

    /// Whether a number is among them.
    fn has(&self, number: usize) -> bool {
        match self.marks.get(number) {
            Some(mark) => *mark,
            None => false,
        }
    }

    /// The least and the greatest of them, and how many there are.
    fn reach(&self) -> (usize, usize, u32) {
        let mut least = 0;
        let mut most = 0;
        let mut count = 0u32;
        for (number, mark) in self.marks.iter().enumerate() {
            if *mark {
                if count == 0 {
                    least = number;
                }
                most = number;
                count = count.saturating_add(1);
            }
        }
        (least, most, count)
    }

    /// All of them in two digits, each behind a blank.
    fn list_text(&self, alloc: Global) -> Result<String, AllocError> {
        let mut text = String::new(alloc);
        for (number, mark) in self.marks.iter().enumerate() {
            if *mark {
                write!(text, " {number:02}")?;
            }
        }
        Ok(text)
    }
}

/// The bays of a ship.
fn bays_of(alloc: Global, rows: &[CellRow]) -> Result<Numbers, AllocError> {
    let mut bays = Numbers::new(alloc)?;
    for place in rows {
        bays.add(usize::from(place.cell.bay));
    }
    Ok(bays)
}

/// The rows of a bay.
fn rows_of(alloc: Global, rows: &[CellRow], bay: u16) -> Result<Numbers, AllocError> {
    let mut near = Numbers::new(alloc)?;
    for place in rows {
        if place.cell.bay == bay {
            near.add(usize::from(place.cell.row));
        }
    }
    Ok(near)
}

/// The tiers of a row of a bay.
fn tiers_of(alloc: Global, rows: &[CellRow], bay: u16, row: u8) -> Result<Numbers, AllocError> {
    let mut tiers = Numbers::new(alloc)?;
    for place in rows {
        if place.cell.bay == bay && place.cell.row == row {
            tiers.add(usize::from(place.cell.tier));
        }
    }
    Ok(tiers)
}

/// What a bay of the ship has in place of a row or a tier that isn't in it.
fn row_words(alloc: Global, rows: &[CellRow], cell: Cell) -> Result<String, AllocError> {
    let Cell { bay, row, tier } = cell;
    let near = rows_of(alloc, rows, bay)?;
    if !near.has(usize::from(row)) {
        let list = near.list_text(alloc)?;
        return Ok(format!(in alloc; "Bay {bay:03} has no row {row:02}; its rows are{list}.")?);
    }
    let list = tiers_of(alloc, rows, bay, row)?.list_text(alloc)?;
    Ok(format!(in alloc; "Bay {bay:03} row {row:02} has no tier {tier:02}; its tiers are{list}.")?)
}

/// What the ship has in place of a cell that isn't hers: her bays, or the bay's rows, or the row's
/// tiers.
pub fn bay_words(alloc: Global, rows: &[CellRow], cell: Cell) -> Result<String, AllocError> {
    let bay = cell.bay;
    let bays = bays_of(alloc, rows)?;
    if bays.has(usize::from(bay)) {
        return row_words(alloc, rows, cell);
    }
    let (least, most, count) = bays.reach();
    Ok(format!(in alloc;
        "She has no bay {bay:03}; hers are {least:03} to {most:03} ({count} bays)."
    )?)
}

/// Whether a byte is a blank of any kind.
fn is_blank(byte: u8) -> bool {
    byte == b' ' || 9 <= byte && byte <= 13
}

/// A name without its blanks, in capital letters.
fn without_blanks(alloc: Global, name: &[u8]) -> Result<Vec<u8>, AllocError> {
    let mut plain = Vec::new(alloc);
    for byte in name {
        if !is_blank(*byte) {
            plain.push(byte.to_ascii_uppercase())?;
        }
    }
    Ok(plain)
}

/// How many tanks a table has, and which of them has nearly this name: the same but for blanks and
/// capital letters.
pub fn tank_words(alloc: Global, tanks: &[TankRows], name: &[u8]) -> Result<String, AllocError> {
    let wanted = without_blanks(alloc, name)?;
    let mut nearest: Option<&TankRows> = None;
    for tank in tanks {
        if without_blanks(alloc, tank.name.as_slice())?.as_slice() == wanted.as_slice() {
            let is_less = match nearest {
                Some(other) => tank.name.as_slice() < other.name.as_slice(),
                None => true,
            };
            if is_less {
                nearest = Some(tank);
            }
        }
    }
    let count = many(alloc, count_of(tanks.len()), "tank")?;
    let Some(tank) = nearest else {
        return Ok(format!(in alloc; "tanks.csv has {count}.")?);
    };
    let name = tank.name_line(alloc)?;
    Ok(format!(in alloc; "tanks.csv has {count}, of which \"{name}\" comes nearest.")?)
}
