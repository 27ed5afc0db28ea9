//! The cells of a ship, and where her containers may stand so that none overlaps another one.
use crate::chance::Chance;
use std::alloc::{AllocError, Global};

/// A cell as `cells.csv` names it, and what of it matters to where a container may stand.
#[derive(Clone, Copy)]
pub struct Slot {
    /// Its seven digits.
    pub name: [u8; 7],
    pub bay: u32,
    pub row: u32,
    pub tier: u32,
}

/// The number that some digits write.
fn number(digits: &[u8]) -> u32 {
    let mut number = 0u32;
    for digit in digits {
        number = number
            .wrapping_mul(10)
            .wrapping_add(u32::from(digit.wrapping_sub(b'0')));
    }
    number
}

impl Slot {
    /// The cell of these seven digits.
    fn new(name: [u8; 7]) -> Slot {
        Slot {
            name,
            bay: number(&name[..3]),
            row: number(&name[3..5]),
            tier: number(&name[5..]),
        }
    }

    /// The number of its 40-foot bay: an odd bay is half of one, an even bay is one.
    pub fn group(&self) -> u32 {
        self.bay.saturating_sub(1) / 4
    }

    /// Whether it is on deck.
    pub fn is_on_deck(&self) -> bool {
        self.tier >= 70
    }

    /// Whether it is a cell of 20 feet.
    pub fn is_short(&self) -> bool {
        self.bay % 2 == 1
    }

    /// A number for it and the cell on the other side of the ship, in the bay of this number.
    fn pair_in(&self, bay: u32) -> u64 {
        let row = u64::from(self.row).wrapping_add(1) / 2;
        u64::from(bay)
            .wrapping_mul(10_000)
            .wrapping_add(row.wrapping_mul(100))
            .wrapping_add(u64::from(self.tier))
    }

    /// What is drawn for it and the cell on the other side of the ship alike, so that the ship
    /// doesn't list.
    pub fn chance(&self, salt: u64) -> Chance {
        Chance::new(salt.wrapping_add(self.pair_in(self.bay)))
    }

    /// Whether it is used where a plan has this salt: at each place of a 40-foot bay the plan has
    /// either containers of 20 feet or one of 40, and the latter in three of ten places.
    fn is_used(&self, salt: u64) -> bool {
        let place = self.pair_in(self.group());
        let is_long = Chance::new(salt.wrapping_add(place)).happens(300);
        is_long != self.is_short()
    }
}

/// The cells of the table `cells.csv`, in its order: each line behind the first begins with seven
/// digits.
pub fn slots_of(alloc: Global, table: &[u8]) -> Result<Vec<Slot>, AllocError> {
    let mut slots = Vec::new(alloc);
    for line in table.split(|byte| *byte == b'\n').skip(1) {
        if let Some(name) = line.first_chunk::<7>() {
            slots.push(Slot::new(*name))?;
        }
    }
    Ok(slots)
}

/// The cells that a plan uses, of which no two overlap.
pub fn used_slots(alloc: Global, slots: &[Slot], salt: u64) -> Result<Vec<Slot>, AllocError> {
    let mut used = Vec::new(alloc);
    for slot in slots {
        if slot.is_used(salt) {
            used.push(*slot)?;
        }
    }
    Ok(used)
}
