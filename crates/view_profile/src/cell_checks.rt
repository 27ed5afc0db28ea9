//! Checks of cells.csv.
use crate::figures::{size, times};
use crate::warnings::Found;
use plain_text::many;
use std::alloc::{AllocError, Global};
use view_inputs::{CellRow, DECK, Notices, cell_text};
use view_quotes::metres;

/// The file.
const FILE: &str = "cells.csv";

/// Whether a cell stands on the other side than its row: odd rows are to starboard, even rows to
/// port, that of number 0 on the centre line.
fn is_on_other_side(row: &CellRow) -> bool {
    let number = row.cell.row;
    if number == 0 {
        row.y != 0
    } else if number % 2 == 1 {
        row.y < 0
    } else {
        row.y > 0
    }
}

/// Whether half of a container's length isn't that of its bay.
fn is_of_other_length(row: &CellRow) -> bool {
    let half = row.half;
    if row.cell.bay % 2 == 1 {
        half < 2_700 || 3_400 < half
    } else {
        half < 5_500 || 7_500 < half
    }
}

/// On which side a cell stands.
fn side_words(alloc: Global, row: &CellRow) -> Result<String, AllocError> {
    let cell = cell_text(alloc, row.cell)?;
    let number = row.cell.row;
    let off = metres(alloc, size(i128::from(row.y)))?;
    let side = if row.y < 0 { "port" } else { "starboard" };
    Ok(format!(in alloc; "{cell}, row {number:02}, stands {off} m to {side}")?)
}

/// Adds cells on the other side: V20.
fn add_sides(alloc: Global, warnings: &mut Notices, rows: &[CellRow]) -> Result<(), AllocError> {
    let mut sides = Found::nothing(alloc);
    for row in rows {
        if !is_on_other_side(row) {
            continue;
        }
        if sides.is_first() {
            sides.note(row.record, side_words(alloc, row)?);
        } else {
            sides.note_more();
        }
    }
    sides.add_to(alloc, warnings, "V20", FILE)
}

/// How long a container in a cell may be.
fn length_words(alloc: Global, row: &CellRow) -> Result<String, AllocError> {
    let cell = cell_text(alloc, row.cell)?;
    let feet = if row.cell.bay % 2 == 1 { "20" } else { "40" };
    let half = metres(alloc, i128::from(row.half))?;
    Ok(format!(in alloc; "{cell}, a bay of {feet} feet, has a half length of {half} m")?)
}

/// Adds cells of other lengths than their bays: V21.
fn add_lengths(alloc: Global, warnings: &mut Notices, rows: &[CellRow]) -> Result<(), AllocError> {
    let mut lengths = Found::nothing(alloc);
    for row in rows {
        if !is_of_other_length(row) {
            continue;
        }
        if lengths.is_first() {
            lengths.note(row.record, length_words(alloc, row)?);
        } else {
            lengths.note_more();
        }
    }
    lengths.add_to(alloc, warnings, "V21", FILE)
}

/// The sum of x of the cells of a bay in mm, and how many they are.
#[derive(Clone, Copy, Debug)]
struct Bay {
    number: u16,
    sum: i128,
    count: i128,
}

/// The bays that have cells, in their order.
fn bays_of(alloc: Global, rows: &[CellRow]) -> Result<Vec<Bay>, AllocError> {
    let mut all = Vec::with_capacity(alloc, 1_000)?;
    for number in 0..1_000u16 {
        all.push(Bay {
            number,
            sum: 0,
            count: 0,
        })?;
    }
    for row in rows {
        if let Some(bay) = all.get_mut(usize::from(row.cell.bay)) {
            bay.sum = bay.sum.saturating_add(i128::from(row.x));
            bay.count = bay.count.saturating_add(1);
        }
    }
    let mut bays = Vec::new(alloc);
    for bay in &all {
        if bay.count > 0 {
            bays.push(*bay)?;
        }
    }
    Ok(bays)
}

/// Adds bays that stand no further aft than one before them: V22.
fn add_order(alloc: Global, warnings: &mut Notices, bays: &[Bay]) -> Result<(), AllocError> {
    let mut count = 0u32;
    let mut first: Option<(u16, u16)> = None;
    let mut before: Option<Bay> = None;
    for bay in bays {
        if let Some(last) = before {
            if times(bay.sum, last.count) >= times(last.sum, bay.count) {
                first = first.or(Some((last.number, bay.number)));
                count = count.saturating_add(1);
            }
        }
        before = Some(*bay);
    }
    let Some((low, high)) = first else {
        return Ok(());
    };
    let count = many(alloc, count, "pair")?;
    let text = format!(in alloc;
        "bay {high:03} stands no further aft than bay {low:03} ({count})"
    )?;
    warnings.add("V22", FILE, text)
}

/// Whether a bay lies over 500 mm off the middle of two others.
fn is_off_middle(bay: &Bay, one: &Bay, other: &Bay) -> bool {
    let both = times(one.sum, other.count).saturating_add(times(other.sum, one.count));
    let counts = times(one.count, other.count);
    let off = times(times(2, bay.sum), counts).saturating_sub(times(bay.count, both));
    size(off) > times(1_000, times(bay.count, counts))
}

/// Adds even bays that aren't amid their odd neighbours: V22.
fn add_middles(alloc: Global, warnings: &mut Notices, bays: &[Bay]) -> Result<(), AllocError> {
    let mut count = 0u32;
    let mut first: Option<u16> = None;
    for at in 1..bays.len() {
        if let (Some(one), Some(bay), Some(other)) = (
            bays.get(at - 1),
            bays.get(at),
            bays.get(at.saturating_add(1)),
        ) {
            let number = bay.number;
            let are_beside = one.number.saturating_add(1) == number
                && number.saturating_add(1) == other.number;
            if number % 2 == 0 && are_beside && is_off_middle(bay, one, other) {
                first = first.or(Some(number));
                count = count.saturating_add(1);
            }
        }
    }
    let Some(number) = first else {
        return Ok(());
    };
    let count = many(alloc, count, "bay")?;
    let low = number.saturating_sub(1);
    let high = number.saturating_add(1);
    let text = format!(in alloc;
        "bay {number:03} isn't amid bays {low:03} and {high:03} ({count})"
    )?;
    warnings.add("V22", FILE, text)
}

/// The bay, the row and the side of the deck of a cell, as a number.
fn stack_of(row: &CellRow) -> u64 {
    let side = u64::from(row.cell.tier >= DECK);
    let stack = u64::from(row.cell.bay)
        .wrapping_mul(200)
        .wrapping_add(u64::from(row.cell.row).wrapping_mul(2));
    stack.wrapping_add(side)
}

/// Adds cells that don't stand a container above the one below them: V23.
fn add_stacks(alloc: Global, warnings: &mut Notices, rows: &[CellRow]) -> Result<(), AllocError> {
    let mut sorted = Vec::from_slice(alloc, rows)?;
    sorted.sort_unstable_by_key(|row| (stack_of(row), row.cell.tier));
    let mut first: Option<(CellRow, i64)> = None;
    let mut count = 0u32;
    let mut before: Option<CellRow> = None;
    for row in &sorted {
        if let Some(below) = before {
            let rise = row.z.saturating_sub(below.z);
            let tiers = i64::from(row.cell.tier.saturating_sub(below.cell.tier));
            let most = tiers.saturating_mul(3_300).div_euclid(2);
            if stack_of(&below) == stack_of(row) && (rise < 2_000 || most < rise) {
                let is_earlier = match first {
                    Some((other, _)) => row.record < other.record,
                    None => true,
                };
                if is_earlier {
                    first = Some((*row, rise));
                }
                count = count.saturating_add(1);
            }
        }
        before = Some(*row);
    }
    let Some((row, rise)) = first else {
        return Ok(());
    };
    let cell = cell_text(alloc, row.cell)?;
    let rise = metres(alloc, i128::from(rise))?;
    let mut found = Found::nothing(alloc);
    found.note(
        row.record,
        format!(in alloc; "{cell} stands {rise} m above the cell below it")?,
    );
    found.count = count;
    found.add_to(alloc, warnings, "V23", FILE)
}

/// Adds what looks wrong of cells.csv: V20 to V23.
pub fn add_cells(
    alloc: Global,
    warnings: &mut Notices,
    rows: &[CellRow],
) -> Result<(), AllocError> {
    add_sides(alloc, warnings, rows)?;
    add_lengths(alloc, warnings, rows)?;
    let bays = bays_of(alloc, rows)?;
    add_order(alloc, warnings, bays.as_slice())?;
    add_middles(alloc, warnings, bays.as_slice())?;
    add_stacks(alloc, warnings, rows)
}
