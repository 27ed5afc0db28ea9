//! Where the inputs order a step.
use crate::entries::entries_of;
use crate::readings::rows_read;
use csv_text::number;
use edifact_text::Kind;
use plain_text::count_of;
use std::alloc::{AllocError, Global};
use stow_messages::StepRow;
use view_quotes::{PlainLines, split_field};

/// Where a step is ordered.
#[derive(Clone, Copy, Debug)]
pub struct StepPlace {
    /// The lift of the movement instruction, from 1, and the segment that locates it.
    pub lift: Option<(u32, u64)>,
    /// The record of the steps file, if there is one.
    pub record: Option<u32>,
}

/// For each step the number of its lift in the movement instruction, if it is one. Without a steps
/// file the steps are the lifts in their order.
pub fn lifts_of(
    alloc: Global,
    movins: &[u8],
    file: Option<&[u8]>,
    count: u32,
) -> Result<Vec<Option<u32>>, AllocError> {
    let there = match file {
        Some(_) => entries_of(alloc, movins, Kind::Movins, None)?.len(),
        None => 0,
    };
    lifts_among(alloc, there, file, count)
}

/// The same by how many lifts the instruction has.
pub fn lifts_among(
    alloc: Global,
    there: usize,
    file: Option<&[u8]>,
    count: u32,
) -> Result<Vec<Option<u32>>, AllocError> {
    let mut lifts = Vec::new(alloc);
    let Some(text) = file else {
        for step in 0..count {
            lifts.push(Some(step.saturating_add(1)))?;
        }
        return Ok(lifts);
    };
    let Some(rows) = rows_read(alloc, text, count_of(there))? else {
        return Ok(lifts);
    };
    for row in &rows {
        lifts.push(match row {
            StepRow::Lift(number) => Some(*number),
            _ => None,
        })?;
    }
    Ok(lifts)
}

/// What a line of a steps file orders.
#[derive(Clone, Copy)]
enum Ordered {
    Lift(u32),
    Other,
}

/// What a line without quotes orders, where that is seen at once.
fn ordered_by(line: &[u8]) -> Option<Ordered> {
    match line {
        [b'l', b'i', b'f', b't', b',', rest @ ..] => {
            let (field, _) = split_field(rest);
            Some(Ordered::Lift(u32::try_from(number(field)?).ok()?))
        }
        [b't', b'a', b'n', b'k', b',', ..] => Some(Ordered::Other),
        [b'r', b'e', b's', b't', b'o', b'w', b',', ..] => Some(Ordered::Other),
        _ => None,
    }
}

/// For each step of a steps file without quotes the number of its lift, if it is one; nothing where
/// some line has another form.
fn plain_lifts(
    alloc: Global,
    most: usize,
    lines: PlainLines<'_>,
) -> Result<Option<Vec<Option<u32>>>, AllocError> {
    let mut lifts = Vec::new(alloc);
    let mut lines = lines;
    let mut is_heading = true;
    for _ in 0..=most {
        let Some(line) = lines.next_line() else {
            break;
        };
        if line.is_empty() {
            continue;
        }
        if is_heading {
            is_heading = false;
            continue;
        }
        match ordered_by(line) {
            Some(Ordered::Lift(number)) => lifts.push(Some(number))?,
            Some(Ordered::Other) => lifts.push(None)?,
            None => return Ok(None),
        }
    }
    Ok(Some(lifts))
}

/// For each step of a port call the number of its lift, as [`lifts_among`] has it. Its steps file
/// is one that was accepted, so that no other field of a lift's line need be looked at.
pub fn lifts_in_call(
    alloc: Global,
    there: usize,
    file: Option<&[u8]>,
    count: u32,
) -> Result<Vec<Option<u32>>, AllocError> {
    if let Some(text) = file {
        if let Some(lines) = PlainLines::of(text) {
            if let Some(lifts) = plain_lifts(alloc, text.len(), lines)? {
                return Ok(lifts);
            }
        }
    }
    lifts_among(alloc, there, file, count)
}

/// The lift that a record of a steps file orders.
fn lift_in_file(
    alloc: Global,
    text: &[u8],
    lifts: u32,
    step: u32,
) -> Result<Option<u32>, AllocError> {
    let Some(rows) = rows_read(alloc, text, lifts)? else {
        return Ok(None);
    };
    match rows.get((step as usize).wrapping_sub(1)) {
        Some(StepRow::Lift(number)) => Ok(Some(*number)),
        _ => Ok(None),
    }
}

/// Where the step of a number, from 1, is ordered.
pub fn place_of(
    alloc: Global,
    movins: &[u8],
    file: Option<&[u8]>,
    step: u32,
) -> Result<StepPlace, AllocError> {
    let entries = entries_of(alloc, movins, Kind::Movins, None)?;
    let (number, record) = match file {
        Some(text) => {
            let lifts = count_of(entries.len());
            (
                lift_in_file(alloc, text, lifts, step)?,
                Some(step.saturating_add(1)),
            )
        }
        None => (Some(step), None),
    };
    let lift = match number {
        Some(number) => match entries.get((number as usize).wrapping_sub(1)) {
            Some(entry) => Some((number, entry.segment)),
            None => None,
        },
        None => None,
    };
    Ok(StepPlace { lift, record })
}
