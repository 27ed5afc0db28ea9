//! What a step does, in words.
use lift_sequence::Op;
use plain_text::{in_thousandths, shown_line, shown_word};
use port_call::Case;
use std::alloc::{AllocError, Global};
use stow_messages::Lift;
use units_core::Cell;
use view_inputs::cell_text;
use view_table::{MovedBy, op_at};

/// What leads to a condition, as the report's column LIFT has it.
pub fn lift_text(alloc: Global, op: Option<&Op>) -> Result<String, AllocError> {
    let Some(op) = op else {
        return String::from_str(alloc, "-");
    };
    match op {
        Op::Lift(Lift::Load(item)) => {
            let cell = cell_text(alloc, item.cell)?;
            Ok(format!(in alloc; "L{cell}")?)
        }
        Op::Lift(Lift::Discharge { cell, .. }) => {
            let cell = cell_text(alloc, *cell)?;
            Ok(format!(in alloc; "D{cell}")?)
        }
        Op::Fill { name, .. } => {
            let name = shown_word(alloc, name.as_slice())?;
            Ok(format!(in alloc; "T{name}")?)
        }
        Op::Restow { from, to, .. } => {
            let from = cell_text(alloc, *from)?;
            let to = cell_text(alloc, *to)?;
            Ok(format!(in alloc; "R{from}>{to}")?)
        }
    }
}

/// What leads to the condition of a step of a case.
pub fn lift_at(alloc: Global, case: Case<'_>, step: u32) -> Result<String, AllocError> {
    lift_text(alloc, op_at(case, step))
}

/// A cell in words.
fn cell_words(alloc: Global, cell: Cell) -> Result<String, AllocError> {
    let Cell { bay, row, tier } = cell;
    let text = format!(in alloc; "bay {bay:03} row {row:02} tier {tier:02}")?;
    Ok(text)
}

/// The container that a step moves in words, with its mass.
fn container_words(
    alloc: Global,
    case: Case<'_>,
    moved: &MovedBy,
    step: u32,
) -> Result<String, AllocError> {
    let Some(item) = moved.item(case, step as usize) else {
        return String::from_str(alloc, "a container");
    };
    let tonnes = in_thousandths(alloc, i128::from(item.kg.get()))?;
    let name = if item.id.is_empty() {
        String::from_str(alloc, "a container without identification")?
    } else {
        shown_word(alloc, item.id.as_slice())?
    };
    let text = format!(in alloc; "{name}, {tonnes} t")?;
    Ok(text)
}

/// What a filling does: what the tank holds from now on, and what it held before.
fn fill_words(
    alloc: Global,
    case: Case<'_>,
    step: u32,
    name: &[u8],
    kg: u32,
) -> Result<String, AllocError> {
    let name = shown_line(alloc, name)?;
    let now = in_thousandths(alloc, i128::from(kg))?;
    let before = in_thousandths(alloc, i128::from(mass_out(case, step)))?;
    let text = format!(in alloc; "tank {name} holds {now} t, before it {before} t")?;
    Ok(text)
}

/// The mass in kg that a step takes out of a place: 0 where it takes none.
pub fn mass_out(case: Case<'_>, step: u32) -> u32 {
    let step = step as usize;
    if step < 1 || case.sequence.len() < step {
        return 0;
    }
    match case.sequence.step(step).out {
        Some(body) => body.kg(),
        None => 0,
    }
}

/// What the step of a number does, 0 being the condition on arrival.
pub fn deed(alloc: Global, case: Case<'_>, step: u32) -> Result<String, AllocError> {
    deed_by(alloc, case, &MovedBy::new(alloc, case)?, step)
}

/// Which way a container goes through a cell.
#[derive(Clone, Copy)]
enum Way {
    Into,
    From,
    /// From there into this one.
    FromTo(Cell),
}

/// What becomes of a container.
fn way_words(alloc: Global, what: &str, cell: Cell, way: Way) -> Result<String, AllocError> {
    let cell = cell_words(alloc, cell)?;
    Ok(match way {
        Way::Into => format!(in alloc; "loads {what}, into {cell}")?,
        Way::From => format!(in alloc; "discharges {what}, from {cell}")?,
        Way::FromTo(to) => {
            let to = cell_words(alloc, to)?;
            format!(in alloc; "restows {what}, from {cell} to {to}")?
        }
    })
}

/// What the step of a number does, where it is known which container each step moves.
pub fn deed_by(
    alloc: Global,
    case: Case<'_>,
    moved: &MovedBy,
    step: u32,
) -> Result<String, AllocError> {
    let Some(op) = op_at(case, step) else {
        return String::from_str(alloc, "the condition on arrival");
    };
    let (way, cell) = match op {
        Op::Fill { name, kg } => return fill_words(alloc, case, step, name.as_slice(), *kg),
        Op::Lift(Lift::Load(item)) => (Way::Into, item.cell),
        Op::Lift(Lift::Discharge { cell, .. }) => (Way::From, *cell),
        Op::Restow { from, to, .. } => (Way::FromTo(*to), *from),
    };
    let what = container_words(alloc, case, moved, step)?;
    way_words(alloc, what.as_str(), cell, way)
}
