//! What is told of an edit that is refused.
use crate::refused_cargo::{refused_place, since_words};
use lift_sequence::{Op, SeqCode, SeqFault};
use plain_text::{count_of, in_thousandths, shown_line, shown_word};
use port_call::Case;
use std::alloc::{AllocError, Global};
use step_edits::{Edit, EditFault, edit_list, fault_of};
use stow_messages::{Item, Lift};
use units_core::Cell;
use view_inputs::{cell_text, tanks_in};
use view_quotes::stands;

/// The numbers of the steps that an edit names, the first of them twice where it is the only one.
fn numbers_in(edit: &Edit) -> (u32, u32) {
    match edit {
        Edit::Swap { a, b } => (*a, *b),
        Edit::Move { from, to } => (*from, *to),
        Edit::Remove { at } | Edit::Insert { at, .. } | Edit::Reweigh { at, .. } => (*at, *at),
    }
}

/// That the list hasn't a step which an edit names.
fn no_step_words(alloc: Global, ops: &[Op], edit: &Edit) -> Result<String, AllocError> {
    let steps = count_of(ops.len());
    let last = match edit {
        Edit::Insert { .. } => steps.saturating_add(1),
        _ => steps,
    };
    let (one, other) = numbers_in(edit);
    let missing = if (1..=last).contains(&one) {
        other
    } else {
        one
    };
    let text = format!(in alloc; "there is no step {missing}; the list has steps 1 to {steps}")?;
    Ok(text)
}

/// The name of a container in a sentence.
fn name_in_words(alloc: Global, id: &[u8]) -> Result<String, AllocError> {
    if id.is_empty() {
        String::from_str(alloc, "a container")
    } else {
        shown_word(alloc, id)
    }
}

/// Who stands in a cell after these steps.
fn standing_words(
    alloc: Global,
    items: &[Item],
    before: &[Op],
    cell: Cell,
) -> Result<String, AllocError> {
    let Some(standing) = stands(items, before, cell) else {
        return Ok(String::new(alloc));
    };
    let cell = cell_text(alloc, cell)?;
    let name = name_in_words(alloc, standing.item.id.as_slice())?;
    let since = since_words(alloc, standing.since)?;
    let text = format!(in alloc; "In {cell} stands {name}, {since}.")?;
    Ok(text)
}

/// Leaves a cell out of some cells.
fn leave_out(cells: &mut Vec<Cell>, cell: Cell) -> bool {
    for place in 0..cells.len() {
        if cells.get(place) == Some(&cell) {
            let _ = cells.remove(place);
            return true;
        }
    }
    false
}

/// The cell in which a container of an identification stands after these steps; of several that of
/// the one that is there for the longest time.
fn cell_with(
    alloc: Global,
    items: &[Item],
    before: &[Op],
    id: &[u8],
) -> Result<Option<Cell>, AllocError> {
    let mut cells = Vec::new(alloc);
    for item in items {
        if item.id.as_slice() == id {
            cells.push(item.cell)?;
        }
    }
    for op in before {
        match op {
            Op::Lift(Lift::Load(item)) => {
                if item.id.as_slice() == id {
                    cells.push(item.cell)?;
                }
            }
            Op::Lift(Lift::Discharge { cell, .. }) => {
                let _ = leave_out(&mut cells, *cell);
            }
            Op::Restow { from, to, .. } => {
                if leave_out(&mut cells, *from) {
                    cells.push(*to)?;
                }
            }
            Op::Fill { .. } => {}
        }
    }
    Ok(cells.first().copied())
}

/// That nothing stands in a cell, and where the container stands that was meant.
fn empty_words(
    alloc: Global,
    items: &[Item],
    before: &[Op],
    cell: Cell,
    id: &[u8],
) -> Result<String, AllocError> {
    let name = cell_text(alloc, cell)?;
    let mut text = format!(in alloc; "Nothing stands in {name}.")?;
    if id.is_empty() {
        return Ok(text);
    }
    if let Some(other) = cell_with(alloc, items, before, id)? {
        let id = shown_word(alloc, id)?;
        let other = cell_text(alloc, other)?;
        write!(text, " {id} stands in {other}.")?;
    }
    Ok(text)
}

/// What the ship has for a filling that can't be done.
fn tank_words(alloc: Global, tanks: &[u8], name: &[u8]) -> Result<String, AllocError> {
    let shown = shown_line(alloc, name)?;
    for tank in &tanks_in(alloc, tanks)? {
        if tank.name.as_slice() == name {
            let (least, most) = tank.reach();
            let least = in_thousandths(alloc, i128::from(least))?;
            let most = in_thousandths(alloc, i128::from(most))?;
            let text = format!(in alloc; "Tank {shown} holds from {least} to {most} t.")?;
            return Ok(text);
        }
    }
    let text = format!(in alloc; "She has no tank {shown}.")?;
    Ok(text)
}

/// What the ship has where a step can't be done.
fn here_words(
    alloc: Global,
    items: &[Item],
    before: &[Op],
    op: &Op,
    code: SeqCode,
) -> Result<String, AllocError> {
    let Some((cell, id)) = refused_place(items, before, op) else {
        return Ok(String::new(alloc));
    };
    match code {
        SeqCode::UnknownCell => {
            let name = cell_text(alloc, cell)?;
            Ok(format!(in alloc; "She has no cell {name}.")?)
        }
        SeqCode::CellEmpty => empty_words(alloc, items, before, cell, id),
        SeqCode::Overlap(rival) => standing_words(alloc, items, before, rival),
        _ => standing_words(alloc, items, before, cell),
    }
}

/// Which step of an edited list can't be done, and what the ship has there.
fn undone_words(
    alloc: Global,
    tanks: &[u8],
    items: &[Item],
    ops: &[Op],
    fault: SeqFault,
) -> Result<String, AllocError> {
    let step = fault.at;
    let code = fault.code;
    if code == SeqCode::TooManySteps {
        return String::from_str(alloc, "a list has at most 120,000 steps");
    }
    let place = (step as usize).wrapping_sub(1);
    let before = ops.get(..place).unwrap_or(&[]);
    let here = match ops.get(place) {
        Some(Op::Fill { name, .. }) => tank_words(alloc, tanks, name.as_slice())?,
        Some(op) => here_words(alloc, items, before, op, code)?,
        None => String::new(alloc),
    };
    let text = format!(in alloc; "step {step} can't be done ({code}): {here}")?;
    Ok(text)
}

/// Why an edit of the steps of a case is refused, in words. `tanks` is the text of the ship's
/// tanks.csv, and `lift` what the step that the edit names does, as the report's column LIFT has
/// it.
pub fn edit_refusal(
    alloc: Global,
    tanks: &[u8],
    case: Case<'_>,
    edit: &Edit,
    fault: EditFault,
    lift: &str,
) -> Result<String, AllocError> {
    let ops = case.sequence.ops();
    match fault {
        EditFault::NoMemory => Err(AllocError),
        EditFault::NoStep => no_step_words(alloc, ops, edit),
        EditFault::NotLoad => {
            let (step, _) = numbers_in(edit);
            Ok(format!(in alloc; "step {step} is no load: {lift}")?)
        }
        EditFault::Sequence(fault) => {
            if fault_of(ops, edit).is_some() {
                return Ok(String::new(alloc));
            }
            let list = edit_list(alloc, ops, edit)?;
            undone_words(alloc, tanks, case.arrival.items(), list.as_slice(), fault)
        }
    }
}

/// The step that an edit names first.
pub fn first_named(edit: &Edit) -> u32 {
    let (step, _) = numbers_in(edit);
    step
}
