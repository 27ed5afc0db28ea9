//! What leads to a condition, and which criteria it doesn't meet: words of a line.
use crate::forms::{Form, add_csv_text, add_json_text};
use crate::judged::Judged;
use crate::moved::MovedBy;
use decimal_text::FourDigits;
use lift_sequence::Op;
use port_call::Case;
use std::alloc::AllocError;
use std::fmt::Write;
use stow_messages::Lift;
use units_core::Cell;
use worst_values::{Unmet, criterion_at};

/// What the lines of a table are made of.
#[derive(Drop)]
pub struct Source {
    pub form: Form,
    pub moved: MovedBy,
    /// For each step the number of its lift in the movement instruction, if it is one.
    pub lifts: Vec<Option<u32>>,
    pub digits: FourDigits,
}

/// Adds a cell in its seven digits.
fn add_cell(text: &mut String, cell: Cell) -> Result<(), AllocError> {
    let Cell { bay, row, tier } = cell;
    write!(text, "{bay:03}{row:02}{tier:02}")
}

/// The word for what a step does.
fn op_word(op: &Op) -> &'static str {
    match op {
        Op::Lift(Lift::Load(_)) => "load",
        Op::Lift(Lift::Discharge { .. }) => "discharge",
        Op::Fill { .. } => "fill",
        Op::Restow { .. } => "restow",
    }
}

/// The cells of a step.
fn cells_of(op: &Op) -> (Option<Cell>, Option<Cell>) {
    match op {
        Op::Lift(Lift::Load(item)) => (Some(item.cell), None),
        Op::Lift(Lift::Discharge { cell, .. }) => (Some(*cell), None),
        Op::Restow { from, to, .. } => (Some(*from), Some(*to)),
        Op::Fill { .. } => (None, None),
    }
}

/// Adds a cell of CSV, if there is one, and a comma.
fn add_csv_cell(text: &mut String, cell: Option<Cell>) -> Result<(), AllocError> {
    if let Some(cell) = cell {
        add_cell(text, cell)?;
    }
    text.push(',')
}

/// The number of the lift of a step, if it is one.
fn lift_of(source: &Source, step: usize) -> Option<u32> {
    *source.lifts.get(step.checked_sub(1)?)?
}

/// Adds what a step does, in CSV.
fn add_csv_step(
    text: &mut String,
    source: &Source,
    case: Case<'_>,
    step: usize,
    op: &Op,
) -> Result<(), AllocError> {
    let word = op_word(op);
    write!(text, "{word},")?;
    let (cell, to) = cells_of(op);
    add_csv_cell(text, cell)?;
    add_csv_cell(text, to)?;
    if let Op::Fill { name, kg } = op {
        add_csv_text(text, name.as_slice())?;
        return write!(text, ",,{kg},");
    }
    text.push(',')?;
    match source.moved.item(case, step) {
        Some(item) => {
            add_csv_text(text, item.id.as_slice())?;
            let kg = item.kg.get();
            write!(text, ",{kg},")?;
        }
        None => text.push_str(",,")?,
    }
    match lift_of(source, step) {
        Some(lift) => write!(text, "{lift}"),
        None => Ok(()),
    }
}

/// Adds a cell of JSON behind its key, if there is one.
fn add_json_cell(text: &mut String, key: &str, cell: Option<Cell>) -> Result<(), AllocError> {
    if let Some(cell) = cell {
        write!(text, ",\"{key}\":\"")?;
        add_cell(text, cell)?;
        text.push('"')?;
    }
    Ok(())
}

/// Adds what a step does, in JSON.
fn add_json_step(
    text: &mut String,
    source: &Source,
    case: Case<'_>,
    step: usize,
    op: &Op,
) -> Result<(), AllocError> {
    let word = op_word(op);
    write!(text, "\"op\":\"{word}\"")?;
    let (cell, to) = cells_of(op);
    add_json_cell(text, "cell", cell)?;
    add_json_cell(text, "to", to)?;
    if let Op::Fill { name, kg } = op {
        text.push_str(",\"tank\":")?;
        add_json_text(text, name.as_slice())?;
        return write!(text, ",\"mass_kg\":{kg}");
    }
    if let Some(item) = source.moved.item(case, step) {
        text.push_str(",\"id\":")?;
        add_json_text(text, item.id.as_slice())?;
        let kg = item.kg.get();
        write!(text, ",\"mass_kg\":{kg}")?;
    }
    match lift_of(source, step) {
        Some(lift) => write!(text, ",\"lift\":{lift}"),
        None => Ok(()),
    }
}

/// The step that leads to the condition of line `k`; none leads to that on arrival, which is of
/// line 0, and none to a line behind the last.
pub fn op_at<'a>(case: Case<'a>, k: u32) -> Option<&'a Op> {
    case.sequence.ops().get((k as usize).checked_sub(1)?)
}

/// Adds what leads to the condition of line `k`.
pub fn add_step(
    text: &mut String,
    source: &Source,
    case: Case<'_>,
    k: u32,
) -> Result<(), AllocError> {
    match (op_at(case, k), source.form) {
        (Some(op), Form::Csv) => add_csv_step(text, source, case, k as usize, op),
        (Some(op), Form::Jsonl) => add_json_step(text, source, case, k as usize, op),
        (None, Form::Csv) => text.push_str("arrival,,,,,,"),
        (None, Form::Jsonl) => text.push_str("\"op\":\"arrival\""),
    }
}

/// Adds the codes of the criteria that aren't met, each between two texts, parted by a third.
fn add_codes(
    text: &mut String,
    unmet: &Unmet,
    quote: &str,
    between: &str,
) -> Result<(), AllocError> {
    let mut is_first = true;
    for at in 0..12usize {
        if unmet[at] {
            if !is_first {
                text.push_str(between)?;
            }
            let code = criterion_at(at).code();
            write!(text, "{quote}{code}{quote}")?;
            is_first = false;
        }
    }
    Ok(())
}

/// Adds what stands behind the verdict of a condition: the criteria that it doesn't meet, and the
/// end of the line.
pub fn add_others(text: &mut String, form: Form, judged: &Judged) -> Result<(), AllocError> {
    match (form, judged.first) {
        (Form::Csv, Ok(Some(_))) => {
            add_codes(text, &judged.unmet, "", " ")?;
            text.push_str(",\n")
        }
        (Form::Csv, _) => text.push('\n'),
        (Form::Jsonl, Ok(Some(_))) => {
            text.push_str(",\"fails\":[")?;
            add_codes(text, &judged.unmet, "\"", ",")?;
            text.push_str("]}\n")
        }
        (Form::Jsonl, Ok(None)) => text.push_str("}\n"),
        (Form::Jsonl, Err(_)) => text.push_str(",\"fails\":[\"C0\"]}\n"),
    }
}
