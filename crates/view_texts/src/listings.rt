//! Conditions in a list, a line for each.
use crate::rows::row_text;
use crate::sheets::{first_unmet, row_by};
use crate::steps::lift_at;
use criteria::Criterion;
use lift_sequence::Op;
use plain_text::{add_line, front, in_thousandths, shown_word};
use port_call::Case;
use seq_report::{Lines, cause_word};
use std::alloc::{AllocError, Global};
use std::cmp::Ordering;
use view_figures::{Condition, Figures, Inside, condition_at};
use view_table::{MovedBy, op_at};
use worst_values::Limit;

/// The heading of a list.
const HEADING: &str = "  STEP LIFT             CONTAINER           t     GM     LIST    AFT    FWD";

/// The greatest length of an identification in a list.
const ID: usize = 12;

/// What a step moves: the container's identification, and the mass in t; of a filling the mass that
/// the tank holds from then on.
fn moved_texts(
    alloc: Global,
    case: Case<'_>,
    moved: &MovedBy,
    step: u32,
) -> Result<(String, String), AllocError> {
    let nothing = (String::new(alloc), String::new(alloc));
    if let Some(Op::Fill { kg, .. }) = op_at(case, step) {
        let tonnes = in_thousandths(alloc, i128::from(*kg))?;
        return Ok((String::new(alloc), tonnes));
    }
    let Some(item) = moved.item(case, step as usize) else {
        return Ok(nothing);
    };
    let id = shown_word(alloc, item.id.as_slice())?;
    let id = front(alloc, id.as_str(), ID)?;
    let tonnes = in_thousandths(alloc, i128::from(item.kg.get()))?;
    Ok((id, tonnes))
}

/// The list in degrees, with its side.
fn list_text(alloc: Global, inside: &Inside) -> Result<String, AllocError> {
    let Some(row) = row_by(inside, Limit::List) else {
        return String::from_str(alloc, "-");
    };
    if let Figures::NoList(_) = row.figures {
        return String::from_str(alloc, "-");
    }
    let value = row_text(alloc, row, 0)?.value;
    let side = match row.side {
        Ordering::Greater => " S",
        Ordering::Less => " P",
        Ordering::Equal => "",
    };
    Ok(format!(in alloc; "{value}{side}")?)
}

/// How the ship floats at a condition.
fn floating_text(alloc: Global, inside: &Inside) -> Result<String, AllocError> {
    let floating = &inside.floating;
    let gm = in_thousandths(alloc, floating.gm)?;
    let list = list_text(alloc, inside)?;
    let aft = in_thousandths(alloc, floating.aft)?;
    let fwd = in_thousandths(alloc, floating.fwd)?;
    let gm = gm.as_str();
    let list = list.as_str();
    let aft = aft.as_str();
    let fwd = fwd.as_str();
    let text = format!(in alloc; "{gm:>7}{list:>9}{aft:>7}{fwd:>7}")?;
    Ok(text)
}

/// What is told of a condition in a list, and the first criterion that it doesn't meet.
fn condition_text(
    alloc: Global,
    condition: &Condition,
) -> Result<(String, Option<Criterion>), AllocError> {
    match &condition.told {
        Ok(inside) => Ok((floating_text(alloc, inside)?, first_unmet(&inside.unmet))),
        Err(missed) => {
            let cause = cause_word(missed.cause);
            let text = format!(in alloc; "  OUTSIDE {cause}")?;
            Ok((text, Some(Criterion::C0)))
        }
    }
}

/// Adds the line of a condition.
fn add_condition(
    alloc: Global,
    text: &mut String,
    case: Case<'_>,
    moved: &MovedBy,
    condition: &Condition,
) -> Result<(), AllocError> {
    let step = condition.step;
    let lift = lift_at(alloc, case, step)?;
    let (id, tonnes) = moved_texts(alloc, case, moved, step)?;
    let (figures, unmet) = condition_text(alloc, condition)?;
    let code = match unmet {
        Some(criterion) => criterion.code(),
        None => "",
    };
    let lift = lift.as_str();
    let id = id.as_str();
    let tonnes = tonnes.as_str();
    let figures = figures.as_str();
    let line = format!(in alloc; "{step:>6} {lift:<17}{id:<12}{tonnes:>9}{figures} {code}")?;
    add_line(text, line.as_str())
}

/// The conditions from one step to another in a list: for each its step, what is moved, how the
/// ship floats, and the first criterion that it doesn't meet. Lengths are in m, masses in t, the
/// list in degrees.
pub fn listing(alloc: Global, lines: &Lines<'_>, from: u32, to: u32) -> Result<String, AllocError> {
    let case = lines.case;
    let moved = MovedBy::new(alloc, case)?;
    let mut text = String::new(alloc);
    add_line(&mut text, HEADING)?;
    for step in from..=to {
        if let Some(condition) = condition_at(lines, step) {
            add_condition(alloc, &mut text, case, &moved, &condition)?;
        }
    }
    Ok(text)
}
