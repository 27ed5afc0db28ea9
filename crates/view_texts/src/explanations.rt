//! The first condition that fails, in words: what fails, where, by how much, what is missing, and
//! what to do.
use crate::advice::{Advice, NO_LIST, advice_on, advice_outside};
use crate::rows::{RowText, tightest};
use crate::sheets::{add_sheet, condition_rows, row_by, unmet_words};
use crate::steps::{deed, lift_at};
use crate::summaries::worst_rows;
use crate::unmet::{lines_with, mark_of, runs_with};
use criteria::Criterion;
use hydrostat::Outside;
use plain_text::{add_paragraph, in_tenths, in_thousandths};
use port_call::{Case, Inputs};
use seq_report::Lines;
use ship_profile::Profile;
use std::alloc::{AllocError, Global};
use std::cmp::Ordering;
use view_figures::{Condition, Figures, Inside, Missed, condition_at};
use view_inputs::{StepPlace, place_of};
use worst_values::{Findings, Limit};

/// Whether the ship has no list in a condition.
fn has_no_list(inside: &Inside) -> bool {
    for row in &inside.rows {
        if let Some(row) = row {
            if let Figures::NoList(_) = row.figures {
                return true;
            }
        }
    }
    false
}

/// What the first criterion that a condition doesn't meet means.
fn advice_of(condition: &Condition, criterion: Criterion) -> Advice {
    match &condition.told {
        Err(missed) => advice_outside(missed.cause),
        Ok(inside) => {
            if criterion == Criterion::C7 && has_no_list(inside) {
                NO_LIST
            } else {
                advice_on(criterion)
            }
        }
    }
}

/// Where the inputs order a step, in brackets.
fn place_words(alloc: Global, place: StepPlace) -> Result<String, AllocError> {
    match (place.lift, place.record) {
        (Some((lift, segment)), _) => {
            Ok(format!(in alloc; " (lift {lift} of the instruction, segment {segment})")?)
        }
        (None, Some(record)) => Ok(format!(in alloc; " (steps file, record {record})")?),
        (None, None) => Ok(String::new(alloc)),
    }
}

/// The first and the last argument of a table, in tonnes, between which the displacement doesn't
/// lie.
fn reach_words(
    alloc: Global,
    kg: i128,
    file: &str,
    arguments: &[i128],
) -> Result<String, AllocError> {
    let tonnes = in_thousandths(alloc, kg)?;
    let least = in_thousandths(alloc, arguments.first().copied().unwrap_or(0))?;
    let most = in_thousandths(alloc, arguments.last().copied().unwrap_or(0))?;
    let text = format!(in alloc;
        "The displacement is {tonnes} t; {file} reaches from {least} to {most} t."
    )?;
    Ok(text)
}

/// The station outside of the Bonjean table, and how far that reaches.
fn station_words(alloc: Global, profile: &Profile, missed: &Missed) -> Result<String, AllocError> {
    let Some(station) = missed.station else {
        return Ok(String::new(alloc));
    };
    let x = in_thousandths(alloc, i128::from(station.x))?;
    let draught = in_thousandths(alloc, station.draught)?;
    let arguments = profile.bonjean().arguments();
    let least = in_thousandths(alloc, arguments.first().copied().unwrap_or(0))?;
    let most = in_thousandths(alloc, arguments.last().copied().unwrap_or(0))?;
    let text = format!(in alloc;
        "At x {x} m the draught is {draught} m; bonjean.csv reaches from {least} to {most} m."
    )?;
    Ok(text)
}

/// By how much the areas and the displacement differ.
fn closing_words(
    alloc: Global,
    profile: &Profile,
    kg: i128,
    error: i128,
) -> Result<String, AllocError> {
    let size = in_thousandths(
        alloc,
        if error < 0 {
            0i128.saturating_sub(error)
        } else {
            error
        },
    )?;
    let word = if error > 0 { "more" } else { "less" };
    let tonnes = in_thousandths(alloc, kg)?;
    let most = in_thousandths(alloc, i128::from(profile.closing_max()))?;
    let text = format!(in alloc;
        "The areas give {size} t {word} than the displacement of \
        {tonnes} t; closing_max_kg allows {most} t."
    )?;
    Ok(text)
}

/// What the ship has, of a condition outside of her tables.
fn missed_words(
    alloc: Global,
    profile: &Profile,
    kg: i128,
    missed: &Missed,
) -> Result<String, AllocError> {
    match missed.cause {
        Outside::Hydro => reach_words(alloc, kg, "hydro.csv", profile.hydro().kg()),
        Outside::Levers => reach_words(alloc, kg, "kn.csv", profile.levers().arguments()),
        Outside::GmLimit => match profile.least_gm() {
            Some(curves) => reach_words(alloc, kg, "gm.csv", curves.arguments()),
            None => Ok(String::new(alloc)),
        },
        Outside::Bonjean => station_words(alloc, profile, missed),
        Outside::Closing => closing_words(alloc, profile, kg, missed.closing),
    }
}

/// A row's value with its unit.
fn value_words(alloc: Global, row: &RowText) -> Result<String, AllocError> {
    let name = row.name.as_str();
    if row.unit.is_empty() {
        return String::from_str(alloc, name);
    }
    let value = row.value.as_str();
    let unit = row.unit;
    Ok(format!(in alloc; "{name} {value} {unit}")?)
}

/// The rows of a criterion that a condition doesn't meet, each with its limit and its margin.
fn failing_words(
    alloc: Global,
    rows: &[RowText],
    criterion: Criterion,
) -> Result<String, AllocError> {
    let mut text = String::new(alloc);
    for row in rows {
        if row.criterion == criterion && !row.is_kept {
            let between = if text.is_empty() { "" } else { "; " };
            let value = value_words(alloc, row)?;
            let limit = row.limit.as_str();
            write!(text, "{between}{value}, limit {limit}")?;
            if !row.unit.is_empty() {
                let margin = row.margin.as_str();
                write!(text, ", margin {margin}")?;
            }
        }
    }
    text.push_str(".")?;
    Ok(text)
}

/// Whether two rows tell the same of two conditions: of the list whichever side it is on.
fn are_alike(one: &RowText, other: &RowText) -> bool {
    if one.criterion != other.criterion || one.unit.is_empty() || other.unit.is_empty() {
        return false;
    }
    one.criterion == Criterion::C7 || one.name.as_str() == other.name.as_str()
}

/// The same rows of the condition before.
fn before_words(
    alloc: Global,
    rows: &[RowText],
    before: &[RowText],
    criterion: Criterion,
) -> Result<String, AllocError> {
    let mut text = String::new(alloc);
    for row in rows {
        if row.criterion == criterion && !row.is_kept {
            for other in before {
                if are_alike(row, other) {
                    let between = if text.is_empty() { "" } else { "; " };
                    let value = value_words(alloc, other)?;
                    write!(text, "{between}{value}")?;
                }
            }
        }
    }
    Ok(text)
}

/// What the ship has in a condition that fails within her tables, and had before.
fn inside_words(
    alloc: Global,
    lines: &Lines<'_>,
    condition: &Condition,
    criterion: Criterion,
) -> Result<String, AllocError> {
    let rows = condition_rows(alloc, condition)?;
    let mut text = failing_words(alloc, rows.as_slice(), criterion)?;
    let Some(step) = condition.step.checked_sub(1) else {
        return Ok(text);
    };
    let Some(before) = condition_at(lines, step) else {
        return Ok(text);
    };
    if before.told.is_err() {
        return Ok(text);
    }
    let earlier = condition_rows(alloc, &before)?;
    let words = before_words(alloc, rows.as_slice(), earlier.as_slice(), criterion)?;
    if !words.is_empty() {
        write!(text, " Before the step: {words}.")?;
    }
    Ok(text)
}

/// Adds where else the criterion fails worst.
fn add_worst(
    alloc: Global,
    text: &mut String,
    rows: &[RowText],
    criterion: Criterion,
    step: u32,
) -> Result<(), AllocError> {
    for row in rows {
        if row.criterion == criterion && !row.is_kept && row.step != step {
            let value = value_words(alloc, row)?;
            let at = row.step;
            return write!(text, " Worst: {value} at step {at}.");
        }
    }
    Ok(())
}

/// Adds which other criteria the condition doesn't meet.
fn add_others(
    alloc: Global,
    text: &mut String,
    inside: &Inside,
    criterion: Criterion,
) -> Result<(), AllocError> {
    let mut unmet = inside.unmet;
    unmet[mark_of(criterion)] = false;
    let others = unmet_words(alloc, &unmet)?;
    if others.is_empty() {
        return text.push_str(" At this step all other criteria hold.");
    }
    let verb = if others.as_str().contains(',') {
        "don't"
    } else {
        "doesn't"
    };
    write!(text, " At this step {others} {verb} hold either.")
}

/// At how many conditions a criterion fails.
fn count_words(
    alloc: Global,
    lines: &Lines<'_>,
    findings: &Findings,
    condition: &Condition,
    criterion: Criterion,
) -> Result<String, AllocError> {
    let mark = mark_of(criterion);
    let count = lines_with(&findings.unmet, mark);
    let conditions = lines.case.lines();
    let runs = runs_with(alloc, &findings.unmet, mark)?;
    let code = criterion.code();
    Ok(match &condition.told {
        Err(_) => format!(in alloc;
            "{count} of {conditions} conditions lie outside the tables: {runs}."
        )?,
        Ok(_) => format!(in alloc;
            "{code} doesn't hold at {count} of {conditions} conditions: {runs}."
        )?,
    })
}

/// At how many conditions a criterion fails, where it is worst, and what else fails here.
fn more_words(
    alloc: Global,
    lines: &Lines<'_>,
    findings: &Findings,
    condition: &Condition,
    criterion: Criterion,
) -> Result<String, AllocError> {
    let mut text = count_words(alloc, lines, findings, condition, criterion)?;
    if let Ok(inside) = &condition.told {
        let rows = worst_rows(alloc, lines, findings)?;
        add_worst(alloc, &mut text, rows.as_slice(), criterion, condition.step)?;
        add_others(alloc, &mut text, inside, criterion)?;
    }
    Ok(text)
}

/// What is missing to the limit of a list.
fn list_missing(alloc: Global, inside: &Inside) -> Result<String, AllocError> {
    let Some(row) = row_by(inside, Limit::List) else {
        return Ok(String::new(alloc));
    };
    if let Figures::NoList(_) = row.figures {
        return Ok(String::new(alloc));
    }
    let side = if row.side == Ordering::Less {
        "starboard"
    } else {
        "port"
    };
    let moment = in_tenths(alloc, inside.missing.to_list)?;
    let upright = in_tenths(alloc, inside.missing.upright)?;
    let text = format!(in alloc;
        "a moment of {moment} t m to {side} brings her to the limit, {upright} t m upright."
    )?;
    Ok(text)
}

/// By how much the centre of gravity is too high for a limit.
fn height_missing(
    alloc: Global,
    inside: &Inside,
    limit: Limit,
    moment: i128,
) -> Result<String, AllocError> {
    let Some(row) = row_by(inside, limit) else {
        return Ok(String::new(alloc));
    };
    let Figures::Reading(reading) = row.figures else {
        return Ok(String::new(alloc));
    };
    let height = in_thousandths(alloc, 0i128.saturating_sub(reading.margin))?;
    let moment = in_tenths(alloc, moment)?;
    Ok(format!(in alloc; "KG {height} m lower, that is {moment} t m.")?)
}

/// What is missing to the limit of trim.
fn trim_missing(alloc: Global, inside: &Inside) -> Result<String, AllocError> {
    let Some(row) = row_by(inside, Limit::Trim) else {
        return Ok(String::new(alloc));
    };
    if row.is_kept {
        return Ok(String::new(alloc));
    }
    let way = if row.side == Ordering::Greater {
        "forward"
    } else {
        "aft"
    };
    let moment = in_tenths(alloc, inside.missing.trim)?;
    let text = format!(in alloc;
        "a trimming moment of {moment} t m {way} brings her to the limit of trim."
    )?;
    Ok(text)
}

/// What is missing to the limit of a criterion, where a moment mends it.
fn need_words(
    alloc: Global,
    condition: &Condition,
    criterion: Criterion,
) -> Result<String, AllocError> {
    let Ok(inside) = &condition.told else {
        return Ok(String::new(alloc));
    };
    match criterion {
        Criterion::C1 => height_missing(alloc, inside, Limit::Gm, inside.missing.height),
        Criterion::C7 => list_missing(alloc, inside),
        Criterion::C8 => trim_missing(alloc, inside),
        Criterion::C11 => {
            height_missing(alloc, inside, Limit::LeastGm, inside.missing.own_height)
        }
        _ => Ok(String::new(alloc)),
    }
}

/// Where the condition is: the step, what it does, and where the inputs order it.
fn where_words(
    alloc: Global,
    case: Case<'_>,
    inputs: &Inputs<'_>,
    step: u32,
) -> Result<String, AllocError> {
    let last = case.lines().saturating_sub(1);
    let deed = deed(alloc, case, step)?;
    let place = if step == 0 {
        String::new(alloc)
    } else {
        place_words(alloc, place_of(alloc, inputs.movins, inputs.steps, step)?)?
    };
    Ok(format!(in alloc; "step {step} of {last}: {deed}{place}")?)
}

/// What a condition that fails has by a criterion, or how far it is outside of the tables.
fn here_words(
    alloc: Global,
    lines: &Lines<'_>,
    condition: &Condition,
    criterion: Criterion,
) -> Result<String, AllocError> {
    match &condition.told {
        Ok(_) => inside_words(alloc, lines, condition, criterion),
        Err(missed) => missed_words(alloc, lines.case.profile, condition.kg, missed),
    }
}

/// Adds a paragraph of words that are made for it. They go with the call, so that none are let go
/// of where a later one fails.
fn add_words(
    alloc: Global,
    text: &mut String,
    heading: &str,
    words: String,
) -> Result<(), AllocError> {
    add_paragraph(alloc, text, heading, words.as_str())
}

/// Adds the explanation of a condition that fails.
fn add_failure(
    alloc: Global,
    text: &mut String,
    lines: &Lines<'_>,
    findings: &Findings,
    inputs: &Inputs<'_>,
    condition: &Condition,
    criterion: Criterion,
) -> Result<(), AllocError> {
    let advice = advice_of(condition, criterion);
    add_paragraph(alloc, text, "WHAT", advice.what)?;
    let words = where_words(alloc, lines.case, inputs, condition.step)?;
    add_words(alloc, text, "WHERE", words)?;
    let words = here_words(alloc, lines, condition, criterion)?;
    add_words(alloc, text, "HERE", words)?;
    let words = more_words(alloc, lines, findings, condition, criterion)?;
    add_words(alloc, text, "MORE", words)?;
    let words = need_words(alloc, condition, criterion)?;
    add_words(alloc, text, "NEED", words)?;
    add_paragraph(alloc, text, "DO", advice.remedy)
}

/// Adds what is said where all conditions pass: the tightest of all, and its sheet.
fn add_pass(
    alloc: Global,
    text: &mut String,
    lines: &Lines<'_>,
    findings: &Findings,
) -> Result<(), AllocError> {
    let case = lines.case;
    let conditions = case.lines();
    let last = if case.profile.least_gm().is_some() {
        11
    } else {
        10
    };
    let what = format!(in alloc; "All {conditions} conditions meet C0 to C{last}.")?;
    add_paragraph(alloc, text, "WHAT", what.as_str())?;
    let rows = worst_rows(alloc, lines, findings)?;
    let Some(row) = tightest(rows.as_slice()) else {
        return Ok(());
    };
    let code = row.criterion.code();
    let value = value_words(alloc, row)?;
    let limit = row.limit.as_str();
    let step = row.step;
    let lift = lift_at(alloc, case, step)?;
    let here = format!(in alloc;
        "The tightest is {code}, {value} of {limit}, at step {step} {lift}."
    )?;
    add_paragraph(alloc, text, "HERE", here.as_str())?;
    text.push_str("\n")?;
    match condition_at(lines, step) {
        Some(condition) => add_sheet(alloc, text, case, &condition),
        None => Ok(()),
    }
}

/// What stands behind a report's last line: the explanation of the first condition that fails, with
/// its sheet; where all pass, the sheet of the condition that uses most of a limit.
pub fn explanation_of(
    alloc: Global,
    lines: &Lines<'_>,
    findings: &Findings,
    first: Option<(u32, Criterion)>,
    inputs: &Inputs<'_>,
) -> Result<String, AllocError> {
    let mut text = String::from_str(alloc, "\n")?;
    let Some((step, criterion)) = first else {
        add_pass(alloc, &mut text, lines, findings)?;
        return Ok(text);
    };
    let Some(condition) = condition_at(lines, step) else {
        return Ok(text);
    };
    add_failure(
        alloc, &mut text, lines, findings, inputs, &condition, criterion,
    )?;
    text.push_str("\n")?;
    add_sheet(alloc, &mut text, lines.case, &condition)?;
    Ok(text)
}
