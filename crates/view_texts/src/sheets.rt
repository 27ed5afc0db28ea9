//! The sheet of one condition: what leads to it, how the ship floats, each limit with its margin,
//! and the loads at each frame.
use crate::rows::{NO_LEAST_GM, RowText, add_row, outside_row, percent_text, row_text};
use crate::steps::{deed, lift_at};
use criteria::Criterion;
use hydrostat::Outside;
use plain_text::{add_line, add_wrapped, in_hundredths, in_tenths, in_thousandths};
use port_call::Case;
use seq_report::cause_word;
use std::alloc::{AllocError, Global};
use std::cmp::Ordering;
use view_figures::{Condition, Figures, Floating, FrameRow, Inside, Missed, Row};
use worst_values::{Limit, Unmet, criterion_at};

/// The heading of the table of one condition.
const HEADING: &str = "    CRITERION            VALUE    LIMIT   MARGIN  USED";

/// The heading of the loads.
const FRAMES: &str = "FRAME       x, m   shear, t    limit  used   bending, t m      limit  used";

/// The rows of a condition, in words.
pub fn condition_rows(alloc: Global, condition: &Condition) -> Result<Vec<RowText>, AllocError> {
    let mut rows = Vec::new(alloc);
    match &condition.told {
        Ok(inside) => {
            for row in &inside.rows {
                if let Some(row) = row {
                    rows.push(row_text(alloc, row, condition.step)?)?;
                }
            }
        }
        Err(missed) => rows.push(outside_row(alloc, missed.cause, condition.step)?)?,
    }
    Ok(rows)
}

/// Why a condition has no figures, in words.
fn cause_words(cause: Outside) -> &'static str {
    match cause {
        Outside::Hydro => "the displacement lies outside of hydro.csv",
        Outside::Levers => "the displacement lies outside of kn.csv",
        Outside::Bonjean => "a draught lies outside of bonjean.csv",
        Outside::Closing => "the closing error is beyond closing_max_kg",
        Outside::GmLimit => "the displacement lies outside of gm.csv",
    }
}

/// Adds what is told of a condition outside of the tables.
fn add_missed(
    alloc: Global,
    text: &mut String,
    kg: i128,
    missed: &Missed,
) -> Result<(), AllocError> {
    let tonnes = in_thousandths(alloc, kg)?;
    let cause = cause_word(missed.cause);
    let words = cause_words(missed.cause);
    write!(text, "displacement {tonnes} t: OUTSIDE {cause}\n")?;
    write!(text, "{words}; there is no other figure\n")?;
    text.push_str("VERDICT FAIL C0\n")
}

/// The row of a limit, of a condition within the tables.
pub fn row_by(inside: &Inside, limit: Limit) -> Option<&Row> {
    for row in &inside.rows {
        if let Some(row) = row {
            if row.limit == limit {
                return Some(row);
            }
        }
    }
    None
}

/// The trim in words.
fn trim_words(alloc: Global, inside: &Inside) -> Result<String, AllocError> {
    let Some(row) = row_by(inside, Limit::Trim) else {
        return Ok(String::new(alloc));
    };
    let value = row_text(alloc, row, 0)?.value;
    let side = match row.side {
        Ordering::Greater => " by the stern",
        Ordering::Less => " by the head",
        Ordering::Equal => "",
    };
    Ok(format!(in alloc; "{value} m{side}")?)
}

/// The list in words.
fn list_words(alloc: Global, inside: &Inside) -> Result<String, AllocError> {
    let Some(row) = row_by(inside, Limit::List) else {
        return Ok(String::new(alloc));
    };
    if let Figures::NoList(_) = row.figures {
        return String::from_str(alloc, "none, GM <= 0");
    }
    let value = row_text(alloc, row, 0)?.value;
    let side = match row.side {
        Ordering::Greater => " to starboard",
        Ordering::Less => " to port",
        Ordering::Equal => "",
    };
    Ok(format!(in alloc; "{value} deg{side}")?)
}

/// Adds the displacement and the draughts.
fn add_draughts(
    alloc: Global,
    text: &mut String,
    kg: i128,
    floating: &Floating,
) -> Result<(), AllocError> {
    let tonnes = in_thousandths(alloc, kg)?;
    let aft = in_thousandths(alloc, floating.aft)?;
    let mean = in_thousandths(alloc, floating.mean)?;
    let fwd = in_thousandths(alloc, floating.fwd)?;
    write!(
        text,
        "displacement {tonnes} t  draughts, m: aft {aft}  mean {mean}  fwd {fwd}\n"
    )
}

/// Adds the heights above the keel that make the metacentric height.
fn add_heights(alloc: Global, text: &mut String, floating: &Floating) -> Result<(), AllocError> {
    let solid = in_thousandths(alloc, floating.kg_solid)?;
    let surfaces = in_thousandths(alloc, floating.surfaces)?;
    let height = in_thousandths(alloc, floating.kg)?;
    write!(text, "KG {solid} + {surfaces} free surfaces = {height}  ")?;
    let kmt = in_thousandths(alloc, floating.kmt)?;
    let gm = in_thousandths(alloc, floating.gm)?;
    write!(text, "KMT {kmt}  GM {gm} m\n")
}

/// Adds how the ship floats.
fn add_floating(
    alloc: Global,
    text: &mut String,
    kg: i128,
    inside: &Inside,
) -> Result<(), AllocError> {
    add_draughts(alloc, text, kg, &inside.floating)?;
    let trim = trim_words(alloc, inside)?;
    let list = list_words(alloc, inside)?;
    write!(text, "trim {trim}  list {list}\n")?;
    add_heights(alloc, text, &inside.floating)
}

/// Adds the righting levers, in hundredths of a metre.
fn add_levers(alloc: Global, text: &mut String, levers: &[i128; 13]) -> Result<(), AllocError> {
    text.push_str("righting levers, m, at degrees of heel:\n  ")?;
    for at in 0..13u32 {
        let degrees = 5 * at;
        write!(text, "{degrees:>6}")?;
    }
    text.push_str("\n  ")?;
    for lever in levers {
        let lever = in_hundredths(alloc, lever.div_euclid(10))?;
        let lever = lever.as_str();
        write!(text, "{lever:>6}")?;
    }
    text.push_str("\n")
}

/// A load with its sign and its limit, in tenths.
pub fn load_texts(alloc: Global, row: &Row) -> Result<(String, String), AllocError> {
    let Figures::Reading(reading) = row.figures else {
        return Ok((String::new(alloc), String::new(alloc)));
    };
    let size = in_tenths(alloc, reading.value)?;
    let sign = if row.side == Ordering::Less { "-" } else { "" };
    let load = format!(in alloc; "{sign}{size}")?;
    let limit = in_tenths(alloc, reading.limit)?;
    Ok((load, limit))
}

/// Adds the loads at a frame.
fn add_frame(
    alloc: Global,
    text: &mut String,
    number: u32,
    frame: &FrameRow,
) -> Result<(), AllocError> {
    let x = in_thousandths(alloc, i128::from(frame.x))?;
    let (shear, shear_max) = load_texts(alloc, &frame.shear)?;
    let (bending, bending_max) = load_texts(alloc, &frame.bending)?;
    let shear_used = percent_text(alloc, &frame.shear.used)?;
    let bending_used = percent_text(alloc, &frame.bending.used)?;
    let x = x.as_str();
    let shear = shear.as_str();
    let shear_max = shear_max.as_str();
    let shear_used = shear_used.as_str();
    let bending = bending.as_str();
    let bending_max = bending_max.as_str();
    let bending_used = bending_used.as_str();
    write!(
        text,
        "fr {number:<4}{x:>9}{shear:>11}{shear_max:>9}{shear_used:>6}"
    )?;
    write!(text, "{bending:>15}{bending_max:>11}{bending_used:>6}")?;
    if !frame.shear.is_kept || !frame.bending.is_kept {
        text.push_str(" !")?;
    }
    text.push_str("\n")
}

/// The first criterion that a condition doesn't meet.
pub fn first_unmet(unmet: &Unmet) -> Option<Criterion> {
    for at in 0..12usize {
        if unmet[at] {
            return Some(criterion_at(at));
        }
    }
    None
}

/// The codes of the criteria that a condition doesn't meet, parted by commas.
pub fn unmet_words(alloc: Global, unmet: &Unmet) -> Result<String, AllocError> {
    let mut text = String::new(alloc);
    for at in 0..12usize {
        if unmet[at] {
            if !text.is_empty() {
                text.push_str(", ")?;
            }
            text.push_str(criterion_at(at).code())?;
        }
    }
    Ok(text)
}

/// Adds the frames of a condition within the tables.
fn add_frames(alloc: Global, text: &mut String, inside: &Inside) -> Result<(), AllocError> {
    add_line(text, FRAMES)?;
    let mut number = 0u32;
    for frame in &inside.frames {
        if let Some(frame) = frame {
            number = number.saturating_add(1);
            add_frame(alloc, text, number, frame)?;
        }
    }
    Ok(())
}

/// Adds whether a condition within the tables passes, and if not, by which criteria.
fn add_verdict(alloc: Global, text: &mut String, inside: &Inside) -> Result<(), AllocError> {
    let unmet = unmet_words(alloc, &inside.unmet)?;
    if unmet.is_empty() {
        text.push_str("VERDICT PASS\n")
    } else {
        write!(text, "VERDICT FAIL {unmet}\n")
    }
}

/// Adds what is told of a condition within the tables.
fn add_inside(
    alloc: Global,
    text: &mut String,
    condition: &Condition,
    inside: &Inside,
) -> Result<(), AllocError> {
    add_floating(alloc, text, condition.kg, inside)?;
    add_levers(alloc, text, &inside.levers)?;
    add_line(text, HEADING)?;
    for row in &condition_rows(alloc, condition)? {
        add_row(alloc, text, row)?;
    }
    if row_by(inside, Limit::LeastGm).is_none() {
        add_line(text, NO_LEAST_GM)?;
    }
    add_frames(alloc, text, inside)?;
    add_verdict(alloc, text, inside)
}

/// Adds the sheet of a condition of a case.
pub fn add_sheet(
    alloc: Global,
    text: &mut String,
    case: Case<'_>,
    condition: &Condition,
) -> Result<(), AllocError> {
    let step = condition.step;
    let lift = lift_at(alloc, case, step)?;
    write!(text, "CONDITION {step} {lift}\n")?;
    if step > 0 {
        add_wrapped(text, deed(alloc, case, step)?.as_str(), 0)?;
    }
    match &condition.told {
        Ok(inside) => add_inside(alloc, text, condition, inside),
        Err(missed) => add_missed(alloc, text, condition.kg, missed),
    }
}
