//! The tables of a page.
use crate::escaping::add_escaped;
use crate::tight_steps::tight_steps;
use criteria::Criterion;
use plain_text::{count_of, in_thousandths};
use port_call::Case;
use seq_report::Lines;
use ship_profile::Profile;
use std::alloc::{AllocError, Global};
use units_core::{Frac, floor};
use view_curves::{Reaches, Tenths};
use view_figures::{FrameRow, condition_at, frame_rows, is_more};
use view_inputs::Notice;
use view_table::MovedBy;
use view_texts::{RowText, condition_rows, deed_by, lift_at, load_texts, percent_text, tightest};

/// How long a bar is at most, in tenths of a pixel; a limit that is used as a whole has 1,000.
const LONGEST: i128 = 1_300;

/// From here on a bar that keeps its limit has a colour of its own.
const CLOSE: i128 = 900;

/// A part of a limit in thousandths, rounded down, at most so many as the longest bar has.
fn bar_length(share: Option<Frac>) -> i128 {
    let Some(share) = share else {
        return LONGEST;
    };
    let whole = floor(share);
    if whole > 1 {
        return LONGEST;
    }
    let mut length = whole;
    let mut rest = share.num.saturating_sub(whole.saturating_mul(share.den));
    for _ in 0..3 {
        let tenfold = rest.saturating_mul(10);
        let digit = tenfold.div_euclid(share.den.max(1));
        length = length.saturating_mul(10).saturating_add(digit);
        rest = tenfold.saturating_sub(digit.saturating_mul(share.den));
    }
    length.min(LONGEST)
}

/// Adds the bar of a row: how much of its limit is used.
fn add_bar(text: &mut String, row: &RowText) -> Result<(), AllocError> {
    let length = bar_length(row.share);
    let colour = if !row.is_kept {
        "var(--bad)"
    } else if length >= CLOSE {
        "#b35900"
    } else {
        "var(--a)"
    };
    let width = Tenths(length);
    text.push_str("<svg viewBox=\"0 0 130 14\" aria-hidden=\"true\">")?;
    text.push_str("<rect width=\"100\" height=\"14\" y=\"0\" fill=\"#eef1f4\"/>")?;
    write!(
        text,
        "<rect width=\"{width}\" height=\"14\" fill=\"{colour}\"/>"
    )?;
    text.push_str("<line x1=\"100\" x2=\"100\" y1=\"0\" y2=\"14\" stroke=\"#15202b\"")?;
    text.push_str(" stroke-width=\"2\"/></svg>")
}

/// Adds a cell of a table, in which a text of an input stands.
fn add_cell(text: &mut String, class: &str, words: &str) -> Result<(), AllocError> {
    write!(text, "<td class=\"{class}\">")?;
    add_escaped(text, words)?;
    text.push_str("</td>")
}

/// Adds the beginning of a row, marked where a limit isn't kept.
fn add_start(text: &mut String, is_kept: bool) -> Result<(), AllocError> {
    text.push_str(if is_kept {
        "<tr>"
    } else {
        "<tr class=\"bad\">"
    })
}

/// Adds a row of the table of criteria.
fn add_criterion(
    alloc: Global,
    text: &mut String,
    case: Case<'_>,
    row: &RowText,
) -> Result<(), AllocError> {
    let code = row.criterion.code();
    let step = row.step;
    add_start(text, row.is_kept)?;
    write!(text, "<td>{code}</td>")?;
    add_cell(text, "w", row.name.as_str())?;
    add_cell(text, "n", row.value.as_str())?;
    add_cell(text, "n", row.limit.as_str())?;
    add_cell(text, "n", row.margin.as_str())?;
    add_cell(text, "w", row.unit)?;
    add_cell(text, "n", row.used.as_str())?;
    text.push_str("<td class=\"bar\">")?;
    if row.used.as_str() != "-" {
        add_bar(text, row)?;
    }
    write!(text, "</td><td class=\"n\">{step}</td>")?;
    add_cell(text, "w", lift_at(alloc, case, step)?.as_str())?;
    text.push_str("</tr>")
}

/// Adds the table of criteria: each at its worst.
pub fn add_criteria(
    alloc: Global,
    text: &mut String,
    case: Case<'_>,
    rows: &[RowText],
) -> Result<(), AllocError> {
    text.push_str("<h2>Each criterion at its worst</h2><table><thead><tr><th>Criterion</th>")?;
    text.push_str("<th></th><th class=\"n\">Worst</th><th class=\"n\">Limit</th>")?;
    text.push_str("<th class=\"n\">Margin</th><th></th><th class=\"n\">Used</th>")?;
    text.push_str("<th class=\"bar w\">of the limit</th><th class=\"n\">Step</th>")?;
    text.push_str("<th>Lift</th></tr></thead><tbody>")?;
    for row in rows {
        add_criterion(alloc, text, case, row)?;
    }
    if case.profile.least_gm().is_none() {
        text.push_str("<tr><td>C11</td><td colspan=\"9\">least GM by displacement: not judged, ")?;
        text.push_str("the ship has no gm.csv</td></tr>")?;
    }
    text.push_str("</tbody></table>")
}

/// Adds the row of a frame: the loads that use most of their limits, with their steps.
fn add_frame(
    alloc: Global,
    text: &mut String,
    number: u32,
    row: &FrameRow,
    steps: (u32, u32),
) -> Result<(), AllocError> {
    let (shear_step, bending_step) = steps;
    let x = in_thousandths(alloc, i128::from(row.x))?;
    let (shear, _) = load_texts(alloc, &row.shear)?;
    let (bending, _) = load_texts(alloc, &row.bending)?;
    add_start(text, row.shear.is_kept && row.bending.is_kept)?;
    write!(text, "<td>fr {number}</td><td class=\"n\">{x}</td>")?;
    add_cell(text, "n", shear.as_str())?;
    add_cell(text, "n", percent_text(alloc, &row.shear.used)?.as_str())?;
    write!(text, "<td class=\"n\">{shear_step}</td>")?;
    add_cell(text, "n", bending.as_str())?;
    add_cell(text, "n", percent_text(alloc, &row.bending.used)?.as_str())?;
    write!(text, "<td class=\"n\">{bending_step}</td></tr>")
}

/// Adds the table of frames over all conditions.
pub fn add_frames(
    alloc: Global,
    text: &mut String,
    profile: &Profile,
    reaches: &Reaches,
) -> Result<(), AllocError> {
    text.push_str("<figure><figcaption>Frames <span>over all conditions</span></figcaption>")?;
    text.push_str("<table><thead><tr><th>Frame</th><th class=\"n\">x, m</th>")?;
    text.push_str("<th class=\"n\">shear, t</th><th class=\"n\">used</th>")?;
    text.push_str("<th class=\"n\">step</th><th class=\"n\">bending, t m</th>")?;
    text.push_str("<th class=\"n\">used</th><th class=\"n\">step</th></tr></thead><tbody>")?;
    let rows = frame_rows(profile, &reaches.worst());
    let mut number = 0usize;
    for row in &rows {
        if let (Some(row), Some(reach)) = (row, reaches.frames.get(number)) {
            let steps = (reach.shear.step, reach.bending.step);
            number = number.saturating_add(1);
            add_frame(alloc, text, count_of(number), row, steps)?;
        }
    }
    text.push_str("</tbody></table></figure>")
}

/// Adds a tight step by its tightest row.
fn add_tight_row(
    alloc: Global,
    text: &mut String,
    case: Case<'_>,
    moved: &MovedBy,
    row: &RowText,
) -> Result<(), AllocError> {
    let step = row.step;
    let code = row.criterion.code();
    let (name, value, unit) = (row.name.as_str(), row.value.as_str(), row.unit);
    let what = format!(in alloc; "{code} {name}")?;
    let figure = format!(in alloc; "{value} {unit}")?;
    add_start(text, row.is_kept)?;
    write!(text, "<td class=\"n\">{step}</td>")?;
    add_cell(text, "w", lift_at(alloc, case, step)?.as_str())?;
    add_cell(text, "w", what.as_str())?;
    add_cell(text, "n", figure.as_str())?;
    add_cell(text, "n", row.limit.as_str())?;
    add_cell(text, "n", row.used.as_str())?;
    add_cell(text, "opt", deed_by(alloc, case, moved, step)?.as_str())?;
    text.push_str("</tr>")
}

/// Adds the table of the tightest steps.
pub fn add_tightest(
    alloc: Global,
    text: &mut String,
    lines: &Lines<'_>,
    shares: &[Option<Frac>],
) -> Result<(), AllocError> {
    text.push_str("<h2>Tightest steps</h2><table><thead><tr><th class=\"n\">Step</th>")?;
    text.push_str("<th>Lift</th><th>Criterion</th><th class=\"n\">Value</th>")?;
    text.push_str("<th class=\"n\">Limit</th><th class=\"n\">Used</th>")?;
    text.push_str("<th class=\"opt\">What is done</th></tr></thead><tbody>")?;
    let moved = MovedBy::new(alloc, lines.case)?;
    for step in &tight_steps(alloc, shares)? {
        if let Some(condition) = condition_at(lines, *step) {
            let rows = condition_rows(alloc, &condition)?;
            if let Some(row) = tightest(rows.as_slice()) {
                add_tight_row(alloc, text, lines.case, &moved, row)?;
            }
        }
    }
    text.push_str("</tbody></table>")
}

/// The tightest row among those of the levers and of the metacentric height.
pub fn tightest_lever<'a>(rows: &'a [RowText]) -> Option<&'a RowText> {
    let mut found: Option<&RowText> = None;
    for row in rows {
        if is_of_levers(row.criterion) {
            let is_tighter = match found {
                Some(other) => is_more(row.share, other.share),
                None => true,
            };
            if is_tighter {
                found = Some(row);
            }
        }
    }
    found
}

/// Whether a criterion judges the levers as they are, or the metacentric height.
fn is_of_levers(criterion: Criterion) -> bool {
    match criterion {
        Criterion::C1 | Criterion::C2 | Criterion::C3 | Criterion::C4 => true,
        Criterion::C5 | Criterion::C11 => true,
        _ => false,
    }
}

/// Adds what was read otherwise than meant, or not at all, and what looks wrong of the profile.
pub fn add_odd(text: &mut String, notices: &[Notice]) -> Result<(), AllocError> {
    text.push_str("<h2>Not read, or odd</h2>")?;
    if notices.is_empty() {
        return text.push_str("<p>Nothing.</p>");
    }
    text.push_str("<table><tbody>")?;
    for notice in notices {
        let code = notice.code;
        write!(text, "<tr><td>{code}</td>")?;
        add_cell(text, "w", notice.word)?;
        text.push_str("<td>")?;
        add_escaped(text, notice.text.as_str())?;
        text.push_str("</td></tr>")?;
    }
    text.push_str("</tbody></table>")
}
