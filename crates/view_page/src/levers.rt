//! The righting levers of a condition.
use crate::escaping::add_escaped;
use crate::grids::{add_grid, add_point};
use plain_text::in_thousandths;
use seq_report::Lines;
use std::alloc::{AllocError, Global};
use view_curves::{Extent, Height, LEFT, RIGHT, Scale, Tenths};
use view_figures::{Condition, Figures, Inside, condition_at};
use view_texts::{lift_at, row_by};
use worst_values::Limit;

/// The least lever from 30 degrees on, in mm.
const LEAST: i128 = 200;

/// The place of an angle from the left.
fn x_at(degrees: u32) -> i128 {
    LEFT + i128::from(degrees) * (RIGHT - LEFT) / 60
}

/// What is told of a condition within the ship's tables.
fn inside(condition: &Condition) -> Option<&Inside> {
    match &condition.told {
        Ok(inside) => Some(inside),
        Err(_) => None,
    }
}

/// The extent of levers.
fn with_levers(extent: Extent, levers: &[i128; 13]) -> Extent {
    let mut extent = extent;
    for lever in levers {
        extent = extent.with(*lever);
    }
    extent
}

/// The greatest lever of all.
fn greatest_of(levers: &[i128; 13]) -> i128 {
    let mut greatest = levers[0];
    for lever in levers {
        greatest = greatest.max(*lever);
    }
    greatest
}

/// The angle that carries the greatest lever, in degrees.
fn angle_of(inside: &Inside) -> u32 {
    let Some(row) = row_by(inside, Limit::PeakAngle) else {
        return 0;
    };
    match row.figures {
        Figures::Reading(reading) => u32::try_from(reading.value).unwrap_or(0),
        _ => 0,
    }
}

/// Adds the points of the levers of some numbers, each behind a blank.
fn add_levers(
    text: &mut String,
    scale: &Scale,
    levers: &[i128; 13],
    from: usize,
    to: usize,
) -> Result<(), AllocError> {
    let mut degrees = 0u32;
    let mut number = 0usize;
    for lever in levers {
        if from <= number && number < to {
            if from < number {
                text.push_str(" ")?;
            }
            add_point(text, x_at(degrees), scale.y(*lever))?;
        }
        number = number.saturating_add(1);
        degrees = degrees.saturating_add(5).min(60);
    }
    Ok(())
}

/// Adds the area under the levers between two angles.
fn add_area(
    text: &mut String,
    scale: &Scale,
    levers: &[i128; 13],
    from: u32,
    to: u32,
) -> Result<(), AllocError> {
    let foot = scale.y(0);
    text.push_str(" points=\"")?;
    add_point(text, x_at(from), foot)?;
    text.push_str(" ")?;
    add_levers(
        text,
        scale,
        levers,
        from as usize / 5,
        (to as usize).saturating_add(5) / 5,
    )?;
    text.push_str(" ")?;
    add_point(text, x_at(to), foot)?;
    text.push_str("\"/>")
}

/// Adds a curve of levers.
fn add_curve(
    text: &mut String,
    scale: &Scale,
    levers: &[i128; 13],
    class: &str,
) -> Result<(), AllocError> {
    write!(text, "<polyline class=\"{class}\" points=\"")?;
    add_levers(text, scale, levers, 0, 13)?;
    text.push_str("\"/>")
}

/// Adds the beginning of the chart.
fn add_heading(
    alloc: Global,
    text: &mut String,
    lift: &str,
    step: u32,
    inside: &Inside,
    behind: &str,
) -> Result<(), AllocError> {
    let greatest = in_thousandths(alloc, greatest_of(&inside.levers))?;
    let gm = in_thousandths(alloc, inside.floating.gm)?;
    let angle = angle_of(inside);
    write!(text, "<figure><figcaption>Righting levers at step {step} ")?;
    add_escaped(text, lift)?;
    write!(
        text,
        " <span>[m] by degrees of heel{behind}</span></figcaption>"
    )?;
    write!(
        text,
        "<svg viewBox=\"0 0 620 240\" role=\"img\" aria-label=\"Righting levers at step {step}: "
    )?;
    write!(
        text,
        "greatest {greatest} m at {angle} degrees, GM {gm} m\">"
    )
}

/// Adds the degrees below the chart.
fn add_degrees(text: &mut String) -> Result<(), AllocError> {
    for number in 0..7u32 {
        let degrees = 10 * number;
        let x = Tenths(x_at(degrees));
        write!(
            text,
            "<text x=\"{x}\" y=\"225\" text-anchor=\"middle\">{degrees}</text>"
        )?;
    }
    Ok(())
}

/// Adds the areas to 30 degrees and from there to 40.
fn add_areas(text: &mut String, scale: &Scale, levers: &[i128; 13]) -> Result<(), AllocError> {
    text.push_str("<polygon class=\"bandfill\"")?;
    add_area(text, scale, levers, 0, 30)?;
    text.push_str("<polygon class=\"bandfill\" style=\"opacity:.3\"")?;
    add_area(text, scale, levers, 30, 40)
}

/// Adds the limit of the levers from 30 degrees on.
fn add_limit(text: &mut String, scale: &Scale) -> Result<(), AllocError> {
    let place = scale.y(LEAST);
    let (from, to) = (Tenths(x_at(30)), Tenths(x_at(60)));
    let y = Tenths(place);
    let below = Tenths(place.saturating_add(130));
    write!(
        text,
        "<line class=\"limit\" x1=\"{from}\" x2=\"{to}\" y1=\"{y}\" y2=\"{y}\"/>"
    )?;
    write!(
        text,
        "<text class=\"lim\" x=\"318\" y=\"{below}\">C5 0.200</text>"
    )
}

/// Adds a ring at the greatest lever.
fn add_peak(
    alloc: Global,
    text: &mut String,
    scale: &Scale,
    inside: &Inside,
) -> Result<(), AllocError> {
    let greatest = greatest_of(&inside.levers);
    let angle = angle_of(inside);
    let place = scale.y(greatest);
    let x = Tenths(x_at(angle));
    let y = Tenths(place);
    let above = Tenths(place.saturating_sub(70).max(110));
    let greatest = in_thousandths(alloc, greatest)?;
    write!(
        text,
        "<circle class=\"worst\" cx=\"{x}\" cy=\"{y}\" r=\"3.5\"/>"
    )?;
    write!(
        text,
        "<text class=\"v\" x=\"{x}\" y=\"{above}\" text-anchor=\"middle\">"
    )?;
    write!(text, "{greatest} m at {angle}</text>")
}

/// Adds the chart of the levers of a condition, with those on arrival where that is another one
/// within the tables.
fn add_inside(
    alloc: Global,
    text: &mut String,
    lift: &str,
    step: u32,
    inside: &Inside,
    arrival: Option<&Inside>,
) -> Result<(), AllocError> {
    let mut extent = with_levers(Extent::of(0).with(LEAST), &inside.levers);
    if let Some(arrival) = arrival {
        extent = with_levers(extent, &arrival.levers);
    }
    let scale = Scale::of(extent, Height::Tall);
    let behind = if step > 0 && arrival.is_some() {
        "; grey on arrival"
    } else {
        ""
    };
    add_heading(alloc, text, lift, step, inside, behind)?;
    add_grid(alloc, text, &scale, 3)?;
    add_degrees(text)?;
    add_areas(text, &scale, &inside.levers)?;
    add_limit(text, &scale)?;
    if let Some(arrival) = arrival {
        if step > 0 {
            add_curve(text, &scale, &arrival.levers, "c")?;
        }
    }
    add_curve(text, &scale, &inside.levers, "a")?;
    add_peak(alloc, text, &scale, inside)?;
    text.push_str("</svg></figure>")
}

/// Adds the chart of the righting levers of the condition of a step, if it lies within the tables.
pub fn add_lever_chart(
    alloc: Global,
    text: &mut String,
    lines: &Lines<'_>,
    step: u32,
) -> Result<(), AllocError> {
    let (Some(condition), Some(first)) = (condition_at(lines, step), condition_at(lines, 0)) else {
        return Ok(());
    };
    let lift = lift_at(alloc, lines.case, step)?;
    match inside(&condition) {
        Some(told) => add_inside(alloc, text, lift.as_str(), step, told, inside(&first)),
        None => Ok(()),
    }
}
