//! A chart by step.
ghost use Rattle.std.specs.Prelude.{◌≤◌};

use crate::curves::CurvePoint;
use crate::escaping::add_escaped;
use crate::grids::{add_grid, add_point, add_tick};
use std::alloc::{AllocError, Global};
use view_curves::{BOTTOM, Extent, Height, LEFT, RIGHT, Scale, TOP, Tenths, tick_step, x_of};
use view_figures::list_of_degrees;
use view_texts::Run;

/// How the figures of a chart are labelled.
#[derive(Clone, Copy, Debug, PartialEq, Eq)]
pub enum Axis {
    /// With so many decimals at most.
    Decimals(u32),
    /// In percent, from 0 on.
    Percent,
    /// In degrees of list, starboard above port.
    Degrees,
}

/// A line of a chart: its colour, its name beside its end, and its points.
#[derive(Clone, Copy, Debug)]
pub struct Curve<'a> {
    pub class: &'static str,
    pub name: &'static str,
    pub points: &'a [CurvePoint],
}

/// A limit: what lies on its other side is beyond it.
#[derive(Debug, Drop)]
pub struct Bound {
    pub figure: i128,
    pub name: String,
    pub is_greatest: bool,
}

/// The worst figure of a chart.
#[derive(Debug, Drop)]
pub struct Mark {
    pub step: u32,
    pub figure: i128,
    pub words: String,
}

/// A chart by step, of so many conditions.
#[derive(Drop)]
pub struct Chart<'a> {
    pub title: &'static str,
    pub unit: &'static str,
    pub axis: Axis,
    pub conditions: u32,
    pub curves: Vec<Curve<'a>>,
    pub bounds: Vec<Bound>,
    pub mark: Option<Mark>,
}

/// The extent of figures, with those of a curve: its least and its greatest are among its points.
fn with_curve(extent: Extent, curve: Curve<'_>) -> Extent {
    let mut extent = extent;
    for point in curve.points {
        extent = extent.with(point.figure);
    }
    extent
}

/// The extent of a chart's figures and limits, of which there is one.
fn extent_of(chart: &Chart<'_>) -> Extent {
    let mut extent = match chart.bounds.first() {
        Some(bound) => Extent::of(bound.figure),
        None => Extent::of(0),
    };
    for bound in &chart.bounds {
        extent = extent.with(bound.figure);
    }
    for curve in &chart.curves {
        extent = with_curve(extent, *curve);
    }
    extent
}

/// The scale of a chart. It begins at 0 where nothing is negative and it would begin below, and
/// where it is in percent.
fn scale_of(chart: &Chart<'_>) -> Scale {
    let extent = extent_of(chart);
    let mut scale = Scale::of(extent, Height::Low);
    if extent.least >= 0 && (scale.low < 0 || chart.axis == Axis::Percent) {
        scale.low = 0;
    }
    scale
}

/// Adds the beginning of a chart.
fn add_heading(text: &mut String, chart: &Chart<'_>, label: &str) -> Result<(), AllocError> {
    let unit = chart.unit;
    text.push_str("<figure><figcaption>")?;
    add_escaped(text, chart.title)?;
    write!(
        text,
        " <span>[{unit}]</span></figcaption><svg class=\"run\""
    )?;
    text.push_str(" viewBox=\"0 0 620 176\" role=\"img\" aria-label=\"")?;
    add_escaped(text, chart.title)?;
    text.push_str(": ")?;
    add_escaped(text, label)?;
    text.push_str("\">")
}

/// Adds the runs of conditions that fail, along the foot of a chart.
fn add_fails(text: &mut String, conditions: u32, fails: &[Run]) -> Result<(), AllocError> {
    if conditions < 2 {
        return Ok(());
    }
    for run in fails {
        let start = x_of(run.first, conditions);
        let end = x_of(run.last, conditions);
        let x = Tenths(start);
        let width = Tenths(end.saturating_sub(start).max(20));
        write!(
            text,
            "<rect class=\"stripbad\" x=\"{x}\" y=\"153\" width=\"{width}\" height=\"4\"/>"
        )?;
    }
    Ok(())
}

/// The steps of a grid of degrees: the least of which at most two go to a side.
fn degree_step(most: i128) -> usize
    ensures { 1 ≤ result }
{
    if list_of_degrees(3) > most {
        return 1;
    }
    if list_of_degrees(6) > most {
        return 2;
    }
    if list_of_degrees(15) > most {
        return 5;
    }
    if list_of_degrees(30) > most {
        return 10;
    }
    20
}

/// Adds a line of degrees on a side, where the chart has it.
fn add_degrees(
    alloc: Global,
    text: &mut String,
    scale: &Scale,
    degrees: usize,
    side: &str,
) -> Result<(), AllocError> {
    let size = list_of_degrees(degrees);
    let figure = if side == "P" {
        0i128.saturating_sub(size)
    } else {
        size
    };
    if scale.has(figure) {
        let words = format!(in alloc; "{degrees} {side}")?;
        add_tick(text, scale, figure, words.as_str())?;
    }
    Ok(())
}

/// Adds a grid of degrees.
fn add_degree_grid(alloc: Global, text: &mut String, scale: &Scale) -> Result<(), AllocError> {
    let step = degree_step(scale.high.max(0i128.saturating_sub(scale.low)));
    for number in 0..45usize {
        let degrees = 45 - number;
        if degrees % step == 0 {
            add_degrees(alloc, text, scale, degrees, "P")?;
        }
    }
    if scale.has(0) {
        add_tick(text, scale, 0, "0")?;
    }
    for degrees in 1..46usize {
        if degrees % step == 0 {
            add_degrees(alloc, text, scale, degrees, "S")?;
        }
    }
    Ok(())
}

/// Adds the numbers of conditions below a chart.
fn add_steps(text: &mut String, conditions: u32) -> Result<(), AllocError> {
    let step = tick_step(i128::from(conditions.saturating_sub(1).max(1)));
    for number in 0..6u32 {
        let at = i128::from(number).saturating_mul(step);
        if let Ok(at) = u32::try_from(at) {
            if at < conditions {
                let x = Tenths(x_of(at, conditions));
                write!(
                    text,
                    "<text x=\"{x}\" y=\"171\" text-anchor=\"middle\">{at}</text>"
                )?;
            }
        }
    }
    Ok(())
}

/// Adds a limit with its name: above its line, or below that of a least value where there is room.
fn add_bound(text: &mut String, scale: &Scale, bound: &Bound) -> Result<(), AllocError> {
    let place = scale.y(bound.figure);
    let (from, to) = if bound.is_greatest {
        (TOP, place)
    } else {
        (place, BOTTOM)
    };
    let below = place.saturating_add(130);
    let label = if !bound.is_greatest && below <= BOTTOM - 20 {
        below
    } else {
        place.saturating_sub(40)
    };
    let y = Tenths(place);
    let top = Tenths(from);
    let height = Tenths(to.saturating_sub(from));
    let label = Tenths(label);
    write!(
        text,
        "<rect class=\"beyond\" x=\"54\" y=\"{top}\" width=\"520\" height=\"{height}\"/>"
    )?;
    write!(
        text,
        "<line class=\"limit\" x1=\"54\" x2=\"574\" y1=\"{y}\" y2=\"{y}\"/>"
    )?;
    write!(
        text,
        "<text class=\"lim\" x=\"574\" y=\"{label}\" text-anchor=\"end\">"
    )?;
    add_escaped(text, bound.name.as_str())?;
    text.push_str("</text>")
}

/// The end of a curve.
#[derive(Clone, Copy)]
struct End {
    y: i128,
    class: &'static str,
    name: &'static str,
}

/// What stands before a point of a curve: the beginning of a line, behind the end of the one before
/// where the curve is broken, or a blank.
fn add_before(
    text: &mut String,
    class: &str,
    is_first: bool,
    is_broken: bool,
) -> Result<(), AllocError> {
    if is_first {
        return write!(text, "<polyline class=\"{class}\" points=\"");
    }
    if is_broken {
        return write!(text, "\"/><polyline class=\"{class}\" points=\"");
    }
    text.push_str(" ")
}

/// Adds a curve, and gives its end, where it has a figure.
fn add_curve(
    text: &mut String,
    scale: &Scale,
    conditions: u32,
    curve: Curve<'_>,
) -> Result<Option<i128>, AllocError> {
    let mut end = None;
    for point in curve.points {
        let y = scale.y(point.figure);
        add_before(text, curve.class, end.is_none(), point.is_broken)?;
        add_point(text, x_of(point.step, conditions), y)?;
        end = Some(y);
    }
    if end.is_some() {
        text.push_str("\"/>")?;
    }
    Ok(end)
}

/// Adds the name of a curve beside its end.
fn add_name(text: &mut String, end: End, y: i128) -> Result<(), AllocError> {
    let y = Tenths(y.saturating_add(40));
    let class = end.class;
    let name = end.name;
    write!(
        text,
        "<text class=\"t{class}\" x=\"579\" y=\"{y}\">{name}</text>"
    )
}

/// Adds the names of one or two curves, the upper one first, so far apart that both can be read.
fn add_names(text: &mut String, one: Option<End>, other: Option<End>) -> Result<(), AllocError> {
    match (one, other) {
        (None, None) => Ok(()),
        (Some(end), None) => add_name(text, end, end.y),
        (None, Some(end)) => add_name(text, end, end.y),
        (Some(one), Some(other)) => {
            let (upper, lower) = if other.y < one.y {
                (other, one)
            } else {
                (one, other)
            };
            add_name(text, upper, upper.y)?;
            add_name(text, lower, lower.y.max(upper.y.saturating_add(130)))
        }
    }
}

/// The end of a curve that has a name.
fn named_end(curve: Curve<'_>, end: Option<i128>) -> Option<End> {
    let y = end?;
    if curve.name.is_empty() {
        return None;
    }
    Some(End {
        y,
        class: curve.class,
        name: curve.name,
    })
}

/// Adds the curves of a chart, of which there are one or two, and behind them their names.
fn add_curves(text: &mut String, scale: &Scale, chart: &Chart<'_>) -> Result<(), AllocError> {
    let mut ends = [None, None];
    let mut count = 0usize;
    for curve in &chart.curves {
        let end = add_curve(text, scale, chart.conditions, *curve)?;
        if count < 2 {
            ends[count] = named_end(*curve, end);
            count += 1;
        }
    }
    add_names(text, ends[0], ends[1])
}

/// Adds a ring at the worst figure, with its words.
fn add_mark(
    text: &mut String,
    scale: &Scale,
    conditions: u32,
    mark: &Mark,
) -> Result<(), AllocError> {
    let x = x_of(mark.step, conditions);
    let y = scale.y(mark.figure);
    let (side, beside) = if x > (LEFT + RIGHT) / 2 {
        ("end", x.saturating_sub(60))
    } else {
        ("start", x.saturating_add(60))
    };
    let above = if y > TOP + 250 {
        y.saturating_sub(60)
    } else {
        y.saturating_add(150)
    };
    let x = Tenths(x);
    let y = Tenths(y);
    let beside = Tenths(beside);
    let above = Tenths(above);
    write!(
        text,
        "<circle class=\"worst\" cx=\"{x}\" cy=\"{y}\" r=\"3.5\"/>"
    )?;
    write!(
        text,
        "<text class=\"v\" x=\"{beside}\" y=\"{above}\" text-anchor=\"{side}\">"
    )?;
    add_escaped(text, mark.words.as_str())?;
    text.push_str("</text>")
}

/// Adds a chart, with what a reader is told who doesn't see it, and the runs of conditions that
/// fail.
pub fn add_chart(
    alloc: Global,
    text: &mut String,
    chart: &Chart<'_>,
    label: &str,
    fails: &[Run],
) -> Result<(), AllocError> {
    let scale = scale_of(chart);
    add_heading(text, chart, label)?;
    add_fails(text, chart.conditions, fails)?;
    match chart.axis {
        Axis::Decimals(decimals) => add_grid(alloc, text, &scale, decimals)?,
        Axis::Percent => add_grid(alloc, text, &scale, 0)?,
        Axis::Degrees => add_degree_grid(alloc, text, &scale)?,
    }
    add_steps(text, chart.conditions)?;
    for bound in &chart.bounds {
        add_bound(text, &scale, bound)?;
    }
    add_curves(text, &scale, chart)?;
    if let Some(mark) = &chart.mark {
        add_mark(text, &scale, chart.conditions, mark)?;
    }
    text.push_str("<line class=\"cross\" x1=\"54\" x2=\"54\" y1=\"14\" y2=\"150\"/></svg></figure>")
}
