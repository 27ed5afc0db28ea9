//! The six charts by step.
use crate::charts::{Axis, Bound, Chart, Curve, Mark, add_chart};
use crate::curves::Curves;
use criteria::Criterion;
use plain_text::in_thousandths;
use ship_profile::Profile;
use std::alloc::{AllocError, Global};
use view_curves::{Figure, Series};
use view_figures::is_more;
use view_texts::{RowText, Run};

/// What the charts by step are made of.
#[derive(Clone, Copy)]
pub struct StepCharts<'a> {
    pub profile: &'a Profile,
    pub series: &'a Series,
    pub curves: &'a Curves,
    /// The rows of the table of criteria.
    pub rows: &'a [RowText],
    /// The runs of conditions that fail, as they are drawn.
    pub fails: &'a [Run],
    pub conditions: u32,
}

/// The row of a criterion, of which there may be several: that whose name begins so.
fn row_named<'a>(rows: &'a [RowText], criterion: Criterion, start: &str) -> Option<&'a RowText> {
    for row in rows {
        if row.criterion == criterion && row.name.as_str().starts_with(start) {
            return Some(row);
        }
    }
    None
}

/// The ring at the figure of a row, if its condition has one.
fn mark_of(of: &StepCharts<'_>, figure: Figure, row: &RowText, words: String) -> Option<Mark> {
    let figure = of.series.at(row.step)?.figure(figure)?;
    Some(Mark {
        step: row.step,
        figure,
        words,
    })
}

/// The words of the ring at a row's figure: `4.472 at 0`, with the unit where it is named.
fn worst_at(alloc: Global, row: &RowText, unit: &str) -> Result<String, AllocError> {
    let value = row.value.as_str();
    let step = row.step;
    Ok(format!(in alloc; "{value}{unit} at {step}")?)
}

/// A curve of a chart.
fn curve<'a>(
    of: &StepCharts<'a>,
    figure: Figure,
    class: &'static str,
    name: &'static str,
) -> Curve<'a> {
    Curve {
        class,
        name,
        points: of.curves.of(figure),
    }
}

/// The only curve of a chart.
fn only<'a>(
    alloc: Global,
    of: &StepCharts<'a>,
    figure: Figure,
    name: &'static str,
) -> Result<Vec<Curve<'a>>, AllocError> {
    let mut curves = Vec::new(alloc);
    curves.push(curve(of, figure, "a", name))?;
    Ok(curves)
}

/// The only limit of a chart.
fn one_bound(
    alloc: Global,
    figure: i128,
    name: String,
    is_greatest: bool,
) -> Result<Vec<Bound>, AllocError> {
    let mut bounds = Vec::new(alloc);
    bounds.push(Bound {
        figure,
        name,
        is_greatest,
    })?;
    Ok(bounds)
}

/// The curve of the metacentric height, and that of the least one where the ship has such limits.
fn gm_curves<'a>(alloc: Global, of: &StepCharts<'a>) -> Result<Vec<Curve<'a>>, AllocError> {
    let mut curves = only(alloc, of, Figure::Gm, "GM")?;
    if of.profile.least_gm().is_some() {
        curves.push(Curve {
            class: "b",
            name: "least",
            points: of.curves.least_gm(),
        })?;
    }
    Ok(curves)
}

/// Adds the chart of the metacentric height.
fn add_gm(alloc: Global, text: &mut String, of: &StepCharts<'_>) -> Result<(), AllocError> {
    let Some(row) = row_named(of.rows, Criterion::C1, "") else {
        return Ok(());
    };
    let curves = gm_curves(alloc, of)?;
    let name = String::from_str(alloc, "C1 least 0.150")?;
    let bounds = one_bound(alloc, 150, name, false)?;
    let mark = mark_of(of, Figure::Gm, row, worst_at(alloc, row, "")?);
    let chart = Chart {
        title: "GM, corrected for free surfaces",
        unit: "m",
        axis: Axis::Decimals(3),
        conditions: of.conditions,
        curves,
        bounds,
        mark,
    };
    let value = row.value.as_str();
    let step = row.step;
    let label = format!(in alloc; "least {value} m at step {step}, limit 0.150 m")?;
    add_chart(alloc, text, &chart, label.as_str(), of.fails)
}

/// The two limits of a value that has one to each side.
fn both_sides(
    alloc: Global,
    most: i128,
    above: &str,
    below: &str,
) -> Result<Vec<Bound>, AllocError> {
    let above = String::from_str(alloc, above)?;
    let below = String::from_str(alloc, below)?;
    let mut bounds = one_bound(alloc, most, above, true)?;
    bounds.push(Bound {
        figure: 0i128.saturating_sub(most),
        name: below,
        is_greatest: false,
    })?;
    Ok(bounds)
}

/// What a chart of a row says to a reader who doesn't see it.
fn row_label(alloc: Global, row: &RowText) -> Result<String, AllocError> {
    let name = row.name.as_str();
    let value = row.value.as_str();
    let step = row.step;
    let limit = row.limit.as_str();
    let unit = if row.criterion == Criterion::C7 {
        "deg"
    } else {
        "m"
    };
    let text = format!(in alloc; "{name} {value} {unit} at step {step}, limit {limit}")?;
    Ok(text)
}

/// Adds the chart of the list.
fn add_list(alloc: Global, text: &mut String, of: &StepCharts<'_>) -> Result<(), AllocError> {
    let Some(row) = row_named(of.rows, Criterion::C7, "") else {
        return Ok(());
    };
    let curves = only(alloc, of, Figure::List, "")?;
    let limit = row.limit.as_str();
    let name = format!(in alloc; "C7 {limit} deg")?;
    let name = name.as_str();
    let bounds = both_sides(alloc, i128::from(of.profile.list_max()), name, name)?;
    let mark = mark_of(of, Figure::List, row, worst_at(alloc, row, " deg")?);
    let chart = Chart {
        title: "List",
        unit: "degrees; S to starboard, P to port",
        axis: Axis::Degrees,
        conditions: of.conditions,
        curves,
        bounds,
        mark,
    };
    let label = row_label(alloc, row)?;
    add_chart(alloc, text, &chart, label.as_str(), of.fails)
}

/// What the chart of the draughts says to a reader who doesn't see it.
fn draughts_label(alloc: Global, aft: &RowText, fwd: &RowText) -> Result<String, AllocError> {
    let (at, step) = (aft.value.as_str(), aft.step);
    let (fore, at_step) = (fwd.value.as_str(), fwd.step);
    let limit = aft.limit.as_str();
    let first = format!(in alloc; "aft at most {at} m at step {step}")?;
    let first = first.as_str();
    let text = format!(in alloc;
        "{first}, forward at most {fore} m at step {at_step}, limit {limit}"
    )?;
    Ok(text)
}

/// The limit of the draughts.
fn draught_bounds(alloc: Global, profile: &Profile) -> Result<Vec<Bound>, AllocError> {
    let most = i128::from(profile.draught_max().get());
    let limit = in_thousandths(alloc, most)?;
    let limit = limit.as_str();
    let name = format!(in alloc; "C8 greatest {limit}")?;
    one_bound(alloc, most, name, true)
}

/// Adds the chart of the draughts.
fn add_draughts(alloc: Global, text: &mut String, of: &StepCharts<'_>) -> Result<(), AllocError> {
    let (Some(aft), Some(fwd)) = (
        row_named(of.rows, Criterion::C8, "draught aft"),
        row_named(of.rows, Criterion::C8, "draught fwd"),
    ) else {
        return Ok(());
    };
    let mark = if is_more(fwd.share, aft.share) {
        mark_of(of, Figure::Fwd, fwd, worst_at(alloc, fwd, "")?)
    } else {
        mark_of(of, Figure::Aft, aft, worst_at(alloc, aft, "")?)
    };
    let mut curves = only(alloc, of, Figure::Aft, "aft")?;
    curves.push(curve(of, Figure::Fwd, "b", "fwd"))?;
    let bounds = draught_bounds(alloc, of.profile)?;
    let chart = Chart {
        title: "Draughts at the perpendiculars",
        unit: "m",
        axis: Axis::Decimals(3),
        conditions: of.conditions,
        curves,
        bounds,
        mark,
    };
    let label = draughts_label(alloc, aft, fwd)?;
    add_chart(alloc, text, &chart, label.as_str(), of.fails)
}

/// The limits of the trim.
fn trim_bounds(alloc: Global, profile: &Profile) -> Result<Vec<Bound>, AllocError> {
    let most = i128::from(profile.trim_max().get());
    let limit = in_thousandths(alloc, most)?;
    let limit = limit.as_str();
    let stern = format!(in alloc; "C8 {limit} by the stern")?;
    let head = format!(in alloc; "C8 {limit} by the head")?;
    both_sides(alloc, most, stern.as_str(), head.as_str())
}

/// Adds the chart of the trim.
fn add_trim(alloc: Global, text: &mut String, of: &StepCharts<'_>) -> Result<(), AllocError> {
    let Some(row) = row_named(of.rows, Criterion::C8, "trim") else {
        return Ok(());
    };
    let curves = only(alloc, of, Figure::Trim, "")?;
    let bounds = trim_bounds(alloc, of.profile)?;
    let mark = mark_of(of, Figure::Trim, row, worst_at(alloc, row, "")?);
    let chart = Chart {
        title: "Trim",
        unit: "m; by the stern up",
        axis: Axis::Decimals(3),
        conditions: of.conditions,
        curves,
        bounds,
        mark,
    };
    let label = row_label(alloc, row)?;
    add_chart(alloc, text, &chart, label.as_str(), of.fails)
}

/// The title of the chart of a load.
fn load_title(criterion: Criterion) -> &'static str {
    if criterion == Criterion::C9 {
        "Shear force, worst frame"
    } else {
        "Bending moment, worst frame"
    }
}

/// The figures of the chart of a load.
fn load_figure(criterion: Criterion) -> Figure {
    if criterion == Criterion::C9 {
        Figure::Shear
    } else {
        Figure::Bending
    }
}

/// Adds the chart of a load at the frame that uses most of its limit.
fn add_load(
    alloc: Global,
    text: &mut String,
    of: &StepCharts<'_>,
    criterion: Criterion,
) -> Result<(), AllocError> {
    let Some(row) = row_named(of.rows, criterion, "") else {
        return Ok(());
    };
    let figure = load_figure(criterion);
    let curves = only(alloc, of, figure, "")?;
    let code = criterion.code();
    let bounds = one_bound(alloc, 100, format!(in alloc; "{code} limit")?, true)?;
    let (used, name, step) = (row.used.as_str(), row.name.as_str(), row.step);
    let words = format!(in alloc; "{used}, {name} at {step}")?;
    let mark = mark_of(of, figure, row, words);
    let chart = Chart {
        title: load_title(criterion),
        unit: "% of its limit",
        axis: Axis::Percent,
        conditions: of.conditions,
        curves,
        bounds,
        mark,
    };
    let label = format!(in alloc; "{used} {name} at step {step}")?;
    add_chart(alloc, text, &chart, label.as_str(), of.fails)
}

/// Adds the charts by step.
pub fn add_step_charts(
    alloc: Global,
    text: &mut String,
    of: &StepCharts<'_>,
) -> Result<(), AllocError> {
    add_gm(alloc, text, of)?;
    add_list(alloc, text, of)?;
    add_draughts(alloc, text, of)?;
    add_trim(alloc, text, of)?;
    add_load(alloc, text, of, Criterion::C9)?;
    add_load(alloc, text, of, Criterion::C10)
}
