//! The rows of the table of limits, in words.
use criteria::Criterion;
use hydrostat::Outside;
use plain_text::{add_line, in_hundredths, in_ten_thousandths, in_tenths, in_thousandths};
use seq_report::cause_word;
use std::alloc::{AllocError, Global};
use std::cmp::Ordering;
use units_core::Frac;
use view_figures::{Figures, ListReading, Reading, Row, Used, is_more};
use worst_values::Limit;

/// How many places the table of limits has: that of the first condition outside of the ship's
/// tables, and one for each limit.
pub const PLACES: usize = 15;

/// The place of a limit in the table; the first is that of a condition outside.
fn place_of(limit: Limit) -> usize {
    match limit {
        Limit::Closing => 1,
        Limit::Gm => 2,
        Limit::AreaTo30 => 3,
        Limit::AreaTo40 => 4,
        Limit::Area30To40 => 5,
        Limit::Lever => 6,
        Limit::PeakAngle => 7,
        Limit::List => 8,
        Limit::DraughtAft => 9,
        Limit::DraughtForward => 10,
        Limit::Trim => 11,
        Limit::Shear => 12,
        Limit::Bending => 13,
        Limit::LeastGm => 14,
    }
}

/// A row of the table, as it is printed.
#[derive(Debug, Drop)]
pub struct RowText {
    /// Its place in the table.
    pub place: usize,
    pub criterion: Criterion,
    pub name: String,
    pub unit: &'static str,
    /// The value, the limit and the margin, a dash for each that isn't there.
    pub value: String,
    pub limit: String,
    pub margin: String,
    pub used: String,
    pub is_kept: bool,
    /// How much of the limit is used; `None` where no number tells.
    pub share: Option<Frac>,
    /// The step at which it stands.
    pub step: u32,
}

/// The criterion of a limit.
fn criterion_of(limit: Limit) -> Criterion {
    match limit {
        Limit::Closing => Criterion::C0,
        Limit::Gm => Criterion::C1,
        Limit::AreaTo30 => Criterion::C2,
        Limit::AreaTo40 => Criterion::C3,
        Limit::Area30To40 => Criterion::C4,
        Limit::Lever => Criterion::C5,
        Limit::PeakAngle => Criterion::C6,
        Limit::List => Criterion::C7,
        Limit::DraughtAft | Limit::DraughtForward | Limit::Trim => Criterion::C8,
        Limit::Shear => Criterion::C9,
        Limit::Bending => Criterion::C10,
        Limit::LeastGm => Criterion::C11,
    }
}

/// The unit in which its figures are printed.
fn unit_of(limit: Limit) -> &'static str {
    match limit {
        Limit::Closing | Limit::Shear => "t",
        Limit::Gm | Limit::Lever | Limit::LeastGm => "m",
        Limit::AreaTo30 | Limit::AreaTo40 | Limit::Area30To40 => "m rad",
        Limit::PeakAngle | Limit::List => "deg",
        Limit::DraughtAft | Limit::DraughtForward | Limit::Trim => "m",
        Limit::Bending => "t m",
    }
}

/// Two words of the sides of a value, and the one of neither.
fn by_side(
    side: Ordering,
    above: &'static str,
    below: &'static str,
    neither: &'static str,
) -> &'static str {
    match side {
        Ordering::Greater => above,
        Ordering::Less => below,
        Ordering::Equal => neither,
    }
}

/// What a load is called; a load of 0 counts as above it.
fn load_word(limit: Limit, side: Ordering) -> &'static str {
    match (limit, side) {
        (Limit::Shear, Ordering::Less) => "shear -",
        (Limit::Shear, _) => "shear +",
        (_, Ordering::Less) => "sagging",
        _ => "hogging",
    }
}

/// What a row is called.
fn name_of(alloc: Global, row: &Row) -> Result<String, AllocError> {
    let name = match row.limit {
        Limit::Closing => "closing error",
        Limit::Gm => "GM",
        Limit::AreaTo30 => "area 0-30",
        Limit::AreaTo40 => "area 0-40",
        Limit::Area30To40 => "area 30-40",
        Limit::Lever => "lever 30-60",
        Limit::PeakAngle => "peak of levers",
        Limit::List => match row.figures {
            Figures::NoList(_) => "no list, GM <= 0",
            _ => by_side(row.side, "list to stbd", "list to port", "list"),
        },
        Limit::DraughtAft => "draught aft",
        Limit::DraughtForward => "draught fwd",
        Limit::Trim => by_side(row.side, "trim by stern", "trim by head", "trim"),
        Limit::LeastGm => "GM, gm.csv",
        Limit::Shear | Limit::Bending => {
            let word = load_word(row.limit, row.side);
            let number = row.place.saturating_add(1);
            return Ok(format!(in alloc; "{word} fr {number}")?);
        }
    };
    String::from_str(alloc, name)
}

/// A figure of a limit, in its decimals.
fn figure(alloc: Global, limit: Limit, number: i128) -> Result<String, AllocError> {
    match limit {
        Limit::AreaTo30 | Limit::AreaTo40 | Limit::Area30To40 => in_ten_thousandths(alloc, number),
        Limit::Shear | Limit::Bending => in_tenths(alloc, number),
        Limit::PeakAngle => Ok(format!(in alloc; "{number}")?),
        Limit::List => in_hundredths(alloc, number),
        _ => in_thousandths(alloc, number),
    }
}

/// The value of a row in words.
pub fn value_text(alloc: Global, row: &Row) -> Result<String, AllocError> {
    match row.figures {
        Figures::Reading(reading) => figure(alloc, row.limit, reading.value),
        Figures::List(reading) => match reading.value {
            Some((value, _)) => in_hundredths(alloc, value),
            None => String::from_str(alloc, ">45.00"),
        },
        Figures::NoList(_) => String::from_str(alloc, "-"),
    }
}

/// The limit and the margin of a row in words.
fn limit_texts(alloc: Global, row: &Row) -> Result<(String, String), AllocError> {
    match row.figures {
        Figures::Reading(reading) => {
            let limit = figure(alloc, row.limit, reading.limit)?;
            let margin = figure(alloc, row.limit, reading.margin)?;
            Ok((limit, margin))
        }
        Figures::List(reading) => {
            let limit = in_hundredths(alloc, reading.limit)?;
            let margin = match reading.value {
                Some((_, margin)) => in_hundredths(alloc, margin)?,
                None => String::from_str(alloc, "<-0.01")?,
            };
            Ok((limit, margin))
        }
        Figures::NoList(limit) => {
            let limit = in_hundredths(alloc, limit)?;
            let margin = String::from_str(alloc, "-")?;
            Ok((limit, margin))
        }
    }
}

/// How much is used, in percent.
pub fn percent_text(alloc: Global, used: &Used) -> Result<String, AllocError> {
    match used.percent {
        Some(percent) => Ok(format!(in alloc; "{percent}%")?),
        None => String::from_str(alloc, ">999%"),
    }
}

/// How much of its limit a row says is used.
fn used_text(alloc: Global, row: &Row) -> Result<String, AllocError> {
    match (row.limit, row.figures) {
        (Limit::PeakAngle, _) | (_, Figures::NoList(_)) => String::from_str(alloc, "-"),
        _ => percent_text(alloc, &row.used),
    }
}

/// A row in words, of the condition of a step.
pub fn row_text(alloc: Global, row: &Row, step: u32) -> Result<RowText, AllocError> {
    let name = name_of(alloc, row)?;
    let value = value_text(alloc, row)?;
    let (limit, margin) = limit_texts(alloc, row)?;
    let used = used_text(alloc, row)?;
    let unit = match row.figures {
        Figures::NoList(_) => "",
        _ => unit_of(row.limit),
    };
    Ok(RowText {
        place: place_of(row.limit),
        criterion: criterion_of(row.limit),
        name,
        unit,
        value,
        limit,
        margin,
        used,
        is_kept: row.is_kept,
        share: row.used.share,
        step,
    })
}

/// The row of a condition outside of the ship's tables.
pub fn outside_row(alloc: Global, cause: Outside, step: u32) -> Result<RowText, AllocError> {
    let cause = cause_word(cause);
    let name = format!(in alloc; "outside {cause}")?;
    let value = String::from_str(alloc, "-")?;
    let limit = String::from_str(alloc, "-")?;
    let margin = String::from_str(alloc, "-")?;
    let used = String::from_str(alloc, "-")?;
    Ok(RowText {
        place: 0,
        criterion: Criterion::C0,
        name,
        unit: "",
        value,
        limit,
        margin,
        used,
        is_kept: false,
        share: None,
        step,
    })
}

/// A row of the table without its step.
fn figures_line(alloc: Global, row: &RowText) -> Result<String, AllocError> {
    let code = row.criterion.code();
    let between = if row.unit.is_empty() { "" } else { ", " };
    let name = row.name.as_str();
    let unit = row.unit;
    let label = format!(in alloc; "{name}{between}{unit}")?;
    let label = label.as_str();
    let value = row.value.as_str();
    let limit = row.limit.as_str();
    let margin = row.margin.as_str();
    let used = row.used.as_str();
    let mark = if row.is_kept { "" } else { "!" };
    let text = format!(in alloc;
        "{code:<3} {label:<18}{value:>9}{limit:>9}{margin:>9}{used:>6}{mark:>2}"
    )?;
    Ok(text)
}

/// Adds a row of the table of one condition.
pub fn add_row(alloc: Global, text: &mut String, row: &RowText) -> Result<(), AllocError> {
    add_line(text, figures_line(alloc, row)?.as_str())
}

/// Adds a row of the table of all conditions, with its step and what leads to it.
pub fn add_worst_row(
    alloc: Global,
    text: &mut String,
    row: &RowText,
    lift: &str,
) -> Result<(), AllocError> {
    let figures = figures_line(alloc, row)?;
    let figures = figures.as_str();
    let step = row.step;
    add_line(
        text,
        format!(in alloc; "{figures}{step:>6} {lift}")?.as_str(),
    )
}

/// The row that stands where a ship has no least metacentric heights of her own.
pub const NO_LEAST_GM: &str = "C11 GM, gm.csv, m   not judged: the ship has no gm.csv";

/// The row that uses most of its limit, of several the first; `None` where there is none.
pub fn tightest(rows: &[RowText]) -> Option<&RowText> {
    let mut found = rows.first()?;
    for row in rows {
        if is_more(row.share, found.share) {
            found = row;
        }
    }
    Some(found)
}
