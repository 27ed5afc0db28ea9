//! The grids of charts, and the points of their lines.
use plain_text::{in_hundredths, in_tenths, in_thousandths};
use std::alloc::{AllocError, Global};
use view_curves::{LEFT, RIGHT, Scale, Tenths, tick_step};

/// The quotient, rounded down, by a divisor that counts as 1 below that.
fn quotient(one: i128, by: i128) -> i128 {
    one.div_euclid(by.max(1))
}

/// The place of a length along the ship, of lengths from one to another.
pub fn x_along(x: i128, first: i128, last: i128) -> i128 {
    let along = x.saturating_sub(first).saturating_mul(RIGHT - LEFT);
    quotient(along, last.saturating_sub(first)).saturating_add(LEFT)
}

/// A figure that is a multiple of the step of a grid, with the decimals that its multiples can
/// have; it is a number of units of so many decimals.
pub fn tick_text(
    alloc: Global,
    figure: i128,
    decimals: u32,
    step: i128,
) -> Result<String, AllocError> {
    let (mut figure, mut decimals, mut step) = (figure, decimals, step);
    for _ in 0..3 {
        if decimals > 0 && step.rem_euclid(10) == 0 {
            figure = figure.div_euclid(10);
            step = step.div_euclid(10);
            decimals -= 1;
        }
    }
    match decimals {
        0 => Ok(format!(in alloc; "{figure}")?),
        1 => in_tenths(alloc, figure),
        2 => in_hundredths(alloc, figure),
        _ => in_thousandths(alloc, figure),
    }
}

/// Adds a line of the grid with its figure.
pub fn add_tick(
    text: &mut String,
    scale: &Scale,
    figure: i128,
    words: &str,
) -> Result<(), AllocError> {
    let class = if figure == 0 && scale.low < 0 {
        "zero"
    } else {
        "grid"
    };
    let place = scale.y(figure);
    let y = Tenths(place);
    let below = Tenths(place.saturating_add(40));
    write!(
        text,
        "<line class=\"{class}\" x1=\"54\" x2=\"574\" y1=\"{y}\" y2=\"{y}\"/>\
        <text x=\"48\" y=\"{below}\" text-anchor=\"end\">{words}</text>"
    )
}

/// Adds the grid of figures of so many decimals.
pub fn add_grid(
    alloc: Global,
    text: &mut String,
    scale: &Scale,
    decimals: u32,
) -> Result<(), AllocError> {
    let step = tick_step(scale.span());
    let first = quotient(scale.low.saturating_sub(1), step)
        .saturating_add(1)
        .saturating_mul(step);
    for number in 0..6u32 {
        let figure = i128::from(number)
            .saturating_mul(step)
            .saturating_add(first);
        if scale.has(figure) {
            let words = tick_text(alloc, figure, decimals, step)?;
            add_tick(text, scale, figure, words.as_str())?;
        }
    }
    Ok(())
}

/// Adds a point of a line.
pub fn add_point(text: &mut String, x: i128, y: i128) -> Result<(), AllocError> {
    let x = Tenths(x);
    let y = Tenths(y);
    write!(text, "{x},{y}")
}
