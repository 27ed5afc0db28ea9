//! The loads along the ship: the least and the greatest at each frame, with their limits.
use crate::escaping::add_escaped;
use crate::grids::{add_grid, add_point, x_along};
use ship_profile::{Frame, Profile};
use std::alloc::{AllocError, Global};
use strength::Strains;
use view_curves::{Extent, FRAMES, Height, Reaches, Scale, Tenths};

/// A kind of load.
#[derive(Clone, Copy, Debug, PartialEq, Eq)]
pub enum Kind {
    /// Shear forces, in tonnes.
    Shear,
    /// Bending moments, in tonne metres.
    Bending,
}

/// The figures at a frame, in whole units and rounded down.
#[derive(Clone, Copy, Debug)]
struct Here {
    /// The place of the frame, in tenths of a pixel.
    x: i128,
    least: i128,
    greatest: i128,
    arrival: Option<i128>,
    /// The limits of what is above 0, and of what is below.
    above: i128,
    below: i128,
}

/// Which of the figures at a frame a line is drawn through.
#[derive(Clone, Copy, Debug, PartialEq, Eq)]
enum Which {
    Least,
    Greatest,
    Arrival,
    Above,
    Below,
}

impl Here {
    /// One of the figures.
    fn get(&self, which: Which) -> Option<i128> {
        match which {
            Which::Least => Some(self.least),
            Which::Greatest => Some(self.greatest),
            Which::Arrival => self.arrival,
            Which::Above => Some(self.above),
            Which::Below => Some(self.below),
        }
    }
}

/// How many kilograms, or kilogram millimetres, a printed unit has.
fn unit_of(kind: Kind) -> i128 {
    match kind {
        Kind::Shear => 1_000,
        Kind::Bending => 1_000_000,
    }
}

/// The load of a kind at a frame.
fn load_at(strains: &Strains, kind: Kind, at: usize) -> Option<i128> {
    let loads = match kind {
        Kind::Shear => &strains.shear,
        Kind::Bending => &strains.bending,
    };
    Some(i128::from(*loads.get(at)?))
}

/// The limits of a kind at a frame.
fn limits_at(frame: &Frame, kind: Kind) -> (i128, i128) {
    match kind {
        Kind::Shear => (i128::from(frame.shear_max), i128::from(frame.shear_max)),
        Kind::Bending => (i128::from(frame.hog_max), i128::from(frame.sag_max)),
    }
}

/// The lengths along the ship from which to which the frames are drawn.
fn ends_along(profile: &Profile) -> (i128, i128) {
    let frames = profile.frames().as_slice();
    let lbp = i128::from(profile.lbp().get());
    let first = match frames.first() {
        Some(frame) => i128::from(frame.x.get()).min(0),
        None => 0,
    };
    let last = match frames.last() {
        Some(frame) => i128::from(frame.x.get()).max(lbp),
        None => lbp,
    };
    (first, last)
}

/// The figures at each frame.
fn figures_along(
    alloc: Global,
    profile: &Profile,
    reaches: &Reaches,
    arrival: Option<&Strains>,
    kind: Kind,
) -> Result<Vec<Here>, AllocError> {
    let unit = unit_of(kind).max(1);
    let (first, last) = ends_along(profile);
    let mut along = Vec::new(alloc);
    let mut at = 0usize;
    for frame in profile.frames().as_slice() {
        if at < FRAMES {
            let reach = reaches.frames[at];
            let (least, greatest) = match kind {
                Kind::Shear => (reach.shear_least, reach.shear_greatest),
                Kind::Bending => (reach.bending_least, reach.bending_greatest),
            };
            let arrival = match arrival {
                Some(strains) => load_at(strains, kind, at),
                None => None,
            };
            let (above, below) = limits_at(frame, kind);
            along.push(Here {
                x: x_along(i128::from(frame.x.get()), first, last),
                least: i128::from(least).div_euclid(unit),
                greatest: i128::from(greatest).div_euclid(unit),
                arrival: match arrival {
                    Some(load) => Some(load.div_euclid(unit)),
                    None => None,
                },
                above: above.div_euclid(unit),
                below: 0i128.saturating_sub(below).div_euclid(unit),
            })?;
            at += 1;
        }
    }
    Ok(along)
}

/// The scale of the figures at each frame.
fn scale_of(along: &[Here]) -> Scale {
    let mut extent = Extent::of(0);
    for here in along {
        extent = extent.with(here.least).with(here.greatest);
        extent = extent.with(here.above).with(here.below);
    }
    Scale::of(extent, Height::Tall)
}

/// Adds the point of a line at a frame, behind what parts it from the one before.
fn add_here(
    text: &mut String,
    scale: &Scale,
    here: &Here,
    which: Which,
    between: &str,
) -> Result<(), AllocError> {
    let Some(figure) = here.get(which) else {
        return Ok(());
    };
    text.push_str(between)?;
    add_point(text, here.x, scale.y(figure))
}

/// Adds the points of a line.
fn add_points(
    text: &mut String,
    scale: &Scale,
    along: &[Here],
    which: Which,
) -> Result<(), AllocError> {
    let mut between = "";
    for here in along {
        add_here(text, scale, here, which, between)?;
        between = " ";
    }
    Ok(())
}

/// Adds a line.
fn add_line(
    text: &mut String,
    scale: &Scale,
    along: &[Here],
    which: Which,
    class: &str,
) -> Result<(), AllocError> {
    write!(text, "<polyline class=\"{class}\" points=\"")?;
    add_points(text, scale, along, which)?;
    text.push_str("\"/>")
}

/// Adds the surface between the least and the greatest loads.
fn add_band(text: &mut String, scale: &Scale, along: &[Here]) -> Result<(), AllocError> {
    text.push_str("<polygon class=\"bandfill\" points=\"")?;
    add_points(text, scale, along, Which::Greatest)?;
    for number in 0..along.len() {
        let at = along.len() - 1 - number;
        add_here(text, scale, &along[at], Which::Least, " ")?;
    }
    text.push_str("\"/>")
}

/// Adds a line at each frame, with its number.
fn add_frames(text: &mut String, along: &[Here]) -> Result<(), AllocError> {
    let mut number = 0u32;
    for here in along {
        number = number.saturating_add(1);
        let word = if number == 1 { "fr " } else { "" };
        let x = Tenths(here.x);
        write!(
            text,
            "<line class=\"grid\" x1=\"{x}\" x2=\"{x}\" y1=\"14\" y2=\"210\"/>"
        )?;
        write!(
            text,
            "<text x=\"{x}\" y=\"225\" text-anchor=\"middle\">{word}{number}</text>"
        )?;
    }
    Ok(())
}

/// Adds the word at the limit amidships.
fn add_limit_word(text: &mut String, scale: &Scale, along: &[Here]) -> Result<(), AllocError> {
    let Some(here) = along.get(along.len() / 2) else {
        return Ok(());
    };
    let x = Tenths(here.x);
    let y = Tenths(scale.y(here.above).saturating_sub(50));
    write!(
        text,
        "<text class=\"lim\" x=\"{x}\" y=\"{y}\" text-anchor=\"middle\">limit</text>"
    )
}

/// Adds the beginning of the chart.
fn add_heading(text: &mut String, kind: Kind) -> Result<(), AllocError> {
    let (title, unit) = match kind {
        Kind::Shear => ("Shear force, least and greatest", "t"),
        Kind::Bending => ("Bending moment, least and greatest", "t m, hogging up"),
    };
    text.push_str("<figure><figcaption>")?;
    add_escaped(text, title)?;
    write!(text, " <span>[{unit}], aft left</span></figcaption><svg")?;
    text.push_str(" viewBox=\"0 0 620 240\" role=\"img\" aria-label=\"")?;
    add_escaped(text, title)?;
    text.push_str(
        " along the ship: least and greatest over all conditions at each frame, with the",
    )?;
    text.push_str(" limits; the table of frames has the numbers\">")
}

/// Adds the chart of the loads of a kind along the ship.
pub fn add_envelope(
    alloc: Global,
    text: &mut String,
    profile: &Profile,
    reaches: &Reaches,
    arrival: Option<&Strains>,
    kind: Kind,
) -> Result<(), AllocError> {
    let along = figures_along(alloc, profile, reaches, arrival, kind)?;
    let along = along.as_slice();
    let scale = scale_of(along);
    add_heading(text, kind)?;
    add_grid(alloc, text, &scale, 0)?;
    add_frames(text, along)?;
    add_band(text, &scale, along)?;
    add_line(text, &scale, along, Which::Greatest, "a")?;
    add_line(text, &scale, along, Which::Least, "a")?;
    if arrival.is_some() {
        add_line(text, &scale, along, Which::Arrival, "c")?;
    }
    add_line(text, &scale, along, Which::Above, "limit")?;
    add_line(text, &scale, along, Which::Below, "limit")?;
    add_limit_word(text, &scale, along)?;
    text.push_str("</svg></figure>")
}
