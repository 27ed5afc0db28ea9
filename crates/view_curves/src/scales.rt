//! Where a figure lies in a chart, in whole tenths of a pixel, and the steps of its grid.
ghost use Rattle.std.specs.Prelude.{◌≡◌, ◌↔◌, ◌^◌, pos, ◌*ℤ◌, ◌≤ℤ◌, IsTrue};
ghost use Rattle.units_core.specs.Ratio.{◌over◌, floor_of};
ghost use Rattle.view_curves.specs.Scales.{IsInChart, place_in, x_of, y_in};

use std::fmt;
use units_core::{Frac, floor};

/// A length in tenths of a pixel, which prints in pixels with one decimal or none.
#[derive(Clone, Copy, Debug, PartialEq, Eq)]
pub struct Tenths(pub i128);

impl fmt::Display for Tenths {
    fn fmt<W: fmt::Write>(&self, f: &mut fmt::Formatter<W>) -> fmt::Result {
        let whole = self.0.div_euclid(10);
        let rest = self.0.rem_euclid(10);
        if rest == 0 {
            write!(f, "{whole}")
        } else {
            write!(f, "{whole}.{rest}")
        }
    }
}

/// The left and the right end of a chart, and its top, in tenths of a pixel.
pub const LEFT: i128 = 540;

pub const RIGHT: i128 = 5_740;

pub const TOP: i128 = 140;

/// How far charts by step reach down, in tenths of a pixel.
pub const BOTTOM: i128 = 1_500;

/// How far charts along the ship and of levers reach down.
const LOW_BOTTOM: i128 = 2_100;

/// The least and the greatest of some figures.
#[derive(Clone, Copy, Debug)]
pub struct Extent {
    pub least: i128,
    pub greatest: i128,
}

impl Extent {
    /// The extent of one figure.
    pub fn of(figure: i128) -> Extent {
        Extent {
            least: figure,
            greatest: figure,
        }
    }

    /// The extent with one figure more.
    pub fn with(self, figure: i128) -> Extent {
        Extent {
            least: self.least.min(figure),
            greatest: self.greatest.max(figure),
        }
    }
}

/// How high a chart is: one by step, or one along the ship or of levers.
#[derive(Clone, Copy, Debug, PartialEq, Eq)]
pub enum Height {
    Low,
    Tall,
}

/// The scale of a chart: the figures at its foot and at its top, and how high it is.
#[derive(Clone, Copy, Debug)]
pub struct Scale {
    pub low: i128,
    pub high: i128,
    pub height: Height,
}

/// The greatest span of figures whose places are exact.
const EXACT: i128 = 10_000_000_000_000_000_000_000_000_000_000_000;

/// How far below the top of a chart by step a figure lies that is so much below the figure there,
/// of a span of figures.
fn low_place(below: i128, span: i128) -> i128
    requires below { (pos 0 ≤ℤ below) × (below ≤ℤ pos (10 ^ 34)) }
    requires span { pos 1 ≤ℤ span }
    ensures value { result ≡ floor_of ((below *ℤ pos 1360) over span) }
    ensures small { result ≤ℤ pos (10 ^ 38) }
{
    floor(Frac {
        num: below * 1360,
        den: span,
    })
}

/// The same of a chart along the ship, or of levers.
fn tall_place(below: i128, span: i128) -> i128
    requires below { (pos 0 ≤ℤ below) × (below ≤ℤ pos (10 ^ 34)) }
    requires span { pos 1 ≤ℤ span }
    ensures value { result ≡ floor_of ((below *ℤ pos 1960) over span) }
    ensures small { result ≤ℤ pos (10 ^ 38) }
{
    floor(Frac {
        num: below * 1960,
        den: span,
    })
}

impl Scale {
    /// The scale of figures of this extent, with room above and below.
    pub fn of(extent: Extent, height: Height) -> Scale {
        let room = extent
            .greatest
            .saturating_sub(extent.least)
            .div_euclid(12)
            .max(1);
        Scale {
            low: extent.least.saturating_sub(room),
            high: extent.greatest.saturating_add(room),
            height,
        }
    }

    /// The span of its figures.
    pub fn span(&self) -> i128 {
        self.high.saturating_sub(self.low)
    }

    /// How far below the top a figure of the chart lies.
    fn place(&self, figure: i128) -> i128
        requires { IsInChart self.now figure }
        ensures value { result ≡ place_in self.now figure }
        ensures small { result ≤ℤ pos (10 ^ 38) }
    {
        let span = self.high - self.low;
        match self.height {
            Height::Low => low_place(self.high - figure, span),
            Height::Tall => tall_place(self.high - figure, span),
        }
    }

    /// Whether the place of a figure is exact.
    fn is_exact(&self, figure: i128) -> bool
        ensures { IsTrue result ↔ IsInChart self.now figure }
    {
        let Some(span) = self.high.checked_sub(self.low) else {
            return false;
        };
        if span < 1 {
            return false;
        }
        if EXACT < span {
            return false;
        }
        self.has(figure)
    }

    /// The place of a figure, from the top down and rounded down: exact for those in the chart,
    /// and at its top or its foot for those beyond.
    pub fn y(&self, figure: i128) -> i128
        ensures { IsInChart self.now figure → result ≡ y_in self.now figure }
    {
        if self.is_exact(figure) {
            return TOP + self.place(figure);
        }
        if figure > self.low {
            TOP
        } else {
            foot_of(self.height)
        }
    }

    /// Whether a figure lies in the chart.
    pub fn has(&self, figure: i128) -> bool
        ensures { IsTrue result ↔ ((self.now.low ≤ℤ figure) × (figure ≤ℤ self.now.high)) }
    {
        self.low <= figure && figure <= self.high
    }
}

/// Where a chart ends.
pub fn foot_of(height: Height) -> i128 {
    match height {
        Height::Low => BOTTOM,
        Height::Tall => LOW_BOTTOM,
    }
}

/// The place of a condition, of so many, from the left and rounded down.
pub fn x_of(step: u32, conditions: u32) -> i128
    ensures { result ≡ pos (x_of step conditions) }
{
    if conditions < 2 {
        return LEFT;
    }
    i128::from(540 + u64::from(step) * 5_200 / u64::from(conditions - 1))
}

/// How many powers of ten a step of a grid may have.
const POWERS: usize = 37;

/// The least of 1, 2, 5, 10, 20, .. of which at most five go into a span.
pub fn tick_step(span: i128) -> i128 {
    let mut power = 1i128;
    for _ in 0..POWERS {
        for step in [1i128, 2, 5] {
            let step = step.saturating_mul(power);
            if span <= step.saturating_mul(5) {
                return step;
            }
        }
        power = power.saturating_mul(10);
    }
    power
}
