//! The base of every crate: masses and lengths within their limits, exact fractions, readings of
//! tables, angles of heel, the numbers of cells, frames of the hull, bodies aboard, and steps that
//! change them.
#![tactic(auto)]

mod angles;
mod bodies;
mod cells;
mod equality;
mod fractions;
mod frames;
mod measures;
mod quotients;
mod steps;
mod tables;

pub use angles::{Angle, cosine, sine};
pub use bodies::{Body, Place};
pub use cells::{Cell, conflicts, span};
pub use equality::{Exact, same_items, same_rows};
pub use fractions::{Frac, at_least, at_most, floor, interp, interp_floor};
pub use frames::{Frame, Frames};
pub use measures::{Kg, Mm};
pub use quotients::{floor_near, is_rest, reciprocal_near, upper_half};
pub use steps::Step;
pub use tables::{enclosing, enclosing_near, gap, read};
