//! What a planner is told of a condition, in the figures that she reads: tonnes, metres,
//! metre-radians and degrees.
//!
//! No figure flatters. A value that has to be at least its limit is rounded down, one that may be
//! at most its limit up, and a margin down ([`Reading`]); how much of a limit is used is rounded
//! up ([`Used`]). [`condition_at`] gives the table of limits of a condition, how the ship floats,
//! her levers and loads, and what is missing to her limits.
//!
//! The definitions are `Readings` and `Shares` of `specs/`.
#![tactic(auto)]

mod afloat;
mod angles;
mod areas;
mod conditions;
mod frames;
mod greatest;
mod most;
mod outside;
mod readings;
mod rows;
mod shares;

pub use afloat::{Floating, Missing};
pub use angles::{ListReading, list_of_degrees, list_reading};
pub use areas::area_reading;
pub use conditions::{Condition, Inside, condition_at};
pub use frames::{FrameRow, FrameRows, frame_rows};
pub use greatest::Greatest;
pub use most::most_used;
pub use outside::{Missed, Station};
pub use readings::{Reading, at_least, at_most};
pub use rows::{Figures, Row, row_of};
pub use shares::{Used, is_more, share_of, used_of};
