//! What is aboard at the lines of a report on a sequence of steps, added up without adding up each
//! of them from the beginning.
//!
//! [`pass_line`] adds to the sum at a line what the step behind it changes. [`first_sums`] gives
//! the sum at the first line of each chunk of a report: workers add up what changes in each chunk,
//! and the offsets of these totals are joined to what is aboard on arrival. [`Fours`] keeps what
//! each four steps of a list change together, in a tree, so that the sum at any line takes few
//! joins; [`renew`], [`renew_both`] and [`renew_places`] set just the fours that another weight, an
//! exchange of two steps, or other steps at some places change.
//!
//! The definitions are `Lines` and `Fours` of `specs/`.
#![tactic(auto)]

mod chunk_sums;
mod chunks;
mod fours;
mod renewing;

pub use chunk_sums::{Changes, chunk_count, first_sums, lines_of};
pub use chunks::{join_to_arrival, pass_line};
pub use fours::Fours;
pub use renewing::{renew, renew_both, renew_places};
