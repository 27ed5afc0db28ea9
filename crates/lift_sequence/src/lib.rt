//! What is aboard, step by step: the condition on arrival, and a sequence of lifts, fillings of
//! tanks and restows, each of which must be possible after those before it.
//!
//! [`Arrival::new`] puts the items of a bay plan into the ship's cells and the fills into her
//! tanks. [`Sequence::new`] goes through the steps that [`ops`] makes of a movement instruction and
//! a steps file, and gives for each step the body that it takes out and the one that it puts in.
//! Both answer the first item, fill or step that is impossible, and why. What is aboard is known to
//! this crate alone: the bodies on arrival and those of each step are all that a sum needs. The
//! containers are kept by cell in a map of `indexmap`, so a look-up takes constant time, and so
//! does the search for a cell that overlaps. [`Sequence::reweigh`] changes the weight of one load
//! afterwards, and with it what the steps do that move its container; [`Sequence::swap`] swaps two
//! steps that are independent of each other and of all steps between, and [`Sequence::shift`] takes
//! a step past others that are independent of it; [`Sequence::swap_fillings`] exchanges two
//! fillings of one tank, and [`Sequence::shift_filling`] takes one past others.
#![tactic(auto)]

mod arrivals;
mod carrying;
mod containers;
mod equality;
mod faults;
mod fillings;
mod hashing;
mod independence;
mod laws;
mod near;
mod operations;
mod passing;
mod sequences;
mod singles;
mod stowage;

pub use arrivals::Arrival;
pub use carrying::carry;
pub use faults::{SeqCode, SeqFault};
pub use laws::{
    arrivals_have_one_answer, cargo_has_places, independent_steps_commute, nobody_is_lost,
    overlaps_are_least, sequences_have_one_answer, weights_change_few_steps,
};
pub use operations::{Op, ops};
pub use sequences::Sequence;
