//! A line of numbers and words, put together from its end to its beginning and then appended to a
//! text in one piece.
//!
//! The digits of a number are found from the last to the first. Each is written before the last
//! one, in a buffer of a fixed size, so that no memory is asked for until the whole line is
//! appended.
#![tactic(auto)]

mod backward_text;
mod digit_writer;
mod four_digits;

pub use backward_text::{BackwardText, ROOM};
pub use four_digits::FourDigits;
