//! Tables written as comma-separated values: the records of a text one by one, and the numbers that
//! their fields write.
//!
//! [`open_records`] gives a reader over a text that is in memory, and [`next_record`] reads one
//! record after another into a row that the caller keeps, so that a table of any length is read in
//! the room of its longest record. The heading is a record like the others, and records may differ
//! in length: what a table's heading and its columns are is for the caller to say. Fields are
//! separated by commas and may be in double quotes, within which a doubled quote is one quote; a
//! record ends by CR, LF or both, a line without a byte is no record, and a byte order mark before
//! the text is dropped (RFC 4180, read as leniently as the kit's `csv` does).
//!
//! [`text_at`] is a field's text, and [`number`] the one reading of a number in it; [`natural`]
//! reads digits alone. The definitions are `Reading` and `Numbers` of `specs/`.
#![tactic(auto)]

mod numbers;
mod records;

pub use numbers::{natural, number};
pub use records::{next_record, open_records, text_at};
