//! Texts that people read: names and input on one line, counts, runs of numbers, figures with their
//! decimals, and paragraphs cut into lines of 80 columns.
//!
//! Whatever bytes an input has, what is printed of it is characters of ASCII that can be seen, and
//! blanks. [`quoted`] never takes more than [`QUOTED`] columns.
#![tactic(auto)]

mod counts;
mod figures;
mod names;
mod paragraphs;
mod quotes;

pub use counts::{Runs, count_of, many, many_of};
pub use figures::{in_hundredths, in_ten_thousandths, in_tenths, in_thousandths};
pub use names::{front, path, shown_line, shown_word};
pub use paragraphs::{add_line, add_paragraph, add_wrapped};
pub use quotes::{QUOTED, add_quoted, quote, quoted_line_is_seen};
