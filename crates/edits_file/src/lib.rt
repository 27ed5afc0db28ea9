//! The edits file of a planner: which edits of a sequence are tried, one after another.
//!
//! A line ends with LF, and the last may also end with the text. Its words are separated by one
//! space each, and it is of one of these forms: `swap A B`, `move FROM TO`, `remove AT`,
//! `insert AT L CELL KG ID` (a load), `insert AT D CELL ID` (a discharge), `insert AT T NAME KG` (a
//! tank's filling), `insert AT R FROM TO ID` (a restow), `reweigh AT KG`, or `undo`, which takes
//! the last edit back. A number has 1 to 10 digits and is at most 10^9, a container's mass at most
//! 999,999 kg. A cell has six or seven digits. An identification has 1 to 17 bytes, and `-` stands
//! for an empty one; the name of a tank has 1 to 16.
//!
//! [`Edits::read`] looks at the whole file, or names its first line that is of none of these forms.
//! [`Edits`] then iterates over what the lines order; [`line`] reads one line by itself.
#![tactic(auto)]

mod files;
mod forms;
mod laws;
mod words;

pub use files::{Edits, EditsFault};
pub use forms::{EditLine, line};
pub use laws::one_edits_file;
pub use words::cut;
