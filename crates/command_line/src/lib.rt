//! The words of a command line: [`words`] takes them from the system, whatever bytes they have, and
//! [`read_line`] says what they ask for, by `clap`'s definition of the three commands.
#![tactic(auto)]

mod arguments;
mod lines;

pub use arguments::{text_of, words};
pub use lines::{Line, LineFault, Task, read_line};
