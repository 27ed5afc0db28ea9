//! The planner's view over readers and writers: it reads the files that a command line names, makes
//! the text that the line asks for, writes it, and answers the exit status. `loadview` calls
//! [`serve_view`] with the system's words, files and streams.
#![tactic(auto)]

mod refusing;
mod serving;
mod sessions;
mod words;
mod working;

pub use serving::serve_view;
