//! A session of a planner: each line of an input is answered before the next one is read, with what
//! an edit changes of every limit that matters. It keeps the lines whose edits led to its list, and
//! publishes lists, to itself or to a folder.
//!
//! What a session leaves is `Sessions` of `specs/`. What it says is text alone, and proved to be
//! safe.
#![tactic(auto)]

mod answers;
mod judging;
mod publications;
mod sessions;
mod settings;
mod sittings;

pub use sessions::{Fault, hold};
pub use settings::Setting;
