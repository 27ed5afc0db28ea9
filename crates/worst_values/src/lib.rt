//! The worst value of every limit over all conditions of a port call, exactly, with the first step
//! at which it stands; and which criteria each condition doesn't meet.
//!
//! [`found_in`] answers both ([`Findings`]): workers go through chunks of lines, and what they find
//! is joined in the order of the lines. It is the same for every number of workers, every gate and
//! every cut. Who asks more of each condition than this goes through the lines by [`note_line`].
//!
//! The definitions are `Worst`, `Limits` and `Findings` of `specs/`.
#![tactic(auto)]

mod candidates;
mod findings;
mod jobs;
mod joining;
mod limits;
mod loads;
mod marks;
mod noting;
mod row;
mod rows;
mod stretches;
mod unmet;
mod values;
mod walks;

pub use candidates::value_of;
pub use findings::Findings;
pub use jobs::found_in;
pub use limits::{Limit, criterion_at, limit_at};
pub use loads::bending_limit;
pub use rows::Rows;
pub use stretches::{Stretch, Stretches};
pub use unmet::{NOTHING_UNMET, Unmet, unmet_of};
pub use values::Value;
pub use walks::note_line;
