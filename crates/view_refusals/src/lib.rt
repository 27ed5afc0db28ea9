//! A refusal, explained: what is the matter, in which file, record or segment, what the ship or the
//! message has there, how many more there are, and what to do ([`refusal_of`]).
//!
//! A quoted segment is the one of its number in the text ([`edifact_text::segment_at`]), a quoted
//! record the one of its number in its table ([`view_quotes::line_of_record`]), and who stands in a
//! cell is the one of the definition of what is aboard ([`view_quotes::stands`]).
#![tactic(auto)]

mod advice;
mod columns;
mod neighbours;
mod refusals;
mod refused_cargo;
mod refused_edits;
mod refused_messages;
mod refused_profile;
mod refused_records;
mod refused_steps;
mod refused_tables;
mod ship_limits;
mod told;

pub use refusals::{profile_refusal_of, refusal_of, unread_file};
pub use refused_edits::{edit_refusal, first_named};
