//! A session in which a planner tries an order: what a line of it orders ([`command_in`]), the
//! edits that were made, with the text that keeps them ([`Tried`]), and what was published
//! ([`Shelf`]).
#![tactic(auto)]

mod commands;
mod laws;
mod shelves;
mod tries;

pub use commands::{Command, LONGEST, Request, command_in};
pub use laws::kept_edits_lead;
pub use shelves::Shelf;
pub use tries::Tried;
