//! A port call: a ship, what is aboard of her on arrival, and the steps from there, each of which
//! can be done.
//!
//! [`Inputs`] are the texts that a run reads. [`PortCall::read`] makes a port call of them, or says
//! which input is refused first, and why ([`InputFault`]). It has a [`Ground`], which is the ship
//! with what is aboard of her on arrival, and a sequence of steps from there. Reports and searches
//! look at it as a [`Case`]. What is aboard after any step has sums within known bounds: laws over
//! the definitions.
#![tactic(auto)]

mod arrivals;
mod calls;
mod cases;
mod faults;
mod grounds;
mod inputs;
mod laws;
mod printed;
mod readings;
mod refusals;

pub use calls::PortCall;
pub use cases::Case;
pub use faults::{InputFault, RunFault};
pub use grounds::Ground;
pub use inputs::Inputs;
pub use laws::{aboard_is_bounded, sequences_are_bounded};
pub use printed::printable;
pub use refusals::cuts_refusal;
