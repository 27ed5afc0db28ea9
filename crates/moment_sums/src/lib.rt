//! What is aboard, added up: mass, moments, free surface moments, and the shares aft of each frame.
//! [`Totals`] are joined as a monoid: the sum after a step is the sum before it joined with what
//! the step changes, [`Totals::of_step`]; [`Totals::add_step`] makes it in place.
#![tactic(auto)]

mod changes;
mod limits;
mod rows;
mod shares;
mod totals;

pub use shares::{moment_aft, weight_aft};
pub use totals::Totals;
