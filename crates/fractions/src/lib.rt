//! Fractions in their exact order, and how values, limits and margins are printed.
//!
//! [`order`] compares two fractions whatever their size; where many are compared with one, a mark
//! beside it decides most of them at less cost ([`mark_above`], [`mark_below`]). [`down`] and
//! [`up`] round a value to a unit in print. What a reader may take from such figures is proved in
//! [`rounding_laws`]: a margin is negative exactly where the limit isn't kept; a kept limit never
//! shows a value beyond it, nor does a broken one a value within it; and more than 100 percent of a
//! limit are used exactly where it isn't kept.
//!
//! The definitions are `Order`, `Marks` and `Rounded` of `specs/`.
#![tactic(auto)]

mod laws;
mod marks;
mod orders;
mod products;
mod rounding;

pub use laws::rounding_laws;
pub use marks::{is_from_mark, is_up_to_mark, mark_above, mark_below};
pub use orders::{is_less, order};
pub use rounding::{down, up};
