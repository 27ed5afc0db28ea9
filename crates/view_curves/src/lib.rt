//! The curves of the page of a port call: which figures of its conditions are drawn, and where.
//!
//! [`charted_in`] judges each condition once, by workers: what is found of it, and the figures that
//! are drawn ([`Series`]). Of a long list of conditions the curves show the first, the last, the
//! least and the greatest of each stretch ([`drawn_points`]). [`Scale`] says where a figure lies in
//! its chart, [`x_of`] where a step.
//!
//! The definitions are `Series`, `Charted`, `Decimation` and `Scales` of `specs/`.
#![tactic(auto)]

mod charted;
mod decimation;
mod loads;
mod percents;
mod scales;
mod series;
mod walks;

pub use charted::{Charted, charted_in};
pub use decimation::{STRETCHES, WHOLE, drawn_points, start_of};
pub use loads::{FRAMES, Load, Reach, Reaches};
pub use percents::percent_of;
pub use scales::{BOTTOM, Extent, Height, LEFT, RIGHT, Scale, TOP, Tenths, tick_step, x_of};
pub use series::{Beside, Figure, Plotted, Series};
