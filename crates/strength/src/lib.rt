//! The loads on a ship's hull: the shear forces and bending moments at her frames, and the closing
//! error. [`loads_of`] lists them for one condition. For one condition after another a [`Hull`] is
//! made once, and [`strains_into`] called for each, which writes the same numbers into [`Strains`].
#![tactic(auto)]

mod aboard;
mod area;
mod closing;
mod forces;
mod hull_loads;
mod hulls;
mod immersed;
mod loads;
mod rows;
mod stations;
mod strains;
mod sums;
mod walks;

pub use aboard::{strains_along, strains_into};
pub use closing::{closes, is_between};
pub use hull_loads::{loads_of, strains_afloat};
pub use hulls::Hull;
pub use loads::{FrameLoad, Loads, Strains};
pub use walks::Walk;
