//! A ship's profile, as her owner writes it once: her limits, stations, blocks, frames and fills in
//! `ship.toml`, and her six tables. [`Profile::read`] gives the whole profile or the first fault of
//! its files; what it gives never changes, and the look-ups take no memory.
#![tactic(auto)]

mod arrays;
mod blocks;
mod equality;
mod faults;
mod fills;
mod frames;
mod keys;
mod laws;
mod profiles;
mod sections;
mod ships;
mod stations;

pub use faults::{Key, ProfileFault};
pub use fills::TankFill;
pub use laws::{one_array, one_profile};
pub use profiles::{Profile, ProfileBytes};
pub use sections::{AREA_PARTS_LOG, AreaLine, Sections, StationWeight};
pub use ship_tables::{Curves, File, Hydro};
pub use units_core::{Frame, Frames};
