//! The tables of a ship's profile, as six files of comma-separated values write them: the cells and
//! the places of containers in them, the hydrostatic table, the righting levers, the Bonjean
//! curves, the tanks, and the least metacentric heights of a ship that has such limits.
//! [`Tables::read`] gives all of them or the first fault of the files; what it gives never changes,
//! and the look-ups take no memory.
#![tactic(auto)]

mod cell_lists;
mod curves;
mod extents;
mod faults;
mod forms;
mod hydrostatics;
mod laws;
mod layouts;
mod places;
mod plain_cells;
mod reading;
mod readings;
mod rows;
mod table_set;
mod tanks;
mod texts;

pub use curves::Curves;
pub use extents::Extent;
pub use faults::{File, TableFault};
pub use hydrostatics::Hydro;
pub use laws::{one_file, one_record, one_set, sound_hydro_is_read};
pub use readings::{curve_gap, curve_reading};
pub use table_set::Tables;
pub use texts::TableTexts;
