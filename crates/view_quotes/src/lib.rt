//! What the view quotes, each by its definition: the record of a number and the line on which it
//! stands ([`line_of_record`]), who is in a cell after some steps ([`stands`]), the segment of a
//! number ([`segments_are_numbered`]), and the figures of a profile in print ([`frame_in_print`]).
#![tactic(auto)]

mod figures;
mod laws;
mod printed;
mod records;
mod standing;

pub use figures::{
    column_ends, column_number, metres, tenths_of_tonnes, tonne_metres, tonnes, trimming_moment,
    whole_tonnes,
};
pub use laws::segments_are_numbered;
pub use printed::{
    FrameColumn, HydroColumn, Reach, ShipLimit, frame_in_print, hydro_in_print, limit_in_print,
    reach_in_metres, reach_in_tonnes, surface,
};
pub use records::{
    NumberedLine, PlainLines, field, line_of_record, number_at, record_at, split_field,
};
pub use standing::{Standing, stands};
