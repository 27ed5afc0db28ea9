//! How a ship floats: metacentric height, draughts, trim and list, read at her displacement in her
//! hydrostatic table.
#![tactic(auto)]

mod draught_lines;
mod draughts;
mod figures;
mod numerators;
mod outside;
mod particulars;
mod ratios;
mod unit_quotients;
mod waterlines;

pub use draught_lines::DraughtLine;
pub use draughts::draught;
pub use figures::{Floating, floating_of};
pub use outside::Outside;
pub use particulars::Afloat;
pub use ratios::{gm_of, list_of, mean_of, trim_of};
pub use waterlines::{on_waterline, upright};
