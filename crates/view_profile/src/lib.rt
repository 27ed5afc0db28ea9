//! A ship's profile read back to her owner: in tonnes, metres and degrees ([`profile_text`]), with
//! a warning for whatever looks wrong ([`warnings_on`]). A warning refuses nothing.
#![tactic(auto)]

mod cell_checks;
mod closing;
mod curve_checks;
mod figures;
mod hydro_checks;
mod limit_checks;
mod profile_texts;
mod sections;
mod tank_checks;
mod warnings;

pub use closing::Closing;
pub use profile_texts::profile_text;
pub use warnings::{Parts, warnings_on};
