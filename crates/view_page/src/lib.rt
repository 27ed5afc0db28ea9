//! The page of a port call: one file of HTML that holds all that it shows, for the papers of the
//! port call. It reads without its script, which adds the figures under the pointer alone.
//!
//! [`page_of`] makes it of what [`view_curves::charted_in`] gives, for which workers judge each
//! condition once: what is found of it, and the figures that are drawn.
#![tactic(auto)]

mod charts;
mod curves;
mod drawn_runs;
mod envelopes;
mod escaping;
mod grids;
mod levers;
mod pages;
mod rows;
mod steps;
mod style;
mod tables;
mod tight_steps;

pub use pages::{Conditions, ReadInputs, page_of};
