//! Every figure of every condition, for other programs: a line for each, as comma-separated values
//! or as an object of JSON, written part by part ([`write_lines`]).
#![tactic(auto)]

mod figures;
mod forms;
mod judged;
mod judging;
mod lines;
mod moved;
mod steps;
mod tables;

pub use forms::{Form, add_json_text};
pub use moved::MovedBy;
pub use steps::op_at;
pub use tables::{TableFault, csv_heading, write_lines};
