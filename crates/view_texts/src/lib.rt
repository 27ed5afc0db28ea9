//! The texts that a planner reads of a port call: one screen to accept it by ([`summary_front`]),
//! the first condition that fails in words ([`explanation_of`]), and the sheet of any condition
//! ([`add_sheet`]).
//!
//! The figures are those of `view_figures` and `worst_values`; what is here is text alone, and
//! proved to be safe.
#![tactic(auto)]

mod advice;
mod differences;
mod explanations;
mod listings;
mod records;
mod rows;
mod sheets;
mod sources;
mod steps;
mod summaries;
mod unmet;

pub use differences::changes;
pub use explanations::explanation_of;
pub use listings::listing;
pub use records::{end_line, run_line};
pub use rows::{RowText, percent_text, row_text, tightest, value_text};
pub use sheets::{add_sheet, condition_rows, load_texts, row_by};
pub use sources::{Message, Sources, digest_of, message_source, profile_source, steps_digest};
pub use steps::{deed_by, lift_at};
pub use summaries::{
    Odd, VERSION, add_worst_table, fails_words, summary_front, tightest_line, verdict_line,
    worst_rows,
};
pub use unmet::{Run, failing_runs};
