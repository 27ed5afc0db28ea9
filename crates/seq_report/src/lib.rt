//! The report: what the ship's files, the bay plan, the movement instruction and the planner's
//! steps say of every step, written line by line to a sink, with the first step that fails and
//! every refusal in a fixed order.
#![tactic(auto)]

mod causes;
mod columns;
mod complete;
mod deciding;
mod failures;
mod jobs;
mod laws;
mod lifts;
mod lines;
mod plans;
mod runs;
mod sections;
mod sink;
mod step_lines;
mod sums;

pub use causes::cause_word;
pub use complete::Summary;
pub use criteria::Criterion;
pub use failures::{first_fail, first_fail_behind};
pub use jobs::Lines;
pub use laws::sums_are_folds;
pub use lines::write_last_line;
pub use plans::{CutPlan, Options, cuts_of};
pub use port_call::{Inputs, RunFault};
pub use runs::{report, report_from};
pub use sections::Chunk;
pub use sink::{Sink, SinkFailed, Through, put_all};
pub use sums::{sums_of, walk_on};
