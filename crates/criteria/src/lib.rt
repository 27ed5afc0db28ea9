//! The criteria: whether a condition meets each, and the first that it doesn't meet. [`judge`]
//! answers that of one condition with its exact figures; [`judge_into`], for one condition after
//! another, with the figures rounded as a report prints them; and [`exact_into`] gives the numbers
//! by which each criterion is decided ([`is_met`]).
#![tactic(auto)]

mod criterion;
mod decisions;
mod exact;
mod exactly;
mod failing;
mod figures;
mod frames;
mod holding;
mod judging;
mod laws;
mod levers;
mod limits;
mod measures;
mod reciprocals;
mod rounded;
mod rounding;
mod verdicts;

pub use criterion::Criterion;
pub use exact::Exact;
pub use exactly::exact_into;
pub use failing::first_failed;
pub use figures::Figures;
pub use holding::is_met;
pub use judging::{Nearby, judge_into};
pub use laws::judges_in_order;
pub use measures::CurveMeasures;
pub use rounded::RoundedFigures;
pub use verdicts::{Verdict, judge};
