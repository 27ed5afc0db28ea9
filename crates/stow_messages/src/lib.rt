//! The messages that say what is aboard and what is moved: the bay plan (BAPLIE of UN/EDIFACT
//! directory D.95B) as a list of items, the movement instruction (MOVINS) as a list of lifts, and a
//! planner's steps file as a list of rows: the order of the lifts, with the changes of tanks and
//! the restows among them.
#![tactic(auto)]

mod faults;
mod groups;
mod instructions;
mod items;
mod known;
mod laws;
mod lifts;
mod parts;
mod plans;
mod step_faults;
mod step_files;
mod step_rows;
mod weights;

pub use faults::{StowCode, StowFault};
pub use groups::{SegmentKind, kind_of};
pub use instructions::movins;
pub use items::{Item, copy_text};
pub use laws::{one_bay_plan, one_movement_instruction, one_steps_file};
pub use lifts::Lift;
pub use plans::baplie;
pub use step_faults::{StepsCode, StepsFault};
pub use step_files::steps;
pub use step_rows::StepRow;
pub use weights::kilograms;
