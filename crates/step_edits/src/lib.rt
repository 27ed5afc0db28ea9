//! Edits of a list of steps, as a planner makes them: two steps swapped, a step moved, removed or
//! inserted, the weight of a load replaced. Steps are numbered from 1.
//!
//! [`fault_of`] says why an edit of a list can't be done, [`edit_list`] gives the list after it,
//! and [`inverse`] the edit that takes it back. Whether the steps of the edited list can be carried
//! out is checked by [`lift_sequence::Sequence`].
#![tactic(auto)]

mod edits;
mod faults;
mod laws;
mod lists;

pub use edits::Edit;
pub use faults::EditFault;
pub use laws::inverse_takes_back;
pub use lists::{copies, copy_into, edit_list, fault_of, inverse};
