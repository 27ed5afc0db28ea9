//! Sessions and the desk: a planner tries changes of an order of lifts, sees their effect at once,
//! takes back what didn't help, and publishes the list to colleagues.
//!
//! [`Ground`] is a ship and what is aboard of her on arrival. A [`Session`] holds a list of steps
//! that goes on from there: [`Session::apply`] makes an edit where every step of the edited list
//! can be done, [`Session::undo`] takes the last one back, and [`Session::judge`],
//! [`Session::first_fail`] and [`Session::report`] say what a fresh run on the list says. A
//! [`Desk`] keeps lists that were published, and [`Desk::open`] makes a session of one.
#![tactic(auto)]

mod desks;
mod editing;
mod moves;
mod passing;
mod sessions;
mod singles;
mod summed_lists;
mod tickets;

pub use desks::Desk;
pub use port_call::Ground;
pub use sessions::Session;
pub use step_edits::{Edit, EditFault};
pub use tickets::Ticket;
