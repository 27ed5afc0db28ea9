//! Threads that draw the numbers of chunks from a shared board, each chunk to one of them, with an
//! early stop: a chunk isn't looked at once a failing step before it is known. The answers are
//! those of one thread, for every number of workers and every schedule.
//!
//! [`run`] and [`run_least`] are the whole: they start as many threads as workers over one
//! [`Board`]'s table and join them all. A [`Board`] serves threads of a caller's own. It knows no
//! ship.
#![tactic(auto)]

mod board;
mod jobs;
mod laws;
mod runs;
mod scouts;
mod shared_board;
mod slots;
mod steps;
mod table;
mod threads;
mod turns;
mod views;
mod work;
mod workers;

pub use board::Board;
pub use jobs::Job;
pub use laws::every_state_is_right;
pub use runs::{run, run_least};
pub use scouts::{FindsNothing, Gate, Open, Scout};
pub use shared_board::Hand;
pub use workers::Workers;
