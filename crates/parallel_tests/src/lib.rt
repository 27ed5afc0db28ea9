//! Tests of `prefix_scan`, `claim_board` and `claim_run`, which go by their public calls alone.
//! They stand apart since the tests of a crate are proved together with all of it once more.
#![tactic(auto)]

#[cfg(test)]
mod boards;
#[cfg(test)]
mod checks;
mod chunks;
mod counts;
mod notes;
#[cfg(test)]
mod runs;
#[cfg(test)]
mod scans;

pub use chunks::{ThreeChunks, three_chunks};
pub use counts::Counts;
pub use notes::{Notes, notes_of};
