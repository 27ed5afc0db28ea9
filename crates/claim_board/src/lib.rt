//! The board of a parallel run as a pure machine over events: workers draw the numbers of chunks,
//! look at the least failing step, skip or work the chunk, and post the failing step that they
//! find. What is true after every list of events is proved here, for every number of workers.
#![tactic(auto)]

mod entries;
mod events;
mod laws;
mod outcomes;
mod workers;
mod world;

pub use entries::{Entry, Stage};
pub use events::Event;
pub use laws::for_every_run;
pub use world::World;
