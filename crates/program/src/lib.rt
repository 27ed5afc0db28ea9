//! The whole program over readers and writers: it reads the files that a command line names, writes
//! what the line asks for, and answers the exit status, with one line on what stopped it. `loadseq`
//! calls [`serve`] with the system's words, files and streams.
#![tactic(auto)]

mod serving;
mod trials;
mod writers;

pub use serving::serve;
