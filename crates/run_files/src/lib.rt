//! The files that a command line names, read whole ([`read_texts`]) from wherever a caller has them
//! ([`Readers`]), files that a run makes ([`Makers`]), and what ends a run without its whole report
//! ([`Stop`]), with the exit status and the one line on standard error.
#![tactic(auto)]

mod files;
mod folders;
mod makers;
mod stops;

pub use files::{Disk, LIMIT, Readers, Unopened};
pub use folders::{Folder, Texts, read_file, read_folder, read_texts};
pub use makers::{Makers, Unmade};
pub use stops::{Stop, report_stop, status_on};
