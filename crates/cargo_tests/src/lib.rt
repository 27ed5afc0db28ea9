//! Tests of `lift_sequence`, `step_edits`, `edits_file` and `moment_sums`, which go by their public
//! calls alone. They stand apart since the tests of a crate are proved together with all of it once
//! more.
#![tactic(auto)]

#[cfg(test)]
mod checks;
#[cfg(test)]
mod edits;
#[cfg(test)]
mod edits_files;
#[cfg(test)]
mod lifts;
#[cfg(test)]
mod sums;
