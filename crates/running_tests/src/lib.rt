//! Tests of `port_call`, `running_sums`, `seq_report` and `worst_values`, and of the walk of
//! `view_curves` over a port call; of `what_if`; and of `run_files` and `program`. They go by the
//! public calls alone, and stand apart since the tests of a crate are proved together with all of
//! it once more. They are one crate since what they load takes as long as half of their proofs.
#![tactic(auto)]

#[cfg(test)]
mod checks;
#[cfg(test)]
mod reports;
#[cfg(test)]
mod runs;
#[cfg(test)]
mod sessions;
