//! Tests of `view_quotes`, `view_inputs`, `view_profile`, `view_refusals` and `view_curves`, which
//! go by their public calls alone. What they print of whole inputs is tested by runs of the
//! program, in `tests/program.d`.
#![tactic(auto)]

#[cfg(test)]
mod cargo;
#[cfg(test)]
mod checks;
#[cfg(test)]
mod curves;
#[cfg(test)]
mod messages;
#[cfg(test)]
mod quotes;
#[cfg(test)]
mod ships;
#[cfg(test)]
mod tables;
