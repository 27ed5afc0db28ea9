//! Tests of `hydrostat`, `righting`, `strength`, `criteria`, `fractions` and `view_figures`, which
//! go by their public calls alone. They stand apart since the tests of a crate are proved together
//! with all of it once more.
#![tactic(auto)]

#[cfg(test)]
mod checks;
#[cfg(test)]
mod comparing;
#[cfg(test)]
mod floating;
#[cfg(test)]
mod judging;
#[cfg(test)]
mod levers;
#[cfg(test)]
mod loads;
#[cfg(test)]
mod masses;
#[cfg(test)]
mod printing;
#[cfg(test)]
mod worst;
