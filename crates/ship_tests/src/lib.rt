//! Tests of `ship_tables` and `ship_profile`, which go by their public calls alone. They stand
//! apart since the tests of a crate are proved together with all of it once more.
#![tactic(auto)]

#[cfg(test)]
mod checks;
#[cfg(test)]
mod ships;
#[cfg(test)]
mod table_faults;
#[cfg(test)]
mod table_limits;
#[cfg(test)]
mod tables;
