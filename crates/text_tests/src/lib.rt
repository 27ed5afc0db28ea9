//! Tests of `units_core`, `decimal_text`, `csv_text`, `edifact_text`, `stow_messages` and
//! `command_line`, which go by their public calls alone. They stand apart since the tests of a
//! crate are proved together with all of it once more.
#![tactic(auto)]

#[cfg(test)]
mod checks;
#[cfg(test)]
mod command_lines;
#[cfg(test)]
mod interchanges;
#[cfg(test)]
mod messages;
#[cfg(test)]
mod numbers;
#[cfg(test)]
mod placed;
#[cfg(test)]
mod plain_texts;
#[cfg(test)]
mod records;
#[cfg(test)]
mod steps_files;
#[cfg(test)]
mod units;
