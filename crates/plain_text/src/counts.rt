//! Counts, and runs of numbers.
use std::alloc::{AllocError, Global};

/// How many runs of numbers are printed.
const RUNS: usize = 4;

/// A count of things in memory as a text has it, which are fewer than 2^32 in any input that is
/// read; of more the greatest number of 32 bits.
pub fn count_of(count: usize) -> u32 {
    u32::try_from(count).unwrap_or(u32::MAX)
}

/// So many of something: `1 lift`, `2 lifts`.
pub fn many(alloc: Global, count: u32, one: &str) -> Result<String, AllocError> {
    let more = if count == 1 { "" } else { "s" };
    let text = format!(in alloc; "{count} {one}{more}")?;
    Ok(text)
}

/// So many of something whose word of several is given: `1 mass`, `2 masses`.
pub fn many_of(alloc: Global, count: u32, one: &str, more: &str) -> Result<String, AllocError> {
    let word = if count == 1 { one } else { more };
    let text = format!(in alloc; "{count} {word}")?;
    Ok(text)
}

/// Numbers that rise, as runs in print: `1 to 3, 7`; at most four runs, then `..`.
#[derive(Debug, Drop)]
pub struct Runs {
    text: String,
    count: usize,
    /// The first and the last number of the run that may go on.
    open: Option<(u32, u32)>,
}

impl Runs {
    /// No number yet.
    pub fn new(alloc: Global) -> Runs {
        Runs {
            text: String::new(alloc),
            count: 0,
            open: None,
        }
    }

    /// Adds the numbers from one to another, which are greater than those before.
    pub fn add(&mut self, first: u32, last: u32) -> Result<(), AllocError> {
        if let Some((start, end)) = self.open {
            if first == end.saturating_add(1) {
                self.open = Some((start, last));
                return Ok(());
            }
            self.close(start, end)?;
        }
        self.open = Some((first, last));
        Ok(())
    }

    /// Adds a run that doesn't go on.
    fn close(&mut self, first: u32, last: u32) -> Result<(), AllocError> {
        if self.count > RUNS {
            return Ok(());
        }
        let between = if self.count == 0 { "" } else { ", " };
        if self.count == RUNS {
            write!(self.text, "{between}..")?;
        } else if first == last {
            write!(self.text, "{between}{first}")?;
        } else {
            write!(self.text, "{between}{first} to {last}")?;
        }
        self.count = self.count.saturating_add(1);
        Ok(())
    }

    /// The runs in print.
    pub fn into_text(mut self) -> Result<String, AllocError> {
        if let Some((first, last)) = self.open {
            self.close(first, last)?;
        }
        let Runs { text, .. } = self;
        Ok(text)
    }
}
