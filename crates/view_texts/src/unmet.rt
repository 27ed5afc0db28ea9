//! Which conditions don't meet a criterion: how many, and in which runs of steps.
ghost use Rattle.std.specs.Prelude.{◌<◌};

use criteria::Criterion;
use plain_text::Runs;
use std::alloc::{AllocError, Global};
use worst_values::{Stretch, Stretches};

/// The mark of a criterion among those of a line.
pub fn mark_of(criterion: Criterion) -> usize
    ensures { result < 12 }
{
    match criterion {
        Criterion::C0 => 0,
        Criterion::C1 => 1,
        Criterion::C2 => 2,
        Criterion::C3 => 3,
        Criterion::C4 => 4,
        Criterion::C5 => 5,
        Criterion::C6 => 6,
        Criterion::C7 => 7,
        Criterion::C8 => 8,
        Criterion::C9 => 9,
        Criterion::C10 => 10,
        Criterion::C11 => 11,
    }
}

/// The stretch of a number, the last one behind all.
fn stretch_at(stretches: &Stretches, number: usize) -> &Stretch {
    let (closed, last) = stretches.parts();
    match closed.get(number) {
        Some(stretch) => stretch,
        None => last,
    }
}

/// How many stretches there are.
fn count_of(stretches: &Stretches) -> usize {
    let (closed, _) = stretches.parts();
    closed.len().saturating_add(1)
}

/// Whether a line has the mark of a number: of criterion 0 to 11, or of a cause behind them.
fn has(stretch: &Stretch, mark: usize) -> bool {
    match stretch.unmet.get(mark) {
        Some(is_marked) => *is_marked,
        None => false,
    }
}

/// How many lines have a mark.
pub fn lines_with(stretches: &Stretches, mark: usize) -> u32 {
    let mut lines = 0u32;
    for number in 0..count_of(stretches) {
        let stretch = stretch_at(stretches, number);
        if has(stretch, mark) {
            lines = lines.saturating_add(stretch.lines);
        }
    }
    lines
}

/// The number of the first mark of a criterion that a line has.
fn first_mark(stretch: &Stretch) -> Option<usize> {
    for mark in 0..12usize {
        if has(stretch, mark) {
            return Some(mark);
        }
    }
    None
}

/// How many lines don't meet some criterion.
pub fn failing_lines(stretches: &Stretches) -> u32 {
    let mut lines = 0u32;
    for number in 0..count_of(stretches) {
        let stretch = stretch_at(stretches, number);
        if first_mark(stretch).is_some() {
            lines = lines.saturating_add(stretch.lines);
        }
    }
    lines
}

/// The first line with a mark.
pub fn first_with(stretches: &Stretches, mark: usize) -> Option<u32> {
    let mut line = 0u32;
    for number in 0..count_of(stretches) {
        let stretch = stretch_at(stretches, number);
        if has(stretch, mark) && stretch.lines > 0 {
            return Some(line);
        }
        line = line.saturating_add(stretch.lines);
    }
    None
}

/// The lines with a mark, as runs of numbers: `1 to 3, 7`; at most four, then `..`.
pub fn runs_with(alloc: Global, stretches: &Stretches, mark: usize) -> Result<String, AllocError> {
    let mut runs = Runs::new(alloc);
    let mut line = 0u32;
    for number in 0..count_of(stretches) {
        let stretch = stretch_at(stretches, number);
        let behind = line.saturating_add(stretch.lines);
        if has(stretch, mark) && line < behind {
            runs.add(line, behind.saturating_sub(1))?;
        }
        line = behind;
    }
    runs.into_text()
}

/// Lines that follow each other.
#[derive(Clone, Copy, Debug, PartialEq, Eq)]
pub struct Run {
    pub first: u32,
    pub last: u32,
}

/// A run behind others, the last of which may still go on: what goes on now.
fn next_open(runs: &mut Vec<Run>, open: Option<Run>, run: Run) -> Result<Run, AllocError> {
    let Some(before) = open else {
        return Ok(run);
    };
    if before.last.saturating_add(1) == run.first {
        return Ok(Run {
            first: before.first,
            last: run.last,
        });
    }
    runs.push(before)?;
    Ok(run)
}

/// The lines that don't meet some criterion, in runs.
pub fn failing_runs(alloc: Global, stretches: &Stretches) -> Result<Vec<Run>, AllocError> {
    let mut runs = Vec::new(alloc);
    let mut open = None;
    let mut line = 0u32;
    for number in 0..count_of(stretches) {
        let stretch = stretch_at(stretches, number);
        let behind = line.saturating_add(stretch.lines);
        if first_mark(stretch).is_some() && line < behind {
            let last = behind.saturating_sub(1);
            open = Some(next_open(&mut runs, open, Run { first: line, last })?);
        }
        line = behind;
    }
    if let Some(run) = open {
        runs.push(run)?;
    }
    Ok(runs)
}
