//! Which conditions are drawn as failing.
use plain_text::count_of;
use std::alloc::{AllocError, Global};
use view_curves::{STRETCHES, WHOLE, start_of};
use view_texts::Run;

/// Whether one of the conditions from one to another is in one of the runs, which are in their
/// order.
fn touches(runs: &[Run], start: u32, end: u32) -> bool {
    let before = runs.partition_point(|run| run.last < start);
    match runs.get(before) {
        Some(run) => run.first < end,
        None => false,
    }
}

/// The runs of conditions that are drawn as failing, of these that fail: of a long list the
/// stretches that have one.
pub fn drawn_runs(alloc: Global, runs: &[Run], conditions: usize) -> Result<Vec<Run>, AllocError> {
    let mut drawn = Vec::new(alloc);
    if conditions <= WHOLE {
        drawn.extend_from_slice(runs)?;
        return Ok(drawn);
    }
    let mut open: Option<Run> = None;
    for stretch in 0..STRETCHES {
        let start = count_of(start_of(stretch, conditions));
        let end = count_of(start_of(stretch + 1, conditions));
        if touches(runs, start, end) {
            let first = match open {
                Some(run) => run.first,
                None => start,
            };
            open = Some(Run {
                first,
                last: end.saturating_sub(1),
            });
        } else if let Some(run) = open {
            drawn.push(run)?;
            open = None;
        }
    }
    if let Some(run) = open {
        drawn.push(run)?;
    }
    Ok(drawn)
}
