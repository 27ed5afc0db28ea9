//! The steps that use most of a limit.
use plain_text::count_of;
use std::alloc::{AllocError, Global};
use units_core::Frac;
use view_figures::Greatest;

/// How many of the tightest steps are listed.
const TIGHTEST: usize = 10;

/// The first condition from one on that is further than so many from each of some others.
fn first_apart(steps: &[u32], from: u32, apart: u32) -> u32 {
    let mut first = from;
    // behind one of them may begin what is too near to another, which was looked at before
    for _ in 0..steps.len() {
        for other in steps {
            if other.abs_diff(first) <= apart {
                first = other.saturating_add(apart).saturating_add(1);
            }
        }
    }
    first
}

/// Where the conditions from such a one on end that are so.
fn end_apart(steps: &[u32], first: u32, apart: u32, conditions: u32) -> u32 {
    let mut end = conditions;
    for other in steps {
        if *other > first {
            end = end.min(other.saturating_sub(apart));
        }
    }
    end
}

/// A step, and how much of a limit it uses.
#[derive(Clone, Copy)]
struct Tight {
    step: u32,
    used: Greatest,
}

/// Whether a condition uses more of a limit than the one that was found, if there is one.
fn is_tighter(found: &Option<Tight>, share: Option<Frac>) -> bool {
    match found {
        Some(tight) => tight.used.is_below(share),
        None => true,
    }
}

/// The tighter of a condition and some of those behind it.
fn tighter_in(
    found: Option<Tight>,
    shares: &[Option<Frac>],
    first: u32,
    end: u32,
) -> Option<Tight> {
    let mut found = found;
    for step in first..end {
        if let Some(share) = shares.get(step as usize) {
            if is_tighter(&found, *share) {
                found = Some(Tight {
                    step,
                    used: Greatest::of(*share),
                });
            }
        }
    }
    found
}

/// The condition that uses most of a limit, of several the first, among those further than so many
/// from each of some others. There is at most one run of such conditions more than others.
fn next_tightest(shares: &[Option<Frac>], steps: &[u32], apart: u32) -> Option<u32> {
    let conditions = count_of(shares.len());
    let mut found: Option<Tight> = None;
    let mut from = 0u32;
    for _ in 0..=steps.len() {
        let first = first_apart(steps, from, apart);
        let end = end_apart(steps, first, apart, conditions);
        found = tighter_in(found, shares, first, end);
        from = end.max(first);
    }
    match found {
        Some(tight) => Some(tight.step),
        None => None,
    }
}

/// The tightest steps: each uses most of a limit among those further from all before it than a
/// twentieth of all conditions.
pub fn tight_steps(alloc: Global, shares: &[Option<Frac>]) -> Result<Vec<u32>, AllocError> {
    let conditions = count_of(shares.len());
    let apart = (conditions / 20).max(1);
    let mut steps = Vec::new(alloc);
    for _ in 0..TIGHTEST {
        match next_tightest(shares, steps.as_slice(), apart) {
            Some(step) => steps.push(step)?,
            None => break,
        }
    }
    Ok(steps)
}
