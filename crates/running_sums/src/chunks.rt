ghost use Rattle.std.specs.Prelude.{◌≡◌, ◌+◌, ◌-◌, ◌^◌, ◌<◌, ◌≤◌, ℕ, length, map, slice_get};
ghost use Rattle.std.specs.Prelude.{slice_index_or, IfOk};
ghost use Rattle.std.specs.List.{range_with_len};
ghost use Rattle.prefix_scan.specs.Laws.{most_parts};
ghost use Rattle.lift_sequence.specs.Limits.{most_bodies};
ghost use Rattle.moment_sums.specs.Kept.{Kept, both_kept, size_of};
ghost use Rattle.running_sums.specs.Lines.{bodies_in, change_behind, changes_behind};

use lift_sequence::Sequence;
use moment_sums::Totals;
use prefix_scan::Monoid;
use std::alloc::{AllocError, Global};
use units_core::Frames;

/// Adds to a sum what changes behind line `k`; nothing changes behind the last line.
pub fn pass_line(sequence: &Sequence, frames: &Frames, k: u32, sum: &mut Totals)
    requires there { k ≤ length sequence.now.ops }
    requires room { size_of sum.old + bodies_in (slice_get sequence.now.steps k) ≤ most_parts }
    ensures { sum.new ≡ both_kept sum.old (change_behind frames.now sequence.now.steps k) }
{
    sequence.facts();
    let k = k as usize;
    if k == sequence.len() {
        return;
    }
    sum.add_step(&sequence.step(k + 1), frames);
}

/// What the steps behind the lines from `start` to `end` change together.
pub fn chunk_total(sequence: &Sequence, frames: &Frames, start: u32, end: u32) -> Totals
    requires some { start < end }
    requires there { end ≤ length sequence.now.ops + 1 }
    ensures { result
        ≡ changes_behind frames.now sequence.now.steps (range_with_len start (end - start)) }
{
    sequence.facts();
    let mut sum = Totals::unit();
    for k in start..end {
        pass_line(sequence, frames, k, &mut sum);
    }
    sum
}

/// Each of the sums with what is aboard on arrival before it.
pub fn join_to_arrival(
    alloc: Global,
    arrival: &Totals,
    changes: &[Totals],
) -> Result<Vec<Totals>, AllocError>
    requires arrival { size_of arrival.now ≤ most_bodies }
    requires sizes { (c : ℕ) (d : Kept) → c < length changes.now
        → size_of (slice_index_or changes.now c d) ≤ 2 ^ 18 }
    ensures { IfOk result (λ sums. sums.items ≡ map (both_kept arrival.now) changes.now) }
{
    let mut sums = Vec::with_capacity(alloc, changes.len())?;
    for change in changes {
        sums.push(arrival.join(change))?;
    }
    Ok(sums)
}
