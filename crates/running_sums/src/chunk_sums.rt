//! What is aboard at the first line of each chunk of a report, added up.
ghost use Rattle.std.specs.Prelude.{◌≡◌, ◌+◌, ◌-◌, ◌<◌, ◌≤◌, List, length, IfOk};
ghost use Rattle.std.specs.List.{range_with_len};
ghost use Rattle.units_core.specs.Bodies.{Mass};
ghost use Rattle.prefix_scan.specs.Cut.{Divides, start_of};
ghost use Rattle.lift_sequence.specs.Limits.{most_bodies};
ghost use Rattle.moment_sums.specs.Kept.{size_of, values};
ghost use Rattle.moment_sums.specs.Sum.{sum_of};
ghost use Rattle.running_sums.specs.Lines.{AreFirstSums, chunk_of};

use crate::chunks::{chunk_total, join_to_arrival};
use claim_run::{Gate, Job, Workers, run};
use lift_sequence::Sequence;
use moment_sums::Totals;
use prefix_scan::{Cuts, offsets};
use std::alloc::{AllocError, Global};
use std::ops::Range;
use std::sync::Wait;
use std::thread::Threads;
use units_core::Frames;

/// What the steps behind the lines of each chunk change, as a job for workers.
#[derive(Drop)]
pub struct Changes<'a> {
    pub sequence: &'a Sequence,
    pub frames: &'a Frames,
    pub cuts: &'a Cuts,
    pub ghost cut: { Divides cuts.now (length sequence.now.ops + 1) },
}

impl<'a> Job for Changes<'a> {
    ghost use Rattle.std.specs.Prelude.{length};
    ghost use Rattle.running_sums.specs.Lines.{changes_behind, chunk_of};

    type Out = Totals;

    ghost value = { λ s k. changes_behind s.frames.now s.sequence.now.steps
        (chunk_of s.cuts.now k) };

    ghost pieces = { λ s. length s.cuts.now };

    fn piece(&self, _alloc: Global, k: u32) -> Result<Totals, AllocError> {
        let lines = lines_of(self.sequence, self.cuts, k);
        Ok(chunk_total(self.sequence, self.frames, lines.start, lines.end))
    }
}

/// How many chunks the cuts make of the lines of a sequence's report.
pub fn chunk_count(sequence: &Sequence, cuts: &Cuts) -> u32
    requires { Divides cuts.now (length sequence.now.ops + 1) }
    ensures { result ≡ length cuts.now }
{
    sequence.facts();
    cuts.chunks() as u32
}

/// The lines of chunk `k`.
pub fn lines_of(sequence: &Sequence, cuts: &Cuts, k: u32) -> Range<u32>
    requires cut { Divides cuts.now (length sequence.now.ops + 1) }
    requires there { k < length cuts.now }
    ensures start { result.start ≡ start_of cuts.now k }
    ensures lines { range_with_len result.start (result.end - result.start) ≡ chunk_of cuts.now k }
    ensures some { result.start < result.end }
    ensures inside { result.end ≤ length sequence.now.ops + 1 }
{
    cuts.range(k as usize)
}

/// The sum at the first line of each chunk. Workers add up what changes in each chunk. `total` is
/// everything that is aboard on arrival, added up.
pub fn first_sums<G: Gate, R: Threads + Wait + Sync>(
    rt: &R,
    alloc: Global,
    gate: &G,
    workers: Workers,
    changes: &Changes<'_>,
    total: &Totals,
) -> Result<Vec<Totals>, AllocError>
    requires { size_of total.now ≤ most_bodies }
    ensures { IfOk result (λ sums. (arrival : List Mass)
        → values total.now ≡ sum_of changes.now.frames.now arrival
        → AreFirstSums changes.now.frames.now arrival changes.now.sequence.now.steps
        changes.now.cuts.now sums.items) }
{
    changes.sequence.facts();
    // The number of frames is known where they are shown.
    let _ = changes.frames.as_slice();
    let chunks = chunk_count(changes.sequence, changes.cuts);
    let totals = run(rt, alloc, gate, workers, chunks, changes)?;
    let before = offsets(alloc, &totals)?;
    join_to_arrival(alloc, total, &before)
}
