ghost use Rattle.std.specs.Prelude.{◌≡◌, ◌+◌, ◌<◌, length, map};
ghost use Rattle.std.proofs.Props.{props};
ghost use Rattle.prefix_scan.specs.Cut.{Divides};
ghost use Rattle.strength.specs.Hull.{IsHullOf};
ghost use Rattle.port_call.specs.Views.{case_in_view};
ghost use Rattle.seq_report.specs.Cases.{IsChunk, line_in, lines_in};
ghost use Rattle.running_sums.specs.Lines.{AreFirstSums, chunk_of};
ghost use Rattle.seq_report.specs.Report.{first_of};

use crate::sections::{Chunk, Section, first_failing, make_section};
use claim_run::{Job, Scout};
use criteria::Criterion;
use decimal_text::FourDigits;
use moment_sums::Totals;
use port_call::Case;
use prefix_scan::Cuts;
use running_sums::{chunk_count, lines_of};
use std::alloc::{AllocError, Global};
use strength::Hull;

/// The lines of each chunk, for scouts that look for the first of them that fails.
#[derive(Drop)]
pub struct Lines<'a> {
    pub case: Case<'a>,
    pub hull: Hull,
    pub cuts: &'a Cuts,
    /// The sum at the first line of each chunk.
    pub sums: &'a [Totals],
    pub ghost of: { IsHullOf hull case.profile.now.ship } by { Prim.hlevel props },
    pub ghost cut: { Divides cuts.now (length case.sequence.now.ops + 1) },
    pub ghost sum: { AreFirstSums case.profile.now.ship.frames case.arrival.now.bodies
        case.sequence.now.steps cuts.now sums.now },
}

/// The text of the lines of each chunk, as a job for workers.
#[derive(Drop)]
pub struct Texts<'a> {
    pub lines: &'a Lines<'a>,
    /// The table by which all numbers are written, made once for all workers.
    pub digits: FourDigits,
}

impl<'a> Job for Texts<'a> {
    ghost use Rattle.std.specs.Prelude.{length, map};
    ghost use Rattle.port_call.specs.Views.{case_in_view};
    ghost use Rattle.seq_report.specs.Cases.{line_in};
    ghost use Rattle.running_sums.specs.Lines.{chunk_of};
    ghost use Rattle.seq_report.specs.Chunks.{part_of};

    type Out = Section;

    ghost value = { λ s k. part_of (map (line_in (case_in_view s.lines.now.case))
        (chunk_of s.lines.now.cuts.now k)) };

    ghost pieces = { λ s. length s.lines.now.cuts.now };

    fn piece(&self, alloc: Global, k: u32) -> Result<Section, AllocError> {
        let lines = self.lines;
        make_section(
            alloc,
            lines.case,
            &lines.hull,
            &self.digits,
            &lines.chunk(k),
        )
    }
}

impl<'a> Scout for Lines<'a> {
    ghost use Rattle.std.specs.Prelude.{length};
    ghost use Rattle.prefix_scan.specs.Cut.{start_of};
    ghost use Rattle.port_call.specs.Views.{case_in_view};
    ghost use Rattle.seq_report.specs.Cases.{first_step_in};
    ghost use Rattle.seq_report.specs.Firsts.{steps_within};

    ghost begins = { λ s k. start_of s.cuts.now k };

    ghost finds = { λ s k. first_step_in (case_in_view s.case) s.cuts.now k };

    ghost pieces = { λ s. length s.cuts.now };

    ghost within = { λ s k step. steps_within (case_in_view s.case) s.cuts.now
        s.case.ready.few s.cut k step };

    fn begin(&self, k: u32) -> u32 {
        lines_of(self.case.sequence, self.cuts, k).start
    }

    fn look(&self, k: u32) -> Option<u32> {
        let (step, _) = self.first_in(k)?;
        Some(step)
    }
}

impl<'a> Lines<'a> {
    /// Chunk `k`.
    pub fn chunk(&self, k: u32) -> Chunk
        requires { k < length self.now.cuts.now }
        ensures lines { lines_in result ≡ chunk_of self.now.cuts.now k }
        ensures chunk { IsChunk (case_in_view self.now.case) result }
    {
        let lines = lines_of(self.case.sequence, self.cuts, k);
        Chunk {
            start: lines.start,
            end: lines.end,
            first: self.sums[k as usize],
        }
    }

    /// The first line of chunk `k` that fails, with its first criterion.
    pub fn first_in(&self, k: u32) -> Option<(u32, Criterion)>
        requires { k < length self.now.cuts.now }
        ensures { result ≡ first_of
            (map (line_in (case_in_view self.now.case)) (chunk_of self.now.cuts.now k)) }
    {
        first_failing(self.case, &self.hull, &self.chunk(k))
    }

    /// How many chunks there are.
    pub fn chunks(&self) -> u32
        ensures { result ≡ length self.now.cuts.now }
    {
        chunk_count(self.case.sequence, self.cuts)
    }
}
