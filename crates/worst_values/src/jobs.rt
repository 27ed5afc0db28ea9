ghost use Rattle.std.specs.Prelude.{◌≡◌, ◌+◌, ◌^◌, ◌<◌, length, IfOk};
ghost use Rattle.prefix_scan.specs.Cut.{Divides};
ghost use Rattle.port_call.specs.Views.{case_in_view};
ghost use Rattle.running_sums.specs.Lines.{AreFirstSums};
ghost use Rattle.worst_values.specs.Findings.{found_in};

use crate::findings::Findings;
use crate::walks::found_in_chunk;
use claim_run::{Gate, Job, Workers, run};
use moment_sums::Totals;
use port_call::Case;
use prefix_scan::Cuts;
use seq_report::Lines;
use std::alloc::{AllocError, Global};
use std::sync::Wait;
use std::thread::Threads;
use strength::Hull;

/// What is found over each chunk of lines, as a job for workers.
#[derive(Drop)]
struct Search<'a> {
    lines: &'a Lines<'a>,
}

impl<'a> Job for Search<'a> {
    ghost use Rattle.std.specs.Prelude.{length};
    ghost use Rattle.port_call.specs.Views.{case_in_view};
    ghost use Rattle.running_sums.specs.Lines.{chunk_of};
    ghost use Rattle.worst_values.specs.Findings.{found_over};

    type Out = Findings;

    ghost value = { λ s k. found_over (case_in_view s.lines.now.case)
        (chunk_of s.lines.now.cuts.now k) };

    ghost pieces = { λ s. length s.lines.now.cuts.now };

    fn piece(&self, alloc: Global, k: u32) -> Result<Findings, AllocError> {
        let lines = self.lines;
        found_in_chunk(alloc, lines.case, &lines.hull, &lines.chunk(k))
    }
}

/// What is found over all lines: workers go through them chunk by chunk, and what they find is
/// joined in the order of the chunks.
fn found_in_chunks<G: Gate, R: Threads + Wait + Sync>(
    rt: &R,
    alloc: Global,
    gate: &G,
    workers: Workers,
    lines: &Lines<'_>,
) -> Result<Findings, AllocError>
    ensures { IfOk result (λ f. f ≡ found_in (case_in_view lines.now.case)) }
{
    let parts = run(rt, alloc, gate, workers, lines.chunks(), &Search { lines })?;
    let mut all = Findings::new(alloc);
    for part in &parts {
        all.join(part)?;
    }
    Ok(all)
}

/// For each limit the worst value over all conditions of a case that lie within the ship's tables,
/// with the first step at which it stands; and for each condition, in their order, which criteria
/// it doesn't meet. `sums` has, for each chunk of the cuts, everything that is aboard at its first
/// line added up.
pub fn found_in<G: Gate, R: Threads + Wait + Sync>(
    rt: &R,
    alloc: Global,
    gate: &G,
    workers: Workers,
    case: Case<'_>,
    cuts: &Cuts,
    sums: &[Totals],
) -> Result<Findings, AllocError>
    requires cut { Divides cuts.now (length case.sequence.now.ops + 1) }
    requires sums { AreFirstSums case.profile.now.ship.frames case.arrival.now.bodies
        case.sequence.now.steps cuts.now sums.now }
    ensures found { IfOk result (λ f. f ≡ found_in (case_in_view case.entry)) }
    ensures few { IfOk result (λ f. length f.unmet < 2 ^ 32) }
{
    let lines = Lines {
        case,
        hull: Hull::new(case.profile),
        cuts,
        sums,
    };
    found_in_chunks(rt, alloc, gate, workers, &lines)
}
