//! What is found of the conditions of a case and what is drawn of them, from one walk over them.
ghost use Rattle.std.specs.Prelude.{◌≡◌, ◌^◌, ◌<◌, IfOk, length};
ghost use Rattle.port_call.specs.Views.{case_in_view};
ghost use Rattle.view_curves.specs.Charted.{charted_in};

use crate::series::Series;
use crate::walks::charted_in_chunk;
use claim_run::{Gate, Job, Workers, run};
use seq_report::Lines;
use std::alloc::{AllocError, Global};
use std::sync::Wait;
use std::thread::Threads;
use worst_values::Findings;

/// What is found of some conditions, and the figures that are drawn of them.
#[derive(Drop)]
pub struct Charted {
    pub findings: Findings,
    pub series: Series,
}

/// What is found and drawn of each chunk of lines, as a job for workers.
#[derive(Drop)]
struct Charting<'a> {
    lines: &'a Lines<'a>,
}

impl<'a> Job for Charting<'a> {
    ghost use Rattle.std.specs.Prelude.{length};
    ghost use Rattle.port_call.specs.Views.{case_in_view};
    ghost use Rattle.running_sums.specs.Lines.{chunk_of};
    ghost use Rattle.view_curves.specs.Charted.{charted_over};

    type Out = Charted;

    ghost value = { λ c k. charted_over (case_in_view c.lines.now.case)
        (chunk_of c.lines.now.cuts.now k) };

    ghost pieces = { λ c. length c.lines.now.cuts.now };

    fn piece(&self, alloc: Global, k: u32) -> Result<Charted, AllocError> {
        let lines = self.lines;
        charted_in_chunk(alloc, lines.case, &lines.hull, &lines.chunk(k))
    }
}

/// What is found of a case ([`found_in`](worst_values::found_in)), and the figures that are drawn
/// of each of its conditions: workers judge them chunk by chunk, and what they make is joined in
/// the order of the chunks.
pub fn charted_in<G: Gate, R: Threads + Wait + Sync>(
    rt: &R,
    alloc: Global,
    gate: &G,
    workers: Workers,
    lines: &Lines<'_>,
) -> Result<Charted, AllocError>
    ensures made { IfOk result (λ c. c ≡ charted_in (case_in_view lines.now.case)) }
    ensures few { IfOk result (λ c. length c.findings.unmet < 2 ^ 32) }
{
    let parts = run(
        rt,
        alloc,
        gate,
        workers,
        lines.chunks(),
        &Charting { lines: &*lines },
    )?;
    let mut findings = Findings::new(alloc);
    let mut series = Series::with_capacity(alloc, lines.case.lines() as usize)?;
    for part in &parts {
        findings.join(&part.findings)?;
        series.append(&part.series, lines.case.profile.frames())?;
    }
    Ok(Charted { findings, series })
}
