//! What is aboard at the lines of a port call's report, added up.
ghost use Rattle.std.specs.Prelude.{◌≡◌, ◌+◌, ◌≤◌, length, IfOk};
ghost use Rattle.prefix_scan.specs.Cut.{Divides};
ghost use Rattle.port_call.specs.Views.{case_in_view};
ghost use Rattle.running_sums.specs.Lines.{AreFirstSums};
ghost use Rattle.seq_report.specs.Sums.{IsSumAt};

use claim_run::{Gate, Workers};
use moment_sums::Totals;
use port_call::{Case, PortCall};
use prefix_scan::Cuts;
use running_sums::{Changes, first_sums, pass_line};
use std::alloc::{AllocError, Global};
use std::sync::Wait;
use std::thread::Threads;

/// Changes the sum at line `k` into that at the next line.
pub fn walk_on(case: Case<'_>, k: u32, sum: &mut Totals)
    requires there { k ≤ length case.sequence.now.ops }
    requires sum { IsSumAt (case_in_view case) k sum.old }
    ensures { IsSumAt (case_in_view case.entry) (k + 1) sum.new }
{
    pass_line(case.sequence, case.profile.frames(), k, sum);
}

/// The sum at the first line of each chunk of a port call, by its cuts.
pub fn sums_of<G: Gate, R: Threads + Wait + Sync>(
    rt: &R,
    alloc: Global,
    gate: &G,
    workers: Workers,
    call: &PortCall,
    cuts: &Cuts,
) -> Result<Vec<Totals>, AllocError>
    requires { Divides cuts.now (length call.now.sequence.ops + 1) }
    ensures { IfOk result (λ sums. AreFirstSums call.now.profile.ship.frames
        call.now.arrival.bodies call.now.sequence.steps cuts.now sums.items) }
{
    let case = call.case();
    let frames = case.profile.frames();
    let changes = Changes {
        sequence: case.sequence,
        frames,
        cuts,
    };
    first_sums(rt, alloc, gate, workers, &changes, call.ground().total())
}
