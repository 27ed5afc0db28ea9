//! How the report of a session is made: by the gate, the workers and the cuts of its caller.
use super::{TWO_LOADS, report_of, session};
use crate::checks::{holds, same};
use claim_run::Workers;
use parallel_tests::Counts;
use seq_report::{CutPlan, Options, Through};
use std::test::Fail;

/// Workers, cuts of three lines, and how many chunks these make.
static CUTS: [(u8, CutPlan<'static>, u64); 4] = [
    (1, CutPlan::Every(1), 3),
    (2, CutPlan::Every(2), 2),
    (16, CutPlan::Every(200_000), 1),
    (2, CutPlan::At(&[1, 3]), 2),
];

// The sums are there before, so the report has one run: the gate is called once for each chunk of
// the lines.
#[test]
fn gates_and_cuts(rt: HostRuntime) -> Result<(), Fail> {
    let session = session(rt.alloc(), TWO_LOADS)?;
    let expected = report_of(&rt, &session);
    for (count, cuts, chunks) in &CUTS {
        let gate = Counts::new();
        let mut taken = Vec::new(rt.alloc());
        let options = Options {
            workers: Workers::new(*count).ok_or("workers")?,
            cuts: *cuts,
        };
        let outcome = session.report(&rt, &gate, &options, &mut Through::new(&mut taken));
        holds(&rt, outcome.is_ok());
        same(&rt, taken.as_slice(), expected.as_slice());
        same(&rt, gate.calls(), *chunks);
    }
    Ok(())
}
