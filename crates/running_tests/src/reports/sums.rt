//! What is aboard at the lines of a report, added up.
use super::inputs;
use crate::checks::same;
use claim_run::{Open, Workers};
use moment_sums::Totals;
use port_call::PortCall;
use prefix_scan::Monoid;
use running_sums::{Changes, chunk_count, first_sums, lines_of, pass_line};
use seq_report::{CutPlan, cuts_of, sums_of, walk_on};
use std::test::Fail;

/// Loads of 20,500, 4,300 and 7,700 kg: four lines.
const THREE_LOADS: &[u8] =
    b"UNB+UNOA:2+PLAN+SHIP+250101:1200+8'UNH+1+MOVINS:D:95B:UN'HAN+LOA'LOC+147+0030782'MEA+WT++KGM:20500'EQD+CN'LOC+147+0050082'MEA+WT++KGM:4300'EQD+CN'LOC+147+0010082'MEA+WT++KGM:7700'EQD+CN'UNT+12+1'UNZ+1+8'";

// Chunks of three lines: the ship of 8,200,000 kg and two loads, and the third load by itself, to
// which 8,200,000 + 20,500 + 4,300 + 7,700 = 8,232,500 kg belong.
#[test]
fn sums_of_chunks(rt: HostRuntime) -> Result<(), Fail> {
    let Ok(call) = PortCall::read(rt.alloc(), &inputs(THREE_LOADS)) else {
        panic!(&rt; "the inputs are refused")
    };
    let case = call.case();
    let Ok(cuts) = cuts_of(rt.alloc(), CutPlan::Every(3), case.lines()) else {
        panic!(&rt; "the cuts are refused")
    };
    assert!(&rt; chunk_count(case.sequence, &cuts) == 2);
    let first = lines_of(case.sequence, &cuts, 0);
    same(&rt, (first.start, first.end), (0, 3));
    let workers = Workers::new(2).ok_or("no workers")?;
    let sums = sums_of(&rt, rt.alloc(), &Open, workers, &call, &cuts)?;
    same(&rt, sums.first().map(|sum| sum.kg()), Some(8_200_000));
    same(&rt, sums.last().map(|sum| sum.kg()), Some(8_232_500));
    let mut sum = *call.ground().total();
    walk_on(case, 0, &mut sum);
    same(&rt, sum.kg(), 8_220_500);
    Ok(())
}

// The same of the sequence by itself: the first load changes 20,500 kg, and chunks of two lines
// begin at the ship and behind the second load, with 8,200,000 + 20,500 + 4,300 = 8,224,800 kg.
#[test]
fn sums_of_a_sequence(rt: HostRuntime) -> Result<(), Fail> {
    let Ok(call) = PortCall::read(rt.alloc(), &inputs(THREE_LOADS)) else {
        panic!(&rt; "the inputs are refused")
    };
    let case = call.case();
    let Ok(cuts) = cuts_of(rt.alloc(), CutPlan::Every(2), case.lines()) else {
        panic!(&rt; "the cuts are refused")
    };
    let frames = case.profile.frames();
    let mut change = Totals::unit();
    pass_line(case.sequence, frames, 0, &mut change);
    same(&rt, change.kg(), 20_500);
    let changes = Changes {
        sequence: case.sequence,
        frames,
        cuts: &cuts,
    };
    let workers = Workers::new(3).ok_or("no workers")?;
    let total = call.ground().total();
    let sums = first_sums(&rt, rt.alloc(), &Open, workers, &changes, total)?;
    same(&rt, sums.first().map(|sum| sum.kg()), Some(8_200_000));
    same(&rt, sums.last().map(|sum| sum.kg()), Some(8_224_800));
    Ok(())
}
