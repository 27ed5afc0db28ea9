use super::{bytes_by, check_refusal, inputs, options};
use crate::checks::{holds, same};
use claim_run::Gate;
use parallel_tests::{Counts, notes_of};
use seq_report::{Criterion, CutPlan, Summary, Through, first_fail, report};
use std::alloc::{AllocError, Global};
use std::sync::atomic::Ordering::SeqCst;
use std::sync::atomic::{AtomicBool, AtomicU64};
use std::test::Fail;
use std::thread;

/// The container of 20,500 kg to starboard, and then one of 20,500 kg on deck amidships: two steps,
/// and so three lines.
const TWO_LOADS: &[u8] =
    b"UNB+UNOA:2+PLAN+SHIP+250101:1200+8'UNH+1+MOVINS:D:95B:UN'HAN+LOA'LOC+147+0030782::5'MEA+WT++KGM:20500'EQD+CN+ABCU1234560'HAN+LOA'LOC+147+0050082::5'MEA+WT++KGM:20500'EQD+CN+ABCU7654321'UNT+10+1'UNZ+1+8'";

// 8,200,000 and twice 20,500 kg are 8,241,000 kg; the draught rises by 2,000 mm over 4,100,000 kg.
const LINES: &[u8] =
    b"STEP LIFT KG GM MEAN AFT FWD TRIM LIST A30 A40 A3040 GZ ANGLE CLOSE FRAMES VERDICT\n0 - 8200000 4333 4000 4000 4000 0 0 31509 50888 19379 1958 35 0 0/0;0/0;0/0;0/0;0/0 PASS\n1 L0030782 8220500 4314 4010 4010 4010 0 46 30861 50020 19158 1936 35 0 0/0;-5125/-64062500;0/-240726375;5125/-64062500;0/0 PASS\n2 L0050082 8241000 4295 4020 4035 4004 30 46 30786 49888 19102 1930 35 -769 0/0;-5637/-191611791;2819/-234320125;4869/-34166666;769/27760417 PASS\nALL PASS\n";

static PLANS: [CutPlan<'static>; 5] = [
    CutPlan::Every(1),
    CutPlan::Every(2),
    CutPlan::Every(3),
    CutPlan::Every(200_000),
    CutPlan::At(&[1, 3]),
];

#[test]
fn two_loads(rt: HostRuntime) {
    for plan in &PLANS {
        for workers in [1, 2, 16] {
            let (outcome, text) = bytes_by(&rt, TWO_LOADS, &options(workers, *plan));
            same(&rt, text.as_slice(), LINES);
            same(
                &rt,
                outcome,
                Ok(Summary {
                    lines: 3,
                    first: None,
                }),
            );
        }
    }
}

/// How often a worker that is held looks at most whether it may go on; between two looks other
/// threads may.
const TURNS: u32 = 2_000_000;

/// A gate that holds each run's chunk 0 until its chunk 1 has passed, and notes where it gave up
/// waiting. A report on one thread, or under one lock from a draw to the chunk's end, would never
/// let it through.
#[derive(Drop)]
struct SecondFirst {
    zeros: AtomicU64,
    ones: AtomicU64,
    gave_up: AtomicBool,
}

impl Gate for SecondFirst {
    fn pass(&self, _worker: u8, chunk: u32) {
        if chunk == 1 {
            self.ones.fetch_add(1, SeqCst);
        }
        if chunk == 0 {
            let runs = self.zeros.fetch_add(1, SeqCst);
            for _ in 0..TURNS {
                if self.ones.load(SeqCst) > runs {
                    return;
                }
                thread::yield_now();
            }
            self.gave_up.store(true, SeqCst);
        }
    }
}

#[test]
fn gated_workers(rt: HostRuntime) {
    let gate = SecondFirst {
        zeros: AtomicU64::new(0),
        ones: AtomicU64::new(0),
        gave_up: AtomicBool::new(false),
    };
    let mut taken = Vec::new(rt.alloc());
    let outcome = report(
        &rt,
        rt.alloc(),
        &gate,
        &inputs(TWO_LOADS),
        &options(2, CutPlan::Every(1)),
        &mut Through::new(&mut taken),
    );
    same(&rt, taken.as_slice(), LINES);
    holds(&rt, outcome.is_ok());
    holds(
        &rt,
        gate.zeros.load(SeqCst) == 2 && gate.ones.load(SeqCst) == 2,
    );
    holds(&rt, !gate.gave_up.load(SeqCst));
}

/// A container comes aboard eight times, and goes ashore between: fifteen lifts, and so sixteen
/// lines.
fn fifteen_lifts(alloc: Global) -> Result<Vec<u8>, AllocError> {
    let load = b"HAN+LOA'LOC+147+0030082'MEA+WT++KGM:20500'";
    let mut text = Vec::new(alloc);
    text.extend_from_slice(b"UNB+UNOA:2+PLAN+SHIP+250101:1200+8'UNH+1+MOVINS:D:95B:UN'")?;
    for _ in 0..7 {
        text.extend_from_slice(load)?;
        text.extend_from_slice(b"HAN+DIS'LOC+147+0030082'EQD+CN'")?;
    }
    text.extend_from_slice(load)?;
    text.extend_from_slice(b"UNT+47+1'UNZ+1+8'")?;
    Ok(text)
}

/// So many workers, and the length of as many chunks of sixteen lines.
static STAFFS: [(u8, u32); 3] = [(2, 8), (3, 6), (16, 1)];

// A report has two runs, one for the sums and one for the lines; so has the search for the first
// step that fails. In each the gate is called for each chunk, by each of the workers.
#[test]
fn calls_of_the_gate(rt: HostRuntime) -> Result<(), Fail> {
    let lifts = fifteen_lifts(rt.alloc())?;
    let inputs = inputs(&lifts);
    for (workers, length) in STAFFS {
        let options = options(workers, CutPlan::Every(length));
        let gate = notes_of(workers);
        let mut taken = Vec::new(rt.alloc());
        let outcome = report(
            &rt,
            rt.alloc(),
            &gate,
            &inputs,
            &options,
            &mut Through::new(&mut taken),
        );
        holds(&rt, outcome.is_ok() && gate.each_passed(2));
        let gate = notes_of(workers);
        let first = first_fail(&rt, rt.alloc(), &gate, &inputs, &options);
        holds(&rt, first == Ok(None) && gate.each_passed(2));
    }
    Ok(())
}

/// A container of 999,999 kg comes aboard to starboard, by which the ship lists beyond her limit,
/// and then two more come aboard: four lines, of which the second fails.
const HEAVY_FIRST: &[u8] =
    b"UNB+UNOA:2+PLAN+SHIP+250101:1200+8'UNH+1+MOVINS:D:95B:UN'HAN+LOA'LOC+147+0030782'MEA+WT++KGM:999999'EQD+CN'LOC+147+0050082'MEA+WT++KGM:20500'EQD+CN'LOC+147+0030082'MEA+WT++KGM:20500'EQD+CN'UNT+12+1'UNZ+1+8'";

// A search for the first step that fails skips what comes behind it: by one worker, with a line a
// chunk, the last two lines. The gate is called for these too, and once, as for the others, in both
// runs; so it is by any number of workers, whatever they skip.
#[test]
fn calls_for_skipped_lines(rt: HostRuntime) {
    for workers in [1, 2, 3, 16] {
        let gate = Counts::new();
        let options = options(workers, CutPlan::Every(1));
        let first = first_fail(&rt, rt.alloc(), &gate, &inputs(HEAVY_FIRST), &options);
        same(&rt, first, Ok(Some((1, Criterion::C7))));
        same(&rt, gate.calls(), 8);
    }
}

/// Plans that don't fit three lines, and the refusal of each.
static UNFIT: [(CutPlan<'static>, &str); 8] = [
    (CutPlan::Every(0), "F6 K1"),
    (CutPlan::At(&[]), "F6 K1"),
    (CutPlan::At(&[0, 3]), "F6 K2"),
    (CutPlan::At(&[2, 2]), "F6 K2"),
    (CutPlan::At(&[2, 1, 3]), "F6 K2"),
    (CutPlan::At(&[4, 3]), "F6 K2"),
    (CutPlan::At(&[1, 2]), "F6 K3"),
    (CutPlan::At(&[1, 4]), "F6 K3"),
];

#[test]
fn plans_that_do_not_fit(rt: HostRuntime) -> Result<(), Fail> {
    for (plan, refusal) in &UNFIT {
        check_refusal(&rt, TWO_LOADS, *plan, refusal)?;
    }
    Ok(())
}

/// A container is discharged from an empty cell.
const EMPTY_CELL_OUT: &[u8] =
    b"UNB+UNOA:2+PLAN+SHIP+250101:1200+8'UNH+1+MOVINS:D:95B:UN'HAN+DIS'LOC+147+0050082'EQD+CN+ABCU1234560'UNT+5+1'UNZ+1+8'";

// An impossible sequence is reported before a plan that doesn't fit.
#[test]
fn sequence_before_plan(rt: HostRuntime) -> Result<(), Fail> {
    check_refusal(&rt, EMPTY_CELL_OUT, CutPlan::Every(0), "F5 S4 step 1")
}
