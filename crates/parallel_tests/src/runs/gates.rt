// That the gate is called: once for each chunk that a worker takes, before its look and its work,
// by as many workers as asked for, whether the chunk is worked or skipped.
use crate::checks::holds;
use crate::chunks::three_chunks;
use crate::notes::{Notes, notes_of};
use crate::runs::waits::{HoldsUntil, Squares, holds_until};
use claim_run::{FindsNothing, Gate, Job, Scout, Workers, run, run_least};
use std::alloc::{AllocError, Global};
use std::sync::atomic::Ordering::SeqCst;
use std::sync::atomic::{AtomicBool, AtomicU64};
use std::test::Fail;

/// Pieces and chunks that note where they are worked or looked at before the gate has let them
/// pass. None fails.
#[derive(Drop)]
struct BehindGate<'a> {
    gate: &'a Notes,
    early: AtomicBool,
}

/// Those of a run, of which none has come yet.
fn behind(gate: &Notes) -> BehindGate<'_> {
    BehindGate {
        gate,
        early: AtomicBool::new(false),
    }
}

impl<'a> BehindGate<'a> {
    fn come(&self, k: u32) {
        if !self.gate.has_passed(k) {
            self.early.store(true, SeqCst);
        }
    }
}

impl<'a> Job for BehindGate<'a> {
    type Out = u32;

    ghost use Rattle.std.specs.Prelude.{◌^◌};

    ghost value = { λ _ k. k };

    ghost pieces = { λ _. 2 ^ 32 };

    fn piece(&self, _alloc: Global, k: u32) -> Result<u32, AllocError> {
        self.come(k);
        Ok(k)
    }
}

impl<'a> Scout for BehindGate<'a> {
    ghost use Rattle.claim_run.specs.NoFailures.{at_zero, no_failure, none_within};
    ghost use Rattle.std.specs.Prelude.{ℕ, ◌^◌};

    ghost begins = { λ _. at_zero };

    ghost finds = { λ _. no_failure };

    ghost pieces = { λ _. 2 ^ 32 };

    ghost within = { λ _. none_within };

    fn begin(&self, k: u32) -> u32 {
        self.come(k);
        0
    }

    fn look(&self, k: u32) -> Option<u32> {
        self.come(k);
        None
    }
}

#[test]
fn calls_of_the_gate(rt: HostRuntime) -> Result<(), Fail> {
    for count in [2, 3, 16] {
        let Some(workers) = Workers::new(count) else {
            unreachable!()
        };
        let pieces = u32::from(count);
        let gate = notes_of(count);
        let worked = behind(&gate);
        run(&rt, rt.alloc(), &gate, workers, pieces, &worked)?;
        holds(&rt, gate.each_passed(1) && !worked.early.load(SeqCst));
        let gate = notes_of(count);
        let looked = behind(&gate);
        let least = run_least(&rt, rt.alloc(), &gate, workers, pieces, &looked)?;
        holds(&rt, least.is_none() && gate.each_passed(1));
        holds(&rt, !looked.early.load(SeqCst));
    }
    Ok(())
}

/// A gate that counts its calls, and adds up the numbers of the chunks.
#[derive(Drop)]
struct Sums {
    passed: AtomicU64,
    numbers: AtomicU64,
}

/// One that wasn't called yet.
fn no_sums() -> Sums {
    Sums {
        passed: AtomicU64::new(0),
        numbers: AtomicU64::new(0),
    }
}

impl Sums {
    /// Whether the gate was called so often, and the numbers of the chunks are so many together.
    fn are(&self, passed: u64, numbers: u64) -> bool {
        self.passed.load(SeqCst) == passed && self.numbers.load(SeqCst) == numbers
    }
}

impl Gate for Sums {
    fn pass(&self, _worker: u8, chunk: u32) {
        self.passed.fetch_add(1, SeqCst);
        self.numbers.fetch_add(u64::from(chunk), SeqCst);
    }
}

// 70,000 chunks, more than 16 bits count, whose numbers are 70,000 * 69,999 / 2 together; and the
// same once more.
#[test]
fn calls_for_many_chunks(rt: HostRuntime) -> Result<(), Fail> {
    let Some(workers) = Workers::new(3) else {
        unreachable!()
    };
    let gate = no_sums();
    run(&rt, rt.alloc(), &gate, workers, 70_000, &Squares)?;
    holds(&rt, gate.are(70_000, 2_449_965_000));
    let least = run_least(&rt, rt.alloc(), &gate, workers, 70_000, &FindsNothing)?;
    holds(&rt, least.is_none() && gate.are(140_000, 4_899_930_000));
    Ok(())
}

/// A gate that counts its calls so, and holds a chunk until another has passed.
#[derive(Drop)]
struct SumsAndHolds {
    sums: Sums,
    holds: HoldsUntil,
}

impl Gate for SumsAndHolds {
    fn pass(&self, worker: u8, chunk: u32) {
        self.sums.pass(worker, chunk);
        self.holds.pass(worker, chunk);
    }
}

// One worker finds step 3 in the first chunk, and so skips both others. The gate was called once
// for each of the three, whose numbers are 3 together.
#[test]
fn calls_for_skipped_chunks(rt: HostRuntime) -> Result<(), Fail> {
    let Some(one) = Workers::new(1) else {
        unreachable!()
    };
    let gate = no_sums();
    let scout = three_chunks();
    let least = run_least(&rt, rt.alloc(), &gate, one, 3, &scout)?;
    holds(&rt, least == Some(3) && gate.are(3, 3));
    holds(&rt, !scout.second.load(SeqCst) && !scout.third.load(SeqCst));
    Ok(())
}

// Of two workers one is held with the first chunk until the other has come to the third, which that
// one skips, since it found step 9 in the second.
#[test]
fn calls_for_a_chunk_that_one_of_two_skips(rt: HostRuntime) -> Result<(), Fail> {
    let Some(two) = Workers::new(2) else {
        unreachable!()
    };
    let gate = SumsAndHolds {
        sums: no_sums(),
        holds: holds_until(0, 2),
    };
    let scout = three_chunks();
    let least = run_least(&rt, rt.alloc(), &gate, two, 3, &scout)?;
    holds(&rt, least == Some(3) && gate.sums.are(3, 3));
    holds(&rt, gate.holds.has_held() && !scout.third.load(SeqCst));
    Ok(())
}
