// Runs with an early stop, and hands of a board.
ghost use Rattle.std.specs.Prelude.{◌≤◌};

use crate::checks::holds;
use crate::chunks::three_chunks;
use crate::runs::waits::{HoldsUntil, holds_until, wait_for};
use claim_run::{Board, FindsNothing, Gate, Open, Scout, Workers, every_state_is_right, run_least};
use std::alloc::{AllocError, Global};
use std::sync::Wait;
use std::sync::atomic::AtomicBool;
use std::sync::atomic::Ordering::SeqCst;
use std::test::Fail;
use std::thread::Threads;

/// The least step that two workers find.
fn least_by_two<S: Scout, G: Gate, R: Threads + Wait + Sync>(
    rt: &R,
    alloc: Global,
    gate: &G,
    pieces: u32,
    scout: &S,
) -> Result<Option<u32>, AllocError>
    requires { pieces ≤ S.pieces scout.now }
{
    let Some(two) = Workers::new(2) else {
        unreachable!()
    };
    run_least(rt, alloc, gate, two, pieces, scout)
}

// The first chunk is held until the third has passed, so the third is skipped for the second's step
// 9, which was found first in time. The answer is the least, 3.
#[test]
fn early_stop(rt: HostRuntime) -> Result<(), Fail> {
    let gate = holds_until(0, 2);
    let scout = three_chunks();
    let least = least_by_two(&rt, rt.alloc(), &gate, 3, &scout)?;
    holds(&rt, least == Some(3));
    holds(&rt, !scout.third.load(SeqCst));
    holds(&rt, gate.has_held());
    Ok(())
}

/// Holds the first chunk until the second has come, and the second until the third has.
#[derive(Drop)]
struct InTurn {
    first: HoldsUntil,
    second: HoldsUntil,
}

impl Gate for InTurn {
    fn pass(&self, worker: u8, chunk: u32) {
        self.first.pass(worker, chunk);
        self.second.pass(worker, chunk);
    }
}

// What is posted while a worker is held at the gate, it sees behind it: step 3 of the first chunk
// is there when the second is let through, and both the second and the third are skipped.
#[test]
fn posted_while_held(rt: HostRuntime) -> Result<(), Fail> {
    let gate = InTurn {
        first: holds_until(0, 1),
        second: holds_until(1, 2),
    };
    let scout = three_chunks();
    let least = least_by_two(&rt, rt.alloc(), &gate, 3, &scout)?;
    holds(&rt, least == Some(3));
    holds(&rt, gate.first.has_held() && gate.second.has_held());
    holds(&rt, !scout.second.load(SeqCst));
    holds(&rt, !scout.third.load(SeqCst));
    Ok(())
}

/// The same chunks, of which the first is held until the look at the second has begun, and that
/// look until the third has passed.
#[derive(Drop)]
struct LateSecond {
    first_came: AtomicBool,
    second_begun: AtomicBool,
    third_passed: AtomicBool,
    gave_up: AtomicBool,
}

impl Gate for LateSecond {
    fn pass(&self, _worker: u8, chunk: u32) {
        if chunk == 0 {
            self.first_came.store(true, SeqCst);
            wait_for(&self.second_begun, &self.gave_up);
        }
        if chunk == 2 {
            self.third_passed.store(true, SeqCst);
        }
    }
}

impl Scout for LateSecond {
    ghost use Rattle.parallel_tests.specs.ThreeChunks.{three_begin, three_find, three_within};
    ghost use Rattle.std.specs.Prelude.{ℕ};

    ghost begins = { λ _. three_begin };

    ghost finds = { λ _. three_find };

    ghost pieces = { λ _. 3 };

    ghost within = { λ _. three_within };

    fn begin(&self, k: u32) -> u32 {
        5 * k
    }

    fn look(&self, k: u32) -> Option<u32> {
        match k {
            0 => Some(3),
            1 => {
                self.second_begun.store(true, SeqCst);
                wait_for(&self.third_passed, &self.gave_up);
                Some(9)
            }
            _ => None,
        }
    }
}

// Step 9 is posted after step 3, and doesn't take its place.
#[test]
fn late_smaller_failure(rt: HostRuntime) -> Result<(), Fail> {
    let late = LateSecond {
        first_came: AtomicBool::new(false),
        second_begun: AtomicBool::new(false),
        third_passed: AtomicBool::new(false),
        gave_up: AtomicBool::new(false),
    };
    let least = least_by_two(&rt, rt.alloc(), &late, 3, &late)?;
    holds(&rt, least == Some(3));
    holds(
        &rt,
        late.first_came.load(SeqCst) && late.third_passed.load(SeqCst),
    );
    holds(&rt, !late.gave_up.load(SeqCst));
    Ok(())
}

#[test]
fn no_failing_chunk(rt: HostRuntime) -> Result<(), Fail> {
    holds(
        &rt,
        least_by_two(&rt, rt.alloc(), &Open, 3, &FindsNothing)?.is_none(),
    );
    holds(
        &rt,
        least_by_two(&rt, rt.alloc(), &Open, 0, &three_chunks())?.is_none(),
    );
    Ok(())
}

// The second hand works chunk 0 and posts 3; so the first skips chunk 1, which begins at 5, and the
// second chunk 2. Then each draws a number past the last chunk, 3 and 4: next is 5.
#[test]
fn two_hands_one_thread(rt: HostRuntime) -> Result<(), Fail> {
    let scout = three_chunks();
    let Some(two) = Workers::new(2) else {
        unreachable!()
    };
    let (board, mut first) = Board::new(rt.alloc(), two, 3, &scout)?;
    let mut second = board.split(&mut first)?;
    let a = board.turn(&Open, 1, &mut second);
    assert!(rt; a == Some(0));
    let b = board.turn(&Open, 0, &mut first);
    assert!(rt; b == Some(1));
    holds(&rt, !scout.second.load(SeqCst));
    let c = board.turn(&Open, 1, &mut second);
    assert!(rt; c == Some(2));
    let d = board.turn(&Open, 0, &mut first);
    assert!(rt; d.is_none());
    let e = board.turn(&Open, 1, &mut second);
    assert!(rt; e.is_none());
    board.join(&mut first, second);
    let (next, least) = board.close(first);
    holds(&rt, next == 5 && least == Some(3));
    Ok(())
}

// The law has no body: this shows that it can be called.
#[test]
fn law_of_the_table(_rt: HostRuntime) {
    every_state_is_right();
}
