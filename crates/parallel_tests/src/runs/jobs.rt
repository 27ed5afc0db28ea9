// Runs of a job, with threads.
ghost use Rattle.std.specs.Prelude.{◌≤◌};

use crate::checks::holds;
use crate::runs::waits::{Squares, holds_until, wait_for};
use claim_run::{Gate, Job, Open, Workers, run};
use std::alloc::{AllocError, Global};
use std::sync::Wait;
use std::sync::atomic::Ordering::SeqCst;
use std::sync::atomic::{AtomicBool, AtomicU64};
use std::test::Fail;
use std::thread::Threads;

/// The values of a number of pieces, made by 1 to 16 workers.
fn by<J: Job, G: Gate, R: Threads + Wait + Sync>(
    rt: &R,
    alloc: Global,
    gate: &G,
    n: u8,
    pieces: u32,
    job: &J,
) -> Result<Vec<J::Out>, AllocError>
    requires { pieces ≤ J.pieces job.now }
{
    match Workers::new(n) {
        Some(workers) => run(rt, alloc, gate, workers, pieces, job),
        None => Err(AllocError),
    }
}

/// Squares, of which none is given before sixteen have begun.
#[derive(Drop)]
struct AllAtOnce {
    begun: AtomicU64,
    all: AtomicBool,
    gave_up: AtomicBool,
}

impl Job for AllAtOnce {
    type Out = u64;

    ghost use Rattle.std.specs.Prelude.{◌*◌, ◌^◌};

    ghost value = { λ _ k. k * k };

    ghost pieces = { λ _. 2 ^ 32 };

    fn piece(&self, _alloc: Global, k: u32) -> Result<u64, AllocError> {
        if self.begun.fetch_add(1, SeqCst) == 15 {
            self.all.store(true, SeqCst);
        }
        wait_for(&self.all, &self.gave_up);
        Ok(u64::from(k) * u64::from(k))
    }
}

static SIXTEEN: [u64; 16] = [
    0, 1, 4, 9, 16, 25, 36, 49, 64, 81, 100, 121, 144, 169, 196, 225,
];

// Two pieces of which the first is held until the second has passed, and sixteen that wait for each
// other. A body on one thread, or one lock that is held from a draw to the chunk's end, gives up
// here and is caught.
#[test]
fn gated_workers(rt: HostRuntime) -> Result<(), Fail> {
    let gate = holds_until(0, 1);
    let two = by(&rt, rt.alloc(), &gate, 2, 2, &Squares)?;
    holds(&rt, two.as_slice() == [0, 1].as_slice());
    holds(&rt, gate.has_held());
    let job = AllAtOnce {
        begun: AtomicU64::new(0),
        all: AtomicBool::new(false),
        gave_up: AtomicBool::new(false),
    };
    let sixteen = by(&rt, rt.alloc(), &Open, 16, 16, &job)?;
    holds(&rt, sixteen.as_slice() == SIXTEEN.as_slice());
    holds(&rt, !job.gave_up.load(SeqCst));
    Ok(())
}

// One worker and five pieces, three workers and four pieces, three workers and none.
#[test]
fn values_in_order(rt: HostRuntime) -> Result<(), Fail> {
    for (n, pieces) in [(1, 5), (3, 4), (3, 0)] {
        let values = by(&rt, rt.alloc(), &Open, n, pieces, &Squares)?;
        holds(&rt, values.as_slice() == &SIXTEEN[..pieces as usize]);
    }
    Ok(())
}

/// How long a piece lasts at least, in looks at a number.
const LOOKS: u32 = 3_000_000;

/// A job whose piece 1 finds no memory, and whose other pieces last a while, with the pieces
/// counted that have begun and ended.
#[derive(Drop)]
struct NoMemoryAtOne {
    begun: AtomicU64,
    ended: AtomicU64,
}

impl Job for NoMemoryAtOne {
    type Out = u64;

    ghost use Rattle.std.specs.Prelude.{◌^◌};

    ghost value = { λ _ k. k };

    ghost pieces = { λ _. 2 ^ 32 };

    fn piece(&self, _alloc: Global, k: u32) -> Result<u64, AllocError> {
        self.begun.fetch_add(1, SeqCst);
        if k == 1 {
            self.ended.fetch_add(1, SeqCst);
            return Err(AllocError);
        }
        for _ in 0..LOOKS {
            if self.begun.load(SeqCst) > 3 {
                break;
            }
        }
        self.ended.fetch_add(1, SeqCst);
        Ok(u64::from(k))
    }
}

/// Whether a run of three pieces answers an error, and no worker is left in a piece then: one that
/// wasn't joined would still be in its own.
fn refuses<R: Threads + Wait + Sync>(rt: &R, alloc: Global, n: u8) -> bool {
    let job = NoMemoryAtOne {
        begun: AtomicU64::new(0),
        ended: AtomicU64::new(0),
    };
    let refused = by(rt, alloc, &Open, n, 3, &job).is_err();
    let begun = job.begun.load(SeqCst);
    refused && 1 < begun && begun == job.ended.load(SeqCst)
}

#[test]
fn piece_without_memory(rt: HostRuntime) {
    for n in [1, 2, 16] {
        holds(&rt, refuses(&rt, rt.alloc(), n));
    }
}

#[test]
fn numbers_of_workers(rt: HostRuntime) {
    for (n, there) in [(0, false), (1, true), (16, true), (17, false)] {
        holds(&rt, Workers::new(n).is_some() == there);
    }
    holds(&rt, Workers::new(16).map(Workers::get) == Some(16));
}
