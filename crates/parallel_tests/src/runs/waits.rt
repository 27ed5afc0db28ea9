// Waits with a limit, gates that stop a worker until another has reached a place, and a job of
// squares.
use claim_run::{Gate, Job};
use std::alloc::{AllocError, Global};
use std::sync::atomic::AtomicBool;
use std::sync::atomic::Ordering::SeqCst;
use std::thread;

/// How many turns a wait has; a turn is one load of a flag, and leave for other threads to go on.
/// Without that leave, sixteen threads that wait on two processors may use up their turns before
/// the last of them is started.
const TURNS: u32 = 2_000_000;

/// Waits for the flag, and notes where it gives up.
pub fn wait_for(flag: &AtomicBool, gave_up: &AtomicBool) {
    for _ in 0..TURNS {
        if flag.load(SeqCst) {
            return;
        }
        thread::yield_now();
    }
    gave_up.store(true, SeqCst);
}

/// Holds one chunk until another has passed.
#[derive(Drop)]
pub struct HoldsUntil {
    held: u32,
    awaited: u32,
    came: AtomicBool,
    passed: AtomicBool,
    gave_up: AtomicBool,
}

impl HoldsUntil {
    /// Whether the chunk came and was held until the other had passed.
    pub fn has_held(&self) -> bool {
        self.came.load(SeqCst) && self.passed.load(SeqCst) && !self.gave_up.load(SeqCst)
    }
}

impl Gate for HoldsUntil {
    fn pass(&self, _worker: u8, chunk: u32) {
        if chunk == self.awaited {
            self.passed.store(true, SeqCst);
        }
        if chunk == self.held {
            self.came.store(true, SeqCst);
            wait_for(&self.passed, &self.gave_up);
        }
    }
}

pub fn holds_until(held: u32, awaited: u32) -> HoldsUntil {
    HoldsUntil {
        held,
        awaited,
        came: AtomicBool::new(false),
        passed: AtomicBool::new(false),
        gave_up: AtomicBool::new(false),
    }
}

/// The square of each number.
#[derive(Drop)]
pub struct Squares;

impl Job for Squares {
    type Out = u64;

    ghost use Rattle.std.specs.Prelude.{◌*◌, ◌^◌};

    ghost value = { λ _ k. k * k };

    ghost pieces = { λ _. 2 ^ 32 };

    fn piece(&self, _alloc: Global, k: u32) -> Result<u64, AllocError> {
        Ok(u64::from(k) * u64::from(k))
    }
}
