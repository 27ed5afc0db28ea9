// A gate that notes its calls.
ghost use Rattle.std.specs.Prelude.{◌<◌};

use claim_run::Gate;
use std::sync::atomic::Ordering::SeqCst;
use std::sync::atomic::{AtomicBool, AtomicU64};
use std::thread;

/// How often a worker looks at most whether the others have a chunk too; between two looks other
/// threads may go on.
const TURNS: u32 = 2_000_000;

/// One, counted in the digit of this place of a number of sixteen hexadecimal digits.
fn one_at(place: u32) -> u64
    requires { place < 16 }
{
    1 << (4 * place)
}

/// A gate that notes how often each worker and each chunk passed, and holds a worker until as many
/// have passed in its run as there are workers: in a run of as many chunks, each worker draws one.
#[derive(Drop)]
pub struct Notes {
    count: u64,
    passed: AtomicU64,
    workers: AtomicU64,
    chunks: AtomicU64,
    beyond: AtomicBool,
    gave_up: AtomicBool,
}

/// Notes of runs of a number of workers over as many chunks.
pub fn notes_of(count: u8) -> Notes {
    Notes {
        count: u64::from(count),
        passed: AtomicU64::new(0),
        workers: AtomicU64::new(0),
        chunks: AtomicU64::new(0),
        beyond: AtomicBool::new(false),
        gave_up: AtomicBool::new(false),
    }
}

impl Notes {
    /// Whether the chunk has passed in some run.
    pub fn has_passed(&self, chunk: u32) -> bool {
        chunk < 16 && (self.chunks.load(SeqCst) >> (4 * chunk)) % 16 > 0
    }

    /// Whether each worker has passed so often, and each chunk, and nothing else has, and no worker
    /// was left alone.
    pub fn each_passed(&self, times: u64) -> bool {
        let mut each = 0u64;
        for _ in 0..self.count {
            each = each.wrapping_mul(16).wrapping_add(times);
        }
        self.workers.load(SeqCst) == each
            && self.chunks.load(SeqCst) == each
            && !self.beyond.load(SeqCst)
            && !self.gave_up.load(SeqCst)
    }
}

impl Gate for Notes {
    fn pass(&self, worker: u8, chunk: u32) {
        let worker = u32::from(worker);
        if worker >= 16 || chunk >= 16 {
            self.beyond.store(true, SeqCst);
            return;
        }
        self.workers.fetch_add(one_at(worker), SeqCst);
        self.chunks.fetch_add(one_at(chunk), SeqCst);
        let before = self.passed.fetch_add(1, SeqCst);
        let runs = before.checked_div(self.count).unwrap_or(0);
        let all = runs.saturating_add(1).saturating_mul(self.count);
        for _ in 0..TURNS {
            if self.passed.load(SeqCst) >= all {
                return;
            }
            thread::yield_now();
        }
        self.gave_up.store(true, SeqCst);
    }
}
