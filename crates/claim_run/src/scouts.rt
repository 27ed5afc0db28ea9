ghost use Rattle.std.specs.Prelude.{◌≡◌, ℕ, ◌<◌, ◌≤◌, ◌^◌, Option, Some};

/// What a run with an early stop looks for: where each chunk begins, and the first failing step in
/// it. Threads share it.
pub trait Scout: Sync {
    // The first step of a chunk, its first failing step, and how many chunks there are at least.
    ghost begins: { Self → ℕ → ℕ };

    ghost finds: { Self → ℕ → Option ℕ };

    ghost pieces: { Self → ℕ };

    /// The first step of chunk `k`. Called for `k` below `pieces` alone.
    fn begin(&self, k: u32) -> u32
        requires { k < pieces self.now }
        ensures { result ≡ begins self.now k };

    /// The first failing step of chunk `k`, or none. Called for `k` below `pieces` alone, and not
    /// for a chunk that is skipped.
    fn look(&self, k: u32) -> Option<u32>
        requires { k < pieces self.now }
        ensures { result ≡ finds self.now k };

    // A step that is found is not before its chunk.
    ghost within: { (s : Self) (k step : ℕ) → k < pieces s → finds s k ≡ Some step
        → (begins s k ≤ step) × (step < 2 ^ 32) };
}

/// What is called once for every chunk that a worker takes, after the draw and before the look and
/// the work. Nothing is claimed of it: it lets a test stop one worker until another has reached a
/// place.
pub trait Gate: Sync {
    /// The worker of this number has drawn the chunk.
    fn pass(&self, worker: u8, chunk: u32);
}

/// The gate that returns at once.
#[derive(Clone, Copy, Debug)]
pub struct Open;

impl Gate for Open {
    fn pass(&self, _worker: u8, _chunk: u32) {}
}

/// The scout of a run without an early stop: it finds nothing.
#[derive(Drop)]
pub struct FindsNothing;

impl Scout for FindsNothing {
    ghost use Rattle.claim_run.specs.NoFailures.{at_zero, no_failure, none_within};
    ghost use Rattle.std.specs.Prelude.{ℕ, ◌^◌};

    ghost begins = { λ _. at_zero };

    ghost finds = { λ _. no_failure };

    ghost pieces = { λ _. 2 ^ 32 };

    ghost within = { λ _. none_within };

    fn begin(&self, _k: u32) -> u32 {
        0
    }

    fn look(&self, _k: u32) -> Option<u32> {
        None
    }
}
