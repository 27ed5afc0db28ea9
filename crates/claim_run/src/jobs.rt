ghost use Rattle.std.specs.Prelude.{◌≡◌, ℕ, ◌<◌, IfOk};

use std::alloc::{AllocError, Global};

/// Work in numbered pieces, of which each has one value. Threads share it.
pub trait Job: Sync {
    /// What a piece gives.
    type Out: Send + Drop;

    // The value of a piece, and how many pieces there are at least.
    ghost value: { Self → ℕ → Self.Out };

    ghost pieces: { Self → ℕ };

    /// The value of piece `k`, or an error where there is no memory. Called once for each `k` below
    /// `pieces`, by any thread.
    fn piece(&self, alloc: Global, k: u32) -> Result<Self::Out, AllocError>
        requires { k < pieces self.now }
        ensures { IfOk result (λ x. x ≡ value self.now k) };
}

/// The job of a run that looks for a failing step alone: its pieces have no value.
#[derive(Drop)]
pub struct NoValues;

impl Job for NoValues {
    type Out = ();

    ghost use Rattle.std.specs.Prelude.{◌^◌};

    ghost value = { λ _ _. tt };

    ghost pieces = { λ _. 2 ^ 32 };

    fn piece(&self, _alloc: Global, _k: u32) -> Result<(), AllocError> {
        Ok(())
    }
}
