use claim_run::Gate;
use std::sync::atomic::AtomicU64;
use std::sync::atomic::Ordering::SeqCst;

/// A gate that counts its calls.
#[derive(Drop)]
pub struct Counts {
    calls: AtomicU64,
}

impl Counts {
    /// No call yet.
    pub fn new() -> Counts {
        Counts {
            calls: AtomicU64::new(0),
        }
    }

    /// How often it was called.
    pub fn calls(&self) -> u64 {
        self.calls.load(SeqCst)
    }
}

impl Gate for Counts {
    fn pass(&self, _worker: u8, _chunk: u32) {
        self.calls.fetch_add(1, SeqCst);
    }
}
