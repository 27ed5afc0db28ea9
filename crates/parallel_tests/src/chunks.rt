use claim_run::Scout;
use std::sync::atomic::AtomicBool;
use std::sync::atomic::Ordering::SeqCst;

/// Three chunks of five steps each, which begin at 0, 5 and 10. Step 3 fails, and step 9. It notes
/// the looks at the second and the third.
#[derive(Drop)]
pub struct ThreeChunks {
    pub second: AtomicBool,
    pub third: AtomicBool,
}

impl Scout for ThreeChunks {
    ghost use Rattle.parallel_tests.specs.ThreeChunks.{three_begin, three_find, three_within};
    ghost use Rattle.std.specs.Prelude.{ℕ};

    ghost begins = { λ _. three_begin };

    ghost finds = { λ _. three_find };

    ghost pieces = { λ _. 3 };

    ghost within = { λ _. three_within };

    fn begin(&self, k: u32) -> u32 {
        5 * k
    }

    fn look(&self, k: u32) -> Option<u32> {
        match k {
            0 => Some(3),
            1 => {
                self.second.store(true, SeqCst);
                Some(9)
            }
            _ => {
                self.third.store(true, SeqCst);
                None
            }
        }
    }
}

/// Of which none has been looked at.
pub fn three_chunks() -> ThreeChunks {
    ThreeChunks {
        second: AtomicBool::new(false),
        third: AtomicBool::new(false),
    }
}
