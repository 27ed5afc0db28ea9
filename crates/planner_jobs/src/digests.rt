//! The digest of all results of a job.
ghost use Rattle.std.specs.Prelude.{None, false};

use seq_report::{Criterion, Sink, SinkFailed, Summary};

/// A digest of bytes and numbers, in their order. As a sink it keeps nothing else of a report, and
/// it is the same however the report's bytes are cut into calls.
#[derive(Clone, Copy)]
pub struct Digest {
    state: u64,
    /// The bytes of a word that isn't whole yet, and how many they are.
    word: u64,
    begun: u32,
}

impl Digest {
    /// The digest of nothing.
    pub fn new() -> Digest {
        Digest {
            state: 0xCBF2_9CE4_8422_2325,
            word: 0,
            begun: 0,
        }
    }

    /// Takes in a number.
    pub fn add(&mut self, number: u64) {
        let mixed = (self.state ^ number).wrapping_mul(0x9E37_79B9_7F4A_7C15);
        self.state = mixed ^ (mixed >> 32);
    }

    /// Takes in a number of 128 bits.
    pub fn add_wide(&mut self, number: i128) {
        for byte in number.to_le_bytes() {
            self.add(u64::from(byte));
        }
    }

    /// Takes in a word.
    pub fn add_word(&mut self, word: &str) {
        for byte in word.as_bytes() {
            self.add(u64::from(*byte));
        }
    }

    /// Takes in one byte.
    fn add_byte(&mut self, byte: u8) {
        self.word = (self.word << 8) | u64::from(byte);
        self.begun = (self.begun & 7) + 1;
        if self.begun == 8 {
            let word = self.word;
            self.add(word);
            self.word = 0;
            self.begun = 0;
        }
    }

    /// Takes in the first step that fails, with its criterion, or that there is none.
    pub fn add_first(&mut self, first: Option<(u32, Criterion)>) {
        match first {
            Some((step, criterion)) => {
                self.add(u64::from(step));
                self.add_word(criterion.code());
            }
            None => self.add(u64::MAX),
        }
    }

    /// Takes in what a report says in short.
    pub fn add_summary(&mut self, summary: &Summary) {
        self.add(u64::from(summary.lines));
        self.add_first(summary.first);
    }

    /// The digest of all that was taken in.
    pub fn value(&self) -> u64 {
        let mut whole = *self;
        whole.add(self.word);
        whole.add(u64::from(self.begun));
        whole.state
    }
}

impl Sink for Digest {
    // It doesn't hold the bytes.
    ghost contents = { λ _. None };

    ghost has_failed = { λ _. false };

    fn put(&mut self, bytes: &[u8]) -> Result<usize, SinkFailed> {
        if self.begun > 0 || bytes.len() < 8 {
            self.add_byte(bytes[0]);
            return Ok(1);
        }
        let (words, _rest) = bytes.as_chunks::<8>();
        for word in words {
            self.add(u64::from_be_bytes(*word));
        }
        Ok(words.len() * 8)
    }

    fn failed(&self) -> bool {
        false
    }
}
