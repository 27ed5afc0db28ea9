//! Numbers that look random, the same for the same seed.

/// A generator of such numbers (splitmix64: G. Steele, D. Lea, C. Flood, "Fast splittable
/// pseudorandom number generators", 2014).
#[derive(Clone, Copy)]
pub struct Chance {
    state: u64,
}

impl Chance {
    /// The generator of a seed.
    pub fn new(seed: u64) -> Chance {
        Chance { state: seed }
    }

    /// The next number of 64 bits.
    pub fn next(&mut self) -> u64 {
        self.state = self.state.wrapping_add(0x9E37_79B9_7F4A_7C15);
        let mixed = (self.state ^ (self.state >> 30)).wrapping_mul(0xBF58_476D_1CE4_E5B9);
        let mixed = (mixed ^ (mixed >> 27)).wrapping_mul(0x94D0_49BB_1331_11EB);
        mixed ^ (mixed >> 31)
    }

    /// The next number below a limit; 0 where the limit is 0.
    pub fn below(&mut self, limit: u32) -> u32 {
        if limit == 0 {
            return 0;
        }
        ((self.next() >> 16) % u64::from(limit)) as u32
    }

    /// Whether something happens that does so in `thousandths` of 1,000 cases.
    pub fn happens(&mut self, thousandths: u32) -> bool {
        self.below(1_000) < thousandths
    }
}
