use std::hash::Hasher;

/// Hashes a cell for the map of what is aboard. The derived `Hash` of a cell writes three whole
/// numbers, its bay, row and tier. The last four bytes written are kept as one number: the cell in
/// a register, its bytes reversed. One multiplication spreads them. The map finds a group of its
/// table by the lower bits of a hash, and tells the entries of a group apart by upper ones; both
/// differ for neighbouring cells. At the limits of the formats a look-up sees 1.01 groups, and one
/// look-up in 30 compares a key other than the one sought. The map's default hasher multiplies
/// three times, to 128 bits, for the same result.
///
/// There is no secret in it, so cells can be chosen that collide. Of the 10^7 that seven digits
/// write, some 2,400 begin at each of 4,096 groups, and a ship has at most 30,000: with those of 12
/// neighbouring groups a look-up goes through up to 2,500 groups of 64 bytes, one after another. It
/// never goes through more groups than the table has.
#[derive(Clone, Copy)]
pub(crate) struct CellHasher {
    last_four: u32,
}

/// An odd number of 64 bits. Its multiples are spread evenly, by the lower bits as by the upper
/// ones.
const SPREAD: u64 = 0xf135_7aea_2e62_a9c5;

impl Default for CellHasher {
    ghost use Rattle.std.specs.Prelude.{◌≡◌};

    ghost is_default = { λ h. h.last_four ≡ 0 };

    fn default() -> CellHasher {
        CellHasher { last_four: 0 }
    }
}

impl Hasher for CellHasher {
    ghost use Rattle.std.specs.Prelude.{◌+◌, ◌*◌, ◌%◌, ◌^◌, fold};

    ghost write = { λ h bytes. record {
      last_four = fold (λ n b. ((n * 256) % 2 ^ 32 + b) % 2 ^ 32) h.last_four bytes;
    } };

    ghost finish = { λ h. (h.last_four * 0xf1357aea2e62a9c5) % 2 ^ 64 };

    #[inline(always)]
    fn finish(&self) -> u64 {
        u64::from(self.last_four).wrapping_mul(SPREAD)
    }

    #[inline(always)]
    fn write(&mut self, bytes: &[u8]) {
        let mut last_four = self.last_four;
        for byte in bytes {
            last_four = last_four.wrapping_mul(256).wrapping_add(u32::from(*byte));
        }
        self.last_four = last_four;
    }
}
