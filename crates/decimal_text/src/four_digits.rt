ghost use Rattle.std.specs.Prelude.{◌≡◌, ◌+◌, ◌≤◌, ◌<◌, ◌++◌, length, drop};
ghost use Rattle.std.specs.Fmt.{decimal};
ghost use Rattle.decimal_text.specs.Quads.{AreQuads, AreZeros, quad};

use crate::digit_writer::DigitWriter;
use std::alloc::{AllocError, Global};

/// How many numbers have at most four digits.
const ALL: usize = 10_000;

/// The four digits of each number below 10,000, zeros in front among them, and how many these zeros
/// are: numbers are written four digits at a time.
#[derive(Drop)]
pub struct FourDigits {
    table: Vec<[u8; 4]>,
    zeros: Vec<u8>,
    ghost whole: { length table.items ≡ 10000 },
    ghost right: { AreQuads table.items 10000 },
    ghost all: { length zeros.items ≡ 10000 },
    ghost counted: { AreZeros zeros.items 10000 },
}

/// The four digits of a number.
fn digits_of(n: u64) -> [u8; 4]
    requires { n < 10000 }
    ensures { result ≡ quad n }
{
    let (upper, lower) = ((n / 100) as u8, (n % 100) as u8);
    [
        b'0' + upper / 10,
        b'0' + upper % 10,
        b'0' + lower / 10,
        b'0' + lower % 10,
    ]
}

/// How many zeros are in front of a number among its four digits; of 0 the last one is its digit.
fn zeros_before(n: u64) -> u8
    requires { n < 10000 }
    ensures { result + length (decimal n) ≡ 4 }
{
    u8::from(n < 1000) + u8::from(n < 100) + u8::from(n < 10)
}

impl FourDigits {
    /// Makes the tables, of 50,000 bytes.
    pub fn new(alloc: Global) -> Result<FourDigits, AllocError> {
        let mut table = Vec::with_capacity(alloc, ALL)?;
        let mut zeros = Vec::with_capacity(alloc, ALL)?;
        for n in 0..10_000u64 {
            table.push(digits_of(n))?;
            zeros.push(zeros_before(n))?;
        }
        Ok(FourDigits { table, zeros })
    }

    /// Writes numbers by these tables.
    #[inline(always)]
    pub(crate) fn writer(&self) -> DigitWriter<'_> {
        DigitWriter {
            table: self.table.as_slice(),
            zeros: self.zeros.as_slice(),
        }
    }

    /// Writes the digits of a number so that they end at `end`, and answers where they begin. Up to
    /// three bytes in front of them are lost.
    #[inline]
    pub fn write(&self, n: u64, bytes: &mut [u8], end: usize) -> usize
        requires room { 20 ≤ end }
        requires end { end ≤ length bytes.old }
        ensures start { result + length (decimal n) ≡ end }
        ensures written { drop result bytes.new ≡ decimal n ++ drop end bytes.old }
    {
        self.writer().write(n, bytes, end)
    }
}
