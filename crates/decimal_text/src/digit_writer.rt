ghost use Rattle.std.specs.Prelude.{◌≡◌, ◌+◌, ◌*◌, ◌≤◌, ◌<◌, ◌∷◌, ◌++◌, length, drop, replicate};
ghost use Rattle.std.specs.Prelude.{IsAscii};
ghost use Rattle.std.specs.Fmt.{decimal, signed_decimal};
ghost use Rattle.decimal_text.specs.Numbers.{behind_each, entry, pair_text, pairs_up_to};
ghost use Rattle.decimal_text.specs.Quads.{AreQuads, AreZeros, quad};

use itoa::Buffer;

/// Writes numbers by the tables of [`crate::FourDigits`]. It is passed by value, so that where the
/// tables are stays in registers: each byte written might be part of a struct that is lent.
#[derive(Clone, Copy)]
pub(crate) struct DigitWriter<'a> {
    pub(crate) table: &'a [[u8; 4]],
    pub(crate) zeros: &'a [u8],
    pub(crate) ghost whole: { length table.now ≡ 10000 },
    pub(crate) ghost right: { AreQuads table.now 10000 },
    pub(crate) ghost all: { length zeros.now ≡ 10000 },
    pub(crate) ghost counted: { AreZeros zeros.now 10000 },
}

/// Writes four bytes over four. They are written as one number: `copy_from_slice` also looks
/// whether the two overlap.
#[inline(always)]
fn write_over(bytes: &mut [u8], four: [u8; 4])
    requires { length bytes.old ≡ 4 }
    ensures { bytes.new ≡ four }
{
    let Some(all) = bytes.as_mut_array() else {
        unreachable!()
    };
    *all = four;
}

/// Writes four digits from `at` on, by the table of them.
#[inline(always)]
fn write_four(table: &[[u8; 4]], n: u64, bytes: &mut [u8], at: usize)
    requires whole { length table.now ≡ 10000 }
    requires right { AreQuads table.now 10000 }
    requires low { n < 10000 }
    requires room { at + 4 ≤ length bytes.old }
    ensures { drop at bytes.new ≡ quad n ++ drop (at + 4) bytes.old }
{
    write_over(&mut bytes[at..at + 4], table[n as usize]);
}

/// Writes a byte that ends at `end`, and answers where it is.
#[inline(always)]
fn write_byte(bytes: &mut [u8], end: usize, byte: u8) -> usize
    requires room { 1 ≤ end }
    requires end { end ≤ length bytes.old }
    ensures near { result + 1 ≡ end }
    ensures written { drop result bytes.new ≡ byte ∷ drop end bytes.old }
{
    bytes[end - 1] = byte;
    end - 1
}

/// Writes up to four zeros that end at `end`, and answers where they begin. Up to four bytes in
/// front of them are lost: there is no branch by how many they are.
#[inline(always)]
pub(crate) fn write_few_zeros(count: usize, bytes: &mut [u8], end: usize) -> usize
    requires few { count ≤ 4 }
    requires room { 4 ≤ end }
    requires end { end ≤ length bytes.old }
    ensures start { result + count ≡ end }
    ensures written { drop result bytes.new ≡ replicate count 48 ++ drop end bytes.old }
{
    write_over(&mut bytes[end - 4..end], [b'0'; 4]);
    end - count
}

/// Writes a whole number of any size, as [`DigitWriter::write_whole`] does.
#[cold]
#[inline(never)]
fn write_wide(byte: u8, n: i128, bytes: &mut [u8], end: usize) -> usize
    requires ascii { byte < 128 }
    requires room { 41 ≤ end }
    requires end { end ≤ length bytes.old }
    ensures near { end ≤ result + 41 }
    ensures inside { result ≤ end }
    ensures written { drop result bytes.new ≡ (byte ∷ signed_decimal n) ++ drop end bytes.old }
    ensures plain { IsAscii (drop end bytes.old) → IsAscii (drop result bytes.new) }
{
    let mut digits = Buffer::new();
    let words = digits.format(n);
    let start = end - words.len();
    bytes[start..end].copy_from_slice(words.as_bytes());
    write_byte(bytes, start, byte)
}

impl<'a> DigitWriter<'a> {
    /// How many zeros are in front of a number among its four digits. They are looked up in a
    /// table, since a branch on the length of the next number is mispredicted.
    #[inline(always)]
    fn zeros(self, n: u64) -> usize
        requires { n < 10000 }
        ensures { result + length (decimal n) ≡ 4 }
    {
        usize::from(self.zeros[n as usize])
    }

    /// Writes the digits of a number below 10,000 so that they end at `end`, and answers where they
    /// begin.
    #[inline(always)]
    fn write_short(self, n: u64, bytes: &mut [u8], end: usize) -> usize
        requires low { n < 10000 }
        requires room { 4 ≤ end }
        requires end { end ≤ length bytes.old }
        ensures start { result + length (decimal n) ≡ end }
        ensures written { drop result bytes.new ≡ decimal n ++ drop end bytes.old }
    {
        write_four(self.table, n, bytes, end - 4);
        end - 4 + self.zeros(n)
    }

    /// Writes the digits of a number so that they end at `end`, and answers where they begin. Up to
    /// three bytes in front of them are lost.
    #[inline]
    pub(crate) fn write(self, n: u64, bytes: &mut [u8], end: usize) -> usize
        requires room { 20 ≤ end }
        requires end { end ≤ length bytes.old }
        ensures start { result + length (decimal n) ≡ end }
        ensures short { end ≤ result + 20 }
        ensures written { drop result bytes.new ≡ decimal n ++ drop end bytes.old }
    {
        let mut left = n;
        let mut at = end;
        while left >= 10_000 {
            write_four(self.table, left % 10_000, bytes, at - 4);
            left /= 10_000;
            at -= 4;
        }
        self.write_short(left, bytes, at)
    }

    /// Writes a whole number that no 64 bits without a sign hold, as [`DigitWriter::write_whole`]
    /// does.
    #[inline(always)]
    fn write_other(self, byte: u8, n: i128, bytes: &mut [u8], end: usize) -> usize
        requires ascii { byte < 128 }
        requires room { 41 ≤ end }
        requires end { end ≤ length bytes.old }
        ensures near { end ≤ result + 41 }
        ensures inside { result ≤ end }
        ensures written { drop result bytes.new ≡ (byte ∷ signed_decimal n) ++ drop end bytes.old }
        ensures plain { IsAscii (drop end bytes.old) → IsAscii (drop result bytes.new) }
    {
        if n >= 0 {
            return write_wide(byte, n, bytes, end);
        }
        let magnitude = n.unsigned_abs();
        if magnitude > u64::MAX as u128 {
            return write_wide(byte, n, bytes, end);
        }
        let digits = self.write(magnitude as u64, bytes, end);
        let start = write_byte(bytes, digits, b'-');
        write_byte(bytes, start, byte)
    }

    /// Writes a whole number so that it ends at `end`, a minus sign if it is negative and its
    /// decimal digits, and before it a byte that parts it from what will be there, and answers
    /// where that byte is. Most numbers of a line have no sign, so they take the short way.
    #[inline(always)]
    pub(crate) fn write_whole(self, byte: u8, n: i128, bytes: &mut [u8], end: usize) -> usize
        requires ascii { byte < 128 }
        requires room { 41 ≤ end }
        requires end { end ≤ length bytes.old }
        ensures near { end ≤ result + 41 }
        ensures inside { result ≤ end }
        ensures written { drop result bytes.new ≡ (byte ∷ signed_decimal n) ++ drop end bytes.old }
        ensures plain { IsAscii (drop end bytes.old) → IsAscii (drop result bytes.new) }
    {
        let Ok(magnitude) = u64::try_from(n) else {
            return self.write_other(byte, n, bytes, end);
        };
        let start = self.write(magnitude, bytes, end);
        write_byte(bytes, start, byte)
    }

    /// Writes whole numbers, each behind a byte, so that the last of them ends at `end`, and
    /// answers where they begin. Where the next one ends is kept in a register from number to
    /// number.
    pub(crate) fn write_each(
        self,
        byte: u8,
        numbers: &[i128],
        bytes: &mut [u8],
        end: usize,
    ) -> usize
        requires ascii { byte < 128 }
        requires room { 41 * length numbers.now ≤ end }
        requires end { end ≤ length bytes.old }
        ensures near { end ≤ result + 41 * length numbers.now }
        ensures inside { result ≤ end }
        ensures written { drop result bytes.new
            ≡ behind_each byte numbers.now ++ drop end bytes.old }
        ensures plain { IsAscii (drop end bytes.old) → IsAscii (drop result bytes.new) }
    {
        let mut left = numbers.len();
        let mut at = end;
        while left > 0 {
            left -= 1;
            at = self.write_whole(byte, numbers[left], bytes, at);
        }
        at
    }

    /// Writes two whole numbers, each behind a byte, so that the second ends at `end`, and answers
    /// where they begin.
    #[inline(always)]
    fn write_pair(
        self,
        byte: u8,
        first: i64,
        between: u8,
        second: i64,
        bytes: &mut [u8],
        end: usize,
    ) -> usize
        requires ascii { byte < 128 }
        requires ascii_between { between < 128 }
        requires room { 82 ≤ end }
        requires end { end ≤ length bytes.old }
        ensures near { end ≤ result + 82 }
        ensures inside { result ≤ end }
        ensures written { drop result bytes.new
            ≡ (byte ∷ pair_text between first second) ++ drop end bytes.old }
        ensures plain { IsAscii (drop end bytes.old) → IsAscii (drop result bytes.new) }
    {
        let start = self.write_whole(between, i128::from(second), bytes, end);
        self.write_whole(byte, i128::from(first), bytes, start)
    }

    /// Writes the pairs of two lists up to the one of this number, as `BackwardText::put_pairs`
    /// says, so that the last of them ends at `end`, and answers where they begin.
    pub(crate) fn write_pairs(
        self,
        opening: u8,
        parting: u8,
        between: u8,
        firsts: &[i64],
        seconds: &[i64],
        last: usize,
        bytes: &mut [u8],
        end: usize,
    ) -> usize
        requires ascii_opening { opening < 128 }
        requires ascii_parting { parting < 128 }
        requires ascii_between { between < 128 }
        requires firsts { last < length firsts.now }
        requires seconds { last < length seconds.now }
        requires room { 82 * last + 82 ≤ end }
        requires end { end ≤ length bytes.old }
        ensures near { end ≤ result + 82 * last + 82 }
        ensures inside { result ≤ end }
        ensures written { drop result bytes.new
            ≡ (opening ∷ pairs_up_to parting between (entry firsts.now) (entry seconds.now) last)
            ++ drop end bytes.old }
        ensures plain { IsAscii (drop end bytes.old) → IsAscii (drop result bytes.new) }
    {
        let mut left = last;
        let mut at = end;
        while left > 0 {
            at = self.write_pair(parting, firsts[left], between, seconds[left], bytes, at);
            left -= 1;
        }
        self.write_pair(opening, firsts[0], between, seconds[0], bytes, at)
    }
}
