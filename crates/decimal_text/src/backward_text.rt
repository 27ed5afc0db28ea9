ghost use Rattle.std.specs.Prelude.{◌≡◌, ◌+◌, ◌-◌, ◌*◌, ◌<◌, ◌≤◌, ◌∷◌, ◌++◌, [], length, replicate};
ghost use Rattle.std.specs.Prelude.{IsAscii, is_ok, string_bytes, if◌then◌else◌};
ghost use Rattle.std.specs.Fmt.{decimal, signed_decimal};
ghost use Rattle.decimal_text.specs.Numbers.{behind_each, entry, pairs_up_to};

use crate::digit_writer::write_few_zeros;
use crate::four_digits::FourDigits;
use std::alloc::AllocError;
use std::marker::Model;

/// How many bytes a [`BackwardText`] can hold.
pub const ROOM: usize = 2048;

/// An ASCII text that grows at its front. Contracts see it as the bytes that it holds.
#[derive(Drop)]
pub struct BackwardText<'a> {
    digits: &'a FourDigits,
    /// The text is what these end with.
    bytes: [u8; ROOM],
    /// Where the text begins.
    start: usize,
}

impl<'a> Model for BackwardText<'a> {
    ghost use Rattle.std.specs.Prelude.{ℕ, List, drop, ◌≤◌, IsAscii};

    ghost Value = { List ℕ };

    ghost view = { λ t. drop t.start t.bytes };

    ghost invariant = { λ t. (t.start ≤ 2048) × IsAscii (drop t.start t.bytes) };
}

impl<'a> BackwardText<'a> {
    /// An empty text, whose numbers are written by this table.
    pub fn new(digits: &'a FourDigits) -> BackwardText<'a>
        ensures { result ≡ [] }
    {
        BackwardText {
            digits,
            bytes: [0; ROOM],
            start: ROOM,
        }
    }

    /// Empties the text, so that another can be written. The bytes of the buffer aren't cleared,
    /// since that costs more than writing a line.
    pub fn clear(&mut self)
        ensures { self.new ≡ [] }
    {
        self.start = ROOM;
    }

    /// How many bytes can still be written before the text.
    pub fn room(&self) -> usize
        ensures { result + length self.now ≡ ROOM }
    {
        self.start
    }

    /// Writes an ASCII byte before the text.
    #[inline]
    pub fn put_byte(&mut self, byte: u8)
        requires room { length self.old < ROOM }
        requires ascii { byte < 128 }
        ensures { self.new ≡ byte ∷ self.old }
    {
        self.start -= 1;
        self.bytes[self.start] = byte;
    }

    /// Writes ASCII words before the text.
    pub fn put_words(&mut self, words: &str)
        requires room { length words.now + length self.old ≤ ROOM }
        requires ascii { IsAscii words.now }
        ensures { self.new ≡ words.now ++ self.old }
    {
        let end = self.start;
        self.start -= words.len();
        self.bytes[self.start..end].copy_from_slice(words.as_bytes());
    }

    /// Writes the decimal digits of a natural number before the text.
    #[inline]
    pub fn put_natural(&mut self, n: u64)
        requires room { length self.old + 20 ≤ ROOM }
        ensures text { self.new ≡ decimal n ++ self.old }
        ensures short { length self.new ≤ length self.old + 20 }
    {
        self.start = self.digits.writer().write(n, &mut self.bytes, self.start);
    }

    /// Writes `count` zeros before the text.
    #[inline]
    fn put_zeros(&mut self, count: usize)
        requires { count + length self.old ≤ ROOM }
        ensures { self.new ≡ replicate count 48 ++ self.old }
    {
        if count <= 4 {
            if self.start >= 4 {
                self.start = write_few_zeros(count, &mut self.bytes, self.start);
                return;
            }
        }
        self.put_many_zeros(count);
    }

    /// Writes `count` zeros one by one, for more than four or where there is no room for four.
    #[cold]
    fn put_many_zeros(&mut self, count: usize)
        requires { count + length self.old ≤ ROOM }
        ensures { self.new ≡ replicate count 48 ++ self.old }
    {
        for _zero in 0..count {
            self.put_byte(b'0');
        }
    }

    /// Writes a natural number before the text, in `digits` digits, or in more if it has more.
    #[inline]
    pub fn put_in_digits(&mut self, n: u64, digits: usize)
        requires few { digits ≤ 20 }
        requires room { length self.old + 20 ≤ ROOM }
        ensures text { self.new
            ≡ (replicate (digits - length (decimal n)) 48 ++ decimal n) ++ self.old }
        ensures short { length self.new ≤ length self.old + 20 }
    {
        let room = self.room();
        self.put_natural(n);
        let written = room - self.room();
        self.put_zeros(digits.saturating_sub(written));
    }

    /// Writes a whole number before the text, a minus sign if it is negative and its decimal
    /// digits, and before it a byte that parts it from what will be there.
    #[inline]
    pub fn put_parted(&mut self, byte: u8, n: i128)
        requires ascii { byte < 128 }
        requires room { length self.old + 41 ≤ ROOM }
        ensures text { self.new ≡ (byte ∷ signed_decimal n) ++ self.old }
        ensures short { length self.new ≤ length self.old + 41 }
    {
        self.start = self
            .digits
            .writer()
            .write_whole(byte, n, &mut self.bytes, self.start);
    }

    /// Writes whole numbers before the text, the last of them next to it, each with a minus sign if
    /// it is negative, and each behind a byte.
    pub fn put_each(&mut self, byte: u8, numbers: &[i128])
        requires ascii { byte < 128 }
        requires room { length self.old + 41 * length numbers.now ≤ ROOM }
        ensures text { self.new ≡ behind_each byte numbers.now ++ self.old }
        ensures short { length self.new ≤ length self.old + 41 * length numbers.now }
    {
        self.start = self
            .digits
            .writer()
            .write_each(byte, numbers, &mut self.bytes, self.start);
    }

    /// Writes pairs of whole numbers before the text: the first numbers of two lists, the second of
    /// both, and so on up to those of the number `last`, counted from 0. The two of a pair have
    /// `between` between them, the first pair is behind `opening`, and each other one behind
    /// `parting`.
    pub fn put_pairs(
        &mut self,
        opening: u8,
        parting: u8,
        between: u8,
        firsts: &[i64],
        seconds: &[i64],
        last: usize,
    )
        requires ascii_opening { opening < 128 }
        requires ascii_parting { parting < 128 }
        requires ascii_between { between < 128 }
        requires firsts { last < length firsts.now }
        requires seconds { last < length seconds.now }
        requires room { length self.old + (82 * last + 82) ≤ ROOM }
        ensures text { self.new
            ≡ (opening ∷ pairs_up_to parting between (entry firsts.now) (entry seconds.now) last)
            ++ self.old }
        ensures short { length self.new ≤ length self.old + (82 * last + 82) }
    {
        self.start = self.digits.writer().write_pairs(
            opening,
            parting,
            between,
            firsts,
            seconds,
            last,
            &mut self.bytes,
            self.start,
        );
    }

    /// The text.
    pub fn as_bytes(&self) -> &[u8]
        ensures value { result.now ≡ self.now }
        ensures short { length result.now ≤ ROOM }
        ensures ascii { IsAscii result.now }
    {
        &self.bytes[self.start..]
    }

    /// Appends the text to another in one piece.
    pub fn append_to(&self, text: &mut String) -> Result<(), AllocError>
        ensures { string_bytes text.new
            ≡ (if is_ok result then string_bytes text.old ++ self.now else string_bytes text.old) }
    {
        // SAFETY: all bytes of `as_bytes` are ASCII, as its clause `ascii` says, and so UTF-8.
        text.push_str(unsafe { std::str::from_utf8_unchecked(self.as_bytes()) })
    }
}
