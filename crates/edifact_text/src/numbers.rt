ghost use Rattle.std.specs.Prelude.{◌≡◌};
ghost use Rattle.edifact_text.specs.Rows.{count_of, is_one};
ghost use Rattle.edifact_text.specs.Views.{meaning_of};

use crate::raw::Raw;
use arrayvec::ArrayVec;

/// The number that these digits write, where they are 1 to 10 digits.
pub(crate) fn number(digits: &[u8]) -> Option<u64>
    ensures { result ≡ count_of digits.now }
{
    if digits.is_empty() || digits.len() > 10 {
        return None;
    }
    let mut value: u64 = 0;
    for digit in digits {
        if !digit.is_ascii_digit() {
            return None;
        }
        value = 10 * value + u64::from(*digit - b'0');
    }
    Some(value)
}

/// The number that a literal of 1 to 10 digits writes.
pub(crate) fn count(raw: Raw<'_>) -> Option<u64>
    ensures { result ≡ count_of (meaning_of raw.entry) }
{
    let mut digits: ArrayVec<u8, 35> = ArrayVec::new();
    if !raw.literal_into(&mut digits) {
        return None;
    }
    number(digits.as_slice())
}

/// The literal is the number 1, behind any zeros.
pub(crate) fn is_one(raw: Raw<'_>) -> bool
    ensures { result ≡ is_one (meaning_of raw.entry) }
{
    let mut left = raw;
    while let Some((byte, rest)) = left.split_first() {
        if byte != b'0' {
            return left.is(b"1");
        }
        left = rest;
    }
    false
}
