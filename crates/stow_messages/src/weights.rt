ghost use Rattle.std.specs.Prelude.{◌≡◌, ◌==◌, ◌<◌, ◌≤◌, ◌^◌, length};
ghost use Rattle.std.specs.Char.{is_ascii_digit};
ghost use Rattle.std.specs.List.{list_all};
ghost use Rattle.std.specs.Str.Parse.{digits_value};
ghost use Rattle.edifact_text.specs.Views.{meaning_of};
ghost use Rattle.stow_messages.specs.Weights.{kg_in, kg_of, digits_of, behind_digits, is_fraction};
ghost use Rattle.stow_messages.specs.Weights.{in_six_digits, is_above_zero, begins_with_digit};

use arrayvec::ArrayVec;
use edifact_text::Raw;
use units_core::Kg;

/// The number that the digits in front of a short text write, and what is behind them: 64 bits hold
/// it.
#[inline(always)]
fn short_number(text: &[u8]) -> (u64, &[u8])
    requires { length text.now ≤ 18 }
    ensures number { result.0 ≡ digits_value 10 (digits_of text.now) }
    ensures behind { result.1.now ≡ behind_digits text.now }
    ensures small { result.0 < 10 ^ 18 }
{
    let mut number: u64 = 0;
    for (at, byte) in text.iter().enumerate() {
        if !byte.is_ascii_digit() {
            return (number, &text[at..]);
        }
        number = 10 * number + u64::from(*byte - b'0');
    }
    (number, &[])
}

/// The number that the digits in front write, and what is behind them.
#[inline(always)]
fn leading_number(text: &[u8]) -> (u128, &[u8])
    requires { length text.now ≤ 35 }
    ensures number { result.0 ≡ digits_value 10 (digits_of text.now) }
    ensures behind { result.1.now ≡ behind_digits text.now }
    ensures small { result.0 < 10 ^ 35 }
{
    if text.len() > 18 {
        return long_number(text);
    }
    let (number, behind) = short_number(text);
    (u128::from(number), behind)
}

/// The number that the digits in front of a text write, however many they are, and what is behind
/// them.
#[cold]
#[inline(never)]
fn long_number(text: &[u8]) -> (u128, &[u8])
    requires { length text.now ≤ 35 }
    ensures number { result.0 ≡ digits_value 10 (digits_of text.now) }
    ensures behind { result.1.now ≡ behind_digits text.now }
    ensures small { result.0 < 10 ^ 35 }
{
    let mut number: u128 = 0;
    for (at, byte) in text.iter().enumerate() {
        if !byte.is_ascii_digit() {
            return (number, &text[at..]);
        }
        number = 10 * number + u128::from(*byte - b'0');
    }
    (number, &[])
}

/// All of the bytes are digits.
fn are_digits(bytes: &[u8]) -> bool
    ensures { result ≡ list_all is_ascii_digit bytes.now }
{
    bytes.iter().all(|byte| byte.is_ascii_digit())
}

/// All of the bytes are the digit 0.
fn are_zeros(bytes: &[u8]) -> bool
    ensures { result ≡ list_all (λ b. b == 48) bytes.now }
{
    bytes.iter().all(|byte| *byte == b'0')
}

/// Nothing, or a mark and digits.
fn is_fraction(text: &[u8], mark: u8) -> bool
    ensures { result ≡ is_fraction mark text.now }
{
    match text {
        [] => true,
        [first, digits @ ..] => {
            (*first == b'.' || *first == b',' || *first == mark) && are_digits(digits)
        }
    }
}

/// A digit other than 0 follows the mark.
fn is_above_zero(text: &[u8]) -> bool
    ensures { result ≡ is_above_zero text.now }
{
    match text {
        [] => false,
        [_, digits @ ..] => !are_zeros(digits),
    }
}

/// The mass of a number of kilograms, which has six digits at most.
#[inline(always)]
pub fn in_six_digits(number: u64) -> Option<Kg>
    ensures { result ≡ in_six_digits number }
{
    match u32::try_from(number) {
        Ok(kg) => Kg::new(kg),
        Err(_) => None,
    }
}

/// The mass that a text of at most 35 bytes writes.
#[inline(always)]
fn kilograms_of(text: &[u8], mark: u8) -> Option<Kg>
    requires { length text.now ≤ 35 }
    ensures { result ≡ kg_of mark text.now }
{
    let first = text.first()?;
    if !first.is_ascii_digit() {
        return None;
    }
    let (number, fraction) = leading_number(text);
    if !is_fraction(fraction, mark) {
        return None;
    }
    let rounded = if is_above_zero(fraction) {
        number + 1
    } else {
        number
    };
    Kg::new(u32::try_from(rounded).ok()?)
}

/// The mass that a text writes; `None` for what is over 35 bytes long, too.
#[inline(always)]
fn kilograms_in(text: &[u8], mark: u8) -> Option<Kg>
    ensures { result ≡ kg_in mark text.now }
{
    if text.len() > 35 {
        return None;
    }
    kilograms_of(text, mark)
}

/// The mass that a value writes some byte of which is released: its literal is copied first.
#[cold]
#[inline(never)]
fn kilograms_spelt(value: Raw<'_>, mark: u8) -> Option<Kg>
    ensures { result ≡ kg_in mark (meaning_of value.entry) }
{
    let mut text: ArrayVec<u8, 35> = ArrayVec::new();
    if !value.literal_into(&mut text) {
        return None;
    }
    kilograms_of(text.as_slice(), mark)
}

/// The mass in kg that a value writes, a fraction rounded up by its digits alone; `None` for what
/// is no number, over 35 bytes long, or above 999,999 kg. `mark` is the interchange's decimal mark.
#[inline(always)]
pub fn kilograms(value: Raw<'_>, mark: u8) -> Option<Kg>
    ensures { result ≡ kg_in mark (meaning_of value.entry) }
{
    match value.without_release() {
        Some(text) => kilograms_in(text, mark),
        None => kilograms_spelt(value, mark),
    }
}
