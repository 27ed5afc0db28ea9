ghost use Rattle.std.specs.Prelude.{◌≡◌, ◌<◌, ◌≤◌, ◌^◌, IfSome};
ghost use Rattle.csv_text.specs.Numbers.{after_spaces, before_spaces, natural_in, number_in};

/// The greatest number of digits, which 64 bits hold with a sign.
const MAX_DIGITS: usize = 18;

/// The text without the spaces that it begins with.
fn trim_start(text: &[u8]) -> &[u8]
    ensures { result.now ≡ after_spaces text.now }
{
    let mut rest = text;
    while let [b' ', after @ ..] = rest {
        rest = after;
    }
    rest
}

/// The text without the spaces that it ends with.
fn trim_end(text: &[u8]) -> &[u8]
    ensures { result.now ≡ before_spaces text.now }
{
    let mut rest = text;
    while let Some((last, before)) = rest.split_last() {
        if *last != b' ' {
            return rest;
        }
        rest = before;
    }
    rest
}

/// The number that digits alone write; `None` where there are none of them or more than `most`,
/// which is at most 18.
pub fn natural(digits: &[u8], most: usize) -> Option<u64>
    requires { most ≤ 18 }
    ensures value { result ≡ natural_in most digits.now }
    ensures small { IfSome result (λ n. n < 10 ^ 18) }
{
    if digits.is_empty() || digits.len() > most {
        return None;
    }
    let mut value: u64 = 0;
    for digit in digits {
        if !digit.is_ascii_digit() {
            return None;
        }
        value = value * 10 + u64::from(*digit - b'0');
    }
    Some(value)
}

/// The number of any field.
fn signed_number(text: &[u8]) -> Option<i64>
    ensures { result ≡ number_in text.now }
{
    match trim_end(trim_start(text)) {
        [b'-', digits @ ..] => match natural(digits, MAX_DIGITS) {
            Some(size) => Some(-(size as i64)),
            None => None,
        },
        digits => match natural(digits, MAX_DIGITS) {
            Some(size) => Some(size as i64),
            None => None,
        },
    }
}

/// The number that a field writes: spaces at both ends are skipped, then a minus or none, then 1 to
/// 18 digits.
pub fn number(text: &[u8]) -> Option<i64>
    ensures { result ≡ number_in text.now }
{
    // Most fields are digits alone.
    match natural(text, MAX_DIGITS) {
        Some(size) => Some(size as i64),
        None => signed_number(text),
    }
}
