//! Components of the forms that messages are full of, read where they stand. Nothing is said of any
//! other form: whoever asks reads that by its literal.
ghost use Rattle.std.specs.Prelude.{◌≡◌, ◌≤◌, IfSome, Some, length, not, take, true, ◌==◌, ◌∷◌, []};
ghost use Rattle.std.specs.List.{prefix_len};
ghost use Rattle.edifact_text.specs.Characters.{serves};
ghost use Rattle.edifact_text.specs.Rows.{count_of, is_digit};
ghost use Rattle.edifact_text.specs.Views.{leading_component, leading_literal};
ghost use Rattle.edifact_text.specs.Pieces.{literal};

use crate::components::is_capital;
use crate::raw::Raw;
use crate::service::Service;
use std::simd::prelude::*;

/// The byte is a digit. No digit separates, ends or releases.
#[inline(always)]
fn is_digit(byte: u8) -> bool
    ensures { result ≡ is_digit byte }
{
    byte.is_ascii_digit()
}

/// The component with which the bytes begin, where it is seven digits.
#[inline(always)]
pub(crate) fn leading_seven(bytes: &[u8], service: Service) -> Option<&[u8]>
    requires { serves service ≡ true }
    ensures { IfSome result (λ text. leading_literal service bytes.now ≡ text.now) }
{
    match bytes {
        [a, b, c, d, e, f, g, rest @ ..]
            if is_digit(*a)
                && is_digit(*b)
                && is_digit(*c)
                && is_digit(*d)
                && is_digit(*e)
                && is_digit(*f)
                && is_digit(*g) => {
            if Raw::leading(rest, service).is_empty() {
                Some(&bytes[..7])
            } else {
                None
            }
        }
        _ => None,
    }
}

/// How many of the first 16 bytes are before one that is this byte: 16 where none is.
#[inline(always)]
fn place_of(bytes: &[u8], byte: u8) -> usize
    requires { 16 ≤ length bytes.now }
    ensures { result ≡ prefix_len (λ b. not (b == byte)) (take 16 bytes.now) }
{
    let places = u8x16::from_slice(bytes)
        .simd_eq(u8x16::splat(byte))
        .to_bitmask();
    if places == 0 {
        16
    } else {
        places.trailing_zeros() as usize
    }
}

/// The component with which the bytes begin, where it is eleven bytes, none of them released. The
/// bytes are looked at together.
#[inline(always)]
pub(crate) fn leading_eleven(bytes: &[u8], service: Service) -> Option<&[u8]>
    ensures { IfSome result (λ text. leading_literal service bytes.now ≡ text.now) }
{
    if bytes.len() < 16 {
        return None;
    }
    let other = match service.release {
        Some(other) => other,
        None => service.component,
    };
    let ends = place_of(bytes, service.element).min(place_of(bytes, service.component));
    if ends.min(place_of(bytes, other)) < 11 {
        return None;
    }
    if Raw::leading(&bytes[11..], service).is_empty() {
        Some(&bytes[..11])
    } else {
        None
    }
}

/// The number that the component with which the bytes begin writes, in 1 to 10 digits.
#[inline(always)]
fn leading_count(bytes: &[u8], service: Service) -> Option<u64>
    requires { serves service ≡ true }
    ensures { IfSome result (λ n. count_of (leading_literal service bytes.now) ≡ Some n) }
{
    let mut value: u64 = 0;
    for (at, byte) in bytes.iter().enumerate() {
        if !is_digit(*byte) {
            if at == 0 {
                return None;
            }
            if Raw::leading(&bytes[at..], service).is_empty() {
                return Some(value);
            }
            return None;
        }
        if at >= 10 {
            return None;
        }
        value = 10 * value + u64::from(*byte - b'0');
    }
    if bytes.is_empty() { None } else { Some(value) }
}

/// The number that component 1 of the element with which the bytes begin writes, in 1 to 10 digits,
/// where component 0 is these three capital letters.
#[inline(always)]
pub(crate) fn leading_measure(
    bytes: &[u8],
    service: Service,
    first: u8,
    second: u8,
    third: u8,
) -> Option<u64>
    requires { serves service ≡ true }
    ensures unit { IfSome result
        (λ _. leading_literal service bytes.now ≡ first ∷ second ∷ third ∷ []) }
    ensures number { IfSome result
        (λ n. count_of (literal service.release (leading_component service 1 bytes.now))
        ≡ Some n) }
{
    match bytes {
        [a, b, c, d, rest @ ..]
            if *a == first && *b == second && *c == third && *d == service.component => {
            if is_capital(first) && is_capital(second) && is_capital(third) {
                let number = leading_count(rest, service)?;
                Some(number)
            } else {
                None
            }
        }
        _ => None,
    }
}
