//! Cutting bytes at a separator. A separator behind a release character cuts nothing.
ghost use Rattle.std.specs.Prelude.{◌≡◌, ◌↔◌, ◌<◌, ◌≤◌, IsTrue, false, IfSome, MatchOption, length};
ghost use Rattle.std.specs.Prelude.{slice_index_or, [], ◌∷◌, ◌+◌, drop, option_map, take, not};
ghost use Rattle.std.specs.Prelude.{◌==◌, true};
ghost use Rattle.std.specs.List.{prefix_len};
ghost use Rattle.edifact_text.specs.Characters.{is_release, is_blank};
ghost use Rattle.edifact_text.specs.Pieces.{end_from, pieces};
ghost use Rattle.edifact_text.specs.Reading.{trimmed};
ghost use Rattle.edifact_text.specs.Views.{begins_ordinary, is_ordinary_letter};

use memchr::memchr2;
use std::simd::prelude::*;

/// The byte is the release character.
#[inline(always)]
pub(crate) fn is_release(release: Option<u8>, byte: u8) -> bool
    ensures { result ≡ is_release release byte }
{
    match release {
        Some(r) => byte == r,
        None => false,
    }
}

/// The index of the first separator that cuts.
#[cold]
#[inline(never)]
pub(crate) fn end_of(bytes: &[u8], release: Option<u8>, separator: u8) -> Option<usize>
    ensures value { result ≡ end_from release separator false bytes.now }
    ensures within { IfSome result (λ n. n < length bytes.now) }
{
    let mut held = false;
    for (at, byte) in bytes.iter().enumerate() {
        if held {
            held = false;
        } else if is_release(release, *byte) {
            held = true;
        } else if *byte == separator {
            return Some(at);
        }
    }
    None
}

/// The index of the first separator that cuts, where it is likely to be before any release
/// character: up to that, no byte needs to be known to be released.
#[inline(always)]
fn end_nearby(bytes: &[u8], release: Option<u8>, separator: u8) -> Option<usize>
    ensures value { result ≡ end_from release separator false bytes.now }
    ensures within { IfSome result (λ n. n < length bytes.now) }
{
    for (at, byte) in bytes.iter().enumerate() {
        if is_release(release, *byte) {
            return match end_of(&bytes[at..], release, separator) {
                Some(end) => Some(at + end),
                None => None,
            };
        }
        if *byte == separator {
            return Some(at);
        }
    }
    None
}

/// How many bytes in front neither cut nor release. They are passed over by vectors.
#[cold]
#[inline(never)]
fn quiet_length(bytes: &[u8], release: Option<u8>, separator: u8) -> usize
    ensures quiet { end_from release separator false bytes.now ≡ option_map
        (λ n. result + n) (end_from release separator false (drop result bytes.now)) }
    ensures within { result ≤ length bytes.now }
{
    let other = match release {
        Some(other) => other,
        None => separator,
    };
    match memchr2(separator, other, bytes) {
        Some(at) => at,
        None => bytes.len(),
    }
}

/// How many of the first 32 bytes are before one that is this byte: 32 where none is.
#[inline(always)]
fn place_in_vector(bytes: &[u8], byte: u8) -> usize
    requires { 32 ≤ length bytes.now }
    ensures { result ≡ prefix_len (λ b. not (b == byte)) (take 32 bytes.now) }
{
    let places = u8x32::from_slice(bytes)
        .simd_eq(u8x32::splat(byte))
        .to_bitmask();
    if places == 0 {
        32
    } else {
        places.trailing_zeros() as usize
    }
}

/// How many of the first 32 bytes are before one that cuts or releases: 32 where none does.
#[inline(always)]
fn quiet_in_vector(bytes: &[u8], release: Option<u8>, separator: u8) -> usize
    requires { 32 ≤ length bytes.now }
    ensures quiet { end_from release separator false bytes.now ≡ option_map
        (λ n. result + n) (end_from release separator false (drop result bytes.now)) }
    ensures within { result ≤ 32 }
{
    let other = match release {
        Some(other) => other,
        None => separator,
    };
    place_in_vector(bytes, separator).min(place_in_vector(bytes, other))
}

/// How many bytes in front neither cut nor release, where that is sure of the first 32, and they
/// end within the 32 behind these. Out of line, so that the look at the first 32 takes no more than
/// it must.
#[cold]
#[inline(never)]
fn second_length(bytes: &[u8], release: Option<u8>, separator: u8) -> Option<usize>
    requires { end_from release separator false bytes.now ≡ option_map
        (λ k. 32 + k) (end_from release separator false (drop 32 bytes.now)) }
    ensures quiet { IfSome result (λ n. end_from release separator false bytes.now ≡ option_map
        (λ k. n + k) (end_from release separator false (drop n bytes.now))) }
    ensures within { IfSome result (λ n. n < length bytes.now) }
    ensures near { IfSome result (λ n. n < 64) }
{
    if bytes.len() < 64 {
        return None;
    }
    let (_, rest) = bytes.split_at(32);
    let behind = quiet_in_vector(rest, release, separator);
    if behind < 32 { Some(32 + behind) } else { None }
}

/// How many bytes in front neither cut nor release, where those end within 32 bytes. What
/// `quiet_in_vector` does stands here once more, and in `near_cut` what `cut_at` does: with a call
/// of these the compiler no longer puts the walk over a message's segments into its caller's loop,
/// which takes 1.18 times the instructions of reading a bay plan.
#[inline(always)]
fn near_length(bytes: &[u8], release: Option<u8>, separator: u8) -> Option<usize>
    ensures quiet { IfSome result (λ n. end_from release separator false bytes.now ≡ option_map
        (λ k. n + k) (end_from release separator false (drop n bytes.now))) }
    ensures within { IfSome result (λ n. n < length bytes.now) }
    ensures near { IfSome result (λ n. n < 32) }
{
    if bytes.len() < 32 {
        return None;
    }
    let other = match release {
        Some(other) => other,
        None => separator,
    };
    let at = place_in_vector(bytes, separator).min(place_in_vector(bytes, other));
    if at < 32 { Some(at) } else { None }
}

/// How many bytes in front neither cut nor release, where those end within 64 bytes.
#[inline(always)]
fn nearby_length(bytes: &[u8], release: Option<u8>, separator: u8) -> Option<usize>
    ensures quiet { IfSome result (λ n. end_from release separator false bytes.now ≡ option_map
        (λ k. n + k) (end_from release separator false (drop n bytes.now))) }
    ensures within { IfSome result (λ n. n < length bytes.now) }
    ensures near { IfSome result (λ n. n < 64) }
{
    if bytes.len() < 32 {
        return None;
    }
    let at = quiet_in_vector(bytes, release, separator);
    if at < 32 {
        return Some(at);
    }
    second_length(bytes, release, separator)
}

/// The index of the first separator that cuts, where it may be far off. Only from a release
/// character on is each byte looked at.
#[cold]
#[inline(never)]
fn end_behind(bytes: &[u8], release: Option<u8>, separator: u8) -> Option<usize>
    ensures value { result ≡ end_from release separator false bytes.now }
    ensures within { IfSome result (λ n. n < length bytes.now) }
{
    let start = quiet_length(bytes, release, separator);
    match end_of(&bytes[start..], release, separator) {
        Some(end) => Some(start + end),
        None => None,
    }
}

/// The bytes before this end, and those behind the separator that is there; all of them where there
/// is none.
#[inline(always)]
fn split_at_end(
    bytes: &[u8],
    release: Option<u8>,
    separator: u8,
    end: Option<usize>,
) -> (&[u8], Option<&[u8]>)
    requires is { end ≡ end_from release separator false bytes.now }
    requires within { IfSome end (λ n. n < length bytes.now) }
    ensures first { MatchOption result.1 (pieces release separator bytes.now ≡ result.0.now ∷ [])
        (λ rest. pieces release separator bytes.now
        ≡ result.0.now ∷ pieces release separator rest.now) }
    ensures less { length result.0.now ≤ length bytes.now }
    ensures len { IfSome result.1
        (λ rest. length result.0.now + 1 + length rest.now ≡ length bytes.now) }
{
    match end {
        None => (bytes, None),
        Some(end) => {
            let (front, behind) = bytes.split_at(end);
            match behind {
                [] => (bytes, None),
                [_, rest @ ..] => (front, Some(rest)),
            }
        }
    }
}

/// The bytes up to the first separator that cuts, and those behind it; all of them where none does.
pub(crate) fn cut(bytes: &[u8], release: Option<u8>, separator: u8) -> (&[u8], Option<&[u8]>)
    ensures first { MatchOption result.1 (pieces release separator bytes.now ≡ result.0.now ∷ [])
        (λ rest. pieces release separator bytes.now
        ≡ result.0.now ∷ pieces release separator rest.now) }
    ensures less { length result.0.now ≤ length bytes.now }
    ensures len { IfSome result.1
        (λ rest. length result.0.now + 1 + length rest.now ≡ length bytes.now) }
{
    split_at_end(
        bytes,
        release,
        separator,
        end_nearby(bytes, release, separator),
    )
}

/// Cuts as `cut` does, where the separator may be far off.
#[inline(always)]
pub(crate) fn far_cut(bytes: &[u8], release: Option<u8>, separator: u8) -> (&[u8], Option<&[u8]>)
    ensures first { MatchOption result.1 (pieces release separator bytes.now ≡ result.0.now ∷ [])
        (λ rest. pieces release separator bytes.now
        ≡ result.0.now ∷ pieces release separator rest.now) }
    ensures less { length result.0.now ≤ length bytes.now }
    ensures len { IfSome result.1
        (λ rest. length result.0.now + 1 + length rest.now ≡ length bytes.now) }
{
    split_at_end(
        bytes,
        release,
        separator,
        end_behind(bytes, release, separator),
    )
}

/// The bytes before this place and those behind it, where a separator is there.
#[inline(always)]
fn cut_at(bytes: &[u8], release: Option<u8>, separator: u8, place: usize) -> Option<(&[u8], &[u8])>
    requires apart { is_release release separator ≡ false }
    requires within { place < length bytes.now }
    requires quiet { end_from release separator false bytes.now ≡ option_map
        (λ k. place + k) (end_from release separator false (drop place bytes.now)) }
    ensures first { IfSome result (λ p. pieces release separator bytes.now
        ≡ p.0.now ∷ pieces release separator p.1.now) }
    ensures len { IfSome result (λ p. length p.0.now + 1 + length p.1.now ≡ length bytes.now) }
    ensures end { IfSome result (λ p. length p.0.now ≡ place) }
{
    if bytes[place] != separator {
        return None;
    }
    let (front, behind) = bytes.split_at(place);
    match behind {
        [] => None,
        [_, rest @ ..] => Some((front, rest)),
    }
}

/// The bytes up to the first separator and those behind it, where it is near and cuts. The bytes
/// are looked at together; nothing is said of a separator that is farther off, or behind a release
/// character.
#[inline(always)]
pub(crate) fn near_cut(bytes: &[u8], release: Option<u8>, separator: u8) -> Option<(&[u8], &[u8])>
    requires { is_release release separator ≡ false }
    ensures first { IfSome result (λ p. pieces release separator bytes.now
        ≡ p.0.now ∷ pieces release separator p.1.now) }
    ensures len { IfSome result (λ p. length p.0.now + 1 + length p.1.now ≡ length bytes.now) }
    ensures near { IfSome result (λ p. length p.0.now < 32) }
{
    let end = near_length(bytes, release, separator)?;
    if bytes[end] != separator {
        return None;
    }
    let (front, behind) = bytes.split_at(end);
    match behind {
        [] => None,
        [_, rest @ ..] => Some((front, rest)),
    }
}

/// The same of a separator that may be twice as far off.
#[inline(always)]
pub(crate) fn nearby_cut(bytes: &[u8], release: Option<u8>, separator: u8) -> Option<(&[u8], &[u8])>
    requires { is_release release separator ≡ false }
    ensures first { IfSome result (λ p. pieces release separator bytes.now
        ≡ p.0.now ∷ pieces release separator p.1.now) }
    ensures len { IfSome result (λ p. length p.0.now + 1 + length p.1.now ≡ length bytes.now) }
    ensures near { IfSome result (λ p. length p.0.now < 64) }
{
    let end = nearby_length(bytes, release, separator)?;
    cut_at(bytes, release, separator, end)
}

/// The bytes from the piece of this index on, or nothing past the last piece.
pub(crate) fn from_piece(
    bytes: &[u8],
    release: Option<u8>,
    separator: u8,
    index: usize,
) -> Option<&[u8]>
    ensures { MatchOption result (slice_index_or (pieces release separator bytes.now) index [] ≡ [])
        (λ rest. slice_index_or (pieces release separator bytes.now) index []
        ≡ slice_index_or (pieces release separator rest.now) 0 []) }
{
    let mut rest = bytes;
    for _ in 0..index {
        match cut(rest, release, separator).1 {
            Some(behind) => rest = behind,
            None => return None,
        }
    }
    Some(rest)
}

/// `most` pieces or fewer.
pub(crate) fn are_at_most(bytes: &[u8], release: Option<u8>, separator: u8, most: u32) -> bool
    requires { 0 < most }
    ensures { IsTrue result ↔ (length (pieces release separator bytes.now) ≤ most) }
{
    let mut rest = bytes;
    for _ in 0..most {
        match cut(rest, release, separator).1 {
            Some(behind) => rest = behind,
            None => return true,
        }
    }
    false
}

/// Carriage return, line feed, tab or space.
#[inline(always)]
pub(crate) fn is_blank(byte: u8) -> bool
    ensures { result ≡ is_blank byte }
{
    byte == b'\r' || byte == b'\n' || byte == b'\t' || byte == b' '
}

/// The bytes from the first that is no blank.
#[inline(always)]
pub(crate) fn skip_blanks(bytes: &[u8]) -> &[u8]
    ensures value { result.now ≡ trimmed bytes.now }
    ensures less { length result.now ≤ length bytes.now }
{
    // Nearly every segment is at the beginning of a line, or right behind the one before it.
    match bytes {
        [b'\n', first, ..] if *first > b' ' => &bytes[1..],
        [first, ..] if *first > b' ' => bytes,
        _ => skip_any_blanks(bytes),
    }
}

/// A letter with which ordinary segments begin: a capital letter that begins no trailer.
#[inline(always)]
pub(crate) fn is_ordinary_letter(byte: u8) -> bool
    ensures { result ≡ is_ordinary_letter byte }
{
    byte.is_ascii_uppercase() && byte != b'U'
}

/// The bytes from the first that is no blank, where that was seen to be a letter with which
/// ordinary segments begin. Before it may be nothing or a line feed, and if `any_blanks` is set,
/// blanks of any kind and number.
#[inline(always)]
pub(crate) fn ordinary_text(bytes: &[u8], any_blanks: bool) -> Option<&[u8]>
    ensures value { IfSome result (λ text. text.now ≡ trimmed bytes.now) }
    ensures less { IfSome result (λ text. length text.now ≤ length bytes.now) }
    ensures letter { IfSome result (λ text. begins_ordinary text.now ≡ true) }
{
    if any_blanks {
        return ordinary_text_behind(bytes);
    }
    match bytes {
        [b'\n', first, ..] if is_ordinary_letter(*first) => Some(&bytes[1..]),
        [first, ..] if is_ordinary_letter(*first) => Some(bytes),
        _ => None,
    }
}

/// The bytes from the first that is no blank, whatever blanks are before it, where that is a letter
/// with which ordinary segments begin.
#[inline(always)]
fn ordinary_text_behind(bytes: &[u8]) -> Option<&[u8]>
    ensures value { IfSome result (λ text. text.now ≡ trimmed bytes.now) }
    ensures less { IfSome result (λ text. length text.now ≤ length bytes.now) }
    ensures letter { IfSome result (λ text. begins_ordinary text.now ≡ true) }
{
    let text = skip_any_blanks(bytes);
    match text {
        [first, ..] if is_ordinary_letter(*first) => Some(text),
        _ => None,
    }
}

/// The bytes from the first that is no blank, whatever blanks are before it.
#[cold]
#[inline(never)]
fn skip_any_blanks(bytes: &[u8]) -> &[u8]
    ensures value { result.now ≡ trimmed bytes.now }
    ensures less { length result.now ≤ length bytes.now }
{
    // Most of those that come here are at the beginning of a line, behind CR and LF.
    if let [b'\r', b'\n', first, ..] = bytes {
        if *first > b' ' {
            return &bytes[2..];
        }
    }
    for (at, byte) in bytes.iter().enumerate() {
        if !is_blank(*byte) {
            return &bytes[at..];
        }
    }
    &[]
}
