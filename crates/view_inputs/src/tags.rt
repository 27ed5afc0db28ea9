//! What is odd of the segments of a message by themselves: tags that aren't such, and lines that
//! end inside of segments.
use crate::messages::{MessageText, literal, raw_line};
use crate::notices::Notices;
use crate::occurs::Occurs;
use edifact_text::{PlacedSegment, Raw, Segment, placed_segments};
use memchr::memchr3;
use plain_text::{front, many};
use std::alloc::{AllocError, Global};

/// Whether a tag is three capital letters or digits.
fn is_sound_tag(raw: Raw<'_>) -> bool {
    match raw.without_release() {
        Some(tag) => is_sound(tag),
        None => is_sound(literal(raw).as_slice()),
    }
}

/// Whether a text is three capital letters or digits.
fn is_sound(tag: &[u8]) -> bool {
    match tag {
        [first, second, third] => is_upper(*first) && is_upper(*second) && is_upper(*third),
        _ => false,
    }
}

/// Whether a byte is a capital letter or a digit.
fn is_upper(byte: u8) -> bool {
    byte.is_ascii_uppercase() || byte.is_ascii_digit()
}

/// Whether the tag of a segment is sound. Those that stand in most messages are compared first.
pub fn has_sound_tag(segment: &Segment<'_>) -> bool {
    if let Some(tag) = segment.plain_tag() {
        if tag.is(b'L', b'O', b'C') || tag.is(b'R', b'F', b'F') || tag.is(b'N', b'A', b'D') {
            return true;
        }
    }
    is_sound_tag(segment.tag())
}

/// The text behind the blanks with which it begins.
fn without_blanks(text: &[u8]) -> &[u8] {
    for (at, byte) in text.iter().enumerate() {
        if !matches!(*byte, b'\r' | b'\n' | b'\t' | b' ') {
            return &text[at..];
        }
    }
    &[]
}

/// The text of a message behind its service string advice, and the blanks before its segments.
fn without_advice(text: &[u8]) -> &[u8] {
    let text = without_blanks(text);
    match text {
        [b'U', b'N', b'A', _, _, _, _, _, _, segments @ ..] => without_blanks(segments),
        _ => text,
    }
}

/// The terminator of the segments of a text.
fn terminator_in(text: &[u8]) -> Option<u8> {
    let mut segments = placed_segments(text);
    segments.next()?.terminator()
}

/// Whether a text ends in a terminator behind a letter or a digit, which can't release it.
fn is_ended(text: &[u8], terminator: u8) -> bool {
    match text {
        [.., before, last] => *last == terminator && before.is_ascii_alphanumeric(),
        _ => false,
    }
}

/// Whether a line may end in some segment of a message, or a tab stand in it. Where it says no, all
/// of these stand behind terminators, as those of nearly every message do.
pub fn may_be_wrapped(text: &[u8]) -> bool {
    let Some(terminator) = terminator_in(text) else {
        return true;
    };
    let mut rest = without_advice(text);
    for _ in 0..text.len() {
        let Some(at) = memchr3(b'\r', b'\n', b'\t', rest) else {
            return false;
        };
        let (line, behind) = rest.split_at(at);
        if !is_ended(line, terminator) {
            return true;
        }
        rest = without_blanks(behind);
    }
    true
}

/// Whether a line ends in a segment, or a tab stands in it.
fn is_wrapped(segment: &PlacedSegment<'_>) -> bool {
    memchr3(b'\r', b'\n', b'\t', segment.bytes()).is_some()
}

/// Adds what is odd of segments by themselves: N1 and N2.
pub fn add_segments(
    alloc: Global,
    notices: &mut Notices,
    message: MessageText<'_>,
) -> Result<(), AllocError> {
    let mut tags = Occurs::<(u64, Raw<'_>)>::never();
    let mut wrapped = Occurs::<u64>::never();
    let mut number = 0u64;
    for segment in placed_segments(message.text) {
        if segment.terminator().is_some() {
            let tag = segment.component(0, 0);
            if !is_sound_tag(tag) {
                tags.note((number, tag));
            }
            if is_wrapped(&segment) {
                wrapped.note(number);
            }
        }
        number = number.saturating_add(1);
    }
    if let Some((first, tag)) = tags.first {
        let count = many(alloc, tags.count, "segment")?;
        let tag = raw_line(alloc, tag)?;
        let tag = front(alloc, tag.as_str(), 8)?;
        let text = format!(in alloc;
            "{count} with a tag as \"{tag}\": not read; first seg. {first}"
        )?;
        notices.add("N1", message.word(), text)?;
    }
    if let Some(first) = wrapped.first {
        let count = many(alloc, wrapped.count, "segment")?;
        let text = format!(in alloc;
            "line ends inside {count}, read as a part; first seg. {first}"
        )?;
        notices.add("N2", message.word(), text)?;
    }
    Ok(())
}
