//! The records of a table, and the lines on which they stand.
ghost use Rattle.std.specs.Prelude.{◌≡◌, ◌∷◌, [], IfOk, IfSome, IsTrue, option_map, slice_get};
ghost use Rattle.csv.specs.Records.{fields_of};
ghost use Rattle.csv_text.specs.Reading.{records_of};
ghost use Rattle.view_quotes.specs.Records.{IsLineOf};

use csv::ByteRecord;
use csv_text::{next_record, number, open_records, text_at};
use memchr::{memchr, memchr2};
use std::alloc::{AllocError, Global};

/// A line of a text, and its number from 1.
#[derive(Clone, Copy)]
pub struct NumberedLine<'a> {
    pub number: u64,
    pub text: &'a [u8],
}

/// The record of a number, the first being 0, or nothing where there are fewer.
pub fn record_at(alloc: Global, text: &[u8], place: u32) -> Result<Option<ByteRecord>, AllocError>
    ensures { IfOk result
        (λ found. option_map fields_of found ≡ slice_get (records_of text.now) place) }
{
    let mut reader = open_records(alloc, text);
    let mut fields = ByteRecord::new(alloc);
    for _record in 0..place {
        if !next_record(&mut reader, &mut fields)? {
            return Ok(None);
        }
    }
    if next_record(&mut reader, &mut fields)? {
        Ok(Some(fields))
    } else {
        Ok(None)
    }
}

/// Whether two records have the same fields.
#[tactic(auto, using(crate::proofs::RecordLemmas::same_by_fields))]
fn are_same(one: &ByteRecord, other: &ByteRecord) -> bool
    ensures { IsTrue result → fields_of one.now ≡ fields_of other.now }
{
    let count = one.len();
    if other.len() != count {
        return false;
    }
    for place in 0..count {
        if text_at(one, place) != text_at(other, place) {
            return false;
        }
    }
    true
}

/// Whether a line holds a record, and nothing else.
fn holds_only(alloc: Global, line: &[u8], wanted: &ByteRecord) -> Result<bool, AllocError>
    ensures { IfOk result
        (λ holds. IsTrue holds → records_of line.now ≡ fields_of wanted.now ∷ []) }
{
    let mut reader = open_records(alloc, line);
    let mut fields = ByteRecord::new(alloc);
    if !next_record(&mut reader, &mut fields)? {
        return Ok(false);
    }
    if !are_same(&fields, wanted) {
        return Ok(false);
    }
    let mut more = ByteRecord::new(alloc);
    if next_record(&mut reader, &mut more)? {
        return Ok(false);
    }
    Ok(true)
}

/// The text up to the end of its first line, and what is behind that end, if there is one.
fn split_line(text: &[u8]) -> (&[u8], Option<&[u8]>) {
    let Some(at) = memchr2(b'\n', b'\r', text) else {
        return (text, None);
    };
    let (line, end) = text.split_at(at);
    match end {
        [b'\r', b'\n', behind @ ..] | [_, behind @ ..] => (line, Some(behind)),
        [] => (line, None),
    }
}

/// The lines of a table in which no field is in quotes: those that hold a byte are its records.
#[derive(Clone, Copy)]
pub struct PlainLines<'a> {
    rest: Option<&'a [u8]>,
}

impl<'a> PlainLines<'a> {
    /// The lines of a text; nothing where it may have quotes, or begins with a mark of its
    /// encoding.
    pub fn of(text: &'a [u8]) -> Option<PlainLines<'a>> {
        if memchr(b'"', text).is_some() || text.first() == Some(&0xef) {
            return None;
        }
        Some(PlainLines { rest: Some(text) })
    }

    /// The next line.
    pub fn next_line(&mut self) -> Option<&'a [u8]> {
        let (line, behind) = split_line(self.rest?);
        self.rest = behind;
        Some(line)
    }
}

/// The first field of what is left of a line without quotes, and what is behind its comma: nothing
/// where it is the last.
pub fn split_field(line: &[u8]) -> (&[u8], &[u8]) {
    for (at, byte) in line.iter().enumerate() {
        if *byte == b',' {
            return (&line[..at], &line[at + 1..]);
        }
    }
    (line, &[])
}

/// The line that holds a byte, of a number among those, the first being 0.
fn line_with_bytes(text: &[u8], place: u32) -> Option<NumberedLine<'_>> {
    let mut rest = match text {
        [0xef, 0xbb, 0xbf, behind @ ..] => behind,
        _ => text,
    };
    let mut number = 1u64;
    let mut left = place;
    for _ in 0..text.len() {
        let (line, behind) = split_line(rest);
        if !line.is_empty() {
            if left == 0 {
                return Some(NumberedLine { number, text: line });
            }
            left -= 1;
        }
        rest = behind?;
        number = number.saturating_add(1);
    }
    None
}

/// The line on which the record of a number stands, the heading being 1; nothing where it doesn't
/// stand on one line by itself, as a field in quotes may run over several.
pub fn line_of_record(
    alloc: Global,
    text: &[u8],
    number: u32,
) -> Result<Option<NumberedLine<'_>>, AllocError>
    ensures { IfOk result (λ found. IfSome found (λ line.
        IsLineOf text.now number line.text.now)) }
{
    let Some(place) = number.checked_sub(1) else {
        return Ok(None);
    };
    let Some(line) = line_with_bytes(text, place) else {
        return Ok(None);
    };
    let Some(fields) = record_at(alloc, text, place)? else {
        return Ok(None);
    };
    if holds_only(alloc, line.text, &fields)? {
        Ok(Some(line))
    } else {
        Ok(None)
    }
}

/// A field of a record, the first being 0; empty where there is none.
pub fn field(fields: &ByteRecord, place: usize) -> &[u8] {
    match fields.get(place) {
        Some(text) => text,
        None => &[],
    }
}

/// The number that a field of a record writes; 0 where it writes none.
pub fn number_at(fields: &ByteRecord, place: usize) -> i64 {
    number(field(fields, place)).unwrap_or(0)
}
