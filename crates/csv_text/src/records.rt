ghost use Rattle.std.specs.Prelude.{◌≡◌, ◌<◌, List, length, IfOk, Some};
ghost use Rattle.csv.specs.Records.{fields_of, field_at};
ghost use Rattle.csv_text.specs.Reading.{Fields, HasLeft, Gave, records_of};

use csv::{ByteRecord, Error, Reader, ReaderBuilder};
use std::alloc::{AllocError, Global};

/// A reader that has every record of the text yet to give.
fn plain_reader(alloc: Global, text: &[u8]) -> Reader<&[u8]>
    ensures { HasLeft result (records_of text.now) }
{
    ReaderBuilder::new()
        .has_headers(false)
        .flexible(true)
        .from_reader(alloc, text)
}

/// The same of a reader that was given a heading without a field. Any other keeps two copies of the
/// first record that it reads, which of one with millions of fields would take gigabytes.
fn reader_with_heading(alloc: Global, text: &[u8]) -> Result<Reader<&[u8]>, Error>
    ensures { IfOk result (λ reader. HasLeft reader (records_of text.now)) }
{
    let mut reader = ReaderBuilder::new().flexible(true).from_reader(alloc, text);
    reader.set_byte_headers(ByteRecord::new(alloc))?;
    Ok(reader)
}

/// A reader that has every record of the text yet to give, the heading among them.
pub fn open_records(alloc: Global, text: &[u8]) -> Reader<&[u8]>
    ensures { HasLeft result (records_of text.now) }
{
    match reader_with_heading(alloc, text) {
        Ok(reader) => reader,
        Err(_) => plain_reader(alloc, text),
    }
}

/// Reads the next record into `fields`, in place of what stood there; false at the end of the text.
/// The only error is out of memory: a reader over bytes has no other cause. After an error the
/// reader is of no more use.
pub fn next_record(reader: &mut Reader<&[u8]>, fields: &mut ByteRecord) -> Result<bool, AllocError>
    ensures { IfOk result (λ found. (rest : List Fields) → HasLeft reader.old rest
        → Gave found (fields_of fields.new) rest reader.new) }
{
    match reader.read_byte_record(fields) {
        Ok(found) => Ok(found),
        Err(_) => Err(AllocError),
    }
}

/// The text of a field of the record, the first being at place 0.
pub fn text_at(fields: &ByteRecord, place: usize) -> &[u8]
    requires { place < length (fields_of fields.now) }
    ensures { field_at (fields_of fields.now) place ≡ Some result.now }
{
    fields.get(place).unwrap()
}
