//! What is told of a refusal: what is the matter, where, what the ship or the message has there,
//! how many more there are, and what to do.
use edifact_text::{PlacedSegment, segment_at};
use plain_text::{add_paragraph, add_quoted, path};
use std::alloc::{AllocError, Global};
use view_inputs::{MessageText, line_at};
use view_quotes::line_of_record;

/// What is the matter, and what to do.
#[derive(Clone, Copy, Debug)]
pub struct Advice {
    pub what: &'static str,
    pub remedy: &'static str,
}

/// A line of an input, as it is quoted: its bytes and, of a segment, its terminator.
#[derive(Clone, Copy)]
pub struct Quote<'a> {
    pub bytes: &'a [u8],
    pub end: Option<u8>,
}

impl<'a> Quote<'a> {
    /// A line that has no terminator.
    pub fn line(bytes: &'a [u8]) -> Quote<'a> {
        Quote { bytes, end: None }
    }

    /// A segment.
    pub fn segment(segment: &PlacedSegment<'a>) -> Quote<'a> {
        Quote {
            bytes: segment.bytes(),
            end: segment.terminator(),
        }
    }
}

/// The paragraphs on a refusal; what is empty isn't printed.
#[derive(Drop)]
pub struct Told<'a> {
    pub what: String,
    /// The file, and the record or segment in it.
    pub place: String,
    /// Its text; of a record that doesn't rise that of the one before it, and then its own.
    pub quoted: Option<Quote<'a>>,
    pub behind_it: Option<Quote<'a>>,
    /// What else is said of the place.
    pub behind: String,
    pub here: String,
    pub more: String,
    pub remedy: String,
}

impl<'a> Told<'a> {
    /// What a code means, and nothing yet of where it was found.
    pub fn new(alloc: Global, advice: Advice) -> Result<Told<'a>, AllocError> {
        let what = String::from_str(alloc, advice.what)?;
        let remedy = String::from_str(alloc, advice.remedy)?;
        Ok(Told {
            what,
            place: String::new(alloc),
            quoted: None,
            behind_it: None,
            behind: String::new(alloc),
            here: String::new(alloc),
            more: String::new(alloc),
            remedy,
        })
    }

    /// Says something else of what is the matter and what to do.
    pub fn advise(&mut self, alloc: Global, advice: Advice) -> Result<(), AllocError> {
        self.what = String::from_str(alloc, advice.what)?;
        self.remedy = String::from_str(alloc, advice.remedy)?;
        Ok(())
    }

    /// Quotes a line of an input.
    pub fn quote(&mut self, quote: Quote<'a>) {
        self.quoted = Some(quote);
    }

    /// Adds what stands before the notices: all but what to do.
    pub fn add_front(&self, alloc: Global, text: &mut String) -> Result<(), AllocError> {
        add_paragraph(alloc, text, "WHAT", self.what.as_str())?;
        add_paragraph(alloc, text, "WHERE", self.place.as_str())?;
        if let Some(quote) = self.quoted {
            add_quoted(alloc, text, quote.bytes, quote.end)?;
        }
        if let Some(quote) = self.behind_it {
            add_quoted(alloc, text, quote.bytes, quote.end)?;
        }
        add_paragraph(alloc, text, "", self.behind.as_str())?;
        add_paragraph(alloc, text, "HERE", self.here.as_str())?;
        add_paragraph(alloc, text, "MORE", self.more.as_str())
    }

    /// Adds what to do.
    pub fn add_remedy(&self, alloc: Global, text: &mut String) -> Result<(), AllocError> {
        add_paragraph(alloc, text, "DO", self.remedy.as_str())
    }
}

/// How many more there are of a fault, of how many of something; that it is the only one where
/// there is none.
pub fn more_of(alloc: Global, count: u32, later: &str, behind: &str) -> Result<String, AllocError> {
    if count == 0 {
        return String::from_str(alloc, "It is the only one.");
    }
    let plural = if count == 1 { "" } else { "s" };
    let text = format!(in alloc; "{count} {later}{plural} {behind}.")?;
    Ok(text)
}

/// Tells at which record of a table something was found: the number of its line, and its text.
pub fn tell_record_of<'a>(
    alloc: Global,
    told: &mut Told<'a>,
    table: &str,
    text: &'a [u8],
    record: u32,
) -> Result<(), AllocError> {
    match line_of_record(alloc, text, record)? {
        Some(line) => {
            let number = line.number;
            told.place = format!(in alloc; "{table}, record {record} (line {number}):")?;
            told.quote(Quote::line(line.text));
        }
        None => told.place = format!(in alloc; "{table}, record {record}")?,
    }
    Ok(())
}

/// Tells at which segment of a message something was found: its number, its line and byte, and its
/// text.
pub fn tell_segment<'a>(
    alloc: Global,
    told: &mut Told<'a>,
    message: MessageText<'a>,
    name: &str,
    number: u64,
) -> Result<(), AllocError> {
    let Some(segment) = segment_at(message.text, number) else {
        return Ok(());
    };
    let word = message.word();
    let name = path(alloc, name, 44)?;
    let place = segment.place();
    let line = line_at(message.text, place);
    told.place = format!(in alloc; "{word} {name}, segment {number} (line {line}, byte {place}):")?;
    told.quote(Quote::segment(&segment));
    Ok(())
}
