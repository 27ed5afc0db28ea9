//! What is told of a refused message.
use crate::advice::{advice_on_envelope, advice_on_message};
use crate::told::{Quote, Told, more_of, tell_segment};
use edifact_text::{EdiCode, EdiFault, Kind, PlacedSegment, open, placed_segments, segment_at};
use plain_text::{many, path};
use std::alloc::{AllocError, Global};
use stow_messages::{StowCode, StowFault, kilograms};
use view_inputs::{Gathering, Located, MessageText, line_at, raw_shown};

/// How much of a text is quoted from a place at which no segment begins.
const QUOTED: usize = 60;

/// How much of the end of a text is quoted where it ends too early.
const END: usize = 50;

/// The segment that begins at a place of a text, and its number.
fn segment_from<'a>(text: &'a [u8], place: usize) -> Option<(u64, PlacedSegment<'a>)> {
    let mut number = 0u64;
    for segment in placed_segments(text) {
        if segment.place() == place && segment.terminator().is_some() {
            return Some((number, segment));
        }
        number = number.saturating_add(1);
    }
    None
}

/// The bytes of a text from one place to another, as far as there are any.
fn stretch(text: &[u8], from: usize, to: usize) -> &[u8] {
    text.get(from..to.min(text.len())).unwrap_or(&[])
}

/// What is behind the last terminator of a text, or the end of the text.
fn cut_off(text: &[u8]) -> &[u8] {
    let mut rest: &[u8] = &[];
    for segment in placed_segments(text) {
        if segment.terminator().is_none() {
            rest = segment.bytes();
        }
    }
    if rest.is_empty() {
        stretch(text, text.len().saturating_sub(END), text.len())
    } else {
        rest
    }
}

/// What the segment at a fault is quoted by.
fn quote_at<'a>(text: &'a [u8], fault: EdiFault) -> Quote<'a> {
    if fault.code == EdiCode::Truncated {
        return Quote::line(cut_off(text));
    }
    match segment_from(text, fault.place) {
        Some((_, segment)) => Quote::segment(&segment),
        None => Quote::line(stretch(text, fault.place, fault.place.saturating_add(QUOTED))),
    }
}

/// What the message header says that it is: the components of its second element.
fn type_said(alloc: Global, header: &PlacedSegment<'_>) -> Result<String, AllocError> {
    let mut said = String::new(alloc);
    let mut colons = 0usize;
    for at in 0..64usize {
        let component = header.component(2, at);
        if !component.is_empty() {
            for _ in 0..colons {
                said.push(':')?;
            }
            colons = 0;
            let text = raw_shown(alloc, component)?;
            said.push_str(text.as_str())?;
        }
        colons = colons.saturating_add(1);
    }
    Ok(said)
}

/// The references of a header and of its trailer.
fn references(
    alloc: Global,
    text: &[u8],
    fault: EdiFault,
    header: u64,
    words: (&str, &str),
    element: usize,
) -> Result<String, AllocError> {
    let (Some(head), Some((_, tail))) = (segment_at(text, header), segment_from(text, fault.place))
    else {
        return Ok(String::new(alloc));
    };
    let (opening, closing) = words;
    let one = raw_shown(alloc, head.component(element, 0))?;
    let other = raw_shown(alloc, tail.component(2, 0))?;
    Ok(format!(in alloc; "{opening} has {one}, {closing} {other}.")?)
}

/// What the message has at a fault of its envelope.
fn envelope_words(alloc: Global, text: &[u8], fault: EdiFault) -> Result<String, AllocError> {
    match fault.code {
        EdiCode::Trailing => match text.get(fault.place) {
            Some(byte) if !byte.is_ascii_graphic() => {
                let byte = *byte;
                Ok(format!(in alloc; "The byte is {byte:02X} (hexadecimal).")?)
            }
            _ => Ok(String::new(alloc)),
        },
        EdiCode::SegmentCount => match segment_from(text, fault.place) {
            Some((number, segment)) if segment.component(0, 0).is(b"UNT") => {
                let said = raw_shown(alloc, segment.component(1, 0))?;
                let text = format!(in alloc;
                    "UNT says {said} segments; from UNH to UNT there are {number}."
                )?;
                Ok(text)
            }
            _ => Ok(String::new(alloc)),
        },
        EdiCode::MessageRef => references(alloc, text, fault, 1, ("UNH", "UNT"), 1),
        EdiCode::InterchangeRef => references(alloc, text, fault, 0, ("UNB", "UNZ"), 5),
        EdiCode::WrongType => match segment_at(text, 1) {
            Some(header) => {
                let said = type_said(alloc, &header)?;
                Ok(format!(in alloc; "UNH says {said}.")?)
            }
            None => Ok(String::new(alloc)),
        },
        _ => Ok(String::new(alloc)),
    }
}

/// The name of a kind of message.
fn kind_name(kind: Kind) -> &'static str {
    match kind {
        Kind::Baplie => "BAPLIE",
        Kind::Movins => "MOVINS",
    }
}

/// What is told of a fault of a message's envelope.
fn told_of_envelope<'a>(
    alloc: Global,
    message: MessageText<'a>,
    name: &str,
    fault: EdiFault,
) -> Result<Told<'a>, AllocError> {
    let text = message.text;
    let mut told = Told::new(alloc, advice_on_envelope(fault.code))?;
    if let Some((front, behind)) = told.what.as_str().split_once("{kind}") {
        let kind = kind_name(message.kind);
        told.what = format!(in alloc; "{front}{kind}{behind}")?;
    }
    let word = message.word();
    let name = path(alloc, name, 40)?;
    let place = fault.place;
    let length = text.len();
    let line = line_at(text, place);
    told.place = format!(in alloc; "{word} {name}, byte {place} of {length} (line {line}):")?;
    told.quote(quote_at(text, fault));
    told.here = envelope_words(alloc, text, fault)?;
    Ok(told)
}

/// Whether a group has a fault of this cause.
fn is_at_fault(group: &Located<'_>, code: StowCode, mark: u8, handles: bool) -> bool {
    match code {
        StowCode::BadCell => group.cell().is_none(),
        StowCode::IdTooLong => match group.equipment.first {
            Some(equipment) => {
                let mut id = arrayvec::ArrayVec::<u8, 17>::new();
                !equipment.component(2, 0).literal_into(&mut id)
            }
            None => false,
        },
        StowCode::LiftWithoutHandling => handles && group.handling.is_none(),
        _ if group.is_discharge() => false,
        StowCode::NoWeight => group.equipment.first.is_some() && group.measure().is_none(),
        _ => match group.measure() {
            Some(measure) => {
                let is_in_kg = measure.component(3, 0).is(b"KGM");
                if code == StowCode::WrongUnit {
                    !is_in_kg
                } else {
                    is_in_kg && kilograms(measure.component(3, 1), mark).is_none()
                }
            }
            None => false,
        },
    }
}

/// What a message has of a fault: the group of its segment, and how many later ones have the same.
#[derive(Clone, Copy)]
struct Same<'a> {
    group: Option<Located<'a>>,
    locations: u32,
    later: u32,
}

impl<'a> Same<'a> {
    /// Takes one more group.
    fn note(&mut self, group: &Located<'a>, fault: StowFault, mark: u8, handles: bool) {
        self.locations = self.locations.saturating_add(1);
        let first = group.location.number();
        if first <= fault.segment && fault.segment <= group.last {
            self.group = Some(*group);
        } else if first > fault.segment && is_at_fault(group, fault.code, mark, handles) {
            self.later = self.later.saturating_add(1);
        }
    }
}

/// What a message has of a fault.
fn same_in<'a>(message: MessageText<'a>, fault: StowFault) -> Same<'a> {
    let mut same = Same {
        group: None,
        locations: 0,
        later: 0,
    };
    let Ok(opened) = open(message.text, message.kind) else {
        return same;
    };
    let handles = message.kind == Kind::Movins;
    let mark = opened.decimal_mark();
    let mut gathering = Gathering::new(handles);
    for segment in opened.segments() {
        if let Some(group) = gathering.take(&segment) {
            same.note(&group, fault, mark, handles);
        }
    }
    if let Some(group) = gathering.last() {
        same.note(&group, fault, mark, handles);
    }
    same
}

/// How many later handlings are neither for loading nor for discharging.
fn handlings_behind(message: MessageText<'_>, number: u64) -> u32 {
    let mut count = 0u32;
    if let Ok(opened) = open(message.text, message.kind) {
        for segment in opened.segments() {
            let is_handling = segment.tag().is(b"HAN") && segment.number() > number;
            let is_known = segment.has_qualifier(b"LOA") || segment.has_qualifier(b"DIS");
            if is_handling && !is_known {
                count = count.saturating_add(1);
            }
        }
    }
    count
}

/// The group in which a fault was found, in words.
fn group_words(alloc: Global, group: &Located<'_>) -> Result<String, AllocError> {
    let mut cell = raw_shown(alloc, group.location.component(2, 0))?;
    if cell.is_empty() {
        cell = String::from_str(alloc, "(none)")?;
    }
    let mut words = format!(in alloc; "in the group of cell {cell}")?;
    if let Some(equipment) = group.equipment.first {
        let id = raw_shown(alloc, equipment.component(2, 0))?;
        if !id.is_empty() {
            write!(words, ", container {id}")?;
        }
    }
    Ok(words)
}

/// How many more there are of a fault.
fn more_words(
    alloc: Global,
    message: MessageText<'_>,
    fault: StowFault,
    same: Same<'_>,
) -> Result<String, AllocError> {
    match fault.code {
        StowCode::UnknownHandling => more_of(
            alloc,
            handlings_behind(message, fault.segment),
            "later handling",
            "of the same fault",
        ),
        StowCode::TooMany => Ok(String::new(alloc)),
        _ => {
            let locations = many(alloc, same.locations, "location")?;
            let behind = format!(in alloc; "of the same fault, of {locations}")?;
            more_of(alloc, same.later, "later location", behind.as_str())
        }
    }
}

/// What is told of a refused message.
pub fn told_of_message<'a>(
    alloc: Global,
    message: MessageText<'a>,
    name: &str,
    fault: StowFault,
) -> Result<Told<'a>, AllocError> {
    if let StowCode::Envelope(fault) = fault.code {
        return told_of_envelope(alloc, message, name, fault);
    }
    let mut told = Told::new(alloc, advice_on_message(fault.code))?;
    tell_segment(alloc, &mut told, message, name, fault.segment)?;
    let same = same_in(message, fault);
    if let Some(group) = same.group {
        told.behind = group_words(alloc, &group)?;
    }
    told.more = more_words(alloc, message, fault, same)?;
    Ok(told)
}
