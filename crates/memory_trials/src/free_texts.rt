//! Calls that read a message, copy what is read, and write into a sink, and ask for no memory.
use crate::sessions::filling;
use crate::watch::{refuse, was_refused};
use arrayvec::ArrayVec;
use edifact_text::{Kind, Message, Segment, open, placed_segments, segment_at};
use lift_sequence::Op;
use seq_report::{Sink, Through};
use std::alloc::{AllocError, Global};
use step_edits::copy_into;
use stow_messages::{Item, Lift, StepRow, copy_text};
use units_core::{Cell, Kg};

/// A container of 20,500 kg comes aboard to starboard. Its number has more behind it, without which
/// it isn't seen at once.
const ONE_LOAD: &[u8] =
    b"UNB+UNOA:2+PLAN+SHIP+250101:1200+8'UNH+1+MOVINS:D:95B:UN'HAN+LOA'LOC+147+0030782::5'MEA+WT++KGM:20500'EQD+CN+ABCU1234560+22G1'UNT+6+1'UNZ+1+8'";

/// The literals of a message, and its decimal mark.
fn literals(message: &Message<'_>) -> bool {
    let mut literal: ArrayVec<u8, 35> = ArrayVec::new();
    let mut count = 0u32;
    for segment in message.segments() {
        if segment.component(2, 0).literal_into(&mut literal) {
            count = count.saturating_add(1);
        }
    }
    count == 4 && message.decimal_mark() == b'.'
}

/// The parts of the place of the container, LOC+147+0030782::5.
fn place_parts(segment: &Segment<'_>) -> bool {
    let tag = segment.tag();
    let (cell, none) = segment.first_two(2);
    let plain = matches!(segment.plain_tag(), Some(tag) if tag.is(b'L', b'O', b'C'));
    let named = tag.is(b"LOC") && !tag.is_empty() && tag.same(tag);
    let written = tag.without_release() == Some(b"LOC".as_slice());
    let place = segment.seven_digits(2) == Some(b"0030782".as_slice());
    plain
        && named
        && written
        && place
        && segment.has_qualifier(b"147")
        && cell.is(b"0030782")
        && none.is_empty()
}

/// The segments of the container behind its handling, whose numbers are 3, 4 and 5.
fn parts(message: &Message<'_>) -> bool {
    let mut right = 0u32;
    for segment in message.segments() {
        let is_right = match segment.number() {
            3 => place_parts(&segment),
            4 => segment.measure(3, b'K', b'G', b'M') == Some(20_500),
            5 => segment.eleven_bytes(2) == Some(b"ABCU1234560".as_slice()),
            _ => false,
        };
        if is_right {
            right = right.saturating_add(1);
        }
    }
    right == 3
}

/// All segments of the text at their places.
fn places() -> bool {
    let mut ended = 0u32;
    for segment in placed_segments(ONE_LOAD) {
        if segment.terminator() == Some(b'\'') {
            ended = ended.saturating_add(1);
        }
    }
    let Some(first) = segment_at(ONE_LOAD, 0) else {
        return false;
    };
    let head = first.place() == 0 && first.component(0, 0).is(b"UNB");
    ended == 8 && head && first.bytes().starts_with(b"UNB+UNOA:2+")
}

/// A container to starboard.
fn item() -> Option<Item> {
    Some(Item {
        cell: Cell::read(b"0030782")?,
        id: ArrayVec::new(),
        kg: Kg::new(20_500)?,
    })
}

/// An item, its lift, a row and a name, each of which is equal to its copy.
fn copies() -> bool {
    let Some(item) = item() else {
        return false;
    };
    let copied = item.copy() == item;
    let lift = Lift::Load(item);
    let row = StepRow::Lift(2);
    let mut name: ArrayVec<u8, 16> = ArrayVec::new();
    let named = name.try_extend_from_slice(b"DB1".as_slice()).is_ok();
    copied && lift.copy() == lift && row.copy() == row && named && copy_text(&name) == name
}

/// A list that is copied into another that has room for it.
fn copied_into(mut room: Vec<Op>, list: &[Op]) -> bool {
    room.clear();
    let most = list.len().min(room.capacity());
    copy_into(&mut room, &list[..most]);
    room.as_slice() == list
}

/// A sink over an array.
fn sinks() -> bool {
    let mut room = [0u8; 8];
    let mut sink = Through::new(room.as_mut_slice());
    let put = sink.put(b"STEP");
    let failed = sink.failed();
    put == Ok(4) && !failed && sink.into_inner().len() == 4
}

/// Whether none of them asks for memory.
pub fn texts_are_free(alloc: Global) -> Result<bool, AllocError> {
    let mut list = Vec::new(alloc);
    list.push(filling(500_000))?;
    let room = Vec::with_capacity(alloc, 1)?;
    refuse(alloc, 0, 1);
    let mut right = match open(ONE_LOAD, Kind::Movins) {
        Ok(message) => literals(&message) && parts(&message),
        Err(_) => false,
    };
    right &= places() && copies() && copied_into(room, &list) && sinks();
    let free = !was_refused(alloc);
    Ok(free && right)
}
