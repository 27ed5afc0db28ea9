//! The envelope round a message: headers before it, trailers behind it, and nothing behind those.
ghost use Rattle.std.specs.Prelude.{◌≡◌, ◌≤◌, ◌<◌, ◌+◌, ◌^◌, length, IfOk, IfErr, take};
ghost use Rattle.std.specs.Prelude.{MatchResult};
ghost use Rattle.edifact_text.specs.Faults.{IsMessage, IsFault};
ghost use Rattle.edifact_text.specs.Reading.{opened};
ghost use Rattle.edifact_text.specs.Stages.{Gives, ended_ones, headers_of, trailer_of, ends_of};
ghost use Rattle.edifact_text.specs.Stages.{end_rows, message_of, staged};
ghost use Rattle.edifact_text.specs.Views.{ahead, stretch_of, message_view};

use crate::advice::start_of;
use crate::cursor::Cursor;
use crate::faults::{EdiCode, EdiFault, Kind};
use crate::message::Message;
use crate::pieces::{is_blank, is_ordinary_letter, skip_blanks};
use crate::segment_text::SegmentText;

/// The interchange's header, the message's, and what is behind them.
#[derive(Clone, Copy)]
struct Headers<'a> {
    unb: SegmentText<'a>,
    unh: SegmentText<'a>,
    behind: Cursor<'a>,
}

/// Both headers.
#[tactic(auto, unfolding(crate::specs::Stages::headers_of))]
fn read_headers<'a>(kind: Kind, cursor: Cursor<'a>) -> Result<Headers<'a>, EdiFault>
    ensures value { Gives
        (λ h. record {
          unb = stretch_of h.unb;
          unh = stretch_of h.unh;
          behind = ahead h.behind;
        }) result
        (headers_of kind cursor.entry.service cursor.entry.len (ahead cursor.entry)) }
    ensures same { IfOk result
        (λ h. (h.unb.service ≡ cursor.entry.service) × (h.unh.service ≡ cursor.entry.service)
        × (h.behind.service ≡ cursor.entry.service) × (h.behind.len ≡ cursor.entry.len)) }
{
    let (unb, behind) = cursor.next()?;
    unb.unb_rows()?;
    let (unh, behind) = behind.next()?;
    unh.unh_rows(kind)?;
    Ok(Headers { unb, unh, behind })
}

/// Nothing but blanks is left.
fn end_rows(cursor: Cursor<'_>) -> Result<(), EdiFault>
    ensures { result ≡ end_rows (ahead cursor.entry) }
{
    let (text, behind) = cursor.take();
    text.fault(
        behind.is_some() || !text.bytes.is_empty(),
        EdiCode::Trailing,
    )
}

/// The interchange trailer, and the end of the text.
#[tactic(auto, unfolding(crate::specs::Stages::ends_of))]
fn ends(unb: SegmentText<'_>, cursor: Cursor<'_>) -> Result<(), EdiFault>
    requires { unb.service ≡ cursor.service }
    ensures { result
        ≡ ends_of cursor.entry.service cursor.entry.len (stretch_of unb.entry)
        (ahead cursor.entry) }
{
    let (unz, behind) = cursor.next()?;
    unz.unz_rows(unb)?;
    end_rows(behind)
}

/// The message trailer, its number in the message, and what is behind it.
#[derive(Clone, Copy)]
struct Ended<'a> {
    trailer: SegmentText<'a>,
    number: u64,
    behind: Cursor<'a>,
}

/// What is left behind some segments of a message, and the number of the next of them.
#[derive(Clone, Copy)]
struct Place<'a> {
    left: Cursor<'a>,
    number: u64,
}

/// The place behind the ordinary segments that are next, where each has its terminator near, and
/// before it nothing or a line feed, or any blanks. It is a loop of its own, so that nothing but
/// what it needs is at hand in it.
#[inline(never)]
fn behind_ordinary<const ANY_BLANKS: bool>(from: Place<'_>) -> Place<'_>
    requires { from.number + length from.left.rest.now < 2 ^ 64 }
    ensures value { trailer_of from.entry.left.service from.entry.left.len result.number
        (ahead result.left)
        ≡ trailer_of from.entry.left.service from.entry.left.len from.entry.number
        (ahead from.entry.left) }
    ensures same { (result.left.service ≡ from.entry.left.service)
        × (result.left.len ≡ from.entry.left.len) }
    ensures less { length result.left.rest.now ≤ length from.entry.left.rest.now }
    ensures fits { result.number + length result.left.rest.now
        ≤ from.entry.number + length from.entry.left.rest.now }
    ensures least { from.entry.number ≤ result.number }
{
    let mut left = from.left;
    let mut number = from.number;
    while let Some((_, behind)) = left.near_ordinary(ANY_BLANKS) {
        left = behind;
        number += 1;
    }
    Place { left, number }
}

/// Whether a byte behind a blank may be before an ordinary segment, or begin one.
#[inline(always)]
fn may_follow(byte: u8) -> bool {
    is_blank(byte) || is_ordinary_letter(byte)
}

/// The place behind the ordinary segments that are next: behind those on lines that end with LF, or
/// with nothing, or, where the next one is behind other blanks, behind those that are behind any.
/// The loops are entered only where the next segment may be ordinary by how it begins.
#[inline(always)]
fn behind_lines(from: Place<'_>) -> Place<'_>
    requires { from.number + length from.left.rest.now < 2 ^ 64 }
    ensures value { trailer_of from.entry.left.service from.entry.left.len result.number
        (ahead result.left)
        ≡ trailer_of from.entry.left.service from.entry.left.len from.entry.number
        (ahead from.entry.left) }
    ensures same { (result.left.service ≡ from.entry.left.service)
        × (result.left.len ≡ from.entry.left.len) }
    ensures less { length result.left.rest.now ≤ length from.entry.left.rest.now }
    ensures fits { result.number + length result.left.rest.now
        ≤ from.entry.number + length from.entry.left.rest.now }
    ensures least { from.entry.number ≤ result.number }
{
    match from.left.rest {
        [b'\n', second, ..] if is_ordinary_letter(*second) => behind_ordinary::<false>(from),
        [first, second, ..] if is_blank(*first) && may_follow(*second) => {
            behind_ordinary::<true>(from)
        }
        [first, ..] if is_ordinary_letter(*first) => behind_ordinary::<false>(from),
        _ => from,
    }
}

/// The segments up to the message trailer, each checked.
fn trailer<'a>(cursor: Cursor<'a>) -> Result<Ended<'a>, EdiFault>
    ensures value { Gives (λ e.
        record {
          trailer = stretch_of e.trailer;
          number = e.number;
          behind = ahead e.behind;
        }) result
        (trailer_of cursor.entry.service cursor.entry.len 2 (ahead cursor.entry)) }
    ensures same { IfOk result
        (λ e. (e.trailer.service ≡ cursor.entry.service) × (e.behind.service ≡ cursor.entry.service)
        × (e.behind.len ≡ cursor.entry.len) × (2 ≤ e.number)) }
    ensures fits { IfOk result (λ e. e.number ≤ 2 + length cursor.entry.rest.now) }
{
    let mut left = cursor;
    let mut number: u64 = 2;
    'segments: loop {
        let place = behind_lines(Place { left, number });
        let (text, behind) = place.left.next()?;
        let trailers = text.trailers();
        if trailers.message {
            return Ok(Ended {
                trailer: text,
                number: place.number,
                behind,
            });
        }
        text.fault(trailers.interchange, EdiCode::SegmentCount)?;
        left = behind;
        number = place.number + 1;
    }
}

/// The message behind the service string advice.
#[tactic(auto, unfolding(crate::specs::Stages::message_of))]
fn read_message<'a>(kind: Kind, cursor: Cursor<'a>) -> Result<Message<'a>, EdiFault>
    ensures value { Gives (λ m. take m.count (ended_ones (ahead m.behind))) result
        (message_of kind cursor.entry.service cursor.entry.len (ahead cursor.entry)) }
    ensures same { IfOk result (λ m. m.behind.service ≡ cursor.entry.service) }
{
    let headers = read_headers(kind, cursor)?;
    let ended = trailer(headers.behind)?;
    ended.trailer.unt_rows(headers.unh, ended.number)?;
    ends(headers.unb, ended.behind)?;
    Ok(Message {
        behind: headers.behind,
        count: ended.number - 2,
    })
}

/// The whole text, stage by stage.
#[tactic(auto, unfolding(crate::specs::Stages::staged, crate::specs::Views::message_view))]
fn read_text(bytes: &[u8], kind: Kind) -> Result<Message<'_>, EdiFault>
    ensures { Gives message_view result (staged kind bytes.now) }
{
    let text = skip_blanks(bytes);
    let (service, rest) = start_of(bytes.len(), bytes.len() - text.len(), text)?;
    read_message(
        kind,
        Cursor {
            len: bytes.len(),
            rest,
            service,
        },
    )
}

/// The message of this kind that the text is, or its first fault and the fault's place, in bytes
/// from the beginning.
///
/// The text is one interchange by ISO 9735: a service string advice or none, UNB, UNH, the message,
/// UNT, UNZ, and nothing but blanks behind it. Segments are looked at in their order, each once its
/// terminator is found; which fault each answers, and which goes before which, is the table of
/// `specs/Rows.antt`.
pub fn open(bytes: &[u8], kind: Kind) -> Result<Message<'_>, EdiFault>
    // What is answered, as a function of the text.
    ensures exact { MatchResult result (λ m. opened kind bytes.now ≡ Ok (message_view m))
        (λ e. opened kind bytes.now ≡ Err e) }
    // What that means: how a message is spelt, and which rows don't apply to it.
    ensures message { IfOk result
        (λ m. IsMessage kind bytes.now (message_view m).mark (message_view m).segments) }
    ensures fault { IfErr result (λ e. IsFault kind bytes.now e) }
{
    read_text(bytes, kind)
}
