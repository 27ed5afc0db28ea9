use crate::checks::{holds, same};
use edifact_text::{Kind, open, placed_segments, segment_at};
use std::test::Fail;
use stow_messages::{SegmentKind, kilograms, kind_of};

/// A bay plan of seven segments, blanks before some of them, cut off in its trailer. The first
/// bytes of the segments are at 0, 9, 41, 56 and 72, of what has no terminator at 78.
const CUT_OFF: &[u8] =
    b"UNB+A+++'UNH+1+BAPLIE:D:95B:UN:SMDG20'\r\n LOC+147+030082'EQD+CN+A?'BC+22'UNT+4'UNZ+";

/// Each segment at its place, that of number 0 being the interchange header, and what is cut off
/// behind them.
#[test]
fn segments_at_their_places(rt: HostRuntime) {
    let mut places = 0usize;
    let mut ended = 0usize;
    for segment in placed_segments(CUT_OFF) {
        places = places.wrapping_mul(100).wrapping_add(segment.place());
        if segment.terminator() == Some(b'\'') {
            ended = ended.wrapping_add(1);
        }
    }
    same(&rt, places, 941_567_278);
    same(&rt, ended, 5);
    let Some(segment) = segment_at(CUT_OFF, 3) else {
        holds(&rt, false);
        return;
    };
    same(&rt, segment.place(), 56);
    same(&rt, segment.bytes(), b"EQD+CN+A?'BC+22".as_slice());
    holds(&rt, segment.component(2, 0).is(b"A'BC"));
    holds(&rt, segment_at(CUT_OFF, 5).is_some());
    holds(&rt, segment_at(CUT_OFF, 6).is_none());
    holds(&rt, placed_segments(b"UNA::.? '").next().is_none());
}

/// What each segment of a message is, and the mass that a measurement gives.
#[test]
fn kinds_of_segments(rt: HostRuntime) -> Result<(), Fail> {
    let text =
        b"UNB+++++7'UNH+1+MOVINS:D:95B:UN'HAN+LOA'LOC+147+1'EQD'MEA+VGM++KGM:20499,2'MEA+WT'LOC+11'UNT+8+1'UNZ+1+7'";
    let Ok(message) = open(text, Kind::Movins) else {
        holds(&rt, false);
        return Ok(());
    };
    let expected = [
        SegmentKind::Handling,
        SegmentKind::Location,
        SegmentKind::Equipment,
        SegmentKind::Verified,
        SegmentKind::Gross,
        SegmentKind::Other,
    ];
    for (segment, kind) in message.segments().zip(&expected) {
        same(&rt, kind_of(&segment), *kind);
        if *kind == SegmentKind::Verified {
            let mass = kilograms(segment.component(3, 1), message.decimal_mark());
            same(&rt, mass.map(|kg| kg.get()), Some(20_500));
        }
    }
    Ok(())
}
