use crate::checks::{holds, holds_row, same, same_row};
use arrayvec::ArrayVec;
use edifact_text::{EdiCode, EdiFault, Kind, one_reading, open};
use std::test::Fail;

/// An interchange with an empty bay plan.
const EMPTY_PLAN: &[u8; 73] =
    b"UNB+UNOA:2+SHIP+PLAN+250101:1200+7'UNH+1+BAPLIE:D:95B:UN'UNT+2+1'UNZ+1+7'";

/// A bay plan with one container, each segment on a line.
const ONE_CONTAINER: &[u8; 165] =
    b"UNB+UNOA:2+SHIP+PLAN+250101:1200+7'\r\nUNH+1+BAPLIE:D:95B:UN:AB12'\r\nLOC+147+030082::5'\r\nMEA+WT++KGM:20000'\r\nMEA+VGM++KGM:20499.2'\r\nEQD+CN+AB?+CD'\r\nUNT+6+1'\r\nUNZ+1+7'\r\n";

/// A stowage instruction that loads one container.
const LOAD_ONE: &[u8; 137] =
    b"UNB+UNOA:2+PLAN+SHIP+250101:1200+8'UNH+1+MOVINS:D:95B:UN'HAN+LOA'LOC+147+0030782::5'MEA+WT++KGM:20500'EQD+CN+ABCU1234560'UNT+6+1'UNZ+1+8'";

/// Texts that are no bay plan, each with its fault and the fault's place.
static FAULTS: [(&str, &[u8], EdiCode, usize); 53] = [
    ("cut in the advice", b" UNA:+.? ", EdiCode::Truncated, 9),
    (
        "cut in the advice, with a letter",
        b"UNAA+.? ",
        EdiCode::Truncated,
        8,
    ),
    (
        "cut in a segment",
        b"UNB+UNOA:2+SHIP+PLAN+250101:1200+7'UNH+1+BAPLIE:D:95B:UN'UNT+2+1'UNZ+1",
        EdiCode::Truncated,
        70,
    ),
    ("a released terminator", b"UNB?'", EdiCode::Truncated, 5),
    ("release at the very end", b"UNB+A?", EdiCode::Truncated, 6),
    ("two separators alike", b" UNA:+.+ '", EdiCode::BadUna, 1),
    ("a letter separates", b"UNAA+.? '", EdiCode::BadUna, 0),
    ("a space ends segments", b"UNA:+.?  ", EdiCode::BadUna, 0),
    (
        "bad advice, nothing behind",
        b"UNA::.? '",
        EdiCode::BadUna,
        0,
    ),
    (
        "no release, and equal separators",
        b"UNA:+.  :",
        EdiCode::BadUna,
        0,
    ),
    ("another tag", b"\r\nUNX+1'", EdiCode::NoUnb, 2),
    (
        "a vertical tab is no blank",
        b"\x0bUNB+1'",
        EdiCode::NoUnb,
        0,
    ),
    (
        "released blank belongs to the tag",
        b"? UNB+1'",
        EdiCode::NoUnb,
        0,
    ),
    (
        "released byte of the advice",
        b"UN?A:+.? 'X'",
        EdiCode::NoUnb,
        0,
    ),
    ("byte order mark", b"\xffUNB'", EdiCode::NoUnb, 0),
    (
        "a group",
        b"UNB+UNOA:2+SHIP+PLAN+250101:1200+7'UNG+1'",
        EdiCode::Groups,
        35,
    ),
    (
        "a group's header behind the message",
        b"UNB+UNOA:2+SHIP+PLAN+250101:1200+7'UNH+1+BAPLIE:D:95B:UN'UNT+2+1'UNG+1'",
        EdiCode::Groups,
        65,
    ),
    (
        "a group behind the message",
        b"UNB+UNOA:2+SHIP+PLAN+250101:1200+7'UNH+1+BAPLIE:D:95B:UN'UNT+2+1'UNE+1'",
        EdiCode::Groups,
        65,
    ),
    (
        "no header",
        b"UNB+UNOA:2+SHIP+PLAN+250101:1200+7'UNE+1'",
        EdiCode::NoUnh,
        35,
    ),
    (
        "no header, but a trailer",
        b"UNB+UNOA:2+SHIP+PLAN+250101:1200+7'UNT+2+1'",
        EdiCode::NoUnh,
        35,
    ),
    (
        "another directory",
        b"UNB+UNOA:2+SHIP+PLAN+250101:1200+7'UNH+1+BAPLIE:D:96B:UN'",
        EdiCode::WrongType,
        35,
    ),
    (
        "another version",
        b"UNB+UNOA:2+SHIP+PLAN+250101:1200+7'UNH+1+BAPLIE:S:95B:UN'",
        EdiCode::WrongType,
        35,
    ),
    (
        "another agency",
        b"UNB+UNOA:2+SHIP+PLAN+250101:1200+7'UNH+1+BAPLIE:D:95B:EDI'",
        EdiCode::WrongType,
        35,
    ),
    (
        "no agency",
        b"UNB+UNOA:2+SHIP+PLAN+250101:1200+7'UNH+1+BAPLIE:D:95B'",
        EdiCode::WrongType,
        35,
    ),
    (
        "a longer name",
        b"UNB+UNOA:2+SHIP+PLAN+250101:1200+7'UNH+1+BAPLIES:D:95B:UN'",
        EdiCode::WrongType,
        35,
    ),
    (
        "another message",
        b"UNB+UNOA:2+SHIP+PLAN+250101:1200+7'UNH+1+MOVINS:D:95B:UN'",
        EdiCode::WrongType,
        35,
    ),
    (
        "a wrong count",
        b"UNB+UNOA:2+SHIP+PLAN+250101:1200+7'UNH+1+BAPLIE:D:95B:UN'UNT+3+1'UNZ+1+7'",
        EdiCode::SegmentCount,
        57,
    ),
    (
        "eleven digits",
        b"UNB+UNOA:2+SHIP+PLAN+250101:1200+7'UNH+1+BAPLIE:D:95B:UN'UNT+00000000002+1'UNZ+1+7'",
        EdiCode::SegmentCount,
        57,
    ),
    (
        "no count",
        b"UNB+UNOA:2+SHIP+PLAN+250101:1200+7'UNH+1+BAPLIE:D:95B:UN'UNT++1'",
        EdiCode::SegmentCount,
        57,
    ),
    (
        "a letter in the count",
        b"UNB+UNOA:2+SHIP+PLAN+250101:1200+7'UNH+1+BAPLIE:D:95B:UN'UNT+2A+1'",
        EdiCode::SegmentCount,
        57,
    ),
    (
        "no message trailer",
        b"UNB+UNOA:2+SHIP+PLAN+250101:1200+7'UNH+1+BAPLIE:D:95B:UN'UNZ+1+7'",
        EdiCode::SegmentCount,
        57,
    ),
    (
        "count before reference",
        b"UNB+UNOA:2+SHIP+PLAN+250101:1200+7'UNH+1+BAPLIE:D:95B:UN'UNT+3+2'UNZ+1+7'",
        EdiCode::SegmentCount,
        57,
    ),
    (
        "message reference",
        b"UNB+UNOA:2+SHIP+PLAN+250101:1200+7'UNH+1+BAPLIE:D:95B:UN'UNT+2+2'UNZ+1+7'",
        EdiCode::MessageRef,
        57,
    ),
    (
        "a second message",
        b"UNB+UNOA:2+SHIP+PLAN+250101:1200+7'UNH+1+BAPLIE:D:95B:UN'UNT+2+1'UNH+1+BAPLIE:D:95B:UN'",
        EdiCode::SeveralMessages,
        65,
    ),
    (
        "another tag before the count",
        b"UNB+UNOA:2+SHIP+PLAN+250101:1200+7'UNH+1+BAPLIE:D:95B:UN'UNT+2+1'UNH+2+7'",
        EdiCode::SeveralMessages,
        65,
    ),
    (
        "two messages counted",
        b"UNB+UNOA:2+SHIP+PLAN+250101:1200+7'UNH+1+BAPLIE:D:95B:UN'UNT+2+1'UNZ+2+7'",
        EdiCode::InterchangeCount,
        65,
    ),
    (
        "none counted",
        b"UNB+UNOA:2+SHIP+PLAN+250101:1200+7'UNH+1+BAPLIE:D:95B:UN'UNT+2+1'UNZ++7'",
        EdiCode::InterchangeCount,
        65,
    ),
    (
        "a count of nought",
        b"UNB+UNOA:2+SHIP+PLAN+250101:1200+7'UNH+1+BAPLIE:D:95B:UN'UNT+2+1'UNZ+0+7'",
        EdiCode::InterchangeCount,
        65,
    ),
    (
        "ten counted",
        b"UNB+UNOA:2+SHIP+PLAN+250101:1200+7'UNH+1+BAPLIE:D:95B:UN'UNT+2+1'UNZ+10+7'",
        EdiCode::InterchangeCount,
        65,
    ),
    (
        "eleven counted",
        b"UNB+UNOA:2+SHIP+PLAN+250101:1200+7'UNH+1+BAPLIE:D:95B:UN'UNT+2+1'UNZ+11+7'",
        EdiCode::InterchangeCount,
        65,
    ),
    (
        "the count before the reference",
        b"UNB+UNOA:2+SHIP+PLAN+250101:1200+7'UNH+1+BAPLIE:D:95B:UN'UNT+2+1'UNZ+2+8'",
        EdiCode::InterchangeCount,
        65,
    ),
    (
        "interchange reference",
        b"UNB+UNOA:2+SHIP+PLAN+250101:1200+7'UNH+1+BAPLIE:D:95B:UN'UNT+2+1'UNZ+1+8'",
        EdiCode::InterchangeRef,
        65,
    ),
    (
        "a reference in another case",
        b"UNB+UNOA:2+SHIP+PLAN+250101:1200+a'UNH+1+BAPLIE:D:95B:UN'UNT+2+1'UNZ+1+A'",
        EdiCode::InterchangeRef,
        65,
    ),
    (
        "a byte behind",
        b"UNB+UNOA:2+SHIP+PLAN+250101:1200+7'UNH+1+BAPLIE:D:95B:UN'UNT+2+1'UNZ+1+7'X",
        EdiCode::Trailing,
        73,
    ),
    (
        "a segment behind blanks",
        b"UNB+UNOA:2+SHIP+PLAN+250101:1200+7'UNH+1+BAPLIE:D:95B:UN'UNT+2+1'UNZ+1+7'\r\n''",
        EdiCode::Trailing,
        75,
    ),
    (
        "a zero byte behind",
        b"UNB+UNOA:2+SHIP+PLAN+250101:1200+7'UNH+1+BAPLIE:D:95B:UN'UNT+2+1'UNZ+1+7' \0",
        EdiCode::Trailing,
        74,
    ),
    (
        "an empty segment",
        b"UNB+UNOA:2+SHIP+PLAN+250101:1200+7'\r\n''",
        EdiCode::EmptySegment,
        37,
    ),
    ("an empty tag", b"+X'", EdiCode::EmptySegment, 0),
    (
        "an empty tag of many elements",
        b"+++++++++++++++++++++++++++++++++++++++++++++++++++++++++++++++++'",
        EdiCode::EmptySegment,
        0,
    ),
    (
        "an empty tag behind the message",
        b"UNB+UNOA:2+SHIP+PLAN+250101:1200+7'UNH+1+BAPLIE:D:95B:UN'UNT+2+1'+1+7'",
        EdiCode::EmptySegment,
        65,
    ),
    (
        "65 elements",
        b"UNB+UNOA:2+SHIP+PLAN+250101:1200+7'UNH+1+BAPLIE:D:95B:UN'X++++++++++++++++++++++++++++++++++++++++++++++++++++++++++++++++'",
        EdiCode::TooManyElements,
        57,
    ),
    (
        "65 components",
        b"UNB+UNOA:2+SHIP+PLAN+250101:1200+7'UNH+1+BAPLIE:D:95B:UN'X+::::::::::::::::::::::::::::::::::::::::::::::::::::::::::::::::'",
        EdiCode::TooManyElements,
        57,
    ),
    (
        "65 elements before the row of the tag",
        b"X++++++++++++++++++++++++++++++++++++++++++++++++++++++++++++++++'",
        EdiCode::TooManyElements,
        0,
    ),
];

/// Bay plans, each with the number of its segments.
static PLANS: [(&str, &[u8], u64); 15] = [
    (
        "nothing between",
        b"UNB+UNOA:2+SHIP+PLAN+250101:1200+7'UNH+1+BAPLIE:D:95B:UN'UNT+2+1'UNZ+1+7'",
        0,
    ),
    (
        "blanks behind",
        b"UNB+UNOA:2+SHIP+PLAN+250101:1200+7'UNH+1+BAPLIE:D:95B:UN'UNT+2+1'UNZ+1+7'\r\n ",
        0,
    ),
    (
        "tabs and other blanks",
        b"\tUNB+UNOA:2+SHIP+PLAN+250101:1200+7'\t\r\n UNH+1+BAPLIE:D:95B:UN'UNT+2+1'UNZ+1+7'\t",
        0,
    ),
    (
        "the default advice",
        b"UNA:+.? 'UNB+UNOA:2+SHIP+PLAN+250101:1200+7'UNH+1+BAPLIE:D:95B:UN'UNT+2+1'UNZ+1+7'",
        0,
    ),
    (
        "other characters",
        b"\r\nUNA|^,! ~UNB^UNOA|2^SHIP^PLAN^250101|1200^7~UNH^1^BAPLIE|D|95B|UN~UNT^2^1~UNZ^1^7~",
        0,
    ),
    (
        "a mark that separates too",
        b"UNA:+:? 'UNB+UNOA:2+SHIP+PLAN+250101:1200+7'UNH+1+BAPLIE:D:95B:UN'UNT+2+1'UNZ+1+7'",
        0,
    ),
    (
        "leading zeros",
        b"UNB+UNOA:2+SHIP+PLAN+250101:1200+7'UNH+1+BAPLIE:D:95B:UN'UNT+0000000002+1'UNZ+00000000000001+7'",
        0,
    ),
    (
        "released letters",
        b"UNB+UNOA:2+SHIP+PLAN+250101:1200+7'UNH+1+BAPLIE:D:95B:UN'U?NT+?2+1'UNZ+1+7'",
        0,
    ),
    (
        "no references",
        b"UNB+UNOA:2+SHIP+PLAN+250101:1200+7'UNH++BAPLIE:D:95B:UN'UNT+2'UNZ+1+7'",
        0,
    ),
    (
        "64 elements",
        b"UNB+UNOA:2+SHIP+PLAN+250101:1200+7'UNH+1+BAPLIE:D:95B:UN'X+++++++++++++++++++++++++++++++++++++++++++++++++++++++++++++++'UNT+3+1'UNZ+1+7'",
        1,
    ),
    (
        "64 components",
        b"UNB+UNOA:2+SHIP+PLAN+250101:1200+7'UNH+1+BAPLIE:D:95B:UN'X+:::::::::::::::::::::::::::::::::::::::::::::::::::::::::::::::'UNT+3+1'UNZ+1+7'",
        1,
    ),
    (
        "a group inside the message",
        b"UNB+UNOA:2+SHIP+PLAN+250101:1200+7'UNH+1+BAPLIE:D:95B:UN'UNG'UNE'UNB'UNH'UNT+6+1'UNZ+1+7'",
        4,
    ),
    (
        "a fifth component of the type",
        b"UNB+UNOA:2+SHIP+PLAN+250101:1200+7'UNH+1+BAPLIE:D:95B:UN:SMDG20'UNT+2+1:2'UNZ+1:9+7'",
        0,
    ),
    (
        "further components of references and counts",
        b"UNB+UNOA:2+SHIP+PLAN+250101:1200+7:P'UNH+1:Q+BAPLIE:D:95B:UN'UNT+2:R+1:S'UNZ+1:T+7:U'",
        0,
    ),
    (
        "lines",
        b"UNB+UNOA:2+SHIP+PLAN+250101:1200+7'\r\nUNH+1+BAPLIE:D:95B:UN:AB12'\r\nLOC+147+030082::5'\r\nMEA+WT++KGM:20000'\r\nMEA+VGM++KGM:20499.2'\r\nEQD+CN+AB?+CD'\r\nUNT+6+1'\r\nUNZ+1+7'\r\n",
        4,
    ),
];

/// What neither separates nor releases: ASCII letters and digits, CR, LF and tab.
const PLAIN: &[u8; 65] = b"0123456789ABCDEFGHIJKLMNOPQRSTUVWXYZabcdefghijklmnopqrstuvwxyz\r\n\t";

/// The components of a segment of seven elements.
static COMPONENTS: [(usize, usize, &[u8]); 12] = [
    (0, 0, b"X"),
    (0, 1, b""),
    (1, 0, b"a"),
    (1, 1, b"b"),
    (1, 2, b""),
    (2, 0, b"c"),
    (2, 1, b"d~e"),
    (3, 0, b"f"),
    (4, 0, b"g"),
    (5, 1, b"i"),
    (6, 0, b"j"),
    (7, 0, b""),
];

/// The same of a segment with a tag of three letters.
static PLAIN_COMPONENTS: [(usize, usize, &[u8]); 7] = [
    (0, 0, b"XYZ"),
    (0, 1, b""),
    (1, 1, b"b"),
    (2, 0, b"c"),
    (2, 1, b"d~e"),
    (6, 0, b"j"),
    (7, 0, b""),
];

/// Those of a segment without a release character.
static UNRELEASED: [(usize, usize, &[u8]); 2] = [(0, 0, b"A?"), (1, 0, b"?")];

/// The code of each fault.
static CODES: [(EdiCode, &str); 14] = [
    (EdiCode::Truncated, "E1"),
    (EdiCode::BadUna, "E2"),
    (EdiCode::NoUnb, "E3"),
    (EdiCode::Groups, "E4"),
    (EdiCode::NoUnh, "E5"),
    (EdiCode::WrongType, "E6"),
    (EdiCode::SegmentCount, "E7"),
    (EdiCode::MessageRef, "E8"),
    (EdiCode::SeveralMessages, "E9"),
    (EdiCode::InterchangeCount, "E10"),
    (EdiCode::InterchangeRef, "E11"),
    (EdiCode::Trailing, "E12"),
    (EdiCode::EmptySegment, "E13"),
    (EdiCode::TooManyElements, "E14"),
];

/// How many segments the message has, or the fault.
fn verdict_on(text: &[u8], kind: Kind) -> Result<u64, EdiFault> {
    let mut count: u64 = 0;
    for segment in open(text, kind)?.segments() {
        count = segment.number().saturating_sub(1);
    }
    Ok(count)
}

fn fault(code: EdiCode, place: usize) -> Result<u64, EdiFault> {
    Err(EdiFault { code, place })
}

#[test]
fn cut_interchange(rt: HostRuntime) {
    for len in 0..EMPTY_PLAN.len() {
        same(
            &rt,
            verdict_on(&EMPTY_PLAN[..len], Kind::Baplie),
            fault(EdiCode::Truncated, len),
        );
    }
    same(&rt, verdict_on(EMPTY_PLAN, Kind::Baplie), Ok(0));
}

#[test]
fn every_prefix(rt: HostRuntime) {
    for len in 0..LOAD_ONE.len() {
        same(
            &rt,
            verdict_on(&LOAD_ONE[..len], Kind::Movins),
            fault(EdiCode::Truncated, len),
        );
    }
    same(&rt, verdict_on(LOAD_ONE, Kind::Movins), Ok(4));
    let end = ONE_CONTAINER.len() - 2;
    for len in 0..end {
        same(
            &rt,
            verdict_on(&ONE_CONTAINER[..len], Kind::Baplie),
            fault(EdiCode::Truncated, len),
        );
    }
    for len in end..ONE_CONTAINER.len() {
        same(&rt, verdict_on(&ONE_CONTAINER[..len], Kind::Baplie), Ok(4));
    }
}

/// Whatever one byte becomes, there is an answer, and a fault stands in the text or at its end.
#[test]
fn one_byte_changed(rt: HostRuntime) {
    let mut text = *ONE_CONTAINER;
    let mut still = 0u32;
    let mut faults = 0u32;
    for at in 0..ONE_CONTAINER.len() {
        for byte in [0, 39, 43, 58, 63, 32, 90, 255] {
            text[at] = byte;
            match verdict_on(&text, Kind::Baplie) {
                Ok(_) => still = still.wrapping_add(1),
                Err(fault) => {
                    holds(&rt, fault.place <= ONE_CONTAINER.len());
                    faults = faults.wrapping_add(1);
                }
            }
        }
        text[at] = ONE_CONTAINER[at];
    }
    holds_row(&rt, still, still > 100);
    holds_row(&rt, faults, faults > 100);
    same(&rt, verdict_on(&text, Kind::Baplie), Ok(4));
}

#[test]
fn interchange_faults(rt: HostRuntime) {
    for (name, text, code, place) in &FAULTS {
        same_row(
            &rt,
            name,
            verdict_on(text, Kind::Baplie),
            fault(*code, *place),
        );
    }
}

#[test]
fn interchanges(rt: HostRuntime) {
    for (name, text, count) in &PLANS {
        same_row(&rt, name, verdict_on(text, Kind::Baplie), Ok(*count));
    }
    holds(&rt, open(EMPTY_PLAN, Kind::Movins).is_err());
    one_reading();
}

/// The message has this decimal mark, and its last segment these components.
fn has_components(
    text: &[u8],
    mark: u8,
    components: &[(usize, usize, &[u8])],
) -> Result<bool, EdiFault> {
    let message = open(text, Kind::Movins)?;
    let mut holds = false;
    for segment in message.segments() {
        holds = message.decimal_mark() == mark;
        for (i, j, expected) in components {
            holds = holds && segment.component(*i, *j).is(expected);
        }
    }
    Ok(holds)
}

/// Each of the six characters is another, and all but the reserved one are in use.
#[test]
fn components_by_their_places(rt: HostRuntime) {
    let text = b"UNA|^,!*~UNB^^^^^7~UNH^1^MOVINS|D|95B|UN~X^a|b^c|d!~e^f^g^h|i^j~UNT^3^1~UNZ^1^7~";
    same(&rt, has_components(text, b',', &COMPONENTS), Ok(true));
}

/// The same behind a tag of three ordinary letters.
#[test]
fn components_behind_a_plain_tag(rt: HostRuntime) {
    let text =
        b"UNA|^,!*~UNB^^^^^7~UNH^1^MOVINS|D|95B|UN~XYZ^a|b^c|d!~e^f^g^h|i^j~UNT^3^1~UNZ^1^7~";
    same(&rt, has_components(text, b',', &PLAIN_COMPONENTS), Ok(true));
}

/// A tag is plain where it is three letters before an element separator, and no letter is released.
#[test]
fn plain_tags(rt: HostRuntime) -> Result<(), EdiFault> {
    let text = b"UNB+++++7'UNH+1+MOVINS:D:95B:UN'ABC+1'ABC'A?BC+1'ABC:2+1'UNT+6+1'UNZ+1+7'";
    let message = open(text, Kind::Movins)?;
    let mut plain: u64 = 0;
    for segment in message.segments() {
        if let Some(tag) = segment.plain_tag() {
            holds(&rt, tag.is(b'A', b'B', b'C'));
            holds(&rt, !tag.is(b'A', b'B', b'D'));
            plain = plain.wrapping_mul(10).wrapping_add(segment.number());
        }
    }
    same(&rt, plain, 2);
    Ok(())
}

/// Two segments that say the same but for the value; in the second, characters are released.
const MEASURED: &[u8] =
    b"UNB+++++7'UNH+1+MOVINS:D:95B:UN'MEA+VGM++KGM:20500'MEA+V?GM++K?GM:2?+5'UNT+4+1'UNZ+1+7'\n";

/// A qualifier is compared as a whole, two components are read by one walk, and a text is lent
/// where nothing in it is released.
#[test]
fn qualifiers_and_pairs(rt: HostRuntime) -> Result<(), EdiFault> {
    let message = open(MEASURED, Kind::Movins)?;
    let mut numbers: u64 = 0;
    for segment in message.segments() {
        numbers = numbers.wrapping_mul(10).wrapping_add(segment.number());
        holds(&rt, segment.has_qualifier(b"VGM"));
        holds(&rt, !segment.has_qualifier(b"VG"));
        holds(&rt, !segment.has_qualifier(b"VGMX"));
        let (unit, value) = segment.first_two(3);
        let is_released = segment.number() == 3;
        holds(&rt, unit.is(b"KGM"));
        holds(&rt, value.is(if is_released { b"2+5" } else { b"20500" }));
        match unit.without_release() {
            Some(text) => holds(&rt, text == b"KGM".as_slice() && !is_released),
            None => holds(&rt, is_released),
        }
    }
    same(&rt, numbers, 23);
    Ok(())
}

/// Without a release character every byte is itself.
#[test]
fn no_release_character(rt: HostRuntime) {
    let text = b"UNA:+,  'UNB+++++7?'UNH+1+MOVINS:D:95B:UN'A?+?'UNT+3+1'UNZ+1+7?'";
    same(&rt, has_components(text, b',', &UNRELEASED), Ok(true));
}

#[test]
fn release_and_verified_weight(rt: HostRuntime) -> Result<(), EdiFault> {
    let message = open(ONE_CONTAINER, Kind::Baplie)?;
    same(&rt, message.decimal_mark(), b'.');
    let mut numbers: u64 = 0;
    let mut released = false;
    for segment in message.segments() {
        numbers = numbers.wrapping_mul(10).wrapping_add(segment.number());
        if segment.tag().is(b"EQD") {
            released = segment.component(2, 0).is(b"AB+CD");
        }
    }
    holds(&rt, released);
    same(&rt, numbers, 2345);
    Ok(())
}

/// Components of 35 and of 36 bytes, release characters not counted, one with a release character
/// that wasn't needed, the same without it, and an empty one.
const LITERALS: &[u8] =
    b"UNB+++++7'UNH+1+MOVINS:D:95B:UN'A+?1234567890123456789012345678901234??+?1234567890123456789012345678901234??6+A?BC+ABC+'UNT+3+1'UNZ+1+7'";

// A literal of 35 bytes fits and one of 36 doesn't.
#[test]
fn literals(rt: HostRuntime) -> Result<(), EdiFault> {
    let message = open(LITERALS, Kind::Movins)?;
    let mut seen = false;
    for segment in message.segments() {
        if segment.tag().is(b"A") {
            seen = true;
            let mut out: ArrayVec<u8, 35> = ArrayVec::new();
            holds(&rt, segment.component(1, 0).literal_into(&mut out));
            same(
                &rt,
                out.as_slice(),
                b"1234567890123456789012345678901234?".as_slice(),
            );
            holds(&rt, !segment.component(2, 0).literal_into(&mut out));
            same(&rt, out.len(), 0);
            let raw = segment.component(3, 0);
            holds(&rt, raw.same(segment.component(4, 0)));
            holds(&rt, raw.is(b"ABC"));
            holds(&rt, !raw.is(b"AB"));
            holds(&rt, !raw.is_empty());
            holds(&rt, segment.component(5, 0).is_empty());
        }
    }
    holds(&rt, seen);
    Ok(())
}

/// The byte can stand at this place of the advice `UNA:+.? '`: it is none of the plain ones nor of
/// the characters at the other places, and a space stands for no release character alone. The
/// decimal mark and the reserved byte may be anything.
fn can_stand(place: usize, byte: u8) -> bool {
    let others: &[u8] = match place {
        3 => b" +?'",
        4 => b" :?'",
        6 => b":+'",
        8 => b" :+?",
        _ => return true,
    };
    !PLAIN.contains(&byte) && !others.contains(&byte)
}

/// An advice with nothing behind it is bad, or the text is cut at its end.
#[test]
fn service_characters(rt: HostRuntime) {
    for place in 3..9 {
        for byte in 0..=255u8 {
            let mut text = *b"UNA:+.? '";
            text[place] = byte;
            let expected = if can_stand(place, byte) {
                fault(EdiCode::Truncated, 9)
            } else {
                fault(EdiCode::BadUna, 0)
            };
            same_row(
                &rt,
                (byte, place),
                verdict_on(&text, Kind::Baplie),
                expected,
            );
        }
    }
}

#[test]
fn printed(rt: HostRuntime) -> Result<(), Fail> {
    for (code, text) in &CODES {
        same(&rt, code.to_string(rt.alloc())?.as_str(), *text);
    }
    let fault = EdiFault {
        code: EdiCode::SegmentCount,
        place: 57,
    };
    same(&rt, fault.to_string(rt.alloc())?.as_str(), "E7 at 57");
    Ok(())
}
