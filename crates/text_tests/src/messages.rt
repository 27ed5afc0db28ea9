use crate::checks::{holds_row, same, same_row};
use arrayvec::ArrayVec;
use edifact_text::{EdiCode, EdiFault};
use std::alloc::{AllocError, Global};
use std::process::Abort;
use std::test::Fail;
use stow_messages::{
    Item, Lift, StowCode, StowFault, baplie, copy_text, movins, one_bay_plan,
    one_movement_instruction,
};
use units_core::{Cell, Kg};

/// The message of this name that has these segments, separated by a space.
fn message(alloc: Global, name: &str, segments: &str) -> Result<String, AllocError> {
    let mut text = format!(in alloc; "UNB+UNOA:2+SHIP+PLAN+250101:1200+7'UNH+1+{name}:D:95B:UN'")?;
    let mut count: u32 = 2;
    for segment in segments.split_whitespace() {
        text.push_str(segment)?;
        text.push_str("'")?;
        count = count.saturating_add(1);
    }
    let end = format!(in alloc; "UNT+{count}+1'UNZ+1+7'")?;
    text.push_str(end.as_str())?;
    Ok(text)
}

/// What bytes print: nothing where they aren't text.
pub(crate) fn as_text(bytes: &[u8]) -> &str {
    match str::from_utf8(bytes) {
        Ok(text) => text,
        Err(_) => "",
    }
}

/// What the answer to a plan prints: its items, or its fault.
fn answer(alloc: Global, text: &[u8]) -> Result<String, AllocError> {
    let items = match baplie(alloc, text) {
        Ok(items) => items,
        Err(fault) => return format!(in alloc; "{fault}"),
    };
    let mut shown = String::new(alloc);
    for item in &items {
        let Cell { bay, row, tier } = item.cell;
        let kg = item.kg.get();
        let id = as_text(item.id.as_slice());
        let one = format!(in alloc; "{id}@{bay:03}{row:02}{tier:02}={kg} ")?;
        shown.push_str(one.as_str())?;
    }
    Ok(shown)
}

/// Each list of segments of a plan, with its answer.
fn check(rt: &(impl Abort + AllocGlobal), rows: &[(&str, &str)]) -> Result<(), Fail> {
    for (segments, expected) in rows {
        let text = message(rt.alloc(), "BAPLIE", segments)?;
        let answer = answer(rt.alloc(), text.as_bytes())?;
        same_row(rt, segments, answer.as_str(), *expected);
    }
    Ok(())
}

#[test]
fn release_and_verified_weight(rt: HostRuntime) -> Result<(), Fail> {
    let text =
        b"UNB+UNOA:2+SHIP+PLAN+250101:1200+7'\r\nUNH+1+BAPLIE:D:95B:UN:AB12'\r\nLOC+147+030082::5'\r\nMEA+WT++KGM:20000'\r\nMEA+VGM++KGM:20499.2'\r\nEQD+CN+AB?+CD'\r\nUNT+6+1'\r\nUNZ+1+7'\r\n";
    let items = baplie(rt.alloc(), text).ok().ok_or("a plan")?;
    assert_eq!(rt; items.len(), 1);
    let item = items[0].copy();
    let mut id = ArrayVec::new();
    let _ = id.try_extend_from_slice(b"AB+CD");
    let expected = Item {
        cell: Cell {
            bay: 3,
            row: 0,
            tier: 82,
        },
        id,
        kg: Kg::new(20_500).ok_or("a mass")?,
    };
    same(&rt, &item, &expected);
    same(&rt, &items[0], &expected);
    one_bay_plan();
    Ok(())
}

/// Weights and their units, each with the item or the fault.
static WEIGHTS: [(&str, &str); 20] = [
    (
        "LOC+147+030082 MEA+WT++KGM:1 MEA+VGM++KGM:999999.0",
        "@0030082=999999 ",
    ),
    (
        "LOC+147+030082 MEA+WT++KGM:1 MEA+VGM++KGM:999999.1",
        "M4 segment 4",
    ),
    (
        "LOC+147+030082 MEA+VGM++LBR:45000 MEA+WT++KGM:1",
        "M5 segment 3",
    ),
    (
        "LOC+147+030082 MEA+WT++KGM:20000 MEA+VGM++LBR:45000 EQD+CN+AB",
        "M5 segment 4",
    ),
    ("LOC+147+03A082 MEA+WT++KGM:1", "M2 segment 2"),
    ("LOC+147+030082 MEA+WT++KGM:5.", "@0030082=5 "),
    ("LOC+147+030082 MEA+WT++KGM:5,01", "@0030082=6 "),
    ("LOC+147+030082 MEA+WT++KGM:.5", "M4 segment 3"),
    ("LOC+147+030082 MEA+WT++KGM:1.5.0", "M4 segment 3"),
    ("LOC+147+030082 MEA+WT++KGM:-5", "M4 segment 3"),
    ("LOC+147+030082 MEA+WT++KGM", "M4 segment 3"),
    ("LOC+147+030082 MEA+WT++:5", "M5 segment 3"),
    ("LOC+147+030082 MEA+WT++KGM:0", "@0030082=0 "),
    ("LOC+147+030082 MEA+WT++KGM:1000000", "M4 segment 3"),
    ("LOC+147+030082 MEA+WT++KGM:999998.1", "@0030082=999999 "),
    ("LOC+147+030082 MEA+WT++KGM:5.00", "@0030082=5 "),
    ("LOC+147+030082 MEA+WT++KGM:5.10", "@0030082=6 "),
    ("LOC+147+030082 MEA+WT++KGM:5x", "M4 segment 3"),
    ("LOC+147+030082 MEA+WT++kgm:5", "M5 segment 3"),
    ("LOC+147+030082 MEA+WT+KGM:8+KGM:7:9+KGM:6", "@0030082=7 "),
];

#[test]
fn weights_and_units(rt: HostRuntime) -> Result<(), Fail> {
    check(&rt, &WEIGHTS)
}

/// The interchange's decimal mark, a weight, and the item or the fault.
static MARKS: [(&str, &str, &str); 5] = [
    ("*", "20*5", "@0030082=21 "),
    ("*", "20.5", "@0030082=21 "),
    ("E", "20E5", "@0030082=21 "),
    ("5", "2051", "@0030082=2051 "),
    (".", "20*5", "M4 segment 3"),
];

#[test]
fn decimal_mark_of_the_interchange(rt: HostRuntime) -> Result<(), Fail> {
    for (mark, weight, expected) in &MARKS {
        let text = format!(in rt.alloc();
            "UNA:+{mark}? 'UNB+UNOA:2+S+P+1:1+7'UNH+1+BAPLIE:D:95B:UN'LOC+147+030082'MEA+WT++KGM:{weight}'UNT+4+1'UNZ+1+7'"
        )?;
        let answer = answer(rt.alloc(), text.as_bytes())?;
        same_row(&rt, (mark, weight), answer.as_str(), *expected);
    }
    Ok(())
}

/// 35 bytes of a value are read, 36 aren't.
static LONG_WEIGHTS: [(&str, &str); 5] = [
    (
        "LOC+147+030082 MEA+WT++KGM:00000000000000000000000000000000001",
        "@0030082=1 ",
    ),
    (
        "LOC+147+030082 MEA+WT++KGM:000000000000000000000000000000000001",
        "M4 segment 3",
    ),
    (
        "LOC+147+030082 MEA+WT++KGM:99999999999999999999999999999999999",
        "M4 segment 3",
    ),
    (
        "LOC+147+030082 MEA+WT++KGM:1.000000000000000000000000000000000",
        "@0030082=1 ",
    ),
    (
        "LOC+147+030082 MEA+WT++KGM:1.000000000000000000000000000000001",
        "@0030082=2 ",
    ),
];

#[test]
fn long_weights(rt: HostRuntime) -> Result<(), Fail> {
    check(&rt, &LONG_WEIGHTS)
}

/// What a group takes of the segments behind its location.
static GROUPS: [(&str, &str); 14] = [
    // without a location there is no group, whatever stands there
    ("EQD+CN+ABCDEFGHIJKLMNOPQR MEA+WT++LBR:x HAN+RES", ""),
    ("LOC+147", "M2 segment 2"),
    (
        "LOC+9+DEHAM LOC+147+0030082::5 LOC+9+NLRTM EQD+CN+AB MEA+WT++KGM:7 NAD+CA+X",
        "AB@0030082=7 ",
    ),
    (
        "LOC+147:9+0030082 EQD+CN+AB MEA+WT:1++KGM:7:x",
        "AB@0030082=7 ",
    ),
    // the first of each kind counts
    (
        "LOC+147+0030082 MEA+WT++KGM:7 EQD+CN+AB EQD+CN+CD MEA+WT++KGM:8",
        "AB@0030082=7 ",
    ),
    (
        "LOC+147+0030082 MEA+VGM++KGM:7 MEA+VGM++LBR:8",
        "@0030082=7 ",
    ),
    // an empty cell is no item
    (
        "LOC+147+0030082 LOC+147+0010082 EQD+CN MEA+WT++KGM:7",
        "@0010082=7 ",
    ),
    ("LOC+147+0030082 EQD+CN+AB", "M6 segment 2"),
    ("LOC+147+0030082 EQD+CN+AB MEA+AAE++KGM:7", "M6 segment 2"),
    // seven digits or six, and another location is ignored
    ("LOC+147+03008 MEA+WT++KGM:7", "M2 segment 2"),
    ("LOC+147+00300820 MEA+WT++KGM:7", "M2 segment 2"),
    (
        "LOC+14+X LOC+1470+X LOC+147+1230405+X MEA+WT++KGM:7",
        "@1230405=7 ",
    ),
    // a container of any qualifier
    (
        "LOC+147+0030082 EQD+AB:CD+EF:GH+IJ MEA+WT++KGM:7",
        "EF@0030082=7 ",
    ),
    // handlings are ignored
    (
        "HAN+RES LOC+147+0030082 HAN+RES MEA+WT++KGM:7",
        "@0030082=7 ",
    ),
];

#[test]
fn groups_of_segments(rt: HostRuntime) -> Result<(), Fail> {
    check(&rt, &GROUPS)
}

#[test]
fn texts_are_copied(rt: HostRuntime) -> Result<(), Fail> {
    let mut name: ArrayVec<u8, 16> = ArrayVec::new();
    let _ = name.try_extend_from_slice(b"DB1");
    same(&rt, &copy_text(&name), &name);
    Ok(())
}

/// 17 bytes are taken, 18 aren't.
static IDENTIFICATIONS: [(&str, &str); 5] = [
    (
        "LOC+147+0030082 EQD+CN+ABCDEFGHIJKLMNOPQ MEA+WT++KGM:7",
        "ABCDEFGHIJKLMNOPQ@0030082=7 ",
    ),
    (
        "LOC+147+0030082 MEA+WT++KGM:7 EQD+CN+ABCDEFGHIJKLMNOPQR",
        "M3 segment 4",
    ),
    (
        "LOC+147+030082::5 MEA+WT++KGM:20000 MEA+VGM++KGM:20499.2 EQD+CN+ABCDEFGHIJKLMNOPQR",
        "M3 segment 5",
    ),
    (
        "LOC+147+0030082 EQD+CN+ABCDEFGHIJKLMNOPQRSTUVWXYZABCDEFGHIJK MEA+WT++KGM:7",
        "M3 segment 3",
    ),
    // letters are released one by one
    (
        "L?OC+14?7+0?030082 E?QD+CN+A?+ M?EA+W?T++K?GM:?7",
        "A+@0030082=7 ",
    ),
];

#[test]
fn identifications(rt: HostRuntime) -> Result<(), Fail> {
    check(&rt, &IDENTIFICATIONS)
}

/// Cells, identifications and masses of the forms that are read together, and of forms next to
/// them.
static COMMON_FORMS: [(&str, &str); 18] = [
    (
        "LOC+147+0030082::5 MEA+VGM++KGM:20500 EQD+CN+ABCU1234560+22G1+++5",
        "ABCU1234560@0030082=20500 ",
    ),
    (
        "LOC+147+003008?2::5 MEA+VGM++KGM:2050?0 EQD+CN+ABCU123456?0+22G1+++5",
        "ABCU1234560@0030082=20500 ",
    ),
    (
        "LOC+147+0030082+X MEA+WT++KGM:20500+1 EQD+CN+ABCU1234560:6346:5+22G1",
        "ABCU1234560@0030082=20500 ",
    ),
    (
        "LOC+147+0030082 MEA+WT++KGM:20500:2 EQD+CN+ABCU12?+4560+22G1+++5",
        "ABCU12+4560@0030082=20500 ",
    ),
    (
        "LOC+147+0030082 MEA+WT++KGM:7 EQD+CN+ABCU12345601+22G1+++5",
        "ABCU12345601@0030082=7 ",
    ),
    (
        "LOC+147+0030082 MEA+WT++KGM:7 EQD+CN+ABCU123456+22G1+++55",
        "ABCU123456@0030082=7 ",
    ),
    (
        "LOC+147+0030082 MEA+WT++KGM:7 EQD+CN+ABCU1234560?+22G1+++5",
        "ABCU1234560+22G1@0030082=7 ",
    ),
    (
        "LOC+147+0030082 MEA+WT++KGM:7 EQD+CN+ABCU1234560?+22G1AB++5",
        "M3 segment 4",
    ),
    (
        "LOC+147+0030082 MEA+WT++KGM:7 EQD+CN++ABCU1234560+22G1+++5",
        "@0030082=7 ",
    ),
    ("LOC+147+0030082?+ MEA+WT++KGM:7", "M2 segment 2"),
    ("LOC+147+00300821 MEA+WT++KGM:7", "M2 segment 2"),
    ("LOC+147+003008A MEA+WT++KGM:7", "M2 segment 2"),
    ("LOC+147++0030082 MEA+WT++KGM:7", "M2 segment 2"),
    ("LOC+147+0030082 MEA+WT++KGM:", "M4 segment 3"),
    ("LOC+147+0030082 MEA+WT++KGM:4294967297", "M4 segment 3"),
    ("LOC+147+0030082 MEA+WT++KGM:0000000007", "@0030082=7 "),
    ("LOC+147+0030082 MEA+WT++KGM:00000000007", "@0030082=7 "),
    (
        "LOC+147+0030082 MEA+WT++KGM:18446744073709551623",
        "M4 segment 3",
    ),
];

#[test]
fn common_forms(rt: HostRuntime) -> Result<(), Fail> {
    check(&rt, &COMMON_FORMS)
}

/// A group's faults come in one order, and before those of the group behind it.
static FIRST_FAULTS: [(&str, &str); 9] = [
    (
        "LOC+147+X EQD+CN+ABCDEFGHIJKLMNOPQR MEA+WT++LBR:x LOC+147+Y",
        "M2 segment 2",
    ),
    (
        "LOC+147+0030082 MEA+WT++LBR:x EQD+CN+ABCDEFGHIJKLMNOPQR LOC+147+Y",
        "M3 segment 4",
    ),
    (
        "LOC+147+0030082 MEA+WT++LBR:x EQD+CN+AB LOC+147+Y",
        "M5 segment 3",
    ),
    (
        "LOC+147+0030082 MEA+WT++KGM:x EQD+CN+AB LOC+147+Y",
        "M4 segment 3",
    ),
    ("LOC+147+0030082 EQD+CN+AB LOC+147+Y", "M6 segment 2"),
    (
        "LOC+147+0030082 EQD+CN+AB MEA+WT++KGM:7 LOC+147+Y",
        "M2 segment 5",
    ),
    (
        "LOC+147+0030082 MEA+WT++KGM:x EQD+CN+ABCDEFGHIJKLMNOPQR LOC+147+Y",
        "M3 segment 4",
    ),
    (
        "LOC+147+0030082 EQD+CN+ABCDEFGHIJKLMNOPQR LOC+147+Y",
        "M3 segment 3",
    ),
    ("LOC+147+X EQD+CN+AB LOC+147+Y", "M2 segment 2"),
];

#[test]
fn first_fault(rt: HostRuntime) -> Result<(), Fail> {
    check(&rt, &FIRST_FAULTS)
}

/// Texts that are no interchange of a bay plan.
static ENVELOPES: [(&[u8], &str); 2] = [
    (b"UNB+UNOA:2'UNH+1+BAPLIE:D:95B:UN'UNT+3+1'", "M1 E7 at 33"),
    (b"", "M1 E1 at 0"),
];

#[test]
fn envelope_and_texts(rt: HostRuntime) -> Result<(), Fail> {
    for (text, expected) in &ENVELOPES {
        let answer = answer(rt.alloc(), text)?;
        same(&rt, answer.as_str(), *expected);
    }
    let fault = StowFault {
        code: StowCode::NoMemory,
        segment: 0,
    };
    same(&rt, fault.to_string(rt.alloc())?.as_str(), "M10");
    Ok(())
}

/// What a lift prints: its kind, cell, identification and mass.
fn order(alloc: Global, lift: &Lift) -> Result<String, AllocError> {
    match lift {
        Lift::Load(item) => {
            let Cell { bay, row, tier } = item.cell;
            let kg = item.kg.get();
            let id = as_text(item.id.as_slice());
            format!(in alloc; "L{bay:03}{row:02}{tier:02}{id}={kg} ")
        }
        Lift::Discharge { cell, id } => {
            let Cell { bay, row, tier } = *cell;
            let id = as_text(id.as_slice());
            format!(in alloc; "D{bay:03}{row:02}{tier:02}{id} ")
        }
    }
}

/// What the answer to an instruction prints: its lifts, or its fault.
fn orders(alloc: Global, text: &[u8]) -> Result<String, AllocError> {
    let lifts = match movins(alloc, text) {
        Ok(lifts) => lifts,
        Err(fault) => return format!(in alloc; "{fault}"),
    };
    let mut shown = String::new(alloc);
    for lift in &lifts {
        let one = order(alloc, &lift.copy())?;
        shown.push_str(one.as_str())?;
    }
    Ok(shown)
}

/// Each list of segments of an instruction, with its answer.
fn check_orders(rt: &(impl Abort + AllocGlobal), rows: &[(&str, &str)]) -> Result<(), Fail> {
    for (segments, expected) in rows {
        let text = message(rt.alloc(), "MOVINS", segments)?;
        let answer = orders(rt.alloc(), text.as_bytes())?;
        same_row(rt, segments, answer.as_str(), *expected);
    }
    Ok(())
}

/// A handling holds until the next.
static HANDLINGS: [(&str, &str); 9] = [
    (
        "HAN+LOA LOC+147+0030782::5 MEA+WT++KGM:20500 EQD+CN+ABCU1234560",
        "L0030782ABCU1234560=20500 ",
    ),
    (
        "HAN+DIS LOC+147+0030082 EQD+CN+AB LOC+147+0010082 EQD+CN HAN+LOA LOC+147+0050082 MEA+WT++KGM:7",
        "D0030082AB D0010082 L0050082=7 ",
    ),
    (
        "HAN+DIS HAN+LOA LOC+147+0050082 MEA+WT++KGM:7 HAN+DIS",
        "L0050082=7 ",
    ),
    // what stands between a handling and a location belongs to no group
    (
        "HAN+LOA EQD+CN+X MEA+WT++LBR:x LOC+147+0050082 MEA+WT++KGM:7",
        "L0050082=7 ",
    ),
    // a handling ends a group
    (
        "HAN+DIS LOC+147+0050082 HAN+LOA EQD+CN+X LOC+147+0030082 MEA+WT++KGM:7",
        "L0030082=7 ",
    ),
    // the value of a discharge's mass is ignored
    ("HAN+DIS LOC+147+0050082 MEA+WT++LBR:x", "D0050082 "),
    ("HAN+DIS LOC+147+0050082 MEA+VGM LOC+9+DEHAM", "D0050082 "),
    // a group without a container and a mass is no lift
    ("HAN+LOA LOC+147+0050082 HAN+DIS LOC+147+0050082 DTM+1", ""),
    ("HAN+?LOA:9 LOC+147+0050082 MEA+WT++KGM:7", "L0050082=7 "),
];

#[test]
fn handlings_hold_for_what_follows(rt: HostRuntime) -> Result<(), Fail> {
    one_movement_instruction();
    check_orders(&rt, &HANDLINGS)
}

/// A group's faults come before those of the segment that ends it, also where that is a handling.
static ORDER_FAULTS: [(&str, &str); 19] = [
    ("HAN+RES", "M8 segment 2"),
    ("HAN", "M8 segment 2"),
    (
        "LOC+147+0030782 MEA+WT++KGM:20500 EQD+CN+AB",
        "M7 segment 2",
    ),
    ("LOC+147+X", "M2 segment 2"),
    ("LOC+147+0030082", "M7 segment 2"),
    ("HAN+LOA LOC+147+0030082 EQD+CN+AB HAN+RES", "M6 segment 3"),
    (
        "HAN+LOA LOC+147+0030082 MEA+WT++LBR:7 HAN+RES",
        "M5 segment 4",
    ),
    (
        "HAN+DIS LOC+147+0030082 EQD+CN+ABCDEFGHIJKLMNOPQR HAN+RES",
        "M3 segment 4",
    ),
    (
        "HAN+DIS LOC+147+0030082 EQD+CN+AB HAN+RES LOC+147+X",
        "M8 segment 5",
    ),
    (
        "HAN+DIS LOC+147+0030082 EQD+CN+AB LOC+147+X HAN+RES",
        "M2 segment 5",
    ),
    // a group before any handling, whatever else is wrong with it or with what ends it
    ("LOC+147+0030782 EQD+CN+ABCDEFGHIJKLMNOPQR", "M7 segment 2"),
    ("LOC+147+0030782 MEA+WT++LBR:x", "M7 segment 2"),
    ("LOC+147+0030782 EQD+CN+AB", "M7 segment 2"),
    ("LOC+147+0030782 HAN+RES", "M7 segment 2"),
    // a group behind one
    (
        "HAN+DIS LOC+147+X EQD+CN+ABCDEFGHIJKLMNOPQR",
        "M2 segment 3",
    ),
    (
        "HAN+LOA LOC+147+0030082 MEA+WT++LBR:x EQD+CN+ABCDEFGHIJKLMNOPQR",
        "M3 segment 5",
    ),
    (
        "HAN+LOA LOC+147+0030082 MEA+WT++KGM:x HAN+RES",
        "M4 segment 4",
    ),
    ("HAN+RES+LOA", "M8 segment 2"),
    ("HAN+loa", "M8 segment 2"),
];

#[test]
fn faults_of_an_instruction(rt: HostRuntime) -> Result<(), Fail> {
    check_orders(&rt, &ORDER_FAULTS)
}

/// What stands behind a plan's 30,000 items, and how many items there are, or the fault. The items
/// are two segments each, and so the segments 2 to 60,001 behind the message header.
static PLAN_ENDS: [(&str, &str); 5] = [
    ("UNT+60002+1'", "30000"),
    ("LOC+147+0030082'UNT+60003+1'", "30000"),
    (
        "LOC+147+0030082'MEA+WT++KGM:1'UNT+60004+1'",
        "M9 segment 60002",
    ),
    (
        "LOC+147+0030082'MEA+WT++KGM:x'UNT+60004+1'",
        "M4 segment 60003",
    ),
    ("LOC+147+0030082'EQD'UNT+60004+1'", "M6 segment 60002"),
];

/// The same of an instruction's 200,000 lifts, which are the segments 3 to 400,002 behind the
/// message header and a handling.
static ORDER_ENDS: [(&str, &str); 4] = [
    ("UNT+400003+1'", "200000"),
    ("LOC+147+0030082'UNT+400004+1'", "200000"),
    ("LOC+147+0030082'EQD'UNT+400005+1'", "M9 segment 400003"),
    (
        "LOC+147+0030082'EQD++ABCDEFGHIJKLMNOPQR'UNT+400005+1'",
        "M3 segment 400004",
    ),
];

/// A message that has its headers, the same two segments again and again, and this end.
fn long_message(
    alloc: Global,
    headers: &str,
    pair: &str,
    count: u32,
    end: &str,
) -> Result<String, AllocError> {
    let mut text = String::from_str(alloc, "UNB+UNOA:2+S+P+1:1+7'")?;
    text.push_str(headers)?;
    for _ in 0..count {
        text.push_str(pair)?;
    }
    text.push_str(end)?;
    text.push_str("UNZ+1+7'")?;
    Ok(text)
}

#[test]
fn most_items(rt: HostRuntime) -> Result<(), Fail> {
    for (end, expected) in &PLAN_ENDS {
        let headers = "UNH+1+BAPLIE:D:95B:UN'";
        let pair = "LOC+147+0030082'MEA+WT++KGM:1'";
        let text = long_message(rt.alloc(), headers, pair, 30_000, end)?;
        let shown = match baplie(rt.alloc(), text.as_bytes()) {
            Ok(items) => items.len().to_string(rt.alloc())?,
            Err(fault) => fault.to_string(rt.alloc())?,
        };
        same_row(&rt, end, shown.as_str(), *expected);
    }
    Ok(())
}

#[test]
fn most_lifts(rt: HostRuntime) -> Result<(), Fail> {
    for (end, expected) in &ORDER_ENDS {
        let headers = "UNH+1+MOVINS:D:95B:UN'HAN+DIS'";
        let pair = "LOC+147+0030082'EQD'";
        let text = long_message(rt.alloc(), headers, pair, 200_000, end)?;
        let shown = match movins(rt.alloc(), text.as_bytes()) {
            Ok(lifts) => lifts.len().to_string(rt.alloc())?,
            Err(fault) => fault.to_string(rt.alloc())?,
        };
        same_row(&rt, end, shown.as_str(), *expected);
    }
    Ok(())
}

/// Free text of over 64 bytes, with released service characters, behind which a segment is read as
/// any other.
const LONG_TEXT: &str =
    "FTX+AAA+++A TEXT OF OVER SIXTY-FOUR BYTES ?'QUOTED?' WITH ?+ AND ?: AND ?? IN IT'";

/// Messages between headers and trailers of their own, each with the answer to the plan. What is
/// ordinary is read one way and what isn't another, and each of these has both.
static BOTH_WAYS: [(&str, &str); 6] = [
    // released bytes in an identification, in the tag and in the qualifier of the next group
    (
        "LOC+147+0030082::5'MEA+WT++KGM:7'EQD+CN+AB?'CD'L?OC+14?7+0010082'EQD+CN+EF'MEA+WT++KGM:8'UNT+8+1'",
        "AB'CD@0030082=7 EF@0010082=8 ",
    ),
    // segments on lines of their own, blanks among them
    (
        "\r\nLOC+147+0030082::5'\r\n \tMEA+WT++KGM:7'\r\nEQD+CN+AB'\r\nLOC+147+0010082'\r\nMEA+VGM++KGM:8'\r\nUNT+7+1'\r\n",
        "AB@0030082=7 @0010082=8 ",
    ),
    // an empty identification, a group without a container, and one whose container stands before
    // its mass
    (
        "LOC+147+0030082'EQD+CN+'MEA+WT++KGM:7'LOC+147+0010082'MEA+WT++KGM:8'LOC+147+0050082'EQD+CN+AB'MEA+WT++KGM:9'UNT+10+1'",
        "@0030082=7 @0010082=8 AB@0050082=9 ",
    ),
    // a verified mass behind the other, and tags that are longer, shorter or joined
    (
        "LOC+147+0030082'MEA+WT++KGM:7'MEA+VGM++KGM:8'LOCO+147+1'LO+147+1'MEA:1+WT++LBR:1'EQD'UNT+9+1'",
        "@0030082=8 ",
    ),
    // a fault in the last segment but one, behind a release character
    (
        "LOC+147+0030082'MEA+WT++KGM:7'EQD+CN+A?+B'LOC+147+0010082'MEA+WT++KGM:8?.5'MEA+VGM++LBR:8'UNT+8+1'",
        "M5 segment 7",
    ),
    // a tag that ends with a release character, and one that is nothing but a release character
    (
        "LOC+147+0030082'MEA?+WT++KGM:6'?+LOC+147+1'MEA+WT++KGM:7'UNT+6+1'",
        "@0030082=7 ",
    ),
];

#[test]
fn read_both_ways(rt: HostRuntime) -> Result<(), Fail> {
    for (segments, expected) in &BOTH_WAYS {
        let text = long_message(rt.alloc(), "UNH+1+BAPLIE:D:95B:UN'", "", 0, segments)?;
        let answer = answer(rt.alloc(), text.as_bytes())?;
        same_row(&rt, segments, answer.as_str(), *expected);
    }
    Ok(())
}

/// The same group with free text before it, and with a fault as the last segment behind it.
#[test]
fn long_segments_between(rt: HostRuntime) -> Result<(), Fail> {
    for (last, expected) in &LAST_SEGMENTS {
        let alloc = rt.alloc();
        let end = format!(in alloc;
            "{LONG_TEXT}EQD+CN+AB'{LONG_TEXT}MEA+WT++KGM:7'{last}UNT+8+1'"
        )?;
        let headers = "UNH+1+BAPLIE:D:95B:UN'LOC+147+0030082'";
        let text = long_message(rt.alloc(), headers, "", 0, end.as_str())?;
        let answer = answer(rt.alloc(), text.as_bytes())?;
        same_row(&rt, last, answer.as_str(), *expected);
    }
    Ok(())
}

/// What stands last in the message, and the answer.
static LAST_SEGMENTS: [(&str, &str); 3] = [
    ("LOC+9+NLRTM'", "AB@0030082=7 "),
    ("LOC+147+X'", "M2 segment 7"),
    ("MEA+VGM++KGM:8,?5'", "AB@0030082=9 "),
];

/// Other service characters: what is ordinary elsewhere separates, and what separates elsewhere is
/// ordinary.
#[test]
fn other_service_characters(rt: HostRuntime) -> Result<(), Fail> {
    let text =
        b"UNA|^,!*~UNB^UNOA|2^S^P^1|1^7~UNH^1^BAPLIE|D|95B|UN~LOC^147^0030082||5~MEA^WT^^KGM|7,5~EQD^CN^A+B?'!~C^22G1~LOC+147+X~UNT^6^1~UNZ^1^7~";
    let shown = answer(rt.alloc(), text)?;
    same(&rt, shown.as_str(), "A+B?'~C@0030082=8 ");
    Ok(())
}

// A producer's habits: the service string advice, a line for each segment, and segments that are
// ignored.
#[test]
fn segments_between(rt: HostRuntime) -> Result<(), Fail> {
    let text =
        b"UNA:+.? '\r\nUNB+UNOA:2+T+S+250101:1200+9++++1'\r\nUNH+77+MOVINS:D:95B:UN:SMDG20'\r\nBGM++5+9'\r\nDTM+137:2501011200:201'\r\nTDT+20+1W+++XX:172:20+++9V:103::SKAGEN'\r\nLOC+5+DEHAM:139:6'\r\nHAN+LOA'\r\nLOC+147+0030782::5'\r\nFTX+AAA+++TEXT ?'QUOTED?''\r\nMEA+WT++KGM:1000'\r\nMEA+VGM++KGM:20500.5'\r\nLOC+9+DEHAM'\r\nLOC+11+NLRTM'\r\nRFF+BM:1'\r\nEQD+CN+ABCU1234560+22G1+++5'\r\nNAD+CA+XX:172:20'\r\nUNT+16+77'\r\nUNZ+1+9'\r\n";
    let shown = orders(rt.alloc(), text)?;
    same(&rt, shown.as_str(), "L0030782ABCU1234560=20501 ");
    Ok(())
}

/// Loads one container.
const LOAD_ONE: &[u8; 137] =
    b"UNB+UNOA:2+PLAN+SHIP+250101:1200+8'UNH+1+MOVINS:D:95B:UN'HAN+LOA'LOC+147+0030782::5'MEA+WT++KGM:20500'EQD+CN+ABCU1234560'UNT+6+1'UNZ+1+8'";

/// None of its beginnings is taken.
#[test]
fn cut_instruction(rt: HostRuntime) {
    for cut in 0..LOAD_ONE.len() {
        let expected = StowFault {
            code: StowCode::Envelope(EdiFault {
                code: EdiCode::Truncated,
                place: cut,
            }),
            segment: 0,
        };
        let fault = movins(rt.alloc(), &LOAD_ONE[..cut]).err();
        same(&rt, fault, Some(expected));
    }
}

/// Wherever a byte of it is another, there is an answer.
#[test]
fn one_byte_changed(rt: HostRuntime) {
    let mut text = *LOAD_ONE;
    let mut loads: u32 = 0;
    for at in 0..LOAD_ONE.len() {
        for byte in [b'X', b'\'', b'?', b'+', 0] {
            text[at] = byte;
            if movins(rt.alloc(), &text).is_ok() {
                loads = loads.saturating_add(1);
            }
        }
        text[at] = LOAD_ONE[at];
    }
    holds_row(&rt, loads, 50 < loads);
}
