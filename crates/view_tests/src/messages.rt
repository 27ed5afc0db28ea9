//! What messages say, and what is odd of them.
use crate::checks::{holds, same};
use edifact_text::Kind;
use std::alloc::{AllocError, Global};
use std::test::Fail;
use view_inputs::{
    MessageText, add_notices, entries_of, identity_in, identity_line, lifts_of, line_at,
    message_notices, place_of,
};

/// A bay plan from DEHAM for NLRTM, with two containers, the second for BEANR.
const PLAN: &[u8] =
    b"UNB+UNOA:2+SHIP+PLAN+250101:1200+7'UNH+1+BAPLIE:D:95B:UN'BGM++PLAN5+9'TDT+20+041W++++++DABC:103::MV EXAMPLE'LOC+5+DEHAM'LOC+61+NLRTM'\nLOC+147+0030082::5'MEA+WT++KGM:20500'LOC+11+NLRTM'EQD+CN+ABCU1234560'LOC+147+0030782::5'MEA+WT++KGM:1750'LOC+11+BEANR'EQD+CN+'UNT+14+1'UNZ+1+7'";

/// An instruction for NLRTM with a load and a discharge.
const MOVES: &[u8] =
    b"UNB+UNOA:2+PLAN+SHIP+250101:1200+8'UNH+1+MOVINS:D:95B:UN'BGM++MOVE6+9'TDT+20+042E++++++DABC:103::MV EXAMPLE'LOC+5+NLRTM'LOC+61+GBFXT'HAN+LOA'LOC+147+0010082::5'MEA+WT++KGM:9000'EQD+CN+DEFU7654321'HAN+DIS'LOC+147+0030082::5'EQD+CN+ABCU1234560'UNT+13+1'UNZ+1+8'";

/// Steps in another order: the discharge, a filling, the load.
const STEPS: &[u8] = b"kind,a,b,c\nlift,2,,\ntank,DB1,5000,\nlift,1,,\n";

/// What both messages say, in the line that names a port call.
#[test]
fn identities(rt: HostRuntime) -> Result<(), Fail> {
    let alloc = rt.alloc();
    let plan = identity_in(alloc, PLAN, Kind::Baplie)?;
    let moves = identity_in(alloc, MOVES, Kind::Movins)?;
    same(&rt, plan.reference.as_str(), "PLAN5");
    same(&rt, plan.function.as_str(), "9");
    same(&rt, plan.voyage.as_str(), "041W");
    same(&rt, plan.port.as_str(), "DEHAM");
    same(&rt, moves.next.as_str(), "GBFXT");
    same(
        &rt,
        identity_line(alloc, &plan, &moves, "")?.as_str(),
        "MV EXAMPLE, DABC, voyage 041W / 042E, DEHAM > NLRTM > GBFXT",
    );
    // a text that is no such message says nothing
    let none = identity_in(alloc, MOVES, Kind::Baplie)?;
    holds(&rt, none.ship.is_empty());
    same(
        &rt,
        identity_line(alloc, &none, &none, "BOX")?.as_str(),
        "BOX",
    );
    Ok(())
}

/// The entries with their segments: UNB is number 0, and four segments stand between UNH, number 1,
/// and the first location.
#[test]
fn entries_and_steps(rt: HostRuntime) -> Result<(), Fail> {
    let alloc = rt.alloc();
    let items = entries_of(alloc, PLAN, Kind::Baplie, Some(b"NLRTM"))?;
    same(&rt, items.len(), 2);
    let (Some(first), Some(second)) = (items.first(), items.get(1)) else {
        panic!(&rt; "there are fewer items")
    };
    holds(
        &rt,
        first.segment == 6 && first.is_for_port && second.segment == 10 && !second.is_for_port,
    );
    holds(&rt, first.kg == Some(20_500) && second.kg == Some(1_750));
    let lifts = entries_of(alloc, MOVES, Kind::Movins, None)?;
    same(&rt, lifts.len(), 2);
    // in the order of the instruction, and in that of a steps file
    let orders = lifts_of(alloc, MOVES, None, 2)?;
    same(&rt, orders.as_slice(), [Some(1u32), Some(2)].as_slice());
    let orders = lifts_of(alloc, MOVES, Some(STEPS), 3)?;
    same(
        &rt,
        orders.as_slice(),
        [Some(2u32), None, Some(1)].as_slice(),
    );
    let place = place_of(alloc, MOVES, Some(STEPS), 3)?;
    same(&rt, place.record, Some(4));
    same(
        &rt,
        place.lift,
        lifts.first().map(|load| (1u32, load.segment)),
    );
    let place = place_of(alloc, MOVES, None, 2)?;
    same(&rt, place.record, None);
    same(&rt, place.lift.map(|(number, _)| number), Some(2));
    // the plan has one end of a line, before its first location
    same(&rt, line_at(PLAN, 10), 1);
    same(&rt, line_at(PLAN, PLAN.len()), 2);
    Ok(())
}

/// A line ends in a segment, a container has no identification, and one is of less than 1.8 t.
#[test]
fn odd_of_a_plan(rt: HostRuntime) -> Result<(), Fail> {
    let alloc = rt.alloc();
    let plan = MessageText {
        text: PLAN,
        kind: Kind::Baplie,
    };
    same(&rt, plan.word(), "bay plan");
    let notices = message_notices(alloc, plan)?;
    let mut text = String::new(alloc);
    add_notices(alloc, &mut text, notices.as_slice())?;
    let mut codes = String::new(alloc);
    for notice in &notices {
        codes.push_str(notice.code)?;
        codes.push(' ')?;
    }
    same(&rt, codes.as_str(), "N6 N8 ");
    same(
        &rt,
        text.as_str(),
        "N6  bay plan    1 container without identification; first seg. 10, 0030782\nN8  bay plan    1 mass under 1.8 t or over 36 t: 1.750; first seg. 10\n",
    );
    Ok(())
}

/// A bay plan of one container up to its last segment, whose lines end in two bytes.
const HEAD: &[u8] =
    b"UNB+UNOA:2+SHIP+PLAN+250101:1200+7'\r\nUNH+1+BAPLIE:D:95B:UN'\r\nLOC+147+0030082::5'\r\nMEA+WT++KGM:20500'\r\nEQD+CN+ABCU1234560+22G1'\r\n";

/// What is behind its last segment.
const END: &[u8] = b"UNT+6+1'\r\nUNZ+1+7'\r\n";

/// The codes of the notices on that plan behind some text, with a last segment.
fn codes_with(alloc: Global, advice: &[u8], segment: &[u8]) -> Result<String, AllocError> {
    let mut text = Vec::new(alloc);
    text.extend_from_slice(advice)?;
    text.extend_from_slice(HEAD)?;
    text.extend_from_slice(segment)?;
    text.extend_from_slice(END)?;
    let plan = MessageText {
        text: text.as_slice(),
        kind: Kind::Baplie,
    };
    let mut codes = String::new(alloc);
    for notice in &message_notices(alloc, plan)? {
        codes.push_str(notice.code)?;
        codes.push(' ')?;
    }
    Ok(codes)
}

/// A line ends behind a terminator, or inside of a segment, where a released terminator ends none;
/// a tag is sound or not.
#[test]
fn ends_of_lines_and_tags(rt: HostRuntime) -> Result<(), Fail> {
    let alloc = rt.alloc();
    let advice = b"UNA:+.? '\r\n";
    same(&rt, codes_with(alloc, b"", b"RFF+BM:1'\r\n")?.as_str(), "");
    same(&rt, codes_with(alloc, advice, b"DIM+1'")?.as_str(), "");
    same(&rt, codes_with(alloc, b"\n", b"LOC+11+'\n")?.as_str(), "");
    same(
        &rt,
        codes_with(alloc, b"", b"FTX+A?'\r\nB'\n")?.as_str(),
        "N2 ",
    );
    same(
        &rt,
        codes_with(alloc, advice, b"FTX+A\tB'")?.as_str(),
        "N2 ",
    );
    same(&rt, codes_with(alloc, b"", b"RFF+BM\n'")?.as_str(), "N2 ");
    same(&rt, codes_with(alloc, b"", b"ftx+A'\r\n")?.as_str(), "N1 ");
    same(
        &rt,
        codes_with(alloc, b"", b"\n F?X+A\n'")?.as_str(),
        "N1 N2 ",
    );
    Ok(())
}
