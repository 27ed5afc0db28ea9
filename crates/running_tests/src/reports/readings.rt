use super::{Inputs, files};
use crate::checks::same;
use port_call::{InputFault, PortCall, cuts_refusal};
use prefix_scan::CutFault;
use std::test::Fail;
use stow_messages::{StowCode, StowFault};

/// A container of 20,500 kg to starboard.
const ONE_ABOARD: &[u8] =
    b"UNB+UNOA:2+PLAN+SHIP+250101:1200+8'UNH+1+BAPLIE:D:95B:UN'LOC+147+0030782::5'MEA+WT++KGM:20500'EQD+CN+ABCU1234560'UNT+5+1'UNZ+1+8'";

/// It is discharged, and one of 4,300 kg goes on deck.
const OUT_AND_IN: &[u8] =
    b"UNB+UNOA:2+PLAN+SHIP+250101:1200+8'UNH+1+MOVINS:D:95B:UN'HAN+DIS'LOC+147+0030782'EQD+CN+ABCU1234560'HAN+LOA'LOC+147+0050082::5'MEA+WT++KGM:4300'EQD+CN+ABCU7654321'UNT+9+1'UNZ+1+8'";

// What is read is at hand for a caller who makes something else of it than a report; read by one
// thread or by several, it is the same.
#[test]
fn port_call_of_inputs(rt: HostRuntime) {
    let inputs = Inputs {
        profile: files(),
        baplie: ONE_ABOARD,
        movins: OUT_AND_IN,
        steps: None,
    };
    for threads in 1..4 {
        let Ok(call) = PortCall::read_beside(&rt, rt.alloc(), threads, &inputs) else {
            panic!(&rt; "the inputs are refused")
        };
        same(&rt, call.case().lines(), 3);
        let (ground, sequence) = call.into_parts();
        let masses = ground.arrival().items().first().map(|item| item.kg.get());
        same(&rt, masses, Some(20_500));
        same(&rt, sequence.len(), 2);
    }
}

// The bay plan is refused before the movement instruction, though that is read first.
#[test]
fn first_input_refused(rt: HostRuntime) {
    let inputs = Inputs {
        profile: files(),
        baplie: b"X",
        movins: b"Y",
        steps: None,
    };
    let Err(fault) = PortCall::read(rt.alloc(), &inputs) else {
        panic!(&rt; "the inputs are taken")
    };
    let StowFault { code, segment } = match fault {
        InputFault::Baplie(fault) => fault,
        _ => panic!(&rt; "another input is refused"),
    };
    let StowCode::Envelope(envelope) = code else {
        panic!(&rt; "something behind the envelope is refused")
    };
    same(&rt, (envelope.place, segment), (1, 0));
}

#[test]
fn refusal_of_a_plan(rt: HostRuntime) -> Result<(), Fail> {
    let refusal = cuts_refusal(CutFault::NotRising);
    let shown = format!(in rt.alloc(); "{refusal}")?;
    same(&rt, shown.as_str(), "F6 K2");
    Ok(())
}
