//! The first step that fails of a case that is at hand.
use super::inputs;
use crate::checks::same;
use port_call::PortCall;
use seq_report::{Criterion, first_fail_behind};

/// A container of 20,500 kg aft, and then one of 999,999 kg to starboard, by which the ship lists
/// beyond her limit: a tangent of 0.2516, where she may have 0.05.
pub const HEAVY_SECOND: &[u8] =
    b"UNB+UNOA:2+PLAN+SHIP+250101:1200+8'UNH+1+MOVINS:D:95B:UN'HAN+LOA'LOC+147+0050082'MEA+WT++KGM:20500'EQD+CN'LOC+147+0030782'MEA+WT++KGM:999999'EQD+CN'UNT+9+1'UNZ+1+8'";

/// The first step of a port call that fails, and what a search says that judges the lines from that
/// step on alone.
fn from_both(call: &PortCall) -> Option<((u32, Criterion), Option<(u32, Criterion)>)> {
    let total = call.ground().total();
    let first = first_fail_behind(call.case(), 0, total)?;
    let again = first_fail_behind(call.case(), first.0, total);
    Some((first, again))
}

#[test]
fn first_failure_behind_lines_that_pass(rt: HostRuntime) {
    let Ok(call) = PortCall::read(rt.alloc(), &inputs(HEAVY_SECOND)) else {
        panic!(&rt; "the inputs are refused")
    };
    let second = (2, Criterion::C7);
    same(&rt, from_both(&call), Some((second, Some(second))));
}
