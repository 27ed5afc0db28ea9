//! The worst values over the conditions of a port call, and what each doesn't meet.
use super::inputs;
use super::searches::HEAVY_SECOND;
use crate::checks::{holds, same};
use box_ship::LOAD_TO_STARBOARD;
use claim_run::{Open, Workers};
use port_call::PortCall;
use seq_report::{Criterion, CutPlan, Lines, cuts_of, sums_of};
use std::test::Fail;
use strength::Hull;
use view_curves::charted_in;
use worst_values::{Limit, found_in, limit_at};

// The second load lists the ship beyond her limit, so that she lists most at step 2, and her GM is
// least there: both loads lie on deck, the second is nearly fifty times the first. The two
// conditions before meet all criteria.
#[test]
fn worst_of_two_loads(rt: HostRuntime) -> Result<(), Fail> {
    let Ok(call) = PortCall::read(rt.alloc(), &inputs(HEAVY_SECOND)) else {
        panic!(&rt; "the inputs are refused")
    };
    let case = call.case();
    let Ok(cuts) = cuts_of(rt.alloc(), CutPlan::Every(1), case.lines()) else {
        panic!(&rt; "the cuts are refused")
    };
    let workers = Workers::new(2).ok_or("no workers")?;
    let sums = sums_of(&rt, rt.alloc(), &Open, workers, &call, &cuts)?;
    let found = found_in(&rt, rt.alloc(), &Open, workers, case, &cuts, &sums)?;
    same(&rt, limit_at(7), Limit::List);
    same(&rt, found.rows.get(1).map(|gm| gm.step), Some(2));
    same(&rt, found.rows.get(7).map(|list| list.step), Some(2));
    same(&rt, found.first_failing(), Some((2, Criterion::C7)));
    let (first, last) = found.unmet.parts();
    same(&rt, first.first().map(|stretch| stretch.lines), Some(2));
    same(&rt, last.lines, 1);
    holds(&rt, last.unmet[7]);
    holds(&rt, !last.unmet[0]);
    Ok(())
}

// 20.5 t on a ship of 2,050 t to the metre: she lies 10 mm deeper, and lists to starboard.
#[test]
fn found_and_drawn_at_once(rt: HostRuntime) -> Result<(), Fail> {
    let Ok(call) = PortCall::read(rt.alloc(), &inputs(LOAD_TO_STARBOARD)) else {
        panic!(&rt; "the inputs are refused")
    };
    let case = call.case();
    let Ok(cuts) = cuts_of(rt.alloc(), CutPlan::Every(1), case.lines()) else {
        panic!(&rt; "the cuts are refused")
    };
    let workers = Workers::new(2).ok_or("no workers")?;
    let sums = sums_of(&rt, rt.alloc(), &Open, workers, &call, &cuts)?;
    let lines = Lines {
        case,
        hull: Hull::new(case.profile),
        cuts: &cuts,
        sums: &sums,
    };
    let charted = charted_in(&rt, rt.alloc(), &Open, workers, &lines)?;
    same(&rt, charted.findings.first_failing(), None);
    same(
        &rt,
        charted.findings.rows.get(7).map(|list| list.step),
        Some(1),
    );
    same(&rt, charted.series.figures().len(), 2);
    same(
        &rt,
        charted.series.at(0).map(|drawn| drawn.aft),
        Some(4_000),
    );
    same(
        &rt,
        charted.series.at(1).map(|drawn| drawn.aft),
        Some(4_010),
    );
    same(&rt, charted.series.at(2).is_none(), true);
    Ok(())
}
