//! How a program of one's own tries changes. On the box ship a container is to be loaded to
//! starboard. A session gives the load another mass, says how the ship is judged then, and takes
//! the edit back; a desk keeps the list for others; and the ship without cargo is judged by itself.
//! The report on the list that is left goes to standard output behind these lines:
//!
//!     step 1 with 30000 kg: PASS, GM 4305 mm
//!     ticket 0: 1 step
//!     the ship alone: PASS, GM 4333 mm
#![tactic(auto)]

use box_ship::{EMPTY_PLAN, LOAD_TO_STARBOARD, files};
use claim_run::{Open, Workers};
use criteria::{Verdict, judge};
use moment_sums::Totals;
use seq_report::{CutPlan, Inputs, Options, Through};
use ship_profile::Profile;
use std::alloc::{AllocError, Global};
use std::io::Write;
use std::process::ExitCode;
use std::sync::{Arc, Wait};
use units_core::{Body, Kg, Mm, Place, floor};
use what_if::{Desk, Edit, EditFault, Session};

/// The box ship, without cargo, and the one load. By itself, since a function that reads texts
/// which are written out in it is long to prove.
fn inputs() -> Inputs<'static> {
    Inputs {
        profile: files(),
        baplie: EMPTY_PLAN,
        movins: LOAD_TO_STARBOARD,
        steps: None,
    }
}

/// A verdict in a few words: the metacentric height in whole mm, rounded down, where there is one.
fn print<W: Write>(out: &mut W, what: &str, verdict: &Verdict) {
    let _ = match verdict {
        Verdict::Outside(_) => writeln!(out, "{what}: outside of the tables"),
        Verdict::Fails(criterion, _) => {
            let code = criterion.code();
            writeln!(out, "{what}: FAIL {code}")
        }
        Verdict::Passes(figures) => {
            let gm = floor(figures.floating.gm);
            writeln!(out, "{what}: PASS, GM {gm} mm")
        }
    };
}

/// Gives the load of step 1 another mass, and prints how the condition after it is judged. A
/// refused edit changes nothing.
fn try_mass<W: Write>(out: &mut W, session: &mut Session, kg: Kg) -> Result<(), EditFault> {
    session.apply(Edit::Reweigh { at: 1, kg })?;
    if let Some(verdict) = session.judge(1) {
        print(out, "step 1 with 30000 kg", &verdict);
    }
    Ok(())
}

/// Publishes the list of a session at a desk of its base, and opens it again, as a colleague would
/// by the ticket.
fn publish<W: Write, R: Wait>(
    rt: &R,
    alloc: Global,
    out: &mut W,
    session: &Session,
) -> Result<(), AllocError> {
    let desk = Desk::new(alloc, Arc::try_clone(session.base())?)?;
    let ticket = desk.publish(rt, session)?;
    let opened = desk.open(&ticket)?;
    let number = ticket.place();
    let steps = opened.lifts().len();
    let _ = writeln!(out, "ticket {number}: {steps} step");
    Ok(())
}

/// The box ship as one body: 8,200,000 kg over her whole length, 6 m above the keel.
fn block() -> Option<Body> {
    let place = Place {
        x: Mm::new(50_000)?,
        y: Mm::new(0)?,
        z: Mm::new(6_000)?,
        half: Mm::new(50_000)?,
    };
    Body::new(8_200_000, place, 0)
}

/// Judges one condition without a session: what is aboard is added up, the sum is tested for its
/// bounds, and judged.
fn judge_block<W: Write>(out: &mut W, profile: &Profile) {
    if let Some(body) = block() {
        let totals = Totals::of(&body, profile.frames());
        if totals.is_bounded() {
            print(out, "the ship alone", &judge(profile, &totals));
        }
    }
}

fn main(rt: HostRuntime) -> ExitCode {
    let alloc = rt.alloc();
    let mut out = rt.stdout();
    let Ok(mut session) = Session::read(alloc, &inputs()) else {
        return ExitCode::from(2);
    };
    let Some(kg) = Kg::new(30_000) else {
        unreachable!()
    };
    if try_mass(&mut out, &mut session, kg).is_err() || session.undo().is_err() {
        return ExitCode::from(2);
    }
    if publish(&rt, alloc, &mut out, &session).is_err() {
        return ExitCode::from(2);
    }
    judge_block(&mut out, session.base().profile());
    let Some(workers) = Workers::new(2) else {
        unreachable!()
    };
    let options = Options {
        workers,
        cuts: CutPlan::Every(256),
    };
    match session.report(&rt, &Open, &options, &mut Through::new(&mut out)) {
        Ok(summary) => ExitCode::from(if summary.first.is_none() { 0 } else { 1 }),
        Err(_) => ExitCode::from(2),
    }
}
