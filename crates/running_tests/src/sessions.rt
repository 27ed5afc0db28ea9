ghost use Rattle.std.specs.Prelude.{◌≡◌, ◌≤◌, IfOk};

use crate::checks::same;
use box_ship::{EMPTY_PLAN, files};
use claim_run::{Open, Workers};
use lift_sequence::Op;
use seq_report::{CutPlan, Inputs, Options, RunFault, Through};
use std::alloc::Global;
use std::process::Abort;
use std::sync::{Arc, Wait};
use std::test::Fail;
use std::thread::Threads;
use what_if::Session;

mod bases;
mod desks;
mod edits;
mod in_place;
mod reports;
mod searches;

/// The heading of a report.
const HEADER: &str =
    "STEP LIFT KG GM MEAN AFT FWD TRIM LIST A30 A40 A3040 GZ ANGLE CLOSE FRAMES VERDICT";

// Of the box ship alone: GM = 10,333 - 6,000 mm; a draught of 4 m, on which buoyancy and weight
// agree everywhere.
const EMPTY_LINE: &str =
    "0 - 8200000 4333 4000 4000 4000 0 0 31509 50888 19379 1958 35 0 0/0;0/0;0/0;0/0;0/0 PASS";

/// Behind the number of the step: a container of 20,500 kg to starboard; one aft; and both, the one
/// aft or the one to starboard being the last.
const STARBOARD: &str =
    "L0030782 8220500 4314 4010 4010 4010 0 46 30861 50020 19158 1936 35 0 0/0;-5125/-64062500;0/-240726375;5125/-64062500;0/0 PASS";

const AFT: &str =
    "L0050082 8220500 4314 4010 4025 3994 30 0 31433 50754 19321 1952 35 -769 0/0;-512/-127549291;2819/6406250;-256/29895834;769/27760417 PASS";

const BOTH: &str =
    "8241000 4295 4020 4035 4004 30 46 30786 49888 19102 1930 35 -769 0/0;-5637/-191611791;2819/-234320125;4869/-34166666;769/27760417 PASS";

/// The container of 20,500 kg to starboard, and then one of 20,500 kg aft.
const TWO_LOADS: &[u8] =
    b"UNB+UNOA:2+PLAN+SHIP+250101:1200+8'UNH+1+MOVINS:D:95B:UN'HAN+LOA'LOC+147+0030782::5'MEA+WT++KGM:20500'EQD+CN+ABCU1234560'HAN+LOA'LOC+147+0050082::5'MEA+WT++KGM:20500'EQD+CN+ABCU7654321'UNT+10+1'UNZ+1+8'";

/// The box ship with a bay plan and a movement instruction. By itself, since a session that is read
/// of texts which are written out costs its proof two minutes.
fn inputs<'a>(baplie: &'a [u8], movins: &'a [u8]) -> Inputs<'a> {
    Inputs {
        profile: files(),
        baplie,
        movins,
        steps: None,
    }
}

/// A session on the box ship with no container aboard.
fn session(alloc: Global, movins: &[u8]) -> Result<Session, RunFault> {
    Session::read(alloc, &inputs(EMPTY_PLAN, movins))
}

/// A session on a list, from the base of another.
fn session_on(alloc: Global, other: &Session, list: Vec<Op>) -> Result<Session, Fail>
    ensures { IfOk result (λ s. s.base ≡ other.now.base) }
{
    let base = Arc::try_clone(other.base())?;
    Ok(Session::new(alloc, base, list)?)
}

/// The report of a session, as text, made by two workers in chunks of two lines.
fn report_of(
    rt: &(impl Abort + AllocGlobal + Threads + Wait + Sync),
    session: &Session,
) -> Vec<u8> {
    let mut taken = Vec::new(rt.alloc());
    let Some(workers) = Workers::new(2) else {
        unreachable!()
    };
    let options = Options {
        workers,
        cuts: CutPlan::Every(2),
    };
    let outcome = session.report(rt, &Open, &options, &mut Through::new(&mut taken));
    match outcome {
        Ok(summary) => same(rt, session.first_fail(), summary.first),
        Err(fault) => assert!(rt; false, "no report: {fault}"),
    }
    taken
}

/// A session reports these lines, all of which pass.
fn check_report(
    rt: &(impl Abort + AllocGlobal + Threads + Wait + Sync),
    session: &Session,
    lines: &str,
) -> Result<(), Fail> {
    let expected = format!(in rt.alloc(); "{HEADER}\n{EMPTY_LINE}\n{lines}ALL PASS\n")?;
    same(rt, report_of(rt, session).as_slice(), expected.as_bytes());
    Ok(())
}
