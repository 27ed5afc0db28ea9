//! What is judged of the list of a session.
ghost use Rattle.std.specs.Prelude.{◌≡◌, IfOk};
ghost use Rattle.port_call.specs.Views.{case_in_view};
ghost use Rattle.what_if.specs.Bases.{case_of, report_on};
ghost use Rattle.view_sittings.specs.Sessions.{AreChunks};

use claim_run::{Gate, Workers};
use criteria::Criterion;
use moment_sums::Totals;
use prefix_scan::Cuts;
use seq_report::{CutPlan, Lines, cuts_of};
use std::alloc::{AllocError, Global};
use std::sync::Wait;
use std::thread::Threads;
use strength::Hull;
use view_figures::condition_at;
use view_texts::{RowText, add_sheet, add_worst_table, listing, worst_rows};
use what_if::Session;
use worst_values::found_in;

/// The table of limits of a list, and the first condition that fails.
#[derive(Drop)]
pub struct Judged {
    pub rows: Vec<RowText>,
    pub first: Option<(u32, Criterion)>,
}

/// The lines of a list in chunks, with the sum at the first line of each.
#[derive(Drop)]
pub struct Chunks {
    cuts: Cuts,
    sums: Vec<Totals>,
}

/// The lines of a session's list in chunks of so many.
fn chunks_of(alloc: Global, session: &Session, chunk: u32) -> Result<Chunks, AllocError>
    ensures { IfOk result (λ c. AreChunks c session.now.base session.now.ops) }
{
    let Ok(cuts) = cuts_of(alloc, CutPlan::Every(chunk), session.case().lines()) else {
        return Err(AllocError);
    };
    let sums = session.first_sums(&cuts)?;
    Ok(Chunks { cuts, sums })
}

/// These lines.
fn lines_of<'a>(session: &'a Session, chunks: &'a Chunks) -> Lines<'a>
    requires { AreChunks chunks.now session.now.base session.now.ops }
    ensures { case_in_view result.case ≡ case_of session.entry.now.base session.entry.now.ops }
{
    let case = session.case();
    Lines {
        case,
        hull: Hull::new(case.profile),
        cuts: &chunks.cuts,
        sums: &chunks.sums,
    }
}

/// Each limit of a session's list at its worst, and the first condition that fails.
pub fn judge_list<G: Gate, R: Threads + Wait + Sync>(
    rt: &R,
    alloc: Global,
    gate: &G,
    workers: Workers,
    session: &Session,
    chunk: u32,
) -> Result<Judged, AllocError>
    ensures { IfOk result
        (λ j. j.first ≡ (report_on session.now.base session.now.ops).summary.first) }
{
    let chunks = chunks_of(alloc, session, chunk)?;
    let lines = lines_of(session, &chunks);
    let findings = found_in(rt, alloc, gate, workers, lines.case, lines.cuts, lines.sums)?;
    let first = findings.first_failing();
    let rows = worst_rows(alloc, &lines, &findings)?;
    Ok(Judged { rows, first })
}

/// The sheet of a condition of a session's list; `None` where there is no such condition.
pub fn sheet_of(
    alloc: Global,
    session: &Session,
    chunk: u32,
    step: u32,
) -> Result<Option<String>, AllocError> {
    let chunks = chunks_of(alloc, session, chunk)?;
    let lines = lines_of(session, &chunks);
    let Some(condition) = condition_at(&lines, step) else {
        return Ok(None);
    };
    let mut text = String::new(alloc);
    add_sheet(alloc, &mut text, lines.case, &condition)?;
    Ok(Some(text))
}

/// The conditions of a session's list from one step to another, a line for each.
pub fn list_of(
    alloc: Global,
    session: &Session,
    chunk: u32,
    from: u32,
    to: u32,
) -> Result<String, AllocError> {
    let chunks = chunks_of(alloc, session, chunk)?;
    let lines = lines_of(session, &chunks);
    let last = lines.case.lines().saturating_sub(1);
    listing(alloc, &lines, from, to.min(last))
}

/// The table of limits of a session's list.
pub fn table_of(alloc: Global, session: &Session, rows: &[RowText]) -> Result<String, AllocError> {
    let mut text = String::new(alloc);
    add_worst_table(alloc, &mut text, session.case(), rows)?;
    Ok(text)
}
