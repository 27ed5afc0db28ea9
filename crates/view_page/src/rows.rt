//! The figures of the conditions that are drawn, for the script.
ghost use Rattle.std.specs.Prelude.{◌≡◌, ◌≤◌, IfOk};
ghost use Rattle.criteria.specs.Least.{IsLeast};
ghost use Rattle.moment_sums.specs.Bounded.{IsBounded};
ghost use Rattle.moment_sums.specs.Kept.{values};
ghost use Rattle.strength.specs.Hull.{IsHullOf};
ghost use Rattle.port_call.specs.Views.{case_in_view};
ghost use Rattle.seq_report.specs.Cases.{IsChunk};

use crate::curves::{CurvePoint, Curves, FIGURES};
use claim_run::{Gate, Job, Workers, run};
use criteria::{Criterion, Exact, Nearby, exact_into};
use hydrostat::Outside;
use moment_sums::Totals;
use plain_text::in_thousandths;
use port_call::Case;
use righting::{Levers, levers_aboard};
use seq_report::{Chunk, Lines, cause_word, walk_on};
use ship_profile::Profile;
use std::alloc::{AllocError, Global};
use std::cmp::Ordering;
use std::marker::Model;
use std::sync::Wait;
use std::thread::Threads;
use strength::{Hull, Strains};
use view_curves::{Plotted, Series};
use view_figures::row_of;
use view_table::add_json_text;
use view_texts::{lift_at, value_text};
use worst_values::Limit;

/// Marks the condition of a step.
fn mark(kept: &mut Vec<bool>, step: u32) {
    if let Some(is_kept) = kept.get_mut(step as usize) {
        *is_kept = true;
    }
}

/// Marks the conditions of a curve that are drawn.
fn mark_drawn(kept: &mut Vec<bool>, points: &[CurvePoint]) {
    for point in points {
        mark(kept, point.step);
    }
}

/// Which conditions the script has figures of: those that are drawn of any curve, and where a curve
/// is drawn, the first that fails.
pub fn kept_of(
    alloc: Global,
    series: &Series,
    curves: &Curves,
    first: Option<(u32, Criterion)>,
) -> Result<Vec<bool>, AllocError> {
    let mut kept = Vec::new(alloc);
    for _ in 0..series.figures().len() {
        kept.push(false)?;
    }
    for figure in FIGURES {
        mark_drawn(&mut kept, curves.of(figure));
    }
    if series.beside().reaches.count == 0 {
        return Ok(kept);
    }
    if let Some((step, _)) = first {
        mark(&mut kept, step);
    }
    Ok(kept)
}

/// Whether a condition is kept.
fn is_kept(kept: &[bool], k: u32) -> bool {
    match kept.get(k as usize) {
        Some(is_kept) => *is_kept,
        None => false,
    }
}

/// The first condition that is kept.
fn first_kept(kept: &[bool]) -> Option<u32> {
    let mut number = 0u32;
    for is_kept in kept {
        if *is_kept {
            return Some(number);
        }
        number = number.saturating_add(1);
    }
    None
}

/// Whether HTML has a text as it is.
fn is_plain(words: &str) -> bool {
    for byte in words.bytes() {
        if byte == b'<' {
            return false;
        }
    }
    true
}

/// Adds a text of JSON that may stand in HTML.
fn add_json(alloc: Global, text: &mut String, words: &str) -> Result<(), AllocError> {
    if is_plain(words) {
        return add_json_text(text, words.as_bytes());
    }
    let mut json = String::new(alloc);
    add_json_text(&mut json, words.as_bytes())?;
    for byte in json.as_str().bytes() {
        match byte {
            b'<' => text.push_str("\\u003c")?,
            _ => text.push(char::from(byte))?,
        }
    }
    Ok(())
}

/// A limit's value of a condition, as its row has it, with the side on which it is.
fn value_of(
    alloc: Global,
    profile: &Profile,
    exact: &Exact,
    levers: &Levers,
    strains: &Strains,
    limit: Limit,
) -> Result<(String, Ordering), AllocError>
    requires length { exact.now.afloat.lbp ≡ profile.now.ship.lbp }
    requires least { IsLeast exact.now.least }
{
    match row_of(profile, exact, levers, strains, limit) {
        Some(row) => Ok((value_text(alloc, &row)?, row.side)),
        None => Ok((String::new(alloc), Ordering::Equal)),
    }
}

/// Adds the figures of a condition within the tables.
fn add_figures(
    alloc: Global,
    text: &mut String,
    profile: &Profile,
    totals: &Totals,
    exact: &Exact,
    strains: &Strains,
    plotted: &Plotted,
) -> Result<(), AllocError>
    requires bounded { IsBounded (values totals.now) }
    requires length { exact.now.afloat.lbp ≡ profile.now.ship.lbp }
    requires least { IsLeast exact.now.least }
{
    let Some(levers) = levers_aboard(profile, totals, &mut 0) else {
        return text.push_str("]");
    };
    let levers = &levers;
    let gm = in_thousandths(alloc, plotted.gm)?;
    let (list, side) = value_of(alloc, profile, exact, levers, strains, Limit::List)?;
    let side = match side {
        Ordering::Greater => "S ",
        Ordering::Less => "P ",
        Ordering::Equal => "",
    };
    let (aft, _) = value_of(alloc, profile, exact, levers, strains, Limit::DraughtAft)?;
    let (fwd, _) = value_of(
        alloc,
        profile,
        exact,
        levers,
        strains,
        Limit::DraughtForward,
    )?;
    let trim = in_thousandths(alloc, plotted.trim)?;
    let (shear, bending) = (plotted.shear, plotted.bending);
    write!(text, ",\"{gm}\",\"")?;
    add_list(text, side, list.as_str())?;
    write!(text, "\",\"{aft}\",\"{fwd}\",\"{trim}\"")?;
    write!(text, ",\"{shear}\",\"{bending}\"]")
}

/// Adds a list with its side, which stands in JSON in HTML.
fn add_list(text: &mut String, side: &str, list: &str) -> Result<(), AllocError> {
    text.push_str(side)?;
    text.push_str(list)
}

/// Adds what the script has of a condition outside of the tables.
fn add_outside(text: &mut String, cause: Outside) -> Result<(), AllocError> {
    let cause = cause_word(cause);
    write!(text, ",\"OUTSIDE {cause}\",\"\",\"\",\"\",\"\",\"\",\"\"]")
}

/// Adds what the script has of the condition of line `k`, with this aboard.
fn add_row(
    alloc: Global,
    text: &mut String,
    case: Case<'_>,
    hull: &Hull,
    k: u32,
    sum: &Totals,
    near: &mut Nearby,
    plotted: Option<Plotted>,
) -> Result<(), AllocError>
    requires of { IsHullOf hull.now case.profile.now.ship }
    requires bounded { IsBounded (values sum.now) }
{
    let profile = case.profile;
    write!(text, "[{k},")?;
    add_json(alloc, text, lift_at(alloc, case, k)?.as_str())?;
    let mut strains = Strains::default();
    match exact_into(profile, hull, sum, near, &mut strains) {
        Ok(exact) => match plotted {
            Some(plotted) => add_figures(alloc, text, profile, sum, &exact, &strains, &plotted),
            None => text.push_str("]"),
        },
        Err(cause) => add_outside(text, cause),
    }
}

/// The rows of the conditions of some chunks that are kept.
#[derive(Drop)]
struct Part {
    chunk: u32,
    text: String,
}

impl Model for Part {
    ghost use Rattle.std.specs.Prelude.{ℕ};

    ghost Value = { ℕ };

    ghost view = { λ p. p.chunk };
}

/// The rows of a chunk's conditions that are kept, those behind the first of all behind a comma.
fn rows_in_chunk(
    alloc: Global,
    case: Case<'_>,
    hull: &Hull,
    chunk: &Chunk,
    kept: &[bool],
    series: &Series,
) -> Result<String, AllocError>
    requires of { IsHullOf hull.now case.profile.now.ship }
    requires chunk { IsChunk (case_in_view case) chunk.now }
{
    let mut text = String::new(alloc);
    let first = first_kept(kept);
    let mut sum = chunk.first;
    let mut near = Nearby::default();
    for k in chunk.start..chunk.end {
        if is_kept(kept, k) {
            if first != Some(k) {
                text.push_str(",")?;
            }
            let plotted = series.at(k);
            add_row(alloc, &mut text, case, hull, k, &sum, &mut near, plotted)?;
        }
        walk_on(case, k, &mut sum);
    }
    Ok(text)
}

/// The rows of each chunk, as a job for workers.
#[derive(Drop)]
struct Telling<'a> {
    lines: &'a Lines<'a>,
    kept: &'a [bool],
    series: &'a Series,
}

impl<'a> Job for Telling<'a> {
    ghost use Rattle.std.specs.Prelude.{length};

    type Out = Part;

    ghost value = { λ t k. k };

    ghost pieces = { λ t. length t.lines.now.cuts.now };

    fn piece(&self, alloc: Global, k: u32) -> Result<Part, AllocError> {
        let lines = self.lines;
        let chunk = lines.chunk(k);
        let text = rows_in_chunk(
            alloc,
            lines.case,
            &lines.hull,
            &chunk,
            self.kept,
            self.series,
        )?;
        Ok(Part { chunk: k, text })
    }
}

/// Adds what the script reads: the number of the last condition, what its figures are called, and
/// the figures of each condition that is drawn.
pub fn add_rows<G: Gate, R: Threads + Wait + Sync>(
    rt: &R,
    alloc: Global,
    gate: &G,
    workers: Workers,
    text: &mut String,
    lines: &Lines<'_>,
    series: &Series,
    kept: &[bool],
) -> Result<(), AllocError> {
    let last = lines.case.lines().saturating_sub(1);
    write!(
        text,
        "{{\"last\":{last},\"names\":[\"GM\",\"list\",\"aft\",\"fwd\","
    )?;
    text.push_str("\"trim\",\"shear %\",\"bending %\"],\"rows\":[")?;
    let telling = Telling {
        lines,
        kept,
        series,
    };
    for part in &run(rt, alloc, gate, workers, lines.chunks(), &telling)? {
        text.push_str(part.text.as_str())?;
    }
    text.push_str("]}")
}
