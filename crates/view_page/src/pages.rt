//! The whole page.
use crate::curves::curves_of;
use crate::drawn_runs::drawn_runs;
use crate::envelopes::{Kind, add_envelope};
use crate::escaping::add_escaped;
use crate::levers::add_lever_chart;
use crate::rows::{add_rows, kept_of};
use crate::steps::{StepCharts, add_step_charts};
use crate::style::{SCRIPT, STYLE};
use crate::tables::{add_criteria, add_frames, add_odd, add_tightest, tightest_lever};
use claim_run::{Gate, Workers};
use criteria::Criterion;
use plain_text::shown_line;
use port_call::Case;
use seq_report::{Lines, write_last_line};
use std::alloc::{AllocError, Global};
use std::sync::Wait;
use std::thread::Threads;
use view_curves::{STRETCHES, Series, WHOLE};
use view_inputs::{Names, Notice, identity_line};
use view_texts::{
    RowText, Sources, VERSION, failing_runs, fails_words, tightest, tightest_line, verdict_line,
    worst_rows,
};
use worst_values::{Findings, Stretches, criterion_at};

/// What a page says of the inputs: their paths, what they are, and what is odd of them.
#[derive(Clone, Copy)]
pub struct ReadInputs<'a> {
    pub names: &'a Names<'a>,
    pub sources: &'a Sources,
    pub notices: &'a [Notice],
}

/// What is known of the conditions of a case: what is found of them, their figures that are drawn,
/// and the first that fails, with its first criterion.
#[derive(Clone, Copy)]
pub struct Conditions<'a> {
    pub findings: &'a Findings,
    pub series: &'a Series,
    pub first: Option<(u32, Criterion)>,
}

/// The line that names the port call.
fn identity_of(alloc: Global, read: &ReadInputs<'_>) -> Result<String, AllocError> {
    let (plan, moves) = (&read.sources.plan.identity, &read.sources.moves.identity);
    identity_line(alloc, plan, moves, read.sources.name.as_str())
}

/// Adds the head of the page, whose title says how the report ends.
fn add_head(
    alloc: Global,
    text: &mut String,
    identity: &str,
    first: Option<(u32, Criterion)>,
) -> Result<(), AllocError> {
    let mut last = String::new(alloc);
    write_last_line(&mut last, first)?;
    text.push_str("<!DOCTYPE html>\n<html lang=\"en\"><head><meta charset=\"utf-8\">")?;
    text.push_str(
        "<meta name=\"viewport\" content=\"width=device-width,initial-scale=1\"><title>",
    )?;
    add_escaped(text, identity)?;
    text.push_str(": ")?;
    text.push_str(last.as_str().trim_end())?;
    text.push_str("</title><style>")?;
    text.push_str(STYLE)?;
    text.push_str("</style></head><body>")
}

/// Adds the name of the ship, and what else names the port call.
fn add_identity(text: &mut String, identity: &str) -> Result<(), AllocError> {
    let (ship, rest) = match identity.split_once(", ") {
        Some((ship, rest)) => (ship, rest),
        None => (identity, ""),
    };
    text.push_str("<h1>")?;
    add_escaped(text, ship)?;
    text.push_str("</h1><p class=\"sub\">")?;
    add_escaped(text, rest)?;
    text.push_str("</p>")
}

/// A text behind its first bytes, of which there are so many.
fn behind(alloc: Global, text: &str, count: usize) -> Result<String, AllocError> {
    let mut rest = String::new(alloc);
    for byte in text.bytes().skip(count) {
        rest.push(char::from(byte))?;
    }
    Ok(rest)
}

/// How many bytes of the line of a verdict are before what it says: `PASS` or `FAIL`, and blanks.
const VERDICT: usize = 6;

/// Adds a sentence, which begins with a capital letter.
fn add_sentence(alloc: Global, text: &mut String, words: &str) -> Result<(), AllocError> {
    let mut sentence = String::new(alloc);
    let mut is_first = true;
    for byte in words.bytes() {
        let byte = if is_first {
            byte.to_ascii_uppercase()
        } else {
            byte
        };
        sentence.push(char::from(byte))?;
        is_first = false;
    }
    text.push_str("<p>")?;
    add_escaped(text, sentence.as_str())?;
    text.push_str(".</p>")
}

/// Adds the verdict, by a sign, a word and a colour, and the row that uses most of its limit.
fn add_verdict(
    alloc: Global,
    text: &mut String,
    case: Case<'_>,
    findings: &Findings,
    first: Option<(u32, Criterion)>,
    rows: &[RowText],
) -> Result<(), AllocError> {
    let line = verdict_line(alloc, case, findings, first)?;
    let said = behind(alloc, line.as_str(), VERDICT)?;
    text.push_str(if first.is_none() {
        "<div class=\"verdict pass\"><b>&#10003;&nbsp;PASS</b><div>"
    } else {
        "<div class=\"verdict fail\"><b>&#10007;&nbsp;FAIL</b><div>"
    })?;
    add_sentence(alloc, text, said.as_str())?;
    if let Some(row) = tightest(rows) {
        add_sentence(alloc, text, tightest_line(alloc, case, row)?.as_str())?;
    }
    text.push_str("</div></div>")
}

/// Adds at how many conditions each criterion fails, and in which runs.
fn add_fails(
    alloc: Global,
    text: &mut String,
    unmet: &Stretches,
    conditions: u32,
) -> Result<(), AllocError> {
    let mut between = "<p class=\"sub\" style=\"margin:6px 0 0\">";
    for mark in 0..12usize {
        let words = fails_words(alloc, unmet, conditions, mark)?;
        if !words.is_empty() {
            let code = criterion_at(mark).code();
            write!(text, "{between}{code} ")?;
            add_escaped(text, words.as_str())?;
            between = "; ";
        }
    }
    if between == "; " {
        text.push_str(".</p>")?;
    }
    Ok(())
}

/// Adds the charts along the ship, of the levers, and the table of frames.
fn add_along(
    alloc: Global,
    text: &mut String,
    lines: &Lines<'_>,
    of: &StepCharts<'_>,
) -> Result<(), AllocError> {
    let profile = lines.case.profile;
    let beside = of.series.beside();
    let reaches = &beside.reaches;
    let arrival = beside.arrival.as_ref();
    text.push_str("</div><h2>Along the ship, and her righting levers</h2><div class=\"charts\">")?;
    add_envelope(alloc, text, profile, reaches, arrival, Kind::Shear)?;
    add_envelope(alloc, text, profile, reaches, arrival, Kind::Bending)?;
    if let Some(row) = tightest_lever(of.rows) {
        add_lever_chart(alloc, text, lines, row.step)?;
    }
    add_frames(alloc, text, profile, reaches)
}

/// Adds all charts, where a condition lies within the ship's tables.
fn add_charts(
    alloc: Global,
    text: &mut String,
    lines: &Lines<'_>,
    of: &StepCharts<'_>,
) -> Result<(), AllocError> {
    text.push_str("<h2>Step by step")?;
    if !of.fails.is_empty() {
        text.push_str(" <span class=\"key\">red along the foot: conditions that fail</span>")?;
    }
    text.push_str("</h2><div class=\"charts\">")?;
    if of.series.beside().reaches.count > 0 {
        add_step_charts(alloc, text, of)?;
        add_along(alloc, text, lines, of)?;
    } else {
        text.push_str("<p>No condition lies within the ship's tables.</p>")?;
    }
    text.push_str("</div>")
}

/// Adds an input: what it is, its path, its reference and its digest.
fn add_input(
    alloc: Global,
    text: &mut String,
    what: &str,
    name: &str,
    reference: &str,
    digest: &str,
) -> Result<(), AllocError> {
    write!(text, "<dt>{what}</dt><dd>")?;
    add_escaped(text, shown_line(alloc, name.as_bytes())?.as_str())?;
    if !reference.is_empty() {
        text.push_str(", ")?;
        add_escaped(text, reference)?;
    }
    write!(text, "<br><code>sha256 {digest}</code></dd>")
}

/// Adds what was read.
fn add_inputs(alloc: Global, text: &mut String, read: &ReadInputs<'_>) -> Result<(), AllocError> {
    let (names, sources) = (read.names, read.sources);
    let (plan, moves) = (&sources.plan, &sources.moves);
    text.push_str("<h2>What was read</h2><dl>")?;
    let digest = sources.profile.as_str();
    add_input(alloc, text, "profile", names.folder, "", digest)?;
    let reference = plan.identity.reference.as_str();
    let digest = plan.digest.as_str();
    add_input(alloc, text, "bay plan", names.baplie, reference, digest)?;
    let reference = moves.identity.reference.as_str();
    let digest = moves.digest.as_str();
    add_input(alloc, text, "instruction", names.movins, reference, digest)?;
    if let (Some(name), Some(digest)) = (names.steps, &sources.steps) {
        add_input(alloc, text, "steps", name, "", digest.as_str())?;
    }
    write!(text, "<dt>by</dt><dd>{VERSION}</dd></dl>")
}

/// What is judged, and what isn't; what stands behind it depends on how many conditions there are.
const NOTES: &str = "<h2>How to read this page</h2><div class=\"notes\">\
    <p>C1 to C6 are the intact criteria of the 2008 IS Code, part A, 2.2; C7 to C11 the ship's own \
    limits; C0 says that a condition lies within the ship's tables. PASS says nothing else.</p>\
    <p>Never considered: weather criterion, damage stability, wind, waves, torsion, water of \
    another density than 1.025, lashing, stack weights, high cubes, visibility, dangerous \
    goods.</p>\
    <p>Everything is decided on exact fractions. In print a value and its limit are rounded to the \
    side that is worse for the value, and a margin down: it is negative exactly where the limit is \
    not kept.</p>\
    <p>Shear force is positive where the weight aft of the frame is greater than the buoyancy; x \
    runs forward from the after perpendicular. ";

/// Adds how the page is to be read.
fn add_notes(text: &mut String, conditions: u32) -> Result<(), AllocError> {
    text.push_str(NOTES)?;
    if conditions as usize <= WHOLE {
        text.push_str("Curves show every condition.")?;
    } else {
        write!(
            text,
            "Of {conditions} conditions the curves show, in each of {STRETCHES} stretches, "
        )?;
        text.push_str("the first, the last, the least and the greatest; the tables show all.")?;
    }
    text.push_str("</p></div>")
}

/// Adds what stands before the charts.
fn add_front(
    alloc: Global,
    text: &mut String,
    case: Case<'_>,
    of: &Conditions<'_>,
    identity: &str,
    rows: &[RowText],
) -> Result<(), AllocError> {
    add_head(alloc, text, identity, of.first)?;
    add_identity(text, identity)?;
    add_verdict(alloc, text, case, of.findings, of.first, rows)?;
    add_criteria(alloc, text, case, rows)?;
    add_fails(alloc, text, &of.findings.unmet, case.lines())
}

/// Adds what stands behind the charts, but for the script.
fn add_end(
    alloc: Global,
    text: &mut String,
    lines: &Lines<'_>,
    series: &Series,
    read: &ReadInputs<'_>,
) -> Result<(), AllocError> {
    let shares = series.beside().shares.as_slice();
    add_tightest(alloc, text, lines, shares)?;
    add_inputs(alloc, text, read)?;
    add_odd(text, read.notices)?;
    add_notes(text, lines.case.lines())
}

/// The page of a case. The text is the same for every number of workers, every gate and every cut.
pub fn page_of<G: Gate, R: Threads + Wait + Sync>(
    rt: &R,
    alloc: Global,
    gate: &G,
    workers: Workers,
    lines: &Lines<'_>,
    of: &Conditions<'_>,
    read: &ReadInputs<'_>,
) -> Result<String, AllocError> {
    let case = lines.case;
    let mut text = String::new(alloc);
    let rows = worst_rows(alloc, lines, of.findings)?;
    let rows = rows.as_slice();
    let identity = identity_of(alloc, read)?;
    add_front(alloc, &mut text, case, of, identity.as_str(), rows)?;
    let curves = curves_of(rt, alloc, gate, workers, of.series)?;
    let fails = failing_runs(alloc, &of.findings.unmet)?;
    let fails = drawn_runs(alloc, fails.as_slice(), case.lines() as usize)?;
    let charts = StepCharts {
        profile: case.profile,
        series: of.series,
        curves: &curves,
        rows,
        fails: fails.as_slice(),
        conditions: case.lines(),
    };
    add_charts(alloc, &mut text, lines, &charts)?;
    add_end(alloc, &mut text, lines, of.series, read)?;
    text.push_str("<div id=\"tip\" aria-hidden=\"true\"></div>")?;
    text.push_str("<script type=\"application/json\" id=\"rows\">")?;
    let kept = kept_of(alloc, of.series, &curves, of.first)?;
    let kept = kept.as_slice();
    add_rows(rt, alloc, gate, workers, &mut text, lines, of.series, kept)?;
    text.push_str("</script><script>")?;
    text.push_str(SCRIPT)?;
    text.push_str("</script></body></html>\n")?;
    Ok(text)
}
