//! One screen to accept a plan by.
use crate::rows::{NO_LEAST_GM, RowText, add_worst_row, outside_row, row_text, tightest};
use crate::sources::Sources;
use crate::steps::lift_at;
use crate::unmet::{failing_lines, first_with, lines_with, runs_with};
use criteria::Criterion;
use hydrostat::Outside;
use lift_sequence::Op;
use plain_text::{add_line, add_wrapped, front, in_thousandths, many, path};
use port_call::Case;
use seq_report::{Lines, cause_word};
use std::alloc::{AllocError, Global};
use stow_messages::Lift;
use view_figures::{Condition, condition_at};
use view_inputs::{Names, Notice, add_notices, identity_line};
use worst_values::{Findings, Stretches, criterion_at};

/// The program and the version of its texts.
pub const VERSION: &str = "loadview 1.0";

/// The heading of the table of all conditions.
const HEADING: &str = "    CRITERION            WORST    LIMIT   MARGIN  USED    STEP LIFT";

/// What is odd of the inputs: how many warnings there are on the profile, and what was read
/// otherwise than meant.
#[derive(Clone, Copy)]
pub struct Odd<'a> {
    pub warnings: u32,
    pub notices: &'a [Notice],
}

/// What is judged, and what isn't.
const JUDGED: &str =
    "Judged: C1-C6 by the 2008 IS Code, part A, 2.2; C7-C11 by the ship's own limits.
Not considered: weather criterion, damage stability, wind, waves, torsion, other
water than 1.025, lashing, stack weights, visibility, dangerous goods.
This is no approved stability instrument.
";

/// The causes in their order, each with its mark.
const CAUSES: [(Outside, usize); 5] = [
    (Outside::Hydro, 12),
    (Outside::Levers, 13),
    (Outside::Bonjean, 14),
    (Outside::Closing, 15),
    (Outside::GmLimit, 16),
];

/// The cause for which a line is outside of the tables.
fn cause_at(findings: &Findings, line: u32) -> Outside {
    for (cause, mark) in CAUSES {
        if first_with(&findings.unmet, mark) == Some(line) {
            return cause;
        }
    }
    Outside::Hydro
}

/// The rows of the table: each limit at its worst; first of all the first condition that lies
/// outside of the tables, if there is one, in place of the closing error.
pub fn worst_rows(
    alloc: Global,
    lines: &Lines<'_>,
    findings: &Findings,
) -> Result<Vec<RowText>, AllocError> {
    let mut rows = Vec::new(alloc);
    let mut is_outside = false;
    for (_, mark) in CAUSES {
        is_outside = is_outside || lines_with(&findings.unmet, mark) > 0;
    }
    if is_outside {
        if let Some(line) = first_outside(&findings.unmet) {
            rows.push(outside_row(alloc, cause_at(findings, line), line)?)?;
        }
    }
    for row in 0..14usize {
        let Some(value) = findings.rows.get(row) else {
            continue;
        };
        if row == 0 && is_outside {
            continue;
        }
        if let Some(told) = row_at(lines, value.step, row) {
            rows.push(row_text(alloc, &told, value.step)?)?;
        }
    }
    Ok(rows)
}

/// The first line that lies outside of the tables.
fn first_outside(unmet: &Stretches) -> Option<u32> {
    let mut first: Option<u32> = None;
    for (_, mark) in CAUSES {
        if let Some(line) = first_with(unmet, mark) {
            first = Some(match first {
                Some(other) => other.min(line),
                None => line,
            });
        }
    }
    first
}

/// A row of the condition of a step.
fn row_at(lines: &Lines<'_>, step: u32, row: usize) -> Option<view_figures::Row> {
    let condition = condition_at(lines, step)?;
    match &condition.told {
        Ok(inside) => *inside.rows.get(row)?,
        Err(_) => None,
    }
}

/// The step of a condition in words: `on arrival`, `step 11 D0220582`.
fn at_step(alloc: Global, case: Case<'_>, step: u32, arrival: &str) -> Result<String, AllocError> {
    if step == 0 {
        return String::from_str(alloc, arrival);
    }
    let lift = lift_at(alloc, case, step)?;
    Ok(format!(in alloc; "step {step} {lift}")?)
}

/// The line that says whether all conditions pass.
pub fn verdict_line(
    alloc: Global,
    case: Case<'_>,
    findings: &Findings,
    first: Option<(u32, Criterion)>,
) -> Result<String, AllocError> {
    let conditions = many(alloc, case.lines(), "condition")?;
    let Some((line, criterion)) = first else {
        let (last, rest) = if case.profile.least_gm().is_some() {
            (11, "")
        } else {
            (10, "; C11 is not judged: no gm.csv")
        };
        return Ok(format!(in alloc; "PASS  all {conditions} meet C0 to C{last}{rest}")?);
    };
    let failing = failing_lines(&findings.unmet);
    let at = at_step(alloc, case, line, "the arrival")?;
    let code = criterion.code();
    let text = format!(in alloc;
        "FAIL  {failing} of {conditions}; the first is {at}, criterion {code}"
    )?;
    Ok(text)
}

/// The line of the row that uses most of its limit.
pub fn tightest_line(alloc: Global, case: Case<'_>, row: &RowText) -> Result<String, AllocError> {
    let code = row.criterion.code();
    let name = row.name.as_str();
    let at = at_step(alloc, case, row.step, "on arrival")?;
    if row.share.is_none() {
        return Ok(format!(in alloc; "Worst of all: {code} {name}, {at}")?);
    }
    let value = row.value.as_str();
    let unit = row.unit;
    let limit = row.limit.as_str();
    let used = row.used.as_str();
    let text = format!(in alloc;
        "Tightest: {code} {name} {value} {unit} of {limit} ({used}), {at}"
    )?;
    Ok(text)
}

/// Adds the lines of an input: its path and its reference, and its digest.
fn add_input(
    alloc: Global,
    text: &mut String,
    word: &str,
    name: &str,
    reference: &str,
    digest: &str,
) -> Result<(), AllocError> {
    let reference = front(alloc, reference, 14)?;
    let most = if reference.is_empty() { 66 } else { 50 };
    let path = path(alloc, name, most)?;
    write!(text, "{word:<12}{path}")?;
    if !reference.is_empty() {
        write!(text, "  {reference}")?;
    }
    write!(text, "\n  sha256    {digest}\n")
}

/// Adds what was read.
fn add_sources(
    alloc: Global,
    text: &mut String,
    names: &Names<'_>,
    sources: &Sources,
    warnings: u32,
) -> Result<(), AllocError> {
    write!(text, "\nREAD BY {VERSION}\n")?;
    let warned = match warnings {
        0 => String::from_str(alloc, "no warning")?,
        _ => many(alloc, warnings, "warning")?,
    };
    add_input(
        alloc,
        text,
        "profile",
        names.folder,
        warned.as_str(),
        sources.profile.as_str(),
    )?;
    let plan = &sources.plan;
    let reference = plan.identity.reference.as_str();
    add_input(
        alloc,
        text,
        "bay plan",
        names.baplie,
        reference,
        plan.digest.as_str(),
    )?;
    let moves = &sources.moves;
    let reference = moves.identity.reference.as_str();
    add_input(
        alloc,
        text,
        "instruction",
        names.movins,
        reference,
        moves.digest.as_str(),
    )?;
    match (names.steps, &sources.steps) {
        (Some(name), Some(digest)) => add_input(alloc, text, "steps", name, "", digest.as_str()),
        _ => text.push_str("steps       none given: in the order of the instruction\n"),
    }
}

/// What is aboard of a kind, in kg.
#[derive(Clone, Copy)]
struct Moves {
    discharges: u32,
    discharged: i128,
    loads: u32,
    loaded: i128,
    restows: u32,
    fills: u32,
}

/// What the steps do.
fn moves_of(case: Case<'_>) -> Moves {
    let mut moves = Moves {
        discharges: 0,
        discharged: 0,
        loads: 0,
        loaded: 0,
        restows: 0,
        fills: 0,
    };
    for step in 0..case.sequence.len() {
        let number = step + 1;
        match case.sequence.lift(number) {
            Op::Lift(Lift::Load(item)) => {
                moves.loads = moves.loads.saturating_add(1);
                moves.loaded = moves.loaded.saturating_add(i128::from(item.kg.get()));
            }
            Op::Lift(Lift::Discharge { .. }) => {
                moves.discharges = moves.discharges.saturating_add(1);
                if let Some(body) = case.sequence.step(number).out {
                    moves.discharged = moves.discharged.saturating_add(i128::from(body.kg()));
                }
            }
            Op::Restow { .. } => moves.restows = moves.restows.saturating_add(1),
            Op::Fill { .. } => moves.fills = moves.fills.saturating_add(1),
        }
    }
    moves
}

/// The mass of the containers on arrival, in kg.
fn container_mass(case: Case<'_>) -> i128 {
    let mut kg = 0i128;
    for item in case.arrival.items() {
        kg = kg.saturating_add(i128::from(item.kg.get()));
    }
    kg
}

/// The mass of the light ship, in kg.
fn light_mass(case: Case<'_>) -> i128 {
    let mut kg = 0i128;
    for block in case.profile.blocks() {
        kg = kg.saturating_add(i128::from(block.kg()));
    }
    kg
}

/// Adds a line of what is aboard, on arrival and at the end.
fn add_aboard_line(
    text: &mut String,
    name: &str,
    arrival: &str,
    end: &str,
    unit: &str,
) -> Result<(), AllocError> {
    write!(text, "{name:<22}{arrival:>14}{end:>14}")?;
    if !unit.is_empty() {
        write!(text, "  {unit}")?;
    }
    text.push_str("\n")
}

/// Adds such a line of two masses in kg.
fn add_masses(
    alloc: Global,
    text: &mut String,
    name: &str,
    arrival: i128,
    end: i128,
) -> Result<(), AllocError> {
    let arrival = in_thousandths(alloc, arrival)?;
    let end = in_thousandths(alloc, end)?;
    add_aboard_line(text, name, arrival.as_str(), end.as_str(), "t")
}

/// What is told of how the ship floats.
#[derive(Clone, Copy)]
enum Floats {
    Gm,
    Aft,
    Fwd,
}

/// A figure of a condition, a dash where there is none.
fn floating_text(alloc: Global, condition: &Condition, what: Floats) -> Result<String, AllocError> {
    match &condition.told {
        Ok(inside) => in_thousandths(
            alloc,
            match what {
                Floats::Gm => inside.floating.gm,
                Floats::Aft => inside.floating.aft,
                Floats::Fwd => inside.floating.fwd,
            },
        ),
        Err(_) => String::from_str(alloc, "-"),
    }
}

/// Adds the line of such a figure.
fn add_floating(
    alloc: Global,
    text: &mut String,
    name: &str,
    arrival: &Condition,
    end: &Condition,
    what: Floats,
) -> Result<(), AllocError> {
    let arrival = floating_text(alloc, arrival, what)?;
    let end = floating_text(alloc, end, what)?;
    add_aboard_line(text, name, arrival.as_str(), end.as_str(), "m")
}

/// Adds what is aboard, on arrival and at the end, and what the steps do.
fn add_aboard(
    alloc: Global,
    text: &mut String,
    case: Case<'_>,
    arrival: &Condition,
    end: &Condition,
) -> Result<(), AllocError> {
    let moves = moves_of(case);
    let there = case.arrival.items().len();
    let left = there
        .saturating_add(moves.loads as usize)
        .saturating_sub(moves.discharges as usize);
    let mass = container_mass(case);
    let left_mass = mass
        .saturating_add(moves.loaded)
        .saturating_sub(moves.discharged);
    let light = light_mass(case);
    let tanks = arrival.kg.saturating_sub(mass).saturating_sub(light);
    let left_tanks = end.kg.saturating_sub(left_mass).saturating_sub(light);
    text.push_str("\n")?;
    add_aboard_line(text, "ABOARD", "ARRIVAL", "END", "")?;
    let there = format!(in alloc; "{there}")?;
    let left = format!(in alloc; "{left}")?;
    add_aboard_line(text, "containers", there.as_str(), left.as_str(), "")?;
    add_masses(alloc, text, "  their mass", mass, left_mass)?;
    add_masses(alloc, text, "tanks", tanks, left_tanks)?;
    add_masses(alloc, text, "light ship", light, light)?;
    add_masses(alloc, text, "displacement", arrival.kg, end.kg)?;
    add_floating(alloc, text, "GM", arrival, end, Floats::Gm)?;
    add_floating(alloc, text, "draught aft", arrival, end, Floats::Aft)?;
    add_floating(alloc, text, "draught fwd", arrival, end, Floats::Fwd)?;
    add_steps(alloc, text, moves)
}

/// Adds what the steps do.
fn add_steps(alloc: Global, text: &mut String, moves: Moves) -> Result<(), AllocError> {
    let discharges = moves.discharges;
    let loads = moves.loads;
    let discharged = in_thousandths(alloc, moves.discharged)?;
    let loaded = in_thousandths(alloc, moves.loaded)?;
    let restows = many(alloc, moves.restows, "restow")?;
    let fills = many(alloc, moves.fills, "fill")?;
    let line = format!(in alloc;
        "STEPS  {discharges} discharged {discharged} t, {loads} loaded {loaded} t, {restows}, {fills}"
    )?;
    add_wrapped(text, line.as_str(), 7)
}

/// How many conditions are outside for each cause, in brackets.
fn cause_counts(alloc: Global, unmet: &Stretches) -> Result<String, AllocError> {
    let mut text = String::new(alloc);
    for (cause, mark) in CAUSES {
        let count = lines_with(unmet, mark);
        if count > 0 {
            let word = cause_word(cause);
            let between = if text.is_empty() { " (" } else { ", " };
            write!(text, "{between}{word} {count}")?;
        }
    }
    if !text.is_empty() {
        text.push_str(")")?;
    }
    Ok(text)
}

/// Where a criterion, by its mark, fails: `fails at 18 of 81: 11 to 28`; empty where it fails
/// nowhere.
pub fn fails_words(
    alloc: Global,
    unmet: &Stretches,
    conditions: u32,
    mark: usize,
) -> Result<String, AllocError> {
    let mut text = String::new(alloc);
    let count = lines_with(unmet, mark);
    if count > 0 {
        let runs = runs_with(alloc, unmet, mark)?;
        write!(text, "fails at {count} of {conditions}: {runs}")?;
        if mark == 0 {
            text.push_str(cause_counts(alloc, unmet)?.as_str())?;
        }
    }
    Ok(text)
}

/// Adds where each criterion fails.
fn add_fails(
    alloc: Global,
    text: &mut String,
    unmet: &Stretches,
    conditions: u32,
) -> Result<(), AllocError> {
    for mark in 0..12usize {
        let words = fails_words(alloc, unmet, conditions, mark)?;
        if !words.is_empty() {
            let code = criterion_at(mark).code();
            write!(text, "{code:<3} {words}\n")?;
        }
    }
    let outside = lines_with(unmet, 0);
    if outside > 0 {
        let within = conditions.saturating_sub(outside);
        write!(
            text,
            "C1 to C11 are told of the {within} conditions that lie within her tables.\n"
        )?;
    }
    Ok(())
}

/// Adds the table of all conditions of a case: each limit at its worst.
pub fn add_worst_table(
    alloc: Global,
    text: &mut String,
    case: Case<'_>,
    rows: &[RowText],
) -> Result<(), AllocError> {
    add_line(text, HEADING)?;
    for row in rows {
        let lift = lift_at(alloc, case, row.step)?;
        add_worst_row(alloc, text, row, lift.as_str())?;
    }
    if case.profile.least_gm().is_none() {
        add_line(text, NO_LEAST_GM)?;
    }
    Ok(())
}

/// Adds the table of all conditions, and where each criterion fails.
fn add_table(
    alloc: Global,
    text: &mut String,
    case: Case<'_>,
    rows: &[RowText],
    unmet: &Stretches,
) -> Result<(), AllocError> {
    text.push_str("\n")?;
    add_worst_table(alloc, text, case, rows)?;
    add_fails(alloc, text, unmet, case.lines())
}

/// Adds what was read otherwise than meant, or not at all.
fn add_odd(alloc: Global, text: &mut String, notices: &[Notice]) -> Result<(), AllocError> {
    if notices.is_empty() {
        return text.push_str("NOT READ, OR ODD: nothing\n");
    }
    text.push_str("NOT READ, OR ODD (loadview never changes what is judged)\n")?;
    add_notices(alloc, text, notices)
}

/// The summary of a case but for its last line, which is the report's; `first` is the first
/// condition that fails, with its first criterion.
pub fn summary_front(
    alloc: Global,
    lines: &Lines<'_>,
    findings: &Findings,
    first: Option<(u32, Criterion)>,
    names: &Names<'_>,
    sources: &Sources,
    odd: Odd<'_>,
) -> Result<String, AllocError> {
    let case = lines.case;
    let mut text = String::new(alloc);
    let (plan, moves) = (&sources.plan.identity, &sources.moves.identity);
    let identity = identity_line(alloc, plan, moves, sources.name.as_str())?;
    add_wrapped(&mut text, identity.as_str(), 2)?;
    add_wrapped(
        &mut text,
        verdict_line(alloc, case, findings, first)?.as_str(),
        6,
    )?;
    let rows = worst_rows(alloc, lines, findings)?;
    if let Some(row) = tightest(rows.as_slice()) {
        add_wrapped(&mut text, tightest_line(alloc, case, row)?.as_str(), 6)?;
    }
    add_sources(alloc, &mut text, names, sources, odd.warnings)?;
    let last = case.lines().saturating_sub(1);
    if let (Some(arrival), Some(end)) = (condition_at(lines, 0), condition_at(lines, last)) {
        add_aboard(alloc, &mut text, case, &arrival, &end)?;
    }
    add_odd(alloc, &mut text, odd.notices)?;
    add_table(alloc, &mut text, case, rows.as_slice(), &findings.unmet)?;
    text.push_str("\n")?;
    text.push_str(JUDGED)?;
    Ok(text)
}
