//! The answers of a session, in words.
use criteria::Criterion;
use plain_text::{add_wrapped, count_of, front, many, shown_line};
use seq_report::write_last_line;
use std::alloc::{AllocError, Global};
use view_inputs::identity_line;
use view_texts::{RowText, Sources, changes, tightest};

/// What can be ordered.
pub const HELP: &str = "\
swap A B                 exchange two steps
move FROM TO             take a step out, and put it where it has the number TO
remove AT                take a step out
insert AT L CELL KG ID   a load becomes step AT (- is an empty identification)
insert AT D CELL ID      a discharge; with - of whatever stands there
insert AT T NAME KG      from then on the tank holds this mass
insert AT R FROM TO ID   a restow
reweigh AT KG            the container that step AT loads has another mass
undo                     takes the last edit back, up to 64
show K                   the condition after step K, 0 on arrival
list A B                 the steps from A to B
worst                    each criterion at its worst
save FILE                writes the edits for `loadseq whatif`; FILE may not be there
publish                  keeps the list; open N goes back to it
help, quit
";

/// How much of a line of no form is shown.
const SHOWN: usize = 40;

/// The last line of the report on a list, without its end.
pub fn last_text(alloc: Global, first: Option<(u32, Criterion)>) -> Result<String, AllocError> {
    let mut line = String::new(alloc);
    write_last_line(&mut line, first)?;
    String::from_str(alloc, line.trim_end())
}

/// How many steps a list has, and the last line of its report.
pub fn list_text(
    alloc: Global,
    steps: usize,
    first: Option<(u32, Criterion)>,
) -> Result<String, AllocError> {
    let steps = many(alloc, count_of(steps), "step")?;
    let last = last_text(alloc, first)?;
    Ok(format!(in alloc; "{steps}, {last}")?)
}

/// What is told first: what the inputs are, and how it stands with the list that they order.
pub fn opening(
    alloc: Global,
    sources: &Sources,
    steps: usize,
    rows: &[RowText],
    first: Option<(u32, Criterion)>,
) -> Result<String, AllocError> {
    let (plan, moves) = (&sources.plan.identity, &sources.moves.identity);
    let identity = identity_line(alloc, plan, moves, sources.name.as_str())?;
    let mut text = String::new(alloc);
    add_wrapped(&mut text, identity.as_str(), 2)?;
    let list = list_text(alloc, steps, first)?;
    write!(text, "{list}\n")?;
    if let Some(row) = tightest(rows) {
        let code = row.criterion.code();
        let name = row.name.as_str();
        let used = if row.used.as_str() == "-" {
            row.value.as_str()
        } else {
            row.used.as_str()
        };
        let step = row.step;
        write!(text, "tightest {code} {name} {used} at {step}\n")?;
    }
    Ok(text)
}

/// What became of an edit: its number, its code and its line, and what there is to say.
pub fn edit_text(
    alloc: Global,
    number: u64,
    code: &str,
    line: &[u8],
    words: &str,
) -> Result<String, AllocError> {
    let line = shown_line(alloc, line)?;
    let words = format!(in alloc; "EDIT {number} {code}  {line}: {words}")?;
    let mut text = String::new(alloc);
    add_wrapped(&mut text, words.as_str(), 2)?;
    Ok(text)
}

/// What an edit that was made changes: the last line of the report, and the limits.
pub fn made_text(
    alloc: Global,
    number: u64,
    line: &[u8],
    before: (&[RowText], Option<(u32, Criterion)>),
    after: (&[RowText], Option<(u32, Criterion)>),
) -> Result<String, AllocError> {
    let old = last_text(alloc, before.1)?;
    let new = last_text(alloc, after.1)?;
    let words = format!(in alloc; "{old} -> {new}")?;
    let mut text = edit_text(alloc, number, "OK", line, words.as_str())?;
    let changed = changes(alloc, before.0, after.0)?;
    if !changed.is_empty() {
        let words = format!(in alloc; "  {changed}")?;
        add_wrapped(&mut text, words.as_str(), 2)?;
    }
    Ok(text)
}

/// That a line is of no form.
pub fn unknown_text(alloc: Global, line: &[u8]) -> Result<String, AllocError> {
    let shown = shown_line(alloc, line)?;
    let shown = front(alloc, shown.as_str(), SHOWN)?;
    Ok(format!(in alloc; "NO FORM  \"{shown}\"; help lists the forms\n")?)
}

/// That a list has no such condition.
pub fn no_condition(alloc: Global, step: u64, steps: usize) -> Result<String, AllocError> {
    let text = format!(in alloc; "there is no condition {step}; the list has 0 to {steps}\n")?;
    Ok(text)
}

/// That a list has none of these conditions.
pub fn no_conditions(
    alloc: Global,
    from: u64,
    to: u64,
    steps: usize,
) -> Result<String, AllocError> {
    let text = format!(in alloc;
        "there is no condition from {from} to {to}; the list has 0 to {steps}\n"
    )?;
    Ok(text)
}
