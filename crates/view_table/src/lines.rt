//! The lines of a table.
ghost use Rattle.std.specs.Prelude.{◌≡◌, ◌++◌, OnOk, IfOk, map, string_bytes};
ghost use Rattle.port_call.specs.Views.{case_in_view};
ghost use Rattle.seq_report.specs.Cases.{IsChunk, line_in, lines_in};
ghost use Rattle.strength.specs.Hull.{IsHullOf};
ghost use Rattle.view_table.specs.Tables.{HasLine, IsPart, start, statement_by};

use crate::figures::add_told;
use crate::forms::Form;
use crate::judged::Judged;
use crate::steps::{Source, add_others, add_step};
use criteria::{Criterion, Nearby};
use decimal_text::BackwardText;
use port_call::Case;
use seq_report::{Chunk, walk_on};
use std::alloc::{AllocError, Global};
use std::fmt::Write;
use strength::Hull;

/// Adds the beginning of line `k`, which says its number.
fn add_start(text: &mut String, form: Form, k: u32) -> Result<(), AllocError>
    ensures { OnOk result (string_bytes text.new ≡ string_bytes text.old ++ start form k) }
{
    match form {
        Form::Csv => write!(text, "{k},"),
        Form::Jsonl => write!(text, "{{\"type\":\"condition\",\"step\":{k},"),
    }
}

/// Where a line is put together: the words of a step, and what is told of a condition. They are
/// used again for each line.
#[derive(Drop)]
struct Scratch<'a> {
    words: String,
    end: BackwardText<'a>,
}

/// Adds line `k`, whose condition is judged so.
fn add_line(
    text: &mut String,
    scratch: &mut Scratch<'_>,
    source: &Source,
    case: Case<'_>,
    k: u32,
    judged: &Judged,
) -> Result<(), AllocError>
    ensures { OnOk result (HasLine source.now.form (statement_by k judged.now)
        (string_bytes text.old) (string_bytes text.new)) }
{
    add_start(text, source.form, k)?;
    scratch.words.clear();
    add_step(&mut scratch.words, source, case, k)?;
    text.push_str(scratch.words.as_str())?;
    add_told(text, &mut scratch.end, source.form, judged)?;
    scratch.words.clear();
    add_others(&mut scratch.words, source.form, judged)?;
    text.push_str(scratch.words.as_str())?;
    Ok(())
}

/// The lines of a chunk, and the first of them that fails.
#[derive(Drop)]
pub struct Part {
    pub text: String,
    pub first: Option<(u32, Criterion)>,
}

/// How many bytes a line is about.
const LINE: usize = 700;

/// The lines of a chunk.
pub fn part_of(
    alloc: Global,
    source: &Source,
    case: Case<'_>,
    hull: &Hull,
    chunk: &Chunk,
) -> Result<Part, AllocError>
    requires of { IsHullOf hull.now case.profile.now.ship }
    requires chunk { IsChunk (case_in_view case) chunk.now }
    ensures { IfOk result (λ p. IsPart source.now.form
        (map (line_in (case_in_view case.entry)) (lines_in chunk.now))
        (string_bytes p.text) p.first) }
{
    let lines = (chunk.end - chunk.start) as usize;
    let mut text = String::with_capacity(alloc, lines.saturating_mul(LINE))?;
    let mut first = None;
    let mut sum = chunk.first;
    let mut near = Nearby::default();
    let mut judged = Judged::new();
    let mut scratch = Scratch {
        words: String::new(alloc),
        end: BackwardText::new(&source.digits),
    };
    for k in chunk.start..chunk.end {
        judged.judge(case, hull, &sum, &mut near);
        add_line(&mut text, &mut scratch, source, case, k, &judged)?;
        first = first.or(judged.failure(k));
        walk_on(case, k, &mut sum);
    }
    Ok(Part { text, first })
}
