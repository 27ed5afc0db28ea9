ghost use Rattle.std.specs.Prelude.{◌≡◌, ◌≤◌, ◌++◌, [], length, map, IfOk, OnOk, None};
ghost use Rattle.std.specs.Prelude.{option_map};
ghost use Rattle.std.specs.Option.{option_or};
ghost use Rattle.strength.specs.Hull.{IsHullOf};
ghost use Rattle.port_call.specs.Views.{case_in_view};
ghost use Rattle.seq_report.specs.Cases.{IsChunk, line_in, lines_in};
ghost use Rattle.seq_report.specs.Chunks.{part_of};
ghost use Rattle.seq_report.specs.Report.{failure_of, first_of, lift_to, line_of, statement_of};

use crate::deciding::failure_at;
use crate::lines::write_line;
use crate::step_lines::StepLine;
use crate::sums::walk_on;
use criteria::{Criterion, Nearby};
use decimal_text::{BackwardText, FourDigits};
use lift_sequence::Op;
use moment_sums::Totals;
use port_call::Case;
use ship_profile::Profile;
use std::alloc::{AllocError, Global};
use std::marker::Model;
use strength::{Hull, Strains};

/// The text of some lines, and the first of them that fails, with its first criterion.
#[derive(Debug, Drop)]
pub struct Section {
    text: String,
    first: Option<(u32, Criterion)>,
}

impl Model for Section {
    ghost use Rattle.std.specs.Prelude.{string_bytes};
    ghost use Rattle.seq_report.specs.Chunks.{Part};

    ghost Value = { Part };

    ghost view = { λ s. record { text = string_bytes s.text; first = s.first } };
}

impl Section {
    /// No line, with room for a text of `room` bytes.
    fn new(alloc: Global, room: usize) -> Result<Section, AllocError>
        ensures { IfOk result (λ s. s ≡ record { text = []; first = None }) }
    {
        Ok(Section {
            text: String::with_capacity(alloc, room)?,
            first: None,
        })
    }

    /// Adds the line of a step, with the lift that leads to it. The line is built in `end`.
    fn add(
        &mut self,
        end: &mut BackwardText<'_>,
        lift: Option<&Op>,
        line: &StepLine,
    ) -> Result<(), AllocError>
        ensures { OnOk result (self.new ≡ record {
          text = self.old.text
              ++ line_of (option_map (λ op. op.now) lift.entry) (statement_of line.now);
          first = option_or self.old.first (failure_of (statement_of line.now));
        }) }
    {
        write_line(&mut self.text, end, lift, line)?;
        self.first = self.first.or(line.failure());
        Ok(())
    }

    /// The text.
    pub fn text(&self) -> &str
        ensures { result.now ≡ self.now.text }
    {
        self.text.as_str()
    }

    /// The first line that fails, with its first criterion.
    pub fn first(&self) -> Option<(u32, Criterion)>
        ensures { result ≡ self.now.first }
    {
        self.first
    }
}

/// Lines of a report that follow each other, with what is aboard at the first of them, added up.
#[derive(Clone, Copy)]
pub struct Chunk {
    /// The first of the lines.
    pub start: u32,
    /// The line behind the last of them.
    pub end: u32,
    /// The sum at the first line.
    pub first: Totals,
}

/// About how many bytes a line of this ship's report has: reserving them saves copies, and a longer
/// text grows.
fn line_room(profile: &Profile) -> usize {
    100 + 24 * profile.frames().as_slice().len()
}

/// The step that leads to line `k`; none leads to line 0.
fn lift_to<'a>(case: Case<'a>, k: u32) -> Option<&'a Op>
    requires { k ≤ length case.sequence.now.ops }
    ensures { option_map (λ op. op.now) result ≡ lift_to case.entry.sequence.now.ops k }
{
    if k == 0 {
        return None;
    }
    Some(case.sequence.lift(k as usize))
}

/// The lines of a chunk, their numbers written by this table.
pub fn make_section(
    alloc: Global,
    case: Case<'_>,
    hull: &Hull,
    digits: &FourDigits,
    chunk: &Chunk,
) -> Result<Section, AllocError>
    requires of { IsHullOf hull.now case.profile.now.ship }
    requires chunk { IsChunk (case_in_view case) chunk.now }
    ensures { IfOk result
        (λ s. s ≡ part_of (map (line_in (case_in_view case.entry)) (lines_in chunk.now))) }
{
    let lines = chunk.end.saturating_sub(chunk.start) as usize;
    let mut section = Section::new(alloc, lines.saturating_mul(line_room(case.profile)))?;
    let mut sum = chunk.first;
    let mut near = Nearby::default();
    let mut end = BackwardText::new(digits);
    let mut line = StepLine::new();
    for k in chunk.start..chunk.end {
        line.judge(case.profile, hull, k, &sum, &mut near);
        section.add(&mut end, lift_to(case, k), &line)?;
        walk_on(case, k, &mut sum);
    }
    Ok(section)
}

/// The first line of a chunk that fails, with its first criterion.
pub fn first_failing(case: Case<'_>, hull: &Hull, chunk: &Chunk) -> Option<(u32, Criterion)>
    requires of { IsHullOf hull.now case.profile.now.ship }
    requires chunk { IsChunk (case_in_view case) chunk.now }
    ensures { result ≡ first_of (map (line_in (case_in_view case.entry)) (lines_in chunk.now)) }
{
    let mut sum = chunk.first;
    let mut near = Nearby::default();
    let mut strains = Strains::default();
    for k in chunk.start..chunk.end {
        let failure = failure_at(case.profile, hull, k, &sum, &mut near, &mut strains);
        if failure.is_some() {
            return failure;
        }
        walk_on(case, k, &mut sum);
    }
    None
}
