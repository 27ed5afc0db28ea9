ghost use Rattle.std.specs.Prelude.{◌≡◌, ◌+◌, ◌++◌, ◌≤◌, OnOk, codes, length, string_bytes};
ghost use Rattle.std.specs.Prelude.{option_map};
ghost use Rattle.moment_sums.specs.Bounded.{IsBounded};
ghost use Rattle.moment_sums.specs.Kept.{values};
ghost use Rattle.strength.specs.Hull.{IsHullOf};
ghost use Rattle.criteria.specs.Criteria.{code_of};
ghost use Rattle.criteria.specs.Judgement.{judgement_by};
ghost use Rattle.seq_report.specs.Report.{cause_of, failure_of, first_failed, header_of};
ghost use Rattle.seq_report.specs.Report.{judged_headings, judged_text, last_line, line_of};
ghost use Rattle.seq_report.specs.Report.{statement_of, step_line, verdict_text};

use crate::causes::cause_word;
use crate::columns::{put_figures, write_headings};
use crate::lifts::put_lift;
use crate::step_lines::StepLine;
use criteria::{Criterion, Nearby, RoundedFigures, judge_into};
use decimal_text::BackwardText;
use hydrostat::Outside;
use lift_sequence::Op;
use moment_sums::Totals;
use ship_profile::Profile;
use std::alloc::AllocError;
use std::fmt::Write;
use strength::Hull;

impl StepLine {
    /// A line that says nothing of a step yet.
    pub fn new() -> StepLine {
        StepLine {
            step: 0,
            kg: 0,
            frames: 1,
            judged: Ok(None),
            figures: RoundedFigures::default(),
        }
    }

    /// Makes it the line of a step at which everything aboard adds up to this. Figures are written
    /// where they are, since a move of them is a copy of 700 bytes.
    pub fn judge(
        &mut self,
        profile: &Profile,
        hull: &Hull,
        step: u32,
        sum: &Totals,
        near: &mut Nearby,
    )
        requires of { IsHullOf hull.now profile.now.ship }
        requires bounded { IsBounded (values sum.now) }
        ensures { statement_of self.new ≡ step_line profile.now step (values sum.now) }
    {
        self.step = step;
        self.kg = sum.kg();
        self.frames = profile.frames().as_slice().len();
        self.judged = judge_into(profile, hull, sum, near, &mut self.figures);
    }

    /// The step, where it fails, with its first criterion.
    pub fn failure(&self) -> Option<(u32, Criterion)>
        ensures { result ≡ failure_of (statement_of self.now) }
    {
        let criterion = first_failed(self)?;
        Some((self.step, criterion))
    }
}

/// The first criterion that a step fails, which is C0 outside of the tables.
fn first_failed(line: &StepLine) -> Option<Criterion>
    ensures { result ≡ first_failed (judgement_by line.now.judged line.now.figures) }
{
    match line.judged {
        Err(_) => Some(Criterion::C0),
        Ok(Some(criterion)) => Some(criterion),
        Ok(None) => None,
    }
}

/// Writes the headings of the figures and of the verdict, and the end of the line.
fn write_judged_headings(text: &mut String) -> Result<(), AllocError>
    ensures { OnOk result (string_bytes text.new ≡ string_bytes text.old ++ judged_headings) }
{
    write_headings(text)?;
    text.push_str(" FRAMES VERDICT\n")
}

/// Writes the heading of the report.
pub fn write_header(text: &mut String) -> Result<(), AllocError>
    ensures { OnOk result (string_bytes text.new ≡ string_bytes text.old ++ header_of) }
{
    text.push_str("STEP LIFT KG")?;
    write_judged_headings(text)
}

/// Writes the criterion that fails, behind the word for it, before the end of a line.
fn put_failure(end: &mut BackwardText<'_>, criterion: Criterion)
    requires room { length end.old + 9 ≤ 2048 }
    ensures text { end.new ≡ (codes " FAIL " ++ code_of criterion) ++ end.old }
    ensures short { length end.new ≤ length end.old + 9 }
{
    end.put_words(criterion.code());
    end.put_words(" FAIL ");
}

/// Writes the table outside of which a condition lies, behind the word for it, before the end of a
/// line.
fn put_outside(end: &mut BackwardText<'_>, outside: Outside)
    requires room { length end.old + 16 ≤ 2048 }
    ensures text { end.new ≡ (codes " OUTSIDE " ++ cause_of outside) ++ end.old }
    ensures short { length end.new ≤ length end.old + 16 }
{
    end.put_words(cause_word(outside));
    end.put_words(" OUTSIDE ");
}

/// Writes how a step is judged before the end of its line: its figures and the verdict, or what
/// lies outside of the tables.
fn put_verdict(end: &mut BackwardText<'_>, line: &StepLine)
    requires room { length end.old + 1813 ≤ 2048 }
    ensures text { end.new ≡ verdict_text line.now.frames
        (judgement_by line.now.judged line.now.figures) ++ end.old }
    ensures short { length end.new ≤ length end.old + 1813 }
{
    match line.judged {
        Err(outside) => put_outside(end, outside),
        Ok(Some(criterion)) => {
            put_failure(end, criterion);
            put_figures(end, &line.figures, line.frames);
        }
        Ok(None) => {
            end.put_words(" PASS");
            put_figures(end, &line.figures, line.frames);
        }
    }
}

/// Writes the displacement, how the condition is judged, and the end of the line at the end of a
/// text.
fn put_judged(end: &mut BackwardText<'_>, line: &StepLine)
    requires room { length end.old + 1855 ≤ 2048 }
    ensures text { end.new ≡ judged_text (statement_of line.now) ++ end.old }
    ensures short { length end.new ≤ length end.old + 1855 }
{
    end.put_byte(b'\n');
    put_verdict(end, line);
    end.put_parted(b' ', line.kg);
}

/// Writes the line of a step, with the lift that leads to it, to `end`, in place of what `end` held
/// before.
fn put_line(end: &mut BackwardText<'_>, lift: Option<&Op>, line: &StepLine)
    ensures { end.new ≡ line_of (option_map (λ op. op.now) lift.entry) (statement_of line.now) }
{
    end.clear();
    put_judged(end, line);
    put_lift(end, lift);
    end.put_byte(b' ');
    end.put_natural(u64::from(line.step));
}

/// Writes the line of a step, with the lift that leads to it. The line is built in `end`, whatever
/// that held before.
pub fn write_line(
    text: &mut String,
    end: &mut BackwardText<'_>,
    lift: Option<&Op>,
    line: &StepLine,
) -> Result<(), AllocError>
    ensures { OnOk result (string_bytes text.new
        ≡ string_bytes text.old
        ++ line_of (option_map (λ op. op.now) lift.entry) (statement_of line.now)) }
{
    put_line(end, lift, line);
    end.append_to(text)
}

/// Writes the last line: the first step that fails, with its criterion, where one does.
pub fn write_last_line(text: &mut String, first: Option<(u32, Criterion)>) -> Result<(), AllocError>
    ensures { OnOk result (string_bytes text.new ≡ string_bytes text.old ++ last_line first) }
{
    match first {
        None => text.push_str("ALL PASS\n"),
        Some((step, criterion)) => {
            let code = criterion.code();
            writeln!(text, "FIRST FAIL {step} {code}")
        }
    }
}
