ghost use Rattle.std.specs.Prelude.{◌≡◌, ℕ, ◌+◌, ◌++◌, ◌<◌, ◌≤◌, true, false, IfOk, IfErr, IfSome};
ghost use Rattle.std.specs.Prelude.{OnOk, is_err, length, take};
ghost use Rattle.std.specs.Io.KnownBytes.{Appends};
ghost use Rattle.seq_report.specs.Chunks.{first_in, text_in};
ghost use Rattle.seq_report.specs.Report.{header_of, last_line};

use crate::lines::{write_header, write_last_line};
use crate::sections::Section;
use crate::sink::{Sink, put_part};
use criteria::Criterion;
use std::alloc::{AllocError, Global};
use std::marker::Model;

/// A report in short: how many steps it has lines of, and the first step that fails, with its first
/// criterion.
#[derive(Clone, Copy, Debug, PartialEq, Eq)]
pub struct Summary {
    /// The condition on arrival, and each step behind it.
    pub lines: u32,
    /// The number of the first step that fails, 0 for the condition on arrival, and its first
    /// criterion; `None` where all steps pass.
    pub first: Option<(u32, Criterion)>,
}

/// A report that is made and not yet written. Its text stays in its parts, since a text of all
/// lines would take as much memory again.
#[derive(Debug, Drop)]
pub struct CompleteReport {
    heading: String,
    sections: Vec<Section>,
    last: String,
    summary: Summary,
}

impl Model for CompleteReport {
    ghost use Rattle.std.specs.Prelude.{◌++◌, ◌≤◌, length, string_bytes};
    ghost use Rattle.seq_report.specs.Chunks.{text_in};
    ghost use Rattle.seq_report.specs.Refusal.{Outcome};

    ghost Value = { Outcome };

    ghost view = { λ f. record {
      text = string_bytes f.heading ++ (text_in f.sections.items ++ string_bytes f.last);
      summary = f.summary;
    } };

    ghost invariant = { λ f.
        length (string_bytes f.heading ++ (text_in f.sections.items ++ string_bytes f.last))
        ≤ 18446744073709551615 };
}

/// The first step that fails in these sections, with its first criterion.
fn earliest_failure(sections: &[Section]) -> Option<(u32, Criterion)>
    ensures { result ≡ first_in sections.now }
{
    let mut first = None;
    for section in sections {
        first = first.or(section.first());
    }
    first
}

/// How many bytes these sections have; `None` where they are more than can be counted.
fn bytes_in(sections: &[Section]) -> Option<usize>
    ensures { IfSome result (λ bytes. bytes ≡ length (text_in sections.now)) }
{
    let mut bytes = 0usize;
    for section in sections {
        bytes = bytes.checked_add(section.text().len())?;
    }
    Some(bytes)
}

/// Whether the bytes of a whole text can be counted.
fn is_countable(heading: usize, sections: &[Section], last: usize) -> bool
    ensures { result ≡ true
        → heading + (length (text_in sections.now) + last) ≤ 18446744073709551615 }
{
    let Some(bytes) = bytes_in(sections) else {
        return false;
    };
    let Some(rest) = bytes.checked_add(last) else {
        return false;
    };
    heading.checked_add(rest).is_some()
}

/// Writes a heading, the texts of sections in their order and a last line, or says how many bytes
/// of all these the sink took before it failed.
fn put_parts<S: Sink>(
    sink: &mut S,
    heading: &str,
    sections: &[Section],
    last: &str,
) -> Result<(), usize>
    requires sound { S.has_failed sink.old ≡ false }
    requires countable { length (heading.now ++ (text_in sections.now ++ last.now))
        ≤ 18446744073709551615 }
    ensures ok { OnOk result (Appends (S.contents sink.old) (S.contents sink.new)
        (heading.now ++ (text_in sections.now ++ last.now))) }
    ensures err { IfErr result (λ n. Appends (S.contents sink.old) (S.contents sink.new)
        (take n (heading.now ++ (text_in sections.now ++ last.now)))) }
    ensures err_short { IfErr result
        (λ n. n < length (heading.now ++ (text_in sections.now ++ last.now))) }
    ensures failed { S.has_failed sink.new ≡ is_err result }
{
    let mut put = put_part(sink, 0, heading.as_bytes())?;
    for section in sections {
        match put_part(sink, put, section.text().as_bytes()) {
            Ok(more) => put = more,
            Err(taken) => return Err(taken),
        }
    }
    match put_part(sink, put, last.as_bytes()) {
        Ok(_) => Ok(()),
        Err(taken) => Err(taken),
    }
}

impl CompleteReport {
    /// The report of these sections in their order, which have `lines` lines, between the heading
    /// and the last line.
    pub fn join(
        alloc: Global,
        sections: Vec<Section>,
        lines: u32,
    ) -> Result<CompleteReport, AllocError>
        ensures { IfOk result (λ made. made ≡ record {
          text = header_of ++ (text_in sections.items ++ last_line (first_in sections.items));
          summary = record { lines = lines; first = first_in sections.items };
        }) }
    {
        let first = earliest_failure(&sections);
        let mut heading = String::new(alloc);
        write_header(&mut heading)?;
        let mut last = String::new(alloc);
        write_last_line(&mut last, first)?;
        if !is_countable(heading.len(), &sections, last.len()) {
            return Err(AllocError);
        }
        Ok(CompleteReport {
            heading,
            sections,
            last,
            summary: Summary { lines, first },
        })
    }

    /// Writes the whole text, or says how many bytes of it the sink took before it failed.
    pub fn put_into<S: Sink>(&self, sink: &mut S) -> Result<(), usize>
        requires { S.has_failed sink.old ≡ false }
        ensures ok { OnOk result
            (Appends (S.contents sink.old) (S.contents sink.new) self.now.text) }
        ensures err { IfErr result
            (λ n. Appends (S.contents sink.old) (S.contents sink.new) (take n self.now.text)) }
        ensures err_short { IfErr result (λ n. n < length self.now.text) }
        ensures failed { S.has_failed sink.new ≡ is_err result }
    {
        put_parts(
            sink,
            self.heading.as_str(),
            &self.sections,
            self.last.as_str(),
        )
    }

    /// The summary of the report.
    pub fn summary(&self) -> Summary
        ensures { result ≡ self.now.summary }
    {
        self.summary
    }
}
