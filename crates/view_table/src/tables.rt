//! A table, written part by part.
ghost use Rattle.std.specs.Prelude.{◌≡◌, ◌+◌, ◌^◌, ◌<◌, ◌≤◌, IfOk, flat_map, length, map};
ghost use Rattle.std.specs.List.{range_with_len};
ghost use Rattle.port_call.specs.Cases.{aboard_first};
ghost use Rattle.port_call.specs.Views.{case_in_view};
ghost use Rattle.running_sums.specs.Lines.{chunk_of};
ghost use Rattle.seq_report.specs.Cases.{line_in};
ghost use Rattle.seq_report.specs.Report.{first_of, lines_of};
ghost use Rattle.seq_report.specs.Written.{HasWritten};
ghost use Rattle.view_table.specs.Tables.{AreLines, IsPart, lines_of_piece};

use crate::forms::Form;
use crate::lines::{Part, part_of};
use crate::moved::MovedBy;
use crate::steps::Source;
use claim_run::{Gate, Job, Workers, run};
use criteria::Criterion;
use decimal_text::FourDigits;
use seq_report::Lines;
use std::alloc::{AllocError, Global};
use std::io::Write;
use std::marker::Model;
use std::sync::Wait;
use std::thread::Threads;

/// How many chunks are made before they are written: so much of a table is in memory at a time.
const BATCH: u32 = 64;

/// The lines of a chunk. A contract says what they are by the lines of the report; their text isn't
/// determined by these alone.
#[derive(Drop)]
struct Piece<'a> {
    lines: &'a Lines<'a>,
    form: Form,
    chunk: u32,
    part: Part,
}

impl<'a> Model for Piece<'a> {
    ghost use Rattle.std.specs.Prelude.{map, string_bytes};
    ghost use Rattle.port_call.specs.Views.{case_in_view};
    ghost use Rattle.running_sums.specs.Lines.{chunk_of};
    ghost use Rattle.seq_report.specs.Cases.{line_in};
    ghost use Rattle.view_table.specs.Tables.{IsPart, Piece as PieceRecord};

    ghost Value = { PieceRecord };

    ghost view = { λ p. record {
      form = p.form;
      case = case_in_view p.lines.now.case;
      numbers = chunk_of p.lines.now.cuts.now p.chunk;
    } };

    ghost invariant = { λ p. IsPart p.form
        (map (line_in (case_in_view p.lines.now.case)) (chunk_of p.lines.now.cuts.now p.chunk))
        (string_bytes p.part.text) p.part.first };
}

impl<'a> Piece<'a> {
    /// Their text.
    fn text(&self) -> &str
        ensures { AreLines self.now.form (lines_of_piece self.now) result.now }
    {
        self.part.text.as_str()
    }

    /// The first of them that fails, with its first criterion.
    fn first(&self) -> Option<(u32, Criterion)>
        ensures { result ≡ first_of (lines_of_piece self.now) }
    {
        self.part.first
    }
}

/// The lines of some chunks that follow each other, as a job for workers.
#[derive(Drop)]
struct Batch<'a> {
    lines: &'a Lines<'a>,
    source: &'a Source,
    first: u32,
    count: u32,
    ghost within: { first + count ≤ length lines.now.cuts.now },
    ghost few: { length lines.now.cuts.now < 2 ^ 32 },
}

impl<'a> Job for Batch<'a> {
    ghost use Rattle.std.specs.Prelude.{◌+◌};
    ghost use Rattle.port_call.specs.Views.{case_in_view};
    ghost use Rattle.running_sums.specs.Lines.{chunk_of};

    type Out = Piece<'a>;

    ghost value = { λ b k. record {
      form = b.source.now.form;
      case = case_in_view b.lines.now.case;
      numbers = chunk_of b.lines.now.cuts.now (b.first + k);
    } };

    ghost pieces = { λ b. b.count };

    fn piece(&self, alloc: Global, k: u32) -> Result<Piece<'a>, AllocError> {
        let lines = self.lines;
        let chunk = self.first + k;
        let part = part_of(
            alloc,
            self.source,
            lines.case,
            &lines.hull,
            &lines.chunk(chunk),
        )?;
        Ok(Piece {
            lines,
            form: self.source.form,
            chunk,
            part,
        })
    }
}

/// Why a table isn't whole.
#[derive(Clone, Copy, Debug, PartialEq, Eq)]
pub enum TableFault {
    /// Out of memory.
    NoMemory,
    /// The writer has failed.
    Write,
}

/// The heading of a table of CSV.
pub fn csv_heading(alloc: Global, frames: usize) -> Result<String, AllocError> {
    let mut text = String::from_str(
        alloc,
        "step,op,cell,to,tank,id,mass_kg,lift,kg,gm_mm,mean_mm,aft_mm,fwd_mm,trim_mm,list_e4,\
        a30_mmdeg,a40_mmdeg,a3040_mmdeg,gz_mm,angle_deg,close_kg",
    )?;
    for frame in 0..frames {
        let number = frame.saturating_add(1);
        write!(text, ",f{number}_shear_kg,f{number}_bending_kgmm")?;
    }
    text.push_str(",least_gm_mm,verdict,criterion,fails,outside\n")?;
    Ok(text)
}

/// Writes some chunks, and gives the first of their lines that fails.
fn write_batch<G: Gate, R: Threads + Wait + Sync, O: Write>(
    rt: &R,
    alloc: Global,
    gate: &G,
    workers: Workers,
    batch: &Batch<'_>,
    out: &mut O,
) -> Result<Option<(u32, Criterion)>, TableFault>
    ensures { IfOk result (λ first. HasWritten (O.contents out.old) (O.contents out.new)
        (λ text. IsPart batch.now.source.now.form
        (map (line_in (case_in_view batch.now.lines.now.case))
        (flat_map (chunk_of batch.now.lines.now.cuts.now)
        (range_with_len batch.now.first batch.now.count))) text first)) }
{
    let Ok(pieces) = run(rt, alloc, gate, workers, batch.count, batch) else {
        return Err(TableFault::NoMemory);
    };
    let mut first = None;
    for piece in &pieces {
        let Ok(()) = out.write_all(piece.text().as_bytes()) else {
            return Err(TableFault::Write);
        };
        first = first.or(piece.first());
    }
    Ok(first)
}

/// How many chunks are in the batch that begins with this one.
fn batch_size(begin: u32, chunks: u32) -> u32
    requires { begin < chunks }
    ensures some { 1 ≤ result }
    ensures inside { begin + result ≤ chunks }
{
    let left = chunks - begin;
    if left < BATCH { left } else { BATCH }
}

/// Writes all chunks, batch by batch, and gives the first line that fails.
fn write_batches<G: Gate, R: Threads + Wait + Sync, O: Write>(
    rt: &R,
    alloc: Global,
    gate: &G,
    workers: Workers,
    lines: &Lines<'_>,
    source: &Source,
    out: &mut O,
) -> Result<Option<(u32, Criterion)>, TableFault>
    ensures { IfOk result (λ first. HasWritten (O.contents out.old) (O.contents out.new)
        (λ text. IsPart source.now.form (lines_of lines.now.case.profile.now
        (aboard_first (case_in_view lines.now.case)) lines.now.case.sequence.now.ops)
        text first)) }
{
    let chunks = lines.chunks();
    let mut first = None;
    let mut begin = 0u32;
    while begin < chunks {
        let count = batch_size(begin, chunks);
        let batch = Batch {
            lines,
            source,
            first: begin,
            count,
        };
        first = first.or(write_batch(rt, alloc, gate, workers, &batch, out)?);
        begin += count;
    }
    Ok(first)
}

/// Writes a line of a table for each condition of a case, in chunks that workers make, and gives
/// the first condition that fails, with its first criterion. `lifts` has for each step the number
/// of its lift in the movement instruction, if it is one. What was written before a fault stays
/// written.
pub fn write_lines<G: Gate, R: Threads + Wait + Sync, O: Write>(
    rt: &R,
    alloc: Global,
    gate: &G,
    workers: Workers,
    lines: &Lines<'_>,
    form: Form,
    lifts: Vec<Option<u32>>,
    out: &mut O,
) -> Result<Option<(u32, Criterion)>, TableFault>
    ensures { IfOk result (λ first. HasWritten (O.contents out.old) (O.contents out.new)
        (λ text. IsPart form (lines_of lines.now.case.profile.now
        (aboard_first (case_in_view lines.now.case)) lines.now.case.sequence.now.ops)
        text first)) }
{
    let (Ok(moved), Ok(digits)) = (MovedBy::new(alloc, lines.case), FourDigits::new(alloc)) else {
        return Err(TableFault::NoMemory);
    };
    let source = Source {
        form,
        moved,
        lifts,
        digits,
    };
    write_batches(rt, alloc, gate, workers, lines, &source, out)
}
