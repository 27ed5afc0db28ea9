ghost use Rattle.std.specs.Prelude.{◌≡◌, ◌≢◌, ℕ, ◌≤◌, ◌<◌, ◌+◌, ◌^◌, List, [], length, OnOk, IfOk};
ghost use Rattle.std.specs.Prelude.{IfErr, Ok, Err};
ghost use Rattle.csv.specs.Records.{fields_of};
ghost use Rattle.csv_text.specs.Reading.{Fields, Gave, HasLeft};
ghost use Rattle.stow_messages.specs.declared.step_rows.StepRow.{StepRow};
ghost use Rattle.stow_messages.specs.StepsSoFar.{AreFlags, IsCodeOf, IsWithin, OfRecordsLeft};
ghost use Rattle.stow_messages.specs.StepFaults.{AreSteps};
ghost use Rattle.stow_messages.specs.Steps.{EachLiftOnce, IsFaultOf, at_record, complete, with_row};
ghost use Rattle.stow_messages.specs.Steps.{missing_from, rows_from, rows_under, steps_of};
ghost use Rattle.stow_messages.specs.Steps.{with_record};

use crate::step_faults::{StepsCode, StepsFault, fault_at};
use crate::step_rows::{FIELDS, StepRow, row_of};
use csv::{ByteRecord, Reader};
use csv_text::{next_record, open_records};
use std::alloc::Global;

/// The greatest number of rows in a steps file.
const MAX_ROWS: usize = 200_000;

/// The rows of a steps file so far, and a flag for each lift that says whether the lift is among
/// them.
#[derive(Debug, Drop)]
struct Gathered {
    rows: Vec<StepRow>,
    seen: Vec<bool>,
}

/// No rows yet.
fn no_rows(alloc: Global, lifts: u32) -> Result<Gathered, StepsCode>
    ensures ok { IfOk result (λ g. (g.rows.items ≡ []) × AreFlags lifts [] g.seen.items) }
    ensures memory { IfErr result (λ e. e ≡ StepsCode.NoMemory) }
{
    match vec![in alloc; false; lifts as usize] {
        Ok(seen) => Ok(Gathered {
            rows: Vec::new(alloc),
            seen,
        }),
        Err(_) => Err(StepsCode::NoMemory),
    }
}

/// Adds a row; `LiftTwice` where its lift is among the rows already.
fn join(lifts: u32, gathered: &mut Gathered, row: StepRow) -> Result<(), StepsCode>
    requires flags { AreFlags lifts gathered.old.rows.items gathered.old.seen.items }
    requires within { IsWithin lifts row }
    ensures ok { OnOk result (with_row gathered.old.rows.items row ≡ Ok gathered.new.rows.items) }
    ensures refused { IfErr result (IsCodeOf (with_row gathered.old.rows.items row)) }
    ensures flags { OnOk result (AreFlags lifts gathered.new.rows.items gathered.new.seen.items) }
    ensures len { OnOk result (
        length gathered.new.rows.items ≡ length gathered.old.rows.items + 1) }
{
    if let StepRow::Lift(lift) = &row {
        let place = *lift as usize - 1;
        if gathered.seen[place] {
            return Err(StepsCode::LiftTwice);
        }
        gathered.seen[place] = true;
    }
    if gathered.rows.push(row).is_err() {
        return Err(StepsCode::NoMemory);
    }
    Ok(())
}

/// Adds the row of a record.
fn add(lifts: u32, gathered: &mut Gathered, fields: &ByteRecord) -> Result<(), StepsCode>
    requires { AreFlags lifts gathered.old.rows.items gathered.old.seen.items }
    ensures ok { OnOk result (
        with_record lifts gathered.old.rows.items (fields_of fields.now)
        ≡ Ok gathered.new.rows.items) }
    ensures refused { IfErr result (IsCodeOf (
        with_record lifts gathered.old.rows.items (fields_of fields.now))) }
    ensures flags { OnOk result (AreFlags lifts gathered.new.rows.items gathered.new.seen.items) }
    ensures len { OnOk result (
        length gathered.new.rows.items ≡ length gathered.old.rows.items + 1) }
    ensures room { OnOk result (length gathered.old.rows.items < 200000) }
{
    if gathered.rows.len() >= MAX_ROWS {
        return Err(StepsCode::TooMany);
    }
    let row = row_of(lifts, fields)?;
    join(lifts, gathered, row)
}

/// Adds the row of the record of this number, the heading being 1.
fn add_record(
    line: u32,
    lifts: u32,
    gathered: &mut Gathered,
    fields: &ByteRecord,
) -> Result<(), StepsFault>
    requires { AreFlags lifts gathered.old.rows.items gathered.old.seen.items }
    ensures ok { OnOk result (
        at_record line (with_record lifts gathered.old.rows.items (fields_of fields.now))
        ≡ Ok gathered.new.rows.items) }
    ensures refused { IfErr result (IsFaultOf (
        at_record line (with_record lifts gathered.old.rows.items (fields_of fields.now)))) }
    ensures memory { IfErr result (λ e. e.code ≡ StepsCode.NoMemory → e.at ≡ 0) }
    ensures flags { OnOk result (AreFlags lifts gathered.new.rows.items gathered.new.seen.items) }
    ensures len { OnOk result (
        length gathered.new.rows.items ≡ length gathered.old.rows.items + 1) }
    ensures room { OnOk result (length gathered.old.rows.items < 200000) }
{
    match add(lifts, gathered, fields) {
        Ok(()) => Ok(()),
        Err(code) => Err(fault_at(code, line)),
    }
}

/// Reads the next record.
fn read(reader: &mut Reader<&[u8]>, fields: &mut ByteRecord) -> Result<bool, StepsFault>
    ensures ok { IfOk result (λ found. OfRecordsLeft reader.old (λ records.
        Gave found (fields_of fields.new) records reader.new)) }
    ensures memory { IfErr result (λ e. e ≡ record { code = StepsCode.NoMemory; at = 0 }) }
{
    match next_record(reader, fields) {
        Ok(found) => Ok(found),
        Err(_) => Err(fault_at(StepsCode::NoMemory, 0)),
    }
}

/// Adds the rows of the records that are left.
fn add_records(
    lifts: u32,
    gathered: &mut Gathered,
    reader: &mut Reader<&[u8]>,
    fields: &mut ByteRecord,
) -> Result<(), StepsFault>
    requires flags { AreFlags lifts gathered.old.rows.items gathered.old.seen.items }
    requires few { length gathered.old.rows.items ≤ 200000 }
    ensures ok { OnOk result (OfRecordsLeft reader.old (λ records.
        rows_from lifts gathered.old.rows.items records ≡ Ok gathered.new.rows.items)) }
    ensures refused { IfErr result (λ e. OfRecordsLeft reader.old (λ records.
        IsFaultOf (rows_from lifts gathered.old.rows.items records) e)) }
    ensures memory { IfErr result (λ e. e.code ≡ StepsCode.NoMemory → e.at ≡ 0) }
    ensures flags { OnOk result (AreFlags lifts gathered.new.rows.items gathered.new.seen.items) }
    ensures few { OnOk result (length gathered.new.rows.items ≤ 200000) }
{
    while read(reader, fields)? {
        let line = gathered.rows.len() as u32 + 2;
        add_record(line, lifts, gathered, fields)?;
    }
    Ok(())
}

/// Adds the rows of all records, of which the first is the heading.
fn add_all(
    lifts: u32,
    gathered: &mut Gathered,
    reader: &mut Reader<&[u8]>,
    fields: &mut ByteRecord,
) -> Result<(), StepsFault>
    requires none { gathered.old.rows.items ≡ [] }
    requires flags { AreFlags lifts gathered.old.rows.items gathered.old.seen.items }
    ensures ok { OnOk result (OfRecordsLeft reader.old (λ records.
        rows_under lifts records ≡ Ok gathered.new.rows.items)) }
    ensures refused { IfErr result (λ e. OfRecordsLeft reader.old (λ records.
        IsFaultOf (rows_under lifts records) e)) }
    ensures memory { IfErr result (λ e. e.code ≡ StepsCode.NoMemory → e.at ≡ 0) }
    ensures flags { OnOk result (AreFlags lifts gathered.new.rows.items gathered.new.seen.items) }
    ensures few { OnOk result (length gathered.new.rows.items ≤ 200000) }
{
    if !read(reader, fields)? {
        return Ok(());
    }
    if fields.len() != FIELDS {
        return Err(fault_at(StepsCode::BadCsv, 1));
    }
    add_records(lifts, gathered, reader, fields)
}

/// The least lift whose flag isn't set.
fn least_missing(seen: &[bool]) -> Option<u32>
    requires { length seen.now < 2 ^ 32 }
    ensures { (lifts : ℕ) (rows : List StepRow) →
        AreFlags lifts rows seen.now → result ≡ missing_from rows 1 lifts }
{
    for (place, stands) in seen.iter().enumerate() {
        if !*stands {
            return Some(place as u32 + 1);
        }
    }
    None
}

/// The rows, where each lift is among them.
fn complete(lifts: u32, gathered: Gathered) -> Result<Vec<StepRow>, StepsFault>
    requires { AreFlags lifts gathered.rows.items gathered.seen.items }
    ensures ok { IfOk result (λ rows. complete lifts gathered.rows.items ≡ Ok rows.items) }
    ensures refused { IfErr result (λ e. complete lifts gathered.rows.items ≡ Err e) }
    ensures same { IfOk result (λ rows. rows ≡ gathered.rows) }
{
    match least_missing(gathered.seen.as_slice()) {
        Some(lift) => Err(fault_at(StepsCode::LiftMissing, lift)),
        None => Ok(gathered.rows),
    }
}

/// The rows of a steps file, in which each of the lifts 1 to `lifts` occurs once, and changes of
/// tanks and restows among them: comma-separated values, a heading of four fields, whose text is
/// ignored, and a record for each step, `lift,N,,`, `tank,NAME,KG,` or `restow,FROM,TO,ID`. The
/// first fault is answered: of a record, in this order, [`StepsCode::TooMany`] (a record past
/// 200,000 behind the heading), `BadCsv`, `BadKind`, `BadField`, `NoLift` and `LiftTwice`, with the
/// record's number; at the end of the file `LiftMissing`, with the least missing lift.
pub fn steps(alloc: Global, bytes: &[u8], lifts: u32) -> Result<Vec<StepRow>, StepsFault>
    ensures once { IfOk result (λ rows. EachLiftOnce lifts rows.items) }
    ensures ok { IfOk result (λ rows. steps_of lifts bytes.now ≡ Ok rows.items) }
    ensures refused { IfErr result (IsFaultOf (steps_of lifts bytes.now)) }
    ensures memory { IfErr result (λ e. e.code ≡ StepsCode.NoMemory → e.at ≡ 0) }
    ensures meaning { IfOk result (λ rows. AreSteps lifts bytes.now rows.items) }
    ensures few { IfOk result (λ rows. length rows.items ≤ 200000) }
{
    let mut gathered = match no_rows(alloc, lifts) {
        Ok(gathered) => gathered,
        Err(code) => return Err(fault_at(code, 0)),
    };
    let mut reader = open_records(alloc, bytes);
    let mut fields = ByteRecord::new(alloc);
    add_all(lifts, &mut gathered, &mut reader, &mut fields)?;
    complete(lifts, gathered)
}
