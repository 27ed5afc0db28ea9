//! What is told of a refused steps file.
use crate::advice::advice_on_steps;
use crate::told::{Told, tell_record_of};
use csv::ByteRecord;
use csv_text::{next_record, open_records};
use edifact_text::Kind;
use plain_text::{Runs, many_of, path, shown_word};
use port_call::Inputs;
use std::alloc::{AllocError, Global};
use stow_messages::{Lift, StepsCode, StepsFault};
use view_inputs::{Names, entries_of, lifts_read};
use view_quotes::{field, number_at, record_at};

/// The record before one that orders the same lift, and the number of the lift.
fn earlier_record(
    alloc: Global,
    text: &[u8],
    record: u32,
) -> Result<Option<(i64, u32)>, AllocError> {
    let Some(fields) = record_at(alloc, text, record.saturating_sub(1))? else {
        return Ok(None);
    };
    let lift = number_at(&fields, 1);
    let mut reader = open_records(alloc, text);
    let mut other = ByteRecord::new(alloc);
    for at in 1..record {
        if !next_record(&mut reader, &mut other)? {
            break;
        }
        if at > 1 && field(&other, 0) == b"lift".as_slice() && number_at(&other, 1) == lift {
            return Ok(Some((lift, at)));
        }
    }
    Ok(None)
}

/// Which lifts a steps file orders.
fn ordered_lifts(alloc: Global, text: &[u8], lifts: usize) -> Result<Vec<bool>, AllocError> {
    let mut marks = Vec::with_capacity(alloc, lifts)?;
    for _ in 0..lifts {
        marks.push(false)?;
    }
    let mut reader = open_records(alloc, text);
    let mut fields = ByteRecord::new(alloc);
    for _ in 0..text.len() {
        if !next_record(&mut reader, &mut fields)? {
            break;
        }
        if field(&fields, 0) == b"lift".as_slice() {
            let number = usize::try_from(number_at(&fields, 1)).unwrap_or(0);
            if let Some(mark) = marks.get_mut(number.wrapping_sub(1)) {
                *mark = true;
            }
        }
    }
    Ok(marks)
}

/// The lifts that a steps file doesn't order, and how many they are.
fn missing_words(alloc: Global, text: &[u8], lifts: usize) -> Result<String, AllocError> {
    let mut runs = Runs::new(alloc);
    let mut count = 0u32;
    let mut number = 0u32;
    for is_ordered in &ordered_lifts(alloc, text, lifts)? {
        number = number.saturating_add(1);
        if !*is_ordered {
            runs.add(number, number)?;
            count = count.saturating_add(1);
        }
    }
    let count = many_of(alloc, count, "lift is missing", "lifts are missing")?;
    let runs = runs.into_text()?;
    Ok(format!(in alloc; "{count} in all: {runs}.")?)
}

/// What a lift does, in words.
fn lift_words(alloc: Global, lift: &Lift) -> Result<String, AllocError> {
    let (deed, id) = match lift {
        Lift::Load(item) => ("the load of", item.id.as_slice()),
        Lift::Discharge { id, .. } => ("the discharge of", id.as_slice()),
    };
    let name = if id.is_empty() {
        String::from_str(alloc, "no identification")?
    } else {
        shown_word(alloc, id)?
    };
    Ok(format!(in alloc; "{deed} {name}")?)
}

/// Tells of a lift that stands in no record.
fn tell_missing(
    alloc: Global,
    told: &mut Told<'_>,
    inputs: &Inputs<'_>,
    text: &[u8],
    name: &str,
    number: u32,
) -> Result<(), AllocError> {
    let place = (number as usize).wrapping_sub(1);
    let name = path(alloc, name, 30)?;
    told.place = format!(in alloc; "steps file {name}; lift {number}")?;
    let Some(lifts) = lifts_read(alloc, inputs.movins)? else {
        return Ok(());
    };
    let entries = entries_of(alloc, inputs.movins, Kind::Movins, None)?;
    if let (Some(lift), Some(entry)) = (lifts.get(place), entries.get(place)) {
        let deed = lift_words(alloc, lift)?;
        let segment = entry.segment;
        told.place = format!(in alloc;
            "steps file {name}; lift {number} is {deed}, segment {segment} of the instruction"
        )?;
    }
    told.more = missing_words(alloc, text, lifts.len())?;
    if let Some((front, behind)) = told.remedy.as_str().split_once("{at}") {
        told.remedy = format!(in alloc; "{front}{number}{behind}")?;
    }
    Ok(())
}

/// What is told of a refused steps file.
pub fn told_of_steps<'a>(
    alloc: Global,
    inputs: &Inputs<'a>,
    names: &Names<'_>,
    fault: StepsFault,
) -> Result<Told<'a>, AllocError> {
    let mut told = Told::new(alloc, advice_on_steps(fault.code))?;
    let text = inputs.steps.unwrap_or(&[]);
    let name = names.steps.unwrap_or("");
    if fault.code == StepsCode::LiftMissing {
        tell_missing(alloc, &mut told, inputs, text, name, fault.at)?;
        return Ok(told);
    }
    let name = path(alloc, name, 40)?;
    let table = format!(in alloc; "steps file {name}")?;
    tell_record_of(alloc, &mut told, table.as_str(), text, fault.at)?;
    if fault.code == StepsCode::NoLift {
        let count = entries_of(alloc, inputs.movins, Kind::Movins, None)?.len();
        told.here = format!(in alloc; "The instruction has lifts 1 to {count}.")?;
    }
    if fault.code == StepsCode::LiftTwice {
        if let Some((lift, record)) = earlier_record(alloc, text, fault.at)? {
            told.here = format!(in alloc; "Lift {lift} stands in record {record} already.")?;
        }
    }
    Ok(told)
}
