//! What is told of a refused record of a profile's table.
use crate::columns::{fields_of, gap_words, limits_of, most_records, name_of};
use crate::refused_profile::text_of;
use crate::told::{Quote, Told, tell_record_of};
use csv::ByteRecord;
use csv_text::{next_record, number, open_records};
use plain_text::{count_of, front, in_thousandths, many, shown_line};
use ship_profile::{File, ProfileBytes};
use std::alloc::{AllocError, Global};
use toml::Table;
use view_inputs::{cell_named, document, elements};
use view_quotes::{field, line_of_record, number_at, record_at};

/// How far a record of a tank may lie above the one before it, in kg.
const GAP: i64 = 100_000_000;

/// Tells at which record of a table a fault was found.
pub fn tell_record<'a>(
    alloc: Global,
    told: &mut Told<'a>,
    file: File,
    text: &'a [u8],
    record: u32,
) -> Result<(), AllocError> {
    let table = format!(in alloc; "{file}")?;
    tell_record_of(alloc, told, table.as_str(), text, record)
}

/// How many stations the ship has.
fn stations_in(alloc: Global, ship: &[u8]) -> Result<usize, AllocError> {
    match document(alloc, ship)? {
        Some(table) => Ok(elements(&table, "stations_mm").len()),
        None => Ok(0),
    }
}

/// Tells of a record of another number of fields than its table.
pub fn tell_fields<'a>(
    alloc: Global,
    told: &mut Told<'a>,
    file: File,
    files: &ProfileBytes<'a>,
    record: u32,
) -> Result<(), AllocError> {
    let text = text_of(file, files);
    tell_record(alloc, told, file, text, record)?;
    let needed = fields_of(file, stations_in(alloc, files.ship)?);
    if let Some(fields) = record_at(alloc, text, record.saturating_sub(1))? {
        let count = many(alloc, count_of(fields.len()), "field")?;
        told.what = format!(in alloc; "The record has {count}, the table {needed}.")?;
    }
    Ok(())
}

/// Whether a field isn't what its column asks for.
fn is_bad(file: File, fields: &ByteRecord, column: usize) -> bool {
    let text = field(fields, column);
    match (file, column) {
        (File::Cells, 0) => cell_named(text).is_none(),
        (File::Tanks, 0) => false,
        _ => number(text).is_none(),
    }
}

/// The first field of a record that isn't what its column asks for.
fn bad_column(file: File, fields: &ByteRecord) -> Option<usize> {
    for column in 0..fields.len() {
        if is_bad(file, fields, column) {
            return Some(column);
        }
    }
    None
}

/// How many records behind one have such a field.
fn bad_behind(alloc: Global, file: File, text: &[u8], record: u32) -> Result<u32, AllocError> {
    let mut reader = open_records(alloc, text);
    let mut fields = ByteRecord::new(alloc);
    let mut at = 0u32;
    let mut count = 0u32;
    for _ in 0..text.len() {
        if !next_record(&mut reader, &mut fields)? {
            break;
        }
        at = at.saturating_add(1);
        if at > record && bad_column(file, &fields).is_some() {
            count = count.saturating_add(1);
        }
    }
    Ok(count)
}

/// Tells of a field that is no number, or no cell.
pub fn tell_number<'a>(
    alloc: Global,
    told: &mut Told<'a>,
    file: File,
    text: &'a [u8],
    record: u32,
) -> Result<(), AllocError> {
    tell_record(alloc, told, file, text, record)?;
    let Some(fields) = record_at(alloc, text, record.saturating_sub(1))? else {
        return Ok(());
    };
    let column = bad_column(file, &fields).unwrap_or(0);
    let number = column.saturating_add(1);
    let value = shown_line(alloc, field(&fields, column))?;
    let value = front(alloc, value.as_str(), 20)?;
    let or_cell = if file == File::Cells && column == 0 {
        " or no cell of six or seven digits"
    } else {
        ""
    };
    told.what = format!(in alloc; "Field {number}, \"{value}\", is no whole number{or_cell}.")?;
    let behind = bad_behind(alloc, file, text, record)?;
    if behind > 0 {
        let count = many(alloc, behind, "later record")?;
        told.more = format!(in alloc; "{count} of this file with such a field.")?;
    }
    Ok(())
}

/// Which field of a record is out of its limits.
fn field_beyond(
    alloc: Global,
    file: File,
    fields: &ByteRecord,
) -> Result<Option<String>, AllocError> {
    for column in 0..fields.len() {
        if let Some((low, high)) = limits_of(file, column) {
            let value = number_at(fields, column);
            if value < low || high < value {
                let number = column.saturating_add(1);
                let name = name_of(alloc, file, column)?;
                let text = format!(in alloc;
                    "Field {number}, {name}, is {value}, and may be from {low} to {high}."
                )?;
                return Ok(Some(text));
            }
        }
    }
    Ok(None)
}

/// What of a tank's record is out of its limits, where it is no number.
fn tank_beyond(
    alloc: Global,
    fields: &ByteRecord,
    before: Option<&ByteRecord>,
) -> Result<String, AllocError> {
    if let Some(before) = before {
        let rise = number_at(fields, 1).saturating_sub(number_at(before, 1));
        if field(before, 0) == field(fields, 0) && rise > GAP {
            return gap_words(alloc, rise);
        }
    }
    String::from_str(
        alloc,
        "The tank has over 64 records, or it is one of over 200 tanks.",
    )
}

/// What of a record is out of its limits.
fn beyond_words(
    alloc: Global,
    file: File,
    record: u32,
    fields: &ByteRecord,
    before: Option<&ByteRecord>,
) -> Result<String, AllocError> {
    let length = field(fields, 0).len();
    if file == File::Tanks && (length < 1 || 16 < length) {
        let text = format!(in alloc; "The name has {length} bytes, and may have 1 to 16.")?;
        return Ok(text);
    }
    if let Some(text) = field_beyond(alloc, file, fields)? {
        return Ok(text);
    }
    if file == File::Tanks {
        return tank_beyond(alloc, fields, before);
    }
    let number = record.saturating_sub(1);
    let most = most_records(file);
    if number > most {
        let text = format!(in alloc;
            "It is record {number} behind the heading, and there may be {most}."
        )?;
        return Ok(text);
    }
    match before {
        Some(before) => {
            gap_words(
                alloc,
                number_at(fields, 0).saturating_sub(number_at(before, 0)),
            )
        }
        None => Ok(String::new(alloc)),
    }
}

/// Tells of a record that is out of its limits.
pub fn tell_outside<'a>(
    alloc: Global,
    told: &mut Told<'a>,
    file: File,
    text: &'a [u8],
    record: u32,
) -> Result<(), AllocError> {
    tell_record(alloc, told, file, text, record)?;
    let Some(fields) = record_at(alloc, text, record.saturating_sub(1))? else {
        return Ok(());
    };
    let before = if record > 2 {
        record_at(alloc, text, record.saturating_sub(2))?
    } else {
        None
    };
    told.here = beyond_words(alloc, file, record, &fields, before.as_ref())?;
    Ok(())
}

/// Tells of a record that doesn't rise above the one before it: both are quoted.
pub fn tell_rising<'a>(
    alloc: Global,
    told: &mut Told<'a>,
    file: File,
    text: &'a [u8],
    record: u32,
) -> Result<(), AllocError> {
    let before = record.saturating_sub(1);
    let one = line_of_record(alloc, text, before)?;
    let other = line_of_record(alloc, text, record)?;
    if let (Some(one), Some(other)) = (one, other) {
        let (first, second) = (one.number, other.number);
        told.place = format!(in alloc;
            "{file}, records {before} and {record} (lines {first}, {second}):"
        )?;
        told.quoted = Some(Quote::line(one.text));
        told.behind_it = Some(Quote::line(other.text));
        return Ok(());
    }
    told.place = format!(in alloc; "{file}, records {before} and {record}")?;
    Ok(())
}

/// Tells from where to where something reaches, and the ends of the stations.
pub fn tell_reach(
    alloc: Global,
    told: &mut Told<'_>,
    table: &Table,
    x: i64,
    half: i64,
) -> Result<(), AllocError> {
    let stations = elements(table, "stations_mm");
    if let (Some(first), Some(last)) = (stations.first(), stations.last()) {
        let aft = in_thousandths(alloc, i128::from(x.saturating_sub(half)))?;
        let fore = in_thousandths(alloc, i128::from(x.saturating_add(half)))?;
        let first = in_thousandths(alloc, i128::from(first.as_integer().unwrap_or(0)))?;
        let last = in_thousandths(alloc, i128::from(last.as_integer().unwrap_or(0)))?;
        told.here = format!(in alloc;
            "It reaches from x {aft} to {fore} m, the stations from {first} to {last} m."
        )?;
    }
    Ok(())
}

/// Tells from where to where the body of a record reaches.
pub fn tell_row_reach(
    alloc: Global,
    told: &mut Told<'_>,
    file: File,
    files: &ProfileBytes<'_>,
    record: u32,
) -> Result<(), AllocError> {
    let (x, half) = if file == File::Tanks { (2, 5) } else { (1, 4) };
    let Some(table) = document(alloc, files.ship)? else {
        return Ok(());
    };
    let text = text_of(file, files);
    if let Some(fields) = record_at(alloc, text, record.saturating_sub(1))? {
        tell_reach(
            alloc,
            told,
            &table,
            number_at(&fields, x),
            number_at(&fields, half),
        )?;
    }
    Ok(())
}
