//! What of the arrays of ship.toml, and of the tables, a refusal names.
use csv::ByteRecord;
use csv_text::{next_record, open_records};
use plain_text::{many, shown_line};
use ship_profile::File;
use std::alloc::{AllocError, Global};
use toml::{Table, Value};
use view_inputs::{ARRAYS, ArrayKeys, elements, tanks_in, text_in};

/// An element of an array of ship.toml, or a key of it, that is refused.
#[derive(Debug, Drop)]
pub struct Element {
    /// What it is called.
    pub subject: String,
    /// The number of the element, from 1.
    pub number: u32,
}

/// Whether the value at a key of an element is missing, or of another type.
fn is_refused(table: &Table, key: &str, is_missing: bool) -> bool {
    match table.get(key) {
        None => is_missing,
        Some(value) if is_missing => false,
        Some(value) if key == "tank" => value.as_str().is_none(),
        Some(value) => value.as_integer().is_none(),
    }
}

/// The first key of an element that is refused.
fn refused_key(table: &Table, array: &ArrayKeys, is_missing: bool) -> Option<&'static str> {
    if array.has_tank && is_refused(table, "tank", is_missing) {
        return Some("tank");
    }
    for limits in array.numbers {
        if is_refused(table, limits.key, is_missing) {
            return Some(limits.key);
        }
    }
    None
}

/// What of an element is refused.
fn refused_in(
    alloc: Global,
    value: &Value,
    array: &ArrayKeys,
    number: u32,
    is_missing: bool,
) -> Result<Option<Element>, AllocError> {
    let name = array.name;
    let Some(table) = value.as_table() else {
        let subject = format!(in alloc; "Element {number} of {name}")?;
        return Ok(Some(Element { subject, number }));
    };
    match refused_key(table, array, is_missing) {
        Some(key) => {
            let subject = format!(in alloc; "The key {key} of table {number} of [[{name}]]")?;
            Ok(Some(Element { subject, number }))
        }
        None => Ok(None),
    }
}

/// The first element of an array of ship.toml that is refused, where the key is that of an array.
pub fn tell_element(
    alloc: Global,
    table: &Table,
    key: &str,
    is_missing: bool,
) -> Result<Option<Element>, AllocError> {
    for array in &ARRAYS {
        if array.name == key {
            let mut number = 0u32;
            for value in elements(table, key) {
                number = number.saturating_add(1);
                if let Some(found) = refused_in(alloc, value, array, number, is_missing)? {
                    return Ok(Some(found));
                }
            }
        }
    }
    Ok(None)
}

/// The name of a fill's tank.
fn tank_of(value: &Value) -> &str {
    match value.as_table() {
        Some(table) => text_in(table, "tank"),
        None => "",
    }
}

/// Which tank is filled twice, and by which fills; empty where none is.
pub fn filled_twice(alloc: Global, table: &Table) -> Result<String, AllocError> {
    let fills = elements(table, "fills");
    for (at, fill) in fills.iter().enumerate().take(200) {
        let name = tank_of(fill);
        for (before, other) in fills.iter().enumerate().take(at) {
            if tank_of(other) == name {
                let name = shown_line(alloc, name.as_bytes())?;
                let (one, two) = (before.saturating_add(1), at.saturating_add(1));
                return Ok(format!(in alloc; "{name} is filled by fills {one} and {two}.")?);
            }
        }
    }
    Ok(String::new(alloc))
}

/// How many records a table has behind its heading.
fn count_records(alloc: Global, text: &[u8]) -> Result<u32, AllocError> {
    let mut reader = open_records(alloc, text);
    let mut fields = ByteRecord::new(alloc);
    let mut count = 0u32;
    for _ in 0..text.len() {
        if !next_record(&mut reader, &mut fields)? {
            break;
        }
        count = count.saturating_add(1);
    }
    Ok(count.saturating_sub(1))
}

/// How many records there are of a table that has too few, or which tank has one alone.
pub fn few_records(alloc: Global, file: File, text: &[u8]) -> Result<String, AllocError> {
    if file == File::Tanks {
        for tank in &tanks_in(alloc, text)? {
            if tank.rows.len() == 1 {
                let name = tank.name_line(alloc)?;
                return Ok(format!(in alloc; "Tank {name} has one record.")?);
            }
        }
    }
    let count = many(alloc, count_records(alloc, text)?, "record")?;
    Ok(format!(in alloc; "{file} has {count} behind the heading.")?)
}
