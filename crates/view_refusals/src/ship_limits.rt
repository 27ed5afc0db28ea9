//! What of ship.toml is out of its limits, doesn't rise, or is too few.
use plain_text::{count_of, many};
use std::alloc::{AllocError, Global};
use toml::{Table, Value};
use view_inputs::{ARRAYS, ArrayKeys, KeyLimits, SHIP, elements, number_in};

/// The greatest number of stations.
const STATIONS: usize = 64;

/// The numbers of an array, 0 for what is none.
fn number_of(value: &Value) -> i64 {
    value.as_integer().unwrap_or(0)
}

/// Whether a number of a table is within its limits.
fn is_within(table: &Table, limits: &KeyLimits) -> bool {
    let number = number_in(table, limits.key);
    limits.low <= number && number <= limits.high
}

/// The first number of the stations that is out of its limits, or that there are too many.
fn stations_beyond(alloc: Global, stations: &[Value]) -> Result<Option<String>, AllocError> {
    let count = stations.len();
    if count > STATIONS {
        let text = format!(in alloc; "stations_mm has {count} numbers, and may have {STATIONS}.")?;
        return Ok(Some(text));
    }
    for (at, station) in stations.iter().enumerate() {
        let x = number_of(station);
        if x < -1_000_000 || 1_000_000 < x {
            let number = at.saturating_add(1);
            let text = format!(in alloc;
                "Number {number} of stations_mm is {x}, and may be from -1000000 to 1000000."
            )?;
            return Ok(Some(text));
        }
    }
    Ok(None)
}

/// The first number of an array's tables that is out of its limits, or that there are too many.
fn array_beyond(
    alloc: Global,
    tables: &[Value],
    array: &ArrayKeys,
) -> Result<Option<String>, AllocError> {
    let count = tables.len();
    let name = array.name;
    let most = array.most;
    if count > most {
        let text = format!(in alloc; "{name} has {count} tables, and may have {most}.")?;
        return Ok(Some(text));
    }
    for (at, table) in tables.iter().enumerate() {
        let Some(table) = table.as_table() else {
            continue;
        };
        for limits in array.numbers {
            if !is_within(table, limits) {
                let number = at.saturating_add(1);
                let KeyLimits { key, low, high } = *limits;
                let value = number_in(table, key);
                let text = format!(in alloc;
                    "{key} of table {number} of [[{name}]] is {value}, and may be from {low} to {high}."
                )?;
                return Ok(Some(text));
            }
        }
    }
    Ok(None)
}

/// The first number that is out of its limits.
pub fn beyond_words(alloc: Global, table: &Table) -> Result<String, AllocError> {
    for limits in &SHIP {
        if !is_within(table, limits) {
            let KeyLimits { key, low, high } = *limits;
            let value = number_in(table, key);
            return Ok(format!(in alloc; "{key} is {value}, and may be from {low} to {high}.")?);
        }
    }
    if let Some(text) = stations_beyond(alloc, elements(table, "stations_mm"))? {
        return Ok(text);
    }
    for array in &ARRAYS {
        if let Some(text) = array_beyond(alloc, elements(table, array.name), array)? {
            return Ok(text);
        }
    }
    Ok(String::new(alloc))
}

/// The first station or frame that isn't forward of the one before it.
pub fn falling_words(alloc: Global, table: &Table) -> Result<String, AllocError> {
    let mut before: Option<i64> = None;
    for (at, station) in elements(table, "stations_mm").iter().enumerate() {
        let x = number_of(station);
        if let Some(last) = before {
            if x <= last {
                let number = at.saturating_add(1);
                let text = format!(in alloc;
                    "Number {number} of stations_mm is {x}, and the one before it {last}."
                )?;
                return Ok(text);
            }
        }
        before = Some(x);
    }
    let mut before: Option<i64> = None;
    for (at, frame) in elements(table, "frames").iter().enumerate() {
        let Some(frame) = frame.as_table() else {
            continue;
        };
        let x = number_in(frame, "x_mm");
        if let Some(last) = before {
            if x <= last {
                let number = at.saturating_add(1);
                let text = format!(in alloc;
                    "Frame {number} is at x_mm = {x}, and the one before it at {last}."
                )?;
                return Ok(text);
            }
        }
        before = Some(x);
    }
    Ok(String::new(alloc))
}

/// What there is too little of.
pub fn few_words(alloc: Global, table: &Table) -> Result<String, AllocError> {
    let stations = elements(table, "stations_mm").len();
    if stations < 2 {
        let count = many(alloc, count_of(stations), "number")?;
        return Ok(format!(in alloc; "stations_mm has {count}, and has to have 2.")?);
    }
    for array in &ARRAYS {
        if elements(table, array.name).len() < array.least {
            let name = array.name;
            return Ok(format!(in alloc; "{name} has no table.")?);
        }
    }
    Ok(String::new(alloc))
}
