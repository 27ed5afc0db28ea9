//! The columns of a profile's tables: what they are called, and between what their numbers lie.
use plain_text::in_thousandths;
use ship_profile::File;
use std::alloc::{AllocError, Global};

/// The greatest length in mm, and the greatest mass in kg.
const MM: i64 = 1_000_000;

const KG: i64 = 1_000_000_000;

/// How many fields a record of a table has, that of the Bonjean curves for so many stations.
pub fn fields_of(file: File, stations: usize) -> usize {
    match file {
        File::Ship => 0,
        File::Cells => 5,
        File::Hydro => 6,
        File::Levers => 14,
        File::Bonjean => stations.saturating_add(1),
        File::Tanks => 7,
        File::LeastGm => 2,
    }
}

/// How many records a table has at most behind its heading.
pub fn most_records(file: File) -> u32 {
    match file {
        File::Ship | File::Tanks => 0,
        File::Cells => 30_000,
        File::Hydro | File::LeastGm => 200,
        File::Levers | File::Bonjean => 64,
    }
}

/// The least and the greatest number of a column, the first being 0; nothing of one that holds
/// cells or names.
pub fn limits_of(file: File, column: usize) -> Option<(i64, i64)> {
    match (file, column) {
        (File::Ship, _) | (File::Cells | File::Tanks, 0) => None,
        (File::Hydro | File::Levers | File::LeastGm, 0) => Some((1, KG)),
        (File::Bonjean, 0) | (File::Hydro, 1) => Some((0, 100_000)),
        (File::Bonjean, _) => Some((0, 100_000_000)),
        (File::Cells, 1..=3) | (File::Tanks, 2..=4) | (File::Hydro, 3..=4) => Some((-MM, MM)),
        (File::Hydro, 5) => Some((1, KG)),
        (File::Tanks, 1) => Some((0, KG)),
        (File::Tanks, 6) => Some((0, 1_000_000_000_000)),
        _ => Some((0, MM)),
    }
}

/// What a place's columns are called, behind that of its cell or of its mass.
fn place_name(column: usize) -> &'static str {
    match column {
        0 => "x",
        1 => "y",
        2 => "z",
        _ => "half",
    }
}

/// What a column is called.
pub fn name_of(alloc: Global, file: File, column: usize) -> Result<String, AllocError> {
    let name = match (file, column) {
        (File::Levers, 1..) => {
            let degrees = column.saturating_sub(1).saturating_mul(5);
            return Ok(format!(in alloc; "KN at {degrees} degrees")?);
        }
        (File::Hydro | File::Levers | File::LeastGm, 0) => "displacement",
        (File::Bonjean, 0) | (File::Hydro, 1) => "draught",
        (File::Bonjean, _) => "area",
        (File::Hydro, 2) => "KMT",
        (File::Hydro, 3) => "LCB",
        (File::Hydro, 4) => "LCF",
        (File::Hydro, _) => "MCT",
        (File::LeastGm, _) => "least GM",
        (File::Tanks, 1) => "mass",
        (File::Tanks, 6) => "free surface moment",
        (File::Tanks, _) => place_name(column.saturating_sub(2)),
        _ => place_name(column.saturating_sub(1)),
    };
    String::from_str(alloc, name)
}

/// By how much a record lies above the one before it, in tonnes, where that is too much.
pub fn gap_words(alloc: Global, kg: i64) -> Result<String, AllocError> {
    let tonnes = in_thousandths(alloc, i128::from(kg))?;
    let text = format!(in alloc;
        "It lies {tonnes} t above the record before it, and may lie 100000 t."
    )?;
    Ok(text)
}
