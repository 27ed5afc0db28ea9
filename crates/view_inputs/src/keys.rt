//! What ship.toml holds, and the lines on which it stands.
use indexmap::IndexSet;
use std::alloc::{AllocError, Global};
use std::str::from_utf8;
use toml::{Table, Value};
use view_quotes::NumberedLine;

/// The keys of the document that are read, and the ship's name, which the view prints.
const KEYS: [&str; 11] = [
    "lbp_mm",
    "downflooding_deg",
    "draught_max_mm",
    "trim_max_mm",
    "list_max",
    "closing_max_kg",
    "stations_mm",
    "blocks",
    "frames",
    "fills",
    "name",
];

/// A number that a key of a table has, with its limits.
#[derive(Clone, Copy, Debug)]
pub struct KeyLimits {
    pub key: &'static str,
    pub low: i64,
    pub high: i64,
}

/// The greatest length in mm, and the greatest mass in kg.
const MM: i64 = 1_000_000;

const KG: i64 = 1_000_000_000;

/// The numbers of the document.
pub const SHIP: [KeyLimits; 6] = [
    KeyLimits {
        key: "lbp_mm",
        low: 1,
        high: MM,
    },
    KeyLimits {
        key: "downflooding_deg",
        low: 0,
        high: 90,
    },
    KeyLimits {
        key: "draught_max_mm",
        low: 1,
        high: 100_000,
    },
    KeyLimits {
        key: "trim_max_mm",
        low: 0,
        high: 100_000,
    },
    KeyLimits {
        key: "list_max",
        low: 0,
        high: 10_000,
    },
    KeyLimits {
        key: "closing_max_kg",
        low: 0,
        high: KG,
    },
];

/// The numbers of a block.
const BLOCK: [KeyLimits; 5] = [
    KeyLimits {
        key: "kg",
        low: 1,
        high: KG,
    },
    KeyLimits {
        key: "x_mm",
        low: -MM,
        high: MM,
    },
    KeyLimits {
        key: "y_mm",
        low: -MM,
        high: MM,
    },
    KeyLimits {
        key: "z_mm",
        low: -MM,
        high: MM,
    },
    KeyLimits {
        key: "half_mm",
        low: 0,
        high: MM,
    },
];

/// The numbers of a frame.
const FRAME: [KeyLimits; 4] = [
    KeyLimits {
        key: "x_mm",
        low: -MM,
        high: MM,
    },
    KeyLimits {
        key: "shear_max_kg",
        low: 0,
        high: KG,
    },
    KeyLimits {
        key: "hog_max_kgmm",
        low: 0,
        high: 1_000_000_000_000_000,
    },
    KeyLimits {
        key: "sag_max_kgmm",
        low: 0,
        high: 1_000_000_000_000_000,
    },
];

/// The number of a fill.
const FILL: [KeyLimits; 1] = [KeyLimits {
    key: "kg",
    low: 0,
    high: KG,
}];

/// An array of tables, with the numbers that each of these has.
#[derive(Clone, Copy, Debug)]
pub struct ArrayKeys {
    pub name: &'static str,
    /// Of a fill it comes before the numbers.
    pub has_tank: bool,
    pub numbers: &'static [KeyLimits],
    pub least: usize,
    pub most: usize,
}

/// The arrays of the document.
pub const ARRAYS: [ArrayKeys; 3] = [
    ArrayKeys {
        name: "blocks",
        has_tank: false,
        numbers: &BLOCK,
        least: 1,
        most: 200,
    },
    ArrayKeys {
        name: "frames",
        has_tank: false,
        numbers: &FRAME,
        least: 1,
        most: 16,
    },
    ArrayKeys {
        name: "fills",
        has_tank: true,
        numbers: &FILL,
        least: 0,
        most: 200,
    },
];

impl ArrayKeys {
    /// Whether each of its tables has such a key.
    fn has(&self, key: &str) -> bool {
        for number in self.numbers {
            if number.key == key {
                return true;
            }
        }
        self.has_tank && key == "tank"
    }
}

/// The document that the text of ship.toml is; nothing where it is none.
pub fn document(alloc: Global, text: &[u8]) -> Result<Option<Table>, AllocError> {
    match toml::table_from_slice(alloc, text) {
        Ok(table) => Ok(Some(table)),
        Err(error) if error.is_memory() => Err(AllocError),
        Err(_) => Ok(None),
    }
}

/// The elements of the array at a key of a document, none where there is no such array.
pub fn elements<'a>(table: &'a Table, key: &str) -> &'a [Value] {
    match table.get(key) {
        Some(value) => match value.as_array() {
            Some(array) => array.as_slice(),
            None => &[],
        },
        None => &[],
    }
}

/// The number at a key of a table; 0 where there is none.
pub fn number_in(table: &Table, key: &str) -> i64 {
    match table.get(key) {
        Some(value) => value.as_integer().unwrap_or(0),
        None => 0,
    }
}

/// The table of a number in the array at a key of a document, the first being 1.
pub fn table_at<'a>(table: &'a Table, key: &str, number: u32) -> Option<&'a Table> {
    let place = (number as usize).checked_sub(1)?;
    elements(table, key).get(place)?.as_table()
}

/// The text at a key of a table; empty where there is none.
pub fn text_in<'a>(table: &'a Table, key: &str) -> &'a str {
    match table.get(key) {
        Some(value) => value.as_str().unwrap_or(""),
        None => "",
    }
}

/// The word with which a line of a document begins, behind brackets and quotes.
fn first_word(line: &str) -> &str {
    let word = line
        .trim_start()
        .trim_start_matches('[')
        .trim_start()
        .trim_start_matches('"')
        .trim_start_matches('\'');
    for (at, byte) in word.bytes().enumerate() {
        let goes_on = byte.is_ascii_alphanumeric() || byte == b'_' || byte == b'-';
        if !goes_on {
            return word.get(..at).unwrap_or(word);
        }
    }
    word
}

/// Adds a name, where it isn't among the others.
fn add_name(
    alloc: Global,
    names: &mut IndexSet<Vec<u8>>,
    array: &str,
    key: &str,
) -> Result<(), AllocError> {
    let mut name = Vec::from_slice(alloc, array.as_bytes())?;
    if !array.is_empty() {
        name.push(b'.')?;
    }
    name.extend_from_slice(key.as_bytes())?;
    match names.insert(name) {
        Ok(_) => Ok(()),
        Err(_) => Err(AllocError),
    }
}

/// Whether a key of the document is read.
fn is_read(key: &str) -> bool {
    for name in &KEYS {
        if *name == key {
            return true;
        }
    }
    false
}

/// Adds the keys of the tables of an array that aren't read.
fn add_unread_of(
    alloc: Global,
    names: &mut IndexSet<Vec<u8>>,
    table: &Table,
    array: &ArrayKeys,
) -> Result<(), AllocError> {
    for element in elements(table, array.name) {
        if let Some(fields) = element.as_table() {
            for key in fields.keys() {
                if !array.has(key.as_str()) {
                    add_name(alloc, names, array.name, key.as_str())?;
                }
            }
        }
    }
    Ok(())
}

/// The keys of a document that aren't read: in the order of their lines, then those of the tables
/// of its arrays.
pub fn unread_keys(
    alloc: Global,
    text: &[u8],
    table: &Table,
) -> Result<IndexSet<Vec<u8>>, AllocError> {
    let mut names = IndexSet::new(alloc);
    if let Ok(text) = from_utf8(text) {
        for line in text.lines() {
            let word = first_word(line);
            if !is_read(word) && table.get(word).is_some() {
                add_name(alloc, &mut names, "", word)?;
            }
        }
    }
    for key in table.keys() {
        if !is_read(key.as_str()) {
            add_name(alloc, &mut names, "", key.as_str())?;
        }
    }
    for array in &ARRAYS {
        add_unread_of(alloc, &mut names, table, array)?;
    }
    Ok(names)
}

/// The line of a number among those of a text that begin so, behind blanks; the first is 1.
pub fn line_beginning<'a>(text: &'a [u8], front: &str, number: u32) -> Option<NumberedLine<'a>> {
    let text = from_utf8(text).ok()?;
    let mut left = number.checked_sub(1)?;
    let mut at = 0u64;
    for line in text.lines() {
        at = at.saturating_add(1);
        if line.trim_start().starts_with(front) {
            if left == 0 {
                return Some(NumberedLine {
                    number: at,
                    text: line.as_bytes(),
                });
            }
            left -= 1;
        }
    }
    None
}
