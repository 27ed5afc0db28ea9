//! The cells of a ship, as the records of her cells.csv have them.
use csv::ByteRecord;
use csv_text::{next_record, number, open_records};
use std::alloc::{AllocError, Global};
use units_core::Cell;
use view_quotes::{PlainLines, field, number_at, split_field};

/// The first tier on deck: those below stand in a hold.
pub const DECK: u8 = 70;

/// A record of cells.csv: a cell, and the place of a container in it, in mm.
#[derive(Clone, Copy, Debug)]
pub struct CellRow {
    pub cell: Cell,
    pub x: i64,
    pub y: i64,
    pub z: i64,
    pub half: i64,
    /// The number of the record, the heading being 1.
    pub record: u32,
}

/// The number that the first field of what is left of a line writes, 0 where it writes none, and
/// what is behind it.
fn split_number(line: &[u8]) -> (i64, &[u8]) {
    let (field, rest) = split_field(line);
    (number(field).unwrap_or(0), rest)
}

/// The row of a line without quotes, where it names a cell.
fn row_of_line(line: &[u8], record: u32) -> Option<CellRow> {
    let (name, rest) = split_field(line);
    let cell = cell_named(name)?;
    let (x, rest) = split_number(rest);
    let (y, rest) = split_number(rest);
    let (z, rest) = split_number(rest);
    let (half, _) = split_number(rest);
    Some(CellRow {
        cell,
        x,
        y,
        z,
        half,
        record,
    })
}

/// The cells of the records of a table without quotes.
fn plain_cells(
    alloc: Global,
    most: usize,
    lines: PlainLines<'_>,
) -> Result<Vec<CellRow>, AllocError> {
    let mut rows = Vec::new(alloc);
    let mut lines = lines;
    let mut record = 0u32;
    for _ in 0..=most {
        let Some(line) = lines.next_line() else {
            break;
        };
        if line.is_empty() {
            continue;
        }
        record = record.saturating_add(1);
        if record < 2 {
            continue;
        }
        if let Some(row) = row_of_line(line, record) {
            rows.push(row)?;
        }
    }
    Ok(rows)
}

/// The cells of the records that name one, in their order.
pub fn cells_in(alloc: Global, text: &[u8]) -> Result<Vec<CellRow>, AllocError> {
    match PlainLines::of(text) {
        Some(lines) => plain_cells(alloc, text.len(), lines),
        None => quoted_cells(alloc, text),
    }
}

/// The cells of the records of any table.
fn quoted_cells(alloc: Global, text: &[u8]) -> Result<Vec<CellRow>, AllocError> {
    let mut rows = Vec::new(alloc);
    let mut reader = open_records(alloc, text);
    let mut fields = ByteRecord::new(alloc);
    let mut record = 0u32;
    for _ in 0..text.len() {
        if !next_record(&mut reader, &mut fields)? {
            break;
        }
        record = record.saturating_add(1);
        if record < 2 {
            continue;
        }
        if let Some(cell) = cell_named(field(&fields, 0)) {
            rows.push(CellRow {
                cell,
                x: number_at(&fields, 1),
                y: number_at(&fields, 2),
                z: number_at(&fields, 3),
                half: number_at(&fields, 4),
                record,
            })?;
        }
    }
    Ok(rows)
}

/// The cell that a field names, with blanks around it or not.
pub fn cell_named(text: &[u8]) -> Option<Cell> {
    let mut digits = text;
    for _ in 0..text.len() {
        digits = match digits {
            [b' ', rest @ ..] => rest,
            [rest @ .., b' '] => rest,
            _ => break,
        };
    }
    Cell::read(digits)
}

/// A cell in its seven digits.
pub fn cell_text(alloc: Global, cell: Cell) -> Result<String, AllocError> {
    let Cell { bay, row, tier } = cell;
    let text = format!(in alloc; "{bay:03}{row:02}{tier:02}")?;
    Ok(text)
}
