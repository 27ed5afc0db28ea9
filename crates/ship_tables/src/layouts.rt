use crate::extents::Extent;
use crate::faults::File;
use arrayvec::ArrayVec;
use units_core::Cell;

/// How a field of a CSV record is read.
#[derive(Clone, Copy, Debug, PartialEq, Eq)]
pub enum Column {
    /// As the number of a cell.
    Cell,
    /// As a name of 1 to 16 bytes.
    Name,
    /// As a number within these limits.
    Number { low: i64, high: i64 },
}

/// A field as read.
#[derive(Debug, Drop)]
pub enum Field {
    Cell(Cell),
    Name(ArrayVec<u8, 16>),
    Number(i64),
}

/// What a row keeps after the rows before it.
#[derive(Clone, Copy, Debug, PartialEq, Eq)]
pub enum Rule {
    /// Its cell is that of no earlier row.
    Distinct,
    /// Its first number is above that of the row before it, by at most `gap` where there is one.
    Rising { gap: Option<i64> },
    /// The file is at most `tables` tables, one after another. Each row begins with its table's
    /// name, and its number after the name is above that of the table's row before it, by at most
    /// `gap`.
    Together { gap: i64, tables: u8 },
}

/// The columns in which the rows of a file give the place of a body: its centre along the ship, and
/// half its length. The body has to be within the extent.
#[derive(Clone, Copy, Debug, PartialEq, Eq)]
pub struct Stands {
    pub extent: Extent,
    pub x: u8,
    pub half: u8,
}

/// A CSV file described as data: each file is one row of this kind, and one reader serves them all.
#[derive(Clone, Copy, Debug)]
pub struct Layout<'a> {
    pub file: File,
    pub columns: &'a [Column],
    /// The least number of rows of a table.
    pub least: u16,
    /// The greatest number of rows of a table.
    pub most: u16,
    pub rule: Rule,
    pub stands: Option<Stands>,
}
