ghost use Rattle.std.specs.Prelude.{◌≡◌, ◌≢◌, ◌++◌, ◌∷◌, [], ℕ, OnOk, IfOk, IfErr, IfSome, Ok, Err};
ghost use Rattle.csv.specs.Records.{fields_of};
ghost use Rattle.ship_tables.specs.declared.layouts.Field.TheVariants as field;
ghost use Rattle.ship_tables.specs.Tables.{form_of, field_in, row_in, number_at, first_cell};
ghost use Rattle.ship_tables.specs.Tables.{first_name};

use crate::faults::{File, TableFault};
use crate::layouts::{Column, Field, Layout};
use arrayvec::ArrayVec;
use csv::ByteRecord;
use csv_text::{number, text_at};
use std::alloc::Global;
use std::marker::Model;
use units_core::Cell;

/// A row of a table: the fields of a record as read.
#[derive(Debug, Drop)]
pub struct Row {
    fields: Vec<Field>,
}

impl Model for Row {
    ghost use Rattle.std.specs.Prelude.{List};
    ghost use Rattle.ship_tables.specs.declared.layouts.Field.{Field};

    ghost Value = { List Field };

    ghost view = { λ r. r.fields.items };
}

impl Row {
    /// The number in a column; 0 for a field that is none.
    pub fn number(&self, column: usize) -> i64
        ensures { result ≡ number_at self.now column }
    {
        match self.fields.get(column) {
            Some(Field::Number(number)) => *number,
            _ => 0,
        }
    }

    /// The cell that the row begins with.
    pub fn cell(&self) -> Option<Cell>
        ensures { result ≡ first_cell self.now }
    {
        match self.fields.first() {
            Some(Field::Cell(cell)) => Some(*cell),
            _ => None,
        }
    }

    /// The name that the row begins with; no byte where it begins with none.
    pub fn name(&self) -> &[u8]
        ensures { result.now ≡ first_name self.now }
    {
        match self.fields.first() {
            Some(Field::Name(name)) => name.as_slice(),
            _ => &[],
        }
    }
}

/// The name that a text is, 1 to 16 bytes, unchanged.
fn read_name(file: File, line: u32, text: &[u8]) -> Result<Field, TableFault>
    ensures { result ≡ field_in file line Column.Name text.now }
{
    let mut name = ArrayVec::new();
    if text.is_empty() || name.try_extend_from_slice(text).is_err() {
        return Err(TableFault::OutOfLimits(file, line));
    }
    Ok(Field::Name(name))
}

/// The field that a text is in its column.
pub fn read_field(file: File, line: u32, column: Column, text: &[u8]) -> Result<Field, TableFault>
    ensures { result ≡ field_in file line column text.now }
{
    match column {
        Column::Cell => match Cell::read(text) {
            Some(cell) => Ok(Field::Cell(cell)),
            None => Err(TableFault::BadNumber(file, line)),
        },
        Column::Name => read_name(file, line, text),
        Column::Number { low, high } => match number(text) {
            Some(number) if low <= number && number <= high => Ok(Field::Number(number)),
            Some(_) => Err(TableFault::OutOfLimits(file, line)),
            None => Err(TableFault::BadNumber(file, line)),
        },
    }
}

/// The number that a text is in its column, where it is one within the limits.
#[inline(always)]
fn plain_number(column: Column, text: &[u8]) -> Option<i64>
    ensures { IfSome result (λ z. (file : File) (line : ℕ)
        → field_in file line column text.now ≡ Ok (field.Number z)) }
{
    let Column::Number { low, high } = column else {
        return None;
    };
    let number = number(text)?;
    if low <= number && number <= high {
        Some(number)
    } else {
        None
    }
}

/// Adds the field that a text is in its column. A number is most often one within the limits, and
/// is added without a result to be looked into.
#[inline(always)]
fn add_field(
    file: File,
    line: u32,
    column: Column,
    text: &[u8],
    read: &mut Vec<Field>,
) -> Result<(), TableFault>
    ensures ok { OnOk result ((f : Field) × (field_in file line column text.now ≡ Ok f)
        × (read.new.items ≡ read.old.items ++ f ∷ [])) }
    ensures refused { IfErr result
        (λ e. e ≢ TableFault.NoMemory → field_in file line column text.now ≡ Err e) }
{
    match plain_number(column, text) {
        Some(number) => read.push(Field::Number(number))?,
        None => {
            let field = read_field(file, line, column, text)?;
            read.push(field)?;
        }
    }
    Ok(())
}

/// The row that a record is, each field by its column from left to right.
pub fn read_row(
    alloc: Global,
    layout: &Layout<'_>,
    line: u32,
    fields: &ByteRecord,
) -> Result<Row, TableFault>
    ensures ok { IfOk result
        (λ row. row_in (form_of layout.now) line (fields_of fields.now) ≡ Ok row) }
    ensures refused { IfErr result (λ e. e ≢ TableFault.NoMemory
        → row_in (form_of layout.now) line (fields_of fields.now) ≡ Err e) }
{
    if fields.len() != layout.columns.len() {
        return Err(TableFault::BadCsv(layout.file, line));
    }
    let mut read = Vec::with_capacity(alloc, layout.columns.len())?;
    for (place, column) in layout.columns.iter().enumerate() {
        let text = text_at(fields, place);
        add_field(layout.file, line, *column, text, &mut read)?;
    }
    Ok(Row { fields: read })
}
