ghost use Rattle.std.specs.Prelude.{◌≡◌, ◌≤◌, ◌≤ℤ◌, ◌++◌, ◌∷◌, [], true, ℕ, List, length, zip, pos};
ghost use Rattle.std.specs.Prelude.{neg_ℤ, Ok, IfOk, IfErr, IfSome};
ghost use Rattle.csv.specs.Records.{fields_of};
ghost use Rattle.csv_text.specs.Reading.{Fields, HasLeft};
ghost use Rattle.ship_tables.specs.declared.layouts.Column.TheVariants as column;
ghost use Rattle.ship_tables.specs.declared.layouts.Field.TheVariants as field;
ghost use Rattle.ship_tables.specs.Plain.{IsPlain, ArePlain};
ghost use Rattle.ship_tables.specs.Lookup.{AreApart};
ghost use Rattle.ship_tables.specs.Record.{places_in};
ghost use Rattle.ship_tables.specs.Tables.{field_in};

use crate::cell_lists::GrowingList;
use crate::extents::Extent;
use crate::faults::{File, TableFault};
use crate::forms::{MAX_CELLS, MAX_LENGTH};
use crate::places::CellPlaces;
use crate::reading::found_record;
use csv::{ByteRecord, Reader};
use csv_text::{number, open_records, text_at};
use std::alloc::Global;
use units_core::{Cell, Mm, Place};

/// The number of columns of `cells.csv`.
const COLUMNS: usize = 5;

/// The columns of `cells.csv`, as far as they are read.
#[derive(Debug, Drop)]
struct Columns {
    list: GrowingList,
    places: Vec<Place>,
}

/// The length that a field writes, where it is one from `low` on.
#[inline(always)]
fn length_in(text: &[u8], low: i64) -> Option<Mm>
    requires { neg_ℤ (pos 1000000) ≤ℤ low }
    ensures { IfSome result (λ m. (line : ℕ) → field_in File.Cells line
        (column.Number low (pos 1000000)) text.now ≡ Ok (field.Number m)) }
{
    let mm = number(text)?;
    if low <= mm && mm <= MAX_LENGTH {
        Some(Mm::of(mm))
    } else {
        None
    }
}

/// The cell and the place of a record, where it is a row of `cells.csv` for a ship of this extent
/// by itself.
fn plain_row(extent: &Extent, fields: &ByteRecord) -> Option<(Cell, Place)>
    requires { length (fields_of fields.now) ≡ 5 }
    ensures { IfSome result (λ r. IsPlain extent.now (fields_of fields.now) r.0 r.1) }
{
    let cell = Cell::read(text_at(fields, 0))?;
    let x = length_in(text_at(fields, 1), -MAX_LENGTH)?;
    let y = length_in(text_at(fields, 2), -MAX_LENGTH)?;
    let z = length_in(text_at(fields, 3), -MAX_LENGTH)?;
    let half = length_in(text_at(fields, 4), 0)?;
    let place = Place { x, y, z, half };
    if extent.holds(&place) {
        Some((cell, place))
    } else {
        None
    }
}

/// Adds the row that a record is; false where it isn't one by itself, or its cell is there already.
fn add_row(extent: &Extent, columns: &mut Columns, fields: &ByteRecord) -> Result<bool, TableFault>
    ensures added { IfOk result (λ added. added ≡ true → (c : Cell) × (p : Place)
        × IsPlain extent.now (fields_of fields.now) c p
        × (columns.new.list.cells.items ≡ columns.old.list.cells.items ++ c ∷ [])
        × (columns.new.places.items ≡ columns.old.places.items ++ p ∷ [])) }
    ensures memory { IfErr result (λ e. e ≡ TableFault.NoMemory) }
{
    if fields.len() != COLUMNS {
        return Ok(false);
    }
    let Some((cell, place)) = plain_row(extent, fields) else {
        return Ok(false);
    };
    if !columns.list.add(cell)? {
        return Ok(false);
    }
    columns.places.push(place)?;
    Ok(true)
}

/// The columns of the records that are left, where each is a row by itself and none has the cell of
/// another, as far as the tables of the cells tell.
fn read_columns(
    alloc: Global,
    extent: &Extent,
    reader: &mut Reader<&[u8]>,
    fields: &mut ByteRecord,
) -> Result<Option<Columns>, TableFault>
    ensures read { IfOk result (λ o. IfSome o (λ c. (rest : List Fields) → HasLeft reader.old rest
        → ArePlain extent.now rest c.list.cells.items c.places.items)) }
    ensures few { IfOk result (λ o. IfSome o (λ c. length c.places.items ≤ 30000)) }
    ensures even { IfOk result
        (λ o. IfSome o (λ c. length c.places.items ≡ length c.list.cells.items)) }
    ensures memory { IfErr result (λ e. e ≡ TableFault.NoMemory) }
{
    let mut columns = Columns {
        list: GrowingList::new(alloc),
        places: Vec::new(alloc),
    };
    for _ in 0..MAX_CELLS + 1 {
        if !found_record(reader, fields)? {
            return Ok(Some(columns));
        }
        if !add_row(extent, &mut columns, fields)? {
            return Ok(None);
        }
    }
    Ok(None)
}

/// The cells of columns, where there is one and no two are equal.
fn settle(columns: Columns) -> Option<CellPlaces>
    requires { length columns.places.items ≡ length columns.list.cells.items }
    ensures value { IfSome result (λ c. c ≡ zip columns.list.cells.items columns.places.items) }
    ensures some { IfSome result (λ c. 1 ≤ length columns.places.items) }
    ensures apart { IfSome result (λ c. AreApart columns.list.cells.items) }
{
    let Columns { list, places } = columns;
    if places.is_empty() {
        return None;
    }
    let cells = list.finish()?;
    Some(CellPlaces::of(cells, places))
}

/// The cells that the text of `cells.csv` writes for a ship of this extent, read straight into
/// their columns; `None` where it has a fault, and where that isn't sure.
pub fn read_plain(
    alloc: Global,
    extent: &Extent,
    text: &[u8],
) -> Result<Option<CellPlaces>, TableFault>
    ensures ok { IfOk result (λ o. IfSome o (λ c. places_in extent.now text.now ≡ Ok c)) }
    ensures memory { IfErr result (λ e. e ≡ TableFault.NoMemory) }
{
    let mut reader = open_records(alloc, text);
    let mut fields = ByteRecord::new(alloc);
    if !found_record(&mut reader, &mut fields)? {
        return Ok(None);
    }
    if fields.len() != COLUMNS {
        return Ok(None);
    }
    match read_columns(alloc, extent, &mut reader, &mut fields)? {
        Some(columns) => Ok(settle(columns)),
        None => Ok(None),
    }
}
