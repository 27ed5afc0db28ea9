ghost use Rattle.std.specs.Prelude.{◌≡◌, ◌≢◌, ◌<◌, ◌+◌, ◌-◌, ◌^◌, List, [], ◌∷◌, ◌++◌, length, map};
ghost use Rattle.std.specs.Prelude.{slice_get, option_map, nat_lt, int_lt, ◌-ℤ◌, true, false, None};
ghost use Rattle.std.specs.Prelude.{OnOk, IfOk, IfErr, Ok, Err};
ghost use Rattle.std.specs.List.{list_any};
ghost use Rattle.std.specs.Str.{bytes_eq};
ghost use Rattle.csv.specs.Records.{fields_of};
ghost use Rattle.csv_text.specs.Reading.{Fields, HasLeft, Gave};
ghost use Rattle.ship_tables.specs.Gathering.{read_by, names_held, HasGathered, seen_by};
ghost use Rattle.ship_tables.specs.Gathering.{remembered};
ghost use Rattle.ship_tables.specs.Tables.{form_of, heading_read, so_far, tables_after};
ghost use Rattle.ship_tables.specs.Tables.{tables_read, belongs, step_fault, rise_fault};
ghost use Rattle.ship_tables.specs.Tables.{double_fault, rule_fault, room_fault, table_fault};
ghost use Rattle.ship_tables.specs.Tables.{begin_fault, most_tables, table_name, ended_rows};
ghost use Rattle.ship_tables.specs.Tables.{place_fault, row_fault, with_row, added, is_short};
ghost use Rattle.ship_tables.specs.Tables.{enough, read_under, read_of, file_in};

use crate::extents::encloses;
use crate::faults::{File, TableFault};
use crate::layouts::{Layout, Rule, Stands};
use crate::rows::{Row, read_row};
use csv::{ByteRecord, Reader};
use csv_text::{next_record, open_records};
use indexmap::IndexSet;
use std::alloc::Global;
use std::marker::Model;
use std::mem;
use units_core::Cell;

/// A table of a file, row by row.
#[derive(Debug, Drop)]
pub struct Table {
    pub rows: Vec<Row>,
}

impl Model for Table {
    ghost use Rattle.std.specs.Prelude.{List};
    ghost use Rattle.ship_tables.specs.Tables.{Row};

    ghost Value = { List Row };

    ghost view = { λ t. t.rows.items };
}

impl Table {
    fn len(&self) -> usize
        ensures { result ≡ length self.now }
    {
        self.rows.len()
    }
}

/// What was read of a file: the number of the record that comes next, the tables that have ended,
/// the rows of the one that is being read; and the cells by which a double is known, the names by
/// which a table that has ended is.
#[derive(Debug, Drop)]
pub struct Gathered {
    line: u32,
    pub ended: Vec<Table>,
    pub rows: Vec<Row>,
    pub cells: IndexSet<Cell>,
    pub names: IndexSet<Vec<u8>>,
}

/// Whether a row belongs to the table that is being read.
fn belongs(rule: Rule, rows: &[Row], row: &Row) -> bool
    ensures { result ≡ belongs rule rows.now row.now }
{
    match rule {
        Rule::Together { .. } => match rows.first() {
            Some(first) => row.name() == first.name(),
            None => false,
        },
        _ => true,
    }
}

/// Whether a number is further above another than a gap.
fn is_beyond(from: i64, to: i64, gap: i64) -> bool
    ensures { result ≡ int_lt gap (to -ℤ from) }
{
    i128::from(gap) < i128::from(to) - i128::from(from)
}

/// Why a number can't follow that of the row before it.
fn step_fault(file: File, line: u32, gap: Option<i64>, from: i64, to: i64) -> Option<TableFault>
    ensures { result ≡ step_fault file line gap from to }
{
    if from >= to {
        return Some(TableFault::NotRising(file, line));
    }
    match gap {
        Some(gap) if is_beyond(from, to, gap) => Some(TableFault::OutOfLimits(file, line)),
        _ => None,
    }
}

/// Why a row can't follow the last one before it, by the numbers of a column.
fn rise_fault(
    file: File,
    line: u32,
    gap: Option<i64>,
    column: usize,
    row: &Row,
    before: &[Row],
) -> Option<TableFault>
    ensures { result
        ≡ rise_fault file line gap column row.now (slice_get before.now (length before.now - 1)) }
{
    let last = before.last()?;
    step_fault(file, line, gap, last.number(column), row.number(column))
}

/// Why a cell can't follow those that were seen.
fn double_fault(line: u32, seen: &IndexSet<Cell>, cell: Option<Cell>) -> Option<TableFault>
    ensures { result ≡ double_fault line seen.now.keys cell }
{
    if seen.contains(&cell?) {
        Some(TableFault::DoubleCell(line))
    } else {
        None
    }
}

/// Why a row can't follow those before it in its table by the rule.
fn rule_fault(
    layout: &Layout<'_>,
    line: u32,
    seen: &IndexSet<Cell>,
    rows: &[Row],
    row: &Row,
) -> Option<TableFault>
    requires { seen.now.keys ≡ seen_by layout.now.rule rows.now }
    ensures { result ≡ rule_fault layout.now.rule layout.now.file line rows.now row.now }
{
    match layout.rule {
        Rule::Distinct => double_fault(line, seen, row.cell()),
        Rule::Rising { gap } => rise_fault(layout.file, line, gap, 0, row, rows),
        Rule::Together { gap, .. } => rise_fault(layout.file, line, Some(gap), 1, row, rows),
    }
}

/// Why a table of `rows` rows can't take one more.
fn room_fault(file: File, line: u32, most: usize, rows: usize) -> Option<TableFault>
    ensures { result ≡ room_fault file line most rows }
{
    if rows < most {
        None
    } else {
        Some(TableFault::OutOfLimits(file, line))
    }
}

/// The greatest number of tables of a file.
fn most_tables(rule: Rule) -> u8
    ensures { result ≡ most_tables rule }
{
    match rule {
        Rule::Together { tables, .. } => tables,
        _ => 1,
    }
}

/// The number of rows of a table that has ended.
fn rows_of(ended: &[Table], number: usize) -> Option<usize>
    ensures { result ≡ option_map (λ t. length t) (slice_get ended.now number) }
{
    if number < ended.len() {
        Some(ended[number].len())
    } else {
        None
    }
}

/// The number of rows of the table of a name, if it has ended.
fn row_count(ended: &[Table], rows: &[Row], names: &IndexSet<Vec<u8>>, name: &[u8]) -> Option<usize>
    requires { map (λ v. v.items) names.now.keys
        ≡ map table_name (tables_after ended.now rows.now) }
    ensures { result ≡ ended_rows name.now ended.now }
{
    let number = names.get_index_of(name)?;
    rows_of(ended, number)
}

/// Why a row can't begin a table, by the number of rows of the table of its name that has ended.
fn begin_fault(
    file: File,
    line: u32,
    most: usize,
    tables: usize,
    begun: usize,
    ended: Option<usize>,
) -> Option<TableFault>
    ensures { result ≡ begin_fault file line most tables begun ended }
{
    match ended {
        Some(rows) if rows < most => Some(TableFault::NotRising(file, line)),
        Some(_) => Some(TableFault::OutOfLimits(file, line)),
        None if begun < tables => None,
        None => Some(TableFault::OutOfLimits(file, line)),
    }
}

/// Why a row's body can't be at its place.
fn place_fault(stands: Option<Stands>, file: File, line: u32, row: &Row) -> Option<TableFault>
    ensures { result ≡ place_fault stands file line row.now }
{
    let stands = stands?;
    let x = row.number(usize::from(stands.x));
    let half = row.number(usize::from(stands.half));
    if encloses(stands.extent, x, half) {
        None
    } else {
        Some(TableFault::OutsideStations(file, line))
    }
}

/// Why a row can't come next in its table, or begin one.
fn table_fault(layout: &Layout<'_>, gathered: &Gathered, row: &Row) -> Option<TableFault>
    requires { HasGathered (form_of layout.now) gathered.now }
    ensures value { result ≡ table_fault (form_of layout.now) (read_by gathered.now) row.now }
    ensures rows { layout.now.most < 2 ^ 16 }
    ensures tables { most_tables layout.now.rule < 2 ^ 8 }
{
    let most = usize::from(layout.most);
    let tables = usize::from(most_tables(layout.rule));
    let rows = gathered.rows.as_slice();
    if belongs(layout.rule, rows, row) {
        if let Some(fault) = room_fault(layout.file, gathered.line, most, rows.len()) {
            return Some(fault);
        }
        return rule_fault(layout, gathered.line, &gathered.cells, rows, row);
    }
    let ended = gathered.ended.as_slice();
    let begun = ended.len() + usize::from(!rows.is_empty());
    let other = row_count(ended, rows, &gathered.names, row.name());
    begin_fault(layout.file, gathered.line, most, tables, begun, other)
}

/// Why a row can't come after what was read.
fn row_fault(layout: &Layout<'_>, gathered: &Gathered, row: &Row) -> Option<TableFault>
    requires { HasGathered (form_of layout.now) gathered.now }
    ensures value { result ≡ row_fault (form_of layout.now) (read_by gathered.now) row.now }
    ensures rows { layout.now.most < 2 ^ 16 }
    ensures tables { most_tables layout.now.rule < 2 ^ 8 }
{
    match table_fault(layout, gathered, row) {
        Some(fault) => Some(fault),
        None => place_fault(layout.stands, layout.file, gathered.line, row),
    }
}

/// Remembers the cell of one more row, where the rule asks for it.
fn remember(rule: Rule, seen: &mut IndexSet<Cell>, cell: Option<Cell>) -> Result<(), TableFault>
    ensures kept { OnOk result (seen.new.keys ≡ remembered rule seen.old.keys cell) }
    ensures memory { IfErr result (λ e. e ≡ TableFault.NoMemory) }
{
    match (rule, cell) {
        (Rule::Distinct, Some(cell)) => {
            seen.insert(cell)?;
            Ok(())
        }
        _ => Ok(()),
    }
}

/// Keeps the name of a table that begins.
fn remember_name(
    alloc: Global,
    names: &mut IndexSet<Vec<u8>>,
    name: &[u8],
) -> Result<(), TableFault>
    requires { list_any (bytes_eq name.now) (map (λ v. v.items) names.old.keys) ≡ false }
    ensures kept { OnOk result
        (map (λ v. v.items) names.new.keys ≡ map (λ v. v.items) names.old.keys ++ name.now ∷ []) }
    ensures memory { IfErr result (λ e. e ≡ TableFault.NoMemory) }
{
    let name = Vec::from_slice(alloc, name)?;
    names.insert(name)?;
    Ok(())
}

/// Ends the table that is being read, if it has a row.
pub fn end_table(
    alloc: Global,
    ended: &mut Vec<Table>,
    rows: &mut Vec<Row>,
) -> Result<(), TableFault>
    ensures ended { OnOk result (ended.new.items ≡ tables_after ended.old.items rows.old.items) }
    ensures none { rows.new.items ≡ [] }
    ensures memory { IfErr result (λ e. e ≡ TableFault.NoMemory) }
{
    let rows = mem::replace(rows, Vec::new(alloc));
    if rows.is_empty() {
        return Ok(());
    }
    ended.push(Table { rows })?;
    Ok(())
}

/// Keeps one more row of the table that is being read.
fn keep_in_table(layout: &Layout<'_>, gathered: &mut Gathered, row: Row) -> Result<(), TableFault>
    requires gathered { HasGathered (form_of layout.now) gathered.old }
    requires comes { row_fault (form_of layout.now) (read_by gathered.old) row ≡ None }
    requires rows { layout.now.most < 2 ^ 16 }
    requires tables { most_tables layout.now.rule < 2 ^ 8 }
    requires belongs { belongs layout.now.rule gathered.old.rows.items row ≡ true }
    ensures kept { OnOk result (read_by gathered.new ≡ so_far
        (gathered.old.line + 1) gathered.old.ended.items (gathered.old.rows.items ++ row ∷ [])) }
    ensures gathered { OnOk result (HasGathered (form_of layout.now) gathered.new) }
    ensures memory { IfErr result (λ e. e ≡ TableFault.NoMemory) }
{
    remember(layout.rule, &mut gathered.cells, row.cell())?;
    gathered.rows.push(row)?;
    gathered.line += 1;
    Ok(())
}

/// Keeps the first row of the next table.
fn keep_in_next(
    alloc: Global,
    layout: &Layout<'_>,
    gathered: &mut Gathered,
    row: Row,
) -> Result<(), TableFault>
    requires gathered { HasGathered (form_of layout.now) gathered.old }
    requires comes { row_fault (form_of layout.now) (read_by gathered.old) row ≡ None }
    requires rows { layout.now.most < 2 ^ 16 }
    requires tables { most_tables layout.now.rule < 2 ^ 8 }
    requires begins { belongs layout.now.rule gathered.old.rows.items row ≡ false }
    ensures kept { OnOk result (read_by gathered.new
        ≡ so_far (gathered.old.line + 1) (tables_read (read_by gathered.old)) (row ∷ [])) }
    ensures gathered { OnOk result (HasGathered (form_of layout.now) gathered.new) }
    ensures memory { IfErr result (λ e. e ≡ TableFault.NoMemory) }
{
    remember_name(alloc, &mut gathered.names, row.name())?;
    end_table(alloc, &mut gathered.ended, &mut gathered.rows)?;
    gathered.rows.push(row)?;
    gathered.line += 1;
    Ok(())
}

/// Keeps one more row, which can come.
fn keep_row(
    alloc: Global,
    layout: &Layout<'_>,
    gathered: &mut Gathered,
    row: Row,
) -> Result<(), TableFault>
    requires gathered { HasGathered (form_of layout.now) gathered.old }
    requires comes { row_fault (form_of layout.now) (read_by gathered.old) row ≡ None }
    requires rows { layout.now.most < 2 ^ 16 }
    requires tables { most_tables layout.now.rule < 2 ^ 8 }
    ensures kept { OnOk result
        (read_by gathered.new ≡ with_row layout.now.rule (read_by gathered.old) row) }
    ensures gathered { OnOk result (HasGathered (form_of layout.now) gathered.new) }
    ensures memory { IfErr result (λ e. e ≡ TableFault.NoMemory) }
{
    if belongs(layout.rule, gathered.rows.as_slice(), &row) {
        keep_in_table(layout, gathered, row)
    } else {
        keep_in_next(alloc, layout, gathered, row)
    }
}

/// Adds the row that a record is.
fn add_row(
    alloc: Global,
    layout: &Layout<'_>,
    gathered: &mut Gathered,
    fields: &ByteRecord,
) -> Result<(), TableFault>
    requires { HasGathered (form_of layout.now) gathered.old }
    ensures ok { OnOk result (added (form_of layout.now) (read_by gathered.old)
        (fields_of fields.now) ≡ Ok (read_by gathered.new)) }
    ensures refused { IfErr result (λ e. e ≢ TableFault.NoMemory
        → added (form_of layout.now) (read_by gathered.old) (fields_of fields.now) ≡ Err e) }
    ensures line { OnOk result (gathered.new.line ≡ gathered.old.line + 1) }
    ensures gathered { OnOk result (HasGathered (form_of layout.now) gathered.new) }
{
    let row = read_row(alloc, layout, gathered.line, fields)?;
    if let Some(fault) = row_fault(layout, gathered, &row) {
        return Err(fault);
    }
    keep_row(alloc, layout, gathered, row)
}

/// Whether one of the tables has too few rows.
fn any_short(tables: &[Table], least: usize) -> bool
    ensures { result ≡ list_any (λ t. nat_lt (length t) least) tables.now }
{
    tables.iter().any(|table| table.len() < least)
}

/// Whether a table of the file has too few rows.
fn is_short(layout: &Layout<'_>, gathered: &Gathered) -> bool
    ensures { result ≡ is_short layout.now.rule layout.now.least (read_by gathered.now) }
{
    let least = usize::from(layout.least);
    let rows = gathered.rows.len();
    match layout.rule {
        Rule::Together { .. } => any_short(gathered.ended.as_slice(), least)
            || (0 < rows && rows < least),
        _ => rows < least,
    }
}

/// What was gathered, where no table has too few rows.
fn finish(layout: &Layout<'_>, gathered: Gathered) -> Result<Gathered, TableFault>
    ensures same { IfOk result (λ g. g ≡ gathered) }
    ensures ok { IfOk result
        (λ g. enough (form_of layout.now) (read_by gathered) ≡ Ok (read_by g)) }
    ensures refused { IfErr result (λ e. enough (form_of layout.now) (read_by gathered) ≡ Err e) }
{
    if is_short(layout, &gathered) {
        return Err(TableFault::TooFewRows(layout.file));
    }
    Ok(gathered)
}

/// What the records under the heading are.
fn read_rest(
    alloc: Global,
    layout: &Layout<'_>,
    reader: &mut Reader<&[u8]>,
    fields: &mut ByteRecord,
) -> Result<Gathered, TableFault>
    ensures ok { IfOk result (λ g. (rest : List Fields) → HasLeft reader.old rest
        → read_under (form_of layout.now) rest ≡ Ok (read_by g)) }
    ensures gathered { IfOk result (λ g. HasGathered (form_of layout.now) g) }
    ensures refused { IfErr result (λ e. e ≢ TableFault.NoMemory → (rest : List Fields)
        → HasLeft reader.old rest → read_under (form_of layout.now) rest ≡ Err e) }
{
    let mut gathered = nothing_gathered(alloc);
    while found_record(reader, fields)? {
        add_row(alloc, layout, &mut gathered, fields)?;
    }
    finish(layout, gathered)
}

/// A reader that has read the heading.
fn nothing_gathered(alloc: Global) -> Gathered
    ensures value { read_by result ≡ heading_read }
    ensures cells { result.cells.keys ≡ [] }
    ensures names { names_held result ≡ [] }
{
    Gathered {
        line: 2,
        ended: Vec::new(alloc),
        rows: Vec::new(alloc),
        cells: IndexSet::new(alloc),
        names: IndexSet::new(alloc),
    }
}

/// Reads the next record; false at the end of the text.
pub fn found_record(reader: &mut Reader<&[u8]>, fields: &mut ByteRecord) -> Result<bool, TableFault>
    ensures ok { IfOk result (λ found. (rest : List Fields) → HasLeft reader.old rest
        → Gave found (fields_of fields.new) rest reader.new) }
    ensures memory { IfErr result (λ e. e ≡ TableFault.NoMemory) }
{
    match next_record(reader, fields) {
        Ok(found) => Ok(found),
        Err(_) => Err(TableFault::NoMemory),
    }
}

/// What the records of a file are, the heading first.
fn read_all(
    alloc: Global,
    layout: &Layout<'_>,
    reader: &mut Reader<&[u8]>,
    fields: &mut ByteRecord,
) -> Result<Gathered, TableFault>
    ensures ok { IfOk result (λ g. (rest : List Fields) → HasLeft reader.old rest
        → read_of (form_of layout.now) rest ≡ Ok (read_by g)) }
    ensures gathered { IfOk result (λ g. HasGathered (form_of layout.now) g) }
    ensures refused { IfErr result (λ e. e ≢ TableFault.NoMemory → (rest : List Fields)
        → HasLeft reader.old rest → read_of (form_of layout.now) rest ≡ Err e) }
{
    if !found_record(reader, fields)? {
        return finish(layout, nothing_gathered(alloc));
    }
    if fields.len() != layout.columns.len() {
        return Err(TableFault::BadCsv(layout.file, 1));
    }
    read_rest(alloc, layout, reader, fields)
}

/// What the text of a file writes.
pub fn read_file(alloc: Global, layout: &Layout<'_>, text: &[u8]) -> Result<Gathered, TableFault>
    ensures ok { IfOk result (λ g. file_in (form_of layout.now) text.now ≡ Ok (read_by g)) }
    ensures gathered { IfOk result (λ g. HasGathered (form_of layout.now) g) }
    ensures refused { IfErr result
        (λ e. e ≢ TableFault.NoMemory → file_in (form_of layout.now) text.now ≡ Err e) }
{
    let mut reader = open_records(alloc, text);
    let mut fields = ByteRecord::new(alloc);
    read_all(alloc, layout, &mut reader, &mut fields)
}
