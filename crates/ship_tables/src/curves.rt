ghost use Rattle.std.specs.Prelude.{◌≡◌, ◌≢◌, ◌↔◌, IsTrue, ◌<◌, length, option_map, slice_get, Ok};
ghost use Rattle.std.specs.Prelude.{Err, IfOk, IfErr};
ghost use Rattle.ship_tables.specs.Curves.{curve};
ghost use Rattle.ship_tables.specs.Tables.{form_of};
ghost use Rattle.ship_tables.specs.Record.{numbers_of, curve_table, curves_in, bonjean_form};
ghost use Rattle.ship_tables.specs.Record.{least_gm_in, text_of};

use crate::faults::TableFault;
use crate::forms::{AREA, DRAUGHT, bonjean_layout, least_gm_layout};
use crate::layouts::{Column, Layout};
use crate::reading::read_file;
use crate::rows::Row;
use std::alloc::Global;
use std::marker::Model;
use units_core::{same_items, same_rows};

/// A table of curves over one argument, kept by columns: the arguments, which rise, and each
/// curve's values at them.
#[derive(Debug, Drop)]
pub struct Curves {
    arguments: Vec<i128>,
    columns: Vec<Vec<i128>>,
}

impl Model for Curves {
    ghost use Rattle.std.specs.Prelude.{map};
    ghost use Rattle.ship_tables.specs.Record.{CurveTable};

    ghost Value = { CurveTable };

    ghost view = { λ c. record {
      arguments = c.arguments.items;
      columns = map (λ v. v.items) c.columns.items;
    } };
}

impl Curves {
    /// The arguments in the order of the rows: displacements in kg, or draughts in mm.
    pub fn arguments(&self) -> &[i128]
        ensures { result.now ≡ self.now.arguments }
    {
        self.arguments.as_slice()
    }

    /// The number of curves.
    pub fn columns(&self) -> usize
        ensures { result ≡ length self.now.columns }
    {
        self.columns.len()
    }

    /// The values of a curve, row by row; `None` where there is no curve of this number. The first
    /// is number 0.
    pub fn column(&self, number: usize) -> Option<&[i128]>
        ensures { option_map (λ c. c.now) result ≡ slice_get self.now.columns number }
    {
        match self.columns.get(number) {
            Some(column) => Some(column.as_slice()),
            None => None,
        }
    }

    /// The values of a curve, row by row; none where there is no curve of this number.
    pub fn values(&self, number: usize) -> &[i128]
        ensures { result.now ≡ curve self.now number }
    {
        match self.column(number) {
            Some(column) => column,
            None => &[],
        }
    }

    /// Whether two tables are equal, number by number.
    pub fn same(&self, other: &Curves) -> bool
        ensures { IsTrue result ↔ (self.now ≡ other.now) }
    {
        same_items(&self.arguments, &other.arguments) && same_rows(&self.columns, &other.columns)
    }
}

/// The numbers of a column, row by row.
pub fn numbers(alloc: Global, rows: &[Row], column: usize) -> Result<Vec<i128>, TableFault>
    ensures ok { IfOk result (λ v. v.items ≡ numbers_of column rows.now) }
    ensures memory { IfErr result (λ e. e ≡ TableFault.NoMemory) }
{
    let mut numbers = Vec::with_capacity(alloc, rows.len())?;
    for row in rows {
        numbers.push(i128::from(row.number(column)))?;
    }
    Ok(numbers)
}

/// The curves of rows of one argument and `curves` values.
fn gather(alloc: Global, rows: &[Row], curves: usize) -> Result<Curves, TableFault>
    ensures ok { IfOk result (λ c. c ≡ curve_table curves rows.now) }
    ensures memory { IfErr result (λ e. e ≡ TableFault.NoMemory) }
{
    let arguments = numbers(alloc, rows, 0)?;
    let mut columns = Vec::new(alloc);
    for curve in 0..curves {
        let column = numbers(alloc, rows, curve + 1)?;
        columns.push(column)?;
    }
    Ok(Curves { arguments, columns })
}

/// The curves that the text of a file of one argument and `curves` values writes.
pub fn read_curves(
    alloc: Global,
    layout: &Layout<'_>,
    curves: usize,
    text: &[u8],
) -> Result<Curves, TableFault>
    ensures ok { IfOk result (λ c. curves_in (form_of layout.now) curves text.now ≡ Ok c) }
    ensures refused { IfErr result
        (λ e. e ≢ TableFault.NoMemory → curves_in (form_of layout.now) curves text.now ≡ Err e) }
{
    let read = read_file(alloc, layout, text)?;
    gather(alloc, read.rows.as_slice(), curves)
}

/// The columns of `bonjean.csv`: a draught, and an area for each station.
fn bonjean_columns(alloc: Global, stations: usize) -> Result<Vec<Column>, TableFault>
    ensures ok { IfOk result (λ v. v.items ≡ (bonjean_form stations).columns) }
    ensures memory { IfErr result (λ e. e ≡ TableFault.NoMemory) }
{
    let mut columns = Vec::new(alloc);
    columns.push(DRAUGHT)?;
    for _ in 0..stations {
        columns.push(AREA)?;
    }
    Ok(columns)
}

/// The Bonjean curves that the text of `bonjean.csv` writes for a ship of this number of stations.
pub fn read_bonjean(alloc: Global, stations: usize, text: &[u8]) -> Result<Curves, TableFault>
    ensures ok { IfOk result (λ c. curves_in (bonjean_form stations) stations text.now ≡ Ok c) }
    ensures refused { IfErr result (λ e. e ≢ TableFault.NoMemory
        → curves_in (bonjean_form stations) stations text.now ≡ Err e) }
{
    let columns = bonjean_columns(alloc, stations)?;
    read_curves(alloc, &bonjean_layout(columns.as_slice()), stations, text)
}

/// The least metacentric heights that the text of `gm.csv` writes, where there is one.
pub fn read_least_gm(alloc: Global, text: Option<&[u8]>) -> Result<Option<Curves>, TableFault>
    ensures ok { IfOk result (λ c. least_gm_in (text_of text.entry) ≡ Ok c) }
    ensures refused { IfErr result
        (λ e. e ≢ TableFault.NoMemory → least_gm_in (text_of text.entry) ≡ Err e) }
{
    match text {
        Some(text) => Ok(Some(read_curves(alloc, &least_gm_layout(), 1, text)?)),
        None => Ok(None),
    }
}
