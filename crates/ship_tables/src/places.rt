ghost use Rattle.std.specs.Prelude.{◌≡◌, ◌≢◌, ◌↔◌, IsTrue, Ok, Err, IfOk, IfErr, All, length, map};
ghost use Rattle.std.specs.Prelude.{zip, slice_get, ◌≤◌, ◌^◌, unsigned_abs};
ghost use Rattle.std.specs.List.{position};
ghost use Rattle.std.specs.Map.{keys_of, lookup};
ghost use Rattle.units_core.specs.Cells.{cell_eq};
ghost use Rattle.ship_tables.specs.Record.{IsPlace, place_at, places_in};

use crate::cell_lists::CellList;
use crate::extents::Extent;
use crate::faults::TableFault;
use crate::forms::cells_layout;
use crate::plain_cells::read_plain;
use crate::reading::read_file;
use crate::rows::Row;
use std::alloc::Global;
use std::marker::Model;
use units_core::{Cell, Mm, Place, same_items};

/// The cells of a ship in the order of their file, each with the place of a container in it.
#[derive(Debug, Drop)]
pub struct CellPlaces {
    cells: CellList,
    places: Vec<Place>,
}

impl Model for CellPlaces {
    ghost use Rattle.std.specs.Prelude.{◌≡◌, List, length, zip};
    ghost use Rattle.units_core.specs.declared.cells.Cell.{Cell};
    ghost use Rattle.units_core.specs.declared.bodies.Place.{Place};

    ghost Value = { List (Cell × Place) };

    ghost view = { λ c. zip c.cells c.places.items };

    ghost invariant = { λ c. length c.places.items ≡ length c.cells };
}

/// The place at an index.
fn place_number(places: &[Place], index: usize) -> Option<Place>
    ensures { result ≡ slice_get places.now index }
{
    if index < places.len() {
        Some(places[index])
    } else {
        None
    }
}

impl CellPlaces {
    /// The cells with their places, in the same order.
    pub fn of(cells: CellList, places: Vec<Place>) -> CellPlaces
        requires { length places.items ≡ length cells }
        ensures { result ≡ zip cells places.items }
    {
        CellPlaces { cells, places }
    }

    /// The number of a cell, from 0 in the order of the file, in constant time; `None` for a cell
    /// that the ship hasn't.
    pub fn number(&self, cell: Cell) -> Option<usize>
        ensures { result ≡ position (cell_eq cell) (keys_of self.now) }
    {
        self.cells.find(cell)
    }

    /// The place of a container in a cell, in constant time; `None` for a cell that the ship
    /// hasn't.
    pub fn get(&self, cell: Cell) -> Option<Place>
        ensures { result ≡ lookup (cell_eq cell) self.now }
    {
        let index = self.cells.find(cell)?;
        place_number(self.places.as_slice(), index)
    }

    /// Whether two ships have the same cells, in the same order and at the same places.
    pub fn same(&self, other: &CellPlaces) -> bool
        ensures { IsTrue result ↔ (self.now ≡ other.now) }
    {
        same_items(self.cells.as_slice(), other.cells.as_slice())
            && same_items(&self.places, &other.places)
    }
}

/// The place of the container of a row.
fn place_at(row: &Row) -> Place
    requires { IsPlace (place_at row.now) }
    ensures { result ≡ place_at row.now }
{
    Place {
        x: Mm::of(row.number(1)),
        y: Mm::of(row.number(2)),
        z: Mm::of(row.number(3)),
        half: Mm::of(row.number(4)),
    }
}

/// The places of the containers of rows.
fn places(alloc: Global, rows: &[Row]) -> Result<Vec<Place>, TableFault>
    requires { All (λ r. IsPlace (place_at r)) rows.now }
    ensures ok { IfOk result (λ v. v.items ≡ map place_at rows.now) }
    ensures memory { IfErr result (λ e. e ≡ TableFault.NoMemory) }
{
    let mut places = Vec::new(alloc);
    for row in rows {
        places.push(place_at(row))?;
    }
    Ok(places)
}

/// The cells of rows, each with the place of a container in it.
fn gather(alloc: Global, rows: &[Row], cells: &[Cell]) -> Result<CellPlaces, TableFault>
    requires places { All (λ r. IsPlace (place_at r)) rows.now }
    requires size { length cells.now ≡ length rows.now }
    ensures ok { IfOk result (λ c. c ≡ zip cells.now (map place_at rows.now)) }
    ensures memory { IfErr result (λ e. e ≡ TableFault.NoMemory) }
{
    let places = places(alloc, rows)?;
    let cells = Vec::from_slice(alloc, cells)?;
    let cells = CellList::new(alloc, cells)?;
    Ok(CellPlaces { cells, places })
}

/// The cells that the text of `cells.csv` writes, row by row.
fn read_in_turn(alloc: Global, extent: &Extent, text: &[u8]) -> Result<CellPlaces, TableFault>
    ensures ok { IfOk result (λ c. places_in extent.now text.now ≡ Ok c) }
    ensures refused { IfErr result
        (λ e. e ≢ TableFault.NoMemory → places_in extent.now text.now ≡ Err e) }
{
    let read = read_file(alloc, &cells_layout(*extent), text)?;
    gather(alloc, read.rows.as_slice(), read.cells.as_slice())
}

/// The cells that the text of `cells.csv` writes, for a ship of this extent.
pub fn read_places(alloc: Global, extent: &Extent, text: &[u8]) -> Result<CellPlaces, TableFault>
    ensures ok { IfOk result (λ c. places_in extent.now text.now ≡ Ok c) }
    ensures refused { IfErr result
        (λ e. e ≢ TableFault.NoMemory → places_in extent.now text.now ≡ Err e) }
{
    match read_plain(alloc, extent, text)? {
        Some(places) => Ok(places),
        None => read_in_turn(alloc, extent, text),
    }
}
