ghost use Rattle.std.specs.Prelude.{◌≡◌, ◌≢◌, ◌↔◌, IsTrue, ◌≤◌, length, option_map, Ok, Err, IfOk};
ghost use Rattle.std.specs.Prelude.{IfErr, IfSome};
ghost use Rattle.ship_tables.specs.Record.{texts_of, tables_of, place_of, number_of, tank_of};
ghost use Rattle.ship_tables.specs.Record.{tank_body, IsSound, IsHydroTable, IsLeverTable};
ghost use Rattle.ship_tables.specs.Record.{IsBonjeanTable, IsLeastGmTable, IsPlace};
ghost use Rattle.ship_tables.specs.Written.{IsWritten};

use crate::curves::{Curves, read_bonjean, read_curves, read_least_gm};
use crate::extents::Extent;
use crate::faults::TableFault;
use crate::forms::{ANGLES, levers_layout};
use crate::hydrostatics::{Hydro, read_hydro};
use crate::places::{CellPlaces, read_places};
use crate::tanks::{Tanks, read_tanks};
use crate::texts::TableTexts;
use std::alloc::Global;
use std::marker::Model;
use units_core::{Body, Cell, Place};

/// The tables of a ship's profile. They stay as they were read.
#[derive(Debug, Drop)]
pub struct Tables {
    cells: CellPlaces,
    hydro: Hydro,
    levers: Curves,
    bonjean: Curves,
    tanks: Tanks,
    least_gm: Option<Curves>,
}

impl Model for Tables {
    ghost use Rattle.ship_tables.specs.Record.{TablesRecord, AreTables};

    ghost Value = { TablesRecord };

    ghost view = { λ t. record {
      cells = t.cells;
      hydro = t.hydro;
      levers = t.levers;
      bonjean = t.bonjean;
      tanks = t.tanks;
      least_gm = t.least_gm;
    } };

    ghost invariant = { λ t. AreTables (record {
      cells = t.cells;
      hydro = t.hydro;
      levers = t.levers;
      bonjean = t.bonjean;
      tanks = t.tanks;
      least_gm = t.least_gm;
    }) };
}

impl Tables {
    /// Reads the tables that the texts of their files write, for a ship of this extent and number
    /// of stations, or the first fault of them: the files come in the order `cells.csv`,
    /// `hydro.csv`, `kn.csv`, `bonjean.csv`, `tanks.csv`, `gm.csv`, and each is read from its
    /// beginning. Each number of the tables is the one in its file, in its column and in the record
    /// of its row. Only this takes memory; where it is refused the answer is
    /// [`TableFault::NoMemory`].
    pub fn read(
        alloc: Global,
        extent: Extent,
        stations: usize,
        texts: &TableTexts<'_>,
    ) -> Result<Tables, TableFault>
        ensures ok { IfOk result (λ t. tables_of extent stations (texts_of texts.now) ≡ Ok t) }
        ensures refused { IfErr result (λ e. e ≢ TableFault.NoMemory
            → tables_of extent stations (texts_of texts.now) ≡ Err e) }
        ensures meaning { IfOk result (λ t. IsSound extent stations t) }
        ensures written { IfOk result (λ t. IsWritten (texts_of texts.now) t) }
    {
        let cells = read_places(alloc, &extent, texts.cells)?;
        let hydro = read_hydro(alloc, texts.hydro)?;
        let levers = read_curves(alloc, &levers_layout(), ANGLES, texts.levers)?;
        let bonjean = read_bonjean(alloc, stations, texts.bonjean)?;
        let tanks = read_tanks(alloc, &extent, texts.tanks)?;
        let least_gm = read_least_gm(alloc, texts.least_gm)?;
        Ok(Tables {
            cells,
            hydro,
            levers,
            bonjean,
            tanks,
            least_gm,
        })
    }

    /// The place of a container in a cell, in constant time; `None` for a cell that the ship
    /// hasn't.
    pub fn cell(&self, cell: Cell) -> Option<Place>
        ensures value { result ≡ place_of self.now cell }
        ensures placed { IfSome result IsPlace }
    {
        self.cells.get(cell)
    }

    /// The number of a cell, from 0 in the order of `cells.csv`, in constant time; `None` for a
    /// cell that the ship hasn't.
    pub fn cell_number(&self, cell: Cell) -> Option<usize>
        ensures { result ≡ number_of self.now cell }
    {
        self.cells.number(cell)
    }

    /// The hydrostatic table.
    pub fn hydro(&self) -> &Hydro
        ensures value { result.now ≡ self.now.hydro }
        ensures sound { IsHydroTable self.now.hydro }
    {
        &self.hydro
    }

    /// The righting levers KN in mm at 0, 5, .., 60 degrees of heel, 13 curves over the
    /// displacement in kg.
    pub fn levers(&self) -> &Curves
        ensures value { result.now ≡ self.now.levers }
        ensures sound { IsLeverTable self.now.levers }
    {
        &self.levers
    }

    /// The immersed areas in cm2, a curve for each station over the draught in mm.
    pub fn bonjean(&self) -> &Curves
        ensures value { result.now ≡ self.now.bonjean }
        ensures sound { IsBonjeanTable self.now.bonjean }
    {
        &self.bonjean
    }

    /// The least metacentric height in mm, one curve over the displacement in kg; `None` for a ship
    /// without such limits.
    pub fn least_gm(&self) -> Option<&Curves>
        ensures value { option_map (λ c. c.now) result ≡ self.now.least_gm }
        ensures sound { IfSome self.now.least_gm IsLeastGmTable }
    {
        self.least_gm.as_ref()
    }

    /// The number of tanks, at most 200.
    pub fn tanks(&self) -> usize
        ensures value { result ≡ length self.now.tanks }
        ensures few { result ≤ 200 }
    {
        self.tanks.len()
    }

    /// The number of the tank of this name, from 0 in the order of `tanks.csv`; `None` where there
    /// is none.
    pub fn tank(&self, name: &[u8]) -> Option<u16>
        ensures { result ≡ tank_of self.now name.now }
    {
        self.tanks.number(name)
    }

    /// The filling of mass `kg` of a tank, by its table; `None` for an unknown tank, and for a mass
    /// outside its table.
    pub fn tank_item(&self, tank: u16, kg: u32) -> Option<Body>
        ensures value { result ≡ tank_body self.now tank kg }
        ensures placed { IfSome result (λ b. IsPlace b.place) }
    {
        self.tanks.item(tank, kg)
    }

    /// Whether two ships have equal tables: the same rows in the same order, and either both or
    /// none a table of least metacentric heights. It takes no memory, and time in the length of the
    /// tables.
    pub fn same(&self, other: &Tables) -> bool
        ensures { IsTrue result ↔ (self.now ≡ other.now) }
    {
        self.cells.same(&other.cells)
            && self.hydro.same(&other.hydro)
            && self.levers.same(&other.levers)
            && self.bonjean.same(&other.bonjean)
            && self.tanks.same(&other.tanks)
            && same_limits(&self.least_gm, &other.least_gm)
    }
}

/// Whether two tables that may be missing are equal.
fn same_limits(a: &Option<Curves>, b: &Option<Curves>) -> bool
    ensures { IsTrue result ↔ (a.now ≡ b.now) }
{
    match (a, b) {
        (Some(a), Some(b)) => a.same(b),
        (None, None) => true,
        _ => false,
    }
}
