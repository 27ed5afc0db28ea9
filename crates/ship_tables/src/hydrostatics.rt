ghost use Rattle.std.specs.Prelude.{◌≡◌, ◌≢◌, ◌↔◌, IsTrue, Ok, Err, IfOk, IfErr};
ghost use Rattle.ship_tables.specs.Record.{HydroTable, IsHydroTable, hydro_table, hydro_in};

use crate::curves::numbers;
use crate::faults::TableFault;
use crate::forms::hydro_layout;
use crate::reading::read_file;
use crate::rows::Row;
use std::alloc::Global;
use std::marker::Model;
use units_core::same_items;

/// The hydrostatic table, column by column: at each displacement the draught on even keel and what
/// the ship's form makes of it. It has 2 to 200 rows, and the displacements rise.
#[derive(Debug, Drop)]
pub struct Hydro {
    kg: Vec<i128>,
    draught: Vec<i128>,
    kmt: Vec<i128>,
    lcb: Vec<i128>,
    lcf: Vec<i128>,
    mct: Vec<i128>,
}

impl Model for Hydro {
    ghost use Rattle.ship_tables.specs.Record.{HydroTable, IsHydroTable};

    ghost Value = { HydroTable };

    ghost view = { λ h. record {
      kg = h.kg.items;
      draught = h.draught.items;
      kmt = h.kmt.items;
      lcb = h.lcb.items;
      lcf = h.lcf.items;
      mct = h.mct.items;
    } };

    ghost invariant = { λ h. IsHydroTable (record {
      kg = h.kg.items;
      draught = h.draught.items;
      kmt = h.kmt.items;
      lcb = h.lcb.items;
      lcf = h.lcf.items;
      mct = h.mct.items;
    }) };
}

impl Hydro {
    /// The displacements in kg, rising by no more than 10^8.
    pub fn kg(&self) -> &[i128]
        ensures value { result.now ≡ self.now.kg }
        ensures sound { IsHydroTable self.now }
    {
        self.kg.as_slice()
    }

    /// The mean draughts in mm.
    pub fn draught(&self) -> &[i128]
        ensures value { result.now ≡ self.now.draught }
        ensures sound { IsHydroTable self.now }
    {
        self.draught.as_slice()
    }

    /// The heights of the transverse metacentre above the keel, in mm.
    pub fn kmt(&self) -> &[i128]
        ensures value { result.now ≡ self.now.kmt }
        ensures sound { IsHydroTable self.now }
    {
        self.kmt.as_slice()
    }

    /// The longitudinal centres of buoyancy, in mm forward of the after perpendicular.
    pub fn lcb(&self) -> &[i128]
        ensures value { result.now ≡ self.now.lcb }
        ensures sound { IsHydroTable self.now }
    {
        self.lcb.as_slice()
    }

    /// The longitudinal centres of flotation, in mm forward of the after perpendicular.
    pub fn lcf(&self) -> &[i128]
        ensures value { result.now ≡ self.now.lcf }
        ensures sound { IsHydroTable self.now }
    {
        self.lcf.as_slice()
    }

    /// The moments that change the trim by 1 mm, in kg mm.
    pub fn mct(&self) -> &[i128]
        ensures value { result.now ≡ self.now.mct }
        ensures sound { IsHydroTable self.now }
    {
        self.mct.as_slice()
    }

    /// Whether two tables are equal, number by number.
    pub fn same(&self, other: &Hydro) -> bool
        ensures { IsTrue result ↔ (self.now ≡ other.now) }
    {
        same_items(&self.kg, &other.kg)
            && same_items(&self.draught, &other.draught)
            && same_items(&self.kmt, &other.kmt)
            && same_items(&self.lcb, &other.lcb)
            && same_items(&self.lcf, &other.lcf)
            && same_items(&self.mct, &other.mct)
    }
}

/// The table of rows that make one.
fn gather(alloc: Global, rows: &[Row]) -> Result<Hydro, TableFault>
    requires { IsHydroTable (hydro_table rows.now) }
    ensures ok { IfOk result (λ h. h ≡ hydro_table rows.now) }
    ensures memory { IfErr result (λ e. e ≡ TableFault.NoMemory) }
{
    let kg = numbers(alloc, rows, 0)?;
    let draught = numbers(alloc, rows, 1)?;
    let kmt = numbers(alloc, rows, 2)?;
    let lcb = numbers(alloc, rows, 3)?;
    let lcf = numbers(alloc, rows, 4)?;
    let mct = numbers(alloc, rows, 5)?;
    Ok(Hydro {
        kg,
        draught,
        kmt,
        lcb,
        lcf,
        mct,
    })
}

/// The hydrostatic table that the text of `hydro.csv` writes.
pub fn read_hydro(alloc: Global, text: &[u8]) -> Result<Hydro, TableFault>
    ensures ok { IfOk result (λ h. hydro_in text.now ≡ Ok h) }
    ensures refused { IfErr result (λ e. e ≢ TableFault.NoMemory → hydro_in text.now ≡ Err e) }
{
    let read = read_file(alloc, &hydro_layout(), text)?;
    gather(alloc, read.rows.as_slice())
}
