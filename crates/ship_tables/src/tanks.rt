ghost use Rattle.std.specs.Prelude.{◌≡◌, ◌≢◌, ◌↔◌, IsTrue, ◌≤◌, ◌<◌, ◌+◌, ◌^◌, ℕ, pos, ◌≤ℤ◌};
ghost use Rattle.std.specs.Prelude.{length, map, slice_get, position, option_map, unsigned_abs};
ghost use Rattle.std.specs.Prelude.{All, Ok, Err, IfOk, IfErr, IfSome};
ghost use Rattle.std.specs.Str.{bytes_eq};
ghost use Rattle.units_core.specs.Bodies.{IsWithinLimits};
ghost use Rattle.units_core.specs.Interpolation.{at, interval, reading, Encloses, Rises, IsWithin};
ghost use Rattle.units_core.specs.Ratio.{floor_of};
ghost use Rattle.ship_tables.specs.Record.{TankTable, IsTankTable, IsAtLeast, tank_table, tanks_in};
ghost use Rattle.ship_tables.specs.Record.{filling, filling_in, numbers_of, IsPlace};

use crate::curves::numbers;
use crate::extents::Extent;
use crate::faults::TableFault;
use crate::forms::tanks_layout;
use crate::reading::{Table, end_table, read_file};
use crate::rows::Row;
use indexmap::IndexSet;
use std::alloc::Global;
use std::marker::Model;
use units_core::{Body, Mm, Place, enclosing, interp_floor, same_items, same_rows};

/// The places of the fillings of a tank, column by column.
#[derive(Debug, Drop)]
struct Centres {
    x: Vec<i128>,
    y: Vec<i128>,
    z: Vec<i128>,
    half: Vec<i128>,
}

/// The table of a tank, column by column: for each mass of its filling the place and the free
/// surface moment of the filling. It has 2 to 64 rows, and the masses rise.
#[derive(Debug, Drop)]
struct TankRows {
    kg: Vec<i128>,
    centres: Centres,
    fsm: Vec<i128>,
}

impl Model for TankRows {
    ghost use Rattle.ship_tables.specs.Record.{TankTable, IsTankTable};

    ghost Value = { TankTable };

    ghost view = { λ t. record {
      kg = t.kg.items;
      x = t.centres.x.items;
      y = t.centres.y.items;
      z = t.centres.z.items;
      half = t.centres.half.items;
      fsm = t.fsm.items;
    } };

    ghost invariant = { λ t. IsTankTable (record {
      kg = t.kg.items;
      x = t.centres.x.items;
      y = t.centres.y.items;
      z = t.centres.z.items;
      half = t.centres.half.items;
      fsm = t.fsm.items;
    }) };
}

/// The value of a column at `x` in a row's interval of its arguments, rounded down.
fn value_at(arguments: &[i128], column: &[i128], row: usize, x: i128) -> i128
    requires rows { length column.now ≡ length arguments.now }
    requires encloses { Encloses arguments.now row x }
    requires rises { Rises (10 ^ 8) arguments.now }
    requires arguments_within { IsWithin (10 ^ 9) arguments.now }
    requires within { IsWithin (10 ^ 12) column.now }
    ensures value { result ≡ floor_of (reading arguments.now column.now row x) }
    ensures size { (m : ℕ) → IsWithin m column.now → unsigned_abs result ≤ m }
    ensures least { IsAtLeast (pos 0) column.now → pos 0 ≤ℤ result }
{
    interp_floor(
        x,
        arguments[row],
        column[row],
        arguments[row + 1],
        column[row + 1],
    )
}

/// The length that a column has there, in mm.
fn length_at(arguments: &[i128], column: &[i128], row: usize, x: i128) -> Mm
    requires rows { length column.now ≡ length arguments.now }
    requires encloses { Encloses arguments.now row x }
    requires rises { Rises (10 ^ 8) arguments.now }
    requires arguments_within { IsWithin (10 ^ 9) arguments.now }
    requires within { IsWithin (10 ^ 6) column.now }
    ensures value { result ≡ floor_of (reading arguments.now column.now row x) }
    ensures size { unsigned_abs result ≤ 10 ^ 6 }
    ensures least { IsAtLeast (pos 0) column.now → pos 0 ≤ℤ result }
{
    Mm::of(value_at(arguments, column, row, x) as i64)
}

/// The free surface moment that a column has there, in kg mm.
fn moment_at(arguments: &[i128], column: &[i128], row: usize, x: i128) -> i64
    requires rows { length column.now ≡ length arguments.now }
    requires encloses { Encloses arguments.now row x }
    requires rises { Rises (10 ^ 8) arguments.now }
    requires arguments_within { IsWithin (10 ^ 9) arguments.now }
    requires least { IsAtLeast (pos 0) column.now }
    requires within { IsWithin (10 ^ 12) column.now }
    ensures value { result ≡ floor_of (reading arguments.now column.now row x) }
    ensures low { pos 0 ≤ℤ result }
    ensures high { result ≤ℤ pos (10 ^ 12) }
{
    value_at(arguments, column, row, x) as i64
}

impl TankRows {
    /// The place of a filling of mass `kg`, by its interval of the table.
    fn place(&self, row: usize, kg: u32) -> Place
        requires { Encloses self.now.kg row (pos kg) }
        ensures value { result ≡ (filling self.now kg row).place }
        ensures placed { IsPlace result }
    {
        let mass = i128::from(kg);
        let masses = self.kg.as_slice();
        let centres = &self.centres;
        Place {
            x: length_at(masses, centres.x.as_slice(), row, mass),
            y: length_at(masses, centres.y.as_slice(), row, mass),
            z: length_at(masses, centres.z.as_slice(), row, mass),
            half: length_at(masses, centres.half.as_slice(), row, mass),
        }
    }

    /// The free surface moment of a filling of mass `kg`, by its interval of the table.
    fn moment(&self, row: usize, kg: u32) -> i64
        requires { Encloses self.now.kg row (pos kg) }
        ensures value { result ≡ (filling self.now kg row).fsm }
        ensures within { IsWithinLimits kg result }
    {
        moment_at(self.kg.as_slice(), self.fsm.as_slice(), row, i128::from(kg))
    }

    /// The filling of mass `kg`; `None` outside of the table.
    fn item(&self, kg: u32) -> Option<Body>
        ensures value { result ≡ option_map (filling self.now kg) (interval self.now.kg (pos kg)) }
        ensures placed { IfSome result (λ b. IsPlace b.place) }
    {
        let row = enclosing(self.kg.as_slice(), i128::from(kg))?;
        Body::new(kg, self.place(row, kg), self.moment(row, kg))
    }

    /// Whether two tables are equal, number by number.
    fn same(&self, other: &TankRows) -> bool
        ensures { IsTrue result ↔ (self.now ≡ other.now) }
    {
        same_items(&self.kg, &other.kg)
            && same_items(&self.centres.x, &other.centres.x)
            && same_items(&self.centres.y, &other.centres.y)
            && same_items(&self.centres.z, &other.centres.z)
            && same_items(&self.centres.half, &other.centres.half)
            && same_items(&self.fsm, &other.fsm)
    }
}

/// Whether the tables of tanks are equal, one by one.
fn same_tables(a: &[TankRows], b: &[TankRows]) -> bool
    ensures { IsTrue result ↔ (a.now ≡ b.now) }
{
    if a.len() != b.len() {
        return false;
    }
    for number in 0..a.len() {
        if !a[number].same(&b[number]) {
            return false;
        }
    }
    true
}

/// The filling of mass `kg` by the table of a number.
fn filling_of(tables: &[TankRows], number: usize, kg: u32) -> Option<Body>
    ensures value { result ≡ filling_in kg (slice_get tables.now number) }
    ensures placed { IfSome result (λ b. IsPlace b.place) }
{
    if number < tables.len() {
        tables[number].item(kg)
    } else {
        None
    }
}

/// The tanks of a ship in the order of their file.
#[derive(Debug, Drop)]
pub struct Tanks {
    names: IndexSet<Vec<u8>>,
    tables: Vec<TankRows>,
}

impl Model for Tanks {
    ghost use Rattle.std.specs.Prelude.{◌≡◌, ◌≤◌, List, length, map};
    ghost use Rattle.ship_tables.specs.Record.{Tank, tanks_by};

    ghost Value = { List Tank };

    ghost view = { λ t. tanks_by (map (λ v. v.items) t.names.keys) t.tables.items };

    ghost invariant = { λ t. (length t.names.keys ≡ length t.tables.items)
        × (length t.tables.items ≤ 200) };
}

impl Tanks {
    /// The number of tanks.
    pub fn len(&self) -> usize
        ensures { result ≡ length self.now }
    {
        self.tables.len()
    }

    /// The number of the tank of a name.
    pub fn number(&self, name: &[u8]) -> Option<u16>
        ensures { result ≡ position (λ tank. bytes_eq name.now tank.name) self.now }
    {
        let number = self.names.get_index_of(name)?;
        Some(number as u16)
    }

    /// The filling of a tank by its number.
    pub fn item(&self, tank: u16, kg: u32) -> Option<Body>
        ensures value { result
            ≡ filling_in kg (option_map (λ t. t.rows) (slice_get self.now tank)) }
        ensures placed { IfSome result (λ b. IsPlace b.place) }
    {
        filling_of(self.tables.as_slice(), usize::from(tank), kg)
    }

    /// Whether two ships have the same tanks in the same order.
    pub fn same(&self, other: &Tanks) -> bool
        ensures { IsTrue result ↔ (self.now ≡ other.now) }
    {
        same_rows(self.names.as_slice(), other.names.as_slice())
            && same_tables(&self.tables, &other.tables)
    }
}

/// The places of the fillings of a tank's rows.
fn gather_centres(alloc: Global, rows: &[Row]) -> Result<Centres, TableFault>
    ensures ok { IfOk result (λ c. (c.x.items ≡ numbers_of 2 rows.now)
        × ((c.y.items ≡ numbers_of 3 rows.now)
        × ((c.z.items ≡ numbers_of 4 rows.now) × (c.half.items ≡ numbers_of 5 rows.now)))) }
    ensures memory { IfErr result (λ e. e ≡ TableFault.NoMemory) }
{
    let x = numbers(alloc, rows, 2)?;
    let y = numbers(alloc, rows, 3)?;
    let z = numbers(alloc, rows, 4)?;
    let half = numbers(alloc, rows, 5)?;
    Ok(Centres { x, y, z, half })
}

/// The table of a tank of rows that make one.
fn gather(alloc: Global, rows: &[Row]) -> Result<TankRows, TableFault>
    requires { IsTankTable (tank_table rows.now) }
    ensures ok { IfOk result (λ t. t ≡ tank_table rows.now) }
    ensures memory { IfErr result (λ e. e ≡ TableFault.NoMemory) }
{
    let kg = numbers(alloc, rows, 1)?;
    let fsm = numbers(alloc, rows, 6)?;
    let centres = gather_centres(alloc, rows)?;
    Ok(TankRows { kg, centres, fsm })
}

/// The tables of the tanks.
fn gather_all(alloc: Global, tables: &[Table]) -> Result<Vec<TankRows>, TableFault>
    requires { All (λ t. IsTankTable (tank_table t)) tables.now }
    ensures ok { IfOk result (λ v. v.items ≡ map tank_table tables.now) }
    ensures memory { IfErr result (λ e. e ≡ TableFault.NoMemory) }
{
    let mut gathered = Vec::new(alloc);
    for table in tables {
        let rows = gather(alloc, table.rows.as_slice())?;
        gathered.push(rows)?;
    }
    Ok(gathered)
}

/// The tanks that the text of `tanks.csv` writes, for a ship of this extent.
pub fn read_tanks(alloc: Global, extent: &Extent, text: &[u8]) -> Result<Tanks, TableFault>
    ensures ok { IfOk result (λ t. tanks_in extent.now text.now ≡ Ok t) }
    ensures refused { IfErr result
        (λ e. e ≢ TableFault.NoMemory → tanks_in extent.now text.now ≡ Err e) }
{
    let read = read_file(alloc, &tanks_layout(*extent), text)?;
    let mut ended = read.ended;
    let mut rows = read.rows;
    end_table(alloc, &mut ended, &mut rows)?;
    let tables = gather_all(alloc, ended.as_slice())?;
    Ok(Tanks {
        names: read.names,
        tables,
    })
}
