ghost use Rattle.std.specs.Prelude.{◌<◌, length, ◌≡◌, ◌≢◌, Ok, Err, IfOk, IfErr};
ghost use Rattle.toml.specs.View.{view, table_view};
ghost use Rattle.ship_profile.specs.Record.{is_filled, fill_in, fills_in, AreFills};
ghost use Rattle.ship_profile.specs.Ship.{named_fill_of, named_fills_of, AreNamedFills};

use crate::arrays::{Element, read_elements};
use crate::faults::{Key, ProfileFault};
use crate::keys::{MAX_KG, number_in_table, table_of, text_in_table, value_at};
use ship_tables::Tables;
use std::alloc::Global;
use std::marker::Model;
use toml::{Table, Value};

/// A fill as it is written.
#[derive(Debug, Drop)]
pub struct NamedFill {
    tank: Vec<u8>,
    kg: u32,
}

impl Model for NamedFill {
    ghost use Rattle.ship_profile.specs.Ship.{NamedFill as Written};

    ghost Value = { Written };

    ghost view = { λ f. record { tank = f.tank.items; kg = f.kg } };
}

impl NamedFill {
    /// The name of its tank.
    pub fn tank(&self) -> &[u8]
        ensures { result.now ≡ self.now.tank }
    {
        self.tank.as_slice()
    }

    /// How many kg are in it.
    pub fn kg(&self) -> u32
        ensures { result ≡ self.now.kg }
    {
        self.kg
    }
}

/// Fills, each whatever came before it.
#[derive(Clone, Copy)]
struct FillRule;

impl Element for FillRule {
    type Item = NamedFill;

    ghost next = { λ _ before d. named_fill_of before d };

    fn read(
        &self,
        alloc: Global,
        _before: &[NamedFill],
        value: &Value,
    ) -> Result<NamedFill, ProfileFault> {
        let table = table_of(value, Key::Fills)?;
        let name = text_in_table(table, Key::Fills, "tank")?;
        let kg = number_in_table(table, Key::Fills, "kg", 0, MAX_KG)?;
        let tank = Vec::from_slice(alloc, name.as_bytes())?;
        Ok(NamedFill {
            tank,
            kg: kg as u32,
        })
    }
}

/// The fills of a document.
pub fn read_fills(alloc: Global, table: &Table) -> Result<Vec<NamedFill>, ProfileFault>
    ensures ok { IfOk result (λ v. named_fills_of (table_view table.now) ≡ Ok v.items) }
    ensures refused { IfErr result
        (λ e. e ≢ ProfileFault.NoMemory → named_fills_of (table_view table.now) ≡ Err e) }
    ensures meaning { IfOk result (λ v. AreNamedFills v.items) }
{
    match value_at(table, Key::Fills.name()) {
        Some(value) => read_elements(alloc, &FillRule, Key::Fills, 0, 200, value),
        None => Ok(Vec::new(alloc)),
    }
}

/// A tank that is filled, by its number, and how many kg are in it.
#[derive(Clone, Copy, Debug, PartialEq, Eq)]
pub struct TankFill {
    /// The number of the tank, from 0 in the order of `tanks.csv`.
    pub tank: u16,
    /// The mass of its filling, in kg.
    pub kg: u32,
}

/// Whether one of these fills is of a tank.
fn is_filled(fills: &[TankFill], tank: u16) -> bool
    ensures { result ≡ is_filled fills.now tank }
{
    fills.iter().any(|fill| fill.tank == tank)
}

/// A fill in its tank, after those before it.
fn fill_in(tables: &Tables, before: &[TankFill], fill: &NamedFill) -> Result<TankFill, ProfileFault>
    requires { length before.now < 200 }
    ensures { result ≡ fill_in tables.now before.now fill.now }
{
    match tables.tank(fill.tank()) {
        None => Err(ProfileFault::UnknownTank(before.len() as u32 + 1)),
        Some(tank) => {
            if is_filled(before, tank) {
                Err(ProfileFault::BadKey(Key::Fills))
            } else {
                Ok(TankFill {
                    tank,
                    kg: fill.kg(),
                })
            }
        }
    }
}

/// The fills in their tanks.
pub fn fill_tanks(
    alloc: Global,
    tables: &Tables,
    named: &[NamedFill],
) -> Result<Vec<TankFill>, ProfileFault>
    requires { AreNamedFills named.now }
    ensures ok { IfOk result (λ v. fills_in tables.now named.now ≡ Ok v.items) }
    ensures refused { IfErr result
        (λ e. e ≢ ProfileFault.NoMemory → fills_in tables.now named.now ≡ Err e) }
    ensures meaning { IfOk result (λ v. AreFills tables.now v.items) }
{
    let mut fills = Vec::new(alloc);
    for fill in named {
        let filled = fill_in(tables, fills.as_slice(), fill)?;
        fills.push(filled)?;
    }
    Ok(fills)
}
