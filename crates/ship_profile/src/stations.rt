ghost use Rattle.std.specs.Prelude.{◌≡◌, ◌≢◌, Ok, Err, IfOk, IfErr};
ghost use Rattle.toml.specs.View.{table_view};
ghost use Rattle.ship_profile.specs.Ship.{station_of, stations_of, AreStations, is_above};

use crate::arrays::{Element, elements_at};
use crate::faults::{Key, ProfileFault};
use crate::keys::{MAX_MM, number_of};
use ship_tables::File;
use std::alloc::Global;
use toml::{Table, Value};
use units_core::Mm;

/// The least and the greatest number of stations.
const STATIONS: (usize, usize) = (2, 64);

/// Stations, each above the one before it.
#[derive(Clone, Copy)]
struct StationRule;

/// Whether x is above the last of these, if there is one.
pub fn is_above(last: Option<Mm>, x: Mm) -> bool
    ensures { result ≡ is_above last x }
{
    match last {
        Some(last) => last.get() < x.get(),
        None => true,
    }
}

impl Element for StationRule {
    type Item = Mm;

    ghost next = { λ _ before d. station_of before d };

    fn read(&self, _alloc: Global, before: &[Mm], value: &Value) -> Result<Mm, ProfileFault> {
        let x = Mm::of(number_of(value, Key::Stations, -MAX_MM, MAX_MM)?);
        if is_above(before.last().copied(), x) {
            Ok(x)
        } else {
            Err(ProfileFault::NotRising(File::Ship, 0))
        }
    }
}

/// The stations of a document.
pub fn read_stations(alloc: Global, table: &Table) -> Result<Vec<Mm>, ProfileFault>
    ensures ok { IfOk result (λ v. stations_of (table_view table.now) ≡ Ok v.items) }
    ensures refused { IfErr result
        (λ e. e ≢ ProfileFault.NoMemory → stations_of (table_view table.now) ≡ Err e) }
    ensures meaning { IfOk result (λ v. AreStations v.items) }
{
    elements_at(
        alloc,
        &StationRule,
        Key::Stations,
        STATIONS.0,
        STATIONS.1,
        table,
    )
}
