ghost use Rattle.std.specs.Prelude.{◌≡◌, ◌↔◌, IsTrue, ◌≤◌, ◌≢◌, length, Ok, Err, IfOk, IfErr};
ghost use Rattle.toml.specs.View.{table_view};
ghost use Rattle.ship_profile.specs.Limits.{HaveSameLimits};
ghost use Rattle.ship_profile.specs.Ship.{ship_of, downflooding_of, extent_of, IsSoundShip};

use crate::blocks::read_blocks;
use crate::faults::{Key, ProfileFault};
use crate::frames::read_frames;
use crate::keys::{MAX_KG, MAX_MM, length_at, number_at};
use crate::stations::read_stations;
use ship_tables::Extent;
use std::alloc::Global;
use std::marker::Model;
use toml::Table;
use units_core::{Body, Frames, Mm, same_items};

/// What `ship.toml` says of the ship but for the fills.
#[derive(Debug, Drop)]
pub struct Ship {
    pub lbp: Mm,
    pub downflooding: u8,
    pub draught_max: Mm,
    pub trim_max: Mm,
    pub list_max: i64,
    pub closing_max: i64,
    pub stations: Vec<Mm>,
    pub blocks: Vec<Body>,
    pub frames: Frames,
}

impl Model for Ship {
    ghost use Rattle.ship_profile.specs.Ship.{ShipRecord};

    ghost Value = { ShipRecord };

    ghost view = { λ s. record {
      lbp = s.lbp;
      downflooding = s.downflooding;
      draught_max = s.draught_max;
      trim_max = s.trim_max;
      list_max = s.list_max;
      closing_max = s.closing_max;
      stations = s.stations.items;
      blocks = s.blocks.items;
      frames = s.frames;
    } };
}

impl Ship {
    /// Whether two ships have the same length and limits.
    fn same_limits(&self, other: &Ship) -> bool
        ensures { IsTrue result ↔ HaveSameLimits self.now other.now }
    {
        self.lbp == other.lbp
            && self.downflooding == other.downflooding
            && self.draught_max == other.draught_max
            && self.trim_max == other.trim_max
            && self.list_max == other.list_max
            && self.closing_max == other.closing_max
    }

    /// Whether `ship.toml` says the same of two ships: length and limits, stations, blocks and
    /// frames.
    pub fn same(&self, other: &Ship) -> bool
        ensures { IsTrue result ↔ (self.now ≡ other.now) }
    {
        self.same_limits(other)
            && same_items(&self.stations, &other.stations)
            && same_items(&self.blocks, &other.blocks)
            && same_items(self.frames.as_slice(), other.frames.as_slice())
    }
}

/// The angle of down-flooding in degrees.
fn read_downflooding(table: &Table) -> Result<u8, ProfileFault>
    ensures exact { result ≡ downflooding_of (table_view table.now) }
    ensures within { IfOk result (λ angle. (40 ≤ angle) × (angle ≤ 90)) }
{
    let angle = number_at(table, Key::Downflooding, 0, 90)?;
    if 40 <= angle {
        Ok(angle as u8)
    } else {
        Err(ProfileFault::Downflooding(angle as u32))
    }
}

/// From the first of these stations to the last.
pub fn extent_of(stations: &[Mm]) -> Extent
    requires { 1 ≤ length stations.now }
    ensures { result ≡ extent_of stations.now }
{
    Extent {
        aft: stations[0],
        fore: stations[stations.len() - 1],
    }
}

/// The ship of a document.
pub fn read_ship(alloc: Global, table: &Table) -> Result<Ship, ProfileFault>
    ensures ok { IfOk result (λ s. ship_of (table_view table.now) ≡ Ok s) }
    ensures refused { IfErr result
        (λ e. e ≢ ProfileFault.NoMemory → ship_of (table_view table.now) ≡ Err e) }
    ensures meaning { IfOk result (λ s. IsSoundShip s) }
{
    let lbp = length_at(table, Key::Lbp, 1, MAX_MM)?;
    let downflooding = read_downflooding(table)?;
    let draught_max = length_at(table, Key::DraughtMax, 1, 100_000)?;
    let trim_max = length_at(table, Key::TrimMax, 0, 100_000)?;
    let list_max = number_at(table, Key::ListMax, 0, 10_000)?;
    let closing_max = number_at(table, Key::ClosingMax, 0, MAX_KG)?;
    let stations = read_stations(alloc, table)?;
    let extent = extent_of(stations.as_slice());
    let blocks = read_blocks(alloc, extent, table)?;
    let frames = read_frames(alloc, stations.as_slice(), table)?;
    Ok(Ship {
        lbp,
        downflooding,
        draught_max,
        trim_max,
        list_max,
        closing_max,
        stations,
        blocks,
        frames,
    })
}
