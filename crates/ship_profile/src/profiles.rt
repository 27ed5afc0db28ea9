ghost use Rattle.std.specs.Prelude.{◌≡◌, ◌≢◌, ◌↔◌, IsTrue, Ok, Err, IfOk, IfErr, length};
ghost use Rattle.std.specs.Prelude.{option_map};
ghost use Rattle.ship_profile.specs.Record.{texts_of, tables_in, record_of, place_of, number_of};
ghost use Rattle.ship_profile.specs.Record.{tank_of, tank_body, IsSound};
ghost use Rattle.ship_profile.specs.Ship.{extent_of, IsSoundShip};
ghost use Rattle.ship_profile.specs.Written.{IsWritten};
ghost use Rattle.ship_profile.specs.Sections.{AreSectionsOf};
ghost use Rattle.ship_tables.specs.Record.{IsSound as AreTables};

use crate::faults::ProfileFault;
use crate::fills::{TankFill, fill_tanks, read_fills};
use crate::keys::read_document;
use crate::sections::Sections;
use crate::ships::{Ship, extent_of, read_ship};
use ship_tables::{Curves, Hydro, TableTexts, Tables};
use std::alloc::Global;
use std::fmt::{self, Debug, Formatter, Write};
use std::marker::Model;
use units_core::{Body, Cell, Frames, Mm, Place, same_items};

/// The texts of a profile's files.
#[derive(Clone, Copy, Debug)]
pub struct ProfileBytes<'a> {
    /// `ship.toml`
    pub ship: &'a [u8],
    /// `cells.csv`
    pub cells: &'a [u8],
    /// `hydro.csv`
    pub hydro: &'a [u8],
    /// `kn.csv`
    pub kn: &'a [u8],
    /// `bonjean.csv`
    pub bonjean: &'a [u8],
    /// `tanks.csv`
    pub tanks: &'a [u8],
    /// `gm.csv`, where there is one
    pub gm: Option<&'a [u8]>,
}

/// A ship's profile. It stays as it was read.
pub struct Profile {
    ship: Ship,
    tables: Tables,
    fills: Vec<TankFill>,
    /// What the walk along her stations takes of the two above.
    sections: Sections,
    ghost prepared: { AreSectionsOf sections ship.stations tables.bonjean },
}

impl Debug for Profile {
    // Written out, since what is worked out of the ship and the tables isn't shown.
    fn fmt<W: Write>(&self, f: &mut Formatter<W>) -> Result<(), fmt::Error> {
        f.debug_struct("Profile")
            .field("ship", &self.ship)
            .field("tables", &self.tables)
            .field("fills", &self.fills)
            .finish()
    }
}

impl Drop for Profile {
    // Written out, since the crates above prove a derived one anew, field by field.
    fn drop(self) {
        let Profile {
            ship: _ship,
            tables: _tables,
            fills: _fills,
            sections: _sections,
        } = self;
    }
}

impl Model for Profile {
    ghost use Rattle.ship_profile.specs.Record.{ProfileRecord, IsSound};

    ghost Value = { ProfileRecord };

    ghost view = { λ p. record { ship = p.ship; tables = p.tables; fills = p.fills.items } };

    ghost invariant = { λ p. IsSound (record {
      ship = p.ship;
      tables = p.tables;
      fills = p.fills.items;
    }) };
}

/// The tables of a ship, whose stations they are read by.
fn read_tables(alloc: Global, ship: &Ship, bytes: &ProfileBytes<'_>) -> Result<Tables, ProfileFault>
    requires { IsSoundShip ship.now }
    ensures ok { IfOk result (λ t. tables_in ship.now (texts_of bytes.now).tables ≡ Ok t) }
    ensures refused { IfErr result
        (λ e. e ≢ ProfileFault.NoMemory → tables_in ship.now (texts_of bytes.now).tables ≡ Err e) }
    ensures meaning { IfOk result
        (λ t. AreTables (extent_of ship.now.stations) (length ship.now.stations) t) }
{
    let stations = ship.stations.as_slice();
    let texts = TableTexts {
        cells: bytes.cells,
        hydro: bytes.hydro,
        levers: bytes.kn,
        bonjean: bytes.bonjean,
        tanks: bytes.tanks,
        least_gm: bytes.gm,
    };
    let tables = Tables::read(alloc, extent_of(stations), stations.len(), &texts)?;
    Ok(tables)
}

impl Profile {
    /// Reads the profile that the texts of its files write, or the first fault of them: `ship.toml`
    /// whole, then the tables in the order `cells.csv`, `hydro.csv`, `kn.csv`, `bonjean.csv`,
    /// `tanks.csv`, `gm.csv`, then the tanks of the fills. Each number of the profile is the one in
    /// its file: at its key, or in its column and in the record of its row. Only this takes memory;
    /// where it is refused the answer is [`ProfileFault::NoMemory`].
    pub fn read(alloc: Global, bytes: &ProfileBytes<'_>) -> Result<Profile, ProfileFault>
        ensures ok { IfOk result (λ p. record_of (texts_of bytes.now) ≡ Ok p) }
        ensures refused { IfErr result
            (λ e. e ≢ ProfileFault.NoMemory → record_of (texts_of bytes.now) ≡ Err e) }
        ensures meaning { IfOk result (λ p. IsSound p) }
        ensures written { IfOk result (λ p. IsWritten (texts_of bytes.now) p) }
    {
        let document = read_document(alloc, bytes.ship)?;
        let ship = read_ship(alloc, &document)?;
        let named = read_fills(alloc, &document)?;
        let tables = read_tables(alloc, &ship, bytes)?;
        let fills = fill_tanks(alloc, &tables, named.as_slice())?;
        let sections = Sections::of(alloc, ship.stations.as_slice(), tables.bonjean())?;
        Ok(Profile {
            ship,
            tables,
            fills,
            sections,
        })
    }

    /// The length between perpendiculars: 1 mm to 10^6 mm.
    pub fn lbp(&self) -> Mm
        ensures value { result ≡ self.now.ship.lbp }
        ensures sound { IsSound self.now }
    {
        self.ship.lbp
    }

    /// The angle of down-flooding: 40 to 90 degrees.
    pub fn downflooding(&self) -> u8
        ensures value { result ≡ self.now.ship.downflooding }
        ensures sound { IsSound self.now }
    {
        self.ship.downflooding
    }

    /// The greatest draught: 1 mm to 10^5 mm.
    pub fn draught_max(&self) -> Mm
        ensures value { result ≡ self.now.ship.draught_max }
        ensures sound { IsSound self.now }
    {
        self.ship.draught_max
    }

    /// The greatest trim either way: 0 mm to 10^5 mm.
    pub fn trim_max(&self) -> Mm
        ensures value { result ≡ self.now.ship.trim_max }
        ensures sound { IsSound self.now }
    {
        self.ship.trim_max
    }

    /// The greatest list either way, in ten-thousandths of its tangent: 0 to 10^4.
    pub fn list_max(&self) -> i64
        ensures value { result ≡ self.now.ship.list_max }
        ensures sound { IsSound self.now }
    {
        self.ship.list_max
    }

    /// The greatest closing error of the buoyancy either way: 0 kg to 10^9 kg.
    pub fn closing_max(&self) -> i64
        ensures value { result ≡ self.now.ship.closing_max }
        ensures sound { IsSound self.now }
    {
        self.ship.closing_max
    }

    /// The stations, 2 to 64: lengths forward of the after perpendicular, which rise.
    pub fn stations(&self) -> &[Mm]
        ensures value { result.now ≡ self.now.ship.stations }
        ensures sound { IsSound self.now }
    {
        self.ship.stations.as_slice()
    }

    /// The blocks of the light ship, 1 to 200, in the order of their file, each within the
    /// stations.
    pub fn blocks(&self) -> &[Body]
        ensures value { result.now ≡ self.now.ship.blocks }
        ensures sound { IsSound self.now }
    {
        self.ship.blocks.as_slice()
    }

    /// The frames at which loads are judged, 1 to 16, which rise, each at a station.
    pub fn frames(&self) -> &Frames
        ensures value { result.now ≡ self.now.ship.frames }
        ensures sound { IsSound self.now }
    {
        &self.ship.frames
    }

    /// The tanks that are filled, at most 200, in the order of `ship.toml`; none is filled twice.
    pub fn fills(&self) -> &[TankFill]
        ensures value { result.now ≡ self.now.fills }
        ensures sound { IsSound self.now }
    {
        self.fills.as_slice()
    }

    /// The place of a container in a cell, in constant time; `None` for a cell that the ship
    /// hasn't.
    pub fn cell(&self, cell: Cell) -> Option<Place>
        ensures { result ≡ place_of self.now cell }
    {
        self.tables.cell(cell)
    }

    /// The number of a cell, from 0 in the order of `cells.csv`, in constant time; `None` for a
    /// cell that the ship hasn't.
    pub fn cell_number(&self, cell: Cell) -> Option<usize>
        ensures { result ≡ number_of self.now cell }
    {
        self.tables.cell_number(cell)
    }

    /// The number of the tank of a name, from 0 in the order of `tanks.csv`; `None` for a tank that
    /// isn't there.
    pub fn tank(&self, name: &[u8]) -> Option<u16>
        ensures { result ≡ tank_of self.now name.now }
    {
        self.tables.tank(name)
    }

    /// A tank that holds the mass `kg`, as a body; `None` for an unknown tank, and for a mass
    /// outside of the tank's table.
    pub fn tank_item(&self, tank: u16, kg: u32) -> Option<Body>
        ensures { result ≡ tank_body self.now tank kg }
    {
        self.tables.tank_item(tank, kg)
    }

    /// The hydrostatic table.
    pub fn hydro(&self) -> &Hydro
        ensures value { result.now ≡ self.now.tables.hydro }
        ensures sound { IsSound self.now }
    {
        self.tables.hydro()
    }

    /// The righting levers KN in mm at 0, 5, .., 60 degrees of heel, 13 curves over the
    /// displacement in kg.
    pub fn levers(&self) -> &Curves
        ensures value { result.now ≡ self.now.tables.levers }
        ensures sound { IsSound self.now }
    {
        self.tables.levers()
    }

    /// The immersed areas in cm2, a curve for each station over the draught in mm.
    pub fn bonjean(&self) -> &Curves
        ensures value { result.now ≡ self.now.tables.bonjean }
        ensures sound { IsSound self.now }
    {
        self.tables.bonjean()
    }

    /// What a walk along the stations takes of them and of the immersed areas, worked out when the
    /// profile was read.
    pub fn sections(&self) -> &Sections
        ensures value { AreSectionsOf result.now self.now.ship.stations self.now.tables.bonjean }
        ensures sound { IsSound self.now }
    {
        &self.sections
    }

    /// The least metacentric height in mm, one curve over the displacement in kg; `None` for a ship
    /// without such limits.
    pub fn least_gm(&self) -> Option<&Curves>
        ensures value { option_map (λ c. c.now) result ≡ self.now.tables.least_gm }
        ensures sound { IsSound self.now }
    {
        self.tables.least_gm()
    }

    /// Whether two profiles are equal: `ship.toml` says the same of both ships, and the rows of
    /// their tables are the same in the same order. It takes no memory, and time in the length of
    /// the tables.
    pub fn same(&self, other: &Profile) -> bool
        ensures { IsTrue result ↔ (self.now ≡ other.now) }
    {
        self.ship.same(&other.ship)
            && self.tables.same(&other.tables)
            && same_items(&self.fills, &other.fills)
    }
}
