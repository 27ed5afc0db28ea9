ghost use Rattle.std.specs.Prelude.{◌≡◌, Some};
ghost use Rattle.ship_profile.specs.Keys.{name_of};
ghost use Rattle.ship_profile.specs.Printed.{profile_fault_text};
ghost use Rattle.ship_profile.specs.TableFaults.{as_profile_fault};

use ship_tables::{File, TableFault};
use std::alloc::{AllocError, AllocFailed};
use std::error::Error;
use std::fmt;

/// A key of `ship.toml`. It prints as it is written there.
#[derive(Clone, Copy, Debug, PartialEq, Eq)]
pub enum Key {
    /// The length between perpendiculars.
    Lbp,
    /// The angle of down-flooding.
    Downflooding,
    /// The greatest draught.
    DraughtMax,
    /// The greatest trim either way.
    TrimMax,
    /// The greatest list either way.
    ListMax,
    /// The greatest closing error of the buoyancy.
    ClosingMax,
    /// The stations.
    Stations,
    /// The blocks of the light ship.
    Blocks,
    /// The frames at which loads are judged.
    Frames,
    /// The tanks that are filled.
    Fills,
}

impl Key {
    /// The key as it is written in `ship.toml`.
    pub fn name(self) -> &'static str
        ensures { result.now ≡ name_of self }
    {
        match self {
            Key::Lbp => "lbp_mm",
            Key::Downflooding => "downflooding_deg",
            Key::DraughtMax => "draught_max_mm",
            Key::TrimMax => "trim_max_mm",
            Key::ListMax => "list_max",
            Key::ClosingMax => "closing_max_kg",
            Key::Stations => "stations_mm",
            Key::Blocks => "blocks",
            Key::Frames => "frames",
            Key::Fills => "fills",
        }
    }
}

impl fmt::Display for Key {
    ghost output = { λ k. Some (name_of k) };

    fn fmt<W: fmt::Write>(&self, f: &mut fmt::Formatter<W>) -> fmt::Result {
        f.write_str(self.name())
    }
}

/// Why the files of a profile are refused. It prints as its code and its place: the key, or the
/// file and the number of the CSV record, the heading being 1. For `ship.toml` that number is 0, or
/// the number of the block where it is outside of the stations. Blocks, frames and fills are
/// counted from 1.
#[derive(Clone, Copy, Debug, PartialEq, Eq)]
pub enum ProfileFault {
    /// P1: the text of `ship.toml` is no TOML document, or has more than 1,048,576 bytes.
    BadToml,
    /// P2: a key isn't there, also in a table of this key's array.
    MissingKey(Key),
    /// P3: a key has a value of another type, also in a table of this key's array; or, for the
    /// fills, a tank is filled twice.
    BadKey(Key),
    /// P4: a record has another number of fields than its table.
    BadCsv(File, u32),
    /// P5: a field is no number, or no cell where a cell is asked.
    BadNumber(File, u32),
    /// P6: a number is out of its limits, an element or a row is one too many, or a row is too far
    /// from the one before it.
    OutOfLimits(File, u32),
    /// P7: a number isn't above that of the row or the element before it, or the rows of a tank
    /// aren't together.
    NotRising(File, u32),
    /// P8: a row's cell is that of an earlier row of `cells.csv`.
    DoubleCell(u32),
    /// P9: a frame is at no station.
    FrameNotStation(u32),
    /// P10: a block, a container's place or a tank's row reaches beyond the first or the last
    /// station.
    OutsideStations(File, u32),
    /// P11: the angle of down-flooding, in degrees, is below 40.
    Downflooding(u32),
    /// P12: a fill names a tank that isn't there.
    UnknownTank(u32),
    /// P13: a file has too few rows, or too few elements in an array.
    TooFewRows(File),
    /// P14: the memory that reading asks for was refused.
    NoMemory,
}

impl fmt::Display for ProfileFault {
    ghost output = { λ e. Some (profile_fault_text e) };

    fn fmt<W: fmt::Write>(&self, f: &mut fmt::Formatter<W>) -> fmt::Result {
        match *self {
            ProfileFault::BadToml => f.write_str("P1"),
            ProfileFault::MissingKey(key) => write!(f, "P2 {key}"),
            ProfileFault::BadKey(key) => write!(f, "P3 {key}"),
            ProfileFault::BadCsv(file, line) => write!(f, "P4 {file} {line}"),
            ProfileFault::BadNumber(file, line) => write!(f, "P5 {file} {line}"),
            ProfileFault::OutOfLimits(file, line) => write!(f, "P6 {file} {line}"),
            ProfileFault::NotRising(file, line) => write!(f, "P7 {file} {line}"),
            ProfileFault::DoubleCell(line) => write!(f, "P8 {line}"),
            ProfileFault::FrameNotStation(frame) => write!(f, "P9 {frame}"),
            ProfileFault::OutsideStations(file, line) => write!(f, "P10 {file} {line}"),
            ProfileFault::Downflooding(angle) => write!(f, "P11 {angle}"),
            ProfileFault::UnknownTank(fill) => write!(f, "P12 {fill}"),
            ProfileFault::TooFewRows(file) => write!(f, "P13 {file}"),
            ProfileFault::NoMemory => f.write_str("P14"),
        }
    }
}

impl Error for ProfileFault {}

impl From<AllocError> for ProfileFault {
    ghost use Rattle.ship_profile.specs.declared.faults.ProfileFault.TheVariants.{NoMemory};

    ghost from_gives = { λ _ fault. fault ≡ NoMemory };

    fn from(_: AllocError) -> ProfileFault {
        ProfileFault::NoMemory
    }
}

impl<T: Drop> From<AllocFailed<T>> for ProfileFault {
    ghost use Rattle.ship_profile.specs.declared.faults.ProfileFault.TheVariants.{NoMemory};

    ghost from_gives = { λ _ fault. fault ≡ NoMemory };

    fn from(_: AllocFailed<T>) -> ProfileFault {
        ProfileFault::NoMemory
    }
}

impl From<TableFault> for ProfileFault {
    ghost from_gives = { λ e f. f ≡ as_profile_fault e };

    fn from(fault: TableFault) -> ProfileFault {
        match fault {
            TableFault::BadCsv(file, line) => ProfileFault::BadCsv(file, line),
            TableFault::BadNumber(file, line) => ProfileFault::BadNumber(file, line),
            TableFault::OutOfLimits(file, line) => ProfileFault::OutOfLimits(file, line),
            TableFault::NotRising(file, line) => ProfileFault::NotRising(file, line),
            TableFault::DoubleCell(line) => ProfileFault::DoubleCell(line),
            TableFault::OutsideStations(file, line) => ProfileFault::OutsideStations(file, line),
            TableFault::TooFewRows(file) => ProfileFault::TooFewRows(file),
            TableFault::NoMemory => ProfileFault::NoMemory,
        }
    }
}
