ghost use Rattle.std.specs.Prelude.{Some};
ghost use Rattle.ship_tables.specs.Printed.{file_text, table_fault_text};

use std::alloc::{AllocError, AllocFailed};
use std::error::Error;
use std::fmt;

/// A file of a ship's profile. It prints as its name.
#[derive(Clone, Copy, Debug, PartialEq, Eq)]
pub enum File {
    /// `ship.toml`: the limits, stations, blocks, frames and fills. It holds no table, so no
    /// [`TableFault`] names it.
    Ship,
    /// `cells.csv`: the cells, and the place of a container in each.
    Cells,
    /// `hydro.csv`: the hydrostatic table.
    Hydro,
    /// `kn.csv`: the righting levers.
    Levers,
    /// `bonjean.csv`: the immersed areas at the stations.
    Bonjean,
    /// `tanks.csv`: the fillings of the tanks.
    Tanks,
    /// `gm.csv`: the least metacentric heights.
    LeastGm,
}

impl fmt::Display for File {
    ghost output = { λ f. Some (file_text f) };

    fn fmt<W: fmt::Write>(&self, f: &mut fmt::Formatter<W>) -> fmt::Result {
        match self {
            File::Ship => f.write_str("ship.toml"),
            File::Cells => f.write_str("cells.csv"),
            File::Hydro => f.write_str("hydro.csv"),
            File::Levers => f.write_str("kn.csv"),
            File::Bonjean => f.write_str("bonjean.csv"),
            File::Tanks => f.write_str("tanks.csv"),
            File::LeastGm => f.write_str("gm.csv"),
        }
    }
}

/// Why the tables of a profile are refused. It prints as its code and its place: the file and the
/// number of the CSV record, the heading being 1.
#[derive(Clone, Copy, Debug, PartialEq, Eq)]
pub enum TableFault {
    /// P4: a record has another number of fields than its table.
    BadCsv(File, u32),
    /// P5: a field is no number, or no cell where a cell is asked.
    BadNumber(File, u32),
    /// P6: a number is out of its limits, a name too short or too long, a row one too many, or it
    /// is too far from the row before it.
    OutOfLimits(File, u32),
    /// P7: a row doesn't rise above the row before it, or it comes back to a tank whose rows have
    /// ended.
    NotRising(File, u32),
    /// P8: a row's cell is that of an earlier row of `cells.csv`.
    DoubleCell(u32),
    /// P10: a row's body reaches beyond the ship's first or last station.
    OutsideStations(File, u32),
    /// P13: a file has too few rows, or a tank of it.
    TooFewRows(File),
    /// P14: the memory that reading asks for was refused.
    NoMemory,
}

impl fmt::Display for TableFault {
    ghost output = { λ e. Some (table_fault_text e) };

    fn fmt<W: fmt::Write>(&self, f: &mut fmt::Formatter<W>) -> fmt::Result {
        match *self {
            TableFault::BadCsv(file, line) => write!(f, "P4 {file} {line}"),
            TableFault::BadNumber(file, line) => write!(f, "P5 {file} {line}"),
            TableFault::OutOfLimits(file, line) => write!(f, "P6 {file} {line}"),
            TableFault::NotRising(file, line) => write!(f, "P7 {file} {line}"),
            TableFault::DoubleCell(line) => write!(f, "P8 {line}"),
            TableFault::OutsideStations(file, line) => write!(f, "P10 {file} {line}"),
            TableFault::TooFewRows(file) => write!(f, "P13 {file}"),
            TableFault::NoMemory => f.write_str("P14"),
        }
    }
}

impl Error for TableFault {}

impl From<AllocError> for TableFault {
    ghost use Rattle.std.specs.Prelude.{◌≡◌};
    ghost use Rattle.ship_tables.specs.declared.faults.TableFault.TheVariants.{NoMemory};

    ghost from_gives = { λ _ fault. fault ≡ NoMemory };

    fn from(_: AllocError) -> TableFault {
        TableFault::NoMemory
    }
}

impl<T: Drop> From<AllocFailed<T>> for TableFault {
    ghost use Rattle.std.specs.Prelude.{◌≡◌};
    ghost use Rattle.ship_tables.specs.declared.faults.TableFault.TheVariants.{NoMemory};

    ghost from_gives = { λ _ fault. fault ≡ NoMemory };

    fn from(_: AllocFailed<T>) -> TableFault {
        TableFault::NoMemory
    }
}
