ghost use Rattle.std.specs.Prelude.{◌≡◌, ◌≢◌};
ghost use Rattle.lift_sequence.specs.Arrival.{fault_at};

use std::error::Error;
use std::fmt;
use units_core::Cell;

/// Why an item, a fill or a step can't be. It prints as its code, S1 to S9.
#[derive(Clone, Copy, Debug, PartialEq, Eq)]
pub enum SeqCode {
    /// The ship has no such cell.
    UnknownCell,
    /// A container is in the cell.
    CellTaken,
    /// A container in this other cell overlaps; of several, the one of least bay is named.
    Overlap(Cell),
    /// No container is in the cell.
    CellEmpty,
    /// Another container is in the cell: both identifications are there, and they differ.
    WrongContainer,
    /// The table of the tank hasn't this mass.
    TankOver,
    /// More than 120,000 steps.
    TooManySteps,
    /// Out of memory.
    NoMemory,
    /// The ship has no tank of this name.
    UnknownTank,
}

impl fmt::Display for SeqCode {
    ghost use Rattle.std.specs.Prelude.{Some};
    ghost use Rattle.lift_sequence.specs.Printed.{seq_code_text};

    ghost output = { λ code. Some (seq_code_text code) };

    fn fmt<W: fmt::Write>(&self, f: &mut fmt::Formatter<W>) -> fmt::Result {
        f.write_str(match self {
            SeqCode::UnknownCell => "S1",
            SeqCode::CellTaken => "S2",
            SeqCode::Overlap(_) => "S3",
            SeqCode::CellEmpty => "S4",
            SeqCode::WrongContainer => "S5",
            SeqCode::TankOver => "S6",
            SeqCode::TooManySteps => "S7",
            SeqCode::NoMemory => "S8",
            SeqCode::UnknownTank => "S9",
        })
    }
}

impl Error for SeqCode {}

/// An item, a fill or a step that can't be. Each is numbered from 1; out of memory has 0.
#[derive(Clone, Copy, Debug, PartialEq, Eq)]
pub struct SeqFault {
    /// Why it can't be.
    pub code: SeqCode,
    /// The number of the item, the fill or the step.
    pub at: u32,
}

/// Out of memory.
pub const NO_MEMORY: SeqFault = SeqFault {
    code: SeqCode::NoMemory,
    at: 0,
};

/// The fault of a cause at the number of an item, a fill or a step. Out of memory has no number.
pub fn fault_at(code: SeqCode, at: u32) -> SeqFault
    ensures code { result.code ≡ code }
    ensures told { code ≢ SeqCode.NoMemory → result ≡ fault_at at code }
    ensures memory { code ≡ SeqCode.NoMemory → result.at ≡ 0 }
{
    match code {
        SeqCode::NoMemory => NO_MEMORY,
        _ => SeqFault { code, at },
    }
}
