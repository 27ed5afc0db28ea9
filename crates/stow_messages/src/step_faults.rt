ghost use Rattle.std.specs.Prelude.{◌≡◌};
ghost use Rattle.stow_messages.specs.Steps.{fault_at};

use std::fmt;

/// Why a text is no steps file. The display is the code of the cause, G1 to G8.
#[derive(Clone, Copy, Debug, PartialEq, Eq)]
pub enum StepsCode {
    /// A record, or the heading, of other than four fields.
    BadCsv,
    /// A record that is neither a lift, nor a tank, nor a restow.
    BadKind,
    /// A field that isn't what its place asks for.
    BadField,
    /// A number that names no lift.
    NoLift,
    /// A lift that is in an earlier record.
    LiftTwice,
    /// A lift that is in no record.
    LiftMissing,
    /// More records than the program takes.
    TooMany,
    /// Out of memory.
    NoMemory,
}

/// The cause, and where it was found: the number of the record, that of the heading being 1; for a
/// missing lift the least such lift; for out of memory 0.
#[derive(Clone, Copy, Debug, PartialEq, Eq)]
pub struct StepsFault {
    pub code: StepsCode,
    pub at: u32,
}

/// The fault of a cause at a place.
pub fn fault_at(code: StepsCode, at: u32) -> StepsFault
    ensures { result ≡ fault_at code at }
{
    match code {
        StepsCode::NoMemory => StepsFault { code, at: 0 },
        _ => StepsFault { code, at },
    }
}

impl fmt::Display for StepsCode {
    ghost use Rattle.std.specs.Prelude.{Some};
    ghost use Rattle.stow_messages.specs.Printed.{steps_code_text};

    ghost output = { λ code. Some (steps_code_text code) };

    fn fmt<W: fmt::Write>(&self, f: &mut fmt::Formatter<W>) -> fmt::Result {
        match self {
            StepsCode::BadCsv => f.write_str("G1"),
            StepsCode::BadKind => f.write_str("G2"),
            StepsCode::BadField => f.write_str("G3"),
            StepsCode::NoLift => f.write_str("G4"),
            StepsCode::LiftTwice => f.write_str("G5"),
            StepsCode::LiftMissing => f.write_str("G6"),
            StepsCode::TooMany => f.write_str("G7"),
            StepsCode::NoMemory => f.write_str("G8"),
        }
    }
}

impl std::error::Error for StepsCode {}

impl fmt::Display for StepsFault {
    ghost use Rattle.std.specs.Prelude.{Some};
    ghost use Rattle.stow_messages.specs.Printed.{steps_fault_text};

    ghost output = { λ fault. Some (steps_fault_text fault) };

    fn fmt<W: fmt::Write>(&self, f: &mut fmt::Formatter<W>) -> fmt::Result {
        let code = self.code;
        let at = self.at;
        match code {
            StepsCode::NoMemory => write!(f, "{code}"),
            StepsCode::LiftMissing => write!(f, "{code} lift {at}"),
            _ => write!(f, "{code} line {at}"),
        }
    }
}

impl std::error::Error for StepsFault {}
