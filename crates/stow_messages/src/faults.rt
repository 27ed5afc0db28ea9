ghost use Rattle.std.specs.Prelude.{◌≡◌};

use edifact_text::EdiFault;
use std::fmt;

/// Why a text is no bay plan, or no movement instruction. The display is the code of the cause, M1
/// to M10.
#[derive(Clone, Copy, Debug, PartialEq, Eq)]
pub enum StowCode {
    /// The text isn't the interchange of one such message.
    Envelope(EdiFault),
    /// A location of a cell that isn't six or seven digits.
    BadCell,
    /// An identification of over 17 bytes.
    IdTooLong,
    /// A weight that is no number, or above 999,999 kg.
    BadWeight,
    /// A weight in another unit than KGM.
    WrongUnit,
    /// A container without a weight.
    NoWeight,
    /// In a movement instruction a location of a cell before any handling.
    LiftWithoutHandling,
    /// A handling other than `LOA` and `DIS`.
    UnknownHandling,
    /// More items, or more lifts, than the program takes.
    TooMany,
    /// Out of memory.
    NoMemory,
}

/// The cause, and the number of the segment at which it was found: that of the message header is 1,
/// and 0 stands for the message as a whole.
#[derive(Clone, Copy, Debug, PartialEq, Eq)]
pub struct StowFault {
    pub code: StowCode,
    pub segment: u64,
}

/// Out of memory.
pub const NO_MEMORY: StowFault = StowFault {
    code: StowCode::NoMemory,
    segment: 0,
};

impl StowFault {
    /// The fault of a text that isn't the interchange of such a message.
    pub(crate) fn envelope(fault: EdiFault) -> StowFault
        ensures { result ≡ record { code = StowCode.Envelope fault; segment = 0 } }
    {
        StowFault {
            code: StowCode::Envelope(fault),
            segment: 0,
        }
    }
}

impl fmt::Display for StowCode {
    ghost use Rattle.std.specs.Prelude.{Some};
    ghost use Rattle.stow_messages.specs.Printed.{stow_code_text};

    ghost output = { λ code. Some (stow_code_text code) };

    fn fmt<W: fmt::Write>(&self, f: &mut fmt::Formatter<W>) -> fmt::Result {
        match self {
            StowCode::Envelope(fault) => write!(f, "M1 {fault}"),
            StowCode::BadCell => f.write_str("M2"),
            StowCode::IdTooLong => f.write_str("M3"),
            StowCode::BadWeight => f.write_str("M4"),
            StowCode::WrongUnit => f.write_str("M5"),
            StowCode::NoWeight => f.write_str("M6"),
            StowCode::LiftWithoutHandling => f.write_str("M7"),
            StowCode::UnknownHandling => f.write_str("M8"),
            StowCode::TooMany => f.write_str("M9"),
            StowCode::NoMemory => f.write_str("M10"),
        }
    }
}

impl std::error::Error for StowCode {}

impl fmt::Display for StowFault {
    ghost use Rattle.std.specs.Prelude.{Some};
    ghost use Rattle.stow_messages.specs.Printed.{stow_fault_text};

    ghost output = { λ fault. Some (stow_fault_text fault) };

    fn fmt<W: fmt::Write>(&self, f: &mut fmt::Formatter<W>) -> fmt::Result {
        let code = self.code;
        let segment = self.segment;
        match code {
            StowCode::Envelope(_) | StowCode::NoMemory => write!(f, "{code}"),
            _ => write!(f, "{code} segment {segment}"),
        }
    }
}

impl std::error::Error for StowFault {}
