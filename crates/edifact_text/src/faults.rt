use std::fmt;

/// The message that is asked for.
#[derive(Clone, Copy, Debug, PartialEq, Eq)]
pub enum Kind {
    /// The bay plan.
    Baplie,
    /// The movement instruction, by which a vessel is loaded and discharged.
    Movins,
}

/// Why a text isn't the message that is asked for. It prints as its code.
#[derive(Clone, Copy, Debug, PartialEq, Eq)]
pub enum EdiCode {
    /// The text ends inside the service string advice, inside a segment, or before the interchange
    /// trailer.
    Truncated,
    /// The service string advice sets characters that can't serve.
    BadUna,
    /// The first segment isn't the interchange header.
    NoUnb,
    /// A functional group.
    Groups,
    /// The second segment is no message header.
    NoUnh,
    /// The message is of another type, directory or agency.
    WrongType,
    /// The message trailer doesn't count the segments from the header to itself, or the
    /// interchange's trailer comes before it.
    SegmentCount,
    /// The message trailer's reference isn't its header's.
    MessageRef,
    /// The message trailer isn't followed by the interchange trailer.
    SeveralMessages,
    /// The interchange trailer doesn't count one message.
    InterchangeCount,
    /// The interchange trailer's reference isn't its header's.
    InterchangeRef,
    /// A byte that is no blank follows the interchange trailer.
    Trailing,
    /// A segment is empty, or its tag.
    EmptySegment,
    /// A segment has over 64 elements, or an element over 64 components.
    TooManyElements,
}

/// A cause, and its place: how many bytes of the text are before it. It prints as `E7 at 57`.
#[derive(Clone, Copy, Debug, PartialEq, Eq)]
pub struct EdiFault {
    pub code: EdiCode,
    pub place: usize,
}

impl fmt::Display for EdiCode {
    ghost use Rattle.std.specs.Prelude.{Some};
    ghost use Rattle.edifact_text.specs.Printed.{edi_code_text};

    ghost output = { λ code. Some (edi_code_text code) };

    fn fmt<W: fmt::Write>(&self, f: &mut fmt::Formatter<W>) -> fmt::Result {
        match self {
            EdiCode::Truncated => f.write_str("E1"),
            EdiCode::BadUna => f.write_str("E2"),
            EdiCode::NoUnb => f.write_str("E3"),
            EdiCode::Groups => f.write_str("E4"),
            EdiCode::NoUnh => f.write_str("E5"),
            EdiCode::WrongType => f.write_str("E6"),
            EdiCode::SegmentCount => f.write_str("E7"),
            EdiCode::MessageRef => f.write_str("E8"),
            EdiCode::SeveralMessages => f.write_str("E9"),
            EdiCode::InterchangeCount => f.write_str("E10"),
            EdiCode::InterchangeRef => f.write_str("E11"),
            EdiCode::Trailing => f.write_str("E12"),
            EdiCode::EmptySegment => f.write_str("E13"),
            EdiCode::TooManyElements => f.write_str("E14"),
        }
    }
}

impl std::error::Error for EdiCode {}

impl fmt::Display for EdiFault {
    ghost use Rattle.std.specs.Prelude.{Some};
    ghost use Rattle.edifact_text.specs.Printed.{edi_fault_text};

    ghost output = { λ fault. Some (edi_fault_text fault) };

    fn fmt<W: fmt::Write>(&self, f: &mut fmt::Formatter<W>) -> fmt::Result {
        let code = self.code;
        let place = self.place;
        write!(f, "{code} at {place}")
    }
}

impl std::error::Error for EdiFault {}
