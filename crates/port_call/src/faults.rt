ghost use Rattle.std.specs.Prelude.{◌≡◌};
ghost use Rattle.port_call.specs.Printed.{thing_of};

use crate::printed::CellText;
use lift_sequence::{SeqCode, SeqFault};
use prefix_scan::CutFault;
use ship_profile::ProfileFault;
use std::error::Error;
use std::fmt;
use stow_messages::{StepsFault, StowFault};

/// Why the inputs of a run are refused, in the order in which they are checked.
#[derive(Clone, Copy, Debug, PartialEq, Eq)]
pub enum InputFault {
    /// The ship's profile.
    Profile(ProfileFault),
    /// The bay plan.
    Baplie(StowFault),
    /// An item of the bay plan can't be in its cell, or a tank can't hold its fill.
    Arrival(SeqFault),
    /// The movement instruction.
    Movins(StowFault),
    /// The steps file.
    Steps(StepsFault),
    /// A step can't be done where it comes, or there are too many.
    Sequence(SeqFault),
    /// They aren't refused: memory was, in reading them.
    NoMemory,
}

/// Why a run gives no report. The inputs are checked in the order of the first six, and then the
/// plan of the cuts. It prints as the code of the input, that of its fault, and the place.
#[derive(Clone, Copy, Debug, PartialEq, Eq)]
pub enum RunFault {
    /// F1: the ship's profile is refused.
    Profile(ProfileFault),
    /// F2: the bay plan is refused.
    Baplie(StowFault),
    /// F3: an item of the bay plan can't be in its cell, or a tank can't hold its fill.
    Arrival(SeqFault),
    /// F4: the movement instruction is refused.
    Movins(StowFault),
    /// F9: the steps file is refused.
    Steps(StepsFault),
    /// F5: a step can't be done where it comes, or there are too many.
    Sequence(SeqFault),
    /// F6: the plan of the cuts doesn't fit the lines.
    Cuts(CutFault),
    /// F7: out of memory; nothing was written.
    NoMemory,
    /// F8: the sink failed after it took this number of bytes of the report.
    Write(usize),
}

/// The code of a fault, the thing at which it was found, and its number; of two cells that overlap
/// also the other cell.
#[derive(Clone, Copy)]
struct Placed<'a> {
    thing: &'a str,
    fault: SeqFault,
}

impl<'a> fmt::Display for Placed<'a> {
    ghost use Rattle.std.specs.Prelude.{Some};
    ghost use Rattle.port_call.specs.Printed.{placed_text};

    ghost output = { λ p. Some (placed_text p.thing.now p.fault) };

    fn fmt<W: fmt::Write>(&self, f: &mut fmt::Formatter<W>) -> fmt::Result {
        let thing = self.thing;
        let SeqFault { code, at } = self.fault;
        match code {
            SeqCode::Overlap(cell) => {
                let rival = CellText(cell);
                write!(f, "{code} {thing} {at} cell {rival}")
            }
            _ => write!(f, "{code} {thing} {at}"),
        }
    }
}

/// What a fault of the arrival was found at: a fill of the ship's tanks, or an item of the bay
/// plan.
fn thing_of(code: SeqCode) -> &'static str
    ensures { result.now ≡ thing_of code }
{
    match code {
        SeqCode::TankOver => "fill",
        _ => "item",
    }
}

impl fmt::Display for RunFault {
    ghost use Rattle.std.specs.Prelude.{Some};
    ghost use Rattle.port_call.specs.Printed.{run_fault_text};

    ghost output = { λ fault. Some (run_fault_text fault) };

    fn fmt<W: fmt::Write>(&self, f: &mut fmt::Formatter<W>) -> fmt::Result {
        match *self {
            RunFault::Profile(fault) => write!(f, "F1 {fault}"),
            RunFault::Baplie(fault) => write!(f, "F2 {fault}"),
            RunFault::Arrival(fault) => {
                let thing = thing_of(fault.code);
                let placed = Placed { thing, fault };
                write!(f, "F3 {placed}")
            }
            RunFault::Movins(fault) => write!(f, "F4 {fault}"),
            RunFault::Steps(fault) => write!(f, "F9 {fault}"),
            RunFault::Sequence(fault) => {
                let placed = Placed {
                    thing: "step",
                    fault,
                };
                write!(f, "F5 {placed}")
            }
            RunFault::Cuts(fault) => write!(f, "F6 {fault}"),
            RunFault::NoMemory => f.write_str("F7"),
            RunFault::Write(written) => write!(f, "F8 {written}"),
        }
    }
}

impl Error for RunFault {}

impl From<InputFault> for RunFault {
    ghost use Rattle.port_call.specs.Refusals.{run_fault};

    ghost from_gives = { λ fault run. run ≡ run_fault fault };

    fn from(fault: InputFault) -> RunFault {
        match fault {
            InputFault::Profile(fault) => RunFault::Profile(fault),
            InputFault::Baplie(fault) => RunFault::Baplie(fault),
            InputFault::Arrival(fault) => RunFault::Arrival(fault),
            InputFault::Movins(fault) => RunFault::Movins(fault),
            InputFault::Steps(fault) => RunFault::Steps(fault),
            InputFault::Sequence(fault) => RunFault::Sequence(fault),
            InputFault::NoMemory => RunFault::NoMemory,
        }
    }
}
