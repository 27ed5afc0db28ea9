ghost use Rattle.std.specs.Prelude.{◌≡◌};
ghost use Rattle.step_edits.specs.Printed.{edit_code_text};

use lift_sequence::SeqFault;
use std::error::Error;
use std::fmt;

/// Why an edit can't be made, in the order in which this is looked at. It prints as its code, X1 to
/// X4.
#[derive(Clone, Copy, Debug, PartialEq, Eq)]
pub enum EditFault {
    /// A number isn't that of a step.
    NoStep,
    /// The step to be weighed is no load.
    NotLoad,
    /// The steps of the edited list can't be carried out.
    Sequence(SeqFault),
    /// Out of memory.
    NoMemory,
}

impl EditFault {
    /// Its code.
    pub fn code(self) -> &'static str
        ensures { result.now ≡ edit_code_text self }
    {
        match self {
            EditFault::NoStep => "X1",
            EditFault::NotLoad => "X2",
            EditFault::Sequence(_) => "X3",
            EditFault::NoMemory => "X4",
        }
    }
}

impl fmt::Display for EditFault {
    ghost use Rattle.std.specs.Prelude.{Some};
    ghost use Rattle.step_edits.specs.Printed.{edit_code_text};

    ghost output = { λ fault. Some (edit_code_text fault) };

    fn fmt<W: fmt::Write>(&self, f: &mut fmt::Formatter<W>) -> fmt::Result {
        f.write_str(self.code())
    }
}

impl Error for EditFault {}
