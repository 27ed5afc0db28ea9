ghost use Rattle.std.specs.Prelude.{◌≡◌};
ghost use Rattle.port_call.specs.Shown.{shown};

use std::fmt;
use units_core::Cell;

/// A cell that prints as its seven digits.
#[derive(Clone, Copy)]
pub struct CellText(pub Cell);

impl fmt::Display for CellText {
    ghost use Rattle.std.specs.Prelude.{Some};
    ghost use Rattle.port_call.specs.Shown.{cell_text};

    ghost output = { λ c. Some (cell_text c.0) };

    fn fmt<W: fmt::Write>(&self, f: &mut fmt::Formatter<W>) -> fmt::Result {
        let Cell { bay, row, tier } = self.0;
        write!(f, "{bay:03}{row:02}{tier:02}")
    }
}

/// A byte of a name as it can be printed: a question mark stands for a blank, and for what is no
/// visible character.
pub fn printable(byte: u8) -> u8
    ensures { result ≡ shown byte }
{
    if byte.is_ascii_graphic() { byte } else { b'?' }
}
