ghost use Rattle.std.specs.Prelude.{◌≡◌};

use crate::items::{Item, copy_text};
use arrayvec::ArrayVec;
use units_core::Cell;

/// What a crane does with a container.
#[derive(Debug, Drop, PartialEq, Eq)]
pub enum Lift {
    /// The container comes aboard, into its cell.
    Load(Item),
    /// The container in this cell goes ashore. An empty identification fits any container.
    Discharge { cell: Cell, id: ArrayVec<u8, 17> },
}

impl Lift {
    /// An equal lift.
    pub fn copy(&self) -> Lift
        ensures { result ≡ self.now }
    {
        match self {
            Lift::Load(item) => Lift::Load(item.copy()),
            Lift::Discharge { cell, id } => Lift::Discharge {
                cell: *cell,
                id: copy_text(id),
            },
        }
    }
}

/// What a movement instruction orders for the groups behind a handling.
#[derive(Clone, Copy, Debug, PartialEq, Eq)]
pub enum Handling {
    Loading,
    Discharging,
}
