ghost use Rattle.std.specs.Prelude.{◌≡◌};

use arrayvec::ArrayVec;
use units_core::{Cell, Kg};

/// A container in a cell: its identification, which may be empty, and its gross mass.
#[derive(Debug, Drop, PartialEq, Eq)]
pub struct Item {
    pub cell: Cell,
    pub id: ArrayVec<u8, 17>,
    pub kg: Kg,
}

/// An equal text: an identification, or the name of a tank.
pub fn copy_text<const MOST: usize>(text: &ArrayVec<u8, MOST>) -> ArrayVec<u8, MOST>
    ensures { result ≡ text.now }
{
    let mut copy = ArrayVec::new();
    let _ = copy.try_extend_from_slice(text.as_slice());
    copy
}

impl Item {
    /// An equal item.
    pub fn copy(&self) -> Item
        ensures { result ≡ self.now }
    {
        Item {
            cell: self.cell,
            id: copy_text(&self.id),
            kg: self.kg,
        }
    }
}
