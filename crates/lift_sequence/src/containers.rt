ghost use Rattle.std.specs.Prelude.{◌≡◌};
ghost use Rattle.lift_sequence.specs.Aboard.{container_of};
ghost use Rattle.lift_sequence.specs.Legal.{differ, is_empty};

use arrayvec::ArrayVec;
use std::alloc::AllocError;
use stow_messages::{Item, copy_text};
use units_core::Kg;

/// A container aboard: its identification, which may be empty, and its gross mass.
#[derive(Debug, Drop, PartialEq, Eq)]
pub struct Container {
    /// Its identification, as the messages write it.
    pub id: ArrayVec<u8, 17>,
    /// Its gross mass.
    pub kg: Kg,
}

impl Container {
    /// An equal container.
    pub fn copy(&self) -> Container
        ensures { result ≡ self.now }
    {
        Container {
            id: copy_text(&self.id),
            kg: self.kg,
        }
    }
}

impl Clone for Container {
    ghost use Rattle.std.specs.Prelude.{◌≡◌};

    ghost is_clone = { λ container copy. copy ≡ container };

    fn clone(&self) -> Result<Container, AllocError> {
        Ok(self.copy())
    }
}

/// The container that an item is.
pub fn container_of(item: &Item) -> Container
    ensures { result ≡ container_of item.now }
{
    Container {
        id: copy_text(&item.id),
        kg: item.kg,
    }
}

/// Two identifications differ, and none of them is empty: an empty one fits any container.
pub fn differ(a: &[u8], b: &[u8]) -> bool
    ensures { result ≡ differ a.now b.now }
{
    !a.is_empty() && !b.is_empty() && a != b
}
