use lift_sequence::Op;
use units_core::Kg;

/// An edit of a list of steps, which are numbered from 1.
#[derive(Debug, Drop, PartialEq, Eq)]
pub enum Edit {
    /// Two steps change places.
    Swap { a: u32, b: u32 },
    /// A step is taken out, and put in again so that it is at the number `to`.
    Move { from: u32, to: u32 },
    /// A step is taken out.
    Remove { at: u32 },
    /// A new step comes in, and is at the number `at`; at most one behind the last.
    Insert { at: u32, lift: Op },
    /// The container of a load has another weight.
    Reweigh { at: u32, kg: Kg },
}
