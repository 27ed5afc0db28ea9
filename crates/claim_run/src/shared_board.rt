// The board that threads share, and its hands.
ghost use Rattle.std.specs.Prelude.{◌≡◌, ◌+◌, ◌<◌, ◌^◌};

use crate::scouts::Scout;
use crate::table::{Plan, RunRule};
use crate::views::{Pending, View};
use atomic_table::{Seat, Table};
use std::alloc::Global;

/// What some workers of a board did, and their right to take turns at it. A hand is used at its own
/// board.
#[derive(Drop)]
pub struct Hand {
    pub(crate) seat: Seat<(), View>,
    pub(crate) pending: Pending,
}

/// A table of a run. It has no lifetime, so that threads may share it beside the scout that they
/// call.
#[derive(Drop)]
pub struct SharedBoard<S: Scout> {
    pub table: Table<(), View, Plan<S>, RunRule<S>, Global>,
    pub pieces: u32,
    ghost sized: { (table.shared.table_id.words ≡ 2) × (table.shared.table_id.slots ≡ 0)
        × (table.shared.key.pieces + table.shared.key.workers + 1 < 2 ^ 64) },
    ghost told: { table.shared.key.pieces ≡ pieces },
}
