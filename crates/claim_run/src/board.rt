ghost use Rattle.std.specs.Prelude.{◌≡◌};

use crate::scouts::Scout;
use crate::shared_board::SharedBoard;

/// The chunks that a scout knows, which hands draw one by one. It is shared by reference; none of
/// its calls waits, but for the gate and the scout's `look`.
#[derive(Drop)]
pub struct Board<'a, S: Scout> {
    pub(crate) inner: SharedBoard<S>,
    pub(crate) scout: &'a S,
    ghost told: { inner.table.shared.key.scout.value ≡ scout.now },
}
