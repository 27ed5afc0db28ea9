ghost use Rattle.std.specs.Prelude.{◌≡◌, ◌↔◌, IsTrue};

use stow_messages::Item;

/// Whether two bay plans are equal: they are equally long, and their items equal at each place.
pub fn same_plan(items: &[Item], others: &[Item]) -> bool
    ensures { IsTrue result ↔ (items.now ≡ others.now) }
{
    items == others
}
