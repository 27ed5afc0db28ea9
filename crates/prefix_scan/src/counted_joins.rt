//! Joins that are counted.
ghost use Rattle.std.specs.Prelude.{◌≡◌, ◌+◌, ◌-◌, ◌^◌, ◌<◌, ◌≤◌};
ghost use Rattle.prefix_scan.specs.Laws.{most_parts};

use crate::monoids::Monoid;

/// One join, which adds one to the count; a count at its greatest value stays. The sizes of the two
/// values add up to at most [`crate::MAX_PARTS`].
///
/// Every join of a tree's `set` and `prefix` is made here, so that all of them are counted.
pub fn counted_join<M: Monoid>(count: &mut u64, left: &M, right: &M) -> M
    requires { M.weight left.now + M.weight right.now ≤ most_parts }
    ensures value { result ≡ M.op left.now right.now }
    ensures one_more { count.old < 2 ^ 64 - 1 → count.new ≡ count.old + 1 }
    ensures bound { (count.old ≤ count.new) × (count.new ≤ count.old + 1) }
{
    *count = count.saturating_add(1);
    left.join(right)
}
