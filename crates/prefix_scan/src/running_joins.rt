//! Joins so far.
ghost use Rattle.std.specs.Prelude.{◌≡◌, ℕ, ◌+◌, ◌<◌, ◌≤◌, length, sum_by, slice_index_or};
ghost use Rattle.std.specs.Iterator.{YieldsFirst, item_count};
ghost use Rattle.prefix_scan.specs.Folds.{prefix, sums_from};
ghost use Rattle.prefix_scan.specs.Laws.{most_parts};

use crate::monoids::Monoid;

/// An iterator that yields for each value an offset joined with the fold of the values up to it,
/// that value with them.
#[derive(Drop)]
pub struct Running<'a, M: Monoid + Drop> {
    sum: M,
    rest: &'a [M],
    ghost fits: { M.weight sum + sum_by M.weight rest.now ≤ most_parts },
}

impl<'a, M: Monoid + Drop> Running<'a, M> {
    /// The joins from an offset on. The sizes of the offset and of all values add up to at most
    /// [`crate::MAX_PARTS`].
    pub fn new(offset: M, values: &'a [M]) -> Running<'a, M>
        requires { M.weight offset + sum_by M.weight values.now ≤ most_parts }
        ensures count { length (sums_from M.op result.sum result.rest.now)
            ≡ length values.entry.now }
        ensures items { (i : ℕ) (d : _) → i < length values.entry.now
            → slice_index_or (sums_from M.op result.sum result.rest.now) i d
            ≡ M.op offset (prefix M.empty M.op values.entry.now (i + 1)) }
    {
        Running {
            sum: offset,
            rest: values,
        }
    }
}

impl<'a, M: Monoid + Drop> Iterator for Running<'a, M> {
    type Item = M;

    ghost next_gives = { YieldsFirst (λ s. sums_from M.op s.sum s.rest.now) };

    ghost remaining = { item_count (λ s. sums_from M.op s.sum s.rest.now) };

    fn next(&mut self) -> Option<M> {
        let (first, others) = self.rest.split_first()?;
        let sum = self.sum.join(first);
        *self = Running { sum, rest: others };
        Some(sum)
    }
}
