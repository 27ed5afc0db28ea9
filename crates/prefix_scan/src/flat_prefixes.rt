//! Prefixes of a list whose values don't change.
ghost use Rattle.std.specs.Prelude.{◌≡◌, ◌≤◌, length, sum_by, IfOk};
ghost use Rattle.prefix_scan.specs.Folds.{prefix};
ghost use Rattle.prefix_scan.specs.Laws.{most_parts};

use crate::folds::{fold, offsets};
use crate::monoids::Monoid;
use crate::prefixes::Prefixes;
use crate::tree_rows::copy_values;
use std::alloc::{AllocError, Global};
use std::marker::Model;

/// A list of values, kept with each of its prefixes: the plain form of [`crate::TotalsTree`], whose
/// prefixes are read and whose values can't be changed.
///
/// To its callers it is the list of the values.
#[derive(Drop)]
pub struct Flat<M: Monoid + Drop> {
    values: Vec<M>,
    sums: Vec<M>,
}

impl<M: Monoid + Drop> Model for Flat<M> {
    ghost use Rattle.std.specs.Prelude.{List};
    ghost use Rattle.prefix_scan.specs.Stored.{AreSums};

    ghost Value = { List M };

    ghost view = { λ f. f.values.items };

    ghost invariant = { λ f. AreSums M.empty M.op f.values.items f.sums.items };
}

impl<M: Monoid + Drop> Flat<M> {
    /// The values with all their prefixes. The sizes of the values add up to at most
    /// [`crate::MAX_PARTS`]. The one error is out of memory.
    pub fn build(alloc: Global, values: &[M]) -> Result<Flat<M>, AllocError>
        requires { sum_by M.weight values.now ≤ most_parts }
        ensures { IfOk result (λ f. f ≡ values.now) }
    {
        let mut sums = offsets(alloc, values)?;
        sums.push(fold(values))?;
        let values = copy_values(alloc, values)?;
        Ok(Flat { values, sums })
    }

    /// How many values there are.
    pub fn len(&self) -> usize
        ensures { result ≡ length self.now }
    {
        self.values.len()
    }

    /// The first `i` values joined in their order; the unit where `i` is 0.
    pub fn prefix(&self, i: usize) -> M
        requires { i ≤ length self.now }
        ensures { result ≡ prefix M.empty M.op self.now i }
    {
        self.sums[i]
    }
}

impl<M: Monoid + Drop> Prefixes<M> for Flat<M> {
    ghost values = { λ f. f };

    fn len(&self) -> usize {
        Flat::len(self)
    }

    fn prefix(&mut self, i: usize) -> M {
        Flat::prefix(self, i)
    }
}
