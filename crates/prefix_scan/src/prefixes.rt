//! The trait of a list of values whose prefixes can be read.
ghost use Rattle.std.specs.Prelude.{◌≡◌, ◌≤◌, List, length};
ghost use Rattle.prefix_scan.specs.Folds.{prefix};

use crate::monoids::Monoid;

/// A list of values that gives the join of its first `i` values.
pub trait Prefixes<M: Monoid> {
    // The values in their order.
    ghost values: { Self → List M };

    /// How many values there are.
    fn len(&self) -> usize
        ensures { result ≡ length (values self.now) };

    /// The first `i` values joined in their order; the unit where `i` is 0. The values stay; a
    /// record of the call, such as the count of its joins, may change.
    fn prefix(&mut self, i: usize) -> M
        requires { i ≤ length (values self.old) }
        ensures value { result ≡ prefix M.empty M.op (values self.old) i }
        ensures values { values self.new ≡ values self.old };
}
