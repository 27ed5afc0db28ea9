ghost use Rattle.std.specs.Prelude.{◌≡◌, ◌≤◌, sum_by, IfOk};
ghost use Rattle.prefix_scan.specs.Folds.{folded, offset_list};
ghost use Rattle.prefix_scan.specs.Laws.{most_parts};

use crate::monoids::Monoid;
use std::alloc::{AllocError, Global};

/// All values joined in their order; the unit where there are none. Their sizes add up to at most
/// [`crate::MAX_PARTS`].
pub fn fold<M: Monoid>(values: &[M]) -> M
    requires { sum_by M.weight values.now ≤ most_parts }
    ensures { result ≡ folded M.empty M.op values.now }
{
    let mut sum = M::unit();
    for value in values {
        sum = sum.join(value);
    }
    sum
}

/// For each value the fold of those before it: as many entries as values, the first the unit. The
/// sizes of the values add up to at most [`crate::MAX_PARTS`].
pub fn offsets<M: Monoid + Drop>(alloc: Global, values: &[M]) -> Result<Vec<M>, AllocError>
    requires { sum_by M.weight values.now ≤ most_parts }
    ensures { IfOk result (λ v. v.items ≡ offset_list M.empty M.op values.now) }
{
    let mut all = Vec::with_capacity(alloc, values.len())?;
    let mut before = M::unit();
    for value in values {
        all.push(before)?;
        before = before.join(value);
    }
    Ok(all)
}
