//! What comes before each chunk.
ghost use Rattle.std.specs.Prelude.{◌≡◌, ℕ, ◌-◌, ◌<◌, ◌≤◌, length, slice_index_or, IfOk};
ghost use Rattle.prefix_scan.specs.Cut.{start_of};
ghost use Rattle.prefix_scan.specs.Folds.{prefix};

use crate::divisions::Cuts;
use crate::monoids::Monoid;
use crate::totals_tree::TotalsTree;
use std::alloc::{AllocError, Global};

/// For each chunk the values before it joined in their order: as many entries as chunks, the first
/// the unit. The last chunk begins within the list or where it ends, as it does where the cuts end
/// at the list's length or one past it. The joins aren't counted. The one error is out of memory.
pub fn offsets_tree<M: Monoid + Drop>(
    alloc: Global,
    tree: &TotalsTree<M>,
    cuts: &Cuts,
) -> Result<Vec<M>, AllocError>
    requires { start_of cuts.now (length cuts.now - 1) ≤ length tree.now.values }
    ensures count { IfOk result (λ v. length v.items ≡ length cuts.now) }
    ensures each { IfOk result (λ v. (c : ℕ) (d : _) → c < length cuts.now
        → slice_index_or v.items c d
        ≡ prefix M.empty M.op tree.now.values (start_of cuts.now c)) }
{
    let ends = cuts.ends();
    let mut all = Vec::with_capacity(alloc, ends.len())?;
    let mut start = 0;
    for end in ends {
        all.push(tree.peek(start as usize))?;
        start = *end;
    }
    Ok(all)
}
