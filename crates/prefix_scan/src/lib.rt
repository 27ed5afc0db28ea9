//! A scan over the values of any monoid whose values have a size, in their order: the join of all
//! values, the join of those before each, and where a list is cut into chunks. A tree gives these
//! joins of a list whose values change, and counts the joins that it makes.
//!
//! The order of the values is kept, since `join` isn't commutative. The crate knows no ship.
#![tactic(auto)]

mod chunk_offsets;
mod counted_joins;
mod divisions;
mod flat_prefixes;
mod folds;
mod last_values;
mod monoids;
mod prefixes;
mod running_joins;
mod totals_tree;
mod tree_ends;
mod tree_rows;

pub use chunk_offsets::offsets_tree;
pub use divisions::{CutFault, Cuts};
pub use flat_prefixes::Flat;
pub use folds::{fold, offsets};
pub use last_values::Last;
pub use monoids::{MAX_PARTS, Monoid};
pub use prefixes::Prefixes;
pub use running_joins::Running;
pub use totals_tree::TotalsTree;
