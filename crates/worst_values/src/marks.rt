//! Marks of values: most conditions are far from the worst, which the mark of that shows.
ghost use Rattle.std.specs.Prelude.{◌≡◌, Some, true, false};
ghost use Rattle.worst_values.specs.Rows.{is_marked, mark_of};
ghost use Rattle.worst_values.specs.Worst.{candidate_of, is_worse};

use crate::values::Value;
use fractions::{is_from_mark, mark_above};

/// Whether a value is surely not worse than a mark.
#[inline(always)]
pub fn is_value_from(value: &Value, mark: i32) -> bool
    ensures { result ≡ true → is_worse (candidate_of value.now).safety (mark_of mark) ≡ false }
{
    !value.beyond && is_from_mark(value.by, mark)
}

/// A mark that a value is worse than, where there's one.
pub fn mark_of_value(value: &Value) -> Option<i32>
    ensures { is_marked (Some (candidate_of value.now)) result ≡ true }
{
    if value.beyond {
        return Some(i32::MIN);
    }
    mark_above(value.by)
}
