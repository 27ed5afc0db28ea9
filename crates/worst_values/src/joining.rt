ghost use Rattle.std.specs.Prelude.{◌≡◌, option_map};
ghost use Rattle.worst_values.specs.Worst.{candidate_of, is_worse, joined, worse_of};

use crate::values::Value;
use fractions::is_less;

/// Whether the first is worse than the second.
pub fn is_worse(one: &Value, other: &Value) -> bool
    ensures { result ≡ is_worse (candidate_of one.now).safety (candidate_of other.now).safety }
{
    if one.beyond {
        if other.beyond {
            return is_less(one.by, other.by);
        }
        return true;
    }
    if other.beyond {
        return false;
    }
    is_less(one.by, other.by)
}

/// The second, where it is worse; else the first.
fn worse_of(one: Value, other: Value) -> Value
    ensures { candidate_of result ≡ worse_of (candidate_of one) (candidate_of other) }
{
    if is_worse(&other, &one) { other } else { one }
}

/// The worst of two parts that follow each other, by that of each, if it has any.
pub fn worst_in(one: Option<Value>, other: Option<Value>) -> Option<Value>
    ensures { option_map candidate_of result
        ≡ joined (option_map candidate_of one) (option_map candidate_of other) }
{
    match one {
        None => other,
        Some(first) => match other {
            None => one,
            Some(second) => Some(worse_of(first, second)),
        },
    }
}
