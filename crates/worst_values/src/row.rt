ghost use Rattle.std.specs.Prelude.{◌≡◌, true, None, Some, option_map};
ghost use Rattle.worst_values.specs.Rows.{is_marked};
ghost use Rattle.worst_values.specs.Worst.{candidate_of, joined};

use crate::joining::is_worse;
use crate::marks::{is_value_from, mark_of_value};
use crate::values::Value;

/// The worst value of a row, where one was found, and a mark that it is worse than.
#[derive(Clone, Copy, Debug)]
pub struct Row {
    pub worst: Option<Value>,
    pub mark: Option<i32>,
    pub ghost marked: { is_marked (option_map candidate_of worst) mark ≡ true },
}

impl Row {
    /// No value yet.
    pub fn new() -> Row
        ensures { result.worst ≡ None }
    {
        Row {
            worst: None,
            mark: None,
        }
    }

    /// The row of a value.
    fn of(worst: Value) -> Row
        ensures { option_map candidate_of result.worst ≡ Some (candidate_of worst) }
    {
        Row {
            worst: Some(worst),
            mark: mark_of_value(&worst),
        }
    }

    /// Whether a value is surely not worse than that of the row.
    pub fn is_below(&self, found: &Value) -> bool
        ensures { result ≡ true → joined (option_map candidate_of self.now.worst)
            (Some (candidate_of found.now)) ≡ option_map candidate_of self.now.worst }
    {
        match self.mark {
            Some(mark) => is_value_from(found, mark),
            None => false,
        }
    }

    /// The row with a further value.
    pub fn with_value(self, found: Value) -> Row
        ensures { option_map candidate_of result.worst
            ≡ joined (option_map candidate_of self.worst) (Some (candidate_of found)) }
    {
        match self.worst {
            None => Row::of(found),
            Some(worst) => {
                if is_worse(&found, &worst) {
                    Row::of(found)
                } else {
                    self
                }
            }
        }
    }
}
