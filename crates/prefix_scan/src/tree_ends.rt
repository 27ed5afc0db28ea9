//! The ends of the rows of a tree: one value more, or fewer values.
ghost use Rattle.std.specs.Prelude.{◌≡◌, ◌<◌, ◌≤◌, ◌++◌, [], ◌∷◌, length, take, sum_by};
ghost use Rattle.std.specs.Prelude.{IfOk, OnOk, OnErr};
ghost use Rattle.std.specs.Vec.{vec_capacity, vec_len};
ghost use Rattle.prefix_scan.specs.Laws.{most_parts};
ghost use Rattle.prefix_scan.specs.Rows.{first_row, AreRows, AreRowsBut, AreSameRows, HaveRoom};

use crate::monoids::Monoid;
use std::alloc::{AllocError, Global};

/// Makes room for one value more in each row.
fn make_room<M: Monoid + Drop>(rows: &mut [Vec<M>]) -> Result<(), AllocError>
    ensures same { AreSameRows rows.old rows.new }
    ensures room { OnOk result (HaveRoom rows.new) }
{
    for row in rows.iter_mut() {
        row.reserve(1)?;
    }
    Ok(())
}

/// Puts a value at the end of the first row, and the join of a row's last two at the end of the row
/// above it, as long as the last value of a row isn't alone. Returns the value of the row that is
/// then above all, where there is one.
fn push_up<M: Monoid + Drop>(rows: &mut [Vec<M>], value: M) -> Option<M>
    requires rows { AreRows M.op rows.old }
    requires room { HaveRoom rows.old }
    requires sizes { sum_by M.weight (first_row rows.old ++ value ∷ []) ≤ most_parts }
    ensures rows { AreRowsBut M.op rows.new (first_row rows.old ++ value ∷ []) result }
    ensures number { length rows.new ≡ length rows.old }
{
    let mut value = value;
    for row in rows.iter_mut() {
        row.push_reserved(value);
        let len = row.len();
        if len % 2 == 1 {
            return None;
        }
        value = row[len - 2].join(&row[len - 1]);
    }
    Some(value)
}

/// Makes room for one value more in each row, and for one row more, which it returns: it is empty
/// and has room for one value. Out of memory, too, the rows have the values that they had.
fn with_room<M: Monoid + Drop>(alloc: Global, rows: &mut Vec<Vec<M>>) -> Result<Vec<M>, AllocError>
    requires { AreRows M.op rows.old.items }
    ensures rows { AreRows M.op rows.new.items }
    ensures list { first_row rows.new.items ≡ first_row rows.old.items }
    ensures room { OnOk result (HaveRoom rows.new.items) }
    ensures one_more { OnOk result (vec_len rows.new < vec_capacity rows.new) }
    ensures empty { IfOk result (λ row. row.items ≡ []) }
    ensures takes_one { IfOk result (λ row. vec_len row < vec_capacity row) }
{
    let above = Vec::with_capacity(alloc, 1)?;
    rows.reserve(1)?;
    make_room(rows)?;
    Ok(above)
}

/// Puts a value at the end of the list, with what it changes in the rows above. Out of memory the
/// rows have the values that they had.
pub fn push<M: Monoid + Drop>(
    alloc: Global,
    rows: &mut Vec<Vec<M>>,
    value: M,
) -> Result<(), AllocError>
    requires rows { AreRows M.op rows.old.items }
    requires sizes { sum_by M.weight (first_row rows.old.items ++ value ∷ []) ≤ most_parts }
    ensures rows { AreRows M.op rows.new.items }
    ensures list { OnOk result
        (first_row rows.new.items ≡ first_row rows.old.items ++ value ∷ []) }
    ensures same { OnErr result (first_row rows.new.items ≡ first_row rows.old.items) }
{
    let mut above = with_room(alloc, rows)?;
    if let Some(top) = push_up(rows, value) {
        above.push_reserved(top);
        rows.push_reserved(above);
    }
    Ok(())
}

/// Leaves the first `len` values of the list, and what the rows above have of them.
pub fn shorten<M: Monoid + Drop>(rows: &mut Vec<Vec<M>>, len: usize)
    requires rows { AreRows M.op rows.old.items }
    requires within { len ≤ length (first_row rows.old.items) }
    ensures rows { AreRows M.op rows.new.items }
    ensures list { first_row rows.new.items ≡ take len (first_row rows.old.items) }
{
    let mut height = 0;
    let mut left = len;
    'up: while 0 < left {
        rows[height].truncate(left);
        left /= 2;
        height += 1;
    }
    rows.truncate(height);
}
