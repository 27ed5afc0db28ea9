//! The rows of a tree: the first is the list of values, and each other has the joins of each two
//! neighbours of the row below it. A value that is alone at the end of a row is left out of the row
//! above.
ghost use Rattle.std.specs.Prelude.{◌≡◌, ℕ, ◌+◌, ◌-◌, ◌*◌, ◌/◌, ◌^◌, ◌<◌, ◌≤◌, ◌++◌, List, length};
ghost use Rattle.std.specs.Prelude.{take, drop, min, sum_by, slice_index_or, slice_set, IfOk};
ghost use Rattle.prefix_scan.specs.Folds.{prefix};
ghost use Rattle.prefix_scan.specs.Laws.{most_parts};
ghost use Rattle.prefix_scan.specs.Rows.{paired, first_row, AreRows, IsWritten};

use crate::counted_joins::counted_join;
use crate::monoids::Monoid;
use std::alloc::{AllocError, Global};

/// The row above a row.
fn row_above<M: Monoid + Drop>(alloc: Global, row: &[M]) -> Result<Vec<M>, AllocError>
    requires { sum_by M.weight row.now ≤ most_parts }
    ensures { IfOk result (λ v. v.items ≡ paired M.op row.now) }
{
    let mut joined = Vec::with_capacity(alloc, row.len() / 2)?;
    for k in 0..row.len() / 2 {
        joined.push(row[2 * k].join(&row[2 * k + 1]))?;
    }
    Ok(joined)
}

/// The same values in a list of their own.
pub fn copy_values<M: Monoid + Drop>(alloc: Global, values: &[M]) -> Result<Vec<M>, AllocError>
    ensures { IfOk result (λ v. v.items ≡ values.now) }
{
    // not by `collect`, which asks again for less where its first growth is refused
    let mut copy = Vec::new(alloc);
    copy.extend_from_slice(values)?;
    Ok(copy)
}

/// All rows over a list, which is the first of them. None for the empty list. The joins aren't
/// counted.
pub fn rows_of<M: Monoid + Drop>(alloc: Global, values: Vec<M>) -> Result<Vec<Vec<M>>, AllocError>
    requires { sum_by M.weight values.items ≤ most_parts }
    ensures { IfOk result (λ v. AreRows M.op v.items × (first_row v.items ≡ values.items)) }
{
    let mut rows = Vec::new(alloc);
    let mut row = values;
    'up: while !row.is_empty() {
        let next = row_above(alloc, &row)?;
        rows.push(row)?;
        row = next;
    }
    Ok(rows)
}

/// All rows over a copy of a list, as [`rows_of`] gives them.
pub fn rows_over<M: Monoid + Drop>(alloc: Global, values: &[M]) -> Result<Vec<Vec<M>>, AllocError>
    requires { sum_by M.weight values.now ≤ most_parts }
    ensures { IfOk result (λ v. AreRows M.op v.items × (first_row v.items ≡ values.now)) }
{
    let copy = copy_values(alloc, values)?;
    rows_of(alloc, copy)
}

/// The first `i` values of the list joined in their order, with at most one join for each row:
/// where the values of a row that are left to join are odd in number, the last of them is joined
/// before all that was joined so far, and the others are joined two by two in the row above.
pub fn join_first<M: Monoid + Drop>(rows: &[Vec<M>], i: usize, count: &mut u64) -> M
    requires rows { AreRows M.op rows.now }
    requires sizes { sum_by M.weight (first_row rows.now) ≤ most_parts }
    requires within { i ≤ length (first_row rows.now) }
    ensures value { result ≡ prefix M.empty M.op (first_row rows.now) i }
    ensures grows { count.old ≤ count.new }
    ensures cost { count.new ≤ count.old + length rows.now }
    ensures few { (k : ℕ) → i < 2 ^ k → count.new ≤ count.old + k }
    ensures counted { 0 < i → count.old < 2 ^ 64 - 1 → count.old < count.new }
{
    let mut at = i;
    let mut after = M::unit();
    for row in rows {
        if at % 2 == 1 {
            after = counted_join(count, &row[at - 1], &after);
        }
        at /= 2;
    }
    after
}

/// Puts a value in the place of the `i`-th, and renews the one value of each row above that it is
/// part of, up to the row where that one is alone at the end.
pub fn replace<M: Monoid + Drop>(rows: &mut [Vec<M>], i: usize, value: M, count: &mut u64)
    requires rows { AreRows M.op rows.old }
    requires within { i < length (first_row rows.old) }
    requires sizes { sum_by M.weight (slice_set (first_row rows.old) i value) ≤ most_parts }
    ensures rows { AreRows M.op rows.new }
    ensures list { first_row rows.new ≡ slice_set (first_row rows.old) i value }
    ensures grows { count.old ≤ count.new }
    ensures cost { count.new ≤ count.old + length rows.old }
    ensures few { count.new + 1 ≤ count.old + length rows.old }
    ensures counted { i + 1 < length (first_row rows.old) → count.old < 2 ^ 64 - 1
        → count.old < count.new }
{
    let mut at = i;
    let mut value = value;
    for row in rows.iter_mut() {
        row[at] = value;
        let left = at / 2 * 2;
        if left + 1 >= row.len() {
            return;
        }
        value = counted_join(count, &row[left], &row[left + 1]);
        at /= 2;
    }
}

/// Puts the first `len` of some values in the place of as many of a row, from the place `at` on.
fn put_stretch<M: Monoid + Drop>(row: &mut [M], at: usize, values: &[M], len: usize)
    requires within { at + len ≤ length row.old }
    requires some { len ≤ length values.now }
    ensures { IsWritten M.empty at len values.now row.old row.new }
{
    for k in 0..len {
        row[at + k] = values[k];
    }
}

/// Makes the first `len` values those of the row above a row, from the place `at` of that on, and
/// counts these joins.
fn join_stretch<M: Monoid + Drop>(
    row: &[M],
    at: usize,
    values: &mut [M],
    len: usize,
    count: &mut u64,
)
    requires sizes { sum_by M.weight row.now ≤ most_parts }
    requires within { 2 * (at + len) ≤ length row.now }
    requires some { len ≤ length values.old }
    ensures long { length values.new ≡ length values.old }
    ensures joined { (k : ℕ) → k < len → slice_index_or values.new k M.empty
        ≡ slice_index_or (paired M.op row.now) (at + k) M.empty }
    ensures grows { count.old ≤ count.new }
    ensures cost { count.new ≤ count.old + len }
    ensures counted { 0 < len → count.old < 2 ^ 64 - 1 → count.old < count.new }
{
    for k in 0..len {
        let left = 2 * (at + k);
        values[k] = counted_join(count, &row[left], &row[left + 1]);
    }
}

/// Puts the first `len` of some values in the place of as many of a row, from the place `at` on.
/// Makes the first values those of the row above that are to be renewed by that, from half the
/// place on, and returns how many they are, which is as many joins.
fn renew_row<M: Monoid + Drop>(
    row: &mut Vec<M>,
    at: usize,
    values: &mut [M],
    len: usize,
    count: &mut u64,
) -> usize
    requires within { at + len ≤ length row.old.items }
    requires more { 0 < len }
    requires some { len ≤ length values.old }
    requires sizes { (new : List M) → IsWritten M.empty at len values.old row.old.items new
        → sum_by M.weight new ≤ most_parts }
    ensures written { IsWritten M.empty at len values.old row.old.items row.new.items }
    ensures long { length values.new ≡ length values.old }
    ensures few { result ≡ min ((at + len + 1) / 2) (length row.old.items / 2) - at / 2 }
    ensures joined { (k : ℕ) → k < result → slice_index_or values.new k M.empty
        ≡ slice_index_or (paired M.op row.new.items) (at / 2 + k) M.empty }
    ensures grows { count.old ≤ count.new }
    ensures cost { count.new ≤ count.old + result }
    ensures counted { 0 < result → count.old < 2 ^ 64 - 1 → count.old < count.new }
{
    put_stretch(row, at, values, len);
    let end = ((at + len + 1) / 2).min(row.len() / 2);
    let above = end.saturating_sub(at / 2);
    join_stretch(row, at / 2, values, above, count);
    above
}

/// Puts values in the place of as many of the first row, from the place `first` on, and renews all
/// values of the rows above that they are part of, row by row and each once, by at most a join for
/// each of the values in each row but the first. What was in `values` is lost.
pub fn replace_stretch<M: Monoid + Drop>(
    rows: &mut [Vec<M>],
    first: usize,
    values: &mut [M],
    count: &mut u64,
)
    requires rows { AreRows M.op rows.old }
    requires within { first + length values.old ≤ length (first_row rows.old) }
    requires sizes { sum_by M.weight (take first (first_row rows.old) ++ values.old
        ++ drop (first + length values.old) (first_row rows.old)) ≤ most_parts }
    ensures rows { AreRows M.op rows.new }
    ensures list { first_row rows.new ≡ take first (first_row rows.old) ++ values.old
        ++ drop (first + length values.old) (first_row rows.old) }
    ensures grows { count.old ≤ count.new }
    ensures few { count.new + length values.old
        ≤ count.old + length values.old * length rows.old }
    ensures counted { 1 < length values.old → count.old < 2 ^ 64 - 1 → count.old < count.new }
{
    if values.is_empty() {
        return;
    }
    let mut at = first;
    let mut len = values.len();
    for row in rows.iter_mut() {
        let above = renew_row(row, at, values, len, count);
        if above == 0 {
            return;
        }
        len = above;
        at /= 2;
    }
}
