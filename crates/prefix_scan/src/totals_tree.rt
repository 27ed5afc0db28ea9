//! Prefixes of a list whose values change.
ghost use Rattle.std.specs.Prelude.{◌≡◌, ℕ, ◌+◌, ◌-◌, ◌*◌, ◌^◌, ◌<◌, ◌≤◌, ◌++◌, length, take, drop};
ghost use Rattle.std.specs.Prelude.{[], ◌∷◌, sum_by, slice_set, IfOk, OnOk, OnErr};
ghost use Rattle.prefix_scan.specs.Folds.{prefix};
ghost use Rattle.prefix_scan.specs.Laws.{most_parts};

use crate::monoids::Monoid;
use crate::prefixes::Prefixes;
use crate::tree_ends::{push, shorten};
use crate::tree_rows::{join_first, replace, replace_stretch, rows_of, rows_over};
use std::alloc::{AllocError, Global};
use std::marker::Model;

/// A list of values, kept with the joins of its parts, so that changing a value or reading a prefix
/// takes about as many joins as the number of values has binary digits. It counts those joins.
///
/// To its callers it is the list `values` and the number `joins`.
#[derive(Drop)]
pub struct TotalsTree<M: Monoid + Drop> {
    rows: Vec<Vec<M>>,
    count: u64,
}

impl<M: Monoid + Drop> Model for TotalsTree<M> {
    ghost use Rattle.std.specs.Prelude.{◌≤◌, sum_by};
    ghost use Rattle.prefix_scan.specs.Counted.{Counted};
    ghost use Rattle.prefix_scan.specs.Laws.{most_parts};
    ghost use Rattle.prefix_scan.specs.Rows.{AreRows, first_row};

    ghost Value = { Counted M };

    ghost view = { λ t. record { values = first_row t.rows.items; joins = t.count } };

    ghost invariant = { λ t. AreRows M.op t.rows.items
        × (sum_by M.weight (first_row t.rows.items) ≤ most_parts) };
}

impl<M: Monoid + Drop> TotalsTree<M> {
    /// A tree over the values, with a count of 0: the joins made here aren't counted. The sizes of
    /// the values add up to at most [`crate::MAX_PARTS`]. The one error is out of memory.
    pub fn build(alloc: Global, values: &[M]) -> Result<TotalsTree<M>, AllocError>
        requires { sum_by M.weight values.now ≤ most_parts }
        ensures { IfOk result (λ t. (t.values ≡ values.now) × (t.joins ≡ 0)) }
    {
        let rows = rows_over(alloc, values)?;
        Ok(TotalsTree { rows, count: 0 })
    }

    /// A tree over the values, as [`TotalsTree::build`] makes it, which keeps them without a copy.
    pub fn of(alloc: Global, values: Vec<M>) -> Result<TotalsTree<M>, AllocError>
        requires { sum_by M.weight values.items ≤ most_parts }
        ensures { IfOk result (λ t. (t.values ≡ values.items) × (t.joins ≡ 0)) }
    {
        let rows = rows_of(alloc, values)?;
        Ok(TotalsTree { rows, count: 0 })
    }

    /// A tree over other values, be they more or fewer, which it keeps without a copy and whose
    /// count goes on from that of this one. The sizes of the values add up to at most
    /// [`crate::MAX_PARTS`], and the joins made here aren't counted. The one error is out of
    /// memory.
    pub fn with_values(&self, alloc: Global, values: Vec<M>) -> Result<TotalsTree<M>, AllocError>
        requires { sum_by M.weight values.items ≤ most_parts }
        ensures { IfOk result (λ t. (t.values ≡ values.items) × (t.joins ≡ self.now.joins)) }
    {
        let rows = rows_of(alloc, values)?;
        Ok(TotalsTree {
            rows,
            count: self.count,
        })
    }

    /// How many values there are.
    pub fn len(&self) -> usize
        ensures { result ≡ length self.now.values }
    {
        match self.rows.first() {
            Some(row) => row.len(),
            None => 0,
        }
    }

    /// How many joins `set`, `set_stretch` and `prefix` have made since the tree was built, up to
    /// the greatest number of the type.
    pub fn joins(&self) -> u64
        ensures { result ≡ self.now.joins }
    {
        self.count
    }

    /// Puts a value in the place of the `i`-th. The sizes of the values that are then in the list
    /// add up to at most [`crate::MAX_PARTS`].
    ///
    /// The count never falls, and where there are at most 2^k values it rises by at most k. Below
    /// the greatest number of its type it rises, unless the value is the last one.
    pub fn set(&mut self, i: usize, value: M)
        requires within { i < length self.old.values }
        requires sizes { sum_by M.weight (slice_set self.old.values i value) ≤ most_parts }
        ensures values { self.new.values ≡ slice_set self.old.values i value }
        ensures grows { self.old.joins ≤ self.new.joins }
        ensures cost { (k : ℕ) → length self.old.values ≤ 2 ^ k
            → self.new.joins ≤ self.old.joins + (k + 1) }
        ensures few { (k : ℕ) → length self.old.values ≤ 2 ^ k
            → self.new.joins ≤ self.old.joins + k }
        ensures counted { i + 1 < length self.old.values → self.old.joins < 2 ^ 64 - 1
            → self.old.joins < self.new.joins }
    {
        replace(&mut self.rows, i, value, &mut self.count);
    }

    /// Puts values in the place of as many that follow one another, from the `first`-th on. The
    /// sizes of the values that are then in the list add up to at most [`crate::MAX_PARTS`]. The
    /// part of the tree over them is made anew, row by row; as where a tree is built, its joins
    /// aren't counted. What was in `values` is lost.
    pub fn renew(&mut self, first: usize, values: &mut [M])
        requires within { first + length values.old ≤ length self.old.values }
        requires sizes { sum_by M.weight (take first self.old.values ++ values.old
            ++ drop (first + length values.old) self.old.values) ≤ most_parts }
        ensures values { self.new.values ≡ take first self.old.values ++ values.old
            ++ drop (first + length values.old) self.old.values }
        ensures joins { self.new.joins ≡ self.old.joins }
    {
        let mut uncounted = 0;
        replace_stretch(&mut self.rows, first, values, &mut uncounted);
    }

    /// As [`TotalsTree::renew`], with its joins counted: where there are at most 2^k values, the
    /// count rises by at most k for each value that is put in. Below the greatest number of its
    /// type it rises where two or more are.
    pub fn set_stretch(&mut self, first: usize, values: &mut [M])
        requires within { first + length values.old ≤ length self.old.values }
        requires sizes { sum_by M.weight (take first self.old.values ++ values.old
            ++ drop (first + length values.old) self.old.values) ≤ most_parts }
        ensures values { self.new.values ≡ take first self.old.values ++ values.old
            ++ drop (first + length values.old) self.old.values }
        ensures grows { self.old.joins ≤ self.new.joins }
        ensures few { (k : ℕ) → length self.old.values ≤ 2 ^ k
            → self.new.joins ≤ self.old.joins + length values.old * k }
        ensures counted { 1 < length values.old → self.old.joins < 2 ^ 64 - 1
            → self.old.joins < self.new.joins }
    {
        replace_stretch(&mut self.rows, first, values, &mut self.count);
    }

    /// Puts a value at the end. The sizes of the values that are then in the list add up to at most
    /// [`crate::MAX_PARTS`]. As where a tree is built, its joins aren't counted. Out of memory
    /// nothing changes.
    pub fn push(&mut self, alloc: Global, value: M) -> Result<(), AllocError>
        requires { sum_by M.weight (self.old.values ++ value ∷ []) ≤ most_parts }
        ensures values { OnOk result (self.new.values ≡ self.old.values ++ value ∷ []) }
        ensures joins { self.new.joins ≡ self.old.joins }
        ensures same { OnErr result (self.new ≡ self.old) }
    {
        push(alloc, &mut self.rows, value)
    }

    /// Leaves the first `len` values. No join is made.
    pub fn truncate(&mut self, len: usize)
        requires { len ≤ length self.old.values }
        ensures values { self.new.values ≡ take len self.old.values }
        ensures joins { self.new.joins ≡ self.old.joins }
    {
        shorten(&mut self.rows, len);
    }

    /// The first `i` values joined in their order; the unit where `i` is 0.
    ///
    /// The count never falls, and where there are at most 2^k values it rises by at most k + 1, and
    /// by at most k where `i` is below 2^k. Below the greatest number of its type it rises, unless
    /// `i` is 0. Where there is no value it stays.
    pub fn prefix(&mut self, i: usize) -> M
        requires { i ≤ length self.old.values }
        ensures value { result ≡ prefix M.empty M.op self.old.values i }
        ensures values { self.new.values ≡ self.old.values }
        ensures grows { self.old.joins ≤ self.new.joins }
        ensures cost { (k : ℕ) → length self.old.values ≤ 2 ^ k
            → self.new.joins ≤ self.old.joins + (k + 1) }
        ensures few { (k : ℕ) → i < 2 ^ k → self.new.joins ≤ self.old.joins + k }
        ensures counted { 0 < i → self.old.joins < 2 ^ 64 - 1 → self.old.joins < self.new.joins }
        ensures empty { length self.old.values ≡ 0 → self.new.joins ≡ self.old.joins }
    {
        join_first(&self.rows, i, &mut self.count)
    }

    /// As [`TotalsTree::prefix`], for whoever has the tree only to read; its joins aren't counted.
    pub fn peek(&self, i: usize) -> M
        requires { i ≤ length self.now.values }
        ensures { result ≡ prefix M.empty M.op self.now.values i }
    {
        let mut uncounted = 0;
        join_first(&self.rows, i, &mut uncounted)
    }
}

impl<M: Monoid + Drop> Prefixes<M> for TotalsTree<M> {
    ghost values = { λ t. t.values };

    fn len(&self) -> usize {
        TotalsTree::len(self)
    }

    fn prefix(&mut self, i: usize) -> M {
        TotalsTree::prefix(self, i)
    }
}
