ghost use Rattle.std.specs.Prelude.{◌≡◌, ◌↔◌, ◌<◌, length, IsTrue};
ghost use Rattle.lift_sequence.specs.Independent.{AreExchangeable, CanPass, are_apart};
ghost use Rattle.lift_sequence.specs.Independent.{are_independent, fills, independent_at, leaves};

use crate::operations::Op;
use stow_messages::Lift;
use units_core::{Cell, conflicts};

/// Whether two cells don't overlap.
fn are_apart(a: Cell, b: Cell) -> bool
    ensures { result ≡ are_apart a b }
{
    !conflicts(a, b)
}

impl Op {
    /// Whether the step touches no cell that overlaps this one.
    fn leaves(&self, cell: Cell) -> bool
        ensures { result ≡ leaves self.now cell }
    {
        match self {
            Op::Lift(Lift::Load(item)) => are_apart(item.cell, cell),
            Op::Lift(Lift::Discharge { cell: from, .. }) => are_apart(*from, cell),
            Op::Fill { .. } => true,
            Op::Restow { from, to, .. } => are_apart(*from, cell) && are_apart(*to, cell),
        }
    }

    /// Whether the step fills the tank of this name.
    pub(crate) fn fills(&self, name: &[u8]) -> bool
        ensures { result ≡ fills self.now name.now }
    {
        match self {
            Op::Fill { name: other, .. } => other.as_slice() == name,
            _ => false,
        }
    }

    /// Whether two steps are independent of each other: no cell of the one is or overlaps a cell of
    /// the other, and they don't fill the same tank.
    pub fn is_independent(&self, other: &Op) -> bool
        ensures { result ≡ are_independent self.now other.now }
    {
        match self {
            Op::Lift(Lift::Load(item)) => other.leaves(item.cell),
            Op::Lift(Lift::Discharge { cell, .. }) => other.leaves(*cell),
            Op::Fill { name, .. } => !other.fills(name.as_slice()),
            Op::Restow { from, to, .. } => other.leaves(*from) && other.leaves(*to),
        }
    }
}

/// Whether the steps at two places are independent of each other.
fn independent_at(ops: &[Op], i: usize, j: usize) -> bool
    requires first { i < length ops.now }
    requires second { j < length ops.now }
    ensures { result ≡ independent_at ops.now i j }
{
    ops[i].is_independent(&ops[j])
}

/// Whether the steps at two places are independent of each other and of all steps between.
pub(crate) fn are_exchangeable(ops: &[Op], i: usize, j: usize) -> bool
    requires order { i < j }
    requires within { j < length ops.now }
    ensures { IsTrue result ↔ AreExchangeable ops.now i j }
{
    for k in i + 1..j {
        if !independent_at(ops, i, k) {
            return false;
        }
        if !independent_at(ops, j, k) {
            return false;
        }
    }
    independent_at(ops, i, j)
}

/// Whether the step at one place is independent of all steps that it passes on its way to another.
pub(crate) fn can_pass(ops: &[Op], i: usize, j: usize) -> bool
    requires first { i < length ops.now }
    requires second { j < length ops.now }
    ensures { IsTrue result ↔ CanPass ops.now i j }
{
    for k in i + 1..j + 1 {
        if !independent_at(ops, i, k) {
            return false;
        }
    }
    for k in j..i {
        if !independent_at(ops, i, k) {
            return false;
        }
    }
    true
}
