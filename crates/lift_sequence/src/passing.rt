//! A filling moved past others of its tank, in place.
ghost use Rattle.std.specs.Prelude.{◌≡◌, ◌≢◌, ℕ, ◌+◌, ◌-◌, ◌<◌, ◌≤◌, ◌⊎◌, length, drop, slice_get};
ghost use Rattle.std.specs.Prelude.{IfNone, IfSome, None};
ghost use Rattle.std.specs.Option.{is_some};
ghost use Rattle.ship_profile.specs.Record.{ProfileRecord};
ghost use Rattle.units_core.specs.declared.steps.Step.{Step as Change};
ghost use Rattle.lift_sequence.specs.Aboard.{Aboard};
ghost use Rattle.lift_sequence.specs.Bodies.{steps_of};
ghost use Rattle.lift_sequence.specs.Independent.{moved};
ghost use Rattle.lift_sequence.specs.Sequence.{sequence_fault};
ghost use Rattle.lift_sequence.specs.Singles.{filled_at, filled_past, held_at};
ghost use Rattle.lift_sequence.specs.Singles.{held_before, held_behind, is_filling};
ghost use Rattle.lift_sequence.specs.Singles.{next_behind, next_filling};

use crate::carrying::carry;
use crate::operations::Op;
use crate::sequences::Sequence;
use crate::singles::hand_on;
use units_core::{Body, Step};

/// What the tank of a name holds behind these steps, where it holds this before them.
fn held_behind(ops: &[Op], steps: &[Step], name: &[u8], held: Option<Body>) -> Option<Body>
    requires { length steps.now ≡ length ops.now }
    ensures { result ≡ held_behind name.now held ops.now steps.now }
{
    let mut held = held;
    for place in 0..ops.len() {
        if ops[place].fills(name) {
            held = steps[place].put;
        }
    }
    held
}

/// What the tank of a name holds before these steps, where it holds this behind them.
fn held_before(ops: &[Op], steps: &[Step], name: &[u8], held: Option<Body>) -> Option<Body>
    requires { length steps.now ≡ length ops.now }
    ensures { result ≡ held_before name.now held ops.now steps.now }
{
    for place in 0..ops.len() {
        if ops[place].fills(name) {
            return steps[place].out;
        }
    }
    held
}

/// What the tank of a name holds where the filling of it at one place, before which it holds this,
/// is moved to another. It is by reference: passed by value twice, `held` isn't covered.
fn held_at(
    ops: &[Op],
    steps: &[Step],
    from: usize,
    to: usize,
    name: &[u8],
    held: &Option<Body>,
) -> Option<Body>
    requires first { from < length ops.now }
    requires second { to < length ops.now }
    requires as_many { length steps.now ≡ length ops.now }
    ensures { result ≡ held_at name.now held.now from to ops.now steps.now }
{
    if from < to {
        let (ops, steps) = (&ops[from + 1..to + 1], &steps[from + 1..to + 1]);
        return held_behind(ops, steps, name, *held);
    }
    held_before(&ops[to..from], &steps[to..from], name, *held)
}

/// Lets the filling at a place take this out of its tank, which has this name, and the next filling
/// of the tank what it puts in. It returns the place of that one; the number of steps where there
/// is none.
fn fill_at(ops: &[Op], steps: &mut [Step], place: usize, name: &[u8], held: Option<Body>) -> usize
    requires within { place < length ops.now }
    requires as_many { length steps.old ≡ length ops.now }
    ensures steps { (d : Change) → steps.new ≡ filled_at name.now held place ops.now d steps.old }
    ensures next { result ≡ place + 1 + next_filling name.now (drop (place + 1) ops.now) }
    ensures others { (k : ℕ) → k ≢ place → k ≢ result
        → slice_get steps.new k ≡ slice_get steps.old k }
    ensures as_many { length steps.new ≡ length ops.now }
{
    steps[place].out = held;
    let put = steps[place].put;
    hand_on(ops, steps, place + 1, name, put)
}

/// Moves the filling of the tank of this name from one place to another. It returns the places of
/// the fillings of the tank that came next behind the old place, and that come next behind the new
/// one; the number of steps where there is none.
fn carry_filling(
    ops: &mut Vec<Op>,
    steps: &mut Vec<Step>,
    from: usize,
    to: usize,
    name: &[u8],
) -> (usize, usize)
    requires first { from < length ops.old.items }
    requires second { to < length ops.old.items }
    requires as_many { length steps.old.items ≡ length ops.old.items }
    ensures ops { ops.new.items ≡ moved ops.old.items from to }
    ensures steps { (d : Change) → steps.new.items
        ≡ filled_past name.now from to ops.old.items d steps.old.items }
    ensures behind_old { result.0
        ≡ from + 1 + next_filling name.now (drop (from + 1) ops.old.items) }
    ensures behind_new { result.1 ≡ to + 1 + next_filling name.now (drop (to + 1) ops.new.items) }
    ensures others { (k : ℕ) → ((k < from) × (k < to)) ⊎ ((from < k) × (to < k))
        → k ≢ result.0 → k ≢ result.1
        → slice_get steps.new.items k ≡ slice_get steps.old.items k }
    ensures as_many { length steps.new.items ≡ length ops.new.items }
    ensures long { length ops.new.items ≡ length ops.old.items }
{
    let out = steps[from].out;
    let held = held_at(ops, steps, from, to, name, &out);
    let behind_old = hand_on(ops, steps, from + 1, name, out);
    carry(ops, from, to);
    carry(steps, from, to);
    let behind_new = fill_at(ops, steps, to, name, held);
    (behind_old, behind_new)
}

impl Sequence {
    /// Takes a filling out and puts it in again so that it is at the number `to`, the first step
    /// being 1, whatever it passes. It then takes out what its tank holds there, and the next
    /// filling of the tank behind its old place and that behind its new one take out something
    /// else. It returns the places of these two in the old and in the new order, the first place
    /// being 0, or the number of steps where there is none. `None` where the step is no filling;
    /// nothing changes then. Wherever the sequence could be carried out, it still can. It takes no
    /// memory, and time linear in the number of steps that are passed and of those up to the next
    /// filling of the tank.
    pub fn shift_filling(&mut self, from: usize, to: usize) -> Option<(usize, usize)>
        requires first { (1 ≤ from) × (1 ≤ to) }
        requires last { (from ≤ length self.old.ops) × (to ≤ length self.old.ops) }
        ensures answers { is_some result ≡ is_filling (slice_get self.old.ops (from - 1)) }
        ensures ops { IfSome result
            (λ next. self.new.ops ≡ moved self.old.ops (from - 1) (to - 1)) }
        ensures next { IfSome result (λ next. (next.0 ≡ next_behind self.old.ops (from - 1))
            × (next.1 ≡ next_behind self.new.ops (to - 1))) }
        ensures others { IfSome result (λ next. (k : ℕ)
            → ((k < from - 1) × (k < to - 1)) ⊎ ((from ≤ k) × (to ≤ k))
            → k ≢ next.0 → k ≢ next.1
            → slice_get self.new.steps k ≡ slice_get self.old.steps k) }
        ensures same { IfNone result (self.new ≡ self.old) }
        ensures legal { (ship : ProfileRecord) (at : Aboard) →
            sequence_fault ship at self.old.ops ≡ None →
            sequence_fault ship at self.new.ops ≡ None }
        ensures done { (ship : ProfileRecord) (at : Aboard) →
            sequence_fault ship at self.old.ops ≡ None →
            self.old.steps ≡ steps_of ship at self.old.ops →
            self.new.steps ≡ steps_of ship at self.new.ops }
    {
        // A copy, since the steps' orders are moved while its name is looked for.
        let op = self.ops[from - 1].copy();
        let Op::Fill { name, .. } = &op else {
            return None;
        };
        let next = carry_filling(
            &mut self.ops,
            &mut self.steps,
            from - 1,
            to - 1,
            name.as_slice(),
        );
        Some(next)
    }
}
