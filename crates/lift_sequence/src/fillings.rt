//! Two fillings of one tank exchanged, in place.
ghost use Rattle.std.specs.Prelude.{◌≡◌, ◌≢◌, ℕ, ◌+◌, ◌-◌, ◌<◌, ◌≤◌, length, drop, slice_get};
ghost use Rattle.std.specs.Prelude.{slice_index_or, IfNone, IfSome};
ghost use Rattle.std.specs.List.{swap};
ghost use Rattle.std.specs.Option.{is_some};
ghost use Rattle.ship_profile.specs.Record.{ProfileRecord};
ghost use Rattle.units_core.specs.declared.steps.Step.{Step as Change};
ghost use Rattle.lift_sequence.specs.Aboard.{Aboard};
ghost use Rattle.lift_sequence.specs.Bodies.{steps_of};
ghost use Rattle.lift_sequence.specs.Sequence.{sequence_fault};
ghost use Rattle.lift_sequence.specs.Singles.{fill_one_tank, next_behind, next_filling, refilled};

use crate::operations::Op;
use crate::sequences::Sequence;
use crate::singles::hand_on;
use units_core::{Body, Step};

/// Lets a step put this in.
fn set_put(step: &mut Step, put: &Option<Body>)
    ensures { step.new ≡ record { out = step.old.out; put = put.now } }
{
    step.put = *put;
}

/// Lets the filling at a place put this into its tank, which has this name, and the next filling
/// of the tank take it out. It returns the place of that one; the number of steps where there is
/// none.
fn refill(ops: &[Op], steps: &mut [Step], place: usize, name: &[u8], put: &Option<Body>) -> usize
    requires within { place < length ops.now }
    requires as_many { length steps.old ≡ length ops.now }
    ensures steps { steps.new ≡ refilled name.now put.now place ops.now steps.old }
    ensures next { result ≡ place + 1 + next_filling name.now (drop (place + 1) ops.now) }
    ensures others { (k : ℕ) → k ≢ place → k ≢ result
        → slice_get steps.new k ≡ slice_get steps.old k }
    ensures as_many { length steps.new ≡ length ops.now }
{
    set_put(&mut steps[place], put);
    hand_on(ops, steps, place + 1, name, *put)
}

/// Lets two fillings of a tank each put into it what the other did. It returns the places of the
/// fillings of the tank that come next behind them; the number of steps where there is none.
fn exchange_puts(
    ops: &[Op],
    steps: &mut [Step],
    one: usize,
    other: usize,
    name: &[u8],
) -> (usize, usize)
    requires one { one < length ops.now }
    requires other { other < length ops.now }
    requires as_many { length steps.old ≡ length ops.now }
    ensures steps { (d : Change) → steps.new
        ≡ refilled name.now (slice_index_or steps.old one d).put other ops.now
        (refilled name.now (slice_index_or steps.old other d).put one ops.now steps.old) }
    ensures behind_one { result.0 ≡ one + 1 + next_filling name.now (drop (one + 1) ops.now) }
    ensures behind_other { result.1
        ≡ other + 1 + next_filling name.now (drop (other + 1) ops.now) }
    ensures others { (k : ℕ) → k ≢ one → k ≢ other → k ≢ result.0 → k ≢ result.1
        → slice_get steps.new k ≡ slice_get steps.old k }
    ensures as_many { length steps.new ≡ length ops.now }
{
    // Lent below: a `Copy` value that is passed on by value twice isn't covered.
    let (first, second) = (steps[one].put, steps[other].put);
    let behind_one = refill(ops, steps, one, name, &second);
    let behind_other = refill(ops, steps, other, name, &first);
    (behind_one, behind_other)
}

impl Sequence {
    /// Exchanges two fillings of one tank, the first step being 1. It returns the places of the
    /// next fillings of that tank behind them, the first place being 0, or the number of steps
    /// where there is none: the steps there take out something else now. `None` where the two
    /// steps aren't such fillings; nothing changes then. Wherever the sequence could be carried
    /// out, it still can. It takes no memory, and time linear in the number of steps behind.
    pub fn swap_fillings(&mut self, a: usize, b: usize) -> Option<(usize, usize)>
        requires first { (1 ≤ a) × (1 ≤ b) }
        requires last { (a ≤ length self.old.ops) × (b ≤ length self.old.ops) }
        ensures answers { is_some result ≡ fill_one_tank self.old.ops (a - 1) (b - 1) }
        ensures ops { IfSome result (λ next. self.new.ops ≡ swap self.old.ops (a - 1) (b - 1)) }
        ensures next { IfSome result (λ next. (next.0 ≡ next_behind self.old.ops (a - 1))
            × (next.1 ≡ next_behind self.old.ops (b - 1))) }
        ensures others { IfSome result (λ next. (k : ℕ) → k ≢ a - 1 → k ≢ b - 1 → k ≢ next.0
            → k ≢ next.1 → slice_get self.new.steps k ≡ slice_get self.old.steps k) }
        ensures same { IfNone result (self.new ≡ self.old) }
        ensures legal { (ship : ProfileRecord) (at : Aboard) →
            sequence_fault ship at self.old.ops ≡ None →
            sequence_fault ship at self.new.ops ≡ None }
        ensures done { (ship : ProfileRecord) (at : Aboard) →
            sequence_fault ship at self.old.ops ≡ None →
            self.old.steps ≡ steps_of ship at self.old.ops →
            self.new.steps ≡ steps_of ship at self.new.ops }
    {
        let (one, other) = (a - 1, b - 1);
        let Op::Fill { name, .. } = &self.ops[one] else {
            return None;
        };
        if !self.ops[other].fills(name.as_slice()) {
            return None;
        }
        let next = exchange_puts(&self.ops, &mut self.steps, one, other, name.as_slice());
        self.ops.swap(one, other);
        Some(next)
    }
}
