//! One step more or less in a sequence, in place.
ghost use Rattle.std.specs.Prelude.{◌≡◌, ◌+◌, ◌-◌, ◌<◌, ◌≤◌, ◌++◌, length, take, drop};
ghost use Rattle.std.specs.Prelude.{IfOk, OnOk, OnErr, None, ◌∷◌, ◌≢◌, ℕ, slice_get};
ghost use Rattle.std.specs.Bool.{OnTrue, OnFalse};
ghost use Rattle.std.specs.List.{insert, remove};
ghost use Rattle.ship_profile.specs.Record.{ProfileRecord};
ghost use Rattle.lift_sequence.specs.Aboard.{Aboard, after_all};
ghost use Rattle.lift_sequence.specs.Arrival.{cargo_on};
ghost use Rattle.lift_sequence.specs.Bodies.{steps_of};
ghost use Rattle.lift_sequence.specs.Limits.{most_steps};
ghost use Rattle.lift_sequence.specs.Sequence.{sequence_fault};
ghost use Rattle.lift_sequence.specs.Singles.{can_come, can_go, handed, handed_by, is_apart};
ghost use Rattle.lift_sequence.specs.Singles.{is_free, next_filling};

use crate::arrivals::Arrival;
use crate::faults::SeqCode;
use crate::near::part_for;
use crate::operations::Op;
use crate::sequences::{MAX_STEPS, Sequence, op_is_light};
use ship_profile::Profile;
use std::alloc::{AllocError, Global};
use units_core::{Body, Step};

/// Whether a step is independent of each of these.
fn is_free(op: &Op, others: &[Op]) -> bool
    ensures { result ≡ is_free op.now others.now }
{
    for other in others {
        if !op.is_independent(other) {
            return false;
        }
    }
    true
}

/// Whether a step can come in or go away before these.
fn is_apart(op: &Op, others: &[Op]) -> bool
    ensures { result ≡ is_apart op.now others.now }
{
    match op {
        Op::Fill { .. } => true,
        _ => is_free(op, others),
    }
}

/// Whether the step at a place can go away.
fn can_go(ops: &[Op], place: usize) -> bool
    requires { place < length ops.now }
    ensures { result ≡ can_go ops.now place }
{
    is_apart(&ops[place], &ops[place + 1..])
}

/// Lets the first step, from a place on, that fills the tank of a name take this out of it. It
/// returns the place of that step; the number of steps where none does.
pub(crate) fn hand_on(
    ops: &[Op],
    steps: &mut [Step],
    from: usize,
    name: &[u8],
    out: Option<Body>,
) -> usize
    requires within { from ≤ length ops.now }
    requires as_many { length steps.old ≡ length ops.now }
    ensures steps { steps.new ≡ take from steps.old
        ++ handed name.now out (drop from ops.now) (drop from steps.old) }
    ensures place { result ≡ from + next_filling name.now (drop from ops.now) }
    ensures others { (k : ℕ) → k ≢ result → slice_get steps.new k ≡ slice_get steps.old k }
    ensures as_many { length steps.new ≡ length ops.now }
{
    for place in from..ops.len() {
        if ops[place].fills(name) {
            steps[place].out = out;
            return place;
        }
    }
    ops.len()
}

/// Where a step is a filling, lets the next one of its tank, from a place on, take this out.
fn hand_on_by(op: &Op, ops: &[Op], steps: &mut [Step], from: usize, out: Option<Body>)
    requires within { from ≤ length ops.now }
    requires as_many { length steps.old ≡ length ops.now }
    ensures steps { steps.new ≡ take from steps.old
        ++ handed_by op.now out (drop from ops.now) (drop from steps.old) }
    ensures as_many { length steps.new ≡ length ops.now }
{
    if let Op::Fill { name, .. } = op {
        hand_on(ops, steps, from, name.as_slice(), out);
    }
}

impl Sequence {
    /// Takes a step out, the first step being 1, where it is a filling or independent of all steps
    /// behind it, as [`Op::is_independent`] says. It returns whether it did; if not, nothing
    /// changes. Wherever the sequence could be carried out, it still can. It takes no memory, and
    /// time linear in the number of steps behind.
    pub fn take_out(&mut self, k: usize) -> bool
        requires first { 1 ≤ k }
        requires last { k ≤ length self.old.ops }
        ensures answers { result ≡ can_go self.old.ops (k - 1) }
        ensures ops { OnTrue result (self.new.ops ≡ remove self.old.ops (k - 1)) }
        ensures same { OnFalse result (self.new ≡ self.old) }
        ensures front { take (k - 1) self.new.steps ≡ take (k - 1) self.old.steps }
        ensures legal { (ship : ProfileRecord) (at : Aboard) →
            sequence_fault ship at self.old.ops ≡ None →
            sequence_fault ship at self.new.ops ≡ None }
        ensures done { (ship : ProfileRecord) (at : Aboard) →
            sequence_fault ship at self.old.ops ≡ None →
            self.old.steps ≡ steps_of ship at self.old.ops →
            self.new.steps ≡ steps_of ship at self.new.ops }
    {
        let place = k - 1;
        if !can_go(&self.ops, place) {
            return false;
        }
        let op = self.ops.remove(place);
        let out = self.steps.remove(place).out;
        hand_on_by(&op, &self.ops, &mut self.steps, place, out);
        true
    }

    /// Puts a step in at a place, which does this there. Out of memory nothing changes.
    fn add(&mut self, place: usize, op: &Op, step: Step) -> Result<(), AllocError>
        requires within { place ≤ length self.old.ops }
        requires few { length self.old.ops < most_steps }
        ensures ops { OnOk result (self.new.ops ≡ insert self.old.ops place op.now) }
        ensures steps { OnOk result (self.new.steps ≡ take place self.old.steps
            ++ (step ∷ handed_by op.now step.put (drop place self.old.ops)
            (drop place self.old.steps))) }
        ensures same { OnErr result (self.new ≡ self.old) }
    {
        op_is_light(op);
        let put = step.put;
        self.ops.reserve(1)?;
        self.steps.reserve(1)?;
        let Ok(()) = self.ops.insert(place, op.copy()) else {
            unreachable!()
        };
        let Ok(()) = self.steps.insert(place, step) else {
            unreachable!()
        };
        hand_on_by(op, &self.ops, &mut self.steps, place + 1, put);
        Ok(())
    }

    /// Puts a step in so that it has this number, the first step being 1, where it can be done
    /// there after those before it and is a filling or independent of all steps behind it, as
    /// [`Op::is_independent`] says. It returns whether it did; if not, or out of memory, nothing
    /// changes. The profile and the arrival are those that the sequence was made with. It takes
    /// time linear in the number of steps.
    pub fn put_in(
        &mut self,
        alloc: Global,
        profile: &Profile,
        arrival: &Arrival,
        k: usize,
        op: &Op,
    ) -> Result<bool, AllocError>
        requires first { 1 ≤ k }
        requires last { k ≤ length self.old.ops + 1 }
        ensures answers { IfOk result (λ did. did ≡ can_come profile.now (cargo_on arrival.now)
            self.old.ops (k - 1) op.now) }
        ensures ops { IfOk result (λ did. OnTrue did
            (self.new.ops ≡ insert self.old.ops (k - 1) op.now)) }
        ensures same { IfOk result (λ did. OnFalse did (self.new ≡ self.old)) }
        ensures before { OnErr result (self.new ≡ self.old) }
        ensures front { take (k - 1) self.new.steps ≡ take (k - 1) self.old.steps }
        ensures legal { sequence_fault profile.now (cargo_on arrival.now) self.old.ops ≡ None →
            sequence_fault profile.now (cargo_on arrival.now) self.new.ops ≡ None }
        ensures done { sequence_fault profile.now (cargo_on arrival.now) self.old.ops ≡ None →
            self.old.steps ≡ steps_of profile.now (cargo_on arrival.now) self.old.ops →
            self.new.steps ≡ steps_of profile.now (cargo_on arrival.now) self.new.ops }
    {
        let place = k - 1;
        if self.ops.len() >= MAX_STEPS || !is_apart(op, &self.ops[place..]) {
            return Ok(false);
        }
        let mut part = part_for(alloc, profile, arrival, &self.ops[..place], op)?;
        let step = match part.make(profile, op) {
            Ok(step) => step,
            Err(SeqCode::NoMemory) => return Err(AllocError),
            Err(_) => return Ok(false),
        };
        self.add(place, op, step)?;
        Ok(true)
    }
}
