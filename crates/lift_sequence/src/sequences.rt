ghost use Rattle.std.specs.Prelude.{◌≡◌, ◌↔◌, ◌≤◌, ◌<◌, ◌-◌, ◌++◌, ◌∷◌, [], length, take, drop};
ghost use Rattle.std.specs.Prelude.{slice_get, option_map, swap, IsTrue, OnOk, IfOk, IfErr, Some};
ghost use Rattle.std.specs.Prelude.{None, if◌then◌else◌};
ghost use Rattle.std.specs.Bool.{OnTrue, OnFalse};
ghost use Rattle.std.specs.List.{AllByRecursion};
ghost use Rattle.ship_profile.specs.Record.{ProfileRecord};
ghost use Rattle.lift_sequence.specs.Arrival.{TellsAt, cargo_on, fault_at};
ghost use Rattle.lift_sequence.specs.Aboard.{Aboard, cargo_in, after_step};
ghost use Rattle.lift_sequence.specs.Bodies.{step_of, steps_of};
ghost use Rattle.units_core.specs.Steps.{step_weighed};
ghost use Rattle.lift_sequence.specs.Follow.{AreReweighed, IsLoad, moves, steps_weighed};
ghost use Rattle.lift_sequence.specs.Follow.{weighed_at};
ghost use Rattle.lift_sequence.specs.Independent.{AreExchangeable, CanPass, CanSwap, moved};
ghost use Rattle.lift_sequence.specs.Legal.{fault_of};
ghost use Rattle.lift_sequence.specs.Limits.{most_steps};
ghost use Rattle.lift_sequence.specs.Sequence.{AreKept, AreSteps, IsLight, IsOf, StepsAddUp};
ghost use Rattle.lift_sequence.specs.Sequence.{first_fault, sequence_fault};

use crate::arrivals::Arrival;
use crate::carrying::carry;
use crate::faults::{NO_MEMORY, SeqCode, SeqFault, fault_at};
use crate::independence::{are_exchangeable, can_pass};
use crate::operations::Op;
use crate::stowage::Stowage;
use ship_profile::Profile;
use std::alloc::Global;
use std::marker::Model;
use stow_messages::Lift;
use units_core::{Cell, Kg, Step};

/// The greatest number of steps.
pub(crate) const MAX_STEPS: usize = 120_000;

/// A sequence of steps, each of which can be done where it comes, with what each does to the bodies
/// aboard.
#[derive(Debug, Drop)]
pub struct Sequence {
    pub(crate) ops: Vec<Op>,
    pub(crate) steps: Vec<Step>,
}

impl Model for Sequence {
    ghost use Rattle.lift_sequence.specs.Sequence.{AreKept, SequenceRecord};

    ghost Value = { SequenceRecord };

    ghost view = { λ s. record { ops = s.ops.items; steps = s.steps.items } };

    ghost invariant = { λ s. AreKept s.ops.items s.steps.items };
}

/// Does all steps, and gives what each does.
fn make_all(
    alloc: Global,
    profile: &Profile,
    stowage: &mut Stowage,
    ops: &[Op],
) -> Result<Vec<Step>, SeqFault>
    requires { length ops.now ≤ most_steps }
    ensures legal { OnOk result (first_fault profile.now (cargo_in stowage.old) 1 ops.now ≡ None) }
    ensures steps { IfOk result (λ s.
        s.items ≡ steps_of profile.now (cargo_in stowage.old) ops.now) }
    ensures refused { IfErr result
        (TellsAt (first_fault profile.now (cargo_in stowage.old) 1 ops.now)) }
    ensures memory { IfErr result (λ e. e.code ≡ SeqCode.NoMemory → e.at ≡ 0) }
{
    let Ok(mut steps) = Vec::with_capacity(alloc, ops.len()) else {
        return Err(NO_MEMORY);
    };
    let mut number = 0;
    for op in ops {
        number += 1;
        // moved whole, it isn't covered
        let Step { out, put } = match stowage.make(profile, op) {
            Ok(step) => step,
            Err(code) => return Err(fault_at(code, number)),
        };
        if steps.push(Step { out, put }).is_err() {
            return Err(NO_MEMORY);
        }
    }
    Ok(steps)
}

/// Gives another weight to the bodies of a step that moves the container which is in `cell` before
/// it.
fn weigh_move(op: &Op, step: &mut Step, cell: Option<Cell>, kg: Kg)
    ensures { step.new ≡ (if moves cell op.now then step_weighed kg step.old else step.old) }
{
    if op.moves(cell) {
        *step = step.with_weight(kg);
    }
}

/// Gives another weight to the bodies of those steps, from the place `first` on, that move the
/// container which is in `cell` before them.
fn weigh_moves(ops: &[Op], steps: &mut [Step], first: usize, cell: Option<Cell>, kg: Kg)
    requires { length steps.old ≡ length ops.now }
    ensures steps { steps.new ≡ take first steps.old
        ++ steps_weighed kg cell (drop first ops.now) (drop first steps.old) }
    ensures as_many { length steps.new ≡ length ops.now }
{
    let mut cell = cell;
    for place in first..ops.len() {
        let op = &ops[place];
        weigh_move(op, &mut steps[place], cell, kg);
        cell = op.next_cell(cell);
    }
}

/// Gives another weight to the bodies of the load at a place, and of those steps behind it that
/// move its container.
fn weigh_steps(ops: &[Op], steps: &mut [Step], place: usize, kg: Kg)
    requires within { place < length ops.now }
    requires as_many { length steps.old ≡ length ops.now }
    ensures steps { AreReweighed kg place ops.now steps.old steps.new }
    ensures as_many { length steps.new ≡ length ops.now }
{
    steps[place] = steps[place].with_weight(kg);
    weigh_moves(ops, steps, place + 1, ops[place].loaded_cell(), kg);
}

/// A step loads no container that is too heavy for a sum, since a [`Kg`] has six digits. Its mass
/// is looked at, so that this is known of it.
pub(crate) fn op_is_light(op: &Op)
    ensures { IsLight op.now }
{
    if let Op::Lift(Lift::Load(item)) = op {
        let _ = item.kg.get();
    }
}

/// No step loads a container that is too heavy for a sum.
fn ops_are_light(ops: &[Op])
    ensures { AllByRecursion IsLight ops.now }
{
    for op in ops {
        op_is_light(op);
    }
}

impl Sequence {
    /// The sequence of these steps from the condition on arrival, which was made with the same
    /// profile. The first fault is answered: [`SeqCode::TooManySteps`] at 120,001 where there are
    /// more than 120,000; then step by step, from 1, of a load `UnknownCell`, `CellTaken`,
    /// `Overlap`; of a discharge `UnknownCell`, `CellEmpty`, `WrongContainer`; of a filling
    /// `UnknownTank`, `TankOver`; of a restow those of a discharge, and then those of a load into
    /// the other cell. What the steps take out and put in is what changes each sum over the bodies
    /// aboard.
    pub fn new(
        alloc: Global,
        profile: &Profile,
        arrival: &Arrival,
        ops: Vec<Op>,
    ) -> Result<Sequence, SeqFault>
        requires { IsOf profile.now arrival.now }
        ensures legal { OnOk result
            (sequence_fault profile.now (cargo_on arrival.now) ops.items ≡ None) }
        ensures ops { IfOk result (λ s. s.ops ≡ ops.items) }
        ensures steps { IfOk result (λ s.
            s.steps ≡ steps_of profile.now (cargo_on arrival.now) ops.items) }
        ensures each { IfOk result (λ s.
            AreSteps profile.now (cargo_on arrival.now) ops.items s.steps) }
        ensures sums { IfOk result (λ s.
            StepsAddUp profile.now (cargo_on arrival.now) ops.items s.steps) }
        ensures refused { IfErr result (TellsAt
            (sequence_fault profile.now (cargo_on arrival.now) ops.items)) }
        ensures memory { IfErr result (λ e. e.code ≡ SeqCode.NoMemory → e.at ≡ 0) }
    {
        if ops.len() > MAX_STEPS {
            return Err(fault_at(SeqCode::TooManySteps, MAX_STEPS as u32 + 1));
        }
        let Ok(mut stowage) = arrival.stowage() else {
            return Err(NO_MEMORY);
        };
        let steps = make_all(alloc, profile, &mut stowage, &ops)?;
        ops_are_light(&ops);
        Ok(Sequence { ops, steps })
    }

    /// The number of steps.
    pub fn len(&self) -> usize
        ensures { result ≡ length self.now.ops }
    {
        self.ops.len()
    }

    /// What step `k` does to the bodies aboard, the first step being 1.
    pub fn step(&self, k: usize) -> Step
        requires first { 1 ≤ k }
        requires last { k ≤ length self.now.ops }
        ensures { slice_get self.now.steps (k - 1) ≡ Some result }
    {
        self.steps[k - 1]
    }

    /// What step `k` orders, the first step being 1.
    pub fn lift(&self, k: usize) -> &Op
        requires first { 1 ≤ k }
        requires last { k ≤ length self.now.ops }
        ensures { slice_get self.now.ops (k - 1) ≡ Some result.now }
    {
        &self.ops[k - 1]
    }

    /// What the steps order, in their order.
    pub fn ops(&self) -> &[Op]
        ensures { result.now ≡ self.now.ops }
    {
        self.ops.as_slice()
    }

    /// What is known of every sequence: facts, which take no time.
    pub fn facts(&self)
        ensures { AreKept self.now.ops self.now.steps }
    {
        // The invariant is known where a field is used.
        let _ = &self.ops;
    }

    /// Gives the container that step `k` loads, the first step being 1, another weight. That
    /// changes the body that this step puts in, and the bodies of the later steps that move this
    /// container; all else stays. Wherever the sequence could be carried out, it still can, since
    /// no step is judged by a weight. It takes no memory, and time linear in the number of steps.
    pub fn reweigh(&mut self, k: usize, kg: Kg)
        requires first { 1 ≤ k }
        requires load { IsLoad self.old.ops (k - 1) }
        ensures ops { self.new.ops ≡ weighed_at kg (k - 1) self.old.ops }
        ensures steps { AreReweighed kg (k - 1) self.old.ops self.old.steps self.new.steps }
        ensures legal { (ship : ProfileRecord) (at : Aboard) →
            sequence_fault ship at self.old.ops ≡ None →
            sequence_fault ship at self.new.ops ≡ None }
        ensures done { (ship : ProfileRecord) (at : Aboard) →
            sequence_fault ship at self.old.ops ≡ None →
            self.old.steps ≡ steps_of ship at self.old.ops →
            self.new.steps ≡ steps_of ship at self.new.ops }
    {
        // looked at, so that it is known to be light
        let _ = kg.get();
        let place = k - 1;
        weigh_steps(&self.ops, &mut self.steps, place, kg);
        self.ops[place] = self.ops[place].with_weight(kg);
    }

    /// Exchanges the steps at two places, where they are independent of each other and of all steps
    /// between. Returns whether it did.
    fn exchange(&mut self, i: usize, j: usize) -> bool
        requires order { i < j }
        requires within { j < length self.old.ops }
        ensures answers { IsTrue result ↔ AreExchangeable self.old.ops i j }
        ensures ops { OnTrue result (self.new.ops ≡ swap self.old.ops i j) }
        ensures steps { OnTrue result (self.new.steps ≡ swap self.old.steps i j) }
        ensures same { OnFalse result (self.new ≡ self.old) }
        ensures legal { (ship : ProfileRecord) (at : Aboard) →
            sequence_fault ship at self.old.ops ≡ None →
            sequence_fault ship at self.new.ops ≡ None }
        ensures done { (ship : ProfileRecord) (at : Aboard) →
            sequence_fault ship at self.old.ops ≡ None →
            self.old.steps ≡ steps_of ship at self.old.ops →
            self.new.steps ≡ steps_of ship at self.new.ops }
    {
        if !are_exchangeable(&self.ops, i, j) {
            return false;
        }
        self.ops.swap(i, j);
        self.steps.swap(i, j);
        true
    }

    /// Exchanges two steps, the first step being 1, where they are independent of each other and of
    /// all steps between, as [`Op::is_independent`] says. It returns whether it did; if not,
    /// nothing changes. Wherever the sequence could be carried out, it still can, and each step
    /// does what it did. It takes no memory, and time linear in the number of steps between.
    pub fn swap(&mut self, a: usize, b: usize) -> bool
        requires first { (1 ≤ a) × (1 ≤ b) }
        requires last { (a ≤ length self.old.ops) × (b ≤ length self.old.ops) }
        ensures answers { IsTrue result ↔ CanSwap self.old.ops a b }
        ensures ops { OnTrue result (self.new.ops ≡ swap self.old.ops (a - 1) (b - 1)) }
        ensures steps { OnTrue result (self.new.steps ≡ swap self.old.steps (a - 1) (b - 1)) }
        ensures same { OnFalse result (self.new ≡ self.old) }
        ensures legal { (ship : ProfileRecord) (at : Aboard) →
            sequence_fault ship at self.old.ops ≡ None →
            sequence_fault ship at self.new.ops ≡ None }
        ensures done { (ship : ProfileRecord) (at : Aboard) →
            sequence_fault ship at self.old.ops ≡ None →
            self.old.steps ≡ steps_of ship at self.old.ops →
            self.new.steps ≡ steps_of ship at self.new.ops }
    {
        if a < b {
            self.exchange(a - 1, b - 1)
        } else if b < a {
            self.exchange(b - 1, a - 1)
        } else {
            true
        }
    }

    /// Whether [`Sequence::shift`] takes a step past the others that are between it and the number
    /// `to`: whether it is independent of each of them.
    pub fn can_shift(&self, from: usize, to: usize) -> bool
        requires first { (1 ≤ from) × (1 ≤ to) }
        requires last { (from ≤ length self.now.ops) × (to ≤ length self.now.ops) }
        ensures { IsTrue result ↔ CanPass self.now.ops (from - 1) (to - 1) }
    {
        can_pass(&self.ops, from - 1, to - 1)
    }

    /// Takes a step out and puts it in again so that it is at the number `to`, the first step being
    /// 1, where it is independent of all steps that it passes, as [`Op::is_independent`] says. It
    /// returns whether it did; if not, nothing changes. Wherever the sequence could be carried out,
    /// it still can, and each step does what it did. It takes no memory, and time linear in the
    /// number of steps that are passed.
    pub fn shift(&mut self, from: usize, to: usize) -> bool
        requires first { (1 ≤ from) × (1 ≤ to) }
        requires last { (from ≤ length self.old.ops) × (to ≤ length self.old.ops) }
        ensures answers { IsTrue result ↔ CanPass self.old.ops (from - 1) (to - 1) }
        ensures ops { OnTrue result (self.new.ops ≡ moved self.old.ops (from - 1) (to - 1)) }
        ensures steps { OnTrue result (self.new.steps ≡ moved self.old.steps (from - 1) (to - 1)) }
        ensures same { OnFalse result (self.new ≡ self.old) }
        ensures legal { (ship : ProfileRecord) (at : Aboard) →
            sequence_fault ship at self.old.ops ≡ None →
            sequence_fault ship at self.new.ops ≡ None }
        ensures done { (ship : ProfileRecord) (at : Aboard) →
            sequence_fault ship at self.old.ops ≡ None →
            self.old.steps ≡ steps_of ship at self.old.ops →
            self.new.steps ≡ steps_of ship at self.new.ops }
    {
        if !can_pass(&self.ops, from - 1, to - 1) {
            return false;
        }
        carry(&mut self.ops, from - 1, to - 1);
        carry(&mut self.steps, from - 1, to - 1);
        true
    }
}
