ghost use Rattle.std.specs.Prelude.{◌≡◌, ◌≢◌, ◌+◌, ◌-◌, ◌≤◌, length, OnOk, OnErr};
ghost use Rattle.std.specs.Prelude.{IfOk, IfErr, Some, None};
ghost use Rattle.std.specs.List.{swap};
ghost use Rattle.std.specs.Bool.{OnTrue, OnFalse};
ghost use Rattle.ship_profile.specs.Record.{ProfileRecord};
ghost use Rattle.lift_sequence.specs.Aboard.{Aboard};
ghost use Rattle.lift_sequence.specs.Bodies.{steps_of};
ghost use Rattle.lift_sequence.specs.Follow.{AreReweighed, IsLoad, weighed_at};
ghost use Rattle.lift_sequence.specs.Sequence.{sequence_fault};
ghost use Rattle.step_edits.specs.Edits.{TellsMemory, edited, edit_fault};
ghost use Rattle.port_call.specs.Grounds.{list_fault};
ghost use Rattle.running_sums.specs.Fours.{CostsUpTo};
ghost use Rattle.what_if.specs.Sessions.{CostsLittle, IsSummed, refusal, restows_behind};

use crate::passing::{Room, move_into, other_room};
use crate::summed_lists::SummedList;
use lift_sequence::{SeqCode, SeqFault, Sequence};
use running_sums::{Fours, renew, renew_both, renew_places};
use std::alloc::AllocError;
use step_edits::{Edit, EditFault, edit_list, fault_of};
use units_core::Kg;

/// A refusal of the edited list as one of the edit; out of memory stays out of memory.
fn list_refusal(fault: SeqFault) -> EditFault
    ensures memory { fault.code ≡ SeqCode.NoMemory → result ≡ EditFault.NoMemory }
    ensures told { fault.code ≢ SeqCode.NoMemory → result ≡ EditFault.Sequence fault }
    ensures plain { TellsMemory result }
{
    match fault.code {
        SeqCode::NoMemory => EditFault::NoMemory,
        _ => EditFault::Sequence(fault),
    }
}

/// As [`Sequence::reweigh`]. Out of line: how fast its loop over the steps runs would else hang on
/// where the rest of an edit happens to put it.
#[inline(never)]
fn weigh(sequence: &mut Sequence, k: usize, kg: Kg)
    requires first { 1 ≤ k }
    requires load { IsLoad sequence.old.ops (k - 1) }
    ensures ops { sequence.new.ops ≡ weighed_at kg (k - 1) sequence.old.ops }
    ensures steps { AreReweighed kg (k - 1) sequence.old.ops sequence.old.steps
        sequence.new.steps }
    ensures legal { (ship : ProfileRecord) (at : Aboard) →
        sequence_fault ship at sequence.old.ops ≡ None →
        sequence_fault ship at sequence.new.ops ≡ None }
    ensures done { (ship : ProfileRecord) (at : Aboard) →
        sequence_fault ship at sequence.old.ops ≡ None →
        sequence.old.steps ≡ steps_of ship at sequence.old.ops →
        sequence.new.steps ≡ steps_of ship at sequence.new.ops }
{
    sequence.reweigh(k, kg);
}

impl SummedList {
    /// Makes an edit. Where it is refused, or out of memory, everything is as it was. Another
    /// weight of a load checks no step and takes no memory; nor does an exchange of two fillings of
    /// one tank, or of two steps that are independent of each other and of all steps between. A
    /// move of a filling, or of a step past others that it is independent of, makes the sums of the
    /// steps anew that are passed; a step that comes in or goes away, and is a filling or
    /// independent of all steps behind it, those of the steps behind it. Any other edit makes the
    /// sequence and all of its sums anew.
    /// Where a list gets longer or shorter, the edit sees to the room for what searches keep, or
    /// leaves it.
    pub fn edit(&mut self, edit: &Edit, room: Room) -> Result<(), EditFault>
        ensures made { OnOk result ((refusal self.old.base self.old.ops edit.now ≡ None)
            × (self.new.ops ≡ edited self.old.ops edit.now)) }
        ensures base { self.new.base ≡ self.old.base }
        ensures refused { IfErr result (λ e. e ≢ EditFault.NoMemory
            → refusal self.old.base self.old.ops edit.now ≡ Some e) }
        ensures before { OnErr result (self.new ≡ self.old) }
        ensures memory { IfErr result TellsMemory }
        ensures cost { CostsLittle edit.now self.old.ops self.old.joins self.new.joins }
    {
        if let Some(fault) = fault_of(self.sequence.ops(), edit) {
            return Err(fault);
        }
        match self.edit_in_place(edit, room) {
            Ok(true) => Ok(()),
            Ok(false) => self.rearrange(edit, room),
            Err(AllocError) => Err(EditFault::NoMemory),
        }
    }

    /// Makes an edit in place, where it can be made there. It returns whether it did; if not, or
    /// out of memory, everything is as it was.
    fn edit_in_place(&mut self, edit: &Edit, room: Room) -> Result<bool, AllocError>
        requires { edit_fault self.old.ops edit.now ≡ None }
        ensures base { self.new.base ≡ self.old.base }
        ensures ops { IfOk result
            (λ did. OnTrue did (self.new.ops ≡ edited self.old.ops edit.now)) }
        ensures legal { IfOk result
            (λ did. OnTrue did (list_fault self.old.base self.new.ops ≡ None)) }
        ensures same { IfOk result (λ did. OnFalse did (self.new ≡ self.old)) }
        ensures before { OnErr result (self.new ≡ self.old) }
        ensures cost { CostsLittle edit.now self.old.ops self.old.joins self.new.joins }
    {
        match edit {
            Edit::Reweigh { at, kg } => {
                self.reweigh(*at as usize, *kg);
                Ok(true)
            }
            Edit::Swap { a, b } => Ok(self.exchange(*a as usize, *b as usize)),
            Edit::Move { from, to } => self.carry(*from as usize, *to as usize),
            Edit::Insert { at, lift } => self.put_in(*at as usize, lift, room),
            Edit::Remove { at } => self.take_out(*at as usize, room),
        }
    }

    /// Exchanges two steps, where they are independent of each other and of all steps between, or
    /// fill one tank. It returns whether it did; if not, everything is as it was.
    fn exchange(&mut self, a: usize, b: usize) -> bool
        requires first { (1 ≤ a) × (1 ≤ b) }
        requires last { (a ≤ length self.old.ops) × (b ≤ length self.old.ops) }
        ensures base { self.new.base ≡ self.old.base }
        ensures ops { OnTrue result (self.new.ops ≡ swap self.old.ops (a - 1) (b - 1)) }
        ensures legal { OnTrue result (list_fault self.old.base self.new.ops ≡ None) }
        ensures same { OnFalse result (self.new ≡ self.old) }
        ensures cost { CostsUpTo 2 (length self.old.ops) self.old.joins self.new.joins }
    {
        if !self.sequence.swap(a, b) {
            return self.exchange_fillings(a, b);
        }
        renew_both(
            &mut self.sums,
            &self.sequence,
            self.base.profile().frames(),
            a - 1,
            b - 1,
        );
        true
    }

    /// Exchanges two fillings of one tank, and sets the sums in which they and those are that take
    /// out something else then. It returns whether it did; if not, everything is as it was. As
    /// where all sums are made, no join is counted.
    fn exchange_fillings(&mut self, a: usize, b: usize) -> bool
        requires first { (1 ≤ a) × (1 ≤ b) }
        requires last { (a ≤ length self.old.ops) × (b ≤ length self.old.ops) }
        ensures base { self.new.base ≡ self.old.base }
        ensures ops { OnTrue result (self.new.ops ≡ swap self.old.ops (a - 1) (b - 1)) }
        ensures legal { OnTrue result (list_fault self.old.base self.new.ops ≡ None) }
        ensures same { OnFalse result (self.new ≡ self.old) }
        ensures joins { self.new.joins ≡ self.old.joins }
    {
        let Some((one, other)) = self.sequence.swap_fillings(a, b) else {
            return false;
        };
        renew_places(
            &mut self.sums,
            &self.sequence,
            self.base.profile().frames(),
            &[a - 1, b - 1, one, other],
        );
        true
    }

    /// Gives the load at step `k` another weight.
    fn reweigh(&mut self, k: usize, kg: Kg)
        requires first { 1 ≤ k }
        requires last { k ≤ length self.old.ops }
        requires load { IsLoad self.old.ops (k - 1) }
        ensures base { self.new.base ≡ self.old.base }
        ensures ops { self.new.ops ≡ weighed_at kg (k - 1) self.old.ops }
        ensures legal { list_fault self.old.base self.new.ops ≡ None }
        ensures cost { CostsUpTo (restows_behind self.old.ops (k - 1) + 2) (length self.old.ops)
            self.old.joins self.new.joins }
    {
        weigh(&mut self.sequence, k, kg);
        renew(
            &mut self.sums,
            &self.sequence,
            self.base.profile().frames(),
            k - 1,
        );
    }

    /// The sequence that another edit makes, with its sums.
    fn sequence_after(&self, edit: &Edit) -> Result<(Sequence, Fours), EditFault>
        requires { edit_fault self.now.ops edit.now ≡ None }
        ensures ops { IfOk result (λ made. made.0.ops ≡ edited self.now.ops edit.now) }
        ensures made { IfOk result (λ made. IsSummed self.now.base made.0 made.1) }
        ensures joins { IfOk result (λ made. made.1.joins ≡ self.now.joins) }
        ensures legal { OnOk result (refusal self.now.base self.now.ops edit.now ≡ None) }
        ensures refused { IfErr result (λ e. e ≢ EditFault.NoMemory
            → refusal self.now.base self.now.ops edit.now ≡ Some e) }
        ensures memory { IfErr result TellsMemory }
    {
        let Ok(ops) = edit_list(self.alloc, self.sequence.ops(), edit) else {
            return Err(EditFault::NoMemory);
        };
        let sequence = match self.base.sequence(self.alloc, ops) {
            Ok(sequence) => sequence,
            Err(fault) => return Err(list_refusal(fault)),
        };
        let frames = self.base.profile().frames();
        match self.sums.with_sequence(self.alloc, &sequence, frames) {
            Ok(sums) => Ok((sequence, sums)),
            Err(AllocError) => Err(EditFault::NoMemory),
        }
    }

    /// Makes an edit other than a new weight. All memory is there before anything changes.
    fn rearrange(&mut self, edit: &Edit, room: Room) -> Result<(), EditFault>
        requires { edit_fault self.old.ops edit.now ≡ None }
        ensures made { OnOk result ((refusal self.old.base self.old.ops edit.now ≡ None)
            × (self.new.ops ≡ edited self.old.ops edit.now)) }
        ensures base { self.new.base ≡ self.old.base }
        ensures refused { IfErr result (λ e. e ≢ EditFault.NoMemory
            → refusal self.old.base self.old.ops edit.now ≡ Some e) }
        ensures before { OnErr result (self.new ≡ self.old) }
        ensures memory { IfErr result TellsMemory }
        ensures joins { self.new.joins ≡ self.old.joins }
    {
        let (sequence, sums) = self.sequence_after(edit)?;
        let Ok(other) = other_room(self.passed.get_mut(), self.alloc, room, sequence.len()) else {
            return Err(EditFault::NoMemory);
        };
        self.sequence = sequence;
        self.sums = sums;
        move_into(self.passed.get_mut(), other);
        Ok(())
    }
}
