//! One step more or less in a list, in place.
ghost use Rattle.std.specs.Prelude.{◌≡◌, ◌+◌, ◌-◌, ◌<◌, ◌≤◌, length, None, IfOk, OnErr};
ghost use Rattle.std.specs.List.{insert, remove};
ghost use Rattle.std.specs.Bool.{OnTrue, OnFalse};
ghost use Rattle.port_call.specs.Grounds.{list_fault};

use crate::passing::{Room, move_into, other_room};
use crate::summed_lists::SummedList;
use lift_sequence::Op;
use moment_sums::Totals;
use prefix_scan::Monoid;
use std::alloc::{AllocError, Global};

/// How many sums are made anew at a time; so many are kept twice meanwhile.
const PIECE: usize = 256;

/// Room for so many sums, but for no more than are made anew at a time.
pub fn piece(alloc: Global, sums: usize) -> Result<Vec<Totals>, AllocError>
    ensures { IfOk result (λ room. 0 < sums → 0 < length room.items) }
{
    Ok(vec![in alloc; Totals::unit(); sums.min(PIECE)]?)
}

impl SummedList {
    /// Puts a step in so that it has this number, where it can be done there and is a filling or
    /// independent of all steps behind it. It returns whether it did; if not, or out of memory,
    /// everything is as it was. The sums behind it are made anew; as where all of them are made, no
    /// join is counted.
    pub(crate) fn put_in(&mut self, k: usize, op: &Op, room: Room) -> Result<bool, AllocError>
        requires first { 1 ≤ k }
        requires last { k ≤ length self.old.ops + 1 }
        ensures base { self.new.base ≡ self.old.base }
        ensures ops { IfOk result
            (λ did. OnTrue did (self.new.ops ≡ insert self.old.ops (k - 1) op.now)) }
        ensures legal { IfOk result
            (λ did. OnTrue did (list_fault self.old.base self.new.ops ≡ None)) }
        ensures same { IfOk result (λ did. OnFalse did (self.new ≡ self.old)) }
        ensures before { OnErr result (self.new ≡ self.old) }
        ensures joins { self.new.joins ≡ self.old.joins }
    {
        self.sequence.facts();
        let steps = self.sequence.len() + 1;
        let (first, end) = ((k - 1) / 4, steps / 4);
        let mut sums = piece(self.alloc, end.saturating_sub(first))?;
        let other = other_room(self.passed.get_mut(), self.alloc, room, steps)?;
        self.sums.lengthen(self.alloc, steps)?;
        let (profile, arrival) = (self.base.profile(), self.base.arrival());
        match self.sequence.put_in(self.alloc, profile, arrival, k, op) {
            Ok(true) => {}
            Ok(false) => {
                self.sums.shorten(steps - 1);
                return Ok(false);
            }
            Err(AllocError) => {
                self.sums.shorten(steps - 1);
                return Err(AllocError);
            }
        }
        let frames = self.base.profile().frames();
        self.sums
            .renew(&self.sequence, frames, first, end, &mut sums);
        move_into(self.passed.get_mut(), other);
        Ok(true)
    }

    /// Takes the step of a number out, where it is a filling or independent of all steps behind it.
    /// It returns whether it did; if not, or out of memory, everything is as it was. The sums
    /// behind it are made anew; as where all of them are made, no join is counted.
    pub(crate) fn take_out(&mut self, k: usize, room: Room) -> Result<bool, AllocError>
        requires first { 1 ≤ k }
        requires last { k ≤ length self.old.ops }
        ensures base { self.new.base ≡ self.old.base }
        ensures ops { IfOk result (λ did. OnTrue did (self.new.ops ≡ remove self.old.ops (k - 1))) }
        ensures legal { IfOk result
            (λ did. OnTrue did (list_fault self.old.base self.new.ops ≡ None)) }
        ensures same { IfOk result (λ did. OnFalse did (self.new ≡ self.old)) }
        ensures before { OnErr result (self.new ≡ self.old) }
        ensures joins { self.new.joins ≡ self.old.joins }
    {
        self.sequence.facts();
        let steps = self.sequence.len() - 1;
        let (first, end) = ((k - 1) / 4, steps / 4);
        let mut sums = piece(self.alloc, end.saturating_sub(first))?;
        let other = other_room(self.passed.get_mut(), self.alloc, room, steps)?;
        if !self.sequence.take_out(k) {
            return Ok(false);
        }
        self.sums.shorten(steps);
        let frames = self.base.profile().frames();
        self.sums
            .renew(&self.sequence, frames, first, end, &mut sums);
        move_into(self.passed.get_mut(), other);
        Ok(true)
    }
}
