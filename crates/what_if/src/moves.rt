//! A step moved to another place of a list, in place.
ghost use Rattle.std.specs.Prelude.{◌≡◌, ◌*◌, ◌-◌, ◌/◌, ◌<◌, ◌≤◌, ◌⊎◌, length, None, IfOk, OnErr};
ghost use Rattle.std.specs.Bool.{OnTrue, OnFalse};
ghost use Rattle.lift_sequence.specs.Independent.{moved};
ghost use Rattle.lift_sequence.specs.Limits.{most_steps};
ghost use Rattle.port_call.specs.Grounds.{list_fault};

use crate::singles::piece;
use crate::summed_lists::SummedList;
use lift_sequence::Op;
use moment_sums::Totals;
use running_sums::renew_places;
use std::alloc::AllocError;

/// The fours of the steps from one number up to another, in either order, of a list of so many: the
/// first of them, and the one behind the last.
fn stretch(from: usize, to: usize, steps: usize) -> (usize, usize)
    requires first { (1 ≤ from) × (1 ≤ to) }
    requires last { (from ≤ steps) × (to ≤ steps) }
    requires few { steps ≤ most_steps }
    ensures begins { (result.0 * 4 < from) × (result.0 * 4 < to) }
    ensures order { result.0 ≤ result.1 }
    ensures within { result.1 ≤ steps / 4 }
    ensures ends { ((from ≤ result.1 * 4) × (to ≤ result.1 * 4)) ⊎ (steps / 4 ≤ result.1) }
{
    let end = ((from.max(to) + 3) / 4).min(steps / 4);
    (((from.min(to) - 1) / 4).min(end), end)
}

impl SummedList {
    /// Moves a step past others, where it is a filling or independent of them. It returns whether
    /// it did; if not, or out of memory, everything is as it was. The part of the sums over these
    /// steps is made anew, each join once; as where all of them are made, none is counted.
    pub(crate) fn carry(&mut self, from: usize, to: usize) -> Result<bool, AllocError>
        requires first { (1 ≤ from) × (1 ≤ to) }
        requires last { (from ≤ length self.old.ops) × (to ≤ length self.old.ops) }
        ensures base { self.new.base ≡ self.old.base }
        ensures ops { IfOk result
            (λ did. OnTrue did (self.new.ops ≡ moved self.old.ops (from - 1) (to - 1))) }
        ensures legal { IfOk result
            (λ did. OnTrue did (list_fault self.old.base self.new.ops ≡ None)) }
        ensures same { IfOk result (λ did. OnFalse did (self.new ≡ self.old)) }
        ensures before { OnErr result (self.new ≡ self.old) }
        ensures joins { self.new.joins ≡ self.old.joins }
    {
        if !self.sequence.can_shift(from, to) {
            return self.carry_filling(from, to);
        }
        let (four, end) = stretch(from, to, self.sequence.len());
        let mut room = piece(self.alloc, end - four)?;
        Ok(self.carry_in(from, to, four, end, &mut room))
    }

    /// Moves a step past others, where it is independent of them, and sets the sums of the fours of
    /// steps from this number on up to another, a room full at a time. It returns whether it did;
    /// if not, everything is as it was.
    fn carry_in(
        &mut self,
        from: usize,
        to: usize,
        four: usize,
        end: usize,
        room: &mut [Totals],
    ) -> bool
        requires first { (1 ≤ from) × (1 ≤ to) }
        requires last { (from ≤ length self.old.ops) × (to ≤ length self.old.ops) }
        requires begins { (four * 4 < from) × (four * 4 < to) }
        requires order { four ≤ end }
        requires within { end ≤ length self.old.ops / 4 }
        requires ends { ((from ≤ end * 4) × (to ≤ end * 4)) ⊎ (length self.old.ops / 4 ≤ end) }
        requires some { four < end → 0 < length room.old }
        ensures base { self.new.base ≡ self.old.base }
        ensures ops { OnTrue result (self.new.ops ≡ moved self.old.ops (from - 1) (to - 1)) }
        ensures legal { OnTrue result (list_fault self.old.base self.new.ops ≡ None) }
        ensures same { OnFalse result (self.new ≡ self.old) }
        ensures joins { self.new.joins ≡ self.old.joins }
    {
        if !self.sequence.shift(from, to) {
            return false;
        }
        let frames = self.base.profile().frames();
        self.sums.renew(&self.sequence, frames, four, end, room);
        true
    }

    /// Moves a filling past others of its tank. It returns whether it did; if not, or out of
    /// memory, everything is as it was. The sums over the steps that are passed are made anew, and
    /// those of the next filling of the tank behind them; no join is counted.
    fn carry_filling(&mut self, from: usize, to: usize) -> Result<bool, AllocError>
        requires first { (1 ≤ from) × (1 ≤ to) }
        requires last { (from ≤ length self.old.ops) × (to ≤ length self.old.ops) }
        ensures base { self.new.base ≡ self.old.base }
        ensures ops { IfOk result
            (λ did. OnTrue did (self.new.ops ≡ moved self.old.ops (from - 1) (to - 1))) }
        ensures legal { IfOk result
            (λ did. OnTrue did (list_fault self.old.base self.new.ops ≡ None)) }
        ensures same { IfOk result (λ did. OnFalse did (self.new ≡ self.old)) }
        ensures before { OnErr result (self.new ≡ self.old) }
        ensures joins { self.new.joins ≡ self.old.joins }
    {
        if !matches!(self.sequence.lift(from), Op::Fill { .. }) {
            return Ok(false);
        }
        let (four, end) = stretch(from, to, self.sequence.len());
        let mut room = piece(self.alloc, end - four)?;
        Ok(self.carry_filling_in(from, to, four, end, &mut room))
    }

    /// Moves a filling, and sets the sums of the fours of steps from this number on up to another,
    /// a room full at a time, and those of the fillings that take out something else then. It
    /// returns whether it did; if not, everything is as it was.
    fn carry_filling_in(
        &mut self,
        from: usize,
        to: usize,
        four: usize,
        end: usize,
        room: &mut [Totals],
    ) -> bool
        requires first { (1 ≤ from) × (1 ≤ to) }
        requires last { (from ≤ length self.old.ops) × (to ≤ length self.old.ops) }
        requires begins { (four * 4 < from) × (four * 4 < to) }
        requires order { four ≤ end }
        requires within { end ≤ length self.old.ops / 4 }
        requires ends { ((from ≤ end * 4) × (to ≤ end * 4)) ⊎ (length self.old.ops / 4 ≤ end) }
        requires some { four < end → 0 < length room.old }
        ensures base { self.new.base ≡ self.old.base }
        ensures ops { OnTrue result (self.new.ops ≡ moved self.old.ops (from - 1) (to - 1)) }
        ensures legal { OnTrue result (list_fault self.old.base self.new.ops ≡ None) }
        ensures same { OnFalse result (self.new ≡ self.old) }
        ensures joins { self.new.joins ≡ self.old.joins }
    {
        let Some((one, other)) = self.sequence.shift_filling(from, to) else {
            return false;
        };
        let frames = self.base.profile().frames();
        self.sums.renew(&self.sequence, frames, four, end, room);
        renew_places(&mut self.sums, &self.sequence, frames, &[one, other]);
        true
    }
}
