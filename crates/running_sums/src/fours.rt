//! What the steps of a list change, added up four by four.
//!
//! A sum has 480 bytes, and what one step changes says no more than the step does. So the tree is
//! over the sums of four steps each, and a query adds the up to three steps behind the last four
//! one by one. Each step that is added counts as a join. So a query or a change may take one join
//! more than in a tree over single steps, and stays within as many as the clauses allow.
ghost use Rattle.std.specs.Prelude.{◌≡◌, ℕ, ◌+◌, ◌-◌, ◌*◌, ◌/◌, ◌%◌, ◌^◌, ◌<◌, ◌≤◌, length, map};
ghost use Rattle.std.specs.Prelude.{◌++◌, [], ◌∷◌, slice_index_or, slice_set, take, drop, IfOk};
ghost use Rattle.std.specs.Prelude.{OnOk, OnErr};
ghost use Rattle.lift_sequence.specs.Limits.{most_steps};
ghost use Rattle.prefix_scan.specs.Cut.{start_of};
ghost use Rattle.prefix_scan.specs.Folds.{prefix};
ghost use Rattle.prefix_scan.specs.Rows.{IsWritten};
ghost use Rattle.prefix_scan.specs.Laws.{most_parts};
ghost use Rattle.moment_sums.specs.Kept.{Kept, bodies_of, both_kept, none_kept, size_of};
ghost use Rattle.running_sums.specs.Fours.{AreOfFour, CostsUpTo, change_of, fours};

use lift_sequence::Sequence;
use moment_sums::Totals;
use prefix_scan::{Cuts, Monoid, TotalsTree};
use std::alloc::{AllocError, Global};
use std::marker::Model;
use units_core::{Frames, Step};

/// The sums of each four steps of a list, and the joins of their parts. Up to three steps that are
/// left at the end of the list are in no sum.
///
/// To its callers it is these sums, and how many joins were counted.
pub struct Fours {
    tree: TotalsTree<Totals>,
    /// How many changes of single steps were joined to others, up to the greatest number of the
    /// type.
    single: u64,
}

impl Drop for Fours {
    // Written out, since the crates above prove a derived one anew, field by field.
    fn drop(self) {
        let Fours {
            tree: _tree,
            single: _,
        } = self;
    }
}

impl Model for Fours {
    ghost use Rattle.std.specs.Prelude.{◌+◌};
    ghost use Rattle.moment_sums.specs.Kept.{Kept};
    ghost use Rattle.prefix_scan.specs.Counted.{Counted};

    ghost Value = { Counted Kept };

    ghost view = { λ f. record { values = f.tree.values; joins = f.tree.joins + f.single } };
}

/// Adds what a step changes to a sum, which counts as a join; a count at its greatest value stays.
fn add_counted(sum: &mut Totals, step: &Step, frames: &Frames, count: &mut u64)
    requires room { size_of sum.old + bodies_of step.now ≤ most_parts }
    ensures value { sum.new ≡ both_kept sum.old (change_of frames.now step.now) }
    ensures one_more { count.old < 2 ^ 64 - 1 → count.new ≡ count.old + 1 }
    ensures bound { (count.old ≤ count.new) × (count.new ≤ count.old + 1) }
{
    *count = count.saturating_add(1);
    sum.add_step(step, frames);
}

/// Makes a sum what the four steps of a number change together, the first four having the number 0.
/// It takes three joins.
fn set_four(sequence: &Sequence, frames: &Frames, four: usize, sum: &mut Totals, count: &mut u64)
    requires within { 4 * four + 4 ≤ length sequence.now.ops }
    ensures value { sum.new ≡ slice_index_or
        (fours (map (change_of frames.now) sequence.now.steps)) four none_kept }
    ensures bound { (count.old ≤ count.new) × (count.new ≤ count.old + 3) }
    ensures counted { count.old + 3 < 2 ^ 64 → count.new ≡ count.old + 3 }
{
    sequence.facts();
    let first = 4 * four;
    sum.set_step(&sequence.step(first + 1), frames);
    add_counted(sum, &sequence.step(first + 2), frames, count);
    add_counted(sum, &sequence.step(first + 3), frames, count);
    add_counted(sum, &sequence.step(first + 4), frames, count);
}

/// The same as a sum of its own.
fn sum_of_four(sequence: &Sequence, frames: &Frames, four: usize, count: &mut u64) -> Totals
    requires within { 4 * four + 4 ≤ length sequence.now.ops }
    ensures value { result ≡ slice_index_or
        (fours (map (change_of frames.now) sequence.now.steps)) four none_kept }
    ensures bound { (count.old ≤ count.new) × (count.new ≤ count.old + 3) }
    ensures counted { count.old + 3 < 2 ^ 64 → count.new ≡ count.old + 3 }
{
    let mut sum = Totals::unit();
    set_four(sequence, frames, four, &mut sum, count);
    sum
}

/// What each four steps of a sequence change together. The joins made here aren't counted.
fn sums(alloc: Global, sequence: &Sequence, frames: &Frames) -> Result<Vec<Totals>, AllocError>
    ensures { IfOk result
        (λ v. v.items ≡ fours (map (change_of frames.now) sequence.now.steps)) }
{
    sequence.facts();
    let number = sequence.len() / 4;
    let mut all = Vec::with_capacity(alloc, number)?;
    let mut uncounted = 0;
    for four in 0..number {
        all.push(sum_of_four(sequence, frames, four, &mut uncounted))?;
    }
    Ok(all)
}

/// Adds to the sum of all whole fours before step `k` what the steps behind them change, up to that
/// step, and counts them.
fn add_single(sequence: &Sequence, frames: &Frames, k: usize, sum: &mut Totals, count: &mut u64)
    requires within { k ≤ length sequence.now.ops }
    requires so_far { sum.old ≡ prefix none_kept both_kept
        (map (change_of frames.now) sequence.now.steps) (k / 4 * 4) }
    ensures value { sum.new ≡ prefix none_kept both_kept
        (map (change_of frames.now) sequence.now.steps) k }
    ensures grows { count.old ≤ count.new }
    ensures cost { count.new ≤ count.old + k % 4 }
    ensures counted { count.old + k % 4 < 2 ^ 64 → count.new ≡ count.old + k % 4 }
{
    sequence.facts();
    for place in k / 4 * 4..k {
        add_counted(sum, &sequence.step(place + 1), frames, count);
    }
}

/// Sets in the room what each four steps change together, from the four of a number on. It takes
/// three joins for each.
fn set_room(sequence: &Sequence, frames: &Frames, four: usize, room: &mut [Totals], count: &mut u64)
    requires within { 4 * (four + length room.old) ≤ length sequence.now.ops }
    ensures long { length room.new ≡ length room.old }
    ensures bound { (count.old ≤ count.new) × (count.new ≤ count.old + 3 * length room.old) }
    ensures counted { count.old + 3 * length room.old < 2 ^ 64
        → count.new ≡ count.old + 3 * length room.old }
    ensures each { (k : ℕ) → k < length room.old → slice_index_or room.new k none_kept
        ≡ slice_index_or (fours (map (change_of frames.now) sequence.now.steps)) (four + k)
        none_kept }
{
    sequence.facts();
    for k in 0..room.len() {
        set_four(sequence, frames, four + k, &mut room[k], count);
    }
}

impl Fours {
    /// The sums of the steps of a sequence. The joins made here aren't counted.
    pub fn of(alloc: Global, sequence: &Sequence, frames: &Frames) -> Result<Fours, AllocError>
        ensures values { IfOk result
            (λ f. f.values ≡ fours (map (change_of frames.now) sequence.now.steps)) }
        ensures joins { IfOk result (λ f. f.joins ≡ 0) }
    {
        sequence.facts();
        let sums = sums(alloc, sequence, frames)?;
        let tree = TotalsTree::of(alloc, sums)?;
        Ok(Fours { tree, single: 0 })
    }

    /// The sums of the steps of another sequence, whose count goes on from that of these. The joins
    /// made here aren't counted.
    pub fn with_sequence(
        &self,
        alloc: Global,
        sequence: &Sequence,
        frames: &Frames,
    ) -> Result<Fours, AllocError>
        ensures values { IfOk result
            (λ f. f.values ≡ fours (map (change_of frames.now) sequence.now.steps)) }
        ensures joins { IfOk result (λ f. f.joins ≡ self.now.joins) }
    {
        sequence.facts();
        let sums = sums(alloc, sequence, frames)?;
        let tree = self.tree.with_values(alloc, sums)?;
        Ok(Fours {
            tree,
            single: self.single,
        })
    }

    /// What the first `k` steps of the sequence change together. It takes at most l + 1 joins,
    /// where there are at most 2^l steps, and at least one, unless `k` is 0.
    pub fn prefix(&mut self, sequence: &Sequence, frames: &Frames, k: usize) -> Totals
        requires within { k ≤ length sequence.now.ops }
        requires sums { self.old.values
            ≡ fours (map (change_of frames.now) sequence.now.steps) }
        ensures value { result ≡ prefix none_kept both_kept
            (map (change_of frames.now) sequence.now.steps) k }
        ensures values { self.new.values ≡ self.old.values }
        ensures cost { CostsUpTo 1 (length sequence.now.ops) self.old.joins self.new.joins }
        ensures counted { 0 < k → self.old.joins + 3 < 2 ^ 64 → self.old.joins < self.new.joins }
    {
        sequence.facts();
        let mut sum = self.tree.prefix(k / 4);
        add_single(sequence, frames, k, &mut sum, &mut self.single);
        sum
    }

    /// As [`Fours::prefix`], for whoever has the sums only to read; its joins aren't counted.
    pub fn peek(&self, sequence: &Sequence, frames: &Frames, k: usize) -> Totals
        requires within { k ≤ length sequence.now.ops }
        requires sums { self.now.values
            ≡ fours (map (change_of frames.now) sequence.now.steps) }
        ensures { result ≡ prefix none_kept both_kept
            (map (change_of frames.now) sequence.now.steps) k }
    {
        sequence.facts();
        let mut sum = self.tree.peek(k / 4);
        let mut uncounted = 0;
        add_single(sequence, frames, k, &mut sum, &mut uncounted);
        sum
    }

    /// For each chunk what the steps before it change together.
    pub fn offsets(
        &self,
        alloc: Global,
        sequence: &Sequence,
        frames: &Frames,
        cuts: &Cuts,
    ) -> Result<Vec<Totals>, AllocError>
        requires within { (c : ℕ) → c < length cuts.now
            → start_of cuts.now c ≤ length sequence.now.ops }
        requires sums { self.now.values
            ≡ fours (map (change_of frames.now) sequence.now.steps) }
        ensures count { IfOk result (λ v. length v.items ≡ length cuts.now) }
        ensures each { IfOk result (λ v. (c : ℕ) (d : Kept) → c < length cuts.now
            → slice_index_or v.items c d ≡ prefix none_kept both_kept
            (map (change_of frames.now) sequence.now.steps) (start_of cuts.now c)) }
    {
        let mut all = Vec::with_capacity(alloc, cuts.chunks())?;
        for chunk in 0..cuts.chunks() {
            let start = cuts.range(chunk).start;
            all.push(self.peek(sequence, frames, start as usize))?;
        }
        Ok(all)
    }

    /// Sets what the four steps change together one of which is at a place, if they are four. It
    /// takes at most l + 1 joins, where there are at most 2^l steps.
    pub fn set(&mut self, sequence: &Sequence, frames: &Frames, place: usize)
        requires long { length self.old.values ≡ length sequence.now.ops / 4 }
        requires small { AreOfFour self.old.values }
        ensures values { self.new.values ≡ slice_set self.old.values (place / 4) (slice_index_or
            (fours (map (change_of frames.now) sequence.now.steps)) (place / 4) none_kept) }
        ensures cost { CostsUpTo 1 (length sequence.now.ops) self.old.joins self.new.joins }
        ensures counted { place / 4 < length self.old.values → self.old.joins + 3 < 2 ^ 64
            → self.old.joins + 3 ≤ self.new.joins }
    {
        sequence.facts();
        let four = place / 4;
        if four >= self.tree.len() {
            return;
        }
        let sum = sum_of_four(sequence, frames, four, &mut self.single);
        self.tree.set(four, sum);
    }

    /// Sets what each four steps change together, from the four of a number on, as many as there is
    /// room for. No join is counted.
    fn renew_piece(
        &mut self,
        sequence: &Sequence,
        frames: &Frames,
        four: usize,
        room: &mut [Totals],
    )
        requires long { length self.old.values ≡ length sequence.now.ops / 4 }
        requires small { AreOfFour self.old.values }
        requires within { four + length room.old ≤ length self.old.values }
        ensures values { IsWritten none_kept four (length room.old)
            (drop four (fours (map (change_of frames.now) sequence.now.steps))) self.old.values
            self.new.values }
        ensures small { AreOfFour self.new.values }
        ensures joins { self.new.joins ≡ self.old.joins }
    {
        sequence.facts();
        let mut uncounted = 0;
        set_room(sequence, frames, four, room, &mut uncounted);
        self.tree.renew(four, room);
    }

    /// The same, where each join is counted. Where there are at most 2^l steps, it takes at most l
    /// + 1 joins for each sum.
    fn set_piece(&mut self, sequence: &Sequence, frames: &Frames, four: usize, room: &mut [Totals])
        requires long { length self.old.values ≡ length sequence.now.ops / 4 }
        requires small { AreOfFour self.old.values }
        requires within { four + length room.old ≤ length self.old.values }
        ensures values { IsWritten none_kept four (length room.old)
            (drop four (fours (map (change_of frames.now) sequence.now.steps))) self.old.values
            self.new.values }
        ensures small { AreOfFour self.new.values }
        ensures cost { CostsUpTo (length room.old) (length sequence.now.ops) self.old.joins
            self.new.joins }
        ensures counted { self.old.joins + 3 * length room.old < 2 ^ 64
            → self.old.joins + 3 * length room.old ≤ self.new.joins }
    {
        sequence.facts();
        set_room(sequence, frames, four, room, &mut self.single);
        self.tree.set_stretch(four, room);
    }

    /// Sets what each four steps change together, from the four of a number on up to another, as
    /// far as they are four. Where there are at most 2^l steps, it takes at most l + 1 joins for
    /// each. What was in the room is lost.
    pub fn set_run(
        &mut self,
        sequence: &Sequence,
        frames: &Frames,
        four: usize,
        end: usize,
        room: &mut [Totals],
    )
        requires long { length self.old.values ≡ length sequence.now.ops / 4 }
        requires small { AreOfFour self.old.values }
        requires fits { end ≤ four + length room.old }
        ensures values { IsWritten none_kept four (end - four)
            (drop four (fours (map (change_of frames.now) sequence.now.steps))) self.old.values
            self.new.values }
        ensures small { AreOfFour self.new.values }
        ensures cost { CostsUpTo (end - four) (length sequence.now.ops) self.old.joins
            self.new.joins }
        ensures counted { end ≤ length self.old.values
            → self.old.joins + 3 * (end - four) < 2 ^ 64
            → self.old.joins + 3 * (end - four) ≤ self.new.joins }
    {
        sequence.facts();
        let whole = end.min(self.tree.len());
        if four < whole {
            self.set_piece(sequence, frames, four, &mut room[..whole - four]);
        }
    }

    /// Sets what each four steps change together, from the four of a number on up to another, a
    /// room full at a time. As where the sums are made, no join is counted. What was in the room is
    /// lost.
    pub fn renew(
        &mut self,
        sequence: &Sequence,
        frames: &Frames,
        four: usize,
        end: usize,
        room: &mut [Totals],
    )
        requires long { length self.old.values ≡ length sequence.now.ops / 4 }
        requires small { AreOfFour self.old.values }
        requires within { end ≤ length self.old.values }
        requires some { four < end → 0 < length room.old }
        ensures values { IsWritten none_kept four (end - four)
            (drop four (fours (map (change_of frames.now) sequence.now.steps))) self.old.values
            self.new.values }
        ensures small { AreOfFour self.new.values }
        ensures joins { self.new.joins ≡ self.old.joins }
    {
        let mut from = four;
        'piece: while from < end {
            let number = room.len().min(end - from);
            self.renew_piece(sequence, frames, from, &mut room[..number]);
            from += number;
        }
    }

    /// As many sums as a list of so many steps has whole fours, where that is as many as there are,
    /// or one more; the one that comes is of no step. No join is counted. Out of memory nothing
    /// changes.
    pub fn lengthen(&mut self, alloc: Global, steps: usize) -> Result<(), AllocError>
        requires no_fewer { length self.old.values ≤ steps / 4 }
        requires one_more { steps / 4 ≤ length self.old.values + 1 }
        requires few { steps ≤ most_steps + 1 }
        requires small { AreOfFour self.old.values }
        ensures values { OnOk result
            (self.new.values ≡ take (steps / 4) (self.old.values ++ none_kept ∷ [])) }
        ensures joins { self.new.joins ≡ self.old.joins }
        ensures same { OnErr result (self.new ≡ self.old) }
    {
        if steps / 4 > self.tree.len() {
            self.tree.push(alloc, Totals::unit())?;
        }
        Ok(())
    }

    /// As many of the first sums as a list of so many steps has whole fours. No join is counted.
    pub fn shorten(&mut self, steps: usize)
        requires { steps / 4 ≤ length self.old.values }
        ensures values { self.new.values ≡ take (steps / 4) self.old.values }
        ensures joins { self.new.joins ≡ self.old.joins }
    {
        self.tree.truncate(steps / 4);
    }
}
