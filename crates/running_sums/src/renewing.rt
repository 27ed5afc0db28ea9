ghost use Rattle.std.specs.Prelude.{◌≡◌, ℕ, ◌+◌, ◌*◌, ◌/◌, ◌^◌, ◌<◌, ◌≤◌, length, map, drop};
ghost use Rattle.std.specs.Prelude.{◌-◌, List, slice_get, slice_set, slice_index_or, true, None};
ghost use Rattle.std.specs.Prelude.{Some, ◌∷◌};
ghost use Rattle.lift_sequence.specs.declared.operations.Op.{Op as Operation};
ghost use Rattle.lift_sequence.specs.Follow.{loaded_at, moves, moves_in};
ghost use Rattle.moment_sums.specs.Kept.{Kept, none_kept};
ghost use Rattle.running_sums.specs.Fours.{AreOfFour, AreStill, CostsUpTo, LackPlaces, LacksRun};
ghost use Rattle.running_sums.specs.Fours.{WereExchanged, WereNear, change_of, fours};

use crate::fours::Fours;
use lift_sequence::{Op, Sequence};
use moment_sums::Totals;
use prefix_scan::Monoid;
use units_core::{Cell, Frames};

/// How many fours that follow one another are set together at most.
const RUN: usize = 16;

/// Fours that follow one another, of which the sums are yet to be set: from the one of a number on
/// up to another.
#[derive(Clone, Copy)]
struct Run {
    four: usize,
    end: usize,
}

/// Adds to a run the four that a step is in, unless it is there. Where it doesn't follow, or the
/// run is as long as the room, the run is set, and another begins.
fn add_four(
    sums: &mut Fours,
    sequence: &Sequence,
    frames: &Frames,
    place: usize,
    run: &mut Run,
    room: &mut [Totals],
)
    requires within { place < length sequence.now.ops }
    requires long { length sums.old.values ≡ length sequence.now.ops / 4 }
    requires small { AreOfFour sums.old.values }
    requires some { run.old.four < run.old.end }
    requires fits { run.old.end ≤ run.old.four + length room.old }
    ensures long { length sums.new.values ≡ length sums.old.values }
    ensures small { AreOfFour sums.new.values }
    ensures some { run.new.four < run.new.end }
    ensures fits { run.new.end ≤ run.new.four + length room.old }
    ensures inside { place < run.old.end * 4
        → (run.new ≡ run.old) × (sums.new.values ≡ sums.old.values) }
    ensures added { (wanted : List Kept) → run.old.end * 4 ≤ place
        → LacksRun run.old.four run.old.end
        (fours (map (change_of frames.now) sequence.now.steps)) sums.old.values wanted
        → (run.new.end ≡ place / 4 + 1) × LacksRun run.new.four run.new.end
        (fours (map (change_of frames.now) sequence.now.steps)) sums.new.values
        (slice_set wanted (place / 4) (slice_index_or
        (fours (map (change_of frames.now) sequence.now.steps)) (place / 4) none_kept)) }
    ensures grows { sums.old.joins ≤ sums.new.joins }
    ensures cost { (levels : ℕ) → length sequence.now.ops ≤ 2 ^ levels
        → sums.new.joins + (run.new.end - run.new.four) * (levels + 1)
        ≤ sums.old.joins + (run.old.end - run.old.four + 1) * (levels + 1) }
{
    sequence.facts();
    let four = place / 4;
    if four < run.end {
        return;
    }
    if run.end < four || run.end - run.four == room.len() {
        sums.set_run(sequence, frames, run.four, run.end, room);
        run.four = four;
    }
    run.end = four + 1;
}

/// The place of the first step, from a place on, that moves the container which is in a cell; the
/// number of steps where none does. Out of line: how fast this loop runs would else hang on where
/// the rest of an edit happens to put it.
#[inline(never)]
fn next_move(ops: &[Op], from: usize, cell: Option<Cell>) -> usize
    requires { from ≤ length ops.now }
    ensures order { (from ≤ result) × (result ≤ length ops.now) }
    ensures still { AreStill cell ops.now from result }
    ensures moves { (op : Operation) → slice_get ops.now result ≡ Some op
        → moves cell op ≡ true }
{
    for place in from..ops.len() {
        if ops[place].moves(cell) {
            return place;
        }
    }
    ops.len()
}

/// Sets what the load at a place changes, and those steps behind it that move its container, each
/// run of fours at once. The sums are of what the steps changed before the container was given
/// another weight.
pub fn renew(sums: &mut Fours, sequence: &Sequence, frames: &Frames, place: usize)
    requires within { place < length sequence.now.ops }
    requires near { WereNear place sequence.now.ops
        (map (change_of frames.now) sequence.now.steps) sums.old.values }
    ensures values { sums.new.values ≡ fours (map (change_of frames.now) sequence.now.steps) }
    ensures cost { CostsUpTo (moves_in (loaded_at sequence.now.ops place)
        (drop (place + 1) sequence.now.ops) + 1) (length sequence.now.ops) sums.old.joins
        sums.new.joins }
{
    sequence.facts();
    let mut room = [Totals::unit(); RUN];
    let mut run = Run {
        four: place / 4,
        end: place / 4 + 1,
    };
    let ops = sequence.ops();
    let mut cell = ops[place].loaded_cell();
    let mut behind = next_move(ops, place + 1, cell);
    while behind < ops.len() {
        add_four(sums, sequence, frames, behind, &mut run, &mut room);
        cell = ops[behind].next_cell(cell);
        behind = next_move(ops, behind + 1, cell);
    }
    sums.set_run(sequence, frames, run.four, run.end, &mut room);
}

/// Sets what the steps at two places change that were exchanged. The sums are of what the steps
/// changed before.
pub fn renew_both(sums: &mut Fours, sequence: &Sequence, frames: &Frames, one: usize, other: usize)
    requires one { one < length sequence.now.ops }
    requires other { other < length sequence.now.ops }
    requires exchanged { WereExchanged one other
        (map (change_of frames.now) sequence.now.steps) sums.old.values }
    ensures values { sums.new.values ≡ fours (map (change_of frames.now) sequence.now.steps) }
    ensures cost { CostsUpTo 2 (length sequence.now.ops) sums.old.joins sums.new.joins }
{
    sequence.facts();
    sums.set(sequence, frames, one);
    sums.set(sequence, frames, other);
}

/// Sets what the four steps change together one of which is at a place, if they are four. No join
/// is counted.
fn renew_place(sums: &mut Fours, sequence: &Sequence, frames: &Frames, place: usize)
    requires long { length sums.old.values ≡ length sequence.now.ops / 4 }
    requires small { AreOfFour sums.old.values }
    ensures long { length sums.new.values ≡ length sums.old.values }
    ensures small { AreOfFour sums.new.values }
    ensures set { (places : List ℕ) →
        LackPlaces (place ∷ places) (fours (map (change_of frames.now) sequence.now.steps))
        sums.old.values →
        LackPlaces places (fours (map (change_of frames.now) sequence.now.steps))
        sums.new.values }
    ensures joins { sums.new.joins ≡ sums.old.joins }
{
    sequence.facts();
    let four = place / 4;
    let end = (four + 1).min(sequence.len() / 4);
    let mut room = [Totals::unit(); 1];
    sums.renew(sequence, frames, four, end, &mut room);
}

/// Sets what the steps at some places change. All other sums are as they have to be. As where all
/// of the sums are made, no join is counted.
pub fn renew_places(sums: &mut Fours, sequence: &Sequence, frames: &Frames, places: &[usize])
    requires small { AreOfFour sums.old.values }
    requires lack { LackPlaces places.now
        (fours (map (change_of frames.now) sequence.now.steps)) sums.old.values }
    ensures values { sums.new.values ≡ fours (map (change_of frames.now) sequence.now.steps) }
    ensures joins { sums.new.joins ≡ sums.old.joins }
{
    sequence.facts();
    for n in 0..places.len() {
        renew_place(sums, sequence, frames, places[n]);
    }
}
