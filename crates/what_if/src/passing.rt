//! Which conditions of a list are known to pass from an earlier search for the first that fails.
//!
//! A condition follows from the base and the steps before it. So those that passed pass in every
//! list that begins with the same steps, and the next search goes on behind them. What is kept has
//! a copy of these steps, in room that is asked for where the list is made: a search asks for none.
ghost use Rattle.std.specs.Prelude.{◌≡◌, ◌+◌, ◌≤◌, length, take, true};
ghost use Rattle.std.specs.Arc.{arc_value};
ghost use Rattle.seq_report.specs.Cases.{passed_before};
ghost use Rattle.what_if.specs.Bases.{Pass};

use lift_sequence::Op;
use port_call::Ground;
use seq_report::Criterion;
use std::alloc::{AllocError, Global};
use std::sync::Arc;
use step_edits::copy_into;

/// The least number of conditions that is worth keeping. By an estimate, to judge so many of a ship
/// with the fewest stations and frames takes about as long as to compare two bases of a ship with
/// the most cells, all of them taken.
const LEAST: usize = 2_000;

/// Conditions of a list that are known to pass.
#[derive(Drop)]
pub struct Passed {
    base: Arc<Ground, Global>,
    /// The first steps of the list that was searched.
    ops: Vec<Op>,
    /// How many conditions pass, the first being the one on arrival.
    count: usize,
    ghost pass: { Pass (arc_value base) ops.items count },
}

/// Whether two steps are equal.
fn same_op(one: &Op, other: &Op) -> bool
    ensures { result ≡ true → one.now ≡ other.now }
{
    one == other
}

/// With how many equal steps two lists begin.
fn same_before(ops: &[Op], others: &[Op]) -> usize
    ensures same { take result ops.now ≡ take result others.now }
    ensures inside { result ≤ length others.now }
{
    let most = ops.len().min(others.len());
    for k in 0..most {
        if !same_op(&ops[k], &others[k]) {
            return k;
        }
    }
    most
}

/// How much room is kept for a list of so many steps; none where too few conditions would be
/// kept.
fn room_for(steps: usize) -> usize {
    if steps < LEAST { 0 } else { steps }
}

impl Passed {
    /// That nothing is known of a list of so many steps, with the room that is kept for it.
    pub fn nothing(
        alloc: Global,
        base: &Arc<Ground, Global>,
        steps: usize,
    ) -> Result<Passed, AllocError> {
        let ops = Vec::with_capacity(alloc, room_for(steps))?;
        Ok(Passed {
            base: Arc::try_clone(base)?,
            ops,
            count: 0,
        })
    }

    /// How many conditions of another list are known to pass by this; 0 where they are too few for
    /// a comparison of the bases.
    fn count_on(&self, base: &Ground, ops: &[Op]) -> usize
        ensures pass { Pass base.now ops.now result }
        ensures inside { result ≤ length ops.now + 1 }
    {
        if self.count < LEAST {
            return 0;
        }
        let count = self.count.min(same_before(&self.ops, ops) + 1);
        if count < LEAST {
            return 0;
        }
        if !self.base.same(base) {
            return 0;
        }
        count
    }

    /// What is to be kept now: that so many conditions of another list pass, with the steps that
    /// they follow from, as far as there is room for these. It is what was kept before where they
    /// are too few, or where the base has too many owners for one more.
    fn update(self, base: &Arc<Ground, Global>, ops: &[Op], count: usize) -> Passed
        requires { Pass (arc_value base.now) ops.now count }
    {
        if count < LEAST {
            return self;
        }
        let Ok(base) = Arc::try_clone(base) else {
            return self;
        };
        let Passed {
            base: _base,
            ops: mut list,
            count: _,
        } = self;
        list.clear();
        // The condition on arrival follows from no step.
        let steps = (count - 1).min(ops.len()).min(list.capacity());
        copy_into(&mut list, &ops[..steps]);
        Passed {
            base,
            ops: list,
            count: count.min(steps + 1),
        }
    }

    /// Other room for a list of so many steps, where this is too small for it, or more than twice
    /// too great. More of it has a quarter to spare, since lists grow by single steps. In place of
    /// too much comes none, for which no memory is asked: the next edit then asks for what it
    /// takes.
    fn other_room(&self, alloc: Global, steps: usize) -> Result<Option<Vec<Op>>, AllocError> {
        let room = room_for(steps);
        let has = self.ops.capacity();
        if room > has {
            let more = Vec::with_capacity(alloc, room.saturating_add(room / 4))?;
            return Ok(Some(more));
        }
        if has / 2 > room {
            return Ok(Some(Vec::new(alloc)));
        }
        Ok(None)
    }

    /// The same in other room, as far as that goes.
    fn in_other_room(self, mut room: Vec<Op>) -> Passed {
        let Passed { base, ops, count } = self;
        room.clear();
        let most = ops.len().min(room.capacity());
        copy_into(&mut room, &ops[..most]);
        Passed {
            base,
            ops: room,
            count: count.min(most + 1),
        }
    }
}

/// How many conditions of a list are known to pass by what is kept.
pub fn count_passing(kept: &Option<Passed>, base: &Ground, ops: &[Op]) -> usize
    ensures pass { Pass base.now ops.now result }
    ensures inside { result ≤ length ops.now + 1 }
{
    match kept {
        Some(passed) => passed.count_on(base, ops),
        None => 0,
    }
}

/// How many of so many conditions pass before the first that fails.
pub fn count_before(first: Option<(u32, Criterion)>, conditions: usize) -> usize
    ensures { result ≡ passed_before first conditions }
{
    match first {
        Some((step, _)) => step as usize,
        None => conditions,
    }
}

/// Keeps that so many conditions of a list pass.
pub fn keep(kept: &mut Option<Passed>, base: &Arc<Ground, Global>, ops: &[Op], count: usize)
    requires { Pass (arc_value base.now) ops.now count }
{
    if let Some(passed) = kept.take() {
        *kept = Some(passed.update(base, ops, count));
    }
}

/// Whether an edit sees to the room for what is kept.
#[derive(Clone, Copy)]
pub enum Room {
    /// It asks for more where the list outgrows it, and gives too much of it back.
    Fitted,
    /// It leaves the room as it is, for an edit that is taken back, which asks for no memory that
    /// it can do without.
    Left,
}

/// Other room for what is kept, for a list of so many steps; `None` where its room will do, or is
/// to be left.
pub fn other_room(
    kept: &Option<Passed>,
    alloc: Global,
    room: Room,
    steps: usize,
) -> Result<Option<Vec<Op>>, AllocError> {
    match (room, kept) {
        (Room::Fitted, Some(passed)) => passed.other_room(alloc, steps),
        _ => Ok(None),
    }
}

/// Moves what is kept into other room, where there is some.
pub fn move_into(kept: &mut Option<Passed>, room: Option<Vec<Op>>) {
    let Some(room) = room else {
        return;
    };
    if let Some(passed) = kept.take() {
        *kept = Some(passed.in_other_room(room));
    }
}
