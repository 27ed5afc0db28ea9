ghost use Rattle.std.specs.Prelude.{◌≡◌, ◌≤◌, ◌<◌, ◌+◌, [], length, slice_get, option_copied, IfOk};
ghost use Rattle.std.specs.Prelude.{IfSome, None};
ghost use Rattle.std.specs.Vec.{vec_capacity};
ghost use Rattle.step_edits.specs.Edits.{CanBeDone, TellsMemory, edited, edit_fault, inverse};
ghost use Rattle.step_edits.specs.Edits.{is_number, moved_to, number_fault, place_of, put_back};
ghost use Rattle.step_edits.specs.Edits.{step_at, weigh_back, weigh_fault};

use crate::edits::Edit;
use crate::faults::EditFault;
use lift_sequence::Op;
use std::alloc::{AllocError, Global};
use stow_messages::Lift;
use units_core::Kg;

/// Whether a number is that of a step in a list of `count` steps.
fn is_number(count: usize, number: u32) -> bool
    ensures { result ≡ is_number count number }
{
    1 <= number && number as usize <= count
}

/// The step of a number.
fn step_at(ops: &[Op], number: u32) -> Option<&Op>
    ensures { option_copied result ≡ step_at ops.now number }
{
    let place = number.checked_sub(1)?;
    ops.get(place as usize)
}

/// The fault of numbers of which not each is that of a step.
fn number_fault(found: bool) -> Option<EditFault>
    ensures exact { result ≡ number_fault found }
    ensures memory { IfSome result TellsMemory }
{
    if found { None } else { Some(EditFault::NoStep) }
}

/// The fault of a step that is to be weighed: it isn't there, or it is no load.
fn weigh_fault(op: Option<&Op>) -> Option<EditFault>
    ensures exact { result ≡ weigh_fault (option_copied op.entry) }
    ensures memory { IfSome result TellsMemory }
{
    match op {
        None => Some(EditFault::NoStep),
        Some(op) if op.loaded_cell().is_some() => None,
        Some(_) => Some(EditFault::NotLoad),
    }
}

/// Why an edit of a list can't be done, whatever the list then does aboard: [`EditFault::NoStep`]
/// where a number isn't that of a step, and for `Reweigh` then `NotLoad`; `None` where it can. A
/// step may be inserted at any number from 1 to one more than there are steps.
pub fn fault_of(ops: &[Op], edit: &Edit) -> Option<EditFault>
    ensures exact { result ≡ edit_fault ops.now edit.now }
    ensures memory { IfSome result TellsMemory }
{
    let count = ops.len();
    match edit {
        Edit::Swap { a, b } => number_fault(is_number(count, *a) && is_number(count, *b)),
        Edit::Move { from, to } => number_fault(is_number(count, *from) && is_number(count, *to)),
        Edit::Remove { at } => number_fault(is_number(count, *at)),
        Edit::Insert { at, .. } => number_fault(is_number(count + 1, *at)),
        Edit::Reweigh { at, .. } => weigh_fault(step_at(ops, *at)),
    }
}

/// The edit that puts the step of a number back once it was removed.
fn put_back(at: u32, op: Option<&Op>) -> Edit
    ensures { result ≡ put_back at (option_copied op.entry) }
{
    match op {
        Some(op) => Edit::Insert {
            at,
            lift: op.copy(),
        },
        None => Edit::Remove { at },
    }
}

/// The edit that gives the step of a number the weight back that it had before it was weighed.
fn weigh_back(at: u32, kg: Kg, op: Option<&Op>) -> Edit
    ensures { result ≡ weigh_back at kg (option_copied op.entry) }
{
    match op {
        Some(Op::Lift(Lift::Load(item))) => Edit::Reweigh { at, kg: item.kg },
        _ => Edit::Reweigh { at, kg },
    }
}

/// The edit that takes an edit of this list back: where the edit can be done, the list after it and
/// after its inverse is this list again.
pub fn inverse(ops: &[Op], edit: &Edit) -> Edit
    ensures { result ≡ inverse ops.now edit.now }
{
    match edit {
        Edit::Swap { a, b } => Edit::Swap { a: *a, b: *b },
        Edit::Move { from, to } => Edit::Move {
            from: *to,
            to: *from,
        },
        Edit::Remove { at } => put_back(*at, step_at(ops, *at)),
        Edit::Insert { at, .. } => Edit::Remove { at: *at },
        Edit::Reweigh { at, kg } => weigh_back(*at, *kg, step_at(ops, *at)),
    }
}

/// Puts equal steps into an empty list that has room for them.
pub fn copy_into(list: &mut Vec<Op>, ops: &[Op])
    requires empty { list.old.items ≡ [] }
    requires room { length ops.now ≤ vec_capacity list.old }
    ensures list { list.new.items ≡ ops.now }
    ensures room { vec_capacity list.old ≤ vec_capacity list.new }
{
    for op in ops {
        let Ok(()) = list.push(op.copy()) else {
            unreachable!()
        };
    }
}

/// An equal list, allocated once, with room for one step more; out of memory is the only error.
pub fn copies(alloc: Global, ops: &[Op]) -> Result<Vec<Op>, AllocError>
    ensures list { IfOk result (λ v. v.items ≡ ops.now) }
    ensures room { IfOk result (λ v. length v.items < vec_capacity v) }
{
    let mut copy = Vec::with_capacity(alloc, ops.len() + 1)?;
    copy_into(&mut copy, ops);
    Ok(copy)
}

/// The place of the step of a number, the first place being 0.
fn place_of(number: u32) -> usize
    requires { 1 ≤ number }
    ensures value { result ≡ place_of number }
    ensures below { result + 1 ≡ number }
{
    number as usize - 1
}

/// Takes a step out of one place, and puts it in again at another.
fn move_step(ops: &mut Vec<Op>, i: usize, j: usize)
    requires from { i < length ops.old.items }
    requires to { j < length ops.old.items }
    ensures { ops.new.items ≡ moved_to ops.old.items (slice_get ops.old.items i) i j }
{
    let op = ops.remove(i);
    let Ok(()) = ops.insert(j, op) else {
        unreachable!()
    };
}

/// Does an edit in place. There is room for a step that is inserted.
fn perform(ops: &mut Vec<Op>, edit: &Edit)
    requires can { CanBeDone ops.old.items edit.now }
    requires room { length ops.old.items < vec_capacity ops.old }
    ensures { ops.new.items ≡ edited ops.old.items edit.now }
{
    match edit {
        Edit::Swap { a, b } => ops.swap(place_of(*a), place_of(*b)),
        Edit::Move { from, to } => move_step(ops, place_of(*from), place_of(*to)),
        Edit::Remove { at } => {
            let _ = ops.remove(place_of(*at));
        }
        Edit::Insert { at, lift } => {
            let Ok(()) = ops.insert(place_of(*at), lift.copy()) else {
                unreachable!()
            };
        }
        Edit::Reweigh { at, kg } => {
            let place = place_of(*at);
            ops[place] = ops[place].with_weight(*kg);
        }
    }
}

/// The list after an edit that can be done ([`fault_of`] answers `None`). It is allocated once; out
/// of memory is the only error.
pub fn edit_list(alloc: Global, ops: &[Op], edit: &Edit) -> Result<Vec<Op>, AllocError>
    requires { edit_fault ops.now edit.now ≡ None }
    ensures { IfOk result (λ v. v.items ≡ edited ops.now edit.now) }
{
    let mut copy = copies(alloc, ops)?;
    perform(&mut copy, edit);
    Ok(copy)
}
