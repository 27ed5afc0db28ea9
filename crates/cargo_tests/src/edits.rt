use crate::checks::same;
use crate::lifts::{mass, short};
use lift_sequence::{Op, SeqCode, SeqFault};
use std::alloc::{AllocError, Global};
use std::process::Abort;
use std::test::Fail;
use step_edits::{
    Edit, EditFault, copies, copy_into, edit_list, fault_of, inverse, inverse_takes_back,
};
use stow_messages::{Item, Lift};
use units_core::Cell;

/// The step of a code: from 1,000 on the load of a container whose mass in kg is the code, below
/// that the filling of a tank with that mass.
fn step(code: u32) -> Op {
    if code < 1_000 {
        return Op::Fill {
            name: short("DB1"),
            kg: code,
        };
    }
    Op::Lift(Lift::Load(Item {
        cell: Cell {
            bay: 3,
            row: 7,
            tier: 82,
        },
        id: short("ABCU1234560"),
        kg: mass(code),
    }))
}

/// The code of a step; 0 for any other step.
fn code(op: &Op) -> u32 {
    match op {
        Op::Fill { kg, .. } => *kg,
        Op::Lift(Lift::Load(item)) => item.kg.get(),
        _ => 0,
    }
}

/// The steps of codes.
fn steps(alloc: Global, codes: &[u32]) -> Result<Vec<Op>, AllocError> {
    let mut ops = Vec::new(alloc);
    for code in codes {
        ops.push(step(*code))?;
    }
    Ok(ops)
}

/// The codes of steps.
fn codes(alloc: Global, ops: &[Op]) -> Result<Vec<u32>, AllocError> {
    let mut codes = Vec::new(alloc);
    for op in ops {
        codes.push(code(op))?;
    }
    Ok(codes)
}

/// An edit, as the tables write it.
#[derive(Clone, Copy)]
enum Change {
    Swap(u32, u32),
    Move(u32, u32),
    Remove(u32),
    /// At a number, the step of a code.
    Insert(u32, u32),
    Reweigh(u32, u32),
}

/// The edit of a change.
fn edit(change: Change) -> Edit {
    match change {
        Change::Swap(a, b) => Edit::Swap { a, b },
        Change::Move(from, to) => Edit::Move { from, to },
        Change::Remove(at) => Edit::Remove { at },
        Change::Insert(at, code) => Edit::Insert {
            at,
            lift: step(code),
        },
        Change::Reweigh(at, kg) => Edit::Reweigh { at, kg: mass(kg) },
    }
}

/// Three fillings, and two loads at the numbers 3 and 5.
static LIST: [u32; 5] = [10, 20, 3_000, 40, 5_000];

/// Edits of the list, the lists after them, and the edits that take them back.
static DONE: [(Change, &[u32], Change); 12] = [
    (
        Change::Swap(1, 5),
        &[5_000, 20, 3_000, 40, 10],
        Change::Swap(1, 5),
    ),
    (
        Change::Swap(2, 2),
        &[10, 20, 3_000, 40, 5_000],
        Change::Swap(2, 2),
    ),
    (
        Change::Move(1, 5),
        &[20, 3_000, 40, 5_000, 10],
        Change::Move(5, 1),
    ),
    (
        Change::Move(4, 2),
        &[10, 40, 20, 3_000, 5_000],
        Change::Move(2, 4),
    ),
    (
        Change::Move(3, 3),
        &[10, 20, 3_000, 40, 5_000],
        Change::Move(3, 3),
    ),
    (
        Change::Remove(1),
        &[20, 3_000, 40, 5_000],
        Change::Insert(1, 10),
    ),
    (
        Change::Remove(5),
        &[10, 20, 3_000, 40],
        Change::Insert(5, 5_000),
    ),
    (
        Change::Insert(1, 60),
        &[60, 10, 20, 3_000, 40, 5_000],
        Change::Remove(1),
    ),
    (
        Change::Insert(5, 60),
        &[10, 20, 3_000, 40, 60, 5_000],
        Change::Remove(5),
    ),
    (
        Change::Insert(6, 7_000),
        &[10, 20, 3_000, 40, 5_000, 7_000],
        Change::Remove(6),
    ),
    (
        Change::Reweigh(3, 7_000),
        &[10, 20, 7_000, 40, 5_000],
        Change::Reweigh(3, 3_000),
    ),
    (
        Change::Reweigh(5, 8_000),
        &[10, 20, 3_000, 40, 8_000],
        Change::Reweigh(5, 5_000),
    ),
];

/// The list after an edit, or why it can't be done.
fn list_after(alloc: Global, ops: &[Op], edit: &Edit) -> Result<Vec<Op>, EditFault> {
    if let Some(fault) = fault_of(ops, edit) {
        return Err(fault);
    }
    match edit_list(alloc, ops, edit) {
        Ok(after) => Ok(after),
        Err(_) => Err(EditFault::NoMemory),
    }
}

/// The edit gives the list, and the other one takes it back.
fn check_done(
    rt: &(impl Abort + AllocGlobal),
    change: Change,
    want: &[u32],
    back: Change,
) -> Result<(), Fail> {
    let ops = steps(rt.alloc(), &LIST)?;
    let edit_of_list = edit(change);
    let after = list_after(rt.alloc(), &ops, &edit_of_list)?;
    let after_codes = codes(rt.alloc(), &after)?;
    same(rt, after_codes.as_slice(), want);
    let taken_back = inverse(&ops, &edit_of_list);
    same(rt, &taken_back, &edit(back));
    let before = list_after(rt.alloc(), &after, &taken_back)?;
    let before_codes = codes(rt.alloc(), &before)?;
    same(rt, before_codes.as_slice(), LIST.as_slice());
    Ok(())
}

#[test]
fn edits_and_inverses(rt: HostRuntime) -> Result<(), Fail> {
    for (change, want, back) in &DONE {
        check_done(&rt, *change, *want, *back)?;
    }
    Ok(())
}

/// Edits that can't be done, with their faults: the number 0, the number behind the last, and a
/// step that is no load.
static REFUSED: [(Change, EditFault); 16] = [
    (Change::Swap(0, 1), EditFault::NoStep),
    (Change::Swap(1, 0), EditFault::NoStep),
    (Change::Swap(6, 1), EditFault::NoStep),
    (Change::Swap(1, 6), EditFault::NoStep),
    (Change::Move(0, 1), EditFault::NoStep),
    (Change::Move(1, 0), EditFault::NoStep),
    (Change::Move(6, 1), EditFault::NoStep),
    (Change::Move(1, 6), EditFault::NoStep),
    (Change::Remove(0), EditFault::NoStep),
    (Change::Remove(6), EditFault::NoStep),
    (Change::Insert(0, 60), EditFault::NoStep),
    (Change::Insert(7, 60), EditFault::NoStep),
    (Change::Reweigh(0, 7_000), EditFault::NoStep),
    (Change::Reweigh(6, 7_000), EditFault::NoStep),
    (Change::Reweigh(1, 7_000), EditFault::NotLoad),
    (Change::Reweigh(4, 7_000), EditFault::NotLoad),
];

#[test]
fn edits_that_cannot_be(rt: HostRuntime) -> Result<(), Fail> {
    let ops = steps(rt.alloc(), &LIST)?;
    for (change, fault) in &REFUSED {
        let answer = fault_of(&ops, &edit(*change));
        same(&rt, answer, Some(*fault));
    }
    Ok(())
}

#[test]
fn steps_are_copied(rt: HostRuntime) -> Result<(), Fail> {
    let ops = steps(rt.alloc(), &LIST)?;
    let copy = copies(rt.alloc(), &ops)?;
    let copied_codes = codes(rt.alloc(), &copy)?;
    same(&rt, copied_codes.as_slice(), LIST.as_slice());
    Ok(())
}

#[test]
fn steps_are_copied_into_room(rt: HostRuntime) -> Result<(), Fail> {
    let ops = steps(rt.alloc(), &LIST)?;
    let mut list = Vec::with_capacity(rt.alloc(), ops.len())?;
    copy_into(&mut list, &ops);
    let copied_codes = codes(rt.alloc(), &list)?;
    same(&rt, copied_codes.as_slice(), LIST.as_slice());
    Ok(())
}

/// Every code as it is printed.
static CODES: [(EditFault, &str); 4] = [
    (EditFault::NoStep, "X1"),
    (EditFault::NotLoad, "X2"),
    (
        EditFault::Sequence(SeqFault {
            code: SeqCode::CellTaken,
            at: 3,
        }),
        "X3",
    ),
    (EditFault::NoMemory, "X4"),
];

#[test]
fn codes_in_print(rt: HostRuntime) -> Result<(), Fail> {
    for (fault, text) in &CODES {
        let shown = format!(in rt.alloc(); "{fault}")?;
        same(&rt, shown.as_str(), *text);
    }
    Ok(())
}

#[test]
fn laws() {
    inverse_takes_back();
}
