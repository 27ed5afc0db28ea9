use super::orders::short;
use crate::checks::same;
use lift_sequence::{Op, ops};
use std::alloc::Global;
use std::test::Fail;
use stow_messages::{Item, Lift, StepRow};
use units_core::{Cell, Kg};

fn cell(text: &str) -> Result<Cell, Fail> {
    Ok(Cell::read(text.as_bytes()).ok_or("a cell")?)
}

fn item(place: &str, name: &str, kg: u32) -> Result<Item, Fail> {
    Ok(Item {
        cell: cell(place)?,
        id: short(name),
        kg: Kg::new(kg).ok_or("a mass")?,
    })
}

fn fill(name: &str, kg: u32) -> Op {
    Op::Fill {
        name: short(name),
        kg,
    }
}

fn two_lifts(alloc: Global) -> Result<Vec<Lift>, Fail> {
    let mut lifts = Vec::new(alloc);
    lifts.push(Lift::Load(item("0030082", "A", 1)?))?;
    lifts.push(Lift::Load(item("0050082", "B", 2)?))?;
    Ok(lifts)
}

fn two_rows(alloc: Global) -> Result<Vec<StepRow>, Fail> {
    let mut rows = Vec::new(alloc);
    rows.push(StepRow::Lift(2))?;
    rows.push(StepRow::Tank {
        name: short("DB1"),
        kg: 5,
    })?;
    Ok(rows)
}

#[test]
fn steps_of_rows(rt: HostRuntime) -> Result<(), Fail> {
    let rows = two_rows(rt.alloc())?;
    let orders = ops(rt.alloc(), two_lifts(rt.alloc())?, Some(rows))?;
    assert_eq!(rt; orders.len(), 2);
    let second = item("0050082", "B", 2)?;
    same(&rt, &orders[0], &Op::Lift(Lift::Load(second)));
    same(&rt, &orders[1], &fill("DB1", 5));
    Ok(())
}

#[test]
fn steps_of_lifts(rt: HostRuntime) -> Result<(), Fail> {
    let orders = ops(rt.alloc(), two_lifts(rt.alloc())?, None)?;
    assert_eq!(rt; orders.len(), 2);
    let first = item("0030082", "A", 1)?;
    same(&rt, &orders[0], &Op::Lift(Lift::Load(first)));
    Ok(())
}

#[test]
fn steps_are_copied(rt: HostRuntime) -> Result<(), Fail> {
    let filled = fill("DB1", 5);
    same(&rt, &filled.copy(), &filled);
    let restowed = Op::Restow {
        from: cell("0030082")?,
        to: cell("0050082")?,
        id: short("A"),
    };
    same(&rt, &restowed.copy(), &restowed);
    Ok(())
}
