//! Who stands where.
use crate::checks::{holds, same};
use arrayvec::ArrayVec;
use lift_sequence::Op;
use std::test::Fail;
use stow_messages::{Item, Lift};
use units_core::{Cell, Kg};
use view_inputs::{CellRow, NOBODY, arrive, do_step, item_of};
use view_quotes::stands;

/// A cell amidships, in this tier.
fn in_tier(tier: u8) -> Cell {
    Cell {
        bay: 3,
        row: 0,
        tier,
    }
}

/// An identification.
fn name(text: &[u8]) -> ArrayVec<u8, 17> {
    let mut id = ArrayVec::new();
    let _ = id.try_extend_from_slice(text);
    id
}

/// A container of a tonne.
fn item(id: &[u8], cell: Cell) -> Result<Item, Fail> {
    let Some(kg) = Kg::new(1_000) else {
        return Err(Fail::from("no mass"));
    };
    Ok(Item {
        id: name(id),
        cell,
        kg,
    })
}

/// A place in the ship that is of no account here.
fn row(cell: Cell) -> CellRow {
    CellRow {
        cell,
        x: 0,
        y: 0,
        z: 0,
        half: 0,
        record: 0,
    }
}

/// The first container is restowed on top of the second, whose cell it then stands above.
#[test]
fn aboard_step_by_step(rt: HostRuntime) -> Result<(), Fail> {
    let alloc = rt.alloc();
    let (low, middle, high) = (in_tier(82), in_tier(84), in_tier(86));
    let rows = [row(high), row(low), row(middle)];
    let items = [item(b"FIRST", low)?];
    let ops = [
        Op::Lift(Lift::Load(item(b"SECOND", middle)?)),
        Op::Lift(Lift::Discharge {
            cell: low,
            id: name(b"FIRST"),
        }),
        Op::Restow {
            from: middle,
            to: low,
            id: name(b""),
        },
    ];
    let mut cargo = arrive(alloc, &rows, &items)?;
    same(&rt, cargo.berths().len(), 3);
    let places = [cargo.place(low), cargo.place(middle), cargo.place(high)];
    same(&rt, places, [Some(0), Some(1), Some(2)]);
    holds(&rt, cargo.above(0).is_none());
    holds(&rt, !cargo.hangs_over(1) && cargo.hangs_over(2));
    same(&rt, do_step(&mut cargo, &items, &ops[0], 1), 1);
    holds(&rt, cargo.above(0) == Some(middle));
    same(&rt, do_step(&mut cargo, &items, &ops[1], 2), 0);
    holds(&rt, cargo.hangs_over(1));
    same(&rt, do_step(&mut cargo, &items, &ops[2], 3), 1);
    let Some(berth) = cargo.berth(low) else {
        panic!(&rt; "there is no such cell")
    };
    holds(&rt, berth.who == 1 && berth.since == 3);
    holds(&rt, berth.taken == 0 && berth.taken_at == 2);
    holds(&rt, cargo.take(high, 4) == NOBODY);
    let Some(second) = item_of(&items, &ops, 1) else {
        panic!(&rt; "there is no such container")
    };
    same(&rt, second.id.as_slice(), b"SECOND".as_slice());
    let Some(standing) = stands(&items, &ops, low) else {
        panic!(&rt; "nobody stands there")
    };
    same(&rt, standing.item.id.as_slice(), b"SECOND".as_slice());
    same(&rt, standing.since, 3);
    holds(&rt, stands(&items, &ops, middle).is_none());
    Ok(())
}
