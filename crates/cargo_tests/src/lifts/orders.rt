//! Items and steps, as the tables of the tests write them.
use arrayvec::ArrayVec;
use lift_sequence::{Op, SeqCode, SeqFault};
use std::alloc::{AllocError, Global};
use stow_messages::{Item, Lift};
use units_core::{Cell, Kg};

/// The mass of each container, in kg.
pub const CONTAINER_KG: u32 = 20_500;

/// The identification of each container.
pub const ABCU: &str = "ABCU1234560";

/// Another identification.
pub const XYZU: &str = "XYZU7654320";

/// Out of memory.
pub const NO_MEMORY: SeqFault = SeqFault {
    code: SeqCode::NoMemory,
    at: 0,
};

/// A step.
#[derive(Clone, Copy)]
pub enum Order {
    /// A container comes into a cell.
    Load(Cell),
    /// A container of another identification does.
    Loaded(Cell, &'static str),
    /// A load of a container of this mass, in kg.
    Weighing(Cell, u32),
    /// The container of an identification goes ashore from a cell.
    Discharge(Cell, &'static str),
    /// A tank holds this mass, in kg.
    Fill(&'static str, u32),
    /// The container in the first cell goes into the second.
    Restow(Cell, Cell),
}

/// A text of at most `MOST` bytes.
pub fn short<const MOST: usize>(text: &str) -> ArrayVec<u8, MOST> {
    let mut bytes = ArrayVec::new();
    let _ = bytes.try_extend_from_slice(text.as_bytes());
    bytes
}

/// So many kg, or the greatest mass of a container.
pub fn mass(kg: u32) -> Kg {
    Kg::new(kg.min(Kg::MAX)).unwrap()
}

/// A container in a cell.
fn item(cell: Cell, id: &str, kg: u32) -> Item {
    Item {
        cell,
        id: short(id),
        kg: mass(kg),
    }
}

/// A container in each of these cells.
pub fn items(alloc: Global, cells: &[Cell]) -> Result<Vec<Item>, AllocError> {
    let mut items = Vec::new(alloc);
    for cell in cells {
        items.push(item(*cell, ABCU, CONTAINER_KG))?;
    }
    Ok(items)
}

/// The step of an order.
pub fn op(order: &Order) -> Op {
    match order {
        Order::Load(cell) => Op::Lift(Lift::Load(item(*cell, ABCU, CONTAINER_KG))),
        Order::Loaded(cell, id) => Op::Lift(Lift::Load(item(*cell, id, CONTAINER_KG))),
        Order::Weighing(cell, kg) => Op::Lift(Lift::Load(item(*cell, ABCU, *kg))),
        Order::Discharge(cell, id) => Op::Lift(Lift::Discharge {
            cell: *cell,
            id: short(id),
        }),
        Order::Fill(name, kg) => Op::Fill {
            name: short(name),
            kg: *kg,
        },
        Order::Restow(from, to) => Op::Restow {
            from: *from,
            to: *to,
            id: short(ABCU),
        },
    }
}

/// The steps of orders.
pub fn ops(alloc: Global, orders: &[Order]) -> Result<Vec<Op>, AllocError> {
    let mut ops = Vec::new(alloc);
    for order in orders {
        ops.push(op(order))?;
    }
    Ok(ops)
}
