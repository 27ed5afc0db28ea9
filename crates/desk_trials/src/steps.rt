//! Steps of the box ship, and lists of them.
use arrayvec::ArrayVec;
use lift_sequence::Op;
use std::alloc::{AllocError, Global};
use stow_messages::{Item, Lift};
use units_core::{Cell, Kg};

/// Four of her cells.
pub const FORWARD: Cell = Cell {
    bay: 1,
    row: 0,
    tier: 82,
};

pub const AMIDSHIPS: Cell = Cell {
    bay: 3,
    row: 0,
    tier: 82,
};

pub const STARBOARD: Cell = Cell {
    bay: 3,
    row: 7,
    tier: 82,
};

pub const AFT: Cell = Cell {
    bay: 5,
    row: 0,
    tier: 82,
};

/// This mass in kg, or the greatest that a container has.
pub fn mass(kg: u32) -> Kg {
    let Some(mass) = Kg::new(kg.min(Kg::MAX)) else {
        unreachable!()
    };
    mass
}

/// A container comes aboard.
pub fn load(cell: Cell, kg: u32) -> Op {
    Op::Lift(Lift::Load(Item {
        cell,
        id: ArrayVec::new(),
        kg: mass(kg),
    }))
}

/// A container goes ashore.
pub fn discharge(cell: Cell) -> Op {
    Op::Lift(Lift::Discharge {
        cell,
        id: ArrayVec::new(),
    })
}

/// The tank amidships is filled.
pub fn filling(kg: u32) -> Op {
    let mut name = ArrayVec::new();
    let _ = name.try_extend_from_slice(b"DB1".as_slice());
    Op::Fill { name, kg }
}

/// A container is put into another cell.
pub fn restow(from: Cell, to: Cell) -> Op {
    Op::Restow {
        from,
        to,
        id: ArrayVec::new(),
    }
}

/// Two containers that stay aboard, of which the first has this weight.
pub fn two_loads(alloc: Global, kg: u32) -> Result<Vec<Op>, AllocError> {
    let mut list = Vec::new(alloc);
    list.push(load(FORWARD, kg))?;
    list.push(load(STARBOARD, 20_500))?;
    Ok(list)
}

/// A list of this number of steps, which is even: a container comes aboard and stays there, the
/// tank is filled, and other containers, each of another weight, come aboard amidships and go
/// ashore in turn.
pub fn turns(alloc: Global, steps: u32) -> Result<Vec<Op>, AllocError> {
    let mut list = Vec::new(alloc);
    list.push(load(FORWARD, 20_500))?;
    list.push(filling(100_000))?;
    for turn in 1..steps / 2 {
        list.push(load(AMIDSHIPS, turn))?;
        list.push(discharge(AMIDSHIPS))?;
    }
    Ok(list)
}
