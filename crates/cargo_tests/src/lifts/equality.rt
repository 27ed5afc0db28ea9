//! Which conditions on arrival are equal.
use super::orders::{ABCU, NO_MEMORY, XYZU, short};
use super::ships::{AFT, BESIDE, FORE, MIDDLE};
use crate::checks::{holds, holds_row};
use box_ship::{Check, LIMITS, files, on_box_ship};
use lift_sequence::{Arrival, SeqFault};
use ship_profile::{Profile, ProfileBytes, TankFill};
use std::alloc::{AllocError, Global};
use std::fmt::Debug;
use std::process::Abort;
use std::test::Fail;
use stow_messages::Item;
use units_core::{Cell, Kg};

/// A condition: containers of this identification and mass in these cells, and this mass in the
/// tank.
#[derive(Clone, Copy)]
struct Condition {
    name: &'static str,
    cells: &'static [Cell],
    id: &'static str,
    kg: u32,
    fill: u32,
}

/// The plain condition, with which others are compared.
static PLAIN: Condition = Condition {
    name: "as it is",
    cells: &[FORE, MIDDLE],
    id: ABCU,
    kg: 20_500,
    fill: 300,
};

/// Conditions that differ from it in one thing.
static OTHERS: [Condition; 7] = [
    Condition {
        name: "another cell",
        cells: &[FORE, BESIDE],
        id: ABCU,
        kg: 20_500,
        fill: 300,
    },
    Condition {
        name: "another order",
        cells: &[MIDDLE, FORE],
        id: ABCU,
        kg: 20_500,
        fill: 300,
    },
    Condition {
        name: "a container more",
        cells: &[FORE, MIDDLE, AFT],
        id: ABCU,
        kg: 20_500,
        fill: 300,
    },
    Condition {
        name: "a container less",
        cells: &[FORE],
        id: ABCU,
        kg: 20_500,
        fill: 300,
    },
    Condition {
        name: "another identification",
        cells: &[FORE, MIDDLE],
        id: XYZU,
        kg: 20_500,
        fill: 300,
    },
    Condition {
        name: "another mass",
        cells: &[FORE, MIDDLE],
        id: ABCU,
        kg: 20_501,
        fill: 300,
    },
    Condition {
        name: "another filling",
        cells: &[FORE, MIDDLE],
        id: ABCU,
        kg: 20_500,
        fill: 301,
    },
];

/// The items of a condition.
fn items(alloc: Global, condition: &Condition) -> Result<Vec<Item>, AllocError> {
    let mut items = Vec::new(alloc);
    let Some(kg) = Kg::new(condition.kg) else {
        return Ok(items);
    };
    for cell in condition.cells {
        items.push(Item {
            cell: *cell,
            id: short(condition.id),
            kg,
        })?;
    }
    Ok(items)
}

/// What a look at what was made gives. What was made is of any type here, so that no proof has to
/// take an arrival apart.
fn lend<T: Drop, E: Debug + Drop, R, F: FnOnce(&T) -> R>(
    made: Result<T, E>,
    look: F,
) -> Result<R, Fail>
    requires { F.IsAlwaysCallable look }
{
    match made {
        Ok(value) => Ok(look(&value)),
        Err(fault) => Err(fault)?,
    }
}

/// The arrival of a ship in a condition.
fn arrival(alloc: Global, profile: &Profile, condition: &Condition) -> Result<Arrival, SeqFault> {
    let Ok(items) = items(alloc, condition) else {
        return Err(NO_MEMORY);
    };
    let fills = [TankFill {
        tank: 0,
        kg: condition.fill,
    }];
    Arrival::new(alloc, profile, items, &fills)
}

/// Whether an arrival is equal to that of a ship in a condition.
fn is_of(
    alloc: Global,
    made: &Arrival,
    profile: &Profile,
    condition: &Condition,
) -> Result<bool, Fail> {
    lend(arrival(alloc, profile, condition), |other: &Arrival| {
        made.same(other)
    })
}

/// Whether the arrival of a ship in the plain condition is equal to that of another ship in a
/// condition.
fn are_same(
    alloc: Global,
    profile: &Profile,
    other: &Profile,
    condition: &Condition,
) -> Result<bool, Fail> {
    lend(arrival(alloc, profile, &PLAIN), |made: &Arrival| {
        is_of(alloc, made, other, condition)
    })?
}

/// Compares the conditions on the box ship.
#[derive(Clone, Copy)]
struct OnOneShip;

impl<R: Abort + AllocGlobal> Check<R> for OnOneShip {
    fn check(&self, rt: &R, profile: &Profile) -> Result<(), Fail> {
        check_conditions(rt, profile)
    }
}

fn check_conditions(rt: &(impl Abort + AllocGlobal), profile: &Profile) -> Result<(), Fail> {
    holds(rt, are_same(rt.alloc(), profile, profile, &PLAIN)?);
    for condition in &OTHERS {
        let is_same = are_same(rt.alloc(), profile, profile, condition)?;
        holds_row(rt, condition.name, !is_same);
    }
    Ok(())
}

#[test]
fn equal_arrivals(rt: HostRuntime) -> Result<(), Fail> {
    on_box_ship(&rt, &OnOneShip)
}

/// Files with another `ship.toml`.
fn with_ship<'a>(files: ProfileBytes<'a>, ship: &'a [u8]) -> ProfileBytes<'a> {
    ProfileBytes { ship, ..files }
}

/// Whether the arrival of a ship in the plain condition is equal to that of the box ship with a
/// block of this mass.
fn is_same_with_block(alloc: Global, profile: &Profile, kg: u32) -> Result<bool, Fail> {
    let ship = format!(in alloc;
        "{LIMITS}[[blocks]]\nkg = {kg}\nx_mm = 50000\ny_mm = 0\nz_mm = 6000\nhalf_mm = 50000\n"
    )?;
    let bytes = with_ship(files(), ship.as_bytes());
    lend(Profile::read(alloc, &bytes), |other: &Profile| {
        are_same(alloc, profile, other, &PLAIN)
    })?
}

/// Compares the plain condition on the box ship and on a ship of another block.
#[derive(Clone, Copy)]
struct OnTwoShips;

impl<R: Abort + AllocGlobal> Check<R> for OnTwoShips {
    fn check(&self, rt: &R, profile: &Profile) -> Result<(), Fail> {
        check_blocks(rt, profile)
    }
}

fn check_blocks(rt: &(impl Abort + AllocGlobal), profile: &Profile) -> Result<(), Fail> {
    holds(rt, is_same_with_block(rt.alloc(), profile, 8_200_000)?);
    holds(rt, !is_same_with_block(rt.alloc(), profile, 8_200_001)?);
    Ok(())
}

#[test]
fn another_light_ship(rt: HostRuntime) -> Result<(), Fail> {
    on_box_ship(&rt, &OnTwoShips)
}
