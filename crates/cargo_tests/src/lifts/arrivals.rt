//! What is aboard on arrival, and the first item or fill that can't be.
use super::orders::{CONTAINER_KG, items};
use super::ships::{ASHORE, FORE, LONG, MIDDLE};
use crate::checks::same;
use box_ship::{Check, on_box_ship};
use lift_sequence::{Arrival, SeqCode, SeqFault};
use ship_profile::{Profile, TankFill};
use std::alloc::{AllocError, Global};
use std::process::Abort;
use std::test::Fail;
use units_core::{Body, Cell};

/// The masses of bodies in kg.
pub fn masses(alloc: Global, bodies: &[Body]) -> Result<Vec<u32>, AllocError> {
    let mut masses = Vec::new(alloc);
    for body in bodies {
        masses.push(body.kg())?;
    }
    Ok(masses)
}

/// The fault of an arrival with a container in each of these cells and this mass in the tank.
fn fault_of_arrival(
    alloc: Global,
    profile: &Profile,
    cells: &[Cell],
    kg: u32,
) -> Result<Option<SeqFault>, AllocError> {
    let items = items(alloc, cells)?;
    Ok(Arrival::new(alloc, profile, items, &[TankFill { tank: 0, kg }]).err())
}

/// The masses of what is aboard on arrival with a container in each of these cells and this mass in
/// the tank.
fn masses_on_arrival(
    alloc: Global,
    profile: &Profile,
    cells: &[Cell],
    kg: u32,
) -> Result<Vec<u32>, Fail> {
    let items = items(alloc, cells)?;
    // `?` is longer to prove
    match Arrival::new(alloc, profile, items, &[TankFill { tank: 0, kg }]) {
        Ok(arrival) => Ok(masses(alloc, arrival.bodies())?),
        Err(fault) => Err(fault)?,
    }
}

/// Cells that are taken on arrival, and the fault.
struct Case {
    cells: &'static [Cell],
    kg: u32,
    fault: Option<SeqFault>,
}

static CASES: [Case; 6] = [
    Case {
        cells: &[ASHORE],
        kg: 0,
        fault: Some(SeqFault {
            code: SeqCode::UnknownCell,
            at: 1,
        }),
    },
    Case {
        cells: &[MIDDLE, FORE, MIDDLE],
        kg: 0,
        fault: Some(SeqFault {
            code: SeqCode::CellTaken,
            at: 3,
        }),
    },
    Case {
        cells: &[FORE, LONG],
        kg: 0,
        fault: Some(SeqFault {
            code: SeqCode::Overlap(FORE),
            at: 2,
        }),
    },
    // the items come before the fills
    Case {
        cells: &[ASHORE],
        kg: 500_001,
        fault: Some(SeqFault {
            code: SeqCode::UnknownCell,
            at: 1,
        }),
    },
    Case {
        cells: &[FORE, MIDDLE],
        kg: 500_001,
        fault: Some(SeqFault {
            code: SeqCode::TankOver,
            at: 1,
        }),
    },
    Case {
        cells: &[FORE, MIDDLE],
        kg: 500_000,
        fault: None,
    },
];

/// Cases, each of which has its fault.
#[derive(Clone, Copy)]
struct Cases(&'static [Case]);

impl<R: Abort + AllocGlobal> Check<R> for Cases {
    fn check(&self, rt: &R, profile: &Profile) -> Result<(), Fail> {
        check_cases(rt, profile, self.0)
    }
}

/// Each case has its fault.
fn check_cases(
    rt: &(impl Abort + AllocGlobal),
    profile: &Profile,
    cases: &[Case],
) -> Result<(), Fail> {
    for case in cases {
        let fault = fault_of_arrival(rt.alloc(), profile, case.cells, case.kg)?;
        same(rt, fault, case.fault);
    }
    Ok(())
}

#[test]
fn arrival_faults(rt: HostRuntime) -> Result<(), Fail> {
    on_box_ship(&rt, &Cases(&CASES))
}

/// What is aboard with the tank full: the light ship, the tank, a container.
static FULL: [u32; 3] = [8_200_000, 500_000, CONTAINER_KG];

/// An arrival with the tank full.
#[derive(Clone, Copy)]
struct Full;

impl<R: Abort + AllocGlobal> Check<R> for Full {
    fn check(&self, rt: &R, profile: &Profile) -> Result<(), Fail> {
        check_full(rt, profile)
    }
}

/// What is aboard with the tank full has its masses.
fn check_full(rt: &(impl Abort + AllocGlobal), profile: &Profile) -> Result<(), Fail> {
    let full = masses_on_arrival(rt.alloc(), profile, &[MIDDLE], 500_000)?;
    same(rt, full.as_slice(), FULL.as_slice());
    Ok(())
}

#[test]
fn tank_fill(rt: HostRuntime) -> Result<(), Fail> {
    on_box_ship(&rt, &Full)
}
