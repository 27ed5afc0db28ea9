//! A step that comes in, and goes away again.
ghost use Rattle.lift_sequence.specs.Sequence.{IsOf};

use super::exchanging::{check_same, sequence};
use super::orders::{ABCU, NO_MEMORY, Order, items, op};
use super::ships::{AFT, BESIDE, FORE, LONG, MIDDLE};
use crate::checks::same;
use box_ship::{Check, on_box_ship};
use lift_sequence::{Arrival, SeqFault, Sequence};
use ship_profile::Profile;
use std::alloc::{AllocError, Global};
use std::process::Abort;
use std::test::Fail;
use units_core::Cell;

/// The cells that are taken on arrival, the orders, another one and the number that it is to have,
/// whether it comes in, and the orders then.
struct Case {
    aboard: &'static [Cell],
    orders: &'static [Order],
    number: usize,
    order: Order,
    did: bool,
    want: &'static [Order],
}

/// Cases, each of which has its answer.
#[derive(Clone, Copy)]
struct Cases(&'static [Case]);

/// Puts a step in at a number; nothing where there is no such place.
fn put_in(
    alloc: Global,
    profile: &Profile,
    arrival: &Arrival,
    sequence: &mut Sequence,
    case: &Case,
) -> Result<bool, AllocError> {
    if case.number == 0 || sequence.len() < case.number - 1 {
        return Ok(false);
    }
    sequence.put_in(alloc, profile, arrival, case.number, &op(&case.order))
}

/// Takes the step of a number out; nothing where there is none.
fn take_out(sequence: &mut Sequence, number: usize) -> bool {
    if number == 0 || sequence.len() < number {
        return false;
    }
    sequence.take_out(number)
}

/// The step comes in as a case says, and where it does, it goes away again.
fn check_from(
    rt: &(impl Abort + AllocGlobal),
    profile: &Profile,
    arrival: &Arrival,
    case: &Case,
) -> Result<(), SeqFault>
    requires { IsOf profile.now arrival.now }
{
    let alloc = rt.alloc();
    let wanted = sequence(alloc, profile, arrival, case.want)?;
    let before = sequence(alloc, profile, arrival, case.orders)?;
    let mut changed = sequence(alloc, profile, arrival, case.orders)?;
    same(
        rt,
        put_in(alloc, profile, arrival, &mut changed, case),
        Ok(case.did),
    );
    check_same(rt, &changed, &wanted);
    if case.did {
        same(rt, take_out(&mut changed, case.number), true);
        check_same(rt, &changed, &before);
    }
    Ok(())
}

/// A case has its answer.
fn check_case(
    rt: &(impl Abort + AllocGlobal),
    profile: &Profile,
    case: &Case,
) -> Result<(), SeqFault> {
    let Ok(items) = items(rt.alloc(), case.aboard) else {
        return Err(NO_MEMORY);
    };
    // `?` is longer to prove
    match Arrival::new(rt.alloc(), profile, items, &[]) {
        Ok(arrival) => check_from(rt, profile, &arrival, case),
        Err(fault) => Err(fault),
    }
}

impl<R: Abort + AllocGlobal> Check<R> for Cases {
    fn check(&self, rt: &R, profile: &Profile) -> Result<(), Fail> {
        for case in self.0 {
            same(rt, check_case(rt, profile, case), Ok(()));
        }
        Ok(())
    }
}

static COMING: [Case; 4] = [
    // a filling between two of its tank: the one behind takes out what this puts in
    Case {
        aboard: &[],
        orders: &[
            Order::Fill("DB1", 500_000),
            Order::Weighing(FORE, 11_000),
            Order::Fill("DB1", 300_000),
        ],
        number: 2,
        order: Order::Fill("DB1", 200_000),
        did: true,
        want: &[
            Order::Fill("DB1", 500_000),
            Order::Fill("DB1", 200_000),
            Order::Weighing(FORE, 11_000),
            Order::Fill("DB1", 300_000),
        ],
    },
    // a load before steps elsewhere, into a cell that was left before
    Case {
        aboard: &[AFT],
        orders: &[Order::Discharge(AFT, ABCU), Order::Weighing(FORE, 11_000)],
        number: 2,
        order: Order::Weighing(AFT, 7_300),
        did: true,
        want: &[
            Order::Discharge(AFT, ABCU),
            Order::Weighing(AFT, 7_300),
            Order::Weighing(FORE, 11_000),
        ],
    },
    // a restow of what was loaded before, behind all others
    Case {
        aboard: &[],
        orders: &[
            Order::Weighing(FORE, 11_000),
            Order::Weighing(MIDDLE, 7_300),
        ],
        number: 3,
        order: Order::Restow(FORE, AFT),
        did: true,
        want: &[
            Order::Weighing(FORE, 11_000),
            Order::Weighing(MIDDLE, 7_300),
            Order::Restow(FORE, AFT),
        ],
    },
    // a discharge of what is aboard on arrival, before all others
    Case {
        aboard: &[MIDDLE, BESIDE],
        orders: &[Order::Discharge(MIDDLE, ABCU), Order::Weighing(AFT, 5_100)],
        number: 1,
        order: Order::Discharge(BESIDE, ABCU),
        did: true,
        want: &[
            Order::Discharge(BESIDE, ABCU),
            Order::Discharge(MIDDLE, ABCU),
            Order::Weighing(AFT, 5_100),
        ],
    },
];

#[test]
fn step_comes_in(rt: HostRuntime) -> Result<(), Fail> {
    on_box_ship(&rt, &Cases(&COMING))
}

static STAYING: [Case; 4] = [
    // a load into a cell that is taken then
    Case {
        aboard: &[],
        orders: &[Order::Weighing(FORE, 11_000), Order::Weighing(AFT, 5_100)],
        number: 2,
        order: Order::Weighing(FORE, 7_300),
        did: false,
        want: &[Order::Weighing(FORE, 11_000), Order::Weighing(AFT, 5_100)],
    },
    // a container of 40 feet over one that is restowed there before
    Case {
        aboard: &[AFT],
        orders: &[Order::Restow(AFT, MIDDLE)],
        number: 2,
        order: Order::Weighing(LONG, 24_100),
        did: false,
        want: &[Order::Restow(AFT, MIDDLE)],
    },
    // a container of 40 feet before a step that loads into a cell which it overlaps
    Case {
        aboard: &[FORE],
        orders: &[Order::Restow(FORE, BESIDE), Order::Weighing(FORE, 11_000)],
        number: 2,
        order: Order::Weighing(LONG, 24_100),
        did: false,
        want: &[Order::Restow(FORE, BESIDE), Order::Weighing(FORE, 11_000)],
    },
    // a filling of a tank that the ship hasn't
    Case {
        aboard: &[],
        orders: &[Order::Weighing(FORE, 11_000)],
        number: 1,
        order: Order::Fill("DB9", 200_000),
        did: false,
        want: &[Order::Weighing(FORE, 11_000)],
    },
];

#[test]
fn step_stays_out(rt: HostRuntime) -> Result<(), Fail> {
    on_box_ship(&rt, &Cases(&STAYING))
}

/// A load goes away unless a step behind it depends on it, and a filling does in any case.
fn check_going(
    rt: &(impl Abort + AllocGlobal),
    profile: &Profile,
    arrival: &Arrival,
) -> Result<(), SeqFault>
    requires { IsOf profile.now arrival.now }
{
    let wanted = sequence(rt.alloc(), profile, arrival, &LEFT)?;
    let mut changed = sequence(rt.alloc(), profile, arrival, &GOING)?;
    same(rt, take_out(&mut changed, 1), false);
    same(rt, take_out(&mut changed, 3), true);
    same(rt, take_out(&mut changed, 2), true);
    check_same(rt, &changed, &wanted);
    Ok(())
}

static GOING: [Order; 5] = [
    Order::Weighing(FORE, 11_000),
    Order::Weighing(AFT, 7_300),
    Order::Fill("DB1", 500_000),
    Order::Restow(FORE, BESIDE),
    Order::Fill("DB1", 300_000),
];

static LEFT: [Order; 3] = [
    Order::Weighing(FORE, 11_000),
    Order::Restow(FORE, BESIDE),
    Order::Fill("DB1", 300_000),
];

/// Steps that go away.
#[derive(Clone, Copy)]
struct Going;

impl<R: Abort + AllocGlobal> Check<R> for Going {
    fn check(&self, rt: &R, profile: &Profile) -> Result<(), Fail> {
        // `?` is longer to prove
        match Arrival::new(rt.alloc(), profile, Vec::new(rt.alloc()), &[]) {
            Ok(arrival) => {
                same(rt, check_going(rt, profile, &arrival), Ok(()));
                Ok(())
            }
            Err(fault) => Err(fault)?,
        }
    }
}

#[test]
fn step_goes_away(rt: HostRuntime) -> Result<(), Fail> {
    on_box_ship(&rt, &Going)
}
