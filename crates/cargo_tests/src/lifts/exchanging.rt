//! Two steps that are exchanged, and two that aren't.
ghost use Rattle.std.specs.Prelude.{◌≤◌, length};
ghost use Rattle.std.specs.Bool.{OnTrue};
ghost use Rattle.lift_sequence.specs.Sequence.{IsOf};

use super::orders::{ABCU, NO_MEMORY, Order, items, op, ops};
use super::reweighing::step;
use super::ships::{AFT, BESIDE, FORE, LONG, MIDDLE};
use crate::checks::same;
use box_ship::{Check, on_box_ship};
use lift_sequence::{Arrival, SeqFault, Sequence};
use ship_profile::Profile;
use std::alloc::Global;
use std::process::Abort;
use std::test::Fail;
use units_core::Cell;

/// The cells that are taken on arrival, the orders, two of them to be exchanged, whether they are,
/// and the orders then.
struct Case {
    aboard: &'static [Cell],
    orders: &'static [Order],
    pair: [usize; 2],
    did: bool,
    want: &'static [Order],
}

/// Cases, each of which has its answer.
#[derive(Clone, Copy)]
struct Cases(&'static [Case]);

/// The sequence of orders.
pub fn sequence(
    alloc: Global,
    profile: &Profile,
    arrival: &Arrival,
    orders: &[Order],
) -> Result<Sequence, SeqFault>
    requires { IsOf profile.now arrival.now }
{
    let Ok(ops) = ops(alloc, orders) else {
        return Err(NO_MEMORY);
    };
    Sequence::new(alloc, profile, arrival, ops)
}

/// Whether the sequence has steps of both numbers.
pub fn has_both(sequence: &Sequence, a: usize, b: usize) -> bool
    ensures first { OnTrue result ((1 ≤ a) × (1 ≤ b)) }
    ensures last { OnTrue result ((a ≤ length sequence.now.ops) × (b ≤ length sequence.now.ops)) }
{
    if a == 0 || b == 0 {
        return false;
    }
    if sequence.len() < a {
        return false;
    }
    b <= sequence.len()
}

/// Exchanges the steps of two numbers; nothing where one of them isn't there.
fn swap(sequence: &mut Sequence, a: usize, b: usize) -> bool {
    if !has_both(sequence, a, b) {
        return false;
    }
    sequence.swap(a, b)
}

/// Two sequences order the same, and each step does the same.
pub fn check_same(rt: &impl Abort, one: &Sequence, other: &Sequence) {
    same(rt, one.ops(), other.ops());
    for number in 1..=other.len() {
        same(rt, step(one, number), step(other, number));
    }
}

/// A case has its answer, where its steps come after an arrival.
fn check_from(
    rt: &(impl Abort + AllocGlobal),
    profile: &Profile,
    arrival: &Arrival,
    case: &Case,
) -> Result<(), SeqFault>
    requires { IsOf profile.now arrival.now }
{
    // `?` is longer to prove
    match sequence(rt.alloc(), profile, arrival, case.want) {
        Ok(wanted) => match sequence(rt.alloc(), profile, arrival, case.orders) {
            Ok(mut swapped) => {
                let did = swap(&mut swapped, case.pair[0], case.pair[1]);
                same(rt, did, case.did);
                check_same(rt, &swapped, &wanted);
                Ok(())
            }
            Err(fault) => Err(fault),
        },
        Err(fault) => Err(fault),
    }
}

/// A case has its answer.
fn check_case(
    rt: &(impl Abort + AllocGlobal),
    profile: &Profile,
    case: &Case,
) -> Result<(), SeqFault> {
    let Ok(items) = items(rt.alloc(), case.aboard) else {
        return Err(NO_MEMORY);
    };
    // `?` is longer to prove
    match Arrival::new(rt.alloc(), profile, items, &[]) {
        Ok(arrival) => check_from(rt, profile, &arrival, case),
        Err(fault) => Err(fault),
    }
}

impl<R: Abort + AllocGlobal> Check<R> for Cases {
    fn check(&self, rt: &R, profile: &Profile) -> Result<(), Fail> {
        for case in self.0 {
            same(rt, check_case(rt, profile, case), Ok(()));
        }
        Ok(())
    }
}

static EXCHANGED: [Case; 4] = [
    // a discharge and a load of another cell, over a load and a discharge of others
    Case {
        aboard: &[AFT, BESIDE],
        orders: &[
            Order::Discharge(AFT, ABCU),
            Order::Weighing(FORE, 11_000),
            Order::Discharge(BESIDE, ABCU),
            Order::Weighing(MIDDLE, 7_300),
        ],
        pair: [1, 4],
        did: true,
        want: &[
            Order::Weighing(MIDDLE, 7_300),
            Order::Weighing(FORE, 11_000),
            Order::Discharge(BESIDE, ABCU),
            Order::Discharge(AFT, ABCU),
        ],
    },
    // the later one is named first
    Case {
        aboard: &[AFT],
        orders: &[
            Order::Weighing(BESIDE, 5_100),
            Order::Discharge(AFT, ABCU),
            Order::Weighing(FORE, 11_000),
        ],
        pair: [3, 2],
        did: true,
        want: &[
            Order::Weighing(BESIDE, 5_100),
            Order::Weighing(FORE, 11_000),
            Order::Discharge(AFT, ABCU),
        ],
    },
    // a filling and a restow
    Case {
        aboard: &[AFT],
        orders: &[
            Order::Fill("DB1", 500_000),
            Order::Weighing(BESIDE, 5_100),
            Order::Restow(AFT, MIDDLE),
        ],
        pair: [1, 3],
        did: true,
        want: &[
            Order::Restow(AFT, MIDDLE),
            Order::Weighing(BESIDE, 5_100),
            Order::Fill("DB1", 500_000),
        ],
    },
    // a step and itself
    Case {
        aboard: &[],
        orders: &[
            Order::Weighing(FORE, 11_000),
            Order::Weighing(MIDDLE, 7_300),
        ],
        pair: [2, 2],
        did: true,
        want: &[
            Order::Weighing(FORE, 11_000),
            Order::Weighing(MIDDLE, 7_300),
        ],
    },
];

#[test]
fn steps_are_exchanged(rt: HostRuntime) -> Result<(), Fail> {
    on_box_ship(&rt, &Cases(&EXCHANGED))
}

static KEPT: [Case; 4] = [
    // a container of 40 feet over one of 20 feet that is discharged before it
    Case {
        aboard: &[FORE],
        orders: &[Order::Discharge(FORE, ABCU), Order::Weighing(LONG, 24_100)],
        pair: [1, 2],
        did: false,
        want: &[Order::Discharge(FORE, ABCU), Order::Weighing(LONG, 24_100)],
    },
    // two fillings of one tank
    Case {
        aboard: &[],
        orders: &[Order::Fill("DB1", 500_000), Order::Fill("DB1", 300_000)],
        pair: [2, 1],
        did: false,
        want: &[Order::Fill("DB1", 500_000), Order::Fill("DB1", 300_000)],
    },
    // the step between depends on the first
    Case {
        aboard: &[],
        orders: &[
            Order::Weighing(FORE, 11_000),
            Order::Restow(FORE, BESIDE),
            Order::Weighing(AFT, 7_300),
        ],
        pair: [1, 3],
        did: false,
        want: &[
            Order::Weighing(FORE, 11_000),
            Order::Restow(FORE, BESIDE),
            Order::Weighing(AFT, 7_300),
        ],
    },
    // the step between depends on the last
    Case {
        aboard: &[AFT],
        orders: &[
            Order::Weighing(FORE, 11_000),
            Order::Restow(AFT, BESIDE),
            Order::Weighing(AFT, 7_300),
        ],
        pair: [3, 1],
        did: false,
        want: &[
            Order::Weighing(FORE, 11_000),
            Order::Restow(AFT, BESIDE),
            Order::Weighing(AFT, 7_300),
        ],
    },
];

#[test]
fn steps_are_kept(rt: HostRuntime) -> Result<(), Fail> {
    on_box_ship(&rt, &Cases(&KEPT))
}

/// Takes a step out and puts it in again; nothing where one of the numbers isn't that of a step.
fn shift(sequence: &mut Sequence, from: usize, to: usize) -> bool {
    if from == 0 || to == 0 {
        return false;
    }
    if sequence.len() < from {
        return false;
    }
    if sequence.len() < to {
        return false;
    }
    sequence.shift(from, to)
}

/// Three loads, of which the first goes behind the others and back, and behind a discharge of its
/// own container it can't go.
fn check_shifts(
    rt: &(impl Abort + AllocGlobal),
    profile: &Profile,
    arrival: &Arrival,
) -> Result<(), SeqFault>
    requires { IsOf profile.now arrival.now }
{
    // `?` is longer to prove
    match sequence(rt.alloc(), profile, arrival, &SHIFTED) {
        Ok(wanted) => match sequence(rt.alloc(), profile, arrival, &UNSHIFTED) {
            Ok(mut shifted) => {
                same(rt, shift(&mut shifted, 1, 4), false);
                same(rt, shift(&mut shifted, 1, 3), true);
                check_same(rt, &shifted, &wanted);
                same(rt, shift(&mut shifted, 3, 2), true);
                same(rt, shifted.ops().get(1), Some(&op(&UNSHIFTED[0])));
                Ok(())
            }
            Err(fault) => Err(fault),
        },
        Err(fault) => Err(fault),
    }
}

static UNSHIFTED: [Order; 4] = [
    Order::Weighing(FORE, 11_000),
    Order::Weighing(MIDDLE, 7_300),
    Order::Weighing(BESIDE, 5_100),
    Order::Discharge(FORE, ABCU),
];

static SHIFTED: [Order; 4] = [
    Order::Weighing(MIDDLE, 7_300),
    Order::Weighing(BESIDE, 5_100),
    Order::Weighing(FORE, 11_000),
    Order::Discharge(FORE, ABCU),
];

/// Steps that are put in elsewhere.
#[derive(Clone, Copy)]
struct Shifts;

impl<R: Abort + AllocGlobal> Check<R> for Shifts {
    fn check(&self, rt: &R, profile: &Profile) -> Result<(), Fail> {
        // `?` is longer to prove
        match Arrival::new(rt.alloc(), profile, Vec::new(rt.alloc()), &[]) {
            Ok(arrival) => {
                same(rt, check_shifts(rt, profile, &arrival), Ok(()));
                Ok(())
            }
            Err(fault) => Err(fault)?,
        }
    }
}

#[test]
fn step_is_shifted(rt: HostRuntime) -> Result<(), Fail> {
    on_box_ship(&rt, &Shifts)
}

/// Fillings of two tanks are independent of each other, and so are a filling and a lift; a restow
/// depends on steps in both of its cells.
#[test]
fn independent_steps(rt: HostRuntime) {
    let filling = op(&Order::Fill("DB1", 500_000));
    same(
        &rt,
        filling.is_independent(&op(&Order::Fill("DB2", 300_000))),
        true,
    );
    same(
        &rt,
        filling.is_independent(&op(&Order::Fill("DB1", 300_000))),
        false,
    );
    same(
        &rt,
        filling.is_independent(&op(&Order::Weighing(FORE, 11_000))),
        true,
    );
    let restow = op(&Order::Restow(AFT, MIDDLE));
    same(
        &rt,
        restow.is_independent(&op(&Order::Discharge(AFT, ABCU))),
        false,
    );
    same(
        &rt,
        restow.is_independent(&op(&Order::Weighing(LONG, 24_100))),
        false,
    );
    same(
        &rt,
        restow.is_independent(&op(&Order::Weighing(FORE, 11_000))),
        true,
    );
}
