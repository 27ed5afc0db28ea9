//! Another weight of one load, in the steps behind it.
ghost use Rattle.lift_sequence.specs.Sequence.{IsOf};

use super::orders::{ABCU, Order, mass, op, ops};
use super::ships::{AFT, BESIDE, FORE, MIDDLE};
use crate::checks::same;
use box_ship::{Check, on_box_ship};
use lift_sequence::{Arrival, Sequence};
use ship_profile::Profile;
use std::process::Abort;
use std::test::Fail;
use units_core::{Body, Kg, Step};

/// Four containers. The first is loaded, restowed twice and discharged; the third and the fourth
/// come into cells that it left, and the third leaves the first of them for the second.
static LIST: [Order; 12] = [
    Order::Weighing(BESIDE, 20_500),
    Order::Weighing(MIDDLE, 11_000),
    Order::Restow(BESIDE, AFT),
    Order::Weighing(BESIDE, 7_300),
    Order::Restow(MIDDLE, FORE),
    Order::Restow(AFT, MIDDLE),
    Order::Restow(BESIDE, AFT),
    Order::Discharge(MIDDLE, ABCU),
    Order::Weighing(MIDDLE, 5_100),
    Order::Discharge(AFT, ABCU),
    Order::Discharge(FORE, ABCU),
    Order::Discharge(MIDDLE, ABCU),
];

/// The mass of a body in kg, and its place along and across the ship in mm.
type Figures = [i64; 3];

/// No body.
const NOTHING: Figures = [0; 3];

/// What each step takes out and puts in where the first container has 24,100 kg: the steps 1, 3, 6
/// and 8 are of that weight, the others of the weights above. The cells stand at x 75,000 (FORE),
/// 50,000 (MIDDLE, BESIDE) and 25,000 (AFT), BESIDE 8,000 to starboard.
static FOLLOWED: [(Figures, Figures); 12] = [
    (NOTHING, [24_100, 50_000, 8_000]),
    (NOTHING, [11_000, 50_000, 0]),
    ([24_100, 50_000, 8_000], [24_100, 25_000, 0]),
    (NOTHING, [7_300, 50_000, 8_000]),
    ([11_000, 50_000, 0], [11_000, 75_000, 0]),
    ([24_100, 25_000, 0], [24_100, 50_000, 0]),
    ([7_300, 50_000, 8_000], [7_300, 25_000, 0]),
    ([24_100, 50_000, 0], NOTHING),
    (NOTHING, [5_100, 50_000, 0]),
    ([7_300, 25_000, 0], NOTHING),
    ([11_000, 75_000, 0], NOTHING),
    ([5_100, 50_000, 0], NOTHING),
];

/// The figures of a body, if there is one.
fn figures(body: Option<Body>) -> Figures {
    let Some(body) = body else {
        return NOTHING;
    };
    let place = body.place();
    [
        i64::from(body.kg()),
        i64::from(place.x.get()),
        i64::from(place.y.get()),
    ]
}

/// Gives the load of a number another weight; nothing where the step isn't there or is no load.
fn reweigh(sequence: &mut Sequence, number: usize, kg: Kg) {
    if number == 0 {
        return;
    }
    if sequence.len() < number {
        return;
    }
    if sequence.lift(number).loaded_cell().is_some() {
        sequence.reweigh(number, kg);
    }
}

/// What the step of a number does; nothing where it isn't there.
pub fn step(sequence: &Sequence, number: usize) -> Step {
    if number == 0 {
        return Step {
            out: None,
            put: None,
        };
    }
    if sequence.len() < number {
        return Step {
            out: None,
            put: None,
        };
    }
    sequence.step(number)
}

/// A body has these figures.
fn check_body(rt: &impl Abort, body: Option<Body>, want: &Figures) {
    let figures = figures(body);
    same(rt, figures.as_slice(), want.as_slice());
}

/// Each step takes out and puts in what it has to.
fn check_steps(rt: &impl Abort, sequence: &Sequence) {
    for place in 0..FOLLOWED.len() {
        let (out, put) = &FOLLOWED[place];
        let step = step(sequence, place + 1);
        check_body(rt, step.out, out);
        check_body(rt, step.put, put);
    }
}

/// The first step loads another weight, and the second what it did.
fn check_orders(rt: &impl Abort, sequence: &Sequence) {
    same(rt, sequence.ops().len(), LIST.len());
    let first = op(&Order::Weighing(BESIDE, 24_100));
    same(rt, sequence.ops().first(), Some(&first));
    let second = op(&Order::Weighing(MIDDLE, 11_000));
    same(rt, sequence.ops().get(1), Some(&second));
}

/// The list, its first container of another weight, from an arrival.
fn check_from(
    rt: &(impl Abort + AllocGlobal),
    profile: &Profile,
    arrival: &Arrival,
) -> Result<(), Fail>
    requires { IsOf profile.now arrival.now }
{
    let ops = ops(rt.alloc(), &LIST)?;
    // `?` is longer to prove
    match Sequence::new(rt.alloc(), profile, arrival, ops) {
        Ok(mut sequence) => {
            reweigh(&mut sequence, 1, mass(24_100));
            check_orders(rt, &sequence);
            check_steps(rt, &sequence);
            Ok(())
        }
        Err(fault) => Err(fault)?,
    }
}

/// The list, its first container of another weight.
#[derive(Clone, Copy)]
struct Followed;

impl<R: Abort + AllocGlobal> Check<R> for Followed {
    fn check(&self, rt: &R, profile: &Profile) -> Result<(), Fail> {
        // `?` is longer to prove
        match Arrival::new(rt.alloc(), profile, Vec::new(rt.alloc()), &[]) {
            Ok(arrival) => check_from(rt, profile, &arrival),
            Err(fault) => Err(fault)?,
        }
    }
}

#[test]
fn container_is_followed(rt: HostRuntime) -> Result<(), Fail> {
    on_box_ship(&rt, &Followed)
}

/// A restow moves the container in its first cell alone, and leaves it in its second.
#[test]
fn one_step_of_a_container(rt: HostRuntime) {
    let restow = op(&Order::Restow(AFT, MIDDLE));
    same(&rt, restow.moves(Some(AFT)), true);
    same(&rt, restow.moves(Some(MIDDLE)), false);
    same(&rt, restow.next_cell(Some(AFT)), Some(MIDDLE));
    same(&rt, restow.next_cell(Some(FORE)), Some(FORE));
    let discharge = op(&Order::Discharge(AFT, ABCU));
    same(&rt, discharge.next_cell(Some(AFT)), None);
}

/// Only the step that loads it has a weight.
#[test]
fn weight_of_a_step(rt: HostRuntime) {
    let load = op(&Order::Weighing(AFT, 20_500));
    same(
        &rt,
        load.with_weight(mass(24_100)),
        op(&Order::Weighing(AFT, 24_100)),
    );
    same(&rt, load.loaded_cell(), Some(AFT));
    let restow = op(&Order::Restow(AFT, MIDDLE));
    same(&rt, &restow.with_weight(mass(24_100)), &restow);
    same(&rt, restow.loaded_cell(), None);
}
