//! Two fillings of a tank that are exchanged, or one that is moved past others; and steps that
//! aren't fillings.
ghost use Rattle.lift_sequence.specs.Sequence.{IsOf};

use super::exchanging::{check_same, has_both, sequence};
use super::orders::Order;
use super::ships::{AFT, FORE};
use crate::checks::same;
use box_ship::{Check, on_box_ship};
use lift_sequence::{Arrival, SeqFault, Sequence};
use ship_profile::Profile;
use std::process::Abort;
use std::test::Fail;

/// Exchanges the fillings of two numbers; nothing where one of them isn't there.
fn swap_fillings(sequence: &mut Sequence, a: usize, b: usize) -> Option<(usize, usize)> {
    if !has_both(sequence, a, b) {
        return None;
    }
    sequence.swap_fillings(a, b)
}

/// Moves the filling of a number to another one; nothing where one of them isn't there.
fn shift_filling(sequence: &mut Sequence, from: usize, to: usize) -> Option<(usize, usize)> {
    if !has_both(sequence, from, to) {
        return None;
    }
    sequence.shift_filling(from, to)
}

/// The fillings that are steps 1 and 4 are exchanged, and exchanged back; so are 3 and 6, behind
/// which no filling comes, and 3 and 4, which follow each other. What the next filling takes out is
/// compared, too. A load is exchanged with nothing.
fn check_exchanged(
    rt: &(impl Abort + AllocGlobal),
    profile: &Profile,
    arrival: &Arrival,
) -> Result<(), SeqFault>
    requires { IsOf profile.now arrival.now }
{
    let before = sequence(rt.alloc(), profile, arrival, &FILLINGS)?;
    let far = sequence(rt.alloc(), profile, arrival, &FAR)?;
    let last = sequence(rt.alloc(), profile, arrival, &LAST)?;
    let near = sequence(rt.alloc(), profile, arrival, &NEAR)?;
    let mut changed = sequence(rt.alloc(), profile, arrival, &FILLINGS)?;
    same(rt, swap_fillings(&mut changed, 1, 4), Some((2, 5)));
    check_same(rt, &changed, &far);
    same(rt, swap_fillings(&mut changed, 4, 1), Some((5, 2)));
    check_same(rt, &changed, &before);
    same(rt, swap_fillings(&mut changed, 3, 6), Some((3, 7)));
    check_same(rt, &changed, &last);
    same(rt, swap_fillings(&mut changed, 6, 3), Some((7, 3)));
    same(rt, swap_fillings(&mut changed, 3, 4), Some((3, 5)));
    check_same(rt, &changed, &near);
    same(rt, swap_fillings(&mut changed, 3, 4), Some((3, 5)));
    same(rt, swap_fillings(&mut changed, 1, 2), None);
    same(rt, swap_fillings(&mut changed, 2, 1), None);
    check_same(rt, &changed, &before);
    Ok(())
}

/// The filling that is step 1 is moved past two others and two loads, and back; so is the last one,
/// behind which no filling comes, past two others in front of it. A filling is moved past a load
/// alone, and nowhere. A load isn't moved.
fn check_moved(
    rt: &(impl Abort + AllocGlobal),
    profile: &Profile,
    arrival: &Arrival,
) -> Result<(), SeqFault>
    requires { IsOf profile.now arrival.now }
{
    let before = sequence(rt.alloc(), profile, arrival, &FILLINGS)?;
    let on = sequence(rt.alloc(), profile, arrival, &ON)?;
    let back = sequence(rt.alloc(), profile, arrival, &BACK)?;
    let beside = sequence(rt.alloc(), profile, arrival, &BESIDE_LOAD)?;
    let mut changed = sequence(rt.alloc(), profile, arrival, &FILLINGS)?;
    same(rt, shift_filling(&mut changed, 1, 5), Some((2, 5)));
    check_same(rt, &changed, &on);
    same(rt, shift_filling(&mut changed, 5, 1), Some((5, 2)));
    check_same(rt, &changed, &before);
    same(rt, shift_filling(&mut changed, 6, 3), Some((7, 3)));
    check_same(rt, &changed, &back);
    same(rt, shift_filling(&mut changed, 3, 6), Some((3, 7)));
    same(rt, shift_filling(&mut changed, 1, 2), Some((2, 2)));
    check_same(rt, &changed, &beside);
    same(rt, shift_filling(&mut changed, 2, 1), Some((2, 2)));
    same(rt, shift_filling(&mut changed, 4, 4), Some((5, 5)));
    same(rt, shift_filling(&mut changed, 2, 1), None);
    check_same(rt, &changed, &before);
    Ok(())
}

static FILLINGS: [Order; 7] = [
    Order::Fill("DB1", 500_000),
    Order::Weighing(FORE, 11_000),
    Order::Fill("DB1", 300_000),
    Order::Fill("DB1", 200_000),
    Order::Weighing(AFT, 7_300),
    Order::Fill("DB1", 100_000),
    Order::Discharge(FORE, ""),
];

static FAR: [Order; 7] = [
    Order::Fill("DB1", 200_000),
    Order::Weighing(FORE, 11_000),
    Order::Fill("DB1", 300_000),
    Order::Fill("DB1", 500_000),
    Order::Weighing(AFT, 7_300),
    Order::Fill("DB1", 100_000),
    Order::Discharge(FORE, ""),
];

static LAST: [Order; 7] = [
    Order::Fill("DB1", 500_000),
    Order::Weighing(FORE, 11_000),
    Order::Fill("DB1", 100_000),
    Order::Fill("DB1", 200_000),
    Order::Weighing(AFT, 7_300),
    Order::Fill("DB1", 300_000),
    Order::Discharge(FORE, ""),
];

static NEAR: [Order; 7] = [
    Order::Fill("DB1", 500_000),
    Order::Weighing(FORE, 11_000),
    Order::Fill("DB1", 200_000),
    Order::Fill("DB1", 300_000),
    Order::Weighing(AFT, 7_300),
    Order::Fill("DB1", 100_000),
    Order::Discharge(FORE, ""),
];

static ON: [Order; 7] = [
    Order::Weighing(FORE, 11_000),
    Order::Fill("DB1", 300_000),
    Order::Fill("DB1", 200_000),
    Order::Weighing(AFT, 7_300),
    Order::Fill("DB1", 500_000),
    Order::Fill("DB1", 100_000),
    Order::Discharge(FORE, ""),
];

static BACK: [Order; 7] = [
    Order::Fill("DB1", 500_000),
    Order::Weighing(FORE, 11_000),
    Order::Fill("DB1", 100_000),
    Order::Fill("DB1", 300_000),
    Order::Fill("DB1", 200_000),
    Order::Weighing(AFT, 7_300),
    Order::Discharge(FORE, ""),
];

static BESIDE_LOAD: [Order; 7] = [
    Order::Weighing(FORE, 11_000),
    Order::Fill("DB1", 500_000),
    Order::Fill("DB1", 300_000),
    Order::Fill("DB1", 200_000),
    Order::Weighing(AFT, 7_300),
    Order::Fill("DB1", 100_000),
    Order::Discharge(FORE, ""),
];

/// Fillings of one tank, each of another mass.
#[derive(Clone, Copy)]
struct Fillings;

impl<R: Abort + AllocGlobal> Check<R> for Fillings {
    fn check(&self, rt: &R, profile: &Profile) -> Result<(), Fail> {
        // `?` is longer to prove
        match Arrival::new(rt.alloc(), profile, Vec::new(rt.alloc()), &[]) {
            Ok(arrival) => {
                same(rt, check_exchanged(rt, profile, &arrival), Ok(()));
                same(rt, check_moved(rt, profile, &arrival), Ok(()));
                Ok(())
            }
            Err(fault) => Err(fault)?,
        }
    }
}

#[test]
fn fillings_are_exchanged_and_moved(rt: HostRuntime) -> Result<(), Fail> {
    on_box_ship(&rt, &Fillings)
}
