//! Steps one after another, and the first that can't be done.
ghost use Rattle.lift_sequence.specs.Sequence.{IsOf};

use super::orders::{ABCU, NO_MEMORY, Order, XYZU, items, op, ops};
use super::ships::{AFT, ASHORE, BESIDE, FORE, LONG, MIDDLE};
use crate::checks::same;
use box_ship::{Check, on_box_ship};
use lift_sequence::{Arrival, Op, SeqCode, SeqFault, Sequence};
use ship_profile::Profile;
use std::alloc::{AllocError, Global};
use std::ops::Range;
use std::process::Abort;
use std::test::Fail;
use units_core::{Body, Cell, Step};

/// How many steps these orders are, or why they can't be carried out.
fn length_from(
    alloc: Global,
    profile: &Profile,
    arrival: &Arrival,
    orders: &[Order],
) -> Result<usize, SeqFault>
    requires { IsOf profile.now arrival.now }
{
    let Ok(ops) = ops(alloc, orders) else {
        return Err(NO_MEMORY);
    };
    // `?` is longer to prove
    match Sequence::new(alloc, profile, arrival, ops) {
        Ok(sequence) => Ok(sequence.len()),
        Err(fault) => Err(fault),
    }
}

/// How many steps these orders are from an arrival with a container in each of these cells, or why
/// they can't be carried out.
fn length_of(
    alloc: Global,
    profile: &Profile,
    aboard: &[Cell],
    orders: &[Order],
) -> Result<usize, SeqFault> {
    let Ok(items) = items(alloc, aboard) else {
        return Err(NO_MEMORY);
    };
    // `?` is longer to prove
    match Arrival::new(alloc, profile, items, &[]) {
        Ok(arrival) => length_from(alloc, profile, &arrival, orders),
        Err(fault) => Err(fault),
    }
}

/// The cells that are taken on arrival, the orders, and how many steps they are, or why they can't
/// be carried out.
struct Case {
    aboard: &'static [Cell],
    orders: &'static [Order],
    want: Result<usize, SeqFault>,
}

/// Cases, each of which has its answer.
#[derive(Clone, Copy)]
struct Cases(&'static [Case]);

impl<R: Abort + AllocGlobal> Check<R> for Cases {
    fn check(&self, rt: &R, profile: &Profile) -> Result<(), Fail> {
        check_cases(rt, profile, self.0);
        Ok(())
    }
}

/// Each case has its answer.
fn check_cases(rt: &(impl Abort + AllocGlobal), profile: &Profile, cases: &[Case]) {
    for case in cases {
        let answer = length_of(rt.alloc(), profile, case.aboard, case.orders);
        same(rt, answer, case.want);
    }
}

static SPANS: [Case; 1] = [Case {
    aboard: &[FORE],
    orders: &[Order::Load(LONG)],
    want: Err(SeqFault {
        code: SeqCode::Overlap(FORE),
        at: 1,
    }),
}];

#[test]
fn overlapping_spans(rt: HostRuntime) -> Result<(), Fail> {
    on_box_ship(&rt, &Cases(&SPANS))
}

static CONTAINERS: [Case; 7] = [
    Case {
        aboard: &[MIDDLE],
        orders: &[Order::Discharge(MIDDLE, XYZU)],
        want: Err(SeqFault {
            code: SeqCode::WrongContainer,
            at: 1,
        }),
    },
    Case {
        aboard: &[MIDDLE],
        orders: &[Order::Discharge(MIDDLE, ABCU), Order::Load(MIDDLE)],
        want: Ok(2),
    },
    // an empty identification fits any container
    Case {
        aboard: &[MIDDLE],
        orders: &[Order::Discharge(MIDDLE, "")],
        want: Ok(1),
    },
    Case {
        aboard: &[MIDDLE],
        orders: &[Order::Discharge(AFT, ABCU)],
        want: Err(SeqFault {
            code: SeqCode::CellEmpty,
            at: 1,
        }),
    },
    Case {
        aboard: &[MIDDLE],
        orders: &[Order::Discharge(ASHORE, ABCU)],
        want: Err(SeqFault {
            code: SeqCode::UnknownCell,
            at: 1,
        }),
    },
    Case {
        aboard: &[MIDDLE],
        orders: &[Order::Load(MIDDLE)],
        want: Err(SeqFault {
            code: SeqCode::CellTaken,
            at: 1,
        }),
    },
    Case {
        aboard: &[MIDDLE],
        orders: &[
            Order::Discharge(MIDDLE, ABCU),
            Order::Discharge(MIDDLE, ABCU),
        ],
        want: Err(SeqFault {
            code: SeqCode::CellEmpty,
            at: 2,
        }),
    },
];

#[test]
fn cells_and_containers(rt: HostRuntime) -> Result<(), Fail> {
    on_box_ship(&rt, &Cases(&CONTAINERS))
}

static RESTOWS: [Case; 10] = [
    Case {
        aboard: &[],
        orders: &[Order::Restow(MIDDLE, AFT)],
        want: Err(SeqFault {
            code: SeqCode::CellEmpty,
            at: 1,
        }),
    },
    Case {
        aboard: &[],
        orders: &[Order::Restow(ASHORE, AFT)],
        want: Err(SeqFault {
            code: SeqCode::UnknownCell,
            at: 1,
        }),
    },
    Case {
        aboard: &[],
        orders: &[Order::Load(BESIDE), Order::Restow(BESIDE, ASHORE)],
        want: Err(SeqFault {
            code: SeqCode::UnknownCell,
            at: 2,
        }),
    },
    // a container that can't be taken out is reported before one that can't be put in
    Case {
        aboard: &[],
        orders: &[Order::Restow(MIDDLE, ASHORE)],
        want: Err(SeqFault {
            code: SeqCode::CellEmpty,
            at: 1,
        }),
    },
    Case {
        aboard: &[],
        orders: &[Order::Loaded(BESIDE, XYZU), Order::Restow(BESIDE, AFT)],
        want: Err(SeqFault {
            code: SeqCode::WrongContainer,
            at: 2,
        }),
    },
    Case {
        aboard: &[BESIDE, AFT],
        orders: &[Order::Restow(BESIDE, AFT)],
        want: Err(SeqFault {
            code: SeqCode::CellTaken,
            at: 1,
        }),
    },
    Case {
        aboard: &[BESIDE, FORE],
        orders: &[Order::Restow(BESIDE, LONG)],
        want: Err(SeqFault {
            code: SeqCode::Overlap(FORE),
            at: 1,
        }),
    },
    Case {
        aboard: &[],
        orders: &[Order::Load(BESIDE), Order::Restow(BESIDE, AFT)],
        want: Ok(2),
    },
    Case {
        aboard: &[BESIDE],
        orders: &[Order::Restow(BESIDE, BESIDE)],
        want: Ok(1),
    },
    // what a restow leaves is no rival of the cell that it goes to
    Case {
        aboard: &[FORE],
        orders: &[Order::Restow(FORE, LONG)],
        want: Ok(1),
    },
];

#[test]
fn restow_faults(rt: HostRuntime) -> Result<(), Fail> {
    on_box_ship(&rt, &Cases(&RESTOWS))
}

static FILLS: [Case; 3] = [
    Case {
        aboard: &[],
        orders: &[Order::Fill("DB9", 1)],
        want: Err(SeqFault {
            code: SeqCode::UnknownTank,
            at: 1,
        }),
    },
    Case {
        aboard: &[],
        orders: &[Order::Fill("DB1", 500_001)],
        want: Err(SeqFault {
            code: SeqCode::TankOver,
            at: 1,
        }),
    },
    Case {
        aboard: &[],
        orders: &[Order::Fill("DB1", 500_000), Order::Fill("DB1", 0)],
        want: Ok(2),
    },
];

#[test]
fn tank_faults(rt: HostRuntime) -> Result<(), Fail> {
    on_box_ship(&rt, &Cases(&FILLS))
}

/// What a step does that takes nothing out and puts nothing in.
const NOTHING: Step = Step {
    out: None,
    put: None,
};

/// The last step of a sequence: what it orders, and what it does.
#[derive(Drop)]
struct Last {
    order: Option<Op>,
    step: Step,
}

/// The last step of a sequence; nothing where it has none.
fn last_step(sequence: &Sequence) -> Last {
    let last = sequence.len();
    if last == 0 {
        return Last {
            order: None,
            step: NOTHING,
        };
    }
    Last {
        order: Some(sequence.lift(last).copy()),
        step: sequence.step(last),
    }
}

/// The last of these orders as a step, or why they can't be carried out.
fn last_step_from(
    alloc: Global,
    profile: &Profile,
    arrival: &Arrival,
    orders: &[Order],
) -> Result<Last, SeqFault>
    requires { IsOf profile.now arrival.now }
{
    let Ok(ops) = ops(alloc, orders) else {
        return Err(NO_MEMORY);
    };
    // `?` is longer to prove
    match Sequence::new(alloc, profile, arrival, ops) {
        Ok(sequence) => Ok(last_step(&sequence)),
        Err(fault) => Err(fault),
    }
}

/// The last of these orders as a step where nothing is aboard on arrival, or why they can't be
/// carried out.
fn last_step_of(alloc: Global, profile: &Profile, orders: &[Order]) -> Result<Last, SeqFault> {
    // `?` is longer to prove
    match Arrival::new(alloc, profile, Vec::new(alloc), &[]) {
        Ok(arrival) => last_step_from(alloc, profile, &arrival, orders),
        Err(fault) => Err(fault),
    }
}

/// A body's mass, where it stands, and its free surface moment; all 0 where there is none.
fn figures(body: Option<Body>) -> [i64; 6] {
    let Some(body) = body else {
        return [0; 6];
    };
    let place = body.place();
    [
        i64::from(body.kg()),
        i64::from(place.x.get()),
        i64::from(place.y.get()),
        i64::from(place.z.get()),
        i64::from(place.half.get()),
        body.fsm(),
    ]
}

/// A body has these figures.
fn check_body(rt: &impl Abort, body: Option<Body>, want: &[i64; 6]) {
    let figures = figures(body);
    same(rt, figures.as_slice(), want.as_slice());
}

/// The last of these orders is the last step, and takes out one body and puts in another.
fn check_last(
    rt: &(impl Abort + AllocGlobal),
    profile: &Profile,
    orders: &[Order],
    out: &[i64; 6],
    put: &[i64; 6],
) -> Result<(), Fail> {
    let last = last_step_of(rt.alloc(), profile, orders)?;
    same(rt, last.order, orders.last().map(op));
    check_body(rt, last.step.out, out);
    check_body(rt, last.step.put, put);
    Ok(())
}

/// Orders, the last of which takes out one body and puts in another.
#[derive(Clone, Copy)]
struct LastStep {
    orders: &'static [Order],
    out: &'static [i64; 6],
    put: &'static [i64; 6],
}

impl<R: Abort + AllocGlobal> Check<R> for LastStep {
    fn check(&self, rt: &R, profile: &Profile) -> Result<(), Fail> {
        check_last(rt, profile, self.orders, self.out, self.put)
    }
}

static RESTOW: [Order; 2] = [Order::Load(BESIDE), Order::Restow(BESIDE, AFT)];

/// The container in 0030782, and in 0050082.
static TAKEN: [i64; 6] = [20_500, 50_000, 8_000, 10_000, 3_029, 0];

static PLACED: [i64; 6] = [20_500, 25_000, 0, 10_000, 3_029, 0];

#[test]
fn restow_step(rt: HostRuntime) -> Result<(), Fail> {
    let last = LastStep {
        orders: &RESTOW,
        out: &TAKEN,
        put: &PLACED,
    };
    on_box_ship(&rt, &last)
}

static EMPTIED: [Order; 2] = [Order::Fill("DB1", 500_000), Order::Fill("DB1", 0)];

/// The tank, full and empty.
static FULL: [i64; 6] = [500_000, 50_000, 0, 1_000, 5_000, 2_050_000_000];

static EMPTY: [i64; 6] = [0, 50_000, 0, 0, 5_000, 0];

#[test]
fn tank_steps(rt: HostRuntime) -> Result<(), Fail> {
    let last = LastStep {
        orders: &EMPTIED,
        out: &FULL,
        put: &EMPTY,
    };
    on_box_ship(&rt, &last)
}

/// The lifts of these numbers, which load a container and discharge it in turn.
fn turns(alloc: Global, numbers: Range<u32>) -> Result<Vec<Order>, AllocError> {
    let mut turns = Vec::new(alloc);
    for number in numbers {
        let order = if number % 2 == 0 {
            Order::Load(MIDDLE)
        } else {
            Order::Discharge(MIDDLE, ABCU)
        };
        turns.push(order)?;
    }
    Ok(turns)
}

/// The lifts of these numbers have this answer.
fn check_turns(
    rt: &(impl Abort + AllocGlobal),
    profile: &Profile,
    numbers: Range<u32>,
    want: Result<usize, SeqFault>,
) -> Result<(), Fail> {
    let turns = turns(rt.alloc(), numbers)?;
    let answer = length_of(rt.alloc(), profile, &[], &turns);
    same(rt, answer, want);
    Ok(())
}

/// The longest sequence.
#[derive(Clone, Copy)]
struct Longest;

impl<R: Abort + AllocGlobal> Check<R> for Longest {
    fn check(&self, rt: &R, profile: &Profile) -> Result<(), Fail> {
        check_longest(rt, profile)
    }
}

/// As many lifts as a sequence may have; and one more, also where the first of them can't be done.
fn check_longest(rt: &(impl Abort + AllocGlobal), profile: &Profile) -> Result<(), Fail> {
    let too_many = SeqFault {
        code: SeqCode::TooManySteps,
        at: 120_001,
    };
    check_turns(rt, profile, 0..120_000, Ok(120_000))?;
    check_turns(rt, profile, 0..120_001, Err(too_many))?;
    check_turns(rt, profile, 1..120_002, Err(too_many))
}

#[test]
fn longest_sequence(rt: HostRuntime) -> Result<(), Fail> {
    on_box_ship(&rt, &Longest)
}
