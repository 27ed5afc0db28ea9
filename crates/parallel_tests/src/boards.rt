use crate::checks::{holds, same};
use claim_board::Event::{Draw, Look, Post, Refuse, Skip, Stop, Work};
use claim_board::Stage::{Drawn, Looked, Posted, Skipped, Worked};
use claim_board::{Entry, Event, Stage, World, for_every_run};
use std::alloc::AllocGlobal;
use std::process::Abort;
use std::test::Fail;

/// An entry as a row of a table: its number, what it looked at, and its stage.
type Row = (u32, Option<u32>, Stage);

fn are(entries: &[Entry], rows: &[Row]) -> bool {
    if entries.len() != rows.len() {
        return false;
    }
    for (entry, row) in entries.iter().zip(rows) {
        let (number, looked, stage) = *row;
        if *entry
            != (Entry {
                number,
                looked,
                stage,
            })
        {
            return false;
        }
    }
    true
}

// Two workers at chunks that begin at 0, 5 and 10. Worker 1 finds step 9 in chunk 1, so chunk 2 is
// skipped, since 9 comes before 10; chunk 0 isn't, since 9 doesn't come before 0, and it has step
// 3. The draws are 0 and 1, 2 by worker 1, then 3 by worker 0 and 4 by worker 1.
static FIRST_WORKER: [Row; 2] = [(0, Some(9), Posted(3)), (3, None, Drawn)];

static SECOND_WORKER: [Row; 3] = [
    (1, None, Posted(9)),
    (2, Some(9), Skipped),
    (4, None, Drawn),
];

/// The events in their order, each with whether it is enabled.
static EVENTS: [(Event, bool); 19] = [
    (Draw(0), true),
    (Draw(1), true),
    (Look(1), true),
    (Work(1), true),
    (Post(1), true),
    (Draw(1), true),
    (Look(1), true),
    (Work(1), false),
    (Skip(1), true),
    (Look(0), true),
    (Skip(0), false),
    (Work(0), true),
    (Post(0), true),
    (Stop(0), false),
    (Draw(0), true),
    (Stop(0), true),
    (Draw(1), true),
    (Stop(1), true),
    (Stop(1), false),
];

#[test]
fn board_events(rt: HostRuntime) -> Result<(), Fail> {
    let mut world = World::new(rt.alloc(), 2, &[0, 5, 10], &[Some(3), Some(9), None])?;
    for (event, enabled) in EVENTS {
        same(&rt, world.apply(event), enabled);
    }
    same(&rt, world.next(), 5);
    same(&rt, world.least(), Some(3));
    holds(&rt, are(world.entries(0), &FIRST_WORKER));
    holds(&rt, are(world.entries(1), &SECOND_WORKER));
    Ok(())
}

#[test]
fn board_without_chunks(rt: HostRuntime) -> Result<(), Fail> {
    let mut world = World::new(rt.alloc(), 1, &[], &[])?;
    holds(&rt, world.apply(Draw(0)));
    holds(&rt, world.apply(Stop(0)));
    holds(&rt, !world.apply(Draw(0)));
    same(&rt, world.next(), 1);
    Ok(())
}

/// A worker that has reached some stage, and the events that aren't enabled there.
struct Case {
    begins: &'static [u32],
    found: &'static [Option<u32>],
    before: &'static [Event],
    refused: &'static [Event],
    next: u32,
    least: Option<u32>,
    entries: &'static [Row],
}

static CASES: [Case; 13] = [
    // no entries
    Case {
        begins: &[0, 5],
        found: &[Some(3), Some(9)],
        before: &[],
        refused: &[Look(0), Skip(0), Work(0), Post(0), Stop(0)],
        next: 0,
        least: None,
        entries: &[],
    },
    // drawn, the number of a chunk
    Case {
        begins: &[0, 5],
        found: &[Some(3), Some(9)],
        before: &[Draw(0)],
        refused: &[Draw(0), Skip(0), Work(0), Post(0), Stop(0)],
        next: 1,
        least: None,
        entries: &[(0, None, Drawn)],
    },
    // looked, and saw no step
    Case {
        begins: &[0, 5],
        found: &[Some(3), Some(9)],
        before: &[Draw(0), Look(0)],
        refused: &[Draw(0), Look(0), Skip(0), Post(0), Stop(0)],
        next: 1,
        least: None,
        entries: &[(0, None, Looked)],
    },
    // worked, with a step
    Case {
        begins: &[0, 5],
        found: &[Some(3), Some(9)],
        before: &[Draw(0), Look(0), Work(0)],
        refused: &[Draw(0), Look(0), Skip(0), Work(0), Stop(0)],
        next: 1,
        least: None,
        entries: &[(0, None, Worked(Some(3)))],
    },
    // posted
    Case {
        begins: &[0, 5],
        found: &[Some(3), Some(9)],
        before: &[Draw(0), Look(0), Work(0), Post(0)],
        refused: &[Look(0), Skip(0), Work(0), Post(0), Stop(0)],
        next: 1,
        least: Some(3),
        entries: &[(0, None, Posted(3))],
    },
    // looked, and saw 3, which comes before 5
    Case {
        begins: &[0, 5],
        found: &[Some(3), Some(9)],
        before: &[Draw(0), Look(0), Work(0), Post(0), Draw(0), Look(0)],
        refused: &[Draw(0), Look(0), Work(0), Post(0), Stop(0)],
        next: 2,
        least: Some(3),
        entries: &[(0, None, Posted(3)), (1, Some(3), Looked)],
    },
    // looked, and saw 3, which is the chunk's first step
    Case {
        begins: &[0, 3],
        found: &[Some(3), Some(9)],
        before: &[Draw(0), Look(0), Work(0), Post(0), Draw(0), Look(0)],
        refused: &[Draw(0), Look(0), Skip(0), Post(0), Stop(0)],
        next: 2,
        least: Some(3),
        entries: &[(0, None, Posted(3)), (1, Some(3), Looked)],
    },
    // skipped
    Case {
        begins: &[0, 5],
        found: &[Some(3), Some(9)],
        before: &[
            Draw(0),
            Look(0),
            Work(0),
            Post(0),
            Draw(0),
            Look(0),
            Skip(0),
        ],
        refused: &[Look(0), Skip(0), Work(0), Post(0), Stop(0)],
        next: 2,
        least: Some(3),
        entries: &[(0, None, Posted(3)), (1, Some(3), Skipped)],
    },
    // worked, with no step
    Case {
        begins: &[0],
        found: &[None],
        before: &[Draw(0), Look(0), Work(0)],
        refused: &[Look(0), Skip(0), Work(0), Post(0), Stop(0)],
        next: 1,
        least: None,
        entries: &[(0, None, Worked(None))],
    },
    // drawn, past the last chunk
    Case {
        begins: &[],
        found: &[],
        before: &[Draw(0)],
        refused: &[Draw(0), Look(0), Skip(0), Work(0), Post(0)],
        next: 1,
        least: None,
        entries: &[(0, None, Drawn)],
    },
    // stopped
    Case {
        begins: &[],
        found: &[],
        before: &[Draw(0), Stop(0)],
        refused: &[
            Draw(0),
            Look(0),
            Skip(0),
            Work(0),
            Post(0),
            Stop(0),
            Refuse(0),
        ],
        next: 1,
        least: None,
        entries: &[(0, None, Drawn)],
    },
    // refused without entries
    Case {
        begins: &[0],
        found: &[None],
        before: &[Refuse(0)],
        refused: &[
            Draw(0),
            Look(0),
            Skip(0),
            Work(0),
            Post(0),
            Stop(0),
            Refuse(0),
        ],
        next: 0,
        least: None,
        entries: &[],
    },
    // refused with an entry, and a worker that isn't there
    Case {
        begins: &[0],
        found: &[None],
        before: &[Draw(0), Refuse(0)],
        refused: &[
            Draw(0),
            Look(0),
            Refuse(0),
            Draw(1),
            Look(1),
            Skip(1),
            Work(1),
            Post(1),
            Stop(1),
            Refuse(1),
        ],
        next: 1,
        least: None,
        entries: &[(0, None, Drawn)],
    },
];

fn refuses(rt: &(impl Abort + AllocGlobal), case: &Case) -> Result<(), Fail> {
    assert!(rt; case.begins.len() <= 2);
    let mut world = World::new(rt.alloc(), 1, case.begins, case.found)?;
    for event in case.before {
        holds(rt, world.apply(*event));
    }
    for event in case.refused {
        holds(rt, !world.apply(*event));
        same(rt, world.next(), case.next);
        same(rt, world.least(), case.least);
        holds(rt, are(world.entries(0), case.entries));
    }
    Ok(())
}

#[test]
fn events_that_are_not_enabled(rt: HostRuntime) -> Result<(), Fail> {
    for case in &CASES {
        refuses(&rt, case)?;
    }
    Ok(())
}

// A worker that isn't there has no entries.
#[test]
fn nobody_has_entries(rt: HostRuntime) -> Result<(), Fail> {
    let world = World::new(rt.alloc(), 1, &[0], &[None])?;
    holds(&rt, world.entries(1).is_empty());
    for_every_run();
    Ok(())
}
