ghost use Rattle.std.specs.Prelude.{◌≡◌};

use crate::checks::{holds, same};
use prefix_scan::{CutFault, Cuts, Last, MAX_PARTS, Monoid, Running, fold, offsets};
use std::alloc::Global;
use std::test::Fail;

mod trees;

/// Three values of one part each. Joined in their order they are 3; joined in the reverse order
/// they would be 1.
static VALUES: [Last; 3] = [
    Last {
        value: Some(1),
        parts: 1,
    },
    Last {
        value: None,
        parts: 1,
    },
    Last {
        value: Some(3),
        parts: 1,
    },
];

/// The join of this number of parts.
fn last_of(value: Option<u32>, parts: u32) -> Last
    ensures { result.parts ≡ parts }
{
    Last { value, parts }
}

#[test]
fn folds(rt: HostRuntime) {
    same(&rt, fold(&VALUES), last_of(Some(3), 3));
    same(&rt, fold::<Last>(&[]), Last::unit());
    same(&rt, VALUES[0].size(), 1);
    same(&rt, MAX_PARTS, 1 << 19);
}

// Each offset is the fold of the values before it, without its own.
#[test]
fn scan_and_cuts(rt: HostRuntime) -> Result<(), Fail> {
    let before = offsets(rt.alloc(), &VALUES)?;
    let expected = [last_of(None, 0), last_of(Some(1), 1), last_of(Some(1), 2)];
    same(&rt, before.as_slice(), expected.as_slice());
    Ok(())
}

/// An offset, and the values behind it.
const SEVEN: Last = Last {
    value: Some(7),
    parts: 1,
};

static LATER: [Last; 2] = [
    Last {
        value: None,
        parts: 1,
    },
    Last {
        value: Some(3),
        parts: 1,
    },
];

#[test]
fn running_joins(rt: HostRuntime) {
    let mut running = Running::new(SEVEN, &LATER);
    same(&rt, running.next(), Some(last_of(Some(7), 2)));
    same(&rt, running.next(), Some(last_of(Some(3), 3)));
    same(&rt, running.next(), None);
}

/// Ends, the length that they cut, and the first fault.
static FAULTS: [(&[u32], u32, CutFault); 8] = [
    (&[], 3, CutFault::Empty),
    (&[2, 2], 0, CutFault::Empty),
    (&[2, 2], 2, CutFault::NotRising),
    (&[2, 1], 3, CutFault::NotRising),
    (&[0, 3], 3, CutFault::NotRising),
    (&[1, 2], 3, CutFault::WrongEnd),
    (&[1, 4], 3, CutFault::WrongEnd),
    (&[3, 4, 4], 3, CutFault::NotRising),
];

/// The fault of ends, if they have one.
fn fault_of(alloc: Global, ends: &[u32], len: u32) -> Option<CutFault> {
    match Cuts::at(alloc, ends, len) {
        Ok(_) => None,
        Err(fault) => Some(fault),
    }
}

#[test]
fn faults_of_cuts(rt: HostRuntime) {
    for (ends, len, fault) in &FAULTS {
        same(&rt, fault_of(rt.alloc(), ends, *len), Some(*fault));
    }
    same(&rt, fault_of(rt.alloc(), &[1, 3], 3), None);
}

/// Chunks of one length, over a number of values: how many there are, and where the last one begins
/// and ends.
static EVERY: [(u32, u32, usize, u32, u32); 5] = [
    (2, 3, 2, 2, 3),
    (2, 4, 2, 2, 4),
    (1, 3, 3, 2, 3),
    (5, 3, 1, 0, 3),
    (3, 3, 1, 0, 3),
];

#[test]
fn chunks_of_one_length(rt: HostRuntime) -> Result<(), Fail> {
    for (n, len, chunks, start, end) in &EVERY {
        let cuts = Cuts::every(rt.alloc(), *n, *len)?;
        same(&rt, cuts.chunks(), *chunks);
        let last = cuts.range(cuts.chunks() - 1);
        same(&rt, (last.start, last.end), (*start, *end));
    }
    Ok(())
}

#[test]
fn no_chunks(rt: HostRuntime) {
    for (n, len) in [(0, 3), (2, 0), (0, 0)] {
        holds(
            &rt,
            matches!(Cuts::every(rt.alloc(), n, len), Err(CutFault::Empty)),
        );
    }
}

#[test]
fn codes_in_print(rt: HostRuntime) -> Result<(), Fail> {
    for (fault, text) in [
        (CutFault::Empty, "K1"),
        (CutFault::NotRising, "K2"),
        (CutFault::WrongEnd, "K3"),
        (CutFault::NoMemory, "K4"),
    ] {
        let shown = format!(in rt.alloc(); "{fault}")?;
        same(&rt, shown.as_str(), text);
    }
    Ok(())
}
