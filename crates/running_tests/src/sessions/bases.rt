//! When two bases are equal.
use super::{TWO_LOADS, inputs, session};
use crate::checks::{holds, same};
use box_ship::{LOAD_TO_STARBOARD, NO_MOVES};
use seq_report::RunFault;
use std::alloc::Global;
use std::test::Fail;
use what_if::Session;

/// A container of 20,500 kg amidships on arrival.
const ONE_ABOARD: &[u8] =
    b"UNB+UNOA:2+SHIP+PLAN+250101:1200+7'UNH+1+BAPLIE:D:95B:UN'LOC+147+0030082'MEA+WT++KGM:20500'UNT+4+1'UNZ+1+7'";

/// A session on the box ship with this container.
fn load_session(alloc: Global) -> Result<Session, RunFault> {
    Session::read(alloc, &inputs(ONE_ABOARD, NO_MOVES))
}

// Bases are equal whatever is ordered from there, and where they were read from the same files
// twice.
#[test]
fn same_bases(rt: HostRuntime) -> Result<(), Fail> {
    let alloc = rt.alloc();
    let one = session(alloc, TWO_LOADS)?;
    let other = session(alloc, LOAD_TO_STARBOARD)?;
    let third = load_session(alloc)?;
    holds(&rt, one.base().same(other.base()));
    holds(&rt, !one.base().same(third.base()));
    holds(&rt, third.base().same(load_session(alloc)?.base()));
    holds(&rt, third.base().profile().same(one.base().profile()));
    same(&rt, one.base().arrival().items().len(), 0);
    same(&rt, third.base().arrival().items().len(), 1);
    Ok(())
}
