//! What is tried, row by row.
ghost use Rattle.std.specs.Prelude.{◌≡◌, IfOk};
ghost use Rattle.what_if.specs.Desks.{IsOf};

use crate::desks::Publishing;
use crate::edit_rows::{long_lists, moves_of_fillings, short_lists, swaps, undos};
use crate::edits::{Kind, edit_of};
use crate::free_calls::{Readers, are_free};
use crate::free_figures::figures_are_free;
use crate::free_numbers::numbers_are_free;
use crate::free_ships::ships_are_free;
use crate::free_texts::texts_are_free;
use crate::notes::{is_free, note_caught, note_free, try_with};
use crate::reports::{Report, SessionReport};
use crate::sessions::{LONG, Reading, inputs, list_of, with_long_list};
use crate::texts::{
    FILLED_LINES, NO_STEPS, RESTOW, RESTOW_LINES, TWO_LINES, TWO_LOADS, fill_text, long_steps,
};
use crate::trials::Trial;
use crate::watch::watch;
use crate::wrong_bodies::LeavesHalf;
use box_ship::{LOAD_TO_STARBOARD, NO_MOVES, files};
use lift_sequence::Op;
use seq_report::{Inputs, RunFault};
use ship_profile::ProfileBytes;
use std::alloc::Global;
use std::io::Write;
use std::sync::{Arc, Wait};
use std::thread::Threads;
use what_if::{Desk, Session, Ticket};

/// The report on two loads.
fn two_loads() -> Report<'static> {
    Report {
        profile: files(),
        movins: TWO_LOADS,
        steps: NO_STEPS,
        text: TWO_LINES,
    }
}

/// The report on a load that is restowed.
fn restow() -> Report<'static> {
    Report {
        profile: files(),
        movins: LOAD_TO_STARBOARD,
        steps: RESTOW,
        text: RESTOW_LINES,
    }
}

/// The report on the box ship with her tank filled.
fn filled_tank(ship: &[u8]) -> Report<'_> {
    Report {
        profile: ProfileBytes { ship, ..files() },
        movins: NO_MOVES,
        steps: NO_STEPS,
        text: FILLED_LINES,
    }
}

/// Reports and first failing steps.
fn reports<R: AllocGlobal + Threads + Wait + Sync, W: Write>(
    rt: &R,
    out: &mut W,
) -> Result<bool, RunFault> {
    let ship = fill_text(rt.alloc())?;
    let mut right = try_with(rt, out, "two_loads", Trial::Report(two_loads()));
    right &= try_with(
        rt,
        out,
        "two_loads, first failing step",
        Trial::First(two_loads()),
    );
    right &= try_with(rt, out, "restow_step", Trial::Report(restow()));
    right &= try_with(
        rt,
        out,
        "tank_fill",
        Trial::Report(filled_tank(ship.as_bytes())),
    );
    right &= try_with(rt, out, "early_stop", Trial::EarlyStop);
    Ok(right)
}

/// A session that is read.
fn reads<R: AllocGlobal + Threads + Wait + Sync, W: Write>(
    rt: &R,
    out: &mut W,
    name: &str,
    inputs: Inputs<'_>,
    steps: u32,
) -> bool {
    try_with(rt, out, name, Trial::Read(Reading { inputs, steps }))
}

/// The list of a session is opened at a desk.
fn opens_long<R: AllocGlobal + Threads + Wait + Sync, W: Write>(
    rt: &R,
    out: &mut W,
    session: &Session,
    desk: &Desk,
) -> Result<bool, RunFault>
    requires { session.now.base ≡ desk.now.base }
{
    let (ticket, list) = match publish_one(rt, desk, session) {
        Ok(published) => published,
        Err(fault) => return Err(fault),
    };
    let opened = Trial::Open(Publishing {
        desk,
        session,
        early: &ticket,
        list: &list,
        second: &ticket,
        short: &list,
    });
    Ok(try_with(rt, out, "long list, opened", opened))
}

/// Sessions that are read and made, and a list that is opened, so long that room is asked for what
/// searches keep of them.
fn long_sessions<R: AllocGlobal + Threads + Wait + Sync, W: Write>(
    rt: &R,
    out: &mut W,
    session: &Session,
) -> Result<bool, RunFault> {
    let steps = long_steps(rt.alloc(), LONG - 2)?;
    let long = Inputs {
        steps: Some(steps.as_bytes()),
        ..inputs()
    };
    let mut right = reads(rt, out, "long list, read", long, LONG);
    right &= try_with(rt, out, "long list, made", Trial::MakeLong(session));
    let made = with_long_list(rt.alloc(), session, LONG)?;
    match desk_of(rt.alloc(), &made) {
        Ok(desk) => Ok(right & opens_long(rt, out, &made, &desk)?),
        Err(fault) => Err(fault),
    }
}

/// The report of a session that has the steps of two loads.
fn session_report<R: AllocGlobal + Threads + Wait + Sync, W: Write>(
    rt: &R,
    out: &mut W,
    session: &Session,
) -> Result<bool, RunFault> {
    let list = list_of(rt.alloc(), session)?;
    let report = Trial::SessionReport(SessionReport {
        session,
        list: &list,
        text: TWO_LINES,
    });
    Ok(try_with(rt, out, "session_edits, report", report))
}

/// Sessions, their reports and edits.
fn sessions<R: AllocGlobal + Threads + Wait + Sync, W: Write>(
    rt: &R,
    out: &mut W,
    session: &mut Session,
) -> Result<bool, RunFault> {
    let mut right = reads(rt, out, "session_edits, read", inputs(), 2);
    right &= session_report(rt, out, session)?;
    right &= short_lists(rt, out, session)?;
    right &= long_lists(rt, out, session)?;
    right &= long_sessions(rt, out, session)?;
    right &= moves_of_fillings(rt, out, session)?;
    right &= undos(rt, out, session);
    Ok(right & swaps(rt, out, session))
}

/// Lists at a desk.
fn desk_by<'a, R: AllocGlobal + Threads + Wait + Sync, W: Write>(
    rt: &R,
    out: &mut W,
    desk: &'a Desk,
    session: &'a Session,
    early: &'a Ticket,
    list: &'a [Op],
    second: &'a Ticket,
    short: &'a [Op],
) -> bool
    requires same { session.now.base ≡ desk.now.base }
    requires of { IsOf desk.now early.now }
    requires of_second { IsOf desk.now second.now }
{
    let published = Trial::Publish(Publishing {
        desk,
        session,
        early,
        list,
        second,
        short,
    });
    let right = try_with(rt, out, "desk_two_threads, publish", published);
    let opened = Trial::Open(Publishing {
        desk,
        session,
        early,
        list,
        second,
        short,
    });
    right & try_with(rt, out, "desk_two_threads, open", opened)
}

/// The ticket of a session's list, and the list.
fn publish_one<R: AllocGlobal + Wait>(
    rt: &R,
    desk: &Desk,
    session: &Session,
) -> Result<(Ticket, Vec<Op>), RunFault>
    requires { session.now.base ≡ desk.now.base }
    ensures { IfOk result (λ made. IsOf desk.now made.0) }
{
    let Ok(ticket) = desk.publish(rt, session) else {
        return Err(RunFault::NoMemory);
    };
    let list = list_of(rt.alloc(), session)?;
    Ok((ticket, list))
}

/// A desk for the base of a session.
fn desk_of(alloc: Global, session: &Session) -> Result<Desk, RunFault>
    ensures { IfOk result (λ desk. session.now.base ≡ desk.base) }
{
    let Ok(base) = Arc::try_clone(session.base()) else {
        return Err(RunFault::NoMemory);
    };
    match Desk::new(alloc, base) {
        Ok(desk) => Ok(desk),
        Err(_) => Err(RunFault::NoMemory),
    }
}

/// The same of a desk at which the session's list is published, without its last step too.
fn desk_with<R: AllocGlobal + Threads + Wait + Sync, W: Write>(
    rt: &R,
    out: &mut W,
    session: &mut Session,
    desk: &Desk,
    early: &Ticket,
    list: &[Op],
) -> Result<bool, RunFault>
    requires same { session.old.base ≡ desk.now.base }
    requires of { IsOf desk.now early.now }
    ensures { session.new.base ≡ session.old.base }
{
    let edited = session.apply(edit_of(Kind::Remove)).is_ok();
    let published = publish_one(rt, desk, session);
    let back = session.undo() == Ok(true);
    match published {
        Ok((second, short)) => {
            Ok(edited && back && desk_by(rt, out, desk, session, early, list, &second, &short))
        }
        Err(fault) => Err(fault),
    }
}

/// The same of a desk, and what reads it.
fn desk_rows<R: AllocGlobal + Threads + Wait + Sync, W: Write>(
    rt: &R,
    out: &mut W,
    session: &mut Session,
    desk: &Desk,
) -> Result<bool, RunFault>
    requires { session.old.base ≡ desk.now.base }
{
    let (early, list) = match publish_one(rt, desk, session) {
        Ok(published) => published,
        Err(fault) => return Err(fault),
    };
    let right = desk_with(rt, out, session, desk, &early, &list);
    let mut readers = Trial::Readers(Readers {
        session,
        desk,
        ticket: &early,
    });
    let free = is_free(watch(rt, &mut readers));
    let said = note_free(out, "readers of a session and a desk", "", free);
    match right {
        Ok(right) => Ok(right && said),
        Err(fault) => Err(fault),
    }
}

/// Lists at a desk.
fn desks<R: AllocGlobal + Threads + Wait + Sync, W: Write>(
    rt: &R,
    out: &mut W,
    session: &mut Session,
) -> Result<bool, RunFault> {
    match desk_of(rt.alloc(), session) {
        Ok(desk) => desk_rows(rt, out, session, &desk),
        Err(fault) => Err(fault),
    }
}

/// Wrong bodies.
fn wrong<R: AllocGlobal + Threads + Wait + Sync, W: Write>(rt: &R, out: &mut W) -> bool {
    let retry = watch(rt, &mut Trial::Retry);
    let mut right = note_caught(out, "a body that asks again for less", retry);
    let swallow = watch(rt, &mut Trial::Swallow);
    right &= note_caught(out, "a body that goes on without", swallow);
    let half = watch(rt, &mut Trial::LeaveHalf(LeavesHalf::new(rt.alloc())));
    right & note_caught(out, "a body that leaves half of an edit", half)
}

/// Calls that ask for none.
fn free_calls<W: Write>(alloc: Global, out: &mut W, session: &Session) -> Result<bool, RunFault> {
    let figures = figures_are_free(alloc, session.base());
    let right = note_free(out, "figures of a condition", "", figures);
    let rows = [
        ("boards and scans", are_free(alloc)),
        ("numbers, cells and bodies", numbers_are_free(alloc)),
        ("messages, copies and sinks", texts_are_free(alloc)),
        ("ships and steps", ships_are_free(alloc)),
    ];
    let mut all = right;
    for (name, free) in rows {
        match free {
            Ok(free) => all &= note_free(out, name, "", free),
            Err(_) => return Err(RunFault::NoMemory),
        }
    }
    Ok(all)
}

/// All rows. Whether nothing was wrong.
pub fn all<R: AllocGlobal + Threads + Wait + Sync, W: Write>(
    rt: &R,
    out: &mut W,
) -> Result<bool, RunFault> {
    let mut right = reports(rt, out)?;
    let mut session = Session::read(rt.alloc(), &inputs())?;
    right &= sessions(rt, out, &mut session)?;
    right &= desks(rt, out, &mut session)?;
    right &= free_calls(rt.alloc(), out, &session)?;
    right &= wrong(rt, out);
    Ok(right)
}
