//! What is said of each row: how many growths were refused, that none was asked for, or that a
//! wrong body was caught.
use crate::trials::Trial;
use crate::watch::{Tally, watch};
use std::io::Write;
use std::sync::Wait;
use std::thread::Threads;

/// Says how many growths of a row were refused, and of which edit, if it is of one. Whether nothing
/// was wrong.
pub fn note<W: Write>(out: &mut W, name: &str, edit: &str, tally: Tally) -> bool {
    let refused = tally.refused;
    let said = writeln!(out, "{name}{edit}: {refused} growths refused").is_ok();
    if tally.wrong > 0 {
        let _ = writeln!(out, "{name}{edit}: WRONG at the last of them");
    }
    said && tally.wrong == 0
}

/// Whether nothing was asked for, and all was right.
pub fn is_free(tally: Tally) -> bool {
    tally.refused == 0 && tally.wrong == 0
}

/// The same of a row that asks for none.
pub fn note_free<W: Write>(out: &mut W, name: &str, edit: &str, free: bool) -> bool {
    let said = if free {
        "asks for none"
    } else {
        "WRONG: it asks for memory, or answers otherwise"
    };
    writeln!(out, "{name}{edit}: {said}").is_ok() && free
}

/// The same of a wrong body, which has to be caught where a growth was refused.
pub fn note_caught<W: Write>(out: &mut W, name: &str, tally: Tally) -> bool {
    let caught = tally.wrong > 0 || tally.refused == 0;
    let said = if caught {
        "would be caught"
    } else {
        "NOT CAUGHT"
    };
    writeln!(out, "{name}: {said}").is_ok() && caught
}

/// Tries a call, and says how many of its growths were refused.
pub fn try_with<R: AllocGlobal + Threads + Wait + Sync, W: Write>(
    rt: &R,
    out: &mut W,
    name: &str,
    mut trial: Trial<'_>,
) -> bool {
    note(out, name, "", watch(rt, &mut trial))
}
