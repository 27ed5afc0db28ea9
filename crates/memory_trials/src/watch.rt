//! Growths that are refused in turn. `tests/refusing_heap.c`, which a script preloads, reads
//! requests of two kinds of sizes that no heap can meet as messages: one says which growth of which
//! thread is to be refused from now on, the other asks whether it was. Without it every growth is
//! granted.
use crate::trials::{Told, Trial};
use std::alloc::Global;
use std::sync::Wait;
use std::thread::Threads;

/// The size by which growth 0 of thread 0 is named: 24 bits are the growth's number, the 8 bits
/// above it the thread's.
const ARM: usize = 0x5EED_0000_0000;

/// The size by which is asked whether a growth was refused since one was named.
const ASK: usize = 0x5EEE_0000_0000;

/// How many threads of a call are tried: the caller's, which gathers too, and those that it starts,
/// in their order.
const THREADS: usize = 12;

/// In place of a thread's number: the threads themselves, of which the one of this number isn't
/// started.
const STARTS: usize = 255;

/// Fewer growths than these are tried of a thread.
const GROWTHS: usize = 20_000;

/// How many growths were refused, and after how many of them, or of calls without one, something
/// was wrong.
#[derive(Clone, Copy, Debug, Default)]
pub struct Tally {
    pub refused: u32,
    pub wrong: u32,
}

/// From now on the growth of this number is refused, the first being 1.
pub fn refuse(alloc: Global, thread: usize, growth: usize) {
    let message = ARM
        .saturating_add(thread.saturating_mul(0x0100_0000))
        .saturating_add(growth);
    let _ = Vec::<u8>::with_capacity(alloc, message);
}

/// Whether it was refused. No growth is refused any more.
pub fn was_refused(alloc: Global) -> bool {
    Vec::<u8>::with_capacity(alloc, ASK).is_ok()
}

/// Whether a call that a growth was refused said so, left everything as it was, and succeeds where
/// it is made again.
fn is_told<R: AllocGlobal + Threads + Wait + Sync>(
    rt: &R,
    trial: &mut Trial<'_>,
    told: Told,
) -> bool {
    told == Told::Short
        && trial.is_as_before()
        && trial.call(rt) == Told::Right
        && trial.is_done(rt.alloc())
}

/// Refuses each growth of a thread in turn.
fn watch_thread<R: AllocGlobal + Threads + Wait + Sync>(
    rt: &R,
    trial: &mut Trial<'_>,
    thread: usize,
    tally: &mut Tally,
) {
    for growth in 1..GROWTHS {
        refuse(rt.alloc(), thread, growth);
        let told = trial.call(rt);
        let refused = was_refused(rt.alloc());
        let right = if refused {
            tally.refused = tally.refused.saturating_add(1);
            is_told(rt, trial, told)
        } else {
            told == Told::Right && trial.is_done(rt.alloc())
        };
        if !right {
            tally.wrong = tally.wrong.saturating_add(1);
            return;
        }
        if !refused {
            return;
        }
    }
}

/// Refuses each growth of a call in turn, in the caller and in each thread that it starts, and then
/// each of these threads.
pub fn watch<R: AllocGlobal + Threads + Wait + Sync>(rt: &R, trial: &mut Trial<'_>) -> Tally {
    let mut tally = Tally::default();
    for thread in 0..THREADS {
        watch_thread(rt, trial, thread, &mut tally);
    }
    watch_thread(rt, trial, STARTS, &mut tally);
    tally
}
