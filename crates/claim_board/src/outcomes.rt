ghost use Rattle.std.specs.Prelude.{◌≡◌, ◌+◌, ◌<◌, ◌^◌, ◌-◌, List, None, slice_index};
ghost use Rattle.claim_board.specs.Entries.{ended, is_ended, lesser};
ghost use Rattle.claim_board.specs.Board.{Hand, State, board, found_of, is_before, draws_next};
ghost use Rattle.claim_board.specs.Board.{becomes, outcome_of};

use crate::entries::{Entry, Stage};
use crate::events::{Event, Outcome, Status};

/// Whether a worker goes on to the next number from this stage.
fn is_end(stage: Stage) -> bool
    ensures { result ≡ is_ended stage }
{
    match stage {
        Stage::Drawn | Stage::Looked | Stage::Worked(Some(_)) => false,
        Stage::Skipped | Stage::Worked(None) | Stage::Posted(_) => true,
    }
}

/// Whether the look gave a step before the chunk's first.
fn saw_before(begin: u32, looked: Option<u32>) -> bool
    ensures { result ≡ is_before begin looked }
{
    match looked {
        Some(step) => step < begin,
        None => false,
    }
}

/// The lesser of the least step so far and a step that is posted.
fn least_with(least: Option<u32>, step: u32) -> Option<u32>
    ensures { result ≡ lesser least step }
{
    match least {
        Some(other) => Some(other.min(step)),
        None => Some(step),
    }
}

/// A chunk's first step. Past the last chunk it is 0, as in the definition, so that nothing has to
/// be known of the number.
fn begin_of(begins: &[u32], number: u32) -> u32
    ensures { result ≡ slice_index begins.now number }
{
    match begins.get(number as usize) {
        Some(begin) => *begin,
        None => 0,
    }
}

/// A chunk's first failing step; none past the list's end.
fn find_of(found: &[Option<u32>], number: u32) -> Option<u32>
    ensures { result ≡ found_of found.now number }
{
    match found.get(number as usize) {
        Some(step) => *step,
        None => None,
    }
}

/// The entry at another stage.
fn at_stage(entry: Entry, stage: Stage) -> Entry
    ensures { result ≡ ended stage entry }
{
    Entry {
        number: entry.number,
        looked: entry.looked,
        stage,
    }
}

/// The outcome of a draw.
fn draw_outcome(next: u32, least: Option<u32>) -> Outcome
    requires { next < 2 ^ 32 - 1 }
    ensures { result ≡ draws_next next least }
{
    Outcome {
        draws: true,
        newest: Entry {
            number: next,
            looked: None,
            stage: Stage::Drawn,
        },
        status: Status::Runs,
        next: next + 1,
        least,
    }
}

/// The outcome of any other event, by what becomes of the newest entry.
fn entry_outcome(newest: Entry, status: Status, next: u32, least: Option<u32>) -> Outcome
    ensures { result ≡ becomes newest status next least }
{
    Outcome {
        draws: false,
        newest,
        status,
        next,
        least,
    }
}

/// What the event makes of a worker that runs and has no entry yet.
fn first_outcome(event: Event, next: u32, least: Option<u32>) -> Option<Outcome>
    requires { next < 2 ^ 32 - 1 }
    ensures { (s : State) → s.next ≡ next → s.least ≡ least → result ≡ outcome_of s event None }
{
    match event {
        Event::Draw(_) => Some(draw_outcome(next, least)),
        Event::Refuse(_) => {
            let none = Entry {
                number: next,
                looked: None,
                stage: Stage::Drawn,
            };
            Some(entry_outcome(none, Status::Refused, next, least))
        }
        _ => None,
    }
}

/// What the event makes of a worker that runs, by its newest entry; `None` where it isn't enabled.
pub fn outcome(
    event: Event,
    newest: Option<Entry>,
    begins: &[u32],
    found: &[Option<u32>],
    next: u32,
    least: Option<u32>,
) -> Option<Outcome>
    requires { next < 2 ^ 32 - 1 }
    ensures { (hands : List Hand)
        → result ≡ outcome_of (board begins.now found.now next least hands) event newest }
{
    let Some(entry) = newest else {
        return first_outcome(event, next, least);
    };
    let seen = Entry {
        number: entry.number,
        looked: least,
        stage: Stage::Looked,
    };
    let begin = begin_of(begins, entry.number);
    let before = saw_before(begin, entry.looked);
    let runs_with = |newest: Entry| Some(entry_outcome(newest, Status::Runs, next, least));
    match (event, entry.stage) {
        (Event::Draw(_), stage) if is_end(stage) => Some(draw_outcome(next, least)),
        (Event::Look(_), Stage::Drawn) if (entry.number as usize) < begins.len() => runs_with(seen),
        (Event::Skip(_), Stage::Looked) if before => runs_with(at_stage(entry, Stage::Skipped)),
        (Event::Work(_), Stage::Looked) if !before => {
            runs_with(at_stage(entry, Stage::Worked(find_of(found, entry.number))))
        }
        (Event::Post(_), Stage::Worked(Some(step))) => {
            let posted = at_stage(entry, Stage::Posted(step));
            Some(entry_outcome(posted, Status::Runs, next, least_with(least, step)))
        }
        (Event::Stop(_), Stage::Drawn) if (entry.number as usize) >= begins.len() => {
            Some(entry_outcome(entry, Status::Stopped, next, least))
        }
        (Event::Refuse(_), _) => Some(entry_outcome(entry, Status::Refused, next, least)),
        _ => None,
    }
}
