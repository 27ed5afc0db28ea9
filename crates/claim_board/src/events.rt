use crate::entries::Entry;

/// Whether a worker may act.
#[derive(Clone, Copy, Debug, PartialEq, Eq)]
pub enum Status {
    /// It draws numbers.
    Runs,
    /// It drew a number past the last chunk and stopped.
    Stopped,
    /// It was refused: it stopped before its work was done.
    Refused,
}

/// What the worker of the given number does. Every event asks that this worker is there and runs:
/// that it has neither stopped nor been refused. An event that isn't enabled changes nothing.
#[derive(Clone, Copy, Debug, PartialEq, Eq)]
pub enum Event {
    /// Draws the next number. Enabled where the worker has no entry, or its newest one is skipped,
    /// posted or worked with no failing step. It gets a new entry, whose stage is `Drawn`, and the
    /// next number rises by one.
    Draw(u8),
    /// Looks at the least failing step posted so far. Enabled where the newest entry is drawn and
    /// has the number of a chunk. The entry keeps what it saw, and its stage becomes `Looked`.
    Look(u8),
    /// Leaves the chunk out. Enabled where the newest entry has looked and saw a step before the
    /// chunk's first. Its stage becomes `Skipped`.
    Skip(u8),
    /// Works the chunk. Enabled where the newest entry has looked and saw no step before the
    /// chunk's first. Its stage becomes `Worked`, with the chunk's first failing step or none.
    Work(u8),
    /// Posts a failing step. Enabled where the newest entry is worked with such a step. The least
    /// step becomes the lesser of this one and what it was, and the entry's stage becomes `Posted`.
    Post(u8),
    /// Stops. Enabled where the newest entry is drawn and its number is past the last chunk.
    Stop(u8),
    /// Ends a worker before its work is done. Always enabled of a worker that runs, with or without
    /// entries.
    Refuse(u8),
}

/// What an event makes of its worker's entries and of the board.
#[derive(Clone, Copy)]
pub struct Outcome {
    /// Whether `newest` is a new entry. Where it isn't, it takes the place of the newest entry, if
    /// there is one.
    pub draws: bool,
    /// The newest entry afterwards.
    pub newest: Entry,
    /// What becomes of the worker.
    pub status: Status,
    /// The next number afterwards.
    pub next: u32,
    /// The least step posted, afterwards.
    pub least: Option<u32>,
}
