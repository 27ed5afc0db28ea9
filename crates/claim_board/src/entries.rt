/// How far a worker has come with a chunk.
#[derive(Clone, Copy, Debug, PartialEq, Eq)]
pub enum Stage {
    /// Its number is drawn.
    Drawn,
    /// The least failing step so far was looked at.
    Looked,
    /// A failing step before the chunk is known, so the chunk isn't worked.
    Skipped,
    /// The chunk is worked: its first failing step, or none.
    Worked(Option<u32>),
    /// The first failing step of the chunk is posted.
    Posted(u32),
}

/// What a worker did with a number that it drew.
#[derive(Clone, Copy, Debug, PartialEq, Eq)]
pub struct Entry {
    /// The number: that of a chunk, or one past the last chunk.
    pub number: u32,
    /// What the look gave: the least failing step that was posted before it, or none.
    pub looked: Option<u32>,
    /// How far it has come.
    pub stage: Stage,
}
