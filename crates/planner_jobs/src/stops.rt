//! Why a job ends without its digest.
use std::alloc::AllocError;

/// Why a job ends without its digest.
#[derive(Clone, Copy, Debug, PartialEq, Eq)]
pub enum Stop {
    /// The words aren't those of a job.
    Usage,
    /// A file of the ship can't be read.
    Unread,
    /// An input was refused, which should be right.
    Refused,
    /// Out of memory.
    NoMemory,
}

impl From<AllocError> for Stop {
    fn from(_error: AllocError) -> Stop {
        Stop::NoMemory
    }
}

impl Stop {
    /// In a few words.
    pub fn text(self) -> &'static str {
        match self {
            Stop::Usage =>
                "usage: planner_jobs plan|safe|trial|desk|fleet|restow|all FOLDER SEED ROUNDS",
            Stop::Unread => "a file of the ship can't be read",
            Stop::Refused => "an input was refused",
            Stop::NoMemory => "no memory",
        }
    }
}
