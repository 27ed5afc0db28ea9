//! What inputs are read as, where they aren't refused. Out of memory is no refusal of theirs.
use std::alloc::{AllocError, Global};
use stow_messages::{Item, Lift, StepRow, StepsCode, StowCode, baplie, movins, steps};

/// The items of a bay plan; `None` where it is refused.
pub fn items_read(alloc: Global, text: &[u8]) -> Result<Option<Vec<Item>>, AllocError> {
    match baplie(alloc, text) {
        Ok(items) => Ok(Some(items)),
        Err(fault) if fault.code == StowCode::NoMemory => Err(AllocError),
        Err(_) => Ok(None),
    }
}

/// The lifts of a movement instruction; `None` where it is refused.
pub fn lifts_read(alloc: Global, text: &[u8]) -> Result<Option<Vec<Lift>>, AllocError> {
    match movins(alloc, text) {
        Ok(lifts) => Ok(Some(lifts)),
        Err(fault) if fault.code == StowCode::NoMemory => Err(AllocError),
        Err(_) => Ok(None),
    }
}

/// The rows of a steps file for an instruction of so many lifts; `None` where it is refused.
pub fn rows_read(
    alloc: Global,
    text: &[u8],
    lifts: u32,
) -> Result<Option<Vec<StepRow>>, AllocError> {
    match steps(alloc, text, lifts) {
        Ok(rows) => Ok(Some(rows)),
        Err(fault) if fault.code == StepsCode::NoMemory => Err(AllocError),
        Err(_) => Ok(None),
    }
}
