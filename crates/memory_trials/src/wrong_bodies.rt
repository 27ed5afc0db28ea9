//! Bodies that treat a refused growth as none should, by which the watch itself is tried.
use crate::trials::Told;
use std::alloc::Global;

/// One that asks again for less, and goes on.
pub fn retry(alloc: Global) -> Told {
    if Vec::<u8>::with_capacity(alloc, 64).is_ok() {
        return Told::Right;
    }
    match Vec::<u8>::with_capacity(alloc, 32) {
        Ok(_) => Told::Right,
        Err(_) => Told::Short,
    }
}

/// One that goes on without the room that it asked for.
pub fn swallow(alloc: Global) -> Told {
    let mut room = Vec::<u8>::new(alloc);
    let _ = room.reserve(64);
    Told::Right
}

/// One that leaves half of an edit: the first of two numbers is kept, where there is no memory for
/// the second.
#[derive(Drop)]
pub struct LeavesHalf {
    numbers: Vec<u32>,
    others: Vec<u32>,
}

impl LeavesHalf {
    /// With no number.
    pub fn new(alloc: Global) -> LeavesHalf {
        LeavesHalf {
            numbers: Vec::new(alloc),
            others: Vec::new(alloc),
        }
    }

    /// Keeps both numbers.
    pub fn keep(&mut self) -> Told {
        if self.numbers.push(1).is_err() {
            return Told::Short;
        }
        match self.others.push(2) {
            Ok(()) => Told::Right,
            Err(_) => Told::Short,
        }
    }

    /// Whether none is kept.
    pub fn is_empty(&self) -> bool {
        self.numbers.is_empty() && self.others.is_empty()
    }

    /// Whether both are kept. None is then.
    pub fn is_kept(&mut self, alloc: Global) -> bool {
        let kept = self.numbers.len() == 1 && self.others.len() == 1;
        self.numbers = Vec::new(alloc);
        self.others = Vec::new(alloc);
        kept
    }
}
