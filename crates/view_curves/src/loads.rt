//! The loads at each frame over all conditions.
use fractions::is_less;
use ship_profile::{Frame, Frames};
use strength::Strains;
use units_core::Frac;
use worst_values::bending_limit;

/// The most frames that a ship has.
pub const FRAMES: usize = 16;

/// A load, and the first step at which it stands.
#[derive(Clone, Copy, Debug, Default)]
pub struct Load {
    pub load: i64,
    pub step: u32,
}

/// The loads at a frame over some conditions: the least and the greatest of each kind, and the one
/// that uses most of its limit.
#[derive(Clone, Copy, Debug, Default)]
pub struct Reach {
    pub shear_least: i64,
    pub shear_greatest: i64,
    pub bending_least: i64,
    pub bending_greatest: i64,
    pub shear: Load,
    pub bending: Load,
}

/// The loads at each frame over some conditions; `count` is 0 where there is none.
#[derive(Clone, Copy, Debug, Default)]
pub struct Reaches {
    pub count: u32,
    pub frames: [Reach; FRAMES],
}

/// The size of a load by its limit, which counts as 1 where it is 0.
fn part_of(load: i64, frame: &Frame) -> Frac {
    let most = bending_limit(frame, load);
    Frac {
        num: i128::from(load.unsigned_abs()),
        den: i128::from(most.max(1)),
    }
}

/// Whether a bending moment uses less of its limit than another. Most have one sign, and so one
/// limit.
fn uses_less(one: i64, other: i64, frame: &Frame) -> bool {
    if (one >= 0) == (other >= 0) {
        return one.unsigned_abs() < other.unsigned_abs();
    }
    is_less(part_of(one, frame), part_of(other, frame))
}

/// Whether a load lies between others.
fn is_between(load: i64, least: i64, greatest: i64) -> bool {
    least <= load && load <= greatest
}

/// The load at a frame of a condition.
fn reach_at(shear: i64, bending: i64, step: u32) -> Reach {
    Reach {
        shear_least: shear,
        shear_greatest: shear,
        bending_least: bending,
        bending_greatest: bending,
        shear: Load { load: shear, step },
        bending: Load {
            load: bending,
            step,
        },
    }
}

impl Reach {
    /// Joins a shear force and a bending moment, which are behind.
    fn note_worst(&mut self, shear: Load, bending: Load, frame: &Frame) {
        if self.shear.load.unsigned_abs() < shear.load.unsigned_abs() {
            self.shear = shear;
        }
        if uses_less(self.bending.load, bending.load, frame) {
            self.bending = bending;
        }
    }

    /// Whether loads lie between those that were there: then neither uses more of its limit than
    /// the one that uses most, which is the least or the greatest of its kind.
    fn has(&self, shear: i64, bending: i64) -> bool {
        is_between(shear, self.shear_least, self.shear_greatest)
            && is_between(bending, self.bending_least, self.bending_greatest)
    }

    /// Joins the loads of the condition of a step.
    fn note(&mut self, shear: i64, bending: i64, step: u32, frame: &Frame) {
        if self.has(shear, bending) {
            return;
        }
        self.shear_least = self.shear_least.min(shear);
        self.shear_greatest = self.shear_greatest.max(shear);
        self.bending_least = self.bending_least.min(bending);
        self.bending_greatest = self.bending_greatest.max(bending);
        let shear = Load { load: shear, step };
        let bending = Load {
            load: bending,
            step,
        };
        self.note_worst(shear, bending, frame);
    }

    /// Joins the loads of others, which are behind.
    fn join(&mut self, behind: &Reach, frame: &Frame) {
        self.shear_least = self.shear_least.min(behind.shear_least);
        self.shear_greatest = self.shear_greatest.max(behind.shear_greatest);
        self.bending_least = self.bending_least.min(behind.bending_least);
        self.bending_greatest = self.bending_greatest.max(behind.bending_greatest);
        self.note_worst(behind.shear, behind.bending, frame);
    }
}

impl Reaches {
    /// Joins the conditions of others, which are behind.
    pub fn join(&mut self, behind: &Reaches, frames: &Frames) {
        if behind.count == 0 {
            return;
        }
        if self.count == 0 {
            *self = *behind;
            return;
        }
        self.count = self.count.saturating_add(behind.count);
        let mut at = 0usize;
        for frame in frames.as_slice() {
            if at < FRAMES {
                self.frames[at].join(&behind.frames[at], frame);
                at += 1;
            }
        }
    }

    /// Joins the condition of a step.
    pub fn note(&mut self, strains: &Strains, step: u32, frames: &Frames) {
        let is_first = self.count == 0;
        self.count = self.count.saturating_add(1);
        let mut at = 0usize;
        for frame in frames.as_slice() {
            if at < FRAMES {
                let (shear, bending) = (strains.shear[at], strains.bending[at]);
                if is_first {
                    self.frames[at] = reach_at(shear, bending, step);
                } else {
                    self.frames[at].note(shear, bending, step, frame);
                }
                at += 1;
            }
        }
    }

    /// The loads that use most of their limits.
    pub fn worst(&self) -> Strains {
        let mut strains = Strains::default();
        for at in 0..FRAMES {
            strains.shear[at] = self.frames[at].shear.load;
            strains.bending[at] = self.frames[at].bending.load;
        }
        strains
    }
}
