use arrayvec::ArrayVec;

/// The loads on a hull: at each frame of the ship, in their order, and the closing error.
#[derive(Drop)]
pub struct Loads {
    pub frames: ArrayVec<FrameLoad, 16>,
    /// The buoyancy of all intervals between stations less the displacement, in kg.
    pub closing: i128,
}

/// The loads at one frame.
#[derive(Clone, Copy, Debug, Default, PartialEq, Eq)]
pub struct FrameLoad {
    /// The weight aft of the frame less the buoyancy there, in kg.
    pub shear: i128,
    /// The moment of both about the frame, in kg mm, hogging positive.
    pub bending: i128,
}

/// The numbers of [`Loads`] in one place, in which they are worked out: they are written anew for
/// each condition, and no list grows. 64 bits are enough for each load that a ship of these sizes
/// can have. [`Strains::loads`] makes [`Loads`] of them.
#[derive(Clone, Copy, Default)]
pub struct Strains {
    /// The shear forces by the numbers of the frames, 0 behind the last.
    pub shear: [i64; 16],
    /// The bending moments, in the same way.
    pub bending: [i64; 16],
    /// The closing error.
    pub closing: i64,
}
