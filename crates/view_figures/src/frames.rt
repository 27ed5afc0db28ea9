//! The loads of a condition, frame by frame.
use crate::rows::{FORCE_UNIT, MOMENT_UNIT, Row, row_of_load};
use ship_profile::Profile;
use strength::Strains;
use worst_values::{Limit, bending_limit};

/// The most frames that a ship has.
const FRAMES: usize = 16;

/// The rows of both loads at a frame.
#[derive(Clone, Copy, Debug)]
pub struct FrameRow {
    /// Its place in mm forward of the after perpendicular.
    pub x: i32,
    pub shear: Row,
    pub bending: Row,
}

/// The rows of a ship's frames, in their order; none behind the last.
pub type FrameRows = [Option<FrameRow>; FRAMES];

/// The rows of the loads at each frame.
pub fn frame_rows(profile: &Profile, strains: &Strains) -> FrameRows {
    let frames = profile.frames().as_slice();
    let mut rows = [None; FRAMES];
    for at in 0..FRAMES {
        if let Some(frame) = frames.get(at) {
            let place = at as u32;
            let bending = strains.bending[at];
            let most = bending_limit(frame, bending);
            rows[at] = Some(FrameRow {
                x: frame.x.get(),
                shear: row_of_load(
                    Limit::Shear,
                    place,
                    i128::from(strains.shear[at]),
                    frame.shear_max,
                    FORCE_UNIT,
                ),
                bending: row_of_load(
                    Limit::Bending,
                    place,
                    i128::from(bending),
                    most,
                    MOMENT_UNIT,
                ),
            });
        }
    }
    rows
}
