ghost use Rattle.std.specs.Prelude.{◌≡◌, ◌≤◌, length};

use crate::measures::Mm;
use std::marker::Model;

/// A frame at which the loads on the hull are judged, and the greatest loads there.
#[derive(Clone, Copy, Debug, PartialEq, Eq)]
pub struct Frame {
    /// Its place: at one of the stations.
    pub x: Mm,
    /// The greatest shear force either way, in kg.
    pub shear_max: i64,
    /// The greatest hogging moment, in kg mm.
    pub hog_max: i64,
    /// The greatest sagging moment, in kg mm.
    pub sag_max: i64,
}

/// The frames of a ship, 1 to 16.
#[derive(Debug, Drop)]
pub struct Frames {
    frames: Vec<Frame>,
}

impl Model for Frames {
    ghost use Rattle.std.specs.Prelude.{List, length, ◌≤◌};
    ghost use Rattle.units_core.specs.declared.frames.Frame.{Frame};

    ghost Value = { List Frame };

    ghost view = { λ f. f.frames.items };

    ghost invariant = { λ f. (1 ≤ length f.frames.items) × (length f.frames.items ≤ 16) };
}

impl Frames {
    /// These frames, 1 to 16, in their order along the ship.
    pub fn new(frames: Vec<Frame>) -> Frames
        requires { (1 ≤ length frames.items) × (length frames.items ≤ 16) }
        ensures { result ≡ frames.items }
    {
        Frames { frames }
    }

    /// The frames in their order along the ship.
    pub fn as_slice(&self) -> &[Frame]
        ensures value { result.now ≡ self.now }
        ensures some { 1 ≤ length result.now }
        ensures few { length result.now ≤ 16 }
    {
        self.frames.as_slice()
    }
}
