//! Bodies as the tables of the tests write them.
use std::test::Fail;
use units_core::{Body, Mm, Place};

/// A body of a table: its mass, its place and its free surface moment.
#[derive(Clone, Copy)]
pub struct Row {
    pub kg: u32,
    pub x: i32,
    pub y: i32,
    pub z: i32,
    pub half: i32,
    pub fsm: i64,
}

/// A container of 20,501 kg and 6,058 mm, half of which lies aft of the frame at 50,000.
pub const CONTAINER: Row = Row {
    kg: 20_501,
    x: 50_000,
    y: 1_200,
    z: 10_400,
    half: 3_029,
    fsm: 7_000_003,
};

/// A body of 900 kg to port, cut by the frame at 25,000.
pub const BOX: Row = Row {
    kg: 900,
    x: 26_000,
    y: -3_000,
    z: 2_000,
    half: 4_000,
    fsm: 11,
};

/// The length of this number of millimetres.
pub fn length(mm: i32) -> Result<Mm, Fail> {
    Ok(Mm::new(mm).ok_or("a length")?)
}

impl Row {
    /// The body.
    pub fn body(&self) -> Result<Body, Fail> {
        let place = Place {
            x: length(self.x)?,
            y: length(self.y)?,
            z: length(self.z)?,
            half: length(self.half)?,
        };
        Ok(Body::new(self.kg, place, self.fsm).ok_or("a body")?)
    }
}
