ghost use Rattle.std.specs.Prelude.{◌≡◌, ◌&&◌, int_le};
ghost use Rattle.ship_tables.specs.Extents.{encloses, holds};

use units_core::{Mm, Place};

/// How far the ship reaches along her length: from her first station to her last.
#[derive(Clone, Copy, Debug, PartialEq, Eq)]
pub struct Extent {
    /// Her first station, in mm forward of the after perpendicular.
    pub aft: Mm,
    /// Her last station, in mm forward of the after perpendicular.
    pub fore: Mm,
}

/// Whether a stretch lies within another, their ends among them.
fn is_between(aft: i128, low: i128, high: i128, fore: i128) -> bool
    ensures { result ≡ (int_le aft low && int_le high fore) }
{
    aft <= low && high <= fore
}

/// Whether what reaches `half` aft and forward of `x` is within the extent, its ends among it.
pub fn encloses(extent: Extent, x: i64, half: i64) -> bool
    ensures { result ≡ encloses extent x half }
{
    let aft = i128::from(extent.aft.get());
    let fore = i128::from(extent.fore.get());
    let low = i128::from(x) - i128::from(half);
    let high = i128::from(x) + i128::from(half);
    is_between(aft, low, high, fore)
}

impl Extent {
    /// Whether a body at a place is within the extent with all its length, its ends among it.
    pub fn holds(&self, place: &Place) -> bool
        ensures { result ≡ holds self.now place.now }
    {
        encloses(*self, i64::from(place.x.get()), i64::from(place.half.get()))
    }
}
