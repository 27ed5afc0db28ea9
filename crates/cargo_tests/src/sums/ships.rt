//! The box ship with two of her frames, at 25,000 and 50,000.
use box_ship::{Check, files, on_ship};
use ship_profile::ProfileBytes;
use std::test::Fail;

static SHIP: &str = "lbp_mm = 100000
downflooding_deg = 60
draught_max_mm = 6100
trim_max_mm = 500
list_max = 500
closing_max_kg = 5000
stations_mm = [0, 25000, 50000, 75000, 100000]
blocks = [{ kg = 8200000, x_mm = 50000, y_mm = 0, z_mm = 6000, half_mm = 50000 }]
[[frames]]
x_mm = 25000
shear_max_kg = 100000
hog_max_kgmm = 1000000000
sag_max_kgmm = 1000000000
[[frames]]
x_mm = 50000
shear_max_kg = 100000
hog_max_kgmm = 1000000000
sag_max_kgmm = 1000000000
";

/// Looks at something on her.
pub fn on_two_frames<R: AllocGlobal, C: Check<R>>(rt: &R, check: &C) -> Result<(), Fail> {
    let files = ProfileBytes {
        ship: SHIP.as_bytes(),
        ..files()
    };
    on_ship(rt, &files, check)
}
