//! The box ship: the worked example of the tests from `lift_sequence` to `seq_report`, and of the
//! program in `crates/own_program`. She is 100 m long and 20 m broad, with vertical sides and a
//! flat bottom, so that her tables are worked out by hand. `loadseq` doesn't read her.
//!
//! In sea water of 1,025 kg/m3 she displaces 100 * 20 * 1,025 = 2,050,000 kg for each metre of
//! draught `T`:
//!
//! | `T` | displacement | KB = T / 2 | BM = 20^2 / (12 T) | KMT = KB + BM |
//! |---|---|---|---|---|
//! | 2 m | 4,100,000 kg | 1,000 mm | 16,667 mm | 17,667 mm |
//! | 4 m | 8,200,000 kg | 2,000 mm | 8,333 mm | 10,333 mm |
//! | 6 m | 12,300,000 kg | 3,000 mm | 5,556 mm | 8,556 mm |
//!
//! Her centres of buoyancy and flotation lie at half her length. At 4 m a trim of 1 mm takes
//! 8,200,000 * 100,000^2 / (12 * 4,000) / 100,000 = 17,083,333 kg mm; the table has 17,000,000 for
//! all draughts, so that trims come out round. At a draught of 8 m the immersed area of each
//! section is 20 * 8 = 160 m2 = 1,600,000 cm2. The cross curves are given, the same for all
//! displacements, and so is the tank.
//!
//! Without cargo she is one block of 8,200,000 kg over her whole length, 6,000 mm above the keel:
//! draught 4,000 mm, no trim, no list, GM = 10,333 - 6,000 = 4,333 mm. Buoyancy and mass agree in
//! every section, so there is neither shear nor bending.
#![tactic(auto)]

use ship_profile::{Profile, ProfileBytes};
use std::test::Fail;

/// `ship.toml` before its blocks, for ships of other blocks: her length and limits, five stations
/// 25 m apart, and a frame at each. [`SHIP`] says it again, since a constant isn't put together of
/// two.
pub const LIMITS: &str = "lbp_mm = 100000
downflooding_deg = 60
draught_max_mm = 6100
trim_max_mm = 500
list_max = 500
closing_max_kg = 5000
stations_mm = [0, 25000, 50000, 75000, 100000]
[[frames]]
x_mm = 0
shear_max_kg = 100000
hog_max_kgmm = 1000000000
sag_max_kgmm = 1000000000
[[frames]]
x_mm = 25000
shear_max_kg = 100000
hog_max_kgmm = 1000000000
sag_max_kgmm = 1000000000
[[frames]]
x_mm = 50000
shear_max_kg = 100000
hog_max_kgmm = 1000000000
sag_max_kgmm = 1000000000
[[frames]]
x_mm = 75000
shear_max_kg = 100000
hog_max_kgmm = 1000000000
sag_max_kgmm = 1000000000
[[frames]]
x_mm = 100000
shear_max_kg = 100000
hog_max_kgmm = 1000000000
sag_max_kgmm = 1000000000
";

/// `ship.toml`: [`LIMITS`], and the ship without cargo as one block.
pub const SHIP: &str = "lbp_mm = 100000
downflooding_deg = 60
draught_max_mm = 6100
trim_max_mm = 500
list_max = 500
closing_max_kg = 5000
stations_mm = [0, 25000, 50000, 75000, 100000]
[[frames]]
x_mm = 0
shear_max_kg = 100000
hog_max_kgmm = 1000000000
sag_max_kgmm = 1000000000
[[frames]]
x_mm = 25000
shear_max_kg = 100000
hog_max_kgmm = 1000000000
sag_max_kgmm = 1000000000
[[frames]]
x_mm = 50000
shear_max_kg = 100000
hog_max_kgmm = 1000000000
sag_max_kgmm = 1000000000
[[frames]]
x_mm = 75000
shear_max_kg = 100000
hog_max_kgmm = 1000000000
sag_max_kgmm = 1000000000
[[frames]]
x_mm = 100000
shear_max_kg = 100000
hog_max_kgmm = 1000000000
sag_max_kgmm = 1000000000
[[blocks]]
kg = 8200000
x_mm = 50000
y_mm = 0
z_mm = 6000
half_mm = 50000
";

/// Five places on deck, 10 m above the keel, all but one of 20 feet: 0030082 amidships, 0030782
/// beside it, 8 m to starboard; 0010082 and 0050082 a quarter of the length forward and aft of it;
/// and 0020082 of 40 feet, over the bays 001 and 003.
pub const CELLS: &str = "cell,x,y,z,half
0010082,75000,0,10000,3029
0020082,62500,0,10000,6096
0030082,50000,0,10000,3029
0030782,50000,8000,10000,3029
0050082,25000,0,10000,3029
";

/// Her hydrostatic table, as worked out above.
pub const HYDRO: &str = "kg,draught,kmt,lcb,lcf,mct
4100000,2000,17667,50000,50000,17000000
8200000,4000,10333,50000,50000,17000000
12300000,6000,8556,50000,50000,17000000
";

/// Her cross curves.
pub const KN: &str = "kg,0,5,10,15,20,25,30,35,40,45,50,55,60
4100000,0,900,1790,2650,3470,4230,4900,5400,5750,5980,6110,6150,6110
12300000,0,900,1790,2650,3470,4230,4900,5400,5750,5980,6110,6150,6110
";

/// Her Bonjean curves: the same rectangle at each station.
pub const BONJEAN: &str = "draught,0,25000,50000,75000,100000
0,0,0,0,0,0
8000,1600000,1600000,1600000,1600000,1600000
";

/// A double bottom tank amidships. Its centre rises to 1 m and its free surface moment to
/// 2,050,000,000 kg mm while it is filled.
pub const TANKS: &str = "tank,kg,x,y,z,half,fsm
DB1,0,50000,0,0,5000,0
DB1,500000,50000,0,1000,5000,2050000000
";

/// A bay plan without a container.
pub const EMPTY_PLAN: &[u8] =
    b"UNB+UNOA:2+SHIP+PLAN+250101:1200+7'UNH+1+BAPLIE:D:95B:UN'UNT+2+1'UNZ+1+7'";

/// A movement instruction without a lift.
pub const NO_MOVES: &[u8] =
    b"UNB+UNOA:2+PLAN+SHIP+250101:1200+8'UNH+1+MOVINS:D:95B:UN'UNT+2+1'UNZ+1+8'";

/// A container of 20,500 kg comes aboard to starboard.
pub const LOAD_TO_STARBOARD: &[u8] =
    b"UNB+UNOA:2+PLAN+SHIP+250101:1200+8'UNH+1+MOVINS:D:95B:UN'HAN+LOA'LOC+147+0030782::5'MEA+WT++KGM:20500'EQD+CN+ABCU1234560'UNT+6+1'UNZ+1+8'";

/// Her files. She has no table of least metacentric heights.
pub fn files() -> ProfileBytes<'static> {
    ProfileBytes {
        ship: SHIP.as_bytes(),
        cells: CELLS.as_bytes(),
        hydro: HYDRO.as_bytes(),
        kn: KN.as_bytes(),
        bonjean: BONJEAN.as_bytes(),
        tanks: TANKS.as_bytes(),
        gm: None,
    }
}

/// What a test looks at, in a runtime `R`.
pub trait Check<R> {
    /// Looks at it on a ship.
    fn check(&self, rt: &R, profile: &Profile) -> Result<(), Fail>;
}

/// Looks at something on the ship of these files. This alone owns a profile, since each way of
/// letting one go is long to prove.
pub fn on_ship<R: AllocGlobal, C: Check<R>>(
    rt: &R,
    files: &ProfileBytes<'_>,
    check: &C,
) -> Result<(), Fail> {
    let profile = Profile::read(rt.alloc(), files)?;
    check.check(rt, &profile)
}

/// Looks at something on the box ship.
pub fn on_box_ship<R: AllocGlobal, C: Check<R>>(rt: &R, check: &C) -> Result<(), Fail> {
    on_ship(rt, &files(), check)
}
