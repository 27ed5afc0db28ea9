//! How a ship floats, in print, and what is missing to her limits.
use hydrostat::{Afloat, draught, gm_of, mean_of, trim_of};
use moment_sums::Totals;
use ship_profile::Profile;
use units_core::{Frac, floor};

/// How a ship floats, in mm.
#[derive(Clone, Copy, Debug)]
pub struct Floating {
    /// The draughts, rounded up.
    pub aft: i128,
    pub mean: i128,
    pub fwd: i128,
    /// The height of the centre of gravity of the masses, what the free surfaces add, and both
    /// together, each rounded up by itself.
    pub kg_solid: i128,
    pub surfaces: i128,
    pub kg: i128,
    /// The height of the metacentre, and the metacentric height, rounded down.
    pub kmt: i128,
    pub gm: i128,
}

/// What is missing to a ship's limits, in tenths of a tonne metre and rounded up, 0 or less where
/// nothing is.
#[derive(Clone, Copy, Debug)]
pub struct Missing {
    /// The moment that brings her list to its limit.
    pub to_list: i128,
    /// The moment that brings her upright.
    pub upright: i128,
    /// The moment by which her centre of gravity is too high for C1, and for C11.
    pub height: i128,
    pub own_height: i128,
    /// The trimming moment that brings her trim to its limit.
    pub trim: i128,
}

/// The fraction in whole units, rounded up.
fn up(num: i128, den: i128) -> i128 {
    let den = den.max(1);
    let down = num.div_euclid(den);
    if num.rem_euclid(den) == 0 {
        down
    } else {
        down.saturating_add(1)
    }
}

/// A fraction, rounded up.
fn up_of(fraction: Frac) -> i128 {
    up(fraction.num, fraction.den)
}

/// How a ship floats with this aboard.
pub fn floating_in_print(a: &Afloat, totals: &Totals) -> Floating {
    Floating {
        aft: up_of(draught(a, 0)),
        mean: up_of(mean_of(a)),
        fwd: up_of(draught(a, a.lbp)),
        kg_solid: up(totals.z(), a.kg),
        surfaces: up(totals.fsm(), a.kg),
        kg: up(a.upright, a.kg),
        kmt: floor(Frac {
            num: a.kmt,
            den: a.gap,
        }),
        gm: floor(gm_of(a)),
    }
}

/// The product of two numbers of a ship afloat and of her limits, which all are far below the
/// greatest of the type.
fn times(one: i128, other: i128) -> i128 {
    one.saturating_mul(other)
}

/// In kg mm a tenth of a tonne metre.
const UNIT: i128 = 100_000;

/// By how much the moment of the displacement by a least metacentric height is beyond that by hers.
fn height_missing(a: &Afloat, least: Frac) -> i128 {
    let gm = gm_of(a);
    up(
        times(times(least.num, a.kg), a.gap).saturating_sub(times(gm.num, least.den)),
        times(times(least.den, a.gap), UNIT),
    )
}

/// What is missing to a ship's limits.
pub fn missing_to_limits(profile: &Profile, a: &Afloat, least: Option<Frac>) -> Missing {
    let gm = gm_of(a);
    let side = if a.y < 0 { -a.y } else { a.y };
    let list_max = i128::from(profile.list_max().clamp(0, 10_000));
    let trim = trim_of(a);
    let trim_size = if trim.num < 0 { -trim.num } else { trim.num };
    let trim_max = i128::from(profile.trim_max().get());
    let own_height = match least {
        Some(least) => height_missing(a, least),
        None => 0,
    };
    Missing {
        to_list: up(
            times(times(10_000, side), a.gap).saturating_sub(times(gm.num, list_max)),
            times(times(10_000, a.gap), UNIT),
        ),
        upright: up(side, UNIT),
        height: height_missing(a, Frac { num: 150, den: 1 }),
        own_height,
        trim: up(
            trim_size.saturating_sub(times(trim_max, a.mct)),
            times(a.gap, UNIT),
        ),
    }
}
