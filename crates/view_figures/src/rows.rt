//! The table of limits of one condition: each value by its limit.
ghost use Rattle.std.specs.Prelude.{◌≡◌, ◌*◌, ◌^◌, ◌<◌, ◌≤◌, pos, ◌≤ℤ◌, unsigned_abs};
ghost use Rattle.criteria.specs.Least.{IsLeast};

use crate::angles::{ListReading, list_reading};
use crate::areas::{area_reading, fine_area};
use crate::readings::{Reading, at_least, at_least_whole, at_most, whole};
use crate::shares::{Used, used_of};
use criteria::Exact;
use hydrostat::{Afloat, draught, gm_of, trim_of};
use righting::{Levers, best_from_30};
use ship_profile::Profile;
use std::cmp::Ordering;
use strength::Strains;
use units_core::{Frac, Mm};
use worst_values::{Limit, bending_limit, value_of};

/// The least metacentric height, in mm (2008 IS Code, part A, 2.2.4).
pub(crate) const GM_LEAST: i64 = 150;

/// The least areas to 30 degrees, to 40 and between, in thousandths of a millimetre degree: 0.055,
/// 0.09 and 0.03 metre-radians (2.2.1).
pub(crate) const AREA_TO_30: i64 = 3_151_268;

pub(crate) const AREA_TO_40: i64 = 5_156_621;

pub(crate) const AREA_30_TO_40: i64 = 1_718_874;

/// The least lever from 30 degrees on, in mm (2.2.2).
pub(crate) const LEVER_LEAST: i64 = 200;

/// The least angle of the greatest lever, in degrees (2.2.3).
pub(crate) const ANGLE_LEAST: i64 = 25;

/// A force in kg and a moment in kg mm beyond all that a ship within the limits of a profile has.
const LOAD_MOST: u128 = 1_000_000_000_000_000_000_000_000_000_000;

/// What is printed of a value by its limit.
#[derive(Clone, Copy, Debug)]
pub enum Figures {
    /// The three figures.
    Reading(Reading),
    /// Those of the list, in hundredths of a degree.
    List(ListReading),
    /// The ship has no list, since her metacentric height isn't positive; of the limit, in
    /// hundredths of a degree, none is used.
    NoList(i128),
}

/// A row of the table of limits, of one condition.
#[derive(Clone, Copy, Debug)]
pub struct Row {
    pub limit: Limit,
    /// The number of the frame, from the aftermost on; 0 where the value is of the whole ship.
    pub place: u32,
    /// How the value, which is printed without its sign, compares with 0.
    pub side: Ordering,
    pub figures: Figures,
    pub used: Used,
    pub is_kept: bool,
}

/// The size of a fraction.
pub(crate) fn size(fraction: Frac) -> Frac
    requires { unsigned_abs fraction.num ≤ 10 ^ 38 }
    ensures num { unsigned_abs result.num ≡ unsigned_abs fraction.num }
    ensures den { result.den ≡ fraction.den }
{
    if fraction.num < 0 {
        Frac {
            num: -fraction.num,
            den: fraction.den,
        }
    } else {
        fraction
    }
}

/// A row of a value of the whole ship that is printed with its sign.
fn signed_row(limit: Limit, reading: Reading, used: Used) -> Row {
    Row {
        limit,
        place: 0,
        side: Ordering::Equal,
        figures: Figures::Reading(reading),
        used,
        is_kept: reading.margin >= 0,
    }
}

/// The row of a value that has to be at least a whole number.
fn row_at_least(limit: Limit, value: Frac, least: i64) -> Row
    requires num { unsigned_abs value.num ≤ 10 ^ 32 }
    requires den { unsigned_abs value.den ≤ 10 ^ 23 }
    requires least { unsigned_abs least ≤ 10 ^ 7 }
{
    signed_row(
        limit,
        at_least_whole(value, least),
        used_of(whole(least), value),
    )
}

/// The row of an area, by its limit in thousandths of a millimetre degree.
fn row_of_area(limit: Limit, sum: Frac, least: i64) -> Row
    requires num { unsigned_abs sum.num ≤ 10 ^ 32 }
    requires den { unsigned_abs sum.den ≤ 10 ^ 23 }
    requires least { unsigned_abs least ≤ 10 ^ 7 }
{
    let used = used_of(whole(least), fine_area(sum));
    signed_row(limit, area_reading(sum, least), used)
}

/// The angle of a number, in degrees: they are 5 degrees apart.
pub(crate) fn angle_of(number: usize) -> Frac
    requires { number < 13 }
    ensures num { (pos 0 ≤ℤ result.num) × (result.num ≤ℤ pos 60) }
    ensures den { result.den ≡ pos 1 }
{
    Frac {
        num: 5 * number as i128,
        den: 1,
    }
}

/// The row of the angle of the greatest lever, of which no part of its limit is told: a greater
/// angle isn't a greater safety in that measure.
fn row_of_peak(number: usize) -> Row
    requires { number < 13 }
{
    let angle = angle_of(number);
    let reading = at_least_whole(angle, ANGLE_LEAST);
    let is_kept = reading.margin >= 0;
    let used = if is_kept {
        Used {
            share: Some(Frac { num: 0, den: 1 }),
            percent: None,
        }
    } else {
        used_of(whole(ANGLE_LEAST), angle)
    };
    signed_row(Limit::PeakAngle, reading, used)
}

/// The row of a ship without a list.
fn row_without_list(most: i64) -> Row {
    Row {
        limit: Limit::List,
        place: 0,
        side: Ordering::Equal,
        figures: Figures::NoList(list_reading(whole(0), most).limit),
        used: Used {
            share: None,
            percent: None,
        },
        is_kept: false,
    }
}

/// The row of a list of this size.
fn row_of_listing(list: Frac, side: Ordering, most: i64) -> Row
    requires num { unsigned_abs list.num ≤ 10 ^ 27 }
    requires den { unsigned_abs list.den ≤ 3 * 10 ^ 23 }
    requires most { unsigned_abs most ≤ 10 ^ 4 }
{
    let reading = list_reading(list, most);
    let is_kept = match reading.value {
        Some((_, margin)) => margin >= 0,
        None => false,
    };
    Row {
        limit: Limit::List,
        place: 0,
        side,
        figures: Figures::List(reading),
        used: used_of(list, whole(most)),
        is_kept,
    }
}

/// The moment about the centre line, by the divisor of the particulars.
fn side_moment(a: &Afloat) -> i128
    ensures { unsigned_abs result ≤ 10 ^ 23 }
{
    a.y * a.gap
}

/// The size of a ship's list in ten-thousandths, by the numerator of her metacentric height, as
/// `hydrostat::list_of` has it.
pub(crate) fn list_size(a: &Afloat, gm: i128) -> Frac
    requires positive { pos 1 ≤ℤ gm }
    requires gm { unsigned_abs gm ≤ 3 * 10 ^ 23 }
    ensures num { unsigned_abs result.num ≤ 10 ^ 27 }
    ensures den { result.den ≡ gm }
{
    size(Frac {
        num: 10_000 * side_moment(a),
        den: gm,
    })
}

/// The greatest list that the ship may have.
pub(crate) fn list_limit(profile: &Profile) -> i64
    ensures { unsigned_abs result ≤ 10 ^ 4 }
{
    let most = profile.list_max();
    // A profile has none beyond.
    if most < 0 || most > 10_000 { 0 } else { most }
}

/// The row of the list.
fn row_of_list(profile: &Profile, a: &Afloat) -> Row {
    let most = list_limit(profile);
    let gm = gm_of(a);
    if gm.num <= 0 {
        return row_without_list(most);
    }
    row_of_listing(list_size(a, gm.num), a.y.cmp(&0), most)
}

/// The row of a value of the whole ship that may be at most a whole number.
fn row_at_most(limit: Limit, side: Ordering, value: Frac, most: i64) -> Row
    requires num { unsigned_abs value.num ≤ 10 ^ 38 }
    requires den { unsigned_abs value.den ≤ 10 ^ 31 }
    requires most { unsigned_abs most ≤ 10 ^ 5 }
{
    let most = whole(most);
    let reading = at_most(value, most);
    Row {
        limit,
        place: 0,
        side,
        figures: Figures::Reading(reading),
        used: used_of(value, most),
        is_kept: reading.margin >= 0,
    }
}

/// The size of a load or of a closing error.
pub(crate) fn load_size(load: i128) -> Frac
    ensures num { unsigned_abs result.num ≤ 10 ^ 30 }
    ensures den { result.den ≡ pos 1 }
{
    Frac {
        num: load.unsigned_abs().min(LOAD_MOST) as i128,
        den: 1,
    }
}

/// How much of its limit a load of this size uses.
fn load_used(size: Frac, most: i64) -> Used
    requires num { unsigned_abs size.num ≤ 10 ^ 30 }
    requires den { size.den ≡ pos 1 }
{
    used_of(size, whole(most))
}

/// A load in printed units, of which each has so many of its own.
fn in_units(load: Frac, unit: i128) -> Frac
    requires num { unsigned_abs load.num ≤ 10 ^ 30 }
    requires unit { (pos 1 ≤ℤ unit) × (unsigned_abs unit ≤ 10 ^ 5) }
    ensures num { unsigned_abs result.num ≤ 10 ^ 30 }
    ensures den { unsigned_abs result.den ≤ 10 ^ 5 }
{
    Frac {
        num: load.num,
        den: unit,
    }
}

/// The reading of a load by its limit, both in printed units.
fn load_reading(load: Frac, most: Frac) -> Reading
    requires num { unsigned_abs load.num ≤ 10 ^ 30 }
    requires den { unsigned_abs load.den ≤ 10 ^ 5 }
    requires most_num { unsigned_abs most.num ≤ 10 ^ 30 }
    requires most_den { unsigned_abs most.den ≤ 10 ^ 5 }
{
    at_most(load, most)
}

/// The row of a load at a frame, or of the closing error; a printed unit has so many of its own.
pub(crate) fn row_of_load(limit: Limit, place: u32, load: i128, most: i64, unit: i128) -> Row
    requires { (pos 1 ≤ℤ unit) × (unsigned_abs unit ≤ 10 ^ 5) }
{
    let size = load_size(load);
    let reading = load_reading(in_units(size, unit), in_units(whole(most), unit));
    Row {
        limit,
        place,
        side: load.cmp(&0),
        figures: Figures::Reading(reading),
        used: load_used(size, most),
        is_kept: reading.margin >= 0,
    }
}

/// The row of the closing error, in kg.
fn row_of_closing(profile: &Profile, error: i128) -> Row {
    row_of_load(Limit::Closing, 0, error, profile.closing_max(), 1)
}

/// The row of the metacentric height by the ship's own least one.
fn row_of_least_gm(gm: Frac, least: Frac) -> Row
    requires gm_num { unsigned_abs gm.num ≤ 3 * 10 ^ 23 }
    requires gm_den { unsigned_abs gm.den ≤ 10 ^ 17 }
    requires least_num { unsigned_abs least.num ≤ 10 ^ 14 }
    requires least_den { unsigned_abs least.den ≤ 10 ^ 8 }
{
    signed_row(Limit::LeastGm, at_least(gm, least), used_of(least, gm))
}

/// The frame of a load: where most of its limit is used, of several the aftermost.
fn worst_place(profile: &Profile, exact: &Exact, strains: &Strains, limit: Limit) -> usize
    requires length { exact.now.afloat.lbp ≡ profile.now.ship.lbp }
    requires least { IsLeast exact.now.least }
{
    match value_of(profile, exact, strains, limit, 0) {
        Some(value) => value.place as usize,
        None => 0,
    }
}

/// A tenth of a tonne in kg, and a tenth of a tonne metre in kg mm.
pub(crate) const FORCE_UNIT: i128 = 100;

pub(crate) const MOMENT_UNIT: i128 = 100_000;

/// The row of the worst load of a condition.
fn row_of_worst(profile: &Profile, exact: &Exact, strains: &Strains, limit: Limit) -> Option<Row>
    requires length { exact.now.afloat.lbp ≡ profile.now.ship.lbp }
    requires least { IsLeast exact.now.least }
{
    let place = worst_place(profile, exact, strains, limit);
    let frame = profile.frames().as_slice().get(place)?;
    let number = place as u32;
    if limit == Limit::Shear {
        let shear = *strains.shear.get(place)?;
        let shear = i128::from(shear);
        return Some(row_of_load(limit, number, shear, frame.shear_max, FORCE_UNIT));
    }
    let bending = *strains.bending.get(place)?;
    let most = bending_limit(frame, bending);
    let bending = i128::from(bending);
    Some(row_of_load(limit, number, bending, most, MOMENT_UNIT))
}

/// The greatest draught or trim of a ship, of which a profile has none beyond.
pub(crate) fn length_limit(most: Mm) -> i64
    ensures { unsigned_abs result ≤ 10 ^ 5 }
{
    i64::from(most.get()).clamp(0, 100_000)
}

/// The row of a limit, of a condition within the ship's tables; `None` where the ship hasn't such a
/// limit.
pub fn row_of(
    profile: &Profile,
    exact: &Exact,
    levers: &Levers,
    strains: &Strains,
    limit: Limit,
) -> Option<Row>
    requires length { exact.now.afloat.lbp ≡ profile.now.ship.lbp }
    requires least { IsLeast exact.now.least }
{
    let a = &exact.afloat;
    let draught_max = length_limit(profile.draught_max());
    let trim_max = length_limit(profile.trim_max());
    Some(match limit {
        Limit::Closing => row_of_closing(profile, i128::from(strains.closing)),
        Limit::Gm => row_at_least(limit, gm_of(a), GM_LEAST),
        Limit::AreaTo30 => row_of_area(limit, exact.curve.sum_30, AREA_TO_30),
        Limit::AreaTo40 => row_of_area(limit, exact.curve.sum_40, AREA_TO_40),
        Limit::Area30To40 => row_of_area(limit, exact.curve.sum_30_40, AREA_30_TO_40),
        Limit::Lever => row_at_least(limit, best_from_30(levers), LEVER_LEAST),
        Limit::PeakAngle => row_of_peak(exact.curve.greatest),
        Limit::List => row_of_list(profile, a),
        Limit::DraughtAft => row_at_most(limit, Ordering::Equal, draught(a, 0), draught_max),
        Limit::DraughtForward => {
            row_at_most(limit, Ordering::Equal, draught(a, a.lbp), draught_max)
        }
        Limit::Trim => {
            let trim = trim_of(a);
            row_at_most(limit, trim.num.cmp(&0), size(trim), trim_max)
        }
        Limit::Shear | Limit::Bending => return row_of_worst(profile, exact, strains, limit),
        Limit::LeastGm => row_of_least_gm(gm_of(a), exact.least?),
    })
}
