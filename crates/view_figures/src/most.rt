//! How much of its limits a condition uses at most, without what is printed of them.
ghost use Rattle.std.specs.Prelude.{◌≡◌, ◌*◌, ◌^◌, ◌<◌, ◌≤◌, length, pos, ◌≤ℤ◌, unsigned_abs};
ghost use Rattle.criteria.specs.Least.{IsLeast};
ghost use Rattle.view_figures.specs.Shares.{greater_of};

use crate::areas::fine_area;
use crate::greatest::Greatest;
use crate::readings::whole;
use crate::rows::{
    ANGLE_LEAST, AREA_30_TO_40, AREA_TO_30, AREA_TO_40, GM_LEAST, LEVER_LEAST, angle_of,
    length_limit, list_limit, list_size, load_size, size,
};
use crate::shares::{is_more, share_of};
use criteria::{CurveMeasures, Exact};
use hydrostat::{Afloat, draught, gm_of, trim_of};
use ship_profile::{Frame, Profile};
use strength::Strains;
use units_core::Frac;
use worst_values::bending_limit;

/// Nothing of a limit.
const NOTHING: Option<Frac> = Some(Frac { num: 0, den: 1 });

/// A lever beyond all that a ship within the limits of a profile has, in mm by any divisor.
const LEVER_MOST: i128 = 1_000_000_000_000_000_000_000_000_000_000_000_000;

/// The greater of two shares.
fn more(one: Option<Frac>, other: Option<Frac>) -> Option<Frac>
    ensures { result ≡ greater_of one other }
{
    if is_more(other, one) { other } else { one }
}

/// The share of an area.
fn area_share(sum: Frac, least: i64) -> Option<Frac>
    requires num { unsigned_abs sum.num ≤ 10 ^ 32 }
    requires den { unsigned_abs sum.den ≤ 10 ^ 23 }
    requires least { unsigned_abs least ≤ 10 ^ 7 }
{
    share_of(whole(least), fine_area(sum))
}

/// The share of the greatest lever.
fn lever_share(best: Frac) -> Option<Frac>
    requires { unsigned_abs best.den ≤ 10 ^ 23 }
{
    if best.num <= 0 {
        return None;
    }
    if best.num > LEVER_MOST {
        return NOTHING;
    }
    share_of(whole(LEVER_LEAST), best)
}

/// The share of the angle of the greatest lever, of which nothing is told where it is kept.
fn peak_share(number: usize) -> Option<Frac>
    requires { number < 13 }
{
    let angle = angle_of(number);
    if angle.num >= i128::from(ANGLE_LEAST) {
        return NOTHING;
    }
    share_of(whole(ANGLE_LEAST), angle)
}

/// Joins the shares of the levers' limits.
fn note_curve(most: &mut Greatest, curve: &CurveMeasures) {
    most.note(area_share(curve.sum_30, AREA_TO_30));
    most.note(area_share(curve.sum_40, AREA_TO_40));
    most.note(area_share(curve.sum_30_40, AREA_30_TO_40));
    most.note(lever_share(curve.best));
    most.note(peak_share(curve.greatest));
}

/// The share of a value of the whole ship that may be at most a whole number.
fn share_at_most(value: Frac, most: i64) -> Option<Frac>
    requires num { unsigned_abs value.num ≤ 10 ^ 38 }
    requires den { unsigned_abs value.den ≤ 10 ^ 31 }
    requires most { unsigned_abs most ≤ 10 ^ 5 }
{
    share_of(value, whole(most))
}

/// The share of a metacentric height that has to be at least so much.
fn gm_share(gm: Frac, least: Frac) -> Option<Frac>
    requires gm_num { unsigned_abs gm.num ≤ 3 * 10 ^ 23 }
    requires gm_den { unsigned_abs gm.den ≤ 10 ^ 17 }
    requires least_num { unsigned_abs least.num ≤ 10 ^ 14 }
    requires least_den { unsigned_abs least.den ≤ 10 ^ 8 }
{
    share_of(least, gm)
}

/// The share of a list of this size.
fn listing_share(list: Frac, most: i64) -> Option<Frac>
    requires num { unsigned_abs list.num ≤ 10 ^ 27 }
    requires den { unsigned_abs list.den ≤ 3 * 10 ^ 23 }
    requires most { unsigned_abs most ≤ 10 ^ 4 }
{
    share_of(list, whole(most))
}

/// The share of the list.
fn list_share(profile: &Profile, a: &Afloat) -> Option<Frac> {
    let gm = gm_of(a);
    if gm.num <= 0 {
        return None;
    }
    listing_share(list_size(a, gm.num), list_limit(profile))
}

/// Joins the shares of the limits of the draughts and the trim.
fn note_draughts(most: &mut Greatest, profile: &Profile, a: &Afloat) {
    let deepest = length_limit(profile.draught_max());
    most.note(share_at_most(draught(a, 0), deepest));
    most.note(share_at_most(draught(a, a.lbp), deepest));
    let trim = size(trim_of(a));
    most.note(share_at_most(trim, length_limit(profile.trim_max())));
}

/// The share of a load.
fn load_share(load: i128, most: i64) -> Option<Frac> {
    share_of(load_size(load), whole(most))
}

/// A load and its limit, both short: nearly all are, and their shares are compared at once.
#[derive(Clone, Copy)]
struct ShortLoad {
    size: i64,
    most: i64,
    pub ghost positive: { pos 1 ≤ℤ most },
}

/// A load by its limit, where both are short and the limit isn't 0.
fn short(load: i128, most: i64) -> Option<ShortLoad> {
    let size = i64::try_from(load_size(load).num).ok()?;
    if most <= 0 {
        return None;
    }
    Some(ShortLoad { size, most })
}

/// The product of two short numbers.
fn product(one: i64, other: i64) -> i128 {
    i128::from(one) * i128::from(other)
}

impl ShortLoad {
    /// Whether less of its limit is used.
    fn is_less(self, other: ShortLoad) -> bool {
        product(self.size, other.most) < product(other.size, self.most)
    }

    /// It as a share.
    fn share(self) -> Option<Frac> {
        Some(Frac {
            num: i128::from(self.size),
            den: i128::from(self.most),
        })
    }
}

/// The greatest share of loads so far: among the short ones, and among all others.
#[derive(Clone, Copy)]
struct Shares {
    short: ShortLoad,
    other: Option<Frac>,
}

impl Shares {
    /// Joins a load.
    fn note(&mut self, load: i128, most: i64) {
        match short(load, most) {
            Some(short) => {
                if self.short.is_less(short) {
                    self.short = short;
                }
            }
            None => self.other = more(self.other, load_share(load, most)),
        }
    }
}

/// The greatest share of the limits of her loads.
fn strains_share(frames: &[Frame], strains: &Strains) -> Option<Frac>
    requires { length frames.now ≤ 16 }
{
    let mut shares = Shares {
        short: ShortLoad { size: 0, most: 1 },
        other: NOTHING,
    };
    for at in 0..frames.len() {
        let frame = &frames[at];
        let bending = strains.bending[at];
        shares.note(i128::from(strains.shear[at]), frame.shear_max);
        shares.note(i128::from(bending), bending_limit(frame, bending));
    }
    more(shares.other, shares.short.share())
}

/// Joins the shares of the limits of the metacentric height.
fn note_stability(most: &mut Greatest, a: &Afloat, least: Option<Frac>)
    requires { IsLeast least }
{
    let gm = gm_of(a);
    most.note(gm_share(gm, whole(GM_LEAST)));
    if let Some(least) = least {
        most.note(gm_share(gm, least));
    }
}

/// How much of a limit a condition within the ship's tables uses at most: the greatest share among
/// its rows of the table of limits ([`row_of`](crate::row_of)); `None` where no number tells.
pub fn most_used(profile: &Profile, exact: &Exact, strains: &Strains) -> Option<Frac>
    requires length { exact.now.afloat.lbp ≡ profile.now.ship.lbp }
    requires least { IsLeast exact.now.least }
{
    let a = &exact.afloat;
    let mut most = Greatest::of(strains_share(profile.frames().as_slice(), strains));
    most.note(load_share(i128::from(strains.closing), profile.closing_max()));
    most.note(list_share(profile, a));
    note_draughts(&mut most, profile, a);
    note_curve(&mut most, &exact.curve);
    note_stability(&mut most, a, exact.least);
    most.share
}
