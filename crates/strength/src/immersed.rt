ghost use Rattle.std.specs.Prelude.{◌≡◌, ℕ, ◌^◌, ◌<◌, ◌≤◌, IfSome, length, option_map};
ghost use Rattle.std.specs.Prelude.{unsigned_abs};
ghost use Rattle.units_core.specs.Interpolation.{at, interval, Encloses};
ghost use Rattle.units_core.specs.Ratio.{floor_of};
ghost use Rattle.ship_profile.specs.Record.{IsSound};
ghost use Rattle.hydrostat.specs.Floating.{draught_at, load, water};
ghost use Rattle.strength.specs.Immersed.{area_in, IsAreaAt};
ghost use Rattle.strength.specs.Rows.{IsRowOf};

use crate::area::read;
use crate::rows::{BonjeanRow, other_row, place};
use hydrostat::DraughtLine;
use ship_profile::Profile;
use units_core::{Mm, enclosing};

/// The row of a draught, which is looked for first in `near`; `None` outside of the table.
#[inline(always)]
fn row_of<'a>(profile: &'a Profile, draught: i64, near: BonjeanRow<'a>) -> Option<BonjeanRow<'a>>
    requires row { IsRowOf profile.now.tables.bonjean near.number near.lower near.upper
        near.lines.now }
    ensures sound { IsSound profile.now }
    ensures row { IfSome result (λ r.
        IsRowOf profile.now.tables.bonjean r.number r.lower r.upper r.lines.now) }
    ensures here { IfSome result (λ r.
        Encloses profile.now.tables.bonjean.arguments r.number draught) }
    ensures which { option_map (λ r. r.number) result
        ≡ interval profile.now.tables.bonjean.arguments draught }
{
    let draughts = profile.bonjean().arguments();
    if near.holds(draught) {
        return Some(near);
    }
    let found = other_row(draughts, draught, near.number)?;
    Some(BonjeanRow::of(profile, found))
}

/// The immersed area at a station and a draught, rounded down; `None` outside of the table. The
/// draught is looked for first in `row`, which is then the one where it was found.
#[inline(always)]
fn area_in_rows<'a>(
    profile: &'a Profile,
    number: usize,
    draught: i64,
    row: &mut BonjeanRow<'a>,
) -> Option<i64>
    requires there { number < length profile.now.ship.stations }
    requires row { IsRowOf profile.now.tables.bonjean row.now.number row.now.lower row.now.upper
        row.now.lines.now }
    ensures row { IsRowOf profile.now.tables.bonjean row.new.number row.new.lower row.new.upper
        row.new.lines.now }
    ensures value { result ≡ area_in profile.now.tables.bonjean number draught }
    ensures within { IfSome result (λ a. unsigned_abs a ≤ 10 ^ 8) }
{
    let found = row_of(profile, draught, *row)?;
    *row = found;
    Some(read(found.lines[number], draught - found.lower))
}

/// The immersed area at a station where 64 bits don't decide the draught, which is rare.
#[cold]
#[inline(never)]
fn area_exactly(profile: &Profile, line: &DraughtLine, number: usize, x: Mm) -> Option<i64>
    requires there { number < length profile.now.ship.stations }
    ensures value { result ≡ area_in profile.now.tables.bonjean number
        (floor_of (draught_at (water line.now.of) (load line.now.of) line.now.of.lbp x)) }
    ensures within { IfSome result (λ a. unsigned_abs a ≤ 10 ^ 8) }
{
    let draught = line.draught_down(x);
    let found = enclosing(profile.bonjean().arguments(), draught)?;
    let mut row = BonjeanRow::near(profile, found);
    area_in_rows(profile, number, place(draught), &mut row)
}

/// Sets the immersed areas at the stations from `from` on, as long as a line in parts decides the
/// draught and it lies in this row; returns the number of the first station that is left. No other
/// function is called for a station, so that all that it takes stays in registers.
#[inline(always)]
pub fn set_areas_in_row(
    profile: &Profile,
    line: &DraughtLine,
    row: BonjeanRow<'_>,
    from: usize,
    areas: &mut [i64; 64],
) -> usize
    requires row { IsRowOf profile.now.tables.bonjean row.number row.lower row.upper row.lines.now }
    requires from { from ≤ length profile.now.ship.stations }
    ensures from { from ≤ result }
    ensures to { result ≤ length profile.now.ship.stations }
    ensures before { (k : ℕ) → k < from → at areas.new k ≡ at areas.old k }
    ensures set { (k : ℕ) → from ≤ k → k < result → IsAreaAt (at areas.new k)
        profile.now.tables.bonjean
        (draught_at (water line.now.of) (load line.now.of) line.now.of.lbp)
        profile.now.ship.stations k }
{
    let stations = profile.stations();
    for k in from..stations.len() {
        let Some(draught) = line.read_in_parts(stations[k]) else {
            return k;
        };
        if !row.holds(draught) {
            return k;
        }
        areas[k] = read(row.lines[k], draught - row.lower);
    }
    stations.len()
}

/// The immersed area at a station, rounded down; `None` where the draught there lies outside of the
/// table.
#[cold]
#[inline(never)]
pub fn area_near<'a>(
    profile: &'a Profile,
    line: &DraughtLine,
    number: usize,
    x: Mm,
    row: &mut BonjeanRow<'a>,
) -> Option<i64>
    requires there { number < length profile.now.ship.stations }
    requires row { IsRowOf profile.now.tables.bonjean row.now.number row.now.lower row.now.upper
        row.now.lines.now }
    ensures row { IsRowOf profile.now.tables.bonjean row.new.number row.new.lower row.new.upper
        row.new.lines.now }
    ensures value { result ≡ area_in profile.now.tables.bonjean number
        (floor_of (draught_at (water line.now.of) (load line.now.of) line.now.of.lbp x)) }
    ensures within { IfSome result (λ a. unsigned_abs a ≤ 10 ^ 8) }
{
    match line.read(x) {
        Some(draught) => area_in_rows(profile, number, draught, row),
        None => area_exactly(profile, line, number, x),
    }
}
