ghost use Rattle.std.specs.Prelude.{◌≡◌, ◌*◌, ◌-◌, ◌+◌, ◌^◌, ◌<◌, ◌≤◌, pos, ◌+ℤ◌, ◌-ℤ◌, ◌*ℤ◌};
ghost use Rattle.std.specs.Prelude.{◌≤ℤ◌, ◌<ℤ◌, IfOk, IfErr, get_or, [], length, map, unsigned_abs};
ghost use Rattle.std.specs.List.{range_with_len};
ghost use Rattle.units_core.specs.Interpolation.{at};
ghost use Rattle.ship_tables.specs.Record.{IsBonjeanTable};
ghost use Rattle.ship_profile.specs.Sections.{AreSectionsOf, area_row, line_through};
ghost use Rattle.ship_profile.specs.Sections.{station_weight};

use crate::faults::ProfileFault;
use ship_tables::Curves;
use std::alloc::Global;
use std::marker::Model;
use units_core::Mm;

/// In how many parts of a cm2 an area is read on a line, as a power of 2.
pub const AREA_PARTS_LOG: u32 = 36;

/// In how many parts that is.
const PARTS: i64 = 1 << AREA_PARTS_LOG;

/// The immersed area at a station over the draughts between two rows of the Bonjean table, a
/// straight line.
#[derive(Clone, Copy, Debug)]
pub struct AreaLine {
    /// The area at the lower row, in 2^-36 cm2.
    pub start: i64,
    /// By how much it rises for each mm above that row, in 2^-36 cm2, rounded up.
    pub slope: i64,
}

/// By what the area at a station counts in the intervals on both of its sides.
#[derive(Clone, Copy, Debug)]
pub struct StationWeight {
    /// In twice their volume: from the station aft of it to the one forward of it, in mm.
    pub volume: i64,
    /// In six times the moment of their volume about the after perpendicular, in mm2.
    pub moment: i64,
}

/// What a walk along the stations takes of a profile, worked out once.
#[derive(Debug, Drop)]
pub struct Sections {
    rows: Vec<Vec<AreaLine>>,
    weights: Vec<StationWeight>,
}

impl Model for Sections {
    ghost use Rattle.std.specs.Prelude.{map};
    ghost use Rattle.ship_profile.specs.Sections.{SectionRecord};

    ghost Value = { SectionRecord };

    ghost view = { λ s. record {
      rows = map (λ v. v.items) s.rows.items;
      weights = s.weights.items;
    } };
}

/// A number of a table in 64 bits.
fn narrow(number: i128) -> i64
    requires { unsigned_abs number ≤ 10 ^ 8 }
    ensures { result ≡ number }
{
    number as i64
}

/// How far it is from one draught to a greater one.
fn span(lower: i128, upper: i128) -> i64
    requires rises { lower <ℤ upper }
    requires lower { unsigned_abs lower ≤ 10 ^ 5 }
    requires upper { unsigned_abs upper ≤ 10 ^ 5 }
    ensures value { result ≡ upper -ℤ lower }
    ensures low { pos 1 ≤ℤ result }
    ensures within { unsigned_abs result ≤ 2 * 10 ^ 5 }
{
    (upper - lower) as i64
}

/// The line through two areas, the second `by` mm above the first. How much it rises is rounded up,
/// so that what is read on it needs no test: what it has too much is less than a whole number.
fn line_through(lower: i64, upper: i64, by: i64) -> AreaLine
    requires lower_low { pos 0 ≤ℤ lower }
    requires lower { unsigned_abs lower ≤ 10 ^ 8 }
    requires upper_low { pos 0 ≤ℤ upper }
    requires upper { unsigned_abs upper ≤ 10 ^ 8 }
    requires by_low { pos 1 ≤ℤ by }
    requires by { unsigned_abs by ≤ 2 * 10 ^ 5 }
    ensures { result ≡ line_through lower upper by }
{
    AreaLine {
        start: lower * PARTS,
        slope: ((upper - lower) * PARTS + (by - 1)).div_euclid(by),
    }
}

/// The lines of all stations between a row of the Bonjean table and the next.
fn area_row(alloc: Global, curves: &Curves, row: usize) -> Result<Vec<AreaLine>, ProfileFault>
    requires table { IsBonjeanTable curves.now }
    requires inside { row + 1 < length curves.now.arguments }
    ensures ok { IfOk result (λ v. v.items ≡ area_row curves.now row) }
    ensures memory { IfErr result (λ e. e ≡ ProfileFault.NoMemory) }
{
    let draughts = curves.arguments();
    let by = span(draughts[row], draughts[row + 1]);
    let mut lines = Vec::with_capacity(alloc, curves.columns())?;
    for k in 0..curves.columns() {
        let areas = curves.values(k);
        lines.push(line_through(narrow(areas[row]), narrow(areas[row + 1]), by))?;
    }
    Ok(lines)
}

/// The lines between all rows.
fn area_rows(alloc: Global, curves: &Curves) -> Result<Vec<Vec<AreaLine>>, ProfileFault>
    requires table { IsBonjeanTable curves.now }
    ensures ok { IfOk result (λ v. map (λ r. r.items) v.items
        ≡ map (area_row curves.now) (range_with_len 0 (length curves.now.arguments - 1))) }
    ensures memory { IfErr result (λ e. e ≡ ProfileFault.NoMemory) }
{
    let last = curves.arguments().len() - 1;
    let mut rows = Vec::with_capacity(alloc, last)?;
    for row in 0..last {
        let lines = area_row(alloc, curves, row)?;
        rows.push(lines)?;
    }
    Ok(rows)
}

/// A length as a whole number.
fn mm(length: Mm) -> i64
    ensures value { result ≡ length }
    ensures within { unsigned_abs result ≤ 10 ^ 6 }
{
    i64::from(length.get())
}

/// By what the area at `x` counts in six times the moment of the interval between it and `other`.
fn moment_weight(x: i64, other: i64, by: i64) -> i64
    requires x { unsigned_abs x ≤ 10 ^ 6 }
    requires other { unsigned_abs other ≤ 10 ^ 6 }
    requires by { unsigned_abs by ≤ 2 * 10 ^ 6 }
    ensures value { result ≡ by *ℤ ((pos 2 *ℤ x) +ℤ other) }
    ensures within { unsigned_abs result ≤ 6 * 10 ^ 12 }
{
    by * (2 * x + other)
}

/// By what the area at a station counts that isn't the last.
fn station_weight(stations: &[Mm], k: usize) -> StationWeight
    requires { k + 1 < length stations.now }
    ensures { result ≡ station_weight (at stations.now) k }
{
    let aft = mm(stations[k.saturating_sub(1)]);
    let x = mm(stations[k]);
    let fore = mm(stations[k + 1]);
    StationWeight {
        volume: fore - aft,
        moment: moment_weight(x, aft, x - aft) + moment_weight(x, fore, fore - x),
    }
}

/// The weights of all stations but the last.
fn station_weights(alloc: Global, stations: &[Mm]) -> Result<Vec<StationWeight>, ProfileFault>
    requires { 2 ≤ length stations.now }
    ensures ok { IfOk result (λ v. v.items
        ≡ map (station_weight (at stations.now)) (range_with_len 0 (length stations.now - 1))) }
    ensures memory { IfErr result (λ e. e ≡ ProfileFault.NoMemory) }
{
    let last = stations.len() - 1;
    let mut weights = Vec::with_capacity(alloc, last)?;
    for k in 0..last {
        weights.push(station_weight(stations, k))?;
    }
    Ok(weights)
}

impl Sections {
    /// Those of stations and of their Bonjean table. It asks for memory once for each row of the
    /// table but the last, and twice more.
    pub(crate) fn of(
        alloc: Global,
        stations: &[Mm],
        curves: &Curves,
    ) -> Result<Sections, ProfileFault>
        requires table { IsBonjeanTable curves.now }
        requires some { 2 ≤ length stations.now }
        ensures ok { IfOk result (λ s. AreSectionsOf s stations.now curves.now) }
        ensures memory { IfErr result (λ e. e ≡ ProfileFault.NoMemory) }
    {
        let rows = area_rows(alloc, curves)?;
        let weights = station_weights(alloc, stations)?;
        Ok(Sections { rows, weights })
    }

    /// The lines of the areas between the rows of this number and the next of the Bonjean table, by
    /// the numbers of the stations; none behind the last row.
    pub fn row(&self, number: usize) -> &[AreaLine]
        ensures { result.now ≡ get_or self.now.rows number [] }
    {
        match self.rows.get(number) {
            Some(row) => row.as_slice(),
            None => &[],
        }
    }

    /// By what the area at each station but the last counts in the intervals on both of its sides.
    pub fn weights(&self) -> &[StationWeight]
        ensures { result.now ≡ self.now.weights }
    {
        self.weights.as_slice()
    }
}
