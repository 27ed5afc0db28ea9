ghost use Rattle.std.specs.Prelude.{◌≡◌, ◌+◌, ◌^◌, ◌<◌, ◌≤◌, ◌≤ℤ◌, ◌<ℤ◌, true, Some, IfSome};
ghost use Rattle.std.specs.Prelude.{length, unsigned_abs};
ghost use Rattle.units_core.specs.Interpolation.{at, interval, Encloses, IsRising, IsWithin};
ghost use Rattle.strength.specs.Rows.{IsRowOf};

use ship_profile::{AreaLine, Profile};
use units_core::enclosing_near;

/// An argument of a table in 64 bits.
#[inline(always)]
pub fn place(number: i128) -> i64
    requires within { unsigned_abs number ≤ 10 ^ 5 }
    ensures value { result ≡ number }
    ensures within { unsigned_abs result ≤ 10 ^ 5 }
{
    number as i64
}

/// Whether `x` lies in the interval `i`, and above its lower end.
#[inline(always)]
fn is_between(arguments: &[i128], x: i64, i: usize) -> bool
    requires rows { 2 ≤ length arguments.now }
    requires within { IsWithin (10 ^ 5) arguments.now }
    ensures inside { result ≡ true → i + 1 < length arguments.now }
    ensures above { result ≡ true → at arguments.now i <ℤ x }
    ensures upper { result ≡ true → x ≤ℤ at arguments.now (i + 1) }
{
    if i >= arguments.len() - 1 {
        return false;
    }
    if place(arguments[i]) >= x {
        return false;
    }
    x <= place(arguments[i + 1])
}

/// Whether `i` is the interval of `x`; `false` says nothing.
#[inline(always)]
fn is_row(arguments: &[i128], x: i64, i: usize) -> bool
    requires rows { 2 ≤ length arguments.now }
    requires rises { IsRising arguments.now }
    requires within { IsWithin (10 ^ 5) arguments.now }
    ensures which { result ≡ true → Some i ≡ interval arguments.now x }
    ensures encloses { result ≡ true → Encloses arguments.now i x }
{
    is_between(arguments, x, i)
}

/// The interval of `x`, looked for first in those beside `near`. It is a function of its own, so
/// that the walk's registers are kept for the stations in one row.
#[cold]
#[inline(never)]
pub fn other_row(arguments: &[i128], x: i64, near: usize) -> Option<usize>
    requires rows { 2 ≤ length arguments.now }
    requires rises { IsRising arguments.now }
    requires within { IsWithin (10 ^ 5) arguments.now }
    ensures which { result ≡ interval arguments.now x }
    ensures exact { IfSome result (λ i. Encloses arguments.now i x) }
{
    let above = near.saturating_add(1);
    if is_row(arguments, x, above) {
        return Some(above);
    }
    let below = near.saturating_sub(1);
    if is_row(arguments, x, below) {
        return Some(below);
    }
    let mut from = near;
    enclosing_near(arguments, i128::from(x), &mut from)
}

/// A row of the Bonjean table: its number, its ends, and the lines of the areas at all stations
/// between it and the next.
#[derive(Clone, Copy)]
pub struct BonjeanRow<'a> {
    pub number: usize,
    pub lower: i64,
    pub upper: i64,
    pub lines: &'a [AreaLine],
}

impl<'a> BonjeanRow<'a> {
    /// The row of this number.
    #[inline(always)]
    pub fn of(profile: &'a Profile, number: usize) -> BonjeanRow<'a>
        requires { number + 1 < length profile.now.tables.bonjean.arguments }
        ensures number { result.number ≡ number }
        ensures row { IsRowOf profile.now.tables.bonjean result.number result.lower result.upper
            result.lines.now }
    {
        let draughts = profile.bonjean().arguments();
        BonjeanRow {
            number,
            lower: place(draughts[number]),
            upper: place(draughts[number + 1]),
            lines: profile.sections().row(number),
        }
    }

    /// The row of this number, or the first one where the table has no such row.
    pub fn near(profile: &'a Profile, number: usize) -> BonjeanRow<'a>
        ensures { IsRowOf profile.now.tables.bonjean result.number result.lower result.upper
            result.lines.now }
    {
        if number < profile.bonjean().arguments().len() - 1 {
            BonjeanRow::of(profile, number)
        } else {
            BonjeanRow::of(profile, 0)
        }
    }

    /// Whether `x` lies in this row, and above its lower end.
    #[inline(always)]
    pub fn holds(&self, x: i64) -> bool
        ensures above { result ≡ true → self.now.lower <ℤ x }
        ensures upper { result ≡ true → x ≤ℤ self.now.upper }
    {
        if self.lower >= x {
            return false;
        }
        x <= self.upper
    }
}
