ghost use Rattle.std.specs.Prelude.{◌≡◌, ℕ, ◌+◌, ◌*◌, ◌^◌, ◌<◌, ◌≤◌, pos, ◌+ℤ◌, ◌-ℤ◌, ◌*ℤ◌, ◌≤ℤ◌};
ghost use Rattle.std.specs.Prelude.{◌<ℤ◌, unsigned_abs, true, length, MatchOption};
ghost use Rattle.units_core.specs.Interpolation.{at, interval, reading, Encloses, IsOutside};
ghost use Rattle.units_core.specs.Interpolation.{IsPositive, IsRising, IsWithin};

/// The number of the table's interval in which `x` lies, by the column of its arguments, which
/// rise; `None` outside of the table. An argument that ends one interval and begins the next
/// belongs to the one below it. Found by binary search.
pub fn enclosing(arguments: &[i128], x: i128) -> Option<usize>
    requires rows { 2 ≤ length arguments.now }
    requires rises { IsRising arguments.now }
    ensures which { result ≡ interval arguments.now x }
    ensures exact { MatchOption result (IsOutside arguments.now x)
        (λ i. Encloses arguments.now i x) }
{
    let last = arguments.len() - 1;
    if x < arguments[0] {
        return None;
    }
    if arguments[last] < x {
        return None;
    }
    // The argument at `below` is below `x`, or `below` is 0; that at `above` isn't below `x`.
    let mut below = 0;
    let mut above = last;
    while above - below > 1 {
        let middle = below + (above - below) / 2;
        if arguments[middle] < x {
            below = middle;
        } else {
            above = middle;
        }
    }
    Some(below)
}

/// Whether `x` lies in the interval `i`, and above its lower end.
fn is_in(arguments: &[i128], x: i128, i: usize) -> bool
    requires rows { 2 ≤ length arguments.now }
    ensures inside { result ≡ true → i + 1 < length arguments.now }
    ensures above { result ≡ true → at arguments.now i <ℤ x }
    ensures upper { result ≡ true → x ≤ℤ at arguments.now (i + 1) }
{
    if i >= arguments.len() - 1 {
        return false;
    }
    if arguments[i] >= x {
        return false;
    }
    x <= arguments[i + 1]
}

/// The number of the interval in which `x` lies, as [`enclosing`] gives it, looked for first in the
/// interval `near`, where the last reading was. `near` is then the interval found, and stays where
/// there is none.
pub fn enclosing_near(arguments: &[i128], x: i128, near: &mut usize) -> Option<usize>
    requires rows { 2 ≤ length arguments.now }
    requires rises { IsRising arguments.now }
    ensures which { result ≡ interval arguments.now x }
    ensures exact { MatchOption result (IsOutside arguments.now x)
        (λ i. Encloses arguments.now i x) }
{
    if is_in(arguments, x, *near) {
        return Some(*near);
    }
    let found = enclosing(arguments, x);
    if let Some(i) = found {
        *near = i;
    }
    found
}

/// A number of a table in 64 bits.
#[inline(always)]
fn short(number: i128) -> i64
    requires { unsigned_abs number ≤ 10 ^ 9 }
    ensures value { result ≡ number }
    ensures within { unsigned_abs result ≤ 10 ^ 9 }
{
    number as i64
}

/// The value at `x` on the straight line through `(x0, y0)` and `(x1, y1)`, as the number whose
/// quotient by `x1 - x0` it is, as [`interp`](crate::interp) gives it. Its terms fit 64 bits.
#[inline(always)]
fn line_top(x: i64, x0: i64, y0: i64, x1: i64, y1: i64) -> i64
    requires from { x0 ≤ℤ x }
    requires to { x ≤ℤ x1 }
    requires x0_small { unsigned_abs x0 ≤ 10 ^ 9 }
    requires x1_small { unsigned_abs x1 ≤ 10 ^ 9 }
    requires y0_small { unsigned_abs y0 ≤ 10 ^ 9 }
    requires y1_small { unsigned_abs y1 ≤ 10 ^ 9 }
    ensures { result ≡ (y0 *ℤ (x1 -ℤ x)) +ℤ (y1 *ℤ (x -ℤ x0)) }
{
    y0 * (x1 - x) + y1 * (x - x0)
}

/// The reading of a column at `x`, which lies in the interval `i`, as the number whose quotient by
/// the interval's length it is ([`gap`]): so the readings of a row have one divisor.
pub fn read(arguments: &[i128], column: &[i128], i: usize, x: i128) -> i128
    requires rows { length column.now ≡ length arguments.now }
    requires inside { Encloses arguments.now i x }
    requires rises { at arguments.now i <ℤ at arguments.now (i + 1) }
    requires arguments_within { IsWithin (10 ^ 9) arguments.now }
    requires column_within { IsWithin (10 ^ 9) column.now }
    ensures value { result ≡ (reading arguments.now column.now i x).top }
    ensures size { (m : ℕ) → IsWithin m column.now
        → unsigned_abs result ≤ m * unsigned_abs (at arguments.now (i + 1) -ℤ at arguments.now i) }
    ensures low { IsPositive column.now → pos 1 ≤ℤ result }
{
    i128::from(line_top(
        short(x),
        short(arguments[i]),
        short(column[i]),
        short(arguments[i + 1]),
        short(column[i + 1]),
    ))
}

/// The length of the interval `i`.
pub fn gap(arguments: &[i128], i: usize) -> i128
    requires inside { i + 1 < length arguments.now }
    requires arguments_within { IsWithin (10 ^ 9) arguments.now }
    ensures { result ≡ at arguments.now (i + 1) -ℤ at arguments.now i }
{
    arguments[i + 1] - arguments[i]
}
