//! How much of its limit a load uses.
ghost use Rattle.std.specs.Prelude.{◌≡◌, ◌^◌, ◌≤◌, pos, ◌≤ℤ◌, true};
ghost use Rattle.std.specs.Int.{int_max};
ghost use Rattle.units_core.specs.Ratio.{◌over◌};
ghost use Rattle.fractions.specs.Rounded.{up};
ghost use Rattle.view_curves.specs.Series.{at_most_999, percent_of};

use fractions::up;
use units_core::Frac;

/// The greatest percentage that is drawn.
const MOST: i128 = 999;

/// A load of which any limit of a profile is less than a tenth.
const GREAT: u128 = 1_000_000_000_000_000_000_000_000_000_000_000_000;

/// How much of its limit a load of this size uses.
fn percent_within(size: i128, most: i64) -> i128
    requires size { (pos 0 ≤ℤ size) × (size ≤ℤ pos (10 ^ 36)) }
    requires most { pos 1 ≤ℤ most }
    ensures { result ≡ at_most_999 (up (size over most) 100) }
{
    let percent = up(
        Frac {
            num: size,
            den: i128::from(most),
        },
        100,
    );
    if percent < MOST { percent } else { MOST }
}

/// How much of its limit a load uses, in percent and rounded up, at most 999. Of a limit of 0 no
/// load uses all, and any other load 999.
#[tactic(auto, using(crate::proofs::PercentLemmas::beyond_drawn))]
pub fn percent_of(load: i128, most: i64) -> i128
    ensures { result ≡ percent_of load most }
{
    if most <= 0 {
        return if load == 0 { 100 } else { MOST };
    }
    let size = load.unsigned_abs();
    if size > GREAT {
        return MOST;
    }
    percent_within(size as i128, most)
}

/// Whether a load of this size uses at most so much of its limit, in percent.
fn is_within_percent(size: i128, most: i64, percent: i128) -> bool
    requires size { (pos 0 ≤ℤ size) × (size ≤ℤ pos (10 ^ 36)) }
    requires most { pos 1 ≤ℤ most }
    requires percent { (pos 0 ≤ℤ percent) × (percent ≤ℤ pos 999) }
    ensures { result ≡ true → up (size over most) 100 ≤ℤ percent }
{
    size * 100 <= percent * i128::from(most)
}

/// Whether a load surely uses at most so much of its limit, in percent.
#[tactic(auto, using(crate::proofs::PercentLemmas::percent_kept))]
fn uses_at_most(load: i128, most: i64, percent: i128) -> bool
    ensures { result ≡ true → percent_of load most ≤ℤ percent }
{
    if most <= 0 || percent < 0 || percent > MOST {
        return false;
    }
    let size = load.unsigned_abs();
    if size > GREAT {
        return false;
    }
    is_within_percent(size as i128, most, percent)
}

/// The greater of a percentage and what a load uses of its limit. Most loads are far below the
/// greatest part of a condition, and nothing is divided for them.
#[tactic(auto, using(crate::proofs::PercentLemmas::greater_kept))]
pub fn percent_with(percent: i128, load: i128, most: i64) -> i128
    ensures { result ≡ int_max percent (percent_of load most) }
{
    if uses_at_most(load, most, percent) {
        return percent;
    }
    percent.max(percent_of(load, most))
}
