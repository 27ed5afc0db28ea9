//! Figures as a planner reads them, with numbers worked out beside them.
ghost use Rattle.std.specs.Prelude.{pos, ◌≤ℤ◌};

use crate::checks::same;
use plain_text::{in_hundredths, in_ten_thousandths, in_tenths, in_thousandths};
use std::test::Fail;
use units_core::Frac;
use view_figures::{
    Greatest, Reading, area_reading, at_least, at_most, is_more, list_reading, share_of, used_of,
};

// 149.6 is printed as 149, and lacks 0.4, which is printed as -1; 150.4 has 0.4 to spare.
#[test]
fn readings_at_least(rt: HostRuntime) {
    let short = at_least(Frac { num: 1496, den: 10 }, Frac { num: 150, den: 1 });
    same(
        &rt,
        short,
        Reading {
            value: 149,
            limit: 150,
            margin: -1,
        },
    );
    let kept = at_least(Frac { num: 1504, den: 10 }, Frac { num: 150, den: 1 });
    same(
        &rt,
        kept,
        Reading {
            value: 150,
            limit: 150,
            margin: 0,
        },
    );
}

// 2500.2 is printed as 2501, and is 0.2 too much; 2497.3 as 2498, and leaves 2.7.
#[test]
fn readings_at_most(rt: HostRuntime) {
    let much = at_most(
        Frac {
            num: 25_002,
            den: 10,
        },
        Frac { num: 2500, den: 1 },
    );
    same(
        &rt,
        much,
        Reading {
            value: 2501,
            limit: 2500,
            margin: -1,
        },
    );
    let kept = at_most(
        Frac {
            num: 24_973,
            den: 10,
        },
        Frac { num: 2500, den: 1 },
    );
    same(
        &rt,
        kept,
        Reading {
            value: 2498,
            limit: 2500,
            margin: 2,
        },
    );
}

// 3,151.268 mm degrees are five thirds of 1,890.7608, and 0.0550000022 metre-radians. The next
// lesser area is 0.17 thousandths of a mm degree short of it.
#[test]
fn readings_of_areas(rt: HostRuntime) {
    let kept = area_reading(
        Frac {
            num: 18_907_608,
            den: 10_000,
        },
        3_151_268,
    );
    same(
        &rt,
        kept,
        Reading {
            value: 550,
            limit: 550,
            margin: 0,
        },
    );
    let short = area_reading(
        Frac {
            num: 18_907_607,
            den: 10_000,
        },
        3_151_268,
    );
    same(
        &rt,
        short,
        Reading {
            value: 549,
            limit: 550,
            margin: -1,
        },
    );
}

// arctan 0.0436 is 2.49651 degrees, arctan 0.04 is 2.29061, 0.20590 less; arctan 0.1 is 5.71059,
// 3.21408 more. One is 45 degrees.
#[test]
fn readings_of_lists(rt: HostRuntime) {
    let kept = list_reading(Frac { num: 800, den: 2 }, 436);
    same(&rt, kept.value, Some((230, 20)));
    same(&rt, kept.limit, 250);
    let broken = list_reading(Frac { num: 3000, den: 3 }, 436);
    same(&rt, broken.value, Some((572, -322)));
    let steep = list_reading(
        Frac {
            num: 10_000,
            den: 1,
        },
        436,
    );
    same(&rt, steep.value, Some((4500, -4251)));
    let beyond = list_reading(
        Frac {
            num: 20_001,
            den: 2,
        },
        436,
    );
    same(&rt, beyond.value, None);
}

// 150 of 4,472 are 3.35 percent. Of nothing, nothing is all.
#[test]
fn parts_that_are_used(rt: HostRuntime) {
    same(
        &rt,
        used_of(Frac { num: 150, den: 1 }, Frac { num: 4472, den: 1 }).percent,
        Some(4),
    );
    same(
        &rt,
        used_of(Frac { num: 999, den: 100 }, Frac { num: 1, den: 1 }).percent,
        Some(999),
    );
    same(
        &rt,
        used_of(
            Frac {
                num: 9991,
                den: 1000,
            },
            Frac { num: 1, den: 1 },
        )
        .percent,
        None,
    );
    same(
        &rt,
        used_of(Frac { num: -7, den: 1 }, Frac { num: 5, den: 1 }).percent,
        Some(0),
    );
    same(
        &rt,
        used_of(Frac { num: 0, den: 1 }, Frac { num: 0, den: 1 }).percent,
        Some(100),
    );
    same(
        &rt,
        used_of(Frac { num: 3, den: 1 }, Frac { num: 0, den: 1 })
            .share
            .is_none(),
        true,
    );
}

// Two thirds are more than three fifths; 3 of nothing are more than any.
#[test]
fn shares_in_their_order(rt: HostRuntime) {
    let third = share_of(Frac { num: 2, den: 1 }, Frac { num: 3, den: 1 });
    let fifth = share_of(Frac { num: 3, den: 1 }, Frac { num: 5, den: 1 });
    let beyond = share_of(Frac { num: 3, den: 1 }, Frac { num: 0, den: 1 });
    same(
        &rt,
        [
            is_more(third, fifth),
            is_more(fifth, third),
            is_more(third, third),
            is_more(beyond, third),
            is_more(third, beyond),
            is_more(beyond, beyond),
        ],
        [true, false, false, true, false, false],
    );
}

/// A share of so many parts of so many, as it is looked at below.
fn parts(num: i128, den: i128) -> Option<Frac>
    requires { pos 1 ≤ℤ den }
{
    Some(Frac { num, den })
}

/// The numerator of a share.
fn numerator(share: Option<Frac>) -> Option<i128> {
    Some(share?.num)
}

// 3 of 5 are 2,457.6 of 4,096 parts. 60,000 of 100,000 are as many, and 60,005 are 2,457.8: in the
// same part, and more. What no number tells stays the greatest.
#[test]
fn greatest_of_shares(rt: HostRuntime) {
    let mut greatest = Greatest::of(parts(3, 5));
    same(
        &rt,
        [
            greatest.is_below(parts(1, 2)),
            greatest.is_below(parts(60_000, 100_000)),
            greatest.is_below(parts(60_005, 100_000)),
            greatest.is_below(None),
        ],
        [false, false, true, true],
    );
    greatest.note(parts(60_000, 100_000));
    same(&rt, numerator(greatest.share), Some(3));
    greatest.note(parts(60_005, 100_000));
    same(&rt, numerator(greatest.share), Some(60_005));
    greatest.note(None);
    greatest.note(parts(7, 2));
    same(&rt, greatest.share.is_none(), true);
}

#[test]
fn numbers_with_decimals(rt: HostRuntime) -> Result<(), Fail> {
    let alloc = rt.alloc();
    same(&rt, in_tenths(alloc, -5)?.as_str(), "-0.5");
    same(&rt, in_hundredths(alloc, 1207)?.as_str(), "12.07");
    same(&rt, in_thousandths(alloc, -12_034)?.as_str(), "-12.034");
    same(&rt, in_thousandths(alloc, 0)?.as_str(), "0.000");
    same(&rt, in_ten_thousandths(alloc, 50_061)?.as_str(), "5.0061");
    Ok(())
}
