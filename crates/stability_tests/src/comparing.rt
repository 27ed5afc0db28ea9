//! The exact order of fractions, and how they are printed.
use crate::checks::same;
use fractions::{down, is_from_mark, is_less, is_up_to_mark, mark_above, mark_below, order, up};
use std::cmp::Ordering;
use units_core::Frac;

/// `n / (n - 1)` and `(n - 1) / (n - 2)` for n = 2^127 - 1. Their cross products, n (n - 2) and
/// (n - 1)^2, have 254 bits and differ by 1.
const LONG: Frac = Frac {
    num: 170_141_183_460_469_231_731_687_303_715_884_105_727,
    den: 170_141_183_460_469_231_731_687_303_715_884_105_726,
};

const NEXT: Frac = Frac {
    num: 170_141_183_460_469_231_731_687_303_715_884_105_726,
    den: 170_141_183_460_469_231_731_687_303_715_884_105_725,
};

/// The same with the other sign.
const LONG_BELOW: Frac = Frac {
    num: -170_141_183_460_469_231_731_687_303_715_884_105_727,
    den: 170_141_183_460_469_231_731_687_303_715_884_105_726,
};

const NEXT_BELOW: Frac = Frac {
    num: -170_141_183_460_469_231_731_687_303_715_884_105_726,
    den: 170_141_183_460_469_231_731_687_303_715_884_105_725,
};

#[test]
fn order_of_long_fractions(rt: HostRuntime) {
    same(&rt, order(LONG, NEXT), Ordering::Less);
    same(&rt, order(NEXT, LONG), Ordering::Greater);
    same(&rt, order(LONG, LONG), Ordering::Equal);
    same(&rt, is_less(NEXT_BELOW, LONG_BELOW), true);
    same(&rt, is_less(LONG_BELOW, NEXT_BELOW), false);
    same(&rt, is_less(LONG_BELOW, NEXT), true);
    same(&rt, is_less(LONG, NEXT_BELOW), false);
}

// 7/3 is 2.333.., of which there are 233.3.. hundredths.
#[test]
fn fractions_in_print(rt: HostRuntime) {
    same(&rt, down(Frac { num: 7, den: 3 }, 100), 233);
    same(&rt, up(Frac { num: 7, den: 3 }, 100), 234);
    same(&rt, down(Frac { num: -7, den: 3 }, 100), -234);
    same(&rt, up(Frac { num: -7, den: 3 }, 100), -233);
}

// 5/3 are 6,826.67 of 4,096 parts, and -5/3 as many below 0. A number of 35 digits is compared with
// no mark, nor one of 2^31 parts.
#[test]
fn marks_beside_fractions(rt: HostRuntime) {
    let five = Frac { num: 5, den: 3 };
    let below = Frac { num: -5, den: 3 };
    same(&rt, mark_above(five), Some(6_827));
    same(&rt, mark_below(five), Some(6_826));
    same(&rt, mark_above(below), Some(-6_826));
    same(&rt, mark_below(below), Some(-6_827));
    same(
        &rt,
        [is_from_mark(five, 6_826), is_from_mark(five, 6_827)],
        [true, false],
    );
    same(
        &rt,
        [is_up_to_mark(five, 6_826), is_up_to_mark(five, 6_827)],
        [false, true],
    );
    same(&rt, mark_above(LONG), None);
    same(
        &rt,
        mark_above(Frac {
            num: 524_288,
            den: 1,
        }),
        None,
    );
}
