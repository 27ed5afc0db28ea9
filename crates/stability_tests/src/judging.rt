ghost use Rattle.moment_sums.specs.Bounded.{IsBounded};
ghost use Rattle.moment_sums.specs.Kept.{values};
ghost use Rattle.strength.specs.Hull.{IsHullOf};

use super::masses::{BLOCK, Mass, sum_of};
use crate::checks::same;
use box_ship::{Check, on_box_ship};
use criteria::{
    Criterion, Figures, Nearby, RoundedFigures, Verdict, exact_into, first_failed, judge,
    judge_into, judges_in_order,
};
use hydrostat::Outside;
use moment_sums::Totals;
use righting::{Levers, area_over_pairs, best_from_30, greatest_number};
use ship_profile::Profile;
use std::process::Abort;
use std::test::Fail;
use strength::{Hull, Strains};
use units_core::{Frac, floor};

/// What is said of a condition: the table outside of which it lies; or the metacentric height and
/// the greatest lever from 30 to 60 degrees, in thousandths of a mm, and the first criterion that
/// doesn't hold.
#[derive(Clone, Copy, Debug, PartialEq, Eq)]
enum Said {
    Lies(Outside),
    Figures([i128; 2], Option<Criterion>),
}

/// The thousandths that a fraction is, which have to be a whole number.
fn thousandths(fraction: Frac) -> Result<i128, Fail> {
    let Frac { num, den } = fraction;
    let num = num.checked_mul(1_000).ok_or("a smaller fraction")?;
    let number = floor(Frac { num, den });
    if number.checked_mul(den) != Some(num) {
        return Err("a whole number of thousandths")?;
    }
    Ok(number)
}

/// The two of a ship's exact figures.
fn two(figures: &Figures) -> Result<[i128; 2], Fail> {
    Ok([
        thousandths(figures.floating.gm)?,
        thousandths(best_from_30(&figures.levers))?,
    ])
}

/// What a verdict says.
fn summary(verdict: &Verdict) -> Result<Said, Fail> {
    match verdict {
        Verdict::Outside(outside) => Ok(Said::Lies(*outside)),
        Verdict::Fails(criterion, figures) => Ok(Said::Figures(two(figures)?, Some(*criterion))),
        Verdict::Passes(figures) => Ok(Said::Figures(two(figures)?, None)),
    }
}

/// The area of a Simpson's sum in mm degrees, 5/3 of it, rounded down.
fn area(levers: &Levers, from: usize, pairs: usize) -> Result<i128, Fail> {
    if from > 12 || pairs > (12 - from) / 2 {
        return Err("angles up to 60 degrees")?;
    }
    let Frac { num, den } = area_over_pairs(levers, from, pairs);
    Ok(floor(Frac {
        num: 5 * num,
        den: 3 * den,
    }))
}

/// The exact figures rounded down, and the list so.
fn floors(figures: &Figures) -> Result<([i128; 11], Option<i128>), Fail> {
    let floating = &figures.floating;
    let levers = &figures.levers;
    let numbers = [
        floor(floating.gm),
        floor(floating.mean),
        floor(floating.aft),
        floor(floating.fwd),
        floor(floating.trim),
        area(levers, 0, 3)?,
        area(levers, 0, 4)?,
        area(levers, 6, 1)?,
        floor(best_from_30(levers)),
        5 * greatest_number(levers) as i128,
        figures.loads.closing,
    ];
    match floating.list {
        Some(list) => Ok((numbers, Some(floor(list)))),
        None => Ok((numbers, None)),
    }
}

/// The same of rounded figures.
fn numbers(figures: &RoundedFigures) -> ([i128; 11], Option<i128>) {
    let numbers = [
        figures.gm,
        figures.mean,
        figures.aft,
        figures.fwd,
        figures.trim,
        figures.area_30,
        figures.area_40,
        figures.area_30_40,
        figures.lever,
        figures.angle as i128,
        i128::from(figures.strains.closing),
    ];
    (numbers, figures.list)
}

impl Said {
    /// The first criterion that fails, which is C0 outside of the tables.
    fn first_failed(self) -> Option<Criterion> {
        match self {
            Said::Lies(_) => Some(Criterion::C0),
            Said::Figures(_, criterion) => criterion,
        }
    }
}

/// Masses aboard, and what is said of them.
struct Row {
    masses: &'static [Mass],
    said: Said,
}

/// Compares rows with the box ship.
#[derive(Clone, Copy)]
struct Rows(&'static [Row]);

/// Compares exact figures with the rounded ones of the same condition.
fn same_figures(rt: &impl Abort, exact: &Figures, rounded: &RoundedFigures) -> Result<(), Fail> {
    same(rt, floors(exact)?, numbers(rounded));
    let loads = rounded.strains.loads(5);
    same(rt, exact.loads.frames.as_slice(), loads.frames.as_slice());
    Ok(())
}

/// Compares a verdict with what the other call found, and its figures with the rounded ones.
fn same_verdict(
    rt: &impl Abort,
    verdict: &Verdict,
    found: Result<Option<Criterion>, Outside>,
    rounded: &RoundedFigures,
) -> Result<(), Fail> {
    match verdict {
        Verdict::Outside(outside) => {
            same(rt, found, Err(*outside));
            Ok(())
        }
        Verdict::Fails(criterion, figures) => {
            same(rt, found, Ok(Some(*criterion)));
            same_figures(rt, figures, rounded)
        }
        Verdict::Passes(figures) => {
            same(rt, found, Ok(None));
            same_figures(rt, figures, rounded)
        }
    }
}

/// Compares figures with those that are rounded of the exact numbers of the same condition.
fn same_rounded(
    rt: &impl Abort,
    profile: &Profile,
    hull: &Hull,
    sum: &Totals,
    near: &mut Nearby,
    figures: &RoundedFigures,
)
    requires of { IsHullOf hull.now profile.now.ship }
    requires bounded { IsBounded (values sum.now) }
{
    let mut rounded = RoundedFigures::default();
    let Ok(exact) = exact_into(profile, hull, sum, near, &mut rounded.strains) else {
        return;
    };
    rounded.round(&exact, profile.lbp());
    same(rt, numbers(&rounded), numbers(figures));
}

/// Compares the verdict on a row alone with what it says, and with what is found of it behind the
/// rows before it, with its figures and without.
fn check_row(
    rt: &impl Abort,
    profile: &Profile,
    hull: &Hull,
    row: &Row,
    near: &mut Nearby,
) -> Result<(), Fail>
    requires { IsHullOf hull.now profile.now.ship }
{
    let sum = sum_of(profile, row.masses)?;
    let verdict = judge(profile, &sum);
    same(rt, summary(&verdict)?, row.said);
    let mut figures = RoundedFigures::default();
    let found = judge_into(profile, hull, &sum, near, &mut figures);
    same_verdict(rt, &verdict, found, &figures)?;
    same_rounded(rt, profile, hull, &sum, near, &figures);
    let failed = first_failed(profile, hull, &sum, near, &mut Strains::default());
    same(rt, failed, row.said.first_failed());
    Ok(())
}

impl<R: Abort + AllocGlobal> Check<R> for Rows {
    fn check(&self, rt: &R, profile: &Profile) -> Result<(), Fail> {
        let hull = Hull::new(profile);
        let mut near = Nearby::default();
        for row in self.0 {
            check_row(rt, profile, &hull, row, &mut near)?;
        }
        Ok(())
    }
}

// The box floats at 4,000 mm, GM = 10,333 - 6,000 mm, and the greatest lever is that at 35 degrees:
// 5,400 - 6,000 * 0.573576 = 1,958.544 mm. With its centre 4,184 mm higher GM is 149 mm; the levers
// fail too, that at 30 degrees being 4,900 - 10,184 * 0.5 mm, and C1 comes first. The hydrostatic
// table ends at 12,300,000 kg, where GM is 8,556 - 6,000 mm.
static CONDITIONS: [Row; 4] = [
    Row {
        masses: &[BLOCK],
        said: Said::Figures([4_333_000, 1_958_544], None),
    },
    Row {
        masses: &[(8_200_000, [50_000, 0, 10_184, 50_000])],
        said: Said::Figures([149_000, -192_000], Some(Criterion::C1)),
    },
    Row {
        masses: &[(12_300_001, [50_000, 0, 6_000, 50_000])],
        said: Said::Lies(Outside::Hydro),
    },
    Row {
        masses: &[(12_300_000, [50_000, 0, 6_000, 50_000])],
        said: Said::Figures([2_556_000, 1_958_544], None),
    },
];

#[test]
fn conditions(rt: HostRuntime) -> Result<(), Fail> {
    on_box_ship(&rt, &Rows(&CONDITIONS))
}

// The law has no body: this shows that it can be called.
#[test]
fn law_of_the_order(_rt: HostRuntime) {
    judges_in_order();
}
