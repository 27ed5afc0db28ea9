//! What is drawn of a curve, and where.
use crate::checks::{holds, same};
use box_ship::{Check, on_box_ship};
use ship_profile::Profile;
use std::alloc::{AllocError, Global};
use std::process::Abort;
use std::test::Fail;
use strength::Strains;
use view_curves::{
    Extent, Height, Reaches, Scale, Tenths, drawn_points, percent_of, start_of, tick_step, x_of,
};

/// Of a short curve every condition with a figure is drawn.
#[test]
fn short_curves(rt: HostRuntime) -> Result<(), Fail> {
    let curve = [Some(3i128), None, Some(-1), Some(3)];
    let ks = drawn_points(rt.alloc(), &curve)?;
    same(&rt, ks.as_slice(), [0usize, 2, 3].as_slice());
    let none = drawn_points(rt.alloc(), &[None])?;
    holds(&rt, none.is_empty());
    Ok(())
}

/// The figure of a condition of a curve of 3,000: 0 and 1 in turn, with a peak and a trough in one
/// stretch and no figure in another.
fn figure_of(k: u32) -> Option<i128> {
    if k == 1_004 {
        return Some(500);
    }
    if k == 1_007 {
        return Some(-500);
    }
    if 2_000 <= k && k < 2_010 {
        return None;
    }
    Some(i128::from(k % 2))
}

/// The curve.
fn long_curve(alloc: Global) -> Result<Vec<Option<i128>>, AllocError> {
    let mut curve = Vec::new(alloc);
    for k in 0..3_000u32 {
        curve.push(figure_of(k))?;
    }
    Ok(curve)
}

/// Of a long curve each stretch of ten shows its first, its last, its least and its greatest.
#[test]
fn long_curves(rt: HostRuntime) -> Result<(), Fail> {
    let curve = long_curve(rt.alloc())?;
    let ks = drawn_points(rt.alloc(), curve.as_slice())?;
    same(&rt, ks.len(), 898);
    same(&rt, ks.first().copied(), Some(0usize));
    same(&rt, ks.last().copied(), Some(2_999usize));
    same(&rt, ks.get(299).copied(), Some(999usize));
    same(&rt, ks.get(300).copied(), Some(1_000usize));
    same(&rt, ks.get(301).copied(), Some(1_004usize));
    same(&rt, ks.get(302).copied(), Some(1_007usize));
    same(&rt, ks.get(303).copied(), Some(1_009usize));
    same(&rt, ks.get(304).copied(), Some(1_010usize));
    Ok(())
}

/// Of 1,234 conditions the seventh stretch begins behind 7 * 1,234 / 300 = 28.79 of them.
#[test]
fn stretches(rt: HostRuntime) {
    same(&rt, start_of(0, 1_234), 0);
    same(&rt, start_of(7, 1_234), 28);
    same(&rt, start_of(300, 1_234), 1_234);
}

/// The loads of a condition, with these at the second frame and none elsewhere.
fn loads_at_second(shear: i64, bending: i64) -> Strains {
    let mut strains = Strains::default();
    strains.shear[1] = shear;
    strains.bending[1] = bending;
    strains
}

/// Looks at the loads at each frame over two conditions: those that use most of their limits, and
/// the least and the greatest. Both of the second use more of theirs than the first, the bending
/// moment since both limits are the same.
#[derive(Clone, Copy)]
struct Loads;

impl<R: AllocGlobal + Abort> Check<R> for Loads {
    fn check(&self, rt: &R, profile: &Profile) -> Result<(), Fail> {
        let frames = profile.frames();
        let mut reaches = Reaches::default();
        reaches.note(&loads_at_second(-5, 7), 3, frames);
        let mut behind = Reaches::default();
        behind.note(&loads_at_second(6, -9), 4, frames);
        reaches.join(&behind, frames);
        let worst = reaches.worst();
        same(rt, (worst.shear[1], worst.bending[1]), (6, -9));
        same(rt, (worst.shear[2], worst.bending[2]), (0, 0));
        let reach = reaches.frames[1];
        same(rt, (reach.shear_least, reach.shear_greatest), (-5, 6));
        same(rt, (reach.bending_least, reach.bending_greatest), (-9, 7));
        same(rt, (reach.shear.step, reach.bending.step), (4, 4));
        same(rt, reaches.count, 2);
        Ok(())
    }
}

#[test]
fn loads_over_conditions(rt: HostRuntime) -> Result<(), Fail> {
    on_box_ship(&rt, &Loads)
}

/// A scale has a twelfth of its figures as room above and below them, and one at least.
#[test]
fn scales(rt: HostRuntime) {
    let scale = Scale::of(Extent::of(-20).with(40).with(7), Height::Low);
    same(&rt, (scale.low, scale.high), (-25, 45));
    same(&rt, scale.span(), 70);
    let scale = Scale::of(Extent::of(3), Height::Tall);
    same(&rt, (scale.low, scale.high), (2, 4));
}

/// Places are rounded down, in tenths of a pixel that print as pixels.
#[test]
fn places(rt: HostRuntime) -> Result<(), Fail> {
    let low = Scale {
        low: -3,
        high: 4,
        height: Height::Low,
    };
    let tall = Scale {
        low: 0,
        high: 1_000,
        height: Height::Tall,
    };
    same(&rt, low.y(4), 140);
    same(&rt, low.y(3), 334);
    same(&rt, low.y(-3), 1_500);
    same(&rt, tall.y(0), 2_100);
    same(&rt, tall.y(999), 141);
    same(&rt, x_of(0, 1), 540);
    same(&rt, x_of(1, 4), 2_273);
    same(&rt, x_of(3, 4), 5_740);
    let (whole, part) = (Tenths(540), Tenths(2_273));
    let text = format!(in rt.alloc(); "{whole} {part}")?;
    same(&rt, text.as_str(), "54 227.3");
    Ok(())
}

/// A grid has five steps at most, of 1, 2, 5 or ten times these.
#[test]
fn grids(rt: HostRuntime) -> Result<(), Fail> {
    same(&rt, tick_step(0), 1);
    same(&rt, tick_step(5), 1);
    same(&rt, tick_step(6), 2);
    same(&rt, tick_step(11), 5);
    same(&rt, tick_step(26), 10);
    same(&rt, tick_step(250_001), 100_000);
    Ok(())
}

/// Percentages are rounded up, and are at most 999; a limit of 0 is used as a whole by nothing.
#[test]
fn percentages(rt: HostRuntime) -> Result<(), Fail> {
    same(&rt, percent_of(0, 3), 0);
    same(&rt, percent_of(-1, 3), 34);
    same(&rt, percent_of(3, 3), 100);
    same(&rt, percent_of(30, 3), 999);
    same(&rt, percent_of(i128::MIN, 1), 999);
    same(&rt, percent_of(0, 0), 100);
    same(&rt, percent_of(1, 0), 999);
    Ok(())
}
