//! Which conditions of a curve are drawn.
ghost use Rattle.std.specs.Prelude.{◌≡◌, ◌⊎◌, ◌↔◌, ℕ, ℤ, ◌+◌, ◌<◌, ◌≤◌, IsTrue, List, Option};
ghost use Rattle.std.specs.Prelude.{Some, IfOk, OnOk, length};
ghost use Rattle.view_curves.specs.Decimation.{AreAdded, AreFound, EndsWith, IsAdded, IsDrawn};
ghost use Rattle.view_curves.specs.Decimation.{IsDrawnIn, IsGreatest, IsLeast, IsOffered};
ghost use Rattle.view_curves.specs.Decimation.{figure_at, start_of};

use std::alloc::{AllocError, Global};

/// Up to so many conditions all are drawn.
pub const WHOLE: usize = 1_200;

/// More of them are cut into so many stretches.
pub const STRETCHES: usize = 300;

/// Where a stretch of conditions begins, of so many; the one behind the last begins behind them.
#[tactic(auto, using(crate::proofs::StretchLemmas::product_fits, crate::proofs::StretchLemmas::start_within))]
pub fn start_of(stretch: usize, conditions: usize) -> usize
    requires { stretch ≤ 300 }
    ensures { result ≡ start_of stretch conditions }
{
    (stretch as u128 * conditions as u128 / 300) as usize
}

/// The figure of a condition, if it has one.
fn figure_at(curve: &[Option<i128>], k: usize) -> Option<i128>
    ensures { result ≡ figure_at curve.now k }
{
    match curve.get(k) {
        Some(figure) => *figure,
        None => None,
    }
}

/// A figure, and the condition that has it.
#[derive(Clone, Copy)]
pub struct Point {
    pub at: usize,
    pub figure: i128,
}

/// The conditions of a stretch that are drawn: the first and the last with a figure, and the first
/// with the least and with the greatest.
#[derive(Clone, Copy)]
pub struct Ends {
    pub first: usize,
    pub last: usize,
    pub least: Point,
    pub greatest: Point,
}

/// The first with the least figure, with one more condition.
#[tactic(auto, using(crate::proofs::Extremes::least_new, crate::proofs::Extremes::least_kept))]
fn lesser(old: Point, k: usize, figure: i128) -> Point
    ensures { (curve : List (Option ℤ)) (s : ℕ) → s ≤ k → figure_at curve k ≡ Some figure
        → IsLeast curve s k old → IsLeast curve s (k + 1) result }
{
    if figure < old.figure {
        return Point { at: k, figure };
    }
    old
}

/// The first with the greatest figure, with one more condition.
#[tactic(auto, using(crate::proofs::Extremes::greatest_new, crate::proofs::Extremes::greatest_kept))]
fn greater(old: Point, k: usize, figure: i128) -> Point
    ensures { (curve : List (Option ℤ)) (s : ℕ) → s ≤ k → figure_at curve k ≡ Some figure
        → IsGreatest curve s k old → IsGreatest curve s (k + 1) result }
{
    if old.figure < figure {
        return Point { at: k, figure };
    }
    old
}

/// What is found of a stretch, with one more condition that has a figure.
#[tactic(auto, using(crate::proofs::Extremes::ends_new, crate::proofs::Extremes::ends_more))]
fn with_figure(ends: Option<Ends>, k: usize, figure: i128) -> Ends
    ensures { (curve : List (Option ℤ)) (s : ℕ) → s ≤ k → figure_at curve k ≡ Some figure
        → AreFound curve s k ends → AreFound curve s (k + 1) (Some result) }
{
    let Some(ends) = ends else {
        let here = Point { at: k, figure };
        return Ends {
            first: k,
            last: k,
            least: here,
            greatest: here,
        };
    };
    Ends {
        first: ends.first,
        last: k,
        least: lesser(ends.least, k, figure),
        greatest: greater(ends.greatest, k, figure),
    }
}

/// What is found of a stretch, with one more condition.
#[tactic(auto, using(crate::proofs::Extremes::found_kept))]
fn with_next(ends: Option<Ends>, k: usize, figure: Option<i128>) -> Option<Ends>
    ensures { (curve : List (Option ℤ)) (s : ℕ) → s ≤ k → figure_at curve k ≡ figure
        → AreFound curve s k ends → AreFound curve s (k + 1) result }
{
    match figure {
        Some(figure) => Some(with_figure(ends, k, figure)),
        None => ends,
    }
}

/// The conditions of a stretch that are drawn, none where no condition of it has a figure.
fn ends_of(curve: &[Option<i128>], start: usize, end: usize) -> Option<Ends>
    requires { start ≤ end }
    ensures { AreFound curve.now start end result }
{
    let mut ends = None;
    for k in start..end {
        ends = with_next(ends, k, figure_at(curve, k));
    }
    ends
}

/// Whether the last of some conditions is this.
fn ends_with(drawn: &[usize], k: usize) -> bool
    ensures { IsTrue result ↔ EndsWith k drawn.now }
{
    match drawn.last() {
        Some(last) => *last == k,
        None => false,
    }
}

/// Adds a condition behind others, unless it is the last of them.
#[tactic(auto, using(crate::proofs::Additions::added_before, crate::proofs::Additions::added_behind))]
fn add(drawn: &mut Vec<usize>, k: usize) -> Result<(), AllocError>
    ensures { OnOk result (IsAdded k drawn.old.items drawn.new.items) }
{
    if ends_with(drawn, k) {
        return Ok(());
    }
    drawn.push(k)?;
    Ok(())
}

/// Two conditions in their order.
fn in_order(one: usize, other: usize) -> (usize, usize)
    ensures which { ((result.0 ≡ one) × (result.1 ≡ other))
        ⊎ ((result.0 ≡ other) × (result.1 ≡ one)) }
    ensures order { result.0 ≤ result.1 }
{
    if one < other {
        return (one, other);
    }
    (other, one)
}

/// Adds the conditions of a stretch that are drawn, in their order and each once.
#[tactic(auto, using(crate::proofs::Additions::ends_added))]
fn add_ends(drawn: &mut Vec<usize>, ends: Ends) -> Result<(), AllocError>
    ensures { OnOk result (AreAdded ends drawn.old.items drawn.new.items) }
{
    let (before, behind) = in_order(ends.least.at, ends.greatest.at);
    add(drawn, ends.first)?;
    add(drawn, before)?;
    add(drawn, behind)?;
    add(drawn, ends.last)?;
    Ok(())
}

/// Adds a condition behind others, if it has a figure.
#[tactic(auto, using(crate::proofs::StretchLemmas::offered_with, crate::proofs::StretchLemmas::offered_without))]
fn offer(drawn: &mut Vec<usize>, curve: &[Option<i128>], k: usize) -> Result<(), AllocError>
    ensures { OnOk result (IsOffered curve.now k drawn.old.items drawn.new.items) }
{
    if figure_at(curve, k).is_none() {
        return Ok(());
    }
    drawn.push(k)?;
    Ok(())
}

/// All conditions of a curve that have a figure.
#[tactic(auto, using(crate::proofs::StretchLemmas::drawn_to_none, crate::proofs::StretchLemmas::drawn_to_more, crate::proofs::StretchLemmas::drawn_all))]
fn all_drawn(alloc: Global, curve: &[Option<i128>]) -> Result<Vec<usize>, AllocError>
    requires { length curve.now ≤ 1200 }
    ensures { IfOk result (λ ks. IsDrawn curve.now ks.items) }
{
    let mut drawn = Vec::new(alloc);
    for k in 0..curve.len() {
        offer(&mut drawn, curve, k)?;
    }
    Ok(drawn)
}

/// Adds the conditions of a stretch that are drawn, if it has any.
#[tactic(auto, using(crate::proofs::StretchLemmas::stretch_added, crate::proofs::StretchLemmas::stretch_without))]
fn add_stretch(
    drawn: &mut Vec<usize>,
    curve: &[Option<i128>],
    start: usize,
    end: usize,
) -> Result<(), AllocError>
    requires { start ≤ end }
    ensures { OnOk result (IsDrawnIn curve.now start end drawn.old.items drawn.new.items) }
{
    match ends_of(curve, start, end) {
        Some(ends) => add_ends(drawn, ends),
        None => Ok(()),
    }
}

/// Of each stretch of a curve the conditions that are drawn.
#[tactic(auto, using(crate::proofs::StretchLemmas::up_to_none, crate::proofs::StretchLemmas::up_to_more, crate::proofs::StretchLemmas::drawn_long, crate::proofs::StretchLemmas::starts_rise))]
fn stretches_drawn(alloc: Global, curve: &[Option<i128>]) -> Result<Vec<usize>, AllocError>
    requires { 1200 < length curve.now }
    ensures { IfOk result (λ ks. IsDrawn curve.now ks.items) }
{
    let mut drawn = Vec::new(alloc);
    let mut start = 0;
    for stretch in 0..STRETCHES {
        let end = start_of(stretch + 1, curve.len());
        add_stretch(&mut drawn, curve, start, end)?;
        start = end;
    }
    Ok(drawn)
}

/// The conditions of a curve that are drawn, in their order. Up to 1,200 conditions every one with
/// a figure is drawn; of more, which are cut into 300 stretches, of each stretch the first and the
/// last with a figure, and the first with the least and with the greatest figure.
pub fn drawn_points(alloc: Global, curve: &[Option<i128>]) -> Result<Vec<usize>, AllocError>
    ensures { IfOk result (λ ks. IsDrawn curve.now ks.items) }
{
    if curve.len() <= WHOLE {
        return all_drawn(alloc, curve);
    }
    stretches_drawn(alloc, curve)
}
