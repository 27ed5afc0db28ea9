//! The greatest of some shares. Nearly all are far below it, which a mark shows at a fraction of
//! the cost of an exact comparison.
ghost use Rattle.std.specs.Prelude.{◌≡◌, Option, true, false};
ghost use Rattle.units_core.specs.declared.fractions.Frac.{Frac};
ghost use Rattle.view_figures.specs.Shares.{greater_of, is_marked, is_more};

use crate::shares::is_more;
use fractions::{is_up_to_mark, mark_below};
use units_core::Frac;

/// The greatest of some shares; one that no number tells is more than any.
#[derive(Clone, Copy, Debug)]
pub struct Greatest {
    pub share: Option<Frac>,
    /// A mark that it isn't less than, where there's one.
    mark: Option<i32>,
    pub ghost marked: { is_marked share mark ≡ true },
}

/// A mark that a share isn't less than, where there's one.
#[tactic(auto, using(crate::proofs::MarkLemmas::marked_by))]
fn mark_of(share: Option<Frac>) -> Option<i32>
    ensures { is_marked share result ≡ true }
{
    match share {
        Some(share) => mark_below(share),
        None => None,
    }
}

/// Whether a share is surely no more than one of this mark.
#[tactic(auto, using(crate::proofs::MarkLemmas::no_more_on))]
fn is_within(share: Option<Frac>, mark: Option<i32>) -> bool
    ensures { result ≡ true → (greatest : Option Frac) → is_marked greatest mark ≡ true
        → is_more share greatest ≡ false }
{
    match (share, mark) {
        (Some(share), Some(mark)) => is_up_to_mark(share, mark),
        _ => false,
    }
}

impl Greatest {
    /// That of one share.
    pub fn of(share: Option<Frac>) -> Greatest
        ensures { result.share ≡ share }
    {
        Greatest {
            share,
            mark: mark_of(share),
        }
    }

    /// Whether another share is more ([`is_more`](crate::is_more)).
    pub fn is_below(&self, share: Option<Frac>) -> bool
        ensures { result ≡ is_more share self.now.share }
    {
        !is_within(share, self.mark) && is_more(share, self.share)
    }

    /// Joins a share: of equal ones the first stays.
    pub fn note(&mut self, share: Option<Frac>)
        ensures { self.new.share ≡ greater_of self.old.share share }
    {
        if self.is_below(share) {
            *self = Greatest::of(share);
        }
    }
}
