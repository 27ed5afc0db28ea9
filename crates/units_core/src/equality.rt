ghost use Rattle.std.specs.Prelude.{◌≡◌, ◌↔◌, IsTrue, map, Decides};
ghost use Rattle.std.specs.Cmp.{signed_Decides, unsigned_Decides};
ghost use Rattle.units_core.specs.Equality.{cells_exact, places_exact, bodies_exact, frames_exact};

use crate::bodies::{Body, Place};
use crate::cells::Cell;
use crate::frames::Frame;
use crate::measures::Mm;

/// A type whose `==` says whether two values are equal, which a contract writes as `≡`.
pub trait Exact: PartialEq {
    ghost exact: { (x y : Self) → Decides (Self.PartialEq.eq x y) (x ≡ y) };
}

impl Exact for u8 {
    ghost exact = { unsigned_Decides };
}

impl Exact for i128 {
    ghost exact = { signed_Decides };
}

impl Exact for Mm {
    ghost exact = { signed_Decides };
}

impl Exact for Cell {
    ghost exact = { cells_exact };
}

impl Exact for Place {
    ghost exact = { places_exact };
}

impl Exact for Body {
    ghost exact = { bodies_exact };
}

impl Exact for Frame {
    ghost exact = { frames_exact };
}

/// Whether two lists are equal: they are equally long, and equal at each place.
pub fn same_items<T: Exact>(a: &[T], b: &[T]) -> bool
    ensures { IsTrue result ↔ (a.now ≡ b.now) }
{
    a == b
}

/// Whether two lists of lists are equal.
pub fn same_rows<T: Exact>(rows: &[Vec<T>], others: &[Vec<T>]) -> bool
    ensures { IsTrue result ↔ (map (λ v. v.items) rows.now ≡ map (λ v. v.items) others.now) }
{
    rows == others
}
