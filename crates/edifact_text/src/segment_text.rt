//! A segment at its place in the text, and what can be asked of any segment.
ghost use Rattle.std.specs.Prelude.{◌≡◌, ◌≤◌, ◌<◌, length, []};
ghost use Rattle.std.specs.List.{list_any};
ghost use Rattle.edifact_text.specs.Rows.{is_text, is_number, count_of};
ghost use Rattle.edifact_text.specs.Pieces.{pieces};
ghost use Rattle.edifact_text.specs.Reading.{row};
ghost use Rattle.edifact_text.specs.Stages.{part, whole, is_long, is_too_large};
ghost use Rattle.edifact_text.specs.Views.{meaning_of, stretch_of};

use crate::components::{component_of, is_service};
use crate::faults::{EdiCode, EdiFault};
use crate::numbers::count;
use crate::pieces::{are_at_most, cut};
use crate::raw::Raw;
use crate::service::Service;

/// The bytes of a segment without its terminator, their place in the text, and the service
/// characters.
#[derive(Clone, Copy)]
pub(crate) struct SegmentText<'a> {
    pub(crate) bytes: &'a [u8],
    pub(crate) place: usize,
    pub(crate) service: Service,
}

impl<'a> SegmentText<'a> {
    /// Component `j` of element `i`, or nothing where there is none.
    #[inline(never)]
    pub(crate) fn component(self, i: usize, j: usize) -> Raw<'a>
        ensures { meaning_of result ≡ part self.entry.service self.entry.bytes.now i j }
    {
        component_of(self.bytes, self.service, i, j)
    }

    /// Component `j` of element `i` has this literal.
    pub(crate) fn has(self, i: usize, j: usize, text: &[u8]) -> bool
        ensures { result ≡ is_text (part self.entry.service self.entry.bytes.now i j) text.now }
    {
        self.component(i, j).reads(text)
    }

    /// Component `j` of element `i` has the literal of the other's component `l` of element `k`.
    pub(crate) fn same(self, i: usize, j: usize, other: SegmentText<'_>, k: usize, l: usize) -> bool
        requires { self.service ≡ other.service }
        ensures { result ≡ is_text (part self.entry.service self.entry.bytes.now i j)
            (part self.entry.service other.entry.bytes.now k l) }
    {
        self.component(i, j).same(other.component(k, l))
    }

    /// The fault at this segment, where it applies.
    #[inline(always)]
    pub(crate) fn fault(self, applies: bool, code: EdiCode) -> Result<(), EdiFault>
        ensures { result ≡ row applies code self.entry.place }
    {
        if applies {
            Err(EdiFault {
                code,
                place: self.place,
            })
        } else {
            Ok(())
        }
    }

    /// Component `j` of element `i` writes this number in 1 to 10 digits.
    pub(crate) fn has_count(self, i: usize, j: usize, number: u64) -> bool
        ensures { result
            ≡ is_number (count_of (part self.entry.service self.entry.bytes.now i j)) number }
    {
        match count(self.component(i, j)) {
            Some(found) => found == number,
            None => false,
        }
    }

    /// Its tag is empty.
    #[inline(always)]
    #[tactic(auto, using(crate::proofs::TagLemmas::not_empty))]
    fn is_without_tag(self) -> bool
        ensures { result ≡ is_text (part self.entry.service self.entry.bytes.now 0 0) [] }
    {
        match self.bytes {
            [first, ..] if !is_service(self.service, *first) => false,
            _ => self.has(0, 0, b""),
        }
    }

    /// It has more than 64 elements, or an element more than 64 components.
    #[inline(always)]
    #[tactic(auto, using(crate::proofs::ShortLemmas::never_large))]
    fn is_too_large(self) -> bool
        ensures { result ≡ is_too_large self.entry.service self.entry.bytes.now }
    {
        // So few bytes make at most 64 pieces, and most segments have no more.
        if self.bytes.len() < 64 {
            return false;
        }
        self.is_seen_too_large()
    }

    /// Whether it is too large, by counting.
    #[cold]
    #[inline(never)]
    fn is_seen_too_large(self) -> bool
        ensures { result ≡ is_too_large self.entry.service self.entry.bytes.now }
    {
        let service = self.service;
        if !are_at_most(self.bytes, service.release, service.element, 64) {
            return true;
        }
        self.has_long_element()
    }

    /// Some element has more than 64 components.
    fn has_long_element(self) -> bool
        ensures { result ≡ list_any (is_long self.entry.service)
            (pieces self.entry.service.release self.entry.service.element self.entry.bytes.now) }
    {
        let service = self.service;
        let mut rest = self.bytes;
        'elements: loop {
            let (element, behind) = cut(rest, service.release, service.element);
            if !are_at_most(element, service.release, service.component, 64) {
                return true;
            }
            match behind {
                Some(behind) => rest = behind,
                None => return false,
            }
        }
    }

    /// The rows of any segment.
    #[inline(always)]
    pub(crate) fn check(self) -> Result<(), EdiFault>
        ensures { result ≡ whole self.entry.service (stretch_of self.entry) }
    {
        self.fault(self.is_without_tag(), EdiCode::EmptySegment)?;
        self.fault(self.is_too_large(), EdiCode::TooManyElements)
    }
}
