//! Going through the text, a segment at a time.
ghost use Rattle.std.specs.Prelude.{◌≡◌, ◌<◌, ◌≤◌, length, MatchResult, MatchOption, IfOk, IfSome};
ghost use Rattle.std.specs.Prelude.{[], ◌∷◌, true};
ghost use Rattle.edifact_text.specs.Characters.{serves};

use crate::faults::{EdiCode, EdiFault};
use crate::pieces::{far_cut, near_cut, nearby_cut, ordinary_text, skip_blanks};
use crate::segment_text::SegmentText;
use crate::service::Service;

/// What is left of the text, and its service characters.
#[derive(Clone, Copy)]
pub(crate) struct Cursor<'a> {
    /// How long the whole text is.
    pub(crate) len: usize,
    pub(crate) rest: &'a [u8],
    pub(crate) service: Service,
    ghost within: { length rest.now ≤ len },
    ghost fit: { serves service ≡ true },
}

impl<'a> Cursor<'a> {
    ghost use Rattle.edifact_text.specs.Stages.{IsOrdinary, next_of, ended_ones};
    ghost use Rattle.edifact_text.specs.Views.{ahead, stretch_of};

    /// The text before the next terminator, and the text behind it; without one, all that is left.
    #[inline(always)]
    pub(crate) fn take(self) -> (SegmentText<'a>, Option<Cursor<'a>>)
        ensures first { MatchOption result.1 (ahead self.entry ≡ stretch_of result.0 ∷ [])
            (λ rest. (ahead self.entry ≡ stretch_of result.0 ∷ ahead rest)
            × (0 < length (ahead rest))) }
        ensures service { result.0.service ≡ self.entry.service }
        ensures same { IfSome result.1
            (λ rest. (rest.service ≡ self.entry.service) × (rest.len ≡ self.entry.len)
            × (length rest.rest.now < length self.entry.rest.now)) }
    {
        let service = self.service;
        let (front, behind) = far_cut(self.rest, service.release, service.terminator);
        let bytes = skip_blanks(front);
        let place = self.len - self.rest.len() + (front.len() - bytes.len());
        let text = SegmentText {
            bytes,
            place,
            service,
        };
        match behind {
            Some(rest) => (
                text,
                Some(Cursor {
                    len: self.len,
                    rest,
                    service,
                }),
            ),
            None => (text, None),
        }
    }

    /// The next segment and what is behind it, where its terminator is near.
    #[inline(always)]
    #[tactic(auto, using(crate::proofs::FitLemmas::ends_apart))]
    pub(crate) fn near(self) -> Option<(SegmentText<'a>, Cursor<'a>)>
        ensures first { IfSome result
            (λ p. (ahead self.entry ≡ stretch_of p.0 ∷ ahead p.1) × (0 < length (ahead p.1))) }
        ensures same { IfSome result
            (λ p. (p.0.service ≡ self.entry.service) × (p.1.service ≡ self.entry.service)
            × (p.1.len ≡ self.entry.len)) }
        ensures less { IfSome result
            (λ p. length p.1.rest.now < length self.entry.rest.now) }
    {
        let service = self.service;
        let (front, rest) = near_cut(self.rest, service.release, service.terminator)?;
        let bytes = skip_blanks(front);
        let place = self.len - self.rest.len() + (front.len() - bytes.len());
        let text = SegmentText {
            bytes,
            place,
            service,
        };
        let behind = Cursor {
            len: self.len,
            rest,
            service,
        };
        Some((text, behind))
    }

    /// The next segment and what is behind it, where its terminator is near and it was seen to be
    /// ordinary by its first letter, as nearly every segment is. Before that may be nothing or a
    /// line feed, and if `any_blanks` is set, blanks of any kind and number.
    #[inline(always)]
    #[tactic(auto, using(crate::proofs::FitLemmas::ends_apart))]
    pub(crate) fn near_ordinary(self, any_blanks: bool) -> Option<(SegmentText<'a>, Cursor<'a>)>
        ensures first { IfSome result
            (λ p. (ahead self.entry ≡ stretch_of p.0 ∷ ahead p.1) × (0 < length (ahead p.1))) }
        ensures same { IfSome result
            (λ p. (p.1.service ≡ self.entry.service) × (p.1.len ≡ self.entry.len)) }
        ensures less { IfSome result
            (λ p. length p.1.rest.now < length self.entry.rest.now) }
        ensures ordinary { IfSome result
            (λ p. IsOrdinary self.entry.service (stretch_of p.0)) }
    {
        let service = self.service;
        let (front, rest) = nearby_cut(self.rest, service.release, service.terminator)?;
        let bytes = ordinary_text(front, any_blanks)?;
        let place = self.len - self.rest.len() + (front.len() - bytes.len());
        let text = SegmentText {
            bytes,
            place,
            service,
        };
        let behind = Cursor {
            len: self.len,
            rest,
            service,
        };
        Some((text, behind))
    }

    /// As [`Cursor::take`], with a look at the nearest bytes first: most segments are short.
    #[inline(always)]
    fn take_nearest(self) -> (SegmentText<'a>, Option<Cursor<'a>>)
        ensures first { MatchOption result.1 (ahead self.entry ≡ stretch_of result.0 ∷ [])
            (λ rest. (ahead self.entry ≡ stretch_of result.0 ∷ ahead rest)
            × (0 < length (ahead rest))) }
        ensures service { result.0.service ≡ self.entry.service }
        ensures same { IfSome result.1
            (λ rest. (rest.service ≡ self.entry.service) × (rest.len ≡ self.entry.len)
            × (length rest.rest.now < length self.entry.rest.now)) }
    {
        match self.near() {
            Some((text, rest)) => (text, Some(rest)),
            None => self.take(),
        }
    }

    /// The next segment that has a terminator, and what is behind it.
    #[inline(always)]
    pub(crate) fn split_first(self) -> Option<(SegmentText<'a>, Cursor<'a>)>
        ensures first { MatchOption result (ended_ones (ahead self.entry) ≡ [])
            (λ p. ended_ones (ahead self.entry) ≡ stretch_of p.0 ∷ ended_ones (ahead p.1)) }
        ensures same { IfSome result
            (λ p. (p.0.service ≡ self.entry.service) × (p.1.service ≡ self.entry.service)) }
    {
        if let Some(found) = self.near() {
            return Some(found);
        }
        let (text, behind) = self.take();
        Some((text, behind?))
    }

    /// The next segment, checked as any segment is, and what is behind it.
    #[inline(always)]
    pub(crate) fn next(self) -> Result<(SegmentText<'a>, Cursor<'a>), EdiFault>
        ensures next { MatchResult result
            (λ p. next_of self.entry.service self.entry.len (ahead self.entry)
            ≡ Ok (stretch_of p.0, ahead p.1))
            (λ e. next_of self.entry.service self.entry.len (ahead self.entry) ≡ Err e) }
        ensures same { IfOk result
            (λ p. (p.0.service ≡ self.entry.service) × (p.1.service ≡ self.entry.service)
            × (p.1.len ≡ self.entry.len) × (length p.1.rest.now < length self.entry.rest.now)) }
    {
        let (text, behind) = self.take_nearest();
        let rest = match behind {
            Some(rest) => rest,
            None => {
                return Err(EdiFault {
                    code: EdiCode::Truncated,
                    place: self.len,
                });
            }
        };
        text.check()?;
        Ok((text, rest))
    }
}
