ghost use Rattle.std.specs.Prelude.{◌≡◌, ◌↔◌, ◌<◌, ◌≤◌, IsTrue, IfSome, MatchOption, length, []};
ghost use Rattle.std.specs.Prelude.{◌∷◌};
ghost use Rattle.edifact_text.specs.Rows.{is_text};
ghost use Rattle.edifact_text.specs.Pieces.{literal};
ghost use Rattle.edifact_text.specs.Views.{meaning_of, front, is_end};

use crate::pieces::is_release;
use crate::service::{Ends, Service};
use arrayvec::ArrayVec;

/// A component as the text writes it. It means its literal: the release character makes the byte
/// behind it literal, and isn't meant itself. It borrows the text, and everything here is asked of
/// the literal.
#[derive(Clone, Copy)]
pub struct Raw<'a> {
    bytes: &'a [u8],
    release: Option<u8>,
    /// Where it ends, if not with the bytes.
    ends: Option<Ends>,
}

impl<'a> Raw<'a> {
    /// These bytes of a segment, where this is the release character.
    #[tactic(auto, unfolding(crate::specs::Views::meaning_of))]
    pub(crate) fn new(bytes: &'a [u8], release: Option<u8>) -> Raw<'a>
        ensures { meaning_of result ≡ literal release bytes.now }
    {
        Raw {
            bytes,
            release,
            ends: None,
        }
    }

    /// The component with which these bytes of a segment begin.
    #[tactic(auto, unfolding(crate::specs::Views::meaning_of))]
    pub(crate) fn leading(bytes: &'a [u8], service: Service) -> Raw<'a>
        ensures { meaning_of result ≡ literal service.release
            (front service.release service.component
            (front service.release service.element bytes.now)) }
    {
        Raw {
            bytes,
            release: service.release,
            ends: Some(Ends {
                element: service.element,
                component: service.component,
            }),
        }
    }

    /// The byte ends the component, where it isn't released.
    #[inline(always)]
    fn is_end(self, byte: u8) -> bool
        ensures { result ≡ is_end self.entry.ends byte }
    {
        match self.ends {
            Some(ends) => byte == ends.element || byte == ends.component,
            None => false,
        }
    }

    /// The literal's first byte, and a component that means the rest of it.
    #[inline(always)]
    #[tactic(auto, unfolding(crate::specs::Views::meaning_of))]
    pub(crate) fn split_first(self) -> Option<(u8, Raw<'a>)>
        ensures first { MatchOption result (meaning_of self.entry ≡ [])
            (λ p. meaning_of self.entry ≡ p.0 ∷ meaning_of p.1) }
        ensures less { IfSome result (λ p. length p.1.bytes.now < length self.entry.bytes.now) }
    {
        match self.bytes {
            [] => None,
            [byte, rest @ ..] => {
                if is_release(self.release, *byte) {
                    return match rest {
                        [] => None,
                        [byte, rest @ ..] => Some((
                            *byte,
                            Raw {
                                bytes: rest,
                                ..self
                            },
                        )),
                    };
                }
                if self.is_end(*byte) {
                    return None;
                }
                Some((
                    *byte,
                    Raw {
                        bytes: rest,
                        ..self
                    },
                ))
            }
        }
    }

    /// The literal, unchanged from the text, where no byte of it is released. Nothing is copied.
    #[inline(always)]
    #[tactic(auto, unfolding(crate::specs::Views::meaning_of))]
    pub fn without_release(self) -> Option<&'a [u8]>
        ensures { IfSome result (λ text. meaning_of self.entry ≡ text.now) }
    {
        for (at, byte) in self.bytes.iter().enumerate() {
            if is_release(self.release, *byte) {
                return None;
            }
            if self.is_end(*byte) {
                return Some(&self.bytes[..at]);
            }
        }
        Some(self.bytes)
    }

    /// Writes the literal to `out`, in place of what it held. Where it has more than `MOST` bytes
    /// the answer is false, and `out` is empty.
    #[inline(always)]
    pub fn literal_into<const MOST: usize>(self, out: &mut ArrayVec<u8, MOST>) -> bool
        ensures fits { IsTrue result ↔ (length (meaning_of self.entry) ≤ MOST) }
        ensures literal { IsTrue result → out.new.items ≡ meaning_of self.entry }
        ensures empty { ¬ IsTrue result → out.new.items ≡ [] }
    {
        if let Some(text) = self.without_release() {
            out.clear();
            return out.try_extend_from_slice(text).is_ok();
        }
        self.spell_into(out)
    }

    /// Writes the literal to `out` as `literal_into` does, byte by byte.
    #[cold]
    #[inline(never)]
    fn spell_into<const MOST: usize>(self, out: &mut ArrayVec<u8, MOST>) -> bool
        ensures fits { IsTrue result ↔ (length (meaning_of self.entry) ≤ MOST) }
        ensures literal { IsTrue result → out.new.items ≡ meaning_of self.entry }
        ensures empty { ¬ IsTrue result → out.new.items ≡ [] }
    {
        out.clear();
        let mut left = self;
        while let Some((byte, rest)) = left.split_first() {
            if out.try_push(byte).is_err() {
                out.clear();
                return false;
            }
            left = rest;
        }
        true
    }

    /// The two literals are equal.
    pub fn same(self, other: Raw<'_>) -> bool
        ensures { IsTrue result ↔ (meaning_of self.entry ≡ meaning_of other.entry) }
    {
        let mut left = self;
        let mut right = other;
        loop {
            match (left.split_first(), right.split_first()) {
                (None, None) => return true,
                (Some((a, rest)), Some((b, others))) => {
                    if a != b {
                        return false;
                    }
                    left = rest;
                    right = others;
                }
                _ => return false,
            }
        }
    }

    /// The literal is this text.
    #[inline(always)]
    pub fn is(self, text: &[u8]) -> bool
        ensures { IsTrue result ↔ (meaning_of self.entry ≡ text.now) }
    {
        let mut left = self;
        for expected in text {
            match left.split_first() {
                Some((byte, rest)) => {
                    if byte != *expected {
                        return false;
                    }
                    left = rest;
                }
                None => return false,
            }
        }
        left.is_empty()
    }

    /// The literal is this text, for definitions that compute.
    #[tactic(auto, using(crate::proofs::Texts::told))]
    pub(crate) fn reads(self, text: &[u8]) -> bool
        ensures { result ≡ is_text (meaning_of self.entry) text.now }
    {
        self.is(text)
    }

    /// The literal is empty.
    pub fn is_empty(self) -> bool
        ensures { IsTrue result ↔ (meaning_of self.entry ≡ []) }
    {
        self.split_first().is_none()
    }
}
