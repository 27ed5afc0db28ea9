//! The components of a segment, found where they are asked for.
ghost use Rattle.std.specs.Prelude.{◌≡◌, ◌∷◌, [], IfSome, drop, slice_index_or, take, true};
ghost use Rattle.edifact_text.specs.Characters.{serves};
ghost use Rattle.edifact_text.specs.Pieces.{literal, pieces};
ghost use Rattle.edifact_text.specs.Reading.{segment_of};
ghost use Rattle.edifact_text.specs.Spelling.{is_service};
ghost use Rattle.edifact_text.specs.Stages.{part};
ghost use Rattle.edifact_text.specs.Views.{is_capital, leading_component, letters_of};
ghost use Rattle.edifact_text.specs.Views.{meaning_of};

use crate::pieces::{cut, from_piece, is_release};
use crate::raw::Raw;
use crate::service::Service;
use crate::tag::Tag;

/// The byte is a service character.
#[inline(always)]
pub(crate) fn is_service(service: Service, byte: u8) -> bool
    ensures { result ≡ is_service service byte }
{
    is_release(service.release, byte)
        || byte == service.component
        || byte == service.element
        || byte == service.terminator
}

/// The tag of a segment, where that begins with three ordinary bytes and an element separator.
/// Nearly every segment begins so, and for the others nothing is said.
#[inline(always)]
#[tactic(auto, using(crate::proofs::TagLemmas::tag_part, crate::proofs::TagLemmas::tag_parts))]
pub(crate) fn plain_tag(bytes: &[u8], service: Service) -> Option<Tag>
    ensures tag { IfSome result (λ tag. part service bytes.now 0 0 ≡ letters_of tag) }
    ensures parts { IfSome result (λ _. segment_of service bytes.now
        ≡ (take 3 bytes.now ∷ []) ∷ segment_of service (drop 4 bytes.now)) }
{
    match bytes {
        [a, b, c, d, ..] => {
            if is_service(service, *a) || is_service(service, *b) || is_service(service, *c) {
                return None;
            }
            if is_release(service.release, *d) || *d != service.element {
                return None;
            }
            Some(Tag {
                first: *a,
                second: *b,
                third: *c,
            })
        }
        _ => None,
    }
}

/// The byte is a capital letter, as the bytes of tags are.
#[inline(always)]
pub(crate) fn is_capital(byte: u8) -> bool
    ensures { result ≡ is_capital byte }
{
    byte.is_ascii_uppercase()
}

/// It was seen that the segment begins with three ordinary bytes and an element separator. Capital
/// letters are ordinary whatever the service characters are.
#[inline(always)]
pub(crate) fn is_plain(bytes: &[u8], service: Service) -> bool
    requires { serves service ≡ true }
    ensures { result ≡ true → segment_of service bytes.now
        ≡ (take 3 bytes.now ∷ []) ∷ segment_of service (drop 4 bytes.now) }
{
    match bytes {
        [a, b, c, d, ..]
            if is_capital(*a) && is_capital(*b) && is_capital(*c) && *d == service.element => {
            true
        }
        // It is passed a copy, so that the others need no place in memory.
        _ => is_seen_plain(bytes, Service { ..service }),
    }
}

/// It was seen that the segment begins so, by a test of each byte.
#[cold]
#[inline(never)]
fn is_seen_plain(bytes: &[u8], service: Service) -> bool
    ensures { result ≡ true → segment_of service bytes.now
        ≡ (take 3 bytes.now ∷ []) ∷ segment_of service (drop 4 bytes.now) }
{
    match plain_tag(bytes, service) {
        Some(_) => true,
        None => false,
    }
}

/// Component `j` of element `i` of a segment, or nothing where there is none. The first of an
/// element isn't cut: where it ends is seen when it is read.
#[inline(always)]
#[tactic(auto, unfolding(crate::specs::Stages::part))]
pub(crate) fn component_of(bytes: &[u8], service: Service, i: usize, j: usize) -> Raw<'_>
    ensures { meaning_of result ≡ part service bytes.now i j }
{
    let rest = match from_piece(bytes, service.release, service.element, i) {
        Some(rest) => rest,
        None => return Raw::new(&[], service.release),
    };
    if j == 0 {
        return Raw::leading(rest, service);
    }
    let element = cut(rest, service.release, service.element).0;
    inner_of(element, service, j)
}

/// Components 0 and 1 of element `i` of a segment, or nothing where there is none. The element is
/// looked for once.
#[inline(always)]
#[tactic(auto, unfolding(crate::specs::Stages::part))]
pub(crate) fn first_two_of<'a>(bytes: &'a [u8], service: &Service, i: usize) -> (Raw<'a>, Raw<'a>)
    ensures first { meaning_of result.0 ≡ part service.now bytes.now i 0 }
    ensures second { meaning_of result.1 ≡ part service.now bytes.now i 1 }
{
    match from_piece(bytes, service.release, service.element, i) {
        Some(rest) => leading_two(rest, service),
        None => (
            Raw::new(&[], service.release),
            Raw::new(&[], service.release),
        ),
    }
}

/// Components 0 and 1 of the element with which these bytes begin, or nothing where there is none.
/// Neither is cut twice where the first ends with an ordinary separator.
#[inline(always)]
fn leading_two<'a>(bytes: &'a [u8], service: &Service) -> (Raw<'a>, Raw<'a>)
    ensures first { meaning_of result.0 ≡ literal service.now.release
        (leading_component service.now 0 bytes.now) }
    ensures second { meaning_of result.1 ≡ literal service.now.release
        (leading_component service.now 1 bytes.now) }
{
    for (at, byte) in bytes.iter().enumerate() {
        if is_release(service.release, *byte) || *byte == service.element {
            return seen_two(bytes, *service);
        }
        if *byte == service.component {
            return (
                Raw::new(&bytes[..at], service.release),
                Raw::leading(&bytes[at + 1..], *service),
            );
        }
    }
    seen_two(bytes, *service)
}

/// Components 0 and 1 of the element with which these bytes begin, each looked for by itself.
#[cold]
#[inline(never)]
fn seen_two(bytes: &[u8], service: Service) -> (Raw<'_>, Raw<'_>)
    ensures first { meaning_of result.0 ≡ literal service.release
        (leading_component service 0 bytes.now) }
    ensures second { meaning_of result.1 ≡ literal service.release
        (leading_component service 1 bytes.now) }
{
    let element = cut(bytes, service.release, service.element).0;
    (Raw::leading(bytes, service), inner_of(element, service, 1))
}

/// Component `j` of an element, or nothing where there is none.
#[cold]
#[inline(never)]
fn inner_of(element: &[u8], service: Service, j: usize) -> Raw<'_>
    ensures { meaning_of result ≡ literal service.release
        (slice_index_or (pieces service.release service.component element.now) j []) }
{
    match from_piece(element, service.release, service.component, j) {
        Some(rest) => Raw::new(
            cut(rest, service.release, service.component).0,
            service.release,
        ),
        None => Raw::new(&[], service.release),
    }
}
