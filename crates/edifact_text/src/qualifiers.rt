//! The first component behind a tag, compared where it stands.
ghost use Rattle.std.specs.Prelude.{◌≡◌, ◌↔◌, IfSome, IsTrue, true};
ghost use Rattle.edifact_text.specs.Characters.{serves};
ghost use Rattle.edifact_text.specs.Views.{leading_literal};

use crate::advice::is_plain;
use crate::pieces::is_release;
use crate::raw::Raw;
use crate::service::Service;

/// Whether the component with which the bytes begin is this text. Letters and digits are no service
/// characters, so each is compared first; nothing is said of a text of others, nor where a byte is
/// released.
#[inline(always)]
#[tactic(auto, using(crate::proofs::QualifierLemmas::plain_front))]
pub(crate) fn leads_with(bytes: &[u8], service: Service, text: &[u8]) -> Option<bool>
    requires { serves service ≡ true }
    ensures { IfSome result
        (λ leads. IsTrue leads ↔ (leading_literal service bytes.now ≡ text.now)) }
{
    let mut left = bytes;
    for expected in text {
        if !is_plain(*expected) {
            return None;
        }
        match left {
            [] => return Some(false),
            [first, rest @ ..] => {
                if *first != *expected {
                    if is_release(service.release, *first) {
                        return None;
                    }
                    return Some(false);
                }
                left = rest;
            }
        }
    }
    Some(Raw::leading(left, service).is_empty())
}
