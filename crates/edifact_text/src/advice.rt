ghost use Rattle.std.specs.Prelude.{◌≡◌, ◌≤◌, length, IfOk, true};
ghost use Rattle.edifact_text.specs.Characters.{is_plain, is_unfit, release_of, is_bad_release};
ghost use Rattle.edifact_text.specs.Characters.{is_bad_service, default_service, serves};
ghost use Rattle.edifact_text.specs.Reading.{start_of, advised, Start, unadvised};
ghost use Rattle.edifact_text.specs.Stages.{Gives};

use crate::faults::{EdiCode, EdiFault};
use crate::service::Service;

/// An ASCII letter or digit, CR, LF or tab: neither separates nor releases.
#[inline(always)]
pub(crate) fn is_plain(byte: u8) -> bool
    ensures { result ≡ is_plain byte }
{
    byte.is_ascii_alphanumeric() || byte == b'\r' || byte == b'\n' || byte == b'\t'
}

/// A byte that can't be a separator or the terminator.
fn is_unfit(byte: u8) -> bool
    ensures { result ≡ is_unfit byte }
{
    is_plain(byte) || byte == b' '
}

/// The release character that the advice sets, a space being none.
fn release_of(byte: u8) -> Option<u8>
    ensures { result ≡ release_of byte }
{
    if byte == b' ' { None } else { Some(byte) }
}

/// There is a release character, and it can't be one beside these separators.
fn is_bad_release(service: Service) -> bool
    ensures { result ≡ is_bad_release service service.release }
{
    match service.release {
        None => false,
        Some(r) => {
            is_plain(r) || r == service.component || r == service.element || r == service.terminator
        }
    }
}

/// These characters can't serve. Nothing is asked of the decimal mark.
fn is_bad_service(service: Service) -> bool
    ensures { result ≡ is_bad_service service }
{
    is_unfit(service.component)
        || is_unfit(service.element)
        || is_unfit(service.terminator)
        || service.component == service.element
        || service.component == service.terminator
        || service.element == service.terminator
        || is_bad_release(service)
}

/// What UNA sets, from the bytes behind its three letters, and the bytes behind it.
#[tactic(auto, unfolding(crate::specs::Characters::serves))]
fn take_advice(len: usize, place: usize, bytes: &[u8]) -> Result<(Service, &[u8]), EdiFault>
    ensures less { IfOk result (λ p. length p.1.now ≤ length bytes.now) }
    ensures fit { IfOk result (λ p. serves p.0 ≡ true) }
    ensures value { Gives (λ p. record { service = p.0; bytes = p.1.now }) result
        (advised len place bytes.now) }
{
    match bytes {
        [component, element, mark, release, _, terminator, rest @ ..] => {
            let service = Service {
                component: *component,
                element: *element,
                mark: *mark,
                release: release_of(*release),
                terminator: *terminator,
            };
            if is_bad_service(service) {
                Err(EdiFault {
                    code: EdiCode::BadUna,
                    place,
                })
            } else {
                Ok((service, rest))
            }
        }
        _ => Err(EdiFault {
            code: EdiCode::Truncated,
            place: len,
        }),
    }
}

/// The service characters, by UNA where the bytes begin with it, and the bytes of the segments.
#[tactic(auto, unfolding(crate::specs::Characters::serves))]
pub(crate) fn start_of(len: usize, place: usize, bytes: &[u8]) -> Result<(Service, &[u8]), EdiFault>
    ensures less { IfOk result (λ p. length p.1.now ≤ length bytes.now) }
    ensures fit { IfOk result (λ p. serves p.0 ≡ true) }
    ensures value { Gives (λ p. record { service = p.0; bytes = p.1.now }) result
        (start_of len place bytes.now) }
{
    match bytes {
        [a, b, c, rest @ ..] => {
            if *a == b'U' && *b == b'N' && *c == b'A' {
                take_advice(len, place, rest)
            } else {
                Ok((default_service(), bytes))
            }
        }
        _ => Ok((default_service(), bytes)),
    }
}

/// The characters that hold without UNA.
fn default_service() -> Service
    ensures { result ≡ default_service }
{
    Service {
        component: b':',
        element: b'+',
        mark: b'.',
        release: Some(b'?'),
        terminator: b'\'',
    }
}
