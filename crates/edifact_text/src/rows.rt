//! The envelope's rows of the fault table, in their order.
ghost use Rattle.std.specs.Prelude.{◌≡◌, codes};
ghost use Rattle.edifact_text.specs.Rows.{is_text};
ghost use Rattle.edifact_text.specs.Stages.{unb_rows, unh_rows, unt_rows, unz_rows, is_of_type};
ghost use Rattle.edifact_text.specs.Stages.{part};
ghost use Rattle.edifact_text.specs.Views.{stretch_of};

use crate::components::is_service;
use crate::faults::{EdiCode, EdiFault, Kind};
use crate::numbers::is_one;
use crate::segment_text::SegmentText;

/// Which of the two trailers a segment is, by its tag.
#[derive(Clone, Copy)]
pub(crate) struct Trailers {
    pub(crate) message: bool,
    pub(crate) interchange: bool,
}

impl SegmentText<'_> {
    /// Whether it is a trailer. The tag is looked for once.
    #[inline(always)]
    #[tactic(auto, using(crate::proofs::TagLemmas::not_tag))]
    pub(crate) fn trailers(self) -> Trailers
        ensures message { result.message
            ≡ is_text (part self.entry.service self.entry.bytes.now 0 0) (codes "UNT") }
        ensures interchange { result.interchange
            ≡ is_text (part self.entry.service self.entry.bytes.now 0 0) (codes "UNZ") }
    {
        // Nearly every segment has another first letter.
        match self.bytes {
            [first, ..] if *first != b'U' && !is_service(self.service, *first) => Trailers {
                message: false,
                interchange: false,
            },
            _ => self.seen_trailers(),
        }
    }

    /// Whether it is a trailer, by the tag's literal.
    #[cold]
    #[inline(never)]
    fn seen_trailers(self) -> Trailers
        ensures message { result.message
            ≡ is_text (part self.entry.service self.entry.bytes.now 0 0) (codes "UNT") }
        ensures interchange { result.interchange
            ≡ is_text (part self.entry.service self.entry.bytes.now 0 0) (codes "UNZ") }
    {
        let tag = self.component(0, 0);
        Trailers {
            message: tag.reads(b"UNT"),
            interchange: tag.reads(b"UNZ"),
        }
    }

    /// The interchange header.
    pub(crate) fn unb_rows(self) -> Result<(), EdiFault>
        ensures { result ≡ unb_rows self.entry.service (stretch_of self.entry) }
    {
        self.fault(!self.has(0, 0, b"UNB"), EdiCode::NoUnb)
    }

    /// The message type, directory and agency are those of the kind.
    fn is_of_type(self, kind: Kind) -> bool
        ensures { result ≡ is_of_type kind self.entry.service (stretch_of self.entry) }
    {
        let name: &[u8] = match kind {
            Kind::Baplie => b"BAPLIE",
            Kind::Movins => b"MOVINS",
        };
        self.has(2, 0, name)
            && self.has(2, 1, b"D")
            && self.has(2, 2, b"95B")
            && self.has(2, 3, b"UN")
    }

    /// The message header.
    pub(crate) fn unh_rows(self, kind: Kind) -> Result<(), EdiFault>
        ensures { result ≡ unh_rows kind self.entry.service (stretch_of self.entry) }
    {
        self.fault(self.has(0, 0, b"UNG"), EdiCode::Groups)?;
        self.fault(!self.has(0, 0, b"UNH"), EdiCode::NoUnh)?;
        self.fault(!self.is_of_type(kind), EdiCode::WrongType)
    }

    /// The message trailer, by its header and its own number in the message.
    pub(crate) fn unt_rows(self, unh: SegmentText<'_>, number: u64) -> Result<(), EdiFault>
        requires { self.service ≡ unh.service }
        ensures { result
            ≡ unt_rows self.entry.service (stretch_of unh.entry) (stretch_of self.entry) number }
    {
        self.fault(!self.has_count(1, 0, number), EdiCode::SegmentCount)?;
        self.fault(!self.same(2, 0, unh, 1, 0), EdiCode::MessageRef)
    }

    /// The segment behind the message trailer, by the interchange header.
    pub(crate) fn unz_rows(self, unb: SegmentText<'_>) -> Result<(), EdiFault>
        requires { self.service ≡ unb.service }
        ensures { result
            ≡ unz_rows self.entry.service (stretch_of unb.entry) (stretch_of self.entry) }
    {
        self.fault(
            self.has(0, 0, b"UNG") || self.has(0, 0, b"UNE"),
            EdiCode::Groups,
        )?;
        self.fault(!self.has(0, 0, b"UNZ"), EdiCode::SeveralMessages)?;
        self.fault(!is_one(self.component(1, 0)), EdiCode::InterchangeCount)?;
        self.fault(!self.same(2, 0, unb, 5, 0), EdiCode::InterchangeRef)
    }
}
