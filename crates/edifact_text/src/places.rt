//! The segments of a text at their places, whatever faults the message has: for what a fault is
//! told by.
ghost use Rattle.std.specs.Prelude.{◌≡◌, slice_get, option_map};
ghost use Rattle.std.specs.Iterator.{YieldsFirstBy, item_count};
ghost use Rattle.edifact_text.specs.Places.{placed_in, placed_left, placed_view};
ghost use Rattle.edifact_text.specs.Stages.{part};
ghost use Rattle.edifact_text.specs.Views.{meaning_of};

use crate::advice::start_of;
use crate::cursor::Cursor;
use crate::pieces::skip_blanks;
use crate::raw::Raw;
use crate::segment_text::SegmentText;

/// A segment at its place in a text. Headers and trailers are such, too, and what is behind the
/// last terminator.
#[derive(Clone, Copy)]
pub struct PlacedSegment<'a> {
    text: SegmentText<'a>,
    is_ended: bool,
}

impl<'a> PlacedSegment<'a> {
    /// How many bytes of the text are before its first one.
    pub fn place(&self) -> usize
        ensures { result ≡ (placed_view self.now).place }
    {
        self.text.place
    }

    /// Its bytes as the text has them, without the blanks before it and its terminator.
    pub fn bytes(&self) -> &'a [u8]
        ensures { result.now ≡ (placed_view self.now).bytes }
    {
        self.text.bytes
    }

    /// Its terminator; `None` of what is behind the last one.
    pub fn terminator(&self) -> Option<u8> {
        if self.is_ended {
            Some(self.text.service.terminator)
        } else {
            None
        }
    }

    /// Component `j` of element `i`, both counted from 0, the tag being component 0 of element 0.
    /// It is empty where there is no such element or component.
    pub fn component(&self, i: usize, j: usize) -> Raw<'a>
        ensures { meaning_of result
            ≡ part self.now.text.service (placed_view self.now).bytes i j }
    {
        self.text.component(i, j)
    }
}

/// The segments of a text that are left, in their order.
#[derive(Clone, Copy)]
pub struct PlacedSegments<'a> {
    left: Option<Cursor<'a>>,
}

impl<'a> Iterator for PlacedSegments<'a> {
    type Item = PlacedSegment<'a>;

    ghost next_gives = { YieldsFirstBy placed_view placed_left };

    ghost remaining = { item_count placed_left };

    #[tactic(auto, unfolding(crate::specs::Places::placed_left))]
    fn next(&mut self) -> Option<PlacedSegment<'a>> {
        let cursor = self.left?;
        let (text, behind) = cursor.take();
        self.left = behind;
        Some(PlacedSegment {
            text,
            is_ended: behind.is_some(),
        })
    }
}

/// All segments of a text, headers and trailers among them, and behind them what has no terminator;
/// none where the service string advice is cut off or can't serve. The interchange header is the
/// segment of number 0, so that the message header's is 1, as its trailer counts. Nothing is asked
/// of the message: its faults are what [`open`](crate::open) answers.
#[tactic(auto, unfolding(crate::specs::Places::placed_in, crate::specs::Places::placed_left))]
pub fn placed_segments(bytes: &[u8]) -> PlacedSegments<'_>
    ensures { placed_left result ≡ placed_in bytes.now }
{
    let text = skip_blanks(bytes);
    match start_of(bytes.len(), bytes.len() - text.len(), text) {
        Ok((service, rest)) => PlacedSegments {
            left: Some(Cursor {
                len: bytes.len(),
                rest,
                service,
            }),
        },
        Err(_) => PlacedSegments { left: None },
    }
}

/// The segment of a number among all those of a text.
pub fn segment_at(bytes: &[u8], number: u64) -> Option<PlacedSegment<'_>>
    ensures { option_map placed_view result ≡ slice_get (placed_in bytes.now) number }
{
    let mut left = number;
    for segment in placed_segments(bytes) {
        if left == 0 {
            return Some(segment);
        }
        left -= 1;
    }
    None
}
