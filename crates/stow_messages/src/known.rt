ghost use Rattle.std.specs.Prelude.{◌≡◌};
ghost use Rattle.edifact_text.specs.Views.{numbered_view};
ghost use Rattle.stow_messages.specs.Kinds.{kind_of};

use crate::groups::SegmentKind;
use edifact_text::Segment;

/// A segment, and what it is in a message.
#[derive(Clone, Copy)]
pub struct Known<'a> {
    pub segment: Segment<'a>,
    pub kind: SegmentKind,
    ghost known: { kind ≡ kind_of (numbered_view segment) },
}
