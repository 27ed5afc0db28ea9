ghost use Rattle.std.specs.Prelude.{◌≡◌, ◌∷◌, None, [], MatchOption, true, ◌&&◌, ◌||◌};
ghost use Rattle.std.specs.Iterator.{YieldsFirstBy, item_count};
ghost use Rattle.edifact_text.specs.Views.{numbered_view, left_of};
ghost use Rattle.stow_messages.specs.Groups.{begins, found_in, parts_of, until_part};
ghost use Rattle.stow_messages.specs.Kinds.{kind_of};
ghost use Rattle.stow_messages.specs.Views.{found_view, part_view, parts_left, segments_left};

use crate::groups::{Group, SegmentKind, kind_of};
use crate::known::Known;
use edifact_text::{Segment, Segments};

/// A part of a message.
#[derive(Clone, Copy)]
pub enum Part<'a> {
    /// A handling.
    Handled(Segment<'a>),
    /// A location of a cell, with what is behind it.
    Located(Group<'a>),
}

/// The parts of a message that are left, in their order. This is the one walk over the segments,
/// for a bay plan and for a movement instruction: they differ in whether handlings are parts.
#[derive(Clone, Copy)]
pub struct Parts<'a> {
    left: Segments<'a>,
    /// The segment before those, where it was taken to see that a group ends there.
    ahead: Option<Known<'a>>,
    handles: bool,
}

impl<'a> Parts<'a> {
    /// The parts of these segments, handlings among them or not.
    pub fn new(segments: Segments<'a>, handles: bool) -> Parts<'a>
        ensures { parts_left result ≡ parts_of handles (left_of segments.entry) }
    {
        Parts {
            left: segments,
            ahead: None,
            handles,
        }
    }

    /// The next segment. It is asked once what it is.
    #[inline(always)]
    fn next_segment(&mut self) -> Option<Known<'a>>
        ensures segment { MatchOption result
            ((segments_left self.old ≡ []) × (segments_left self.new ≡ []))
            (λ s. segments_left self.old ≡ numbered_view s.segment ∷ segments_left self.new) }
        ensures same { (self.new.handles ≡ self.old.handles) × (self.new.ahead ≡ None) }
    {
        match self.ahead {
            Some(known) => {
                self.ahead = None;
                Some(known)
            }
            None => {
                let segment = self.left.next()?;
                let kind = kind_of(&segment);
                Some(Known { segment, kind })
            }
        }
    }

    /// A segment of this kind begins a part.
    #[inline(always)]
    fn is_begun_by(&self, kind: SegmentKind, segment: &Segment<'a>) -> bool
        requires { kind ≡ kind_of (numbered_view segment.now) }
        ensures { result ≡ begins self.now.handles (numbered_view segment.now) }
    {
        match kind {
            SegmentKind::Location => true,
            SegmentKind::Handling => self.handles,
            _ => false,
        }
    }

    /// The group that a location begins. It is filled in place, and the segment that ends it is
    /// left.
    #[inline(always)]
    fn group_at(&mut self, location: &Segment<'a>) -> Group<'a>
        requires { self.old.ahead ≡ None }
        ensures found { found_view result ≡ found_in (numbered_view location.now)
            (until_part self.old.handles (left_of self.old.left)) }
        ensures left { parts_left self.new ≡ parts_of self.old.handles (left_of self.old.left) }
    {
        let mut group = Group::at(location);
        let mut left = self.left;
        while let Some(segment) = left.next() {
            let kind = kind_of(&segment);
            if self.is_begun_by(kind, &segment) {
                self.left = left;
                self.ahead = Some(Known { segment, kind });
                return group;
            }
            group.note(kind, &segment);
        }
        self.left = left;
        group
    }
}

impl<'a> Iterator for Parts<'a> {
    type Item = Part<'a>;

    ghost next_gives = { YieldsFirstBy part_view parts_left };

    ghost remaining = { item_count parts_left };

    #[inline(always)]
    fn next(&mut self) -> Option<Part<'a>> {
        while let Some(known) = self.next_segment() {
            match known.kind {
                SegmentKind::Location => {
                    return Some(Part::Located(self.group_at(&known.segment)));
                }
                SegmentKind::Handling if self.handles => return Some(Part::Handled(known.segment)),
                _ => {}
            }
        }
        None
    }
}
