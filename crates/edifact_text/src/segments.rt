//! What a caller reads of a message.
ghost use Rattle.std.specs.Prelude.{◌≡◌, ◌↔◌, ◌∷◌, [], IfSome, IsTrue, Some, drop, true};
ghost use Rattle.std.specs.Iterator.{YieldsFirstBy, item_count};
ghost use Rattle.edifact_text.specs.Characters.{serves};
ghost use Rattle.edifact_text.specs.Interchange.{component};
ghost use Rattle.edifact_text.specs.Reading.{segment_of};
ghost use Rattle.edifact_text.specs.Views.{letters_of, meaning_of, message_view, numbered_view};
ghost use Rattle.edifact_text.specs.Views.{leading_component, leading_literal, left_of};
ghost use Rattle.edifact_text.specs.Pieces.{literal};
ghost use Rattle.edifact_text.specs.Rows.{count_of};

use crate::components::{component_of, first_two_of, is_plain};
use crate::fields::{leading_eleven, leading_measure, leading_seven};
use crate::message::{Message, Segment, Segments};
use crate::pieces::from_piece;
use crate::qualifiers::leads_with;
use crate::raw::Raw;
use crate::segment_text::SegmentText;
use crate::tag::Tag;

impl<'a> Message<'a> {
    /// The segments behind the message header and before the message trailer, numbered from 2.
    #[tactic(auto, unfolding(crate::specs::Views::message_view, crate::specs::Views::left_of))]
    pub fn segments(&self) -> Segments<'a>
        ensures { left_of result ≡ (message_view self.now).segments }
    {
        Segments {
            left: self.behind,
            count: self.count,
            first: 2,
        }
    }

    /// The interchange's decimal mark, as its service string advice sets it: `.` where there is
    /// none.
    #[tactic(auto, unfolding(crate::specs::Views::message_view))]
    pub fn decimal_mark(&self) -> u8
        ensures { result ≡ (message_view self.now).mark }
    {
        self.behind.service.mark
    }
}

impl<'a> Segment<'a> {
    /// This segment of the text, which has this number in its message.
    #[inline(always)]
    #[tactic(auto, unfolding(crate::specs::Views::numbered_view))]
    fn of(text: SegmentText<'a>, number: u64) -> Segment<'a>
        requires { serves text.service ≡ true }
        ensures { numbered_view result ≡ record {
          number = number;
          parts = segment_of text.entry.service text.entry.bytes.now;
        } }
    {
        Segment {
            bytes: text.bytes,
            is_plain: is_plain(text.bytes, text.service),
            service: text.service,
            number,
        }
    }

    /// The segment's number in its message, the message header being 1.
    #[tactic(auto, unfolding(crate::specs::Views::numbered_view))]
    #[inline(always)]
    pub fn number(&self) -> u64
        ensures { result ≡ (numbered_view self.now).number }
    {
        self.number
    }

    /// The tag: component 0 of element 0.
    pub fn tag(&self) -> Raw<'a>
        ensures { meaning_of result ≡ component (numbered_view self.now).parts 0 0 }
    {
        self.component(0, 0)
    }

    /// The tag where it is three ordinary bytes before an element separator, as nearly every tag
    /// is. Nothing is said of another: that is what [`Segment::tag`] is for.
    #[inline(always)]
    #[tactic(auto, using(crate::proofs::TagLemmas::three_taken), unfolding(crate::specs::Views::numbered_view, crate::specs::Interchange::component))]
    pub fn plain_tag(&self) -> Option<Tag>
        ensures { IfSome result
            (λ tag. component (numbered_view self.now).parts 0 0 ≡ letters_of tag) }
    {
        if !self.is_plain {
            return None;
        }
        match self.bytes {
            [a, b, c, ..] => Some(Tag {
                first: *a,
                second: *b,
                third: *c,
            }),
            _ => None,
        }
    }

    /// The text behind a plain tag and its separator.
    #[inline(always)]
    fn behind_tag(&self) -> &'a [u8]
        ensures { result.now ≡ drop 4 self.now.bytes.now }
    {
        match self.bytes {
            [_, _, _, _, rest @ ..] => rest,
            _ => &[],
        }
    }

    /// Component `j` of element `i`, both counted from 0. It is empty where the segment has no such
    /// element or component.
    #[inline(always)]
    #[tactic(auto, using(crate::proofs::ReadingLemmas::part_is), unfolding(crate::specs::Views::numbered_view, crate::specs::Interchange::component))]
    pub fn component(&self, i: usize, j: usize) -> Raw<'a>
        ensures { meaning_of result ≡ component (numbered_view self.now).parts i j }
    {
        if self.is_plain && i > 0 {
            return component_of(self.behind_tag(), self.service, i - 1, j);
        }
        self.seen_component(i, j)
    }

    /// Component 0 of element 1 is this text. It is where qualifiers are, and compared in place.
    #[inline(always)]
    #[tactic(auto, using(crate::proofs::ReadingLemmas::part_is), unfolding(crate::specs::Views::numbered_view, crate::specs::Interchange::component, crate::specs::Stages::part))]
    pub fn has_qualifier(&self, text: &[u8]) -> bool
        ensures { IsTrue result ↔ (component (numbered_view self.now).parts 1 0 ≡ text.now) }
    {
        if self.is_plain {
            if let Some(leads) = leads_with(self.behind_tag(), self.service, text) {
                return leads;
            }
        }
        self.has_spelt_qualifier(text)
    }

    /// Component 0 of element 1 is this text, read from the segment's first byte on.
    #[cold]
    #[inline(never)]
    fn has_spelt_qualifier(self, text: &[u8]) -> bool
        ensures { IsTrue result ↔ (component (numbered_view self.entry).parts 1 0 ≡ text.now) }
    {
        self.seen_component(1, 0).is(text)
    }

    /// Components 0 and 1 of element `i`, as [`Segment::component`] gives them. The element is
    /// looked for once.
    #[inline(always)]
    #[tactic(auto, using(crate::proofs::ReadingLemmas::part_is), unfolding(crate::specs::Views::numbered_view, crate::specs::Interchange::component))]
    pub fn first_two(&self, i: usize) -> (Raw<'a>, Raw<'a>)
        ensures first { meaning_of result.0 ≡ component (numbered_view self.now).parts i 0 }
        ensures second { meaning_of result.1 ≡ component (numbered_view self.now).parts i 1 }
    {
        if self.is_plain && i > 0 {
            return first_two_of(self.behind_tag(), &self.service, i - 1);
        }
        (self.seen_component(i, 0), self.seen_component(i, 1))
    }

    /// The bytes from element `i` on, where that is behind a plain tag and there is one.
    #[inline(always)]
    #[tactic(auto, using(crate::proofs::ReadingLemmas::part_is), unfolding(crate::specs::Views::numbered_view, crate::specs::Interchange::component, crate::specs::Stages::part))]
    fn from_element(&self, i: usize) -> Option<&'a [u8]>
        ensures first { IfSome result (λ rest. component (numbered_view self.now).parts i 0
            ≡ leading_literal self.now.service rest.now) }
        ensures second { IfSome result (λ rest. component (numbered_view self.now).parts i 1
            ≡ literal self.now.service.release (leading_component self.now.service 1 rest.now)) }
    {
        if !self.is_plain || i == 0 {
            return None;
        }
        let service = self.service;
        let rest = from_piece(self.behind_tag(), service.release, service.element, i - 1)?;
        Some(rest)
    }

    /// Component 0 of element `i`, where it was seen to be seven digits. Nothing is said of
    /// another.
    #[inline(always)]
    pub fn seven_digits(&self, i: usize) -> Option<&'a [u8]>
        ensures { IfSome result (λ text. component (numbered_view self.now).parts i 0 ≡ text.now) }
    {
        let rest = self.from_element(i)?;
        let text = leading_seven(rest, self.service)?;
        Some(text)
    }

    /// Component 0 of element `i`, where it was seen to be eleven bytes, none of them released, as
    /// a container's number is (ISO 6346). Nothing is said of another.
    #[inline(always)]
    pub fn eleven_bytes(&self, i: usize) -> Option<&'a [u8]>
        ensures { IfSome result (λ text. component (numbered_view self.now).parts i 0 ≡ text.now) }
    {
        let rest = self.from_element(i)?;
        let text = leading_eleven(rest, self.service)?;
        Some(text)
    }

    /// The number that component 1 of element `i` writes in 1 to 10 digits, where component 0 was
    /// seen to be these three capital letters. Nothing is said of another element.
    #[inline(always)]
    pub fn measure(&self, i: usize, first: u8, second: u8, third: u8) -> Option<u64>
        ensures unit { IfSome result (λ _. component (numbered_view self.now).parts i 0
            ≡ first ∷ second ∷ third ∷ []) }
        ensures number { IfSome result
            (λ n. count_of (component (numbered_view self.now).parts i 1) ≡ Some n) }
    {
        let rest = self.from_element(i)?;
        let number = leading_measure(rest, self.service, first, second, third)?;
        Some(number)
    }

    /// Component `j` of element `i`, read from the segment's first byte on.
    #[cold]
    #[inline(never)]
    #[tactic(auto, using(crate::proofs::ReadingLemmas::part_is), unfolding(crate::specs::Views::numbered_view))]
    fn seen_component(self, i: usize, j: usize) -> Raw<'a>
        ensures { meaning_of result ≡ component (numbered_view self.entry).parts i j }
    {
        component_of(self.bytes, self.service, i, j)
    }
}

impl<'a> Iterator for Segments<'a> {
    type Item = Segment<'a>;

    ghost next_gives = { YieldsFirstBy numbered_view left_of };

    ghost remaining = { item_count left_of };

    #[inline(always)]
    #[tactic(auto, unfolding(crate::specs::Views::left_of))]
    fn next(&mut self) -> Option<Segment<'a>> {
        if self.count == 0 {
            return None;
        }
        let (text, behind) = self.left.split_first()?;
        let number = self.first;
        self.left = behind;
        self.count -= 1;
        self.first += 1;
        Some(Segment::of(text, number))
    }
}
