ghost use Rattle.std.specs.Prelude.{◌≡◌, ◌<◌, ◌+◌, ◌^◌, true, ◌∷◌, [], take, drop};
ghost use Rattle.edifact_text.specs.Characters.{serves};
ghost use Rattle.edifact_text.specs.Reading.{segment_of};

use crate::cursor::Cursor;
use crate::service::Service;

/// The message of an interchange: the segments between its header and its trailer. It borrows the
/// text.
#[derive(Clone, Copy)]
pub struct Message<'a> {
    /// The text behind the message header.
    pub(crate) behind: Cursor<'a>,
    /// How many segments of that are the message's.
    pub(crate) count: u64,
    ghost fits: { count + 2 < 2 ^ 64 },
}

/// A segment, and its number in the message.
#[derive(Clone, Copy)]
pub struct Segment<'a> {
    pub(crate) bytes: &'a [u8],
    /// It was seen to begin with a tag of three ordinary bytes and an element separator.
    pub(crate) is_plain: bool,
    pub(crate) service: Service,
    pub(crate) number: u64,
    ghost plain: { is_plain ≡ true → segment_of service bytes.now
        ≡ (take 3 bytes.now ∷ []) ∷ segment_of service (drop 4 bytes.now) },
    ghost fit: { serves service ≡ true },
}

/// The segments of a message that are left, in their order.
#[derive(Clone, Copy)]
pub struct Segments<'a> {
    /// The text behind the last segment that was given.
    pub(crate) left: Cursor<'a>,
    /// How many segments of that are the message's.
    pub(crate) count: u64,
    /// The number of the first of them.
    pub(crate) first: u64,
    ghost fits: { first + count < 2 ^ 64 },
}
