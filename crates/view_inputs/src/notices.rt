//! What of a message was read otherwise than its writer may have meant, or not at all. None of it
//! is a refusal.
use crate::entries::{Entry, add_entry};
use crate::groups::{Gathering, Located, Weighed};
use crate::identity::{Identity, identity_of};
use crate::messages::{MessageText, literal, raw_shown};
use crate::occurs::Occurs;
use crate::tags::{add_segments, has_sound_tag, may_be_wrapped};
use edifact_text::{Kind, Message, Raw, Segment};
use plain_text::{add_wrapped, front, in_thousandths, many, many_of};
use std::alloc::{AllocError, Global};
use stow_messages::{SegmentKind, kilograms, kind_of};

/// A notice: its code, what it is of, and its text.
#[derive(Debug, Drop)]
pub struct Notice {
    pub code: &'static str,
    pub word: &'static str,
    pub text: String,
}

/// The least and the greatest mass in kg of which nothing is said.
const LIGHT: u32 = 1_800;

const HEAVY: u32 = 36_000;

/// Groups that something is said of.
type Groups<'a> = Occurs<Located<'a>>;

/// A list of notices.
#[derive(Debug, Drop)]
pub struct Notices {
    list: Vec<Notice>,
}

impl Notices {
    /// No notice yet.
    pub fn new(alloc: Global) -> Notices {
        Notices {
            list: Vec::new(alloc),
        }
    }

    /// The list.
    pub fn into_list(self) -> Vec<Notice> {
        let Notices { list } = self;
        list
    }

    /// Adds a notice.
    pub fn add(
        &mut self,
        code: &'static str,
        word: &'static str,
        text: String,
    ) -> Result<(), AllocError> {
        self.list.push(Notice { code, word, text })?;
        Ok(())
    }

    /// Adds other notices behind these.
    pub fn append(&mut self, others: Vec<Notice>) -> Result<(), AllocError> {
        for notice in others {
            self.list.push(notice)?;
        }
        Ok(())
    }
}

/// What is odd of the groups of a message.
#[derive(Clone, Copy)]
struct Odd<'a> {
    /// Whether some tag may not be sound.
    has_bad_tags: bool,
    /// Containers and masses outside of any group.
    lost: Occurs<u64>,
    /// Locations that name no container.
    bare: Groups<'a>,
    /// Masses without a container, and containers without an identification.
    masses: Groups<'a>,
    nameless: Groups<'a>,
    several: Groups<'a>,
    /// Masses that are small or great, the least and the greatest of them.
    strange: Groups<'a>,
    least: u32,
    most: u32,
    /// Masses that may be meant in tonnes, and size types against the bay.
    dotted: Groups<'a>,
    sizes: Groups<'a>,
}

/// Whether a component is 1 to 3 digits, a mark, and 3 digits.
fn is_dotted(raw: Raw<'_>, mark: u8) -> bool {
    match raw.without_release() {
        Some(value) => has_dot(value, mark),
        None => has_dot(literal(raw).as_slice(), mark),
    }
}

/// Whether a value is 1 to 3 digits, a mark, and 3 digits.
fn has_dot(value: &[u8], mark: u8) -> bool {
    let digits = match value {
        [rest @ .., point, a, b, c]
            if (*point == b'.' || *point == b',' || *point == mark)
                && a.is_ascii_digit()
                && b.is_ascii_digit()
                && c.is_ascii_digit() => { rest }
        _ => return false,
    };
    !digits.is_empty() && digits.len() <= 3 && digits.iter().all(|digit| digit.is_ascii_digit())
}

/// Whether a size type is against the bay in which its container stands: one of 20 feet in an even
/// bay, one of 40 feet and more in an odd one.
fn is_against(raw: Raw<'_>, bay: u16) -> bool {
    match raw.without_release() {
        Some(size) => is_of_other_length(size, bay),
        None => is_of_other_length(literal(raw).as_slice(), bay),
    }
}

/// Whether a container of a size type has another length than its bay.
fn is_of_other_length(size: &[u8], bay: u16) -> bool {
    match size.first() {
        Some(b'2') => bay % 2 == 0,
        Some(b'4' | b'9' | b'L' | b'M' | b'N' | b'P') => bay % 2 == 1,
        _ => false,
    }
}

impl<'a> Odd<'a> {
    /// Nothing yet.
    fn nothing() -> Odd<'a> {
        Odd {
            has_bad_tags: false,
            lost: Occurs::never(),
            bare: Occurs::never(),
            masses: Occurs::never(),
            nameless: Occurs::never(),
            several: Occurs::never(),
            strange: Occurs::never(),
            least: u32::MAX,
            most: 0,
            dotted: Occurs::never(),
            sizes: Occurs::never(),
        }
    }

    /// Notes a mass that is loaded.
    fn note_mass(&mut self, group: &Located<'a>, weighed: Weighed<'a>, mark: u8) {
        let Some(kg) = weighed.kg else {
            return;
        };
        if kg < LIGHT || HEAVY < kg {
            self.strange.note(*group);
            self.least = self.least.min(kg);
            self.most = self.most.max(kg);
        }
        if let Some(value) = weighed.spelt {
            if is_dotted(value, mark) {
                self.dotted.note(*group);
            }
        }
    }

    /// Notes a container or a mass outside of any group, and a tag that isn't sound: those of the
    /// kinds that count are.
    fn note_segment(&mut self, kind: SegmentKind, segment: &Segment<'_>, is_open: bool) {
        match kind {
            SegmentKind::Equipment | SegmentKind::Verified | SegmentKind::Gross => {
                if !is_open {
                    self.lost.note(segment.number());
                }
            }
            SegmentKind::Other => {
                if !has_sound_tag(segment) {
                    self.has_bad_tags = true;
                }
            }
            SegmentKind::Location | SegmentKind::Handling => {}
        }
    }

    /// Notes a group, by what its measurement writes.
    fn note(&mut self, group: &Located<'a>, weighed: Option<Weighed<'a>>, mark: u8) {
        if group.has_several() {
            self.several.note(*group);
        }
        if !group.names_container() {
            self.bare.note(*group);
            return;
        }
        match group.equipment.first {
            None => self.masses.note(*group),
            Some(equipment) => {
                if equipment.component(2, 0).is_empty() {
                    self.nameless.note(*group);
                }
                if let Some(cell) = group.cell() {
                    if is_against(equipment.component(3, 0), cell.bay) {
                        self.sizes.note(*group);
                    }
                }
            }
        }
        if let Some(weighed) = weighed {
            if !group.is_discharge() {
                self.note_mass(group, weighed, mark);
            }
        }
    }
}

/// Notes a group, and adds its entry to others.
fn note_group<'a>(
    odd: &mut Odd<'a>,
    entries: &mut Vec<Entry>,
    group: &Located<'a>,
    mark: u8,
    port: Option<&[u8]>,
) -> Result<(), AllocError> {
    let weighed = group.measured_mass(mark);
    odd.note(group, weighed, mark);
    add_entry(entries, group, weighed, port)
}

/// What is odd of the groups of a message, of which the entries are added to others, each with
/// whether it is for a port.
fn odd_in<'a>(
    message: &Message<'a>,
    kind: Kind,
    port: Option<&[u8]>,
    entries: &mut Vec<Entry>,
) -> Result<Odd<'a>, AllocError> {
    let mut odd = Odd::nothing();
    let mark = message.decimal_mark();
    let mut gathering = Gathering::new(kind == Kind::Movins);
    for segment in message.segments() {
        let kind = kind_of(&segment);
        odd.note_segment(kind, &segment, gathering.is_open());
        if let Some(group) = gathering.ended_by(kind) {
            note_group(&mut odd, entries, group, mark, port)?;
        }
        gathering.add(kind, &segment);
    }
    if let Some(group) = gathering.last() {
        note_group(&mut odd, entries, &group, mark, port)?;
    }
    Ok(odd)
}

/// The first of some groups: its segment and its cell.
fn first_of(alloc: Global, groups: &Groups<'_>) -> Result<String, AllocError> {
    let Some(group) = groups.first else {
        return Ok(String::new(alloc));
    };
    let number = group.location.number();
    let cell = cell_shown(alloc, &group)?;
    Ok(format!(in alloc; "first seg. {number}, {cell}")?)
}

/// The cell that a group names, in seven digits where it has six.
fn cell_shown(alloc: Global, group: &Located<'_>) -> Result<String, AllocError> {
    let cell = raw_shown(alloc, group.location.component(2, 0))?;
    if cell.len() == 7 {
        return Ok(cell);
    }
    Ok(format!(in alloc; "0{cell}")?)
}

/// The number of the segment that locates the first of some groups.
fn number_of(groups: &Groups<'_>) -> u64 {
    match groups.first {
        Some(group) => group.location.number(),
        None => 0,
    }
}

/// Adds what stands at the wrong place: N3 to N7.
fn add_places(
    alloc: Global,
    notices: &mut Notices,
    word: &'static str,
    odd: &Odd<'_>,
) -> Result<(), AllocError> {
    if let Some(first) = odd.lost.first {
        let count = many_of(
            alloc,
            odd.lost.count,
            "container or mass",
            "containers or masses",
        )?;
        let text = format!(in alloc; "{count} before a location: not read; first seg. {first}")?;
        notices.add("N3", word, text)?;
    }
    if odd.bare.count > 0 {
        let count = many_of(alloc, odd.bare.count, "location names", "locations name")?;
        let first = first_of(alloc, &odd.bare)?;
        notices.add(
            "N4",
            word,
            format!(in alloc; "{count} no container: not read; {first}")?,
        )?;
    }
    if odd.masses.count > 0 {
        let count = many_of(alloc, odd.masses.count, "mass", "masses")?;
        let first = first_of(alloc, &odd.masses)?;
        notices.add(
            "N5",
            word,
            format!(in alloc; "{count} without a container: read; {first}")?,
        )?;
    }
    add_nameless(alloc, notices, word, odd)
}

/// Adds containers without identification, and containers or masses of which only the first is
/// read: N6 and N7.
fn add_nameless(
    alloc: Global,
    notices: &mut Notices,
    word: &'static str,
    odd: &Odd<'_>,
) -> Result<(), AllocError> {
    if odd.nameless.count > 0 {
        let count = many(alloc, odd.nameless.count, "container")?;
        let first = first_of(alloc, &odd.nameless)?;
        notices.add(
            "N6",
            word,
            format!(in alloc; "{count} without identification; {first}")?,
        )?;
    }
    if odd.several.count > 0 {
        let count = many(alloc, odd.several.count, "location")?;
        let first = number_of(&odd.several);
        let text = format!(in alloc;
            "several EQD or MEA of a kind at {count}: the first is read; seg. {first}"
        )?;
        notices.add("N7", word, text)?;
    }
    Ok(())
}

/// Adds masses that are small or great: N8.
fn add_strange(
    alloc: Global,
    notices: &mut Notices,
    word: &'static str,
    odd: &Odd<'_>,
) -> Result<(), AllocError> {
    if odd.strange.count == 0 {
        return Ok(());
    }
    let count = many_of(alloc, odd.strange.count, "mass", "masses")?;
    let first = number_of(&odd.strange);
    let mut reach = in_thousandths(alloc, i128::from(odd.least))?;
    if odd.strange.count > 1 {
        let most = in_thousandths(alloc, i128::from(odd.most))?;
        write!(reach, " to {most}")?;
    }
    let text = format!(in alloc; "{count} under 1.8 t or over 36 t: {reach}; first seg. {first}")?;
    notices.add("N8", word, text)
}

/// Adds masses that may be meant in tonnes: N9.
fn add_dotted(
    alloc: Global,
    notices: &mut Notices,
    word: &'static str,
    odd: &Odd<'_>,
    mark: u8,
) -> Result<(), AllocError> {
    let Some(group) = odd.dotted.first else {
        return Ok(());
    };
    let Some(measure) = group.measure() else {
        return Ok(());
    };
    let count = many_of(alloc, odd.dotted.count, "mass", "masses")?;
    let value = raw_shown(alloc, measure.component(3, 1))?;
    let kg = match kilograms(measure.component(3, 1), mark) {
        Some(kg) => kg.get(),
        None => 0,
    };
    let first = group.location.number();
    let text = format!(in alloc; "{count} like {value}, read as {kg} kg; first seg. {first}")?;
    notices.add("N9", word, text)
}

/// Adds size types against the bay: N10.
fn add_sizes(
    alloc: Global,
    notices: &mut Notices,
    word: &'static str,
    odd: &Odd<'_>,
) -> Result<(), AllocError> {
    let Some(group) = odd.sizes.first else {
        return Ok(());
    };
    let Some(equipment) = group.equipment.first else {
        return Ok(());
    };
    let count = many(alloc, odd.sizes.count, "size type")?;
    let size = raw_shown(alloc, equipment.component(3, 0))?;
    let size = front(alloc, size.as_str(), 10)?;
    let cell = cell_shown(alloc, &group)?;
    let first = group.location.number();
    let text = format!(in alloc; "{count} against the bay: {size} in {cell}; first seg. {first}")?;
    notices.add("N10", word, text)
}

/// Adds the notices on a message, N1 to N11, of which the last is by what it says of itself, and
/// gives its entries, each with whether it is for a port.
pub fn add_notices_on(
    alloc: Global,
    notices: &mut Notices,
    message: MessageText<'_>,
    opened: &Message<'_>,
    identity: &Identity,
    port: Option<&[u8]>,
) -> Result<Vec<Entry>, AllocError> {
    let word = message.word();
    let mut entries = Vec::new(alloc);
    let odd = odd_in(opened, message.kind, port, &mut entries)?;
    if odd.has_bad_tags || may_be_wrapped(message.text) {
        add_segments(alloc, notices, message)?;
    }
    add_places(alloc, notices, word, &odd)?;
    add_strange(alloc, notices, word, &odd)?;
    add_dotted(alloc, notices, word, &odd, opened.decimal_mark())?;
    add_sizes(alloc, notices, word, &odd)?;
    if identity.function.as_str() == "1" {
        let text = String::from_str(alloc, "the message is a cancellation (BGM function 1)")?;
        notices.add("N11", word, text)?;
    }
    Ok(entries)
}

/// The notices on a message: N1 to N11; none on a text that is no such message.
pub fn message_notices(alloc: Global, message: MessageText<'_>) -> Result<Vec<Notice>, AllocError> {
    let mut notices = Notices::new(alloc);
    if let Some(opened) = message.message() {
        let identity = identity_of(alloc, Some(&opened))?;
        let _entries = add_notices_on(alloc, &mut notices, message, &opened, &identity, None)?;
    }
    Ok(notices.into_list())
}

/// Adds notices to a text, each with its code, what it is of, and its words.
pub fn add_notices(alloc: Global, text: &mut String, notices: &[Notice]) -> Result<(), AllocError> {
    for notice in notices {
        let code = notice.code;
        let word = notice.word;
        let words = notice.text.as_str();
        let line = format!(in alloc; "{code:<4}{word:<12}{words}")?;
        add_wrapped(text, line.as_str(), 16)?;
    }
    Ok(())
}
