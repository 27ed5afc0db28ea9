ghost use Rattle.std.specs.Prelude.{◌≡◌, ◌≢◌, Ok, Err, IfErr, OnOk, ◌∷◌, [], codes, if◌then◌else◌};
ghost use Rattle.std.specs.Str.{bytes_eq};
ghost use Rattle.units_core.specs.Cells.{cell_in};
ghost use Rattle.edifact_text.specs.Interchange.{component};
ghost use Rattle.edifact_text.specs.Views.{letters_of, meaning_of, numbered_view};
ghost use Rattle.stow_messages.specs.Entries.{IsFaultOf, cell_at, fault_at, id_at, id_of, kg_at};
ghost use Rattle.stow_messages.specs.Entries.{item_of, or_fault_at, with_entry};
ghost use Rattle.stow_messages.specs.Groups.{found_at, names_a_container, with_segment};
ghost use Rattle.stow_messages.specs.Kinds.{has, kind_of, measurement_of};
ghost use Rattle.stow_messages.specs.Views.{found_view};

use crate::faults::{NO_MEMORY, StowCode, StowFault};
use crate::items::Item;
use crate::weights::{in_six_digits, kilograms};
use arrayvec::ArrayVec;
use edifact_text::{Raw, Segment, Tag};
use units_core::{Cell, Kg};

/// What counts of a group of segments: the location of the cell that begins it, and the first
/// container, verified gross mass and gross mass behind it.
#[derive(Clone, Copy)]
pub struct Group<'a> {
    pub location: Segment<'a>,
    pub equipment: Option<Segment<'a>>,
    pub verified: Option<Segment<'a>>,
    pub gross: Option<Segment<'a>>,
}

/// The segment's qualifier, component 0 of element 1, is this text.
#[inline(always)]
#[tactic(auto, using(crate::proofs::Texts::told))]
pub fn has_qualifier(segment: &Segment<'_>, text: &[u8]) -> bool
    ensures { result ≡ has (numbered_view segment.now) 1 0 text.now }
{
    segment.has_qualifier(text)
}

/// What a segment is in a message.
#[derive(Clone, Copy, Debug, PartialEq, Eq)]
pub enum SegmentKind {
    /// The location of a cell, which begins a group.
    Location,
    /// What is done with the containers of the groups behind it.
    Handling,
    /// A container.
    Equipment,
    /// A container's verified gross mass.
    Verified,
    /// A container's gross mass.
    Gross,
    /// Anything else, which is ignored.
    Other,
}

/// The component is this text.
#[inline(always)]
#[tactic(auto, using(crate::proofs::Texts::told))]
fn reads(component: Raw<'_>, text: &[u8]) -> bool
    ensures { result ≡ bytes_eq (meaning_of component.entry) text.now }
{
    component.is(text)
}

/// The tag is these letters.
#[inline(always)]
#[tactic(auto, using(crate::proofs::Texts::told))]
fn is_tag(tag: Tag, first: u8, second: u8, third: u8) -> bool
    ensures { result ≡ bytes_eq (letters_of tag) (first ∷ second ∷ third ∷ []) }
{
    tag.is(first, second, third)
}

/// What a segment of three ordinary letters is, where that asks for it by its qualifier.
#[inline(always)]
fn kind_under(tag: Tag, segment: &Segment<'_>) -> SegmentKind
    requires { component (numbered_view segment.now).parts 0 0 ≡ letters_of tag }
    ensures { result ≡ kind_of (numbered_view segment.now) }
{
    if is_tag(tag, b'L', b'O', b'C') {
        return location_of(segment);
    }
    if is_tag(tag, b'H', b'A', b'N') {
        return SegmentKind::Handling;
    }
    if is_tag(tag, b'E', b'Q', b'D') {
        return SegmentKind::Equipment;
    }
    if is_tag(tag, b'M', b'E', b'A') {
        return measurement_of(segment);
    }
    SegmentKind::Other
}

/// What the segment is, by its tag and, where that asks for it, by its qualifier.
#[inline(always)]
pub fn kind_of(segment: &Segment<'_>) -> SegmentKind
    ensures { result ≡ kind_of (numbered_view segment.now) }
{
    match segment.plain_tag() {
        Some(tag) => kind_under(tag, segment),
        None => kind_spelt(*segment),
    }
}

/// What the segment is, by the tag's literal.
#[cold]
#[inline(never)]
fn kind_spelt(segment: Segment<'_>) -> SegmentKind
    ensures { result ≡ kind_of (numbered_view segment.entry) }
{
    let tag = segment.tag();
    if reads(tag, b"LOC") {
        return location_of(&segment);
    }
    if reads(tag, b"HAN") {
        return SegmentKind::Handling;
    }
    if reads(tag, b"EQD") {
        return SegmentKind::Equipment;
    }
    if reads(tag, b"MEA") {
        return measurement_of(&segment);
    }
    SegmentKind::Other
}

/// What a location is, by its qualifier.
#[inline(always)]
fn location_of(segment: &Segment<'_>) -> SegmentKind
    ensures { result ≡ (if has (numbered_view segment.now) 1 0 (codes "147")
        then SegmentKind.Location else SegmentKind.Other) }
{
    if has_qualifier(segment, b"147") {
        SegmentKind::Location
    } else {
        SegmentKind::Other
    }
}

/// What a measurement is, by its qualifier.
#[inline(always)]
fn measurement_of(segment: &Segment<'_>) -> SegmentKind
    ensures { result ≡ measurement_of (numbered_view segment.now) }
{
    if has_qualifier(segment, b"VGM") {
        SegmentKind::Verified
    } else if has_qualifier(segment, b"WT") {
        SegmentKind::Gross
    } else {
        SegmentKind::Other
    }
}

/// A fault found at a segment.
pub fn fault_at(code: StowCode, segment: &Segment<'_>) -> StowFault
    ensures { result ≡ fault_at code (numbered_view segment.now) }
{
    StowFault {
        code,
        segment: segment.number(),
    }
}

/// The cell that this text of a location names.
#[inline(always)]
fn cell_named(segment: &Segment<'_>, text: &[u8]) -> Result<Cell, StowFault>
    ensures { result ≡ or_fault_at StowCode.BadCell (numbered_view segment.now) (cell_in text.now) }
{
    match Cell::read(text) {
        Some(cell) => Ok(cell),
        None => Err(fault_at(StowCode::BadCell, segment)),
    }
}

/// The cell of a location, by its literal.
#[cold]
#[inline(never)]
fn cell_spelt(segment: Segment<'_>) -> Result<Cell, StowFault>
    ensures { result ≡ cell_at (numbered_view segment.entry) }
{
    let mut digits: ArrayVec<u8, 7> = ArrayVec::new();
    if !segment.component(2, 0).literal_into(&mut digits) {
        return Err(fault_at(StowCode::BadCell, &segment));
    }
    cell_named(&segment, digits.as_slice())
}

/// The cell of a location.
#[inline(always)]
fn cell_at(segment: &Segment<'_>) -> Result<Cell, StowFault>
    ensures { result ≡ cell_at (numbered_view segment.now) }
{
    match segment.seven_digits(2) {
        Some(text) => cell_named(segment, text),
        None => cell_spelt(*segment),
    }
}

/// The identification of a container, by its literal.
#[cold]
#[inline(never)]
fn id_spelt(segment: Segment<'_>) -> Result<ArrayVec<u8, 17>, StowFault>
    ensures { result ≡ id_at (numbered_view segment.entry) }
{
    let mut id: ArrayVec<u8, 17> = ArrayVec::new();
    if !segment.component(2, 0).literal_into(&mut id) {
        return Err(fault_at(StowCode::IdTooLong, &segment));
    }
    Ok(id)
}

/// The identification of a container.
#[inline(always)]
fn id_at(segment: &Segment<'_>) -> Result<ArrayVec<u8, 17>, StowFault>
    ensures { result ≡ id_at (numbered_view segment.now) }
{
    if let Some(text) = segment.eleven_bytes(2) {
        let mut id: ArrayVec<u8, 17> = ArrayVec::new();
        if id.try_extend_from_slice(text).is_ok() {
            return Ok(id);
        }
    }
    id_spelt(*segment)
}

/// The mass of a measurement, by the literals of its unit and value.
#[cold]
#[inline(never)]
fn kg_spelt(segment: Segment<'_>, mark: u8) -> Result<Kg, StowFault>
    ensures { result ≡ kg_at mark (numbered_view segment.entry) }
{
    let (unit, value) = segment.first_two(3);
    if !reads(unit, b"KGM") {
        return Err(fault_at(StowCode::WrongUnit, &segment));
    }
    match kilograms(value, mark) {
        Some(kg) => Ok(kg),
        None => Err(fault_at(StowCode::BadWeight, &segment)),
    }
}

/// The mass of a measurement.
#[inline(always)]
fn kg_at(segment: &Segment<'_>, mark: u8) -> Result<Kg, StowFault>
    ensures { result ≡ kg_at mark (numbered_view segment.now) }
{
    let number = match segment.measure(3, b'K', b'G', b'M') {
        Some(number) => number,
        None => return kg_spelt(*segment, mark),
    };
    match in_six_digits(number) {
        Some(kg) => Ok(kg),
        None => Err(fault_at(StowCode::BadWeight, segment)),
    }
}

/// Puts one more entry behind the others, if there is one: at most `most` of them.
pub fn put<X: Drop>(
    entries: &mut Vec<X>,
    most: usize,
    location: &Segment<'_>,
    entry: Option<X>,
) -> Result<(), StowFault>
    ensures ok { OnOk result (
        with_entry most entries.old.items (numbered_view location.now) entry
        ≡ Ok entries.new.items) }
    ensures refused { IfErr result (IsFaultOf (
        with_entry most entries.old.items (numbered_view location.now) entry)) }
    ensures memory { IfErr result (λ e. e.code ≡ StowCode.NoMemory → e.segment ≡ 0) }
{
    let entry = match entry {
        Some(entry) => entry,
        None => return Ok(()),
    };
    if entries.len() >= most {
        return Err(fault_at(StowCode::TooMany, location));
    }
    if entries.push(entry).is_err() {
        return Err(NO_MEMORY);
    }
    Ok(())
}

impl<'a> Group<'a> {
    /// The group that a location begins.
    #[inline(always)]
    pub fn at(location: &Segment<'a>) -> Group<'a>
        ensures { found_view result ≡ found_at (numbered_view location.now) }
    {
        Group {
            location: *location,
            equipment: None,
            verified: None,
            gross: None,
        }
    }

    /// Takes one more segment of this kind into the group: the first of each kind counts.
    #[inline(always)]
    pub fn note(&mut self, kind: SegmentKind, segment: &Segment<'a>)
        requires { kind ≡ kind_of (numbered_view segment.now) }
        ensures { found_view self.new
            ≡ with_segment (found_view self.old) (numbered_view segment.now) }
    {
        match kind {
            SegmentKind::Equipment if self.equipment.is_none() => self.equipment = Some(*segment),
            SegmentKind::Verified if self.verified.is_none() => self.verified = Some(*segment),
            SegmentKind::Gross if self.gross.is_none() => self.gross = Some(*segment),
            _ => {}
        }
    }

    /// The cell of the group.
    #[inline(always)]
    pub fn cell(&self) -> Result<Cell, StowFault>
        ensures { result ≡ cell_at (found_view self.now).location }
    {
        cell_at(&self.location)
    }

    /// The identification of the group's container, which is empty where there is none.
    #[inline(always)]
    pub fn id(&self) -> Result<ArrayVec<u8, 17>, StowFault>
        ensures { result ≡ id_of (found_view self.now).equipment }
    {
        match self.equipment {
            Some(segment) => id_at(&segment),
            None => Ok(ArrayVec::new()),
        }
    }

    /// The group has a container or a mass.
    #[inline(always)]
    pub fn names_a_container(&self) -> bool
        ensures { result ≡ names_a_container (found_view self.now) }
    {
        self.equipment.is_some() || self.verified.is_some() || self.gross.is_some()
    }

    /// The item of the group's cell and identification, nothing where the group has neither a
    /// container nor a mass, or its first fault.
    #[inline(always)]
    pub fn item(
        &self,
        cell: Cell,
        id: ArrayVec<u8, 17>,
        mark: u8,
    ) -> Result<Option<Item>, StowFault>
        ensures { result ≡ item_of mark (found_view self.now) cell id }
    {
        let measure = match self.verified {
            Some(verified) => Some(verified),
            None => self.gross,
        };
        match measure {
            Some(measure) => {
                let kg = kg_at(&measure, mark)?;
                Ok(Some(Item { cell, id, kg }))
            }
            None => {
                if self.equipment.is_some() {
                    Err(fault_at(StowCode::NoWeight, &self.location))
                } else {
                    Ok(None)
                }
            }
        }
    }
}
