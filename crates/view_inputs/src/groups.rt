//! The groups of a message's segments: a location of a cell, and what is behind it.
use crate::occurs::Occurs;
use edifact_text::{Raw, Segment};
use stow_messages::{SegmentKind, kilograms, kind_of};
use units_core::{Cell, Kg};

/// What the measurement of a group writes.
#[derive(Clone, Copy)]
pub struct Weighed<'a> {
    /// The mass in kg, by the number alone.
    pub kg: Option<u32>,
    /// Whether it is in kilograms.
    pub is_in_kg: bool,
    /// The value, where it wasn't seen to be of digits alone.
    pub spelt: Option<Raw<'a>>,
}

/// The mass in kg of a measurement in kilograms, where it is written in digits alone, none of which
/// is the decimal mark. Nothing is said of another.
fn kilograms_in_digits(measure: &Segment<'_>, mark: u8) -> Option<u32> {
    if mark.is_ascii_digit() {
        return None;
    }
    let number = measure.measure(3, b'K', b'G', b'M')?;
    let kg = Kg::new(u32::try_from(number).ok()?)?;
    Some(kg.get())
}

/// Whether a segment has the tag of a location.
fn is_location(segment: &Segment<'_>) -> bool {
    match segment.plain_tag() {
        Some(tag) => tag.is(b'L', b'O', b'C'),
        None => segment.tag().is(b"LOC"),
    }
}

/// A location of a cell, with what is behind it up to the next, or to a handling of a movement
/// instruction.
#[derive(Clone, Copy)]
pub struct Located<'a> {
    pub location: Segment<'a>,
    /// The handling that holds for it.
    pub handling: Option<Segment<'a>>,
    /// Its containers and masses, of which the first of each kind counts.
    pub equipment: Occurs<Segment<'a>>,
    pub verified: Occurs<Segment<'a>>,
    pub gross: Occurs<Segment<'a>>,
    /// The port of discharge (LOC+11), and that of delivery (LOC+12).
    pub discharge_port: Option<Segment<'a>>,
    pub delivery_port: Option<Segment<'a>>,
    /// The number of its last segment.
    pub last: u64,
}

impl<'a> Located<'a> {
    /// The group that a location begins.
    fn at(location: &Segment<'a>, handling: Option<Segment<'a>>) -> Located<'a> {
        Located {
            location: *location,
            handling,
            equipment: Occurs::never(),
            verified: Occurs::never(),
            gross: Occurs::never(),
            discharge_port: None,
            delivery_port: None,
            last: location.number(),
        }
    }

    /// Takes one more segment into the group.
    fn note(&mut self, kind: SegmentKind, segment: &Segment<'a>) {
        self.last = segment.number();
        match kind {
            SegmentKind::Equipment => self.equipment.note(*segment),
            SegmentKind::Verified => self.verified.note(*segment),
            SegmentKind::Gross => self.gross.note(*segment),
            SegmentKind::Location | SegmentKind::Handling => {}
            SegmentKind::Other => self.note_port(segment),
        }
    }

    /// Takes a port into the group.
    fn note_port(&mut self, segment: &Segment<'a>) {
        if !is_location(segment) {
            return;
        }
        if self.discharge_port.is_none() && segment.has_qualifier(b"11") {
            self.discharge_port = Some(*segment);
        }
        if self.delivery_port.is_none() && segment.has_qualifier(b"12") {
            self.delivery_port = Some(*segment);
        }
    }

    /// Whether it names a container or a mass.
    pub fn names_container(&self) -> bool {
        self.equipment.first.is_some() || self.measure().is_some()
    }

    /// The measurement that counts: the first verified gross mass, else the first gross mass.
    pub fn measure(&self) -> Option<Segment<'a>> {
        self.verified.first.or(self.gross.first)
    }

    /// Whether a container, or a mass of the kind that counts, stands in it more than once.
    pub fn has_several(&self) -> bool {
        self.equipment.count > 1
            || self.verified.count > 1
            || self.verified.count == 0 && self.gross.count > 1
    }

    /// Whether its container is discharged.
    pub fn is_discharge(&self) -> bool {
        match self.handling {
            Some(handling) => handling.has_qualifier(b"DIS"),
            None => false,
        }
    }

    /// The cell that it names.
    pub fn cell(&self) -> Option<Cell> {
        if let Some(digits) = self.location.seven_digits(2) {
            return Cell::read(digits);
        }
        let mut digits = arrayvec::ArrayVec::<u8, 7>::new();
        if !self.location.component(2, 0).literal_into(&mut digits) {
            return None;
        }
        Cell::read(digits.as_slice())
    }

    /// What its measurement writes, if it has one.
    pub fn measured_mass(&self, mark: u8) -> Option<Weighed<'a>> {
        let measure = self.measure()?;
        if let Some(kg) = kilograms_in_digits(&measure, mark) {
            return Some(Weighed {
                kg: Some(kg),
                is_in_kg: true,
                spelt: None,
            });
        }
        let (unit, value) = measure.first_two(3);
        let kg = match kilograms(value, mark) {
            Some(kg) => Some(kg.get()),
            None => None,
        };
        Some(Weighed {
            kg,
            is_in_kg: unit.is(b"KGM"),
            spelt: Some(value),
        })
    }
}

/// Gathers the groups of a message, segment by segment.
#[derive(Clone, Copy)]
pub struct Gathering<'a> {
    /// Handlings end a group, as they do in a movement instruction.
    handles: bool,
    handling: Option<Segment<'a>>,
    open: Option<Located<'a>>,
}

impl<'a> Gathering<'a> {
    /// No segment yet.
    pub fn new(handles: bool) -> Gathering<'a> {
        Gathering {
            handles,
            handling: None,
            open: None,
        }
    }

    /// The group that ends before a segment of a kind, if one does.
    pub fn ended_by(&self, kind: SegmentKind) -> Option<&Located<'a>> {
        let ends = match kind {
            SegmentKind::Location => true,
            SegmentKind::Handling => self.handles,
            _ => false,
        };
        if ends { self.open.as_ref() } else { None }
    }

    /// Takes the next segment of the message, which is of a kind.
    pub fn add(&mut self, kind: SegmentKind, segment: &Segment<'a>) {
        match kind {
            SegmentKind::Location => self.open = Some(Located::at(segment, self.handling)),
            SegmentKind::Handling if self.handles => {
                self.open = None;
                self.handling = Some(*segment);
            }
            kind => {
                if let Some(group) = &mut self.open {
                    group.note(kind, segment);
                }
            }
        }
    }

    /// Takes the next segment of the message, and gives the group that ends before it, if one
    /// does.
    pub fn take(&mut self, segment: &Segment<'a>) -> Option<Located<'a>> {
        let kind = kind_of(segment);
        let ended = match self.ended_by(kind) {
            Some(group) => Some(*group),
            None => None,
        };
        self.add(kind, segment);
        ended
    }

    /// Whether a group is open.
    pub fn is_open(&self) -> bool {
        self.open.is_some()
    }

    /// The group that the message ends.
    pub fn last(&self) -> Option<Located<'a>> {
        self.open
    }
}
