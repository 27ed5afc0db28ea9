//! The entries of a message: the items of a bay plan, the lifts of a movement instruction, in their
//! order, each with what is told of it beyond the item or the lift.
use crate::groups::{Gathering, Located, Weighed};
use crate::messages::MessageText;
use edifact_text::{Kind, Message};
use std::alloc::{AllocError, Global};
use stow_messages::kind_of;

/// An entry of a message.
#[derive(Clone, Copy, Debug)]
pub struct Entry {
    /// The number of the segment that locates it.
    pub segment: u64,
    /// The mass in kg that its group gives in kilograms, also of a discharge.
    pub kg: Option<u32>,
    /// Whether it is for the port that is asked for.
    pub is_for_port: bool,
}

/// Whether a group is for a port.
fn is_for(group: &Located<'_>, port: Option<&[u8]>) -> bool {
    let Some(port) = port else {
        return false;
    };
    match group.discharge_port.or(group.delivery_port) {
        Some(segment) => segment.component(2, 0).is(port),
        None => false,
    }
}

/// Adds the entry of a group, if it is one, by what its measurement writes.
pub fn add_entry(
    entries: &mut Vec<Entry>,
    group: &Located<'_>,
    weighed: Option<Weighed<'_>>,
    port: Option<&[u8]>,
) -> Result<(), AllocError> {
    if !group.names_container() {
        return Ok(());
    }
    entries.push(Entry {
        segment: group.location.number(),
        kg: match weighed {
            Some(weighed) if weighed.is_in_kg => weighed.kg,
            _ => None,
        },
        is_for_port: is_for(group, port),
    })?;
    Ok(())
}

/// The entries of a message of this kind; nothing where the text is no such message.
pub fn entries_of(
    alloc: Global,
    text: &[u8],
    kind: Kind,
    port: Option<&[u8]>,
) -> Result<Vec<Entry>, AllocError> {
    match (MessageText { text, kind }).message() {
        Some(message) => entries_in(alloc, &message, kind, port),
        None => Ok(Vec::new(alloc)),
    }
}

/// The entries of a message.
fn entries_in(
    alloc: Global,
    message: &Message<'_>,
    kind: Kind,
    port: Option<&[u8]>,
) -> Result<Vec<Entry>, AllocError> {
    let mut entries = Vec::new(alloc);
    let mark = message.decimal_mark();
    let mut gathering = Gathering::new(kind == Kind::Movins);
    for segment in message.segments() {
        let kind = kind_of(&segment);
        if let Some(group) = gathering.ended_by(kind) {
            add_entry(&mut entries, group, group.measured_mass(mark), port)?;
        }
        gathering.add(kind, &segment);
    }
    if let Some(group) = gathering.last() {
        add_entry(&mut entries, &group, group.measured_mass(mark), port)?;
    }
    Ok(entries)
}
