//! The text layer of UN/EDIFACT (ISO 9735): an interchange that holds one BAPLIE or MOVINS message
//! of directory D.95B. [`open`] checks the envelope and gives the message, or the first fault and
//! its place. It takes no memory and copies no byte.
//!
//! A segment's terminator is looked for 32 bytes at a time; the bytes of a segment in which a
//! character is released are looked at one by one from there on. What is ordinary goes the short
//! way: a tag of three bytes that separate nothing, a first letter that begins no trailer. Whatever
//! isn't is read by its literal, and only there. A segment of 64 bytes and over is walked again, up
//! to three times, to count its elements and components. [`Message::segments`] walks the text once
//! more, and [`Segment::component`] a segment from its tag on.
#![tactic(auto)]

mod advice;
mod components;
mod cursor;
mod envelope;
mod faults;
mod fields;
mod laws;
mod message;
mod numbers;
mod pieces;
mod places;
mod qualifiers;
mod raw;
mod rows;
mod segment_text;
mod segments;
mod service;
mod tag;

pub use envelope::open;
pub use faults::{EdiCode, EdiFault, Kind};
pub use laws::one_reading;
pub use message::{Message, Segment, Segments};
pub use places::{PlacedSegment, PlacedSegments, placed_segments, segment_at};
pub use raw::Raw;
pub use tag::Tag;
