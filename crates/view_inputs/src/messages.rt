//! The messages of a run.
use arrayvec::ArrayVec;
use edifact_text::{Kind, Message, Raw, open};
use plain_text::{shown_line, shown_word};
use port_call::Inputs;
use std::alloc::{AllocError, Global};

/// The paths of a run's files, as they were given.
#[derive(Clone, Copy)]
pub struct Names<'a> {
    pub folder: &'a str,
    pub baplie: &'a str,
    pub movins: &'a str,
    pub steps: Option<&'a str>,
}

/// A message of a run, by its text.
#[derive(Clone, Copy)]
pub struct MessageText<'a> {
    pub text: &'a [u8],
    pub kind: Kind,
}

impl<'a> MessageText<'a> {
    /// What it is called.
    pub fn word(&self) -> &'static str {
        match self.kind {
            Kind::Baplie => "bay plan",
            Kind::Movins => "instruction",
        }
    }

    /// The message, where the text is one.
    pub fn message(&self) -> Option<Message<'a>> {
        open(self.text, self.kind).ok()
    }
}

/// The number of the line of a text on which a place lies, from 1.
pub fn line_at(text: &[u8], place: usize) -> u64 {
    let mut line = 1u64;
    for byte in text.iter().take(place) {
        if *byte == b'\n' {
            line = line.saturating_add(1);
        }
    }
    line
}

/// The longest text of a component that is looked at.
const LONGEST: usize = 512;

/// The text of a component without its release characters; of a longer one nothing is left.
pub fn literal(raw: Raw<'_>) -> ArrayVec<u8, LONGEST> {
    let mut bytes = ArrayVec::<u8, LONGEST>::new();
    let _ = raw.literal_into(&mut bytes);
    bytes
}

/// The text of a component, as the report shows names.
pub fn raw_shown(alloc: Global, raw: Raw<'_>) -> Result<String, AllocError> {
    shown_word(alloc, literal(raw).as_slice())
}

/// The text of a component, on one line.
pub fn raw_line(alloc: Global, raw: Raw<'_>) -> Result<String, AllocError> {
    shown_line(alloc, literal(raw).as_slice())
}

/// The bay plan and the instruction of a run.
pub fn messages_of<'a>(inputs: &Inputs<'a>) -> (MessageText<'a>, MessageText<'a>) {
    let plan = MessageText {
        text: inputs.baplie,
        kind: Kind::Baplie,
    };
    let moves = MessageText {
        text: inputs.movins,
        kind: Kind::Movins,
    };
    (plan, moves)
}
