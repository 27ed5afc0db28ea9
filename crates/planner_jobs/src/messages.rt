//! The texts of messages.
use crate::slots::Slot;
use std::alloc::{AllocError, Global};

/// The codes of the containers' owners.
static OWNERS: [[u8; 4]; 8] = [
    *b"MSKU", *b"TGHU", *b"CAIU", *b"TEMU", *b"MSCU", *b"HLBU", *b"SUDU", *b"TCLU",
];

/// A container: its identification by a number, and its mass in kg.
#[derive(Clone, Copy)]
pub struct Container {
    pub number: u32,
    pub kg: u32,
}

/// A decimal digit of a number, `unit` being 1, 10, 100 and so on.
fn digit(number: u32, unit: u32) -> u8 {
    match number.checked_div(unit) {
        Some(quotient) => b'0' + (quotient % 10) as u8,
        None => b'0',
    }
}

impl Container {
    /// The code of its owner.
    fn owner(&self) -> [u8; 4] {
        match OWNERS.get((self.number % 8) as usize) {
            Some(owner) => *owner,
            None => *b"SKGU",
        }
    }

    /// The seven digits behind that.
    fn digits(&self) -> [u8; 7] {
        let n = self.number;
        [
            digit(n, 1_000_000),
            digit(n, 100_000),
            digit(n, 10_000),
            digit(n, 1_000),
            digit(n, 100),
            digit(n, 10),
            digit(n, 1),
        ]
    }

    /// Its mass in five digits.
    fn mass(&self) -> [u8; 5] {
        let kg = self.kg;
        [
            digit(kg, 10_000),
            digit(kg, 1_000),
            digit(kg, 100),
            digit(kg, 10),
            digit(kg, 1),
        ]
    }
}

/// The text of a message that grows, and how many segments it has from `UNH` on.
#[derive(Drop)]
pub struct Message {
    text: Vec<u8>,
    segments: u32,
}

impl Message {
    /// A message with its first segments.
    pub fn new(alloc: Global, head: &[u8], segments: u32) -> Result<Message, AllocError> {
        let mut text = Vec::with_capacity(alloc, 2_000_000)?;
        text.extend_from_slice(head)?;
        Ok(Message { text, segments })
    }

    /// Appends a text of a number of segments.
    pub fn put(&mut self, text: &[u8], segments: u32) -> Result<(), AllocError> {
        self.segments = self.segments.saturating_add(segments);
        self.text.extend_from_slice(text)
    }

    /// Appends the cell of a container.
    pub fn put_cell(&mut self, slot: &Slot) -> Result<(), AllocError> {
        self.put(b"LOC+147+", 1)?;
        self.put(&slot.name, 0)?;
        self.put(b"::5'\n", 0)
    }

    /// Appends a container's mass.
    pub fn put_mass(&mut self, container: &Container) -> Result<(), AllocError> {
        self.put(b"MEA+VGM++KGM:", 1)?;
        self.put(&container.mass(), 0)?;
        self.put(b"'\n", 0)
    }

    /// Appends a container's identification.
    pub fn put_identification(&mut self, container: &Container) -> Result<(), AllocError> {
        self.put(b"EQD+CN+", 1)?;
        self.put(&container.owner(), 0)?;
        self.put(&container.digits(), 0)?;
        self.put(b"+22G1+++5'\n", 0)
    }

    /// The text, which ends with the number of its segments.
    pub fn end(self, alloc: Global, reference: &str) -> Result<Vec<u8>, AllocError> {
        let Message { mut text, segments } = self;
        let count = segments.saturating_add(1);
        let tail = format!(in alloc; "UNT+{count}+{reference}'\nUNZ+1+{reference}'\n")?;
        text.extend_from_slice(tail.as_bytes())?;
        Ok(text)
    }
}

/// Appends a container's identification to a steps file.
pub fn put_name(text: &mut Vec<u8>, container: &Container) -> Result<(), AllocError> {
    text.extend_from_slice(&container.owner())?;
    text.extend_from_slice(&container.digits())
}

/// The same message with service characters of its own, which its `UNA` names.
pub fn with_other_characters(text: &mut [u8]) {
    for byte in text {
        *byte = match *byte {
            b':' => b'*',
            b'+' => b';',
            b'.' => b',',
            b'?' => b'!',
            b'\'' => b'~',
            other => other,
        };
    }
}
