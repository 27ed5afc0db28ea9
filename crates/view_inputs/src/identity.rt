//! What a message says of the ship, the voyage and the ports.
use crate::messages::{MessageText, raw_line};
use edifact_text::{Kind, Message, Raw, Segment};
use plain_text::front;
use std::alloc::{AllocError, Global};

/// What a message says before its first location of a container or its first handling; a text that
/// is missing is empty.
#[derive(Debug, Drop)]
pub struct Identity {
    /// The message's own reference, and its function (BGM).
    pub reference: String,
    pub function: String,
    pub voyage: String,
    pub call_sign: String,
    pub ship: String,
    /// The port of the message (LOC+5), and the next one (LOC+61).
    pub port: String,
    pub next: String,
}

/// Sets a text where it has none yet.
fn set_once(alloc: Global, text: &mut Option<String>, raw: Raw<'_>) -> Result<(), AllocError> {
    if text.is_none() {
        *text = Some(raw_line(alloc, raw)?);
    }
    Ok(())
}

/// What was found of it so far.
#[derive(Drop)]
struct Found {
    /// The reference and the function.
    beginning: Option<(String, String)>,
    /// The voyage, the call sign and the ship.
    carriage: Option<(String, String, String)>,
    port: Option<String>,
    next: Option<String>,
}

/// Notes what a segment says.
fn note(alloc: Global, found: &mut Found, segment: &Segment<'_>) -> Result<(), AllocError> {
    let tag = segment.tag();
    if tag.is(b"BGM") {
        if found.beginning.is_none() {
            let reference = raw_line(alloc, segment.component(2, 0))?;
            let function = raw_line(alloc, segment.component(3, 0))?;
            found.beginning = Some((reference, function));
        }
        return Ok(());
    }
    if tag.is(b"TDT") && segment.has_qualifier(b"20") {
        if found.carriage.is_none() {
            let voyage = raw_line(alloc, segment.component(2, 0))?;
            let call_sign = raw_line(alloc, segment.component(8, 0))?;
            let ship = raw_line(alloc, segment.component(8, 3))?;
            found.carriage = Some((voyage, call_sign, ship));
        }
        return Ok(());
    }
    if tag.is(b"LOC") && segment.has_qualifier(b"5") {
        return set_once(alloc, &mut found.port, segment.component(2, 0));
    }
    if tag.is(b"LOC") && segment.has_qualifier(b"61") {
        return set_once(alloc, &mut found.next, segment.component(2, 0));
    }
    Ok(())
}

/// Whether a segment is the first location of a container, or the first handling.
fn ends_head(segment: &Segment<'_>) -> bool {
    let tag = segment.tag();
    tag.is(b"HAN") || tag.is(b"LOC") && segment.has_qualifier(b"147")
}

/// A text, or an empty one.
fn or_empty(alloc: Global, text: Option<String>) -> String {
    match text {
        Some(text) => text,
        None => String::new(alloc),
    }
}

/// What a message of this kind says; nothing where the text is no such message.
pub fn identity_in(alloc: Global, text: &[u8], kind: Kind) -> Result<Identity, AllocError> {
    identity_of(alloc, MessageText { text, kind }.message().as_ref())
}

/// What a message says, if there is one.
pub fn identity_of(alloc: Global, message: Option<&Message<'_>>) -> Result<Identity, AllocError> {
    let mut found = Found {
        beginning: None,
        carriage: None,
        port: None,
        next: None,
    };
    if let Some(message) = message {
        for segment in message.segments() {
            if ends_head(&segment) {
                break;
            }
            note(alloc, &mut found, &segment)?;
        }
    }
    let Found {
        beginning,
        carriage,
        port,
        next,
    } = found;
    let (voyage, call_sign, ship) = match carriage {
        Some(carriage) => carriage,
        None => (String::new(alloc), String::new(alloc), String::new(alloc)),
    };
    let (reference, function) = match beginning {
        Some(beginning) => beginning,
        None => (String::new(alloc), String::new(alloc)),
    };
    Ok(Identity {
        reference,
        function,
        voyage,
        call_sign,
        ship,
        port: or_empty(alloc, port),
        next: or_empty(alloc, next),
    })
}

/// The first text that isn't empty.
pub fn first_of<'a>(one: &'a String, other: &'a String) -> &'a str {
    if one.is_empty() {
        other.as_str()
    } else {
        one.as_str()
    }
}

/// Adds a text of at most so many bytes behind what parts it from the text before it, where there
/// is one.
fn add_part(
    alloc: Global,
    line: &mut String,
    between: &str,
    text: &str,
    most: usize,
) -> Result<(), AllocError> {
    if text.is_empty() {
        return Ok(());
    }
    line.push_str(between)?;
    line.push_str(front(alloc, text, most)?.as_str())
}

/// Adds both voyages, or the one where they are equal or one is missing.
fn add_voyages(alloc: Global, line: &mut String, one: &str, other: &str) -> Result<(), AllocError> {
    add_part(alloc, line, ", voyage ", one, 10)?;
    if one.is_empty() {
        return add_part(alloc, line, ", voyage ", other, 10);
    }
    if one == other {
        return Ok(());
    }
    add_part(alloc, line, " / ", other, 10)
}

/// Adds a port, and says whether there is one.
fn add_port(
    alloc: Global,
    line: &mut String,
    between: &str,
    port: &str,
) -> Result<bool, AllocError> {
    add_part(alloc, line, between, port, 5)?;
    Ok(!port.is_empty())
}

/// The line that names a port call, by what its bay plan and its instruction say, and by the name
/// that the profile has: the ship, her call sign, the voyages and the ports.
pub fn identity_line(
    alloc: Global,
    plan: &Identity,
    moves: &Identity,
    name: &str,
) -> Result<String, AllocError> {
    let said = first_of(&plan.ship, &moves.ship);
    let ship = if !said.is_empty() {
        said
    } else if !name.is_empty() {
        name
    } else {
        "ship without a name"
    };
    let mut line = front(alloc, ship, 30)?;
    add_part(
        alloc,
        &mut line,
        ", ",
        first_of(&plan.call_sign, &moves.call_sign),
        10,
    )?;
    add_voyages(
        alloc,
        &mut line,
        plan.voyage.as_str(),
        moves.voyage.as_str(),
    )?;
    let mut between = ", ";
    if add_port(alloc, &mut line, between, plan.port.as_str())? {
        between = " > ";
    }
    if add_port(alloc, &mut line, between, first_of(&plan.next, &moves.port))? {
        between = " > ";
    }
    add_port(alloc, &mut line, between, moves.next.as_str())?;
    Ok(line)
}
