//! Names of an input on one line.
use std::alloc::{AllocError, Global};

/// A name of an input as the report prints it: a question mark for each byte that is no character
/// of ASCII that can be seen, and for each blank.
pub fn shown_word(alloc: Global, bytes: &[u8]) -> Result<String, AllocError> {
    let mut text = String::new(alloc);
    for byte in bytes {
        text.push(if byte.is_ascii_graphic() {
            char::from(*byte)
        } else {
            '?'
        })?;
    }
    Ok(text)
}

/// A text of bytes of an input on one line: a question mark for each that is no character of ASCII
/// that can be seen, and no blank.
pub fn shown_line(alloc: Global, bytes: &[u8]) -> Result<String, AllocError> {
    let mut text = String::new(alloc);
    for byte in bytes {
        let is_shown = *byte == b' ' || byte.is_ascii_graphic();
        text.push(if is_shown { char::from(*byte) } else { '?' })?;
    }
    Ok(text)
}

/// The first bytes of a text of ASCII, at most so many.
pub fn front(alloc: Global, text: &str, most: usize) -> Result<String, AllocError> {
    let mut front = String::new(alloc);
    for byte in text.bytes().take(most) {
        front.push(char::from(byte))?;
    }
    Ok(front)
}

/// The path of a file on one line, in at most so many bytes: the end of a longer one behind three
/// points.
pub fn path(alloc: Global, name: &str, most: usize) -> Result<String, AllocError> {
    let shown = shown_line(alloc, name.as_bytes())?;
    let length = shown.len();
    if length <= most {
        return Ok(shown);
    }
    let mut text = String::from_str(alloc, "...")?;
    let left_out = length.saturating_sub(most).saturating_add(3);
    for byte in shown.as_str().bytes().skip(left_out) {
        text.push(char::from(byte))?;
    }
    Ok(text)
}
