use std::alloc::AllocError;
use std::fmt::Write;

/// The form of a table.
#[derive(Clone, Copy, Debug, PartialEq, Eq)]
pub enum Form {
    /// Comma-separated values (RFC 4180) with one heading.
    Csv,
    /// An object of JSON in each line.
    Jsonl,
}

/// Whether a field has to stand in quotes.
fn needs_quotes(bytes: &[u8]) -> bool {
    for byte in bytes {
        if *byte == b',' || *byte == b'"' || *byte == b'\n' || *byte == b'\r' {
            return true;
        }
    }
    false
}

/// Adds a byte as the character of its number: of ASCII itself, else of the first 256 of Unicode.
fn add_byte(text: &mut String, byte: u8) -> Result<(), AllocError> {
    text.push(char::from(byte))
}

/// Adds a field of CSV, in quotes where they are needed. Unless the whole is UTF-8, a byte beyond
/// ASCII stands for the character of its number.
pub fn add_csv_text(text: &mut String, bytes: &[u8]) -> Result<(), AllocError> {
    if !needs_quotes(bytes) {
        return match str::from_utf8(bytes) {
            Ok(field) => text.push_str(field),
            Err(_) => {
                for byte in bytes {
                    add_byte(text, *byte)?;
                }
                Ok(())
            }
        };
    }
    text.push('"')?;
    for byte in bytes {
        if *byte == b'"' {
            text.push('"')?;
        }
        add_byte(text, *byte)?;
    }
    text.push('"')
}

/// Adds a character of a JSON text: one beyond ASCII by its number.
fn add_json_char(text: &mut String, character: char) -> Result<(), AllocError> {
    let number = u32::from(character);
    match character {
        '"' => text.push_str("\\\""),
        '\\' => text.push_str("\\\\"),
        '\n' => text.push_str("\\n"),
        '\r' => text.push_str("\\r"),
        '\t' => text.push_str("\\t"),
        '\u{8}' => text.push_str("\\b"),
        '\u{c}' => text.push_str("\\f"),
        _ if number >= 0x1_0000 => {
            let above = number.saturating_sub(0x1_0000);
            let high = (above / 0x400).saturating_add(0xd800);
            let low = (above % 0x400).saturating_add(0xdc00);
            write!(text, "\\u{high:04x}\\u{low:04x}")
        }
        _ if number < 0x20 || number > 0x7f => write!(text, "\\u{number:04x}"),
        _ => text.push(character),
    }
}

/// Adds a text of JSON in its quotes: bytes that are UTF-8 as that text, and each byte of others as
/// the character of its number.
pub fn add_json_text(text: &mut String, bytes: &[u8]) -> Result<(), AllocError> {
    text.push('"')?;
    match str::from_utf8(bytes) {
        Ok(words) => {
            for character in words.chars() {
                add_json_char(text, character)?;
            }
        }
        Err(_) => {
            for byte in bytes {
                add_json_char(text, char::from(*byte))?;
            }
        }
    }
    text.push('"')
}
