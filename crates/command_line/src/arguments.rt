ghost use Rattle.std.specs.Prelude.{◌≡◌, ◌++◌, IfOk, OnOk, map, string_bytes, take};
ghost use Rattle.command_line.specs.Arguments.{IsWordOf, masked};

use std::alloc::{AllocError, Global};
use std::env::FillError;
use std::rt::Env;

/// How many bytes of a word are asked for at first.
const ROOM: usize = 256;

/// A byte of a word that isn't UTF-8: one beyond ASCII becomes NUL, which is in no name of a file.
fn mask(byte: u8) -> u8
    ensures { result ≡ masked byte }
{
    if byte.is_ascii() { byte } else { 0 }
}

/// A word that isn't UTF-8, as text that names no file.
fn masked_text(alloc: Global, bytes: &[u8]) -> Result<String, AllocError>
    ensures { IfOk result (λ text. string_bytes text ≡ map masked bytes.now) }
{
    let mut text = String::new(alloc);
    for byte in bytes {
        text.push(char::from(mask(*byte)))?;
    }
    Ok(text)
}

/// A word of the command line as text. One that isn't UTF-8 stays one word: as a path it can't be
/// opened, and it prints with a question mark for each such byte.
pub fn text_of(alloc: Global, bytes: &[u8]) -> Result<String, AllocError>
    ensures { IfOk result (λ text. IsWordOf bytes.now (string_bytes text)) }
{
    match str::from_utf8(bytes) {
        Ok(text) => String::from_str(alloc, text),
        Err(_) => masked_text(alloc, bytes),
    }
}

/// The word of this number, 0 being the program's own name; `None` behind the last.
fn word(rt: &impl Env, alloc: Global, number: usize) -> Result<Option<String>, AllocError> {
    let mut room = ROOM;
    for _ in 0..usize::BITS {
        let mut buffer = vec![in alloc; 0u8; room]?;
        match rt.arg(number, &mut buffer) {
            Ok(length) => return Ok(Some(text_of(alloc, &buffer[..length])?)),
            Err(FillError::NotPresent) => return Ok(None),
            Err(FillError::TooLong) => room = room.saturating_mul(2),
        }
    }
    Err(AllocError)
}

/// The words behind the program's name. `std::env::args` would refuse them all where one of them
/// isn't UTF-8.
pub fn words(rt: &impl Env, alloc: Global) -> Result<Vec<String>, AllocError> {
    let mut words = Vec::new(alloc);
    for number in 1..usize::MAX {
        match word(rt, alloc, number)? {
            Some(word) => words.push(word)?,
            None => break,
        }
    }
    Ok(words)
}
