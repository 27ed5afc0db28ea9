//! The lines of a session.
ghost use Rattle.view_session.specs.Commands.{IsOrderedBy};

use edits_file::{EditLine, line};
use step_edits::Edit;

/// What a line orders beside edits.
#[derive(Clone, Copy, Debug, PartialEq, Eq)]
pub enum Request<'a> {
    /// The sheet of a condition.
    Show(u64),
    /// The conditions from one to another, a line for each.
    List(u64, u64),
    /// Each limit at its worst.
    Worst,
    /// The edits that led to this list are written to a file.
    Save(&'a [u8]),
    /// The list is published.
    Publish,
    /// The list that was published with this number is gone on with.
    Open(u64),
    /// What can be ordered.
    Help,
    /// The session ends.
    Quit,
    /// Nothing: an empty line, or a remark.
    Nothing,
    /// The line is of no form.
    Unknown,
}

/// What a line orders.
#[derive(Debug, Drop, PartialEq, Eq)]
pub enum Command<'a> {
    /// An edit of the list.
    Edit(Edit),
    /// The last edit is taken back.
    Undo,
    /// What changes nothing of the list, or goes on with another one.
    Other(Request<'a>),
}

/// The greatest length of a line, in bytes; a longer one is of no form.
pub const LONGEST: usize = 4_096;

/// The greatest number of digits of a number.
const DIGITS: usize = 10;

/// A number of 1 to 10 digits.
fn number(word: &[u8]) -> Option<u64> {
    if word.is_empty() || word.len() > DIGITS {
        return None;
    }
    let mut number = 0u64;
    for byte in word {
        if !byte.is_ascii_digit() {
            return None;
        }
        let digit = u64::from(byte.wrapping_sub(b'0'));
        number = number.saturating_mul(10).saturating_add(digit);
    }
    Some(number)
}

/// Two numbers with a blank between them.
fn two_numbers(words: &[u8]) -> Option<(u64, u64)> {
    let place = words.iter().position(|byte| *byte == b' ')?;
    let one = number(words.get(..place)?)?;
    let other = number(words.get(place.checked_add(1)?..)?)?;
    Some((one, other))
}

/// The number behind a word.
fn number_behind(text: &[u8], word: &[u8]) -> Option<u64> {
    number(text.strip_prefix(word)?)
}

/// What a line of one word orders.
fn of_one_word(text: &[u8]) -> Option<Request<'_>> {
    if text.is_empty() || text.starts_with(b"#") {
        return Some(Request::Nothing);
    }
    if text == b"worst".as_slice() {
        return Some(Request::Worst);
    }
    if text == b"publish".as_slice() {
        return Some(Request::Publish);
    }
    if text == b"help".as_slice() {
        return Some(Request::Help);
    }
    if text == b"quit".as_slice() {
        return Some(Request::Quit);
    }
    None
}

/// What a line of several words orders.
fn of_words(text: &[u8]) -> Option<Request<'_>> {
    if let Some(k) = number_behind(text, b"show ") {
        return Some(Request::Show(k));
    }
    if let Some(number) = number_behind(text, b"open ") {
        return Some(Request::Open(number));
    }
    if let Some(words) = text.strip_prefix(b"list ") {
        let (from, to) = two_numbers(words)?;
        return Some(Request::List(from, to));
    }
    let name = text.strip_prefix(b"save ")?;
    if name.is_empty() {
        return None;
    }
    Some(Request::Save(name))
}

/// What a line orders that is no edit.
fn request_in(text: &[u8]) -> Request<'_> {
    if text.len() > LONGEST {
        return Request::Unknown;
    }
    match of_one_word(text).or(of_words(text)) {
        Some(request) => request,
        None => Request::Unknown,
    }
}

/// What a line orders: an edit or `undo`, as a line of an edits file does; `show K`, `list A B`,
/// `worst`, `save FILE`, `publish`, `open N`, `help` or `quit`. An empty line and one that begins
/// with `#` order nothing, and one of more than [`LONGEST`] bytes is of no form. The line is
/// without its end.
pub fn command_in(text: &[u8]) -> Command<'_>
    ensures { IsOrderedBy text.now result }
{
    match line(text) {
        Some(EditLine::Edit(edit)) => Command::Edit(edit),
        Some(EditLine::Undo) => Command::Undo,
        None => Command::Other(request_in(text)),
    }
}
