//! Lines and paragraphs of a text of 80 columns.
use std::alloc::{AllocError, Global};

/// How many columns a line has.
const COLUMNS: usize = 80;

/// How far a paragraph is indented behind its heading.
const INDENT: usize = 8;

/// Adds so many blanks.
fn add_blanks(text: &mut String, count: usize) -> Result<(), AllocError> {
    for _ in 0..count {
        text.push(' ')?;
    }
    Ok(())
}

/// Adds a line.
pub fn add_line(text: &mut String, line: &str) -> Result<(), AllocError> {
    text.push_str(line.trim_end())?;
    text.push_str("\n")
}

/// A text that is cut into lines of at most 80 columns between its words, those behind the first
/// indented. A longer word has a line of its own.
#[derive(Drop)]
struct Wrapped<'a> {
    text: &'a mut String,
    indent: usize,
    /// How many columns the line has, and whether it has a word.
    columns: usize,
    has_word: bool,
}

/// Adds a word behind so many blanks, on the line if there is room, else on the next.
fn add_word(wrapped: &mut Wrapped<'_>, blanks: usize, word: &str) -> Result<(), AllocError> {
    let columns = wrapped
        .columns
        .saturating_add(blanks)
        .saturating_add(word.len());
    if columns <= COLUMNS || !wrapped.has_word {
        add_blanks(wrapped.text, blanks)?;
        wrapped.text.push_str(word)?;
        wrapped.columns = columns;
    } else {
        wrapped.text.push_str("\n")?;
        add_blanks(wrapped.text, wrapped.indent)?;
        wrapped.text.push_str(word)?;
        wrapped.columns = wrapped.indent.saturating_add(word.len());
    }
    wrapped.has_word = true;
    Ok(())
}

/// Adds a text as lines of at most 80 columns, cut between its words, the further ones indented.
pub fn add_wrapped(text: &mut String, words: &str, indent: usize) -> Result<(), AllocError> {
    let mut wrapped = Wrapped {
        text,
        indent,
        columns: 0,
        has_word: false,
    };
    let mut blanks = 0usize;
    let mut rest = words;
    for _ in 0..words.len() {
        match rest.split_once(' ') {
            Some((word, behind)) => {
                if !word.is_empty() {
                    add_word(&mut wrapped, blanks, word)?;
                    blanks = 0;
                }
                blanks = blanks.saturating_add(1);
                rest = behind;
            }
            None => break,
        }
    }
    if !rest.is_empty() {
        add_word(&mut wrapped, blanks, rest)?;
    }
    wrapped.text.push_str("\n")
}

/// Adds a paragraph behind its heading, cut between its words and indented, where there is
/// something to say.
pub fn add_paragraph(
    alloc: Global,
    text: &mut String,
    heading: &str,
    words: &str,
) -> Result<(), AllocError> {
    if words.is_empty() {
        return Ok(());
    }
    add_wrapped(
        text,
        format!(in alloc; "{heading:<8}{words}")?.as_str(),
        INDENT,
    )
}
