//! Input in print, on one line.
ghost use Rattle.std.specs.Prelude.{◌≡◌, ◌≤◌, ◌++◌, ◌∷◌, [], List, ℕ, true, length, map};
ghost use Rattle.std.specs.Prelude.{IfOk, OnOk};
ghost use Rattle.std.specs.Prelude.{string_bytes};
ghost use Rattle.std.specs.List.{list_all};
ghost use Rattle.plain_text.specs.Quotes.{is_seen, quoted_text, seen, with_end};

use std::alloc::{AllocError, Global};

/// The most columns that quoted input takes.
pub const QUOTED: usize = 58;

/// A byte in print: a point stands for what is no character of ASCII that can be seen, and no
/// blank.
fn printable(byte: u8) -> u8
    ensures { result ≡ seen byte }
{
    if 32 <= byte && byte <= 126 {
        byte
    } else {
        b'.'
    }
}

/// Adds bytes in print.
fn add_seen(text: &mut String, bytes: &[u8]) -> Result<(), AllocError>
    ensures { OnOk result
        (string_bytes text.new ≡ string_bytes text.old ++ map seen bytes.now) }
{
    for byte in bytes {
        text.push(char::from(printable(*byte)))?;
    }
    Ok(())
}

/// Bytes of a line as they are quoted.
#[tactic(auto, using(crate::proofs::QuoteLemmas::short_line, crate::proofs::QuoteLemmas::long_line))]
fn quoted_line(alloc: Global, bytes: &[u8]) -> Result<String, AllocError>
    ensures { IfOk result (λ text. string_bytes text ≡ quoted_text bytes.now) }
{
    let mut text = String::new(alloc);
    if bytes.len() <= 58 {
        add_seen(&mut text, bytes)?;
        return Ok(text);
    }
    let (front, _) = bytes.split_at(56);
    add_seen(&mut text, front)?;
    text.push_str("..")?;
    Ok(text)
}

/// Bytes, and behind them their terminator, as they are quoted.
#[tactic(auto, using(crate::proofs::QuoteLemmas::short_ended, crate::proofs::QuoteLemmas::long_ended))]
fn quoted_ended(alloc: Global, bytes: &[u8], end: u8) -> Result<String, AllocError>
    ensures { IfOk result (λ text. string_bytes text ≡ quoted_text (bytes.now ++ end ∷ [])) }
{
    let mut text = String::new(alloc);
    if bytes.len() < 58 {
        add_seen(&mut text, bytes)?;
        text.push(char::from(printable(end)))?;
        return Ok(text);
    }
    let (front, _) = bytes.split_at(56);
    add_seen(&mut text, front)?;
    text.push_str("..")?;
    Ok(text)
}

/// Bytes of an input, and behind them the terminator, if there is one, as they are quoted: on one
/// line, in at most [`QUOTED`] columns, a point for each byte that can't be seen, and two points at
/// the end of what is cut.
pub fn quote(alloc: Global, bytes: &[u8], end: Option<u8>) -> Result<String, AllocError>
    ensures { IfOk result (λ text. string_bytes text ≡ quoted_text (with_end bytes.now end)) }
{
    match end {
        Some(end) => quoted_ended(alloc, bytes, end),
        None => quoted_line(alloc, bytes),
    }
}

/// Adds a line of quoted input.
pub fn add_quoted(
    alloc: Global,
    text: &mut String,
    bytes: &[u8],
    end: Option<u8>,
) -> Result<(), AllocError> {
    let line = quote(alloc, bytes, end)?;
    text.push_str("            ")?;
    text.push_str(line.as_str())?;
    text.push_str("\n")
}

/// Quoted input has no byte outside of 32 to 126, whatever the input has, and at most 58 of them.
pub fn quoted_line_is_seen()
    ensures seen { (bytes : List ℕ) → list_all is_seen (quoted_text bytes) ≡ true }
    ensures width { (bytes : List ℕ) → length (quoted_text bytes) ≤ 58 }
{}
