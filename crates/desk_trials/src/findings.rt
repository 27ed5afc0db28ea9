//! What is found wrong.
use std::io::Write;

/// What a trial needs, and didn't get.
#[derive(Clone, Copy)]
pub struct Missing(pub &'static str);

/// Whether a claim of a trial holds. Where it doesn't, what it is about is printed, with a number
/// that tells it from others.
pub fn holds<W: Write>(out: &mut W, claim: bool, trial: &str, what: &str, number: usize) -> bool {
    if !claim {
        let _ = writeln!(out, "WRONG: {trial}: {what} {number}");
    }
    claim
}

/// Whether a trial was right. Where it wasn't made, what it needed is printed.
pub fn is_right<W: Write>(out: &mut W, trial: Result<bool, Missing>) -> bool {
    match trial {
        Ok(right) => right,
        Err(Missing(what)) => {
            let _ = writeln!(out, "WRONG: {what}");
            false
        }
    }
}
