//! A ship's profile, read back.
use crate::sections::{add_fills, add_frames, add_hydro, add_limits, add_tables};
use crate::warnings::{Parts, warnings_on};
use plain_text::{count_of, front, many_of, path};
use std::alloc::{AllocError, Global};
use view_inputs::add_notices;

/// The profile of a folder in tonnes, metres and degrees, with its warnings; `digest` is that of
/// its files, and `name` that of the ship, empty where she has none.
pub fn profile_text(
    alloc: Global,
    folder: &str,
    name: &str,
    digest: &str,
    parts: &Parts<'_>,
) -> Result<String, AllocError> {
    let folder = path(alloc, folder, 44)?;
    let mut text = format!(in alloc; "PROFILE  {folder}")?;
    if !name.is_empty() {
        let name = front(alloc, name, 24)?;
        write!(text, "  {name}")?;
    }
    write!(text, "\nsha256   {digest}\n")?;
    add_limits(alloc, &mut text, parts.profile)?;
    add_frames(alloc, &mut text, parts.profile)?;
    add_hydro(alloc, &mut text, parts.profile)?;
    add_tables(alloc, &mut text, parts)?;
    add_fills(alloc, &mut text, parts)?;
    text.push_str("\n")?;
    add_warnings(alloc, &mut text, parts)?;
    Ok(text)
}

/// Adds the warnings, and how many they are.
fn add_warnings(alloc: Global, text: &mut String, parts: &Parts<'_>) -> Result<(), AllocError> {
    let warnings = warnings_on(alloc, parts)?;
    if warnings.is_empty() {
        return text.push_str("PROFILE READ, NO WARNINGS\n");
    }
    text.push_str("WARNINGS (they refuse nothing; docs/VIEW.md says what each looks for)\n")?;
    add_notices(alloc, text, warnings.as_slice())?;
    let count = many_of(alloc, count_of(warnings.len()), "WARNING", "WARNINGS")?;
    write!(text, "\nPROFILE READ, {count}\n")
}
