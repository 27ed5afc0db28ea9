//! What an edit changes of the table of limits, in words.
use crate::rows::{PLACES, RowText};
use fractions::is_less;
use std::alloc::{AllocError, Global};
use units_core::Frac;

/// Half of a limit.
const HALF: Frac = Frac { num: 1, den: 2 };

/// The row of a place of the table.
fn row_at(rows: &[RowText], place: usize) -> Option<&RowText> {
    for row in rows {
        if row.place == place {
            return Some(row);
        }
    }
    None
}

/// Whether a limit is used by half, or isn't kept.
fn is_near(row: &RowText) -> bool {
    match row.share {
        Some(share) => !row.is_kept || !is_less(share, HALF),
        None => true,
    }
}

/// What a place of the table says before and after.
fn change(
    alloc: Global,
    before: Option<&RowText>,
    after: Option<&RowText>,
) -> Result<Option<String>, AllocError> {
    let text = match (before, after) {
        (None, None) => return Ok(None),
        (Some(old), None) => {
            let code = old.criterion.code();
            let name = old.name.as_str();
            format!(in alloc; "{code} {name} -> within")?
        }
        (None, Some(new)) => {
            let code = new.criterion.code();
            let name = new.name.as_str();
            format!(in alloc; "{code} within -> {name}")?
        }
        (Some(old), Some(new)) => {
            let is_same = old.used == new.used && old.is_kept == new.is_kept;
            if is_same || !is_near(old) && !is_near(new) {
                return Ok(None);
            }
            let code = new.criterion.code();
            let (name, used) = (old.name.as_str(), old.used.as_str());
            let (other, now) = (new.name.as_str(), new.used.as_str());
            if name == other {
                format!(in alloc; "{code} {name} {used} -> {now}")?
            } else {
                format!(in alloc; "{code} {name} {used} -> {other} {now}")?
            }
        }
    };
    Ok(Some(text))
}

/// What changed of each limit that is used by half, or isn't kept, before or after an edit: how
/// much of it is used, or whether it is kept. `before` and `after` are the rows of the table of
/// limits; the text is empty where nothing changed.
pub fn changes(alloc: Global, before: &[RowText], after: &[RowText]) -> Result<String, AllocError> {
    let mut text = String::new(alloc);
    for place in 0..PLACES {
        let words = change(alloc, row_at(before, place), row_at(after, place))?;
        if let Some(words) = words {
            if !text.is_empty() {
                text.push_str(", ")?;
            }
            text.push_str(words.as_str())?;
        }
    }
    Ok(text)
}
