//! Warnings on a profile: what looks wrong, and refuses nothing.
use crate::cell_checks::add_cells;
use crate::closing::{Closing, worst_closing};
use crate::curve_checks::{add_bonjean, add_levers, add_reaches};
use crate::hydro_checks::add_hydro;
use crate::limit_checks::{add_alone, add_frames, add_keys, add_limits, add_sizes};
use crate::tank_checks::{add_fills, add_tanks};
use csv_text::number;
use indexmap::IndexSet;
use plain_text::shown_word;
use ship_profile::{Profile, ProfileBytes};
use std::alloc::{AllocError, Global};
use view_inputs::{CellRow, Notice, Notices, TankRows, document, tanks_in, unread_keys};
use view_quotes::record_at;

/// A profile with the records of its cells and tanks, and what is worked out of it once.
#[derive(Drop)]
pub struct Parts<'a> {
    pub files: ProfileBytes<'a>,
    pub profile: &'a Profile,
    pub cells: &'a [CellRow],
    pub tanks: Vec<TankRows>,
    /// The greatest closing error on an even keel.
    pub closing: Option<Closing>,
}

impl<'a> Parts<'a> {
    /// A profile that was read of these files, with the records of her cells.
    pub fn new(
        alloc: Global,
        files: ProfileBytes<'a>,
        profile: &'a Profile,
        cells: &'a [CellRow],
    ) -> Result<Parts<'a>, AllocError> {
        Ok(Parts {
            files,
            profile,
            cells,
            tanks: tanks_in(alloc, files.tanks)?,
            closing: worst_closing(profile),
        })
    }

    /// The tank of a number.
    pub fn tank(&self, number: u16) -> Option<&TankRows> {
        self.tanks.get(usize::from(number))
    }
}

/// What a check found: at how many records, the first of them, and the words on that.
#[derive(Drop)]
pub struct Found {
    pub count: u32,
    pub record: u32,
    pub words: String,
}

impl Found {
    /// Nothing yet.
    pub fn nothing(alloc: Global) -> Found {
        Found {
            count: 0,
            record: 0,
            words: String::new(alloc),
        }
    }

    /// Whether nothing was found yet.
    pub fn is_first(&self) -> bool {
        self.count == 0
    }

    /// Notes a record, of which the words are told where it is the first.
    pub fn note(&mut self, record: u32, words: String) {
        if self.count == 0 {
            self.record = record;
            self.words = words;
        }
        self.count = self.count.saturating_add(1);
    }

    /// Notes one more record.
    pub fn note_more(&mut self) {
        self.count = self.count.saturating_add(1);
    }

    /// Adds to the warnings what was found at the records of a table, if anything was.
    pub fn add_to(
        &self,
        alloc: Global,
        warnings: &mut Notices,
        code: &'static str,
        file: &'static str,
    ) -> Result<(), AllocError> {
        if self.count == 0 {
            return Ok(());
        }
        let record = self.record;
        let words = self.words.as_str();
        let count = self.count;
        let mut text = format!(in alloc; "record {record}: {words}")?;
        if count > 1 {
            write!(text, " ({count} records)")?;
        }
        warnings.add(code, file, text)
    }
}

/// The keys of ship.toml that aren't read, the first three by name.
fn unread_words(alloc: Global, names: &IndexSet<Vec<u8>>) -> Result<String, AllocError> {
    let mut text = String::from_str(alloc, "not read: ")?;
    let mut is_first = true;
    for name in names.iter().take(3) {
        if !is_first {
            text.push_str(", ")?;
        }
        is_first = false;
        text.push_str(shown_word(alloc, name.as_slice())?.as_str())?;
    }
    if names.len() > 3 {
        let more = names.len().saturating_sub(3);
        write!(text, " and {more} more")?;
    }
    Ok(text)
}

/// Adds the keys of ship.toml that aren't read: V1.
fn add_unread(
    alloc: Global,
    warnings: &mut Notices,
    files: &ProfileBytes<'_>,
) -> Result<(), AllocError> {
    let Some(table) = document(alloc, files.ship)? else {
        return Ok(());
    };
    let names = unread_keys(alloc, files.ship, &table)?;
    if names.len() > 0 {
        warnings.add("V1", "ship.toml", unread_words(alloc, &names)?)?;
    }
    Ok(())
}

/// Whether the first record of a table holds numbers, from a field on.
fn is_numbers(alloc: Global, text: &[u8], from: usize) -> Result<bool, AllocError> {
    let Some(fields) = record_at(alloc, text, 0)? else {
        return Ok(false);
    };
    if fields.len() <= from {
        return Ok(false);
    }
    for place in from..fields.len() {
        match fields.get(place) {
            Some(field) if number(field).is_some() => {}
            _ => return Ok(false),
        }
    }
    Ok(true)
}

/// Adds tables whose heading is missing: V2.
fn add_headings(
    alloc: Global,
    warnings: &mut Notices,
    files: &ProfileBytes<'_>,
) -> Result<(), AllocError> {
    let gm = files.gm.unwrap_or(&[]);
    let tables = [
        ("cells.csv", files.cells, 0usize),
        ("hydro.csv", files.hydro, 0),
        ("kn.csv", files.kn, 0),
        ("bonjean.csv", files.bonjean, 0),
        ("tanks.csv", files.tanks, 1),
        ("gm.csv", gm, 0),
    ];
    for (file, text, from) in tables {
        if is_numbers(alloc, text, from)? {
            let text = String::from_str(
                alloc,
                "record 1 holds numbers: it is taken for the heading, and not read",
            )?;
            warnings.add("V2", file, text)?;
        }
    }
    Ok(())
}

/// Adds what looks wrong of a profile, in the order of the codes.
fn add_all(alloc: Global, warnings: &mut Notices, parts: &Parts<'_>) -> Result<(), AllocError> {
    add_unread(alloc, warnings, &parts.files)?;
    add_headings(alloc, warnings, &parts.files)?;
    add_sizes(alloc, warnings, parts)?;
    add_limits(alloc, warnings, parts.profile)?;
    add_keys(alloc, warnings, parts.profile)?;
    add_hydro(alloc, warnings, parts.profile)?;
    add_levers(alloc, warnings, parts.profile)?;
    add_bonjean(alloc, warnings, parts)?;
    add_reaches(alloc, warnings, parts.profile)?;
    add_tanks(alloc, warnings, parts.tanks.as_slice())?;
    add_fills(alloc, warnings, parts)?;
    add_cells(alloc, warnings, parts.cells)?;
    add_frames(alloc, warnings, parts.profile)?;
    add_alone(alloc, warnings, parts.profile)
}

/// What looks wrong of a profile, in the order of the codes V1 to V26; the word of each is the file
/// that it is of.
pub fn warnings_on(alloc: Global, parts: &Parts<'_>) -> Result<Vec<Notice>, AllocError> {
    let mut warnings = Notices::new(alloc);
    add_all(alloc, &mut warnings, parts)?;
    Ok(warnings.into_list())
}
