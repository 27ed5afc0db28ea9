//! What is told of a refused profile.
use crate::advice::{FILLS, advice_on_profile};
use crate::neighbours::tank_words;
use crate::refused_records::{
    tell_fields, tell_number, tell_outside, tell_reach, tell_record, tell_rising, tell_row_reach,
};
use crate::refused_tables::{few_records, filled_twice, tell_element};
use crate::ship_limits::{beyond_words, falling_words, few_words};
use crate::told::{Quote, Told};
use plain_text::{shown_line, shown_word};
use ship_profile::{File, Key, ProfileBytes, ProfileFault};
use std::alloc::{AllocError, Global};
use std::str::from_utf8;
use toml::Table;
use view_inputs::{
    cell_text, cells_in, document, elements, line_beginning, number_in, table_at, tanks_in,
    text_in, unread_keys,
};

/// The text of a file of a profile.
pub fn text_of<'a>(file: File, files: &ProfileBytes<'a>) -> &'a [u8] {
    match file {
        File::Ship => files.ship,
        File::Cells => files.cells,
        File::Hydro => files.hydro,
        File::Levers => files.kn,
        File::Bonjean => files.bonjean,
        File::Tanks => files.tanks,
        File::LeastGm => files.gm.unwrap_or(&[]),
    }
}

/// A text with words in place of a mark.
fn put_in(alloc: Global, text: &str, mark: &str, words: &str) -> Result<String, AllocError> {
    match text.split_once(mark) {
        Some((front, behind)) => Ok(format!(in alloc; "{front}{words}{behind}")?),
        None => String::from_str(alloc, text),
    }
}

/// Puts words in place of a mark in what is the matter.
fn name_in_what(
    alloc: Global,
    told: &mut Told<'_>,
    mark: &str,
    words: &str,
) -> Result<(), AllocError> {
    told.what = put_in(alloc, told.what.as_str(), mark, words)?;
    Ok(())
}

/// How many bytes of a document are parsed at most to find the line at which it ends to be one.
const PARSED: usize = 4_194_304;

/// How many lines of ship.toml there may be for that.
const LINES: usize = 2_000;

/// The end of each of a text's first lines, at most so many and one more.
fn line_ends(alloc: Global, text: &[u8]) -> Result<Vec<usize>, AllocError> {
    let mut ends = Vec::new(alloc);
    ends.push(0)?;
    for (at, byte) in text.iter().enumerate() {
        if *byte == b'\n' && ends.len() <= LINES.saturating_add(1) {
            ends.push(at.saturating_add(1))?;
        }
    }
    ends.push(text.len())?;
    Ok(ends)
}

/// How many of the first lines of a text are a document.
fn sound_lines(alloc: Global, text: &[u8], ends: &[usize]) -> Result<Option<usize>, AllocError> {
    let mut parsed = 0usize;
    for lines in (0..ends.len()).rev() {
        let Some(end) = ends.get(lines) else {
            return Ok(None);
        };
        let Some(front) = text.get(..*end) else {
            return Ok(None);
        };
        parsed = parsed.saturating_add(front.len());
        if parsed > PARSED {
            return Ok(None);
        }
        if document(alloc, front)?.is_some() {
            return Ok(Some(lines));
        }
    }
    Ok(None)
}

/// Tells which line of ship.toml isn't one of a document.
fn tell_document<'a>(alloc: Global, told: &mut Told<'a>, text: &'a [u8]) -> Result<(), AllocError> {
    told.place = String::from_str(alloc, "ship.toml")?;
    let ends = line_ends(alloc, text)?;
    if ends.len() > LINES.saturating_add(2) {
        return Ok(());
    }
    let Some(lines) = sound_lines(alloc, text, ends.as_slice())? else {
        return Ok(());
    };
    let next = lines.saturating_add(1);
    let start = ends.get(lines).copied().unwrap_or(0);
    let rest = text.get(start..).unwrap_or(&[]);
    let mut line = rest;
    if let Some(end) = rest.iter().position(|byte| *byte == b'\n') {
        line = rest.get(..end).unwrap_or(rest);
    }
    told.place = format!(in alloc;
        "ship.toml: its first {lines} lines are a document; look at line {next}:"
    )?;
    told.quote(Quote::line(line));
    Ok(())
}

/// The keys of a document that aren't read, the first four.
fn unread_words(alloc: Global, text: &[u8], table: &Table) -> Result<String, AllocError> {
    let names = unread_keys(alloc, text, table)?;
    let mut words = String::new(alloc);
    for name in names.iter().take(4) {
        let between = if words.is_empty() {
            "Keys of ship.toml that aren't read: "
        } else {
            ", "
        };
        let name = shown_word(alloc, name.as_slice())?;
        write!(words, "{between}{name}")?;
    }
    if !words.is_empty() {
        words.push_str(".")?;
    }
    Ok(words)
}

/// Tells which key of ship.toml is missing, or has a value of another type.
fn tell_key<'a>(
    alloc: Global,
    told: &mut Told<'a>,
    text: &'a [u8],
    key: Key,
    is_missing: bool,
) -> Result<(), AllocError> {
    let mut subject = format!(in alloc; "The key {key}")?;
    let mut line = line_beginning(text, key.name(), 1);
    if let Some(table) = document(alloc, text)? {
        if let Some(found) = tell_element(alloc, &table, key.name(), is_missing)? {
            let heading = format!(in alloc; "[[{key}]]")?;
            if let Some(at) = line_beginning(text, heading.as_str(), found.number) {
                line = Some(at);
            }
            subject = found.subject;
        } else if key == Key::Fills && !is_missing {
            told.here = filled_twice(alloc, &table)?;
            if !told.here.is_empty() {
                told.advise(alloc, FILLS)?;
            }
        }
        if is_missing {
            told.here = unread_words(alloc, text, &table)?;
        }
    }
    name_in_what(alloc, told, "{what}", subject.as_str())?;
    match line {
        Some(line) => {
            let number = line.number;
            told.place = format!(in alloc; "ship.toml, line {number}:")?;
            told.quote(Quote::line(line.text));
        }
        None => told.place = String::from_str(alloc, "ship.toml")?,
    }
    Ok(())
}

/// Tells what of ship.toml is out of its limits, doesn't rise or is too few.
fn tell_ship(
    alloc: Global,
    told: &mut Told<'_>,
    fault: ProfileFault,
    text: &[u8],
) -> Result<(), AllocError> {
    told.place = String::from_str(alloc, "ship.toml")?;
    if let Some(table) = document(alloc, text)? {
        told.here = match fault {
            ProfileFault::OutOfLimits(_, _) => beyond_words(alloc, &table)?,
            ProfileFault::NotRising(_, _) => falling_words(alloc, &table)?,
            _ => few_words(alloc, &table)?,
        };
    }
    Ok(())
}

/// Tells of a cell that stands in an earlier record.
fn tell_cell<'a>(
    alloc: Global,
    told: &mut Told<'a>,
    text: &'a [u8],
    record: u32,
) -> Result<(), AllocError> {
    tell_record(alloc, told, File::Cells, text, record)?;
    let rows = cells_in(alloc, text)?;
    let Some(row) = rows.iter().find(|row| row.record == record) else {
        return Ok(());
    };
    let cell = row.cell;
    if let Some(earlier) = rows.iter().find(|other| other.cell == cell) {
        let name = cell_text(alloc, cell)?;
        let number = earlier.record;
        told.here = format!(in alloc; "Cell {name} stands in record {number} already.")?;
    }
    Ok(())
}

/// The station nearest to a place, but for one.
fn nearest(stations: &[toml::Value], x: i64, but: Option<i64>) -> Option<i64> {
    let mut found: Option<i64> = None;
    for station in stations {
        let station = station.as_integer().unwrap_or(0);
        let is_nearer = match found {
            Some(other) => {
                let near = station.saturating_sub(x).saturating_abs();
                let far = other.saturating_sub(x).saturating_abs();
                near < far || near == far && station < other
            }
            None => true,
        };
        if is_nearer && Some(station) != but {
            found = Some(station);
        }
    }
    found
}

/// Tells of a frame that stands at no station.
fn tell_frame(
    alloc: Global,
    told: &mut Told<'_>,
    text: &[u8],
    number: u32,
) -> Result<(), AllocError> {
    told.place = format!(in alloc; "ship.toml, frame {number}")?;
    let Some(table) = document(alloc, text)? else {
        return Ok(());
    };
    let Some(frame) = table_at(&table, "frames", number) else {
        return Ok(());
    };
    let x = number_in(frame, "x_mm");
    let stations = elements(&table, "stations_mm");
    if let Some(one) = nearest(stations, x, None) {
        if let Some(other) = nearest(stations, x, Some(one)) {
            let (low, high) = (one.min(other), one.max(other));
            told.here = format!(in alloc;
                "The frame is at x_mm = {x}; the nearest stations are {low} and {high}."
            )?;
        }
    }
    Ok(())
}

/// Tells of a block that reaches beyond the stations.
fn tell_block(
    alloc: Global,
    told: &mut Told<'_>,
    text: &[u8],
    number: u32,
) -> Result<(), AllocError> {
    told.place = format!(in alloc; "ship.toml, block {number}")?;
    let Some(table) = document(alloc, text)? else {
        return Ok(());
    };
    if let Some(block) = table_at(&table, "blocks", number) {
        let (x, half) = (number_in(block, "x_mm"), number_in(block, "half_mm"));
        tell_reach(alloc, told, &table, x, half)?;
    }
    Ok(())
}

/// Tells of a fill whose tank the ship hasn't.
fn tell_fill(
    alloc: Global,
    told: &mut Told<'_>,
    files: &ProfileBytes<'_>,
    number: u32,
) -> Result<(), AllocError> {
    told.place = format!(in alloc; "ship.toml, fill {number}")?;
    let Some(table) = document(alloc, files.ship)? else {
        return Ok(());
    };
    if let Some(fill) = table_at(&table, "fills", number) {
        let name = text_in(fill, "tank").as_bytes();
        let tanks = tanks_in(alloc, files.tanks)?;
        let words = tank_words(alloc, tanks.as_slice(), name)?;
        let name = shown_line(alloc, name)?;
        told.here = format!(in alloc; "The fill names \"{name}\"; {words}")?;
    }
    Ok(())
}

/// Tells of a fault of a record of a table.
fn tell_table<'a>(
    alloc: Global,
    told: &mut Told<'a>,
    fault: ProfileFault,
    files: &ProfileBytes<'a>,
) -> Result<(), AllocError> {
    match fault {
        ProfileFault::BadCsv(file, record) => { tell_fields(alloc, told, file, files, record) }
        ProfileFault::BadNumber(file, record) => {
            tell_number(alloc, told, file, text_of(file, files), record)
        }
        ProfileFault::OutOfLimits(file, record) => {
            tell_outside(alloc, told, file, text_of(file, files), record)
        }
        ProfileFault::NotRising(file, record) => {
            let words = if file == File::Tanks {
                ", or a tank's records don't stand together"
            } else {
                ""
            };
            name_in_what(alloc, told, "{or_tank}", words)?;
            tell_rising(alloc, told, file, text_of(file, files), record)
        }
        ProfileFault::OutsideStations(file, record) => {
            let text = text_of(file, files);
            tell_record(alloc, told, file, text, record)?;
            tell_row_reach(alloc, told, file, files, record)
        }
        ProfileFault::TooFewRows(file) => {
            told.place = format!(in alloc; "{file}")?;
            told.here = few_records(alloc, file, text_of(file, files))?;
            Ok(())
        }
        _ => Ok(()),
    }
}

/// Tells of an angle of down-flooding that is too small.
fn tell_downflooding(alloc: Global, told: &mut Told<'_>, angle: u32) -> Result<(), AllocError> {
    let angle = format!(in alloc; "{angle}")?;
    name_in_what(alloc, told, "{angle}", angle.as_str())?;
    told.place = String::from_str(alloc, "ship.toml, downflooding_deg")?;
    Ok(())
}

/// What is told of a refused profile.
pub fn told_of_profile<'a>(
    alloc: Global,
    fault: ProfileFault,
    files: &ProfileBytes<'a>,
) -> Result<Told<'a>, AllocError> {
    let mut told = Told::new(alloc, advice_on_profile(fault))?;
    let ship = files.ship;
    match fault {
        ProfileFault::BadToml => tell_document(alloc, &mut told, ship)?,
        ProfileFault::MissingKey(key) => tell_key(alloc, &mut told, ship, key, true)?,
        ProfileFault::BadKey(key) => tell_key(alloc, &mut told, ship, key, false)?,
        ProfileFault::OutOfLimits(File::Ship, _)
        | ProfileFault::NotRising(File::Ship, _)
        | ProfileFault::TooFewRows(File::Ship) => tell_ship(alloc, &mut told, fault, ship)?,
        ProfileFault::OutsideStations(File::Ship, block) => {
            tell_block(alloc, &mut told, ship, block)?
        }
        ProfileFault::DoubleCell(record) => tell_cell(alloc, &mut told, files.cells, record)?,
        ProfileFault::FrameNotStation(frame) => tell_frame(alloc, &mut told, ship, frame)?,
        ProfileFault::Downflooding(angle) => tell_downflooding(alloc, &mut told, angle)?,
        ProfileFault::UnknownTank(fill) => tell_fill(alloc, &mut told, files, fill)?,
        _ => tell_table(alloc, &mut told, fault, files)?,
    }
    Ok(told)
}
