//! The tanks of a ship, as the records of her tanks.csv have them.
use csv::ByteRecord;
use csv_text::{next_record, open_records};
use plain_text::shown_line;
use std::alloc::{AllocError, Global};
use view_quotes::{field, number_at};

/// A record of a tank: the mass of its filling in kg, where its centre is and half of its length in
/// mm, and its free surface moment in kg mm.
#[derive(Clone, Copy, Debug)]
pub struct Filling {
    pub kg: i64,
    pub x: i64,
    pub y: i64,
    pub z: i64,
    pub half: i64,
    pub surface: i64,
}

/// A tank with its records.
#[derive(Debug, Drop)]
pub struct TankRows {
    pub name: Vec<u8>,
    /// The number of its first record, the heading being 1.
    pub record: u32,
    pub rows: Vec<Filling>,
}

impl TankRows {
    /// Its name on one line.
    pub fn name_line(&self, alloc: Global) -> Result<String, AllocError> {
        shown_line(alloc, self.name.as_slice())
    }

    /// The least and the greatest mass of its records, in kg.
    pub fn reach(&self) -> (i64, i64) {
        match (self.rows.first(), self.rows.last()) {
            (Some(first), Some(last)) => (first.kg, last.kg),
            _ => (0, 0),
        }
    }
}

/// The filling of a record.
fn filling_of(fields: &ByteRecord) -> Filling {
    Filling {
        kg: number_at(fields, 1),
        x: number_at(fields, 2),
        y: number_at(fields, 3),
        z: number_at(fields, 4),
        half: number_at(fields, 5),
        surface: number_at(fields, 6),
    }
}

/// Adds a record to its tank, which is the last one or begins.
fn add(
    alloc: Global,
    tanks: &mut Vec<TankRows>,
    fields: &ByteRecord,
    record: u32,
) -> Result<(), AllocError> {
    let name = field(fields, 0);
    let filling = filling_of(fields);
    if let Some(tank) = tanks.last_mut() {
        if tank.name.as_slice() == name {
            tank.rows.push(filling)?;
            return Ok(());
        }
    }
    let mut rows = Vec::new(alloc);
    rows.push(filling)?;
    tanks.push(TankRows {
        name: Vec::from_slice(alloc, name)?,
        record,
        rows,
    })?;
    Ok(())
}

/// The tanks of a table, in the order of their records. Records of a tank stand together.
pub fn tanks_in(alloc: Global, text: &[u8]) -> Result<Vec<TankRows>, AllocError> {
    let mut tanks = Vec::new(alloc);
    let mut reader = open_records(alloc, text);
    let mut fields = ByteRecord::new(alloc);
    let mut record = 0u32;
    for _ in 0..text.len() {
        if !next_record(&mut reader, &mut fields)? {
            break;
        }
        record = record.saturating_add(1);
        if record > 1 {
            add(alloc, &mut tanks, &fields, record)?;
        }
    }
    Ok(tanks)
}
