ghost use Rattle.std.specs.Prelude.{◌≡◌, ℕ, IfOk};
ghost use Rattle.csv.specs.Records.{fields_of};
ghost use Rattle.std.specs.Str.{bytes_eq};
ghost use Rattle.stow_messages.specs.Steps.{within, text_of, lift_number, lift_row, tank_row};
ghost use Rattle.stow_messages.specs.Steps.{restow_row, row_by, row_of};
ghost use Rattle.stow_messages.specs.StepsSoFar.{IsWithin};

use crate::items::copy_text;
use crate::step_faults::StepsCode;
use arrayvec::ArrayVec;
use csv::ByteRecord;
use csv_text::{number, text_at};
use units_core::Cell;

/// The number of fields of a record, the heading among them.
pub const FIELDS: usize = 4;

/// The greatest mass that a tank is filled with, in kg.
const MAX_TANK_KG: u32 = 1_000_000_000;

/// A step of the loading.
#[derive(Debug, Drop, PartialEq, Eq)]
pub enum StepRow {
    /// The lift of this number in the movement instruction, the first being 1.
    Lift(u32),
    /// From now on the tank of this name, of 1 to 16 bytes, holds this mass, in kg, at most 10^9.
    Tank {
        name: ArrayVec<u8, 16>,
        kg: u32,
    },
    /// The container in the cell `from` is put into the cell `to`. An empty identification fits any
    /// container.
    Restow {
        from: Cell,
        to: Cell,
        id: ArrayVec<u8, 17>,
    },
}

impl StepRow {
    /// An equal row.
    pub fn copy(&self) -> StepRow
        ensures { result ≡ self.now }
    {
        match self {
            StepRow::Lift(number) => StepRow::Lift(*number),
            StepRow::Tank { name, kg } => StepRow::Tank {
                name: copy_text(name),
                kg: *kg,
            },
            StepRow::Restow { from, to, id } => StepRow::Restow {
                from: *from,
                to: *to,
                id: copy_text(id),
            },
        }
    }
}

/// The number, where it is from `low` to `high`.
fn within(low: u32, high: u32, number: i64) -> Option<u32>
    ensures { result ≡ within low high number }
{
    if i64::from(low) <= number && number <= i64::from(high) {
        Some(number as u32)
    } else {
        None
    }
}

/// The text, unchanged, where it has `least` to `MOST` bytes.
fn text_of<const MOST: usize>(least: usize, text: &[u8]) -> Option<ArrayVec<u8, MOST>>
    ensures { result ≡ text_of least MOST text.now }
{
    let mut copy = ArrayVec::new();
    if text.len() < least || copy.try_extend_from_slice(text).is_err() {
        return None;
    }
    Some(copy)
}

/// The number of a lift's record.
fn lift_number(first: &[u8], second: &[u8], third: &[u8]) -> Option<i64>
    ensures { result ≡ lift_number first.now second.now third.now }
{
    if second.is_empty() && third.is_empty() {
        number(first)
    } else {
        None
    }
}

/// The row of a lift's number, which is one of the lifts.
fn lift_row(lifts: u32, number: Option<i64>) -> Result<StepRow, StepsCode>
    ensures value { result ≡ lift_row lifts number }
    ensures within { IfOk result (λ row. IsWithin lifts row) }
{
    let number = match number {
        Some(number) => number,
        None => return Err(StepsCode::BadField),
    };
    match within(1, lifts, number) {
        Some(lift) => Ok(StepRow::Lift(lift)),
        None => Err(StepsCode::NoLift),
    }
}

/// The row of a tank's record.
fn tank_row(first: &[u8], second: &[u8], third: &[u8]) -> Result<StepRow, StepsCode>
    ensures value { result ≡ tank_row first.now second.now third.now }
    ensures within { (lifts : ℕ) → IfOk result (λ row. IsWithin lifts row) }
{
    let kg = match number(second) {
        Some(number) => within(0, MAX_TANK_KG, number),
        None => None,
    };
    match (text_of::<16>(1, first), kg, third.is_empty()) {
        (Some(name), Some(kg), true) => Ok(StepRow::Tank { name, kg }),
        _ => Err(StepsCode::BadField),
    }
}

/// The row of a restow's record.
fn restow_row(first: &[u8], second: &[u8], third: &[u8]) -> Result<StepRow, StepsCode>
    ensures value { result ≡ restow_row first.now second.now third.now }
    ensures within { (lifts : ℕ) → IfOk result (λ row. IsWithin lifts row) }
{
    match (
        Cell::read(first),
        Cell::read(second),
        text_of::<17>(0, third),
    ) {
        (Some(from), Some(to), Some(id)) => Ok(StepRow::Restow { from, to, id }),
        _ => Err(StepsCode::BadField),
    }
}

/// The text is this word.
#[tactic(auto, using(crate::proofs::Texts::told))]
fn is(text: &[u8], word: &[u8]) -> bool
    ensures { result ≡ bytes_eq text.now word.now }
{
    text == word
}

/// The row of a record's four fields, the kind first.
fn row_by(
    lifts: u32,
    kind: &[u8],
    first: &[u8],
    second: &[u8],
    third: &[u8],
) -> Result<StepRow, StepsCode>
    ensures value { result ≡ row_by lifts kind.now first.now second.now third.now }
    ensures within { IfOk result (λ row. IsWithin lifts row) }
{
    if is(kind, b"lift") {
        lift_row(lifts, lift_number(first, second, third))
    } else if is(kind, b"tank") {
        tank_row(first, second, third)
    } else if is(kind, b"restow") {
        restow_row(first, second, third)
    } else {
        Err(StepsCode::BadKind)
    }
}

/// The row of a record, where this number of lifts are to be done.
pub fn row_of(lifts: u32, fields: &ByteRecord) -> Result<StepRow, StepsCode>
    ensures value { result ≡ row_of lifts (fields_of fields.now) }
    ensures within { IfOk result (λ row. IsWithin lifts row) }
{
    if fields.len() != FIELDS {
        return Err(StepsCode::BadCsv);
    }
    row_by(
        lifts,
        text_at(fields, 0),
        text_at(fields, 1),
        text_at(fields, 2),
        text_at(fields, 3),
    )
}
