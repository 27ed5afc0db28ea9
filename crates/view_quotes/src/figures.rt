//! Figures in print, and the numbers of a table's columns.
ghost use Rattle.std.specs.Prelude.{◌≡◌, ◌-◌, IfOk, length, string_bytes};
ghost use Rattle.plain_text.specs.Figures.{thousandths};
ghost use Rattle.view_quotes.specs.Printed.{number_at, tonnes_to_tenths, tonne_metres_per_cm};
ghost use Rattle.view_quotes.specs.Printed.{tonne_metres as in_tonne_metres};
ghost use Rattle.view_quotes.specs.Printed.{whole_tonnes as in_whole};

use plain_text::{in_tenths, in_thousandths};
use std::alloc::{AllocError, Global};

/// Kilograms in tonnes, with three decimals, so that none is lost.
pub fn tonnes(alloc: Global, kg: i128) -> Result<String, AllocError>
    ensures { IfOk result (λ text. string_bytes text ≡ thousandths kg) }
{
    in_thousandths(alloc, kg)
}

/// Kilograms in tonnes with one decimal, rounded down.
pub fn tenths_of_tonnes(alloc: Global, kg: i128) -> Result<String, AllocError>
    ensures { IfOk result (λ text. string_bytes text ≡ tonnes_to_tenths kg) }
{
    in_tenths(alloc, kg.div_euclid(100))
}

/// Kilograms in whole tonnes, rounded down.
pub fn whole_tonnes(alloc: Global, kg: i128) -> Result<String, AllocError>
    ensures { IfOk result (λ text. string_bytes text ≡ in_whole kg) }
{
    let tonnes = kg.div_euclid(1_000);
    Ok(format!(in alloc; "{tonnes}")?)
}

/// Millimetres in metres, with three decimals, so that none is lost.
pub fn metres(alloc: Global, mm: i128) -> Result<String, AllocError>
    ensures { IfOk result (λ text. string_bytes text ≡ thousandths mm) }
{
    in_thousandths(alloc, mm)
}

/// Moments in kg mm in tonne metres with one decimal, rounded down.
pub fn tonne_metres(alloc: Global, moment: i128) -> Result<String, AllocError>
    ensures { IfOk result (λ text. string_bytes text ≡ in_tonne_metres moment) }
{
    in_tenths(alloc, moment.div_euclid(100_000))
}

/// A moment in kg mm per mm of trim in tonne metres per centimetre, with one decimal, rounded down.
pub fn trimming_moment(alloc: Global, moment: i128) -> Result<String, AllocError>
    ensures { IfOk result (λ text. string_bytes text ≡ tonne_metres_per_cm moment) }
{
    in_tenths(alloc, moment.div_euclid(10_000))
}

/// A number of a table at a place; 0 where there is none.
pub fn column_number(numbers: &[i128], place: usize) -> i128
    ensures { result ≡ number_at numbers.now place }
{
    match numbers.get(place) {
        Some(number) => *number,
        None => 0,
    }
}

/// The first and the last number of a table.
pub fn column_ends(numbers: &[i128]) -> (i128, i128)
    ensures first { result.0 ≡ number_at numbers.now 0 }
    ensures last { result.1 ≡ number_at numbers.now (length numbers.now - 1) }
{
    (
        column_number(numbers, 0),
        column_number(numbers, numbers.len().saturating_sub(1)),
    )
}
