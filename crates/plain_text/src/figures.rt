//! Numbers in print.
ghost use Rattle.std.specs.Prelude.{◌≡◌, ◌++◌, ◌/◌, ◌%◌, codes, IfOk, string_bytes, unsigned_abs};
ghost use Rattle.std.specs.Fmt.{decimal};
ghost use Rattle.plain_text.specs.Figures.{sign_of, tenths, hundredths, thousandths};
ghost use Rattle.plain_text.specs.Figures.{ten_thousandths};

use std::alloc::{AllocError, Global};

/// A minus for a number below 0, and nothing for any other: there is no `-0`.
fn sign(number: i128) -> &'static str
    ensures { result.now ≡ sign_of number }
{
    if number < 0 { "-" } else { "" }
}

/// A number of tenths, with a point: `-0.5` for -5.
pub fn in_tenths(alloc: Global, number: i128) -> Result<String, AllocError>
    ensures { IfOk result (λ t. string_bytes t ≡ tenths number) }
{
    let sign = sign(number);
    let size = number.unsigned_abs();
    let whole = size / 10;
    let tenths = size % 10;
    let text = format!(in alloc; "{sign}{whole}.{tenths}")?;
    Ok(text)
}

/// A number of hundredths.
pub fn in_hundredths(alloc: Global, number: i128) -> Result<String, AllocError>
    ensures { IfOk result (λ t. string_bytes t ≡ hundredths number) }
{
    let sign = sign(number);
    let size = number.unsigned_abs();
    let whole = size / 100;
    let tenths = size / 10 % 10;
    let hundredths = size % 10;
    let text = format!(in alloc; "{sign}{whole}.{tenths}{hundredths}")?;
    Ok(text)
}

/// A number of thousandths: of kilograms in tonnes, of millimetres in metres.
pub fn in_thousandths(alloc: Global, number: i128) -> Result<String, AllocError>
    ensures { IfOk result (λ t. string_bytes t ≡ thousandths number) }
{
    let sign = sign(number);
    let size = number.unsigned_abs();
    let whole = size / 1000;
    let tenths = size / 100 % 10;
    let hundredths = size / 10 % 10;
    let thousandths = size % 10;
    let text = format!(in alloc; "{sign}{whole}.{tenths}{hundredths}{thousandths}")?;
    Ok(text)
}

/// A number of ten-thousandths.
pub fn in_ten_thousandths(alloc: Global, number: i128) -> Result<String, AllocError>
    ensures { IfOk result (λ t. string_bytes t ≡ ten_thousandths number) }
{
    let sign = sign(number);
    let size = number.unsigned_abs();
    let whole = size / 10_000;
    let tenths = size / 1000 % 10;
    let hundredths = size / 100 % 10;
    let thousandths = size / 10 % 10;
    let last = size % 10;
    let text = format!(in alloc; "{sign}{whole}.{tenths}{hundredths}{thousandths}{last}")?;
    Ok(text)
}
