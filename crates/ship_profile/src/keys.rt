ghost use Rattle.std.specs.Prelude.{◌≡◌, ◌≢◌, ◌≤ℤ◌, ◌≤◌, ◌^◌, pos, neg_ℤ, unsigned_abs, Ok, Err};
ghost use Rattle.std.specs.Prelude.{IfOk, IfErr, option_map};
ghost use Rattle.toml.specs.Data.{get_member};
ghost use Rattle.toml.specs.View.{view, table_view};
ghost use Rattle.ship_profile.specs.Keys.{document_in, number_of, number_in_table, length_in_table};
ghost use Rattle.ship_profile.specs.Keys.{text_in_table, table_of, number_at};

use crate::faults::{Key, ProfileFault};
use ship_tables::File;
use std::alloc::Global;
use toml::{Table, Value};
use units_core::Mm;

/// The greatest length either way, in mm.
pub const MAX_MM: i64 = 1_000_000;

/// The greatest mass, and the greatest shear force, in kg.
pub const MAX_KG: i64 = 1_000_000_000;

/// The longest `ship.toml` that is read, in bytes. One within all limits needs a twentieth of it; a
/// longer one could only be hostile, since a document takes up to a hundred times its length in
/// memory.
pub const MAX_SHIP_BYTES: usize = 1_048_576;

/// The document that the text of `ship.toml` is.
pub fn read_document(alloc: Global, text: &[u8]) -> Result<Table, ProfileFault>
    ensures ok { IfOk result (λ t. document_in text.now ≡ Ok (table_view t)) }
    ensures refused { IfErr result (λ e. e ≢ ProfileFault.NoMemory → document_in text.now ≡ Err e) }
{
    if text.len() > MAX_SHIP_BYTES {
        return Err(ProfileFault::BadToml);
    }
    match toml::table_from_slice(alloc, text) {
        Ok(table) => Ok(table),
        Err(error) if error.is_memory() => Err(ProfileFault::NoMemory),
        Err(_) => Err(ProfileFault::BadToml),
    }
}

/// The value at a name.
pub fn value_at<'a>(table: &'a Table, name: &str) -> Option<&'a Value>
    ensures { option_map (λ v. view v.now) result ≡ get_member name.now (table_view table.now) }
{
    table.get(name)
}

/// The number that a value is, within its limits; a fault names the key.
pub fn number_of(value: &Value, key: Key, low: i64, high: i64) -> Result<i64, ProfileFault>
    ensures exact { result ≡ number_of key low high (view value.now) }
    ensures within { IfOk result (λ z. (low ≤ℤ z) × (z ≤ℤ high)) }
{
    match value.as_integer() {
        None => Err(ProfileFault::BadKey(key)),
        Some(number) => {
            if low <= number && number <= high {
                Ok(number)
            } else {
                Err(ProfileFault::OutOfLimits(File::Ship, 0))
            }
        }
    }
}

/// The number at a name within its limits; a fault names the key of the table's array.
pub fn number_in_table(
    table: &Table,
    key: Key,
    name: &str,
    low: i64,
    high: i64,
) -> Result<i64, ProfileFault>
    ensures exact { result ≡ number_in_table key name.now low high (table_view table.now) }
    ensures within { IfOk result (λ z. (low ≤ℤ z) × (z ≤ℤ high)) }
{
    match value_at(table, name) {
        Some(value) => number_of(value, key, low, high),
        None => Err(ProfileFault::MissingKey(key)),
    }
}

/// The length at a name, at most 10^6 mm either way.
pub fn length_in_table(table: &Table, key: Key, name: &str) -> Result<Mm, ProfileFault>
    ensures { result ≡ length_in_table key name.now (table_view table.now) }
{
    let mm = number_in_table(table, key, name, -MAX_MM, MAX_MM)?;
    Ok(Mm::of(mm))
}

/// The text at a name; a fault names the key of the table's array.
pub fn text_in_table<'a>(table: &'a Table, key: Key, name: &str) -> Result<&'a str, ProfileFault>
    ensures ok { IfOk result (λ s. text_in_table key name.now (table_view table.now) ≡ Ok s.now) }
    ensures refused { IfErr result
        (λ e. text_in_table key name.now (table_view table.now) ≡ Err e) }
{
    let value = match value_at(table, name) {
        Some(value) => value,
        None => return Err(ProfileFault::MissingKey(key)),
    };
    match value.as_str() {
        Some(text) => Ok(text),
        None => Err(ProfileFault::BadKey(key)),
    }
}

/// The table that an element of a key's array is.
pub fn table_of(value: &Value, key: Key) -> Result<&Table, ProfileFault>
    ensures ok { IfOk result (λ t. table_of key (view value.now) ≡ Ok (table_view t.now)) }
    ensures refused { IfErr result (λ e. table_of key (view value.now) ≡ Err e) }
{
    match value.as_table() {
        Some(table) => Ok(table),
        None => Err(ProfileFault::BadKey(key)),
    }
}

/// The number at a key of the document, within its limits.
pub fn number_at(table: &Table, key: Key, low: i64, high: i64) -> Result<i64, ProfileFault>
    ensures exact { result ≡ number_at key low high (table_view table.now) }
    ensures within { IfOk result (λ z. (low ≤ℤ z) × (z ≤ℤ high)) }
{
    number_in_table(table, key, key.name(), low, high)
}

/// The length at a key of the document, within its limits, in mm.
pub fn length_at(table: &Table, key: Key, low: i64, high: i64) -> Result<Mm, ProfileFault>
    requires { (neg_ℤ (pos 1000000) ≤ℤ low) × (high ≤ℤ pos 1000000) }
    ensures exact { result ≡ number_at key low high (table_view table.now) }
    ensures within { IfOk result (λ z. (low ≤ℤ z) × (z ≤ℤ high)) }
{
    let mm = number_at(table, key, low, high)?;
    Ok(Mm::of(mm))
}
