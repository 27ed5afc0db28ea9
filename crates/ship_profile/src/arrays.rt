ghost use Rattle.std.specs.Prelude.{◌≡◌, ◌≢◌, ◌<◌, ◌≤◌, length, List, [], Ok, Err, IfOk, IfErr};
ghost use Rattle.std.specs.Prelude.{Result};
ghost use Rattle.toml.specs.Data.{Data};
ghost use Rattle.toml.specs.View.{view, items_view, table_view};
ghost use Rattle.ship_profile.specs.Keys.{items_in, elements_of, elements_at};
ghost use Rattle.ship_profile.specs.Outcome.{one_by_one};
ghost use Rattle.ship_profile.specs.declared.faults.ProfileFault.{ProfileFault as Fault};

use crate::faults::{Key, ProfileFault};
use crate::keys::value_at;
use ship_tables::File;
use std::alloc::Global;
use toml::{Table, Value};

/// How the elements of a key's array are read.
pub trait Element {
    /// What an element stands for.
    type Item: Drop;

    ghost next: { Self → List Self.Item → Data → Result Self.Item Fault };

    /// What a value stands for after those before it.
    fn read(
        &self,
        alloc: Global,
        before: &[Self::Item],
        value: &Value,
    ) -> Result<Self::Item, ProfileFault>
        requires { length before.now < 200 }
        ensures ok { IfOk result (λ x. next self.now before.now (view value.now) ≡ Ok x) }
        ensures refused { IfErr result
            (λ e. e ≢ ProfileFault.NoMemory → next self.now before.now (view value.now) ≡ Err e) };
}

/// What each value stands for.
fn read_each<E: Element>(
    alloc: Global,
    element: &E,
    values: &[Value],
) -> Result<Vec<E::Item>, ProfileFault>
    requires { length values.now ≤ 200 }
    ensures ok { IfOk result
        (λ v. one_by_one (E.next element.now) [] (items_in (items_view values.now)) ≡ Ok v.items) }
    ensures refused { IfErr result (λ e. e ≢ ProfileFault.NoMemory
        → one_by_one (E.next element.now) [] (items_in (items_view values.now)) ≡ Err e) }
{
    let mut items = Vec::new(alloc);
    for value in values {
        let item = element.read(alloc, items.as_slice(), value)?;
        items.push(item)?;
    }
    Ok(items)
}

/// The elements of a key's array.
pub fn read_elements<E: Element>(
    alloc: Global,
    element: &E,
    key: Key,
    least: usize,
    most: usize,
    value: &Value,
) -> Result<Vec<E::Item>, ProfileFault>
    requires { most ≤ 200 }
    ensures ok { IfOk result
        (λ v. elements_of key least most (E.next element.now) (view value.now) ≡ Ok v.items) }
    ensures refused { IfErr result (λ e. e ≢ ProfileFault.NoMemory
        → elements_of key least most (E.next element.now) (view value.now) ≡ Err e) }
{
    let array = match value.as_array() {
        Some(array) => array,
        None => return Err(ProfileFault::BadKey(key)),
    };
    if array.len() > most {
        return Err(ProfileFault::OutOfLimits(File::Ship, 0));
    }
    let items = read_each(alloc, element, array.as_slice())?;
    if items.len() < least {
        return Err(ProfileFault::TooFewRows(File::Ship));
    }
    Ok(items)
}

/// The elements of the array at a key of the document.
pub fn elements_at<E: Element>(
    alloc: Global,
    element: &E,
    key: Key,
    least: usize,
    most: usize,
    table: &Table,
) -> Result<Vec<E::Item>, ProfileFault>
    requires { most ≤ 200 }
    ensures ok { IfOk result
        (λ v. elements_at key least most (E.next element.now) (table_view table.now) ≡ Ok v.items) }
    ensures refused { IfErr result (λ e. e ≢ ProfileFault.NoMemory
        → elements_at key least most (E.next element.now) (table_view table.now) ≡ Err e) }
{
    match value_at(table, key.name()) {
        Some(value) => read_elements(alloc, element, key, least, most, value),
        None => Err(ProfileFault::MissingKey(key)),
    }
}
