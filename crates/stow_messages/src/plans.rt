ghost use Rattle.std.specs.Prelude.{◌≡◌, ◌≢◌, ◌≤◌, [], length, Ok, Err, IfOk, IfErr, OnOk};
ghost use Rattle.stow_messages.specs.Faults.{AreItems};
ghost use Rattle.stow_messages.specs.Entries.{IsFaultOf};
ghost use Rattle.stow_messages.specs.Items.{with_item_of, bay_plan, item_in, items_from};
ghost use Rattle.stow_messages.specs.Views.{found_view, parts_left};

use crate::faults::{StowCode, StowFault};
use crate::groups::{Group, put};
use crate::items::Item;
use crate::parts::{Part, Parts};
use edifact_text::{Kind, open};
use std::alloc::Global;

/// The greatest number of items in a bay plan.
const MAX_ITEMS: usize = 30_000;

/// The item of a group.
fn item_in(group: &Group<'_>, mark: u8) -> Result<Option<Item>, StowFault>
    ensures { result ≡ item_in mark (found_view group.now) }
{
    let cell = group.cell()?;
    let id = group.id()?;
    group.item(cell, id, mark)
}

/// Adds the item of a group, if it is one.
fn add(items: &mut Vec<Item>, group: &Group<'_>, mark: u8) -> Result<(), StowFault>
    ensures ok { OnOk result (
        with_item_of mark items.old.items (found_view group.now) ≡ Ok items.new.items) }
    ensures refused { IfErr result (IsFaultOf (
        with_item_of mark items.old.items (found_view group.now))) }
    ensures memory { IfErr result (λ e. e.code ≡ StowCode.NoMemory → e.segment ≡ 0) }
{
    let item = item_in(group, mark)?;
    put(items, MAX_ITEMS, &group.location, item)
}

/// The items of a message's parts.
fn items_of(alloc: Global, parts: Parts<'_>, mark: u8) -> Result<Vec<Item>, StowFault>
    ensures ok { IfOk result (λ items.
        items_from mark [] (parts_left parts.entry) ≡ Ok items.items) }
    ensures refused { IfErr result (IsFaultOf (items_from mark [] (parts_left parts.entry))) }
    ensures memory { IfErr result (λ e. e.code ≡ StowCode.NoMemory → e.segment ≡ 0) }
{
    let mut items = Vec::new(alloc);
    for part in parts {
        match part {
            Part::Located(group) => add(&mut items, &group, mark)?,
            Part::Handled(_) => {}
        }
    }
    Ok(items)
}

/// The items of a bay plan: the message BAPLIE of directory D.95B in a text of ISO 9735. A location
/// of a cell (`LOC+147`) begins a group; the first `EQD` behind it names the container, and the
/// first `MEA+VGM`, else the first `MEA+WT`, is its gross mass in kg. The first fault is answered,
/// with the number of its segment; out of memory has segment 0.
pub fn baplie(alloc: Global, bytes: &[u8]) -> Result<Vec<Item>, StowFault>
    ensures ok { IfOk result (λ items. bay_plan bytes.now ≡ Ok items.items) }
    ensures refused { IfErr result (IsFaultOf (bay_plan bytes.now)) }
    ensures memory { IfErr result (λ e. e.code ≡ StowCode.NoMemory → e.segment ≡ 0) }
    ensures meaning { IfOk result (λ items. AreItems bytes.now items.items) }
    ensures few { IfOk result (λ items. length items.items ≤ 30000) }
{
    match open(bytes, Kind::Baplie) {
        Ok(message) => items_of(
            alloc,
            Parts::new(message.segments(), false),
            message.decimal_mark(),
        ),
        Err(fault) => Err(StowFault::envelope(fault)),
    }
}
