ghost use Rattle.std.specs.Prelude.{◌≡◌, ◌≢◌, ◌≤◌, [], None, length, Ok, Err, IfOk, IfErr, OnOk};
ghost use Rattle.edifact_text.specs.Views.{numbered_view};
ghost use Rattle.stow_messages.specs.Faults.{AreLifts};
ghost use Rattle.stow_messages.specs.Entries.{IsFaultOf};
ghost use Rattle.stow_messages.specs.Lifts.{handling_at, lift_of, lift_in, lifts_from};
ghost use Rattle.stow_messages.specs.Lifts.{movement_instruction, with_lift_of};
ghost use Rattle.stow_messages.specs.Views.{found_view, parts_left};

use crate::faults::{StowCode, StowFault};
use crate::groups::{Group, fault_at, has_qualifier, put};
use crate::lifts::{Handling, Lift};
use crate::parts::{Part, Parts};
use arrayvec::ArrayVec;
use edifact_text::{Kind, Segment, open};
use std::alloc::Global;
use units_core::Cell;

/// The greatest number of lifts in a movement instruction.
const MAX_LIFTS: usize = 200_000;

/// What a handling says.
fn handling_at(segment: &Segment<'_>) -> Result<Handling, StowFault>
    ensures { result ≡ handling_at (numbered_view segment.now) }
{
    if has_qualifier(segment, b"LOA") {
        Ok(Handling::Loading)
    } else if has_qualifier(segment, b"DIS") {
        Ok(Handling::Discharging)
    } else {
        Err(fault_at(StowCode::UnknownHandling, segment))
    }
}

/// The lift of a group's cell and identification under a handling, if it is one.
fn lift_of(
    group: &Group<'_>,
    cell: Cell,
    handling: Handling,
    id: ArrayVec<u8, 17>,
    mark: u8,
) -> Result<Option<Lift>, StowFault>
    ensures { result ≡ lift_of mark (found_view group.now) cell handling id }
{
    match handling {
        Handling::Loading => match group.item(cell, id, mark)? {
            Some(item) => Ok(Some(Lift::Load(item))),
            None => Ok(None),
        },
        Handling::Discharging => {
            if group.names_a_container() {
                Ok(Some(Lift::Discharge { cell, id }))
            } else {
                Ok(None)
            }
        }
    }
}

/// The lift of a group behind a handling, if there was one.
fn lift_in(
    group: &Group<'_>,
    handling: Option<Handling>,
    mark: u8,
) -> Result<Option<Lift>, StowFault>
    ensures value { result ≡ lift_in mark handling (found_view group.now) }
    ensures memory { IfErr result (λ e. e.code ≢ StowCode.NoMemory) }
{
    let cell = group.cell()?;
    let handling = match handling {
        Some(handling) => handling,
        None => return Err(fault_at(StowCode::LiftWithoutHandling, &group.location)),
    };
    let id = group.id()?;
    lift_of(group, cell, handling, id, mark)
}

/// Adds the lift of a group, if it is one.
fn add(
    lifts: &mut Vec<Lift>,
    group: &Group<'_>,
    handling: Option<Handling>,
    mark: u8,
) -> Result<(), StowFault>
    ensures ok { OnOk result (
        with_lift_of mark handling lifts.old.items (found_view group.now) ≡ Ok lifts.new.items) }
    ensures refused { IfErr result (IsFaultOf (
        with_lift_of mark handling lifts.old.items (found_view group.now))) }
    ensures memory { IfErr result (λ e. e.code ≡ StowCode.NoMemory → e.segment ≡ 0) }
{
    let lift = lift_in(group, handling, mark)?;
    put(lifts, MAX_LIFTS, &group.location, lift)
}

/// The lifts of a message's parts.
fn lifts_of(alloc: Global, parts: Parts<'_>, mark: u8) -> Result<Vec<Lift>, StowFault>
    ensures ok { IfOk result (λ lifts.
        lifts_from mark None [] (parts_left parts.entry) ≡ Ok lifts.items) }
    ensures refused { IfErr result (IsFaultOf (lifts_from mark None [] (parts_left parts.entry))) }
    ensures memory { IfErr result (λ e. e.code ≡ StowCode.NoMemory → e.segment ≡ 0) }
{
    let mut lifts = Vec::new(alloc);
    let mut handling = None;
    for part in parts {
        match part {
            Part::Handled(segment) => handling = Some(handling_at(&segment)?),
            Part::Located(group) => add(&mut lifts, &group, handling, mark)?,
        }
    }
    Ok(lifts)
}

/// The lifts of a movement instruction: the message MOVINS of directory D.95B in a text of ISO
/// 9735. A handling, `HAN+LOA` to load or `HAN+DIS` to discharge, holds for the groups behind it
/// until the next; a group is read as in a bay plan, but the values of a discharge's masses are
/// ignored. The first fault is answered, with the number of its segment; out of memory has segment
/// 0.
pub fn movins(alloc: Global, bytes: &[u8]) -> Result<Vec<Lift>, StowFault>
    ensures ok { IfOk result (λ lifts. movement_instruction bytes.now ≡ Ok lifts.items) }
    ensures refused { IfErr result (IsFaultOf (movement_instruction bytes.now)) }
    ensures memory { IfErr result (λ e. e.code ≡ StowCode.NoMemory → e.segment ≡ 0) }
    ensures meaning { IfOk result (λ lifts. AreLifts bytes.now lifts.items) }
    ensures few { IfOk result (λ lifts. length lifts.items ≤ 200000) }
{
    match open(bytes, Kind::Movins) {
        Ok(message) => lifts_of(
            alloc,
            Parts::new(message.segments(), true),
            message.decimal_mark(),
        ),
        Err(fault) => Err(StowFault::envelope(fault)),
    }
}
