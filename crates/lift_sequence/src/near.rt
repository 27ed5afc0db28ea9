//! What is aboard after some steps, as far as one more step is judged by it. It is found from the
//! last step backward, so that nothing else aboard is looked at.
ghost use Rattle.std.specs.Prelude.{◌≡◌, ◌⊎◌, ◌<◌, ◌≤◌, ℕ, OnOk, IfOk, None, Some, true};
ghost use Rattle.ship_profile.specs.Record.{ProfileRecord, tank_of};
ghost use Rattle.units_core.specs.Cells.{meet};
ghost use Rattle.units_core.specs.declared.cells.Cell.{Cell as CellRecord};
ghost use Rattle.lift_sequence.specs.Aboard.{Aboard, after_all, after_step, cargo_in, with_cell};
ghost use Rattle.lift_sequence.specs.Arrival.{cargo_on};
ghost use Rattle.lift_sequence.specs.Legal.{in_bay};
ghost use Rattle.lift_sequence.specs.Singles.{AreAlikeAt, AreAlikeFor, IsPart, left_in, mass_in};

use crate::arrivals::Arrival;
use crate::containers::{Container, container_of};
use crate::operations::{Op, same_cell};
use crate::stowage::{BAYS, Stowage, in_bay};
use ship_profile::Profile;
use std::alloc::{AllocError, Global};
use stow_messages::Lift;
use units_core::{Cell, conflicts};

/// What is in a cell after a step.
enum Left {
    /// This container, or none.
    Is(Option<Container>),
    /// What was in this cell before the step.
    WasIn(Cell),
}

/// What a step leaves in a cell.
fn left_in(op: &Op, cell: Cell) -> Left
    ensures { (ship : ProfileRecord) (at : Aboard) →
        left_in at result ≡ (after_step ship at op.now).cells cell }
{
    match op {
        Op::Lift(Lift::Load(item)) if same_cell(item.cell, cell) => {
            Left::Is(Some(container_of(item)))
        }
        Op::Lift(Lift::Discharge { cell: from, .. }) if same_cell(*from, cell) => Left::Is(None),
        Op::Restow { from, to, .. } if same_cell(*to, cell) => Left::WasIn(*from),
        Op::Restow { from, .. } if same_cell(*from, cell) => Left::Is(None),
        _ => Left::WasIn(cell),
    }
}

/// The container that is in a cell after some steps from an arrival on.
fn container_after(arrival: &Arrival, ops: &[Op], cell: Cell) -> Option<Container>
    ensures { (ship : ProfileRecord) →
        result ≡ (after_all ship (cargo_on arrival.now) ops.now).cells cell }
{
    let mut cell = cell;
    let mut place = ops.len();
    while 0 < place {
        place -= 1;
        match left_in(&ops[place], cell) {
            Left::Is(container) => return container,
            Left::WasIn(before) => cell = before,
        }
    }
    arrival.container_in(cell)
}

/// The mass to which a step fills the tank of a name.
fn mass_in(op: &Op, name: &[u8]) -> Option<u32>
    ensures { result ≡ mass_in op.now name.now }
{
    match op {
        Op::Fill { name: other, kg } if other.as_slice() == name => Some(*kg),
        _ => None,
    }
}

/// What a tank holds after some steps from an arrival on.
fn mass_after(arrival: &Arrival, ops: &[Op], name: &[u8], tank: u16) -> Option<u32>
    ensures { (ship : ProfileRecord) → tank_of ship name.now ≡ Some tank →
        result ≡ (after_all ship (cargo_on arrival.now) ops.now).tanks tank }
{
    let mut place = ops.len();
    while 0 < place {
        place -= 1;
        if let Some(kg) = mass_in(&ops[place], name) {
            return Some(kg);
        }
    }
    arrival.mass_in(tank)
}

/// Adds to a part of what is aboard after some steps what is in a cell then. The contract alone
/// speaks of `profile`.
fn add_cell(
    part: &mut Stowage,
    profile: &Profile,
    arrival: &Arrival,
    ops: &[Op],
    cell: Cell,
) -> Result<(), AllocError>
    requires { IsPart (cargo_in part.old)
        (after_all profile.now (cargo_on arrival.now) ops.now) }
    ensures part { OnOk result (IsPart (cargo_in part.new)
        (after_all profile.now (cargo_on arrival.now) ops.now)) }
    ensures here { OnOk result ((cargo_in part.new).cells cell
        ≡ (after_all profile.now (cargo_on arrival.now) ops.now).cells cell) }
    ensures kept { OnOk result ((other : CellRecord) →
        (cargo_in part.old).cells other
        ≡ (after_all profile.now (cargo_on arrival.now) ops.now).cells other →
        (cargo_in part.new).cells other
        ≡ (after_all profile.now (cargo_on arrival.now) ops.now).cells other) }
{
    if let Some(container) = container_after(arrival, ops, cell) {
        part.cells.insert(cell, container)?;
    }
    Ok(())
}

/// The same with the cells that overlap it, of bays of three digits.
fn add_around(
    part: &mut Stowage,
    profile: &Profile,
    arrival: &Arrival,
    ops: &[Op],
    cell: Cell,
) -> Result<(), AllocError>
    requires { IsPart (cargo_in part.old)
        (after_all profile.now (cargo_on arrival.now) ops.now) }
    ensures alike { OnOk result (AreAlikeAt cell (cargo_in part.new)
        (after_all profile.now (cargo_on arrival.now) ops.now)) }
    ensures kept { OnOk result ((other : CellRecord) →
        (cargo_in part.old).cells other
        ≡ (after_all profile.now (cargo_on arrival.now) ops.now).cells other →
        (cargo_in part.new).cells other
        ≡ (after_all profile.now (cargo_on arrival.now) ops.now).cells other) }
{
    add_cell(part, profile, arrival, ops, cell)?;
    let first = cell.bay.saturating_sub(2);
    let end = cell.bay.saturating_add(3).min(BAYS);
    for bay in first..end {
        let other = in_bay(cell, bay);
        if conflicts(other, cell) {
            add_cell(part, profile, arrival, ops, other)?;
        }
    }
    Ok(())
}

/// Adds to a part of what is aboard after some steps what is in the tank of a name then.
fn add_tank(
    part: &mut Stowage,
    profile: &Profile,
    arrival: &Arrival,
    ops: &[Op],
    name: &[u8],
) -> Result<(), AllocError>
    requires { (tank : ℕ) → (cargo_in part.old).tanks tank ≡ None }
    ensures { OnOk result ((tank : ℕ) → tank_of profile.now name.now ≡ Some tank →
        (cargo_in part.new).tanks tank
        ≡ (after_all profile.now (cargo_on arrival.now) ops.now).tanks tank) }
{
    let Some(tank) = profile.tank(name) else {
        return Ok(());
    };
    if let Some(kg) = mass_after(arrival, ops, name, tank) {
        part.tanks.insert(tank, kg)?;
    }
    Ok(())
}

/// What is aboard after some steps from an arrival on, as far as one more step is judged by it.
pub(crate) fn part_for(
    alloc: Global,
    profile: &Profile,
    arrival: &Arrival,
    ops: &[Op],
    op: &Op,
) -> Result<Stowage, AllocError>
    ensures { IfOk result (λ part. AreAlikeFor profile.now op.now (cargo_in part)
        (after_all profile.now (cargo_on arrival.now) ops.now)) }
{
    let mut part = Stowage::with_room(alloc, 0)?;
    match op {
        Op::Lift(Lift::Load(item)) => {
            add_around(&mut part, profile, arrival, ops, item.cell)?;
        }
        Op::Lift(Lift::Discharge { cell, .. }) => {
            add_cell(&mut part, profile, arrival, ops, *cell)?;
        }
        Op::Fill { name, .. } => {
            add_tank(&mut part, profile, arrival, ops, name.as_slice())?;
        }
        Op::Restow { from, to, .. } => {
            add_cell(&mut part, profile, arrival, ops, *from)?;
            add_around(&mut part, profile, arrival, ops, *to)?;
        }
    }
    Ok(part)
}
