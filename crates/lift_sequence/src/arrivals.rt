ghost use Rattle.std.specs.Prelude.{◌≡◌, ◌↔◌, IsTrue, ◌≤◌, ◌++◌, [], length, OnOk, IfOk, IfErr};
ghost use Rattle.std.specs.Prelude.{Some, None};
ghost use Rattle.ship_profile.specs.Record.{IsSound};
ghost use Rattle.lift_sequence.specs.Aboard.{cargo_in, nothing, with_item, container_of};
ghost use Rattle.lift_sequence.specs.Arrival.{AddUpTo, AreFilledOnce, AreLight, IsStowed, TellsAt};
ghost use Rattle.lift_sequence.specs.Arrival.{arrival_bodies, arrival_fault, cargo_on, fill_bodies};
ghost use Rattle.lift_sequence.specs.Arrival.{fills_fault, item_bodies, items_fault, on_arrival};
ghost use Rattle.lift_sequence.specs.Arrival.{with_fills, with_items};
ghost use Rattle.lift_sequence.specs.Bodies.{item_body};
ghost use Rattle.lift_sequence.specs.Legal.{Tells, stand_fault};
ghost use Rattle.lift_sequence.specs.Sequence.{IsOf};

use crate::containers::{Container, container_of};
use crate::equality::same_plan;
use crate::faults::{NO_MEMORY, SeqCode, SeqFault, fault_at};
use crate::stowage::Stowage;
use ship_profile::{Profile, TankFill};
use std::alloc::{AllocError, Global};
use std::marker::Model;
use stow_messages::Item;
use units_core::{Body, Cell, same_items};

/// The condition on arrival: the containers of the bay plan in their cells, and the fillings in
/// their tanks.
#[derive(Debug)]
pub struct Arrival {
    items: Vec<Item>,
    fills: Vec<TankFill>,
    bodies: Vec<Body>,
    /// What is aboard by cell and tank. A sequence goes on from a copy.
    stowage: Stowage,
}

impl Drop for Arrival {
    // Written out, since the crates above prove a derived one anew, field by field.
    fn drop(self) {
        let Arrival {
            items: _items,
            fills: _fills,
            bodies: _bodies,
            stowage: _stowage,
        } = self;
    }
}

impl Model for Arrival {
    ghost use Rattle.std.specs.Prelude.{◌≡◌};
    ghost use Rattle.lift_sequence.specs.Aboard.{cargo_in};
    ghost use Rattle.lift_sequence.specs.Arrival.{ArrivalRecord, IsStowed, on_arrival};

    ghost Value = { ArrivalRecord };

    ghost view = { λ a. record {
      items = a.items.items;
      fills = a.fills.items;
      bodies = a.bodies.items;
    } };

    ghost invariant = { λ a. IsStowed (record {
      items = a.items.items;
      fills = a.fills.items;
      bodies = a.bodies.items;
    }) × (cargo_in a.stowage ≡ on_arrival a.items.items a.fills.items) };
}

/// Puts an item aboard, if its cell can take it.
fn stow_item(stowage: &mut Stowage, profile: &Profile, item: &Item) -> Result<Body, SeqCode>
    ensures legal { OnOk result
        (stand_fault profile.now (cargo_in stowage.old) item.now.cell ≡ None) }
    ensures aboard { OnOk result
        (cargo_in stowage.new ≡ with_item (cargo_in stowage.old) item.now) }
    ensures body { IfOk result (λ b. item_body profile.now item.now ≡ Some b) }
    ensures refused { IfErr result
        (Tells (stand_fault profile.now (cargo_in stowage.old) item.now.cell)) }
{
    stowage.stow(profile, item.cell, container_of(item))
}

/// Puts the items aboard one after another, if each cell can take its item, and gives their bodies.
fn stow_items(
    profile: &Profile,
    stowage: &mut Stowage,
    items: &[Item],
    bodies: &mut Vec<Body>,
) -> Result<(), SeqFault>
    requires sound { IsSound profile.now }
    requires nothing { cargo_in stowage.old ≡ nothing }
    requires none { bodies.old.items ≡ [] }
    ensures legal { OnOk result (items_fault profile.now nothing 1 items.now ≡ None) }
    ensures aboard { OnOk result (cargo_in stowage.new ≡ with_items nothing items.now) }
    ensures bodies { OnOk result (bodies.new.items ≡ item_bodies profile.now items.now) }
    ensures few { OnOk result (length items.now ≤ 30000) }
    ensures refused { IfErr result (TellsAt (items_fault profile.now nothing 1 items.now)) }
    ensures memory { IfErr result (λ e. e.code ≡ SeqCode.NoMemory → e.at ≡ 0) }
{
    let mut number = 0;
    for item in items {
        number += 1;
        let body = match stow_item(stowage, profile, item) {
            Ok(body) => body,
            Err(code) => return Err(fault_at(code, number)),
        };
        if bodies.push(body).is_err() {
            return Err(NO_MEMORY);
        }
    }
    Ok(())
}

/// Puts the items aboard, where nothing is, if all cells can take them, and gives their bodies.
fn stow_bodies(
    alloc: Global,
    profile: &Profile,
    stowage: &mut Stowage,
    items: &[Item],
) -> Result<Vec<Body>, SeqFault>
    requires sound { IsSound profile.now }
    requires nothing { cargo_in stowage.old ≡ nothing }
    ensures legal { OnOk result (items_fault profile.now nothing 1 items.now ≡ None) }
    ensures aboard { OnOk result (cargo_in stowage.new ≡ with_items nothing items.now) }
    ensures bodies { IfOk result (λ b. b.items ≡ item_bodies profile.now items.now) }
    ensures few { OnOk result (length items.now ≤ 30000) }
    ensures refused { IfErr result (TellsAt (items_fault profile.now nothing 1 items.now)) }
    ensures memory { IfErr result (λ e. e.code ≡ SeqCode.NoMemory → e.at ≡ 0) }
{
    let Ok(mut bodies) = Vec::with_capacity(alloc, items.len()) else {
        return Err(NO_MEMORY);
    };
    stow_items(profile, stowage, items, &mut bodies)?;
    Ok(bodies)
}

/// The bodies of the fills, each of which its tank can hold.
fn fill_bodies(alloc: Global, profile: &Profile, fills: &[TankFill]) -> Result<Vec<Body>, SeqFault>
    requires { length fills.now ≤ 200 }
    ensures legal { OnOk result (fills_fault profile.now 1 fills.now ≡ None) }
    ensures bodies { IfOk result (λ b. b.items ≡ fill_bodies profile.now fills.now) }
    ensures refused { IfErr result (TellsAt (fills_fault profile.now 1 fills.now)) }
    ensures memory { IfErr result (λ e. e.code ≡ SeqCode.NoMemory → e.at ≡ 0) }
{
    let mut bodies = Vec::new(alloc);
    let mut number = 0;
    for fill in fills {
        number += 1;
        let Some(body) = profile.tank_item(fill.tank, fill.kg) else {
            return Err(fault_at(SeqCode::TankOver, number));
        };
        if bodies.push(body).is_err() {
            return Err(NO_MEMORY);
        }
    }
    Ok(bodies)
}

/// Three lists of bodies, one behind another.
fn join_bodies(
    alloc: Global,
    first: &[Body],
    second: &[Body],
    third: &[Body],
) -> Result<Vec<Body>, AllocError>
    ensures { IfOk result (λ b. b.items ≡ first.now ++ (second.now ++ third.now)) }
{
    let room = first.len().saturating_add(second.len());
    let mut bodies = Vec::with_capacity(alloc, room.saturating_add(third.len()))?;
    bodies.extend_from_slice(first)?;
    bodies.extend_from_slice(second)?;
    bodies.extend_from_slice(third)?;
    Ok(bodies)
}

/// No item is too heavy for a sum, since a [`units_core::Kg`] has six digits. Their masses are
/// looked at, so that this is known of them.
fn items_are_light(items: &[Item])
    ensures { AreLight items.now }
{
    for item in items {
        let _ = item.kg.get();
    }
}

impl Arrival {
    /// The condition of a ship on arrival with these items of her bay plan and these fills. The
    /// first fault is answered: item by item [`SeqCode::UnknownCell`], `CellTaken` and `Overlap`,
    /// then fill by fill `TankOver`, with the number of the item or the fill, from 1. Where no tank
    /// is filled twice, its bodies add up, in every value, to those of what is aboard.
    pub fn new(
        alloc: Global,
        profile: &Profile,
        items: Vec<Item>,
        fills: &[TankFill],
    ) -> Result<Arrival, SeqFault>
        requires { length fills.now ≤ 200 }
        ensures legal { OnOk result (arrival_fault profile.now items.items fills.now ≡ None) }
        ensures items { IfOk result (λ a. a.items ≡ items.items) }
        ensures fills { IfOk result (λ a. a.fills ≡ fills.now) }
        ensures bodies { IfOk result (λ a.
            a.bodies ≡ arrival_bodies profile.now items.items fills.now) }
        ensures of { IfOk result (λ a. IsOf profile.now a) }
        ensures sums { IfOk result (λ a. AreFilledOnce fills.now →
            AddUpTo profile.now (on_arrival items.items fills.now) a.bodies) }
        ensures refused { IfErr result (TellsAt (arrival_fault profile.now items.items fills.now)) }
        ensures memory { IfErr result (λ e. e.code ≡ SeqCode.NoMemory → e.at ≡ 0) }
    {
        let blocks = profile.blocks();
        let Ok(mut stowage) = Stowage::with_room(alloc, items.len()) else {
            return Err(NO_MEMORY);
        };
        let stowed = stow_bodies(alloc, profile, &mut stowage, &items)?;
        let filled = fill_bodies(alloc, profile, fills)?;
        let Ok(bodies) = join_bodies(alloc, blocks, &filled, &stowed) else {
            return Err(NO_MEMORY);
        };
        let Ok(()) = fill_all(&mut stowage, fills) else {
            return Err(NO_MEMORY);
        };
        let Ok(fills) = fills.to_vec(alloc) else {
            return Err(NO_MEMORY);
        };
        items_are_light(&items);
        Ok(Arrival {
            items,
            fills,
            bodies,
            stowage,
        })
    }

    /// The items of the bay plan, in their order.
    pub fn items(&self) -> &[Item]
        ensures { result.now ≡ self.now.items }
    {
        self.items.as_slice()
    }

    /// What is known of every arrival: facts, which take no time.
    pub fn facts(&self)
        ensures { IsStowed self.now }
    {
        // The invariant is known where a field is used.
        let _ = &self.items;
    }

    /// The bodies aboard: the blocks of the light ship, the fillings, the containers.
    pub fn bodies(&self) -> &[Body]
        ensures { result.now ≡ self.now.bodies }
    {
        self.bodies.as_slice()
    }

    /// Whether two conditions are equal: the items and the fills are the same in the same order,
    /// and so are the bodies that they make with the light ship. It takes no memory, and time in
    /// the number of bodies.
    pub fn same(&self, other: &Arrival) -> bool
        ensures { IsTrue result ↔ (self.now ≡ other.now) }
    {
        same_plan(&self.items, &other.items)
            && same_items(&self.fills, &other.fills)
            && same_items(&self.bodies, &other.bodies)
    }

    /// The container in a cell.
    pub(crate) fn container_in(&self, cell: Cell) -> Option<Container>
        ensures { result ≡ (cargo_on self.now).cells cell }
    {
        match self.stowage.cells.get(&cell) {
            Some(container) => Some(container.copy()),
            None => None,
        }
    }

    /// The mass in a tank, in kg.
    pub(crate) fn mass_in(&self, tank: u16) -> Option<u32>
        ensures { result ≡ (cargo_on self.now).tanks tank }
    {
        match self.stowage.tanks.get(&tank) {
            Some(kg) => Some(*kg),
            None => None,
        }
    }

    /// What is aboard, to go on from.
    pub(crate) fn stowage(&self) -> Result<Stowage, AllocError>
        ensures { IfOk result (λ s. cargo_in s ≡ cargo_on self.now) }
    {
        self.stowage.copy()
    }
}

/// Puts fills into their tanks.
fn fill_all(stowage: &mut Stowage, fills: &[TankFill]) -> Result<(), AllocError>
    ensures { OnOk result (cargo_in stowage.new ≡ with_fills (cargo_in stowage.old) fills.now) }
{
    for fill in fills {
        stowage.tanks.insert(fill.tank, fill.kg)?;
    }
    Ok(())
}
