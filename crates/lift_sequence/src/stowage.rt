ghost use Rattle.std.specs.Prelude.{◌≡◌, ◌<◌, ◌≤◌, false, OnOk, OnErr, IfOk, IfErr, Some, None};
ghost use Rattle.std.specs.Prelude.{pos};
ghost use Rattle.std.specs.Option.{is_some};
ghost use Rattle.indexmap.specs.IndexMap.{spare};
ghost use Rattle.ship_profile.specs.Record.{place_of, tank_of};
ghost use Rattle.lift_sequence.specs.Aboard.{after_step, cargo_in, nothing, with_cell, with_restow};
ghost use Rattle.lift_sequence.specs.Aboard.{with_tank};
ghost use Rattle.lift_sequence.specs.Bodies.{body_of, body_in, cell_body, filling_step};
ghost use Rattle.lift_sequence.specs.Bodies.{restow_step, step_of};
ghost use Rattle.lift_sequence.specs.Legal.{Tells, fault_of, fill_fault, in_bay, is_rival, overlap};
ghost use Rattle.lift_sequence.specs.Legal.{restow_fault, stand_fault, take_fault};

use crate::containers::{Container, container_of, differ};
use crate::faults::SeqCode;
use crate::hashing::CellHasher;
use crate::operations::Op;
use indexmap::IndexMap;
use ship_profile::Profile;
use std::alloc::{AllocError, Global};
use std::hash::BuildHasherDefault;
use stow_messages::Lift;
use units_core::{Body, Cell, Kg, Place, Step, conflicts};

/// What is aboard: the container in each cell, and the mass in each tank.
#[derive(Debug, Drop)]
pub(crate) struct Stowage {
    pub(crate) cells: IndexMap<Cell, Container, BuildHasherDefault<CellHasher>>,
    pub(crate) tanks: IndexMap<u16, u32>,
}

/// Bays have three digits.
pub(crate) const BAYS: u16 = 1_000;

/// The cell of another bay, of the same row and tier.
pub(crate) fn in_bay(cell: Cell, bay: u16) -> Cell
    ensures { result ≡ in_bay cell bay }
{
    Cell {
        bay,
        row: cell.row,
        tier: cell.tier,
    }
}

/// A container at its cell's place. It has no free surface.
fn body_of(place: Place, kg: Kg) -> Body
    ensures { result ≡ record { kg = kg; place = place; fsm = pos 0 } }
{
    Body::new(kg.get(), place, 0).unwrap()
}

impl Stowage {
    /// Nothing is aboard, and there is room for this number of containers.
    pub(crate) fn with_room(alloc: Global, containers: usize) -> Result<Stowage, AllocError>
        ensures { IfOk result (λ s. cargo_in s ≡ nothing) }
    {
        let hasher = BuildHasherDefault::new();
        let cells = IndexMap::with_capacity_and_hasher(alloc, containers, hasher)?;
        Ok(Stowage {
            cells,
            tanks: IndexMap::new(alloc),
        })
    }

    /// The same once more.
    pub(crate) fn copy(&self) -> Result<Stowage, AllocError>
        ensures { IfOk result (λ s. cargo_in s ≡ cargo_in self.now) }
    {
        Ok(Stowage {
            cells: self.cells.clone()?,
            tanks: self.tanks.clone()?,
        })
    }

    /// Whether a container is in a cell.
    #[inline(always)]
    fn is_taken(&self, cell: Cell) -> bool
        ensures { result ≡ is_some ((cargo_in self.now).cells cell) }
    {
        self.cells.contains_key(&cell)
    }

    /// Whether the cell in that bay is occupied and overlaps this one.
    fn is_rival(&self, cell: Cell, bay: u16) -> bool
        ensures { result ≡ is_rival (cargo_in self.now).cells cell bay }
    {
        let other = in_bay(cell, bay);
        conflicts(other, cell) && self.is_taken(other)
    }

    /// The occupied cell that overlaps a free cell, the one of least bay; no bay more than two away
    /// can overlap.
    fn overlap(&self, cell: Cell) -> Option<Cell>
        ensures { is_some ((cargo_in self.now).cells cell) ≡ false
            → result ≡ overlap (cargo_in self.now).cells cell }
    {
        let first = cell.bay.saturating_sub(2);
        let end = cell.bay.saturating_add(3).min(BAYS);
        for bay in first..end {
            // the cell itself is free
            if bay != cell.bay && self.is_rival(cell, bay) {
                return Some(in_bay(cell, bay));
            }
        }
        None
    }

    /// The place of a cell into which a container can be put, or why none can.
    fn free_place(&self, profile: &Profile, cell: Cell) -> Result<Place, SeqCode>
        ensures place { IfOk result (λ p. place_of profile.now cell ≡ Some p) }
        ensures legal { OnOk result (stand_fault profile.now (cargo_in self.now) cell ≡ None) }
        ensures refused { IfErr result (λ e.
            stand_fault profile.now (cargo_in self.now) cell ≡ Some e) }
    {
        let Some(place) = profile.cell(cell) else {
            return Err(SeqCode::UnknownCell);
        };
        if self.is_taken(cell) {
            return Err(SeqCode::CellTaken);
        }
        match self.overlap(cell) {
            Some(rival) => Err(SeqCode::Overlap(rival)),
            None => Ok(place),
        }
    }

    /// Puts a container into a cell, and gives its body. Where that is impossible, nothing changes.
    pub(crate) fn stow(
        &mut self,
        profile: &Profile,
        cell: Cell,
        container: Container,
    ) -> Result<Body, SeqCode>
        ensures legal { OnOk result (stand_fault profile.now (cargo_in self.old) cell ≡ None) }
        ensures aboard { OnOk result
            (cargo_in self.new ≡ with_cell (cargo_in self.old) cell (Some container)) }
        ensures body { IfOk result (λ b.
            body_in (place_of profile.now cell) (Some container) ≡ Some b) }
        ensures refused { IfErr result (Tells (stand_fault profile.now (cargo_in self.old) cell)) }
        ensures same { OnErr result (cargo_in self.new ≡ cargo_in self.old) }
    {
        let place = self.free_place(profile, cell)?;
        let body = body_of(place, container.kg);
        match self.cells.insert(cell, container) {
            Ok(_) => Ok(body),
            Err(_) => Err(SeqCode::NoMemory),
        }
    }

    /// Reserves room in the table for one container more, so that the next one needs no memory.
    fn make_room(&mut self) -> Result<(), SeqCode>
        ensures same { cargo_in self.new ≡ cargo_in self.old }
        ensures room { OnOk result (0 < spare self.new.cells) }
        ensures memory { IfErr result (λ e. e ≡ SeqCode.NoMemory) }
    {
        match self.cells.reserve(1) {
            Ok(()) => Ok(()),
            Err(_) => Err(SeqCode::NoMemory),
        }
    }

    /// Puts a container into a cell, where the table has room.
    fn put(&mut self, cell: Cell, container: Container)
        requires { 0 < spare self.old.cells }
        ensures { cargo_in self.new ≡ with_cell (cargo_in self.old) cell (Some container) }
    {
        match self.cells.insert(cell, container) {
            Ok(_) => {}
            Err(_) => unreachable!(),
        }
    }

    /// Takes the container of this identification out of a cell, and gives it with its body. Where
    /// that is impossible, nothing changes.
    fn take(
        &mut self,
        profile: &Profile,
        cell: Cell,
        id: &[u8],
    ) -> Result<(Body, Container), SeqCode>
        ensures legal { OnOk result
            (take_fault profile.now (cargo_in self.old) cell id.now ≡ None) }
        ensures aboard { OnOk result (cargo_in self.new ≡ with_cell (cargo_in self.old) cell None) }
        ensures container { IfOk result (λ r. (cargo_in self.old).cells cell ≡ Some r.1) }
        ensures body { IfOk result (λ r.
            cell_body profile.now (cargo_in self.old) cell ≡ Some r.0) }
        ensures refused { IfErr result (λ e.
            take_fault profile.now (cargo_in self.old) cell id.now ≡ Some e) }
        ensures same { OnErr result (cargo_in self.new ≡ cargo_in self.old) }
        ensures room { spare self.old.cells ≤ spare self.new.cells }
    {
        let Some(place) = profile.cell(cell) else {
            return Err(SeqCode::UnknownCell);
        };
        let Some((index, _, container)) = self.cells.get_full(&cell) else {
            return Err(SeqCode::CellEmpty);
        };
        if differ(id, container.id.as_slice()) {
            return Err(SeqCode::WrongContainer);
        }
        // by its index, without a second search
        let (_, container) = self.cells.swap_remove_index(index).unwrap();
        Ok((body_of(place, container.kg), container))
    }

    /// Fills a tank to a mass. Where that is impossible, nothing changes.
    fn fill(&mut self, profile: &Profile, name: &[u8], kg: u32) -> Result<Step, SeqCode>
        ensures legal { OnOk result
            (fill_fault profile.now (tank_of profile.now name.now) kg ≡ None) }
        ensures aboard { OnOk result
            (cargo_in self.new ≡ with_tank (cargo_in self.old) (tank_of profile.now name.now) kg) }
        ensures step { IfOk result (λ s. s
            ≡ filling_step profile.now (cargo_in self.old) (tank_of profile.now name.now) kg) }
        ensures refused { IfErr result
            (Tells (fill_fault profile.now (tank_of profile.now name.now) kg)) }
        ensures same { OnErr result (cargo_in self.new ≡ cargo_in self.old) }
    {
        let Some(tank) = profile.tank(name) else {
            return Err(SeqCode::UnknownTank);
        };
        let Some(put) = profile.tank_item(tank, kg) else {
            return Err(SeqCode::TankOver);
        };
        let Ok(before) = self.tanks.insert(tank, kg) else {
            return Err(SeqCode::NoMemory);
        };
        let out = match before {
            Some(before) => profile.tank_item(tank, before),
            None => None,
        };
        Ok(Step {
            out,
            put: Some(put),
        })
    }

    /// Moves a container from one cell to another. If the other cell can't take it, it is put back,
    /// and nothing changes.
    fn restow(
        &mut self,
        profile: &Profile,
        from: Cell,
        to: Cell,
        id: &[u8],
    ) -> Result<Step, SeqCode>
        ensures legal { OnOk result
            (restow_fault profile.now (cargo_in self.old) from to id.now ≡ None) }
        ensures aboard { OnOk result (cargo_in self.new ≡ with_restow (cargo_in self.old) from to) }
        ensures step { IfOk result (λ s.
            s ≡ restow_step profile.now (cargo_in self.old) from to) }
        ensures refused { IfErr result
            (Tells (restow_fault profile.now (cargo_in self.old) from to id.now)) }
        ensures same { OnErr result (cargo_in self.new ≡ cargo_in self.old) }
    {
        // reserve first: after the container is taken out nothing may fail
        self.make_room()?;
        let (out, container) = self.take(profile, from, id)?;
        match self.free_place(profile, to) {
            Ok(place) => {
                let put = body_of(place, container.kg);
                self.put(to, container);
                Ok(Step {
                    out: Some(out),
                    put: Some(put),
                })
            }
            Err(code) => {
                self.put(from, container);
                Err(code)
            }
        }
    }

    /// Does one step, and gives the bodies that it takes out and puts in; or why it can't be done,
    /// and then nothing changes.
    pub(crate) fn make(&mut self, profile: &Profile, op: &Op) -> Result<Step, SeqCode>
        ensures legal { OnOk result (fault_of profile.now (cargo_in self.old) op.now ≡ None) }
        ensures aboard { OnOk result
            (cargo_in self.new ≡ after_step profile.now (cargo_in self.old) op.now) }
        ensures step { IfOk result (λ s. s ≡ step_of profile.now (cargo_in self.old) op.now) }
        ensures refused { IfErr result (Tells (fault_of profile.now (cargo_in self.old) op.now)) }
        ensures same { OnErr result (cargo_in self.new ≡ cargo_in self.old) }
    {
        match op {
            Op::Lift(Lift::Load(item)) => {
                let put = self.stow(profile, item.cell, container_of(item))?;
                Ok(Step {
                    out: None,
                    put: Some(put),
                })
            }
            Op::Lift(Lift::Discharge { cell, id }) => {
                let (out, _) = self.take(profile, *cell, id.as_slice())?;
                Ok(Step {
                    out: Some(out),
                    put: None,
                })
            }
            Op::Fill { name, kg } => self.fill(profile, name.as_slice(), *kg),
            Op::Restow { from, to, id } => self.restow(profile, *from, *to, id.as_slice()),
        }
    }
}
