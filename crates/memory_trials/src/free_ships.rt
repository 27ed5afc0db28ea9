//! Calls that read a ship's tables, her profile, what is aboard of her and the steps of a port
//! call, and ask for no memory. The numbers are those of the files of the box ship.
ghost use Rattle.std.specs.Prelude.{◌≡◌};
ghost use Rattle.port_call.specs.Cases.{IsMade};

use crate::sessions::inputs;
use crate::watch::{refuse, was_refused};
use box_ship::{BONJEAN, CELLS, HYDRO, KN, TANKS, files};
use lift_sequence::{Arrival, Op, Sequence, carry};
use port_call::{Case, Ground, PortCall};
use ship_profile::{Key, Profile};
use ship_tables::{Curves, Extent, Hydro, TableTexts, Tables};
use std::alloc::{AllocError, Global};
use units_core::{Cell, Kg, Mm};

/// The cell to starboard.
const STARBOARD: Cell = Cell {
    bay: 3,
    row: 7,
    tier: 82,
};

/// The columns of a hydrostatic table.
fn hydrostatics(hydro: &Hydro) -> bool {
    let columns = [
        hydro.kg(),
        hydro.draught(),
        hydro.kmt(),
        hydro.lcb(),
        hydro.lcf(),
        hydro.mct(),
    ];
    let mut rows = 0usize;
    for column in &columns {
        rows = rows.saturating_add(column.len());
    }
    rows == 18 && hydro.same(hydro)
}

/// The curves of a table.
fn curves(curves: &Curves, columns: usize, rows: usize) -> bool {
    let first = matches!(curves.column(0), Some(column) if column.len() == rows);
    let lengths = curves.arguments().len() == rows && curves.values(0).len() == rows;
    first && lengths && curves.columns() == columns && curves.same(curves)
}

/// The tables of the box ship.
fn tables(tables: &Tables) -> bool {
    let cells = tables.cell_number(STARBOARD) == Some(3) && tables.cell(STARBOARD).is_some();
    let tank = tables.tank(b"DB1") == Some(0) && tables.tanks() == 1;
    let filled = matches!(tables.tank_item(0, 500_000), Some(body) if body.kg() == 500_000);
    let shapes = hydrostatics(tables.hydro())
        && curves(tables.levers(), 13, 2)
        && curves(tables.bonjean(), 5, 2);
    cells && tank && filled && shapes && tables.least_gm().is_none() && tables.same(tables)
}

/// How far the box ship reaches.
fn extent() -> Extent {
    Extent {
        aft: Mm::of(0),
        fore: Mm::of(100_000),
    }
}

/// The texts of her tables.
fn texts() -> TableTexts<'static> {
    TableTexts {
        cells: CELLS.as_bytes(),
        hydro: HYDRO.as_bytes(),
        levers: KN.as_bytes(),
        bonjean: BONJEAN.as_bytes(),
        tanks: TANKS.as_bytes(),
        least_gm: None,
    }
}

/// Whether the readers of a ship's tables ask for no memory.
fn tables_are_free(alloc: Global) -> Result<bool, AllocError> {
    let extent = extent();
    let Ok(read) = Tables::read(alloc, extent, 5, &texts()) else {
        return Err(AllocError);
    };
    refuse(alloc, 0, 1);
    let mut right = tables(&read);
    if let Some(place) = read.cell(STARBOARD) {
        right &= extent.holds(&place);
    }
    let free = !was_refused(alloc);
    Ok(free && right)
}

/// The limits of a profile.
fn limits(profile: &Profile) -> bool {
    let lengths = [
        profile.lbp().get(),
        profile.draught_max().get(),
        profile.trim_max().get(),
    ];
    let numbers = [profile.closing_max(), profile.list_max()];
    lengths == [100_000, 6_100, 500]
        && numbers == [5_000, 500]
        && profile.downflooding() == 60
        && Key::Lbp.name() == "lbp_mm"
}

/// The lists of a profile.
fn lists(profile: &Profile) -> bool {
    let sections = profile.sections();
    let lengths = [
        profile.blocks().len(),
        profile.fills().len(),
        profile.frames().as_slice().len(),
        profile.stations().len(),
        sections.weights().len(),
        sections.row(0).len(),
    ];
    lengths == [1, 0, 5, 5, 4, 5]
}

/// The tables of a profile.
fn profile_tables(profile: &Profile) -> bool {
    let cells = profile.cell_number(STARBOARD) == Some(3) && profile.cell(STARBOARD).is_some();
    let tank = profile.tank(b"DB1") == Some(0) && profile.tank_item(0, 500_000).is_some();
    let shapes = hydrostatics(profile.hydro())
        && curves(profile.levers(), 13, 2)
        && curves(profile.bonjean(), 5, 2);
    cells && tank && shapes && profile.least_gm().is_none() && profile.same(profile)
}

/// What is aboard on arrival: a block alone.
fn arrival(arrival: &Arrival) -> bool {
    arrival.facts();
    arrival.items().is_empty() && arrival.bodies().len() == 1 && arrival.same(arrival)
}

/// A ground.
fn ground(ground: &Ground) -> bool {
    ground.facts();
    let profile = ground.profile();
    let read = limits(profile) && lists(profile) && profile_tables(profile);
    read && arrival(ground.arrival()) && ground.total().kg() == 8_200_000 && ground.same(ground)
}

/// A step that loads a container to starboard.
fn load(op: &Op) -> bool {
    let Some(kg) = Kg::new(7) else {
        return false;
    };
    let moved = op.moves(None) && op.next_cell(None) == Some(STARBOARD);
    let lighter = op.with_weight(kg);
    let copied = op.copy() == *op && lighter != *op;
    op.loaded_cell() == Some(STARBOARD) && !moved && copied && !op.is_independent(&lighter)
}

/// The steps of a sequence of two loads: what each orders, and does.
fn steps(sequence: &Sequence) -> bool {
    sequence.facts();
    if sequence.len() != 2 {
        return false;
    }
    let put = matches!(sequence.step(1).put, Some(body) if body.kg() == 20_500);
    put && load(sequence.lift(1)) && sequence.ops().len() == 2
}

/// The two, which are independent of each other, moved past each other.
fn shift_first(sequence: &mut Sequence) -> bool {
    if sequence.len() != 2 {
        return false;
    }
    sequence.can_shift(1, 2) && sequence.shift(1, 2)
}

/// The two exchanged.
fn exchange_both(sequence: &mut Sequence) -> bool {
    if sequence.len() != 2 {
        return false;
    }
    sequence.swap(1, 2)
}

/// The first step given another weight.
fn reweigh_first(sequence: &mut Sequence) -> bool {
    let Some(kg) = Kg::new(7) else {
        return false;
    };
    if sequence.len() != 2 {
        return false;
    }
    if sequence.lift(1).loaded_cell().is_some() {
        sequence.reweigh(1, kg);
        return true;
    }
    false
}

/// Whether the first step puts in a container of 7 kg.
fn is_light(sequence: &Sequence) -> bool {
    if sequence.len() != 2 {
        return false;
    }
    matches!(sequence.step(1).put, Some(body) if body.kg() == 7)
}

/// The case of a sequence that was made from a ground.
fn cases(ground: &Ground, sequence: &Sequence) -> bool
    requires { IsMade ground.now.ship ground.now.arrival sequence.now }
{
    ground.facts();
    let made = Case::new(ground.profile(), ground.arrival(), sequence);
    ground.case(sequence).lines() == 3 && made.lines() == 3
}

/// The number at the head of a list of three, carried to its end.
fn carry_first(mut list: Vec<u32>) -> bool {
    if list.len() != 3 {
        return false;
    }
    carry(&mut list, 0, 2);
    list.as_slice() == [2, 3, 1].as_slice()
}

/// Whether the readers of a port call ask for no memory, nor what is done with its parts.
fn calls_are_free(alloc: Global) -> Result<bool, AllocError> {
    let Ok(call) = PortCall::read(alloc, &inputs()) else {
        return Err(AllocError);
    };
    let mut list = Vec::new(alloc);
    for number in 1..4u32 {
        list.push(number)?;
    }
    refuse(alloc, 0, 1);
    let mut right = call.case().lines() == 3 && ground(call.ground());
    let (base, mut sequence) = call.into_parts();
    right &= cases(&base, &sequence);
    right &= steps(&sequence) && shift_first(&mut sequence) && exchange_both(&mut sequence);
    right &= reweigh_first(&mut sequence) && is_light(&sequence) && carry_first(list);
    let free = !was_refused(alloc);
    Ok(free && right)
}

/// Whether a ground is made of a ship and her arrival without memory.
fn grounds_are_free(alloc: Global) -> Result<bool, AllocError> {
    let Ok(profile) = Profile::read(alloc, &files()) else {
        return Err(AllocError);
    };
    let Ok(arrival) = Arrival::new(alloc, &profile, Vec::new(alloc), profile.fills()) else {
        return Err(AllocError);
    };
    refuse(alloc, 0, 1);
    let made = Ground::new(profile, arrival);
    let right = made.total().kg() == 8_200_000;
    let free = !was_refused(alloc);
    Ok(free && right)
}

/// Whether none of them asks for memory.
pub fn ships_are_free(alloc: Global) -> Result<bool, AllocError> {
    Ok(tables_are_free(alloc)? && calls_are_free(alloc)? && grounds_are_free(alloc)?)
}
