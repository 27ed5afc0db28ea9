//! What is told of an item that can't be in its cell, of a fill that its tank can't hold, and of a
//! step that can't be done.
use crate::advice::{advice_on_arrival, advice_on_step};
use crate::neighbours::{bay_words, tank_words};
use crate::told::{Quote, Told, more_of, tell_segment};
use edifact_text::{Kind, segment_at};
use lift_sequence::{Op, SeqCode, SeqFault, ops};
use plain_text::{count_of, in_thousandths, many, shown_line, shown_word};
use port_call::Inputs;
use std::alloc::{AllocError, Global};
use stow_messages::{Item, Lift};
use units_core::Cell;
use view_inputs::{
    Cargo, CellRow, Entry, NOBODY, Names, StepPlace, arrive, cell_text, cells_in, do_step,
    document, entries_of, item_of, items_read, lifts_read, line_at, messages_of, number_in,
    place_of, rows_read, table_at, tanks_in, text_in,
};
use view_quotes::stands;

/// The identification of a container, in words where it has none.
fn name_words(alloc: Global, id: &[u8]) -> Result<String, AllocError> {
    if id.is_empty() {
        String::from_str(alloc, "a container without identification")
    } else {
        shown_word(alloc, id)
    }
}

/// A container with its mass.
fn item_words(alloc: Global, item: &Item) -> Result<String, AllocError> {
    let name = name_words(alloc, item.id.as_slice())?;
    let tonnes = in_thousandths(alloc, i128::from(item.kg.get()))?;
    Ok(format!(in alloc; "{name}, {tonnes} t")?)
}

/// From what to what mass a tank's records reach.
fn reach_words(alloc: Global, tanks: &[u8], name: &[u8]) -> Result<String, AllocError> {
    for tank in &tanks_in(alloc, tanks)? {
        if tank.name.as_slice() == name {
            let (least, most) = tank.reach();
            let least = in_thousandths(alloc, i128::from(least))?;
            let most = in_thousandths(alloc, i128::from(most))?;
            let text = format!(in alloc;
                "Its records in tanks.csv reach from {least} to {most} t."
            )?;
            return Ok(text);
        }
    }
    Ok(String::new(alloc))
}

/// Tells of a fill that its tank can't hold.
fn tell_fill(
    alloc: Global,
    told: &mut Told<'_>,
    inputs: &Inputs<'_>,
    number: u32,
) -> Result<(), AllocError> {
    told.place = format!(in alloc; "ship.toml, fill {number}")?;
    let Some(table) = document(alloc, inputs.profile.ship)? else {
        return Ok(());
    };
    let Some(fill) = table_at(&table, "fills", number) else {
        return Ok(());
    };
    let name = text_in(fill, "tank").as_bytes();
    told.here = reach_words(alloc, inputs.profile.tanks, name)?;
    let name = shown_line(alloc, name)?;
    let kg = number_in(fill, "kg");
    let tonnes = in_thousandths(alloc, i128::from(kg))?;
    told.place = format!(in alloc; "ship.toml, fill {number}: {name}, {tonnes} t")?;
    Ok(())
}

/// How many of some items are in cells that the ship hasn't.
fn unknown_items(cargo: &Cargo, items: &[Item]) -> u32 {
    let mut count = 0u32;
    for item in items {
        if cargo.berth(item.cell).is_none() {
            count = count.saturating_add(1);
        }
    }
    count
}

/// The item before another that is in a cell, with its segment.
fn earlier_words(
    alloc: Global,
    items: &[Item],
    entries: &[Entry],
    cell: Cell,
    front: &str,
) -> Result<String, AllocError> {
    for (item, entry) in items.iter().zip(entries) {
        if item.cell == cell {
            let words = item_words(alloc, item)?;
            let segment = entry.segment;
            return Ok(format!(in alloc; "{front} {words}, segment {segment}.")?);
        }
    }
    Ok(String::new(alloc))
}

/// How many items behind that at a place are in cells that the ship hasn't, too.
fn later_words(
    alloc: Global,
    rows: &[CellRow],
    items: &[Item],
    place: usize,
) -> Result<String, AllocError> {
    let cargo = Cargo::new(alloc, rows)?;
    let behind = items.get(place.saturating_add(1)..).unwrap_or(&[]);
    let count = unknown_items(&cargo, behind);
    let all = many(alloc, count_of(items.len()), "item")?;
    let words = format!(in alloc; "in cells that she hasn't, of {all}")?;
    more_of(alloc, count, "later item", words.as_str())
}

/// Who stands in a cell that an item overlaps.
fn overlap_words(
    alloc: Global,
    before: &[Item],
    entries: &[Entry],
    cell: Cell,
) -> Result<String, AllocError> {
    let name = cell_text(alloc, cell)?;
    let front = format!(in alloc; "In {name} stands")?;
    earlier_words(alloc, before, entries, cell, front.as_str())
}

/// What the ship or the bay plan has where an item can't be in its cell.
fn tell_item(
    alloc: Global,
    told: &mut Told<'_>,
    rows: &[CellRow],
    items: &[Item],
    entries: &[Entry],
    fault: SeqFault,
) -> Result<(), AllocError> {
    let place = (fault.at as usize).wrapping_sub(1);
    let Some(item) = items.get(place) else {
        return Ok(());
    };
    let before = items.get(..place).unwrap_or(&[]);
    let number = fault.at;
    let words = item_words(alloc, item)?;
    told.behind = format!(in alloc; "item {number}: {words}")?;
    match fault.code {
        SeqCode::UnknownCell => {
            told.here = bay_words(alloc, rows, item.cell)?;
            told.more = later_words(alloc, rows, items, place)?;
        }
        SeqCode::Overlap(cell) => told.here = overlap_words(alloc, before, entries, cell)?,
        _ => told.here = earlier_words(alloc, before, entries, item.cell, "There stands")?,
    }
    Ok(())
}

/// What is told of a refused arrival.
pub fn told_of_arrival<'a>(
    alloc: Global,
    inputs: &Inputs<'a>,
    names: &Names<'_>,
    fault: SeqFault,
) -> Result<Told<'a>, AllocError> {
    let mut told = Told::new(alloc, advice_on_arrival(fault.code))?;
    if fault.code == SeqCode::TankOver {
        tell_fill(alloc, &mut told, inputs, fault.at)?;
        return Ok(told);
    }
    let Some(items) = items_read(alloc, inputs.baplie)? else {
        return Ok(told);
    };
    let entries = entries_of(alloc, inputs.baplie, Kind::Baplie, None)?;
    if let Some(entry) = entries.get((fault.at as usize).wrapping_sub(1)) {
        let (plan, _) = messages_of(inputs);
        tell_segment(alloc, &mut told, plan, names.baplie, entry.segment)?;
    }
    let rows = cells_in(alloc, inputs.profile.cells)?;
    tell_item(
        alloc,
        &mut told,
        rows.as_slice(),
        items.as_slice(),
        entries.as_slice(),
        fault,
    )?;
    Ok(told)
}

/// The steps that the inputs order; none where they are refused.
fn steps_in(alloc: Global, inputs: &Inputs<'_>) -> Result<Vec<Op>, AllocError> {
    let Some(lifts) = lifts_read(alloc, inputs.movins)? else {
        return Ok(Vec::new(alloc));
    };
    let rows = match inputs.steps {
        None => None,
        Some(text) => match rows_read(alloc, text, count_of(lifts.len()))? {
            Some(rows) => Some(rows),
            None => return Ok(Vec::new(alloc)),
        },
    };
    ops(alloc, lifts, rows)
}

/// What is aboard before a step.
#[derive(Clone, Copy)]
struct Before<'b> {
    rows: &'b [CellRow],
    items: &'b [Item],
    /// The steps before it.
    ops: &'b [Op],
    cargo: &'b Cargo,
}

/// When a container was put where it stands.
pub fn since_words(alloc: Global, step: u32) -> Result<String, AllocError> {
    if step == 0 {
        String::from_str(alloc, "since arrival")
    } else {
        Ok(format!(in alloc; "since step {step}")?)
    }
}

/// Who stands in a cell before a step; `id` is that of the container that is to be loaded there,
/// and empty where there is none.
fn standing_words(
    alloc: Global,
    before: &Before<'_>,
    cell: Cell,
    id: &[u8],
) -> Result<String, AllocError> {
    let Some(standing) = stands(before.items, before.ops, cell) else {
        return Ok(String::new(alloc));
    };
    let name = cell_text(alloc, cell)?;
    let words = item_words(alloc, standing.item)?;
    let since = since_words(alloc, standing.since)?;
    let mut text = format!(in alloc; "In {name} stands {words}, {since}.")?;
    if !id.is_empty() && standing.item.id.as_slice() == id {
        text.push_str(" It is the same container: was it loaded twice?")?;
    }
    Ok(text)
}

/// Who was taken out of an empty cell.
fn gone_words(alloc: Global, before: &Before<'_>, cell: Cell) -> Result<String, AllocError> {
    if let Some(berth) = before.cargo.berth(cell) {
        if let Some(item) = item_of(before.items, before.ops, berth.taken) {
            let step = berth.taken_at;
            let name = name_words(alloc, item.id.as_slice())?;
            return Ok(format!(in alloc; "Step {step} took {name} out of it.")?);
        }
    }
    String::from_str(alloc, "Nothing stood in it on arrival.")
}

/// The cell in which a container stands before a step, the one that is there for the longest time.
fn cell_with(before: &Before<'_>, id: &[u8]) -> Option<Cell> {
    let mut found: Option<(u32, u32, Cell)> = None;
    for berth in before.cargo.berths() {
        if berth.who == NOBODY {
            continue;
        }
        let Some(item) = item_of(before.items, before.ops, berth.who) else {
            continue;
        };
        if item.id.as_slice() == id {
            let is_earlier = match found {
                Some((since, who, _)) => (berth.since, berth.who) < (since, who),
                None => true,
            };
            if is_earlier {
                found = Some((berth.since, berth.who, berth.cell));
            }
        }
    }
    match found {
        Some((_, _, cell)) => Some(cell),
        None => None,
    }
}

/// Adds where the container that was meant stands.
fn add_meant(
    alloc: Global,
    text: &mut String,
    before: &Before<'_>,
    id: &[u8],
) -> Result<(), AllocError> {
    if id.is_empty() {
        return Ok(());
    }
    let name = shown_word(alloc, id)?;
    match cell_with(before, id) {
        Some(cell) => {
            let cell = cell_text(alloc, cell)?;
            write!(text, " {name} stands in {cell}.")
        }
        None => write!(text, " {name} isn't aboard."),
    }
}

/// The cell and the identification of which a step is refused behind others: of a restow the cell
/// to which it goes, where it can be taken out of that from which it comes.
pub fn refused_place<'b>(items: &[Item], before: &[Op], op: &'b Op) -> Option<(Cell, &'b [u8])> {
    match op {
        Op::Lift(Lift::Load(item)) => Some((item.cell, item.id.as_slice())),
        Op::Lift(Lift::Discharge { cell, id }) => Some((*cell, id.as_slice())),
        Op::Fill { .. } => None,
        Op::Restow { from, to, id } => {
            let id = id.as_slice();
            let is_taken = match stands(items, before, *from) {
                Some(standing) => {
                    let other = standing.item.id.as_slice();
                    id.is_empty() || other.is_empty() || other == id
                }
                None => false,
            };
            Some((if is_taken { *to } else { *from }, id))
        }
    }
}

/// How many of the places of some steps are in cells that the ship hasn't.
fn unknown_places(cargo: &Cargo, ops: &[Op]) -> u32 {
    let mut count = 0u32;
    for op in ops {
        let (one, other) = match op {
            Op::Lift(Lift::Load(item)) => (Some(item.cell), None),
            Op::Lift(Lift::Discharge { cell, .. }) => (Some(*cell), None),
            Op::Restow { from, to, .. } => (Some(*from), Some(*to)),
            Op::Fill { .. } => (None, None),
        };
        for cell in [one, other] {
            if let Some(cell) = cell {
                if cargo.berth(cell).is_none() {
                    count = count.saturating_add(1);
                }
            }
        }
    }
    count
}

/// What the ship has where a step can't be done.
fn tell_here(
    alloc: Global,
    told: &mut Told<'_>,
    before: &Before<'_>,
    op: &Op,
    behind: &[Op],
    code: SeqCode,
) -> Result<(), AllocError> {
    let Some((cell, id)) = refused_place(before.items, before.ops, op) else {
        return Ok(());
    };
    told.here = match code {
        SeqCode::UnknownCell => {
            let all = before.ops.len().saturating_add(behind.len());
            let all = many(alloc, count_of(all).saturating_add(1), "step")?;
            let words = format!(in alloc; "in cells that she hasn't, of {all}")?;
            let count = unknown_places(before.cargo, behind);
            told.more = more_of(alloc, count, "later place", words.as_str())?;
            bay_words(alloc, before.rows, cell)?
        }
        SeqCode::Overlap(rival) => standing_words(alloc, before, rival, &[])?,
        SeqCode::CellEmpty => gone_words(alloc, before, cell)?,
        SeqCode::CellTaken => standing_words(alloc, before, cell, id)?,
        _ => standing_words(alloc, before, cell, &[])?,
    };
    if code == SeqCode::CellEmpty || code == SeqCode::WrongContainer {
        add_meant(alloc, &mut told.here, before, id)?;
    }
    Ok(())
}

/// What is aboard before a step, and what the ship has where it can't be done.
fn tell_aboard(
    alloc: Global,
    told: &mut Told<'_>,
    inputs: &Inputs<'_>,
    all: &[Op],
    fault: SeqFault,
) -> Result<(), AllocError> {
    let place = (fault.at as usize).wrapping_sub(1);
    let (Some(op), Some(ops)) = (all.get(place), all.get(..place)) else {
        return Ok(());
    };
    let Some(items) = items_read(alloc, inputs.baplie)? else {
        return Ok(());
    };
    let rows = cells_in(alloc, inputs.profile.cells)?;
    let mut cargo = arrive(alloc, rows.as_slice(), items.as_slice())?;
    let mut step = 0u32;
    for done in ops {
        step = step.saturating_add(1);
        let _ = do_step(&mut cargo, items.as_slice(), done, step);
    }
    let before = Before {
        rows: rows.as_slice(),
        items: items.as_slice(),
        ops,
        cargo: &cargo,
    };
    let behind = all.get(place.saturating_add(1)..).unwrap_or(&[]);
    tell_here(alloc, told, &before, op, behind, fault.code)
}

/// Tells of a step that is a filling.
fn tell_filling(
    alloc: Global,
    told: &mut Told<'_>,
    inputs: &Inputs<'_>,
    front: &str,
    name: &[u8],
    kg: u32,
    code: SeqCode,
) -> Result<(), AllocError> {
    let tonnes = in_thousandths(alloc, i128::from(kg))?;
    let shown = shown_line(alloc, name)?;
    told.place = format!(in alloc; "{front}tank {shown}, {tonnes} t")?;
    told.here = if code == SeqCode::TankOver {
        reach_words(alloc, inputs.profile.tanks, name)?
    } else {
        let tanks = tanks_in(alloc, inputs.profile.tanks)?;
        tank_words(alloc, tanks.as_slice(), name)?
    };
    Ok(())
}

/// Tells of a step that is a lift: its segment, and what it does.
fn tell_lift<'a>(
    alloc: Global,
    told: &mut Told<'a>,
    movins: &'a [u8],
    lift: &Lift,
    step: u32,
    place: StepPlace,
) -> Result<(), AllocError> {
    told.behind = match lift {
        Lift::Load(item) => {
            let words = item_words(alloc, item)?;
            format!(in alloc; "load of {words}")?
        }
        Lift::Discharge { id, .. } => {
            let name = name_words(alloc, id.as_slice())?;
            format!(in alloc; "discharge of {name}")?
        }
    };
    let record = match place.record {
        Some(record) => format!(in alloc; ", record {record} of the steps file")?,
        None => String::new(alloc),
    };
    let Some((number, segment)) = place.lift else {
        told.place = format!(in alloc; "step {step}{record}")?;
        return Ok(());
    };
    let Some(found) = segment_at(movins, segment) else {
        return Ok(());
    };
    let line = line_at(movins, found.place());
    told.place = format!(in alloc;
        "step {step}{record}: lift {number} of the instruction, segment {segment} (line {line}):"
    )?;
    told.quote(Quote::segment(&found));
    Ok(())
}

/// Tells of a step that is a restow.
fn tell_restow(
    alloc: Global,
    told: &mut Told<'_>,
    front: &str,
    from: Cell,
    to: Cell,
    id: &[u8],
) -> Result<(), AllocError> {
    let name = name_words(alloc, id)?;
    let from = cell_text(alloc, from)?;
    let to = cell_text(alloc, to)?;
    told.place = format!(in alloc; "{front}restow of {name} from {from} to {to}")?;
    Ok(())
}

/// What is told of a step that can't be done.
pub fn told_of_step<'a>(
    alloc: Global,
    inputs: &Inputs<'a>,
    fault: SeqFault,
) -> Result<Told<'a>, AllocError> {
    let mut told = Told::new(alloc, advice_on_step(fault.code))?;
    let all = steps_in(alloc, inputs)?;
    if fault.code == SeqCode::TooManySteps {
        let count = all.len();
        told.place = format!(in alloc; "{count} steps")?;
        return Ok(told);
    }
    let step = fault.at;
    let Some(op) = all.get((step as usize).wrapping_sub(1)) else {
        return Ok(told);
    };
    let record = step.saturating_add(1);
    let front = format!(in alloc; "step {step}: record {record} of the steps file: ")?;
    let front = front.as_str();
    match op {
        Op::Fill { name, kg } => {
            let name = name.as_slice();
            tell_filling(alloc, &mut told, inputs, front, name, *kg, fault.code)?;
            return Ok(told);
        }
        Op::Restow { from, to, id } => {
            tell_restow(alloc, &mut told, front, *from, *to, id.as_slice())?;
        }
        Op::Lift(lift) => {
            let place = place_of(alloc, inputs.movins, inputs.steps, step)?;
            tell_lift(alloc, &mut told, inputs.movins, lift, step, place)?;
        }
    }
    tell_aboard(alloc, &mut told, inputs, all.as_slice(), fault)?;
    Ok(told)
}
