//! Port calls that are made by a seed.
use crate::chance::Chance;
use crate::messages::{Container, Message, put_name, with_other_characters};
use crate::slots::{Slot, used_slots};
use std::alloc::{AllocError, Global};

/// How a call is made.
#[derive(Clone, Copy)]
pub struct Shape {
    /// How many of 1,000 cells are taken on arrival.
    pub aboard: u32,
    /// How many of 1,000 containers go ashore.
    pub ashore: u32,
    /// How many of 1,000 cells that are free then are loaded.
    pub loaded: u32,
    /// How many steps a steps file has; none where it is 0.
    pub steps: u32,
    /// Whether all containers have the same mass, and the messages characters of their own.
    pub is_odd: bool,
}

/// The texts of a call.
#[derive(Drop)]
pub struct Call {
    pub baplie: Vec<u8>,
    pub movins: Vec<u8>,
    pub steps: Option<Vec<u8>>,
}

/// A lift in a crane's list: a place in the list of cells, and whether it is a load.
#[derive(Clone, Copy)]
struct Turn {
    place: usize,
    is_load: bool,
}

/// How many cranes work, each in bays of its own.
const CRANES: u32 = 4;

/// A ship's cells in a plan, with what is in them.
#[derive(Drop)]
struct Stowage {
    slots: Vec<Slot>,
    stands: Vec<Option<Container>>,
}

impl Stowage {
    /// What is in a cell, where there is one of this place.
    fn at(&self, place: usize) -> Option<(&Slot, Option<Container>)> {
        match (self.slots.get(place), self.stands.get(place)) {
            (Some(slot), Some(stands)) => Some((slot, *stands)),
            _ => None,
        }
    }

    /// Puts a container into a cell, or none.
    fn put(&mut self, place: usize, container: Option<Container>) {
        if let Some(stands) = self.stands.get_mut(place) {
            *stands = container;
        }
    }
}

/// A call that is being made: its shape, and by what it is drawn.
#[derive(Drop)]
struct Draw<'a> {
    shape: Shape,
    chance: &'a mut Chance,
    /// What is aboard on arrival, what goes ashore, and what comes aboard.
    aboard: u64,
    ashore: u64,
    loaded: u64,
}

impl<'a> Draw<'a> {
    /// A call of a shape.
    fn new(shape: Shape, chance: &'a mut Chance) -> Draw<'a> {
        let aboard = chance.next();
        let ashore = chance.next();
        let loaded = chance.next();
        Draw {
            shape,
            chance,
            aboard,
            ashore,
            loaded,
        }
    }

    /// Whether a cell is taken on arrival.
    fn is_taken(&self, slot: &Slot) -> bool {
        slot.chance(self.aboard).happens(self.shape.aboard)
    }

    /// Whether the container in a cell goes ashore.
    fn is_discharged(&self, slot: &Slot) -> bool {
        slot.chance(self.ashore).happens(self.shape.ashore)
    }

    /// Whether a free cell is loaded.
    fn is_loaded(&self, slot: &Slot) -> bool {
        slot.chance(self.loaded).happens(self.shape.loaded)
    }

    /// A container for a cell: heavy ones stand in the hold.
    fn container(&mut self, slot: &Slot, salt: u64) -> Container {
        let mut pair = slot.chance(salt.wrapping_add(1));
        let kg = if self.shape.is_odd {
            20_000
        } else if slot.is_on_deck() {
            pair.below(7_000).saturating_add(3_000)
        } else {
            pair.below(20_000).saturating_add(8_000)
        };
        Container {
            number: self.chance.below(9_999_999).saturating_add(1),
            kg,
        }
    }
}

/// What is aboard on arrival.
fn stow_plan(alloc: Global, all: &[Slot], draw: &mut Draw<'_>) -> Result<Stowage, AllocError> {
    let slots = used_slots(alloc, all, draw.aboard)?;
    let mut stands = Vec::with_capacity(alloc, slots.len())?;
    let salt = draw.aboard;
    for slot in &slots {
        let stands_there = if draw.is_taken(slot) {
            Some(draw.container(slot, salt))
        } else {
            None
        };
        stands.push(stands_there)?;
    }
    Ok(Stowage { slots, stands })
}

const PLAN_HEAD: &[u8] =
    b"UNA:+.? '\nUNB+UNOA:2+LINER+PLANNING+260321:2230+1'\nUNH+1+BAPLIE:D:95B:UN:SMDG20'\nBGM++1+9'\nDTM+137:2603212230:201'\nTDT+20+2612W+++SKG:172:20+++5BXK4:103::LINER'\nLOC+5+DEBRV:139:6'\nLOC+61+SEGOT:139:6'\nRFF+VON:2612W'\n";

const MOVES_HEAD: &[u8] =
    b"UNA:+.? '\nUNB+UNOA:2+PLANNING+TERMINAL+260321:2230+1'\nUNH+1+MOVINS:D:95B:UN:SMDG20'\nBGM+121+1+9'\nDTM+137:2603212230:201'\nTDT+20+2612E+++SKG:172:20+++5BXK4:103::LINER'\nLOC+5+SEGOT:139:6'\nLOC+61+PLGDY:139:6'\nRFF+VON:2612E'\n";

/// The bay plan of what is aboard.
fn bay_plan(alloc: Global, stowage: &Stowage, shape: Shape) -> Result<Vec<u8>, AllocError> {
    let mut plan = Message::new(alloc, PLAN_HEAD, 7)?;
    for (slot, stands) in stowage.slots.iter().zip(stowage.stands.iter()) {
        if let Some(container) = stands {
            plan.put_cell(slot)?;
            plan.put_mass(container)?;
            if shape.is_odd {
                plan.put(b"FTX+AAA+++KEEP DRY?: CHARTERER?'S GOODS?+1'\n", 1)?;
            }
            plan.put(b"LOC+9+NLRTM:139:6'\nLOC+11+SEGOT:139:6'\nRFF+BM:1'\n", 3)?;
            plan.put_identification(container)?;
            plan.put(b"NAD+CA+SKG:172:20'\n", 1)?;
        }
    }
    plan.end(alloc, "1")
}

/// Appends the lifts of one crane in one group of bays: what goes ashore from the last cell to the
/// first, and then what comes aboard from the first to the last.
fn put_turns(
    turns: &mut Vec<Turn>,
    stowage: &Stowage,
    group: u32,
    draw: &Draw<'_>,
) -> Result<(), AllocError> {
    let first = turns.len();
    for place in 0..stowage.slots.len() {
        match stowage.at(place) {
            Some((slot, Some(_))) if slot.group() == group && draw.is_discharged(slot) => {
                turns.push(Turn {
                    place,
                    is_load: false,
                })?;
            }
            _ => {}
        }
    }
    let last = turns.len();
    if let Some(unloaded) = turns.as_mut_slice().get_mut(first..last) {
        unloaded.reverse();
    }
    for place in 0..stowage.slots.len() {
        match stowage.at(place) {
            Some((slot, None)) if slot.group() == group && draw.is_loaded(slot) => {
                turns.push(Turn {
                    place,
                    is_load: true,
                })?;
            }
            _ => {}
        }
    }
    for at in first..last {
        if let Some(turn) = turns.get(at) {
            let place = turn.place;
            match stowage.at(place) {
                Some((slot, _)) if draw.is_loaded(slot) => turns.push(Turn {
                    place,
                    is_load: true,
                })?,
                _ => {}
            }
        }
    }
    Ok(())
}

/// The lists of the cranes: each works in every fourth group of bays, two of them from the bow aft
/// and two from the stern forward.
fn cranes(alloc: Global, stowage: &Stowage, draw: &Draw<'_>) -> Result<Vec<Vec<Turn>>, AllocError> {
    let mut last = 0;
    for slot in &stowage.slots {
        last = last.max(slot.group());
    }
    let mut lists = Vec::new(alloc);
    for crane in 0..CRANES {
        let mut turns = Vec::new(alloc);
        for turn in 0..=last {
            let group = if crane % 2 == 0 { turn } else { last - turn };
            if group % CRANES == crane {
                put_turns(&mut turns, stowage, group, draw)?;
            }
        }
        lists.push(turns)?;
    }
    Ok(lists)
}

/// Appends a lift to the instruction, and makes it.
fn put_turn(
    moves: &mut Message,
    stowage: &mut Stowage,
    turn: Turn,
    draw: &mut Draw<'_>,
) -> Result<(), AllocError> {
    let Some((slot, stands)) = stowage.at(turn.place) else {
        return Ok(());
    };
    let slot = *slot;
    moves.put_cell(&slot)?;
    match stands {
        Some(container) => {
            moves.put_identification(&container)?;
            stowage.put(turn.place, None);
        }
        None => {
            let salt = draw.loaded;
            let container = draw.container(&slot, salt);
            moves.put_mass(&container)?;
            moves.put(b"LOC+9+SEGOT:139:6'\nLOC+11+NLRTM:139:6'\nRFF+BM:1'\n", 3)?;
            moves.put_identification(&container)?;
            moves.put(b"NAD+CA+SKG:172:20'\n", 1)?;
            stowage.put(turn.place, Some(container));
        }
    }
    Ok(())
}

/// The instruction with the lifts of all cranes, one of each in turn.
fn instruction(
    alloc: Global,
    stowage: &mut Stowage,
    draw: &mut Draw<'_>,
) -> Result<Vec<u8>, AllocError> {
    let lists = cranes(alloc, stowage, draw)?;
    let mut longest = 0;
    for list in &lists {
        longest = list.len().max(longest);
    }
    let mut moves = Message::new(alloc, MOVES_HEAD, 7)?;
    let mut was_load = None;
    for at in 0..longest {
        for list in &lists {
            if let Some(turn) = list.get(at) {
                if was_load != Some(turn.is_load) {
                    let handling: &[u8] = if turn.is_load {
                        b"HAN+LOA'\n"
                    } else {
                        b"HAN+DIS'\n"
                    };
                    moves.put(handling, 1)?;
                    was_load = Some(turn.is_load);
                }
                put_turn(&mut moves, stowage, *turn, draw)?;
            }
        }
    }
    moves.end(alloc, "1")
}

/// Appends a restow of a container of 20 feet to a cell of 20 feet that is free, and makes it; of
/// 20 pairs of places the first that fits.
fn put_restow(
    text: &mut Vec<u8>,
    stowage: &mut Stowage,
    chance: &mut Chance,
) -> Result<(), AllocError> {
    let count = stowage.slots.len().min(1_000_000) as u32;
    for _ in 0..20 {
        let from = chance.below(count) as usize;
        let to = chance.below(count) as usize;
        match (stowage.at(from), stowage.at(to)) {
            (Some((here, Some(container))), Some((there, None)))
                if here.is_short() && there.is_short() => {
                text.extend_from_slice(b"restow,")?;
                text.extend_from_slice(&here.name)?;
                text.extend_from_slice(b",")?;
                text.extend_from_slice(&there.name)?;
                text.extend_from_slice(b",")?;
                put_name(text, &container)?;
                text.extend_from_slice(b"\n")?;
                stowage.put(from, None);
                stowage.put(to, Some(container));
                return Ok(());
            }
            _ => {}
        }
    }
    Ok(())
}

/// A steps file of restows and, as every fourth record, fillings of tanks.
fn steps_file(
    alloc: Global,
    stowage: &mut Stowage,
    chance: &mut Chance,
    count: u32,
) -> Result<Vec<u8>, AllocError> {
    let mut text = Vec::with_capacity(alloc, 1_000_000)?;
    text.extend_from_slice(b"kind,a,b,c\n")?;
    for step in 0..count {
        if step % 4 == 3 {
            let tank = chance.below(4).saturating_add(1);
            let tons = chance.below(3);
            let row = format!(in alloc; "tank,WB{tank},{tons}00000,\n")?;
            text.extend_from_slice(row.as_bytes())?;
        } else {
            put_restow(&mut text, stowage, chance)?;
        }
    }
    Ok(text)
}

/// A call on a ship of these cells.
pub fn call_of(
    alloc: Global,
    slots: &[Slot],
    chance: &mut Chance,
    shape: Shape,
) -> Result<Call, AllocError> {
    let mut draw = Draw::new(shape, chance);
    let mut stowage = stow_plan(alloc, slots, &mut draw)?;
    let mut baplie = bay_plan(alloc, &stowage, shape)?;
    let mut movins = instruction(alloc, &mut stowage, &mut draw)?;
    let steps = if shape.steps > 0 {
        Some(steps_file(alloc, &mut stowage, draw.chance, shape.steps)?)
    } else {
        None
    };
    if shape.is_odd {
        with_other_characters(&mut baplie);
        with_other_characters(&mut movins);
    }
    Ok(Call {
        baplie,
        movins,
        steps,
    })
}
