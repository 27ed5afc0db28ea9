//! What is odd of a whole port call: of its messages beside one another, and of its steps.
use crate::cargo::{Cargo, NOBODY, arrive, item_of, number_of_load};
use crate::cells::{CellRow, cell_text, cells_in};
use crate::entries::Entry;
use crate::identity::{Identity, identity_of};
use crate::messages::{MessageText, messages_of};
use crate::notices::{Notice, Notices, add_notices_on};
use crate::occurs::Occurs;
use crate::places::lifts_in_call;
use indexmap::IndexMap;
use lift_sequence::Op;
use plain_text::{front, in_thousandths, many, shown_word};
use port_call::{Case, Inputs};
use std::alloc::{AllocError, Global};
use stow_messages::{Item, Lift, copy_text};
use units_core::Cell;
use view_quotes::{field, record_at};

/// What notices on the steps are of.
const STEPS: &str = "steps";

/// How far the mass that a discharge names may lie from that which is aboard, in kg.
const MASS_APART: u32 = 1_000;

/// A name in capital letters, its blanks one each.
fn with_single_blanks(alloc: Global, name: &str) -> Result<String, AllocError> {
    let mut plain = String::new(alloc);
    for word in name.split_ascii_whitespace() {
        if !plain.is_empty() {
            plain.push(' ')?;
        }
        for byte in word.bytes() {
            plain.push(char::from(byte.to_ascii_uppercase()))?;
        }
    }
    Ok(plain)
}

/// Whether two names are there, and aren't the same.
fn names_differ(alloc: Global, one: &str, other: &str) -> Result<bool, AllocError> {
    if one.is_empty() || other.is_empty() {
        return Ok(false);
    }
    let one = with_single_blanks(alloc, one)?;
    let other = with_single_blanks(alloc, other)?;
    Ok(one.as_str() != other.as_str())
}

/// Adds that the messages call something of the ship otherwise, each cut to so many columns: N12.
fn add_differing(
    alloc: Global,
    notices: &mut Notices,
    what: &str,
    one: &str,
    other: &str,
    columns: usize,
) -> Result<(), AllocError> {
    let one = front(alloc, one, columns)?;
    let other = front(alloc, other, columns)?;
    let text = format!(in alloc; "{what} differ: {one} and {other}")?;
    notices.add("N12", "both", text)
}

/// Adds that the profile names the ship otherwise than the bay plan: N12.
fn add_other_name(
    alloc: Global,
    notices: &mut Notices,
    name: &str,
    plan: &str,
) -> Result<(), AllocError> {
    let own = front(alloc, name, 20)?;
    let said = front(alloc, plan, 20)?;
    let text = format!(in alloc; "its name is {own}, the bay plan's ship {said}")?;
    notices.add("N12", "profile", text)
}

/// Adds what the messages and the profile say otherwise of the ship: N12.
fn add_ships(
    alloc: Global,
    notices: &mut Notices,
    plan: &Identity,
    moves: &Identity,
    name: &str,
) -> Result<(), AllocError> {
    let (one, other) = (plan.call_sign.as_str(), moves.call_sign.as_str());
    if !one.is_empty() && !other.is_empty() && one != other {
        add_differing(alloc, notices, "call signs", one, other, 12)?;
    }
    let (one, other) = (plan.ship.as_str(), moves.ship.as_str());
    if names_differ(alloc, one, other)? {
        add_differing(alloc, notices, "ships", one, other, 20)?;
    }
    if names_differ(alloc, name, one)? {
        add_other_name(alloc, notices, name, one)?;
    }
    Ok(())
}

/// Adds that the bay plan and the instruction are of different ports: N13.
fn add_ports(
    alloc: Global,
    notices: &mut Notices,
    plan: &Identity,
    moves: &Identity,
) -> Result<(), AllocError> {
    let (arrival, port) = (plan.next.as_str(), moves.port.as_str());
    if arrival.is_empty() || port.is_empty() || arrival == port {
        return Ok(());
    }
    let arrival = front(alloc, arrival, 12)?;
    let port = front(alloc, port, 12)?;
    let text = format!(in alloc; "bay plan on arrival at {arrival}, instruction for {port}")?;
    notices.add("N13", "both", text)
}

/// A step at which something is odd, and its cell.
#[derive(Clone, Copy)]
struct OddLift {
    step: u32,
    cell: Cell,
}

/// A discharge of another mass than is aboard: what it names and what is aboard, in kg.
#[derive(Clone, Copy)]
struct OtherMass {
    step: u32,
    named: u32,
    aboard: u32,
}

/// A lift out of a cell over which another container stands.
#[derive(Clone, Copy)]
struct Under {
    lift: OddLift,
    above: Cell,
}

/// What is known of an identification: how many containers of it are aboard, the cells of the first
/// two that were, and whether one of the bay plan is for the port.
#[derive(Clone, Copy, Debug)]
struct Known {
    aboard: u32,
    first: Cell,
    second: Cell,
    is_for_port: bool,
}

impl Known {
    /// What is known of one more container, whose identification was known before.
    fn behind(&self, before: &Known) -> Known {
        Known {
            aboard: before.aboard.saturating_add(1),
            first: before.first,
            second: if before.aboard == 1 {
                self.first
            } else {
                before.second
            },
            is_for_port: before.is_for_port || self.is_for_port,
        }
    }
}

/// The identifications, in the order in which they come.
type Identifications = IndexMap<arrayvec::ArrayVec<u8, 17>, Known>;

/// One more container of an identification; `true` where one is aboard already. Most are new, so
/// that each is put in first, and what was known before is looked at where there was something.
fn add_name(
    names: &mut Identifications,
    item: &Item,
    is_for_port: bool,
) -> Result<bool, AllocError> {
    if item.id.is_empty() {
        return Ok(false);
    }
    let known = Known {
        aboard: 1,
        first: item.cell,
        second: item.cell,
        is_for_port,
    };
    match names.insert(copy_text(&item.id), known) {
        Ok(None) => Ok(false),
        Ok(Some(before)) => {
            if let Some(known) = names.get_mut(&item.id) {
                *known = known.behind(&before);
            }
            Ok(before.aboard > 0)
        }
        Err(_) => Err(AllocError),
    }
}

/// One container of an identification less.
fn drop_name(names: &mut Identifications, item: &Item) {
    if let Some(known) = names.get_mut(&item.id) {
        known.aboard = known.aboard.saturating_sub(1);
    }
}

/// What is odd of the steps.
#[derive(Clone, Copy)]
struct OddSteps {
    loaded_twice: Occurs<OddLift>,
    other_mass: Occurs<OtherMass>,
    under: Occurs<Under>,
    hanging: Occurs<OddLift>,
}

/// The walk over the steps of a case.
#[derive(Drop)]
struct Walk<'a> {
    items: &'a [Item],
    ops: &'a [Op],
    entries: &'a [Entry],
    cargo: Cargo,
    names: Identifications,
    /// Whether some item of the bay plan is for the port.
    has_some_for_port: bool,
    odd: OddSteps,
}

impl<'a> Walk<'a> {
    /// Takes a container out of a cell, and notes where another stands above it.
    fn take(&mut self, step: u32, cell: Cell) -> u32 {
        let Some(place) = self.cargo.place(cell) else {
            return NOBODY;
        };
        let who = self.cargo.take_at(place, step);
        if let Some(above) = self.cargo.above(place) {
            self.odd.under.note(Under {
                lift: OddLift { step, cell },
                above,
            });
        }
        who
    }

    /// Puts a container into a cell, and notes where nobody stands below it.
    fn put(&mut self, step: u32, cell: Cell, who: u32) {
        let Some(place) = self.cargo.place(cell) else {
            return;
        };
        if self.cargo.hangs_over(place) {
            self.odd.hanging.note(OddLift { step, cell });
        }
        self.cargo.put_at(place, who, step);
    }

    /// Notes a discharge of a lift by the mass that its group names.
    fn note_mass(&mut self, step: u32, lift: Option<u32>, kg: u32) {
        let Some(number) = lift else {
            return;
        };
        let Some(entry) = self.entries.get((number as usize).wrapping_sub(1)) else {
            return;
        };
        let Some(named) = entry.kg else {
            return;
        };
        if named.abs_diff(kg) >= MASS_APART {
            self.odd.other_mass.note(OtherMass {
                step,
                named,
                aboard: kg,
            });
        }
    }

    /// Does a step, which can be done.
    fn go(&mut self, op: &Op, step: u32, lift: Option<u32>) -> Result<(), AllocError> {
        match op {
            Op::Lift(Lift::Load(item)) => {
                if add_name(&mut self.names, item, false)? {
                    self.odd.loaded_twice.note(OddLift {
                        step,
                        cell: item.cell,
                    });
                }
                self.put(step, item.cell, number_of_load(self.items, step));
            }
            Op::Lift(Lift::Discharge { cell, .. }) => {
                let who = self.take(step, *cell);
                if let Some(item) = item_of(self.items, self.ops, who) {
                    drop_name(&mut self.names, item);
                    self.note_mass(step, lift, item.kg.get());
                }
            }
            Op::Restow { from, to, .. } => {
                let who = self.take(step, *from);
                self.put(step, *to, who);
            }
            Op::Fill { .. } => {}
        }
        Ok(())
    }
}

/// How many steps load a container.
fn loads_in(ops: &[Op]) -> usize {
    let mut loads = 0usize;
    for op in ops {
        if matches!(op, Op::Lift(Lift::Load(_))) {
            loads = loads.saturating_add(1);
        }
    }
    loads
}

/// The identifications of the items of a bay plan, of each whether it is for the port; and room for
/// those of so many loads.
fn names_of(
    alloc: Global,
    items: &[Item],
    entries: &[Entry],
    loads: usize,
) -> Result<Identifications, AllocError> {
    let mut names = IndexMap::with_capacity(alloc, items.len().saturating_add(loads))?;
    let mut place = 0usize;
    for item in items {
        let is_for_port = match entries.get(place) {
            Some(entry) => entry.is_for_port,
            None => false,
        };
        let _ = add_name(&mut names, item, is_for_port)?;
        place = place.saturating_add(1);
    }
    Ok(names)
}

/// Adds identifications that two items of the bay plan have: N14.
fn add_twice(
    alloc: Global,
    notices: &mut Notices,
    names: &Identifications,
) -> Result<(), AllocError> {
    let mut count = 0u32;
    let mut first = String::new(alloc);
    for (id, known) in names.iter() {
        if known.aboard > 1 {
            if count == 0 {
                let id = shown_word(alloc, id.as_slice())?;
                let one = cell_text(alloc, known.first)?;
                let other = cell_text(alloc, known.second)?;
                first = format!(in alloc; "{id} in {one} and {other}")?;
            }
            count = count.saturating_add(1);
        }
    }
    if count > 0 {
        let count = many(alloc, count, "identification")?;
        notices.add(
            "N14",
            "bay plan",
            format!(in alloc; "{count} twice: {first}")?,
        )?;
    }
    Ok(())
}

/// Adds loads of an identification that is aboard: N14.
fn add_loaded_twice(
    alloc: Global,
    notices: &mut Notices,
    ops: &[Op],
    odd: &Occurs<OddLift>,
) -> Result<(), AllocError> {
    let Some(OddLift { step, .. }) = odd.first else {
        return Ok(());
    };
    let count = many(alloc, odd.count, "load")?;
    let id = match ops.get((step as usize).wrapping_sub(1)) {
        Some(Op::Lift(Lift::Load(item))) => shown_word(alloc, item.id.as_slice())?,
        _ => String::new(alloc),
    };
    let text = format!(in alloc; "{count} of an identification aboard: {id}, step {step}")?;
    notices.add("N14", STEPS, text)
}

/// Adds discharges of another mass than is aboard: N15.
fn add_other_mass(
    alloc: Global,
    notices: &mut Notices,
    odd: &Occurs<OtherMass>,
) -> Result<(), AllocError> {
    let Some(
        OtherMass {
            step,
            named,
            aboard,
        },
    ) = odd.first
    else {
        return Ok(());
    };
    let count = many(alloc, odd.count, "discharge")?;
    let named = in_thousandths(alloc, i128::from(named))?;
    let aboard = in_thousandths(alloc, i128::from(aboard))?;
    let text = format!(in alloc;
        "{count} with another mass: step {step}, {named} t, aboard {aboard}"
    )?;
    notices.add("N15", STEPS, text)
}

/// Adds lifts out of cells over which another container stands: N16.
fn add_under(alloc: Global, notices: &mut Notices, odd: &Occurs<Under>) -> Result<(), AllocError> {
    let Some(Under { lift, above }) = odd.first else {
        return Ok(());
    };
    let count = many(alloc, odd.count, "lift")?;
    let step = lift.step;
    let cell = cell_text(alloc, lift.cell)?;
    let above = cell_text(alloc, above)?;
    let text = format!(in alloc;
        "{count} from under another container: step {step}, {cell} under {above}"
    )?;
    notices.add("N16", STEPS, text)
}

/// Adds lifts into cells below which nobody stands: N17.
fn add_hanging(
    alloc: Global,
    notices: &mut Notices,
    odd: &Occurs<OddLift>,
) -> Result<(), AllocError> {
    let Some(OddLift { step, cell }) = odd.first else {
        return Ok(());
    };
    let count = many(alloc, odd.count, "lift")?;
    let cell = cell_text(alloc, cell)?;
    let text = format!(in alloc; "{count} onto an empty cell below: step {step}, {cell}")?;
    notices.add("N17", STEPS, text)
}

/// Adds what is odd of the steps: N14 to N17.
fn add_steps(
    alloc: Global,
    notices: &mut Notices,
    ops: &[Op],
    odd: &OddSteps,
) -> Result<(), AllocError> {
    add_loaded_twice(alloc, notices, ops, &odd.loaded_twice)?;
    add_other_mass(alloc, notices, &odd.other_mass)?;
    add_under(alloc, notices, &odd.under)?;
    add_hanging(alloc, notices, &odd.hanging)
}

/// The containers of the bay plan for the port that are aboard at the end.
#[derive(Clone, Copy)]
struct Left<'a> {
    count: u32,
    /// The one in the least cell.
    least: Option<(Cell, &'a Item)>,
}

/// Which containers of the bay plan for the port are aboard at the end.
fn left_in<'a>(walk: &Walk<'a>) -> Left<'a> {
    let mut left = Left {
        count: 0,
        least: None,
    };
    if !walk.has_some_for_port {
        return left;
    }
    for berth in walk.cargo.berths() {
        if berth.who == NOBODY {
            continue;
        }
        let Some(item) = item_of(walk.items, walk.ops, berth.who) else {
            continue;
        };
        let is_for_port = match walk.names.get(&item.id) {
            Some(known) => known.is_for_port,
            None => false,
        };
        if is_for_port {
            left.count = left.count.saturating_add(1);
            let Cell { bay, row, tier } = berth.cell;
            let is_less = match left.least {
                Some((other, _)) => (bay, row, tier) < (other.bay, other.row, other.tier),
                None => true,
            };
            if is_less {
                left.least = Some((berth.cell, item));
            }
        }
    }
    left
}

/// Adds the containers of the bay plan for the port of the instruction that stay aboard: N18.
fn add_left(
    alloc: Global,
    notices: &mut Notices,
    walk: &Walk<'_>,
    port: &str,
) -> Result<(), AllocError> {
    let Left { count, least } = left_in(walk);
    let Some((cell, item)) = least else {
        return Ok(());
    };
    let id = shown_word(alloc, item.id.as_slice())?;
    let cell = cell_text(alloc, cell)?;
    let port = front(alloc, port, 12)?;
    let verb = if count == 1 { "stays" } else { "stay" };
    let count = many(alloc, count, "container")?;
    let text = format!(in alloc; "{count} for {port} {verb} aboard: {id} in {cell}")?;
    notices.add("N18", STEPS, text)
}

/// Adds that the first record of a steps file is taken for its heading, where it is a step: N19.
fn add_heading(alloc: Global, notices: &mut Notices, text: &[u8]) -> Result<(), AllocError> {
    if let Some(fields) = record_at(alloc, text, 0)? {
        let first = field(&fields, 0).trim_ascii();
        if first == b"lift".as_slice()
            || first == b"tank".as_slice()
            || first == b"restow".as_slice()
        {
            let text = String::from_str(
                alloc,
                "its first record is taken for the heading, and not done",
            )?;
            notices.add("N19", "steps file", text)?;
        }
    }
    Ok(())
}

/// What is told of the items and the lifts beyond themselves, and the cells of the ship.
#[derive(Clone, Copy)]
struct Entries<'a> {
    items: &'a [Entry],
    lifts: &'a [Entry],
    cells: &'a [CellRow],
}

/// Adds what is odd of what is aboard, and of the steps: N14 to N18.
fn add_cargo(
    alloc: Global,
    notices: &mut Notices,
    told: Entries<'_>,
    file: Option<&[u8]>,
    port: &str,
    case: Case<'_>,
) -> Result<(), AllocError> {
    let items = case.arrival.items();
    let ops = case.sequence.ops();
    let steps = case.lines().saturating_sub(1);
    let lifts = lifts_in_call(alloc, told.lifts.len(), file, steps)?;
    let mut walk = Walk {
        items,
        ops,
        entries: told.lifts,
        cargo: arrive(alloc, told.cells, items)?,
        names: names_of(alloc, items, told.items, loads_in(ops))?,
        has_some_for_port: told.items.iter().any(|entry| entry.is_for_port),
        odd: OddSteps {
            loaded_twice: Occurs::never(),
            other_mass: Occurs::never(),
            under: Occurs::never(),
            hanging: Occurs::never(),
        },
    };
    add_twice(alloc, notices, &walk.names)?;
    let mut step = 0u32;
    for op in ops {
        let lift = match lifts.get(step as usize) {
            Some(lift) => *lift,
            None => None,
        };
        step = step.saturating_add(1);
        walk.go(op, step, lift)?;
    }
    add_steps(alloc, notices, ops, &walk.odd)?;
    add_left(alloc, notices, &walk, port)
}

/// What the messages of a port call say, and what is odd of them by themselves: it is told without
/// what is aboard, so that it may be found beside the reading.
#[derive(Drop)]
pub struct Marks {
    /// The cells of the ship.
    pub cells: Vec<CellRow>,
    pub plan: Identity,
    pub moves: Identity,
    /// N1 to N11.
    notices: Notices,
    items: Vec<Entry>,
    lifts: Vec<Entry>,
}

/// What a message says, what is odd of it by itself, and its entries.
#[derive(Drop)]
struct Told {
    identity: Identity,
    entries: Vec<Entry>,
}

/// Adds the notices on a message, N1 to N11, and gives what it says; of its entries whether they
/// are for a port.
fn told_by(
    alloc: Global,
    notices: &mut Notices,
    message: MessageText<'_>,
    port: Option<&[u8]>,
) -> Result<Told, AllocError> {
    let opened = message.message();
    let identity = identity_of(alloc, opened.as_ref())?;
    let Some(opened) = opened else {
        return Ok(Told {
            identity,
            entries: Vec::new(alloc),
        });
    };
    let entries = add_notices_on(alloc, notices, message, &opened, &identity, port)?;
    Ok(Told { identity, entries })
}

/// What the messages of a port call say, and what is odd of them by themselves.
pub fn marks_of(alloc: Global, inputs: &Inputs<'_>) -> Result<Marks, AllocError> {
    let (plan, moves) = messages_of(inputs);
    let mut of_moves = Notices::new(alloc);
    let moves = told_by(alloc, &mut of_moves, moves, None)?;
    let port = moves.identity.port.as_bytes();
    let port = if port.is_empty() { None } else { Some(port) };
    let mut notices = Notices::new(alloc);
    let plan = told_by(alloc, &mut notices, plan, port)?;
    notices.append(of_moves.into_list())?;
    Ok(Marks {
        plan: plan.identity,
        moves: moves.identity,
        notices,
        items: plan.entries,
        lifts: moves.entries,
        cells: cells_in(alloc, inputs.profile.cells)?,
    })
}

/// What is odd of the cargo and of the steps of a port call of these messages: N14 to N18.
/// `steps` is the text of its steps file.
pub fn cargo_notices(
    alloc: Global,
    marks: &Marks,
    steps: Option<&[u8]>,
    case: Case<'_>,
) -> Result<Vec<Notice>, AllocError> {
    let mut notices = Notices::new(alloc);
    let told = Entries {
        items: marks.items.as_slice(),
        lifts: marks.lifts.as_slice(),
        cells: marks.cells.as_slice(),
    };
    let port = marks.moves.port.as_str();
    add_cargo(alloc, &mut notices, told, steps, port, case)?;
    Ok(notices.into_list())
}

/// What of a port call was read otherwise than its writers may have meant, or not at all, in the
/// order of the codes N1 to N19: of the bay plan, of the instruction, and of both with the profile
/// and the steps. `cargo` is what [`cargo_notices`] finds of it, `steps` the text of its steps
/// file, and `name` the ship's name in her profile.
pub fn notices_on(
    alloc: Global,
    marks: Marks,
    cargo: Vec<Notice>,
    steps: Option<&[u8]>,
    name: &str,
) -> Result<Vec<Notice>, AllocError> {
    let Marks {
        plan,
        moves,
        mut notices,
        ..
    } = marks;
    add_ships(alloc, &mut notices, &plan, &moves, name)?;
    add_ports(alloc, &mut notices, &plan, &moves)?;
    notices.append(cargo)?;
    if let Some(text) = steps {
        add_heading(alloc, &mut notices, text)?;
    }
    Ok(notices.into_list())
}
