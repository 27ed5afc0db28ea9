//! Who stands in a cell after some steps.
ghost use Rattle.std.specs.Prelude.{◌≡◌, List, option_map};
ghost use Rattle.units_core.specs.Cells.{cell_eq};
ghost use Rattle.ship_profile.specs.Record.{ProfileRecord};
ghost use Rattle.ship_profile.specs.declared.fills.TankFill.{TankFill};
ghost use Rattle.lift_sequence.specs.Aboard.{Aboard, after_all, after_step, container_of};
ghost use Rattle.lift_sequence.specs.Arrival.{on_arrival};
ghost use Rattle.view_quotes.specs.Standing.{container_in, told_by};

use lift_sequence::Op;
use stow_messages::{Item, Lift};
use units_core::Cell;

/// A container that stands in a cell.
#[derive(Clone, Copy)]
pub struct Standing<'a> {
    /// The item of the bay plan, or of the load, that it came as.
    pub item: &'a Item,
    /// The number of the step that put it into the cell; 0 where it was there on arrival.
    pub since: u32,
}

/// Who is in a cell after a step, by what was aboard before it.
#[derive(Clone, Copy)]
enum Before<'a> {
    /// Nobody.
    Nobody,
    /// The container that the step loads.
    Loaded(&'a Item),
    /// Who was in the cell.
    Same,
    /// Who was in this cell, and was restowed.
    Restowed(Cell),
}

/// Whether two cells are one.
fn same_cell(a: Cell, b: Cell) -> bool
    ensures { result ≡ cell_eq a b }
{
    a == b
}

/// Who is in a cell after a step.
fn before_step<'a>(op: &'a Op, cell: Cell) -> Before<'a>
    ensures { (ship : ProfileRecord) (at : Aboard)
        → (after_step ship at op.now).cells cell ≡ told_by at cell result }
{
    match op {
        Op::Lift(Lift::Load(item)) if same_cell(item.cell, cell) => Before::Loaded(item),
        Op::Lift(Lift::Discharge { cell: from, .. }) if same_cell(*from, cell) => Before::Nobody,
        Op::Restow { from, to, .. } => {
            if same_cell(*to, cell) {
                Before::Restowed(*from)
            } else if same_cell(*from, cell) {
                Before::Nobody
            } else {
                Before::Same
            }
        }
        _ => Before::Same,
    }
}

/// The item of a bay plan in a cell.
fn item_in<'a>(items: &'a [Item], cell: Cell) -> Option<&'a Item>
    ensures { (fills : List TankFill) → option_map (λ item. container_of item.now) result
        ≡ (on_arrival items.now fills).cells cell }
{
    let mut rest = items;
    while let Some((item, before)) = rest.split_last() {
        if same_cell(item.cell, cell) {
            return Some(item);
        }
        rest = before;
    }
    None
}

/// The container that stands in a cell after some steps, each of which can be done, from an arrival
/// with these items.
pub fn stands<'a>(items: &'a [Item], ops: &'a [Op], cell: Cell) -> Option<Standing<'a>>
    ensures { (ship : ProfileRecord) (fills : List TankFill) → option_map container_in result
        ≡ (after_all ship (on_arrival items.now fills) ops.now).cells cell }
{
    let mut rest = ops;
    let mut place = cell;
    let mut since: Option<u32> = None;
    while let Some((op, before)) = rest.split_last() {
        let number = u32::try_from(rest.len()).unwrap_or(u32::MAX);
        match before_step(op, place) {
            Before::Nobody => return None,
            Before::Loaded(item) => {
                return Some(Standing {
                    item,
                    since: since.unwrap_or(number),
                });
            }
            Before::Same => {}
            Before::Restowed(from) => {
                place = from;
                since = since.or(Some(number));
            }
        }
        rest = before;
    }
    match item_in(items, place) {
        Some(item) => Some(Standing {
            item,
            since: since.unwrap_or(0),
        }),
        None => None,
    }
}
