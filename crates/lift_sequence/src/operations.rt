ghost use Rattle.std.specs.Prelude.{◌≡◌, IfOk, option_map, Some, None};
ghost use Rattle.stow_messages.specs.declared.step_rows.StepRow.{StepRow};
ghost use Rattle.units_core.specs.Cells.{cell_eq};
ghost use Rattle.lift_sequence.specs.Follow.{loaded_cell, moves, next_cell, reweighed};
ghost use Rattle.lift_sequence.specs.Sequence.{lift_at, op_of, ops_of};

use arrayvec::ArrayVec;
use std::alloc::{AllocError, Global};
use stow_messages::{Item, Lift, StepRow, copy_text};
use units_core::{Cell, Kg};

/// A step of a sequence.
#[derive(Debug, Drop, PartialEq, Eq)]
pub enum Op {
    /// A lift of the movement instruction.
    Lift(Lift),
    /// From now on the tank of this name holds this mass.
    Fill {
        name: ArrayVec<u8, 16>,
        kg: u32,
    },
    /// The container in the cell `from` is put into the cell `to`. An empty identification fits any
    /// container.
    Restow {
        from: Cell,
        to: Cell,
        id: ArrayVec<u8, 17>,
    },
}

/// Whether two cells are equal.
pub(crate) fn same_cell(a: Cell, b: Cell) -> bool
    ensures { result ≡ cell_eq a b }
{
    a == b
}

impl Op {
    /// An equal step.
    pub fn copy(&self) -> Op
        ensures { result ≡ self.now }
    {
        match self {
            Op::Lift(lift) => Op::Lift(lift.copy()),
            Op::Fill { name, kg } => Op::Fill {
                name: copy_text(name),
                kg: *kg,
            },
            Op::Restow { from, to, id } => Op::Restow {
                from: *from,
                to: *to,
                id: copy_text(id),
            },
        }
    }

    /// The cell into which the step loads a container; `None` where it is no load.
    pub fn loaded_cell(&self) -> Option<Cell>
        ensures { result ≡ loaded_cell self.now }
    {
        match self {
            Op::Lift(Lift::Load(item)) => Some(item.cell),
            _ => None,
        }
    }

    /// The step with another weight of the container that it loads; an equal one where it is no
    /// load.
    pub fn with_weight(&self, kg: Kg) -> Op
        ensures { result ≡ reweighed kg self.now }
    {
        match self {
            Op::Lift(Lift::Load(item)) => Op::Lift(Lift::Load(Item {
                cell: item.cell,
                id: copy_text(&item.id),
                kg,
            })),
            _ => self.copy(),
        }
    }

    /// Whether the step moves the container that is in a cell. No step moves one that is ashore
    /// (`None`).
    pub fn moves(&self, cell: Option<Cell>) -> bool
        ensures { result ≡ moves cell self.now }
    {
        match (cell, self) {
            (Some(stands), Op::Lift(Lift::Discharge { cell, .. })) => same_cell(stands, *cell),
            (Some(stands), Op::Restow { from, .. }) => same_cell(stands, *from),
            _ => false,
        }
    }

    /// The cell of a container after the step, by its cell before the step; `None` where it is
    /// ashore.
    pub fn next_cell(&self, cell: Option<Cell>) -> Option<Cell>
        ensures { result ≡ next_cell cell self.now }
    {
        match (cell, self) {
            (Some(stands), Op::Lift(Lift::Discharge { cell, .. })) => {
                if same_cell(stands, *cell) {
                    None
                } else {
                    Some(stands)
                }
            }
            (Some(stands), Op::Restow { from, to, .. }) => {
                if same_cell(stands, *from) {
                    Some(*to)
                } else {
                    Some(stands)
                }
            }
            (cell, _) => cell,
        }
    }
}

/// The lift of a number, the first being 1.
fn lift_at(lifts: &[Lift], number: u32) -> Option<Lift>
    ensures { result ≡ lift_at lifts.now number }
{
    let place = number.checked_sub(1)?;
    let lift = lifts.get(place as usize)?;
    Some(lift.copy())
}

/// The step that a row orders; `None` for a lift that isn't there.
fn op_of(lifts: &[Lift], row: &StepRow) -> Option<Op>
    ensures { result ≡ op_of lifts.now row.now }
{
    match row {
        StepRow::Lift(number) => {
            let lift = lift_at(lifts, *number)?;
            Some(Op::Lift(lift))
        }
        StepRow::Tank { name, kg } => Some(Op::Fill {
            name: copy_text(name),
            kg: *kg,
        }),
        StepRow::Restow { from, to, id } => Some(Op::Restow {
            from: *from,
            to: *to,
            id: copy_text(id),
        }),
    }
}

/// The steps of rows.
fn ops_of_rows(alloc: Global, lifts: &[Lift], rows: &[StepRow]) -> Result<Vec<Op>, AllocError>
    ensures { IfOk result (λ ops. ops.items ≡ ops_of lifts.now (Some rows.now)) }
{
    let mut ops = Vec::with_capacity(alloc, rows.len())?;
    for row in rows {
        if let Some(op) = op_of(lifts, row) {
            ops.push(op)?;
        }
    }
    Ok(ops)
}

/// The steps of lifts in their order.
fn ops_of_lifts(alloc: Global, lifts: Vec<Lift>) -> Result<Vec<Op>, AllocError>
    ensures { IfOk result (λ ops. ops.items ≡ ops_of lifts.items None) }
{
    // `collect` would try a growth that was refused once more, and a step less at a time.
    let mut ops = Vec::with_capacity(alloc, lifts.len())?;
    for lift in lifts {
        ops.push(Op::Lift(lift))?;
    }
    Ok(ops)
}

/// The steps of a sequence: those that the rows of a steps file order, where there is one, and else
/// the lifts of the movement instruction in their order. The rows are those that
/// [`stow_messages::steps`] gave for these lifts; a row of a lift that isn't there orders nothing.
pub fn ops(
    alloc: Global,
    lifts: Vec<Lift>,
    rows: Option<Vec<StepRow>>,
) -> Result<Vec<Op>, AllocError>
    ensures { IfOk result (λ ops. ops.items ≡ ops_of lifts.items (option_map (λ r. r.items) rows)) }
{
    match rows {
        Some(rows) => ops_of_rows(alloc, &lifts, &rows),
        None => ops_of_lifts(alloc, lifts),
    }
}
