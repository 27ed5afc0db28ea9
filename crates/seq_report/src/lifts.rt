ghost use Rattle.std.specs.Prelude.{◌≡◌, ◌+◌, ◌≤◌, ◌++◌, length, map, option_map, codes};
ghost use Rattle.port_call.specs.Shown.{cell_text, shown};
ghost use Rattle.seq_report.specs.Lifts.{lift_text, op_text};

use decimal_text::BackwardText;
use lift_sequence::Op;
use port_call::printable;
use stow_messages::Lift;
use units_core::Cell;

/// Writes a cell in its seven digits before the line.
fn put_cell(line: &mut BackwardText<'_>, cell: Cell)
    requires room { length line.old + 60 ≤ 2048 }
    ensures text { line.new ≡ cell_text cell ++ line.old }
    ensures short { length line.new ≤ length line.old + 60 }
{
    line.put_in_digits(u64::from(cell.tier), 2);
    line.put_in_digits(u64::from(cell.row), 2);
    line.put_in_digits(u64::from(cell.bay), 3);
}

/// Writes the name of a tank before the line.
fn put_name(line: &mut BackwardText<'_>, name: &[u8])
    requires room { length name.now + length line.old ≤ 2048 }
    ensures { line.new ≡ map shown name.now ++ line.old }
{
    let mut left = name.len();
    while left > 0 {
        left -= 1;
        line.put_byte(printable(name[left]));
    }
}

/// Writes the two cells of a restow before the line.
fn put_cells(line: &mut BackwardText<'_>, from: Cell, to: Cell)
    requires room { length line.old + 121 ≤ 2048 }
    ensures text { line.new ≡ (cell_text from ++ (codes ">" ++ cell_text to)) ++ line.old }
    ensures short { length line.new ≤ length line.old + 121 }
{
    put_cell(line, to);
    line.put_byte(b'>');
    put_cell(line, from);
}

/// Writes a step before the line: a letter for its kind, and the cell, the tank or both cells.
fn put_op(line: &mut BackwardText<'_>, op: &Op)
    requires room { length line.old + 122 ≤ 2048 }
    ensures text { line.new ≡ op_text op.now ++ line.old }
    ensures short { length line.new ≤ length line.old + 122 }
{
    match op {
        Op::Lift(Lift::Load(item)) => {
            put_cell(line, item.cell);
            line.put_byte(b'L');
        }
        Op::Lift(Lift::Discharge { cell, .. }) => {
            put_cell(line, *cell);
            line.put_byte(b'D');
        }
        Op::Fill { name, .. } => {
            put_name(line, name.as_slice());
            line.put_byte(b'T');
        }
        Op::Restow { from, to, .. } => {
            put_cells(line, *from, *to);
            line.put_byte(b'R');
        }
    }
}

/// Writes what leads to a step before the rest of its line; nothing leads to the condition on
/// arrival.
pub fn put_lift(line: &mut BackwardText<'_>, lift: Option<&Op>)
    requires room { length line.old + 122 ≤ 2048 }
    ensures text { line.new ≡ lift_text (option_map (λ op. op.now) lift.entry) ++ line.old }
    ensures short { length line.new ≤ length line.old + 122 }
{
    match lift {
        Some(op) => put_op(line, op),
        None => line.put_byte(b'-'),
    }
}
