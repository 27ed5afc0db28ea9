ghost use Rattle.std.specs.Prelude.{◌≡◌, map};
ghost use Rattle.units_core.specs.Cells.{cell_in};
ghost use Rattle.edits_file.specs.Words.{step_in, mass_in, id_in, name_in};
ghost use Rattle.edits_file.specs.Forms.{load_of, discharge_of, fill_of, restow_of, short_step};
ghost use Rattle.edits_file.specs.Forms.{long_step, pair_of, removal_of, short_insert, long_insert};
ghost use Rattle.edits_file.specs.Forms.{edit_of, line_in};

use crate::words::{identification, is, mass, name, step, words_of};
use lift_sequence::Op;
use step_edits::Edit;
use stow_messages::{Item, Lift};
use units_core::Cell;

/// What a line of an edits file orders.
#[derive(Debug, Drop, PartialEq, Eq)]
pub enum EditLine {
    /// An edit is tried.
    Edit(Edit),
    /// The last edit is taken back.
    Undo,
}

/// The load of a container into a cell.
fn load(cell: &[u8], kg: &[u8], id: &[u8]) -> Option<Op>
    ensures { result ≡ load_of (cell_in cell.now) (mass_in kg.now) (id_in id.now) }
{
    let cell = Cell::read(cell)?;
    let kg = mass(kg)?;
    let id = identification(id)?;
    Some(Op::Lift(Lift::Load(Item { cell, id, kg })))
}

/// The discharge of a container from a cell.
fn discharge(cell: &[u8], id: &[u8]) -> Option<Op>
    ensures { result ≡ discharge_of (cell_in cell.now) (id_in id.now) }
{
    let cell = Cell::read(cell)?;
    let id = identification(id)?;
    Some(Op::Lift(Lift::Discharge { cell, id }))
}

/// The filling of a tank.
fn fill(tank: &[u8], kg: &[u8]) -> Option<Op>
    ensures { result ≡ fill_of (name_in tank.now) (step_in kg.now) }
{
    let name = name(tank)?;
    let kg = step(kg)?;
    Some(Op::Fill { name, kg })
}

/// The restow of a container from one cell into another.
fn restow(from: &[u8], to: &[u8], id: &[u8]) -> Option<Op>
    ensures { result ≡ restow_of (cell_in from.now) (cell_in to.now) (id_in id.now) }
{
    let from = Cell::read(from)?;
    let to = Cell::read(to)?;
    let id = identification(id)?;
    Some(Op::Restow { from, to, id })
}

/// The step that a letter and two words name.
fn short_step(letter: &[u8], a: &[u8], b: &[u8]) -> Option<Op>
    ensures { result ≡ short_step letter.now a.now b.now }
{
    if is(letter, b"D") {
        discharge(a, b)
    } else if is(letter, b"T") {
        fill(a, b)
    } else {
        None
    }
}

/// The step that a letter and three words name.
fn long_step(letter: &[u8], a: &[u8], b: &[u8], c: &[u8]) -> Option<Op>
    ensures { result ≡ long_step letter.now a.now b.now c.now }
{
    if is(letter, b"L") {
        load(a, b, c)
    } else if is(letter, b"R") {
        restow(a, b, c)
    } else {
        None
    }
}

/// The edit that a word and two numbers order.
fn pair(kind: &[u8], a: &[u8], b: &[u8]) -> Option<Edit>
    ensures { result ≡ pair_of kind.now a.now b.now }
{
    if is(kind, b"swap") {
        let a = step(a)?;
        let b = step(b)?;
        Some(Edit::Swap { a, b })
    } else if is(kind, b"move") {
        let from = step(a)?;
        let to = step(b)?;
        Some(Edit::Move { from, to })
    } else if is(kind, b"reweigh") {
        let at = step(a)?;
        let kg = mass(b)?;
        Some(Edit::Reweigh { at, kg })
    } else {
        None
    }
}

/// The removal of a step.
fn removal(kind: &[u8], at: &[u8]) -> Option<Edit>
    ensures { result ≡ removal_of kind.now at.now }
{
    if is(kind, b"remove") {
        Some(Edit::Remove { at: step(at)? })
    } else {
        None
    }
}

/// The insertion of a step of a letter and two words.
fn short_insert(kind: &[u8], at: &[u8], letter: &[u8], a: &[u8], b: &[u8]) -> Option<Edit>
    ensures { result ≡ short_insert kind.now at.now letter.now a.now b.now }
{
    if is(kind, b"insert") {
        let at = step(at)?;
        let lift = short_step(letter, a, b)?;
        Some(Edit::Insert { at, lift })
    } else {
        None
    }
}

/// The insertion of a step of a letter and three words.
fn long_insert(kind: &[u8], at: &[u8], letter: &[u8], a: &[u8], b: &[u8], c: &[u8]) -> Option<Edit>
    ensures { result ≡ long_insert kind.now at.now letter.now a.now b.now c.now }
{
    if is(kind, b"insert") {
        let at = step(at)?;
        let lift = long_step(letter, a, b, c)?;
        Some(Edit::Insert { at, lift })
    } else {
        None
    }
}

/// The edit that the words of a line order; none for those of any other line.
fn edit_of(words: &[&[u8]]) -> Option<Edit>
    ensures { result ≡ edit_of (map (λ w. w.now) words.now) }
{
    match words {
        [kind, at] => removal(kind, at),
        [kind, a, b] => pair(kind, a, b),
        [kind, at, letter, a, b] => short_insert(kind, at, letter, a, b),
        [kind, at, letter, a, b, c] => long_insert(kind, at, letter, a, b, c),
        _ => None,
    }
}

/// What a line orders; none for a line that is of no form.
pub fn line(text: &[u8]) -> Option<EditLine>
    ensures { result ≡ line_in text.now }
{
    if is(text, b"undo") {
        return Some(EditLine::Undo);
    }
    let words = words_of(text)?;
    let edit = edit_of(words.as_slice())?;
    Some(EditLine::Edit(edit))
}
