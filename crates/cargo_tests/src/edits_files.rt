//! Files of edits with what they order, line by line, and the lines that are refused.
use crate::checks::same;
use edits_file::{EditLine, Edits, EditsFault, one_edits_file};
use lift_sequence::Op;
use std::alloc::{AllocError, Global};
use std::process::Abort;
use std::test::Fail;
use step_edits::Edit;
use stow_messages::{Item, Lift};
use units_core::Cell;

/// Bytes as text; `?` where they are none.
fn text_of(bytes: &[u8]) -> &str {
    match str::from_utf8(bytes) {
        Ok(text) => text,
        Err(_) => "?",
    }
}

/// A cell by its bay, row and tier.
fn cell(alloc: Global, cell: &Cell) -> Result<String, AllocError> {
    let Cell { bay, row, tier } = *cell;
    format!(in alloc; "{bay}/{row}/{tier}")
}

/// What a step prints: what it does, its cells, and in brackets the identification or the tank's
/// name.
fn step(alloc: Global, op: &Op) -> Result<String, AllocError> {
    match op {
        Op::Lift(Lift::Load(item)) => load(alloc, item),
        Op::Lift(Lift::Discharge { cell: from, id }) => {
            let from = cell(alloc, from)?;
            let id = text_of(id.as_slice());
            format!(in alloc; "discharge {from} [{id}]")
        }
        Op::Fill { name, kg } => {
            let name = text_of(name.as_slice());
            format!(in alloc; "fill [{name}] with {kg}")
        }
        Op::Restow { from, to, id } => {
            let from = cell(alloc, from)?;
            let to = cell(alloc, to)?;
            let id = text_of(id.as_slice());
            format!(in alloc; "restow {from} to {to} [{id}]")
        }
    }
}

/// What a load prints.
fn load(alloc: Global, item: &Item) -> Result<String, AllocError> {
    let into = cell(alloc, &item.cell)?;
    let id = text_of(item.id.as_slice());
    let kg = item.kg.get();
    format!(in alloc; "load {into} [{id}] of {kg}")
}

/// What an edit prints.
fn edit(alloc: Global, edit: &Edit) -> Result<String, AllocError> {
    match edit {
        Edit::Swap { a, b } => format!(in alloc; "{a} and {b} swapped"),
        Edit::Move { from, to } => format!(in alloc; "{from} moved to {to}"),
        Edit::Remove { at } => format!(in alloc; "{at} removed"),
        Edit::Insert { at, lift } => {
            let lift = step(alloc, lift)?;
            format!(in alloc; "at {at}: {lift}")
        }
        Edit::Reweigh { at, kg } => {
            let kg = kg.get();
            format!(in alloc; "{at} weighs {kg}")
        }
    }
}

/// What a line prints.
fn line_text(alloc: Global, line: &EditLine) -> Result<String, AllocError> {
    match line {
        EditLine::Edit(order) => edit(alloc, order),
        EditLine::Undo => Ok(String::from_str(alloc, "taken back")?),
    }
}

/// What a file orders, each line with a semicolon behind it, or the number of the line that is
/// refused.
fn answer(alloc: Global, text: &[u8]) -> Result<String, AllocError> {
    let edits = match Edits::read(text) {
        Ok(edits) => edits,
        Err(EditsFault::Line(number)) => return format!(in alloc; "line {number}"),
    };
    let mut answer = String::new(alloc);
    for line in edits {
        let one = line_text(alloc, &line)?;
        answer.push_str(one.as_str())?;
        answer.push(';')?;
    }
    Ok(answer)
}

/// Each file with its answer.
fn check(rt: &(impl Abort + AllocGlobal), rows: &[(&[u8], &str)]) -> Result<(), Fail> {
    for (text, want) in rows {
        let answer = answer(rt.alloc(), text)?;
        same(rt, answer.as_str(), *want);
    }
    Ok(())
}

/// Each form once, with numbers that all differ.
static FORMS: [(&[u8], &str); 11] = [
    (b"swap 12 3", "12 and 3 swapped;"),
    (b"move 5 41", "5 moved to 41;"),
    (b"remove 67", "67 removed;"),
    (
        b"insert 8 L 0190284 20500 ABCU1234560",
        "at 8: load 19/2/84 [ABCU1234560] of 20500;",
    ),
    (
        b"insert 9 D 0210686 XYZU7654320",
        "at 9: discharge 21/6/86 [XYZU7654320];",
    ),
    (b"insert 10 T DB1 700000", "at 10: fill [DB1] with 700000;"),
    (
        b"insert 11 R 0230488 0250382 TTTU1111117",
        "at 11: restow 23/4/88 to 25/3/82 [TTTU1111117];",
    ),
    (b"reweigh 13 24000", "13 weighs 24000;"),
    (b"undo", "taken back;"),
    // no line at all
    (b"", ""),
    // all of them after one another; the last LF is there
    (
        b"swap 1 2\nundo\nremove 3\nreweigh 4 5\n",
        "1 and 2 swapped;taken back;3 removed;4 weighs 5;",
    ),
];

#[test]
fn each_form(rt: HostRuntime) -> Result<(), Fail> {
    check(&rt, &FORMS)?;
    one_edits_file();
    Ok(())
}

/// Numbers at their limits, and one past them.
static NUMBERS: [(&[u8], &str); 20] = [
    (b"remove 0", "0 removed;"),
    (b"remove 1000000000", "1000000000 removed;"),
    (b"remove 1000000001", "line 1"),
    // ten digits, and eleven
    (b"remove 0000000007", "7 removed;"),
    (b"remove 00000000007", "line 1"),
    (b"remove 9999999999", "line 1"),
    (b"remove ", "line 1"),
    (b"remove -1", "line 1"),
    (b"remove -0", "line 1"),
    (b"remove +1", "line 1"),
    (b"remove 1x", "line 1"),
    (b"remove 0x1", "line 1"),
    (b"reweigh 1 999999", "1 weighs 999999;"),
    (b"reweigh 1 1000000", "line 1"),
    (b"reweigh 1 0000999999", "1 weighs 999999;"),
    (
        b"insert 1 L 0010082 999999 -",
        "at 1: load 1/0/82 [] of 999999;",
    ),
    (b"insert 1 L 0010082 1000000 -", "line 1"),
    (
        b"insert 1 T A 1000000000",
        "at 1: fill [A] with 1000000000;",
    ),
    (b"insert 1 T A 1000000001", "line 1"),
    (b"insert 1000000001 T A 1", "line 1"),
];

#[test]
fn limits_of_numbers(rt: HostRuntime) -> Result<(), Fail> {
    check(&rt, &NUMBERS)
}

/// Cells of six and seven digits, and others; identifications of 1 to 17 bytes, and names of 1 to
/// 16.
static WORDS: [(&[u8], &str); 20] = [
    (b"insert 1 D 010284 A", "at 1: discharge 1/2/84 [A];"),
    (b"insert 1 D 9999999 A", "at 1: discharge 999/99/99 [A];"),
    (b"insert 1 D 10284 A", "line 1"),
    (b"insert 1 D 00010284 A", "line 1"),
    (b"insert 1 D 001028x A", "line 1"),
    (
        b"insert 1 D 0010284 A2345678901234567",
        "at 1: discharge 1/2/84 [A2345678901234567];",
    ),
    (b"insert 1 D 0010284 A23456789012345678", "line 1"),
    (b"insert 1 D 0010284 -", "at 1: discharge 1/2/84 [];"),
    (b"insert 1 D 0010284 --", "at 1: discharge 1/2/84 [--];"),
    (b"insert 1 D 0010284 ", "line 1"),
    (b"insert 1 D 0010284", "line 1"),
    // any other byte stands for itself
    (
        b"insert 1 D 0010284 A\tB\r",
        "at 1: discharge 1/2/84 [A\tB\r];",
    ),
    (
        b"insert 1 D 0010284 \xc3\xa9",
        "at 1: discharge 1/2/84 [\u{e9}];",
    ),
    (b"insert 1 D 0010284 \xff", "at 1: discharge 1/2/84 [?];"),
    (
        b"insert 1 T A234567890123456 2",
        "at 1: fill [A234567890123456] with 2;",
    ),
    (b"insert 1 T A2345678901234567 2", "line 1"),
    (b"insert 1 T - 2", "at 1: fill [-] with 2;"),
    (b"insert 1 T  2", "line 1"),
    (
        b"insert 1 R 0010284 0030284 -",
        "at 1: restow 1/2/84 to 3/2/84 [];",
    ),
    (b"insert 1 R 0010284 A 0030284", "line 1"),
];

#[test]
fn words_that_are_taken(rt: HostRuntime) -> Result<(), Fail> {
    check(&rt, &WORDS)
}

/// Lines that are of no form.
static REFUSED: [(&[u8], &str); 24] = [
    (b"undo\r", "line 1"),
    (b"undo ", "line 1"),
    (b" undo", "line 1"),
    (b"Undo", "line 1"),
    (b"undo 1", "line 1"),
    (b"swap 1", "line 1"),
    (b"swap 1 2 3", "line 1"),
    (b"swap  1 2", "line 1"),
    (b"swap 1  2", "line 1"),
    (b"swap\t1 2", "line 1"),
    (b"move 1", "line 1"),
    (b"move x 2", "line 1"),
    (b"move 1 x", "line 1"),
    (b"remove 1 2", "line 1"),
    (b"reweigh 1", "line 1"),
    (b"reweigh x 1", "line 1"),
    (b"insert 1", "line 1"),
    (b"insert 1 L 0010284 5", "line 1"),
    (b"insert 1 D 0010284 5 A", "line 1"),
    (b"insert 1 X 0010284 A", "line 1"),
    (b"insert 1 l 0010284 5 A", "line 1"),
    (b"insert x D 0010284 A", "line 1"),
    (b"insert 1 L 0010284 5 A B", "line 1"),
    (b"remove 1 2 3 4 5 6 7 8", "line 1"),
];

#[test]
fn lines_of_no_form(rt: HostRuntime) -> Result<(), Fail> {
    check(&rt, &REFUSED)
}

/// Which line is refused.
static ENDS: [(&[u8], &str); 9] = [
    (b"\n", "line 1"),
    (b"undo\n", "taken back;"),
    (b"undo\n\n", "line 2"),
    (b"\nundo", "line 1"),
    (b"undo\n\nundo\n", "line 2"),
    (b"undo\r\nundo\n", "line 1"),
    (b"undo\nundo\nswap 1\nmove\n", "line 3"),
    (b"undo\nundo", "taken back;taken back;"),
    (b"undo\n \n", "line 2"),
];

#[test]
fn the_first_line_is_named(rt: HostRuntime) -> Result<(), Fail> {
    check(&rt, &ENDS)
}
