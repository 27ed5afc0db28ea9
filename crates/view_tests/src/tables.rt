//! The records of tables, and the keys of ship.toml.
use crate::checks::{holds, same};
use std::test::Fail;
use units_core::Cell;
use view_inputs::{
    cell_named, cell_text, cells_in, document, elements, line_beginning, number_in, table_at,
    tanks_in, text_in, unread_keys,
};
use view_quotes::{PlainLines, field, line_of_record, number_at, record_at, split_field};

/// The first record is the heading; a line that is blank, and one of a field in quotes, count as
/// the lines that they are.
#[test]
fn records_and_their_lines(rt: HostRuntime) -> Result<(), Fail> {
    let alloc = rt.alloc();
    let text = b"tank,kg\n\nA,12\r\n\"B\nC\",34\nD,56";
    let Some(second) = record_at(alloc, text, 1)? else {
        panic!(&rt; "there is no record 2")
    };
    same(&rt, field(&second, 0), b"A".as_slice());
    same(&rt, field(&second, 5), b"".as_slice());
    same(&rt, number_at(&second, 1), 12);
    same(&rt, number_at(&second, 0), 0);
    holds(&rt, record_at(alloc, text, 4)?.is_none());
    let Some(line) = line_of_record(alloc, text, 2)? else {
        panic!(&rt; "record 2 stands on no line")
    };
    same(&rt, line.number, 3);
    same(&rt, line.text, b"A,12".as_slice());
    // two lines, of which none is the record
    holds(&rt, line_of_record(alloc, text, 3)?.is_none());
    Ok(())
}

/// The lines of a text without quotes, whatever ends them, and the first field of one.
#[test]
fn plain_lines(rt: HostRuntime) -> Result<(), Fail> {
    let mut lines = PlainLines::of(b"a,b\r\nc\n\rd").ok_or("lines")?;
    for line in [
        b"a,b".as_slice(),
        b"c".as_slice(),
        b"".as_slice(),
        b"d".as_slice(),
    ] {
        same(&rt, lines.next_line(), Some(line));
    }
    same(&rt, lines.next_line(), None);
    holds(&rt, PlainLines::of(b"a,\"b\"").is_none());
    same(&rt, split_field(b"a,b,c").0, b"a".as_slice());
    same(&rt, split_field(b"a,b,c").1, b"b,c".as_slice());
    Ok(())
}

/// A cell in six digits is the one with a zero before them; a record without a cell is passed over,
/// and counts.
#[test]
fn cells(rt: HostRuntime) -> Result<(), Fail> {
    let alloc = rt.alloc();
    let cell = Cell {
        bay: 21,
        row: 3,
        tier: 84,
    };
    holds(&rt, cell_named(b" 210384 ") == Some(cell));
    holds(&rt, cell_named(b"0210384").is_some());
    holds(&rt, cell_named(b"21-03-84").is_none());
    same(&rt, cell_text(alloc, cell)?.as_str(), "0210384");
    let text = b"cell,x,y,z,half\nnone,1,2,3,4\n210384,5,-6,7,8\n";
    let rows = cells_in(alloc, text)?;
    same(&rt, rows.len(), 1);
    let Some(row) = rows.first() else {
        panic!(&rt; "there is no cell")
    };
    holds(&rt, row.cell == cell);
    same(&rt, row.record, 3);
    holds(
        &rt,
        row.x == 5 && row.y == -6 && row.z == 7 && row.half == 8,
    );
    Ok(())
}

/// Cells are the same with quotes and without, whatever ends a line; an empty line is no record.
#[test]
fn cells_in_quotes(rt: HostRuntime) -> Result<(), Fail> {
    let alloc = rt.alloc();
    let plain = b"cell,x,y,z,half\r\n\r\n210384,5,-6,7,8\r220384 , 1,2\n\n0230384,,,,9";
    let quoted = b"cell,x,y,z,half\r\n\r\n\"210384\",5,-6,7,8\r220384 , 1,2\n\n0230384,,,,9";
    let (plain, quoted) = (cells_in(alloc, plain)?, cells_in(alloc, quoted)?);
    same(&rt, (plain.len(), quoted.len()), (3, 3));
    for (one, other) in plain.iter().zip(quoted.iter()) {
        holds(&rt, one.cell == other.cell);
        same(&rt, one.record, other.record);
        same(
            &rt,
            (one.x, one.y, one.z, one.half),
            (other.x, other.y, other.z, other.half),
        );
    }
    Ok(())
}

/// Two tanks of two records and of one.
#[test]
fn tanks(rt: HostRuntime) -> Result<(), Fail> {
    let alloc = rt.alloc();
    let text = b"tank,kg,x,y,z,half,fsm\nDB 1,10,1,2,3,4,5\nDB 1,70,1,2,3,4,5\nFP,20,9,8,7,6,5\n";
    let tanks = tanks_in(alloc, text)?;
    same(&rt, tanks.len(), 2);
    let (Some(first), Some(second)) = (tanks.first(), tanks.get(1)) else {
        panic!(&rt; "there are fewer tanks")
    };
    same(&rt, first.name_line(alloc)?.as_str(), "DB 1");
    holds(&rt, first.reach() == (10, 70));
    same(&rt, first.record, 2);
    same(&rt, second.record, 4);
    let Some(filling) = second.rows.first() else {
        panic!(&rt; "the tank has no record")
    };
    holds(&rt, filling.kg == 20 && filling.x == 9 && filling.y == 8);
    holds(
        &rt,
        filling.z == 7 && filling.half == 6 && filling.surface == 5,
    );
    Ok(())
}

/// What ship.toml holds: `lpb_mm` is a slip of the pen, and `colour` none of the keys of a block.
#[test]
fn keys(rt: HostRuntime) -> Result<(), Fail> {
    let alloc = rt.alloc();
    let text =
        b"name = \"BOX\"\nlpb_mm = 7\n[[blocks]]\nkg = 8\n[[blocks]]\nkg = 9\ncolour = \"red\"\n";
    let Some(table) = document(alloc, text)? else {
        panic!(&rt; "it is no document")
    };
    same(&rt, text_in(&table, "name"), "BOX");
    same(&rt, number_in(&table, "lpb_mm"), 7);
    same(&rt, number_in(&table, "lbp_mm"), 0);
    same(&rt, elements(&table, "blocks").len(), 2);
    same(
        &rt,
        table_at(&table, "blocks", 2).map(|block| number_in(block, "kg")),
        Some(9),
    );
    let Some(line) = line_beginning(text, "[[blocks]]", 2) else {
        panic!(&rt; "there is no such line")
    };
    same(&rt, line.number, 5);
    same(&rt, line.text, b"[[blocks]]".as_slice());
    let names = unread_keys(alloc, text, &table)?;
    same(&rt, names.len(), 2);
    let mut shown = String::new(alloc);
    for name in names.iter() {
        for byte in name {
            shown.push(char::from(*byte))?;
        }
        shown.push(' ')?;
    }
    same(&rt, shown.as_str(), "lpb_mm blocks.colour ");
    holds(&rt, document(alloc, b"lbp_mm = 1,000")?.is_none());
    Ok(())
}
