use crate::checks::same;
use lift_sequence::SeqCode;
use std::test::Fail;
use units_core::Cell;

/// Every code as it is printed.
static CODES: [(SeqCode, &str); 9] = [
    (SeqCode::UnknownCell, "S1"),
    (SeqCode::CellTaken, "S2"),
    (
        SeqCode::Overlap(Cell {
            bay: 2,
            row: 0,
            tier: 82,
        }),
        "S3",
    ),
    (SeqCode::CellEmpty, "S4"),
    (SeqCode::WrongContainer, "S5"),
    (SeqCode::TankOver, "S6"),
    (SeqCode::TooManySteps, "S7"),
    (SeqCode::NoMemory, "S8"),
    (SeqCode::UnknownTank, "S9"),
];

#[test]
fn codes_in_print(rt: HostRuntime) -> Result<(), Fail> {
    for (code, text) in &CODES {
        let shown = format!(in rt.alloc(); "{code}")?;
        same(&rt, shown.as_str(), *text);
    }
    Ok(())
}
