use crate::checks::same;
use lift_sequence::{SeqCode, SeqFault};
use seq_report::RunFault;
use ship_profile::{File, ProfileFault};
use std::test::Fail;
use stow_messages::{StepsCode, StepsFault, StowCode, StowFault};
use units_core::Cell;

/// A fault of each input, with numbers that tell their places apart.
static FAULTS: [(RunFault, &str); 12] = [
    (
        RunFault::Profile(ProfileFault::BadNumber(File::Hydro, 3)),
        "F1 P5 hydro.csv 3",
    ),
    (
        RunFault::Baplie(StowFault {
            code: StowCode::NoWeight,
            segment: 4,
        }),
        "F2 M6 segment 4",
    ),
    (
        RunFault::Arrival(SeqFault {
            code: SeqCode::CellTaken,
            at: 5,
        }),
        "F3 S2 item 5",
    ),
    (
        RunFault::Arrival(SeqFault {
            code: SeqCode::TankOver,
            at: 6,
        }),
        "F3 S6 fill 6",
    ),
    (
        RunFault::Movins(StowFault {
            code: StowCode::TooMany,
            segment: 7,
        }),
        "F4 M9 segment 7",
    ),
    (
        RunFault::Steps(StepsFault {
            code: StepsCode::LiftMissing,
            at: 8,
        }),
        "F9 G6 lift 8",
    ),
    (
        RunFault::Sequence(SeqFault {
            code: SeqCode::TooManySteps,
            at: 120_001,
        }),
        "F5 S7 step 120001",
    ),
    (
        RunFault::Sequence(SeqFault {
            code: SeqCode::TankOver,
            at: 9,
        }),
        "F5 S6 step 9",
    ),
    (
        RunFault::Sequence(SeqFault {
            code: SeqCode::Overlap(Cell {
                bay: 1,
                row: 23,
                tier: 4,
            }),
            at: 10,
        }),
        "F5 S3 step 10 cell 0012304",
    ),
    (
        RunFault::Sequence(SeqFault {
            code: SeqCode::UnknownTank,
            at: 11,
        }),
        "F5 S9 step 11",
    ),
    (RunFault::NoMemory, "F7"),
    (RunFault::Write(12), "F8 12"),
];

#[test]
fn fault_texts(rt: HostRuntime) -> Result<(), Fail> {
    for (fault, text) in &FAULTS {
        let shown = format!(in rt.alloc(); "{fault}")?;
        same(&rt, shown.as_str(), *text);
    }
    Ok(())
}
