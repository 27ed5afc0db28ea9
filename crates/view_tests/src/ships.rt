//! A profile read back, what looks wrong of it, and what is said of refusals.
use crate::checks::{holds, same};
use box_ship::{Check, EMPTY_PLAN, NO_MOVES, files, on_box_ship};
use port_call::{Inputs, RunFault};
use ship_profile::{File, Profile, ProfileBytes, ProfileFault};
use std::process::Abort;
use std::test::Fail;
use stow_messages::{StepsCode, StepsFault};
use view_inputs::{Names, cells_in};
use view_profile::{Parts, profile_text, warnings_on};
use view_refusals::{profile_refusal_of, refusal_of, unread_file};

/// Looks at the warnings on the box ship, and at her text.
#[derive(Clone, Copy)]
struct ReadBack;

impl<R: AllocGlobal + Abort> Check<R> for ReadBack {
    // Her stations reach beyond hydro.csv, KMT is off the line since BM falls as 1 / T, KN at 5
    // degrees is given too small, and her tank begins without a free surface.
    fn check(&self, rt: &R, profile: &Profile) -> Result<(), Fail> {
        let alloc = rt.alloc();
        let cells = cells_in(alloc, files().cells)?;
        let parts = Parts::new(alloc, files(), profile, cells.as_slice())?;
        let mut codes = String::new(alloc);
        for warning in &warnings_on(alloc, &parts)? {
            codes.push_str(warning.code)?;
            codes.push(' ')?;
        }
        same(rt, codes.as_str(), "V4 V8 V11 V16 ");
        let text = profile_text(alloc, "box", "BOX", "00ff", &parts)?;
        holds(
            rt,
            text.as_str()
                .starts_with("PROFILE  box  BOX\nsha256   00ff\n\nSHIP AND LIMITS\n"),
        );
        holds(
            rt,
            text.as_str()
                .ends_with("at 0.000 t\n\nPROFILE READ, 4 WARNINGS\n"),
        );
        Ok(())
    }
}

#[test]
fn a_ship_read_back(rt: HostRuntime) -> Result<(), Fail> {
    on_box_ship(&rt, &ReadBack)
}

/// The box ship with a mistake in hydro.csv, record 3.
fn with_mistake() -> ProfileBytes<'static> {
    let mut ship = files();
    ship.hydro =
        b"kg,draught,kmt,lcb,lcf,mct\n4100000,2000,17667,50000,50000,17000000\n8200000,4.000,10333,50000,50000,17000000\n";
    ship
}

/// A run over her that does nothing, with a steps file that orders a lift.
fn run_of(ship: ProfileBytes<'static>) -> (Inputs<'static>, Names<'static>) {
    let inputs = Inputs {
        profile: ship,
        baplie: EMPTY_PLAN,
        movins: NO_MOVES,
        steps: Some(b"kind,a,b,c\nlift,1,,\n"),
    };
    let names = Names {
        folder: "box",
        baplie: "plan.edi",
        movins: "moves.edi",
        steps: Some("order.csv"),
    };
    (inputs, names)
}

/// A refused profile, by itself and as a part of a run.
#[test]
fn refused_profile(rt: HostRuntime) -> Result<(), Fail> {
    let alloc = rt.alloc();
    let fault = ProfileFault::BadNumber(File::Hydro, 3);
    let text = profile_refusal_of(alloc, fault, &with_mistake())?;
    holds(
        &rt,
        text.as_str()
            .starts_with("\nWHAT    Field 2, \"4.000\", is no whole number.\n"),
    );
    let (inputs, names) = run_of(with_mistake());
    let whole = refusal_of(alloc, RunFault::Profile(fault), &inputs, &names)?;
    same(&rt, whole.as_str(), text.as_str());
    Ok(())
}

/// A refused steps file; and where there is no memory, or a file can't be read, no input is told
/// of.
#[test]
fn refused_steps(rt: HostRuntime) -> Result<(), Fail> {
    let alloc = rt.alloc();
    let (inputs, names) = run_of(files());
    let fault = StepsFault {
        at: 2,
        code: StepsCode::NoLift,
    };
    let text = refusal_of(alloc, RunFault::Steps(fault), &inputs, &names)?;
    same(
        &rt,
        text.as_str(),
        "\nWHAT    The instruction hasn't this lift.\nWHERE   steps file order.csv, record 2 (line 2):\n            lift,1,,\nHERE    The instruction has lifts 1 to 0.\nDO      Lifts are numbered from 1 in the order of the instruction.\n",
    );
    let none = refusal_of(alloc, RunFault::NoMemory, &inputs, &names)?;
    holds(&rt, none.is_empty());
    let unread = unread_file(alloc)?;
    holds(
        &rt,
        unread
            .as_str()
            .starts_with("\nWHAT    The file can't be read:"),
    );
    Ok(())
}
