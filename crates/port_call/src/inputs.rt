ghost use Rattle.std.specs.Prelude.{option_map};
ghost use Rattle.port_call.specs.Inputs.{rows_of};
ghost use Rattle.port_call.specs.Readings.{AreMovesRead, AreOrdersRead, IsPlanRead, IsShipRead};
ghost use Rattle.port_call.specs.Readings.{Reads};
ghost use Rattle.ship_profile.specs.Record.{texts_of};

use crate::faults::InputFault;
use crate::refusals::{baplie_refusal, movins_refusal, profile_refusal, steps_refusal};
use lift_sequence::{Op, ops};
use ship_profile::{Profile, ProfileBytes};
use std::alloc::{AllocError, Global};
use stow_messages::{Item, Lift, StepRow, baplie, movins, steps};

/// The texts that a run reads. Without a steps file the steps are the lifts of the movement
/// instruction, in their order.
#[derive(Clone, Copy)]
pub struct Inputs<'a> {
    /// The files of the ship's profile.
    pub profile: ProfileBytes<'a>,
    /// The bay plan on arrival (BAPLIE).
    pub baplie: &'a [u8],
    /// The movement instruction (MOVINS).
    pub movins: &'a [u8],
    /// The planner's steps file.
    pub steps: Option<&'a [u8]>,
}

/// The ship's profile.
pub fn ship(alloc: Global, files: &ProfileBytes<'_>) -> Result<Profile, InputFault>
    ensures { IsShipRead result (texts_of files.now) }
{
    Profile::read(alloc, files).map_err(profile_refusal)
}

/// The items of the text of a bay plan.
pub fn items(alloc: Global, text: &[u8]) -> Result<Vec<Item>, InputFault>
    ensures { IsPlanRead result text.now }
{
    baplie(alloc, text).map_err(baplie_refusal)
}

/// The lifts of the text of a movement instruction.
fn lifts(alloc: Global, text: &[u8]) -> Result<Vec<Lift>, InputFault>
    ensures { AreMovesRead result text.now }
{
    movins(alloc, text).map_err(movins_refusal)
}

/// The rows of the steps file, where there is one.
fn rows(alloc: Global, text: Option<&[u8]>, lifts: u32) -> Result<Option<Vec<StepRow>>, InputFault>
    ensures { Reads (λ rows. option_map (λ r. r.items) rows)
        (rows_of (option_map (λ t. t.now) text.entry) lifts) result }
{
    let Some(text) = text else {
        return Ok(None);
    };
    Ok(Some(steps(alloc, text, lifts).map_err(steps_refusal)?))
}

/// The steps that the texts of a movement instruction and of a steps file order, where there is
/// one.
pub fn orders(alloc: Global, moves: &[u8], steps: Option<&[u8]>) -> Result<Vec<Op>, InputFault>
    ensures { AreOrdersRead result moves.now (option_map (λ t. t.now) steps.entry) }
{
    let lifts = lifts(alloc, moves)?;
    let rows = rows(alloc, steps, lifts.len() as u32)?;
    match ops(alloc, lifts, rows) {
        Ok(ops) => Ok(ops),
        Err(AllocError) => Err(InputFault::NoMemory),
    }
}
