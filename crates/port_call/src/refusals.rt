//! The refusals of single inputs and of the cuts, as those of a run. Out of memory stays out of
//! memory, and is never inside another refusal.
ghost use Rattle.std.specs.Prelude.{◌≡◌, ◌≢◌, false};
ghost use Rattle.port_call.specs.Refusals.{TellsMemory, cuts_refusal, is_refusal, is_write_fault};
ghost use Rattle.port_call.specs.Refusals.{run_fault};

use crate::faults::{InputFault, RunFault};
use lift_sequence::{SeqCode, SeqFault};
use prefix_scan::CutFault;
use ship_profile::ProfileFault;
use stow_messages::{StepsCode, StepsFault, StowCode, StowFault};

/// A refusal of the profile.
pub fn profile_refusal(fault: ProfileFault) -> InputFault
    ensures told { result ≢ InputFault.NoMemory → (fault ≢ ProfileFault.NoMemory)
        × (result ≡ InputFault.Profile fault) }
    ensures memory { TellsMemory (run_fault result) }
{
    match fault {
        ProfileFault::NoMemory => InputFault::NoMemory,
        fault => InputFault::Profile(fault),
    }
}

/// A refusal of the bay plan.
pub fn baplie_refusal(fault: StowFault) -> InputFault
    ensures told { result ≢ InputFault.NoMemory → (fault.code ≢ StowCode.NoMemory)
        × (result ≡ InputFault.Baplie fault) }
    ensures memory { TellsMemory (run_fault result) }
{
    match fault.code {
        StowCode::NoMemory => InputFault::NoMemory,
        _ => InputFault::Baplie(fault),
    }
}

/// A refusal of the condition on arrival.
pub fn arrival_refusal(fault: SeqFault) -> InputFault
    ensures told { result ≢ InputFault.NoMemory → (fault.code ≢ SeqCode.NoMemory)
        × (result ≡ InputFault.Arrival fault) }
    ensures memory { TellsMemory (run_fault result) }
{
    match fault.code {
        SeqCode::NoMemory => InputFault::NoMemory,
        _ => InputFault::Arrival(fault),
    }
}

/// A refusal of the movement instruction.
pub fn movins_refusal(fault: StowFault) -> InputFault
    ensures told { result ≢ InputFault.NoMemory → (fault.code ≢ StowCode.NoMemory)
        × (result ≡ InputFault.Movins fault) }
    ensures memory { TellsMemory (run_fault result) }
{
    match fault.code {
        StowCode::NoMemory => InputFault::NoMemory,
        _ => InputFault::Movins(fault),
    }
}

/// A refusal of the steps file.
pub fn steps_refusal(fault: StepsFault) -> InputFault
    ensures told { result ≢ InputFault.NoMemory → (fault.code ≢ StepsCode.NoMemory)
        × (result ≡ InputFault.Steps fault) }
    ensures memory { TellsMemory (run_fault result) }
{
    match fault.code {
        StepsCode::NoMemory => InputFault::NoMemory,
        _ => InputFault::Steps(fault),
    }
}

/// A refusal of the sequence of steps.
pub fn sequence_refusal(fault: SeqFault) -> InputFault
    ensures told { result ≢ InputFault.NoMemory → (fault.code ≢ SeqCode.NoMemory)
        × (result ≡ InputFault.Sequence fault) }
    ensures memory { TellsMemory (run_fault result) }
{
    match fault.code {
        SeqCode::NoMemory => InputFault::NoMemory,
        _ => InputFault::Sequence(fault),
    }
}

/// A fault of the plan of the cuts as one of the run.
pub fn cuts_refusal(fault: CutFault) -> RunFault
    ensures exact { result ≡ cuts_refusal fault }
    ensures plan { is_refusal result ≡ false }
    ensures memory { TellsMemory result }
    ensures silent { is_write_fault result ≡ false }
{
    match fault {
        CutFault::NoMemory => RunFault::NoMemory,
        fault => RunFault::Cuts(fault),
    }
}
