//! What was read of a ship and of her bay plan, brought together.
ghost use Rattle.std.specs.Prelude.{◌≡◌, ◌↔◌, ℕ, List, IsTrue, IfOk, Err};
ghost use Rattle.ship_profile.specs.Record.{Texts};
ghost use Rattle.port_call.specs.Grounds.{aboard_first};
ghost use Rattle.port_call.specs.Inputs.{arrival_in};
ghost use Rattle.port_call.specs.Readings.{IsGroundRead, IsPlanRead, IsShipRead, Reads};

use crate::faults::InputFault;
use crate::grounds::Ground;
use crate::refusals::arrival_refusal;
use lift_sequence::Arrival;
use ship_profile::Profile;
use std::alloc::Global;
use stow_messages::Item;

/// Whether reading an input ran out of memory.
pub fn ran_out<T>(reading: &Result<T, InputFault>) -> bool
    ensures { IsTrue result ↔ (reading.now ≡ Err InputFault.NoMemory) }
{
    matches!(reading, Err(InputFault::NoMemory))
}

/// A ship with what is aboard of her on arrival, or why an item or a fill can't be.
fn arrive(alloc: Global, profile: Profile, items: Vec<Item>) -> Result<Ground, InputFault>
    ensures reads { Reads aboard_first (arrival_in profile items.items) result }
    ensures ship { IfOk result (λ g. g.ship ≡ profile) }
    ensures items { IfOk result (λ g. g.arrival.items ≡ items.items) }
    ensures fills { IfOk result (λ g. g.arrival.fills ≡ g.ship.fills) }
{
    match Arrival::new(alloc, &profile, items, profile.fills()) {
        Ok(arrival) => Ok(Ground::new(profile, arrival)),
        Err(fault) => Err(arrival_refusal(fault)),
    }
}

/// The ship with what is aboard of her on arrival, or the first refusal of her profile, the bay
/// plan and the arrival: by what was read of the first two, each by itself. Where either was out of
/// memory, so is this, whatever the other says.
#[tactic(auto, using(crate::proofs::ArrivalLemmas::plan_refused, crate::proofs::ArrivalLemmas::both_read))]
pub fn ground_by(
    alloc: Global,
    profile: Result<Profile, InputFault>,
    plan: Result<Vec<Item>, InputFault>,
) -> Result<Ground, InputFault>
    ensures short_ship { profile ≡ Err InputFault.NoMemory → result ≡ Err InputFault.NoMemory }
    ensures short_plan { plan ≡ Err InputFault.NoMemory → result ≡ Err InputFault.NoMemory }
    ensures read { (texts : Texts) (text : List ℕ) → IsShipRead profile texts
        → IsPlanRead plan text → IsGroundRead result texts text }
{
    if ran_out(&plan) {
        return Err(InputFault::NoMemory);
    }
    match profile {
        Ok(profile) => match plan {
            Ok(items) => arrive(alloc, profile, items),
            Err(fault) => Err(fault),
        },
        Err(fault) => Err(fault),
    }
}
