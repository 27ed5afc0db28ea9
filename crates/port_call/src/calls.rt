ghost use Rattle.std.specs.Prelude.{◌≡◌, IfOk, Err, option_map};
ghost use Rattle.ship_profile.specs.Record.{texts_of};
ghost use Rattle.port_call.specs.Cases.{IsMade, IsToldBy, case_by, on_ground};
ghost use Rattle.port_call.specs.Views.{case_in_view};
ghost use Rattle.port_call.specs.Grounds.{aboard_first};
ghost use Rattle.port_call.specs.Inputs.{case_of, case_with, orders_in};
ghost use Rattle.port_call.specs.Readings.{AreArrived, AreOrdersRead, IsGroundRead, Reads};

use crate::arrivals::{ground_by, ran_out};
use crate::cases::Case;
use crate::faults::InputFault;
use crate::grounds::Ground;
use crate::inputs::{Inputs, items, orders, ship};
use crate::readings::read_beside;
use crate::refusals::sequence_refusal;
use lift_sequence::{Op, Sequence};
use std::alloc::{AllocError, Global};
use std::marker::Model;
use std::sync::Wait;
use std::thread::Threads;

/// A ship, what is aboard of her on arrival, and the steps from there, each of which can be done.
pub struct PortCall {
    base: Ground,
    sequence: Sequence,
}

impl Drop for PortCall {
    // Written out, since the crates above prove a derived one anew, field by field.
    fn drop(self) {
        let PortCall {
            base: _base,
            sequence: _sequence,
        } = self;
    }
}

impl Model for PortCall {
    ghost use Rattle.port_call.specs.Cases.{CaseRecord, IsMade, on_ground};

    ghost Value = { CaseRecord };

    ghost view = { λ c. on_ground c.base c.sequence };

    ghost invariant = { λ c. IsMade c.base.ship c.base.arrival c.sequence };
}

/// The port call that the inputs define, or the first refusal, by what was read of the ship with
/// what is aboard of her on arrival, and of the steps. Where either was out of memory, so is the
/// port call, whatever else is refused.
fn call_of_readings(
    alloc: Global,
    inputs: &Inputs<'_>,
    base: Result<Ground, InputFault>,
    orders: Result<Vec<Op>, InputFault>,
) -> Result<PortCall, InputFault>
    requires base { IsGroundRead base (texts_of inputs.now.profile) inputs.now.baplie.now }
    requires orders { AreOrdersRead orders inputs.now.movins.now
        (option_map (λ t. t.now) inputs.now.steps) }
    ensures short_base { base ≡ Err InputFault.NoMemory → result ≡ Err InputFault.NoMemory }
    ensures short_orders { orders ≡ Err InputFault.NoMemory → result ≡ Err InputFault.NoMemory }
    ensures reads { Reads case_by (case_of inputs.now) result }
    ensures told { IfOk result (IsToldBy inputs.now) }
{
    if ran_out(&orders) {
        return Err(InputFault::NoMemory);
    }
    match base {
        Ok(base) => PortCall::with_orders(alloc, inputs, base, orders),
        Err(fault) => Err(fault),
    }
}

impl PortCall {
    /// The port call of these steps, or why one of them can't be done.
    fn of_steps(alloc: Global, base: Ground, ops: Vec<Op>) -> Result<PortCall, InputFault>
        ensures reads { Reads case_by (case_with base.ship (aboard_first base) ops.items) result }
        ensures base { IfOk result (λ c. c ≡ on_ground base c.sequence) }
        ensures ops { IfOk result (λ c. c.sequence.ops ≡ ops.items) }
    {
        let sequence = base.sequence(alloc, ops).map_err(sequence_refusal)?;
        Ok(PortCall { base, sequence })
    }

    /// The port call that the inputs define, or the first refusal: by the ship with what is aboard
    /// of her on arrival, and by what was read of the steps. The contract alone speaks of `inputs`.
    fn with_orders(
        alloc: Global,
        inputs: &Inputs<'_>,
        base: Ground,
        orders: Result<Vec<Op>, InputFault>,
    ) -> Result<PortCall, InputFault>
        requires arrived { AreArrived inputs.now base }
        requires orders { Reads (λ ops. ops.items) (orders_in inputs.now) orders }
        ensures reads { Reads case_by (case_of inputs.now) result }
        ensures told { IfOk result (IsToldBy inputs.now) }
    {
        match orders {
            Ok(ops) => PortCall::of_steps(alloc, base, ops),
            Err(fault) => Err(fault),
        }
    }

    /// The port call that the inputs define, or the first refusal, in the order profile, bay plan,
    /// arrival, movement instruction, steps file, sequence. Out of memory may stand for any
    /// refusal, and no refusal stands for it: where a growth was refused, the answer is out of
    /// memory.
    pub fn read(alloc: Global, inputs: &Inputs<'_>) -> Result<PortCall, InputFault>
        ensures reads { Reads case_by (case_of inputs.now) result }
        ensures told { IfOk result (IsToldBy inputs.now) }
    {
        let plan = items(alloc, inputs.baplie);
        let orders = orders(alloc, inputs.movins, inputs.steps);
        let profile = ship(alloc, &inputs.profile);
        call_of_readings(alloc, inputs, ground_by(alloc, profile, plan), orders)
    }

    /// As [`PortCall::read`], by so many threads, of which three find work. The first refusal in
    /// the order of the inputs is reported, whichever thread ends first. A thread that can't be
    /// started is reported as out of memory.
    pub fn read_beside<R: Threads + Wait + Sync>(
        rt: &R,
        alloc: Global,
        threads: u8,
        inputs: &Inputs<'_>,
    ) -> Result<PortCall, InputFault>
        ensures reads { Reads case_by (case_of inputs.now) result }
        ensures told { IfOk result (IsToldBy inputs.now) }
    {
        if threads < 2 {
            return PortCall::read(alloc, inputs);
        }
        match read_beside(rt, alloc, inputs, threads > 2) {
            Ok((base, orders)) => call_of_readings(alloc, inputs, base, orders),
            Err(AllocError) => Err(InputFault::NoMemory),
        }
    }

    /// The ship and what is aboard of her on arrival.
    pub fn ground(&self) -> &Ground
        ensures ship { result.now.ship ≡ self.now.profile }
        ensures arrival { result.now.arrival ≡ self.now.arrival }
    {
        &self.base
    }

    /// The case, to be looked at.
    pub fn case(&self) -> Case<'_>
        ensures { case_in_view result ≡ self.now }
    {
        self.base.case(&self.sequence)
    }

    /// Its parts: where it begins, and the sequence of its steps.
    pub fn into_parts(self) -> (Ground, Sequence)
        ensures whole { on_ground result.0 result.1 ≡ self }
        ensures made { IsMade result.0.ship result.0.arrival result.1 }
    {
        let PortCall { base, sequence } = self;
        (base, sequence)
    }
}
