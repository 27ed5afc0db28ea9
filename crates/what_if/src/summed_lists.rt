ghost use Rattle.std.specs.Prelude.{◌≡◌, ◌+◌, length, false, true, OnOk, IfOk, IfErr, Ok, None};
ghost use Rattle.std.specs.Arc.{arc_value};
ghost use Rattle.prefix_scan.specs.Cut.{Divides};
ghost use Rattle.lift_sequence.specs.Arrival.{TellsAt};
ghost use Rattle.port_call.specs.Grounds.{list_fault, steps_on};
ghost use Rattle.port_call.specs.Refusals.{TellsMemory, is_refusal};
ghost use Rattle.running_sums.specs.Lines.{AreFirstSums};
ghost use Rattle.seq_report.specs.Delivery.{Delivers, IsByPlan};
ghost use Rattle.seq_report.specs.Plans.{Fits, IsUncut};
ghost use Rattle.port_call.specs.Views.{case_in_view};
ghost use Rattle.what_if.specs.Bases.{IsJudgedAt, Pass, case_of, report_on};
ghost use Rattle.running_sums.specs.Fours.{CostsUpTo};

use crate::passing::{Passed, count_before, count_passing, keep};
use claim_run::Gate;
use criteria::{Verdict, judge};
use lift_sequence::{Op, SeqCode, SeqFault, Sequence};
use moment_sums::Totals;
use port_call::{Case, Ground, cuts_refusal};
use prefix_scan::{Cuts, Monoid};
use running_sums::{Fours, join_to_arrival};
use seq_report::{
    Criterion, CutPlan, Options, RunFault, Sink, Summary, cuts_of, first_fail_behind, report_from,
};
use std::alloc::{AllocError, Global};
use std::marker::Model;
use std::sync::{Arc, Mutex, Wait};
use std::thread::Threads;

/// Out of memory, for a sequence.
const NO_MEMORY: SeqFault = SeqFault {
    code: SeqCode::NoMemory,
    at: 0,
};

/// A list of steps that can be done from a base, kept so that the sum of what is aboard after any
/// of them is at hand.
#[derive(Drop)]
pub struct SummedList {
    pub(crate) base: Arc<Ground, Global>,
    pub(crate) sequence: Sequence,
    /// What the steps change, added up.
    pub(crate) sums: Fours,
    /// What searches for the first condition that fails found to pass. It is of a list as it was
    /// then, and no part of what the list is. It is taken out whole to be changed, and `None` only
    /// meanwhile.
    pub(crate) passed: Mutex<Option<Passed>>,
    pub(crate) alloc: Global,
}

impl Model for SummedList {
    ghost use Rattle.std.specs.Arc.{arc_value};
    ghost use Rattle.what_if.specs.Sessions.{IsSummed, Summed};

    ghost Value = { Summed };

    ghost view = { λ l. record {
      base = arc_value l.base;
      ops = l.sequence.ops;
      joins = l.sums.joins;
    } };

    ghost invariant = { λ l. IsSummed (arc_value l.base) l.sequence l.sums };
}

impl SummedList {
    /// A list on a base, or the first step of it that can't be done.
    pub fn new(
        alloc: Global,
        base: Arc<Ground, Global>,
        ops: Vec<Op>,
    ) -> Result<SummedList, SeqFault>
        ensures legal { OnOk result (list_fault (arc_value base) ops.items ≡ None) }
        ensures made { IfOk result
            (λ l. l ≡ record { base = arc_value base; ops = ops.items; joins = 0 }) }
        ensures refused { IfErr result (TellsAt (list_fault (arc_value base) ops.items)) }
        ensures memory { IfErr result (λ e. e.code ≡ SeqCode.NoMemory → e.at ≡ 0) }
    {
        let sequence = base.sequence(alloc, ops)?;
        match SummedList::of_sequence(alloc, base, sequence) {
            Ok(list) => Ok(list),
            Err(AllocError) => Err(NO_MEMORY),
        }
    }

    /// The list of a sequence that was made from this base.
    pub fn of_sequence(
        alloc: Global,
        base: Arc<Ground, Global>,
        sequence: Sequence,
    ) -> Result<SummedList, AllocError>
        requires legal { list_fault (arc_value base) sequence.ops ≡ None }
        requires steps { sequence.steps ≡ steps_on (arc_value base) sequence.ops }
        ensures { IfOk result
            (λ l. l ≡ record { base = arc_value base; ops = sequence.ops; joins = 0 }) }
    {
        let sums = Fours::of(alloc, &sequence, base.profile().frames())?;
        let passed = Passed::nothing(alloc, &base, sequence.len())?;
        Ok(SummedList {
            base,
            sequence,
            sums,
            passed: Mutex::new(Some(passed)),
            alloc,
        })
    }

    /// The base.
    pub fn base(&self) -> &Arc<Ground, Global>
        ensures { arc_value result.now ≡ self.now.base }
    {
        &self.base
    }

    /// The steps, each of which can be done.
    pub fn ops(&self) -> &[Op]
        ensures list { result.now ≡ self.now.ops }
        ensures legal { list_fault self.now.base self.now.ops ≡ None }
    {
        self.sequence.ops()
    }

    /// How the condition after the first `k` steps is judged, 0 being the one on arrival; `None`
    /// where the list has fewer steps.
    pub fn judge(&mut self, k: u32) -> Option<Verdict>
        ensures judged { IsJudgedAt result self.old.base self.old.ops k }
        ensures base { self.new.base ≡ self.old.base }
        ensures ops { self.new.ops ≡ self.old.ops }
        ensures cost { CostsUpTo 1 (length self.old.ops) self.old.joins self.new.joins }
    {
        let k = k as usize;
        if k > self.sequence.len() {
            return None;
        }
        self.sequence.facts();
        let frames = self.base.profile().frames();
        let change = self.sums.prefix(&self.sequence, frames, k);
        let sum = self.base.total().join(&change);
        Some(judge(self.base.profile(), &sum))
    }

    /// The first step that fails, with its first criterion. A list of 2,000 steps or more keeps
    /// which first conditions a search found to pass. As far as its steps are still the same, the
    /// next search leaves these out, if they are 2,000 or more, and no other thread searches
    /// meanwhile.
    pub fn first_fail(&self) -> Option<(u32, Criterion)>
        ensures { result ≡ (report_on self.now.base self.now.ops).summary.first }
    {
        match self.passed.try_lock() {
            Some(mut kept) => self.first_fail_kept(&mut kept),
            None => self.first_fail_behind(0),
        }
    }

    /// The same by what is kept of an earlier search. What this one finds is then kept.
    fn first_fail_kept(&self, kept: &mut Option<Passed>) -> Option<(u32, Criterion)>
        ensures { result ≡ (report_on self.now.base self.now.ops).summary.first }
    {
        let start = count_passing(kept, &self.base, self.sequence.ops());
        let first = self.first_fail_behind(start);
        let passing = count_before(first, self.sequence.len() + 1);
        if passing > start {
            keep(kept, &self.base, self.sequence.ops(), passing);
        }
        first
    }

    /// The same where so many conditions are known to pass.
    fn first_fail_behind(&self, passing: usize) -> Option<(u32, Criterion)>
        requires { Pass self.now.base self.now.ops passing }
        ensures { result ≡ (report_on self.now.base self.now.ops).summary.first }
    {
        if passing > self.sequence.len() {
            return None;
        }
        let case = self.base.case(&self.sequence);
        first_fail_behind(case, passing as u32, self.base.total())
    }

    /// The case of the list.
    pub fn case(&self) -> Case<'_>
        ensures { case_in_view result ≡ case_of self.now.base self.now.ops }
    {
        self.base.case(&self.sequence)
    }

    /// The sum at the first line of each chunk of the report.
    pub fn first_sums(&self, cuts: &Cuts) -> Result<Vec<Totals>, AllocError>
        requires { Divides cuts.now (length self.now.ops + 1) }
        ensures { IfOk result (λ sums. AreFirstSums self.now.base.ship.ship.frames
            self.now.base.arrival.bodies (steps_on self.now.base self.now.ops) cuts.now
            sums.items) }
    {
        self.sequence.facts();
        let frames = self.base.profile().frames();
        let changes = self.sums.offsets(self.alloc, &self.sequence, frames, cuts)?;
        join_to_arrival(self.alloc, self.base.total(), &changes)
    }

    /// The cuts that a plan makes of the report's lines, and the sum at the first line of each
    /// chunk; or the fault of the plan.
    fn cut_by_plan(&self, plan: CutPlan<'_>) -> Result<(Cuts, Vec<Totals>), RunFault>
        ensures cut { IfOk result (λ made. Divides made.0 (length self.now.ops + 1)) }
        ensures sums { IfOk result (λ made. AreFirstSums self.now.base.ship.ship.frames
            self.now.base.arrival.bodies (steps_on self.now.base self.now.ops) made.0
            made.1.items) }
        ensures fits { IfOk result
            (λ _. Fits plan.entry (report_on self.now.base self.now.ops).summary.lines) }
        ensures uncut { IfErr result
            (IsUncut plan.entry (report_on self.now.base self.now.ops).summary.lines) }
    {
        let cuts = match cuts_of(self.alloc, plan, self.sequence.len() as u32 + 1) {
            Ok(cuts) => cuts,
            Err(fault) => return Err(cuts_refusal(fault)),
        };
        match self.first_sums(&cuts) {
            Ok(sums) => Ok((cuts, sums)),
            Err(AllocError) => Err(RunFault::NoMemory),
        }
    }

    /// Writes the report on the list to a sink that has not failed.
    pub fn report<G: Gate, R: Threads + Wait + Sync, S: Sink>(
        &self,
        rt: &R,
        gate: &G,
        options: &Options<'_>,
        sink: &mut S,
    ) -> Result<Summary, RunFault>
        requires sound { S.has_failed sink.old ≡ false }
        ensures delivers { Delivers (Ok (report_on self.now.base self.now.ops)) result
            (S.contents sink.old) (S.contents sink.new) (S.has_failed sink.new) }
        ensures plan { IsByPlan options.now.cuts (Ok (report_on self.now.base self.now.ops))
            result }
        ensures accepted { IfErr result (λ e. is_refusal e ≡ false) }
        ensures memory { IfErr result TellsMemory }
    {
        let (cuts, sums) = match self.cut_by_plan(options.cuts) {
            Ok(made) => made,
            Err(fault) => return Err(fault),
        };
        self.base.facts();
        report_from(
            rt,
            self.alloc,
            gate,
            self.base.profile(),
            self.base.arrival(),
            &self.sequence,
            options.workers,
            &cuts,
            &sums,
            sink,
        )
    }
}
