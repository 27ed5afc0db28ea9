ghost use Rattle.std.specs.Prelude.{◌≡◌, ◌≢◌, ◌≤◌, ◌+◌, [], ◌∷◌, length, take, false, true};
ghost use Rattle.std.specs.Prelude.{OnOk, OnErr, IfOk, IfErr, Ok, Err, Some, None};
ghost use Rattle.std.specs.Arc.{arc_value};
ghost use Rattle.prefix_scan.specs.Cut.{Divides};
ghost use Rattle.lift_sequence.specs.Arrival.{TellsAt};
ghost use Rattle.port_call.specs.Grounds.{list_fault, steps_on};
ghost use Rattle.port_call.specs.Refusals.{TellsMemory, is_refusal, is_write};
ghost use Rattle.port_call.specs.Views.{case_in_view};
ghost use Rattle.running_sums.specs.Lines.{AreFirstSums};
ghost use Rattle.seq_report.specs.Delivery.{Delivers, IsByPlan};
ghost use Rattle.seq_report.specs.Refusal.{outcome_of};
ghost use Rattle.step_edits.specs.Edits.{TellsMemory as TellsEditMemory, edited};
ghost use Rattle.what_if.specs.Bases.{IsJudgedAt, case_of, report_on};
ghost use Rattle.running_sums.specs.Fours.{CostsUpTo};
ghost use Rattle.what_if.specs.Sessions.{AreTold, CostsLittle, refusal};

use crate::passing::Room;
use crate::summed_lists::SummedList;
use circular_buffer::HeapCircularBuffer;
use claim_run::Gate;
use criteria::Verdict;
use lift_sequence::{Op, SeqCode, SeqFault};
use moment_sums::Totals;
use port_call::{Case, Ground, PortCall};
use prefix_scan::Cuts;
use seq_report::{Criterion, Inputs, Options, RunFault, Sink, Summary};
use std::alloc::{AllocError, Global};
use std::marker::Model;
use std::sync::{Arc, Wait};
use std::thread::Threads;
use step_edits::{Edit, EditFault, inverse};

/// How many of the last edits can be taken back.
const KEPT: usize = 64;

/// A list of steps that a planner edits. Each edit is made only where every step of the edited list
/// can be done, and the last 64 can be taken back.
///
/// To contracts it is its base, its list, the earlier lists, newest first, and how many joins of
/// sums were counted.
pub struct Session {
    list: SummedList,
    /// The edits that lead back, newest first.
    past: HeapCircularBuffer<Edit>,
}

impl Drop for Session {
    // Written out, since the crates above prove a derived one anew, field by field.
    fn drop(self) {
        let Session {
            list: _list,
            past: _past,
        } = self;
    }
}

impl Model for Session {
    ghost use Rattle.what_if.specs.Sessions.{IsPast, SessionRecord, past_of};

    ghost Value = { SessionRecord };

    ghost view = { λ s. record {
      base = s.list.base;
      ops = s.list.ops;
      past = past_of s.list.ops s.past.items;
      joins = s.list.joins;
    } };

    ghost invariant = { λ s. IsPast s.list.base s.list.ops s.past };
}

impl Session {
    /// A session on a base, with a list of steps and nothing to take back; or the first step that
    /// can't be done, with what [`lift_sequence::Sequence::new`] says of it. Out of memory may
    /// stand for it.
    pub fn new(alloc: Global, base: Arc<Ground, Global>, ops: Vec<Op>) -> Result<Session, SeqFault>
        ensures legal { OnOk result (list_fault (arc_value base) ops.items ≡ None) }
        ensures made { IfOk result
            (λ s. s ≡ record { base = arc_value base; ops = ops.items; past = []; joins = 0 }) }
        ensures refused { IfErr result (TellsAt (list_fault (arc_value base) ops.items)) }
        ensures memory { IfErr result (λ e. e.code ≡ SeqCode.NoMemory → e.at ≡ 0) }
    {
        let Ok(past) = HeapCircularBuffer::with_capacity(alloc, KEPT) else {
            return Err(SeqFault {
                code: SeqCode::NoMemory,
                at: 0,
            });
        };
        let list = SummedList::new(alloc, base, ops)?;
        Ok(Session { list, past })
    }

    /// The session on the steps that inputs order from the condition on arrival, with nothing to
    /// take back; or the first refusal, as [`seq_report::report`] has it.
    pub fn read(alloc: Global, inputs: &Inputs<'_>) -> Result<Session, RunFault>
        ensures read { IfOk result (λ s. AreTold inputs.now s.base s.ops) }
        ensures outcome { IfOk result (λ s. outcome_of inputs.now ≡ Ok (report_on s.base s.ops)) }
        ensures new { IfOk result (λ s. (s.past ≡ []) × (s.joins ≡ 0)) }
        ensures refused { IfErr result
            (λ e. e ≢ RunFault.NoMemory → outcome_of inputs.now ≡ Err e) }
        ensures memory { IfErr result TellsMemory }
        ensures silent { is_write result ≡ false }
    {
        let call = match PortCall::read(alloc, inputs) {
            Ok(call) => call,
            Err(fault) => return Err(RunFault::from(fault)),
        };
        match Session::of_call(alloc, call) {
            Ok(session) => Ok(session),
            Err(AllocError) => Err(RunFault::NoMemory),
        }
    }

    /// The session on a port call.
    fn of_call(alloc: Global, call: PortCall) -> Result<Session, AllocError>
        ensures made { IfOk result (λ s. s ≡ record {
          base = record { ship = call.profile; arrival = call.arrival };
          ops = call.sequence.ops;
          past = [];
          joins = 0;
        }) }
        ensures legal { OnOk result (list_fault (record {
          ship = call.profile;
          arrival = call.arrival;
        }) call.sequence.ops ≡ None) }
    {
        let (ground, sequence) = call.into_parts();
        let base = Arc::new(alloc, ground)?;
        let past = HeapCircularBuffer::with_capacity(alloc, KEPT)?;
        let list = SummedList::of_sequence(alloc, base, sequence)?;
        Ok(Session { list, past })
    }

    /// The base that its list goes on from.
    pub fn base(&self) -> &Arc<Ground, Global>
        ensures { arc_value result.now ≡ self.now.base }
    {
        self.list.base()
    }

    /// The list of steps.
    pub fn lifts(&self) -> &[Op]
        ensures { result.now ≡ self.now.ops }
    {
        self.list.ops()
    }

    /// The case of its list, of which a view of the report is made.
    pub fn case(&self) -> Case<'_>
        ensures { case_in_view result ≡ case_of self.now.base self.now.ops }
    {
        self.list.case()
    }

    /// Everything that is aboard at the first line of each chunk of its report, added up.
    pub fn first_sums(&self, cuts: &Cuts) -> Result<Vec<Totals>, AllocError>
        requires { Divides cuts.now (length self.now.ops + 1) }
        ensures { IfOk result (λ sums. AreFirstSums self.now.base.ship.ship.frames
            self.now.base.arrival.bodies (steps_on self.now.base self.now.ops) cuts.now
            sums.items) }
    {
        self.list.first_sums(cuts)
    }

    /// Makes an edit. It is refused where the list hasn't a step that it names (X1), where it
    /// reweighs a step that is no load (X2), and where a step of the edited list can't be done (X3,
    /// with the first such step and why); out of memory (X4) may stand for that, and is never
    /// inside X3. Then everything is as before.
    ///
    /// Another weight of a load whose container is restowed r times takes at most (r + 2) (l + 1)
    /// joins, where the list has at most 2^l steps; an exchange of two steps takes at most 2 (l +
    /// 1).
    pub fn apply(&mut self, edit: Edit) -> Result<(), EditFault>
        ensures made { OnOk result ((refusal self.old.base self.old.ops edit ≡ None)
            × (self.new.ops ≡ edited self.old.ops edit)
            × (self.new.past ≡ take 64 (self.old.ops ∷ self.old.past))) }
        ensures base { self.new.base ≡ self.old.base }
        ensures refused { IfErr result (λ e. e ≢ EditFault.NoMemory
            → refusal self.old.base self.old.ops edit ≡ Some e) }
        ensures before { OnErr result (self.new ≡ self.old) }
        ensures memory { IfErr result TellsEditMemory }
        ensures cost { CostsLittle edit self.old.ops self.old.joins self.new.joins }
    {
        let back = inverse(self.list.ops(), &edit);
        self.list.edit(&edit, Room::Fitted)?;
        self.past.push_front(back);
        Ok(())
    }

    /// Takes the last edit back; false where none is kept. Out of memory everything is as before.
    pub fn undo(&mut self) -> Result<bool, AllocError>
        ensures none { IfOk result
            (λ took. took ≡ false → (self.old.past ≡ []) × (self.new ≡ self.old)) }
        ensures took { IfOk result
            (λ took. took ≡ true → self.old.past ≡ self.new.ops ∷ self.new.past) }
        ensures base { self.new.base ≡ self.old.base }
        ensures before { OnErr result (self.new ≡ self.old) }
        ensures grows { self.old.joins ≤ self.new.joins }
    {
        let Some(edit) = self.past.front() else {
            return Ok(false);
        };
        let Ok(()) = self.list.edit(edit, Room::Left) else {
            return Err(AllocError);
        };
        self.past.pop_front();
        Ok(true)
    }

    /// How the condition after the first `k` steps is judged, 0 being the one on arrival; `None`
    /// where the list has fewer steps. It takes at most l + 1 joins, where the list has at most 2^l
    /// steps.
    pub fn judge(&mut self, k: u32) -> Option<Verdict>
        ensures judged { IsJudgedAt result self.old.base self.old.ops k }
        ensures base { self.new.base ≡ self.old.base }
        ensures ops { self.new.ops ≡ self.old.ops }
        ensures past { self.new.past ≡ self.old.past }
        ensures cost { CostsUpTo 1 (length self.old.ops) self.old.joins self.new.joins }
    {
        self.list.judge(k)
    }

    /// The first step that fails, 0 being the condition on arrival, with its first criterion;
    /// `None` where all steps pass. It is what a fresh run on the list names.
    pub fn first_fail(&self) -> Option<(u32, Criterion)>
        ensures { result ≡ (report_on self.now.base self.now.ops).summary.first }
    {
        self.list.first_fail()
    }

    /// Writes the report on the list to a sink that has not failed: the one that a fresh run on the
    /// list writes, whatever the number of workers, the gate and the cuts.
    ///
    /// Cuts that don't fit the lines are refused (F6). Nothing is written then, nor out of memory
    /// (F7). Where the sink fails, it holds a prefix of the report, of the length that F8 says.
    pub fn report<G: Gate, R: Threads + Wait + Sync, S: Sink>(
        &self,
        rt: &R,
        gate: &G,
        options: &Options<'_>,
        sink: &mut S,
    ) -> Result<Summary, RunFault>
        requires sound { S.has_failed sink.old ≡ false }
        ensures delivers { Delivers (Ok (report_on self.now.base self.now.ops)) result
            (S.contents sink.old) (S.contents sink.new) (S.has_failed sink.new) }
        ensures plan { IsByPlan options.now.cuts (Ok (report_on self.now.base self.now.ops))
            result }
        ensures accepted { IfErr result (λ e. is_refusal e ≡ false) }
        ensures memory { IfErr result TellsMemory }
    {
        self.list.report(rt, gate, options, sink)
    }
}
