//! What a view is made of: the port call with what is found of it, and beside that, in a thread of
//! its own, what its inputs are.
ghost use Rattle.std.specs.Prelude.{◌≡◌, ◌+◌, ◌^◌, ◌<◌, IfOk, IfErr, Ok, length};
ghost use Rattle.prefix_scan.specs.Cut.{Divides};
ghost use Rattle.port_call.specs.declared.inputs.Inputs.{Inputs};
ghost use Rattle.port_call.specs.Views.{case_in_view};
ghost use Rattle.running_sums.specs.Lines.{AreFirstSums};
ghost use Rattle.seq_report.specs.Cases.{outcome_in};
ghost use Rattle.seq_report.specs.Refusal.{outcome_of};
ghost use Rattle.worst_values.specs.Findings.{found_in};
ghost use Rattle.view_program.specs.Shown.{IsStopOn, OfTexts, first_in};

use claim_run::{Gate, Workers};
use criteria::Criterion;
use edifact_text::Kind;
use moment_sums::Totals;
use port_call::{Inputs, PortCall, RunFault};
use prefix_scan::Cuts;
use run_files::{Stop, Texts};
use seq_report::{CutPlan, Lines, cuts_of, sums_of};
use std::alloc::{AllocError, Global};
use std::sync::Wait;
use std::thread;
use std::thread::{Promise, PromisedHandle, Scope, Threads};
use strength::Hull;
use view_curves::{Charted, Series, charted_in};
use view_inputs::{Marks, Notice, cargo_notices, marks_of};
use view_profile::{Parts, warnings_on};
use view_texts::{Message, Sources, message_source, profile_source, steps_digest};
use worst_values::{Findings, found_in};

/// A port call, with the sum at the first line of each chunk.
#[derive(Drop)]
pub struct Worked {
    pub call: PortCall,
    pub cuts: Cuts,
    pub sums: Vec<Totals>,
    pub ghost cut: { Divides cuts (length call.sequence.ops + 1) },
    pub ghost sum: { AreFirstSums call.profile.ship.frames call.arrival.bodies
        call.sequence.steps cuts sums.items },
}

impl Worked {
    /// Its lines.
    pub fn lines(&self) -> Lines<'_>
        ensures { case_in_view result.case ≡ self.now.call }
    {
        let case = self.call.case();
        Lines {
            case,
            hull: Hull::new(case.profile),
            cuts: &self.cuts,
            sums: &self.sums,
        }
    }
}

/// A port call in chunks of so many lines, of which any list has some.
fn in_chunks<G: Gate, R: Threads + Wait + Sync>(
    rt: &R,
    alloc: Global,
    gate: &G,
    workers: Workers,
    call: PortCall,
    chunk: u32,
) -> Result<Worked, AllocError>
    ensures { IfOk result (λ w. w.call ≡ call) }
{
    let Ok(cuts) = cuts_of(alloc, CutPlan::Every(chunk), call.case().lines()) else {
        return Err(AllocError);
    };
    let sums = sums_of(rt, alloc, gate, workers, &call, &cuts)?;
    Ok(Worked { call, cuts, sums })
}

/// The port call of the inputs, in chunks of so many lines.
pub fn work<G: Gate, R: Threads + Wait + Sync>(
    rt: &R,
    alloc: Global,
    gate: &G,
    workers: Workers,
    inputs: &Inputs<'_>,
    chunk: u32,
) -> Result<Worked, Stop>
    ensures made { IfOk result (λ w. outcome_of inputs.now ≡ Ok (outcome_in w.call)) }
    ensures stopped { IfErr result (IsStopOn inputs.now) }
{
    match PortCall::read_beside(rt, alloc, workers.get(), inputs) {
        Ok(call) => match in_chunks(rt, alloc, gate, workers, call, chunk) {
            Ok(worked) => Ok(worked),
            Err(AllocError) => Err(Stop::NoMemory),
        },
        Err(fault) => Err(Stop::from(RunFault::from(fault))),
    }
}

/// What a view asks of the conditions of a port call.
#[derive(Clone, Copy, Debug, PartialEq, Eq)]
pub enum Asked {
    /// What is found of them.
    Found,
    /// That, and the figures that a page draws.
    Drawn,
}

/// What is found of a port call, and the figures that are drawn, where they are asked for.
fn answer<G: Gate, R: Threads + Wait + Sync>(
    rt: &R,
    alloc: Global,
    gate: &G,
    workers: Workers,
    asked: Asked,
    worked: &Worked,
) -> Result<(Findings, Option<Series>), AllocError>
    ensures found { IfOk result (λ pair. pair.0 ≡ found_in worked.now.call) }
    ensures few { IfOk result (λ pair. length pair.0.unmet < 2 ^ 32) }
{
    match asked {
        Asked::Found => {
            let case = worked.call.case();
            let findings = found_in(rt, alloc, gate, workers, case, &worked.cuts, &worked.sums)?;
            Ok((findings, None))
        }
        Asked::Drawn => {
            let charted = charted_in(rt, alloc, gate, workers, &worked.lines())?;
            let Charted { findings, series } = charted;
            Ok((findings, Some(series)))
        }
    }
}

/// A port call with what is found of it.
#[derive(Drop)]
pub struct Seen {
    pub worked: Worked,
    pub findings: Findings,
    pub ghost few: { length findings.unmet < 2 ^ 32 },
    pub ghost found: { findings ≡ found_in worked.call },
}

impl Seen {
    /// The first condition that fails, with its first criterion: that of the report.
    pub fn first(&self) -> Option<(u32, Criterion)>
        ensures { result ≡ first_in self.now.worked.call }
    {
        self.findings.first_failing()
    }
}

/// What is found of a port call.
fn seen_of<G: Gate, R: Threads + Wait + Sync>(
    rt: &R,
    alloc: Global,
    gate: &G,
    workers: Workers,
    worked: Worked,
) -> Result<Seen, AllocError>
    ensures { IfOk result (λ s. s.worked.call ≡ worked.call) }
{
    let case = worked.call.case();
    let findings = found_in(rt, alloc, gate, workers, case, &worked.cuts, &worked.sums)?;
    Ok(Seen { worked, findings })
}

/// The port call of the inputs, with what is found of it.
pub fn see<G: Gate, R: Threads + Wait + Sync>(
    rt: &R,
    alloc: Global,
    gate: &G,
    workers: Workers,
    inputs: &Inputs<'_>,
    chunk: u32,
) -> Result<Seen, Stop>
    ensures made { IfOk result (λ s. outcome_of inputs.now ≡ Ok (outcome_in s.worked.call)) }
    ensures stopped { IfErr result (IsStopOn inputs.now) }
{
    match work(rt, alloc, gate, workers, inputs, chunk) {
        Ok(worked) => match seen_of(rt, alloc, gate, workers, worked) {
            Ok(seen) => Ok(seen),
            Err(AllocError) => Err(Stop::NoMemory),
        },
        Err(stop) => Err(stop),
    }
}

/// What a thread promises of what it gives: nothing.
#[derive(Clone, Copy)]
struct Unsaid;

impl<T> Promise<T> for Unsaid {
    ghost use Rattle.std.specs.Prelude.{⊤};

    ghost kept_by = { λ _ _. ⊤ };
}

/// Starts a thread that works out what a message is.
fn start_message<'s, E>(
    scope: &Scope<'s, E>,
    alloc: Global,
    texts: &'s Texts,
    kind: Kind,
) -> Result<PromisedHandle<Result<Message, AllocError>, Unsaid>, AllocError> {
    let started = scope.spawn_with(Unsaid, move || -> Result<Message, AllocError> {
        let inputs = texts.inputs();
        let text = match kind {
            Kind::Baplie => inputs.baplie,
            Kind::Movins => inputs.movins,
        };
        message_source(alloc, text, kind)
    });
    Ok(started?)
}

/// What the inputs of some texts are. Each message has a thread of its own, since nothing takes as
/// long as the digests.
pub fn sources_beside<R: Threads + Wait + Sync>(
    rt: &R,
    alloc: Global,
    texts: &Texts,
) -> Result<Sources, AllocError> {
    thread::scope(
        thread::scope_env(),
        rt,
        |scope| -> Result<Sources, AllocError> {
            let plan = start_message(scope, alloc, texts, Kind::Baplie)?;
            let Ok(moves) = start_message(scope, alloc, texts, Kind::Movins) else {
                // joined, so that what it found is let go
                drop(plan.join(rt));
                return Err(AllocError);
            };
            let inputs = texts.inputs();
            let profile = profile_source(alloc, &inputs.profile);
            let steps = steps_digest(alloc, inputs.steps);
            let moves = moves.join(rt);
            let plan = plan.join(rt);
            let (profile, name) = profile?;
            Ok(Sources {
                profile,
                name,
                plan: plan?,
                moves: moves?,
                steps: steps?,
            })
        },
    )
}

/// Starts a thread that works out what the inputs are.
fn start_sources<'s, E, R: Threads + Wait + Sync>(
    scope: &Scope<'s, E>,
    rt: &'s R,
    alloc: Global,
    texts: &'s Texts,
) -> Result<PromisedHandle<Result<Sources, AllocError>, Unsaid>, AllocError> {
    let started = scope.spawn_with(Unsaid, move || -> Result<Sources, AllocError> {
        sources_beside(rt, alloc, texts)
    });
    Ok(started?)
}

/// Starts a thread that looks at what the messages say by themselves.
fn start_marks<'s, E>(
    scope: &Scope<'s, E>,
    alloc: Global,
    texts: &'s Texts,
) -> Result<PromisedHandle<Result<Marks, AllocError>, Unsaid>, AllocError> {
    let started = scope.spawn_with(Unsaid, move || -> Result<Marks, AllocError> {
        marks_of(alloc, &texts.inputs())
    });
    Ok(started?)
}

/// What looks odd of a port call: the warnings on its profile, and the notices on its cargo and on
/// its steps.
#[derive(Drop)]
pub struct Looks {
    pub warnings: Vec<Notice>,
    pub cargo: Vec<Notice>,
}

/// What looks odd of a port call that was read of inputs.
fn looks_of(
    alloc: Global,
    inputs: &Inputs<'_>,
    call: &PortCall,
    marks: &Marks,
) -> Result<Looks, AllocError> {
    let case = call.case();
    let parts = Parts::new(alloc, inputs.profile, case.profile, marks.cells.as_slice())?;
    let warnings = warnings_on(alloc, &parts)?;
    let cargo = cargo_notices(alloc, marks, inputs.steps, case)?;
    Ok(Looks { warnings, cargo })
}

/// Starts a thread that looks at what is odd of a port call.
fn start_looks<'s, E>(
    scope: &Scope<'s, E>,
    alloc: Global,
    texts: &'s Texts,
    call: &'s PortCall,
    marks: &'s Marks,
) -> Result<PromisedHandle<Result<Looks, AllocError>, Unsaid>, AllocError> {
    let started = scope.spawn_with(Unsaid, move || -> Result<Looks, AllocError> {
        looks_of(alloc, &texts.inputs(), call, marks)
    });
    Ok(started?)
}

/// What is found of inputs beside the port call: what they are, and what is odd of the messages and
/// of the port call; and the figures that are drawn, where they are asked for.
#[derive(Drop)]
pub struct Beside {
    pub sources: Sources,
    pub marks: Marks,
    pub looks: Looks,
    pub series: Option<Series>,
}

/// What is found of the inputs of some texts, and beside that.
type Both = (Seen, Beside);

/// What is found of the inputs of some texts, what is odd of these, and the figures that are drawn.
type Looked = (Seen, Marks, Looks, Option<Series>);

/// What is found, with what is found beside it, if that is there.
fn with_sources(looked: Looked, sources: Result<Sources, AllocError>) -> Result<Both, Stop>
    ensures made { IfOk result (λ b. b.0 ≡ looked.0) }
    ensures stopped { IfErr result (λ stop. stop ≡ Stop.NoMemory) }
{
    let (seen, marks, looks, series) = looked;
    match sources {
        Ok(sources) => {
            let beside = Beside {
                sources,
                marks,
                looks,
                series,
            };
            Ok((seen, beside))
        }
        Err(AllocError) => Err(Stop::NoMemory),
    }
}

/// What is found of a port call, and beside it, in a thread of its own, what is odd of it.
fn found_with_looks<G: Gate, R: Threads + Wait + Sync>(
    rt: &R,
    alloc: Global,
    gate: &G,
    workers: Workers,
    asked: Asked,
    texts: &Texts,
    worked: &Worked,
    marks: &Marks,
) -> Result<(Findings, Option<Series>, Looks), AllocError>
    ensures found { IfOk result (λ found. found.0 ≡ found_in worked.now.call) }
    ensures few { IfOk result (λ found. length found.0.unmet < 2 ^ 32) }
{
    thread::scope(
        thread::scope_env(),
        rt,
        |scope| -> Result<(Findings, Option<Series>, Looks), AllocError>
            ensures found { IfOk result (λ found. found.0 ≡ found_in worked.entry.now.call) }
            ensures few { IfOk result (λ found. length found.0.unmet < 2 ^ 32) }
        {
            let looks = start_looks(scope, alloc, texts, &worked.call, marks)?;
            let found = answer(rt, alloc, gate, workers, asked, worked);
            let looks = looks.join(rt);
            let (findings, series) = found?;
            Ok((findings, series, looks?))
        },
    )
}

/// What is found of a port call, with what is odd of it, one beside the other.
fn look_beside<G: Gate, R: Threads + Wait + Sync>(
    rt: &R,
    alloc: Global,
    gate: &G,
    workers: Workers,
    asked: Asked,
    texts: &Texts,
    worked: Worked,
    marks: Result<Marks, AllocError>,
) -> Result<Looked, Stop>
    ensures made { IfOk result (λ l. l.0.worked.call ≡ worked.call) }
    ensures stopped { IfErr result (λ stop. stop ≡ Stop.NoMemory) }
{
    let marks = match marks {
        Ok(marks) => marks,
        Err(AllocError) => return Err(Stop::NoMemory),
    };
    match found_with_looks(rt, alloc, gate, workers, asked, texts, &worked, &marks) {
        Ok((findings, series, looks)) => Ok((Seen { worked, findings }, marks, looks, series)),
        Err(AllocError) => Err(Stop::NoMemory),
    }
}

/// The same of what was read, if it was.
fn look_at<G: Gate, R: Threads + Wait + Sync>(
    rt: &R,
    alloc: Global,
    gate: &G,
    workers: Workers,
    asked: Asked,
    texts: &Texts,
    worked: Result<Worked, Stop>,
    marks: Result<Marks, AllocError>,
) -> Result<Looked, Stop>
    ensures made { (inputs : Inputs)
        → IfOk worked (λ w. outcome_of inputs ≡ Ok (outcome_in w.call))
        → IfOk result (λ l. outcome_of inputs ≡ Ok (outcome_in l.0.worked.call)) }
    ensures stopped { (inputs : Inputs)
        → IfErr worked (IsStopOn inputs) → IfErr result (IsStopOn inputs) }
{
    match worked {
        Ok(worked) => look_beside(rt, alloc, gate, workers, asked, texts, worked, marks),
        Err(stop) => Err(stop),
    }
}

/// What is found of the inputs of some texts, and the figures that are drawn, where they are asked
/// for; and beside it, in threads of their own, what these are and what is odd of them. For one
/// worker too: it is the conditions that workers share, and the digests alone take about half as
/// long as they do by one.
pub fn see_beside<G: Gate, R: Threads + Wait + Sync>(
    rt: &R,
    alloc: Global,
    gate: &G,
    workers: Workers,
    asked: Asked,
    texts: &Texts,
    chunk: u32,
) -> Result<Both, Stop>
    ensures made { IfOk result (λ b. OfTexts texts.now
        (λ inputs. outcome_of inputs ≡ Ok (outcome_in b.0.worked.call))) }
    ensures stopped { IfErr result (λ stop. OfTexts texts.now
        (λ inputs. IsStopOn inputs stop)) }
{
    thread::scope(
        thread::scope_env(),
        rt,
        |scope| -> Result<Both, Stop>
            ensures made { IfOk result (λ b. OfTexts texts.entry.now
                (λ inputs. outcome_of inputs ≡ Ok (outcome_in b.0.worked.call))) }
            ensures stopped { IfErr result (λ stop. OfTexts texts.entry.now
                (λ inputs. IsStopOn inputs stop)) }
        {
            let inputs = texts.inputs();
            let Ok(sources) = start_sources(scope, rt, alloc, texts) else {
                return Err(Stop::NoMemory);
            };
            let Ok(marks) = start_marks(scope, alloc, texts) else {
                // joined, so that what it found is let go
                drop(sources.join(rt));
                return Err(Stop::NoMemory);
            };
            let worked = work(rt, alloc, gate, workers, &inputs, chunk);
            let marks = marks.join(rt);
            let looked = look_at(rt, alloc, gate, workers, asked, texts, worked, marks);
            let sources = sources.join(rt);
            match looked {
                Ok(looked) => with_sources(looked, sources),
                Err(stop) => Err(stop),
            }
        },
    )
}
