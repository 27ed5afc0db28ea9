//! What is found and drawn of the lines of a chunk.
ghost use Rattle.std.specs.Prelude.{◌≡◌, ℕ, ◌<◌, ◌≤◌, ◌++◌, ◌∷◌, [], IfOk, length};
ghost use Rattle.moment_sums.specs.Bounded.{IsBounded};
ghost use Rattle.moment_sums.specs.Kept.{values};
ghost use Rattle.strength.specs.Hull.{IsHullOf};
ghost use Rattle.units_core.specs.Interpolation.{at};
ghost use Rattle.criteria.specs.Judgement.{judgement_of, read};
ghost use Rattle.port_call.specs.Views.{case_in_view};
ghost use Rattle.seq_report.specs.Cases.{IsChunk, lines_in};
ghost use Rattle.worst_values.specs.Findings.{candidates_with, unmet_with};
ghost use Rattle.worst_values.specs.Rows.{row_of};
ghost use Rattle.worst_values.specs.Worst.{joined, worst_of};
ghost use Rattle.view_curves.specs.Charted.{charted_over};
ghost use Rattle.view_curves.specs.Series.{bending_percent, plotted_by, plotted_of, shear_percent};

use crate::charted::Charted;
use crate::percents::percent_with;
use crate::series::{Beside, Plotted, Series};
use criteria::{Nearby, RoundedFigures};
use moment_sums::Totals;
use port_call::Case;
use seq_report::{Chunk, walk_on};
use ship_profile::{Frame, Frames, Profile};
use std::alloc::{AllocError, Global};
use strength::Hull;
use worst_values::{Findings, bending_limit, note_line};

/// The greatest part of its limit that the shear force uses at any frame, in percent.
fn shear_percent(frames: &[Frame], shear: &[i64; 16]) -> i128
    requires { length frames.now ≤ 16 }
    ensures { result ≡ shear_percent (λ i. at shear.now i) frames.now }
{
    let mut most = 0i128;
    for i in 0..frames.len() {
        most = percent_with(most, i128::from(shear[i]), frames[i].shear_max);
    }
    most
}

/// The greatest part of its limit that the bending moment uses at any frame, in percent.
fn bending_percent(frames: &[Frame], bending: &[i64; 16]) -> i128
    requires { length frames.now ≤ 16 }
    ensures { result ≡ bending_percent (λ i. at bending.now i) frames.now }
{
    let mut most = 0i128;
    for i in 0..frames.len() {
        let load = bending[i];
        most = percent_with(most, i128::from(load), bending_limit(&frames[i], load));
    }
    most
}

/// What is drawn of these figures.
fn plotted_of(frames: &Frames, figures: &RoundedFigures) -> Plotted
    ensures { result ≡ plotted_of frames.now (read figures.now) }
{
    let frames = frames.as_slice();
    Plotted {
        gm: figures.gm,
        list: figures.list,
        aft: figures.aft,
        fwd: figures.fwd,
        trim: figures.trim,
        shear: shear_percent(frames, &figures.strains.shear),
        bending: bending_percent(frames, &figures.strains.bending),
    }
}

/// What is found and drawn of the condition of line `k`, with this aboard, and what is told beside
/// it: the first and the last of these are noted behind those of the lines before.
fn chart_line(
    profile: &Profile,
    hull: &Hull,
    k: u32,
    sum: &Totals,
    near: &mut Nearby,
    figures: &mut RoundedFigures,
    findings: &mut Findings,
    beside: &mut Beside,
) -> Result<Option<Plotted>, AllocError>
    requires of { IsHullOf hull.now profile.now.ship }
    requires bounded { IsBounded (values sum.now) }
    ensures length { length findings.new.rows ≡ length findings.old.rows }
    ensures rows { (j : ℕ) → j < 14 → row_of findings.new.rows j
        ≡ joined (row_of findings.old.rows j)
        (worst_of (candidates_with profile.now j k (values sum.now))) }
    ensures unmet { IfOk result (λ p. findings.new.unmet
        ≡ findings.old.unmet ++ unmet_with profile.now (values sum.now) ∷ []) }
    ensures plotted { IfOk result (λ p. p
        ≡ plotted_by profile.now.ship.frames (judgement_of profile.now (values sum.now))) }
{
    match note_line(profile, hull, k, sum, near, &mut figures.strains, findings)? {
        Ok(exact) => {
            figures.round(&exact, profile.lbp());
            beside.note(profile, &exact, &figures.strains, k)?;
            Ok(Some(plotted_of(profile.frames(), figures)))
        }
        Err(_) => {
            beside.note_outside()?;
            Ok(None)
        }
    }
}

/// What is found and drawn of the lines of a chunk.
pub fn charted_in_chunk(
    alloc: Global,
    case: Case<'_>,
    hull: &Hull,
    chunk: &Chunk,
) -> Result<Charted, AllocError>
    requires of { IsHullOf hull.now case.profile.now.ship }
    requires chunk { IsChunk (case_in_view case) chunk.now }
    ensures { IfOk result
        (λ c. c ≡ charted_over (case_in_view case.entry) (lines_in chunk.now)) }
{
    let profile = case.profile;
    let mut findings = Findings::new(alloc);
    let lines = chunk.end.saturating_sub(chunk.start) as usize;
    let mut plotted = Vec::with_capacity(alloc, lines)?;
    let mut beside = Beside::with_capacity(alloc, lines)?;
    let mut sum = chunk.first;
    let mut near = Nearby::default();
    let mut figures = RoundedFigures::default();
    for k in chunk.start..chunk.end {
        let drawn = chart_line(
            profile,
            hull,
            k,
            &sum,
            &mut near,
            &mut figures,
            &mut findings,
            &mut beside,
        )?;
        plotted.push(drawn)?;
        walk_on(case, k, &mut sum);
    }
    let series = Series { plotted, beside };
    Ok(Charted { findings, series })
}
