//! What is found over the lines of a chunk.
ghost use Rattle.std.specs.Prelude.{◌≡◌, ◌≢◌, ℕ, ◌<◌, ◌++◌, ◌∷◌, [], length, IfOk, OnOk};
ghost use Rattle.units_core.specs.Ratio.{Ratio};
ghost use Rattle.moment_sums.specs.Bounded.{IsBounded};
ghost use Rattle.moment_sums.specs.Kept.{values};
ghost use Rattle.strength.specs.Hull.{IsHullOf};
ghost use Rattle.criteria.specs.Assessment.{assessment_of};
ghost use Rattle.criteria.specs.Exact.{IsExact, condition_by};
ghost use Rattle.criteria.specs.Least.{IsLeast};
ghost use Rattle.criteria.specs.Measures.{AreMeasures};
ghost use Rattle.port_call.specs.Views.{case_in_view};
ghost use Rattle.seq_report.specs.Cases.{IsChunk, lines_in};
ghost use Rattle.worst_values.specs.Findings.{candidates_with, found_over, unmet_with};
ghost use Rattle.worst_values.specs.Limits.{candidates_of, limit_of};
ghost use Rattle.worst_values.specs.Rows.{row_of};
ghost use Rattle.worst_values.specs.Worst.{joined, worst_of};

use crate::candidates::value_of;
use crate::findings::Findings;
use crate::limits::{Limit, limit_at};
use crate::noting::{note_bendings, note_shears};
use crate::rows::Rows;
use crate::unmet::{unmet_of, unmet_outside};
use criteria::{Exact, Nearby, exact_into};
use hydrostat::Outside;
use moment_sums::Totals;
use port_call::Case;
use seq_report::{Chunk, walk_on};
use ship_profile::Profile;
use std::alloc::{AllocError, Global};
use strength::{Hull, Strains};

/// Joins the condition of a step to a row.
fn note_limit(
    profile: &Profile,
    exact: &Exact,
    strains: &Strains,
    row: usize,
    step: u32,
    rows: &mut Rows,
)
    requires inside { row < 14 }
    requires length { exact.now.afloat.lbp ≡ profile.now.ship.lbp }
    requires least { IsLeast exact.now.least }
    ensures length { length rows.new ≡ length rows.old }
    ensures here { (y : ℕ → Ratio) → AreMeasures exact.now.curve y
        → row_of rows.new row ≡ joined (row_of rows.old row) (worst_of
        (candidates_of profile.now.ship (condition_by exact.now y strains.now) (limit_of row)
        step)) }
    ensures others { (j : ℕ) → j ≢ row → row_of rows.new j ≡ row_of rows.old j }
{
    let limit = limit_at(row);
    let frames = profile.frames().as_slice();
    match limit {
        Limit::Shear => note_shears(frames, &strains.shear, row, step, rows),
        Limit::Bending => note_bendings(frames, &strains.bending, row, step, rows),
        _ => rows.note(row, value_of(profile, exact, strains, limit, step)),
    }
}

/// Joins the condition of a step to each row.
fn note_condition(profile: &Profile, exact: &Exact, strains: &Strains, step: u32, rows: &mut Rows)
    requires length { exact.now.afloat.lbp ≡ profile.now.ship.lbp }
    requires least { IsLeast exact.now.least }
    ensures length { length rows.new ≡ length rows.old }
    ensures each { (y : ℕ → Ratio) → AreMeasures exact.now.curve y
        → (j : ℕ) → j < 14 → row_of rows.new j ≡ joined (row_of rows.old j) (worst_of
        (candidates_of profile.now.ship (condition_by exact.now y strains.now) (limit_of j)
        step)) }
{
    for row in 0..14usize {
        note_limit(profile, exact, strains, row, step, rows);
    }
}

/// Joins line `k`, with this aboard, and gives its exact numbers, or the table outside of which it
/// lies, to whom it asks more of them. Its loads are worked out in `strains`.
pub fn note_line(
    profile: &Profile,
    hull: &Hull,
    k: u32,
    sum: &Totals,
    near: &mut Nearby,
    strains: &mut Strains,
    found: &mut Findings,
) -> Result<Result<Exact, Outside>, AllocError>
    requires of { IsHullOf hull.now profile.now.ship }
    requires bounded { IsBounded (values sum.now) }
    ensures length { length found.new.rows ≡ length found.old.rows }
    ensures rows { (j : ℕ) → j < 14 → row_of found.new.rows j
        ≡ joined (row_of found.old.rows j)
        (worst_of (candidates_with profile.now j k (values sum.now))) }
    ensures unmet { OnOk result (found.new.unmet
        ≡ found.old.unmet ++ unmet_with profile.now (values sum.now) ∷ []) }
    ensures exact { IfOk result (λ exact. IsExact exact strains.new profile.now.ship
        (assessment_of profile.now (values sum.now))) }
{
    match exact_into(profile, hull, sum, near, strains) {
        Ok(exact) => {
            note_condition(profile, &exact, strains, k, &mut found.rows);
            found.unmet.push(unmet_of(profile, &exact, strains))?;
            Ok(Ok(exact))
        }
        Err(outside) => {
            found.unmet.push(unmet_outside(outside))?;
            Ok(Err(outside))
        }
    }
}

/// What is found over the lines of a chunk.
pub fn found_in_chunk(
    alloc: Global,
    case: Case<'_>,
    hull: &Hull,
    chunk: &Chunk,
) -> Result<Findings, AllocError>
    requires of { IsHullOf hull.now case.profile.now.ship }
    requires chunk { IsChunk (case_in_view case) chunk.now }
    ensures { IfOk result (λ f. f ≡ found_over (case_in_view case.entry) (lines_in chunk.now)) }
{
    let mut found = Findings::new(alloc);
    let mut sum = chunk.first;
    let mut near = Nearby::default();
    let mut strains = Strains::default();
    for k in chunk.start..chunk.end {
        let _ = note_line(
            case.profile,
            hull,
            k,
            &sum,
            &mut near,
            &mut strains,
            &mut found,
        )?;
        walk_on(case, k, &mut sum);
    }
    Ok(found)
}
