//! The loads of a condition, joined to a row one by one: nearly all are far below the worst, which
//! the row's mark shows at a fraction of the cost of finding the worst of a condition first.
ghost use Rattle.std.specs.Prelude.{◌≡◌, ◌≢◌, ℕ, ◌<◌, ◌≤◌, length, Option, Some, true};
ghost use Rattle.units_core.specs.Interpolation.{at};
ghost use Rattle.worst_values.specs.Limits.{bendings, part_of, shears};
ghost use Rattle.worst_values.specs.Rows.{is_marked, row_of};
ghost use Rattle.worst_values.specs.Worst.{Candidate, joined, worst_of};

use crate::loads::{bending_limit, part_of};
use crate::marks::is_value_from;
use crate::rows::Rows;
use ship_profile::Frame;

/// Whether a load is surely no worse by a limit than a mark, and so than what is worse than that.
#[inline(always)]
fn is_within(load: i64, limit: i64, mark: Option<i32>) -> bool
    ensures { result ≡ true → (o : Option Candidate) (x : Candidate) → is_marked o mark ≡ true
        → x.safety ≡ part_of load limit → joined o (Some x) ≡ o }
{
    match mark {
        Some(mark) => is_value_from(&part_of(load, limit, 0, 0), mark),
        None => false,
    }
}

/// Joins to a row the load at a frame of the condition of a step.
#[inline(always)]
fn note_load(load: i64, limit: i64, row: usize, step: u32, place: u32, rows: &mut Rows)
    requires { row < 14 }
    ensures length { length rows.new ≡ length rows.old }
    ensures here { row_of rows.new row ≡ joined (row_of rows.old row)
        (Some (record { step = step; place = place; safety = part_of load limit })) }
    ensures others { (j : ℕ) → j ≢ row → row_of rows.new j ≡ row_of rows.old j }
{
    if !is_within(load, limit, rows.mark(row)) {
        rows.note(row, Some(part_of(load, limit, step, place)));
    }
}

/// Joins to a row the shear forces of the condition of a step.
pub fn note_shears(frames: &[Frame], shear: &[i64; 16], row: usize, step: u32, rows: &mut Rows)
    requires inside { row < 14 }
    requires few { length frames.now ≤ 16 }
    ensures length { length rows.new ≡ length rows.old }
    ensures here { row_of rows.new row ≡ joined (row_of rows.old row)
        (worst_of (shears (λ i. at shear.now i) step frames.now 0)) }
    ensures others { (j : ℕ) → j ≢ row → row_of rows.new j ≡ row_of rows.old j }
{
    for i in 0..frames.len() {
        note_load(shear[i], frames[i].shear_max, row, step, i as u32, rows);
    }
}

/// Joins to a row the bending moments of the condition of a step.
pub fn note_bendings(frames: &[Frame], bending: &[i64; 16], row: usize, step: u32, rows: &mut Rows)
    requires inside { row < 14 }
    requires few { length frames.now ≤ 16 }
    ensures length { length rows.new ≡ length rows.old }
    ensures here { row_of rows.new row ≡ joined (row_of rows.old row)
        (worst_of (bendings (λ i. at bending.now i) step frames.now 0)) }
    ensures others { (j : ℕ) → j ≢ row → row_of rows.new j ≡ row_of rows.old j }
{
    for i in 0..frames.len() {
        let load = bending[i];
        let limit = bending_limit(&frames[i], load);
        note_load(load, limit, row, step, i as u32, rows);
    }
}
