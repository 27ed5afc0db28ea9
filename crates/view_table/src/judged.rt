ghost use Rattle.std.specs.Prelude.{◌≤◌};

use criteria::{Criterion, RoundedFigures};
use hydrostat::Outside;
use worst_values::Unmet;

/// What is told of a condition. One is made anew in its place for each condition, since a move of
/// its figures is a copy of 700 bytes.
#[derive(Drop)]
pub struct Judged {
    /// The displacement in kg.
    pub kg: i128,
    /// How many frames the ship has.
    pub frames: usize,
    /// The first criterion that it doesn't meet, or the table outside of which it lies.
    pub first: Result<Option<Criterion>, Outside>,
    /// Its figures, within the ship's tables.
    pub figures: RoundedFigures,
    /// The least metacentric height at this displacement in mm, rounded down, if she has such.
    pub least_gm: Option<i128>,
    /// Where it fails within her tables, all that it doesn't meet.
    pub unmet: Unmet,
    pub ghost some: { 1 ≤ frames },
    pub ghost few: { frames ≤ 16 },
}
