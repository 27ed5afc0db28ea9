ghost use Rattle.std.specs.Prelude.{◌≤◌};

use criteria::{Criterion, RoundedFigures};
use hydrostat::Outside;

/// What the line of a step says: its number, the displacement in kg, and how it is judged.
#[derive(Clone, Copy)]
pub struct StepLine {
    /// The number of the step, 0 for the condition on arrival.
    pub step: u32,
    /// The displacement in kg.
    pub kg: i128,
    /// How many frames the ship has.
    pub frames: usize,
    /// How the condition is judged: the table outside of which it lies, or the first criterion that
    /// doesn't hold, if there is one.
    pub judged: Result<Option<Criterion>, Outside>,
    /// Its figures, where it lies within the tables.
    pub figures: RoundedFigures,
    pub ghost some: { 1 ≤ frames },
    pub ghost few: { frames ≤ 16 },
}
