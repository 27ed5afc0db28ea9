use crate::measures::CurveMeasures;
use hydrostat::Afloat;
use units_core::Frac;

/// The exact numbers of a condition within the ship's tables, by which every criterion is decided.
/// The loads on her hull are kept beside them.
#[derive(Clone, Copy)]
pub struct Exact {
    /// How she floats.
    pub afloat: Afloat,
    /// What is taken of the curve of her righting levers.
    pub curve: CurveMeasures,
    /// The least metacentric height at her displacement, in mm, where she has such limits.
    pub least: Option<Frac>,
}
