use units_core::Frac;

/// How safe a value is, at a place of the condition of a step: the lesser `by` is, the worse. One
/// that is beyond all measure is worse than all that aren't.
#[derive(Clone, Copy, Debug)]
pub struct Value {
    /// The number of the step, 0 for the condition on arrival.
    pub step: u32,
    /// The number of a frame, from the aftermost on; 0 where the value is of the whole ship.
    pub place: u32,
    pub beyond: bool,
    pub by: Frac,
}
