use hydrostat::Floating;
use righting::Levers;
use strength::Loads;

/// The figures of a condition within the ship's tables, exactly.
#[derive(Drop)]
pub struct Figures {
    /// How she floats.
    pub floating: Floating,
    /// Her righting levers.
    pub levers: Levers,
    /// The loads on her hull.
    pub loads: Loads,
}
