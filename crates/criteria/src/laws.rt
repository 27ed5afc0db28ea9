ghost use Rattle.criteria.specs.Law.{JudgesInOrder};

/// A cause is named exactly where the ship's tables lack what it speaks of and have that of each
/// before it; and where they have all, a criterion exactly where it isn't met and each before it
/// is. A law over the definitions, which [`judge`](crate::judge) and
/// [`judge_into`](crate::judge_into) answer by.
pub fn judges_in_order()
    ensures { JudgesInOrder }
{}
