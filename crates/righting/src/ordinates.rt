ghost use Rattle.std.specs.Prelude.{◌*◌, ◌^◌, ◌≤◌, pos, ◌≤ℤ◌, unsigned_abs};
ghost use Rattle.units_core.specs.Interpolation.{IsWithin};

/// The righting levers of a ship at 0, 5, .., 60 degrees of heel, in mm, as fractions of one
/// denominator.
#[derive(Clone, Copy)]
pub struct Levers {
    /// Their numerators.
    pub num: [i128; 13],
    /// Their denominator, which is positive.
    pub den: i128,
    pub ghost positive: { pos 1 ≤ℤ den },
    pub ghost den_within: { unsigned_abs den ≤ 10 ^ 23 },
    pub ghost num_within: { IsWithin (10 ^ 30) num },
}

/// The levers KN that the table of cross curves gives at a displacement.
#[derive(Clone, Copy)]
pub struct Crossing {
    /// At 0, 5, .., 60 degrees, in mm, each to be divided by the gap.
    pub lever: [i128; 13],
    /// The length in kg of the interval of displacements where they were read.
    pub gap: i128,
    /// The displacement in kg.
    pub kg: i128,
    pub ghost lever_within: { IsWithin (10 ^ 14) lever },
    pub ghost gap_positive: { pos 1 ≤ℤ gap },
    pub ghost gap_within: { unsigned_abs gap ≤ 10 ^ 8 },
    pub ghost kg_positive: { pos 1 ≤ℤ kg },
    pub ghost kg_within: { unsigned_abs kg ≤ 10 ^ 9 },
}
