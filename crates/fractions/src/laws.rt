ghost use Rattle.std.specs.Prelude.{ℕ, ◌<◌, pos, ◌≤ℤ◌};
ghost use Rattle.units_core.specs.Ratio.{Ratio};
ghost use Rattle.fractions.specs.Rounded.{AtLeastInPrint, AtMostInPrint, PercentInPrint};

/// What may be taken from a value, its limit and the margin as they are printed, and from how much
/// of the limit is used: a law over the definitions.
pub fn rounding_laws()
    ensures at_least { (value limit : Ratio) (s : ℕ) → pos 1 ≤ℤ value.bottom
        → pos 1 ≤ℤ limit.bottom → 0 < s → AtLeastInPrint value limit s }
    ensures at_most { (value limit : Ratio) (s : ℕ) → pos 1 ≤ℤ value.bottom
        → pos 1 ≤ℤ limit.bottom → 0 < s → AtMostInPrint value limit s }
    ensures percent { (part all : Ratio) → pos 1 ≤ℤ part.bottom → pos 1 ≤ℤ all.bottom
        → pos 1 ≤ℤ all.top → PercentInPrint part all }
{}
