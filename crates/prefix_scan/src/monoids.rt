ghost use Rattle.std.specs.Prelude.{◌≡◌, ℕ, ◌+◌, ◌≤◌};
ghost use Rattle.prefix_scan.specs.Laws.{MonoidLaws, most_parts};

/// The greatest size of a value that is joined of others.
pub const MAX_PARTS: u32 = 524_288;

/// Values that are joined in their order, with a size that adds up.
pub trait Monoid: Copy {
    // The value of nothing, how two values are joined, and of how many parts a value is.
    ghost empty: { Self };

    ghost op: { Self → Self → Self };

    ghost weight: { Self → ℕ };

    /// The value of nothing.
    fn unit() -> Self
        ensures { result ≡ empty };

    /// Of how many parts the value is.
    fn size(&self) -> u32
        ensures { result ≡ weight self.now };

    /// This value and then the other. Their sizes add up to at most [`MAX_PARTS`].
    fn join(&self, right: &Self) -> Self
        requires { weight self.now + weight right.now ≤ most_parts }
        ensures { result ≡ op self.now right.now };

    // What every such type keeps.
    ghost laws: { MonoidLaws most_parts empty op weight };
}
