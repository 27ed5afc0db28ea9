ghost use Rattle.std.specs.Prelude.{◌≡◌, ◌↔◌, IsTrue, ◌∷◌, []};

/// A tag of three ordinary bytes.
#[derive(Clone, Copy)]
pub struct Tag {
    pub(crate) first: u8,
    pub(crate) second: u8,
    pub(crate) third: u8,
}

impl Tag {
    ghost use Rattle.edifact_text.specs.Views.{letters_of};

    /// The tag is these letters.
    #[inline(always)]
    pub fn is(self, first: u8, second: u8, third: u8) -> bool
        ensures { IsTrue result ↔ (letters_of self ≡ first ∷ second ∷ third ∷ []) }
    {
        self.first == first && self.second == second && self.third == third
    }
}
