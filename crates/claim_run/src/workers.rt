ghost use Rattle.std.specs.Prelude.{◌≡◌, ◌⊎◌, ◌<◌, ◌≤◌, IfSome, None};

use std::marker::Model;

/// How many workers a run has, 1 to 16.
#[derive(Clone, Copy, Debug, PartialEq, Eq)]
pub struct Workers {
    count: u8,
}

impl Model for Workers {
    ghost use Rattle.std.specs.Prelude.{ℕ, ◌<◌, ◌≤◌};

    ghost Value = { ℕ };

    ghost view = { λ w. w.count };

    ghost invariant = { λ w. (0 < w.count) × (w.count ≤ 16) };

    ghost inverse = { λ n. record { count = n } };
}

impl Workers {
    /// So many workers; `None` for 0 and for more than 16.
    pub fn new(n: u8) -> Option<Workers>
        ensures some { IfSome result (λ w. (w ≡ n) × (0 < n) × (n ≤ 16)) }
        ensures none { result ≡ None → (n ≡ 0) ⊎ (16 < n) }
    {
        if n == 0 || n > 16 {
            return None;
        }
        Some(Workers { count: n })
    }

    /// How many they are.
    pub fn get(self) -> u8
        ensures value { result ≡ self }
        ensures range { (0 < result) × (result ≤ 16) }
    {
        self.count
    }
}
