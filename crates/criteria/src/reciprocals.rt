ghost use Rattle.std.specs.Prelude.{◌<◌};

use units_core::{reciprocal_near, upper_half};

/// About the reciprocal of a divisor, by which quotients are guessed. Nothing is promised of it,
/// since each guess is tested.
#[derive(Clone, Copy)]
pub struct Reciprocal {
    /// How many of the last bits of the divisor, and of what is divided by it, are left out.
    shift: u32,
    /// About 2^64 over what is left of the divisor, which are 32 bits.
    value: u64,
    ghost shift_within: { shift < 128 },
}

/// About 2^64 over a number.
fn reciprocal_of(leading: i128) -> u64 {
    match i64::try_from(leading) {
        Ok(leading) => reciprocal_near(leading),
        Err(_) => 0,
    }
}

impl Reciprocal {
    /// That of a divisor.
    pub fn of(divisor: i128) -> Reciprocal {
        let shift = 96u32.saturating_sub(divisor.unsigned_abs().leading_zeros());
        Reciprocal {
            shift,
            value: reciprocal_of(divisor >> shift),
        }
    }

    /// About the quotient of a number that isn't negative.
    pub fn guess(&self, number: i128) -> i64 {
        let Ok(leading) = u64::try_from(number >> self.shift) else {
            return 0;
        };
        i64::try_from(upper_half(leading, self.value)).unwrap_or(0)
    }
}
