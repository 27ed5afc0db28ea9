ghost use Rattle.std.specs.Prelude.{◌≡◌, ◌&&◌, neg_ℤ, int_le};
ghost use Rattle.strength.specs.Strains.{closes};

/// Whether a load is between two limits, the first with the other sign: a shear force, a bending
/// moment (sagging is negative) or a closing error. `!load` is -1 - load, so no limit is negated.
#[inline(always)]
pub fn is_between(load: i64, low: i64, high: i64) -> bool
    ensures { result ≡ (int_le (neg_ℤ low) load && int_le load high) }
{
    if !load >= low {
        return false;
    }
    load <= high
}

/// Whether the closing error is within its limit either way.
pub fn closes(error: i64, most: i64) -> bool
    ensures { result ≡ closes error most }
{
    is_between(error, most, most)
}
