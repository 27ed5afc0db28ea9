ghost use Rattle.std.specs.Prelude.{◌≡◌, ◌^◌, ◌≤◌, ◌*ℤ◌, ◌&&◌, unsigned_abs};
ghost use Rattle.std.specs.List.{list_all};
ghost use Rattle.moment_sums.specs.Kept.{are_centres, is_either_way, is_share};

use crate::rows::negate;

/// Whether both hold.
pub fn both(one: bool, other: bool) -> bool
    ensures { result ≡ one && other }
{
    one && other
}

/// A mass times a length.
pub fn times(length: i128, kg: i128) -> i128
    requires length { unsigned_abs length ≤ 10 ^ 7 }
    requires kg { unsigned_abs kg ≤ 10 ^ 15 }
    ensures value { result ≡ length *ℤ kg }
    ensures within { unsigned_abs result ≤ 10 ^ 22 }
{
    length * kg
}

/// Whether a number lies within a limit either way.
fn is_either_way(most: i128, number: i128) -> bool
    requires { unsigned_abs most ≤ 10 ^ 22 }
    ensures { result ≡ is_either_way most number }
{
    both(negate(most) <= number, number <= most)
}

/// Whether the three moments lie within a limit either way.
pub fn are_centres(most: i128, x: i128, y: i128, z: i128) -> bool
    requires { unsigned_abs most ≤ 10 ^ 22 }
    ensures { result ≡ are_centres most x y z }
{
    both(
        is_either_way(most, x),
        both(is_either_way(most, y), is_either_way(most, z)),
    )
}

/// Whether a number lies between 0 and a limit.
pub fn is_share(most: i128, number: i128) -> bool
    ensures { result ≡ is_share most number }
{
    both(0 <= number, number <= most)
}

/// Whether each of the numbers lies between 0 and a limit.
pub fn are_shares(most: i128, shares: &[i128; 16]) -> bool
    ensures { result ≡ list_all (is_share most) shares.now }
{
    shares.iter().all(|share| is_share(most, *share))
}

/// Whether each of the masses lies between 0 and a whole, in kg.
pub fn are_parts(whole: i128, masses: &[i64; 16]) -> bool
    ensures { result ≡ list_all (is_share whole) masses.now }
{
    masses.iter().all(|mass| is_share(whole, i128::from(*mass)))
}
