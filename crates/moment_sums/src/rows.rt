ghost use Rattle.std.specs.Prelude.{◌≡◌, ◌^◌, ◌≤◌, ℕ, ◌+ℤ◌, neg_ℤ, unsigned_abs};
ghost use Rattle.units_core.specs.Interpolation.{at, IsWithin};
ghost use Rattle.moment_sums.specs.Kept.{added};

/// The sum of two numbers.
pub fn plus(one: i128, other: i128) -> i128
    requires one { unsigned_abs one ≤ 10 ^ 30 }
    requires other { unsigned_abs other ≤ 10 ^ 30 }
    ensures { result ≡ one +ℤ other }
{
    one + other
}

/// A number with the other sign.
pub fn negate(number: i128) -> i128
    requires { unsigned_abs number ≤ 10 ^ 30 }
    ensures { result ≡ neg_ℤ number }
{
    -number
}

/// The sums of the numbers at each place.
pub fn add(one: &[i128; 16], other: &[i128; 16]) -> [i128; 16]
    requires one { IsWithin (10 ^ 30) one.now }
    requires other { IsWithin (10 ^ 30) other.now }
    ensures { result ≡ added one.now other.now }
{
    let mut sums = [0; 16];
    for i in 0..16 {
        sums[i] = plus(one[i], other[i]);
    }
    sums
}

/// The numbers at each place with the other sign.
pub fn negate_all(numbers: &[i128; 16]) -> [i128; 16]
    requires { IsWithin (10 ^ 30) numbers.now }
    ensures { (i : ℕ) → at result i ≡ neg_ℤ (at numbers.now i) }
{
    let mut negated = [0; 16];
    for i in 0..16 {
        negated[i] = negate(numbers[i]);
    }
    negated
}

/// The sums of the masses at each place, in kg.
pub fn add_masses(one: &[i64; 16], other: &[i64; 16]) -> [i64; 16]
    requires one { IsWithin (10 ^ 18) one.now }
    requires other { IsWithin (10 ^ 18) other.now }
    ensures { result ≡ added one.now other.now }
{
    let mut sums = [0; 16];
    for i in 0..16 {
        sums[i] = one[i] + other[i];
    }
    sums
}

/// The masses at each place with the other sign.
pub fn negate_masses(masses: &[i64; 16]) -> [i64; 16]
    requires { IsWithin (10 ^ 18) masses.now }
    ensures { (i : ℕ) → at result i ≡ neg_ℤ (at masses.now i) }
{
    let mut negated = [0; 16];
    for i in 0..16 {
        negated[i] = -masses[i];
    }
    negated
}
