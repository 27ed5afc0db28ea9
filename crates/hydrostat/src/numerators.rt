ghost use Rattle.std.specs.Prelude.{◌≡◌, ◌*◌, ◌^◌, ◌≤◌, pos, ◌-ℤ◌, ◌*ℤ◌, unsigned_abs};

use crate::particulars::Afloat;

/// The metacentric height, to be divided by the gap and the displacement.
pub fn gm_top(a: &Afloat) -> i128
    ensures value { result ≡ (a.now.kmt *ℤ a.now.kg) -ℤ (a.now.upright *ℤ a.now.gap) }
    ensures size { unsigned_abs result ≤ 3 * 10 ^ 23 }
{
    a.kmt * a.kg - a.upright * a.gap
}

/// The trim, to be divided by the moment to change trim.
pub fn trim_top(a: &Afloat) -> i128
    ensures value { result ≡ (a.now.lcb *ℤ a.now.kg) -ℤ (a.now.x *ℤ a.now.gap) }
    ensures size { unsigned_abs result ≤ 2 * 10 ^ 23 }
{
    a.lcb * a.kg - a.x * a.gap
}

/// The list, to be divided by the metacentric height.
pub fn list_top(a: &Afloat) -> i128
    ensures value { result ≡ (pos 10000 *ℤ a.now.y) *ℤ a.now.gap }
    ensures size { unsigned_abs result ≤ 10 ^ 27 }
{
    10_000 * a.y * a.gap
}
