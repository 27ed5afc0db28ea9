ghost use Rattle.std.specs.Prelude.{◌≡◌, ◌<◌};

use units_core::Angle;

/// The angle of the k-th ordinate.
pub fn angle_at(k: usize) -> Angle
    requires { k < 13 }
    ensures { result ≡ k }
{
    Angle::new(k as u8).unwrap()
}
