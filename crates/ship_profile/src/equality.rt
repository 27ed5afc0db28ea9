ghost use Rattle.ship_profile.specs.Equality.{fills_exact};

use crate::fills::TankFill;
use units_core::Exact;

impl Exact for TankFill {
    ghost exact = { fills_exact };
}
