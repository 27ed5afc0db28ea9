ghost use Rattle.std.specs.Prelude.{◌≡◌};
ghost use Rattle.moment_sums.specs.Bounded.{IsBounded};
ghost use Rattle.moment_sums.specs.Kept.{values};
ghost use Rattle.moment_sums.specs.Sum.{Weight};
ghost use Rattle.units_core.specs.Ratio.{Is};
ghost use Rattle.hydrostat.specs.Floating.{draught_at, load, load_of, water, hydrostatics_at};
ghost use Rattle.hydrostat.specs.Figures.{IsFloating, IsFloatingOf};

use crate::draughts::draught;
use crate::outside::Outside;
use crate::particulars::Afloat;
use crate::ratios::{gm_of, list_of, mean_of, trim_of};
use crate::waterlines::on_waterline;
use moment_sums::Totals;
use ship_profile::Profile;
use units_core::{Frac, Mm};

/// How a ship floats, exactly.
#[derive(Clone, Copy)]
pub struct Floating {
    /// The metacentric height in mm, corrected for free surfaces.
    pub gm: Frac,
    /// The mean draught in mm.
    pub mean: Frac,
    /// The draught at the after perpendicular, in mm.
    pub aft: Frac,
    /// The draught at the forward perpendicular, in mm.
    pub fwd: Frac,
    /// The trim in mm, by the stern positive.
    pub trim: Frac,
    /// The list in ten-thousandths of the tangent, to starboard; `None` where the metacentric
    /// height isn't positive.
    pub list: Option<Frac>,
    /// The ship afloat, of which these are the figures.
    pub afloat: Afloat,
}

impl Floating {
    /// The draught in mm at `x`, which is measured forward from the after perpendicular.
    pub fn draught(&self, x: Mm) -> Frac
        ensures { Is result.num result.den
            (draught_at (water self.now.afloat) (load self.now.afloat) self.now.afloat.lbp x) }
    {
        draught(&self.afloat, i128::from(x.get()))
    }
}

/// The figures of a ship afloat.
fn figures(afloat: &Afloat) -> Floating
    ensures { IsFloating result afloat.now }
{
    Floating {
        gm: gm_of(afloat),
        mean: mean_of(afloat),
        aft: draught(afloat, 0),
        fwd: draught(afloat, afloat.lbp),
        trim: trim_of(afloat),
        list: list_of(afloat),
        afloat: *afloat,
    }
}

/// How the ship floats with this aboard; [`Outside::Hydro`] where the displacement lies outside of
/// her hydrostatic table.
pub fn floating_of(profile: &Profile, totals: &Totals) -> Result<Floating, Outside>
    requires bounded { IsBounded (values totals.now) }
    ensures { IsFloatingOf result
        (hydrostatics_at profile.now.tables.hydro (values totals.now Weight))
        (load_of (values totals.now)) profile.now.ship.lbp }
{
    match on_waterline(profile, totals, &mut 0) {
        Some(afloat) => Ok(figures(&afloat)),
        None => Err(Outside::Hydro),
    }
}
