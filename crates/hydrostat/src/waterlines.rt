ghost use Rattle.std.specs.Prelude.{◌≡◌, ◌*◌, ◌^◌, ◌≤◌, pos, ◌≤ℤ◌, unsigned_abs, MatchOption, None};
ghost use Rattle.std.specs.Prelude.{Some};
ghost use Rattle.moment_sums.specs.Bounded.{IsBounded};
ghost use Rattle.moment_sums.specs.Kept.{values};
ghost use Rattle.moment_sums.specs.Sum.{Weight};
ghost use Rattle.units_core.specs.Interpolation.{Encloses};
ghost use Rattle.hydrostat.specs.Floating.{IsAfloat, IsAfloatIn, load_of, hydrostatics_at};

use crate::particulars::Afloat;
use moment_sums::Totals;
use ship_profile::{Hydro, Profile};
use units_core::{enclosing_near, gap, read};

/// The moment about the keel of what is aboard, in kg mm, with the free surface moments.
pub fn upright(totals: &Totals) -> i128
    requires bounded { IsBounded (values totals.now) }
    requires kg { unsigned_abs (values totals.now Weight) ≤ 10 ^ 9 }
    ensures value { result ≡ (load_of (values totals.now)).upright }
    ensures within { unsigned_abs result ≤ 2 * 10 ^ 15 }
{
    totals.z() + totals.fsm()
}

/// A ship whose displacement lies in the interval `i` of her hydrostatic table.
fn afloat_at(hydro: &Hydro, lbp: i128, totals: &Totals, i: usize) -> Afloat
    requires bounded { IsBounded (values totals.now) }
    requires inside { Encloses hydro.now.kg i (values totals.now Weight) }
    requires lbp_low { pos 1 ≤ℤ lbp }
    requires lbp_high { unsigned_abs lbp ≤ 10 ^ 6 }
    ensures { IsAfloatIn result hydro.now (values totals.now) lbp i }
{
    let kgs = hydro.kg();
    let kg = totals.kg();
    Afloat {
        kg,
        x: totals.x(),
        y: totals.y(),
        upright: upright(totals),
        gap: gap(kgs, i),
        draught: read(kgs, hydro.draught(), i, kg),
        kmt: read(kgs, hydro.kmt(), i, kg),
        lcb: read(kgs, hydro.lcb(), i, kg),
        lcf: read(kgs, hydro.lcf(), i, kg),
        mct: read(kgs, hydro.mct(), i, kg),
        lbp,
    }
}

/// The ship afloat with this aboard; `None` where the displacement lies outside of her hydrostatic
/// table. The displacement is looked for first in the interval `near` of the table, which is then
/// the one where it was found.
pub fn on_waterline(profile: &Profile, totals: &Totals, near: &mut usize) -> Option<Afloat>
    requires bounded { IsBounded (values totals.now) }
    ensures { MatchOption result
        (hydrostatics_at profile.now.tables.hydro (values totals.now Weight) ≡ None)
        (λ a. IsAfloat a profile.now.tables.hydro (values totals.now) profile.now.ship.lbp) }
{
    let hydro = profile.hydro();
    let i = enclosing_near(hydro.kg(), totals.kg(), near)?;
    Some(afloat_at(hydro, i128::from(profile.lbp().get()), totals, i))
}
