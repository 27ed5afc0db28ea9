//! Which criteria a condition doesn't meet.
ghost use Rattle.std.specs.Prelude.{◌≡◌, ℕ, ◌++◌};
ghost use Rattle.units_core.specs.Ratio.{Ratio};
ghost use Rattle.criteria.specs.Exact.{condition_by};
ghost use Rattle.criteria.specs.Least.{IsLeast};
ghost use Rattle.criteria.specs.Measures.{AreMeasures};
ghost use Rattle.worst_values.specs.Findings.{by_cause, outside_alone, unmet_of};

use criteria::{Criterion, Exact, is_met};
use hydrostat::Outside;
use ship_profile::Profile;
use strength::Strains;

/// The criteria and the causes.
const MARKS: usize = 17;

/// Whether each criterion isn't met, in their order, and for which cause a condition is outside.
pub type Unmet = [bool; MARKS];

/// Everything is met.
pub const NOTHING_UNMET: Unmet = [false; MARKS];

/// What a condition within the ship's tables doesn't meet.
pub fn unmet_of(profile: &Profile, exact: &Exact, strains: &Strains) -> Unmet
    requires length { exact.now.afloat.lbp ≡ profile.now.ship.lbp }
    requires least { IsLeast exact.now.least }
    ensures { (y : ℕ → Ratio) → AreMeasures exact.now.curve y
        → result ≡ unmet_of profile.now.ship (condition_by exact.now y strains.now) }
{
    [
        !is_met(profile, exact, strains, Criterion::C0),
        !is_met(profile, exact, strains, Criterion::C1),
        !is_met(profile, exact, strains, Criterion::C2),
        !is_met(profile, exact, strains, Criterion::C3),
        !is_met(profile, exact, strains, Criterion::C4),
        !is_met(profile, exact, strains, Criterion::C5),
        !is_met(profile, exact, strains, Criterion::C6),
        !is_met(profile, exact, strains, Criterion::C7),
        !is_met(profile, exact, strains, Criterion::C8),
        !is_met(profile, exact, strains, Criterion::C9),
        !is_met(profile, exact, strains, Criterion::C10),
        !is_met(profile, exact, strains, Criterion::C11),
        false,
        false,
        false,
        false,
        false,
    ]
}

/// What a condition outside of the tables doesn't meet, which is C0 alone.
pub fn unmet_outside(outside: Outside) -> Unmet
    ensures { result ≡ outside_alone ++ by_cause outside }
{
    let mut unmet = NOTHING_UNMET;
    unmet[0] = true;
    match outside {
        Outside::Hydro => unmet[12] = true,
        Outside::Levers => unmet[13] = true,
        Outside::Bonjean => unmet[14] = true,
        Outside::Closing => unmet[15] = true,
        Outside::GmLimit => unmet[16] = true,
    }
    unmet
}
