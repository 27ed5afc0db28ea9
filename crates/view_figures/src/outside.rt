//! What is told of a condition outside of the ship's tables.
ghost use Rattle.moment_sums.specs.Bounded.{IsBounded};
ghost use Rattle.moment_sums.specs.Kept.{values};

use hydrostat::{Outside, floating_of};
use moment_sums::Totals;
use ship_profile::Profile;
use units_core::floor;

/// A station whose draught, rounded down, lies outside of the Bonjean table.
#[derive(Clone, Copy, Debug)]
pub struct Station {
    /// In mm forward of the after perpendicular.
    pub x: i32,
    /// In mm.
    pub draught: i128,
}

/// Why a condition has no figures.
#[derive(Clone, Copy, Debug)]
pub struct Missed {
    pub cause: Outside,
    /// The aftermost station outside of the Bonjean table, for that cause.
    pub station: Option<Station>,
    /// The closing error in kg, for that cause.
    pub closing: i128,
}

/// The aftermost station whose draught lies outside of the Bonjean table.
fn station_outside(profile: &Profile, totals: &Totals) -> Option<Station>
    requires { IsBounded (values totals.now) }
{
    let floating = floating_of(profile, totals).ok()?;
    let draughts = profile.bonjean().arguments();
    let least = *draughts.first()?;
    let most = *draughts.last()?;
    for x in profile.stations() {
        let draught = floor(floating.draught(*x));
        if draught < least || most < draught {
            return Some(Station {
                x: x.get(),
                draught,
            });
        }
    }
    None
}

/// Why a condition with this aboard has no figures.
pub fn why_missed(profile: &Profile, totals: &Totals, cause: Outside, closing: i128) -> Missed
    requires { IsBounded (values totals.now) }
{
    let station = if cause == Outside::Bonjean {
        station_outside(profile, totals)
    } else {
        None
    };
    Missed {
        cause,
        station,
        closing,
    }
}
