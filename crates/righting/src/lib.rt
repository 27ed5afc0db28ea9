//! Righting levers and the areas under them, by the ship's cross curves.
#![tactic(auto)]

mod angles;
mod areas;
mod cross_curves;
mod curves;
mod heeled;
mod ordinates;

pub use areas::{
    area_holds, area_over_pairs, area_sum, best_from_30, best_number_from_30, greatest,
    greatest_number,
};
pub use cross_curves::{levers_aboard, levers_of};
pub use curves::{AreaSums, GreatestLevers, area_sums, greatest_levers};
pub use ordinates::Levers;
