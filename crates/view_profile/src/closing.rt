//! By how much the areas and the displacement differ on an even keel.
use crate::figures::{around, on_line, size, times};
use ship_profile::Profile;
use view_quotes::column_number;

/// A closing error on an even keel, and the displacement at which it is, in kg.
#[derive(Clone, Copy, Debug)]
pub struct Closing {
    pub error: i128,
    pub kg: i128,
}

/// The immersed area at a station at a draught, rounded down as the strength's is.
fn area_at(profile: &Profile, station: usize, places: (usize, usize), draught: i128) -> i128 {
    let bonjean = profile.bonjean();
    let areas = match bonjean.column(station) {
        Some(areas) => areas,
        None => &[],
    };
    let line = on_line(bonjean.arguments(), areas, places, draught);
    if line.den > 0 {
        line.num.div_euclid(line.den)
    } else {
        0
    }
}

/// The buoyancy on an even keel at a draught, in kg; nothing where the areas don't reach to it.
fn buoyancy_at(profile: &Profile, draught: i128) -> Option<i128> {
    let places = around(profile.bonjean().arguments(), draught)?;
    let mut sum = 0i128;
    let mut before: Option<(i128, i128)> = None;
    for (station, x) in profile.stations().iter().enumerate() {
        let x = i128::from(x.get());
        let area = area_at(profile, station, places, draught);
        if let Some((last_x, last_area)) = before {
            let length = x.saturating_sub(last_x);
            sum = sum.saturating_add(times(length, last_area.saturating_add(area)));
        }
        before = Some((x, area));
    }
    // cm2 mm by 1.025 t in a cubic metre, and half of two areas
    Some(times(sum, 1_025).div_euclid(20_000_000))
}

/// Takes the closing error at a displacement and its draught, where it is the greatest so far.
fn take(profile: &Profile, worst: &mut Option<Closing>, kg: i128, draught: i128) {
    let Some(buoyancy) = buoyancy_at(profile, draught) else {
        return;
    };
    let error = buoyancy.saturating_sub(kg);
    let is_worse = match worst {
        Some(other) => size(error) > size(other.error),
        None => true,
    };
    if is_worse {
        *worst = Some(Closing { error, kg });
    }
}

/// The greatest closing error on an even keel, at the records of hydro.csv and half-way between two
/// of them; nothing where the areas reach to none of these draughts.
pub fn worst_closing(profile: &Profile) -> Option<Closing> {
    let hydro = profile.hydro();
    let masses = hydro.kg();
    let mut worst: Option<Closing> = None;
    for place in 0..masses.len() {
        let kg = column_number(masses, place);
        take(
            profile,
            &mut worst,
            kg,
            column_number(hydro.draught(), place),
        );
        let next = place.saturating_add(1);
        if next < masses.len() {
            let half = kg.saturating_add(column_number(masses, next)).div_euclid(2);
            let line = on_line(masses, hydro.draught(), (place, next), half);
            if line.den > 0 {
                take(profile, &mut worst, half, line.num.div_euclid(line.den));
            }
        }
    }
    worst
}
