//! The righting levers of the box ship, and of one whose greatest lever stands at two angles.
use super::masses::sum_of;
use crate::checks::{same, same_row};
use box_ship::{Check, files, on_box_ship, on_ship};
use hydrostat::Outside;
use righting::{
    Levers, area_holds, area_over_pairs, area_sum, area_sums, best_from_30, best_number_from_30,
    greatest, greatest_levers, greatest_number, levers_of,
};
use ship_profile::{Profile, ProfileBytes};
use std::process::Abort;
use std::test::Fail;
use units_core::{Angle, Frac, floor};

/// The same lever at 20 and 25 degrees, and smaller ones elsewhere.
static TIED: &str = "kg,0,5,10,15,20,25,30,35,40,45,50,55,60
4100000,0,900,1790,2650,4230,4230,4000,3800,3600,3400,3200,3000,2800
12300000,0,900,1790,2650,4230,4230,4000,3800,3600,3400,3200,3000,2800
";

/// The levers with one body amidships of mass `kg`, `y` mm from the centre line and `z` mm above
/// the keel; none where its mass lies outside of the cross curves.
fn levers_under(profile: &Profile, kg: u32, y: i32, z: i32) -> Result<Option<Levers>, Fail> {
    let totals = sum_of(profile, &[(kg, [50_000, y, z, 50_000])])?;
    match levers_of(profile, &totals) {
        Ok(levers) => Ok(Some(levers)),
        Err(Outside::Levers) => Ok(None),
        Err(_) => Err("another table")?,
    }
}

/// The levers with 8,200,000 kg aboard.
fn levers_with(profile: &Profile, y: i32, z: i32) -> Result<Levers, Fail> {
    Ok(levers_under(profile, 8_200_000, y, z)?.ok_or("outside")?)
}

/// The levers at all angles, in mm, rounded down.
fn figures(levers: &Levers) -> [i128; 13] {
    let mut figures = [0; 13];
    for k in 0..13usize {
        figures[k] = floor(Frac {
            num: levers.num[k],
            den: levers.den,
        });
    }
    figures
}

/// 6,000 mm above the keel: KN - 6,000 sin h, as 5,400 - 6,000 * 0.573576 = 1,958.544 at 35
/// degrees.
static UPRIGHT: [i128; 13] = [
    0, 377, 748, 1_097, 1_417, 1_694, 1_900, 1_958, 1_893, 1_737, 1_513, 1_235, 913,
];

/// The levers where the centre of gravity is `y` mm from the centre line and 6,000 mm above the
/// keel.
#[derive(Clone, Copy)]
struct Listing {
    y: i32,
    levers: [i128; 13],
}

impl<R: Abort + AllocGlobal> Check<R> for Listing {
    fn check(&self, rt: &R, profile: &Profile) -> Result<(), Fail> {
        let levers = levers_with(profile, self.y, 6_000)?;
        same_row(rt, self.y, figures(&levers), self.levers);
        Ok(())
    }
}

#[test]
fn levers_of_the_box_ship(rt: HostRuntime) -> Result<(), Fail> {
    let upright = Listing {
        y: 0,
        levers: UPRIGHT,
    };
    on_box_ship(&rt, &upright)
}

/// The same 500 mm from the centre line: less 500 cos h, as 1,958.544 - 500 * 0.819152 = 1,548.968
/// at 35 degrees.
static LISTING: [i128; 13] = [
    -500, -122, 255, 614, 948, 1_241, 1_466, 1_548, 1_510, 1_383, 1_192, 948, 663,
];

#[test]
fn list_to_either_side(rt: HostRuntime) -> Result<(), Fail> {
    for y in [-500, 500] {
        let listing = Listing { y, levers: LISTING };
        on_box_ship(&rt, &listing)?;
    }
    Ok(())
}

/// Whether the cross curves, from 4,100,000 to 12,300,000 kg, have a displacement.
static DISPLACEMENTS: [(u32, bool); 4] = [
    (4_099_999, false),
    (4_100_000, true),
    (12_300_000, true),
    (12_300_001, false),
];

/// Compares the displacements with the cross curves.
#[derive(Clone, Copy)]
struct Displacements;

impl<R: Abort + AllocGlobal> Check<R> for Displacements {
    fn check(&self, rt: &R, profile: &Profile) -> Result<(), Fail> {
        for (kg, inside) in &DISPLACEMENTS {
            let levers = levers_under(profile, *kg, 0, 6_000)?;
            same_row(rt, kg, levers.is_some(), *inside);
        }
        Ok(())
    }
}

#[test]
fn outside_of_the_cross_curves(rt: HostRuntime) -> Result<(), Fail> {
    on_box_ship(&rt, &Displacements)
}

/// The angle of this number of degrees.
fn angle(degrees: u8) -> Result<Angle, Fail> {
    Ok(Angle::new(degrees / 5).ok_or("an angle")?)
}

/// From one angle to another, Simpson's sum under the levers of `UPRIGHT`, in mm, rounded down.
/// With 377.064, 748.112, 1,097.086, 1,417.880, 1,694.292, 1,900, 1,958.544 and 1,893.272 mm at 5,
/// 10, .., 40 degrees:
static AREAS: [(u8, u8, i128); 3] = [
    // 4 * (377.064 + 1,097.086 + 1,694.292) + 2 * (748.112 + 1,417.880) + 1,900 = 18,905.752, which
    // is 31,509.6 mm degrees
    (0, 30, 18_905),
    // 18,905.752 + 11,627.448 = 30,533.200
    (0, 40, 30_533),
    // 1,900 + 4 * 1,958.544 + 1,893.272 = 11,627.448
    (30, 40, 11_627),
];

/// The sum between two angles, rounded down.
fn area(levers: &Levers, from: u8, to: u8) -> Result<i128, Fail> {
    let from = angle(from)?;
    let to = angle(to)?;
    if to.step() <= from.step() {
        return Err("no angles between")?;
    }
    if (to.step() - from.step()) % 2 != 0 {
        return Err("an odd number of intervals")?;
    }
    Ok(floor(area_sum(levers, from, to)))
}

/// Compares the areas under the levers of `UPRIGHT`.
#[derive(Clone, Copy)]
struct Areas;

impl<R: Abort + AllocGlobal> Check<R> for Areas {
    fn check(&self, rt: &R, profile: &Profile) -> Result<(), Fail> {
        let levers = levers_with(profile, 0, 6_000)?;
        for (from, to, sum) in &AREAS {
            assert_eq!(rt; area(&levers, *from, *to)?, *sum, "{from} to {to}");
        }
        // from 10 to 30 degrees: 748.112 + 4 * (1,097.086 + 1,694.292) + 2 * 1,417.880 + 1,900 =
        // 16,649.384
        same(rt, floor(area_over_pairs(&levers, 2, 2)), 16_649);
        let sums = area_sums(&levers);
        same(rt, floor(sums.to_30), 18_905);
        same(rt, floor(sums.to_40), 30_533);
        same(rt, floor(sums.from_30), 11_627);
        Ok(())
    }
}

#[test]
fn area_between_angles(rt: HostRuntime) -> Result<(), Fail> {
    on_box_ship(&rt, &Areas)
}

#[test]
fn area_at_its_limit(rt: HostRuntime) {
    // 5,000 * 2,363,451 / 1,250 = 9,453,804 = 3 * 3,151,268
    let met = Frac {
        num: 2_363_451,
        den: 1_250,
    };
    let missed = Frac {
        num: 2_363_450,
        den: 1_250,
    };
    same(&rt, area_holds(met, 3_151_268), true);
    same(&rt, area_holds(missed, 3_151_268), false);
}

/// Looks for the greatest lever on the keel and the centre line, where the levers are those of the
/// curves: 4,230 mm at 20 and at 25 degrees, 4,000 mm at 30.
#[derive(Clone, Copy)]
struct Greatest;

impl<R: Abort + AllocGlobal> Check<R> for Greatest {
    fn check(&self, rt: &R, profile: &Profile) -> Result<(), Fail> {
        let levers = levers_with(profile, 0, 0)?;
        same(rt, greatest(&levers).degrees(), 20);
        same(rt, greatest_number(&levers), 4);
        same(rt, floor(best_from_30(&levers)), 4_000);
        same(rt, best_number_from_30(&levers), 6);
        let peaks = greatest_levers(&levers);
        same(rt, peaks.greatest, 4);
        same(rt, floor(peaks.best), 4_000);
        Ok(())
    }
}

#[test]
fn tied_greatest_lever(rt: HostRuntime) -> Result<(), Fail> {
    let files = ProfileBytes {
        kn: TIED.as_bytes(),
        ..files()
    };
    on_ship(&rt, &files, &Greatest)
}
