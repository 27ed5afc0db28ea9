//! What a criterion that isn't met means, and what to do.
use criteria::Criterion;
use hydrostat::Outside;

/// What is the matter, and what to do.
#[derive(Clone, Copy, Debug)]
pub struct Advice {
    pub what: &'static str,
    pub remedy: &'static str,
}

/// What helps where the centre of gravity is too high.
const LOWER: &str =
    "The centre of gravity is too high: load low or discharge high first, or take ballast below.";

/// What helps where the metacentric height is too small.
const STIFFER: &str = "Load low or discharge high first, fill a double-bottom tank and press it \
    up, or empty slack tanks.";

/// Of a condition outside of the ship's tables.
pub fn advice_outside(cause: Outside) -> Advice {
    match cause {
        Outside::Hydro => Advice {
            what: "The displacement lies outside of hydro.csv, so that the condition isn't judged \
                at all.",
            remedy: "Give hydro.csv the records of the booklet that reach to it. A table is never \
                extended.",
        },
        Outside::Levers => Advice {
            what: "The displacement lies outside of kn.csv, so that the condition isn't judged at \
                all.",
            remedy: "Give kn.csv the records of the booklet that reach to it. A table is never \
                extended.",
        },
        Outside::Bonjean => Advice {
            what: "The draught at a station lies outside of bonjean.csv, so that the condition \
                isn't judged at all.",
            remedy: "Give bonjean.csv records that reach to it, from 0 on. A draught below 0 (an \
                end of the ship out of the water) lies outside of any table: trim her less.",
        },
        Outside::Closing => Advice {
            what: "The Bonjean table and the displacement don't agree within closing_max_kg, so \
                that shear forces and bending moments mean nothing, and the condition isn't judged \
                at all.",
            remedy: "Correct the areas, put stations closer together at the ends, or, where the \
                error is small, raise closing_max_kg in ship.toml.",
        },
        Outside::GmLimit => Advice {
            what: "The displacement lies outside of gm.csv, so that the condition isn't judged at \
                all.",
            remedy: "Give gm.csv the records of the booklet that reach to it.",
        },
    }
}

/// Of a ship that has no list, since her metacentric height isn't positive.
pub const NO_LIST: Advice = Advice {
    what: "GM isn't positive, so the ship doesn't stand upright: she lolls, and no list can be \
        told.",
    remedy: "As for C1. Don't try to bring her up with weights on the high side.",
};

/// Of a criterion that a condition within the ship's tables doesn't meet: C1 to C6 are the Code's,
/// the others the ship's.
pub fn advice_on(criterion: Criterion) -> Advice {
    match criterion {
        Criterion::C1 => Advice {
            what: "The metacentric height, corrected for free surfaces, is below 0.150 m (2008 IS \
                Code, part A, 2.2.4).",
            remedy: STIFFER,
        },
        Criterion::C2 => Advice {
            what: "The area under the righting levers from 0 to 30 degrees is below 0.055 m rad \
                (2008 IS Code, part A, 2.2.1).",
            remedy: LOWER,
        },
        Criterion::C3 => Advice {
            what: "The area under the righting levers from 0 to 40 degrees is below 0.090 m rad \
                (2008 IS Code, part A, 2.2.1).",
            remedy: LOWER,
        },
        Criterion::C4 => Advice {
            what: "The area under the righting levers from 30 to 40 degrees is below 0.030 m rad \
                (2008 IS Code, part A, 2.2.1).",
            remedy: LOWER,
        },
        Criterion::C5 => Advice {
            what: "The righting lever is below 0.200 m at each of 30, 35, .. 60 degrees (2008 IS \
                Code, part A, 2.2.2).",
            remedy: LOWER,
        },
        Criterion::C6 => Advice {
            what: "The righting lever is greatest at an angle below 25 degrees (2008 IS Code, part \
                A, 2.2.3).",
            remedy: "The centre of gravity is too high, or the ship too deep: levers fall early \
                where the deck edge goes under soon.",
        },
        _ => advice_by_ship(criterion),
    }
}

/// Of a limit of the ship's own.
fn advice_by_ship(criterion: Criterion) -> Advice {
    match criterion {
        Criterion::C7 => Advice {
            what: "The list is beyond the ship's limit.",
            remedy: "Work both sides in turn, or bring heeling water over before the lift.",
        },
        Criterion::C8 => Advice {
            what: "A draught at a perpendicular, or the trim, is beyond the ship's limit.",
            remedy: "Work towards the other end, or shift ballast along the ship.",
        },
        Criterion::C9 => Advice {
            what: "The shear force at a frame is beyond the ship's limit.",
            remedy: "Spread the lifts over the bays on both sides of the frame, or ballast where \
                the difference is.",
        },
        Criterion::C10 => Advice {
            what: "The bending moment at a frame is beyond the ship's limit.",
            remedy: "Hogging: load amidships or discharge at the ends first. Sagging: load at the \
                ends or discharge amidships first.",
        },
        _ => Advice {
            what: "The metacentric height, corrected for free surfaces, is below the least one of \
                gm.csv at this displacement.",
            remedy: STIFFER,
        },
    }
}
