use crate::checks::{holds, holds_row, same, same_row};
use std::alloc::{AllocError, Global};
use units_core::{
    Angle, Body, Cell, Frac, Kg, Mm, Place, Step, at_least, at_most, conflicts, cosine, enclosing,
    enclosing_near, floor, floor_near, gap, interp, interp_floor, is_rest, read, reciprocal_near,
    same_items, same_rows, sine, span, upper_half,
};

/// Masses in kg, and whether each is one of a container.
static MASSES: [(u32, bool); 3] = [(0, true), (999_999, true), (1_000_000, false)];

#[test]
fn masses_within_their_limits(rt: HostRuntime) {
    for (kg, is_mass) in &MASSES {
        match Kg::new(*kg) {
            Some(mass) => same(&rt, (mass.get(), true), (*kg, *is_mass)),
            None => holds_row(&rt, kg, !*is_mass),
        }
    }
}

/// Lengths in mm, and whether each is within a kilometre.
static LENGTHS: [(i32, bool); 6] = [
    (-1_000_001, false),
    (-1_000_000, true),
    (0, true),
    (1_000_000, true),
    (1_000_001, false),
    (i32::MIN, false),
];

#[test]
fn lengths_within_their_limits(rt: HostRuntime) {
    for (mm, is_length) in &LENGTHS {
        match Mm::new(*mm) {
            Some(length) => same(&rt, (length.get(), true), (*mm, *is_length)),
            None => holds_row(&rt, mm, !*is_length),
        }
    }
    for mm in [-1_000_000, 0, 1_000_000] {
        same(&rt, i64::from(Mm::of(mm).get()), mm);
    }
}

#[test]
fn bodies_within_their_limits(rt: HostRuntime) {
    let Some(half) = Mm::new(3_029) else {
        holds(&rt, false);
        return;
    };
    let place = Place {
        x: half,
        y: half,
        z: half,
        half,
    };
    for (kg, fsm, is_body) in [
        (0, 0, true),
        (1_000_000_000, 1_000_000_000_000, true),
        (1_000_000_001, 0, false),
        (0, 1_000_000_000_001, false),
        (0, -1, false),
    ] {
        match Body::new(kg, place, fsm) {
            Some(body) => {
                holds_row(&rt, (kg, fsm), is_body);
                same(&rt, body.kg(), kg);
                same(&rt, body.fsm(), fsm);
                same(&rt, &body.place(), &place);
            }
            None => holds_row(&rt, (kg, fsm), !is_body),
        }
    }
}

#[test]
fn cells_of_six_and_seven_digits(rt: HostRuntime) {
    let cell = Cell {
        bay: 3,
        row: 7,
        tier: 82,
    };
    same(&rt, Cell::read(b"0030782"), Some(cell));
    same(&rt, Cell::read(b"030782"), Some(cell));
    // each digit in its place
    let unlike = Cell {
        bay: 123,
        row: 45,
        tier: 67,
    };
    same(&rt, Cell::read(b"1234567"), Some(unlike));
}

/// Texts of five and eight digits, and one with another byte in each place: those next to the
/// digits are `/` and `:`.
static NO_CELLS: [&[u8]; 20] = [
    b"",
    b"30782",
    b"00030782",
    b" 030782",
    b"030782 ",
    b"-030782",
    b"/030782",
    b":030782",
    b"A030782",
    b"0A30782",
    b"00A0782",
    b"003A782",
    b"0030A82",
    b"00307A2",
    b"003078A",
    b"A30782",
    b"03078A",
    b"003078/",
    b"003078:",
    b"003078\xb2",
];

#[test]
fn other_texts_name_no_cell(rt: HostRuntime) {
    for text in &NO_CELLS {
        same(&rt, Cell::read(text), None);
    }
}

// of both signs, whole and not
#[test]
fn figures_are_rounded_down(rt: HostRuntime) {
    for (num, den, down) in [
        (13_000, 3, 4_333),
        (-13_000, 3, -4_334),
        (12, 3, 4),
        (-12, 3, -4),
        (0, 5, 0),
    ] {
        same_row(&rt, (num, den), floor(Frac { num, den }), down);
    }
}

// longer than 63 bits, also with divisors longer than 103: 5 * 10^26 = 3 * 10^23 * 1,666 + 2 *
// 10^23, and 10^30 = 7 * 142,857,142,857,142,857,142,857,142,857 + 1
#[test]
fn long_fractions_are_rounded_down(rt: HostRuntime) {
    const FIVE: i128 = 500_000_000_000_000_000_000_000_000;
    let thirds = 300_000_000_000_000_000_000_000;
    let power = 1 << 100;
    let great = 1_000_000_000_000_000_000_000_000_000_000;
    let seventh = 142_857_142_857_142_857_142_857_142_857;
    for (num, den, down) in [
        (FIVE, thirds, 1_666),
        (-FIVE, thirds, -1_667),
        (9 * power, power, 9),
        (9 * power - 1, power, 8),
        (-9 * power, power, -9),
        (-9 * power - 1, power, -10),
        (3 * (power << 4) + 5, power << 4, 3),
        (-3 * (power << 4) - 5, power << 4, -4),
        (great, 7, seventh),
        (-great, 7, -seventh - 1),
    ] {
        same_row(&rt, (num, den), floor(Frac { num, den }), down);
    }
}

#[test]
fn limits_are_met_exactly(rt: HostRuntime) {
    holds(&rt, at_least(Frac { num: 450, den: 3 }, 150));
    holds(&rt, !at_least(Frac { num: 449, den: 3 }, 150));
    holds(&rt, at_least(Frac { num: -450, den: 3 }, -150));
    holds(&rt, !at_least(Frac { num: -451, den: 3 }, -150));
    holds(&rt, at_most(Frac { num: 450, den: 3 }, 150));
    holds(&rt, !at_most(Frac { num: 451, den: 3 }, 150));
}

#[test]
fn rows_are_joined_by_a_line(rt: HostRuntime) {
    let value = interp(8_200_000, 4_100_000, 17_667, 12_300_000, 8_556);
    same(&rt, value.den, 8_200_000);
    same(&rt, value.num, 17_667 * 4_100_000 + 8_556 * 4_100_000);
    same(&rt, floor(value), 13_111);
    same(
        &rt,
        interp_floor(8_200_000, 4_100_000, 17_667, 12_300_000, 8_556),
        13_111,
    );
    same(&rt, interp_floor(1, 0, 0, 3, -1), -1);
    // a quarter from (0, 10) to (4, 30) is 15, three quarters are 25
    same(&rt, interp_floor(1, 0, 10, 4, 30), 15);
    same(&rt, interp_floor(3, 0, 10, 4, 30), 25);
}

#[test]
fn arguments_lie_between_two_rows(rt: HostRuntime) {
    let arguments = [4_100_000, 8_200_000, 12_300_000];
    for (x, interval) in [
        (4_099_999, None),
        (4_100_000, Some(0)),
        (8_200_000, Some(0)),
        (8_200_001, Some(1)),
        (12_300_000, Some(1)),
        (12_300_001, None),
    ] {
        same_row(&rt, x, enclosing(&arguments, x), interval);
    }
}

/// A bay, and the first and the last 20-foot bay that it stands over.
static SPANS: [(u16, u16, u16); 5] = [
    (0, 0, 1),
    (1, 1, 1),
    (2, 1, 3),
    (3, 3, 3),
    (65_534, 65_533, 65_535),
];

#[test]
fn spans_of_bays(rt: HostRuntime) {
    for (bay, first, last) in &SPANS {
        let (bay, row, tier) = (*bay, 0, 82);
        same(&rt, span(Cell { bay, row, tier }), (*first, *last));
    }
}

/// The bay of a cell on the centre line in tier 82, then bay, row and tier of another, and whether
/// the two overlap. A 40-foot bay covers its two odd neighbours, and two 40-foot bays may share one
/// of these.
static ROOMS: [(u16, u16, u8, u8, bool); 14] = [
    (1, 2, 0, 82, true),
    (2, 1, 0, 82, true),
    (2, 3, 0, 82, true),
    (3, 2, 0, 82, true),
    (2, 4, 0, 82, true),
    (4, 2, 0, 82, true),
    (5, 5, 0, 82, true),
    (0, 2, 0, 82, true),
    (2, 6, 0, 82, false),
    (6, 2, 0, 82, false),
    (1, 3, 0, 82, false),
    (0, 3, 0, 82, false),
    // another row, another tier
    (5, 5, 2, 82, false),
    (5, 5, 0, 84, false),
];

#[test]
fn overlapping_spans(rt: HostRuntime) {
    for (first, bay, row, tier, want) in &ROOMS {
        let one = Cell {
            bay: *first,
            row: 0,
            tier: 82,
        };
        let other = Cell {
            bay: *bay,
            row: *row,
            tier: *tier,
        };
        same_row(&rt, (first, bay, row, tier), conflicts(one, other), *want);
    }
}

/// Steps of 5 degrees, with the sine and the cosine in millionths.
static ANGLES: [(u8, i128, i128); 13] = [
    (0, 0, 1_000_000),
    (1, 87_156, 996_195),
    (2, 173_648, 984_808),
    (3, 258_819, 965_926),
    (4, 342_020, 939_693),
    (5, 422_618, 906_308),
    (6, 500_000, 866_025),
    (7, 573_576, 819_152),
    (8, 642_788, 766_044),
    (9, 707_107, 707_107),
    (10, 766_044, 642_788),
    (11, 819_152, 573_576),
    (12, 866_025, 500_000),
];

#[test]
fn sines_and_cosines(rt: HostRuntime) {
    for (step, sine_of, cosine_of) in &ANGLES {
        match Angle::new(*step) {
            Some(angle) => {
                same(&rt, (sine(angle), cosine(angle)), (*sine_of, *cosine_of));
                same(
                    &rt,
                    (angle.step(), angle.degrees()),
                    (usize::from(*step), *step * 5),
                );
            }
            None => assert!(rt; false, "{step} steps"),
        }
    }
    holds(&rt, Angle::new(13).is_none());
}

/// Displacements of a table, and a column at them.
static ARGUMENTS: [i128; 4] = [10, 20, 40, 80];

static COLUMN: [i128; 4] = [3, 5, 1, 7];

// At 25, a quarter of the way from 20 to 40, the column is 5 - 4 / 4 = 4 = 80 / 20.
#[test]
fn readings_over_one_gap(rt: HostRuntime) {
    same(&rt, read(&ARGUMENTS, &COLUMN, 1, 25), 80);
    same(&rt, gap(&ARGUMENTS, 1), 20);
}

/// Numbers, and their intervals: a row that two share belongs to the one below it.
static ENCLOSED: [(i128, Option<usize>); 8] = [
    (9, None),
    (10, Some(0)),
    (20, Some(0)),
    (21, Some(1)),
    (40, Some(1)),
    (41, Some(2)),
    (80, Some(2)),
    (81, None),
];

// Wherever it begins, the search finds the same interval, and goes on from there.
#[test]
fn searches_from_anywhere(rt: HostRuntime) {
    for start in 0..5usize {
        for (x, found) in &ENCLOSED {
            let mut near = start;
            same_row(
                &rt,
                (x, start),
                enclosing_near(&ARGUMENTS, *x, &mut near),
                *found,
            );
            same_row(&rt, (x, start), near, found.unwrap_or(start));
        }
    }
}

/// Two lists of numbers, and whether they are equal.
static LISTS: [(&[i128], &[i128], bool); 6] = [
    (&[], &[], true),
    (&[-3, 5], &[-3, 5], true),
    (&[-3, 5], &[-3], false),
    (&[-3], &[-3, 5], false),
    (&[-3, 5], &[5, -3], false),
    (&[-3, 5], &[-3, 6], false),
];

#[test]
fn equal_lists(rt: HostRuntime) {
    for (a, b, want) in &LISTS {
        same_row(&rt, (a, b), same_items(a, b), *want);
    }
}

/// A list of the words of a text.
fn words(alloc: Global, texts: &[&[u8]]) -> Result<Vec<Vec<u8>>, AllocError> {
    let mut words = Vec::new(alloc);
    for text in texts {
        words.push(text.to_vec(alloc)?)?;
    }
    Ok(words)
}

/// Two lists of words, and whether they are equal.
static ROWS: [(&[&[u8]], &[&[u8]], bool); 5] = [
    (&[b"AB", b"C"], &[b"AB", b"C"], true),
    (&[b"AB", b"C"], &[b"A", b"BC"], false),
    (&[b"AB", b"C"], &[b"AB"], false),
    (&[b"AB", b"C"], &[b"C", b"AB"], false),
    (&[b""], &[], false),
];

#[test]
fn equal_lists_of_lists(rt: HostRuntime) -> Result<(), AllocError> {
    for (a, b, want) in &ROWS {
        let first = words(rt.alloc(), a)?;
        let second = words(rt.alloc(), b)?;
        same(&rt, same_rows(&first, &second), *want);
    }
    Ok(())
}

/// Cells that differ in one number each.
static CELLS: [Cell; 4] = [
    Cell {
        bay: 1,
        row: 2,
        tier: 84,
    },
    Cell {
        bay: 3,
        row: 2,
        tier: 84,
    },
    Cell {
        bay: 1,
        row: 4,
        tier: 84,
    },
    Cell {
        bay: 1,
        row: 2,
        tier: 86,
    },
];

/// A place that differs from another one in a single length.
fn place(x: i32, y: i32, z: i32, half: i32) -> Option<Place> {
    Some(Place {
        x: Mm::new(x)?,
        y: Mm::new(y)?,
        z: Mm::new(z)?,
        half: Mm::new(half)?,
    })
}

/// A body of 21 kg at a place, with a free surface moment of 34 kg mm but for what is changed.
fn body(kg: u32, x: i32, fsm: i64) -> Option<Body> {
    Body::new(kg, place(x, -5, 8, 13)?, fsm)
}

/// Bodies that differ in one number each.
static BODIES: [(u32, i32, i64); 4] = [(21, 3, 34), (22, 3, 34), (21, 4, 34), (21, 3, 35)];

/// Places that differ in one length each.
static PLACES: [(i32, i32, i32, i32); 5] = [
    (3, -5, 8, 13),
    (4, -5, 8, 13),
    (3, 5, 8, 13),
    (3, -5, 9, 13),
    (3, -5, 8, 14),
];

#[test]
fn cells_and_places_are_told_apart(rt: HostRuntime) {
    for (number, cell) in CELLS.iter().enumerate() {
        same_row(&rt, cell, same_items(&CELLS[..1], &[*cell]), number == 0);
    }
    for (x, y, z, half) in &PLACES {
        let (Some(first), Some(other)) = (place(3, -5, 8, 13), place(*x, *y, *z, *half)) else {
            holds(&rt, false);
            return;
        };
        let is_first = *x == 3 && *y == -5 && *z == 8 && *half == 13;
        same_row(&rt, other, same_items(&[first], &[other]), is_first);
        same(
            &rt,
            same_items(&[first.x, first.y], &[other.x, other.y]),
            *x == 3 && *y == -5,
        );
    }
}

#[test]
fn bodies_are_told_apart(rt: HostRuntime) {
    for (kg, x, fsm) in &BODIES {
        let (Some(first), Some(other)) = (body(21, 3, 34), body(*kg, *x, *fsm)) else {
            holds(&rt, false);
            return;
        };
        let is_first = *kg == 21 && *x == 3 && *fsm == 34;
        same_row(&rt, other, same_items(&[first], &[other]), is_first);
    }
}

// The mass alone changes, of what is taken out and of what is put in; where there is no body, there
// is none of another weight.
#[test]
fn steps_of_another_weight(rt: HostRuntime) {
    let Some(kg) = Kg::new(55) else {
        holds(&rt, false);
        return;
    };
    for (out, heavier) in [(None, None), (body(21, 3, 34), body(55, 3, 34))] {
        let step = Step {
            out,
            put: body(22, 4, 35),
        };
        let weighed = step.with_weight(kg);
        same(&rt, weighed.out, heavier);
        same(&rt, weighed.put, body(55, 4, 35));
    }
}

// 17 is 3 times 5, and 2 more: whatever is guessed, 17 / 5 is 3, and -17 / 5 is -4, rounded down.
#[test]
fn quotients_by_a_guess(rt: HostRuntime) {
    for guess in [3, 2, 4, -4, i64::MAX] {
        same_row(&rt, guess, floor_near(Frac { num: 17, den: 5 }, guess), 3);
        same_row(&rt, guess, floor_near(Frac { num: -17, den: 5 }, guess), -4);
    }
    for (rest, is) in [(-1, false), (0, true), (4, true), (5, false)] {
        same_row(&rt, rest, is_rest(rest, 5), is);
    }
    // 7 * 2^63 over 2^64 is 3.5
    same(&rt, upper_half(1 << 63, 7), 3);
}

// 2^64 over 4 is 2^62, and over 10^9 it is 18,446,744,073.7; the last bits are open.
#[test]
fn reciprocals_of_divisors(rt: HostRuntime) {
    same(&rt, reciprocal_near(4), 1 << 62);
    same(&rt, reciprocal_near(1_000_000_000), 18_446_744_073);
}
