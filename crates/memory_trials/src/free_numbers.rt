//! Calls of numbers, cells and bodies, and of the texts of numbers, that ask for no memory.
use crate::watch::{refuse, was_refused};
use csv_text::{natural, number};
use decimal_text::{BackwardText, FourDigits, ROOM};
use std::alloc::{AllocError, Global};
use units_core::{
    Angle, Body, Cell, Frac, Frame, Frames, Kg, Mm, Place, Step, at_least, at_most, conflicts,
    cosine, enclosing, enclosing_near, floor, floor_near, gap, interp, interp_floor, is_rest, read,
    reciprocal_near, same_items, same_rows, sine, span, upper_half,
};

/// A mass of a container, one that is none, and lengths.
fn measures() -> bool {
    let mass = matches!(Kg::new(20_500), Some(kg) if kg.get() == 20_500);
    let length = matches!(Mm::new(-3_029), Some(mm) if mm.get() == -3_029);
    mass && length && Kg::new(1_000_000).is_none() && Mm::of(25_000).get() == 25_000
}

/// A container of 20,500 kg to starboard, with a free surface moment of 34 kg mm.
pub fn container() -> Option<Body> {
    let place = Place {
        x: Mm::new(50_000)?,
        y: Mm::new(8_000)?,
        z: Mm::new(10_000)?,
        half: Mm::new(3_029)?,
    };
    Body::new(20_500, place, 34)
}

/// The body, and a step that puts it in, with another weight.
fn bodies() -> bool {
    let (Some(body), Some(kg)) = (container(), Kg::new(7)) else {
        return false;
    };
    let step = Step {
        out: None,
        put: Some(body),
    };
    let weighed = matches!(step.with_weight(kg).put, Some(light) if light.kg() == 7);
    weighed && body.kg() == 20_500 && body.fsm() == 34 && body.place().x.get() == 50_000
}

/// A frame of a ship.
fn frame() -> Frame {
    Frame {
        x: Mm::of(50_000),
        shear_max: 1,
        hog_max: 1,
        sag_max: 1,
    }
}

/// The frames of a list of one.
fn frames(list: Vec<Frame>) -> bool {
    if list.is_empty() {
        return false;
    }
    if list.len() > 16 {
        return false;
    }
    Frames::new(list).as_slice().len() == 1
}

/// 35 degrees.
fn angles() -> bool {
    let Some(angle) = Angle::new(7) else {
        return false;
    };
    angle.degrees() == 35 && angle.step() == 7 && sine(angle) == 573_576 && cosine(angle) == 819_152
}

/// A place of 20 feet, and the one of 40 feet over it.
fn cells() -> bool {
    let (Some(short), Some(long)) = (Cell::read(b"0010082"), Cell::read(b"0020082")) else {
        return false;
    };
    conflicts(short, long) && span(long) == (1, 3)
}

/// A third of 13,000.
fn fractions() -> bool {
    let third = Frac {
        num: 13_000,
        den: 3,
    };
    let rounded = floor(third) == 4_333 && floor_near(third, 4_333) == 4_333;
    let least = at_least(Frac { num: 450, den: 3 }, 150);
    let most = at_most(Frac { num: 450, den: 3 }, 150);
    rounded && least && most
}

/// Arguments of a table, and a column at them.
static ARGUMENTS: [i128; 4] = [10, 20, 40, 80];

static COLUMN: [i128; 4] = [3, 5, 1, 7];

/// At 25, a quarter of the way from 20 to 40, the column is 5 - 4 / 4 = 4 = 80 / 20.
fn tables() -> bool {
    let mut near = 0usize;
    let first = enclosing(&ARGUMENTS, 25);
    let again = enclosing_near(&ARGUMENTS, 25, &mut near);
    let found = first == Some(1) && again == first && near == 1;
    let reading = read(&ARGUMENTS, &COLUMN, 1, 25) == 80 && gap(&ARGUMENTS, 1) == 20;
    let value = floor(interp(25, 20, 5, 40, 1)) == 4 && interp_floor(25, 20, 5, 40, 1) == 4;
    found && reading && value
}

/// Remainders, parts of quotients, and lists that are equal.
fn parts(words: &[Vec<u8>]) -> bool {
    let rests = is_rest(2, 3) && !is_rest(3, 3);
    let halves = upper_half(1 << 63, 4) == 2 && reciprocal_near(8) > 1 << 60;
    let items = same_items(ARGUMENTS.as_slice(), COLUMN.as_slice());
    rests && halves && !items && same_rows(words, words)
}

/// Numbers in print, from their end on, and those of a table's field.
fn digits_in_print(digits: &FourDigits) -> bool {
    let mut line = BackwardText::new(digits);
    line.put_in_digits(0, 2);
    line.put_byte(b' ');
    line.put_in_digits(7, 3);
    let mut bytes = [b'-'; 26];
    let start = digits.write(1_070_310, &mut bytes, 24);
    line.as_bytes() == b"007 00".as_slice()
        && start == 17
        && number(b" -12 ") == Some(-12)
        && natural(b"123", 9) == Some(123)
}

/// Numbers in a row.
fn rows_in_print(digits: &FourDigits) -> bool {
    let mut line = BackwardText::new(digits);
    line.put_byte(b'!');
    line.put_pairs(b' ', b';', b'/', &[-7, 82_000, 5], &[600, -1, 3], 1);
    line.put_each(b',', &[41, 0]);
    line.as_bytes() == b",41,0 -7/600;82000/-1!".as_slice()
}

/// A line with words, and the room that it takes, until it is emptied.
fn words_in_print(digits: &FourDigits) -> bool {
    let mut line = BackwardText::new(digits);
    line.put_byte(b'\n');
    line.put_words(" PASS");
    line.put_parted(b'/', -42);
    line.put_natural(7_031);
    let written = line.as_bytes() == b"7031/-42 PASS\n".as_slice();
    let left = line.room();
    line.clear();
    written && left == ROOM - 14 && line.room() == ROOM
}

/// Whether none of them asks for memory.
pub fn numbers_are_free(alloc: Global) -> Result<bool, AllocError> {
    let mut words = Vec::new(alloc);
    words.push(b"AB".as_slice().to_vec(alloc)?)?;
    let mut list = Vec::new(alloc);
    list.push(frame())?;
    let digits = FourDigits::new(alloc)?;
    refuse(alloc, 0, 1);
    let mut right = measures() && bodies() && frames(list) && angles() && cells();
    right &= fractions() && tables() && parts(&words);
    right &= digits_in_print(&digits) && rows_in_print(&digits) && words_in_print(&digits);
    let free = !was_refused(alloc);
    Ok(free && right)
}
