//! Numbers at the places where their digits change in count, and whole lines, against what Rust
//! prints.
use crate::checks::same;
use decimal_text::{BackwardText, FourDigits, ROOM};
use std::alloc::{AllocError, Global};
use std::process::Abort;

/// What a text appends to an empty one.
fn append(alloc: Global, line: &BackwardText<'_>) -> Result<String, AllocError> {
    let mut text = String::new(alloc);
    line.append_to(&mut text)?;
    Ok(text)
}

/// A number as it is put, behind a blank.
fn number(alloc: Global, digits: &FourDigits, n: i128) -> Result<String, AllocError> {
    let mut line = BackwardText::new(digits);
    line.put_parted(b' ', n);
    append(alloc, &line)
}

/// Compares numbers with their texts.
fn compare(rt: &(impl Abort + AllocGlobal), rows: &[(i128, &str)]) {
    let Ok(digits) = FourDigits::new(rt.alloc()) else {
        panic!(rt; "no memory")
    };
    for row in rows {
        let (n, wanted) = *row;
        let Ok(text) = number(rt.alloc(), &digits, n) else {
            panic!(rt; "no memory")
        };
        same(rt, text.as_str().strip_prefix(" "), Some(wanted));
    }
}

static SHORT: [(i128, &str); 12] = [
    (0, "0"),
    (9, "9"),
    (10, "10"),
    (99, "99"),
    (100, "100"),
    (999, "999"),
    (1_000, "1000"),
    (9_999, "9999"),
    (10_000, "10000"),
    (1_000_203, "1000203"),
    (10_200_300_405, "10200300405"),
    (1_234_005_678_000, "1234005678000"),
];

static NEGATIVE: [(i128, &str); 6] = [
    (-1, "-1"),
    (-10, "-10"),
    (-987, "-987"),
    (-65_432, "-65432"),
    (-1_000_000_007, "-1000000007"),
    (-9_223_372_036_854_775_808, "-9223372036854775808"),
];

static WIDE: [(i128, &str); 6] = [
    (9_223_372_036_854_775_808, "9223372036854775808"),
    (18_446_744_073_709_551_615, "18446744073709551615"),
    (18_446_744_073_709_551_616, "18446744073709551616"),
    (-18_446_744_073_709_551_616, "-18446744073709551616"),
    (i128::MAX, "170141183460469231731687303715884105727"),
    (i128::MIN, "-170141183460469231731687303715884105728"),
];

#[test]
fn short_numbers(rt: HostRuntime) {
    compare(&rt, &SHORT);
}

#[test]
fn negative_numbers(rt: HostRuntime) {
    compare(&rt, &NEGATIVE);
}

#[test]
fn numbers_past_64_bits(rt: HostRuntime) {
    compare(&rt, &WIDE);
}

#[test]
fn numbers_in_digits(rt: HostRuntime) {
    let Ok(digits) = FourDigits::new(rt.alloc()) else {
        panic!(&rt; "no memory")
    };
    let mut line = BackwardText::new(&digits);
    line.put_in_digits(0, 2);
    line.put_byte(b' ');
    line.put_in_digits(7, 3);
    line.put_byte(b' ');
    line.put_in_digits(82, 2);
    line.put_byte(b' ');
    line.put_in_digits(123, 2);
    let Ok(text) = append(rt.alloc(), &line) else {
        panic!(&rt; "no memory")
    };
    same(&rt, text.as_str(), "123 82 007 00");
    same(&rt, line.as_bytes(), b"123 82 007 00".as_slice());
}

/// More zeros than are written at once.
#[test]
fn a_number_in_nine_digits(rt: HostRuntime) {
    let Ok(digits) = FourDigits::new(rt.alloc()) else {
        panic!(&rt; "no memory")
    };
    let mut line = BackwardText::new(&digits);
    line.put_in_digits(6_050, 9);
    let Ok(text) = append(rt.alloc(), &line) else {
        panic!(&rt; "no memory")
    };
    same(&rt, text.as_str(), "000006050");
}

/// The last pair isn't asked for.
#[test]
fn numbers_in_a_row(rt: HostRuntime) {
    let Ok(digits) = FourDigits::new(rt.alloc()) else {
        panic!(&rt; "no memory")
    };
    let mut line = BackwardText::new(&digits);
    line.put_byte(b'!');
    line.put_pairs(b' ', b';', b'/', &[-7, 82_000, 5], &[600, -1, 3], 1);
    line.put_each(b',', &[41, -30_000_000_000, 0, i128::MIN]);
    let Ok(text) = append(rt.alloc(), &line) else {
        panic!(&rt; "no memory")
    };
    same(
        &rt,
        text.as_str(),
        ",41,-30000000000,0,-170141183460469231731687303715884105728 -7/600;82000/-1!",
    );
}

#[test]
fn a_line_behind_another(rt: HostRuntime) {
    let Ok(digits) = FourDigits::new(rt.alloc()) else {
        panic!(&rt; "no memory")
    };
    let mut line = BackwardText::new(&digits);
    line.put_byte(b'\n');
    line.put_words(" PASS");
    line.put_parted(b'/', -42);
    line.put_natural(7_031);
    let mut text = String::new(rt.alloc());
    let Ok(()) = text.push_str("é ") else {
        panic!(&rt; "no memory")
    };
    let Ok(()) = line.append_to(&mut text) else {
        panic!(&rt; "no memory")
    };
    same(&rt, text.as_str(), "é 7031/-42 PASS\n");
    same(&rt, line.room(), ROOM - 14);
    line.clear();
    same(&rt, line.room(), ROOM);
    line.put_natural(5);
    let Ok(()) = line.append_to(&mut text) else {
        panic!(&rt; "no memory")
    };
    same(&rt, text.as_str(), "é 7031/-42 PASS\n5");
}

#[test]
fn digits_before_an_end(rt: HostRuntime) {
    let Ok(digits) = FourDigits::new(rt.alloc()) else {
        panic!(&rt; "no memory")
    };
    let mut bytes = [b'-'; 26];
    let start = digits.write(1_070_310, &mut bytes, 24);
    same(&rt, start, 17);
    same(&rt, &bytes[17..], b"1070310--".as_slice());
}
