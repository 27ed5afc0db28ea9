use crate::checks::{same, same_row};
use csv::ByteRecord;
use csv_text::{natural, next_record, number, open_records, text_at};
use std::alloc::{AllocError, Global};
use std::process::Abort;
use std::test::Fail;

/// The records of a text, read into one row: a bar behind each field, a slash behind each record.
fn records_of(alloc: Global, text: &[u8]) -> Result<String, AllocError> {
    let mut reader = open_records(alloc, text);
    let mut fields = ByteRecord::new(alloc);
    let mut shown = String::new(alloc);
    for _ in 0..text.len() {
        if !next_record(&mut reader, &mut fields)? {
            return Ok(shown);
        }
        for place in 0..fields.len() {
            for byte in text_at(&fields, place) {
                shown.push(char::from(*byte))?;
            }
            shown.push('|')?;
        }
        shown.push('/')?;
    }
    Ok(shown)
}

fn check(rt: &(impl Abort + AllocGlobal), rows: &[(&[u8], &str)]) -> Result<(), Fail> {
    for (text, want) in rows {
        let shown = records_of(rt.alloc(), text)?;
        same(rt, shown.as_str(), *want);
    }
    Ok(())
}

#[test]
fn each_record_after_another(rt: HostRuntime) -> Result<(), Fail> {
    check(
        &rt,
        &[
            (b"", ""),
            (b"kg,x\n1,2\n3,4\n", "kg|x|/1|2|/3|4|/"),
            (b"kg,x\n1,2", "kg|x|/1|2|/"),
            (b"a\nb,c,d\n,\n", "a|/b|c|d|/||/"),
            (b" a , b \n", " a | b |/"),
        ],
    )
}

/// What spreadsheets write: quotes, CR LF, a byte order mark, blank lines at the end.
#[test]
fn a_spreadsheets_habits(rt: HostRuntime) -> Result<(), Fail> {
    check(
        &rt,
        &[
            (b"a,b\r\nc,d\r\n", "a|b|/c|d|/"),
            (b"\xef\xbb\xbfa,b\n", "a|b|/"),
            (b"a,b\n\n\r\n\n", "a|b|/"),
            (b"\"a,b\",\"c\"\"d\"\n\"\",e\n", "a,b|c\"d|/|e|/"),
            (b"\"a\nb\",c\n", "a\nb|c|/"),
        ],
    )
}

/// Fields and their numbers: 18 digits are taken, 19 aren't; bytes 47 and 58 stand beside the
/// digits.
static NUMBERS: [(&[u8], Option<i64>); 23] = [
    (b"0", Some(0)),
    (b"-1", Some(-1)),
    (b"  25 ", Some(25)),
    (b" -007 ", Some(-7)),
    (b"-0", Some(0)),
    (b"1234567890", Some(1_234_567_890)),
    (b"999999999999999999", Some(999_999_999_999_999_999)),
    (b"-999999999999999999", Some(-999_999_999_999_999_999)),
    (b"000000000000000001", Some(1)),
    (b"0000000000000000001", None),
    (b"-0000000000000000001", None),
    (b"", None),
    (b"  ", None),
    (b"-", None),
    (b"- 1", None),
    (b"--1", None),
    (b"1-", None),
    (b"+1", None),
    (b"1.0", None),
    (b"1 2", None),
    (b"\t1", None),
    (b"1/", None),
    (b"1:", None),
];

#[test]
fn numbers_of_fields(rt: HostRuntime) {
    for (text, want) in &NUMBERS {
        same_row(&rt, text, number(text), *want);
    }
}

/// Digits alone, of which three may be there at most; bytes 47 and 58 stand beside the digits.
static NATURALS: [(&[u8], Option<u64>); 8] = [
    (b"0", Some(0)),
    (b"207", Some(207)),
    (b"031", Some(31)),
    (b"0031", None),
    (b"", None),
    (b" 31", None),
    (b"-3", None),
    (b"3/:", None),
];

#[test]
fn digits_alone(rt: HostRuntime) {
    for (text, want) in &NATURALS {
        same_row(&rt, text, natural(text, 3), *want);
    }
}
