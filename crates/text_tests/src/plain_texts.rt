//! Texts that people read, as they are printed.
use crate::checks::{holds, same};
use plain_text::{
    QUOTED, Runs, add_line, add_paragraph, add_quoted, add_wrapped, count_of, front, many, many_of,
    path, quote, quoted_line_is_seen, shown_line, shown_word,
};
use std::alloc::AllocError;

/// Names on one line: of a name of the report a blank is no more seen than a tab.
#[test]
fn names_on_one_line(rt: HostRuntime) -> Result<(), AllocError> {
    let alloc = rt.alloc();
    same(&rt, shown_word(alloc, b"A b\tc\xff")?.as_str(), "A?b?c?");
    same(&rt, shown_line(alloc, b"A b\tc\xff")?.as_str(), "A b?c?");
    same(&rt, front(alloc, "ABCDE", 3)?.as_str(), "ABC");
    same(
        &rt,
        path(alloc, "a/b/plan.edi", 12)?.as_str(),
        "a/b/plan.edi",
    );
    same(
        &rt,
        path(alloc, "a/b/plan.edi", 11)?.as_str(),
        "...plan.edi",
    );
    Ok(())
}

/// Counts, and numbers in runs, of which four are printed.
#[test]
fn counts_and_runs(rt: HostRuntime) -> Result<(), AllocError> {
    let alloc = rt.alloc();
    same(&rt, count_of(21), 21);
    same(&rt, many(alloc, 1, "lift")?.as_str(), "1 lift");
    same(&rt, many(alloc, 21, "lift")?.as_str(), "21 lifts");
    same(&rt, many_of(alloc, 1, "mass", "masses")?.as_str(), "1 mass");
    same(
        &rt,
        many_of(alloc, 0, "mass", "masses")?.as_str(),
        "0 masses",
    );
    let mut runs = Runs::new(alloc);
    runs.add(1, 1)?;
    runs.add(2, 4)?;
    runs.add(7, 7)?;
    same(&rt, runs.into_text()?.as_str(), "1 to 4, 7");
    let mut runs = Runs::new(alloc);
    for number in [0u32, 2, 4, 6, 8, 10] {
        runs.add(number, number)?;
    }
    same(&rt, runs.into_text()?.as_str(), "0, 2, 4, 6, ..");
    Ok(())
}

/// A line is cut at 80 columns, between its words.
#[test]
fn paragraphs(rt: HostRuntime) -> Result<(), AllocError> {
    let alloc = rt.alloc();
    let mut text = String::new(alloc);
    add_line(&mut text, "front  ")?;
    add_paragraph(alloc, &mut text, "WHAT", "one two")?;
    add_paragraph(alloc, &mut text, "MORE", "")?;
    same(&rt, text.as_str(), "front\nWHAT    one two\n");
    let mut text = String::new(alloc);
    let words = "1234567 1234567 1234567 1234567 1234567 1234567 1234567 1234567 1234567 1234567 9";
    add_wrapped(&mut text, words, 2)?;
    let lines =
        "1234567 1234567 1234567 1234567 1234567 1234567 1234567 1234567 1234567 1234567\n  9\n";
    same(&rt, text.as_str(), lines);
    Ok(())
}

/// Quoted input is seen whatever it holds, and takes 58 columns at most.
#[test]
fn quotes(rt: HostRuntime) -> Result<(), AllocError> {
    let alloc = rt.alloc();
    let line = quote(alloc, b"LOC+147\r\n\x7f+5", Some(b'\''))?;
    same(&rt, line.as_str(), "LOC+147...+5'");
    let full = b"1234567890123456789012345678901234567890123456789012345678";
    same(&rt, full.len(), QUOTED);
    same(&rt, quote(alloc, full, None)?.as_bytes(), full.as_slice());
    let cut = quote(alloc, full, Some(b'\''))?;
    same(&rt, cut.len(), QUOTED);
    holds(&rt, cut.as_bytes().ends_with(b"3456.."));
    let mut text = String::new(alloc);
    add_quoted(alloc, &mut text, b"a,b", None)?;
    same(&rt, text.as_str(), "            a,b\n");
    quoted_line_is_seen();
    Ok(())
}
