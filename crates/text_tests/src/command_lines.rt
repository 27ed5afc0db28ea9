use crate::checks::{holds, same};
use command_line::{Line, LineFault, Task, read_line, text_of};
use std::process::Abort;
use std::test::Fail;

/// What the line of these three words is, where no option is given.
const PLAIN: Line<'static> = Line {
    task: Task::Check,
    folder: "box",
    baplie: "plan",
    movins: "moves",
    edits: None,
    steps: None,
    workers: 4,
    chunk: 256,
};

/// The words are this line.
fn reads(rt: &(impl Abort + AllocGlobal), words: &[&str], wanted: Line<'static>) {
    match read_line(rt.alloc(), words) {
        Ok(line) => same(rt, line, wanted),
        Err(fault) => panic!(rt; "{fault}"),
    }
}

#[test]
fn no_steps(rt: HostRuntime) {
    reads(&rt, &["check", "box", "plan", "moves"], PLAIN);
}

/// The option in each place, and with its word behind `=`.
static STEPS: [&[&str]; 4] = [
    &["check", "--steps", "s.csv", "box", "plan", "moves"],
    &["check", "box", "--steps", "s.csv", "plan", "moves"],
    &["check", "box", "plan", "moves", "--steps", "s.csv"],
    &["check", "box", "plan", "--steps=s.csv", "moves"],
];

#[test]
fn steps_given(rt: HostRuntime) {
    for words in &STEPS {
        reads(
            &rt,
            words,
            Line {
                steps: Some("s.csv"),
                ..PLAIN
            },
        );
    }
}

/// The least number of lines, the greatest, and one between, behind a sign and a nought.
static CHUNKS: [(&[&str], u32); 3] = [
    (&["check", "box", "plan", "moves", "--chunk", "1"], 1),
    (
        &["check", "--chunk=200000", "box", "plan", "moves"],
        200_000,
    ),
    (&["check", "box", "--chunk", "+0307", "plan", "moves"], 307),
];

#[test]
fn chunk_given(rt: HostRuntime) {
    for (words, chunk) in &CHUNKS {
        reads(
            &rt,
            words,
            Line {
                chunk: *chunk,
                ..PLAIN
            },
        );
    }
}

/// One thread, sixteen, and a number between, in each place, with the other command and with the
/// other option.
static WORKERS: [(&[&str], Line<'static>); 3] = [
    (
        &["check", "--workers", "1", "box", "plan", "moves"],
        Line {
            workers: 1,
            ..PLAIN
        },
    ),
    (
        &["first", "box", "plan", "moves", "--workers=16"],
        Line {
            task: Task::First,
            workers: 16,
            ..PLAIN
        },
    ),
    (
        &[
            "first",
            "box",
            "plan",
            "--chunk",
            "7",
            "--workers",
            "3",
            "moves",
        ],
        Line {
            task: Task::First,
            workers: 3,
            chunk: 7,
            ..PLAIN
        },
    ),
];

#[test]
fn workers_given(rt: HostRuntime) {
    for (words, line) in &WORKERS {
        reads(&rt, words, *line);
    }
}

/// An option twice, without its word, in place of a word that has to be there, one that there
/// isn't, and numbers outside its limits.
static WRONG: [&[&str]; 17] = [
    &[
        "check", "box", "plan", "moves", "--steps", "s.csv", "--steps", "t.csv",
    ],
    &["check", "box", "plan", "moves", "--steps"],
    &["check", "--steps", "box", "plan", "moves"],
    &["check", "box", "plan", "--steps", "moves"],
    &["check", "box", "plan", "moves", "--step", "s.csv"],
    &["check", "box", "plan", "moves", "--chunk", "0"],
    &["check", "box", "plan", "moves", "--chunk", "200001"],
    &["check", "box", "plan", "moves", "--chunk", "-1"],
    &["check", "box", "plan", "moves", "--chunk", "many"],
    &["check", "box", "plan", "moves", "--workers", "0"],
    &["check", "box", "plan", "moves", "--workers", "17"],
    &["first", "box", "plan", "moves", "--workers"],
    &["first", "box", "plan"],
    &["last", "box", "plan", "moves"],
    &["first", "box", "plan", "moves", "edits"],
    &["whatif", "box", "plan", "moves"],
    &["whatif", "box", "plan", "moves", "edits", "more"],
];

#[test]
fn wrong_options(rt: HostRuntime) {
    for words in &WRONG {
        holds(
            &rt,
            matches!(read_line(rt.alloc(), words), Err(LineFault::Usage(_))),
        );
    }
}

// A word that isn't UTF-8 is kept as one word that names no file.
#[test]
fn word_not_utf8(rt: HostRuntime) -> Result<(), Fail> {
    let whole = text_of(rt.alloc(), "pläne".as_bytes())?;
    same(&rt, whole.as_str(), "pläne");
    let masked = text_of(rt.alloc(), b"pl\xe4ne")?;
    same(&rt, masked.as_str(), "pl\0ne");
    Ok(())
}
