ghost use Rattle.std.specs.Prelude.{◌≡◌, ◌≤◌, IfOk, length};
ghost use Rattle.run_files.specs.Files.Known.{Nothing, Holds};

use crate::checks::{holds, same, same_row};
use claim_run::Open;
use parallel_tests::Counts;
use program::serve;
use run_files::{LIMIT, Readers, Unopened};
use std::io;
use std::io::{ErrorKind, Read, Write};
use std::process::Abort;
use std::sync::Wait;
use std::thread::Threads;

const SHIP: &[u8] =
    b"lbp_mm = 100000\ndownflooding_deg = 60\ndraught_max_mm = 6100\ntrim_max_mm = 500\nlist_max = 500\nclosing_max_kg = 5000\nstations_mm = [0, 100000]\n[[frames]]\nx_mm = 0\nshear_max_kg = 1\nhog_max_kgmm = 1\nsag_max_kgmm = 1\n[[blocks]]\nkg = 8200000\nx_mm = 50000\ny_mm = 0\nz_mm = 6000\nhalf_mm = 50000\n";

const HEAVY: &[u8] =
    b"lbp_mm = 100000\ndownflooding_deg = 60\ndraught_max_mm = 6100\ntrim_max_mm = 500\nlist_max = 500\nclosing_max_kg = 5000\nstations_mm = [0, 100000]\n[[frames]]\nx_mm = 0\nshear_max_kg = 1\nhog_max_kgmm = 1\nsag_max_kgmm = 1\n[[blocks]]\nkg = 12300001\nx_mm = 50000\ny_mm = 0\nz_mm = 6000\nhalf_mm = 50000\n";

/// Two places of 20 feet, and the place of 40 feet over both.
const CELLS: &[u8] =
    b"cell,x,y,z,half\n0010082,53048,0,10000,3029\n0030082,46952,0,10000,3029\n0020082,50000,0,10000,6096\n";

const HYDRO: &[u8] =
    b"kg,draught,kmt,lcb,lcf,mct\n4100000,2000,17667,50000,50000,17000000\n8200000,4000,10333,50000,50000,17000000\n12300000,6000,8556,50000,50000,17000000\n";

const LEVERS: &[u8] =
    b"kg,0,5,10,15,20,25,30,35,40,45,50,55,60\n4100000,0,900,1790,2650,3470,4230,4900,5400,5750,5980,6110,6150,6110\n12300000,0,900,1790,2650,3470,4230,4900,5400,5750,5980,6110,6150,6110\n";

const BONJEAN: &[u8] = b"draught,0,100000\n0,0,0\n8000,1600000,1600000\n";

const TANKS: &[u8] = b"tank,kg,x,y,z,half,fsm\nDB1,0,50000,0,0,1000,0\nDB1,1000,50000,0,0,1000,0\n";

const LEAST_GM: &[u8] = b"kg,gm\n4100000,150\n12300000,150\n";

const PLAN: &[u8] = b"UNB+UNOA:2+SHIP+PLAN+250101:1200+7'UNH+1+BAPLIE:D:95B:UN'UNT+2+1'UNZ+1+7'";

const MOVES: &[u8] = b"UNB+UNOA:2+PLAN+SHIP+250101:1200+8'UNH+1+MOVINS:D:95B:UN'UNT+2+1'UNZ+1+8'";

const REPORT: &str =
    "STEP LIFT KG GM MEAN AFT FWD TRIM LIST A30 A40 A3040 GZ ANGLE CLOSE FRAMES VERDICT\n0 - 8200000 4333 4000 4000 4000 0 0 31509 50888 19379 1958 35 0 0/0 PASS\nALL PASS\n";

/// What a file of a test gives.
#[derive(Clone, Copy)]
enum Content {
    Bytes(&'static [u8]),
    /// Opens, and fails when it is read.
    Broken,
    /// Gives this many spaces, and fails then.
    Torn(usize),
    /// Gives this many spaces.
    Spaces(usize),
    /// Spaces without an end.
    Endless,
    /// Can't be opened.
    Closed(Unopened),
}

/// A file of a test, and how many bytes of it were read.
#[derive(Drop)]
struct Opened {
    content: Content,
    read: usize,
}

/// Fills the front of `buffer` with spaces, at most `most`, and says how many.
fn spaces(buffer: &mut [u8], most: usize) -> usize
    ensures { result ≤ length buffer.old }
{
    let count = buffer.len().min(most);
    for byte in buffer.iter_mut() {
        *byte = b' ';
    }
    count
}

/// Reads the bytes that are left, and says how many.
fn bytes_left(bytes: &[u8], read: usize, buffer: &mut [u8]) -> io::Result<usize>
    ensures { IfOk result (λ count. count ≤ length buffer.old) }
{
    match bytes.get(read..) {
        Some(mut rest) => rest.read(buffer),
        None => Ok(0),
    }
}

impl Opened {
    /// Fills the front of `buffer` as the content says.
    fn fill(&self, buffer: &mut [u8]) -> io::Result<usize>
        ensures { IfOk result (λ count. count ≤ length buffer.old) }
    {
        match self.content {
            Content::Bytes(bytes) => bytes_left(bytes, self.read, buffer),
            Content::Spaces(all) => Ok(spaces(buffer, all.saturating_sub(self.read))),
            Content::Endless => Ok(spaces(buffer, usize::MAX)),
            Content::Torn(all) if self.read < all => Ok(spaces(buffer, all - self.read)),
            Content::Broken | Content::Torn(_) | Content::Closed(_) => {
                Err(io::Error::from(ErrorKind::PermissionDenied))
            }
        }
    }
}

impl Read for Opened {
    fn read(&mut self, buffer: &mut [u8]) -> io::Result<usize> {
        let count = self.fill(buffer)?;
        self.read = self.read.saturating_add(count);
        Ok(count)
    }
}

/// The files of a test by their names.
#[derive(Drop)]
struct Memory<'a> {
    files: &'a [(&'a str, Content)],
}

impl<'a> Readers for Memory<'a> {
    type File = Opened;

    ghost known = { λ _ _. Nothing };

    fn file(&mut self, name: &str) -> Result<Opened, Unopened> {
        for (known, content) in self.files {
            if *known == name {
                return match *content {
                    Content::Closed(unopened) => Err(unopened),
                    content => Ok(Opened { content, read: 0 }),
                };
            }
        }
        Err(Unopened::Missing)
    }
}

/// A writer that takes no byte, and can't be flushed.
#[derive(Drop)]
struct Full;

impl Write for Full {
    fn write(&mut self, _: &[u8]) -> io::Result<usize> {
        Err(io::Error::from(ErrorKind::WriteZero))
    }

    fn flush(&mut self) -> io::Result<()> {
        Err(io::Error::from(ErrorKind::PermissionDenied))
    }
}

const WORDS: [&str; 4] = ["check", "box", "plan.edi", "moves.edi"];

/// The files of the test ship, which has two stations and three cells, with one of them replaced.
fn with<'a>(name: &'a str, content: Content) -> [(&'a str, Content); 10] {
    [
        (name, content),
        ("box/ship.toml", Content::Bytes(SHIP)),
        ("box/cells.csv", Content::Bytes(CELLS)),
        ("box/hydro.csv", Content::Bytes(HYDRO)),
        ("box/kn.csv", Content::Bytes(LEVERS)),
        ("box/bonjean.csv", Content::Bytes(BONJEAN)),
        ("box/tanks.csv", Content::Bytes(TANKS)),
        ("box/gm.csv", Content::Bytes(LEAST_GM)),
        ("plan.edi", Content::Bytes(PLAN)),
        ("moves.edi", Content::Bytes(MOVES)),
    ]
}

/// A run with these files and words ends so, and writes this to `out` and `err`.
fn check(
    rt: &(impl Abort + AllocGlobal + Threads + Wait + Sync),
    files: &[(&str, Content)],
    words: &[&str],
    status: u8,
    report: &str,
    line: &str,
) {
    let mut out = Vec::new(rt.alloc());
    let mut err = Vec::new(rt.alloc());
    let ended = serve(
        rt,
        rt.alloc(),
        &Open,
        &mut Memory { files: &*files },
        words,
        &mut out,
        &mut err,
    );
    same_row(rt, line, ended, status);
    same(rt, out.as_slice(), report.as_bytes());
    same(rt, err.as_slice(), line.as_bytes());
}

#[test]
fn statuses(rt: HostRuntime) {
    check(
        &rt,
        &with("box/ship.toml", Content::Bytes(SHIP)),
        &WORDS,
        0,
        REPORT,
        "",
    );
    check(
        &rt,
        &with("box/ship.toml", Content::Bytes(HEAVY)),
        &WORDS,
        1,
        "STEP LIFT KG GM MEAN AFT FWD TRIM LIST A30 A40 A3040 GZ ANGLE CLOSE FRAMES VERDICT\n0 - 12300001 OUTSIDE HYDRO\nFIRST FAIL 0 C0\n",
        "",
    );
}

// With the other command the same files give the last line of the report alone, and the same
// status.
#[test]
fn first(rt: HostRuntime) {
    let words = ["first", "box", "plan.edi", "moves.edi"];
    check(
        &rt,
        &with("box/ship.toml", Content::Bytes(SHIP)),
        &words,
        0,
        "ALL PASS\n",
        "",
    );
    check(
        &rt,
        &with("box/ship.toml", Content::Bytes(HEAVY)),
        &words,
        1,
        "FIRST FAIL 0 C0\n",
        "",
    );
}

// One refusal of each kind of input; what each prints is proved, and tested where it is made.
static REFUSALS: [(&str, &[u8], &str); 5] = [
    ("box/ship.toml", b"", "refused F1 P2 lbp_mm\n"),
    (
        "box/gm.csv",
        b"kg,gm\n4100000,150\n4100000,150\n",
        "refused F1 P7 gm.csv 3\n",
    ),
    ("plan.edi", SHIP, "refused F2 M1 E1 at 286\n"),
    (
        "plan.edi",
        b"UNB+UNOA:2+S+P+1:1+7'UNH+1+BAPLIE:D:95B:UN'LOC+147+0990082'MEA+WT++KGM:1'UNT+4+1'UNZ+1+7'",
        "refused F3 S1 item 1\n",
    ),
    ("moves.edi", PLAN, "refused F4 M1 E6 at 35\n"),
];

#[test]
fn refusals(rt: HostRuntime) {
    for (name, text, line) in &REFUSALS {
        check(&rt, &with(name, Content::Bytes(text)), &WORDS, 2, "", line);
    }
}

#[test]
fn words(rt: HostRuntime) {
    let files = with("box/ship.toml", Content::Bytes(SHIP));
    let usage = "usage: loadseq check|first|whatif\n";
    check(&rt, &files, &[], 3, "", usage);
    check(&rt, &files, &["report"], 3, "", usage);
    check(&rt, &files, &["--help"], 3, "", usage);
    let wrong: [&[&str]; 5] = [
        &["check"],
        &["whatif", "box", "plan.edi", "moves.edi"],
        &["check", "box", "plan.edi"],
        &["check", "box", "plan.edi", "moves.edi", "more"],
        &["check", "--help"],
    ];
    for words in wrong {
        let mut out = Vec::new(rt.alloc());
        let mut err = Vec::new(rt.alloc());
        let status = serve(
            &rt,
            rt.alloc(),
            &Open,
            &mut Memory { files: &files },
            words,
            &mut out,
            &mut err,
        );
        same(&rt, status, 3);
        holds(&rt, out.is_empty());
        holds(&rt, !err.is_empty());
    }
}

/// The files in the order of reading, each with the line of a run that can't read it.
static FILES: [(&str, &str); 9] = [
    ("box/ship.toml", "read fault box/ship.toml\n"),
    ("box/cells.csv", "read fault box/cells.csv\n"),
    ("box/hydro.csv", "read fault box/hydro.csv\n"),
    ("box/kn.csv", "read fault box/kn.csv\n"),
    ("box/bonjean.csv", "read fault box/bonjean.csv\n"),
    ("box/tanks.csv", "read fault box/tanks.csv\n"),
    ("box/gm.csv", "read fault box/gm.csv\n"),
    ("plan.edi", "read fault plan.edi\n"),
    ("moves.edi", "read fault moves.edi\n"),
];

/// Files that fail: when they are opened, at their first byte, behind some bytes, and behind more
/// than one read takes.
const FAILING: [Content; 4] = [
    Content::Closed(Unopened::Failed),
    Content::Broken,
    Content::Torn(7),
    Content::Torn(100_000),
];

// The files are read in their order before anything is checked; the first that isn't read ends the
// run.
#[test]
fn unread_files(rt: HostRuntime) {
    for (name, line) in &FILES {
        for content in FAILING {
            check(&rt, &with(name, content), &WORDS, 5, "", line);
        }
        check(
            &rt,
            &with(name, Content::Closed(Unopened::NoMemory)),
            &WORDS,
            4,
            "",
            "no memory\n",
        );
    }
    let bad_ship = [("box/ship.toml", Content::Bytes(b"="))];
    check(&rt, &bad_ship, &WORDS, 5, "", "read fault box/cells.csv\n");
}

// Only the table of least metacentric heights may be missing.
#[test]
fn missing_files(rt: HostRuntime) {
    for (name, line) in &FILES {
        let files = with(name, Content::Closed(Unopened::Missing));
        if *name == "box/gm.csv" {
            check(&rt, &files, &WORDS, 0, REPORT, "");
        } else {
            check(&rt, &files, &WORDS, 5, "", line);
        }
    }
}

/// The words of a run with a steps file.
const WITH_STEPS: [&str; 6] = [
    "check",
    "box",
    "plan.edi",
    "moves.edi",
    "--steps",
    "steps.csv",
];

// The steps file is read where it is named, behind all other files.
#[test]
fn steps_file(rt: HostRuntime) {
    let ship = Content::Bytes(SHIP);
    check(
        &rt,
        &with("box/ship.toml", ship),
        &WITH_STEPS,
        5,
        "",
        "read fault steps.csv\n",
    );
    for content in FAILING {
        let files = with("steps.csv", content);
        check(&rt, &files, &WITH_STEPS, 5, "", "read fault steps.csv\n");
    }
    let steps = Content::Bytes(b"kind,a,b,c\nlift,1,,\n");
    check(
        &rt,
        &with("steps.csv", steps),
        &WITH_STEPS,
        2,
        "",
        "refused F9 G4 line 2\n",
    );
    check(
        &rt,
        &with("steps.csv", Content::Bytes(b"")),
        &WITH_STEPS,
        0,
        REPORT,
        "",
    );
}

/// The words of a run with a file of edits.
const WITH_EDITS: [&str; 5] = ["whatif", "box", "plan.edi", "moves.edi", "edits.txt"];

// A file of edits that can't be read is reported as every other file is.
#[test]
fn unread_edits(rt: HostRuntime) {
    for content in FAILING {
        let files = with("edits.txt", content);
        check(&rt, &files, &WITH_EDITS, 5, "", "read fault edits.txt\n");
    }
}

/// A tank is filled and emptied again, and no other edit can be made: there is no step, a filling
/// has no weight, and the cell is empty.
const EDITS: &[u8] =
    b"insert 1 T DB1 500\nreweigh 1 7\nundo\nundo\nremove 1\ninsert 1 D 0010082 -\n";

/// What is written of that.
const TRIED: &str =
    "EDIT 1 OK\nEDIT 2 X2\nEDIT 3 OK\nEDIT 4 NONE\nEDIT 5 X1\nEDIT 6 X3\nSTEP LIFT KG GM MEAN AFT FWD TRIM LIST A30 A40 A3040 GZ ANGLE CLOSE FRAMES VERDICT\n0 - 8200000 4333 4000 4000 4000 0 0 31509 50888 19379 1958 35 0 0/0 PASS\nALL PASS\n";

#[test]
fn edits_tried(rt: HostRuntime) {
    check(
        &rt,
        &with("edits.txt", Content::Bytes(EDITS)),
        &WITH_EDITS,
        0,
        TRIED,
        "",
    );
    check(
        &rt,
        &with("edits.txt", Content::Bytes(b"")),
        &WITH_EDITS,
        0,
        REPORT,
        "",
    );
}

// All files are read first, then the inputs are checked, then the lines of the edits, and only then
// the first edit is made.
#[test]
fn edits_refused(rt: HostRuntime) {
    let unread = with("box/ship.toml", Content::Bytes(b""));
    check(&rt, &unread, &WITH_EDITS, 5, "", "read fault edits.txt\n");
    let mut files = with("edits.txt", Content::Bytes(b"undo\nswap 1"));
    check(&rt, &files, &WITH_EDITS, 2, "", "refused edits line 2\n");
    files[1] = ("box/ship.toml", Content::Bytes(b""));
    check(&rt, &files, &WITH_EDITS, 2, "", "refused F1 P2 lbp_mm\n");
}

#[test]
fn longest_file(rt: HostRuntime) {
    check(
        &rt,
        &with("plan.edi", Content::Spaces(LIMIT)),
        &WORDS,
        2,
        "",
        "refused F2 M1 E1 at 67108864\n",
    );
    for content in [Content::Spaces(LIMIT + 1), Content::Endless] {
        check(
            &rt,
            &with("plan.edi", content),
            &WORDS,
            5,
            "",
            "read fault plan.edi\n",
        );
    }
}

#[test]
fn failing_outputs(rt: HostRuntime) {
    let files = with("box/ship.toml", Content::Bytes(SHIP));
    let mut err = Vec::new(rt.alloc());
    let status = serve(
        &rt,
        rt.alloc(),
        &Open,
        &mut Memory { files: &files },
        &WORDS,
        &mut Full,
        &mut err,
    );
    same(&rt, status, 5);
    same(&rt, err.as_slice(), b"write fault\n".as_slice());
    let mut out = Vec::new(rt.alloc());
    let status = serve(
        &rt,
        rt.alloc(),
        &Open,
        &mut Memory { files: &[] },
        &WORDS,
        &mut out,
        &mut Full,
    );
    same(&rt, status, 5);
    holds(&rt, out.is_empty());
}

/// A writer that takes `left` bytes, `most` of them a call, and then fails. It always fails where
/// it is flushed: the program writes all without, and leaves it to whoever owns the writer.
#[derive(Drop)]
struct Failing {
    taken: Vec<u8>,
    left: usize,
    most: usize,
}

impl Write for Failing {
    fn write(&mut self, bytes: &[u8]) -> io::Result<usize> {
        let taken = bytes.len().min(self.left).min(self.most);
        if taken == 0 {
            return Err(io::Error::from(ErrorKind::WriteZero));
        }
        self.taken.extend_from_slice(&bytes[..taken])?;
        self.left -= taken;
        Ok(taken)
    }

    fn flush(&mut self) -> io::Result<()> {
        Err(io::Error::from(ErrorKind::PermissionDenied))
    }
}

/// A run whose output takes a limited number of bytes, in all and per call, writes the front of
/// this text, and says that it failed where that isn't all of it.
fn check_front(
    rt: &(impl Abort + AllocGlobal + Threads + Wait + Sync),
    words: &[&str],
    text: &[u8],
    left: usize,
    most: usize,
) {
    let files = with("edits.txt", Content::Bytes(EDITS));
    let taken = Vec::new(rt.alloc());
    let mut out = Failing { taken, left, most };
    let mut err = Vec::new(rt.alloc());
    let status = serve(
        rt,
        rt.alloc(),
        &Open,
        &mut Memory { files: &files },
        words,
        &mut out,
        &mut err,
    );
    let whole = text.len() <= left;
    same(rt, status, if whole { 0 } else { 5 });
    same(rt, out.taken.as_slice(), &text[..left.min(text.len())]);
    same(rt, err.is_empty(), whole);
}

/// What each command writes here.
static WRITTEN: [(&[&str], &str); 3] = [
    (&WORDS, REPORT),
    (&["first", "box", "plan.edi", "moves.edi"], "ALL PASS\n"),
    (&WITH_EDITS, TRIED),
];

// An output that fails behind any number of bytes, whether it takes one a call or all that it is
// given: what it took is the front of the text, and all of it where it takes so many, though it
// can't be flushed.
#[test]
fn outputs_that_fail_later(rt: HostRuntime) {
    for (words, text) in &WRITTEN {
        for left in 0..text.len() + 1 {
            for most in [1, 1000] {
                check_front(&rt, words, text.as_bytes(), left, most);
            }
        }
    }
}

/// How often a run on these words, which writes this text, calls the gate.
fn check_passes(
    rt: &(impl Abort + AllocGlobal + Threads + Wait + Sync),
    words: &[&str],
    text: &str,
    passes: u64,
) {
    let files = with("edits.txt", Content::Bytes(EDITS));
    let gate = Counts::new();
    let mut out = Vec::new(rt.alloc());
    let mut err = Vec::new(rt.alloc());
    let status = serve(
        rt,
        rt.alloc(),
        &gate,
        &mut Memory { files: &files },
        words,
        &mut out,
        &mut err,
    );
    same_row(rt, text, status, 0);
    same(rt, out.as_slice(), text.as_bytes());
    same_row(rt, text, gate.calls(), passes);
}

// Here there is one line, and so one chunk. A report has two runs, one for the sums and one for the
// lines, and so has the search for the first step that fails; a session has the sums. In each run
// the gate is called for the chunk.
#[test]
fn calls_of_the_gate(rt: HostRuntime) {
    let [(check, report), (first, last), (whatif, tried)] = &WRITTEN;
    check_passes(&rt, check, report, 2);
    check_passes(&rt, first, last, 2);
    check_passes(&rt, whatif, tried, 1);
}

/// Files that all hold one text, which contracts see.
#[derive(Drop)]
struct Alike {
    text: &'static [u8],
}

impl Readers for Alike {
    type File = &'static [u8];

    ghost known = { λ files _. Holds files.text.now };

    fn file(&mut self, _: &str) -> Result<&'static [u8], Unopened> {
        Ok(self.text)
    }
}

// The text of every file is read as the file's reader gives it.
#[test]
fn files_alike(rt: HostRuntime) {
    let mut out = Vec::new(rt.alloc());
    let mut err = Vec::new(rt.alloc());
    let mut files = Alike { text: SHIP };
    let status = serve(
        &rt,
        rt.alloc(),
        &Open,
        &mut files,
        &WORDS,
        &mut out,
        &mut err,
    );
    same(&rt, status, 2);
    same(
        &rt,
        err.as_slice(),
        b"refused F1 P4 cells.csv 1\n".as_slice(),
    );
}
