//! The words of a command line of the planner's view.
use clap::error::ErrorKind;
use clap::{Arg, ArgAction, ArgMatches, Command as Words, value_parser};
use command_line::LineFault;
use std::alloc::{AllocError, Global};
use view_inputs::Names;
use view_table::Form;

/// What a run is asked to print.
#[derive(Clone, Copy, Debug, PartialEq, Eq)]
pub enum View {
    /// One screen to accept a plan by.
    Summary,
    /// The first condition that fails, in words.
    Explain,
    /// One file of HTML, for the papers of the port call.
    Page,
    /// Every figure of every condition, for other programs.
    Table,
}

/// What the words of a command line ask for.
#[derive(Clone, Copy, Debug, PartialEq, Eq)]
pub enum Command<'a> {
    /// A text on a port call.
    Call(ViewLine<'a>),
    /// The ship's profile in a folder, read back.
    Profile { folder: &'a str },
    /// A session on a port call.
    Session(SessionLine<'a>),
}

/// The words of a command line that asks for a session.
#[derive(Clone, Copy, Debug, PartialEq, Eq)]
pub struct SessionLine<'a> {
    /// The port call.
    pub call: ViewLine<'a>,
    /// Each line is asked for.
    pub is_prompted: bool,
    /// The folder to which orders are published, if one is given.
    pub desk: Option<&'a str>,
}

/// The words of a command line on a port call, as they were given.
#[derive(Clone, Copy, Debug, PartialEq, Eq)]
pub struct ViewLine<'a> {
    /// What is printed, by the first word.
    pub view: View,
    /// The folder of the ship's profile.
    pub folder: &'a str,
    /// The file of the bay plan on arrival.
    pub baplie: &'a str,
    /// The file of the movement instruction.
    pub movins: &'a str,
    /// The planner's steps file, if one is given.
    pub steps: Option<&'a str>,
    /// The condition whose sheet alone is printed, for [`View::Explain`].
    pub condition: Option<u32>,
    /// The form of a table, for [`View::Table`].
    pub form: Form,
    /// How many threads work at it: 1 to 16, and 4 where it isn't given.
    pub workers: u32,
    /// How many conditions are judged at a time: 1 to 200,000, and 256 where it isn't given.
    pub chunk: u32,
}

/// The paths of a line's files.
pub fn names_of<'a>(line: ViewLine<'a>) -> Names<'a> {
    Names {
        folder: line.folder,
        baplie: line.baplie,
        movins: line.movins,
        steps: line.steps,
    }
}

/// The usage text where the first word is no command.
const USAGE: &str = "usage: loadseq summary|explain|page|table|session|profile";

/// What help says of the commands, of each of their words, and of their options.
const ABOUT_SUMMARY: &str =
    "Writes on one screen whether all steps pass, and the worst value of every limit with its margin";

const ABOUT_EXPLAIN: &str =
    "Says of the first step that fails what fails, by how much and what to do, with all its figures";

const ABOUT_PAGE: &str =
    "Writes one file of HTML with the verdict, the worst value of every limit and charts of all steps";

const ABOUT_TABLE: &str =
    "Writes every figure of every condition for other programs, as CSV or as lines of JSON";

const ABOUT_PROFILE: &str =
    "Writes the ship's profile back in tonnes, metres and degrees, with a warning for whatever looks wrong";

const ABOUT_SESSION: &str =
    "Tries edits of the order one by one from standard input, and says after each what it changes";

const ABOUT_PROMPT: &str = "Asks for each line";

const ABOUT_DESK: &str =
    "A folder that colleagues share: orders are published to it, and opened from it";

const ABOUT_FOLDER: &str = "The folder of the ship's profile: ship.toml and her tables";

const ABOUT_BAPLIE: &str = "The bay plan on arrival (BAPLIE, directory D.95B)";

const ABOUT_MOVINS: &str = "The movement instruction (MOVINS, directory D.95B)";

const ABOUT_STEPS: &str =
    "The order of the steps: lifts, fillings of tanks and restows (CSV); without it the order of the movement instruction";

const ABOUT_CONDITION: &str = "The condition whose sheet alone is written, 0 for that on arrival";

const ABOUT_FORMAT: &str =
    "The form of the table: csv, or jsonl, an object of JSON in each line [default: csv]";

const ABOUT_WORKERS: &str =
    "How many threads work, 1 to 16 [default: 4]; the text is the same for each";

const ABOUT_CHUNK: &str =
    "How many conditions are judged at a time, 1 to 200000 [default: 256]; the text is the same for each";

/// The greatest number of a condition that can be asked for.
const LAST_CONDITION: i64 = 200_000;

/// How many threads work where the words don't say.
const DEFAULT_WORKERS: u32 = 4;

/// How many conditions are judged at a time where the words don't say.
const DEFAULT_CHUNK: u32 = 256;

/// A word that has to be there, with its meaning.
fn word<'a>(alloc: Global, name: &'a str, meaning: &'a str) -> Arg<'a> {
    Arg::new(alloc, name)
        .required(true)
        .action(ArgAction::Set)
        .help(meaning)
}

/// The option that names the steps file.
fn steps<'a>(alloc: Global) -> Arg<'a> {
    Arg::new(alloc, "steps")
        .long("steps")
        .value_name("FILE")
        .action(ArgAction::Set)
        .help(ABOUT_STEPS)
}

/// An option that takes a word.
fn number<'a>(alloc: Global, name: &'a str, value: &'a str, about: &'a str) -> Arg<'a> {
    Arg::new(alloc, name)
        .long(name)
        .value_name(value)
        .action(ArgAction::Set)
        .help(about)
}

/// The command that asks for this, with the words that it has to be given.
fn with_words<'a>(alloc: Global, view: View) -> Result<Words<'a>, AllocError> {
    let (name, about) = match view {
        View::Summary => ("loadseq summary", ABOUT_SUMMARY),
        View::Explain => ("loadseq explain", ABOUT_EXPLAIN),
        View::Page => ("loadseq page", ABOUT_PAGE),
        View::Table => ("loadseq table", ABOUT_TABLE),
    };
    Words::new(alloc, name)
        .about(about)
        .no_binary_name(true)
        .arg(word(alloc, "FOLDER", ABOUT_FOLDER))?
        .arg(word(alloc, "BAPLIE", ABOUT_BAPLIE))?
        .arg(word(alloc, "MOVINS", ABOUT_MOVINS))?
        .arg(steps(alloc))
}

/// The command with what it alone takes.
fn with_own<'a>(alloc: Global, view: View) -> Result<Words<'a>, AllocError> {
    let command = with_words(alloc, view)?;
    match view {
        View::Summary | View::Page => Ok(command),
        View::Table => command.arg(number(alloc, "format", "FORM", ABOUT_FORMAT)),
        View::Explain => command.arg(number(alloc, "step", "K", ABOUT_CONDITION).value_parser(
            value_parser!(u32).range(0..=LAST_CONDITION),
        )),
    }
}

/// A command with the options of every one that judges.
fn with_numbers<'a>(alloc: Global, command: Words<'a>) -> Result<Words<'a>, AllocError> {
    command
        .arg(number(alloc, "workers", "N", ABOUT_WORKERS).value_parser(value_parser!(u32).range(
            1..=16,
        )))?
        .arg(number(alloc, "chunk", "N", ABOUT_CHUNK).value_parser(value_parser!(u32).range(
            1..=200_000,
        )))
}

/// The command with all its words and options.
fn command_for<'a>(alloc: Global, view: View) -> Result<Words<'a>, AllocError> {
    let command = with_own(alloc, view)?;
    with_numbers(alloc, command)
}

/// What `clap` makes of the words behind the command's name.
fn matches_for<'a>(
    alloc: Global,
    view: View,
    words: &'a [&'a str],
) -> Result<ArgMatches<'a>, clap::Error> {
    let command = command_for(alloc, view)?;
    command.try_get_matches_from(words)
}

/// A usage error with this text.
fn usage(alloc: Global, text: &str) -> LineFault {
    match String::from_str(alloc, text) {
        Ok(text) => LineFault::Usage(text),
        Err(_) => LineFault::NoMemory,
    }
}

/// The usage error that `clap` gives.
fn usage_fault(alloc: Global, error: &clap::Error) -> LineFault {
    if error.kind() == ErrorKind::OutOfMemory {
        return LineFault::NoMemory;
    }
    match format!(in alloc; "{error}") {
        Ok(text) => LineFault::Usage(text),
        Err(_) => LineFault::NoMemory,
    }
}

/// The form of this name.
fn form_named(name: &str) -> Option<Form> {
    match name {
        "csv" => Some(Form::Csv),
        "jsonl" => Some(Form::Jsonl),
        _ => None,
    }
}

/// The line of what `clap` found; `None` where there is no form of the name that is given.
fn line_of<'a>(view: View, matches: &ArgMatches<'a>) -> Option<ViewLine<'a>> {
    let folder = matches.get_str("FOLDER")?;
    let baplie = matches.get_str("BAPLIE")?;
    let movins = matches.get_str("MOVINS")?;
    let condition = match view {
        View::Summary | View::Page | View::Table => None,
        View::Explain => matches.get_one::<u32>("step"),
    };
    let form = match view {
        View::Summary | View::Explain | View::Page => Form::Csv,
        View::Table => form_named(matches.get_str("format").unwrap_or("csv"))?,
    };
    Some(ViewLine {
        view,
        folder,
        baplie,
        movins,
        steps: matches.get_str("steps"),
        condition,
        form,
        workers: matches.get_one::<u32>("workers").unwrap_or(DEFAULT_WORKERS),
        chunk: matches.get_one::<u32>("chunk").unwrap_or(DEFAULT_CHUNK),
    })
}

/// The line of the words behind the command's name.
fn line_for<'a>(
    alloc: Global,
    view: View,
    words: &'a [&'a str],
) -> Result<ViewLine<'a>, LineFault> {
    match matches_for(alloc, view, words) {
        Ok(matches) => match line_of(view, &matches) {
            Some(line) => Ok(line),
            None => Err(usage(alloc, "error: a table has the form csv or jsonl")),
        },
        Err(error) => Err(usage_fault(alloc, &error)),
    }
}

/// The command that asks for a profile.
fn profile_words<'a>(alloc: Global) -> Result<Words<'a>, AllocError> {
    Words::new(alloc, "loadseq profile")
        .about(ABOUT_PROFILE)
        .no_binary_name(true)
        .arg(word(alloc, "FOLDER", ABOUT_FOLDER))
}

/// What `clap` makes of the words behind it.
fn profile_matches<'a>(alloc: Global, words: &'a [&'a str]) -> Result<ArgMatches<'a>, clap::Error> {
    let command = profile_words(alloc)?;
    command.try_get_matches_from(words)
}

/// The folder of a profile that the words name.
fn profile_for<'a>(alloc: Global, words: &'a [&'a str]) -> Result<Command<'a>, LineFault> {
    match profile_matches(alloc, words) {
        Ok(matches) => match matches.get_str("FOLDER") {
            Some(folder) => Ok(Command::Profile { folder }),
            None => Err(usage(alloc, USAGE)),
        },
        Err(error) => Err(usage_fault(alloc, &error)),
    }
}

/// The command that asks for a session.
fn session_words<'a>(alloc: Global) -> Result<Words<'a>, AllocError> {
    Words::new(alloc, "loadseq session")
        .about(ABOUT_SESSION)
        .no_binary_name(true)
        .arg(word(alloc, "FOLDER", ABOUT_FOLDER))?
        .arg(word(alloc, "BAPLIE", ABOUT_BAPLIE))?
        .arg(word(alloc, "MOVINS", ABOUT_MOVINS))?
        .arg(steps(alloc))
}

/// The same with its options.
fn session_command<'a>(alloc: Global) -> Result<Words<'a>, AllocError> {
    let prompt = Arg::new(alloc, "prompt")
        .long("prompt")
        .action(ArgAction::SetTrue)
        .help(ABOUT_PROMPT);
    let command = session_words(alloc)?
        .arg(prompt)?
        .arg(number(alloc, "desk", "FOLDER", ABOUT_DESK))?;
    with_numbers(alloc, command)
}

/// What `clap` makes of the words behind it.
fn session_matches<'a>(alloc: Global, words: &'a [&'a str]) -> Result<ArgMatches<'a>, clap::Error> {
    let command = session_command(alloc)?;
    command.try_get_matches_from(words)
}

/// The session that the words ask for.
fn session_for<'a>(alloc: Global, words: &'a [&'a str]) -> Result<Command<'a>, LineFault> {
    match session_matches(alloc, words) {
        Ok(matches) => match line_of(View::Summary, &matches) {
            Some(call) => Ok(Command::Session(SessionLine {
                call,
                is_prompted: matches.get_flag("prompt"),
                desk: matches.get_str("desk"),
            })),
            None => Err(usage(alloc, USAGE)),
        },
        Err(error) => Err(usage_fault(alloc, &error)),
    }
}

/// The text on a port call that the words ask for.
fn call_for<'a>(alloc: Global, view: View, words: &'a [&'a str]) -> Result<Command<'a>, LineFault> {
    match line_for(alloc, view, words) {
        Ok(line) => Ok(Command::Call(line)),
        Err(fault) => Err(fault),
    }
}

/// The command that the words after the program's name are. [`LineFault::Usage`] comes where
/// there is no first word, it is no command, or `clap` doesn't take the words behind it; help is
/// such an answer too.
pub fn read_command<'a>(alloc: Global, words: &'a [&'a str]) -> Result<Command<'a>, LineFault> {
    let Some((first, behind)) = words.split_first() else {
        return Err(usage(alloc, USAGE));
    };
    match *first {
        "summary" => call_for(alloc, View::Summary, behind),
        "explain" => call_for(alloc, View::Explain, behind),
        "page" => call_for(alloc, View::Page, behind),
        "table" => call_for(alloc, View::Table, behind),
        "session" => session_for(alloc, behind),
        "profile" => profile_for(alloc, behind),
        _ => Err(usage(alloc, USAGE)),
    }
}
