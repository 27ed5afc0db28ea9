ghost use Rattle.std.specs.Prelude.{◌≡◌, ◌≢◌, ◌++◌, [], IfOk, IfErr, Some, true, false, map};
ghost use Rattle.std.specs.Prelude.{option_map, codes};
ghost use Rattle.clap.specs.Words.{app_of, args_of, groups_of, new_app, takes, fault_of};
ghost use Rattle.clap.specs.Words.{matches_of, rows_of, rule_of, found_of, kind_of};
ghost use Rattle.clap.specs.Built.{TakesValue, IsPlainArg};
ghost use Rattle.clap.specs.declared.builder.command.Command.TheViews.{out-Command as fields_of};
ghost use Rattle.command_line.specs.Chains.{TakesRules};
ghost use Rattle.command_line.specs.Lines.{IsLine, IsLineOf, IsUsage, IsNotTaken};
ghost use Rattle.command_line.specs.Promised.{HasWords, edits_in};
ghost use Rattle.command_line.specs.Words.{arguments_of, bare, command_of, edits_word};
ghost use Rattle.command_line.specs.Words.{number_option, option_of, plain_words, positional};
ghost use Rattle.command_line.specs.Words.{task_named, without_name};

use clap::error::ErrorKind;
use clap::{Arg, ArgAction, ArgMatches, Command, value_parser};
use std::alloc::{AllocError, Global};
use thiserror::Error;

/// What a run is asked to print.
#[derive(Clone, Copy, Debug, PartialEq, Eq)]
pub enum Task {
    /// The whole report.
    Check,
    /// Its last line alone, with the first step that fails.
    First,
    /// What becomes of each edit of a file, and the whole report of the list that is left.
    WhatIf,
}

/// The words of a command line, as they were given.
#[derive(Clone, Copy, Debug, PartialEq, Eq)]
pub struct Line<'a> {
    /// What is printed, by the first word.
    pub task: Task,
    /// The folder of the ship's profile.
    pub folder: &'a str,
    /// The file of the bay plan on arrival.
    pub baplie: &'a str,
    /// The file of the movement instruction.
    pub movins: &'a str,
    /// The file of edits, there for [`Task::WhatIf`] alone.
    pub edits: Option<&'a str>,
    /// The planner's steps file, if one is given.
    pub steps: Option<&'a str>,
    /// How many threads work at it: 1 to 16, and 4 where it isn't given.
    pub workers: u32,
    /// How many lines of the report are made at a time: 1 to 200,000, and 256 where it isn't given.
    pub chunk: u32,
}

/// Why words are no command line.
#[derive(Debug, Drop, Error)]
pub enum LineFault {
    /// A usage error, or a call for help; the text is the usage text.
    #[error("{0}")]
    Usage(String),
    /// Out of memory.
    #[error("no memory")]
    NoMemory,
}

/// The usage text where the first word is no command.
const USAGE: &str = "usage: loadseq check|first|whatif";

/// What help says of the commands, of each of their words, and of their options.
const ABOUT_CHECK: &str =
    "Writes one line for each step, with a verdict, and the first step that fails";

const ABOUT_FIRST: &str = "Writes the first step that fails alone";

const ABOUT_WHAT_IF: &str =
    "Tries edits of the steps, and writes what became of each and the report on the list that is left";

const ABOUT_FOLDER: &str = "The folder of the ship's profile: ship.toml and her tables";

const ABOUT_BAPLIE: &str = "The bay plan on arrival (BAPLIE, directory D.95B)";

const ABOUT_MOVINS: &str = "The movement instruction (MOVINS, directory D.95B)";

const ABOUT_EDITS: &str =
    "The edits, one a line: swap A B, move FROM TO, remove AT, insert AT LIFT, reweigh AT KG or undo";

const ABOUT_STEPS: &str =
    "The order of the steps: lifts, fillings of tanks and restows (CSV); without it the order of the movement instruction";

const ABOUT_WORKERS: &str =
    "How many threads work, 1 to 16 [default: 4]; the report is the same for each";

const ABOUT_CHUNK: &str =
    "How many lines are made at a time, 1 to 200000 [default: 256]; the report is the same for each";

/// How many threads work where the words don't say.
const DEFAULT_WORKERS: u32 = 4;

/// How many lines of the report are made at a time where the words don't say.
const DEFAULT_CHUNK: u32 = 256;

/// A word that has to be there, with its meaning.
fn word<'a>(alloc: Global, name: &'a str, meaning: &'a str) -> Arg<'a>
    ensures rule { rule_of result ≡ positional name.entry.now }
    ensures plain { IsPlainArg result }
    ensures one { result.global ≡ false }
    ensures value { TakesValue result }
{
    Arg::new(alloc, name)
        .required(true)
        .action(ArgAction::Set)
        .help(meaning)
}

/// An option that names a file, by its own name behind two dashes, with its meaning.
fn option<'a>(alloc: Global, name: &'a str, about: &'a str) -> Arg<'a>
    ensures rule { rule_of result ≡ option_of name.entry.now }
    ensures plain { IsPlainArg result }
    ensures one { result.global ≡ false }
{
    Arg::new(alloc, name)
        .long(name)
        .value_name("FILE")
        .action(ArgAction::Set)
        .help(about)
}

/// The option that says how many threads work.
fn workers<'a>(alloc: Global) -> Arg<'a>
    ensures rule { rule_of result ≡ number_option (codes "workers") 1 16 }
    ensures plain { IsPlainArg result }
    ensures one { result.global ≡ false }
{
    Arg::new(alloc, "workers")
        .long("workers")
        .value_name("N")
        .action(ArgAction::Set)
        .value_parser(value_parser!(u32).range(1..=16))
        .help(ABOUT_WORKERS)
}

/// The option that says how many lines of the report are made at a time.
fn chunk<'a>(alloc: Global) -> Arg<'a>
    ensures rule { rule_of result ≡ number_option (codes "chunk") 1 200_000 }
    ensures plain { IsPlainArg result }
    ensures one { result.global ≡ false }
{
    Arg::new(alloc, "chunk")
        .long("chunk")
        .value_name("N")
        .action(ArgAction::Set)
        .value_parser(value_parser!(u32).range(1..=200_000))
        .help(ABOUT_CHUNK)
}

/// A command with its meaning, which is handed the words behind its name, and takes none yet.
fn command<'a>(alloc: Global, name: &'a str, about: &'a str) -> Command<'a>
    ensures app { app_of result ≡ without_name (new_app name.entry.now) }
    ensures args { args_of result ≡ [] }
    ensures groups { groups_of result ≡ [] }
    ensures local { (fields_of result).has_globals ≡ false }
    ensures negates { (fields_of result).subcommand_negates_reqs ≡ false }
{
    Command::new(alloc, name).about(about).no_binary_name(true)
}

/// The name and the meaning of the command that asks for this.
fn bare_command<'a>(alloc: Global, task: Task) -> Command<'a>
    ensures app { app_of result ≡ bare task }
    ensures args { args_of result ≡ [] }
    ensures groups { groups_of result ≡ [] }
    ensures local { (fields_of result).has_globals ≡ false }
    ensures negates { (fields_of result).subcommand_negates_reqs ≡ false }
{
    match task {
        Task::Check => command(alloc, "loadseq check", ABOUT_CHECK),
        Task::First => command(alloc, "loadseq first", ABOUT_FIRST),
        Task::WhatIf => command(alloc, "loadseq whatif", ABOUT_WHAT_IF),
    }
}

/// The command that asks for this, with the words that each command takes.
fn with_words<'a>(alloc: Global, task: Task) -> Result<Command<'a>, AllocError>
    ensures { IfOk result (TakesRules (bare task) plain_words) }
{
    bare_command(alloc, task)
        .arg(word(alloc, "FOLDER", ABOUT_FOLDER))?
        .arg(word(alloc, "BAPLIE", ABOUT_BAPLIE))?
        .arg(word(alloc, "MOVINS", ABOUT_MOVINS))
}

/// The command with the words of each command, and with the name of the edits file, where it takes
/// one.
fn with_edits<'a>(alloc: Global, task: Task) -> Result<Command<'a>, AllocError>
    ensures { IfOk result (TakesRules (bare task) (plain_words ++ edits_word task)) }
{
    let command = with_words(alloc, task)?;
    match task {
        Task::Check | Task::First => Ok(command),
        Task::WhatIf => command.arg(word(alloc, "EDITS", ABOUT_EDITS)),
    }
}

/// The command with all its words and options.
fn command_for<'a>(alloc: Global, task: Task) -> Result<Command<'a>, AllocError>
    ensures { IfOk result (TakesRules (bare task) (arguments_of task)) }
{
    with_edits(alloc, task)?
        .arg(option(alloc, "steps", ABOUT_STEPS))?
        .arg(workers(alloc))?
        .arg(chunk(alloc))
}

/// What `clap` makes of the words behind the command's name.
fn matches_for<'a>(
    alloc: Global,
    task: Task,
    words: &'a [&'a str],
) -> Result<ArgMatches<'a>, clap::Error>
    ensures rows { IfOk result (λ m. rows_of (found_of m)
        ≡ matches_of (command_of task) (map (λ w. w.now) words.entry.now)) }
    ensures taken { IfOk result
        (λ _. fault_of (command_of task) (map (λ w. w.now) words.entry.now) ≡ []) }
    ensures promised { IfOk result (HasWords task) }
    ensures refused { IfErr result (λ e. takes (command_of task) (map (λ w. w.now) words.entry.now)
        ≡ true → kind_of e ≡ ErrorKind.OutOfMemory) }
{
    let command = command_for(alloc, task)?;
    command.try_get_matches_from(words)
}

/// A usage error with this text.
fn usage(alloc: Global, text: &str) -> LineFault {
    match String::from_str(alloc, text) {
        Ok(text) => LineFault::Usage(text),
        Err(_) => LineFault::NoMemory,
    }
}

/// The usage error of words whose first is no command.
fn no_command(alloc: Global) -> LineFault {
    usage(alloc, USAGE)
}

/// The usage error that `clap` gives.
fn usage_fault(alloc: Global, error: &clap::Error) -> LineFault
    ensures { IsUsage result → kind_of error.now ≢ ErrorKind.OutOfMemory }
{
    if error.kind() == ErrorKind::OutOfMemory {
        return LineFault::NoMemory;
    }
    match format!(in alloc; "{error}") {
        Ok(text) => LineFault::Usage(text),
        Err(_) => LineFault::NoMemory,
    }
}

/// The word that names the edits file, where the command takes one.
fn edits_in<'a>(task: Task, matches: &ArgMatches<'a>) -> Option<&'a str>
    ensures { option_map (λ word. word.now) result ≡ edits_in task matches.now }
{
    match task {
        Task::Check | Task::First => None,
        Task::WhatIf => matches.get_str("EDITS"),
    }
}

/// The line of the words behind the command's name.
fn line_for<'a>(alloc: Global, task: Task, words: &'a [&'a str]) -> Result<Line<'a>, LineFault>
    ensures task { IfOk result (λ line. line.task ≡ task) }
    ensures ok { IfOk result (IsLineOf (map (λ w. w.now) words.entry.now)) }
    ensures usage { IfErr result
        (λ e. IsUsage e → takes (command_of task) (map (λ w. w.now) words.entry.now) ≡ false) }
{
    let matches = match matches_for(alloc, task, words) {
        Ok(matches) => matches,
        Err(error) => return Err(usage_fault(alloc, &error)),
    };
    let folder = matches.get_str("FOLDER").unwrap();
    let baplie = matches.get_str("BAPLIE").unwrap();
    let movins = matches.get_str("MOVINS").unwrap();
    let edits = edits_in(task, &matches);
    let steps = matches.get_str("steps");
    let workers = matches.get_one::<u32>("workers").unwrap_or(DEFAULT_WORKERS);
    let chunk = matches.get_one::<u32>("chunk").unwrap_or(DEFAULT_CHUNK);
    Ok(Line {
        task,
        folder,
        baplie,
        movins,
        edits,
        steps,
        workers,
        chunk,
    })
}

/// What the first word asks for.
fn task_of(word: &str) -> Option<Task>
    ensures { result ≡ task_named word.now }
{
    match word {
        "check" => Some(Task::Check),
        "first" => Some(Task::First),
        "whatif" => Some(Task::WhatIf),
        _ => None,
    }
}

/// The command line that the words after the program's name are: `check`, `first` or `whatif`, and
/// what `clap` reads of the words behind it. [`LineFault::Usage`] comes only where there is no
/// first word, it is another, or `clap` doesn't take the words behind it; help is such an answer
/// too.
pub fn read_line<'a>(alloc: Global, words: &'a [&'a str]) -> Result<Line<'a>, LineFault>
    ensures ok { IfOk result (IsLine (map (λ w. w.now) words.entry.now)) }
    ensures usage { IfErr result (λ e. IsUsage e → IsNotTaken (map (λ w. w.now) words.entry.now)) }
{
    let Some((first, behind)) = words.split_first() else {
        return Err(no_command(alloc));
    };
    match task_of(first) {
        Some(task) => line_for(alloc, task, behind),
        None => Err(no_command(alloc)),
    }
}
