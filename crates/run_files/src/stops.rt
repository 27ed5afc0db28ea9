ghost use Rattle.std.specs.Prelude.{◌≡◌, ◌≤◌, ◌++◌, codes, true};
ghost use Rattle.std.specs.Io.KnownBytes.{Appends};
ghost use Rattle.run_files.specs.Statuses.{status_of, status_on, stop_text};

use command_line::LineFault;
use criteria::Criterion;
use edits_file::EditsFault;
use port_call::RunFault;
use std::alloc::AllocError;
use std::error::Error;
use std::fmt;
use std::io::Write;

/// The exit status of a report: 0, or 1 where a step fails.
pub fn status_on(first: Option<(u32, Criterion)>) -> u8
    ensures value { result ≡ status_on first }
    ensures range { result ≤ 1 }
{
    match first {
        None => 0,
        Some(_) => 1,
    }
}

/// Why a run prints no whole report. It prints as the one line that standard error gets.
#[derive(Debug, Drop)]
pub enum Stop {
    /// An input is refused.
    Refused(RunFault),
    /// The line of this number, from 1, of the edits file is of no form.
    Edits(usize),
    /// A usage error, or a call for help.
    Usage(String),
    /// Out of memory.
    NoMemory,
    /// The file of this name can't be read. The name is as it is printed, on one line.
    Read(String),
    /// Standard output can't be written.
    Write,
}

impl fmt::Display for Stop {
    ghost use Rattle.std.specs.Prelude.{Some};
    ghost use Rattle.run_files.specs.Statuses.{stop_text};

    ghost output = { λ stop. Some (stop_text stop) };

    fn fmt<W: fmt::Write>(&self, f: &mut fmt::Formatter<W>) -> fmt::Result {
        match self {
            Stop::Refused(fault) => write!(f, "refused {fault}"),
            Stop::Edits(line) => write!(f, "refused edits line {line}"),
            Stop::Usage(text) => f.write_str(text.as_str()),
            Stop::NoMemory => f.write_str("no memory"),
            Stop::Read(name) => write!(f, "read fault {name}"),
            Stop::Write => f.write_str("write fault"),
        }
    }
}

impl Error for Stop {}

impl Stop {
    /// The exit status: 2 for a refused input or line of edits, 3 for a usage error or help, 4 out
    /// of memory, 5 where a file can't be read or standard output can't be written.
    pub fn status(&self) -> u8
        ensures { result ≡ status_of self.now }
    {
        match self {
            Stop::Refused(_) => 2,
            Stop::Edits(_) => 2,
            Stop::Usage(_) => 3,
            Stop::NoMemory => 4,
            Stop::Read(_) => 5,
            Stop::Write => 5,
        }
    }
}

impl From<AllocError> for Stop {
    ghost use Rattle.run_files.specs.declared.stops.Stop.TheVariants.{NoMemory};

    ghost from_gives = { λ _ stop. stop ≡ NoMemory };

    fn from(_: AllocError) -> Stop {
        Stop::NoMemory
    }
}

impl From<LineFault> for Stop {
    ghost use Rattle.run_files.specs.Statuses.{stop_of_line};

    ghost from_gives = { λ fault stop. stop ≡ stop_of_line fault };

    fn from(fault: LineFault) -> Stop {
        match fault {
            LineFault::Usage(text) => Stop::Usage(text),
            LineFault::NoMemory => Stop::NoMemory,
        }
    }
}

impl From<EditsFault> for Stop {
    ghost use Rattle.run_files.specs.Statuses.{stop_of_edits};

    ghost from_gives = { λ fault stop. stop ≡ stop_of_edits fault };

    fn from(fault: EditsFault) -> Stop {
        match fault {
            EditsFault::Line(line) => Stop::Edits(line),
        }
    }
}

impl From<RunFault> for Stop {
    ghost use Rattle.run_files.specs.Statuses.{stop_of_run};

    ghost from_gives = { λ fault stop. stop ≡ stop_of_run fault };

    fn from(fault: RunFault) -> Stop {
        match fault {
            RunFault::NoMemory => Stop::NoMemory,
            RunFault::Write(_) => Stop::Write,
            fault => Stop::Refused(fault),
        }
    }
}

/// Writes the one line on what stopped a run to `err`, and says whether `err` took all of it.
fn tell<E: Write>(stop: &Stop, err: &mut E) -> bool
    ensures { result ≡ true
        → Appends (E.contents err.old) (E.contents err.new) (stop_text stop.now ++ codes "\n") }
{
    writeln!(err, "{stop}").is_ok()
}

/// Writes the one line on what stopped a run to `err`, and gives the exit status. A fault of `err`
/// changes nothing.
pub fn report_stop<E: Write>(stop: &Stop, err: &mut E) -> u8
    ensures { result ≡ status_of stop.now }
{
    // `std` says nothing of what a failed write leaves, so more than `tell` promises of `err` can't
    // be promised here, nor by what calls it.
    let _ = tell(stop, err);
    stop.status()
}
