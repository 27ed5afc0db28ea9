//! Orders that are published to a folder, for other sessions on the same inputs: the edits that led
//! to them, behind the digests of the inputs, with a digest of all that at the end.
ghost use Rattle.std.specs.Prelude.{◌≡◌, List, IfOk, IfSome};
ghost use Rattle.lift_sequence.specs.declared.operations.Op.{Op};
ghost use Rattle.view_session.specs.Trails.{IsTrail};

use edits_file::{EditLine, cut, line};
use run_files::{Makers, Readers, Unmade, Unopened, read_file};
use std::alloc::{AllocError, Global};
use std::sync::Wait;
use view_session::Tried;
use view_texts::{Sources, digest_of};

/// What stands before the digest at the end.
const END: &str = "# end ";

/// How many bytes the last line has: with a digest of 64 digits, and the end of the line.
const END_LENGTH: usize = 71;

/// The greatest number of a publication.
const LAST: u64 = 1_000_000_000;

/// Why a publication isn't opened.
#[derive(Clone, Copy, Debug, PartialEq, Eq)]
pub enum Unfit {
    /// There is none of that number.
    Missing,
    /// It can't be read.
    Unread,
    /// Its digest isn't that of its bytes.
    Changed,
    /// It doesn't begin as one.
    NoOrder,
    /// It belongs to another input, which has this name.
    Other(&'static str),
    /// An edit can't be made, that of this number.
    Unmade(usize),
}

/// The file of the publication of a number.
fn path_of(alloc: Global, folder: &str, number: u64) -> Result<String, AllocError> {
    Ok(format!(in alloc; "{folder}/{number}.edits")?)
}

/// The lines with which a publication begins, by what they belong to.
fn head_of(alloc: Global, sources: &Sources) -> Result<[(&'static str, String); 5], AllocError> {
    let profile = sources.profile.as_str();
    let plan = sources.plan.digest.as_str();
    let moves = sources.moves.digest.as_str();
    let steps = match &sources.steps {
        Some(digest) => digest.as_str(),
        None => "none",
    };
    Ok([
        (
            "",
            String::from_str(alloc, "# an order of loadseq session\n")?,
        ),
        ("profile", format!(in alloc; "# profile {profile}\n")?),
        ("bay plan", format!(in alloc; "# bay plan {plan}\n")?),
        ("instruction", format!(in alloc; "# instruction {moves}\n")?),
        ("steps file", format!(in alloc; "# steps {steps}\n")?),
    ])
}

/// The bytes of a publication of these edits.
fn publication(alloc: Global, sources: &Sources, edits: &[u8]) -> Result<Vec<u8>, AllocError> {
    let mut bytes = Vec::new(alloc);
    for (_, line) in &head_of(alloc, sources)? {
        bytes.extend_from_slice(line.as_bytes())?;
    }
    bytes.extend_from_slice(edits)?;
    let digest = digest_of(alloc, bytes.as_slice())?;
    bytes.extend_from_slice(END.as_bytes())?;
    bytes.extend_from_slice(digest.as_bytes())?;
    bytes.push(b'\n')?;
    Ok(bytes)
}

/// What stands before the last line of a publication, where that has the digest of it.
fn whole_front(alloc: Global, bytes: &[u8]) -> Result<Option<&[u8]>, AllocError> {
    let Some(place) = bytes.len().checked_sub(END_LENGTH) else {
        return Ok(None);
    };
    let (Some(before), Some(end)) = (bytes.get(..place), bytes.get(place..)) else {
        return Ok(None);
    };
    let digest = digest_of(alloc, before)?;
    let last = format!(in alloc; "{END}{digest}\n")?;
    if end == last.as_bytes() {
        Ok(Some(before))
    } else {
        Ok(None)
    }
}

/// The edits of a publication that belongs to these inputs.
fn edits_in<'a>(
    alloc: Global,
    sources: &Sources,
    bytes: &'a [u8],
) -> Result<Result<&'a [u8], Unfit>, AllocError> {
    let Some(mut rest) = whole_front(alloc, bytes)? else {
        return Ok(Err(Unfit::Changed));
    };
    for (name, line) in &head_of(alloc, sources)? {
        match rest.strip_prefix(line.as_bytes()) {
            Some(behind) => rest = behind,
            None if name.is_empty() => return Ok(Err(Unfit::NoOrder)),
            None => return Ok(Err(Unfit::Other(name))),
        }
    }
    Ok(Ok(rest))
}

/// Makes the edits of a text, one after another; or gives the number of the first that can't be
/// made.
fn with_edits(alloc: Global, tried: Tried, edits: &[u8]) -> Result<Result<Tried, usize>, AllocError>
    ensures { IfOk result (λ made. IfOk made (λ now.
        (now.session.base ≡ tried.session.base)
        × ((from : List Op) → IsTrail from tried → IsTrail from now))) }
{
    let mut now = tried;
    let mut rest = edits;
    for number in 1..usize::MAX {
        if rest.is_empty() {
            break;
        }
        let (text, behind) = cut(rest, b'\n');
        let Some(EditLine::Edit(edit)) = line(text) else {
            return Ok(Err(number));
        };
        if now.edit(alloc, text, edit)?.is_some() {
            return Ok(Err(number));
        }
        rest = behind.unwrap_or(&[]);
    }
    Ok(Ok(now))
}

/// Publishes edits to a folder under the first number behind one that nobody has taken, and gives
/// it.
pub fn publish_to<M: Readers + Makers>(
    alloc: Global,
    files: &mut M,
    folder: &str,
    sources: &Sources,
    edits: &[u8],
    behind: u64,
) -> Result<u64, Unmade> {
    let bytes = publication(alloc, sources, edits)?;
    for number in behind.saturating_add(1)..LAST {
        let path = path_of(alloc, folder, number)?;
        if files.file(path.as_str()).is_ok() {
            continue;
        }
        match files.make_whole(alloc, path.as_str(), bytes.as_slice()) {
            Ok(()) => return Ok(number),
            // Another session has just taken it.
            Err(Unmade::Exists) => {}
            Err(fault) => return Err(fault),
        }
    }
    Err(Unmade::Failed)
}

/// The list of the publication of a number, with its edits, by those made in a session that begins
/// with the list of the same inputs; nothing can be taken back there.
pub fn open_from<T: Wait, R: Readers>(
    rt: &T,
    alloc: Global,
    files: &mut R,
    folder: &str,
    sources: &Sources,
    number: u64,
    start: Tried,
) -> Result<Result<Tried, Unfit>, AllocError>
    ensures { IfOk result (λ opened. IfOk opened (λ now.
        (now.session.base ≡ start.session.base)
        × ((from : List Op) → IsTrail from start → IsTrail from now))) }
{
    let path = path_of(alloc, folder, number)?;
    let bytes = match read_file(alloc, files, path.as_str()) {
        Ok(bytes) => bytes,
        Err(Unopened::NoMemory) => return Err(AllocError),
        Err(Unopened::Missing) => return Ok(Err(Unfit::Missing)),
        Err(Unopened::Failed) => return Ok(Err(Unfit::Unread)),
    };
    let edits = match edits_in(alloc, sources, bytes.as_slice())? {
        Ok(edits) => edits,
        Err(fault) => return Ok(Err(fault)),
    };
    match with_edits(alloc, start, edits)? {
        Ok(now) => Ok(Ok(now.without_past(rt, alloc)?)),
        Err(number) => Ok(Err(Unfit::Unmade(number))),
    }
}

/// Why the publication of a number isn't opened, in words.
pub fn unfit_text(alloc: Global, number: u64, fault: Unfit) -> Result<String, AllocError> {
    let text = match fault {
        Unfit::Missing => format!(in alloc; "nothing is published as {number}\n")?,
        Unfit::Unread => format!(in alloc; "NOT OPENED {number}  it can't be read\n")?,
        Unfit::Changed => format!(in alloc; "NOT OPENED {number}  it was cut or changed\n")?,
        Unfit::NoOrder => format!(in alloc; "NOT OPENED {number}  it is no published order\n")?,
        Unfit::Other(name) => {
            format!(in alloc; "NOT OPENED {number}  it belongs to another {name}\n")?
        }
        Unfit::Unmade(edit) => {
            format!(in alloc; "NOT OPENED {number}  its edit {edit} can't be made\n")?
        }
    };
    Ok(text)
}
