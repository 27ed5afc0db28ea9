ghost use Rattle.std.specs.Prelude.{◌≡◌, ◌≢◌, IfOk, IfErr, option_map, string_bytes};
ghost use Rattle.ship_profile.specs.Record.{texts_of};
ghost use Rattle.run_files.specs.Files.{AreShipTexts, AreTexts, IsTextIfNamed, IsTextIfThere};
ghost use Rattle.run_files.specs.Files.{IsTextOf, edits_text, path_in, texts_in};
ghost use Rattle.run_files.specs.Files.Known.{Nothing};
ghost use Rattle.run_files.specs.Statuses.{IsUnread, name_shown};

use crate::files::{Readers, Unopened, whole};
use crate::stops::Stop;
use command_line::Line;
use port_call::{Inputs, printable};
use ship_profile::ProfileBytes;
use std::alloc::{AllocError, Global};
use std::marker::Model;

/// The bytes of the file of this name, or why it can't be read.
pub fn read_file<R: Readers>(alloc: Global, files: &mut R, name: &str) -> Result<Vec<u8>, Unopened>
    ensures text { IfOk result (λ v. IsTextOf (R.known files.old name.now) v.items) }
    ensures missing { IfErr result
        (λ e. e ≡ Unopened.Missing → R.known files.old name.now ≡ Nothing) }
    ensures same { R.known files.new ≡ R.known files.old }
{
    let file = files.file(name)?;
    whole(alloc, file)
}

/// A name on one line, whatever bytes it has.
fn shown_name(alloc: Global, name: &str) -> Result<String, AllocError>
    ensures { IfOk result (λ text. string_bytes text ≡ name_shown name.now) }
{
    if name.is_empty() {
        return String::from_str(alloc, "(empty name)");
    }
    let mut text = String::new(alloc);
    for byte in name.as_bytes() {
        text.push(char::from(printable(*byte)))?;
    }
    Ok(text)
}

/// What ends the run where the file of this name can't be read.
pub fn stop(alloc: Global, name: &str, unopened: Unopened) -> Stop
    ensures unread { IsUnread result }
    ensures named { (text : _) → result ≡ Stop.Read text → string_bytes text ≡ name_shown name.now }
{
    match unopened {
        Unopened::NoMemory => Stop::NoMemory,
        Unopened::Missing | Unopened::Failed => match shown_name(alloc, name) {
            Ok(name) => Stop::Read(name),
            Err(AllocError) => Stop::NoMemory,
        },
    }
}

/// The bytes of the file of this name.
fn bytes_of<R: Readers>(alloc: Global, files: &mut R, name: &str) -> Result<Vec<u8>, Stop>
    ensures text { IfOk result (λ v. IsTextOf (R.known files.old name.now) v.items) }
    ensures unread { IfErr result IsUnread }
    ensures same { R.known files.new ≡ R.known files.old }
{
    match read_file(alloc, files, name) {
        Ok(bytes) => Ok(bytes),
        Err(unopened) => Err(stop(alloc, name, unopened)),
    }
}

/// The bytes of a file of a folder.
fn bytes_in<R: Readers>(
    alloc: Global,
    files: &mut R,
    folder: &str,
    name: &str,
) -> Result<Vec<u8>, Stop>
    ensures text { IfOk result
        (λ v. IsTextOf (R.known files.old (path_in folder.now name.now)) v.items) }
    ensures unread { IfErr result IsUnread }
    ensures same { R.known files.new ≡ R.known files.old }
{
    let path = format!(in alloc; "{folder}/{name}")?;
    bytes_of(alloc, files, path.as_str())
}

/// The bytes of a file of a folder that may be missing.
fn bytes_if_there<R: Readers>(
    alloc: Global,
    files: &mut R,
    folder: &str,
    name: &str,
) -> Result<Option<Vec<u8>>, Stop>
    ensures text { IfOk result (λ v. IsTextIfThere (R.known files.old (path_in folder.now name.now))
        (option_map (λ t. t.items) v)) }
    ensures unread { IfErr result IsUnread }
    ensures same { R.known files.new ≡ R.known files.old }
{
    let path = format!(in alloc; "{folder}/{name}")?;
    match read_file(alloc, files, path.as_str()) {
        Ok(bytes) => Ok(Some(bytes)),
        Err(Unopened::Missing) => Ok(None),
        Err(unopened) => Err(stop(alloc, path.as_str(), unopened)),
    }
}

/// The bytes of the files of a ship's profile.
#[derive(Debug, Drop)]
pub struct Folder {
    ship: Vec<u8>,
    cells: Vec<u8>,
    hydro: Vec<u8>,
    kn: Vec<u8>,
    bonjean: Vec<u8>,
    tanks: Vec<u8>,
    gm: Option<Vec<u8>>,
}

impl Model for Folder {
    ghost use Rattle.std.specs.Prelude.{option_map};
    ghost use Rattle.ship_profile.specs.Record.{Texts as ProfileTexts};

    ghost Value = { ProfileTexts };

    ghost view = { λ f. record {
      ship = f.ship.items;
      tables = record {
        cells = f.cells.items;
        hydro = f.hydro.items;
        levers = f.kn.items;
        bonjean = f.bonjean.items;
        tanks = f.tanks.items;
        least_gm = option_map (λ text. text.items) f.gm;
      };
    } };
}

impl Folder {
    /// The texts of the files, each as that of its file.
    pub fn texts(&self) -> ProfileBytes<'_>
        ensures { texts_of result ≡ self.now }
    {
        ProfileBytes {
            ship: &self.ship,
            cells: &self.cells,
            hydro: &self.hydro,
            kn: &self.kn,
            bonjean: &self.bonjean,
            tanks: &self.tanks,
            gm: self.gm.as_deref(),
        }
    }
}

/// Reads the files of a ship's profile in their order. The first that can't be read ends the run;
/// only `gm.csv` may be missing.
pub fn read_folder<R: Readers>(alloc: Global, files: &mut R, folder: &str) -> Result<Folder, Stop>
    ensures texts { IfOk result (AreShipTexts (R.known files.old) folder.now) }
    ensures unread { IfErr result IsUnread }
    ensures same { R.known files.new ≡ R.known files.old }
{
    let ship = bytes_in(alloc, files, folder, "ship.toml")?;
    let cells = bytes_in(alloc, files, folder, "cells.csv")?;
    let hydro = bytes_in(alloc, files, folder, "hydro.csv")?;
    let kn = bytes_in(alloc, files, folder, "kn.csv")?;
    let bonjean = bytes_in(alloc, files, folder, "bonjean.csv")?;
    let tanks = bytes_in(alloc, files, folder, "tanks.csv")?;
    let gm = bytes_if_there(alloc, files, folder, "gm.csv")?;
    Ok(Folder {
        ship,
        cells,
        hydro,
        kn,
        bonjean,
        tanks,
        gm,
    })
}

/// The bytes of the file of this name, if one is given.
fn bytes_if_given<R: Readers>(
    alloc: Global,
    files: &mut R,
    name: Option<&str>,
) -> Result<Option<Vec<u8>>, Stop>
    ensures text { IfOk result (λ v. IsTextIfNamed (R.known files.old)
        (option_map (λ n. n.now) name.entry) (option_map (λ t. t.items) v)) }
    ensures unread { IfErr result IsUnread }
    ensures same { R.known files.new ≡ R.known files.old }
{
    match name {
        Some(name) => Ok(Some(bytes_of(alloc, files, name)?)),
        None => Ok(None),
    }
}

/// The bytes of all files that a run reads.
#[derive(Debug, Drop)]
pub struct Texts {
    folder: Folder,
    baplie: Vec<u8>,
    movins: Vec<u8>,
    edits: Option<Vec<u8>>,
    steps: Option<Vec<u8>>,
}

impl Model for Texts {
    ghost use Rattle.std.specs.Prelude.{option_map};
    ghost use Rattle.run_files.specs.Files.{RunTexts};

    ghost Value = { RunTexts };

    ghost view = { λ t. record {
      profile = t.folder;
      baplie = t.baplie.items;
      movins = t.movins.items;
      edits = option_map (λ text. text.items) t.edits;
      steps = option_map (λ text. text.items) t.steps;
    } };
}

impl Texts {
    /// What the report is made of: each text as that of its file.
    pub fn inputs(&self) -> Inputs<'_>
        ensures { texts_in result self.now.edits ≡ self.now }
    {
        Inputs {
            profile: self.folder.texts(),
            baplie: &self.baplie,
            movins: &self.movins,
            steps: self.steps.as_deref(),
        }
    }

    /// The edits to be tried; none where no file of edits was named.
    pub fn edits(&self) -> &[u8]
        ensures { result.now ≡ edits_text self.now.edits }
    {
        match &self.edits {
            Some(edits) => edits,
            None => &[],
        }
    }
}

/// Reads the files of a command line: the ship's profile, the bay plan, the movement instruction,
/// the edits file and the steps file, where they are given. The first that can't be read ends the
/// run.
pub fn read_texts<R: Readers>(alloc: Global, files: &mut R, line: Line<'_>) -> Result<Texts, Stop>
    ensures texts { IfOk result (AreTexts (R.known files.old) line.entry) }
    ensures unread { IfErr result IsUnread }
{
    let folder = read_folder(alloc, files, line.folder)?;
    let baplie = bytes_of(alloc, files, line.baplie)?;
    let movins = bytes_of(alloc, files, line.movins)?;
    let edits = bytes_if_given(alloc, files, line.edits)?;
    let steps = bytes_if_given(alloc, files, line.steps)?;
    Ok(Texts {
        folder,
        baplie,
        movins,
        edits,
        steps,
    })
}
