ghost use Rattle.std.specs.Prelude.{◌≡◌, ◌≢◌, ◌≤◌, ℕ, List, IfOk, IfErr, IfSome, length, vec_len};
ghost use Rattle.run_files.specs.Files.{Known, RemainsOf};
ghost use Rattle.run_files.specs.Files.Known.{Nothing};

use std::alloc::Global;
use std::fs;
use std::io::{ErrorKind, Read};
use std::rt::Files;

/// The greatest number of bytes that a file may have, 64 MiB.
pub const LIMIT: usize = 67_108_864;

/// Why a file can't be read.
#[derive(Clone, Copy, Debug, PartialEq, Eq)]
pub enum Unopened {
    /// There is none of that name.
    Missing,
    /// It can't be opened or read, or is longer than [`LIMIT`].
    Failed,
    /// Out of memory.
    NoMemory,
}

/// Where files are found by their names.
pub trait Readers {
    type File: Read + Drop;

    // What is known of the file of each name.
    ghost known: { Self → List ℕ → Known };

    /// Opens a file. A file that is known to be there is never answered as missing.
    fn file(&mut self, name: &str) -> Result<Self::File, Unopened>
        ensures opened { IfOk result
            (λ file. RemainsOf (known self.old name.now) (Self.File.remaining file)) }
        ensures missing { IfErr result
            (λ e. e ≡ Unopened.Missing → known self.old name.now ≡ Nothing) }
        ensures same { known self.new ≡ known self.old };
}

/// The files of the system.
#[derive(Drop)]
pub struct Disk<'a, R: Files> {
    rt: &'a R,
}

impl<'a, R: Files> Disk<'a, R> {
    /// The files that the system's handle opens, by their names.
    pub fn new(rt: &'a R) -> Disk<'a, R> {
        Disk { rt }
    }

    /// The system's handle.
    pub(crate) fn system(&self) -> &'a R {
        self.rt
    }
}

impl<'a, R: Files> Readers for Disk<'a, R> {
    type File = R::File;

    // What a disk holds is beyond any contract.
    ghost known = { λ _ _. Nothing };

    fn file(&mut self, name: &str) -> Result<R::File, Unopened> {
        match fs::open(self.rt, name) {
            Ok(file) => Ok(file),
            Err(error) => Err(match error.kind() {
                ErrorKind::NotFound => Unopened::Missing,
                ErrorKind::OutOfMemory => Unopened::NoMemory,
                _ => Unopened::Failed,
            }),
        }
    }
}

/// All the bytes of a file, where there are at most [`LIMIT`].
pub fn whole<F: Read + Drop>(alloc: Global, file: F) -> Result<Vec<u8>, Unopened>
    ensures all { IfOk result (λ v. IfSome (F.remaining file) (λ bytes. v.items ≡ bytes)) }
    ensures limit { IfOk result (λ v. vec_len v ≤ 67108864) }
    ensures there { IfErr result (λ e. e ≢ Unopened.Missing) }
{
    let mut bytes = Vec::new(alloc);
    match file.take(LIMIT as u64 + 1).read_to_end(&mut bytes) {
        Ok(_) if bytes.len() <= LIMIT => Ok(bytes),
        Ok(_) => Err(Unopened::Failed),
        Err(error) => match error.kind() {
            ErrorKind::OutOfMemory => Err(Unopened::NoMemory),
            _ => Err(Unopened::Failed),
        },
    }
}
