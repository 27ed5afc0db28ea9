//! Files that a run makes.
use crate::files::Disk;
use std::alloc::{AllocError, Global};
use std::fs::{OpenFile, OpenOptions};
use std::io::{ErrorKind, Write};
use std::rt::Files;
use std::{fs, io};

/// Why a file can't be made.
#[derive(Clone, Copy, Debug, PartialEq, Eq)]
pub enum Unmade {
    /// There is one of that name already.
    Exists,
    /// It can't be written.
    Failed,
    /// Out of memory.
    NoMemory,
}

impl From<AllocError> for Unmade {
    fn from(_error: AllocError) -> Unmade {
        Unmade::NoMemory
    }
}

/// Where files are made by their names. None that is there is ever written over.
pub trait Makers {
    /// Makes a file of these bytes.
    fn make(&mut self, name: &str, bytes: &[u8]) -> Result<(), Unmade>;

    /// Makes a file of these bytes in one step: under its name nobody ever sees a part of them.
    fn make_whole(&mut self, alloc: Global, name: &str, bytes: &[u8]) -> Result<(), Unmade>;
}

/// The fault that an error of the system tells of.
fn fault_of(error: io::Error) -> Unmade {
    match error.kind() {
        ErrorKind::AlreadyExists => Unmade::Exists,
        ErrorKind::OutOfMemory => Unmade::NoMemory,
        _ => Unmade::Failed,
    }
}

/// Writes bytes to a file that is new, and has them reach the disk.
fn fill<F: Write + OpenFile + Drop>(mut file: F, bytes: &[u8]) -> io::Result<()> {
    file.write_all(bytes)?;
    file.flush()?;
    file.sync_all()
}

/// How many names are tried for a file on its way.
const TRIES: u32 = 100_000;

impl<'a, R: Files> Makers for Disk<'a, R> {
    fn make(&mut self, name: &str, bytes: &[u8]) -> Result<(), Unmade> {
        let files = self.system();
        let mut how = OpenOptions::new();
        how.write(true).create_new(true);
        let file = match how.open(files, name) {
            Ok(file) => file,
            Err(error) => return Err(fault_of(error)),
        };
        match fill(file, bytes) {
            Ok(()) => Ok(()),
            Err(error) => {
                // What could be written of it is no use to anybody.
                let _ = fs::remove_file(files, name);
                Err(fault_of(error))
            }
        }
    }

    fn make_whole(&mut self, alloc: Global, name: &str, bytes: &[u8]) -> Result<(), Unmade> {
        for number in 0..TRIES {
            let part = format!(in alloc; "{name}.part{number}")?;
            match self.make(part.as_str(), bytes) {
                Ok(()) => {
                    let files = self.system();
                    let linked = fs::hard_link(files, part.as_str(), name);
                    // The bytes have their own name now, or none.
                    let _ = fs::remove_file(files, part.as_str());
                    return match linked {
                        Ok(()) => Ok(()),
                        Err(error) => Err(fault_of(error)),
                    };
                }
                // Another run is on its way by this name.
                Err(Unmade::Exists) => {}
                Err(fault) => return Err(fault),
            }
        }
        Err(Unmade::Failed)
    }
}
