//! Whether a database file and its log are where they were.

use crate::fault::FileFault;
use std::fs::{self, Metadata};
use std::io::{self, ErrorKind};
use std::os::unix::fs::MetadataExt;
use std::rt::HostRuntime;
use tenant_store::Watch;

/// The identity of a file that was found, and its length in bytes.
#[derive(Clone, Copy)]
struct Sighting {
    device: u64,
    node: u64,
    length: u64,
}

impl Sighting {
    /// Returns the identity and the length that `found` has.
    fn of(found: Metadata) -> Self {
        Sighting {
            device: found.dev(),
            node: found.ino(),
            length: found.len(),
        }
    }

    /// Returns whether both are the same file, of whatever length.
    fn is(self, other: Sighting) -> bool {
        self.device == other.device && self.node == other.node
    }
}

/// A database file and its log, as they were found last.
#[derive(Clone, Copy)]
struct FilePair {
    db: Sighting,
    log: Sighting,
}

/// A watch over a database file and its log: it looks whether they are found where the next opening
/// by the same path looks for them. Contracts know nothing of it.
#[derive(Drop)]
pub struct FileWatch<'a> {
    rt: &'a HostRuntime,
    path: &'a str,
    /// The path of the file, with no link on the way.
    real: String,
    /// The path of the log.
    log: String,
    last: FilePair,
}

/// Finds the file at `real` and the log at `log`. `Err`: they aren't there, or `path` doesn't lead
/// to the file at `real` any more.
fn find(rt: &HostRuntime, path: &str, real: &str, log: &str) -> io::Result<FilePair> {
    let named = Sighting::of(fs::metadata(rt, path)?);
    let db = Sighting::of(fs::symlink_metadata(rt, real)?);
    if !named.is(db) {
        return Err(ErrorKind::NotFound.into());
    }
    let log = Sighting::of(fs::symlink_metadata(rt, log)?);
    Ok(FilePair { db, log })
}

/// Makes a watch over the file at `path`, which is open, and over its log.
fn watch_at<'a>(rt: &'a HostRuntime, path: &'a str) -> io::Result<FileWatch<'a>> {
    let real = fs::canonicalize(rt, path)?;
    let log = format!(in rt.alloc(); "{}-wal", real.as_str())?;
    let real = String::from_str(rt.alloc(), real.as_str())?;
    let last = find(rt, path, real.as_str(), log.as_str())?;
    Ok(FileWatch {
        rt,
        path,
        real,
        log,
        last,
    })
}

impl<'a> FileWatch<'a> {
    /// Makes a watch over the file at `path`, which is open, and over its log.
    ///
    /// `Err(FileFault::NoMemory)`: an allocation failed. `Err(FileFault::Store)`: the files aren't
    /// there any more.
    pub fn new(rt: &'a HostRuntime, path: &'a str) -> Result<Self, FileFault> {
        match watch_at(rt, path) {
            Ok(watch) => Ok(watch),
            Err(error) if error.kind() == ErrorKind::OutOfMemory => Err(FileFault::NoMemory),
            Err(_) => Err(FileFault::Store),
        }
    }

    /// Finds the files now. `None`: they aren't those that were opened.
    fn found(&self) -> Option<FilePair> {
        match find(self.rt, self.path, self.real.as_str(), self.log.as_str()) {
            Ok(found) if found.db.is(self.last.db) && found.log.is(self.last.log) => Some(found),
            _ => None,
        }
    }
}

impl Watch for FileWatch<'_> {
    fn is_whole(&mut self) -> bool {
        match self.found() {
            Some(found) => {
                found.db.length >= self.last.db.length && found.log.length >= self.last.log.length
            }
            None => false,
        }
    }

    fn is_there(&mut self) -> bool {
        match self.found() {
            Some(found) => {
                self.last = found;
                true
            }
            None => false,
        }
    }
}
