//! A database file and its log in memory. One of them fails from some call on.

use sqlite_disk::{Crash, Disk, Files, Fuse, Memory};
use std::alloc::Global;
use std::io;
use std::process::Abort;

/// A database file and its log, each in memory with a fuse.
pub(crate) type Disks = Files<Fuse<Memory>>;

/// Says which of the two files fails, and after how many calls.
#[derive(Clone, Copy)]
pub(crate) enum Stop {
    Log(u64),
    Database(u64),
}

impl Stop {
    /// Returns the numbers of calls after which the log and the database file fail.
    fn calls(self) -> (u64, u64) {
        match self {
            Stop::Log(calls) => (calls, u64::MAX),
            Stop::Database(calls) => (u64::MAX, calls),
        }
    }
}

/// Makes new files, of which one fails as `stop` says.
pub(crate) fn new_files(alloc: Global, stop: Stop) -> Disks {
    let (log, db) = stop.calls();
    Files {
        log: Fuse::new(Memory::new(alloc), log),
        db: Fuse::new(Memory::new(alloc), db),
    }
}

/// Crashes both files, and gives them back. From then on no call fails.
pub(crate) fn crashed(mut files: Disks) -> Disks {
    files.log.crash();
    files.db.crash();
    files
}

/// Makes a disk with the bytes of `disk`, all of them synced, that fails after `calls` calls.
fn copied(alloc: Global, disk: &Fuse<Memory>, calls: u64) -> io::Result<Fuse<Memory>> {
    let mut copy = Memory::new(alloc);
    copy.write_at(0, disk.inner().bytes())?;
    copy.sync()?;
    Ok(Fuse::new(copy, calls))
}

/// Crashes both files, and makes files with what the crash left, of which one fails as `stop` says.
pub(crate) fn crashed_with(rt: &impl Abort, alloc: Global, files: Disks, stop: Stop) -> Disks {
    let files = crashed(files);
    let (log, db) = stop.calls();
    Files {
        log: copied(alloc, &files.log, log).expect(rt, "no copy"),
        db: copied(alloc, &files.db, db).expect(rt, "no copy"),
    }
}
