//! The log beside a database file that is refused.

use std::fs::{self, OpenOptions};
use std::io::{self, ErrorKind};
use std::rt::HostRuntime;

/// Where the log of a database file is, and how long it was before the file was opened, if it was
/// there.
#[derive(Drop)]
pub struct LogBefore {
    path: String,
    length: Option<u64>,
}

/// Finds the log of the file at `path`. `Err`: the file isn't there, or can't be looked up.
fn log_at(rt: &HostRuntime, path: &str) -> io::Result<LogBefore> {
    // the log is beside the file that the links lead to
    let real = fs::canonicalize(rt, path)?;
    let path = format!(in rt.alloc(); "{}-wal", real.as_str())?;
    let length = match fs::symlink_metadata(rt, path.as_str()) {
        Ok(found) => Some(found.len()),
        Err(error) if error.kind() == ErrorKind::NotFound => None,
        Err(error) => return Err(error),
    };
    Ok(LogBefore { path, length })
}

/// Finds the log of the file at `path`. `None`: it can't be looked up.
pub fn log_before(rt: &HostRuntime, path: &str) -> Option<LogBefore> {
    log_at(rt, path).ok()
}

impl LogBefore {
    /// Removes from the log what an opening that refused the file added to it, and removes the log
    /// if there was none before. It has to be called while the file is locked, so that no other
    /// process has the log.
    pub fn restore(&self, rt: &HostRuntime) -> io::Result<()> {
        let Some(length) = self.length else {
            return fs::remove_file(rt, self.path.as_str());
        };
        let log = OpenOptions::new().write(true).open(rt, self.path.as_str())?;
        if log.metadata()?.len() > length {
            log.set_len(length)?;
        }
        Ok(())
    }
}
