//! A database file that isn't used.

use crate::fault::FileFault;
use sqlite_disk::{Disk, Files};

/// Why a file isn't used, and the two files where they were opened.
#[derive(Drop)]
pub struct FileRefusal<D: Disk> {
    pub fault: FileFault,
    /// The files, which stay locked until they are dropped. `None`: they couldn't be opened.
    pub files: Option<Files<D>>,
}
