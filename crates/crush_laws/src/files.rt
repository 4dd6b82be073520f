//! Laws of files that are given back: each contract is about every disk.

ghost use Rattle.std.specs.Prelude.{◌≡◌, Ok};
ghost use Rattle.sqlite_disk.specs.declared.Files.{Files};
ghost use Rattle.crush_server.specs.tenant_files.specs.sqlite_wal.specs.Files.{outcomes};
ghost use Rattle.crush_server.specs.tenant_files.specs.sqlite_wal.specs.Reads.{AreClean};
ghost use Rattle.crush_server.specs.tenant_files.specs.sqlite_wal.specs.Recovery.{Image};
ghost use Rattle.crush_server.specs.tenant_files.specs.sqlite_store.specs.declared.store.FileStore.{FileStore};
ghost use Rattle.crush_server.specs.sqlite.specs.Files.{file_state, image_of};
ghost use Rattle.crush_server.specs.sqlite.specs.Held.{Held};
ghost use Rattle.crush_server.specs.sqlite.specs.Start.{FindsIn};
ghost use Rattle.crush_server.specs.tenant_files.specs.Closed.{GivesBack};

use sqlite_disk::Disk;

/// The next opening of the two files finds what a connection copied before it gave them back, at
/// once and after a crash.
pub fn what_was_copied_is_found_again<D: Disk>()
    ensures now { (last next : Held (FileStore D D.Disk)) (files : Files D) → AreClean D.Disk files.log files.db → GivesBack last (Ok tt) files
        → FindsIn (image_of D.Disk files) (file_state next) → (file_state next).committed.trees ≡ (file_state last).committed.trees }
    ensures crash { (last next : Held (FileStore D D.Disk)) (files : Files D) (image : Image) → AreClean D.Disk files.log files.db → GivesBack last (Ok tt) files
        → outcomes D.Disk files.log files.db image → FindsIn image (file_state next) → (file_state next).committed.trees ≡ (file_state last).committed.trees }
{}
