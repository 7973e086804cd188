//! Disks in memory that can stop, and what a database leaves on them.

use sqlite::{Alter, Connection, FileStore, Files, Options};
use sqlite_disk::{Crash, Fuse, Memory};
use std::alloc::Global;

/// A disk that can stop.
pub type Disk = Fuse<Memory>;

/// Whichever file is stopped.
#[derive(Clone, Copy)]
pub enum Stopped {
    Log,
    Database,
}

/// The two files of a new database, one of which passes so many calls.
pub fn files_of(alloc: Global, stopped: Stopped, calls: u64) -> Files<Disk> {
    let (log, db) = match stopped {
        Stopped::Log => (calls, u64::MAX),
        Stopped::Database => (u64::MAX, calls),
    };
    Files {
        log: Fuse::new(Memory::new(alloc), log),
        db: Fuse::new(Memory::new(alloc), db),
    }
}

/// The files once the machine is up again: what was never synced is lost.
pub fn up_again(files: Files<Disk>) -> Files<Disk> {
    let Files { mut log, mut db } = files;
    log.crash();
    db.crash();
    Files { log, db }
}

/// What a database stands on, which hands its two files back. Functions that work on a database take this as a
/// type parameter: one that calls others with a known type of stores costs a minute of proof.
pub trait Ends: Alter + Drop {
    /// The files, with no call to a disk. What isn't committed is lost.
    fn into_files(self) -> Files<Disk>;
}

impl Ends for FileStore<Disk> {
    fn into_files(self) -> Files<Disk> {
        self.close()
    }
}

/// How a database is opened in two files. Who opens one takes this as a type parameter too.
pub trait Opens {
    type Store: Ends;

    /// A connection to the database. Hands the files back where they can't be used, or no database can be opened in
    /// them.
    fn open(
        &self,
        alloc: Global,
        files: Files<Disk>,
    ) -> Result<Connection<Self::Store>, Files<Disk>>;
}

/// A database as the program has one.
pub struct InFiles;

impl Opens for InFiles {
    type Store = FileStore<Disk>;

    fn open(
        &self,
        alloc: Global,
        files: Files<Disk>,
    ) -> Result<Connection<FileStore<Disk>>, Files<Disk>> {
        if !files.may_be_used() {
            return Err(files);
        }
        match Connection::open_files(alloc, files, Options::new(7)) {
            Ok(connection) => Ok(connection),
            Err((_, left)) => Err(left.into_files()),
        }
    }
}
