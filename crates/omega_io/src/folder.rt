//! The tables of a folder on disk.
ghost use Rattle.std.specs.Prelude.{◌≡◌, ◌≤◌, length, IfOk};
ghost use Rattle.omega_model.specs.declared.rows.Table.{Table};

use crate::by_table::ByTable;
use crate::calls::count_one;
use crate::edges::{Failed, Tables};
use omega_model::{NoMemory, Table};
use std::alloc::Global;
use std::fs::File;
use std::io::{ErrorKind, Read};
use std::path::{Path, PathBuf};
use std::{fs, io};

/// Whether a table's file was opened. `Missing` is an empty table.
#[derive(Drop)]
enum Access {
    Unopened,
    Open(File),
    Missing,
}

/// Whether no name stands at a path, not even a link that leads to nothing.
fn is_free(rt: &HostRuntime, path: Path) -> bool {
    match fs::symlink_metadata(rt, path) {
        Ok(_) => false,
        Err(error) => error.kind() == ErrorKind::NotFound,
    }
}

/// The file of one table.
#[derive(Drop)]
struct TableFile {
    path: PathBuf,
    needed: bool,
    access: Access,
}

impl TableFile {
    /// The file of this name in a folder, not opened yet.
    fn new(alloc: Global, folder: &str, name: &str, needed: bool) -> Result<TableFile, NoMemory> {
        Ok(TableFile {
            path: Path::new(folder).join(alloc, name)?,
            needed,
            access: Access::Unopened,
        })
    }

    /// Opens the file. One that is missing and isn't needed is an empty table; a link that leads to nothing isn't
    /// missing.
    fn open(&self, rt: &HostRuntime) -> io::Result<Access> {
        let path = self.path.as_path();
        match File::open(rt, path) {
            Ok(file) => Ok(Access::Open(file)),
            Err(error) if error.kind() == ErrorKind::NotFound => {
                if self.needed || !is_free(rt, path) {
                    return Err(error);
                }
                Ok(Access::Missing)
            }
            Err(error) => Err(error),
        }
    }

    /// Reads on, and opens the file before its first read.
    fn read(&mut self, rt: &HostRuntime, piece: &mut [u8]) -> io::Result<usize>
        ensures { IfOk result (λ count. count ≤ length piece.new) }
    {
        if let Access::Unopened = self.access {
            self.access = self.open(rt)?;
        }
        match &mut self.access {
            Access::Open(file) => file.read(piece),
            _ => Ok(0),
        }
    }
}

/// The files of the six tables in a folder.
fn files_in(alloc: Global, folder: &str) -> Result<ByTable<TableFile>, NoMemory> {
    Ok(ByTable {
        machine_events: TableFile::new(alloc, folder, "machine_events.csv", true)?,
        machine_attributes: TableFile::new(alloc, folder, "machine_attributes.csv", false)?,
        task_events: TableFile::new(alloc, folder, "task_events.csv", true)?,
        task_constraints: TableFile::new(alloc, folder, "task_constraints.csv", false)?,
        mapreduce_jobs: TableFile::new(alloc, folder, "mapreduce_jobs.csv", false)?,
        machine_disk: TableFile::new(alloc, folder, "machine_disk.csv", false)?,
    })
}

/// The tables in a folder: `machine_events.csv`, `machine_attributes.csv`, `task_events.csv`,
/// `task_constraints.csv`, `mapreduce_jobs.csv` and `machine_disk.csv`. They tell neither their
/// content nor the folder.
///
/// Each file is opened at the first read after `enter` and read on from there. A missing file of
/// attributes, constraints, jobs or disks is an empty table. A missing file of the other two is a
/// fault, as are a link that leads to nothing and a read before the first `enter`. The counts of
/// faults stop at 2^64 - 1.
#[derive(Drop)]
pub struct FolderTables<'a> {
    rt: &'a HostRuntime,
    files: Option<ByTable<TableFile>>,
    faults: ByTable<u64>,
}

impl<'a> FolderTables<'a> {
    /// No folder yet, and no fault.
    pub fn new(rt: &'a HostRuntime) -> FolderTables<'a>
        ensures { (t : Table) → ⟦<FolderTables<'a> as Tables>⟧.faults result t ≡ 0 }
    {
        FolderTables {
            rt,
            files: None,
            faults: ByTable {
                machine_events: 0,
                machine_attributes: 0,
                task_events: 0,
                task_constraints: 0,
                mapreduce_jobs: 0,
                machine_disk: 0,
            },
        }
    }
}

impl<'a> Tables for FolderTables<'a> {
    ghost use Rattle.std.specs.Prelude.{None};
    ghost use Rattle.omega_io.specs.ByTable.{at};

    ghost rest = { λ _ _. None };

    ghost entered = { λ _. None };

    ghost faults = { λ s t. at s.faults t };

    fn enter(&mut self, folder: &str) -> Result<(), NoMemory> {
        self.files = Some(files_in(self.rt.alloc(), folder)?);
        Ok(())
    }

    fn read(&mut self, table: Table, piece: &mut [u8]) -> Result<usize, Failed> {
        let answer = match &mut self.files {
            Some(files) => files.get_mut(table).read(self.rt, piece),
            None => Err(io::Error::from(ErrorKind::NotFound)),
        };
        match answer {
            Ok(count) => Ok(count),
            Err(_) => {
                count_one(self.faults.get_mut(table));
                Err(Failed)
            }
        }
    }

    fn faults(&self, table: Table) -> u64 {
        *self.faults.get(table)
    }
}
