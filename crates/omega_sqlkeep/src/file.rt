//! A keeper over a file.
ghost use Rattle.std.specs.Prelude.{◌≡◌, None, Some, OnErr};

use crate::database::{Expected, append_to, look_into};
use crate::paths::{Paths, cannot_open, looks_begun};
use crate::refusals::{counted, refusal_of};
use omega_keep::{KeepRefusal, Keeper, Lines};
use omega_model::{NoMemory, Seq, Text};
use sqlite::{Connection, Error, File, FileStore};

/// A connection to a file and its log.
type FileConnection = Connection<FileStore<File>>;

/// A file that is open, with its paths once they are noted.
struct OpenFile {
    connection: FileConnection,
    paths: Option<Paths>,
}

// It is written out, so that nobody else proves how each part of a connection to a file is dropped.
impl Drop for OpenFile {
    fn drop(self) {
        let OpenFile {
            connection: _,
            paths: _,
        } = self;
    }
}

impl OpenFile {
    /// Hands the connection and the paths back.
    fn into_parts(self) -> (FileConnection, Option<Paths>) {
        let OpenFile { connection, paths } = self;
        (connection, paths)
    }

    /// Notes the paths of the file, if that isn't done yet.
    fn note_paths(&mut self, rt: &HostRuntime, path: &str) -> Result<(), Error> {
        if self.paths.is_none() {
            self.paths = Some(Paths::of(rt, path)?);
        }
        Ok(())
    }

    /// Refuses to go on where another file stands at the path now, or another log beside it, or none.
    fn see_in_place(&self, rt: &HostRuntime) -> Result<(), Error> {
        match &self.paths {
            Some(paths) if paths.are_as_noted(rt)? => Ok(()),
            _ => Err(cannot_open()),
        }
    }

    /// Puts lines at the end, and sees before and after that the file stands where it did.
    fn append(&mut self, rt: &HostRuntime, lines: &Lines, expected: Expected) -> Result<(), Error> {
        self.see_in_place(rt)?;
        append_to(&mut self.connection, lines, expected)?;
        self.see_in_place(rt)
    }
}

/// The file at a path, opened where it isn't yet.
fn open_at(rt: &HostRuntime, path: &str) -> Result<OpenFile, Error> {
    let connection = Connection::open(rt, path)?;
    Ok(OpenFile {
        connection,
        paths: None,
    })
}

/// The file at a path, which is opened where it isn't yet, with its paths noted.
fn opened<'c>(
    rt: &HostRuntime,
    path: &str,
    file: &'c mut Option<OpenFile>,
) -> Result<&'c mut OpenFile, Error> {
    if file.is_none() {
        looks_begun(rt, path)?;
        *file = Some(open_at(rt, path)?);
    }
    match file {
        Some(open) => {
            open.note_paths(rt, path)?;
            Ok(open)
        }
        None => Err(cannot_open()),
    }
}

/// The lines of the file at a path, where it has the table. Nothing is written, and a file that isn't there isn't
/// made.
fn load_at(
    rt: &HostRuntime,
    path: &Option<Text>,
    file: &mut Option<OpenFile>,
) -> Result<Option<Lines>, Error> {
    let Some(path) = path else {
        return Err(cannot_open());
    };
    if file.is_none() && !looks_begun(rt, path.as_str())? {
        return Ok(None);
    }
    look_into(rt.alloc(), &mut opened(rt, path.as_str(), file)?.connection)
}

/// Puts lines at the end of the file at a path, which is made where it isn't there.
fn append_at(
    rt: &HostRuntime,
    path: &Option<Text>,
    file: &mut Option<OpenFile>,
    lines: &Lines,
    expected: Expected,
) -> Result<(), Error> {
    let Some(path) = path else {
        return Err(cannot_open());
    };
    opened(rt, path.as_str(), file)?.append(rt, lines, expected)
}

/// Copies the log into the file and removes it, while nobody else can have the file. A log that can't be
/// removed stays.
fn close_open(rt: &HostRuntime, file: OpenFile) -> Result<(), Error> {
    let (connection, paths) = file.into_parts();
    match connection.close_files() {
        Ok(files) => {
            if let Some(paths) = paths {
                let _ = paths.remove_log(rt);
            }
            drop(files);
            Ok(())
        }
        Err((error, store)) => {
            drop(store.close());
            Err(error)
        }
    }
}

/// A keeper of the lines in the table `kept` of the database in a file.
///
/// The file is opened at the first load or append after `enter`, and no other connection, and no other
/// program, can have it open from then on. A load writes nothing: where no file stands, or one of no bytes, it
/// answers no lines and makes no file, and a database without the table has no lines. Where the last load has
/// found no table the first append behind it goes only into a table without rows, so that of two runs that
/// begin in the same file one is refused. An append makes the file and the table where they are absent.
/// Whatever else has the table's name is refused, as `SqlKeeper` says, and so are a link to nothing and a file
/// of one byte, unless a log beside it shows that it was begun here.
///
/// Beside the file stands its log, whose name ends in `-wal`: until `close` the newest lines may be in it
/// alone. Before and after each append the file has to stand at its path, and the log beside it, as they did
/// when the file was opened. Another `enter` lets go of the file that was open, without `close`.
///
/// It tells the path and not its list. Whatever the database refuses is a fault, and so are a file that
/// can't be opened or isn't at its path any more, and a load or an append before the first `enter`. Want of
/// memory is no fault, and is answered as `NoMemory`. The count of faults stops at 2^64 - 1.
pub struct FileKeeper<'a> {
    rt: &'a HostRuntime,
    path: Option<Text>,
    file: Option<OpenFile>,
    expected: Expected,
    faults: u64,
}

// It is written out, so that who lets a keeper go doesn't prove again how each part is dropped.
impl<'a> Drop for FileKeeper<'a> {
    fn drop(self) {
        let FileKeeper {
            rt: _,
            path: _,
            file: _,
            expected: _,
            faults: _,
        } = self;
    }
}

impl<'a> FileKeeper<'a> {
    ghost use Rattle.omega_sqlkeep.specs.Connections.{HasOpened};

    /// No path yet, and no fault.
    pub fn new(rt: &'a HostRuntime) -> FileKeeper<'a>
        ensures path { ⟦<FileKeeper<'a> as Keeper>⟧.entered result ≡ Some None }
        ensures count { ⟦<FileKeeper<'a> as Keeper>⟧.faults result ≡ 0 }
    {
        FileKeeper {
            rt,
            path: None,
            file: None,
            expected: Expected::AnyRows,
            faults: 0,
        }
    }

    /// Closes the file, if it was opened, and copies its log into it, so that the file alone has all
    /// lines and no log stands beside it. Where that is refused the lines are in the file and its log
    /// together.
    pub fn close(self) -> Result<(), KeepRefusal>
        ensures { OnErr result (HasOpened self.entry) }
    {
        let FileKeeper {
            rt,
            path: _,
            file,
            expected: _,
            faults: _,
        } = self;
        match file {
            Some(open) => match close_open(rt, open) {
                Ok(()) => Ok(()),
                Err(error) => Err(refusal_of(error)),
            },
            None => Ok(()),
        }
    }
}

impl<'a> Keeper for FileKeeper<'a> {
    ghost use Rattle.std.specs.Prelude.{None, Some};

    ghost entered = { λ k. Some k.path };

    ghost kept = { λ _. None };

    ghost faults = { λ k. k.faults };

    fn enter(&mut self, path: &str) -> Result<(), NoMemory> {
        let path = String::from_str(self.rt.alloc(), path)?;
        self.path = Some(Text::of(path));
        self.file = None;
        self.expected = Expected::AnyRows;
        Ok(())
    }

    fn load(&mut self) -> Result<Lines, KeepRefusal> {
        match load_at(self.rt, &self.path, &mut self.file) {
            Ok(Some(lines)) => {
                self.expected = Expected::AnyRows;
                Ok(lines)
            }
            Ok(None) => {
                self.expected = Expected::NoRows;
                Ok(Seq::new(self.rt.alloc()))
            }
            Err(error) => Err(counted(error, &mut self.faults)),
        }
    }

    fn append(&mut self, lines: &Lines) -> Result<(), KeepRefusal> {
        match append_at(self.rt, &self.path, &mut self.file, lines, self.expected) {
            Ok(()) => {
                self.expected = Expected::AnyRows;
                Ok(())
            }
            Err(error) => Err(counted(error, &mut self.faults)),
        }
    }

    fn faults(&self) -> u64 {
        self.faults
    }
}
