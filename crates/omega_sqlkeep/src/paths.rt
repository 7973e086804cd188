//! What stands at the path of a file and of its log.
use omega_model::Text;
use sqlite::{Error, ErrorCode};
use std::io::ErrorKind;
use std::os::unix::fs::MetadataExt;
use std::{fs, io};

/// What is answered where a file can't be opened, or stands no longer where it did.
pub fn cannot_open() -> Error {
    Error::SqliteFailure(ErrorCode::CannotOpen)
}

/// The database's error for one of the system.
fn error_of(error: io::Error) -> Error {
    match error.kind() {
        ErrorKind::OutOfMemory => Error::SqliteFailure(ErrorCode::OutOfMemory),
        _ => cannot_open(),
    }
}

/// What tells a file from every other one as long as it is there.
#[derive(Clone, Copy, Debug, PartialEq, Eq)]
struct FileId {
    device: u64,
    inode: u64,
}

/// Which file stands at a path, or where a link there leads; `None` where none does.
fn file_at(rt: &HostRuntime, path: &str) -> Result<Option<FileId>, Error> {
    match fs::metadata(rt, path) {
        Ok(found) => Ok(Some(FileId {
            device: found.dev(),
            inode: found.ino(),
        })),
        Err(error) if error.kind() == ErrorKind::NotFound => Ok(None),
        Err(error) => Err(error_of(error)),
    }
}

/// Whether no name stands at a path, not even a link that leads to nothing.
fn is_free(rt: &HostRuntime, path: &str) -> Result<bool, Error> {
    match fs::symlink_metadata(rt, path) {
        Ok(_) => Ok(false),
        Err(error) if error.kind() == ErrorKind::NotFound => Ok(true),
        Err(error) => Err(error_of(error)),
    }
}

/// The path of the log of the file at a path, beside where a link there leads.
fn log_beside(rt: &HostRuntime, path: &str) -> io::Result<Text> {
    let real = fs::canonicalize(rt, path)?;
    let log = format!(in rt.alloc(); "{}-wal", real.as_str())?;
    Ok(Text::of(log))
}

/// Whether a log stands beside the file at a path.
fn has_log(rt: &HostRuntime, path: &str) -> Result<bool, Error> {
    match log_beside(rt, path) {
        Ok(log) => Ok(file_at(rt, log.as_str())?.is_some()),
        Err(error) => Err(error_of(error)),
    }
}

/// Whether a database may be in the file at a path: `false` where nothing stands there or a file of no bytes. A link
/// that leads to nothing is refused, and so is a file of one byte, unless a log stands beside it: that is what a first
/// append leaves that was ended at once, and no database yet.
pub fn looks_begun(rt: &HostRuntime, path: &str) -> Result<bool, Error> {
    let found = match fs::metadata(rt, path) {
        Ok(found) => found,
        Err(error) if error.kind() == ErrorKind::NotFound => {
            return if is_free(rt, path)? {
                Ok(false)
            } else {
                Err(cannot_open())
            };
        }
        Err(error) => return Err(error_of(error)),
    };
    match found.len() {
        0 if found.is_file() => Ok(false),
        1 if found.is_file() && has_log(rt, path)? => Ok(false),
        1 if found.is_file() => Err(cannot_open()),
        _ => Ok(true),
    }
}

/// A log of fewer bytes than this has no page, so that nothing is lost with it.
const SHORT_LOG: u64 = 512;

/// The paths of a file and of its log, and which files stood there when the paths were noted.
#[derive(Drop)]
pub struct Paths {
    path: Text,
    log: Text,
    file_id: Option<FileId>,
    log_id: Option<FileId>,
}

impl Paths {
    /// Notes what stands at the path of a file, and as its log.
    pub fn of(rt: &HostRuntime, path: &str) -> Result<Paths, Error> {
        let log = log_beside(rt, path).map_err(error_of)?;
        let file_id = file_at(rt, path)?;
        let log_id = file_at(rt, log.as_str())?;
        let path = Text::of(String::from_str(rt.alloc(), path)?);
        Ok(Paths {
            path,
            log,
            file_id,
            log_id,
        })
    }

    /// Whether the file and its log stand there still.
    pub fn are_as_noted(&self, rt: &HostRuntime) -> Result<bool, Error> {
        let file_id = file_at(rt, self.path.as_str())?;
        let log_id = file_at(rt, self.log.as_str())?;
        Ok(
            file_id.is_some()
                && log_id.is_some()
                && file_id == self.file_id
                && log_id == self.log_id,
        )
    }

    /// Removes the log where it has no page, if it is the one that was noted.
    pub fn remove_log(&self, rt: &HostRuntime) -> Result<(), Error> {
        if file_at(rt, self.log.as_str())? != self.log_id {
            return Ok(());
        }
        self.remove_short_log(rt).map_err(error_of)
    }

    /// Removes what stands as the log, where it has no page.
    fn remove_short_log(&self, rt: &HostRuntime) -> io::Result<()> {
        if fs::metadata(rt, self.log.as_str())?.len() < SHORT_LOG {
            fs::remove_file(rt, self.log.as_str())?;
        }
        Ok(())
    }
}
