//! Kept lines: the calls of `omega_keep`, but for those of keepers.
use omega_calls::{Fault, text};
use omega_keep::{AuditRefusal, Lines, audit, entry_line, read_entry};
use omega_model::{Bytes, Copied, Need};
use std::alloc::Global;

/// `read LINE`: the entry of a line, or `none`. `write LINE`: the line of that entry. `audit LINE ..`:
/// how many entries the history of these lines has, and how much is in use after them, or the place of the
/// first line that is refused.
pub(crate) fn answer(alloc: Global, call: &str, words: &[Bytes]) -> Result<String, Fault> {
    match (call, words) {
        ("read", [line]) => read(alloc, line),
        ("write", [line]) => write(alloc, line),
        ("audit", lines) => audited(alloc, &listed(alloc, lines)?),
        _ => Err(Fault::UnknownCall),
    }
}

/// The entry of a line.
fn read(alloc: Global, line: &Bytes) -> Result<String, Fault> {
    match read_entry(alloc, line.as_slice())? {
        Some(entry) => Ok(format!(in alloc; "{entry:?}")?),
        None => Ok(format!(in alloc; "none")?),
    }
}

/// The line of the entry of a line.
fn write(alloc: Global, line: &Bytes) -> Result<String, Fault> {
    match read_entry(alloc, line.as_slice())? {
        Some(entry) => line_text(alloc, &entry_line(alloc, &entry)?),
        None => Ok(format!(in alloc; "none")?),
    }
}

/// A line as text.
fn line_text(alloc: Global, line: &Bytes) -> Result<String, Fault> {
    let line = text(line)?;
    Ok(format!(in alloc; "{line}")?)
}

/// Some lines as a list of their own.
fn listed(alloc: Global, lines: &[Bytes]) -> Result<Lines, Fault> {
    let mut list = Lines::new(alloc);
    for line in lines {
        list.push(line.copy(alloc)?)?;
    }
    Ok(list)
}

/// What an audit of lines answers.
fn audited(alloc: Global, lines: &Lines) -> Result<String, Fault> {
    match audit(alloc, lines) {
        Ok(cell) => {
            let entries = cell.history().len();
            let Need { cpu, mem, disk } = cell.board().machines().used();
            Ok(format!(in alloc; "{entries} entries used {cpu} {mem} {disk}")?)
        }
        Err(AuditRefusal::BadKept(place)) => Ok(format!(in alloc; "bad {place}")?),
        Err(AuditRefusal::NoMemory) => Err(Fault::NoMemory),
    }
}
