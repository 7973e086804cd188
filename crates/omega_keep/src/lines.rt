//! The entry of a line.
ghost use Rattle.std.specs.Prelude.{◌≡◌, Some, IfOk, IfSome};
ghost use Rattle.omega_model.specs.declared.entries.Entry.{Entry};
ghost use Rattle.omega_keep.specs.KeptLines.{entry_text, IsAnswered, IsInRange, IsLineOf};

use crate::read_stop::ReadStop;
use crate::reading::entry_at;
use crate::writing::entry_line;
use omega_model::{Entry, NoMemory};
use std::alloc::Global;

/// The entry whose line this is, a commit's reply as long as its claims; `None` exactly where it is
/// the line of no such entry.
///
/// The entry that the words say is written again and compared with the line, so that no other spelling
/// passes. Costs the length of the line: no memory is taken by a count that stands in it.
pub fn read_entry(alloc: Global, line: &[u8]) -> Result<Option<Entry>, NoMemory>
    ensures found { IfOk result (λ read. IfSome read (IsLineOf line.now)) }
    ensures only { IfOk result (λ read. (entry : Entry) → IsInRange entry → IsAnswered entry → line.now ≡ entry_text entry → read ≡ Some entry) }
{
    let entry = match entry_at(alloc, line) {
        Ok(entry) => entry,
        Err(ReadStop::NoLine) => return Ok(None),
        Err(ReadStop::OutOfMemory) => return Err(NoMemory),
    };
    let again = entry_line(alloc, &entry)?;
    if again.as_slice() == line {
        Ok(Some(entry))
    } else {
        Ok(None)
    }
}
