//! A history that is kept outside the program, a line for each entry.
//!
//! Promised: `entry_line` answers exactly the line of an entry, whose numbers it finds in range; `read_entry`
//! the entry of a line exactly where it is the line of one. Two laws over the definitions alone: no two entries
//! have one line (`one_line_each`), and lines of a history each of whose entries is possible have none that is
//! refused (`audited_lines_are_not_refused`). A keeper's `load` answers its whole list, `append` puts all lines
//! at the end or none, and each answers `Failed` only where its count of faults rose. `audit` answers the cell
//! whose history is the entries of the lines, each possible on those before it, or names the first line that is
//! no entry's or whose entry isn't possible.
//!
//! Lines are written and read exactly: an entry has one line, no two entries have the same, and what
//! isn't the line of an entry is refused. A keeper holds such lines: anything that hands out a list and
//! takes more lines at its end; there are two in memory.
#![tactic(auto)]

mod auditing;
mod keeper;
mod laws;
mod lines;
mod listed;
mod memory;
mod possible;
mod read_stop;
mod reading;
mod steady;
mod stop;
mod taking;
mod touches;
mod words;
mod writing;

pub use auditing::{AuditRefusal, audit};
pub use keeper::{KeepRefusal, Keeper, Lines};
pub use laws::{audited_lines_are_not_refused, one_line_each};
pub use lines::read_entry;
pub use memory::MemoryKeeper;
pub use steady::SteadyKeeper;
pub use writing::entry_line;
