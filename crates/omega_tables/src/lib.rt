//! The reading of the six tables of a trace.
//!
//! Promised: `read_bytes` answers the whole rest of a table, or the cause why not; `parse_table` the typed rows
//! of the bytes, or the first bad row with its first bad column and the cause; `over_limit` the number that
//! passes a limit; `read_tables` the trace of six tables, or what comes first, and it leaves the tables behind
//! a refused one as they were.
//!
//! Each table is read to its end and cut into records, and each record becomes a typed row. The
//! first bad row is named with its first bad column. Then the limits over all tables are checked.
#![tactic(auto)]

mod columns;
mod gathered;
mod limits;
mod long;
mod parsing;
mod pieces;
mod reading;
mod refusal;
mod taken;

pub use limits::over_limit;
pub use parsing::parse_table;
pub use reading::{read_bytes, read_tables};
pub use refusal::ReadRefusal;
