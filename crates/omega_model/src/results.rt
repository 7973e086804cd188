//! What the program answers.
use crate::rows::Table;

/// Why a row is refused.
#[derive(Clone, Copy, Debug, PartialEq, Eq)]
pub enum Cause {
    /// The row has this number of fields, which isn't that of its table.
    Fields(u64),
    /// The column isn't a whole number below 2^64, of at most 32 digits.
    Number,
    /// The column is a whole number above the greatest that it may be.
    Range,
    /// The column isn't a quantity, or is one above 1000 or of more than 32 bytes.
    Quantity,
}

/// Of what there is too much: of the rows of all tables together, or of different machines.
#[derive(Clone, Copy, Debug, PartialEq, Eq)]
pub enum Kind {
    Rows,
    Machines,
}

/// How a run ended.
#[derive(Clone, Copy, Debug, PartialEq, Eq)]
pub enum Status {
    /// All was read, done and written.
    Done,
    /// The words are refused.
    Usage,
    /// This table can't be read.
    ReadFault(Table),
    /// This table has more bytes than a table may have.
    TooLong(Table),
    /// This is the first bad row, and its first bad column. Rows count from 1, columns from 1; column 0
    /// stands for the number of fields.
    BadRow {
        table: Table,
        row: u64,
        column: u32,
        cause: Cause,
    },
    /// There are this many, more than the limit: `MOST_ROWS` or `MOST_MACHINES`.
    TooMany(Kind, u64),
    /// The kept line of this number, counted from 0, isn't that of the run, or isn't the line of an
    /// entry that could come there.
    BadKept(u64),
    /// What is to be kept can't be loaded or appended to.
    KeepFault,
    /// The report can't be written.
    WriteFault,
    /// Memory ran out.
    NoMemory,
}
