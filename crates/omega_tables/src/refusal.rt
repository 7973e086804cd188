//! Why the tables aren't read.
use omega_model::{Cause, Kind, NoMemory, Status, Table};
use std::alloc::{AllocError, AllocFailed};

/// Why the tables aren't read.
#[derive(Clone, Copy, Debug, PartialEq, Eq)]
pub enum ReadRefusal {
    /// A read of the table failed.
    Fault(Table),
    /// The table has more bytes than `LONGEST_TABLE`.
    TooLong(Table),
    /// Rows and columns count from 1. Column 0 says that the row has a wrong number of fields.
    BadRow {
        table: Table,
        row: u64,
        column: u32,
        cause: Cause,
    },
    /// There are so many rows, or different machines: more than the limit.
    TooMany(Kind, u64),
    NoMemory,
}

impl From<NoMemory> for ReadRefusal {
    ghost use Rattle.std.specs.Prelude.{◌≡◌};
    ghost use Rattle.omega_tables.specs.declared.refusal.ReadRefusal.TheVariants as refusal;

    ghost from_gives = { λ _ e. e ≡ refusal.NoMemory };

    fn from(_error: NoMemory) -> ReadRefusal {
        ReadRefusal::NoMemory
    }
}

impl From<AllocError> for ReadRefusal {
    ghost use Rattle.std.specs.Prelude.{◌≡◌};
    ghost use Rattle.omega_tables.specs.declared.refusal.ReadRefusal.TheVariants as refusal;

    ghost from_gives = { λ _ e. e ≡ refusal.NoMemory };

    fn from(_error: AllocError) -> ReadRefusal {
        ReadRefusal::NoMemory
    }
}

impl<T: Drop> From<AllocFailed<T>> for ReadRefusal {
    ghost use Rattle.std.specs.Prelude.{◌≡◌};
    ghost use Rattle.omega_tables.specs.declared.refusal.ReadRefusal.TheVariants as refusal;

    ghost from_gives = { λ _ e. e ≡ refusal.NoMemory };

    fn from(_error: AllocFailed<T>) -> ReadRefusal {
        ReadRefusal::NoMemory
    }
}

impl From<ReadRefusal> for Status {
    ghost use Rattle.std.specs.Prelude.{◌≡◌};
    ghost use Rattle.omega_tables.specs.Reading.{status_of};

    ghost from_gives = { λ refusal status. status ≡ status_of refusal };

    fn from(refusal: ReadRefusal) -> Status {
        match refusal {
            ReadRefusal::Fault(table) => Status::ReadFault(table),
            ReadRefusal::TooLong(table) => Status::TooLong(table),
            ReadRefusal::BadRow {
                table,
                row,
                column,
                cause,
            } => Status::BadRow {
                table,
                row,
                column,
                cause,
            },
            ReadRefusal::TooMany(kind, number) => Status::TooMany(kind, number),
            ReadRefusal::NoMemory => Status::NoMemory,
        }
    }
}
