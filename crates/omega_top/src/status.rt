//! What the program says of how a run ended.
ghost use Rattle.std.specs.Prelude.{◌≡◌, ◌+◌, ◌≤◌, ◌++◌, [], codes, decimal, length};
ghost use Rattle.omega_top.specs.Faults.{cause_text, exit_status, fault_text, kind_name, table_name};

use arrayvec::ArrayString;
use omega_model::{Cause, Kind, Status, Table};
use std::marker::Model;

/// A text of at most 96 bytes, which takes no memory beside itself. A contract sees its bytes.
#[derive(Drop)]
pub struct Line {
    text: ArrayString<96>,
}

impl Model for Line {
    ghost use Rattle.std.specs.Prelude.{List, ℕ};

    ghost Value = { List ℕ };

    ghost view = { λ l. l.text.bytes };
}

impl Line {
    fn new() -> Line
        ensures { result ≡ [] }
    {
        Line {
            text: ArrayString::new(),
        }
    }

    /// The bytes of the text.
    pub fn as_bytes(&self) -> &[u8]
        ensures { result.now ≡ self.now }
    {
        self.text.as_str().as_bytes()
    }

    /// The text itself.
    pub fn as_str(&self) -> &str
        ensures { result.now ≡ self.now }
    {
        self.text.as_str()
    }

    fn with(self, text: &str) -> Line
        requires { length self + length text.now ≤ 96 }
        ensures line { result ≡ self ++ text.now }
        ensures len { length result ≡ length self + length text.now }
    {
        let mut line = self;
        line.text.push_str(text);
        line
    }

    fn with_number(self, number: u64) -> Line
        requires { length self ≤ 76 }
        ensures line { result ≡ self ++ decimal number }
        ensures len { length result ≤ length self + 20 }
    {
        let mut line = self;
        let mut buffer = itoa::Buffer::new();
        line.text.push_str(buffer.format(number));
        line
    }

    fn with_column(self, column: u32) -> Line
        requires { length self ≤ 86 }
        ensures line { result ≡ self ++ decimal column }
        ensures len { length result ≤ length self + 10 }
    {
        let mut line = self;
        let mut buffer = itoa::Buffer::new();
        line.text.push_str(buffer.format(column));
        line
    }
}

/// What is printed of a status, without a line feed: nothing for `Done`.
pub fn fault_line(status: &Status) -> Line
    ensures { result ≡ fault_text status.now }
{
    let line = Line::new();
    match *status {
        Status::Done => line,
        Status::Usage => line.with("omega: the words are refused"),
        Status::ReadFault(table) => line.with("omega: cannot read ").with(table_name(table)),
        Status::TooLong(table) => line
            .with("omega: ")
            .with(table_name(table))
            .with(" is longer than 268435456 bytes"),
        Status::BadRow {
            table,
            row,
            column,
            cause,
        } => with_cause(with_row(line, table, row), column, cause),
        Status::TooMany(kind, number) => line
            .with("omega: too many ")
            .with(kind_name(kind))
            .with(": ")
            .with_number(number),
        Status::BadKept(number) => line
            .with("omega: kept line ")
            .with_number(number)
            .with(" is refused"),
        Status::KeepFault => line.with("omega: cannot keep"),
        Status::WriteFault => line.with("omega: cannot write"),
        Status::NoMemory => line.with("omega: no memory"),
    }
}

/// An empty line, and then the place of a row.
fn with_row(line: Line, table: Table, row: u64) -> Line
    requires { length line ≡ 0 }
    ensures line { result ≡ line ++ codes "omega: " ++ table_name table ++ codes " row " ++ decimal row }
    ensures len { length result ≤ 50 }
{
    line.with("omega: ")
        .with(table_name(table))
        .with(" row ")
        .with_number(row)
}

/// A line, and then why a row is bad.
fn with_cause(line: Line, column: u32, cause: Cause) -> Line
    requires { length line ≤ 50 }
    ensures { result ≡ line ++ cause_text column cause }
{
    match cause {
        Cause::Fields(found) => line.with(": ").with_number(found).with(" fields"),
        Cause::Number => with_reason(line, column, ": not a whole number"),
        Cause::Range => with_reason(line, column, ": out of range"),
        Cause::Quantity => with_reason(line, column, ": not a quantity"),
    }
}

/// A line, and then a column and what is wrong there.
fn with_reason(line: Line, column: u32, reason: &str) -> Line
    requires line { length line ≤ 50 }
    requires reason { length reason.now ≤ 20 }
    ensures { result ≡ line ++ codes " column " ++ decimal column ++ reason.now }
{
    line.with(" column ").with_column(column).with(reason)
}

/// The name of a table.
fn table_name(table: Table) -> &'static str
    ensures name { result.now ≡ table_name table }
    ensures len { length result.now ≤ 18 }
{
    match table {
        Table::MachineEvents => "machine_events",
        Table::MachineAttributes => "machine_attributes",
        Table::TaskEvents => "task_events",
        Table::TaskConstraints => "task_constraints",
        Table::MapreduceJobs => "mapreduce_jobs",
        Table::MachineDisk => "machine_disk",
    }
}

/// The words for what there is too much of.
fn kind_name(kind: Kind) -> &'static str
    ensures name { result.now ≡ kind_name kind }
    ensures len { length result.now ≤ 8 }
{
    match kind {
        Kind::Rows => "rows",
        Kind::Machines => "machines",
    }
}

/// The number with which the program ends: 0 after `Done`, 2 where the words are refused, 3 where a table is
/// refused or can't be read, 4 where writing failed, 5 where memory ran out, 6 where a kept line is refused,
/// 7 where the keeper failed.
pub fn exit_status(status: &Status) -> u8
    ensures { result ≡ exit_status status.now }
{
    match status {
        Status::Done => 0,
        Status::Usage => 2,
        Status::ReadFault(_) | Status::TooLong(_) | Status::BadRow { .. } | Status::TooMany(..) =>
            3,
        Status::BadKept(_) => 6,
        Status::KeepFault => 7,
        Status::WriteFault => 4,
        Status::NoMemory => 5,
    }
}
