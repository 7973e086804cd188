//! Records of a table, and their typed rows.
ghost use Rattle.std.specs.Prelude.{◌≡◌, ◌≤◌, ◌++◌, ◌∷◌, [], true, ℕ, List, Result, Ok, IfOk, OnOk, IfErr, OnErr, Some, None};
ghost use Rattle.std.specs.Thread.{IsSync};
ghost use Rattle.csv.specs.Records.{fields_of};
ghost use Rattle.omega_model.specs.Columns.{BadColumn};
ghost use Rattle.omega_model.specs.Rows.{rows_in, rows_or_none};
ghost use Rattle.omega_model.specs.Trace.{with_rows};
ghost use Rattle.omega_model.specs.Refusals.{bad_row, row_refusal};
ghost use Rattle.omega_tables.specs.Reading.{Stands};
ghost use Rattle.omega_tables.specs.Taking.{count_of, table_count, Takes};

use crate::columns::{
    BadColumn, activity_row, attr_row, constraint_row, disk_row, machine_row, task_row,
};
use crate::pieces::read_text;
use crate::refusal::ReadRefusal;
use crate::taken::Taken;
use csv::{ByteRecord, ReaderBuilder};
use omega_model::{
    ActivityRow, AttrRow, ConstraintRow, DiskRow, MachineRow, NoMemory, Seq, Table, TaskRow,
    TraceTables,
};
use std::alloc::Global;
use std::mem;
use std::thread::Threads;

/// A typed row, read from the fields of a record.
pub(crate) trait FromRecord: Sized {
    ghost use Rattle.std.specs.Prelude.{◌≡◌, ◌≢◌, ℕ, List, length, Result, Err, IfOk};
    ghost use Rattle.csv.specs.Records.{fields_of};
    ghost use Rattle.omega_model.specs.Columns.{BadColumn};
    ghost use Rattle.omega_model.specs.declared.results.Cause.TheVariants.{Fields};

    ghost row_of: { List (List ℕ) → Result Self BadColumn };

    /// How many fields a record must have. One with another number is bad, whatever stands in them.
    fn columns() -> u64
        ensures { (fields : List (List ℕ)) → length fields ≢ result → row_of fields ≡ Err (0, Fields (length fields)) };

    /// The row, or the first bad column of the record.
    fn from_record(alloc: Global, fields: &ByteRecord) -> Result<Result<Self, BadColumn>, NoMemory>
        ensures { IfOk result (λ row. row ≡ row_of (fields_of fields.now)) };
}

impl FromRecord for MachineRow {
    ghost use Rattle.omega_model.specs.Columns.{machine_row};

    ghost row_of = { machine_row };

    #[tactic(auto, using(crate::proofs::LongLines::other_fields))]
    fn columns() -> u64 {
        6
    }

    fn from_record(
        _alloc: Global,
        fields: &ByteRecord,
    ) -> Result<Result<MachineRow, BadColumn>, NoMemory> {
        Ok(machine_row(fields))
    }
}

impl FromRecord for AttrRow {
    ghost use Rattle.omega_model.specs.Columns.{attr_row};

    ghost row_of = { attr_row };

    #[tactic(auto, using(crate::proofs::LongLines::other_fields))]
    fn columns() -> u64 {
        5
    }

    fn from_record(
        alloc: Global,
        fields: &ByteRecord,
    ) -> Result<Result<AttrRow, BadColumn>, NoMemory> {
        attr_row(alloc, fields)
    }
}

impl FromRecord for TaskRow {
    ghost use Rattle.omega_model.specs.Columns.{task_row};

    ghost row_of = { task_row };

    #[tactic(auto, using(crate::proofs::LongLines::other_fields))]
    fn columns() -> u64 {
        13
    }

    fn from_record(
        _alloc: Global,
        fields: &ByteRecord,
    ) -> Result<Result<TaskRow, BadColumn>, NoMemory> {
        Ok(task_row(fields))
    }
}

impl FromRecord for ConstraintRow {
    ghost use Rattle.omega_model.specs.Columns.{constraint_row};

    ghost row_of = { constraint_row };

    #[tactic(auto, using(crate::proofs::LongLines::other_fields))]
    fn columns() -> u64 {
        6
    }

    fn from_record(
        alloc: Global,
        fields: &ByteRecord,
    ) -> Result<Result<ConstraintRow, BadColumn>, NoMemory> {
        constraint_row(alloc, fields)
    }
}

impl FromRecord for ActivityRow {
    ghost use Rattle.omega_model.specs.Columns.{activity_row};

    ghost row_of = { activity_row };

    #[tactic(auto, using(crate::proofs::LongLines::other_fields))]
    fn columns() -> u64 {
        2
    }

    fn from_record(
        _alloc: Global,
        fields: &ByteRecord,
    ) -> Result<Result<ActivityRow, BadColumn>, NoMemory> {
        Ok(activity_row(fields))
    }
}

impl FromRecord for DiskRow {
    ghost use Rattle.omega_model.specs.Columns.{disk_row};

    ghost row_of = { disk_row };

    #[tactic(auto, using(crate::proofs::LongLines::other_fields))]
    fn columns() -> u64 {
        2
    }

    fn from_record(
        _alloc: Global,
        fields: &ByteRecord,
    ) -> Result<Result<DiskRow, BadColumn>, NoMemory> {
        Ok(disk_row(fields))
    }
}

/// Holds one more row where there is room for it, and else lets go of all.
fn hold<R: Drop>(alloc: Global, rows: &mut Vec<R>, row: R, room: bool) -> Result<(), NoMemory>
    ensures { OnOk result (room ≡ true → rows.new.items ≡ rows.old.items ++ row ∷ []) }
{
    if room {
        rows.push(row)?;
    } else {
        *rows = Vec::new(alloc);
    }
    Ok(())
}

/// What is taken of so many rows, which are held where there are no more than `most`.
fn held<R: Drop>(rows: Vec<R>, number: u64, most: u64) -> Taken<R>
    ensures { (answer : Result (List R) (ℕ × BadColumn)) → (number ≤ most → answer ≡ Ok rows.items) → count_of answer ≡ Some number
        → Takes most answer result }
{
    if number <= most {
        return Taken::All(rows);
    }
    Taken::Number(number)
}

/// The rows of a table's text, or the first bad record. Holds one record at a time, and no rows once there are more
/// than `most`: those that follow are only counted and looked through for a bad one.
pub(crate) fn read_rows<R: FromRecord + Drop>(
    alloc: Global,
    table: Table,
    text: &[u8],
    most: u64,
) -> Result<Taken<R>, ReadRefusal>
    ensures rows { IfOk result (Takes most (rows_in R.row_of text.now)) }
    ensures refusal { IfErr result (λ refusal. Stands (bad_row table (rows_in R.row_of text.now)) refusal) }
{
    let mut reader = ReaderBuilder::new()
        .has_headers(false)
        .flexible(true)
        .from_reader(alloc, text);
    let mut fields = ByteRecord::new(alloc);
    let mut rows = Vec::new(alloc);
    for number in 0..u64::MAX {
        match reader.read_byte_record(&mut fields) {
            Ok(true) => match R::from_record(alloc, &fields)? {
                Ok(row) => hold(alloc, &mut rows, row, number < most)?,
                Err((column, cause)) => {
                    return Err(ReadRefusal::BadRow {
                        table,
                        row: number + 1,
                        column,
                        cause,
                    });
                }
            },
            Ok(false) => return Ok(held(rows, number, most)),
            Err(_) => return Err(ReadRefusal::NoMemory),
        }
    }
    Err(ReadRefusal::NoMemory)
}

/// Appends rows to a list. An empty list takes them over without a copy.
fn append<R: Drop>(alloc: Global, mut rows: Vec<R>, into: &mut Seq<R>) -> Result<(), NoMemory>
    ensures rows { OnOk result (into.new ≡ into.old ++ rows.items) }
    ensures stays { OnErr result (into.new ≡ into.old) }
{
    if into.is_empty() {
        *into = Seq::of(rows);
        return Ok(());
    }
    let mut items = mem::replace(into, Seq::new(alloc)).into_items();
    let appended = items.append(&mut rows);
    *into = Seq::of(items);
    appended?;
    Ok(())
}

/// Appends the rows of a table's text to a list, where there are at most `most`, and says how many there are.
fn append_rows<P: Threads + Sync, R: FromRecord + Drop + Send>(
    rt: &P,
    alloc: Global,
    table: Table,
    text: &[u8],
    most: u64,
    into: &mut Seq<R>,
) -> Result<u64, ReadRefusal>
    requires sync { IsSync P.row }
    ensures number { IfOk result (λ number. count_of (rows_in R.row_of text.now) ≡ Some number) }
    ensures rows { IfOk result (λ number. number ≤ most → into.new ≡ into.old ++ rows_or_none (rows_in R.row_of text.now)) }
    ensures none { OnOk result (bad_row table (rows_in R.row_of text.now) ≡ None) }
    ensures refusal { IfErr result (λ refusal. Stands (bad_row table (rows_in R.row_of text.now)) refusal) }
    ensures stays { OnErr result (into.new ≡ into.old) }
{
    match read_text(rt, alloc, table, text, most)? {
        Taken::All(rows) => {
            let number = rows.len() as u64;
            append(alloc, rows, into)?;
            Ok(number)
        }
        Taken::Number(number) => Ok(number),
    }
}

/// Appends the rows of a table's text, as `parse_table` does, where there are at most `most`, and says how many
/// there are. Where there are more `into` stays as it is, and of the rows that are too many none is held.
pub(crate) fn append_table<P: Threads + Sync>(
    rt: &P,
    alloc: Global,
    table: Table,
    text: &[u8],
    most: u64,
    into: &mut TraceTables,
) -> Result<u64, ReadRefusal>
    requires sync { IsSync P.row }
    ensures number { IfOk result (λ number. table_count table text.now ≡ Some number) }
    ensures rows { IfOk result (λ number. number ≤ most → into.new ≡ with_rows table text.now into.old) }
    ensures none { OnOk result (row_refusal table text.now ≡ None) }
    ensures refusal { IfErr result (λ refusal. Stands (row_refusal table text.now) refusal) }
    ensures stays { OnErr result (into.new ≡ into.old) }
{
    match table {
        Table::MachineEvents => append_rows(rt, alloc, table, text, most, &mut into.machines),
        Table::MachineAttributes => append_rows(rt, alloc, table, text, most, &mut into.attrs),
        Table::TaskEvents => append_rows(rt, alloc, table, text, most, &mut into.tasks),
        Table::TaskConstraints => append_rows(rt, alloc, table, text, most, &mut into.constraints),
        Table::MapreduceJobs => append_rows(rt, alloc, table, text, most, &mut into.activities),
        Table::MachineDisk => append_rows(rt, alloc, table, text, most, &mut into.disks),
    }
}

/// Appends the rows of a table's text, in their order. Where there is a bad row, the answer is
/// `BadRow` or `NoMemory`; `BadRow` comes nowhere else. It has the number of the first such row, from
/// 1, its first bad column and what is wrong with it. The number of fields is judged before all
/// columns. After any refusal `into` is as before. Takes time linear in the text and in the list that
/// grows.
///
/// A text of 128 KiB or more is read in pieces at the same time, at most as many as there are processors, and
/// eight; one with a quote in its first half in one piece. A bad row in one piece doesn't stop the others. While two
/// pieces are joined the rows of the second one are held twice, and those of the first one too where their list
/// has to move. The call waits only for the threads that it has begun.
pub fn parse_table<P: Threads + Sync>(
    rt: &P,
    alloc: Global,
    table: Table,
    text: &[u8],
    into: &mut TraceTables,
) -> Result<(), ReadRefusal>
    requires sync { IsSync P.row }
    ensures rows { OnOk result (into.new ≡ with_rows table text.now into.old) }
    ensures none { OnOk result (row_refusal table text.now ≡ None) }
    ensures refusal { IfErr result (λ refusal. Stands (row_refusal table text.now) refusal) }
    ensures stays { OnErr result (into.new ≡ into.old) }
{
    append_table(rt, alloc, table, text, u64::MAX, into)?;
    Ok(())
}
