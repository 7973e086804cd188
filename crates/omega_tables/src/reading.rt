//! The reading of whole tables.
ghost use Rattle.std.specs.Prelude.{◌≡◌, ◌≢◌, ◌≤◌, ℕ, List, [], length, Some, None, IfOk, OnOk, OnErr, IfErr, IfSome};
ghost use Rattle.std.specs.Thread.{IsSync};
ghost use Rattle.omega_io.specs.Edge.{Tells};
ghost use Rattle.omega_model.specs.Trace.{trace_of, with_rows};
ghost use Rattle.omega_model.specs.Limits.{IsWithinLimits};
ghost use Rattle.omega_model.specs.Refusals.{first_refusal, longest_table, table_refusal};
ghost use Rattle.omega_model.specs.declared.rows.Table.{Table};
ghost use Rattle.omega_model.specs.declared.rows.TraceTables.{TraceTables};
ghost use Rattle.omega_tables.specs.Reading.{StopsReading, StopsAt, Names, StoppedIn, ComesFirst, HasCause};
ghost use Rattle.omega_tables.specs.Taking.{Gathers};

use crate::gathered::{Gathered, check_gathered, gather, nothing};
use crate::refusal::ReadRefusal;
use omega_io::Tables;
use omega_model::{Bytes, LONGEST_TABLE, Seq, Table, TraceTables};
use std::alloc::Global;
use std::thread::Threads;

/// The order in which the tables are read.
const IN_ORDER: [Table; 6] = [
    Table::MachineEvents,
    Table::MachineAttributes,
    Table::TaskEvents,
    Table::TaskConstraints,
    Table::MapreduceJobs,
    Table::MachineDisk,
];

/// The whole rest of a table. `Fault` comes only where that table's count of faults rose, or can rise
/// no further. Where the rest has more than `LONGEST_TABLE` bytes, the answer is `TooLong`, `Fault` or
/// `NoMemory`; `TooLong` comes nowhere else. After any refusal the bytes taken are gone. The other
/// tables stay as they are.
pub fn read_bytes<T: Tables>(
    alloc: Global,
    tables: &mut T,
    table: Table,
) -> Result<Bytes, ReadRefusal>
    ensures whole { IfOk result (λ bytes. IfSome (T.rest tables.old table) (λ left. (bytes ≡ left) × (T.rest tables.new table ≡ Some []))) }
    ensures most { IfOk result (λ bytes. length bytes ≤ longest_table) }
    ensures refusal { IfErr result (λ refusal. StopsReading table (T.rest tables.old table) (T.faults tables.old table) (T.faults tables.new table) refusal) }
    ensures later { T.faults tables.old table ≤ T.faults tables.new table }
    ensures other_rests { (t : Table) → t ≢ table → T.rest tables.new t ≡ T.rest tables.old t }
    ensures other_counts { (t : Table) → t ≢ table → T.faults tables.new t ≡ T.faults tables.old t }
    ensures folder { T.entered tables.new ≡ T.entered tables.old }
{
    let mut bytes = Vec::new(alloc);
    let mut piece = [0u8; 8192];
    while bytes.len() <= LONGEST_TABLE {
        let Ok(count) = tables.read(table, &mut piece) else {
            return Err(ReadRefusal::Fault(table));
        };
        if count == 0 {
            return Ok(Seq::of(bytes));
        }
        bytes.extend_from_slice(&piece[..count])?;
    }
    Err(ReadRefusal::TooLong(table))
}

/// Reads one table to its end and appends its rows.
fn read_table<P: Threads + Sync, T: Tables>(
    rt: &P,
    alloc: Global,
    tables: &mut T,
    table: Table,
    into: &mut Gathered,
) -> Result<(), ReadRefusal>
    requires sync { IsSync P.row }
    ensures rows { (trace : TraceTables) → Gathers into.old trace
        → OnOk result (IfSome (T.rest tables.old table) (λ bytes. Gathers into.new (with_rows table bytes trace))) }
    ensures none { OnOk result (IfSome (T.rest tables.old table) (λ bytes. table_refusal table bytes ≡ None)) }
    ensures to_end { OnOk result (IfSome (T.rest tables.old table) (λ bytes. T.rest tables.new table ≡ Some [])) }
    ensures refusal { IfErr result (λ refusal. IfSome (T.rest tables.old table) (λ bytes. StopsAt table bytes refusal)) }
    ensures names { IfErr result (Names table) }
    ensures cause { IfErr result (λ refusal. HasCause (T.faults tables.old) (T.faults tables.new) refusal) }
    ensures later { T.faults tables.old table ≤ T.faults tables.new table }
    ensures other_rests { (t : Table) → t ≢ table → T.rest tables.new t ≡ T.rest tables.old t }
    ensures other_counts { (t : Table) → t ≢ table → T.faults tables.new t ≡ T.faults tables.old t }
    ensures folder { T.entered tables.new ≡ T.entered tables.old }
{
    let bytes = read_bytes(alloc, tables, table)?;
    gather(rt, alloc, table, bytes.as_slice(), into)
}

/// Reads the six tables, each to its end, in the order of `Table`, and makes their rows.
///
/// A refusal is the first one that stands: for each table in order first a read that fails, then
/// its length, then its rows; then the number of rows over all tables, and that of different
/// machines. `Fault` comes only where the count of its table rose, or can rise no further. After
/// any refusal the bytes taken so far are gone: the tables before the one that is refused were read
/// to their end, and those behind it are as they were. Holds the text of one table at a time. Once there are more
/// rows than all tables may have, those that were held are let go, and those that follow are only counted and looked
/// through for a bad one.
///
/// The rows of a long text are made in pieces at the same time, as `parse_table` says. The call waits only
/// for the threads that it has begun.
pub fn read_tables<P: Threads + Sync, T: Tables>(
    rt: &P,
    alloc: Global,
    tables: &mut T,
) -> Result<TraceTables, ReadRefusal>
    requires sync { IsSync P.row }
    ensures trace { (bytes : Table → List ℕ) → Tells (T.rest tables.old) bytes → IfOk result (λ trace. trace ≡ trace_of bytes) }
    ensures none { (bytes : Table → List ℕ) → Tells (T.rest tables.old) bytes → OnOk result (first_refusal bytes ≡ None) }
    ensures within { IfOk result IsWithinLimits }
    ensures to_end { (bytes : Table → List ℕ) → Tells (T.rest tables.old) bytes → OnOk result (Tells (T.rest tables.new) (λ table. [])) }
    ensures refusal { (bytes : Table → List ℕ) → Tells (T.rest tables.old) bytes → IfErr result (λ refusal. ComesFirst bytes refusal) }
    ensures stopped { IfErr result (λ refusal. StoppedIn (T.rest tables.old) (T.rest tables.new) (T.faults tables.old) (T.faults tables.new) refusal) }
    ensures cause { IfErr result (λ refusal. HasCause (T.faults tables.old) (T.faults tables.new) refusal) }
    ensures later { (t : Table) → T.faults tables.old t ≤ T.faults tables.new t }
    ensures folder { T.entered tables.new ≡ T.entered tables.old }
{
    let mut gathered = nothing(alloc);
    for table in IN_ORDER {
        read_table(rt, alloc, tables, table, &mut gathered)?;
    }
    check_gathered(alloc, &gathered)?;
    Ok(gathered.trace)
}
