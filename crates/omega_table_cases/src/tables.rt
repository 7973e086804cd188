//! Tables as text: the calls of `omega_tables`.
ghost use Rattle.std.specs.Thread.{IsSync};

use omega_calls::{Fault, number, text};
use omega_io::SteadyTables;
use omega_model::{Bytes, Copied, Seq, Table, TraceTables};
use omega_tables::{ReadRefusal, over_limit, parse_table, read_bytes, read_tables};
use std::alloc::Global;
use std::thread::Threads;

/// `parse TABLE TEXT ..`: the refusals of the texts, each parsed behind those before it, and then the
/// rows of the table. `read TEXT ..`: the rows of the tables of these texts, in their order, or the
/// refusal. `bytes TABLE TEXT ..`: the bytes of one of them. `limit TABLE COUNT FRONT BACK TEXT`: the
/// limit that a table of so many lines and a table of attributes exceed, if one is; the lines differ in a
/// number between front and back. `many COUNT FRONT BACK TEXT ..`: how many such lines of machines are read,
/// before the other tables, or the refusal.
pub(crate) fn answer<P: Threads + Sync>(
    rt: &P,
    alloc: Global,
    call: &str,
    words: &[Bytes],
) -> Result<String, Fault>
    requires { IsSync P.row }
{
    match (call, words) {
        ("parse", [table, texts @ ..]) => parsed(rt, alloc, table_of(table)?, texts),
        ("read", _) => read(rt, alloc, words),
        ("bytes", [table, texts @ ..]) => bytes(alloc, table_of(table)?, texts),
        ("limit", [table, count, front, back, attrs]) => {
            let lines = numbered(alloc, number(count)?, text(front)?, text(back)?)?;
            limit(
                rt,
                alloc,
                table_of(table)?,
                lines.as_bytes(),
                attrs.as_slice(),
            )
        }
        ("many", [count, front, back, others @ ..]) => {
            let lines = numbered(alloc, number(count)?, text(front)?, text(back)?)?;
            many(rt, alloc, Seq::of(lines.into_bytes()), others)
        }
        _ => Err(Fault::UnknownCall),
    }
}

/// The table of a word.
fn table_of(word: &Bytes) -> Result<Table, Fault> {
    match text(word)? {
        "machine_events" => Ok(Table::MachineEvents),
        "machine_attributes" => Ok(Table::MachineAttributes),
        "task_events" => Ok(Table::TaskEvents),
        "task_constraints" => Ok(Table::TaskConstraints),
        "mapreduce_jobs" => Ok(Table::MapreduceJobs),
        "machine_disk" => Ok(Table::MachineDisk),
        _ => Err(Fault::UnknownCall),
    }
}

/// The refusals of texts of one table, and the rows.
fn parsed<P: Threads + Sync>(
    rt: &P,
    alloc: Global,
    table: Table,
    texts: &[Bytes],
) -> Result<String, Fault>
    requires { IsSync P.row }
{
    let mut trace = TraceTables::new(alloc);
    let refusals = refusals_of(rt, alloc, table, texts, &mut trace);
    let rows = rows_of(alloc, table, &trace);
    joined(refusals, rows)
}

/// The refusals of texts of one table, each parsed behind those before it.
fn refusals_of<P: Threads + Sync>(
    rt: &P,
    alloc: Global,
    table: Table,
    texts: &[Bytes],
    trace: &mut TraceTables,
) -> Result<String, Fault>
    requires { IsSync P.row }
{
    let mut refusals = String::new(alloc);
    for text in texts {
        if let Err(refusal) = parse_table(rt, alloc, table, text.as_slice(), trace) {
            write!(refusals, "{refusal:?} ")?;
        }
    }
    Ok(refusals)
}

/// Two texts one behind the other.
fn joined(front: Result<String, Fault>, back: Result<String, Fault>) -> Result<String, Fault> {
    let mut both = front?;
    both.push_str(back?.as_str())?;
    Ok(both)
}

/// The rows of one table.
fn rows_of(alloc: Global, table: Table, trace: &TraceTables) -> Result<String, Fault> {
    let rows = match table {
        Table::MachineEvents => format!(in alloc; "{:?}", trace.machines.as_slice()),
        Table::MachineAttributes => format!(in alloc; "{:?}", trace.attrs.as_slice()),
        Table::TaskEvents => format!(in alloc; "{:?}", trace.tasks.as_slice()),
        Table::TaskConstraints => format!(in alloc; "{:?}", trace.constraints.as_slice()),
        Table::MapreduceJobs => format!(in alloc; "{:?}", trace.activities.as_slice()),
        Table::MachineDisk => format!(in alloc; "{:?}", trace.disks.as_slice()),
    };
    Ok(rows?)
}

/// Tables of these texts, in their order. Those for which there is no text are empty.
fn tables_of(alloc: Global, texts: &[Bytes]) -> Result<SteadyTables, Fault> {
    let mut tables: [Bytes; 6] = [
        Seq::new(alloc),
        Seq::new(alloc),
        Seq::new(alloc),
        Seq::new(alloc),
        Seq::new(alloc),
        Seq::new(alloc),
    ];
    for (table, text) in tables.iter_mut().zip(texts) {
        table.extend_from_slice(text.as_slice())?;
    }
    Ok(SteadyTables::new(alloc, tables))
}

/// The rows of all tables, or the refusal.
fn read<P: Threads + Sync>(rt: &P, alloc: Global, texts: &[Bytes]) -> Result<String, Fault>
    requires { IsSync P.row }
{
    let tables = tables_of(alloc, texts)?;
    match trace_of(rt, alloc, tables) {
        Ok(trace) => Ok(format!(in alloc; "{trace:?}")?),
        Err(refusal) => Ok(format!(in alloc; "{refusal:?}")?),
    }
}

/// The rows of tables, or what is refused. The tables are let go here, so that no other function owns both.
fn trace_of<P: Threads + Sync>(
    rt: &P,
    alloc: Global,
    mut tables: SteadyTables,
) -> Result<TraceTables, ReadRefusal>
    requires { IsSync P.row }
{
    read_tables(rt, alloc, &mut tables)
}

/// How many rows of machines are read, before the other tables, or the refusal.
fn many<P: Threads + Sync>(
    rt: &P,
    alloc: Global,
    machines: Bytes,
    others: &[Bytes],
) -> Result<String, Fault>
    requires { IsSync P.row }
{
    let tables = tables_behind(alloc, machines, others)?;
    match trace_of(rt, alloc, tables) {
        Ok(trace) => Ok(format!(in alloc; "{}", trace.machines.len())?),
        Err(refusal) => Ok(format!(in alloc; "{refusal:?}")?),
    }
}

/// A table of machines, and tables of these texts behind it.
fn tables_behind(alloc: Global, machines: Bytes, others: &[Bytes]) -> Result<SteadyTables, Fault> {
    let texts = texts_behind(alloc, machines, others)?;
    tables_of(alloc, texts.as_slice())
}

/// A text, and copies of others behind it.
fn texts_behind(alloc: Global, first: Bytes, others: &[Bytes]) -> Result<Vec<Bytes>, Fault> {
    let mut texts = Vec::new(alloc);
    texts.push(first)?;
    for other in others {
        texts.push(other.copy(alloc)?)?;
    }
    Ok(texts)
}

/// The bytes of one of the tables, or the refusal.
fn bytes(alloc: Global, table: Table, texts: &[Bytes]) -> Result<String, Fault> {
    let tables = tables_of(alloc, texts)?;
    match bytes_of(alloc, tables, table) {
        Ok(bytes) => Ok(format!(in alloc; "{:?}", bytes.as_slice())?),
        Err(refusal) => Ok(format!(in alloc; "{refusal:?}")?),
    }
}

/// The bytes of one of the tables, or what is refused. The tables are let go.
fn bytes_of(alloc: Global, mut tables: SteadyTables, table: Table) -> Result<Bytes, ReadRefusal> {
    read_bytes(alloc, &mut tables, table)
}

/// So many lines, which differ in a number from 0 on.
fn numbered(alloc: Global, count: u64, front: &str, back: &str) -> Result<String, Fault> {
    let mut lines = String::new(alloc);
    for number in 0..count {
        write!(lines, "{front}{number}{back}")?;
    }
    Ok(lines)
}

/// The limit that a table and one of attributes exceed, or a refusal.
fn limit<P: Threads + Sync>(
    rt: &P,
    alloc: Global,
    table: Table,
    lines: &[u8],
    attrs: &[u8],
) -> Result<String, Fault>
    requires { IsSync P.row }
{
    let mut trace = TraceTables::new(alloc);
    let first = parse_table(rt, alloc, table, lines, &mut trace);
    let second = parse_table(rt, alloc, Table::MachineAttributes, attrs, &mut trace);
    let passed = over_limit(alloc, &trace);
    drop(trace);
    if first.is_err() || second.is_err() {
        return Ok(format!(in alloc; "{first:?} {second:?}")?);
    }
    let passed = passed?;
    Ok(format!(in alloc; "{passed:?}")?)
}
