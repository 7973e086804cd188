//! Tables that are read in pieces of any size and that fail. What each column may hold, the limits and
//! all other cases are lines of `crates/omega_table_cases/stdin`.
ghost use Rattle.std.specs.Prelude.{◌<◌};
ghost use Rattle.std.specs.Thread.{IsSync};

use omega_io::{MemoryTables, Tables};
use omega_model::{AttrRow, Bytes, Cause, NoMemory, Seq, Status, Table, TraceTables};
use omega_tables::{ReadRefusal, parse_table, read_tables};
use std::alloc::{AllocError, Global};
use std::test::Fail;
use std::thread::Threads;

/// One machine of the example, and one task.
const MACHINES: &[u8] = b"0,1,0,p,0.5,0.25\n";

const TASKS: &[u8] = b"0,,10,0,,0,u,1,9,0.25,0.125,0.001,0\n";

/// What is read of the example.
const EXAMPLE: &str = "[MachineRow { time: 0, machine: 1, code: 0, \
cap: Need { cpu: 500000000, mem: 250000000, disk: 0 } }] \
[TaskRow { time: 0, key: TaskKey { job: 10, index: 0 }, code: 0, class: 1, \
spec: Spec { need: Need { cpu: 250000000, mem: 125000000, disk: 1000000 }, \
prec: 9, differ: false } }] 0";

/// Six tables, of which the others are empty.
fn six(alloc: Global, machines: &[u8], tasks: &[u8]) -> Result<[Bytes; 6], AllocError> {
    Ok([
        Seq::of(Vec::from_slice(alloc, machines)?),
        Seq::new(alloc),
        Seq::of(Vec::from_slice(alloc, tasks)?),
        Seq::new(alloc),
        Seq::new(alloc),
        Seq::new(alloc),
    ])
}

/// The rows of machines and of tasks and the number of the others, or the refusal.
fn printed(alloc: Global, answer: Result<TraceTables, ReadRefusal>) -> Result<String, AllocError> {
    match answer {
        Ok(trace) => {
            let machines = trace.machines.as_slice();
            let tasks = trace.tasks.as_slice();
            let others = trace.attrs.len() + trace.constraints.len();
            format!(in alloc; "{machines:?} {tasks:?} {others}")
        }
        Err(refusal) => format!(in alloc; "{refusal:?}"),
    }
}

/// What is read of the example in pieces of at most so many bytes.
fn read_cut<P: Threads + Sync>(rt: &P, alloc: Global, largest: usize) -> Result<String, AllocError>
    requires sync { IsSync P.row }
    requires largest { 0 < largest }
{
    let held = six(alloc, MACHINES, TASKS)?;
    let mut tables = MemoryTables::new(alloc, held).cut(largest);
    printed(alloc, read_tables(rt, alloc, &mut tables))
}

#[test]
fn reads_that_are_cut(rt: HostRuntime) -> Result<(), Fail> {
    for largest in [1, 7, 4096] {
        assert_eq!(rt; read_cut(&rt, rt.alloc(), largest)?.as_str(), EXAMPLE);
    }
    Ok(())
}

/// The table whose read fails where the call of this number fails, of the 59 calls that read the
/// example in single bytes.
fn failing_table(call: u64) -> Option<Table> {
    match call {
        0..=17 => Some(Table::MachineEvents),
        18 => Some(Table::MachineAttributes),
        19..=55 => Some(Table::TaskEvents),
        56 => Some(Table::TaskConstraints),
        57 => Some(Table::MapreduceJobs),
        58 => Some(Table::MachineDisk),
        _ => None,
    }
}

/// The refusal of the example where this call fails, and the faults of a table.
fn read_failing<P: Threads + Sync>(
    rt: &P,
    alloc: Global,
    call: u64,
    table: Table,
) -> Result<(Option<ReadRefusal>, u64), AllocError>
    requires { IsSync P.row }
{
    let held = six(alloc, MACHINES, TASKS)?;
    let mut tables = MemoryTables::new(alloc, held).cut(1).fail_at(call);
    let refusal = read_tables(rt, alloc, &mut tables).err();
    Ok((refusal, tables.faults(table)))
}

#[test]
fn each_call_fails(rt: HostRuntime) -> Result<(), Fail> {
    for call in 0..61 {
        let (want, faults) = match failing_table(call) {
            Some(table) => (Some(ReadRefusal::Fault(table)), 1),
            None => (None, 0),
        };
        let table = failing_table(call).unwrap_or(Table::MachineEvents);
        let answer = read_failing(&rt, rt.alloc(), call, table)?;
        assert_eq!(rt; answer, (want, faults), "{call}");
    }
    Ok(())
}

/// So many rows are a text of some 400 KB, which is read in pieces where there are processors.
const LONG: u64 = 20_000;

/// `LONG` rows, whose machines are numbered from 0. The one of this number is no row.
fn numbered(alloc: Global, bad: u64) -> Result<String, AllocError> {
    let mut text = String::new(alloc);
    for number in 0..LONG {
        if number == bad {
            text.push_str("bad\n")?;
        } else {
            write!(text, "0,{number},name,value,0\n")?;
        }
    }
    Ok(text)
}

/// Whether the machines of these rows are numbered from 0.
fn are_in_order(rows: &[AttrRow]) -> bool {
    rows.iter()
        .zip(0..u64::MAX)
        .all(|(row, number)| row.machine == number)
}

/// The refusal of such rows and how many were read, and whether they are in order.
fn read_numbered<P: Threads + Sync>(
    rt: &P,
    alloc: Global,
    bad: u64,
) -> Result<(Option<ReadRefusal>, usize, bool), AllocError>
    requires { IsSync P.row }
{
    let text = numbered(alloc, bad)?;
    let mut trace = TraceTables::new(alloc);
    let table = Table::MachineAttributes;
    let refusal = parse_table(rt, alloc, table, text.as_bytes(), &mut trace).err();
    let rows = trace.attrs.as_slice();
    Ok((refusal, rows.len(), are_in_order(rows)))
}

/// The refusal of the long text whose row of this number, from 1, has a single field.
fn bad_at(row: u64) -> ReadRefusal {
    ReadRefusal::BadRow {
        table: Table::MachineAttributes,
        row,
        column: 0,
        cause: Cause::Fields(1),
    }
}

#[test]
fn a_text_that_is_cut_in_pieces(rt: HostRuntime) -> Result<(), Fail> {
    for (bad, refusal, rows) in [
        (LONG, None, 20_000),
        (17_500, Some(bad_at(17_501)), 0),
        (7_500, Some(bad_at(7_501)), 0),
    ] {
        let answer = read_numbered(&rt, rt.alloc(), bad)?;
        assert_eq!(rt; answer, (refusal, rows, true), "{bad}");
    }
    Ok(())
}

#[test]
fn memory_may_run_out(rt: HostRuntime) {
    assert_eq!(rt; Status::from(ReadRefusal::from(NoMemory)), Status::NoMemory);
}
