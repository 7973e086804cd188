//! Whole runs over tables and a sink in memory, whose reads and writes are cut or fail, and what is
//! said of refusals that no run in a folder shows.

ghost use Rattle.std.specs.Thread.{IsSync};

use crate::runs::{Call, End, MACHINE, Ran, TASK, ends_so, expect, run_past, tables_of};
use omega_io::{MemoryTables, PassGate, Tables};
use omega_model::{Cause, Kind, NoMemory, Settings, Status, Table};
use omega_top::{exit_status, fault_line};
use std::alloc::Global;
use std::process::Abort;
use std::sync::Wait;
use std::thread::Threads;

/// Room for every report of these tests, in bytes.
const ROOM: u64 = 1000;

/// Sees that a replay ends so, over tables that are dropped then.
fn expect_replay<R: Threads + Wait + Sync + Abort, T: Tables + Drop>(
    rt: &R,
    alloc: Global,
    mut tables: T,
    room: u64,
    end: &End,
) -> Result<(), NoMemory>
    requires { IsSync R.row }
{
    let call = Call {
        words: &["replay"],
        room,
    };
    let ran = run_past(rt, alloc, &call, &mut tables, &PassGate)?;
    expect(rt, &ran, end);
    Ok(())
}

/// Sees that a run was whole over the machine and its task, and answers these settings.
fn expect_done(rt: &impl Abort, ran: &Ran, settings: &Settings) {
    assert!(rt; ends_so(ran, &End::done()));
    assert!(rt; ran.settings.as_ref() == Some(settings));
}

/// Sees that a run with these words is so, over tables that are dropped then.
fn expect_settings<R: Threads + Wait + Sync + Abort, T: Tables + Drop>(
    rt: &R,
    alloc: Global,
    words: &[&str],
    mut tables: T,
    settings: &Settings,
) -> Result<(), NoMemory>
    requires { IsSync R.row }
{
    let call = Call { words, room: ROOM };
    let ran = run_past(rt, alloc, &call, &mut tables, &PassGate)?;
    expect_done(rt, &ran, settings);
    Ok(())
}

/// Words that ask for two tries, and their settings.
const TWO_TRIES: [&str; 5] = ["replay", "--tries", "2", "--tables", "a b"];

fn two_tries() -> Settings {
    Settings {
        tries: 2,
        ..Settings::default()
    }
}

#[test]
fn answers_the_settings_of_its_words(rt: HostRuntime) -> Result<(), NoMemory> {
    let tables = tables_of(rt.alloc(), MACHINE, TASK)?;
    expect_settings(&rt, rt.alloc(), &TWO_TRIES, tables, &two_tries())
}

/// The machine and its task, of which each read gives a single byte.
fn single_bytes(alloc: Global) -> Result<MemoryTables, NoMemory> {
    Ok(tables_of(alloc, MACHINE, TASK)?.cut(1))
}

/// The table whose read fails where the call of this number fails, of the 57 calls that read the
/// machine and its task in single bytes.
fn failing_table(call: u64) -> Table {
    match call {
        0..=16 => Table::MachineEvents,
        17 => Table::MachineAttributes,
        18..=53 => Table::TaskEvents,
        54 => Table::TaskConstraints,
        55 => Table::MapreduceJobs,
        _ => Table::MachineDisk,
    }
}

/// Sees that a run ended by the one read of a table that failed.
fn expect_fault<T: Tables>(rt: &impl Abort, ran: &Ran, tables: &T, table: Table) {
    assert!(rt; ends_so(ran, &End::refused(Status::ReadFault(table))));
    assert_eq!(rt; tables.faults(table), 1);
}

/// Sees that a replay ends so, over tables that are dropped then.
fn expect_read_fault<R: Threads + Wait + Sync + Abort, T: Tables + Drop>(
    rt: &R,
    alloc: Global,
    mut tables: T,
    table: Table,
) -> Result<(), NoMemory>
    requires { IsSync R.row }
{
    let call = Call {
        words: &["replay"],
        room: ROOM,
    };
    let ran = run_past(rt, alloc, &call, &mut tables, &PassGate)?;
    expect_fault(rt, &ran, &tables, table);
    Ok(())
}

#[test]
fn each_read_fails(rt: HostRuntime) -> Result<(), NoMemory> {
    for call in 0..57 {
        let tables = single_bytes(rt.alloc())?.fail_at(call);
        expect_read_fault(&rt, rt.alloc(), tables, failing_table(call))?;
    }
    Ok(())
}

#[test]
fn no_read_comes_behind_the_last(rt: HostRuntime) -> Result<(), NoMemory> {
    for call in 57..59 {
        let tables = single_bytes(rt.alloc())?.fail_at(call);
        expect_replay(&rt, rt.alloc(), tables, ROOM, &End::done())?;
    }
    Ok(())
}

/// Sees that a read of a table fails.
fn expect_failed_read<T: Tables>(rt: &impl Abort, tables: &mut T) {
    assert!(rt; tables.read(Table::MachineEvents, &mut [0u8; 1]).is_err());
}

#[test]
fn a_read_that_failed_before_is_past(rt: HostRuntime) -> Result<(), NoMemory> {
    let mut tables = single_bytes(rt.alloc())?.fail_at(0);
    expect_failed_read(&rt, &mut tables);
    expect_replay(&rt, rt.alloc(), tables, ROOM, &End::done())
}

/// How a replay ends whose sink has room for so many bytes.
fn end_in(room: usize) -> End<'static> {
    let report = End::done().report;
    if room >= report.len() {
        return End::done();
    }
    End {
        status: Status::WriteFault,
        entries: 3,
        report: &report[..room],
    }
}

#[test]
fn each_size_of_sink(rt: HostRuntime) -> Result<(), NoMemory> {
    for room in 0..526 {
        let tables = single_bytes(rt.alloc())?;
        expect_replay(&rt, rt.alloc(), tables, room, &end_in(room as usize))?;
    }
    Ok(())
}

/// The refusal of a row.
fn bad_row(table: Table, row: u64, column: u32, cause: Cause) -> Status {
    Status::BadRow {
        table,
        row,
        column,
        cause,
    }
}

/// A table of tasks where that of machines should be, and one of machines where that of tasks should
/// be: the first has a field too many, the other too few. For each the table in place of the
/// machines, the call that fails, and how the replay ends.
fn bad_tables() -> [(&'static str, u64, Status); 4] {
    [
        (TASK, 1, Status::ReadFault(Table::MachineEvents)),
        (
            TASK,
            2,
            bad_row(Table::MachineEvents, 1, 0, Cause::Fields(13)),
        ),
        (MACHINE, 4, Status::ReadFault(Table::TaskEvents)),
        (
            MACHINE,
            5,
            bad_row(Table::TaskEvents, 1, 0, Cause::Fields(6)),
        ),
    ]
}

/// Sees that a replay is refused so, over these machines and the machine in place of the tasks,
/// where the call of this number fails.
fn expect_refusal<R: Threads + Wait + Sync + Abort>(
    rt: &R,
    alloc: Global,
    machines: &str,
    failing: u64,
    status: Status,
) -> Result<(), NoMemory>
    requires { IsSync R.row }
{
    let tables = tables_of(alloc, machines, MACHINE)?.fail_at(failing);
    expect_replay(rt, alloc, tables, ROOM, &End::refused(status))
}

#[test]
fn reads_fail_before_and_behind_bad_rows(rt: HostRuntime) -> Result<(), NoMemory> {
    for (machines, failing, status) in bad_tables() {
        expect_refusal(&rt, rt.alloc(), machines, failing, status)?;
    }
    Ok(())
}

/// Whether this text is said of a status.
fn says(status: &Status, text: &str) -> bool {
    let line = fault_line(status);
    line.as_str() == text && line.as_bytes() == text.as_bytes()
}

/// Refusals that no run in a folder shows, their exit statuses and what is said of them.
fn fault_lines() -> [(Status, u8, &'static str); 7] {
    let attributes = Table::MachineAttributes;
    [
        (Status::Done, 0, ""),
        (
            Status::TooLong(Table::MapreduceJobs),
            3,
            "omega: mapreduce_jobs is longer than 268435456 bytes",
        ),
        (
            bad_row(attributes, u64::MAX, u32::MAX, Cause::Number),
            3,
            "omega: machine_attributes row 18446744073709551615 column 4294967295: not a whole number",
        ),
        (
            Status::TooMany(Kind::Rows, 2_000_001),
            3,
            "omega: too many rows: 2000001",
        ),
        (
            Status::TooMany(Kind::Machines, 65_537),
            3,
            "omega: too many machines: 65537",
        ),
        (Status::WriteFault, 4, "omega: cannot write"),
        (Status::NoMemory, 5, "omega: no memory"),
    ]
}

#[test]
fn fault_lines_and_exit_statuses(rt: HostRuntime) {
    for (status, number, text) in fault_lines() {
        assert!(rt; says(&status, text));
        assert_eq!(rt; exit_status(&status), number);
    }
}
