//! Reads and writes that are cut or fail, real files, standard output, and holds at a gate.
use omega_io::{
    Failed, FolderTables, Gate, HeldGate, MemorySink, MemoryTables, PassGate, Point, Sink,
    StdoutSink, SteadyTables, Tables, write_all,
};
use omega_model::{Bytes, NoMemory, Seq, Table};
use std::alloc::{AllocError, Global};
use std::fs;
use std::sync::atomic::{AtomicU64, Ordering};
use std::test::Fail;
use std::thread::{Threads, join};

/// What is written in these tests.
const TEXT: &[u8] = b"report";

/// The bytes of a text.
fn bytes(alloc: Global, text: &[u8]) -> Result<Bytes, AllocError> {
    Ok(Seq::of(Vec::from_slice(alloc, text)?))
}

/// What stands in six tables, of which two are empty.
const TEXTS: [&[u8]; 6] = [b"abc", b"", b"de", b"", b"f", b"gh"];

/// The six tables.
fn six(alloc: Global) -> Result<[Bytes; 6], AllocError> {
    TEXTS.try_map(|text| bytes(alloc, text))
}

/// What a read of a table in a piece of four bytes answers, and the piece after it.
fn read_piece<T: Tables>(tables: &mut T, table: Table) -> (Result<usize, Failed>, [u8; 4]) {
    let mut piece = [0; 4];
    let answer = tables.read(table, &mut piece);
    (answer, piece)
}

/// A table, and what a read of it in a piece of four bytes is to answer, with the piece after it.
type Wanted = (Table, Result<usize, Failed>, [u8; 4]);

/// The place of the first of these reads that isn't answered as it is to be.
fn first_wrong<T: Tables>(tables: &mut T, reads: &[Wanted]) -> Option<usize> {
    for (place, (table, answer, piece)) in reads.iter().enumerate() {
        if read_piece(tables, *table) != (*answer, *piece) {
            return Some(place);
        }
    }
    None
}

/// A folder that is entered, if any, and the reads then.
type Visit = (Option<&'static str>, &'static [Wanted]);

/// The place of the first visit with a read that isn't answered as it is to be, and that of the read in it.
fn first_wrong_visit<T: Tables>(
    tables: &mut T,
    visits: &[Visit],
) -> Result<Option<(usize, usize)>, NoMemory> {
    for (visit, (folder, reads)) in visits.iter().enumerate() {
        if let Some(folder) = folder {
            tables.enter(folder)?;
        }
        if let Some(read) = first_wrong(tables, reads) {
            return Ok(Some((visit, read)));
        }
    }
    Ok(None)
}

/// How many reads of each table have failed.
fn faults_of<T: Tables>(tables: &T) -> [u64; 6] {
    [
        tables.faults(Table::MachineEvents),
        tables.faults(Table::MachineAttributes),
        tables.faults(Table::TaskEvents),
        tables.faults(Table::TaskConstraints),
        tables.faults(Table::MapreduceJobs),
        tables.faults(Table::MachineDisk),
    ]
}

/// Reads of the six tables in pieces of two bytes, of which the second fails.
const CUT_READS: [Wanted; 12] = [
    (Table::MachineEvents, Ok(2), *b"ab\0\0"),
    (Table::MachineEvents, Err(Failed), [0; 4]),
    (Table::MachineEvents, Ok(1), *b"c\0\0\0"),
    (Table::MachineEvents, Ok(0), [0; 4]),
    (Table::MachineAttributes, Ok(0), [0; 4]),
    (Table::TaskEvents, Ok(2), *b"de\0\0"),
    (Table::TaskEvents, Ok(0), [0; 4]),
    (Table::TaskConstraints, Ok(0), [0; 4]),
    (Table::MapreduceJobs, Ok(1), *b"f\0\0\0"),
    (Table::MapreduceJobs, Ok(0), [0; 4]),
    (Table::MachineDisk, Ok(2), *b"gh\0\0"),
    (Table::MachineDisk, Ok(0), [0; 4]),
];

/// Reads of the six tables, none of which fails.
const WHOLE_READS: [Wanted; 5] = [
    (Table::MachineEvents, Ok(3), *b"abc\0"),
    (Table::MachineEvents, Ok(0), [0; 4]),
    (Table::TaskEvents, Ok(2), *b"de\0\0"),
    (Table::MapreduceJobs, Ok(1), *b"f\0\0\0"),
    (Table::MachineDisk, Ok(2), *b"gh\0\0"),
];

/// What `first_wrong_visit` answers, and the faults after it.
type Told = (Option<(usize, usize)>, [u64; 6]);

fn told<T: Tables + Drop>(tables: T, visits: &[Visit]) -> Result<Told, NoMemory> {
    let mut tables = tables;
    let wrong = first_wrong_visit(&mut tables, visits)?;
    Ok((wrong, faults_of(&tables)))
}

/// The six tables in memory. A read gives two bytes at most, and the second one fails.
fn cut_tables(alloc: Global) -> Result<MemoryTables, AllocError> {
    let tables = MemoryTables::new(alloc, six(alloc)?);
    Ok(tables.fail_at(3).cut(2).fail_at(1))
}

/// What is told of them.
fn cut_reads(alloc: Global) -> Result<Told, NoMemory> {
    let tables = cut_tables(alloc)?;
    told(tables, &[(Some("folder"), &CUT_READS)])
}

#[test]
fn tables_in_memory(rt: HostRuntime) -> Result<(), Fail> {
    assert_eq!(rt; cut_reads(rt.alloc())?, (None, [1, 0, 0, 0, 0, 0]));
    Ok(())
}

/// The six tables, which never fail.
fn steady_tables(alloc: Global) -> Result<SteadyTables, AllocError> {
    Ok(SteadyTables::new(alloc, six(alloc)?))
}

/// What is told of them.
fn whole_reads(alloc: Global) -> Result<Told, NoMemory> {
    let tables = steady_tables(alloc)?;
    told(tables, &[(Some("folder"), &WHOLE_READS)])
}

#[test]
fn tables_that_never_fail(rt: HostRuntime) -> Result<(), Fail> {
    assert_eq!(rt; whole_reads(rt.alloc())?, (None, [0; 6]));
    Ok(())
}

/// What is answered to a whole text, and how many writes failed.
fn write_text<S: Sink>(sink: &mut S) -> (Result<(), Failed>, u64) {
    let answer = write_all(sink, TEXT);
    (answer, sink.faults())
}

/// The same of a sink in memory, and how many bytes of the text, from the front on, were written.
type Written = (Result<(), Failed>, u64, Option<usize>);

fn write_within(sink: MemorySink) -> Written {
    let mut sink = sink;
    let (answer, faults) = write_text(&mut sink);
    (answer, faults, front_len(sink))
}

/// How many bytes were written, if the text begins with them.
fn front_len(sink: MemorySink) -> Option<usize> {
    let bytes = sink.into_bytes();
    TEXT.starts_with(bytes.as_slice()).then_some(bytes.len())
}

/// What is told where there is room for so many bytes.
fn write_small(alloc: Global, room: u64) -> Result<Written, NoMemory> {
    let sink = MemorySink::new(alloc, room)?.cut(4);
    Ok(write_within(sink))
}

/// What is told where each write takes one byte, and this one fails.
fn write_failing(alloc: Global, call: u64) -> Result<Written, NoMemory> {
    let sink = MemorySink::new(alloc, 6)?.fail_at(0).cut(1).fail_at(call);
    Ok(write_within(sink))
}

/// What is told where so many bytes can be written before a write fails.
fn written(bytes: u64) -> Written {
    if bytes < 6 {
        (Err(Failed), 1, Some(bytes as usize))
    } else {
        (Ok(()), 0, Some(6))
    }
}

#[test]
fn small_sinks(rt: HostRuntime) -> Result<(), Fail> {
    for bytes in 0..8 {
        assert_eq!(rt;
            write_small(rt.alloc(), bytes)?,
            written(bytes),
            "room for {bytes}"
        );
    }
    Ok(())
}

#[test]
fn failing_sinks(rt: HostRuntime) -> Result<(), Fail> {
    for call in 0..8 {
        assert_eq!(rt;
            write_failing(rt.alloc(), call)?,
            written(call),
            "call {call} fails"
        );
    }
    Ok(())
}

#[test]
fn outside(rt: HostRuntime) {
    assert_eq!(rt; write_text(&mut StdoutSink::new(&rt)), (Ok(()), 0));
    PassGate.at(1, Point::Planned);
}

/// Reads in a folder that has a table of machines alone.
const READS_THERE: [Wanted; 7] = [
    (Table::MachineEvents, Ok(2), *b"ab\0\0"),
    (Table::MachineAttributes, Ok(0), [0; 4]),
    (Table::TaskEvents, Err(Failed), [0; 4]),
    (Table::TaskConstraints, Ok(0), [0; 4]),
    (Table::MapreduceJobs, Ok(0), [0; 4]),
    (Table::MachineDisk, Ok(0), [0; 4]),
    (Table::MachineEvents, Ok(0), [0; 4]),
];

/// Reads in a folder that isn't there.
const READS_NOWHERE: [Wanted; 6] = [
    (Table::MachineEvents, Err(Failed), [0; 4]),
    (Table::MachineAttributes, Ok(0), [0; 4]),
    (Table::TaskEvents, Err(Failed), [0; 4]),
    (Table::TaskConstraints, Ok(0), [0; 4]),
    (Table::MapreduceJobs, Ok(0), [0; 4]),
    (Table::MachineDisk, Ok(0), [0; 4]),
];

/// The first read in a folder that was left in the middle and is entered again.
const READS_AGAIN: [Wanted; 1] = [(Table::MachineEvents, Ok(2), *b"ab\0\0")];

/// A read before the first folder.
const READS_NO_FOLDER: [Wanted; 1] = [(Table::TaskConstraints, Err(Failed), [0; 4])];

const VISITS: [Visit; 5] = [
    (None, &READS_NO_FOLDER),
    (Some("trace"), &READS_THERE),
    (Some("nowhere"), &READS_NOWHERE),
    (Some("trace/"), &READS_THERE),
    (Some("trace"), &READS_AGAIN),
];

/// Makes the folder that has a table of machines alone.
fn make_folder(rt: &HostRuntime) -> Result<(), Fail> {
    fs::create_dir(rt, "trace")?;
    fs::write(rt, "trace/machine_events.csv", "ab")?;
    Ok(())
}

/// What is told of the visits while the folder is there.
fn folder_reads(rt: &HostRuntime) -> Result<Told, Fail> {
    make_folder(rt)?;
    let told = told(FolderTables::new(rt), &VISITS)?;
    fs::remove_dir_all(rt, "trace")?;
    Ok(told)
}

#[test]
fn tables_of_a_folder(rt: HostRuntime) -> Result<(), Fail> {
    assert_eq!(rt; folder_reads(&rt)?, (None, [1, 0, 3, 1, 0, 0]));
    Ok(())
}

/// The order in which two schedulers get on at a point, each on a thread of its own, where the first
/// is held until the second has come to it. The second counts before it comes there.
fn held_until(rt: &(impl Threads + Sync), gate: &HeldGate) -> (u64, u64) {
    let passed = AtomicU64::new(0);
    join(
        rt,
        || {
            gate.at(0, Point::Planned);
            passed.fetch_add(1, Ordering::SeqCst)
        },
        || {
            let place = passed.fetch_add(1, Ordering::SeqCst);
            gate.at(1, Point::Planned);
            place
        },
    )
}

/// The first scheduler is held until the second has come to its point.
const HELD: [(u32, Point, u32, Point); 1] = [(0, Point::Planned, 1, Point::Planned)];

#[test]
fn holds_at_a_gate(rt: HostRuntime) -> Result<(), Fail> {
    let gate = HeldGate::new(rt.alloc(), &HELD, 200_000_000)?;
    let order = held_until(&rt, &gate);
    assert_eq!(rt; (order, gate.ran_out()), ((1, 0), false));
    Ok(())
}

/// Whether a gate has run out where nobody was held at it, and where the first was held in vain.
fn run_out(gate: &HeldGate) -> (bool, bool) {
    gate.at(1, Point::Synced);
    gate.at(0, Point::Synced);
    let before = gate.ran_out();
    gate.at(0, Point::Planned);
    (before, gate.ran_out())
}

#[test]
fn a_gate_runs_out(rt: HostRuntime) -> Result<(), Fail> {
    let gate = HeldGate::new(rt.alloc(), &HELD, 1000)?;
    assert_eq!(rt; run_out(&gate), (false, true));
    Ok(())
}
