//! A run of the top call over tables and a sink in memory, and how it is to end.

ghost use Rattle.std.specs.Thread.{IsSync};

use omega_io::{Gate, MemorySink, MemoryTables, Tables};
use omega_keep::{Keeper, SteadyKeeper};
use omega_model::{Bytes, Entries, NoMemory, Seq, Settings, Status};
use omega_top::{Done, omega};
use std::alloc::Global;
use std::process::Abort;
use std::sync::Wait;
use std::thread::Threads;

/// A machine, a task that goes there, and the report of both.
pub const MACHINE: &str = "0,1,0,p,0.5,0.5\n";

pub const TASK: &str = "0,,10,0,,0,u,0,1,0.25,0.25,0.001,0\n";

const REPORT: &str = "omega 2
round 0
commit 1 2 10
place 10 0 1
use cpu 250000000 500000000 mem 250000000 500000000 disk 1000000 1000000000000
entries 3 rounds 1
scheduler 0 commits 0 empty 0 placing 0 conflicted 0 placed 0 refused 0 withdrawn 0 evicted 0
scheduler 1 commits 1 empty 0 placing 1 conflicted 0 placed 1 refused 0 withdrawn 0 evicted 0
scheduler 2 commits 0 empty 0 placing 0 conflicted 0 placed 0 refused 0 withdrawn 0 evicted 0
use cpu 250000000 500000000 mem 250000000 500000000 disk 1000000 1000000000000
waiting 0 abandoned 0
";

/// What came of a run: its answer, but for what is left of the world, and what was written.
#[derive(Drop)]
pub struct Ran {
    pub status: Status,
    pub settings: Option<Settings>,
    pub history: Entries,
    pub written: Bytes,
}

/// How a run is to end: with this status, a history of so many entries and these bytes written.
#[derive(Clone, Copy)]
pub struct End<'a> {
    pub status: Status,
    pub entries: usize,
    pub report: &'a [u8],
}

impl End<'static> {
    /// That of a whole run over the machine and its task.
    pub fn done() -> End<'static> {
        End {
            status: Status::Done,
            entries: 3,
            report: REPORT.as_bytes(),
        }
    }

    /// That of a run that is refused.
    pub fn refused(status: Status) -> End<'static> {
        End {
            status,
            entries: 0,
            report: b"",
        }
    }
}

/// The bytes of a text.
fn bytes(alloc: Global, text: &str) -> Result<Bytes, NoMemory> {
    Ok(Seq::of(Vec::from_slice(alloc, text.as_bytes())?))
}

/// Tables of which all but two are empty.
pub fn tables_of(alloc: Global, machines: &str, tasks: &str) -> Result<MemoryTables, NoMemory> {
    let tables = [
        bytes(alloc, machines)?,
        Seq::new(alloc),
        bytes(alloc, tasks)?,
        Seq::new(alloc),
        Seq::new(alloc),
        Seq::new(alloc),
    ];
    Ok(MemoryTables::new(alloc, tables))
}

/// What a run is called with: its words, and for how many bytes its sink has room.
#[derive(Clone, Copy)]
pub struct Call<'a> {
    pub words: &'a [&'a str],
    pub room: u64,
}

/// A run past a gate.
pub fn run_past<R: Threads + Wait + Sync, T: Tables, G: Gate + Sync>(
    rt: &R,
    alloc: Global,
    call: &Call,
    tables: &mut T,
    gate: &G,
) -> Result<Ran, NoMemory>
    requires { IsSync R.row × IsSync G.row }
{
    let mut keeper = SteadyKeeper::new(alloc);
    run_kept(rt, alloc, call, tables, gate, &mut keeper)
}

/// The same with this keeper. Each write takes a single byte.
pub fn run_kept<R: Threads + Wait + Sync, T: Tables, G: Gate + Sync, P: Keeper>(
    rt: &R,
    alloc: Global,
    call: &Call,
    tables: &mut T,
    gate: &G,
    keeper: &mut P,
) -> Result<Ran, NoMemory>
    requires { IsSync R.row × IsSync G.row }
{
    let mut sink = MemorySink::new(alloc, call.room)?.cut(1);
    let Done {
        status,
        settings,
        history,
        remains,
    } = omega(rt, alloc, call.words, tables, &mut sink, gate, keeper);
    drop(remains);
    Ok(Ran {
        status,
        settings,
        history,
        written: sink.into_bytes(),
    })
}

/// Whether a run ended so.
pub fn ends_so(ran: &Ran, end: &End) -> bool {
    ran.status == end.status
        && ran.history.len() == end.entries
        && ran.written.as_slice() == end.report
}

/// Sees that a run ended so.
pub fn expect(rt: &impl Abort, ran: &Ran, end: &End) {
    assert!(rt; ends_so(ran, end));
}
