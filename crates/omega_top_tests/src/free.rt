//! A run by the free clock that tells the time of each commit and of each job's first one. All others are
//! folders of `tests/`.

ghost use Rattle.std.specs.Thread.{IsSync};

use crate::runs::{Call, End, MACHINE, TASK, expect, run_past, tables_of};
use omega_io::{PassGate, Tables};
use omega_model::{NoMemory, Status};
use std::alloc::Global;
use std::process::Abort;
use std::sync::Wait;
use std::thread::Threads;

/// A run by the free clock, and room for its report.
const FREE: Call<'static> = Call {
    words: &["simulate", "--clock", "free", "--times", "yes"],
    room: 1000,
};

/// The report of the machine and its task: the scheduler of batch jobs decides for 105,000 microseconds.
const REPORT: &str = "omega 2
round 0
commit 1 2 10
place 10 0 1
use cpu 250000000 500000000 mem 250000000 500000000 disk 1000000 1000000000000
entries 3 rounds 1
scheduler 0 commits 0 empty 0 placing 0 conflicted 0 placed 0 refused 0 withdrawn 0 evicted 0
scheduler 1 commits 1 empty 0 placing 1 conflicted 0 placed 1 refused 0 withdrawn 0 evicted 0
scheduler 2 commits 0 empty 0 placing 0 conflicted 0 placed 0 refused 0 withdrawn 0 evicted 0
use cpu 250000000 500000000 mem 250000000 500000000 disk 1000000 1000000000000
waiting 0 abandoned 0
busy 0 0 105000
wait 0 0 0
busy 1 105000 105000
wait 1 1 0
busy 2 0 105000
wait 2 0 0
time 0 1 0 105000
first 10 1 0 0
";

/// How it ends.
fn end() -> End<'static> {
    End {
        status: Status::Done,
        entries: 3,
        report: REPORT.as_bytes(),
    }
}

/// Sees that such a run ends so, over tables that are dropped then.
fn expect_free<R: Threads + Wait + Sync + Abort, T: Tables + Drop>(
    rt: &R,
    alloc: Global,
    mut tables: T,
    end: &End,
) -> Result<(), NoMemory>
    requires { IsSync R.row }
{
    let ran = run_past(rt, alloc, &FREE, &mut tables, &PassGate)?;
    expect(rt, &ran, end);
    Ok(())
}

#[test]
fn a_run_by_the_free_clock_tells_its_times(rt: HostRuntime) -> Result<(), NoMemory> {
    let tables = tables_of(rt.alloc(), MACHINE, TASK)?;
    expect_free(&rt, rt.alloc(), tables, &end())
}
