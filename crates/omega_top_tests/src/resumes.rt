//! Runs that go on from the lines that a keeper in memory has, and whose loads or appends fail. All others are
//! folders of `tests/`.

ghost use Rattle.std.specs.Thread.{IsSync};

use crate::runs::{Call, End, expect, run_kept, tables_of};
use omega_io::PassGate;
use omega_keep::{Lines, MemoryKeeper};
use omega_model::{NoMemory, Seq, Status};
use std::alloc::Global;
use std::process::Abort;
use std::sync::Wait;
use std::thread::Threads;

/// A machine that takes three tasks and becomes smaller in the second round.
const MACHINES: &str = "0,1,0,p,1,1\n300000000,1,2,p,0.5,0.5\n";

const TASKS: &str = "0,,10,0,,0,u,0,2,0.3,0.3,,0
0,,10,1,,0,u,0,1,0.3,0.3,,0
0,,10,2,,0,u,0,1,0.3,0.3,,0
";

/// What `replay` writes of them.
const REPORT: &str = "omega 2
round 0
commit 1 2 10
place 10 0 1
place 10 1 1
place 10 2 1
use cpu 900000000 1000000000 mem 900000000 1000000000 disk 0 1000000000000
round 1
displace 10 1 1
displace 10 2 1
commit 1 5 10
use cpu 300000000 500000000 mem 300000000 500000000 disk 0 1000000000000
entries 6 rounds 2
scheduler 0 commits 0 empty 0 placing 0 conflicted 0 placed 0 refused 0 withdrawn 0 evicted 0
scheduler 1 commits 2 empty 1 placing 1 conflicted 0 placed 3 refused 0 withdrawn 0 evicted 0
scheduler 2 commits 0 empty 0 placing 0 conflicted 0 placed 0 refused 0 withdrawn 0 evicted 0
use cpu 300000000 500000000 mem 300000000 500000000 disk 0 1000000000000
waiting 2 abandoned 0
";

/// The lines of the first round, and of the second.
const ROUND: &str = "round 0";

const ADD: &str = "add 1 1000000000 1000000000 1000000000000";

const COMMIT: &str =
    "commit 1 2 10 fine incremental claim 10 0 1 300000000 300000000 0 2 0 victims 0 placed evicted 0 claim 10 1 1 300000000 300000000 0 1 0 victims 0 placed evicted 0 claim 10 2 1 300000000 300000000 0 1 0 victims 0 placed evicted 0";

const NEXT_ROUND: &str = "round 1";

const UPDATE: &str = "update 1 500000000 500000000 1000000000000";

const NEXT_COMMIT: &str = "commit 1 5 10 fine incremental";

/// Lists that are kept: of one round and of both.
const FIRST: [&str; 3] = [ROUND, ADD, COMMIT];

const BOTH: [&str; 6] = [ROUND, ADD, COMMIT, NEXT_ROUND, UPDATE, NEXT_COMMIT];

/// What is kept, the load or append that fails, counted from 0, and what is kept then.
type Case = (&'static [&'static str], u64, &'static [&'static str]);

/// The load and each append fail in turn.
const FAILING: [Case; 4] = [
    (&[], 0, &[]),
    (&[], 1, &[]),
    (&[], 2, &FIRST),
    (&FIRST, 1, &FIRST),
];

/// These texts as lines.
fn lines_of(alloc: Global, texts: &[&str]) -> Result<Lines, NoMemory> {
    let mut lines = Lines::new(alloc);
    for text in texts {
        lines.push(Seq::of(Vec::from_slice(alloc, text.as_bytes())?))?;
    }
    Ok(lines)
}

/// Whether these texts are what is kept.
fn keeps(lines: &Lines, texts: &[&str]) -> bool {
    lines.as_slice().len() == texts.len()
        && lines
            .as_slice()
            .iter()
            .zip(texts)
            .all(|(line, text)| line.as_slice() == text.as_bytes())
}

/// How a run ends: with the report of `replay` where all is done.
fn end_of(status: Status) -> End<'static> {
    match status {
        Status::Done => End {
            status,
            entries: 6,
            report: REPORT.as_bytes(),
        },
        _ => End::refused(status),
    }
}

/// Sees that a run that goes on from what a keeper has ends so.
fn expect_run<R: Threads + Wait + Sync + Abort>(
    rt: &R,
    alloc: Global,
    keeper: &mut MemoryKeeper,
    status: Status,
) -> Result<(), NoMemory>
    requires { IsSync R.row }
{
    let mut tables = tables_of(alloc, MACHINES, TASKS)?;
    let call = Call {
        words: &["resume"],
        room: 10_000,
    };
    let ran = run_kept(rt, alloc, &call, &mut tables, &PassGate, keeper)?;
    expect(rt, &ran, &end_of(status));
    Ok(())
}

/// Sees that a case ends by the fault, with so much kept.
fn expect_case<R: Threads + Wait + Sync + Abort>(
    rt: &R,
    alloc: Global,
    case: &Case,
) -> Result<(), NoMemory>
    requires { IsSync R.row }
{
    let (kept, failing, after) = *case;
    let mut keeper = MemoryKeeper::holding(alloc, lines_of(alloc, kept)?).fail_at(failing);
    expect_run(rt, alloc, &mut keeper, Status::KeepFault)?;
    assert!(rt; keeps(keeper.lines(), after));
    Ok(())
}

#[test]
fn each_call_of_a_keeper_fails(rt: HostRuntime) -> Result<(), NoMemory> {
    for case in &FAILING {
        expect_case(&rt, rt.alloc(), case)?;
    }
    Ok(())
}

#[test]
fn a_run_that_stopped_goes_on(rt: HostRuntime) -> Result<(), NoMemory> {
    let mut keeper = MemoryKeeper::new(rt.alloc()).fail_at(2);
    expect_run(&rt, rt.alloc(), &mut keeper, Status::KeepFault)?;
    expect_run(&rt, rt.alloc(), &mut keeper, Status::Done)?;
    assert!(&rt; keeps(keeper.lines(), &BOTH));
    Ok(())
}
