//! Runs in turns that are kept in a database and gone on with.

ghost use Rattle.std.specs.Prelude.{◌≡◌, IfOk};
ghost use Rattle.std.specs.Thread.{IsSync};

use crate::counted::Counted;
use crate::disks::{Disk, Ends, InFiles, Opens, Stopped, files_of, up_again};
use omega_keep::{Keeper, Lines};
use omega_model::{MachineRow, Need, NoMemory, Settings, Spec, TaskKey, TaskRow, TraceTables};
use omega_rounds::{World, resume_turns};
use omega_sqlkeep::SqlKeeper;
use sqlite::{Connection, Files};
use std::alloc::Global;
use std::test::Fail;
use std::thread::Threads;

/// The lines of the run whose tables are below. The tables and the lines are those of
/// `tests/kept/resume-from-nothing`, which the reference answers.
const KEPT: [&str; 7] = [
    "round 0",
    "add 1 500000000 500000000 1000000000000",
    "commit 1 2 10 fine incremental claim 10 0 1 300000000 300000000 0 1 0 victims 0 placed evicted 0",
    "commit 1 3 10 fine incremental",
    "round 1",
    "end 10 0 1",
    "commit 1 6 10 fine incremental claim 10 1 1 300000000 300000000 0 1 0 victims 0 placed evicted 0",
];

/// How many of these lines there are before a round, after the first and after both.
const ENDS: [usize; 3] = [0, 4, 7];

/// A machine of so much CPU and memory.
fn machine_row(amount: u32) -> MachineRow {
    MachineRow {
        time: 0,
        machine: 1,
        code: 0,
        cap: Need {
            cpu: u64::from(amount),
            mem: u64::from(amount),
            disk: 0,
        },
    }
}

/// A task of job 10 that is submitted, and wants so much of both.
fn task_row(index: u16, amount: u32) -> TaskRow {
    TaskRow {
        time: 0,
        key: TaskKey {
            job: 10,
            index: u32::from(index),
        },
        code: 0,
        class: 0,
        spec: Spec {
            need: Need {
                cpu: u64::from(amount),
                mem: u64::from(amount),
                disk: 0,
            },
            prec: 1,
            differ: false,
        },
    }
}

/// Puts a machine, two tasks, and the end of the first in the second round into tables.
fn fill(tables: &mut TraceTables) -> Result<(), NoMemory> {
    tables.machines.push(machine_row(500_000_000))?;
    for index in 0..2 {
        tables.tasks.push(task_row(index, 300_000_000))?;
    }
    tables.tasks.push(TaskRow {
        time: 300_000_000,
        code: 4,
        ..task_row(0, 300_000_000)
    })
}

/// The world of these tables before its first round, if there is memory.
fn new_world(alloc: Global) -> Result<World, NoMemory>
    ensures { IfOk result (λ world. world.stage.begun ≡ 0) }
{
    let mut tables = TraceTables::new(alloc);
    fill(&mut tables)?;
    World::new(alloc, &Settings::default(), tables)
}

/// What a run that goes on has come to.
#[derive(Clone, Copy)]
struct Outcome {
    /// How many whole rounds were kept before it, if their lines could be had.
    found: Option<usize>,
    /// How many of its appends were answered as done.
    appended: usize,
    /// Whether it came to its end.
    is_done: bool,
    /// How many whole rounds are kept then, if their lines can be had.
    left: Option<usize>,
}

/// What a run came to whose lines could not be loaded.
const NOT_LOADED: Outcome = Outcome {
    found: None,
    appended: 0,
    is_done: false,
    left: None,
};

/// Of how many whole rounds these are the lines, if they are.
fn rounds_of(lines: &Lines) -> Option<usize> {
    let rounds = ENDS.iter().position(|end| *end == lines.len())?;
    let are_kept = lines
        .as_slice()
        .iter()
        .zip(&KEPT)
        .all(|(line, text)| line.as_slice() == text.as_bytes());
    if are_kept { Some(rounds) } else { None }
}

/// How many whole rounds a keeper has, if it can be loaded and has the lines of whole rounds.
fn rounds_in<P: Keeper>(keeper: &mut P) -> Option<usize> {
    match keeper.load() {
        Ok(lines) => rounds_of(&lines),
        Err(_) => None,
    }
}

/// Goes on with the run from these lines. Answers whether it came to its end, with an entry for each line.
fn run<R: Threads + Sync, P: Keeper>(
    rt: &R,
    alloc: Global,
    lines: &Lines,
    keeper: &mut P,
) -> Result<bool, NoMemory>
    requires { IsSync R.row }
{
    match resume_turns(rt, new_world(alloc)?, lines, keeper) {
        Ok(world) => Ok(world.into_history().len() == KEPT.len()),
        Err(_) => Ok(false),
    }
}

/// Goes on with the run from these lines, which are what a keeper has.
fn gone_on_from<R: Threads + Sync, P: Keeper>(
    rt: &R,
    alloc: Global,
    lines: &Lines,
    keeper: &mut Counted<P>,
) -> Result<Outcome, NoMemory>
    requires { IsSync R.row }
{
    let is_done = run(rt, alloc, lines, keeper)?;
    Ok(Outcome {
        found: rounds_of(lines),
        appended: keeper.appended(),
        is_done,
        left: rounds_in(keeper),
    })
}

/// Loads what a keeper has, and goes on with the run.
fn gone_on<R: Threads + Sync, P: Keeper>(
    rt: &R,
    alloc: Global,
    keeper: &mut Counted<P>,
) -> Result<Outcome, NoMemory>
    requires { IsSync R.row }
{
    match keeper.load() {
        Ok(lines) => gone_on_from(rt, alloc, &lines, keeper),
        Err(_) => Ok(NOT_LOADED),
    }
}

/// Goes on with the run that is kept in a database, and hands its files back.
fn gone_on_with<R: Threads + Sync, S: Ends>(
    rt: &R,
    alloc: Global,
    connection: Connection<S>,
) -> Result<(Outcome, Files<Disk>), NoMemory>
    requires { IsSync R.row }
{
    let mut keeper = Counted::over(SqlKeeper::over(alloc, connection));
    let outcome = gone_on(rt, alloc, &mut keeper)?;
    let store = keeper.into_keeper().into_connection().into_store();
    Ok((outcome, store.into_files()))
}

/// Goes on with the run that is kept in two files, and hands them back. Does nothing where no database can be
/// opened in them.
fn gone_on_in<R: Threads + Sync, O: Opens>(
    rt: &R,
    alloc: Global,
    how: &O,
    files: Files<Disk>,
) -> Result<(Outcome, Files<Disk>), NoMemory>
    requires { IsSync R.row }
{
    match how.open(alloc, files) {
        Ok(connection) => gone_on_with(rt, alloc, connection),
        Err(files) => Ok((NOT_LOADED, files)),
    }
}

/// Whether a run that goes on has found the lines of whole rounds, no fewer than the one before it was told were
/// kept, and has left those of all.
fn is_sound(appended: usize, outcome: Outcome) -> bool {
    outcome.is_done
        && outcome.left == Some(2)
        && outcome.found.is_some_and(|found| found >= appended)
}

/// Stops a file of a new database after so many calls of a run. Answers whether a second run goes on from what was
/// kept to the end, and whether the first one ended without a stop.
fn stop_at<R: Threads + Sync, O: Opens>(
    rt: &R,
    alloc: Global,
    how: &O,
    files: Files<Disk>,
) -> Result<(bool, bool), NoMemory>
    requires { IsSync R.row }
{
    let (first, files) = gone_on_in(rt, alloc, how, files)?;
    let (second, _) = gone_on_in(rt, alloc, how, up_again(files))?;
    Ok((is_sound(first.appended, second), first.is_done))
}

/// Stops one file after every number of calls until a run ends without a stop. Answers how many calls that
/// took, and nothing where a run didn't go on.
fn stop_everywhere<R: Threads + Sync, O: Opens>(
    rt: &R,
    alloc: Global,
    how: &O,
    stopped: Stopped,
) -> Result<Option<u64>, NoMemory>
    requires { IsSync R.row }
{
    for calls in 0..1000 {
        let (sound, ended) = stop_at(rt, alloc, how, files_of(alloc, stopped, calls))?;
        if !sound {
            return Ok(None);
        }
        if ended {
            return Ok(Some(calls));
        }
    }
    Ok(None)
}

/// The files that are stopped, and how many calls a run makes to each, at least.
const STOPS: [(Stopped, u64); 2] = [(Stopped::Log, 10), (Stopped::Database, 5)];

#[test]
fn runs_whose_disks_stop(rt: HostRuntime) -> Result<(), Fail> {
    for (stopped, least) in &STOPS {
        let calls = stop_everywhere(&rt, rt.alloc(), &InFiles, *stopped)?;
        assert!(rt; calls.is_some_and(|calls| calls > *least));
    }
    Ok(())
}
