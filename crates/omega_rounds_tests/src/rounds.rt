//! Rounds step by step, in turns, by a virtual clock and on threads.

ghost use Rattle.std.specs.Prelude.{◌≡◌, IfOk};
ghost use Rattle.std.specs.Thread.{IsSync};
ghost use Rattle.omega_model.specs.Ranges.{IsInRange};

use omega_io::PassGate;
use omega_model::{MachineRow, Need, NoMemory, Settings, Spec, TaskKey, TaskRow, TraceTables};
use omega_rounds::{RoundStep, Stepped, World, in_time, in_turns, on_threads};
use omega_sim::Timed;
use std::alloc::Global;
use std::sync::Wait;
use std::thread::Threads;

fn machine_row(amount: u32) -> MachineRow {
    MachineRow {
        time: 0,
        machine: 1,
        code: 0,
        cap: Need {
            cpu: u64::from(amount),
            mem: u64::from(amount),
            disk: 0,
        },
    }
}

fn task_row(job: u64, amount: u32) -> TaskRow {
    TaskRow {
        time: 0,
        key: TaskKey { job, index: 0 },
        code: 0,
        class: 0,
        spec: Spec {
            need: Need {
                cpu: u64::from(amount),
                mem: u64::from(amount),
                disk: 0,
            },
            prec: 1,
            differ: false,
        },
    }
}

/// A machine of (10, 10), and two jobs with a task each.
fn tables(alloc: Global) -> Result<TraceTables, NoMemory> {
    let mut tables = TraceTables::new(alloc);
    tables.machines.push(machine_row(10))?;
    for (job, amount) in [(7, 6), (8, 4)] {
        tables.tasks.push(task_row(job, amount))?;
    }
    Ok(tables)
}

/// The world of these tables before its only round, if there is memory.
fn world(alloc: Global, settings: &Settings) -> Result<World, NoMemory>
    requires { IsInRange settings.now }
    ensures { IfOk result (λ world. world.stage.begun ≡ 0) }
{
    let tables = tables(alloc)?;
    World::new(alloc, settings, tables)
}

/// Lets a scheduler do a step, if there is one of this number.
fn step(world: &mut World, scheduler: u32) -> Result<Option<Stepped>, NoMemory> {
    if scheduler >= world.schedulers() {
        return Ok(None);
    }
    Ok(Some(world.step(scheduler)?))
}

/// The world of these tables in its only round.
fn begun(alloc: Global) -> Result<World, NoMemory> {
    let world = world(alloc, &Settings::default())?;
    let (world, _begun) = world.next_round()?;
    Ok(world)
}

/// Whether three schedulers are there, and do these steps.
fn does_steps(world: &mut World, steps: &[(u32, Stepped)]) -> Result<bool, NoMemory> {
    for (scheduler, stepped) in steps {
        if step(world, *scheduler)? != Some(*stepped) {
            return Ok(false);
        }
    }
    Ok(world.schedulers() == 3)
}

/// How the world goes on.
fn round_step(world: World) -> Result<RoundStep, NoMemory> {
    let (world, step) = world.next_round()?;
    let _history = world.into_history();
    Ok(step)
}

/// Whether the world does these steps in its round, and how it goes on then.
fn after_steps(alloc: Global, steps: &[(u32, Stepped)]) -> Result<(bool, RoundStep), NoMemory> {
    let mut world = begun(alloc)?;
    let done = does_steps(&mut world, steps);
    let next = round_step(world);
    Ok((done?, next?))
}

/// What schedulers do in their steps.
const STEPS: [(u32, Stepped); 3] = [
    (0, Stepped::Idle),
    (1, Stepped::Synced),
    (1, Stepped::Committed(2)),
];

#[test]
fn a_scheduler_step_by_step(rt: HostRuntime) -> Result<(), NoMemory> {
    let (done, next) = after_steps(rt.alloc(), &STEPS)?;
    assert!(rt; done);
    assert!(rt; next == RoundStep::Unfinished(1));
    Ok(())
}

/// How many entries the history has at the end, where the schedulers take turns.
fn entries_in_turns<R: Threads + Sync>(rt: &R, alloc: Global) -> Result<usize, NoMemory>
    requires { IsSync R.row }
{
    let world = in_turns(rt, world(alloc, &Settings::default())?)?;
    Ok(world.into_history().len())
}

#[test]
fn schedulers_in_turns(rt: HostRuntime) -> Result<(), NoMemory> {
    assert_eq!(rt; entries_in_turns(&rt, rt.alloc())?, 4);
    Ok(())
}

/// Whether the commits are those of scheduler 1 at these places, each with its sync and its own time.
fn commit_at(times: &[Timed], expected: &[(u64, u128, u128)]) -> bool {
    times.len() == expected.len()
        && times.iter().zip(expected).all(|(timed, (place, sync, time))| {
            timed.scheduler == 1
                && timed.place == *place
                && timed.sync == *sync
                && timed.time == *time
        })
}

/// The commits of the one batch scheduler by the clock: each job has one task, and so takes it 105,000
/// microseconds.
const BY_THE_CLOCK: [(u64, u128, u128); 2] = [(2, 0, 105_000), (3, 105_000, 210_000)];

/// Whether the commits by the clock are these.
fn commits_by_the_clock(alloc: Global) -> Result<bool, NoMemory> {
    let (world, times) = in_time(world(alloc, &Settings::default())?)?;
    let _history = world.into_history();
    Ok(commit_at(times.as_slice(), &BY_THE_CLOCK))
}

#[test]
fn schedulers_by_the_clock(rt: HostRuntime) -> Result<(), NoMemory> {
    assert!(rt; commits_by_the_clock(rt.alloc())?);
    Ok(())
}

/// How many entries the history has at the end, where each scheduler has a thread of its own; two of them are
/// for batch jobs.
fn entries_on_threads<R: Threads + Wait + Sync>(rt: &R, alloc: Global) -> Result<usize, NoMemory>
    requires { IsSync R.row }
{
    let settings = Settings {
        batch: 2,
        ..Settings::default()
    };
    let world = on_threads(rt, world(alloc, &settings)?, &PassGate)?;
    Ok(world.into_history().len())
}

/// Two jobs of the one machine's size together fit in whatever order their schedulers commit, so each
/// is placed by one commit.
#[test]
fn schedulers_on_threads(rt: HostRuntime) -> Result<(), NoMemory> {
    assert_eq!(rt; entries_on_threads(&rt, rt.alloc())?, 4);
    Ok(())
}
