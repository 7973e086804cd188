//! A piece whose rows are held until its task has ended, and a task that is due to end once it is placed.
ghost use Rattle.std.specs.Prelude.{◌<◌, ◌≤◌, ◌^◌};

use omega_feed::{EventRounds, Events};
use omega_model::{
    Claim, Claims, Judgement, Keys, Mode, Need, NoMemory, Rule, Spec, Task, TaskKey, TaskRow,
    TraceTables, Txn, Verdict,
};
use omega_pieces::{EndsDue, TaskPieces};
use omega_running::Running;
use std::alloc::Global;

/// The task of these tests, which runs on machine 1.
const KEY: TaskKey = TaskKey { job: 6, index: 0 };

/// What it needs: nothing.
const SPEC: Spec = Spec {
    need: Need::NOTHING,
    prec: 0,
    differ: false,
};

#[test]
fn rows_of_a_later_piece_are_held_until_the_task_has_ended(
    rt: HostRuntime,
) -> Result<(), NoMemory> {
    let alloc = rt.alloc();
    let mut pieces = TaskPieces::new(alloc, &rounds_of_task(alloc)?)?;
    assert!(rt; pieces.take(alloc, &row(2, 0))?);
    assert!(rt; !pieces.take(alloc, &row(9, 4))?);
    assert!(rt; !pieces.take(alloc, &row(11, 0))?);
    assert!(rt; pieces.life(KEY) == Some(7));
    let held = pieces.end(alloc, KEY)?;
    assert!(rt; held.as_slice().len() == 1);
    assert!(rt; pieces.life(KEY).is_none());
    Ok(())
}

#[test]
fn a_placed_task_is_due_after_its_life(rt: HostRuntime) -> Result<(), NoMemory> {
    let alloc = rt.alloc();
    let pieces = TaskPieces::new(alloc, &rounds_of_task(alloc)?)?;
    let mut ends = EndsDue::new(alloc);
    let txn = txn_of_task(alloc)?;
    ends.commit(&pieces, 100, &txn, &[placed(alloc)])?;
    let mut running = Running::new(alloc);
    assert!(rt; ends.first(&running).is_none());
    ends.commit(&pieces, 200, &txn, &[placed(alloc)])?;
    running.reserve(alloc, 1)?;
    running.insert_reserved(Task {
        key: KEY,
        machine: 1,
        spec: SPEC,
    });
    let due = ends.first(&running);
    assert!(rt; due.is_some_and(|end| end.key == KEY && end.machine == 1 && end.time == 207));
    Ok(())
}

/// The rounds of a trace in which the task runs for seven microseconds, and is asked for once more.
fn rounds_of_task(alloc: Global) -> Result<EventRounds, NoMemory> {
    let mut tables = TraceTables::new(alloc);
    tables.tasks.push(row(2, 0))?;
    tables.tasks.push(row(9, 4))?;
    tables.tasks.push(row(11, 0))?;
    EventRounds::cut(alloc, Events::take(alloc, &mut tables)?, 1)
}

/// A row of the task at this time, in microseconds.
fn row(time: u64, code: u8) -> TaskRow
    requires time { time < 2 ^ 63 }
    requires code { code ≤ 8 }
{
    TaskRow {
        time,
        key: KEY,
        code,
        class: 0,
        spec: SPEC,
    }
}

/// A transaction that asks for the task's place.
fn txn_of_task(alloc: Global) -> Result<Txn, NoMemory> {
    let mut claims = Claims::new(alloc);
    claims.push(Claim {
        key: KEY,
        machine: 1,
        spec: SPEC,
        victims: Keys::new(alloc),
    })?;
    Ok(Txn {
        job: KEY.job,
        rule: Rule::Fine,
        mode: Mode::Incremental,
        claims,
    })
}

/// The answer that the task was placed.
fn placed(alloc: Global) -> Judgement {
    Judgement {
        verdict: Verdict::Placed,
        evicted: Keys::new(alloc),
    }
}
