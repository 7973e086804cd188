//! Runs on threads in which a gate holds schedulers, so that their plans stand beside each other.
//!
//! Each held scheduler has planned before any other commits. So nobody holds a turn from its plan to
//! its commit, and what a commit had seen shows that nobody syncs and plans again just before it.

ghost use Rattle.std.specs.Thread.{IsSync};

use crate::runs::{Call, End, Ran, expect, run_past, tables_of};
use omega_io::{HeldGate, Point, Tables};
use omega_model::{Entry, Judgements, NoMemory, Status, Verdict};
use std::alloc::Global;
use std::process::Abort;
use std::sync::Wait;
use std::thread::Threads;

/// The first scheduler is held at the first point until the second one has come to the second point.
type Order = (u32, Point, u32, Point);

/// How often a held scheduler looks at most whether it may go on.
const LOOKS: u64 = 200_000_000;

/// Room for each report, in bytes.
const ROOM: u64 = 2000;

/// The words of a run with one scheduler of batch jobs, and with two.
const COARSE: [&str; 3] = ["run", "--rule", "coarse"];

const COARSE_BY_THREE: [&str; 5] = ["run", "--rule", "coarse", "--batch", "2"];

/// One machine, on which the tasks of each run fit together.
const MACHINE: &str = "0,1,0,p,1,1\n";

/// A run with these words past a gate, over tables that are dropped then.
fn run_over<R: Threads + Wait + Sync, T: Tables + Drop>(
    rt: &R,
    alloc: Global,
    words: &[&str],
    mut tables: T,
    gate: &HeldGate,
) -> Result<Ran, NoMemory>
    requires { IsSync R.row }
{
    let call = Call { words, room: ROOM };
    run_past(rt, alloc, &call, &mut tables, gate)
}

/// Sees that no hold of a gate has ended by its bound.
fn expect_ended(rt: &impl Abort, gate: &HeldGate) {
    assert!(rt; !gate.ran_out());
}

/// A run of these tasks with these words past a gate of this order, which holds schedulers. Sees
/// that no hold has ended by its bound.
fn run_held<R: Threads + Wait + Sync + Abort>(
    rt: &R,
    alloc: Global,
    words: &[&str],
    tasks: &str,
    order: &[Order],
) -> Result<Ran, NoMemory>
    requires { IsSync R.row }
{
    let gate = HeldGate::new(alloc, order, LOOKS)?;
    let tables = tables_of(alloc, MACHINE, tasks)?;
    let ran = run_over(rt, alloc, words, tables, &gate)?;
    expect_ended(rt, &gate);
    Ok(ran)
}

/// A task of a service and one of a batch job.
const TWO_TASKS: &str = "0,,4,0,,0,u,2,9,0.4,0.4,,0\n0,,5,0,,0,u,0,1,0.4,0.4,,0\n";

/// Both plan, and then the scheduler of batch jobs commits first.
const BOTH_PLAN_FIRST: [Order; 2] = [
    (1, Point::Planned, 0, Point::Planned),
    (0, Point::Planned, 1, Point::Committed),
];

const REPORT_OF_TWO: &str = "omega 2
round 0
commit 1 2 5
place 5 0 1
commit 0 2 4
refuse 4 0 1 changed 2 1
commit 0 4 4
place 4 0 1
use cpu 800000000 1000000000 mem 800000000 1000000000 disk 0 1000000000000
entries 5 rounds 1
scheduler 0 commits 2 empty 0 placing 1 conflicted 1 placed 1 refused 1 withdrawn 0 evicted 0
scheduler 1 commits 1 empty 0 placing 1 conflicted 0 placed 1 refused 0 withdrawn 0 evicted 0
scheduler 2 commits 0 empty 0 placing 0 conflicted 0 placed 0 refused 0 withdrawn 0 evicted 0
use cpu 800000000 1000000000 mem 800000000 1000000000 disk 0 1000000000000
waiting 0 abandoned 0
";

/// How a run of both ends.
fn end_of_two() -> End<'static> {
    End {
        status: Status::Done,
        entries: 5,
        report: REPORT_OF_TWO.as_bytes(),
    }
}

#[test]
fn two_held_schedulers_plan_beside_each_other(rt: HostRuntime) -> Result<(), NoMemory> {
    let ran = run_held(&rt, rt.alloc(), &COARSE, TWO_TASKS, &BOTH_PLAN_FIRST)?;
    expect(&rt, &ran, &end_of_two());
    Ok(())
}

/// The service's scheduler has synced before the other commits, and plans only then: on what it had seen.
const SYNCED_FIRST: [Order; 2] = [
    (1, Point::Planned, 0, Point::Synced),
    (0, Point::Synced, 1, Point::Committed),
];

#[test]
fn a_held_scheduler_plans_on_what_it_synced(rt: HostRuntime) -> Result<(), NoMemory> {
    let ran = run_held(&rt, rt.alloc(), &COARSE, TWO_TASKS, &SYNCED_FIRST)?;
    expect(&rt, &ran, &end_of_two());
    Ok(())
}

/// A task of a service and two of batch jobs, each of which has a scheduler of its own.
const THREE_TASKS: &str =
    "0,,4,0,,0,u,2,1,0.3,0.3,,0\n0,,6,0,,0,u,0,1,0.3,0.3,,0\n0,,5,0,,0,u,0,1,0.3,0.3,,0\n";

/// All three plan on the same state, and then commit one after the other: 2, 1, 0.
const ALL_PLAN_FIRST: [Order; 4] = [
    (2, Point::Planned, 0, Point::Planned),
    (2, Point::Planned, 1, Point::Planned),
    (1, Point::Planned, 2, Point::Committed),
    (0, Point::Planned, 1, Point::Committed),
];

/// How the report of all three begins, before the first commit of scheduler 0. Scheduler 1 tries again
/// meanwhile, so nothing is said of what comes behind.
const BEGINNING_OF_THREE: &str = "omega 2
round 0
commit 2 2 5
place 5 0 1
commit 1 2 6
refuse 6 0 1 changed 2 1
";

/// How it ends: with all three tasks on the machine.
const END_OF_THREE: &str =
    "use cpu 900000000 1000000000 mem 900000000 1000000000 disk 0 1000000000000
waiting 0 abandoned 0
";

/// Whether the first commit of scheduler 0 was stale, and each of the three placed its task.
fn all_planned_first(history: &[Entry]) -> bool {
    is_first_stale(history, 0, 2) && (0..3).all(|number| placing_commits(history, number) == 1)
}

/// Sees that a run of all three was done, and began and ended so.
fn expect_three(rt: &impl Abort, ran: &Ran) {
    let report = ran.written.as_slice();
    assert!(rt; ran.status == Status::Done);
    assert!(rt; report.starts_with(BEGINNING_OF_THREE.as_bytes()));
    assert!(rt; report.ends_with(END_OF_THREE.as_bytes()));
    assert!(rt; all_planned_first(ran.history.as_slice()));
}

#[test]
fn three_held_schedulers_plan_beside_each_other(rt: HostRuntime) -> Result<(), NoMemory> {
    let ran = run_held(
        &rt,
        rt.alloc(),
        &COARSE_BY_THREE,
        THREE_TASKS,
        &ALL_PLAN_FIRST,
    )?;
    expect_three(&rt, &ran);
    Ok(())
}

/// How many entries a commit of this scheduler had seen, and what it was answered; `None` for any other entry.
fn commit_by(entry: &Entry, number: u32) -> Option<(u64, &Judgements)> {
    match entry {
        Entry::Commit {
            scheduler,
            seen,
            reply,
            ..
        } if *scheduler == number => Some((*seen, reply)),
        _ => None,
    }
}

/// Whether a scheduler's first commit was planned on so many entries, and has a claim that is refused
/// since its machine has changed.
fn is_first_stale(history: &[Entry], number: u32, entries: u64) -> bool {
    match history.iter().find_map(|entry| commit_by(entry, number)) {
        Some((seen, reply)) => seen == entries && has_changed(reply),
        None => false,
    }
}

/// Whether a claim is refused since its machine has changed.
fn has_changed(reply: &Judgements) -> bool {
    reply.as_slice().iter().any(|judgement| matches!(judgement.verdict, Verdict::Changed { .. }))
}

/// How many commits of a scheduler place a task.
fn placing_commits(history: &[Entry], number: u32) -> usize {
    history.iter().filter(|entry| places(entry, number)).count()
}

/// Whether an entry is a commit of a scheduler that places a task.
fn places(entry: &Entry, number: u32) -> bool {
    match commit_by(entry, number) {
        Some((_, reply)) => reply
            .as_slice()
            .iter()
            .any(|judgement| judgement.verdict.is_placed()),
        None => false,
    }
}
