//! Steps of some workers, one of each scheduler in order of number.
ghost use Rattle.std.specs.Prelude.{◌≡◌, ℕ, IfOk, OnOk, option_map};
ghost use Rattle.std.specs.List.{AllByRecursion as Each};
ghost use Rattle.omega_feed.specs.Open.{OthersAreQuiet};
ghost use Rattle.omega_model.specs.State.{state};
ghost use Rattle.omega_plan.specs.Indexes.{AreIndexesOf};
ghost use Rattle.omega_free_laws.specs.Passes.{Attempt as Decided, Past, wanted_at};
ghost use Rattle.omega_free_laws.specs.Readings.{Reading};
ghost use Rattle.omega_free.specs.FreeWorkers.{AreCounted, AreKnown, AreNumbered, CommitsWanted, IsItsAttempt, IsMoment, OneMayCommit, SyncIfIdle, SyncIfIts, TakeIfDue, by_and_time, due_among};
ghost use Rattle.omega_free.specs.PassDesks.{IsAsked};

use crate::worker::Worker;
use omega_cell::Cell;
use omega_feed::{OpenJobs, Wanted};
use omega_model::{NoMemory, Settings};
use omega_plan::Indexes;
use omega_sim::Timed;
use std::alloc::Global;

/// Whose attempt is due first of some workers, and when, in microseconds of the trace; at one time it is that of the
/// first. `None` where nobody is deciding. Costs a look at each.
pub fn first_due(workers: &[Worker]) -> Option<(u32, u128)>
    ensures { result ≡ option_map by_and_time (due_among workers.now) }
{
    let Some((worker, rest)) = workers.split_first() else {
        return None;
    };
    let later = first_due(rest);
    let Some(due) = worker.due() else {
        return later;
    };
    match later {
        Some((by, time)) if time < due => Some((by, time)),
        _ => Some((worker.scheduler(), due)),
    }
}

/// Of some workers each that isn't deciding syncs now. Where memory runs out the first ones have. Costs their syncs, and
/// a look at each of the others.
pub fn sync_idle(
    alloc: Global,
    workers: &mut [Worker],
    indexes: &mut Indexes,
    settings: &Settings,
    triggers: u64,
    wanted: &Wanted,
    open_jobs: &mut OpenJobs,
    cell: &Cell,
    now: u128,
) -> Result<(), NoMemory>
    requires known { AreKnown settings.now workers.old }
    requires quiet { OthersAreQuiet open_jobs.old wanted.now (state cell.now.history).tasks }
    requires asked { IsAsked wanted.now }
    requires indexes { AreIndexesOf cell.now.history indexes.old }
    ensures indexes { AreIndexesOf cell.now.history indexes.new }
    ensures quiet { OthersAreQuiet open_jobs.new wanted.now (state cell.now.history).tasks }
    ensures syncs { OnOk result ((reading : Reading) (past : Past)
        → IsMoment settings.now reading wanted.now cell.now.history triggers past → AreCounted cell.now.history workers.old
        → SyncIfIdle settings.now reading past now workers.old workers.new) }
{
    let Some((worker, rest)) = workers.split_first_mut() else {
        return Ok(());
    };
    worker.sync_if_idle(
        alloc, indexes, settings, triggers, wanted, open_jobs, cell, now,
    )?;
    sync_idle(
        alloc, rest, indexes, settings, triggers, wanted, open_jobs, cell, now,
    )
}

/// Of some workers that of this scheduler commits what is still wanted of its attempt. Answers the commit with its times.
/// Where memory runs out the history and all desks are as before, and the attempt is lost. Costs its claims, and a look
/// at each worker before it.
pub fn commit_by(
    alloc: Global,
    workers: &mut [Worker],
    by: u32,
    settings: &Settings,
    wanted: &Wanted,
    cell: &mut Cell,
) -> Result<Timed, NoMemory>
    requires may { OneMayCommit settings.now wanted.now.tasks cell.old.history by workers.old }
    ensures commits { IfOk result (λ timed. (attempt : Decided) → Each (IsItsAttempt by attempt) workers.old
        → CommitsWanted settings.now wanted.now.tasks cell.old.history cell.new.history by attempt timed) }
    ensures takes { OnOk result ((first : ℕ) (attempt : Decided) (reading : Reading) (before : Past) → AreNumbered first workers.old
        → Each (IsItsAttempt by attempt) workers.old → wanted_at reading before ≡ wanted.now.tasks → before.history ≡ cell.old.history
        → TakeIfDue settings.now reading before (record { by = by; attempt = attempt }) workers.old workers.new) }
{
    let Some((worker, rest)) = workers.split_first_mut() else {
        unreachable!()
    };
    if worker.scheduler() == by {
        return worker.commit(alloc, settings, wanted, cell);
    }
    commit_by(alloc, rest, by, settings, wanted, cell)
}

/// Of some workers that of this scheduler syncs now. Costs its sync, and a look at each worker before it.
pub fn sync_by(
    alloc: Global,
    workers: &mut [Worker],
    by: u32,
    indexes: &mut Indexes,
    settings: &Settings,
    triggers: u64,
    wanted: &Wanted,
    open_jobs: &mut OpenJobs,
    cell: &Cell,
    now: u128,
) -> Result<(), NoMemory>
    requires known { AreKnown settings.now workers.old }
    requires quiet { OthersAreQuiet open_jobs.old wanted.now (state cell.now.history).tasks }
    requires asked { IsAsked wanted.now }
    requires indexes { AreIndexesOf cell.now.history indexes.old }
    ensures indexes { AreIndexesOf cell.now.history indexes.new }
    ensures quiet { OthersAreQuiet open_jobs.new wanted.now (state cell.now.history).tasks }
    ensures syncs { OnOk result ((first : ℕ) (reading : Reading) (past : Past) → AreNumbered first workers.old
        → IsMoment settings.now reading wanted.now cell.now.history triggers past → AreCounted cell.now.history workers.old
        → SyncIfIts settings.now reading past now by workers.old workers.new) }
{
    let Some((worker, rest)) = workers.split_first_mut() else {
        return Ok(());
    };
    if worker.scheduler() == by {
        return worker.sync(
            alloc, indexes, settings, triggers, wanted, open_jobs, cell, now,
        );
    }
    sync_by(
        alloc, rest, by, indexes, settings, triggers, wanted, open_jobs, cell, now,
    )
}
