//! What the lines of time add up.
ghost use Rattle.std.specs.Prelude.{◌≡◌, ◌<◌, ◌^◌, ◌∷◌, ◌++◌, [], List, All, IfOk, OnOk, length};
ghost use Rattle.std.specs.List.{cons_option};
ghost use Rattle.omega_laws.specs.Simulated.{until_after};
ghost use Rattle.omega_sim.specs.Summing.{AreEarly, AreFirstSyncs, IsTimely, waited_between, waited_in_all};
ghost use Rattle.omega_laws.specs.TimeReport.{busy, committed_jobs, job_at};
ghost use Rattle.omega_laws.specs.VirtualTime.{Timed as CommitTime};

use crate::firsts::FirstTimes;
use crate::timed::Timed;
use omega_feed::each_once;
use omega_model::{Entry, NoMemory, Seq};
use std::alloc::Global;

/// How long a scheduler decided, in microseconds. Costs the commits.
pub fn busy(scheduler: u32, times: &[Timed]) -> u128
    requires { All IsTimely times.now }
    ensures { result ≡ busy scheduler times.now }
{
    let mut total = 0;
    for timed in times {
        if timed.scheduler == scheduler {
            total += timed.time.saturating_sub(timed.sync);
        }
    }
    total
}

/// The time of the last commit in microseconds, 0 where there is none.
pub fn last_time(times: &[Timed]) -> u128
    ensures { result ≡ until_after 0 times.now }
{
    match times.last() {
        Some(timed) => timed.time,
        None => 0,
    }
}

/// The jobs for which a scheduler has a commit, each once, in order of the first one. Costs a look-up
/// for each commit.
pub fn committed_jobs(
    alloc: Global,
    scheduler: u32,
    history: &[Entry],
    times: &[Timed],
) -> Result<Seq<u64>, NoMemory>
    ensures { IfOk result (λ jobs. jobs ≡ committed_jobs scheduler history.now times.now) }
{
    let mut jobs = Vec::new(alloc);
    for timed in times {
        if timed.scheduler == scheduler {
            push_if(&mut jobs, job_at(history, timed))?;
        }
    }
    each_once(alloc, &jobs)
}

/// Appends an item, if there is one.
pub fn push_if<T: Copy>(items: &mut Vec<T>, item: Option<T>) -> Result<(), NoMemory>
    ensures { OnOk result (items.new.items ≡ items.old.items ++ cons_option item []) }
{
    if let Some(item) = item {
        items.push(item)?;
    }
    Ok(())
}

/// For each job that has a commit, when its scheduler synced for the first one, in microseconds. Costs a
/// look-up for each commit.
pub fn first_syncs(
    alloc: Global,
    history: &[Entry],
    times: &[Timed],
) -> Result<FirstTimes, NoMemory>
    ensures { IfOk result (AreFirstSyncs history.now times.now) }
{
    let mut syncs = FirstTimes::new(alloc);
    for timed in times {
        note_sync(&mut syncs, history, timed)?;
    }
    Ok(syncs)
}

/// Notes when the scheduler of a commit synced for it, if it is the first one for its job.
pub fn note_sync(syncs: &mut FirstTimes, history: &[Entry], timed: &Timed) -> Result<(), NoMemory>
    ensures { OnOk result ((before : List CommitTime) → AreFirstSyncs history.now before syncs.old → AreFirstSyncs history.now (before ++ timed.now ∷ []) syncs.new) }
{
    let Some(job) = job_at(history, timed) else {
        return Ok(());
    };
    syncs.note(job, timed.sync)?;
    Ok(())
}

/// How long some jobs waited in all, from when they came to the sync for their first commits, in
/// microseconds. Costs two look-ups for each.
pub fn waited(jobs: &[u64], came: &FirstTimes, synced: &FirstTimes) -> u128
    requires few { length jobs.now < 2 ^ 21 }
    requires early { AreEarly synced.now }
    ensures { result ≡ waited_in_all came.now synced.now jobs.now }
{
    let mut total = 0;
    for job in jobs {
        total += waited_by(*job, came, synced);
    }
    total
}

/// How long a job waited, in microseconds; 0 where no sync is noted for it.
fn waited_by(job: u64, came: &FirstTimes, synced: &FirstTimes) -> u128
    requires { AreEarly synced.now }
    ensures time { result ≡ waited_between came.now synced.now job }
    ensures bound { result < 2 ^ 101 }
{
    let until = synced.of(job).unwrap_or(0);
    until.saturating_sub(came.of(job).unwrap_or(0))
}

/// The job of a commit.
pub fn job_at(history: &[Entry], timed: &Timed) -> Option<u64>
    ensures { result ≡ job_at history.now timed.now }
{
    match history.get(timed.place as usize)? {
        Entry::Commit { txn, .. } => Some(txn.job),
        _ => None,
    }
}
