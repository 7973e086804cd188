//! What is told of each job's first commit.
ghost use Rattle.std.specs.Prelude.{◌≡◌, ◌∷◌, ◌++◌, [], List, IfOk};
ghost use Rattle.std.specs.List.{cons_option};
ghost use Rattle.omega_laws.specs.VirtualTime.{Timed as CommitTime};
ghost use Rattle.omega_model.specs.Ranges.{IsInRange};
ghost use Rattle.omega_model.specs.declared.rows.TraceTables.{TraceTables};
ghost use Rattle.omega_model.specs.declared.settings.Settings.{Settings};
ghost use Rattle.omega_sim.specs.Arriving.{AreArrivalsOf};
ghost use Rattle.omega_sim.specs.Firsts.{time_at};
ghost use Rattle.omega_sim.specs.Summing.{AreFirstSyncs};
ghost use Rattle.omega_sim.specs.TimeDetails.{first_commits_by, first_commits_of};

use crate::arrivals::Arrivals;
use crate::firsts::FirstTimes;
use crate::sums::{job_at, note_sync, push_if};
use crate::timed::Timed;
use omega_model::{Entry, NoMemory, Seq};
use std::alloc::Global;

/// A job's first commit. Times are in microseconds.
#[derive(Clone, Copy, Debug)]
pub struct FirstCommit {
    pub job: u64,
    /// Who made it.
    pub scheduler: u32,
    /// When the job's first task row came.
    pub arrived: u128,
    /// When the scheduler synced for the commit.
    pub sync: u128,
}

/// The first commit of each job that has one, in order of these commits.
///
/// Costs a look-up among the jobs for each commit, and memory for the jobs.
pub fn first_commits(
    alloc: Global,
    arrivals: &Arrivals,
    history: &[Entry],
    times: &[Timed],
) -> Result<Seq<FirstCommit>, NoMemory>
    ensures { IfOk result (λ firsts. (settings : Settings) (trace : TraceTables)
        → IsInRange settings → AreArrivalsOf settings trace arrivals.now
        → firsts ≡ first_commits_of trace history.now times.now) }
{
    let came = &arrivals.first_times;
    let mut syncs = FirstTimes::new(alloc);
    let mut firsts = Vec::new(alloc);
    for timed in times {
        push_if(&mut firsts, first_at(came, &syncs, history, timed))?;
        note_sync(&mut syncs, history, timed)?;
    }
    Ok(Seq::of(firsts))
}

/// What is told of a commit, if it is the first of its job: none of those before it, for which these syncs are
/// noted, was.
fn first_at(
    came: &FirstTimes,
    syncs: &FirstTimes,
    history: &[Entry],
    timed: &Timed,
) -> Option<FirstCommit>
    ensures { (before : List CommitTime) → AreFirstSyncs history.now before syncs.now
        → first_commits_by (time_at came.now) history.now (before ++ timed.now ∷ [])
        ≡ first_commits_by (time_at came.now) history.now before ++ cons_option result [] }
{
    let Some(job) = job_at(history, timed) else {
        return None;
    };
    if syncs.of(job).is_some() {
        return None;
    }
    Some(FirstCommit {
        job,
        scheduler: timed.scheduler,
        arrived: came.of(job).unwrap_or(0),
        sync: timed.sync,
    })
}
