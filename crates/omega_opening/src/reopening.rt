//! Which jobs are looked at again, because tasks of theirs may have stopped.
ghost use Rattle.std.specs.Prelude.{◌≡◌, ◌≤◌, ◌∷◌, [], false, true, All, List, OnOk, drop, length};
ghost use Rattle.std.specs.List.{flat_map, fold};
ghost use Rattle.omega_model.specs.Touches.{is_commit};
ghost use Rattle.omega_feed.specs.Open.{OthersAreQuiet};
ghost use Rattle.omega_model.specs.Cell.{Cell as CellBefore, keys_of};
ghost use Rattle.omega_model.specs.State.{ranked_on, state, step};
ghost use Rattle.omega_model.specs.declared.cells.Task.{Task};
ghost use Rattle.omega_opening.specs.Reopening.{WereQuiet, OpensJobs, may_stop};

use crate::demand::Demand;
use omega_board::Board;
use omega_cell::Cell;
use omega_feed::{OpenJobs, Wanted};
use omega_model::{Entry, Judgement, NoMemory, TaskKey};
use std::alloc::Global;

/// Opens the jobs of the tasks that were evicted since a place in a cell's history, behind which all
/// entries are commits. Then all others are quiet on the cell, if they were at that place. Costs the
/// entries since then and what they evicted, each of these the logarithm of the number of jobs.
pub fn reopen_since(demand: &mut Demand, cell: &Cell, opened_at: usize) -> Result<(), NoMemory>
    requires within { opened_at ≤ length cell.now.history }
    requires commits { All (λ entry. is_commit entry ≡ true) (drop opened_at cell.now.history) }
    requires quiet { WereQuiet demand.old.open_jobs demand.old.wanted opened_at cell.now.history }
    ensures wanted { demand.new.wanted ≡ demand.old.wanted }
    ensures quiet { OnOk result (OthersAreQuiet demand.new.open_jobs demand.new.wanted (state cell.now.history).tasks) }
{
    let entries = &cell.history()[opened_at..];
    reopen_all(&mut demand.open_jobs, &demand.wanted, entries)
}

/// Opens the jobs of the tasks that commits evicted.
fn reopen_all(open_jobs: &mut OpenJobs, wanted: &Wanted, entries: &[Entry]) -> Result<(), NoMemory>
    requires { All (λ entry. is_commit entry ≡ true) entries.now }
    ensures { (before : CellBefore) → OthersAreQuiet open_jobs.old wanted.now before.tasks
        → OnOk result (OthersAreQuiet open_jobs.new wanted.now (fold step before entries.now).tasks) }
{
    for entry in entries {
        reopen_evicted(open_jobs, wanted, entry)?;
    }
    Ok(())
}

/// Opens the jobs of the tasks that a commit evicted.
fn reopen_evicted(open_jobs: &mut OpenJobs, wanted: &Wanted, entry: &Entry) -> Result<(), NoMemory>
    requires { is_commit entry.now ≡ true }
    ensures { (tasks : List Task) → OnOk result (OpensJobs open_jobs.old open_jobs.new wanted.now (may_stop tasks entry.now)) }
{
    if let Entry::Commit { reply, .. } = entry {
        return reopen_judged(open_jobs, wanted, reply.as_slice());
    }
    Ok(())
}

/// Opens the jobs of the tasks that judgements evicted.
fn reopen_judged(
    open_jobs: &mut OpenJobs,
    wanted: &Wanted,
    reply: &[Judgement],
) -> Result<(), NoMemory>
    ensures { OnOk result (OpensJobs open_jobs.old open_jobs.new wanted.now (flat_map (λ judgement. judgement.evicted) reply.now)) }
{
    for judgement in reply {
        reopen_jobs(open_jobs, wanted, judgement.evicted.as_slice())?;
    }
    Ok(())
}

/// Opens the jobs of these tasks.
fn reopen_jobs(open_jobs: &mut OpenJobs, wanted: &Wanted, keys: &[TaskKey]) -> Result<(), NoMemory>
    ensures { OnOk result (OpensJobs open_jobs.old open_jobs.new wanted.now keys.now) }
{
    for key in keys {
        open_jobs.reopen(wanted, key.job)?;
    }
    Ok(())
}

/// Opens the jobs of the tasks that an entry may stop when it is fed to the cell of a board: of all tasks on a
/// machine that is added, updated or removed, and of a task that ends, if something of its job may wait then.
/// Most tasks that end are no longer wanted, so that their jobs aren't looked at again. Costs the machine's
/// tasks, which are sorted, each the logarithm of the number of jobs; for a task that ends the logarithms of the
/// number of jobs and of its job's slots.
pub(crate) fn reopen_stopped(
    alloc: Global,
    open_jobs: &mut OpenJobs,
    wanted: &Wanted,
    board: &Board,
    entry: &Entry,
) -> Result<(), NoMemory>
    requires { is_commit entry.now ≡ false }
    ensures { OnOk result (OpensJobs open_jobs.old open_jobs.new wanted.now (may_stop board.now.tasks entry.now)) }
{
    match entry {
        Entry::MachineAdd { machine, .. }
        | Entry::MachineUpdate { machine, .. }
        | Entry::MachineRemove { machine } => {
            reopen_on(alloc, open_jobs, wanted, board, *machine)
        }
        Entry::End { key, .. } => reopen_missed(open_jobs, wanted, *key),
        Entry::Round { .. }
        | Entry::AttrSet { .. }
        | Entry::AttrDelete { .. }
        | Entry::Commit { .. } => Ok(()),
    }
}

/// Opens the job of a task, if its end may let something of the job wait.
fn reopen_missed(open_jobs: &mut OpenJobs, wanted: &Wanted, key: TaskKey) -> Result<(), NoMemory>
    ensures { OnOk result (OpensJobs open_jobs.old open_jobs.new wanted.now (key ∷ [])) }
{
    if !wanted.misses(key) {
        return Ok(());
    }
    open_jobs.reopen(wanted, key.job)?;
    Ok(())
}

/// Opens the jobs of all tasks on a machine.
fn reopen_on(
    alloc: Global,
    open_jobs: &mut OpenJobs,
    wanted: &Wanted,
    board: &Board,
    machine: u64,
) -> Result<(), NoMemory>
    ensures { OnOk result (OpensJobs open_jobs.old open_jobs.new wanted.now (keys_of (ranked_on machine board.now.tasks))) }
{
    let keys = board.running().on_machine(alloc, machine)?;
    reopen_jobs(open_jobs, wanted, keys.as_slice())
}
