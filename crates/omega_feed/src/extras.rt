//! The extra tasks of MapReduce jobs.
ghost use Rattle.std.specs.Prelude.{◌≡◌, ◌≤◌, ◌<◌, ◌+◌, IfOk, min, map, nat_le};
ghost use Rattle.std.specs.List.{filter};
ghost use Rattle.omega_model.specs.ExtraTasks.{capacity_in_all, first_extra, is_extra_of, used_in};
ghost use Rattle.omega_model.specs.Extras.{extras, target};
ghost use Rattle.omega_board.specs.Board.{cell_of};
ghost use Rattle.omega_mapreduce.specs.Counted.{RiseFrom};
ghost use Rattle.omega_running.specs.Kept.{KeysRise};

use omega_board::Board;
use omega_mapreduce::{extras, target};
use omega_model::{Extra, Need, NoMemory, Task};
use omega_running::Running;
use std::alloc::Global;

/// How many more extras a job with these activities gets on the cell of a board, where `wanted` of its
/// tasks are wanted and `running` extras run. Each extra needs `need`. Takes the same time for any number
/// of machines.
pub fn extra_count(
    policy: Extra,
    activities: u32,
    wanted: usize,
    running: usize,
    need: Need,
    board: &Board,
) -> u32
    ensures count { result ≡ extras policy activities wanted running need (used_in (cell_of board.now)) (capacity_in_all (cell_of board.now)) }
    ensures room { 0 < result → running + result ≤ activities }
{
    let machines = board.machines();
    let (used, capacity) = (machines.used(), machines.capacity());
    extras(
        policy,
        activities,
        narrowed(wanted),
        narrowed(running),
        need,
        used,
        capacity,
    )
}

/// Whether a job with these activities has all the tasks that it should have, where `wanted` of its tasks
/// are wanted and `held` extras run.
pub fn has_all(policy: Extra, activities: u32, wanted: usize, held: usize) -> bool
    ensures { result ≡ nat_le (target policy activities wanted) (wanted + held) }
{
    let aim = target(policy, activities, narrowed(wanted));
    wanted.saturating_add(held) >= aim as usize
}

/// A count, or the greatest number of 32 bits where it is more.
fn narrowed(count: usize) -> u32
    ensures { result ≡ min count 4294967295 }
{
    u32::try_from(count).unwrap_or(u32::MAX)
}

/// The indexes of a job's running extras, in order. Costs these and few others of the job's running tasks, and
/// the logarithm of the number of running tasks.
pub fn running_indexes(alloc: Global, running: &Running, job: u64) -> Result<Vec<u32>, NoMemory>
    requires { KeysRise running.now.tasks }
    ensures indexes { IfOk result (λ found. found.items ≡ map (λ task. task.key.index) (filter (is_extra_of job) running.now.tasks)) }
    ensures rise { IfOk result (λ found. RiseFrom first_extra found.items) }
{
    let extras = running.extras_of_job(alloc, job)?;
    let found = indexes_of(alloc, extras.as_slice())?;
    Ok(found)
}

/// The indexes of some tasks.
fn indexes_of(alloc: Global, tasks: &[Task]) -> Result<Vec<u32>, NoMemory>
    ensures { IfOk result (λ found. found.items ≡ map (λ task. task.key.index) tasks.now) }
{
    let mut found = Vec::with_capacity(alloc, tasks.len())?;
    for task in tasks {
        found.push(task.key.index)?;
    }
    Ok(found)
}
