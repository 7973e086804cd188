//! The two orders in which the running tasks are kept.
ghost use Rattle.std.specs.Prelude.{◌≡◌, ◌<◌};
ghost use Rattle.omega_model.specs.Keys.{key_lt, is_among};
ghost use Rattle.omega_running.specs.Order.{precedes, lead, picks, is_extra, is_until, job_and_index, share_of, spread, spread_key, spread_machine, is_before, is_behind};

use omega_model::{Task, TaskKey};

/// The least index of an extra task; the tasks of the trace have lower ones.
pub const FIRST_EXTRA: u32 = 2_147_483_648;

/// Among how many trees the tasks of a machine are spread, so that each has few of them.
pub const SHARES: u64 = 8;

/// Which tasks are picked.
#[derive(Clone, Copy, Debug)]
pub enum Pick {
    /// Those of a machine that stand in this one of its trees, from 0 and below `SHARES`.
    Share(u64),
    /// Extra tasks.
    Extras,
}

impl Pick {
    /// Whether a task is picked.
    pub fn picks(self, task: &Task) -> bool
        ensures { result ≡ picks self task.now }
    {
        match self {
            Pick::Share(share) => share_of(task.key) == share,
            Pick::Extras => is_extra(task),
        }
    }
}

/// An order of tasks: by key, or by machine and then by key.
#[derive(Clone, Copy, Debug)]
pub enum Order {
    ByKey,
    ByMachine,
}

impl Order {
    /// Whether the first task stands before the second.
    pub fn precedes(self, a: &Task, b: &Task) -> bool
        ensures { result ≡ precedes self a.now b.now }
    {
        match self {
            Order::ByKey => key_lt(a.key, b.key),
            Order::ByMachine => {
                a.machine < b.machine || (a.machine == b.machine && key_lt(a.key, b.key))
            }
        }
    }

    /// The number by which the order sorts first: the job, or the machine.
    pub fn lead(self, task: &Task) -> u64
        ensures { result ≡ lead self task.now }
    {
        match self {
            Order::ByKey => task.key.job,
            Order::ByMachine => task.machine,
        }
    }

    /// The number that names the tree of a task.
    pub fn spread(self, task: &Task) -> u64
        ensures { result ≡ spread self task.now }
    {
        match self {
            Order::ByKey => spread_key(task.key),
            Order::ByMachine => spread_machine(task.machine, share_of(task.key)),
        }
    }
}

/// Whether a task is an extra one, of any job.
pub fn is_extra(task: &Task) -> bool
    ensures { result ≡ is_extra task.now }
{
    task.key.index >= FIRST_EXTRA
}

/// Whether a task is of a job with a lower number, or, where `own` is true, of this job.
pub fn is_until(task: &Task, job: u64, own: bool) -> bool
    ensures { result ≡ is_until job own task.now }
{
    if own {
        task.key.job <= job
    } else {
        task.key.job < job
    }
}

/// The sum of a key's job and index, modulo 2^64.
pub fn job_and_index(key: TaskKey) -> u64
    ensures { result ≡ job_and_index key }
{
    key.job.wrapping_add(u64::from(key.index))
}

/// The number that names the tree of a key. The tasks of the trace that a job has stand in many trees, and its
/// extra tasks in one.
pub fn spread_key(key: TaskKey) -> u64
    ensures { result ≡ spread_key key }
{
    if key.index < FIRST_EXTRA {
        job_and_index(key)
    } else {
        key.job
    }
}

/// Which of the trees of a machine has the task of a key, counted from 0. They are below `SHARES`.
pub fn share_of(key: TaskKey) -> u64
    ensures share { result ≡ share_of key }
    ensures below { result < 8 }
{
    job_and_index(key) % SHARES
}

/// The number that names one of a machine's trees; the share is below `SHARES`.
pub fn spread_machine(machine: u64, share: u64) -> u64
    ensures { result ≡ spread_machine machine share }
{
    machine.wrapping_mul(SHARES).wrapping_add(share)
}

/// Whether the first key stands before the second.
pub fn key_lt(a: TaskKey, b: TaskKey) -> bool
    ensures { result ≡ key_lt a b }
{
    a.job < b.job || (a.job == b.job && a.index < b.index)
}

/// Whether the task stands before all tasks of the job on the machine, by machine and key.
pub fn is_before(task: &Task, machine: u64, job: u64) -> bool
    ensures { result ≡ is_before task.now machine job }
{
    task.machine < machine || (task.machine == machine && task.key.job < job)
}

/// Whether the task stands behind all tasks of the job on the machine, by machine and key.
pub fn is_behind(task: &Task, machine: u64, job: u64) -> bool
    ensures { result ≡ is_behind task.now machine job }
{
    machine < task.machine || (machine == task.machine && job < task.key.job)
}

/// Whether the key is among these. Looks at each of them at most once.
pub fn is_among(key: TaskKey, keys: &[TaskKey]) -> bool
    ensures { result ≡ is_among key keys.now }
{
    keys.iter()
        .any(|other| key.job == other.job && key.index == other.index)
}
