//! The running tasks.
ghost use Rattle.std.specs.Prelude.{◌≡◌, ◌+◌, ◌^◌, ◌≤◌, ◌<◌, ◌++◌, [], ◌∷◌, max, length, option_map, IsOk, IfOk, OnOk, is_some, None, vec_len, vec_capacity, if◌then◌else◌};
ghost use Rattle.std.specs.List.{filter};
ghost use Rattle.std.specs.List.Sorted.{IsPermutation};
ghost use Rattle.omega_model.specs.Cell.{task_at, with_task, without, is_on, by_rank, keys_of};
ghost use Rattle.omega_model.specs.ExtraTasks.{is_extra_of};
ghost use Rattle.omega_model.specs.Jobs.{other_of_job};
ghost use Rattle.omega_model.specs.Need.{minus};
ghost use Rattle.omega_running.specs.Staying.{staying_on};
ghost use Rattle.omega_running.specs.Kept.{KeysRise};
ghost use Rattle.omega_running.specs.Standing.{stands_in};

use crate::forest::{Forest, TREES};
use crate::nodes::{Node, task_of_key};
use crate::orders::{Order, SHARES};
use crate::standing::same_task;
use omega_model::{Keys, Need, NoMemory, Seq, Task, TaskKey, Tasks};
use std::alloc::Global;
use std::marker::Model;

/// How many tasks run and have room together at most, so that a number of 32 bits counts them. So many would take
/// several hundred GiB.
const MOST_TASKS: usize = u32::MAX as usize;

/// The nodes that one more task takes.
#[derive(Debug, Drop)]
struct Pair {
    by_key: Box<Node>,
    by_machine: Box<Node>,
}

/// The running tasks, with distinct keys. A contract sees the list of the tasks in order of key,
/// and `spare`, for how many more there is room.
#[derive(Debug, Drop)]
pub struct Running {
    by_key: Forest,
    by_machine: Forest,
    count: usize,
    pool: Vec<Pair>,
}

impl Model for Running {
    ghost use Rattle.std.specs.Prelude.{vec_len, vec_capacity};
    ghost use Rattle.omega_running.specs.Kept.{RunningTasks, AreKept};

    ghost Value = { RunningTasks };

    ghost view = { λ r. record { tasks = r.by_key.tasks; spare = vec_len r.pool } };

    ghost invariant = { λ r. AreKept r.by_key r.by_machine r.count (vec_len r.pool) (vec_capacity r.pool) };
}

impl Running {
    /// No task, and no room.
    pub fn new(alloc: Global) -> Running
        ensures tasks { result.tasks ≡ [] }
        ensures spare { result.spare ≡ 0 }
    {
        Running {
            by_key: Forest::bare(alloc, Order::ByKey),
            by_machine: Forest::bare(alloc, Order::ByMachine),
            count: 0,
            pool: Vec::new(alloc),
        }
    }

    /// The running task of this key; `None` exactly where it doesn't run. Takes time logarithmic in
    /// the number of tasks.
    pub fn get(&self, key: TaskKey) -> Option<&Task>
        ensures task { option_map (λ task. task.now) result ≡ task_at self.now.tasks key }
        ensures ordered { KeysRise self.now.tasks }
    {
        self.by_key.find(key)
    }

    /// How many tasks run. Takes time that doesn't depend on their number.
    pub fn count(&self) -> usize
        ensures count { result ≡ length self.now.tasks }
        ensures ordered { KeysRise self.now.tasks }
    {
        self.count
    }

    /// Makes room for at least `n` more tasks. The tasks stay as they are, also where memory runs
    /// out, and no room is lost then. Takes the memory and time of the room that is missing, the
    /// first time those of the trees too, and none where there is enough. Where more than 2^32 - 1 tasks would run or
    /// have room, it answers as where memory runs out.
    pub fn reserve(&mut self, alloc: Global, n: usize) -> Result<(), NoMemory>
        ensures tasks { self.new.tasks ≡ self.old.tasks }
        ensures spare { OnOk result (self.new.spare ≡ max self.old.spare n) }
        ensures kept { self.old.spare ≤ self.new.spare }
        ensures enough { n ≤ self.old.spare → IsOk result }
        ensures few { OnOk result (length self.new.tasks + n < 2 ^ 32) }
    {
        let spare = self.pool.len();
        if n <= spare {
            return Ok(());
        }
        let all = self.count.saturating_add(n);
        if all > MOST_TASKS {
            return Err(NoMemory);
        }
        self.by_key.plant(alloc, TREES)?;
        self.by_machine.plant(alloc, TREES)?;
        self.pool.reserve(all - spare)?;
        fill(&mut self.pool, alloc, n)
    }

    /// Makes one tree for all tasks by key and one for each share by machine, where there are no trees yet: for a
    /// table of few tasks, of which a program may have many. The tasks and the room stay as they are.
    pub fn keep_small(&mut self, alloc: Global) -> Result<(), NoMemory>
        ensures tasks { self.new.tasks ≡ self.old.tasks }
        ensures spare { self.new.spare ≡ self.old.spare }
    {
        self.by_key.plant(alloc, 1)?;
        self.by_machine.plant(alloc, SHARES as usize)?;
        Ok(())
    }

    /// Puts a task in, for which room was reserved. Takes time logarithmic in the number of tasks.
    pub fn insert_reserved(&mut self, task: Task)
        requires absent { task_at self.old.tasks task.key ≡ None }
        requires room { 0 < self.old.spare }
        ensures tasks { self.new.tasks ≡ with_task task self.old.tasks }
        ensures spare { self.new.spare + 1 ≡ self.old.spare }
    {
        let Some(Pair { by_key, by_machine }) = self.pool.pop() else {
            unreachable!()
        };
        self.by_key.insert(task, by_key);
        self.by_machine.insert(task, by_machine);
        self.count += 1;
    }

    /// Takes out the task of this key and answers it; `None` exactly where it doesn't run. Its room
    /// is spare then. Takes time logarithmic in the number of tasks.
    pub fn remove(&mut self, key: TaskKey) -> Option<Task>
        ensures task { result ≡ task_at self.old.tasks key }
        ensures tasks { self.new.tasks ≡ without (key ∷ []) self.old.tasks }
        ensures spare { self.new.spare ≡ self.old.spare + (if is_some result then 1 else 0) }
    {
        let by_key = self.by_key.remove(&task_of_key(key))?;
        let task = by_key.task;
        let Some(by_machine) = self.by_machine.remove(&task) else {
            unreachable!()
        };
        self.count -= 1;
        self.pool.push_reserved(Pair { by_key, by_machine });
        Some(task)
    }

    /// The keys of the tasks on a machine in order of eviction: by precedence, job and index.
    /// With k tasks on the machine, takes time k log k, and logarithmic in the number of tasks.
    pub fn on_machine(&self, alloc: Global, machine: u64) -> Result<Keys, NoMemory>
        ensures { IfOk result (λ keys. keys ≡ keys_of (by_rank (filter (is_on machine) self.now.tasks))) }
    {
        let mut found = Vec::new(alloc);
        self.by_machine.collect(machine, &mut found)?;
        found.sort_unstable_by_key(|task| (task.spec.prec, task.key.job, task.key.index));
        keys_of(alloc, &found)
    }

    /// The tasks on a machine in order of key. With k tasks on the machine, takes time k log k, and
    /// logarithmic in the number of tasks.
    pub fn tasks_on(&self, alloc: Global, machine: u64) -> Result<Tasks, NoMemory>
        ensures { IfOk result (λ tasks. tasks ≡ filter (is_on machine) self.now.tasks) }
    {
        let mut found = Vec::new(alloc);
        self.by_machine.collect(machine, &mut found)?;
        found.sort_unstable_by_key(|task| (task.key.job, task.key.index));
        Ok(Seq::of(found))
    }

    /// Appends the tasks on a machine, in any order. With k tasks on the machine, takes time k, and logarithmic in the
    /// number of tasks.
    pub fn append_on(&self, machine: u64, found: &mut Vec<Task>) -> Result<(), NoMemory>
        ensures { OnOk result (IsPermutation (found.old.items ++ filter (is_on machine) self.now.tasks) found.new.items) }
    {
        self.by_machine.collect(machine, found)
    }

    /// What is left of an amount when each task of at least this precedence on a machine has taken its
    /// need; a component stops at 0. Takes the time of what the machine has, and logarithmic in the
    /// number of tasks.
    pub fn left_on(&self, machine: u64, prec: u8, amount: Need) -> Need
        ensures { result ≡ minus amount (staying_on prec self.now.tasks machine) }
    {
        self.by_machine.left_on(machine, prec, amount)
    }

    /// Whether a task runs on the same machine with the same spec. Takes time logarithmic in the number of tasks.
    pub fn has(&self, task: &Task) -> bool
        ensures { result ≡ stands_in self.now.tasks task.now }
    {
        match self.get(task.key) {
            Some(other) => same_task(other, task),
            None => false,
        }
    }

    /// A job's running extra tasks, by index. Takes the time of these and of few others of the job's tasks,
    /// and logarithmic in the number of tasks.
    pub fn extras_of_job(&self, alloc: Global, job: u64) -> Result<Tasks, NoMemory>
        ensures { IfOk result (λ tasks. tasks ≡ filter (is_extra_of job) self.now.tasks) }
    {
        let mut found = Vec::new(alloc);
        self.by_key.collect_extras(job, &mut found)?;
        Ok(Seq::of(found))
    }

    /// How many extra tasks of a job run. Takes time logarithmic in the number of tasks.
    pub fn count_extras(&self, job: u64) -> usize
        ensures { result ≡ length (filter (is_extra_of job) self.now.tasks) }
    {
        self.by_key.count_extras(job)
    }

    /// The key of the job's task on the machine with the least index that isn't in `gone`; `None`
    /// exactly where there is none. Takes the time of the job's tasks on the machine, each looked
    /// up in `gone`, and logarithmic in the number of tasks.
    pub fn other_of_job(&self, job: u64, machine: u64, gone: &[TaskKey]) -> Option<TaskKey>
        ensures { result ≡ other_of_job self.now.tasks job machine gone.now }
    {
        self.by_machine.other_of_job(job, machine, gone)
    }
}

/// Makes nodes until there are those for `n` tasks, for which the pool has room. Takes their
/// memory. What was made stays where memory runs out.
fn fill(pool: &mut Vec<Pair>, alloc: Global, n: usize) -> Result<(), NoMemory>
    requires short { vec_len pool.old ≤ n }
    requires room { n ≤ vec_capacity pool.old }
    ensures full { OnOk result (vec_len pool.new ≡ n) }
    ensures longer { vec_len pool.old ≤ vec_len pool.new }
    ensures within { vec_len pool.new ≤ n }
    ensures capacity { vec_capacity pool.new ≡ vec_capacity pool.old }
{
    for _made in pool.len()..n {
        let by_key = Node::free(alloc)?;
        let by_machine = Node::free(alloc)?;
        pool.push_reserved(Pair { by_key, by_machine });
    }
    Ok(())
}

/// The keys of some tasks, in the same order. Takes the memory of a key for each.
pub fn keys_of(alloc: Global, tasks: &[Task]) -> Result<Keys, NoMemory>
    ensures { IfOk result (λ keys. keys ≡ keys_of tasks.now) }
{
    let mut keys = Vec::new(alloc);
    for task in tasks {
        keys.push(task.key)?;
    }
    Ok(Seq::of(keys))
}
