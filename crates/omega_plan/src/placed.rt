//! The tasks that claims placed beside a board.
ghost use Rattle.std.specs.Prelude.{◌≡◌, ◌+◌, ◌-◌, ◌<◌, ◌≤◌, ◌++◌, ◌∷◌, [], None, IfOk, OnOk, is_some, length, not, vec_len, vec_capacity};
ghost use Rattle.std.specs.List.{filter, insert, list_any};
ghost use Rattle.std.specs.List.Sorted.{IsPermutation};
ghost use Rattle.omega_model.specs.Cell.{is_on, task_at, with_task, without};
ghost use Rattle.omega_model.specs.Jobs.{stays_of_job};
ghost use Rattle.omega_model.specs.Keys.{is_among};
ghost use Rattle.omega_model.specs.Need.{minus};
ghost use Rattle.omega_model.specs.declared.cells.Task.{Task};
ghost use Rattle.omega_running.specs.Kept.{KeysRise};
ghost use Rattle.omega_running.specs.Order.{put_in};
ghost use Rattle.omega_running.specs.Staying.{staying_on};
ghost use Rattle.omega_running.specs.declared.orders.Order.TheVariants.{ByKey};
ghost use Rattle.omega_plan.specs.Tenants.{MayPutAll, put_all};

use omega_model::{Need, NoMemory, Task, TaskKey};
use omega_running::{Running, halves, is_among, key_lt, task_in};
use std::alloc::Global;
use std::marker::Model;

/// Tasks with distinct keys. They stand in a list in order of key until `plant` puts them into trees, by key and
/// by machine, for which each task takes two nodes. In the list a key is found in the time of the logarithm of
/// the number of tasks, and what a machine has in that of all tasks; in trees both in the logarithm, and what is
/// found. So a list serves where few tasks stand or few questions name a machine.
///
/// A contract sees the list of the tasks in order of key, and `spare`, for how many more there is room.
#[derive(Drop)]
pub(crate) struct Placed {
    list: Vec<Task>,
    trees: Option<Running>,
}

impl Model for Placed {
    ghost use Rattle.std.specs.Prelude.{◌-◌, vec_len, vec_capacity};
    ghost use Rattle.omega_running.specs.Kept.{KeysRise, RunningTasks};
    ghost use Rattle.omega_plan.specs.Placed.{seen};

    ghost Value = { RunningTasks };

    ghost view = { λ p. seen p.list.items (vec_capacity p.list - vec_len p.list) p.trees };

    ghost invariant = { λ p. KeysRise p.list.items };
}

impl Placed {
    /// No task, in a list. Takes no memory.
    pub fn new(alloc: Global) -> Placed
        ensures { result.tasks ≡ [] }
    {
        Placed {
            list: Vec::new(alloc),
            trees: None,
        }
    }

    /// No task, in trees. Takes no memory.
    fn in_trees(alloc: Global) -> Placed
        ensures { result.tasks ≡ [] }
    {
        Placed {
            list: Vec::new(alloc),
            trees: Some(Running::new(alloc)),
        }
    }

    /// Whether there is a task of this key. Takes time logarithmic in the number of tasks.
    pub fn has(&self, key: TaskKey) -> bool
        ensures { result ≡ is_some (task_at self.now.tasks key) }
    {
        match &self.trees {
            Some(trees) => trees.get(key).is_some(),
            None => has_key(self.list.as_slice(), key),
        }
    }

    /// Whether there is a task of this job on a machine. In a list, takes the time of all tasks.
    pub fn has_of_job(&self, job: u64, machine: u64) -> bool
        ensures { result ≡ list_any (stays_of_job job machine []) self.now.tasks }
    {
        match &self.trees {
            Some(trees) => trees_have_of_job(trees, job, machine),
            None => has_of_job(self.list.as_slice(), job, machine),
        }
    }

    /// Appends the tasks on a machine, in any order. In a list, takes the time of all tasks.
    pub fn append_on(&self, machine: u64, found: &mut Vec<Task>) -> Result<(), NoMemory>
        ensures { OnOk result (IsPermutation (found.old.items ++ filter (is_on machine) self.now.tasks) found.new.items) }
    {
        match &self.trees {
            Some(trees) => trees.append_on(machine, found),
            None => append_on(self.list.as_slice(), machine, found),
        }
    }

    /// What is left of an amount when each task of at least this precedence on a machine has taken its
    /// need; a component stops at 0. In a list, takes the time of all tasks.
    pub fn left_on(&self, machine: u64, prec: u8, amount: Need) -> Need
        ensures { result ≡ minus amount (staying_on prec self.now.tasks machine) }
    {
        match &self.trees {
            Some(trees) => trees.left_on(machine, prec, amount),
            None => left_on(self.list.as_slice(), machine, prec, amount),
        }
    }

    /// Makes room for at least `n` more tasks. The tasks stay as they are, also where memory runs out.
    pub fn reserve(&mut self, alloc: Global, n: usize) -> Result<(), NoMemory>
        ensures tasks { self.new.tasks ≡ self.old.tasks }
        ensures room { OnOk result (n ≤ self.new.spare) }
    {
        match &mut self.trees {
            Some(trees) => reserve(trees, alloc, n),
            None => Ok(self.list.reserve(n)?),
        }
    }

    /// Puts a task in, for which room was made. In a list, takes the time of the tasks of greater keys.
    pub fn insert_reserved(&mut self, task: Task)
        requires absent { task_at self.old.tasks task.key ≡ None }
        requires room { 0 < self.old.spare }
        ensures tasks { self.new.tasks ≡ with_task task self.old.tasks }
        ensures spare { self.new.spare + 1 ≡ self.old.spare }
    {
        match &mut self.trees {
            Some(trees) => trees.insert_reserved(task),
            None => put_in(&mut self.list, task),
        }
    }

    /// Takes out the task of this key, where there is one. In a list, takes the time of all tasks; a plan takes
    /// none out of a list, since its victims stand in trees.
    pub fn remove(&mut self, key: TaskKey)
        ensures tasks { self.new.tasks ≡ without (key ∷ []) self.old.tasks }
        ensures spare { self.old.spare ≤ self.new.spare }
    {
        match &mut self.trees {
            Some(trees) => {
                let _ = trees.remove(key);
            }
            None => take_out(&mut self.list, key),
        }
    }

    /// Puts the tasks into trees, where they stand in a list. They stay as they are, also where memory
    /// runs out; room for more has to be made again.
    pub fn plant(&mut self, alloc: Global) -> Result<(), NoMemory>
        ensures { self.new.tasks ≡ self.old.tasks }
    {
        if self.trees.is_some() {
            return Ok(());
        }
        *self = planted(alloc, self.list.as_slice())?;
        Ok(())
    }
}

/// Tasks in order of key, in trees.
fn planted(alloc: Global, tasks: &[Task]) -> Result<Placed, NoMemory>
    requires { KeysRise tasks.now }
    ensures { IfOk result (λ placed. placed.tasks ≡ tasks.now) }
{
    let mut placed = Placed::in_trees(alloc);
    placed.reserve(alloc, tasks.len())?;
    put_all(&mut placed, tasks);
    Ok(placed)
}

/// Puts tasks in that aren't there, for which room was made.
pub(crate) fn put_all(placed: &mut Placed, tasks: &[Task])
    requires may { MayPutAll placed.old.tasks tasks.now }
    requires room { length tasks.now ≤ placed.old.spare }
    ensures { placed.new.tasks ≡ put_all placed.old.tasks tasks.now }
{
    for task in tasks {
        placed.insert_reserved(*task);
    }
}

/// Makes room for at least `n` more tasks in trees of few. They stay as they are.
fn reserve(trees: &mut Running, alloc: Global, n: usize) -> Result<(), NoMemory>
    ensures tasks { trees.new.tasks ≡ trees.old.tasks }
    ensures room { OnOk result (n ≤ trees.new.spare) }
{
    trees.keep_small(alloc)?;
    trees.reserve(alloc, n)
}

/// Whether there is a task of this key among tasks in order of key. The last one is looked at first.
fn has_key(tasks: &[Task], key: TaskKey) -> bool
    requires { KeysRise tasks.now }
    ensures { result ≡ is_some (task_at tasks.now key) }
{
    let Some((last, _before)) = tasks.split_last() else {
        return false;
    };
    if key_lt(last.key, key) {
        return false;
    }
    task_in(tasks, key).is_some()
}

/// Where a task of this key would stand among tasks in order of key. The end is looked at first.
fn place_of(tasks: &[Task], key: TaskKey) -> usize
    requires { KeysRise tasks.now }
    ensures bound { result ≤ length tasks.now }
    ensures place { (task : Task) → task.key ≡ key → put_in ByKey task tasks.now ≡ insert tasks.now result task }
{
    let Some((last, _before)) = tasks.split_last() else {
        return 0;
    };
    if key_lt(last.key, key) {
        return tasks.len();
    }
    place_within(tasks, key)
}

/// The same, by halves.
fn place_within(tasks: &[Task], key: TaskKey) -> usize
    requires { KeysRise tasks.now }
    ensures bound { result ≤ length tasks.now }
    ensures place { (task : Task) → task.key ≡ key → put_in ByKey task tasks.now ≡ insert tasks.now result task }
{
    if tasks.is_empty() {
        return 0;
    }
    let (before, task, behind) = halves(tasks);
    if key_lt(key, task.key) {
        return place_within(before, key);
    }
    before.len() + 1 + place_within(behind, key)
}

/// Puts a task into a list in order of key, for which it has room.
fn put_in(list: &mut Vec<Task>, task: Task)
    requires rise { KeysRise list.old.items }
    requires absent { task_at list.old.items task.key ≡ None }
    requires room { vec_len list.old < vec_capacity list.old }
    ensures items { list.new.items ≡ with_task task list.old.items }
    ensures rise { KeysRise list.new.items }
    ensures len { vec_len list.new ≡ vec_len list.old + 1 }
    ensures capacity { vec_capacity list.new ≡ vec_capacity list.old }
{
    let place = place_of(list.as_slice(), task.key);
    let Ok(()) = list.insert(place, task) else {
        unreachable!()
    };
}

/// Takes the task of this key out of a list, where there is one.
fn take_out(list: &mut Vec<Task>, key: TaskKey)
    requires { KeysRise list.old.items }
    ensures items { list.new.items ≡ without (key ∷ []) list.old.items }
    ensures rise { KeysRise list.new.items }
    ensures room { vec_capacity list.old - vec_len list.old ≤ vec_capacity list.new - vec_len list.new }
{
    list.retain(|task| has_other_key(task, key));
}

/// Whether a task has another key.
fn has_other_key(task: &Task, key: TaskKey) -> bool
    ensures { result ≡ not (is_among task.now.key (key ∷ [])) }
{
    !is_among(task.key, &[key])
}

/// Whether there is a task of this job on a machine, in trees.
fn trees_have_of_job(trees: &Running, job: u64, machine: u64) -> bool
    ensures { result ≡ list_any (stays_of_job job machine []) trees.now.tasks }
{
    trees.other_of_job(job, machine, &[]).is_some()
}

/// Whether there is a task of this job on a machine, in a list.
fn has_of_job(tasks: &[Task], job: u64, machine: u64) -> bool
    ensures { result ≡ list_any (stays_of_job job machine []) tasks.now }
{
    tasks
        .iter()
        .any(|task| task.key.job == job && task.machine == machine)
}

/// Appends the tasks on a machine, in their order.
fn append_on(tasks: &[Task], machine: u64, found: &mut Vec<Task>) -> Result<(), NoMemory>
    ensures { OnOk result (found.new.items ≡ found.old.items ++ filter (is_on machine) tasks.now) }
{
    for task in tasks {
        if task.machine == machine {
            found.push(*task)?;
        }
    }
    Ok(())
}

/// What is left of an amount when each task of at least this precedence on a machine has taken its need.
fn left_on(tasks: &[Task], machine: u64, prec: u8, amount: Need) -> Need
    ensures { result ≡ minus amount (staying_on prec tasks.now machine) }
{
    let mut left = amount;
    for task in tasks {
        left = left_by(task, machine, prec, left);
    }
    left
}

/// What is left of an amount when a task, if it is on the machine and of at least this precedence, has taken
/// its need.
fn left_by(task: &Task, machine: u64, prec: u8, amount: Need) -> Need
    ensures { result ≡ minus amount (staying_on prec (task.now ∷ []) machine) }
{
    if task.machine != machine || task.spec.prec < prec {
        return amount;
    }
    amount.minus(task.spec.need)
}
