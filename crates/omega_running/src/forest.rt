//! Several balanced trees of tasks in one of the two orders.
ghost use Rattle.std.specs.Prelude.{◌≡◌, ◌<◌, ◌≤◌, ◌%◌, ◌^◌, ◌++◌, [], true, length, option_map, IfOk, IfSome, OnOk, None};
ghost use Rattle.std.specs.List.{filter, AllByRecursion as Each};
ghost use Rattle.omega_model.specs.Cell.{task_at};
ghost use Rattle.omega_model.specs.Jobs.{other_of_job};
ghost use Rattle.omega_model.specs.Need.{minus};
ghost use Rattle.omega_running.specs.declared.orders.Order.TheVariants.{ByKey, ByMachine};
ghost use Rattle.omega_running.specs.declared.nodes.Tree.TheVariants.{Leaf};
ghost use Rattle.omega_running.specs.Forest.{is_at};
ghost use Rattle.omega_running.specs.Others.{first_of, other_in_share};
ghost use Rattle.omega_running.specs.Staying.{staying_on, staying_of_share};
ghost use Rattle.omega_model.specs.ExtraTasks.{is_extra_of};
ghost use Rattle.std.specs.List.Sorted.{IsPermutation};
ghost use Rattle.omega_running.specs.Order.{IsInOrder, at_place, in_share, is_apart, led_by, put_in, taken_out};
ghost use Rattle.omega_running.specs.Tree.{IsTallied, tasks_of};

use crate::nodes::{Node, Tree};
use crate::orders::{Order, Pick, SHARES, key_lt, spread_key, spread_machine};
use omega_model::{Need, NoMemory, Task, TaskKey};
use std::alloc::Global;
use std::marker::Model;

/// How many trees each of a board's two forests has: so many that a tree mostly has one task or two also where
/// 100,000 run, since each further node on a way down is one that isn't in a processor's cache. A tree takes
/// 16 bytes beside its nodes, so the two forests of a board take 8 MiB.
pub(crate) const TREES: usize = 262_144;

/// Tasks in one of the two orders. By machine, the tasks of a machine stand in up to `SHARES` trees, which its number and
/// the key of the task name together. By key, a task of the trace stands in a tree that its job and its index name
/// together, and the extra tasks of a job in one that the job names. So a way down is short however many tasks there
/// are. Each tree keeps how many extra tasks it has and each part of it has, by which those of a job are counted. A
/// contract sees the list of the tasks, and how many trees there are: none until `plant`.
#[derive(Debug, Drop)]
pub struct Forest {
    order: Order,
    trees: Vec<Tree>,
}

impl Model for Forest {
    ghost use Rattle.std.specs.Prelude.{length, map};
    ghost use Rattle.omega_running.specs.Forest.{AreTrees, SpreadTasks, gathered};
    ghost use Rattle.omega_running.specs.Tree.{tasks_of};

    ghost Value = { SpreadTasks };

    ghost view = { λ f. record { order = f.order; tasks = gathered f.order (map tasks_of f.trees.items); trees = length f.trees.items } };

    ghost invariant = { λ f. AreTrees f.order f.trees.items };
}

impl Forest {
    /// No task, and no tree.
    pub fn bare(alloc: Global, order: Order) -> Forest
        ensures order { result.order ≡ order }
        ensures tasks { result.tasks ≡ [] }
        ensures trees { result.trees ≡ 0 }
    {
        Forest {
            order,
            trees: Vec::new(alloc),
        }
    }

    /// Makes so many trees, where there are none. The tasks stay as they are. Takes the memory of the
    /// trees, once.
    pub fn plant(&mut self, alloc: Global, count: usize) -> Result<(), NoMemory>
        requires { 0 < count }
        ensures order { self.new.order ≡ self.old.order }
        ensures tasks { self.new.tasks ≡ self.old.tasks }
        ensures planted { OnOk result (0 < self.new.trees) }
        ensures kept { self.old.trees ≤ self.new.trees }
    {
        if self.trees.is_empty() {
            self.trees = leaves(alloc, count)?;
        }
        Ok(())
    }

    /// Where the tree that a number names is; `None` exactly where there is no tree.
    fn place(&self, number: u64) -> Option<usize>
        ensures none { result ≡ None → self.now.trees ≡ 0 }
        ensures nothing { result ≡ None → self.now.tasks ≡ [] }
        ensures place { IfSome result (λ place. place ≡ number % self.now.trees) }
        ensures within { IfSome result (λ place. place < self.now.trees) }
    {
        if self.trees.is_empty() {
            return None;
        }
        Some((number % self.trees.len() as u64) as usize)
    }

    /// The tree that a number names; `None` exactly where there is no tree.
    fn tree(&self, number: u64) -> Option<&Tree>
        ensures none { result ≡ None → self.now.tasks ≡ [] }
        ensures ordered { IfSome result (λ tree. IsInOrder self.now.order (tasks_of tree.now)) }
        ensures tallied { IfSome result (λ tree. IsTallied tree.now) }
        ensures part { IfSome result (λ tree. tasks_of tree.now ≡ filter (is_at self.now.order self.now.trees (number % self.now.trees)) self.now.tasks) }
    {
        let place = self.place(number)?;
        Some(&self.trees[place])
    }

    /// The task of this key. Goes down one way of one tree.
    pub fn find(&self, key: TaskKey) -> Option<&Task>
        requires { self.now.order ≡ ByKey }
        ensures { option_map (λ task. task.now) result ≡ task_at self.now.tasks key }
    {
        self.tree(spread_key(key))?.find(key)
    }

    /// Puts a task in, in the node that is handed in. Goes down one way of one tree.
    pub fn insert(&mut self, task: Task, room: Box<Node>)
        requires planted { 0 < self.old.trees }
        requires apart { Each (λ other. is_apart self.old.order task other ≡ true) self.old.tasks }
        ensures order { self.new.order ≡ self.old.order }
        ensures tasks { self.new.tasks ≡ put_in self.old.order task self.old.tasks }
        ensures trees { self.new.trees ≡ self.old.trees }
    {
        let Some(place) = self.place(self.order.spread(&task)) else {
            unreachable!()
        };
        let tree = &mut self.trees[place];
        *tree = tree.take().insert(self.order, task, room);
    }

    /// Takes out the task at this task's place, and gives its node back, if there is one. Goes down one way of
    /// one tree.
    pub fn remove(&mut self, task: &Task) -> Option<Box<Node>>
        ensures order { self.new.order ≡ self.old.order }
        ensures tasks { self.new.tasks ≡ taken_out self.old.order task.now self.old.tasks }
        ensures trees { self.new.trees ≡ self.old.trees }
        ensures out { option_map (λ node. node.value.task) result ≡ at_place self.old.order task.now self.old.tasks }
    {
        let place = self.place(self.order.spread(task))?;
        let tree = &mut self.trees[place];
        let (rest, out) = tree.take().remove(self.order, task);
        *tree = rest;
        out
    }

    /// Appends the tasks of a machine, in any order. Costs these, and one way down of each of the machine's trees.
    pub fn collect(&self, machine: u64, found: &mut Vec<Task>) -> Result<(), NoMemory>
        requires { self.now.order ≡ ByMachine }
        ensures { OnOk result (IsPermutation (found.old.items ++ led_by ByMachine machine self.now.tasks) found.new.items) }
    {
        for share in 0..SHARES {
            self.collect_share(machine, share, found)?;
        }
        Ok(())
    }

    /// Appends the tasks of a machine that stand in one of its trees.
    fn collect_share(&self, machine: u64, share: u64, found: &mut Vec<Task>) -> Result<(), NoMemory>
        requires { self.now.order ≡ ByMachine }
        ensures { OnOk result (found.new.items ≡ found.old.items ++ filter (in_share share) (led_by ByMachine machine self.now.tasks)) }
    {
        match self.tree(spread_machine(machine, share)) {
            Some(tree) => tree.collect(self.order, machine, Pick::Share(share), found),
            None => Ok(()),
        }
    }

    /// Appends the extra tasks of a job, by index. Costs these and few others of the job's tasks, and one way
    /// down of one tree.
    pub fn collect_extras(&self, job: u64, found: &mut Vec<Task>) -> Result<(), NoMemory>
        requires { self.now.order ≡ ByKey }
        ensures { OnOk result (found.new.items ≡ found.old.items ++ filter (is_extra_of job) self.now.tasks) }
    {
        match self.tree(job) {
            Some(tree) => tree.collect(self.order, job, Pick::Extras, found),
            None => Ok(()),
        }
    }

    /// How many extra tasks of a job there are. Goes down two ways of one tree.
    pub fn count_extras(&self, job: u64) -> usize
        requires by_key { self.now.order ≡ ByKey }
        requires few { length self.now.tasks < 2 ^ 32 }
        ensures { result ≡ length (filter (is_extra_of job) self.now.tasks) }
    {
        match self.tree(job) {
            Some(tree) => tree.count_extras(job),
            None => 0,
        }
    }

    /// What is left of an amount when each task of at least this precedence on the machine has taken
    /// its need; a component stops at 0. Costs the tasks on the machine, and one way down of each of the machine's
    /// trees.
    pub fn left_on(&self, machine: u64, prec: u8, amount: Need) -> Need
        requires { self.now.order ≡ ByMachine }
        ensures { result ≡ minus amount (staying_on prec self.now.tasks machine) }
    {
        let mut left = amount;
        for share in 0..SHARES {
            left = self.left_in_share(machine, share, prec, left);
        }
        left
    }

    /// What is left of an amount when each such task that stands in one of the machine's trees has taken its need.
    fn left_in_share(&self, machine: u64, share: u64, prec: u8, amount: Need) -> Need
        requires { self.now.order ≡ ByMachine }
        ensures { result ≡ minus amount (staying_of_share prec self.now.tasks machine share) }
    {
        match self.tree(spread_machine(machine, share)) {
            Some(tree) => tree.left_on(machine, share, prec, amount),
            None => amount,
        }
    }

    /// The first of the job's tasks on the machine that isn't in `gone`. Costs those of the job on the machine, each
    /// looked up in `gone`, and one way down of each of the machine's trees.
    pub fn other_of_job(&self, job: u64, machine: u64, gone: &[TaskKey]) -> Option<TaskKey>
        requires by_machine { self.now.order ≡ ByMachine }
        requires ordered { IsInOrder ByMachine self.now.tasks }
        ensures { result ≡ other_of_job self.now.tasks job machine gone.now }
    {
        let mut first = None;
        for share in 0..SHARES {
            first = first_of(first, self.other_in_share(job, machine, share, gone));
        }
        first
    }

    /// The first of those that stand in one of the machine's trees.
    fn other_in_share(
        &self,
        job: u64,
        machine: u64,
        share: u64,
        gone: &[TaskKey],
    ) -> Option<TaskKey>
        requires { self.now.order ≡ ByMachine }
        ensures { result ≡ other_in_share share self.now.tasks job machine gone.now }
    {
        self.tree(spread_machine(machine, share))?
            .other_of_job(job, machine, share, gone)
    }
}

/// The first of two keys, where both are there.
fn first_of(one: Option<TaskKey>, other: Option<TaskKey>) -> Option<TaskKey>
    ensures { result ≡ first_of one other }
{
    match (one, other) {
        (Some(a), Some(b)) if key_lt(b, a) => Some(b),
        (None, other) => other,
        (one, _) => one,
    }
}

/// So many trees of no task.
fn leaves(alloc: Global, count: usize) -> Result<Vec<Tree>, NoMemory>
    requires { 0 < count }
    ensures some { IfOk result (λ trees. 0 < length trees.items) }
    ensures empty { IfOk result (λ trees. Each (λ tree. tree ≡ Leaf) trees.items) }
{
    let mut trees = Vec::with_capacity(alloc, count)?;
    for _tree in 0..count {
        trees.push_reserved(Tree::Leaf);
    }
    Ok(trees)
}
