//! A balanced tree of tasks, in one of the two orders. It takes its nodes ready made.
ghost use Rattle.std.specs.Prelude.{◌≡◌, ◌∷◌, ◌++◌, ◌&&◌, ◌%◌, ◌<◌, ◌^◌, [], length, option_map, IfOk, OnOk, if◌then◌else◌};
ghost use Rattle.std.specs.List.{filter};
ghost use Rattle.omega_model.specs.Cell.{task_at};
ghost use Rattle.omega_model.specs.ExtraTasks.{is_extra_of};
ghost use Rattle.omega_running.specs.Others.{other_in_share};
ghost use Rattle.omega_model.specs.Need.{minus};
ghost use Rattle.omega_running.specs.declared.orders.Order.TheVariants.{ByKey, ByMachine};
ghost use Rattle.omega_running.specs.Staying.{staying_of_share, stays_against};
ghost use Rattle.omega_running.specs.Order.{IsInOrder, at_place, in_share, is_until, put_in, taken_out, led_by, picks};
ghost use Rattle.omega_running.specs.Tree.{AreTallied, IsTallied, IsTallyAround, extras_in, tasks_of, tasks_at};

use crate::orders::{
    Order, Pick, is_among, is_before, is_behind, is_extra, is_until, key_lt, share_of,
};
use omega_model::{Need, NoMemory, Spec, Task, TaskKey};
use std::alloc::Global;
use std::mem;

/// An AVL tree of tasks, from left to right in an order. Where a change makes one side of a node higher
/// than the other by two, the node is rotated, so that a way down stays logarithmic. The number of nodes
/// on the longest way down stands beside the node on top, so that to compare two sides nobody looks
/// into them. So does the number of extra tasks in the tree, as its remainder by 2^32, so that those of a job are
/// counted on two ways down. It takes no memory, since it stands in what would be empty between the height and the
/// node's address.
#[cycle(tree)]
#[derive(Debug, Drop)]
pub enum Tree {
    Leaf,
    Fork {
        height: u8,
        extras: u32,
        node: Box<Node>,
    },
}

/// A task and the trees at its two sides.
#[cycle(tree)]
#[derive(Debug, Drop)]
pub struct Node {
    left: Tree,
    right: Tree,
    pub task: Task,
}

impl Node {
    /// A node that is in no tree. Takes the memory of one node.
    pub fn free(alloc: Global) -> Result<Box<Node>, NoMemory>
        ensures left { IfOk result (λ node. tasks_of node.value.left ≡ []) }
        ensures right { IfOk result (λ node. tasks_of node.value.right ≡ []) }
    {
        let task = task_of_key(TaskKey { job: 0, index: 0 });
        Ok(Box::new(
            alloc,
            Node {
                left: Tree::Leaf,
                right: Tree::Leaf,
                task,
            },
        )?)
    }
}

/// A task of this key, by which the key's place among tasks in order of key is found. It asks for nothing.
pub fn task_of_key(key: TaskKey) -> Task
    ensures { result.key ≡ key }
{
    Task {
        key,
        machine: 0,
        spec: Spec {
            need: Need::NOTHING,
            prec: 0,
            differ: false,
        },
    }
}

impl Tree {
    /// The number of nodes on the longest way down.
    fn height(&self) -> u8 {
        match self {
            Tree::Leaf => 0,
            Tree::Fork { height, .. } => *height,
        }
    }

    /// How many extra tasks it has, as a remainder by 2^32. Looks at no task.
    fn extras(&self) -> u32
        requires { IsTallied self.now }
        ensures { result ≡ extras_in (tasks_of self.now) % 2 ^ 32 }
    {
        match self {
            Tree::Leaf => 0,
            Tree::Fork { extras, .. } => *extras,
        }
    }

    /// Takes the tree out and leaves an empty one.
    pub fn take(&mut self) -> Tree
        ensures taken { result ≡ self.old }
        ensures left { tasks_of self.new ≡ [] }
        ensures tallied { IsTallied self.new }
    {
        mem::replace(self, Tree::Leaf)
    }

    /// Puts a task in, in the node that is handed in. Goes down one way.
    pub fn insert(self, order: Order, task: Task, mut room: Box<Node>) -> Tree
        requires ordered { IsInOrder order (tasks_of self) }
        requires tallied { IsTallied self }
        ensures tasks { tasks_of result ≡ put_in order task (tasks_of self) }
        ensures tallied { IsTallied result }
    {
        room.task = task;
        self.put(order, room)
    }

    /// Puts in the task of a node that is in no tree. Goes down one way.
    fn put(self, order: Order, mut room: Box<Node>) -> Tree
        requires ordered { IsInOrder order (tasks_of self) }
        requires tallied { IsTallied self }
        ensures tasks { tasks_of result ≡ put_in order room.value.task (tasks_of self) }
        ensures tallied { IsTallied result }
    {
        match self {
            Tree::Leaf => {
                room.left = Tree::Leaf;
                room.right = Tree::Leaf;
                fork(room)
            }
            Tree::Fork {
                height,
                mut node,
                ..
            } => {
                if order.precedes(&room.task, &node.task) {
                    let before = node.left.height();
                    node.left = node.left.take().put(order, room);
                    let after = node.left.height();
                    return settled(height, node, before, after);
                }
                let before = node.right.height();
                node.right = node.right.take().put(order, room);
                let after = node.right.height();
                settled(height, node, before, after)
            }
        }
    }

    /// Takes out the task at this task's place, and gives its node back, if there is one. Goes down one way.
    pub fn remove(self, order: Order, task: &Task) -> (Tree, Option<Box<Node>>)
        requires ordered { IsInOrder order (tasks_of self) }
        requires tallied { IsTallied self }
        ensures rest { tasks_of result.0 ≡ taken_out order task.now (tasks_of self) }
        ensures tallied { IsTallied result.0 }
        ensures out { option_map (λ node. node.value.task) result.1 ≡ at_place order task.now (tasks_of self) }
    {
        let Tree::Fork {
            height,
            mut node,
            ..
        } = self
        else {
            return (Tree::Leaf, None);
        };
        if order.precedes(task, &node.task) {
            let before = node.left.height();
            let (left, out) = node.left.take().remove(order, task);
            let after = left.height();
            node.left = left;
            return (settled(height, node, before, after), out);
        }
        if order.precedes(&node.task, task) {
            let before = node.right.height();
            let (right, out) = node.right.take().remove(order, task);
            let after = right.height();
            node.right = right;
            return (settled(height, node, before, after), out);
        }
        let (left, right) = (node.left.take(), node.right.take());
        (joined(left, right), Some(node))
    }

    /// The task of this key. Goes down one way.
    pub fn find(&self, key: TaskKey) -> Option<&Task>
        requires { IsInOrder ByKey (tasks_of self.now) }
        ensures { option_map (λ task. task.now) result ≡ task_at (tasks_of self.now) key }
    {
        let mut tree = self;
        'down: while let Tree::Fork { node, .. } = tree {
            if key_lt(key, node.task.key) {
                tree = &node.left;
            } else if key_lt(node.task.key, key) {
                tree = &node.right;
            } else {
                return Some(&node.task);
            }
        }
        None
    }

    /// Appends, in order, those of the tasks that are picked of which the order's first number is this one.
    /// Costs the tasks of this number, and one way down.
    pub fn collect(
        &self,
        order: Order,
        number: u64,
        pick: Pick,
        found: &mut Vec<Task>,
    ) -> Result<(), NoMemory>
        requires { IsInOrder order (tasks_of self.now) }
        ensures { OnOk result (found.new.items ≡ found.old.items ++ filter (picks pick) (led_by order number (tasks_of self.now))) }
    {
        let Tree::Fork { node, .. } = self else {
            return Ok(());
        };
        let here = order.lead(&node.task);
        if here < number {
            return node.right.collect(order, number, pick, found);
        }
        if number < here {
            return node.left.collect(order, number, pick, found);
        }
        node.left.collect(order, number, pick, found)?;
        if pick.picks(&node.task) {
            found.push(node.task)?;
        }
        node.right.collect(order, number, pick, found)
    }

    /// How many extra tasks of a job there are. Goes down two ways.
    pub fn count_extras(&self, job: u64) -> usize
        requires ordered { IsInOrder ByKey (tasks_of self.now) }
        requires tallied { IsTallied self.now }
        requires few { length (filter (is_extra_of job) (tasks_of self.now)) < 2 ^ 32 }
        ensures { result ≡ length (filter (is_extra_of job) (tasks_of self.now)) }
    {
        let before = self.extras_until(job, false);
        let with_own = self.extras_until(job, true);
        with_own.wrapping_sub(before) as usize
    }

    /// How many extra tasks there are of the jobs with a lower number, and where `own` is true of this job too, as a
    /// remainder by 2^32. Goes down one way.
    fn extras_until(&self, job: u64, own: bool) -> u32
        requires ordered { IsInOrder ByKey (tasks_of self.now) }
        requires tallied { IsTallied self.now }
        ensures { result ≡ extras_in (filter (is_until job own) (tasks_of self.now)) % 2 ^ 32 }
    {
        let Tree::Fork { node, .. } = self else {
            return 0;
        };
        if !is_until(&node.task, job, own) {
            return node.left.extras_until(job, own);
        }
        let behind = node.right.extras_until(job, own);
        extras_around(node.left.extras(), &node.task, behind)
    }

    /// What is left of an amount when each task of at least this precedence on the machine that stands in this
    /// one of its trees has taken its need; a component stops at 0. Costs the tasks on the machine, and one way
    /// down.
    pub fn left_on(&self, machine: u64, share: u64, prec: u8, amount: Need) -> Need
        requires { IsInOrder ByMachine (tasks_of self.now) }
        ensures { result ≡ minus amount (staying_of_share prec (tasks_of self.now) machine share) }
    {
        let Tree::Fork { node, .. } = self else {
            return amount;
        };
        let here = node.task.machine;
        if here < machine {
            return node.right.left_on(machine, share, prec, amount);
        }
        if machine < here {
            return node.left.left_on(machine, share, prec, amount);
        }
        let before = node.left.left_on(machine, share, prec, amount);
        let beside = left_beside(&node.task, share, prec, before);
        node.right.left_on(machine, share, prec, beside)
    }

    /// The first of the job's tasks on the machine that stands in this one of its trees and isn't in `gone`. Costs
    /// those of the job up to it, each looked up in `gone`, and one way down.
    pub fn other_of_job(
        &self,
        job: u64,
        machine: u64,
        share: u64,
        gone: &[TaskKey],
    ) -> Option<TaskKey>
        requires { IsInOrder ByMachine (tasks_of self.now) }
        ensures { result ≡ other_in_share share (tasks_of self.now) job machine gone.now }
    {
        let Tree::Fork { node, .. } = self else {
            return None;
        };
        if is_before(&node.task, machine, job) {
            return node.right.other_of_job(job, machine, share, gone);
        }
        if is_behind(&node.task, machine, job) {
            return node.left.other_of_job(job, machine, share, gone);
        }
        let earlier = node.left.other_of_job(job, machine, share, gone);
        if earlier.is_some() {
            return earlier;
        }
        if share_of(node.task.key) == share && !is_among(node.task.key, gone) {
            return Some(node.task.key);
        }
        node.right.other_of_job(job, machine, share, gone)
    }
}

/// What is left of an amount when a task of at least this precedence has taken its need, if it stands in this one
/// of the trees of its machine.
fn left_beside(task: &Task, share: u64, prec: u8, amount: Need) -> Need
    ensures { result ≡ (if in_share share task.now && stays_against prec task.now then minus amount task.now.spec.need else amount) }
{
    if share_of(task.key) == share && prec <= task.spec.prec {
        return amount.minus(task.spec.need);
    }
    amount
}

/// How many extra tasks there are where so many stand before a task and behind it, as remainders by 2^32.
fn extras_around(before: u32, task: &Task, behind: u32) -> u32
    ensures { IsTallyAround before task.now behind result }
{
    before
        .wrapping_add(behind)
        .wrapping_add(u32::from(is_extra(task)))
}

/// How many extra tasks stand at and below a node, as a remainder by 2^32. Looks at the node's own task alone.
fn tally(node: &Node) -> u32
    requires { AreTallied node.now }
    ensures { result ≡ extras_in (tasks_at node.now) % 2 ^ 32 }
{
    extras_around(node.left.extras(), &node.task, node.right.extras())
}

/// The tree of a node, with its height and the number of its extra tasks beside it.
fn fork(node: Box<Node>) -> Tree
    requires { AreTallied node.value }
    ensures tasks { tasks_of result ≡ tasks_at node.value }
    ensures tallied { IsTallied result }
{
    let height = node.left.height().max(node.right.height());
    Tree::Fork {
        height: height.saturating_add(1),
        extras: tally(&node),
        node,
    }
}

/// The tree of a node that had this height, and of which one side changed: that side's height was `before`
/// and is `after`. Where these are the same, the node's height stays. Its extra tasks are counted anew in any case.
fn settled(height: u8, node: Box<Node>, before: u8, after: u8) -> Tree
    requires { AreTallied node.value }
    ensures tasks { tasks_of result ≡ tasks_at node.value }
    ensures tallied { IsTallied result }
{
    if before == after {
        let extras = tally(&node);
        return Tree::Fork {
            height,
            extras,
            node,
        };
    }
    balanced(node)
}

/// The tree of a node. Where one side is higher by more than one, tasks move to the other side.
fn balanced(mut node: Box<Node>) -> Tree
    requires { AreTallied node.value }
    ensures tasks { tasks_of result ≡ tasks_at node.value }
    ensures tallied { IsTallied result }
{
    let (left, right) = (node.left.height(), node.right.height());
    if left > right.saturating_add(1) {
        node.left = leaning_left(node.left.take());
        return rotated_right(node);
    }
    if right > left.saturating_add(1) {
        node.right = leaning_right(node.right.take());
        return rotated_left(node);
    }
    fork(node)
}

/// The same tasks, with the left side at least as high as the right one.
fn leaning_left(tree: Tree) -> Tree
    requires { IsTallied tree }
    ensures tasks { tasks_of result ≡ tasks_of tree }
    ensures tallied { IsTallied result }
{
    match tree {
        Tree::Leaf => Tree::Leaf,
        Tree::Fork {
            height,
            extras,
            node,
        } => {
            if node.left.height() < node.right.height() {
                rotated_left(node)
            } else {
                Tree::Fork {
                    height,
                    extras,
                    node,
                }
            }
        }
    }
}

/// The same tasks, with the right side at least as high as the left one.
fn leaning_right(tree: Tree) -> Tree
    requires { IsTallied tree }
    ensures tasks { tasks_of result ≡ tasks_of tree }
    ensures tallied { IsTallied result }
{
    match tree {
        Tree::Leaf => Tree::Leaf,
        Tree::Fork {
            height,
            extras,
            node,
        } => {
            if node.right.height() < node.left.height() {
                rotated_right(node)
            } else {
                Tree::Fork {
                    height,
                    extras,
                    node,
                }
            }
        }
    }
}

/// The tree of a node, with the node at its left on top.
fn rotated_right(mut node: Box<Node>) -> Tree
    requires { AreTallied node.value }
    ensures tasks { tasks_of result ≡ tasks_at node.value }
    ensures tallied { IsTallied result }
{
    match node.left.take() {
        Tree::Leaf => fork(node),
        Tree::Fork { node: mut top, .. } => {
            node.left = top.right.take();
            top.right = fork(node);
            fork(top)
        }
    }
}

/// The tree of a node, with the node at its right on top.
fn rotated_left(mut node: Box<Node>) -> Tree
    requires { AreTallied node.value }
    ensures tasks { tasks_of result ≡ tasks_at node.value }
    ensures tallied { IsTallied result }
{
    match node.right.take() {
        Tree::Leaf => fork(node),
        Tree::Fork { node: mut top, .. } => {
            node.right = top.left.take();
            top.left = fork(node);
            fork(top)
        }
    }
}

/// One tree of the tasks of two, of which the heights differ by at most one.
fn joined(left: Tree, right: Tree) -> Tree
    requires left { IsTallied left }
    requires right { IsTallied right }
    ensures tasks { tasks_of result ≡ tasks_of left ++ tasks_of right }
    ensures tallied { IsTallied result }
{
    match right {
        Tree::Leaf => left,
        Tree::Fork { node, .. } => {
            let (mut first, rest) = without_first(node);
            first.left = left;
            first.right = rest;
            balanced(first)
        }
    }
}

/// The node of the first task, which has no sides then, and a tree of the others.
fn without_first(mut node: Box<Node>) -> (Box<Node>, Tree)
    requires { AreTallied node.value }
    ensures tasks { tasks_at node.value ≡ result.0.value.task ∷ tasks_of result.1 }
    ensures tallied { IsTallied result.1 }
{
    match node.left.take() {
        Tree::Leaf => {
            let rest = node.right.take();
            (node, rest)
        }
        Tree::Fork { node: left, .. } => {
            let (first, rest) = without_first(left);
            node.left = rest;
            (first, balanced(node))
        }
    }
}
