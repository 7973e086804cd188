//! The tasks on machines where claims stand beside a board.
ghost use Rattle.std.specs.Prelude.{◌≡◌, ◌<◌, ◌≤◌, ◌⊎◌, [], true, List, Some, IfOk, OnOk, IsPermutation, is_some, slice_get};
ghost use Rattle.std.specs.List.{filter, list_any};
ghost use Rattle.omega_model.specs.Cell.{is_on, task_at, without};
ghost use Rattle.omega_model.specs.Jobs.{stays_of_job};
ghost use Rattle.omega_model.specs.Need.{minus};
ghost use Rattle.omega_model.specs.Reply.{task_of};
ghost use Rattle.omega_model.specs.declared.cells.Machine.{Machine};
ghost use Rattle.omega_model.specs.declared.cells.Task.{Task};
ghost use Rattle.omega_machines.specs.Table.{machines_of};
ghost use Rattle.omega_running.specs.Staying.{staying_on};
ghost use Rattle.omega_plan.specs.Overlays.{tasks_with};
ghost use Rattle.omega_plan.specs.Telling.{freed_on};
ghost use Rattle.omega_plan.specs.Tenants.{AreBeside, GoesBeside, MayPlace, MayTakeOver, is_whole};

use crate::placed::{Placed, put_all};
use omega_board::Board;
use omega_model::{Claim, Need, NoMemory, Seq, Task, TaskKey, Tasks};
use omega_running::Running;
use std::alloc::Global;
use std::collections::BTreeSet;

/// The tasks of the claims that stand beside a board, and all tasks of the machines on which something
/// was evicted, which are whole: of what runs there the board has no say. A board's other machines keep
/// its tasks.
///
/// A question by machine passes over all tasks here until `plant` readies them, or something is evicted.
#[derive(Drop)]
pub(crate) struct Tenants {
    pub own: Placed,
    pub whole: BTreeSet<u64>,
}

impl Tenants {
    /// No claims.
    pub fn new(alloc: Global) -> Tenants
        ensures own { result.own.tasks ≡ [] }
        ensures whole { result.whole.keys ≡ [] }
    {
        Tenants {
            own: Placed::new(alloc),
            whole: BTreeSet::new(alloc),
        }
    }

    /// Whether all tasks of a machine are here.
    fn is_whole(&self, machine: u64) -> bool
        ensures { result ≡ is_whole self.now machine }
    {
        self.whole.contains(&machine)
    }

    /// Whether the task of this name runs. Costs two look-ups, and a third where the board has the task.
    pub fn runs(&self, board: &Running, key: TaskKey) -> bool
        ensures { (tasks : List Task) → AreBeside self.now board.now.tasks tasks → result ≡ is_some (task_at tasks key) }
    {
        if self.own.has(key) {
            return true;
        }
        match board.get(key) {
            Some(task) => !self.is_whole(task.machine),
            None => false,
        }
    }

    /// Whether a task of this job runs on a machine. Costs a look-up, and a way down of each of the machine's trees,
    /// here too or in place of that a pass over the tasks here.
    pub fn has_of_job(&self, board: &Running, job: u64, machine: u64) -> bool
        ensures { (tasks : List Task) → AreBeside self.now board.now.tasks tasks → result ≡ list_any (stays_of_job job machine []) tasks }
    {
        if self.own.has_of_job(job, machine) {
            return true;
        }
        if self.is_whole(machine) {
            return false;
        }
        board.other_of_job(job, machine, &[]).is_some()
    }

    /// The tasks on a machine, in any order. Takes the time of these, or that of all tasks here too.
    pub fn tasks_on(&self, alloc: Global, board: &Running, machine: u64) -> Result<Tasks, NoMemory>
        ensures { IfOk result (λ found. (tasks : List Task) → AreBeside self.now board.now.tasks tasks → IsPermutation (filter (is_on machine) tasks) found) }
    {
        let mut found = Vec::new(alloc);
        self.own.append_on(machine, &mut found)?;
        if self.is_whole(machine) {
            return Ok(Seq::of(found));
        }
        board.append_on(machine, &mut found)?;
        Ok(Seq::of(found))
    }

    /// What is left of an amount when each task of at least this precedence on a machine has taken its
    /// need; a component stops at 0. Takes the time of what the machine has, or of all tasks here too.
    pub fn left_on(&self, board: &Running, machine: u64, prec: u8, amount: Need) -> Need
        ensures { (tasks : List Task) → AreBeside self.now board.now.tasks tasks → result ≡ minus amount (staying_on prec tasks machine) }
    {
        let own = self.own.left_on(machine, prec, amount);
        if self.is_whole(machine) {
            return own;
        }
        board.left_on(machine, prec, own)
    }

    /// What is free on the machine at a position once all tasks of a lower precedence are off it; `None`
    /// where it isn't up. Costs the tasks on the machine, or all tasks here too.
    pub fn freed_at(&self, board: &Board, prec: u8, position: usize) -> Option<Need>
        ensures { (tasks : List Task) (machine : Machine) → AreBeside self.now board.now.tasks tasks
            → slice_get (machines_of board.now.table) position ≡ Some machine → result ≡ freed_on prec tasks machine }
    {
        let machine = board.machines().at(position)?;
        if !machine.up {
            return None;
        }
        Some(self.left_on(board.running(), machine.id, prec, machine.cap))
    }

    /// Readies the tasks for questions by machine: from now on each costs eight look-ups and what the machine has,
    /// and no pass over all of them. What runs stays the same, also where memory runs out. Costs the tasks,
    /// the first time.
    pub fn plant(&mut self, alloc: Global) -> Result<(), NoMemory>
        ensures { (board tasks : List Task) → AreBeside self.old board tasks → AreBeside self.new board tasks }
    {
        self.own.plant(alloc)
    }

    /// Takes over the board's tasks on a machine, unless it is whole already; then it is, and all tasks are
    /// ready for questions by machine. What runs stays the same, also where memory runs out. Takes the time
    /// of what the machine has, and the first time that of all tasks.
    fn take_over(&mut self, alloc: Global, board: &Running, machine: u64) -> Result<(), NoMemory>
        requires { MayTakeOver self.old board.now.tasks machine }
        ensures kept { (tasks : List Task) → AreBeside self.old board.now.tasks tasks → AreBeside self.new board.now.tasks tasks }
        ensures whole { OnOk result (is_whole self.new machine ≡ true) }
    {
        if self.is_whole(machine) {
            return Ok(());
        }
        let tasks = board.tasks_on(alloc, machine)?;
        self.own.plant(alloc)?;
        self.own.reserve(alloc, tasks.len())?;
        self.whole.insert(machine)?;
        put_all(&mut self.own, tasks.as_slice());
        Ok(())
    }

    /// Makes room for a claim with these victims on a machine, which then is whole where there are some.
    /// What runs stays the same, also where memory runs out.
    pub fn make_room(
        &mut self,
        alloc: Global,
        board: &Running,
        claim: &Claim,
    ) -> Result<(), NoMemory>
        requires { MayTakeOver self.old board.now.tasks claim.now.machine }
        ensures kept { (tasks : List Task) → AreBeside self.old board.now.tasks tasks → AreBeside self.new board.now.tasks tasks }
        ensures whole { OnOk result ((claim.now.victims ≡ []) ⊎ (is_whole self.new claim.now.machine ≡ true)) }
        ensures room { OnOk result (0 < self.new.own.spare) }
    {
        if !claim.victims.is_empty() {
            self.take_over(alloc, board, claim.machine)?;
        }
        self.own.reserve(alloc, 1)
    }

    /// Places a claim, for which room was made: its victims stop, and its task runs.
    pub fn place(&mut self, board: &Running, claim: &Claim)
        requires may { MayPlace self.old board.now.tasks claim.now }
        requires room { 0 < self.old.own.spare }
        ensures { (tasks : List Task) → GoesBeside self.old board.now.tasks claim.now tasks → AreBeside self.new board.now.tasks (tasks_with tasks claim.now) }
    {
        take_out(&mut self.own, claim.victims.as_slice());
        self.own.insert_reserved(task_of(claim));
    }
}

/// The task of a claim.
fn task_of(claim: &Claim) -> Task
    ensures { result ≡ task_of claim.now }
{
    Task {
        key: claim.key,
        machine: claim.machine,
        spec: claim.spec,
    }
}

/// Takes out the tasks of these names that are there.
fn take_out(own: &mut Placed, keys: &[TaskKey])
    ensures tasks { own.new.tasks ≡ without keys.now own.old.tasks }
    ensures room { own.old.spare ≤ own.new.spare }
{
    for key in keys {
        own.remove(*key);
    }
}
