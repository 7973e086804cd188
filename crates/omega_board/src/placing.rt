//! Placed claims: applied to the board and taken back.
ghost use Rattle.std.specs.Prelude.{◌≡◌, ◌+◌, ◌<◌, ◌≤◌, ℕ, [], ◌∷◌, None, length, sum_by, is_some, IsTrue, IfOk, if◌then◌else◌};
ghost use Rattle.omega_machines.specs.Table.{machines_of, seq_at};
ghost use Rattle.omega_model.specs.Cell.{task_at, with_task, without};
ghost use Rattle.omega_model.specs.Judge.{judge_fine};
ghost use Rattle.omega_model.specs.Reply.{tasks_placed};
ghost use Rattle.omega_model.specs.declared.claims.Verdict.TheVariants.{Placed};
ghost use Rattle.omega_board.specs.Board.{cell_of, table_with, IsBoard};
ghost use Rattle.omega_board.specs.Putting.{HasRoomFor, MayStart};
ghost use Rattle.omega_board.specs.Undo.{IsUndoOf, at_reserve, before_change, MayTakeBack};

use crate::Board;
use crate::undo::{Change, Undo};
use omega_model::{Claim, Claims, Judgement, Judgements, NoMemory, Task, TaskKey};
use std::alloc::Global;

impl Board {
    /// Makes room for placing these claims, each with its victims, and for taking them back. The
    /// machines and tasks stay, also where memory runs out, and no room is lost then. Costs the
    /// claims and their victims.
    pub fn reserve(&mut self, alloc: Global, claims: &Claims) -> Result<Undo, NoMemory>
        ensures table { self.new.table ≡ self.old.table }
        ensures tasks { self.new.tasks ≡ self.old.tasks }
        ensures kept { self.old.spare ≤ self.new.spare }
        ensures room { IfOk result (λ undo. undo ≡ record { log = []; claims = length claims.now; victims = sum_by (λ claim. length claim.victims) claims.now }) }
        ensures undo { IfOk result (λ undo. IsUndoOf self.new undo) }
        ensures content { IfOk result (λ undo. at_reserve undo self.new ≡ self.new) }
    {
        let victims = count_victims(claims.as_slice())?;
        self.reserve_room(alloc, claims.len(), victims)
    }

    /// Makes room for placing so many claims with so many victims in all, and for taking them back.
    /// The machines and tasks stay, also where memory runs out, and no room is lost then.
    pub fn reserve_room(
        &mut self,
        alloc: Global,
        claims: usize,
        victims: usize,
    ) -> Result<Undo, NoMemory>
        ensures table { self.new.table ≡ self.old.table }
        ensures tasks { self.new.tasks ≡ self.old.tasks }
        ensures kept { self.old.spare ≤ self.new.spare }
        ensures room { IfOk result (λ undo. undo ≡ record { log = []; claims = claims; victims = victims }) }
        ensures undo { IfOk result (λ undo. IsUndoOf self.new undo) }
        ensures content { IfOk result (λ undo. at_reserve undo self.new ≡ self.new) }
    {
        let undo = Undo::with_room(alloc, claims, victims)?;
        self.running.reserve(alloc, claims)?;
        Ok(undo)
    }

    /// Places a claim to which `judge` without a `copy_seq` answers `Placed` and these evicted tasks:
    /// they stop and its task runs. Sequence numbers stay. The undo has room for the claim and all its
    /// victims; this uses that room up, and `undo` takes back this claim too. Costs the tasks that stop.
    pub fn apply_placed(&mut self, claim: &Claim, evicted: &[TaskKey], undo: &mut Undo)
        requires placed { judge_fine (cell_of self.old) claim.now ≡ record { verdict = Placed; evicted = evicted.now } }
        requires undo { IsUndoOf self.old undo.old }
        requires claims { 0 < undo.old.claims }
        requires victims { length claim.now.victims ≤ undo.old.victims }
        ensures tasks { self.new.tasks ≡ tasks_placed self.old.tasks claim.now evicted.now }
        ensures machines { machines_of self.new.table ≡ machines_of self.old.table }
        ensures seqs { (id : ℕ) → seq_at self.new.table id ≡ seq_at self.old.table id }
        ensures content { at_reserve undo.new self.new ≡ at_reserve undo.old self.old }
        ensures undo { IsUndoOf self.new undo.new }
        ensures claims { undo.new.claims + 1 ≡ undo.old.claims }
        ensures victims { undo.new.victims + length claim.now.victims ≡ undo.old.victims }
    {
        for key in evicted {
            self.stop_noted(*key, undo);
        }
        undo.give_up(claim.victims.len() - evicted.len());
        let task = Task {
            key: claim.key,
            machine: claim.machine,
            spec: claim.spec,
        };
        self.start_noted(task, undo);
    }

    /// Takes back all that was placed with this undo since the reserve that gave it. The undo keeps
    /// the room that is left, with which more can be placed and taken back. Costs what changes.
    pub fn undo(&mut self, undo: &mut Undo)
        requires { IsUndoOf self.old undo.old }
        ensures board { self.new ≡ at_reserve undo.old self.old }
        ensures undo { IsUndoOf self.new undo.new }
        ensures log { undo.new.log ≡ [] }
        ensures claims { undo.new.claims ≡ undo.old.claims }
        ensures victims { undo.new.victims ≡ undo.old.victims }
    {
        while let Some(change) = undo.pop() {
            self.take_back(change);
        }
    }

    /// Stops a task and notes it.
    fn stop_noted(&mut self, key: TaskKey, undo: &mut Undo)
        requires runs { IsTrue (is_some (task_at self.old.tasks key)) }
        requires undo { IsUndoOf self.old undo.old }
        requires room { 0 < undo.old.victims }
        ensures tasks { self.new.tasks ≡ without (key ∷ []) self.old.tasks }
        ensures table { self.new.table ≡ table_with self.new.tasks self.old.table }
        ensures content { at_reserve undo.new self.new ≡ at_reserve undo.old self.old }
        ensures undo { IsUndoOf self.new undo.new }
        ensures claims { undo.new.claims ≡ undo.old.claims }
        ensures victims { undo.new.victims + 1 ≡ undo.old.victims }
    {
        if let Some(task) = self.stop(key) {
            undo.note_stopped(task);
        }
    }

    /// Starts a task and notes it.
    fn start_noted(&mut self, task: Task, undo: &mut Undo)
        requires absent { task_at self.old.tasks task.key ≡ None }
        requires fits { HasRoomFor (cell_of self.old) task }
        requires undo { IsUndoOf self.old undo.old }
        requires room { 0 < undo.old.claims }
        ensures tasks { self.new.tasks ≡ with_task task self.old.tasks }
        ensures table { self.new.table ≡ table_with self.new.tasks self.old.table }
        ensures content { at_reserve undo.new self.new ≡ at_reserve undo.old self.old }
        ensures undo { IsUndoOf self.new undo.new }
        ensures claims { undo.new.claims + 1 ≡ undo.old.claims }
        ensures victims { undo.new.victims ≡ undo.old.victims }
    {
        self.running.insert_reserved(task);
        self.table.charge(task.machine, task.spec.need);
        undo.note_started(task.key);
    }

    /// The board as before a change.
    fn take_back(&mut self, change: Change)
        requires { MayTakeBack change self.old }
        ensures { self.new ≡ before_change change self.old }
    {
        match change {
            Change::Stopped(task) => self.start(task),
            Change::Started(key) => {
                self.stop(key);
            }
        }
    }

    /// The task of this name stops, and what it used is free.
    pub(crate) fn stop(&mut self, key: TaskKey) -> Option<Task>
        ensures task { result ≡ task_at self.old.tasks key }
        ensures tasks { self.new.tasks ≡ without (key ∷ []) self.old.tasks }
        ensures table { self.new.table ≡ table_with self.new.tasks self.old.table }
        ensures spare { self.new.spare ≡ self.old.spare + (if is_some result then 1 else 0) }
        ensures board { IsBoard self.old.table self.old.tasks }
    {
        let task = self.running.remove(key)?;
        self.table.release(task.machine, task.spec.need);
        Some(task)
    }

    /// One more task runs, with which the cell is sound.
    pub(crate) fn start(&mut self, task: Task)
        requires starts { MayStart (cell_of self.old) task }
        requires room { 0 < self.old.spare }
        ensures tasks { self.new.tasks ≡ with_task task self.old.tasks }
        ensures table { self.new.table ≡ table_with self.new.tasks self.old.table }
        ensures spare { self.new.spare + 1 ≡ self.old.spare }
    {
        self.running.insert_reserved(task);
        self.table.charge(task.machine, task.spec.need);
    }
}

/// How many victims the claims have in all.
fn count_victims(claims: &[Claim]) -> Result<usize, NoMemory>
    ensures { IfOk result (λ victims. victims ≡ sum_by (λ claim. length claim.victims) claims.now) }
{
    let mut victims: usize = 0;
    for claim in claims {
        let Some(more) = victims.checked_add(claim.victims.len()) else {
            return Err(NoMemory);
        };
        victims = more;
    }
    Ok(victims)
}
