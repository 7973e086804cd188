//! Parts of a board: taken off it, and put on another.
ghost use Rattle.std.specs.Prelude.{◌≡◌, ◌≤◌, ◌<◌, ◌++◌, ℕ, false, [], Some, length, slice_get, OnOk, OnErr, IfOk, if◌then◌else◌, ◌==◌};
ghost use Rattle.std.specs.List.{filter, fold, AllByRecursion as Each};
ghost use Rattle.omega_machines.specs.Table.{machines_of, seq_at};
ghost use Rattle.omega_model.specs.Cell.{is_on, keys_of, use_on};
ghost use Rattle.omega_model.specs.Fields.{greatest};
ghost use Rattle.omega_model.specs.Limits.{most_machines};
ghost use Rattle.omega_model.specs.Machines.{change, numbers_of};
ghost use Rattle.omega_model.specs.Need.{Fits};
ghost use Rattle.omega_running.specs.Kept.{KeysRise};
ghost use Rattle.omega_board.specs.Board.{cell_of};
ghost use Rattle.omega_board.specs.Parts.{part_at, Target, LeadTo, MayPut, IsAt, bare, whole};
ghost use Rattle.omega_board.specs.Putting.{lacking, gone_of, came_of, listed_parts, with_row, seq_put, with_tasks_of, MayPutRow, MayStartAll};

use crate::Board;
use omega_model::{Copied, Machine, NoMemory, Part, Parts, Seq, Task, TaskKey};
use omega_running::stands_in;
use std::alloc::Global;

impl Board {
    /// The machine at a position, with its sequence number and its running tasks in order of key.
    /// Costs its attributes and its tasks, also in memory.
    pub fn part(&self, alloc: Global, position: usize) -> Result<Part, NoMemory>
        requires { position < length self.now.table }
        ensures { IfOk result (λ part. part_at self.now position ≡ Some part) }
    {
        let machine = self.table.at(position).unwrap().copy(alloc)?;
        let seq = self.table.seq(machine.id);
        let tasks = self.running.tasks_on(alloc, machine.id)?;
        Ok(Part {
            position: position as u64,
            machine,
            seq,
            tasks,
        })
    }

    /// A board with the same machines, sequence numbers and tasks. Costs the machines with their
    /// attributes, and the tasks, also in memory.
    pub fn copy(&self, alloc: Global) -> Result<Board, NoMemory>
        ensures cell { IfOk result (λ board. cell_of board ≡ cell_of self.now) }
        ensures seqs { IfOk result (λ board. (id : ℕ) → seq_at board.table id ≡ seq_at self.now.table id) }
    {
        let parts = self.parts(alloc)?;
        let mut board = Board::new(alloc);
        board.put_parts(alloc, parts)?;
        Ok(board)
    }

    /// The parts of all machines, which lead from the empty board to this one.
    fn parts(&self, alloc: Global) -> Result<Parts, NoMemory>
        ensures { IfOk result (λ parts. LeadTo bare parts (whole self.now)) }
    {
        let mut parts = Vec::new(alloc);
        for position in 0..self.table.len() {
            parts.push(self.part(alloc, position)?)?;
        }
        Ok(Seq::of(parts))
    }

    /// Puts parts in place of what their machines are on this board. They are what changed between
    /// it and another sound cell: each has a machine that the board has at this position, or that is
    /// new behind the others, and all of them are put at once, since a task may move from one to
    /// another. Where memory runs out, the machines and tasks stay, and no room is lost.
    ///
    /// Costs the parts and the tasks that run on their machines, which are copied to be compared, each
    /// task looked up once; and what differs: a task that stands on its machine as before isn't touched.
    pub fn put_parts(&mut self, alloc: Global, parts: Parts) -> Result<(), NoMemory>
        requires { MayPut self.old parts }
        ensures put { OnOk result ((target : Target) → LeadTo self.old parts target → IsAt target self.new) }
        ensures table { OnErr result (self.new.table ≡ self.old.table) }
        ensures tasks { OnErr result (self.new.tasks ≡ self.old.tasks) }
        ensures room { OnErr result (self.old.spare ≤ self.new.spare) }
    {
        let gone = self.gone(alloc, parts.as_slice())?;
        let came = self.came(alloc, parts.as_slice())?;
        self.running.reserve(alloc, came.len())?;
        self.list_parts(parts.as_slice())?;
        self.stop_all(&gone);
        self.put_rows(parts);
        self.start_all(&came);
        Ok(())
    }

    /// The names of the tasks on the parts' machines that the parts lack.
    fn gone(&self, alloc: Global, parts: &[Part]) -> Result<Vec<TaskKey>, NoMemory>
        requires { Each (λ part. KeysRise part.tasks) parts.now }
        ensures { IfOk result (λ gone. gone.items ≡ keys_of (gone_of self.now.tasks parts.now)) }
    {
        let mut gone = Vec::new(alloc);
        for part in parts {
            let tasks = self.running.tasks_on(alloc, part.machine.id)?;
            note_gone(tasks.as_slice(), part.tasks.as_slice(), &mut gone)?;
        }
        Ok(gone)
    }

    /// The tasks of the parts that don't run.
    fn came(&self, alloc: Global, parts: &[Part]) -> Result<Vec<Task>, NoMemory>
        ensures { IfOk result (λ came. came.items ≡ came_of self.now.tasks parts.now) }
    {
        let mut came = Vec::new(alloc);
        for part in parts {
            self.note_came(part.tasks.as_slice(), &mut came)?;
        }
        Ok(came)
    }

    /// Appends those of some tasks that don't run.
    fn note_came(&self, tasks: &[Task], came: &mut Vec<Task>) -> Result<(), NoMemory>
        ensures { OnOk result (came.new.items ≡ came.old.items ++ lacking self.now.tasks tasks.now) }
    {
        for task in tasks {
            if !self.running.has(task) {
                came.push(*task)?;
            }
        }
        Ok(())
    }

    /// The machines of the parts are in the list, those at its end that weren't there.
    fn list_parts(&mut self, parts: &[Part]) -> Result<(), NoMemory>
        requires { length (listed_parts self.old.table parts.now) ≤ most_machines }
        ensures ok { OnOk result (self.new ≡ record self.old { table = listed_parts self.old.table parts.now }) }
        ensures err { OnErr result (self.new ≡ self.old) }
    {
        let count = self.table.len();
        for part in parts {
            if let Err(error) = self.list(part.machine.id) {
                self.table.truncate(count);
                return Err(error);
            }
        }
        Ok(())
    }

    /// The rows and the sequence numbers of the parts are on the board.
    fn put_rows(&mut self, parts: Parts)
        requires { Each (MayPutRow (numbers_of (machines_of self.old.table)) self.old.tasks) parts }
        ensures machines { machines_of self.new.table ≡ fold with_row (machines_of self.old.table) parts }
        ensures seqs { (id : ℕ) → seq_at self.new.table id ≡ fold (seq_put id) (seq_at self.old.table id) parts }
        ensures tasks { self.new.tasks ≡ self.old.tasks }
        ensures spare { self.new.spare ≡ self.old.spare }
    {
        for part in parts.into_items() {
            let Part {
                position,
                machine,
                seq,
                ..
            } = part;
            self.put_row(position as usize, machine, seq);
        }
    }

    /// The machine at a position has this row and this sequence number.
    fn put_row(&mut self, position: usize, machine: Machine, seq: u64)
        requires there { slice_get (numbers_of (machines_of self.old.table)) position ≡ Some machine.id }
        requires cap { Fits machine.cap greatest }
        requires in_use { Fits (use_on self.old.tasks machine.id) machine.cap }
        requires down { machine.up ≡ false → filter (is_on machine.id) self.old.tasks ≡ [] }
        ensures machines { machines_of self.new.table ≡ change machine.id (λ _. machine) (machines_of self.old.table) }
        ensures seqs { (id : ℕ) → seq_at self.new.table id ≡ (if machine.id == id then seq else seq_at self.old.table id) }
        ensures tasks { self.new.tasks ≡ self.old.tasks }
        ensures spare { self.new.spare ≡ self.old.spare }
    {
        let used = self.use_on(machine.id);
        self.table.put(position, machine, used, seq);
    }

    /// Some more tasks run, one after the other.
    fn start_all(&mut self, tasks: &[Task])
        requires starts { MayStartAll (cell_of self.old) tasks.now }
        requires room { length tasks.now ≤ self.old.spare }
        ensures tasks { self.new.tasks ≡ with_tasks_of self.old.tasks tasks.now }
        ensures machines { machines_of self.new.table ≡ machines_of self.old.table }
        ensures seqs { (id : ℕ) → seq_at self.new.table id ≡ seq_at self.old.table id }
    {
        for task in tasks {
            self.start(*task);
        }
    }
}

/// Appends the names of those of a machine's tasks that its part lacks.
fn note_gone(running: &[Task], tasks: &[Task], gone: &mut Vec<TaskKey>) -> Result<(), NoMemory>
    requires { KeysRise tasks.now }
    ensures { OnOk result (gone.new.items ≡ gone.old.items ++ keys_of (lacking tasks.now running.now)) }
{
    for task in running {
        if !stands_in(tasks, task) {
            gone.push(task.key)?;
        }
    }
    Ok(())
}
