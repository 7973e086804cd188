//! Changes of one machine, each counted on it.
ghost use Rattle.std.specs.Prelude.{◌≡◌, ◌-◌, ◌≤◌, ◌<◌, ◌^◌, ℕ, [], OnOk, OnErr, IsTrue};
ghost use Rattle.std.specs.List.{filter};
ghost use Rattle.omega_machines.specs.Table.{machines_of, ensured_states, seq_at};
ghost use Rattle.omega_model.specs.Applying.{ListsOrHasRoom};
ghost use Rattle.omega_model.specs.Cell.{is_on, use_on, without};
ghost use Rattle.omega_model.specs.Fields.{greatest};
ghost use Rattle.omega_model.specs.Machines.{is_listed, change, ensured, added, updated, removed, attr_set, attr_deleted};
ghost use Rattle.omega_model.specs.Need.{Fits};
ghost use Rattle.omega_board.specs.Board.{CountsOn};

use crate::Board;
use omega_model::{Bytes, Need, NoMemory, TaskKey};

impl Board {
    /// The machine is in the list, and these tasks stop.
    pub(crate) fn displace(&mut self, machine: u64, gone: &[TaskKey]) -> Result<(), NoMemory>
        requires { ListsOrHasRoom (machines_of self.old.table) machine }
        ensures machines { OnOk result (machines_of self.new.table ≡ ensured machine (machines_of self.old.table)) }
        ensures tasks { OnOk result (self.new.tasks ≡ without gone.now self.old.tasks) }
        ensures seqs { OnOk result ((id : ℕ) → seq_at self.new.table id ≡ seq_at self.old.table id) }
        ensures err { OnErr result (self.new ≡ self.old) }
    {
        self.list(machine)?;
        self.stop_all(gone);
        Ok(())
    }

    /// The machine is in the list, at its end where it wasn't there.
    pub(crate) fn list(&mut self, id: u64) -> Result<(), NoMemory>
        requires { ListsOrHasRoom (machines_of self.old.table) id }
        ensures ok { OnOk result (self.new ≡ record self.old { table = ensured_states id self.old.table }) }
        ensures err { OnErr result (self.new ≡ self.old) }
    {
        self.table.ensure(id)
    }

    /// These tasks stop.
    pub(crate) fn stop_all(&mut self, keys: &[TaskKey])
        ensures tasks { self.new.tasks ≡ without keys.now self.old.tasks }
        ensures machines { machines_of self.new.table ≡ machines_of self.old.table }
        ensures seqs { (id : ℕ) → seq_at self.new.table id ≡ seq_at self.old.table id }
        ensures room { self.old.spare ≤ self.new.spare }
    {
        for key in keys {
            self.stop(*key);
        }
    }

    /// The machine is up, with this capacity.
    pub(crate) fn bring_up(&mut self, id: u64, cap: Need)
        requires listed { IsTrue (is_listed id (machines_of self.old.table)) }
        requires cap { Fits cap greatest }
        requires in_use { Fits (use_on self.old.tasks id) cap }
        requires seq { seq_at self.old.table id < 2 ^ 64 - 1 }
        ensures machines { machines_of self.new.table ≡ change id (added cap) (machines_of self.old.table) }
        ensures tasks { self.new.tasks ≡ self.old.tasks }
        ensures seqs { CountsOn id self.old.table self.new.table }
    {
        self.table.add(id, cap);
        self.table.touch(id);
    }

    /// The machine has this capacity.
    pub(crate) fn resize(&mut self, id: u64, cap: Need)
        requires listed { IsTrue (is_listed id (machines_of self.old.table)) }
        requires cap { Fits cap greatest }
        requires in_use { Fits (use_on self.old.tasks id) cap }
        requires seq { seq_at self.old.table id < 2 ^ 64 - 1 }
        ensures machines { machines_of self.new.table ≡ change id (updated cap) (machines_of self.old.table) }
        ensures tasks { self.new.tasks ≡ self.old.tasks }
        ensures seqs { CountsOn id self.old.table self.new.table }
    {
        self.table.update(id, cap);
        self.table.touch(id);
    }

    /// The machine is down, on which no task runs.
    pub(crate) fn take_down(&mut self, id: u64)
        requires listed { IsTrue (is_listed id (machines_of self.old.table)) }
        requires empty { filter (is_on id) self.old.tasks ≡ [] }
        requires seq { seq_at self.old.table id < 2 ^ 64 - 1 }
        ensures machines { machines_of self.new.table ≡ change id removed (machines_of self.old.table) }
        ensures tasks { self.new.tasks ≡ self.old.tasks }
        ensures seqs { CountsOn id self.old.table self.new.table }
    {
        self.table.remove(id);
        self.table.touch(id);
    }

    /// The machine is in the list, with this value for the attribute.
    pub(crate) fn put_attr(&mut self, id: u64, name: &Bytes, value: &Bytes) -> Result<(), NoMemory>
        requires room { ListsOrHasRoom (machines_of self.old.table) id }
        requires seq { seq_at self.old.table id < 2 ^ 64 - 1 }
        ensures machines { OnOk result (machines_of self.new.table ≡ change id (attr_set name.now value.now) (ensured id (machines_of self.old.table))) }
        ensures seqs { OnOk result (CountsOn id self.old.table self.new.table) }
        ensures tasks { self.new.tasks ≡ self.old.tasks }
        ensures err { OnErr result (self.new ≡ self.old) }
    {
        self.table.ensure_attr(id, name, value)?;
        self.table.touch(id);
        Ok(())
    }

    /// The machine is without the attribute.
    pub(crate) fn unset_attr(&mut self, id: u64, name: &Bytes)
        requires listed { IsTrue (is_listed id (machines_of self.old.table)) }
        requires seq { seq_at self.old.table id < 2 ^ 64 - 1 }
        ensures machines { machines_of self.new.table ≡ change id (attr_deleted name.now) (machines_of self.old.table) }
        ensures tasks { self.new.tasks ≡ self.old.tasks }
        ensures seqs { CountsOn id self.old.table self.new.table }
    {
        self.table.delete_attr(id, name);
        self.table.touch(id);
    }
}
