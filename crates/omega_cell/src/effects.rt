//! What the entries of a history do that doesn't stand in them.
ghost use Rattle.std.specs.Prelude.{◌≡◌, ◌++◌, [], IfOk, OnOk};
ghost use Rattle.omega_board.specs.Board.{cell_of};
ghost use Rattle.omega_model.specs.Cell.{Cell, keys_of};
ghost use Rattle.omega_model.specs.State.{displaced};
ghost use Rattle.omega_cell.specs.Effects.{HasNoteRoom, displaced_at, usage_at, usage_in};

use crate::copying::copy_all;
use omega_board::Board;
use omega_model::{Entry, Keys, Need, NoMemory, Seq};
use std::alloc::Global;
use std::marker::Model;

/// What is in use on the machines that are up, and what they have.
#[derive(Clone, Copy, Debug, PartialEq, Eq)]
pub struct Usage {
    pub used: Need,
    pub capacity: Need,
}

impl Usage {
    /// The usage of a board. Takes the same time for any board.
    pub(crate) fn of(board: &Board) -> Usage
        ensures { result ≡ usage_in (cell_of board.now) }
    {
        let machines = board.machines();
        Usage {
            used: machines.used(),
            capacity: machines.capacity(),
        }
    }
}

/// What the entries of a history did to the cell.
#[derive(Debug, Drop)]
pub struct Effects {
    /// For each round in order, the usage before its first entry.
    pub usages: Seq<Usage>,
    /// For each entry of a machine in order, the names of the tasks that it displaces, in order of
    /// eviction.
    pub displaced: Seq<Keys>,
    /// The usage after the whole history.
    pub last: Usage,
}

/// What is noted of the effects so far. A contract sees the notes, and for how many more of each kind
/// there is room.
#[derive(Drop)]
pub(crate) struct Notes {
    usages: Vec<Usage>,
    displaced: Vec<Keys>,
}

impl Model for Notes {
    ghost use Rattle.std.specs.Prelude.{◌-◌, vec_len, vec_capacity};
    ghost use Rattle.omega_cell.specs.Effects.{NotesState};

    ghost Value = { NotesState };

    ghost view = { λ n. record {
      usages = n.usages.items;
      displaced = n.displaced.items;
      usage_room = vec_capacity n.usages - vec_len n.usages;
      displaced_room = vec_capacity n.displaced - vec_len n.displaced;
    } };
}

impl Notes {
    /// No notes.
    pub fn new(alloc: Global) -> Notes
        ensures usages { result.usages ≡ [] }
        ensures displaced { result.displaced ≡ [] }
    {
        Notes {
            usages: Vec::new(alloc),
            displaced: Vec::new(alloc),
        }
    }

    /// Makes room for one more note of each kind. The notes stay.
    pub fn reserve(&mut self) -> Result<(), NoMemory>
        ensures usages { self.new.usages ≡ self.old.usages }
        ensures displaced { self.new.displaced ≡ self.old.displaced }
        ensures room { OnOk result (HasNoteRoom self.new) }
    {
        self.usages.reserve(1)?;
        self.displaced.reserve(1)?;
        Ok(())
    }

    /// Notes what the next entry does, before which the usage is this one, and which displaces the
    /// tasks of these names.
    pub fn take_in(&mut self, entry: &Entry, usage: Usage, stopped: Keys)
        requires room { HasNoteRoom self.old }
        ensures usages { (cell : Cell) → usage ≡ usage_in cell → self.new.usages ≡ self.old.usages ++ usage_at cell entry.now }
        ensures displaced { (cell : Cell) → stopped ≡ keys_of (displaced cell.tasks entry.now) → self.new.displaced ≡ self.old.displaced ++ displaced_at cell entry.now }
    {
        match entry {
            Entry::Round { .. } => self.usages.push_reserved(usage),
            Entry::MachineAdd { .. } => self.displaced.push_reserved(stopped),
            Entry::MachineUpdate { .. } => self.displaced.push_reserved(stopped),
            Entry::MachineRemove { .. } => self.displaced.push_reserved(stopped),
            Entry::AttrSet { .. }
            | Entry::AttrDelete { .. }
            | Entry::End { .. }
            | Entry::Commit { .. } => {}
        }
    }

    /// Equal notes. Costs them, also in memory.
    pub fn copy(&self, alloc: Global) -> Result<Notes, NoMemory>
        ensures usages { IfOk result (λ copied. copied.usages ≡ self.now.usages) }
        ensures displaced { IfOk result (λ copied. copied.displaced ≡ self.now.displaced) }
    {
        Ok(Notes {
            usages: Vec::from_slice(alloc, self.usages.as_slice())?,
            displaced: copy_all(alloc, self.displaced.as_slice())?,
        })
    }

    /// The effects of a history with these notes, at whose end the usage is this one.
    pub fn into_effects(self, last: Usage) -> Effects
        ensures usages { result.usages ≡ self.usages }
        ensures displaced { result.displaced ≡ self.displaced }
        ensures last { result.last ≡ last }
    {
        let Notes { usages, displaced } = self;
        Effects {
            usages: Seq::of(usages),
            displaced: Seq::of(displaced),
            last,
        }
    }
}
