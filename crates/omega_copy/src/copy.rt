//! The private copy.
ghost use Rattle.std.specs.Prelude.{◌≡◌, ◌+◌, ◌-◌, ◌<◌, ◌≤◌, ◌^◌, ℕ, List, [], length, map, drop, IfOk, OnOk, OnErr, if◌then◌else◌};
ghost use Rattle.omega_machines.specs.Table.{seq_at};
ghost use Rattle.omega_model.specs.Applying.{MayApply, EachMayApply};
ghost use Rattle.omega_model.specs.Copy.{Carries};
ghost use Rattle.omega_model.specs.State.{step};
ghost use Rattle.omega_model.specs.Touches.{touches, copied_seqs};
ghost use Rattle.omega_model.specs.declared.entries.Entry.{Entry};
ghost use Rattle.omega_running.specs.Kept.{KeysRise};
ghost use Rattle.omega_board.specs.Board.{cell_of};
ghost use Rattle.omega_copy.specs.Copies.{CopyOf, MayFollow, MayCatchUp, without_room};
ghost use Rattle.omega_plan.specs.Indexes.{TellAll};

use omega_board::Board;
use omega_model::{Claim, Delta, Entry, NoMemory, Part};
use omega_plan::{Indexes, seqs_on};
use omega_shared::CellCopy;
use std::alloc::Global;
use std::marker::Model;

/// A scheduler's copy of the cell, which stands for as many entries of the history as it has seen.
///
/// A contract sees its board without the room that the board has for more tasks, and how many entries it
/// has seen. It doesn't see the indexes that the copy keeps beside the board: what is free on each
/// machine, and what evictions could free for precedences for which that was asked.
#[derive(Drop)]
pub struct PrivateCopy {
    board: Board,
    indexes: Indexes,
}

impl Model for PrivateCopy {
    ghost use Rattle.omega_board.specs.Board.{cell_of};
    ghost use Rattle.omega_copy.specs.Copies.{CopyState, without_room};
    ghost use Rattle.omega_plan.specs.Indexes.{TellAll};

    ghost Value = { CopyState };

    ghost view = { λ c. record { board = without_room c.board; seen = c.indexes.seen } };

    ghost invariant = { λ c. TellAll (cell_of c.board) c.indexes };
}

impl PrivateCopy {
    /// The copy that has seen no entry.
    pub fn new(alloc: Global) -> PrivateCopy
        ensures board { result.board ≡ record { table = []; tasks = []; spare = 0 } }
        ensures seen { result.seen ≡ 0 }
    {
        PrivateCopy {
            board: Board::new(alloc),
            indexes: Indexes::new(alloc),
        }
    }

    /// How many entries of the history the copy has seen.
    pub fn seen(&self) -> u64
        ensures { result ≡ self.now.seen }
    {
        self.indexes.seen()
    }

    /// The copy over a board of which these indexes tell. It has seen as many entries as they.
    pub fn of_parts(board: Board, indexes: Indexes) -> PrivateCopy
        requires { TellAll (cell_of board) indexes }
        ensures board { result.board ≡ without_room board }
        ensures seen { result.seen ≡ indexes.seen }
    {
        PrivateCopy { board, indexes }
    }

    /// The board, and the indexes that tell of it.
    pub fn into_parts(self) -> (Board, Indexes)
        ensures table { result.0.table ≡ self.board.table }
        ensures tasks { result.0.tasks ≡ self.board.tasks }
        ensures tell { TellAll (cell_of result.0) result.1 }
        ensures seen { result.1.seen ≡ self.seen }
    {
        let PrivateCopy { board, indexes } = self;
        (board, indexes)
    }

    /// How many of the entries that it has seen touched a machine.
    pub fn seq(&self, machine: u64) -> u64
        ensures { result ≡ seq_at self.now.board.table machine }
    {
        self.board.machines().seq(machine)
    }

    /// For each claim, how many of the entries that it has seen touched the claim's machine. Takes the
    /// memory of one number a claim, and costs a look-up each.
    pub fn seqs(&self, alloc: Global, claims: &[Claim]) -> Result<Vec<u64>, NoMemory>
        ensures seqs { IfOk result (λ seqs. seqs.items ≡ map (λ claim. seq_at self.now.board.table claim.machine) claims.now) }
        ensures history { IfOk result (λ seqs. (history : List Entry) → CopyOf self.now history
            → seqs.items ≡ copied_seqs history self.now.seen claims.now) }
    {
        seqs_on(alloc, &self.board, claims)
    }

    /// The board after the entries seen.
    pub fn board(&self) -> &Board
        ensures table { result.now.table ≡ self.now.board.table }
        ensures tasks { result.now.tasks ≡ self.now.board.tasks }
    {
        &self.board
    }

    /// Takes in the rest of a history for which the copy stands, from the first entry on that it
    /// hasn't seen. Where memory runs out it has taken in some of them, and stands for the history
    /// still. Costs what the entries change, and an attribute's entry the logarithm of the machine's attributes
    /// and those behind one that is deleted.
    pub fn follow(&mut self, alloc: Global, later: &[Entry]) -> Result<(), NoMemory>
        requires history { MayFollow self.old later.now }
        requires few { self.old.seen + length later.now < 2 ^ 64 }
        ensures stands { (history : List Entry) → CopyOf self.old history → later.now ≡ drop self.old.seen history → CopyOf self.new history }
        ensures forward { self.old.seen ≤ self.new.seen }
        ensures all { OnOk result (self.new.seen ≡ self.old.seen + length later.now) }
    {
        for entry in later {
            self.take_in(alloc, entry)?;
        }
        Ok(())
    }

    /// Takes in one entry.
    fn take_in(&mut self, alloc: Global, entry: &Entry) -> Result<(), NoMemory>
        requires may { MayApply (cell_of self.old.board) (seq_at self.old.board.table) entry.now }
        requires ordered { KeysRise self.old.board.tasks }
        requires few { self.old.seen < 2 ^ 64 - 1 }
        ensures cell { OnOk result (cell_of self.new.board ≡ step (cell_of self.old.board) entry.now) }
        ensures seqs { OnOk result ((id : ℕ) → seq_at self.new.board.table id ≡ seq_at self.old.board.table id + (if touches id entry.now then 1 else 0)) }
        ensures seen { OnOk result (self.new.seen ≡ self.old.seen + 1) }
        ensures err { OnErr result (self.new ≡ self.old) }
    {
        self.indexes.reserve(1)?;
        self.board.apply_entry(alloc, entry)?;
        self.indexes.tell_entry(&self.board, entry);
        Ok(())
    }

    /// Takes in what changed between the entries that it has seen and a later place of a history for
    /// which it stands. The indexes are told. Where memory runs out, the copy is as before. Costs the parts
    /// of the delta and the tasks on their machines, each of which is looked up on the board, whatever number of
    /// entries it leads over.
    pub fn catch_up(&mut self, alloc: Global, delta: Delta) -> Result<(), NoMemory>
        requires history { MayCatchUp self.old delta }
        ensures stands { OnOk result ((history : List Entry) → CopyOf self.old history → Carries delta history self.old.seen delta.to → EachMayApply history → CopyOf self.new history) }
        ensures seen { OnOk result (self.new.seen ≡ delta.to) }
        ensures err { OnErr result (self.new ≡ self.old) }
    {
        let to = delta.to();
        let parts = delta.into_parts();
        let machines = numbers_of(alloc, parts.as_slice())?;
        self.indexes.reserve(parts.len())?;
        self.board.put_parts(alloc, parts)?;
        self.indexes.tell_machines(&self.board, to, &machines);
        Ok(())
    }
}

impl CellCopy for PrivateCopy {
    ghost use Rattle.omega_board.specs.Board.{cell_of as cell_of_board};
    ghost use Rattle.omega_machines.specs.Table.{seq_at};

    ghost cell_of = { λ copy. cell_of_board copy.board };

    ghost seq_of = { λ copy. seq_at copy.board.table };

    ghost seen_of = { λ copy. copy.seen };

    fn seen(&self) -> u64 {
        PrivateCopy::seen(self)
    }

    fn seqs(&self, alloc: Global, claims: &[Claim]) -> Result<Vec<u64>, NoMemory> {
        PrivateCopy::seqs(self, alloc, claims)
    }

    fn catch_up(&mut self, alloc: Global, delta: Delta) -> Result<(), NoMemory> {
        PrivateCopy::catch_up(self, alloc, delta)
    }
}

/// The numbers of the machines of some parts.
fn numbers_of(alloc: Global, parts: &[Part]) -> Result<Vec<u64>, NoMemory>
    ensures { IfOk result (λ numbers. numbers.items ≡ map (λ part. part.machine.id) parts.now) }
{
    let mut numbers = Vec::new(alloc);
    for part in parts {
        numbers.push(part.machine.id)?;
    }
    Ok(numbers)
}
