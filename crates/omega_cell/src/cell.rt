//! The cell.
ghost use Rattle.std.specs.Prelude.{◌≡◌, ◌≤◌, ◌<◌, ◌^◌, ◌++◌, ◌∷◌, [], false, ℕ, length, take, IfOk, IfErr, OnOk, OnErr, IfSome};
ghost use Rattle.omega_board.specs.Board.{cell_of};
ghost use Rattle.omega_machines.specs.Table.{seq_at};
ghost use Rattle.omega_model.specs.Applying.{capacity_in, machine_in, EndsRunning, EachMayApply, ListsOrHasRoom};
ghost use Rattle.omega_model.specs.Copy.{Carries};
ghost use Rattle.omega_model.specs.Fields.{greatest};
ghost use Rattle.omega_model.specs.Legal.{Legal, Sound};
ghost use Rattle.omega_model.specs.Need.{Fits};
ghost use Rattle.omega_model.specs.State.{state, reply_of};
ghost use Rattle.omega_model.specs.Touches.{seq, is_commit, copied_seqs};
ghost use Rattle.omega_model.specs.Work.{outcomes_of};
ghost use Rattle.omega_cell.specs.Cells.{HasRoom, KeepsRoom};
ghost use Rattle.omega_cell.specs.Effects.{AreEffects};

use crate::copying::copy_all;
use crate::deciding::{decide, outcomes_of};
use crate::effects::{Effects, Notes, Usage};
use crate::prepared::Prepared;
use crate::room::AnswerRoom;
use crate::touched::{parts_at, touched_positions};
use omega_board::Board;
use omega_model::{Delta, Entries, Entry, NoMemory, Reply, Seq, Txn};
use std::alloc::Global;
use std::marker::Model;

/// A legal history, what its entries did, and the board after it.
///
/// A contract sees the history, and for how many more tasks and entries there is room.
#[derive(Drop)]
pub struct Cell {
    pub(crate) board: Board,
    pub(crate) entries: Vec<Entry>,
    pub(crate) notes: Notes,
}

impl Model for Cell {
    ghost use Rattle.std.specs.Prelude.{◌-◌, vec_len, vec_capacity};
    ghost use Rattle.omega_cell.specs.Cells.{CellState, IsCell};
    ghost use Rattle.omega_cell.specs.Effects.{AreNotes};

    ghost Value = { CellState };

    ghost view = { λ c. record { history = c.entries.items; task_room = c.board.spare; entry_room = vec_capacity c.entries - vec_len c.entries } };

    ghost invariant = { λ c. IsCell c.board c.entries.items × AreNotes c.entries.items c.notes };
}

impl Cell {
    /// The cell with the empty history.
    pub fn new(alloc: Global) -> Cell
        ensures { result.history ≡ [] }
    {
        Cell {
            board: Board::new(alloc),
            entries: Vec::new(alloc),
            notes: Notes::new(alloc),
        }
    }

    /// The board after the history.
    pub fn board(&self) -> &Board
        ensures current { cell_of result.now ≡ state self.now.history }
        ensures numbered { (id : ℕ) → seq_at result.now.table id ≡ seq self.now.history id }
    {
        &self.board
    }

    /// The history, from its first entry on. It is legal, each of its entries could be applied to the
    /// state before it, and no state on the way is overcommitted.
    pub fn history(&self) -> &[Entry]
        ensures history { result.now ≡ self.now.history }
        ensures legal { Legal self.now.history }
        ensures applied { EachMayApply self.now.history }
        ensures sound { (n : ℕ) → Sound (state (take n self.now.history)) }
    {
        self.entries.as_slice()
    }

    /// What brings a copy that has seen the first `n` entries up to this cell: the machines that the
    /// entries since then touch, as they are now. Costs these entries and machines, and not those that
    /// stay as they were.
    pub fn since(&self, alloc: Global, n: u64) -> Result<Delta, NoMemory>
        requires { n ≤ length self.now.history }
        ensures carries { IfOk result (λ delta. Carries delta self.now.history n (length self.now.history)) }
        ensures applied { EachMayApply self.now.history }
    {
        let later = &self.entries.as_slice()[n as usize..];
        let positions = touched_positions(alloc, self.board.machines(), later)?;
        let parts = parts_at(alloc, &self.board, &positions)?;
        Ok(Delta::of(n, self.entries.len() as u64, parts))
    }

    /// A cell with the same history. Costs its entries and what it has noted of them, its machines with their
    /// attributes, and its tasks, also in memory.
    pub fn copy(&self, alloc: Global) -> Result<Cell, NoMemory>
        ensures history { IfOk result (λ cell. cell.history ≡ self.now.history) }
    {
        Ok(Cell {
            board: self.board.copy(alloc)?,
            entries: copy_all(alloc, self.entries.as_slice())?,
            notes: self.notes.copy(alloc)?,
        })
    }

    /// The history itself.
    pub fn into_history(self) -> Entries
        ensures history { result ≡ self.history }
        ensures legal { Legal self.history }
        ensures applied { EachMayApply self.history }
        ensures sound { (n : ℕ) → Sound (state (take n self.history)) }
    {
        let Cell { entries, .. } = self;
        Seq::of(entries)
    }

    /// The history itself, what its entries did, and the board after it.
    pub fn into_run(self) -> (Entries, Effects, Board)
        ensures history { result.0 ≡ self.history }
        ensures effects { AreEffects self.history result.1 }
        ensures current { cell_of result.2 ≡ state self.history }
        ensures legal { Legal self.history }
        ensures applied { EachMayApply self.history }
        ensures sound { (n : ℕ) → Sound (state (take n self.history)) }
    {
        let Cell {
            board,
            entries,
            notes,
        } = self;
        let last = Usage::of(&board);
        (Seq::of(entries), notes.into_effects(last), board)
    }

    /// Appends an entry that is no commit, and applies it to the board. Where memory runs out the
    /// entry is handed back, the history and the board stay, and no room is lost.
    ///
    /// A capacity is at most 10^12 units of each kind, there are at most 65,536 machines, and an end
    /// names a task that runs on its machine.
    ///
    /// Costs what the entry changes; an attribute's entry the logarithm of the machine's attributes, and
    /// those behind one that is deleted; and where it displaces a task the tasks on its machine.
    pub fn feed(&mut self, alloc: Global, entry: Entry) -> Result<(), (Entry, NoMemory)>
        requires no_commit { is_commit entry ≡ false }
        requires capacity { IfSome (capacity_in entry) (λ cap. Fits cap greatest) }
        requires machines { IfSome (machine_in entry) (ListsOrHasRoom (state self.old.history).machines) }
        requires ends { EndsRunning (state self.old.history).tasks entry }
        ensures ok { OnOk result (self.new.history ≡ self.old.history ++ entry ∷ []) }
        ensures err { OnErr result (self.new.history ≡ self.old.history) }
        ensures back { IfErr result (λ refused. refused.0 ≡ entry) }
        ensures kept { OnErr result (KeepsRoom self.old self.new) }
    {
        if self.entries.reserve(1).is_err() || self.notes.reserve().is_err() {
            return Err((entry, NoMemory));
        }
        let usage = Usage::of(&self.board);
        match self.board.apply_entry(alloc, &entry) {
            Ok(stopped) => {
                self.notes.take_in(&entry, usage, stopped);
                self.entries.push_reserved(entry);
                Ok(())
            }
            Err(error) => Err((entry, error)),
        }
    }

    /// Makes room for all that the commit of a transaction needs. The history and the board stay, and
    /// no room is lost. Where memory runs out the transaction is handed back. It has fewer than 2^32
    /// claims. Costs the claims and their victims.
    pub fn reserve(&mut self, alloc: Global, txn: Txn) -> Result<Prepared, (Txn, NoMemory)>
        requires { length txn.claims < 2 ^ 32 }
        ensures history { self.new.history ≡ self.old.history }
        ensures kept { KeepsRoom self.old self.new }
        ensures txn { IfOk result (λ prepared. prepared ≡ txn) }
        ensures room { OnOk result (HasRoom self.new txn) }
        ensures back { IfErr result (λ refused. refused.0 ≡ txn) }
    {
        let Ok(entry) = AnswerRoom::of(alloc, txn.claims.as_slice()) else {
            return Err((txn, NoMemory));
        };
        let Ok(answer) = AnswerRoom::of(alloc, txn.claims.as_slice()) else {
            return Err((txn, NoMemory));
        };
        let Ok(machines) = Vec::with_capacity(alloc, txn.claims.len()) else {
            return Err((txn, NoMemory));
        };
        if self.entries.reserve(1).is_err() {
            return Err((txn, NoMemory));
        }
        match self.board.reserve(alloc, &txn.claims) {
            Ok(undo) => Ok(Prepared {
                txn,
                undo,
                machines,
                entry,
                answer,
            }),
            Err(error) => Err((txn, error)),
        }
    }

    /// Judges the claims of a prepared transaction on this cell, keeps what its mode keeps, and
    /// appends the commit with its reply. `seen` is the number of entries that the scheduler had seen
    /// when it planned, and `seqs` has for each claim the sequence number of its machine there. The cell
    /// still has the room that `reserve` made. Answers the place of the entry, and for each claim the
    /// verdict and the tasks that it evicts.
    ///
    /// Costs the claims, whose machines are sorted, and their victims.
    pub fn commit(&mut self, scheduler: u32, seen: u64, seqs: &[u64], prepared: Prepared) -> Reply
        requires room { HasRoom self.old prepared }
        requires seen { seen ≤ length self.old.history }
        requires seqs { seqs.now ≡ copied_seqs self.old.history seen prepared.claims }
        ensures history { self.new.history ≡ self.old.history ++ Entry.Commit scheduler seen prepared (reply_of self.old.history seen prepared) ∷ [] }
        ensures place { result.place ≡ length self.old.history }
        ensures outcomes { result.outcomes ≡ outcomes_of prepared.claims (reply_of self.old.history seen prepared) }
        ensures few { length self.new.history < 2 ^ 64 }
    {
        let Prepared {
            txn,
            undo,
            machines,
            entry,
            answer,
        } = prepared;
        let reply = decide(&mut self.board, &txn, seqs, undo, entry);
        self.board.touch_placed(&txn.claims, &reply, machines);
        let outcomes = outcomes_of(txn.claims.as_slice(), reply.as_slice(), answer);
        let place = self.entries.len() as u64;
        self.entries.push_reserved(Entry::Commit {
            scheduler,
            seen,
            txn,
            reply,
        });
        Reply { place, outcomes }
    }
}
