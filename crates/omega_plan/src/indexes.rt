//! What is told of a board: what is free, and what evictions could free.
ghost use Rattle.std.specs.Prelude.{◌≡◌, ◌≤◌, ◌<◌, ◌+◌, ◌-◌, ◌^◌, List, IfOk, OnOk, length};
ghost use Rattle.omega_model.specs.Cell.{Cell};
ghost use Rattle.omega_model.specs.declared.cells.Task.{Task};
ghost use Rattle.omega_model.specs.declared.entries.Entry.{Entry};
ghost use Rattle.omega_machines.specs.Table.{machines_of};
ghost use Rattle.omega_board.specs.Board.{cell_of};
ghost use Rattle.omega_board.specs.Numbers.{is_among};
ghost use Rattle.omega_model.specs.Touches.{is_touched_by};
ghost use Rattle.omega_plan.specs.Beside.{IsPlacedBeside};
ghost use Rattle.omega_plan.specs.Indexes.{AreIndexesOf, HavePlaces, HaveRoom, MayGoOn, MayTell, MayTellClaim, TellAll};
ghost use Rattle.omega_plan.specs.Levels.{AreFound, Tells};
ghost use Rattle.omega_plan.specs.Overlays.{cell_after, tasks_claimed, tasks_with};
ghost use Rattle.omega_plan.specs.Telling.{frees_of};

use crate::levels::{Level, Levels};
use crate::overlay::Overlay;
use crate::telling::{tell_claim, tell_entry, tell_parts};
use crate::tenants::Tenants;
use omega_board::Board;
use omega_fit::FitIndex;
use omega_model::{Claim, Entry, NoMemory};
use std::alloc::Global;

/// What is free on each machine of a cell, and what evictions could free for precedences for which that was
/// asked, after so many entries of a history. They stand beside the board, and serve on any board of the history
/// that has gone on since, once they are told what changed. What is free is told at once; what evictions could free
/// is told when it is asked for, and until then the machines that changed are noted.
#[derive(Drop)]
pub struct Indexes {
    pub(crate) index: FitIndex,
    pub(crate) levels: Levels,
    pub(crate) seen: u64,
}

impl Indexes {
    /// The indexes of the empty board, before any entry.
    pub fn new(alloc: Global) -> Indexes
        ensures { (history : List Entry) → AreIndexesOf history result }
    {
        Indexes {
            index: FitIndex::new(alloc),
            levels: Levels::new(alloc),
            seen: 0,
        }
    }

    /// After how many entries of the history they are.
    pub fn seen(&self) -> u64
        ensures { result ≡ self.now.seen }
    {
        self.seen
    }

    /// Makes room for a place for each further machine of a board. They tell the same, also where memory
    /// runs out.
    pub fn make_room(&mut self, board: &Board) -> Result<(), NoMemory>
        ensures kept { (history : List Entry) → AreIndexesOf history self.old → AreIndexesOf history self.new }
        ensures seen { self.new.seen ≡ self.old.seen }
        ensures places { OnOk result (HavePlaces (length board.now.table) self.new) }
    {
        let more = board.machines().len().saturating_sub(self.index.len());
        self.reserve(more)
    }

    /// Makes room for so many further places. They tell the same, also where memory runs out.
    pub fn reserve(&mut self, count: usize) -> Result<(), NoMemory>
        ensures kept { (cell : Cell) → TellAll cell self.old → TellAll cell self.new }
        ensures seen { self.new.seen ≡ self.old.seen }
        ensures long { length self.new.index.free ≡ length self.old.index.free }
        ensures room { OnOk result (HaveRoom count self.new) }
    {
        self.index.reserve(count)
    }

    /// Brings the indexes up to a board that has gone on. `seen` is how many entries its history has now, and
    /// `machines` are those that the entries touch which the indexes haven't seen. Costs a look-up for each.
    pub fn go_on(&mut self, board: &Board, seen: u64, machines: &[u64])
        requires places { HavePlaces (length board.now.table) self.old }
        requires history { MayGoOn self.old board.now machines.now }
        ensures tell { TellAll (cell_of board.now) self.new }
        ensures seen { self.new.seen ≡ seen }
    {
        self.tell_machines(board, seen, machines);
    }

    /// What is free on each machine of the cell of which they tell, in order of its list; `None` where the
    /// machine isn't up.
    pub fn free(&self) -> &FitIndex
        ensures { (cell : Cell) → TellAll cell self.now → result.now.free ≡ frees_of cell }
    {
        &self.index
    }

    /// Lends what is free on each machine of the cell after the claims of an overlay once all tasks of a
    /// lower precedence than this one are off it: where a need is more than that, evictions for a wish of
    /// this precedence make no room. What is lent is given back by `take_back`; where it wasn't, the next
    /// call makes it anew. Making it costs the machines and their tasks, and for each machine a pass over the
    /// overlay's claims, unless they are ready for machines. Where it stands still, only the machines cost this that
    /// have changed since it was lent last, each once.
    pub fn lend_level(
        &mut self,
        alloc: Global,
        overlay: &Overlay,
        prec: u8,
    ) -> Result<Level, NoMemory>
        requires tell { TellAll (cell_after overlay.now) self.old }
        ensures tell { TellAll (cell_after overlay.now) self.new }
        ensures level { IfOk result (λ level. Tells (cell_after overlay.now) level) }
        ensures prec { IfOk result (λ level. level.prec ≡ prec) }
        ensures found { IfOk result (λ level. AreFound (tasks_claimed overlay.now) level.found) }
        ensures seen { self.new.seen ≡ self.old.seen }
    {
        self.levels.lend(alloc, overlay, prec)
    }

    /// Takes a level back that was lent. Where there is no memory for it, it is made anew when it is asked for
    /// next; so are those that weren't asked for for longest, where levels would have too many places together.
    pub fn take_back(&mut self, level: Level)
        ensures tell { (cell : Cell) → TellAll cell self.old → Tells cell level → TellAll cell self.new }
        ensures seen { self.new.seen ≡ self.old.seen }
    {
        self.levels.take_back(level, self.index.len());
    }

    /// They are told what the next entry of the history changed, which was applied to the board. They have room
    /// for a machine that is new. Costs a look-up for each machine that the entry touches.
    pub fn tell_entry(&mut self, board: &Board, entry: &Entry)
        requires few { self.old.seen < 2 ^ 64 - 1 }
        requires may { MayTell (is_touched_by entry.now) board.now self.old }
        ensures tell { TellAll (cell_of board.now) self.new }
        ensures seen { self.new.seen ≡ self.old.seen + 1 }
    {
        tell_entry(&mut self.index, board, entry);
        self.levels.note_entry(entry, self.index.len());
        self.seen += 1;
    }

    /// They are told of these machines of a board, whose history has so many entries; they tell all else, and have
    /// room for the machines that are new. Costs a look-up for each machine.
    pub fn tell_machines(&mut self, board: &Board, seen: u64, machines: &[u64])
        requires may { MayTell (is_among machines.now) board.now self.old }
        ensures tell { TellAll (cell_of board.now) self.new }
        ensures seen { self.new.seen ≡ seen }
    {
        tell_parts(&mut self.index, board, machines);
        self.levels.note_all(machines, self.index.len());
        self.seen = seen;
    }

    /// They are told of a claim that was placed beside the board, with these tenants after it. Costs a look-up, and
    /// where the claim has victims the tasks on its machine.
    pub(crate) fn tell_claim(&mut self, board: &Board, tenants: &Tenants, claim: &Claim)
        requires { MayTellClaim board.now tenants.now claim.now self.old }
        ensures tell { (tasks : List Task) → IsPlacedBeside board.now tenants.now claim.now tasks
            → TellAll (record { machines = machines_of board.now.table; tasks = tasks }) self.old
            → TellAll (record { machines = machines_of board.now.table; tasks = tasks_with tasks claim.now }) self.new }
        ensures seen { self.new.seen ≡ self.old.seen }
    {
        tell_claim(&mut self.index, board, tenants, claim);
        self.levels.note(claim.machine, self.index.len());
    }
}
