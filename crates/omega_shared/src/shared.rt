//! The shared cell.
ghost use Rattle.std.specs.Prelude.{◌≡◌, ℕ, ◌<◌, ◌≤◌, ◌^◌, [], Some, true, length, drop, map, All, Any, IfOk, IfErr, OnOk, OnErr, slice_get, vec_capacity};
ghost use Rattle.omega_lock.specs.Lists.{StartsWith};
ghost use Rattle.omega_model.specs.Applying.{EachMayApply};
ghost use Rattle.omega_model.specs.Copy.{Carries, StandsFor};
ghost use Rattle.omega_model.specs.Touches.{copied_seqs};
ghost use Rattle.omega_model.specs.Work.{is_commit_of};
ghost use Rattle.omega_shared.specs.Commits.{GoesOnWithout, commits_since};
ghost use Rattle.omega_shared.specs.Held.{held_history};
ghost use Rattle.omega_shared.specs.Passes.{IsPassSeat, new_pass, new_passes, pass_at};
ghost use Rattle.omega_shared.specs.Planned.{IsPlannedOn};
ghost use Rattle.omega_shared.specs.Turns.{Commits, SpendsTurn};

use crate::copies::CellCopy;
use crate::held::Held;
use crate::pass::Pass;
use crate::planned::PlannedTxn;
use crate::view::CellView;
use omega_cell::Cell;
use omega_lock::{Lock, Seat};
use omega_model::{Delta, NoMemory, Reply, Txn};
use std::alloc::Global;
use std::marker::Model;
use std::sync::Wait;

/// A cell that is shared. A call that takes a turn is handed a pass of this cell that has a turn left.
///
/// A contract sees which shared cell it is, how many passes it has, and the history when it was shared.
#[derive(Drop)]
pub struct SharedCell {
    lock: Lock<Held>,
    // Room for the seats of all passes, so that closing takes no memory.
    seats: Vec<Seat<Held>>,
}

impl Model for SharedCell {
    ghost use Rattle.std.specs.Prelude.{◌≡◌, ◌≤◌, [], vec_capacity};
    ghost use Rattle.omega_shared.specs.Passes.{SharedState};

    ghost Value = { SharedState };

    ghost view = { λ s. record { of = s.lock.of; callers = s.lock.callers; first = s.lock.first } };

    ghost invariant = { λ s. (s.seats.items ≡ []) × (s.lock.callers ≤ vec_capacity s.seats) };
}

impl SharedCell {
    /// Shares a cell, and makes a pass for each of 1 to 32 callers, which has so many turns. The pass at
    /// place `i` has the number `i`. The history is shorter than 2^63 entries. Where memory runs
    /// out the cell is handed back. May wait.
    pub fn share<R: Wait>(
        rt: &R,
        alloc: Global,
        cell: Cell,
        callers: u32,
        turns: u32,
    ) -> Result<(SharedCell, Vec<Pass>), (Cell, NoMemory)>
        requires callers { (1 ≤ callers) × (callers ≤ 32) }
        requires short { length cell.history < 2 ^ 63 }
        ensures callers { IfOk result (λ made. made.0.callers ≡ callers) }
        ensures first { IfOk result (λ made. made.0.first ≡ cell.history) }
        ensures count { IfOk result (λ made. length made.1.items ≡ callers) }
        ensures pass { IfOk result (λ made. (i : ℕ) → i < callers
            → slice_get made.1.items i ≡ Some (new_pass made.0.of turns cell.history i)) }
        ensures passes { IfOk result (λ made.
            made.1.items ≡ new_passes made.0.of turns cell.history callers) }
        ensures back { IfErr result (λ refused. refused.0 ≡ cell) }
    {
        let Ok(room) = Vec::with_capacity(alloc, callers as usize) else {
            return Err((cell, NoMemory));
        };
        let Ok(passes) = Vec::with_capacity(alloc, callers as usize) else {
            return Err((cell, NoMemory));
        };
        match Lock::begin(rt, alloc, Held::Own(cell), callers, turns) {
            Ok((lock, seats)) => {
                let passes = passes_of(seats, passes);
                Ok((SharedCell { lock, seats: room }, passes))
            }
            Err((Held::Own(cell), _)) => Err((cell, NoMemory)),
            Err((Held::Lent(_), _)) => unreachable!(),
        }
    }

    /// Takes a turn, and takes a copy up to the history as the turn finds it. The pass has then seen
    /// that history. Where memory runs out the copy is as before; the turn is spent, and the pass may
    /// have seen more. May wait.
    ///
    /// Under the turn only what is new is put together, which costs the entries that the copy hasn't
    /// seen and the machines that they touch, with their tasks.
    pub fn sync<R: Wait, C: CellCopy>(
        &self,
        rt: &R,
        alloc: Global,
        pass: &mut Pass,
        copy: &mut C,
    ) -> Result<(), NoMemory>
        requires of { pass.old.of ≡ self.now.of }
        requires left { 0 < pass.old.turns }
        requires stands { StandsFor (C.cell_of copy.old) (C.seq_of copy.old) (C.seen_of copy.old) pass.old.seen }
        ensures turn { SpendsTurn pass.old pass.new }
        ensures seen { GoesOnWithout pass.old.number pass.old.seen pass.new.seen }
        ensures own { pass.new.own ≡ pass.old.own }
        ensures stands { StandsFor (C.cell_of copy.new) (C.seq_of copy.new) (C.seen_of copy.new) pass.new.seen }
        ensures all { OnOk result (C.seen_of copy.new ≡ length pass.new.seen) }
        ensures err { OnErr result (copy.new ≡ copy.old) }
    {
        let delta = self.news(rt, alloc, &mut pass.seat, copy.seen())?;
        copy.catch_up(alloc, delta)
    }

    /// Takes a turn, and commits a transaction of fewer than 2^32 claims that was planned on a copy.
    /// Answers the place of the commit in the history, and for each claim the verdict and the tasks that
    /// it evicts. Where memory runs out the history is as before and the transaction is handed back; the
    /// turn is spent, and the pass may have seen more. Waits for its turn, and a while for those that
    /// look at the cell.
    ///
    /// Costs the claims, whose machines are sorted, and their victims; where one still looks after that while,
    /// a copy of the cell.
    pub fn commit<R: Wait, C: CellCopy>(
        &self,
        rt: &R,
        alloc: Global,
        pass: &mut Pass,
        copy: &C,
        txn: Txn,
    ) -> Result<Reply, (Txn, NoMemory)>
        requires of { pass.old.of ≡ self.now.of }
        requires left { 0 < pass.old.turns }
        requires stands { StandsFor (C.cell_of copy.now) (C.seq_of copy.now) (C.seen_of copy.now) pass.old.seen }
        requires few { length txn.claims < 2 ^ 32 }
        ensures turn { SpendsTurn pass.old pass.new }
        ensures commits { IfOk result (Commits pass.old pass.new (C.seen_of copy.now) txn) }
        ensures seen { OnErr result (GoesOnWithout pass.old.number pass.old.seen pass.new.seen) }
        ensures own { OnErr result (pass.new.own ≡ pass.old.own) }
        ensures stands { StandsFor (C.cell_of copy.now) (C.seq_of copy.now) (C.seen_of copy.now) pass.new.seen }
        ensures back { IfErr result (λ refused. refused.0 ≡ txn) }
    {
        let seqs = copy.seqs(alloc, txn.claims.as_slice());
        let seen = copy.seen();
        self.append(rt, alloc, &mut pass.seat, PlannedTxn { txn, seen, seqs })
    }

    /// Takes a turn, and looks at the cell as the turn finds it. The pass has then seen its history. Where
    /// memory runs out the turn is spent, and the pass may have seen more. May wait.
    ///
    /// Costs the same however long the history is and however many machines there are.
    pub fn look<R: Wait>(
        &self,
        rt: &R,
        alloc: Global,
        pass: &mut Pass,
    ) -> Result<CellView, NoMemory>
        requires of { pass.old.of ≡ self.now.of }
        requires left { 0 < pass.old.turns }
        ensures turn { SpendsTurn pass.old pass.new }
        ensures seen { GoesOnWithout pass.old.number pass.old.seen pass.new.seen }
        ensures own { pass.new.own ≡ pass.old.own }
        ensures view { IfOk result (λ view. view ≡ pass.new.seen) }
    {
        self.lend(rt, alloc, &mut pass.seat)
    }

    /// Takes a turn, and commits a transaction that was planned after the first `seen` entries of what the
    /// pass has seen, with the sequence number that the machine of each claim had there. Answers, refuses,
    /// waits and costs as `commit` does.
    pub fn commit_planned<R: Wait>(
        &self,
        rt: &R,
        alloc: Global,
        pass: &mut Pass,
        seen: u64,
        txn: Txn,
        seqs: Vec<u64>,
    ) -> Result<Reply, (Txn, NoMemory)>
        requires of { pass.old.of ≡ self.now.of }
        requires left { 0 < pass.old.turns }
        requires few { length txn.claims < 2 ^ 32 }
        requires seen { seen ≤ length pass.old.seen }
        requires seqs { seqs.items ≡ copied_seqs pass.old.seen seen txn.claims }
        ensures turn { SpendsTurn pass.old pass.new }
        ensures commits { IfOk result (Commits pass.old pass.new seen txn) }
        ensures seen { OnErr result (GoesOnWithout pass.old.number pass.old.seen pass.new.seen) }
        ensures own { OnErr result (pass.new.own ≡ pass.old.own) }
        ensures back { IfErr result (λ refused. refused.0 ≡ txn) }
    {
        let seqs = Ok(seqs);
        self.append(rt, alloc, &mut pass.seat, PlannedTxn { txn, seen, seqs })
    }

    /// Takes all passes back, and hands out the cell. Its history goes on from what each pass had seen,
    /// with no commit of its number. Every entry since the cell was shared is a commit of one of the
    /// passes, and the commits of a pass's number are its own, in order. May wait, for as long as somebody
    /// keeps a view.
    pub fn close<R: Wait>(self, rt: &R, passes: Vec<Pass>) -> Cell
        requires all { length passes.items ≡ self.callers }
        requires of { All (λ pass. pass.of ≡ self.of) passes.items }
        ensures begins { StartsWith result.history self.first }
        ensures seen { All (λ pass. StartsWith result.history pass.seen) passes.items }
        ensures own { All (λ pass. pass.own
            ≡ commits_since (length self.first) pass.number result.history) passes.items }
        ensures others { All (λ pass. GoesOnWithout pass.number pass.seen result.history) passes.items }
        ensures first { All (λ pass. pass.first_length ≡ length self.first) passes.items }
        ensures commits { All (λ entry. Any (λ pass. is_commit_of pass.number entry ≡ true) passes.items)
            (drop (length self.first) result.history) }
    {
        self.closed(passes).into_cell(rt)
    }

    /// Takes all passes back, and hands out what the lock held, which may be lent still.
    fn closed(self, passes: Vec<Pass>) -> Held
        requires all { length passes.items ≡ self.callers }
        requires of { All (λ pass. pass.of ≡ self.of) passes.items }
        ensures begins { StartsWith (held_history result) self.first }
        ensures seen { All (λ pass. StartsWith (held_history result) pass.seen) passes.items }
        ensures own { All (λ pass. pass.own
            ≡ commits_since (length self.first) pass.number (held_history result)) passes.items }
        ensures others { All (λ pass. GoesOnWithout pass.number pass.seen (held_history result)) passes.items }
        ensures first { All (λ pass. pass.first_length ≡ length self.first) passes.items }
        ensures commits { All (λ entry. Any (λ pass. is_commit_of pass.number entry ≡ true) passes.items)
            (drop (length self.first) (held_history result)) }
    {
        let SharedCell { lock, seats } = self;
        lock.close(seats_of(passes, seats))
    }

    /// Takes a turn, and puts together what brings a copy that has seen so many entries up to date.
    fn news<R: Wait>(
        &self,
        rt: &R,
        alloc: Global,
        seat: &mut Seat<Held>,
        seen: u64,
    ) -> Result<Delta, NoMemory>
        requires of { seat.old.of ≡ self.now.of }
        requires left { 0 < seat.old.turns }
        requires pass { IsPassSeat seat.old }
        requires seen { seen ≤ length seat.old.seen }
        ensures turn { SpendsTurn (pass_at seat.old) (pass_at seat.new) }
        ensures pass { IsPassSeat seat.new }
        ensures seen { GoesOnWithout seat.old.number seat.old.seen seat.new.seen }
        ensures own { seat.new.own ≡ seat.old.own }
        ensures applied { EachMayApply seat.new.seen }
        ensures delta { IfOk result (λ delta. Carries delta seat.new.seen seen (length seat.new.seen)) }
    {
        let held = self.lock.turn(rt, seat);
        let delta = held.cell().since(alloc, seen);
        self.lock.release(seat, held);
        delta
    }

    /// Takes a turn, and gives out a view of the cell.
    fn lend<R: Wait>(
        &self,
        rt: &R,
        alloc: Global,
        seat: &mut Seat<Held>,
    ) -> Result<CellView, NoMemory>
        requires of { seat.old.of ≡ self.now.of }
        requires left { 0 < seat.old.turns }
        requires pass { IsPassSeat seat.old }
        ensures turn { SpendsTurn (pass_at seat.old) (pass_at seat.new) }
        ensures pass { IsPassSeat seat.new }
        ensures seen { GoesOnWithout seat.old.number seat.old.seen seat.new.seen }
        ensures own { seat.new.own ≡ seat.old.own }
        ensures view { IfOk result (λ view. view ≡ seat.new.seen) }
    {
        let held = self.lock.turn(rt, seat);
        let (held, view) = held.lend(alloc);
        self.lock.release(seat, held);
        view
    }

    /// Takes a turn, and commits a transaction.
    fn append<R: Wait>(
        &self,
        rt: &R,
        alloc: Global,
        seat: &mut Seat<Held>,
        planned: PlannedTxn,
    ) -> Result<Reply, (Txn, NoMemory)>
        requires of { seat.old.of ≡ self.now.of }
        requires left { 0 < seat.old.turns }
        requires pass { IsPassSeat seat.old }
        requires planned { IsPlannedOn seat.old.seen planned }
        ensures turn { SpendsTurn (pass_at seat.old) (pass_at seat.new) }
        ensures pass { IsPassSeat seat.new }
        ensures extends { StartsWith seat.new.seen seat.old.seen }
        ensures commits { IfOk result (Commits (pass_at seat.old) (pass_at seat.new) planned.seen planned.txn) }
        ensures seen { OnErr result (GoesOnWithout seat.old.number seat.old.seen seat.new.seen) }
        ensures own { OnErr result (seat.new.own ≡ seat.old.own) }
        ensures back { IfErr result (λ refused. refused.0 ≡ planned.txn) }
    {
        let held = self.lock.turn(rt, seat);
        let (held, reply) = held.commit(alloc, seat.number(), planned);
        self.lock.release(seat, held);
        reply
    }
}

/// The passes whose seats these are. There is room for them.
fn passes_of(seats: Vec<Seat<Held>>, mut passes: Vec<Pass>) -> Vec<Pass>
    requires seats { All IsPassSeat seats.items }
    requires room { (passes.items ≡ []) × (length seats.items ≤ vec_capacity passes) }
    ensures { result.items ≡ map pass_at seats.items }
{
    for seat in seats {
        passes.push_reserved(Pass { seat });
    }
    passes
}

/// The seats of passes. There is room for them.
fn seats_of(passes: Vec<Pass>, mut seats: Vec<Seat<Held>>) -> Vec<Seat<Held>>
    requires room { (seats.items ≡ []) × (length passes.items ≤ vec_capacity seats) }
    ensures passes { map pass_at result.items ≡ passes.items }
    ensures seats { All IsPassSeat result.items }
{
    for pass in passes {
        seats.push_reserved(pass.seat);
    }
    seats
}
