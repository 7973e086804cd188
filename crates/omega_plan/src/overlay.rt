//! Claims that are placed beside a board.
ghost use Rattle.std.specs.Prelude.{◌≡◌, ◌++◌, ℕ, [], ◌∷◌, false, List, None, IfOk, OnOk, OnErr, IsPermutation, is_some, length, slice_get};
ghost use Rattle.std.specs.List.{filter, list_any};
ghost use Rattle.omega_model.specs.Cell.{is_on, task_at};
ghost use Rattle.omega_model.specs.Jobs.{stays_of_job};
ghost use Rattle.omega_model.specs.Judge.{judge_fine};
ghost use Rattle.omega_model.specs.Legal.{Sound};
ghost use Rattle.omega_model.specs.Reply.{after_claim};
ghost use Rattle.omega_model.specs.declared.cells.Machine.{Machine};
ghost use Rattle.omega_machines.specs.Table.{machines_of};
ghost use Rattle.omega_running.specs.Kept.{KeysRise};
ghost use Rattle.omega_board.specs.Board.{cell_of};
ghost use Rattle.omega_plan.specs.Indexes.{TellAll};
ghost use Rattle.omega_plan.specs.Overlays.{GoesInWhole, cell_after, tasks_claimed};
ghost use Rattle.omega_plan.specs.Telling.{freed_on};

use crate::indexes::Indexes;
use crate::tenants::Tenants;
use omega_board::Board;
use omega_model::{Claim, Need, NoMemory, TaskKey, Tasks};
use omega_running::Running;
use std::alloc::Global;
use std::marker::Model;

/// A pass over fewer claims than this costs no more than a look-up.
const FEW: usize = 16;

/// Claims beside a board, each placed on the cell after those before it. The board stays as it is, so
/// several can stand beside one board.
///
/// A contract sees the board and the claims. What an overlay answers is what the board would with the
/// claims placed. A question that names a machine costs a pass over the claims too, unless they are ready for
/// machines: after a claim with victims, or after `ready_for_machines` where they are not few.
#[derive(Drop)]
pub struct Overlay<'a> {
    board: &'a Board,
    running: &'a Running,
    tenants: Tenants,
    claims: Vec<Claim>,
    machines: Vec<u64>,
}

impl<'a> Model for Overlay<'a> {
    ghost use Rattle.omega_plan.specs.Overlays.{OverlayState};
    ghost use Rattle.omega_plan.specs.Beside.{IsOverlay};

    ghost Value = { OverlayState };

    ghost view = { λ o. record { board = o.board.now; claims = o.claims.items } };

    ghost invariant = { λ o. IsOverlay o.tenants o.running.now.tasks o.machines.items (record { board = o.board.now; claims = o.claims.items }) };
}

impl<'a> Overlay<'a> {
    /// No claims beside a board. Takes no memory.
    pub fn over(alloc: Global, board: &'a Board) -> Overlay<'a>
        ensures { result ≡ record { board = board.now; claims = [] } }
    {
        let running = board.running();
        Overlay {
            board,
            running,
            tenants: Tenants::new(alloc),
            claims: Vec::new(alloc),
            machines: Vec::new(alloc),
        }
    }

    /// The board without the claims, whose machines are those of the cell after them.
    pub fn board(&self) -> &Board
        ensures board { result.now ≡ self.now.board }
        ensures sound { Sound (cell_after self.now) }
        ensures ordered { KeysRise (tasks_claimed self.now) }
    {
        self.board
    }

    /// Whether the task of this name runs after the claims. Costs two look-ups, and a third where the board
    /// has the task.
    pub fn runs(&self, key: TaskKey) -> bool
        ensures runs { result ≡ is_some (task_at (tasks_claimed self.now) key) }
        ensures absent { result ≡ false → task_at (tasks_claimed self.now) key ≡ None }
        ensures sound { Sound (cell_after self.now) }
        ensures ordered { KeysRise (tasks_claimed self.now) }
    {
        self.tenants.runs(self.running, key)
    }

    /// Whether a task of this job runs on a machine after the claims. Costs a look-up, a way down of each of the
    /// machine's trees and, unless the claims are ready for machines, a pass over them.
    pub fn has_of_job(&self, job: u64, machine: u64) -> bool
        ensures { result ≡ list_any (stays_of_job job machine []) (tasks_claimed self.now) }
    {
        self.tenants.has_of_job(self.running, job, machine)
    }

    /// The tasks on a machine after the claims, in any order. Takes the time of these and, unless the claims are ready
    /// for machines, that of a pass over them.
    pub fn tasks_on(&self, alloc: Global, machine: u64) -> Result<Tasks, NoMemory>
        ensures tasks { IfOk result (λ tasks. IsPermutation (filter (is_on machine) (tasks_claimed self.now)) tasks) }
        ensures ordered { KeysRise (tasks_claimed self.now) }
    {
        self.tenants.tasks_on(alloc, self.running, machine)
    }

    /// What is free on the machine at a position after the claims, once all tasks of a lower precedence
    /// are off it; `None` where it isn't up. Costs the tasks on the machine and, unless the claims are ready for
    /// machines, a pass over them.
    pub(crate) fn freed_at(&self, prec: u8, position: usize) -> Option<Need>
        ensures { (machine : Machine) → slice_get (machines_of self.now.board.table) position ≡ Some machine → result ≡ freed_on prec (tasks_claimed self.now) machine }
    {
        self.tenants.freed_at(self.board, prec, position)
    }

    /// Readies the claims for many questions that name a machine: each costs eight look-ups from now on, and no pass
    /// over the claims. Does nothing while they are few, so it is called again as they grow. All stays as it is,
    /// also where memory runs out. Costs the claims, the first time that they aren't few.
    pub fn ready_for_machines(&mut self, alloc: Global) -> Result<(), NoMemory>
        ensures { self.new ≡ self.old }
    {
        if self.claims.len() < FEW {
            return Ok(());
        }
        self.tenants.plant(alloc)
    }

    /// Places a claim on the cell after those before it, on which it would be placed and evict all of its
    /// victims. The indexes are told. Where memory runs out, all is as before.
    ///
    /// A claim without victims costs a look-up, whatever runs on its machine, and where its
    /// key isn't greater than those before it, up to a pass over these; one with victims costs the tasks on
    /// its machine, and the first one the claims before it.
    pub fn claim(
        &mut self,
        alloc: Global,
        indexes: &mut Indexes,
        claim: Claim,
    ) -> Result<(), NoMemory>
        requires goes_in { GoesInWhole (cell_after self.old) claim }
        requires tell { TellAll (cell_after self.old) indexes.old }
        ensures board { self.new.board ≡ self.old.board }
        ensures claims { OnOk result (self.new.claims ≡ self.old.claims ++ claim ∷ []) }
        ensures cell { OnOk result (cell_after self.new ≡ after_claim (cell_after self.old) (claim, judge_fine (cell_after self.old) claim)) }
        ensures err { OnErr result (self.new ≡ self.old) }
        ensures tell { TellAll (cell_after self.new) indexes.new }
        ensures seen { indexes.new.seen ≡ indexes.old.seen }
    {
        self.claims.reserve(1)?;
        self.machines.reserve(1)?;
        self.tenants.make_room(alloc, self.running, &claim)?;
        self.tenants.place(self.running, &claim);
        indexes.tell_claim(self.board, &self.tenants, &claim);
        self.machines.push_reserved(claim.machine);
        self.claims.push_reserved(claim);
        Ok(())
    }

    /// Takes the claims back, and hands them out in order. The indexes tell of the board again. Costs a
    /// look-up for each claim, once for claims in a row on one machine.
    pub fn end(self, indexes: &mut Indexes) -> Vec<Claim>
        requires tell { TellAll (cell_after self) indexes.old }
        ensures claims { result.items ≡ self.entry.claims }
        ensures tell { TellAll (cell_of self.entry.board) indexes.new }
        ensures seen { indexes.new.seen ≡ indexes.old.seen }
    {
        let Overlay {
            board,
            claims,
            machines,
            ..
        } = self;
        let seen = indexes.seen();
        indexes.tell_machines(board, seen, &machines);
        claims
    }
}
