//! What a scheduler plans when it syncs, in turns and on threads.
ghost use Rattle.std.specs.Prelude.{◌≡◌, ◌+◌, ◌<◌, ◌^◌, List, length, IfOk, OnOk};
ghost use Rattle.omega_board.specs.Board.{cell_of};
ghost use Rattle.omega_plan.specs.Indexes.{AreIndexesOf, TellAll};
ghost use Rattle.omega_machines.specs.Table.{seq_at};
ghost use Rattle.omega_model.specs.Copy.{StandsFor};
ghost use Rattle.omega_model.specs.declared.entries.Entry.{Entry};
ghost use Rattle.omega_workers.specs.Plans.{IsPlan, IsUpTo, MayPlan};

use crate::attempt::attempt_txn;
use omega_board::{Board, touched};
use omega_cell::Cell;
use omega_desk::Desk;
use omega_model::{NoMemory, Request, Txn};
use omega_plan::{Indexes, seqs_on};
use std::alloc::Global;

/// What a scheduler has planned on what it has seen, and is to commit.
#[derive(Drop)]
pub struct Plan {
    /// How many entries it had seen.
    pub seen: u64,
    pub txn: Txn,
    /// For each claim the sequence number that its machine had after these entries.
    pub seqs: Vec<u64>,
    /// The request, where its wishes had to be listed for the plan.
    pub listed: Option<Request>,
}

/// The plan for the first request that is left at a desk, made on the cell's board with these indexes,
/// which are brought up to it. A transaction of 2^32 claims or more is answered as want of memory. Costs the
/// plan, and the entries that the indexes haven't seen.
pub fn plan_first(
    alloc: Global,
    desk: &Desk,
    indexes: &mut Indexes,
    cell: &Cell,
) -> Result<Plan, NoMemory>
    requires may { MayPlan desk.now }
    requires up_to { IsUpTo cell.now.history desk.now }
    requires indexes { AreIndexesOf cell.now.history indexes.old }
    ensures indexes { AreIndexesOf cell.now.history indexes.new }
    ensures plan { IfOk result (IsPlan cell.now.history desk.now) }
    ensures seen { IfOk result (λ plan. plan.seen ≡ length cell.now.history) }
    ensures short { OnOk result (length cell.now.history + 1 < 2 ^ 64) }
{
    let (history, board) = (cell.history(), cell.board());
    let machines = touched(alloc, &history[indexes.seen() as usize..])?;
    indexes.make_room(board)?;
    let seen = history.len() as u64;
    indexes.go_on(board, seen, &machines);
    plan_on(alloc, desk, seen, board, indexes)
}

/// The plan, made on the board after so many entries, of which these indexes tell.
fn plan_on(
    alloc: Global,
    desk: &Desk,
    seen: u64,
    board: &Board,
    indexes: &mut Indexes,
) -> Result<Plan, NoMemory>
    requires may { MayPlan desk.now }
    requires tell { TellAll (cell_of board.now) indexes.old }
    ensures tell { TellAll (cell_of board.now) indexes.new }
    ensures seen { indexes.new.seen ≡ indexes.old.seen }
    ensures plan { IfOk result (λ plan. (history : List Entry) → StandsFor (cell_of board.now) (seq_at board.now.table) seen history
        → IsUpTo history desk.now → IsPlan history desk.now plan) }
    ensures after { IfOk result (λ plan. plan.seen ≡ seen) }
{
    let listed = desk.listed(alloc)?;
    let txn = attempt_txn(alloc, desk, &listed, board, indexes)?;
    let seqs = seqs_on(alloc, board, txn.claims.as_slice())?;
    Ok(Plan {
        seen,
        txn,
        seqs,
        listed,
    })
}
