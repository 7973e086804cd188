//! What a scheduler plans on a board.
ghost use Rattle.std.specs.Prelude.{◌≡◌, ◌≤◌, ◌<◌, ◌^◌, length, IfOk};
ghost use Rattle.omega_board.specs.Board.{cell_of};
ghost use Rattle.omega_plan.specs.Indexes.{TellAll};
ghost use Rattle.omega_model.specs.Draws.{drawn_start};
ghost use Rattle.omega_workers.specs.Plans.{IsPlannedOver, MayPlan};

use omega_board::Board;
use omega_desk::Desk;
use omega_model::{NoMemory, Request, Txn};
use omega_plan::{Indexes, plan};
use std::alloc::Global;

/// The transaction of an attempt on the first request that is left at a desk, planned on a board of which
/// these indexes tell. `listed` has the request where wishes of it are counted at the desk. A transaction of
/// 2^32 claims or more is answered as want of memory. The indexes tell of the board afterwards in any case.
/// Costs the plan.
pub(crate) fn attempt_txn(
    alloc: Global,
    desk: &Desk,
    listed: &Option<Request>,
    board: &Board,
    indexes: &mut Indexes,
) -> Result<Txn, NoMemory>
    requires may { MayPlan desk.now }
    requires listed { listed.now ≡ desk.now.counted }
    requires tell { TellAll (cell_of board.now) indexes.old }
    ensures txn { IfOk result (IsPlannedOver desk.now board.now) }
    ensures few { IfOk result (λ txn. length txn.claims < 2 ^ 32) }
    ensures tell { TellAll (cell_of board.now) indexes.new }
    ensures seen { indexes.new.seen ≡ indexes.old.seen }
{
    let start = start_on(desk, board);
    let Some(request) = desk.present(listed) else {
        unreachable!()
    };
    let txn = plan(alloc, board, indexes, request, start, &desk.policy())?;
    if txn.claims.len() > u32::MAX as usize {
        return Err(NoMemory);
    }
    Ok(txn)
}

/// The place in a board's list of machines at which a desk's present attempt begins.
pub(crate) fn start_on(desk: &Desk, board: &Board) -> usize
    ensures drawn { result ≡ drawn_start desk.now.settings desk.now.scheduler desk.now.attempts (length board.now.table) }
    ensures within { result ≤ length board.now.table }
{
    desk.start(board.machines().len())
}
