//! What is left at a desk of its scheduler's pass.
ghost use Rattle.std.specs.Prelude.{◌≡◌, IfOk, OnOk, OnErr};
ghost use Rattle.omega_board.specs.Board.{cell_of};
ghost use Rattle.omega_desk.specs.Desks.{IsSameDesk, left_at};
ghost use Rattle.omega_feed.specs.Open.{OthersAreQuiet};
ghost use Rattle.omega_free_laws.specs.StillWanted.{has_wanted_wish, without_unwanted};
ghost use Rattle.omega_free.specs.PassDesks.{IsAsked, IsOfSome, SyncsDesk, is_first_unwanted};

use omega_board::Board;
use omega_desk::Desk;
use omega_feed::{OpenJobs, Wanted};
use omega_model::{NoMemory, Request};
use std::alloc::Global;

/// The first requests leave a desk of which nothing is still wanted. Where memory runs out some of them have left. Costs
/// their wishes, and those of the next request up to the first that is wanted, each a look-up; for a request of which
/// wishes are counted, a list of all of them.
pub fn drop_unwanted(alloc: Global, desk: &mut Desk, wanted: &Wanted) -> Result<(), NoMemory>
    ensures desk { IsSameDesk desk.old desk.new }
    ensures attempts { desk.new.attempts ≡ desk.old.attempts }
    ensures left { OnOk result (left_at desk.new ≡ without_unwanted wanted.now.tasks (left_at desk.old) desk.old.requests) }
    ensures some { OnErr result (without_unwanted wanted.now.tasks (left_at desk.new) desk.new.requests
        ≡ without_unwanted wanted.now.tasks (left_at desk.old) desk.old.requests) }
{
    while is_first_unwanted(alloc, desk, wanted)? {
        desk.skip();
    }
    Ok(())
}

/// Whether a request is left at a desk, and nothing of the first is still wanted. Costs its wishes up to the first that
/// is, each a look-up; where wishes of it are counted, a list of all of them.
fn is_first_unwanted(alloc: Global, desk: &Desk, wanted: &Wanted) -> Result<bool, NoMemory>
    ensures { IfOk result (λ unwanted. unwanted ≡ is_first_unwanted wanted.now.tasks desk.now.requests) }
{
    let listed = desk.listed(alloc)?;
    match desk.present(&listed) {
        Some(request) => Ok(!has_wanted_wish(request, wanted)),
        None => Ok(false),
    }
}

/// Whether some wish of a request is still wanted. Costs its wishes up to the first that is.
fn has_wanted_wish(request: &Request, wanted: &Wanted) -> bool
    ensures { result ≡ has_wanted_wish wanted.now.tasks request.now }
{
    request
        .wishes
        .as_slice()
        .iter()
        .any(|wish| wanted.misses(wish.key))
}

/// A scheduler syncs at its desk: the first requests leave of which nothing is still wanted, and where none remains
/// and there was cause for a new pass since the pass there began, a new pass begins with what is open now, once the
/// quiet ones of the scheduler's open jobs are closed. `begun` and `triggers` count how often there had been cause when
/// that pass began, and until now; the answer is the former after the sync. Where memory runs out no request has left of
/// which something is still wanted, and no new pass has begun. Costs what `drop_unwanted` costs, and a new pass the
/// scheduler's open jobs, their slots, and its requests; other schedulers' jobs cost nothing.
pub fn sync_desk(
    alloc: Global,
    desk: &mut Desk,
    begun: u64,
    triggers: u64,
    wanted: &Wanted,
    open_jobs: &mut OpenJobs,
    board: &Board,
) -> Result<u64, NoMemory>
    requires quiet { OthersAreQuiet open_jobs.old wanted.now board.now.tasks }
    requires asked { IsAsked wanted.now }
    requires cell { IsOfSome (cell_of board.now) }
    ensures quiet { OthersAreQuiet open_jobs.new wanted.now board.now.tasks }
    ensures same { IsSameDesk desk.old desk.new }
    ensures attempts { desk.new.attempts ≡ desk.old.attempts }
    ensures syncs { IfOk result (λ begun_then. SyncsDesk wanted.now (cell_of board.now) triggers desk.old begun desk.new begun_then) }
    ensures some { OnErr result ((without_unwanted wanted.now.tasks (left_at desk.new) desk.new.requests).requests
        ≡ (without_unwanted wanted.now.tasks (left_at desk.old) desk.old.requests).requests) }
{
    drop_unwanted(alloc, desk, wanted)?;
    if desk.has_work() {
        return Ok(begun);
    }
    if triggers <= begun {
        return Ok(begun);
    }
    let scheduler = desk.scheduler();
    open_jobs.settle(scheduler, wanted, board);
    let requests = wanted.requests(alloc, scheduler, board, open_jobs)?;
    desk.begin(requests)?;
    Ok(triggers)
}
