//! Plans of one turn that are made at the same time, all on the one board that the schedulers share.
ghost use Rattle.std.specs.Prelude.{◌<◌, length, OnOk};
ghost use Rattle.std.specs.Thread.{IsSync};
ghost use Rattle.omega_plan.specs.Indexes.{AreIndexesOf};
ghost use Rattle.omega_workers.specs.Forked.{AllHaveSyncedOrStay, AreReady, IsNotDue};
ghost use Rattle.std.specs.List.{AllByRecursion as Each};

use crate::worker::Worker;
use omega_cell::Cell;
use omega_model::NoMemory;
use omega_plan::Indexes;
use std::alloc::Global;
use std::thread::{Threads, join_mut};

/// Lets all of these workers sync that have work and haven't, in at most so many pieces, each with indexes of
/// its own and on a thread of its own where one can be made. All plan on the board of the one cell, which stays
/// as it is. Waits only for the pieces that it has begun; they wait for nobody, and the call returns if they do.
/// Want of memory in one piece is want of memory of the call; any of the workers may have synced then.
pub fn sync_pieces<R: Threads + Sync>(
    rt: &R,
    alloc: Global,
    cell: &Cell,
    workers: &mut [Worker],
    indexes: &mut [Indexes],
    pieces: usize,
) -> Result<(), NoMemory>
    requires sync { IsSync R.row }
    requires ready { AreReady cell.now.history workers.old }
    requires some { 0 < length indexes.old }
    requires indexes { Each (AreIndexesOf cell.now.history) indexes.old }
    ensures workers { AllHaveSyncedOrStay cell.now.history workers.old workers.new }
    ensures indexes { Each (AreIndexesOf cell.now.history) indexes.new }
    ensures synced { OnOk result (Each IsNotDue workers.new) }
{
    if workers.len() < 2 || indexes.len() < 2 || pieces < 2 {
        return sync_each(alloc, cell, workers, &mut indexes[0]);
    }
    let below = pieces / 2;
    let above = pieces - below;
    let (low, high) = workers.split_at_mut(workers.len() / 2);
    let (near, far) = indexes.split_at_mut(indexes.len() / 2);
    let (one, two) = join_mut(
        rt,
        &mut || -> Result<(), NoMemory>
            requires sync { IsSync R.row }
            requires ready { AreReady cell.now.history low.now }
            requires some { 0 < length near.now }
            requires indexes { Each (AreIndexesOf cell.now.history) near.now }
            ensures workers { AllHaveSyncedOrStay cell.entry.now.history low.entry.now low.exit.now }
            ensures indexes { Each (AreIndexesOf cell.entry.now.history) near.exit.now }
            ensures synced { OnOk result (Each IsNotDue low.exit.now) }
        { sync_pieces(rt, alloc, cell, low, near, below) },
        &mut || -> Result<(), NoMemory>
            requires sync { IsSync R.row }
            requires ready { AreReady cell.now.history high.now }
            requires some { 0 < length far.now }
            requires indexes { Each (AreIndexesOf cell.now.history) far.now }
            ensures workers { AllHaveSyncedOrStay cell.entry.now.history high.entry.now high.exit.now }
            ensures indexes { Each (AreIndexesOf cell.entry.now.history) far.exit.now }
            ensures synced { OnOk result (Each IsNotDue high.exit.now) }
        { sync_pieces(rt, alloc, cell, high, far, above) },
    );
    one?;
    two
}

/// Lets all of these workers sync that have work and haven't, one after the other. Where memory runs out
/// the first ones have.
fn sync_each(
    alloc: Global,
    cell: &Cell,
    workers: &mut [Worker],
    indexes: &mut Indexes,
) -> Result<(), NoMemory>
    requires ready { AreReady cell.now.history workers.old }
    requires indexes { AreIndexesOf cell.now.history indexes.old }
    ensures workers { AllHaveSyncedOrStay cell.now.history workers.old workers.new }
    ensures indexes { AreIndexesOf cell.now.history indexes.new }
    ensures synced { OnOk result (Each IsNotDue workers.new) }
{
    let Some((worker, rest)) = workers.split_first_mut() else {
        return Ok(());
    };
    worker.sync_if_due(alloc, indexes, cell)?;
    sync_each(alloc, cell, rest, indexes)
}
