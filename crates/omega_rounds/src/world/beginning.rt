//! Where a round begins: its rows open, and each scheduler gets what it is asked to place.
ghost use Rattle.std.specs.Prelude.{◌≡◌, ◌<◌, ◌^◌, List, length, OnOk};
ghost use Rattle.std.specs.List.{fold};
ghost use Rattle.omega_feed.specs.Open.{OthersAreQuiet};
ghost use Rattle.omega_model.specs.Lawful.{opened};
ghost use Rattle.omega_model.specs.State.{state};
ghost use Rattle.omega_model.specs.Wanted.{wanted as wanted_tasks, wanted_after};
ghost use Rattle.omega_model.specs.declared.rows.Row.{Row};
ghost use Rattle.omega_model.specs.declared.rows.TraceTables.{TraceTables};
ghost use Rattle.omega_rounds.specs.Beginning.{BeginAll, IsAsked};
ghost use Rattle.omega_workers.specs.Workers.{HaveNoWork};

use omega_cell::Cell;
use omega_feed::{OpenJobs, Wanted};
use omega_model::{NoMemory, Round};
use omega_opening::{Demand, open_round};
use omega_workers::Worker;
use std::alloc::Global;

/// Opens a round: appends its entry and those of its rows to the cell, and hands each scheduler what it is
/// asked to place then; none may have work before. Only jobs of which something may have to be placed are open
/// afterwards. Costs the rows, what their entries change, and of each open job its blocks of slots and in those with a
/// wanted task the slots.
pub(crate) fn open_and_begin(
    alloc: Global,
    round: Round,
    demand: &mut Demand,
    cell: &mut Cell,
    workers: &mut Vec<Worker>,
) -> Result<(), NoMemory>
    requires quiet { OthersAreQuiet demand.old.open_jobs demand.old.wanted (state cell.old.history).tasks }
    requires asked { IsAsked (record demand.old.wanted { tasks = fold wanted_after demand.old.wanted.tasks round.rows }) }
    requires few { length workers.old.items < 2 ^ 32 }
    requires no_work { HaveNoWork workers.old.items }
    ensures history { (trace : TraceTables) (rows : List Row) → demand.old.wanted.disks ≡ trace.disks
        → demand.old.wanted.tasks ≡ wanted_tasks rows
        → OnOk result (cell.new.history ≡ (opened trace rows cell.old.history round).history) }
    ensures wanted { OnOk result (demand.new.wanted
        ≡ record demand.old.wanted { tasks = fold wanted_after demand.old.wanted.tasks round.rows }) }
    ensures quiet { OnOk result (OthersAreQuiet demand.new.open_jobs demand.new.wanted (state cell.new.history).tasks) }
    ensures workers { OnOk result (BeginAll demand.new.wanted cell.new.history workers.old.items workers.new.items) }
{
    open_round(alloc, round, demand, cell)?;
    begin_all(alloc, workers, &demand.wanted, &mut demand.open_jobs, cell)?;
    Ok(())
}

/// Closes the quiet ones of each scheduler's open jobs, and hands it what it is asked to place on the cell. Costs of
/// each open job its blocks of slots and in those with a wanted task the slots, and the extra tasks.
fn begin_all(
    alloc: Global,
    workers: &mut Vec<Worker>,
    wanted: &Wanted,
    open_jobs: &mut OpenJobs,
    cell: &Cell,
) -> Result<(), NoMemory>
    requires asked { IsAsked wanted.now }
    requires quiet { OthersAreQuiet open_jobs.old wanted.now (state cell.now.history).tasks }
    requires few { length workers.old.items < 2 ^ 32 }
    requires no_work { HaveNoWork workers.old.items }
    ensures workers { OnOk result (BeginAll wanted.now cell.now.history workers.old.items workers.new.items) }
    ensures quiet { OnOk result (OthersAreQuiet open_jobs.new wanted.now (state cell.now.history).tasks) }
{
    for i in 0..workers.len() {
        let board = cell.board();
        open_jobs.settle(i as u32, wanted, board);
        let requests = wanted.requests(alloc, i as u32, board, open_jobs)?;
        workers[i].begin(requests)?;
    }
    Ok(())
}
