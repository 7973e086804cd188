//! The rows of a round, applied to the cell.
ghost use Rattle.std.specs.Prelude.{◌≡◌, ◌<◌, ◌++◌, ◌∷◌, [], true, List, position, IfSome, IsTrue, OnOk};
ghost use Rattle.std.specs.List.{fold};
ghost use Rattle.omega_board.specs.Board.{cell_of};
ghost use Rattle.omega_feed.specs.Open.{OthersAreQuiet};
ghost use Rattle.omega_model.specs.Applying.{ListsOrHasRoom, machine_in};
ghost use Rattle.omega_model.specs.Lawful.{opened};
ghost use Rattle.omega_model.specs.State.{state};
ghost use Rattle.omega_model.specs.RowEntries.{row_entries};
ghost use Rattle.omega_model.specs.Wanted.{wanted as wanted_tasks, wanted_after};
ghost use Rattle.omega_model.specs.declared.rows.Row.{Row};
ghost use Rattle.omega_model.specs.declared.rows.TraceTables.{TraceTables};
ghost use Rattle.omega_opening.specs.Opening.{MayFeed, MayFeedAll};

use crate::demand::Demand;
use crate::reopening::reopen_stopped;
use omega_board::Board;
use omega_cell::Cell;
use omega_feed::{OpenJobs, Wanted};
use omega_model::{Entries, Entry, MOST_MACHINES, NoMemory, Round, Row};
use std::alloc::Global;

/// Opens a round: appends its entry and those of its rows to the cell. The jobs are opened of which something may have
/// to be placed then; none is closed. More than `MOST_MACHINES` machines are answered as want of memory. Costs the rows,
/// and what their entries change; jobs that were open cost nothing.
pub fn open_round(
    alloc: Global,
    round: Round,
    demand: &mut Demand,
    cell: &mut Cell,
) -> Result<(), NoMemory>
    requires { OthersAreQuiet demand.old.open_jobs demand.old.wanted (state cell.old.history).tasks }
    ensures history { (trace : TraceTables) (rows : List Row) → demand.old.wanted.disks ≡ trace.disks
        → demand.old.wanted.tasks ≡ wanted_tasks rows
        → OnOk result (cell.new.history ≡ (opened trace rows cell.old.history round).history) }
    ensures wanted { OnOk result (demand.new.wanted
        ≡ record demand.old.wanted { tasks = fold wanted_after demand.old.wanted.tasks round.rows }) }
    ensures quiet { OnOk result (OthersAreQuiet demand.new.open_jobs demand.new.wanted (state cell.new.history).tasks) }
{
    open(
        alloc,
        cell,
        &mut demand.wanted,
        &mut demand.open_jobs,
        round,
    )
}

/// Appends a round's entry and those of its rows in order. Of the jobs that aren't open, those of which
/// something may have to be placed then are opened. More than `MOST_MACHINES` machines are answered as
/// want of memory. Costs the rows, and what their entries change.
fn open(
    alloc: Global,
    cell: &mut Cell,
    wanted: &mut Wanted,
    open_jobs: &mut OpenJobs,
    round: Round,
) -> Result<(), NoMemory>
    requires quiet { OthersAreQuiet open_jobs.old wanted.old (state cell.old.history).tasks }
    ensures history { (trace : TraceTables) (rows : List Row) → wanted.old.disks ≡ trace.disks
        → wanted.old.tasks ≡ wanted_tasks rows
        → OnOk result (cell.new.history ≡ (opened trace rows cell.old.history round).history) }
    ensures wanted { OnOk result (wanted.new
        ≡ record wanted.old { tasks = fold wanted_after wanted.old.tasks round.rows }) }
    ensures quiet { OnOk result (OthersAreQuiet open_jobs.new wanted.new (state cell.new.history).tasks) }
{
    let Round { number, rows } = round;
    feed(alloc, cell, Entry::Round { number })?;
    for row in rows.into_items() {
        wanted.take(&row, open_jobs)?;
        apply_row(alloc, cell, wanted, open_jobs, row)?;
    }
    Ok(())
}

/// Appends the entries of the row that was taken last, and opens the jobs of the tasks that they may stop. More than
/// `MOST_MACHINES` machines are answered as want of memory. Costs what the entries change.
pub fn apply_row(
    alloc: Global,
    cell: &mut Cell,
    wanted: &Wanted,
    open_jobs: &mut OpenJobs,
    row: Row,
) -> Result<(), NoMemory>
    requires quiet { OthersAreQuiet open_jobs.old wanted.now (state cell.old.history).tasks }
    ensures history { OnOk result (cell.new.history ≡ cell.old.history
        ++ row_entries wanted.now.disks (state cell.old.history) wanted.now.tasks row) }
    ensures quiet { OnOk result (OthersAreQuiet open_jobs.new wanted.now (state cell.new.history).tasks) }
{
    let entries = wanted.entries(alloc, row, cell.board())?;
    feed_all(alloc, cell, wanted, open_jobs, entries)
}

/// Appends entries in order, and opens the jobs of the tasks that each of them may stop.
fn feed_all(
    alloc: Global,
    cell: &mut Cell,
    wanted: &Wanted,
    open_jobs: &mut OpenJobs,
    entries: Entries,
) -> Result<(), NoMemory>
    requires may { MayFeedAll cell.old.history entries }
    requires quiet { OthersAreQuiet open_jobs.old wanted.now (state cell.old.history).tasks }
    ensures history { OnOk result (cell.new.history ≡ cell.old.history ++ entries) }
    ensures quiet { OnOk result (OthersAreQuiet open_jobs.new wanted.now (state cell.new.history).tasks) }
{
    for entry in entries.into_items() {
        feed_one(alloc, cell, wanted, open_jobs, entry)?;
    }
    Ok(())
}

/// Appends an entry, and opens the jobs of the tasks that it may stop.
fn feed_one(
    alloc: Global,
    cell: &mut Cell,
    wanted: &Wanted,
    open_jobs: &mut OpenJobs,
    entry: Entry,
) -> Result<(), NoMemory>
    requires may { MayFeed cell.old.history entry }
    requires quiet { OthersAreQuiet open_jobs.old wanted.now (state cell.old.history).tasks }
    ensures history { OnOk result (cell.new.history ≡ cell.old.history ++ entry ∷ []) }
    ensures quiet { OnOk result (OthersAreQuiet open_jobs.new wanted.now (state cell.new.history).tasks) }
{
    reopen_stopped(alloc, open_jobs, wanted, cell.board(), &entry)?;
    feed(alloc, cell, entry)?;
    Ok(())
}

/// Appends an entry.
fn feed(alloc: Global, cell: &mut Cell, entry: Entry) -> Result<(), NoMemory>
    requires { MayFeed cell.old.history entry }
    ensures { OnOk result (cell.new.history ≡ cell.old.history ++ entry ∷ []) }
{
    if !has_room(cell.board(), &entry) {
        return Err(NoMemory);
    }
    match cell.feed(alloc, entry) {
        Ok(()) => Ok(()),
        Err(_) => Err(NoMemory),
    }
}

/// Whether a board has the machine of an entry, or room for it.
fn has_room(board: &Board, entry: &Entry) -> bool
    ensures { IsTrue result → IfSome (machine_in entry.now) (ListsOrHasRoom (cell_of board.now).machines) }
{
    match entry {
        Entry::MachineAdd { machine, .. }
        | Entry::MachineUpdate { machine, .. }
        | Entry::MachineRemove { machine }
        | Entry::AttrSet { machine, .. }
        | Entry::AttrDelete { machine, .. } => has_room_for(board, *machine),
        Entry::Round { .. } | Entry::End { .. } | Entry::Commit { .. } => true,
    }
}

/// Whether a board has a machine, or room for it.
fn has_room_for(board: &Board, machine: u64) -> bool
    ensures { IsTrue result → ListsOrHasRoom (cell_of board.now).machines machine }
{
    let machines = board.machines();
    machines.len() < MOST_MACHINES || machines.position(machine).is_some()
}
