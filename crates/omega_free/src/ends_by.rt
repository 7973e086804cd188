//! How a round, an end and a commit come in, where tasks end by the trace's rows or of themselves.
ghost use Rattle.std.specs.Prelude.{◌≡◌, ◌≤◌, ◌<◌, [], true, List, IfOk, OnOk, All, drop, length};
ghost use Rattle.std.specs.List.{fold};
ghost use Rattle.omega_feed.specs.Open.{OthersAreQuiet};
ghost use Rattle.omega_model.specs.ExtraTasks.{first_extra};
ghost use Rattle.omega_model.specs.Feed.{feed};
ghost use Rattle.omega_model.specs.Lawful.{opened, rows_of};
ghost use Rattle.omega_model.specs.State.{state};
ghost use Rattle.omega_model.specs.Touches.{is_commit};
ghost use Rattle.omega_model.specs.Wanted.{wanted as wanted_tasks, wanted_after};
ghost use Rattle.omega_model.specs.declared.rows.Row.{Row};
ghost use Rattle.omega_model.specs.declared.rows.TraceTables.{TraceTables};
ghost use Rattle.omega_opening.specs.Reopening.{WereQuiet};
ghost use Rattle.omega_free.specs.EndsBy.{EndsBy, FindsBy, NotesBy, OpensBy};
ghost use Rattle.omega_free.specs.KeptEnds.{KeepsEndsBy};

use crate::own_ends::OwnEnds;
use omega_cell::Cell;
use omega_feed::EventRounds;
use omega_model::{Ends, NoMemory, Round, Settings};
use omega_opening::{Demand, open_round, reopen_since};
use omega_pieces::DueEnd;
use std::alloc::Global;

/// What is kept of ends at first, where the trace has these rounds: nothing where its rows end tasks. Costs what
/// `OwnEnds::new` costs.
pub(crate) fn own_ends(
    alloc: Global,
    settings: &Settings,
    rounds: &EventRounds,
) -> Result<Option<OwnEnds>, NoMemory>
    ensures { (trace : TraceTables) → rows_of rounds.now ≡ feed trace → IfOk result (KeepsEndsBy settings.now.ends trace [] [] []) }
{
    match settings.ends {
        Ends::Trace => Ok(None),
        Ends::Own => {
            let own = OwnEnds::new(alloc, rounds)?;
            Ok(Some(own))
        }
    }
}

/// The end that is due first of those of the tasks that run on a cell; `None` exactly where none is due.
/// Costs what `EndsDue::first` costs.
pub(crate) fn first_end(own: &mut Option<OwnEnds>, cell: &Cell) -> Option<DueEnd>
    ensures { FindsBy cell.now.history own.old own.new result }
{
    match own {
        Some(own) => own.first(cell),
        None => None,
    }
}

/// The last entry of a cell's history was committed at this time, in microseconds. Costs what `OwnEnds::commit` costs.
pub(crate) fn note_commit(
    own: &mut Option<OwnEnds>,
    time: u128,
    cell: &Cell,
) -> Result<(), NoMemory>
    ensures { OnOk result (NotesBy time cell.now.history own.old own.new) }
{
    match own {
        Some(own) => {
            own.commit(time, cell)?;
            Ok(())
        }
        None => Ok(()),
    }
}

/// Opens a round, where up to a place of the cell's history entries were looked at for tasks that they stopped, and
/// commits stand behind it. Answers up to where they were looked at then, which is the end. Costs the rows, what their
/// entries change, and the commits.
pub(crate) fn open_by(
    alloc: Global,
    round: Round,
    own: &mut Option<OwnEnds>,
    demand: &mut Demand,
    cell: &mut Cell,
    looked_at: usize,
) -> Result<usize, NoMemory>
    requires within { looked_at ≤ length cell.old.history }
    requires commits { All (λ entry. is_commit entry ≡ true) (drop looked_at cell.old.history) }
    requires quiet { WereQuiet demand.old.open_jobs demand.old.wanted looked_at cell.old.history }
    ensures opens { OnOk result (OpensBy round cell.old.history demand.old.wanted own.old cell.new.history demand.new.wanted own.new) }
    ensures quiet { OnOk result (OthersAreQuiet demand.new.open_jobs demand.new.wanted (state cell.new.history).tasks) }
    ensures place { IfOk result (λ place. place ≡ length cell.new.history) }
{
    match own {
        Some(own) => {
            let place = own.open(alloc, round, demand, cell, looked_at)?;
            Ok(place)
        }
        None => {
            let place = open_rows(alloc, round, demand, cell, looked_at)?;
            Ok(place)
        }
    }
}

/// The task ends that is due to end first, where it is so of places in the cell's history; where the trace's rows end
/// tasks, none does. Answers up to where its entries were looked at then, which is the end. Costs what `OwnEnds::end`
/// costs.
pub(crate) fn end_by(
    alloc: Global,
    end: DueEnd,
    own: &mut Option<OwnEnds>,
    demand: &mut Demand,
    cell: &mut Cell,
    looked_at: usize,
) -> Result<usize, NoMemory>
    requires low { end.key.index < first_extra }
    requires within { looked_at ≤ length cell.old.history }
    requires commits { All (λ entry. is_commit entry ≡ true) (drop looked_at cell.old.history) }
    requires quiet { WereQuiet demand.old.open_jobs demand.old.wanted looked_at cell.old.history }
    ensures ends { OnOk result (EndsBy end cell.old.history demand.old.wanted own.old cell.new.history demand.new.wanted own.new) }
    ensures quiet { OnOk result (OthersAreQuiet demand.new.open_jobs demand.new.wanted (state cell.new.history).tasks) }
    ensures place { IfOk result (λ place. place ≡ length cell.new.history) }
{
    match own {
        Some(own) => {
            let place = own.end(alloc, end, demand, cell, looked_at)?;
            Ok(place)
        }
        None => {
            let place = look_on(demand, cell, looked_at)?;
            Ok(place)
        }
    }
}

/// Opens a round all of whose rows count, with the same of places in the cell's history.
pub(crate) fn open_rows(
    alloc: Global,
    round: Round,
    demand: &mut Demand,
    cell: &mut Cell,
    looked_at: usize,
) -> Result<usize, NoMemory>
    requires within { looked_at ≤ length cell.old.history }
    requires commits { All (λ entry. is_commit entry ≡ true) (drop looked_at cell.old.history) }
    requires quiet { WereQuiet demand.old.open_jobs demand.old.wanted looked_at cell.old.history }
    ensures history { (trace : TraceTables) (rows : List Row) → demand.old.wanted.disks ≡ trace.disks
        → demand.old.wanted.tasks ≡ wanted_tasks rows
        → OnOk result (cell.new.history ≡ (opened trace rows cell.old.history round).history) }
    ensures wanted { OnOk result (demand.new.wanted
        ≡ record demand.old.wanted { tasks = fold wanted_after demand.old.wanted.tasks round.rows }) }
    ensures quiet { OnOk result (OthersAreQuiet demand.new.open_jobs demand.new.wanted (state cell.new.history).tasks) }
    ensures place { IfOk result (λ place. place ≡ length cell.new.history) }
{
    reopen_since(demand, cell, looked_at)?;
    open_round(alloc, round, demand, cell)?;
    Ok(cell.history().len())
}

/// Looks at the entries behind a place of a cell's history, which are commits, for tasks that they evicted, and opens
/// their jobs. Answers up to where they were looked at then, which is the end. Costs the commits.
pub(crate) fn look_on(demand: &mut Demand, cell: &Cell, looked_at: usize) -> Result<usize, NoMemory>
    requires within { looked_at ≤ length cell.now.history }
    requires commits { All (λ entry. is_commit entry ≡ true) (drop looked_at cell.now.history) }
    requires quiet { WereQuiet demand.old.open_jobs demand.old.wanted looked_at cell.now.history }
    ensures wanted { demand.new.wanted ≡ demand.old.wanted }
    ensures quiet { OnOk result (OthersAreQuiet demand.new.open_jobs demand.new.wanted (state cell.now.history).tasks) }
    ensures place { IfOk result (λ place. place ≡ length cell.now.history) }
{
    reopen_since(demand, cell, looked_at)?;
    Ok(cell.history().len())
}
