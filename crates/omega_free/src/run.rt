//! The run of a trace by the free clock.
ghost use Rattle.std.specs.Prelude.{IfOk};
ghost use Rattle.omega_model.specs.Ranges.{IsInRange};
ghost use Rattle.omega_model.specs.declared.rows.TraceTables.{TraceTables};
ghost use Rattle.omega_free.specs.FreeRuns.{IsWholeRun};
ghost use Rattle.omega_free.specs.KeptWorlds.{IsAtEnd};

use crate::clock::in_free_time;
use crate::remains::Remains;
use crate::world::World;
use omega_cell::Effects;
use omega_feed::{EventRounds, WaitingTasks};
use omega_model::{Entries, NoMemory, Settings, TraceTables};
use omega_sim::Times;
use std::alloc::Global;

/// A whole run by the free clock: its history with the times of its commits, what its report is made of, and what is
/// left of the world in which it ran.
#[derive(Drop)]
pub struct WholeRun {
    /// The history.
    pub history: Entries,
    /// The times of its commits, in the order of the history.
    pub times: Times,
    /// What its entries did to the cell.
    pub effects: Effects,
    /// The wanted tasks that don't run at its end, and their jobs.
    pub left: WaitingTasks,
    /// All rounds of the trace.
    pub rounds: EventRounds,
    /// What is left of the world in which it ran.
    pub remains: Remains,
}

/// Runs a trace by the free clock until no round is to come and nobody is deciding. Each round opens at the greatest
/// time of its rows, whoever is deciding then. Tasks end by these rows, or each when it has run for as long as it did in
/// the trace, as the settings say. Takes the tables over, and gives their memory back but for the rows of the events and
/// of constraints. Where memory runs out nothing is left of the run. A time of 2^128 microseconds or more is answered as
/// want of memory; no memory has room for as many commits as that takes.
///
/// The history and the times are the only ones of these settings and this trace. Costs the rows of the trace with what
/// their entries change, and a sort of tables of events that aren't in order of time; for each round, and for each end
/// that no row brings, a look at each scheduler, and for each that isn't deciding then a look at the jobs of which
/// something may have to be placed; and for each commit a look at each scheduler, its claims, and the plan that its
/// scheduler makes then. Where tasks end of themselves it costs besides the memory of a time for each task that was
/// placed, of each life, and of the rows that wait for their task to end.
pub fn run_freely(
    alloc: Global,
    settings: &Settings,
    tables: TraceTables,
) -> Result<WholeRun, NoMemory>
    requires { IsInRange settings.now }
    ensures { IfOk result (IsWholeRun settings.now tables) }
{
    let mut world = World::new(alloc, settings, tables)?;
    in_free_time(&mut world)?;
    whole_run(world)
}

/// The whole run of a trace, where a world stands at its end.
fn whole_run(world: World) -> Result<WholeRun, NoMemory>
    ensures { (trace : TraceTables) → IsAtEnd world trace → IfOk result (IsWholeRun world.settings trace) }
{
    let left = world.waiting()?;
    Ok(world.into_run(left))
}
